#![tactic(auto)]
//! Runs and conversations on one scheduler, with a reader and a writer that the caller gives.
//!
//! The modules:
//!
//! - `drive`: a run. `nagsched_protocol` reads its input, and makes and writes its lines.
//! - `live`: a conversation. `next_line` takes its lines one at a time, and `live_errors` converts its
//!   errors.
//! - `json_run`: a run whose answers are JSON objects.
//! - `laws`: the texts of two runs if the second one continues from the saved state of the first.
//!
//! A run and a conversation start their scheduler fresh or from a saved state (`Start` of
//! `nagsched_protocol`).
//!
//! The modules are public, because a function `drive` and a module `drive` can't both be at the root.

pub mod drive;
pub mod json_run;
pub mod laws;
pub mod live;
mod live_errors;
mod next_line;
