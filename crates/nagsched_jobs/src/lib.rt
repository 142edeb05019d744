#![tactic(auto)]
//! The jobs `check` and `drill` of the program, over a reader and a writer that the caller gives.
//!
//! The modules:
//!
//! - `check`: reports the contents of a setup. `reading` says how much of the input is read, and
//!   `check_resumed` reports what happens to a saved state over a setup.
//! - `drill`: lets workers work on an input, with the plugin of `scripted_plugin`, and writes the result.
//!
//! All modules are public. A function `drill` and a module `drill` can't both be at the root.

pub mod check;
pub mod check_resumed;
pub mod drill;
pub mod reading;
pub mod scripted_plugin;
