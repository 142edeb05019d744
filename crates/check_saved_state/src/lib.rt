#![tactic(auto)]
//! The saved state of a scheduler, from which a scheduler can be resumed.
//!
//! A [`Saved`] contains all of a scheduler except its setup, object by object and by full name. A
//! scheduler can be resumed from every value of this type.
//!
//! As a text it is one line of JSON: [`Saved::write`] writes it, and [`Saved::read`] reads it or reports
//! the first [`SavedFault`].
//!
//! The modules:
//!
//! - `saved`: the saved state of a scheduler and of each object, and the limits.
//! - `words`, `result_letters` and `json_writer`: the JSON tree of a saved state.
//! - `table`: the members of each format.
//! - `members` and `reading`: reading a `draft` from a tree, by the table.
//! - `name`, `verification` and `invariants`: the tests of a draft.
//! - `text`: reading and writing as a whole.
//! - `fault`: the refusals.
//! - `laws`: facts about all texts and saved states.

mod draft;
mod fault;
mod invariants;
mod json_writer;
pub mod laws;
mod members;
mod name;
mod reading;
mod result_letters;
mod saved;
pub mod table;
mod text;
mod verification;
mod words;

pub use fault::SavedFault;
pub use members::{has_kind, is_known};
pub use reading::format_of;
pub use saved::{LONGEST_INTERVAL, MAX_RUNS, MAX_SAVED_BYTES, Saved, SavedObject, SavedRun};
pub use table::FORMAT;
pub use text::read_saved_tree;
