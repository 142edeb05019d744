#![tactic(auto)]
//! Reports on a setup before it is used: the summary of the setup, and the changes that a resume over it makes.
//!
//! The modules of the summary, the number of objects and links, how many objects are scheduled, and how the
//! first checks are spread:
//! - `counts`: the numbers of objects and links;
//! - `chains`: the longest chains of links, by the `depths` of objects;
//! - `spans`: the first and the last of the first checks;
//! - `summary`: all figures; `summary_text`: their lines.
//!
//! The modules of the changes, the numbers of objects that are kept, new and dropped, the number of runs that
//! are abandoned, and the values that the setup changes for an object that is kept:
//! - `diffs`: compares the objects of the setup with those of the saved state;
//! - `figures`: counts them;
//! - `change_text`: the lines.
//!
//! `laws` has the facts that both kinds of figures meet.

mod chains;
mod change_text;
mod counts;
mod depths;
mod diffs;
mod figures;
pub mod laws;
mod spans;
mod summary;
mod summary_text;

pub use chains::Chains;
pub use change_text::push_changes;
pub use counts::{Links, Reasons};
pub use spans::Span;
pub use summary::Summary;
pub use summary_text::push_summary;
