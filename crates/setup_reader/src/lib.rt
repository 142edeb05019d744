#![tactic(auto)]
//! Reads a setup document: to a parsed setup, or to the document's first fault except for cycles.
//!
//! [`read_tree`] refuses a document that isn't JSON, [`parse_setup`] one without the right shape, and [`verify`]
//! a parsed setup with another of these faults.
//!
//! The modules:
//! - `json_tree`, `shapes`, `criteria`, `reading`: from bytes to a parsed setup;
//! - `verification`, and its tests in their order: `counts`, `names`, `links` and `ranges`;
//! - `places`: the values of a tree at a place of the document.

mod counts;
mod criteria;
mod json_tree;
mod links;
mod names;
mod places;
mod ranges;
mod reading;
mod shapes;
mod verification;

pub use json_tree::read_tree;
pub use links::full_names;
pub use places::value_at;
pub use reading::parse_setup;
pub use verification::verify;
