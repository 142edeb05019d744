#![tactic(auto)]
//! An order of linked objects, in which each object comes after all that it links to, or a cycle among the
//! objects.
//!
//! The objects are numbers from 0 on. For each object the crate knows only which others it links to. The
//! callers give objects and links their meaning.
//!
//! The modules:
//! - `order`: makes the order;
//! - `cycle`: finds a cycle if there is no order, and says what a cycle is;
//! - `lists`: lists by number, which the crate and its callers fill.

mod cycle;
mod lists;
mod order;

pub use cycle::cycles_lead_back;
pub use lists::{empty_lists, push_to_list};
pub use order::{OrderOrCycle, topological_order};
