#![tactic(auto)]
//! Tests of books, desks and workers, with a module for each and one for their openings.
//!
//! They are in a crate of their own, because a crate with tests is proved once more for them. It holds
//! nothing else. A fact that a clause states has no test here.

use check_sched::{Call, Reply};
use std::mem::size_of;
use ticket_steps::Entry;

// An entry of a history takes 56 bytes.
const _: () = prove!(size_of::<Entry<Call, Reply>>() == 56);

#[cfg(test)]
mod books;
#[cfg(test)]
mod desks;
#[cfg(test)]
mod openings;
#[cfg(test)]
mod workers;
