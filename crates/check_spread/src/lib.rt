#![tactic(auto)]
//! The times of the first checks: how the checks of hosts and of services are spread over time when
//! scheduling starts.
//!
//! The rules are those of the Nagios Core 4 manual, chapter "Service and Host Check Scheduling"
//! (inter-check delay, service interleaving, maximum check spread). If the manual leaves a choice, the
//! profile of this project makes it, and the item says so.
//!
//! The modules:
//! - `times`: the times of all objects of a setup, and functions that other crates share;
//! - `spread`: the time of one rank;
//! - `visits`: the order in which objects are visited.

mod spread;
mod times;
mod visits;

pub use times::{copy_objects, initial_times, interleave_factor, milliseconds};
