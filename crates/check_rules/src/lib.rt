#![tactic(auto)]
//! The rules between objects: the state of a host by its parents, and dependencies that block checks. The
//! rules of a single object are in check_states, and this crate exports them too.
//!
//! The rules are those of the Nagios Core 4 manual. Its chapters are "Host Checks", "Determining Status and
//! Reachability of Network Hosts" and "Host and Service Dependencies". If the manual leaves a choice, the
//! profile of this project makes it, and the item says so. A function changes only the values that it gets
//! for that purpose. No function needs memory.
//!
//! The modules:
//!
//! - `reachability`: the state of a host by its parents.
//! - `dependencies`: whether a dependency blocks a check.
//! - `criteria`: whether the state of a master makes a dependency fail.
//! - `masters`: the masters that are reached through dependencies that inherit.
//! - `laws`: facts about these rules.

mod criteria;
mod dependencies;
pub mod laws;
mod masters;
mod reachability;

pub use check_states::{
    Code, Kind, LastResults, STORED_RESULTS, Standing, State, code, decode, flaps, lawful, pending,
    percent, service_state, verdict,
};
pub use dependencies::blocked;
pub use reachability::host_state;
