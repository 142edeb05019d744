#![tactic(auto)]
//! The sequential scheduler of active checks: it decides which object is checked next, and answers
//! one call at a time.
//!
//! A [`Sched`] is made from a setup and the moment at which scheduling starts. It changes by
//! [`Sched::apply`], one [`Call`] at a time. [`Sched::save`] saves its state, and [`Sched::resume`]
//! makes a scheduler from a saved state, over the same setup or another one. Moments, times and
//! intervals are in milliseconds. The rules are those of the Nagios Core 4 manual, chapter "Service and
//! Host Check Scheduling". If the manual leaves a choice, the profile of this project makes it, and the
//! item says so.
//!
//! The modules:
//!
//! - `call`: the calls and their replies.
//! - `object_state`: the scheduling of one object.
//! - `candidate`: an object that waits for its check.
//! - `roster`: the objects, and the queues of those that wait.
//! - `results`: the last results of each object.
//! - `intervals`: the intervals of each object in milliseconds.
//! - `report`: the effect of a check's result on an object.
//! - `saved_indexes`: the index of each object in a saved state.
//! - `resumed_object`: an object of a saved state after a resume.
//! - `sched`: the scheduler. In it, `worker_calls` has the calls of workers, `operator_calls` those of
//!   operators, `saving` saves its state, and `resuming` makes a scheduler from a saved state.
//! - `laws`: facts about all sequences of calls.

mod call;
mod candidate;
mod intervals;
pub mod laws;
mod object_state;
mod report;
mod results;
mod resumed_object;
mod roster;
mod saved_indexes;
mod sched;

pub use call::{Call, Refusal, Reply};
pub use check_saved_state::{MAX_RUNS, Saved, SavedRun};
pub use check_states::{LAST_MOMENT, LAST_TIME};
pub use sched::Sched;
