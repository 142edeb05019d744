#![tactic(auto)]
//! The states of one object, and the rules that turn results of checks into states: the meaning of a return
//! code for a service, the verdict on a result, and flapping. A verdict is the state, its kind and the
//! attempt.
//!
//! The rules are those of the Nagios Core 4 manual. Its chapters are "Plugin API", "State Types", and
//! "Detection and Handling of State Flapping". If the manual leaves a choice, the profile of this project
//! makes it, and the item says so. A function changes only the values that it gets for that purpose. No
//! function needs memory, except [`LastResults::empty`], [`LastResults::of`] and [`LastResults::to_vec`].
//!
//! The modules:
//!
//! - `state`: return codes and states.
//! - `standing`: the standing of an object.
//! - `numbers` and `words`: the numbers and the words of codes, states and kinds.
//! - `verdicts`: the verdict on a result.
//! - `flapping`: whether a state keeps changing.
//! - `last_results`: the results that flapping depends on.
//! - `changes`: the changes among them.
//! - `board`: a standing as one word.
//! - `times`: the limits of moments and times, and the earlier of two times.
//! - `laws`: facts about these rules.

mod board;
mod changes;
mod flapping;
mod last_results;
pub mod laws;
mod numbers;
mod standing;
mod state;
mod times;
mod verdicts;
mod words;

pub use board::{code, decode};
pub use flapping::{STORED_RESULTS, flaps, percent};
pub use last_results::LastResults;
pub use standing::{Kind, Standing, lawful, pending};
pub use state::{Code, State, service_state};
pub use times::{LAST_MOMENT, LAST_TIME, MINUTE, earlier, limits_of_times};
pub use verdicts::verdict;
