#![tactic(auto)]
//! Workers over a desk: they take the checks that are due, run them, and report their results.
//!
//! A [`Plugin`], a type of the program that embeds the library, runs a check. [`work`] is one worker: at each
//! moment of a list it takes the next check, runs it with no lock held, and reports the result. [`crew`] lets
//! N workers work at the same time, N - 1 of them in threads of their own. It closes the desk when all have
//! returned. A [`Tally`] counts the answers.
//!
//! For all orders of the threads' steps, the history has each worker's calls once, in the worker's order. For
//! each moment there is a take. After each check that was taken, there is the report of a code that the
//! plugin allows. A check is run by the program's own code and returns a code, as in "Plugin API" of the
//! Nagios Core 4 manual. Everything else is our own profile.
//!
//! The modules:
//! - `plugin`: the interface to the program's code;
//! - `tally`: the counts;
//! - `round`: the work of one moment;
//! - `worker`: one worker;
//! - `crews`: many workers.

mod crews;
mod plugin;
mod round;
mod tally;
mod worker;

pub use crews::{CrewError, crew};
pub use plugin::Plugin;
pub use tally::Tally;
pub use worker::work;
