#![tactic(auto)]
//! The command line of `nagsched`: reads the program's arguments with `clap`, does the job that they ask for
//! over a reader and a writer that the caller gives, and returns the exit status. A job is a run, a
//! conversation, a check, a drill, or the schema of a setup. If the arguments ask for none of them, a line
//! says why.
//!
//! The modules:
//!
//! - `arguments`: the jobs that the arguments can ask for. `job` reads the arguments, and `help` has the help
//!   texts.
//! - `session`: does the job that the arguments ask for. `nagsched_run` and `nagsched_jobs` have the jobs.
//! - `explanation`: explains arguments that are refused. `argument_names` has the names that there are,
//!   `argument_words` the parts of an argument, `argument_faults` finds the first that is wrong, and `nearest` the name
//!   that is meant.
//! - `devices`: explains a stream that failed.
//! - `laws`: laws of the definitions.
//!
//! A function `job` and a module `job` can't both be at the root.

mod argument_faults;
mod argument_names;
mod argument_words;
pub mod arguments;
pub mod devices;
pub mod explanation;
mod help;
pub mod job;
pub mod laws;
mod nearest;
pub mod session;
