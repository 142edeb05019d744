#![tactic(auto)]
//! The pure core of a ticket lock: seats draw tickets, and the seat whose ticket is served holds the book.
//! All calls that the seats record there form one history.
//!
//! This crate starts no threads. `Core` makes the lock's steps one after another, in the order of a schedule.
//! So the laws that hold of the lock after every schedule can be stated and proved once (`every_schedule`).
//! The crate `ticket_lock` is the same lock over atomic words, and its proof uses the definitions of this
//! crate.
//!
//! - `books`: books. A `Kept` is a sequential object that stores the history of its calls.
//! - `counter`: the smallest book, a running sum.
//! - `seats`: the seats of the core, with their phases.
//! - `events`: the events of a seat, the results that it sees, and the faults.
//! - `grants`: the number served, stored in four words.
//! - `core_steps`: the core as a program that makes one step or a list of steps.
//! - `schedules`: the laws of every schedule, and of endless ones.

mod books;
mod core_steps;
pub mod counter;
mod events;
mod grants;
mod schedules;
mod seats;

pub use books::{Entry, Kept, NoMemory};
pub use core_steps::Core;
pub use events::{Event, Fault, Seen};
pub use grants::{Grants, watched_word};
pub use schedules::{every_endless_schedule, every_schedule};
pub use seats::{CoreSeat, DRAWS, Phase};
