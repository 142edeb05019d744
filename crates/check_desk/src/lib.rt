#![tactic(auto)]
//! The desk: one scheduler for up to 1,024 callers, in any threads.
//!
//! A [`Desk`] has a book in a ticket lock, and hands out its [`Pass`]es, one for each caller. A caller makes
//! a call by its pass: [`Desk::begin`] takes a ticket, [`Desk::poll`] looks whether its turn has come, and
//! [`Desk::finish`] makes the call. [`Desk::ask`] does these three steps and waits between them.
//! [`Desk::glance`] reads the standing of an object without a turn. When all passes are gathered again,
//! [`Desk::close`] returns the book.
//!
//! For all orders of the threads' steps, the history of the book is that of one thread. Each reply is the
//! scheduler's at its place, and the history has each caller's calls once, in the caller's order. All of it
//! is our own profile.
//!
//! The modules:
//! - `passes`: passes, turns and holds;
//! - `desk`: the desk and its calls;
//! - `waiting`: pauses, sleeps and rests of a caller that waits;
//! - `laws`: the laws of the history that all callers share, and of every pass.

mod desk;
pub mod laws;
mod passes;
mod waiting;

pub use desk::{Answer, Desk, Poll};
pub use passes::{Hold, Pass, Turn};
