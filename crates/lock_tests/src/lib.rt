#![tactic(auto)]
//! Tests of the queue, of standings as words of a board, and of the lock.
//!
//! They are in a crate of their own, because a crate with tests is proved once more for them. It holds
//! nothing else. A fact that a clause states has no test here.
//!
//! - `queue`, `board`: the queue, and the board's words.
//! - `steps`, `lock`, `books`: the lock's steps, one thread's schedules, and the lock itself.

#[cfg(test)]
mod board;
#[cfg(test)]
mod books;
#[cfg(test)]
mod lock;
#[cfg(test)]
mod queue;
#[cfg(test)]
mod steps;
