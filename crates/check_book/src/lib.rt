#![tactic(auto)]
//! The book: the scheduler with the history of its calls.
//!
//! A [`Book`] is opened over a setup, makes each call on its scheduler and stores the call with its reply.
//! When it is renewed, the history continues in the next book. A lock hands a book from caller to caller.
//!
//! The modules:
//! - `opening`: the state in which a book began;
//! - `book`: the book;
//! - `laws`: the laws of the histories of books, and of their boards.

mod book;
pub mod laws;
mod opening;

pub use book::Book;
