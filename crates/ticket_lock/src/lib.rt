#![tactic(auto)]
//! The running ticket lock: the core of `ticket_steps` over atomic words, for threads.
//!
//! An `atomic_table` has the words and one slot: the next ticket, the four grant words that store the number
//! served, the book's board, and the book.
//!
//! Callers take part by tokens: a `Seat` draws, a `Turn` looks, a `Hold` posts and leaves. A `Seat` also
//! reads a word of the board, by one load and without a ticket. Between any two steps the words and the
//! tokens are a state of the core of `ticket_steps`. So `every_schedule` holds of the lock as it does of the
//! core, for all orders of the threads' steps. The board shows the state after the one history.
//!
//! - `lock`: the lock and its calls; `layout`: the place of each word in the table.
//! - `tokens`: seats, turns and holds, with their numbers at run time.
//! - `views`: the knowledge of seats in proofs, and the rule; `ghost_steps`: the steps (split, draw, look, post,
//!   leave, gather, glance).
//! - `steps`: the law that each kind of step is one event of the core; `laws`: the law of every seat.

mod ghost_steps;
mod laws;
mod layout;
mod lock;
mod steps;
mod tokens;
mod views;

pub use laws::every_seat;
pub use lock::{Look, TicketLock};
pub use steps::every_step;
pub use tokens::{Hold, Seat, Turn};
