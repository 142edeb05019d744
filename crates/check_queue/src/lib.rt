#![tactic(auto)]
//! A queue of numbers by time: the number with the least time comes out first, and at equal times the least
//! number.
//!
//! A [`Queue`] is a binary heap of entries, each a time and its number. It also has the position of each
//! number, so that any number can be moved or removed. Only [`Queue::new`] allocates memory. A call that
//! writes takes time logarithmic in the number of entries. The other calls take constant time.
//!
//! The modules:
//! - `entry`: an entry and the order of entries;
//! - `sift`: moves an entry up and down the heap;
//! - `queue`: the queue.

mod entry;
mod queue;
mod sift;

pub use queue::Queue;
