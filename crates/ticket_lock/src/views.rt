//! The knowledge of the table's seats, and the rule of the table.
//!
//! Only `TableStart` has values at run time. Views are the data that the rule describes.

ghost use Rattle.std.specs.Prelude.{◌≡◌};
ghost use Rattle.ticket_lock.specs.Boards.{board_length};
ghost use Rattle.ticket_lock.specs.Rule.{ObeysRule};
ghost use Rattle.ticket_lock.specs.Views.{first_view};

use atomic_table::TableRule;
use std::collections::LinkedList;
use std::marker::PhantomData;
use std::snapshot::Snapshot;
use ticket_steps::{CoreSeat, Entry, Kept};

/// How a lock was opened: with this book, for this many numbers, with this many draws for each.
pub struct Start<K> {
    pub book: K,
    pub numbers: u32,
    pub draws: u32,
}

/// One of the two seats from which a seat was made: its numbers, and the history that it had seen.
pub struct Part<C, R> {
    pub numbers: LinkedList<u32>,
    pub seen: LinkedList<Entry<C, R>>,
}

/// The knowledge of a seat of the table.
pub struct View<K, C, R> {
    /// How the lock was opened; nothing if the seat was gathered into another.
    pub start: Option<Start<K>>,
    /// The seat of the core.
    pub seat: CoreSeat,
    /// The history that it has seen.
    pub seen: LinkedList<Entry<C, R>>,
    /// For a holder, the refusals of the book as it was handed out, or as the holder posted it.
    pub refused: u64,
    /// The two seats from which it was made, until it has looked at the table.
    pub one: Part<C, R>,
    pub two: Part<C, R>,
}

/// The data with which the table is made.
#[derive(Drop)]
pub struct TableStart<K: Kept> {
    pub book: Snapshot<K>,
    pub numbers: u32,
    pub draws: u32,
    /// The number of words on the board.
    pub words: u32,
    ghost counted: { words ≡ board_length K.Kept book.value },
}

/// The rule of the lock's table.
pub struct LockRule<K> {
    marker: PhantomData<K>,
}

impl<K: Kept> TableRule<Option<K>, View<K, K::Call, K::Reply>, TableStart<K>> for LockRule<K> {
    ghost holds = { λ opening. ObeysRule K.Kept
        (record { book = opening.book.value; numbers = opening.numbers; draws = opening.draws }) };

    ghost first = { λ opening. first_view
        (record { book = opening.book.value; numbers = opening.numbers; draws = opening.draws }) };
}
