//! The book over which the tests have their cores and locks.

ghost use Rattle.std.specs.Prelude.{◌≡◌, [], IfOk};
ghost use Rattle.ticket_steps.specs.CounterBooks.{counter_entries, counter_refusals};

use std::alloc::{AllocError, Global};
use std::process::Abort;
use ticket_steps::counter::CounterBook;
use ticket_steps::{Entry, Kept};

/// An empty book, at the second try if the first is out of memory.
pub(crate) fn empty_book(alloc: Global, room: usize) -> Result<CounterBook, AllocError>
    ensures { IfOk result (λ book. (counter_entries book ≡ []) × (counter_refusals book ≡ 0)) }
{
    match CounterBook::open(alloc, room) {
        Ok(book) => Ok(book),
        Err(AllocError) => CounterBook::open(alloc, room),
    }
}

/// Compares the entries of a book with the expected ones.
pub(crate) fn assert_entries(rt: &impl Abort, book: &CounterBook, entries: &[Entry<u8, u64>]) {
    assert_eq!(rt; book.entries(), entries);
}

/// One entry of a book.
pub(crate) fn entry(pass: u32, call: u8, reply: u64) -> Entry<u8, u64> {
    Entry { pass, call, reply }
}
