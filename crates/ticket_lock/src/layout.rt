//! The layout of the table: the place of each of its words, and the list of them all.
//!
//! Only this file defines it. The words are next to each other: the next ticket, the four grant words, and
//! the words of the board. A machine with many cores might need each grant word in a cache line of its own.
//! Such a layout requires another list, and another place for each word.

ghost use Rattle.std.specs.Prelude.{◌≡◌, ◌<◌, IfOk};
ghost use Rattle.ticket_lock.specs.Layout.{grant_word, board_word, first_words};

use std::alloc::{AllocError, Global};
use ticket_steps::{Kept, watched_word};

/// The place of the next ticket.
pub(crate) const NEXT: usize = 0;

/// The place of the grant word that a ticket watches.
pub(crate) fn grant_word(ticket: u64) -> usize
    ensures place { result ≡ grant_word ticket }
    ensures within { result < 5 }
{
    watched_word(ticket) + 1
}

/// The place of a word of the board.
pub(crate) fn board_word(place: u32) -> usize
    ensures { result ≡ board_word place }
{
    place as usize + 5
}

/// The words of a new table: no ticket is drawn, ticket 0 is served, and the board shows the book as it is.
pub(crate) fn first_words<K: Kept>(alloc: Global, book: &K) -> Result<Vec<u64>, AllocError>
    ensures { IfOk result (λ words. words.items ≡ first_words (K.board (K.state book.now))) }
{
    let count = book.words();
    let mut words = Vec::with_capacity(alloc, count as usize + 5)?;
    words.push_reserved(0);
    words.push_reserved(0);
    words.push_reserved(0);
    words.push_reserved(0);
    words.push_reserved(0);
    for place in 0..count {
        words.push_reserved(book.word(place));
    }
    Ok(words)
}
