//! Passes, turns and holds: the tokens of callers.
//!
//! The tokens have no bytes of their own except their counts. The history that a caller has seen exists only
//! in contracts. It is always a first part of the one history.

ghost use Rattle.std.specs.Prelude.{◌≡◌, ◌+◌, ◌<◌, ◌≤◌, ◌^◌, false, length};
ghost use Rattle.ticket_steps.specs.Sums.{occurrences};
ghost use Rattle.check_book.specs.Books.{entries_of, refused_of};
ghost use Rattle.ticket_lock.specs.Tokens.{has_posted, held_ticket_of, hold_of, refused_before};

use check_book::Book;
use ticket_lock::Seat;

/// The right of one caller to make calls: as many as the desk was opened with, up to 2^32 - 1. The calls are
/// recorded under the pass's number.
///
/// Passes can be gathered into one when their callers have returned.
pub struct Pass {
    pub(crate) seat: Seat<Book>,
}

// A crate that drops a pass calls this. A derived one would be proved there again, field by field.
impl Drop for Pass {
    fn drop(self) {
        let Pass { seat: _ } = self;
    }
}

/// A pass that has a ticket and waits for its turn.
///
/// Safe code that doesn't pass a turn to `Desk::poll` doesn't compile. A ticket that nobody uses would stop
/// all that come after it.
pub struct Turn {
    pub(crate) turn: ticket_lock::Turn<Book>,
}

/// A pass whose turn has come: it holds the book.
///
/// Safe code that doesn't pass a hold to `Desk::finish` doesn't compile. The desk needs the book back.
pub struct Hold {
    pub(crate) hold: ticket_lock::Hold<Book>,
    pub(crate) book: Book,
    ghost seen: { (hold_of hold).seen ≡ entries_of book },
    ghost refused: { refused_before hold ≡ refused_of book },
    ghost counted: { length (entries_of book) + refused_of book ≡ held_ticket_of hold },
    ghost bounded: { held_ticket_of hold < 2 ^ 42 },
    ghost unposted: { has_posted hold ≡ false },
}

impl Pass {
    ghost use Rattle.check_desk.specs.Passes.{pass_of};

    /// The seat of the lock that the pass uses.
    pub(crate) fn into_seat(self) -> Seat<Book>
        ensures { result ≡ self.seat }
    {
        let Pass { seat } = self;
        seat
    }

    /// Its own number: its calls are recorded under it, and it is one of the numbers for which the pass
    /// answers.
    pub fn number(&self) -> u32
        ensures own { result ≡ (pass_of self.now).own }
        ensures among { 0 < occurrences result (pass_of self.now).numbers }
    {
        self.seat.number()
    }

    /// The number of passes for which it answers, including itself.
    pub fn gathered(&self) -> u32
        ensures numbers { result ≡ length (pass_of self.now).numbers }
        ensures nonempty { 0 < result }
        ensures bounded { result ≤ 1024 }
    {
        self.seat.count()
    }

    /// The calls that it has left.
    pub fn left(&self) -> u64
        ensures { result ≡ (pass_of self.now).left }
    {
        self.seat.left()
    }

    /// The calls that it and the passes gathered into it have made, including those without memory for
    /// their entry.
    pub fn calls(&self) -> u64
        ensures calls { result ≡ (pass_of self.now).calls }
        ensures bounded { result < 2 ^ 42 }
    {
        self.seat.calls()
    }
}
