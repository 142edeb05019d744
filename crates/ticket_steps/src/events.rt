//! The events of a seat, the results that it sees, and the faults.
use crate::books::NoMemory;

/// One step of one seat. The seat's own number names it.
#[derive(Clone, Copy, PartialEq, Eq, Debug)]
pub enum Event<C> {
    /// The fresh idle seat gives its last `count` numbers, at least one and not all, with their
    /// draws, to a new seat.
    Split { seat: u32, count: u32 },
    /// The idle seat takes the next ticket, by one of its draws.
    Draw { seat: u32 },
    /// The waiting seat looks whether its ticket is served. If it is, the seat holds the book.
    Look { seat: u32 },
    /// The holder records a call in the book, under its own number. The call has a place on the board, and
    /// the board shows its outcome. The seat holds until it leaves.
    Post { seat: u32, call: C },
    /// The holder leaves. If it hasn't posted, it brings its call, which has no place on the board. The book
    /// records the call under the holder's own number. If the holder has posted, it brings no call.
    Leave { seat: u32, call: Option<C> },
    /// The idle seat reads a word of the board, without a ticket.
    Glance { seat: u32, place: u32 },
    /// The first idle seat takes over the numbers and calls of another idle seat.
    Gather { seat: u32, other: u32 },
}

/// The result that the seat sees after its step.
#[derive(Clone, Copy, PartialEq, Eq, Debug)]
pub enum Seen<R> {
    Split,
    /// The ticket that was drawn.
    Drew(u64),
    /// The ticket isn't served yet, and nothing changed.
    Waiting,
    Held,
    /// The result of `record`.
    Posted(Result<R, NoMemory>),
    /// The result of `record`, or nothing if the call was posted before.
    Left(Option<Result<R, NoMemory>>),
    /// The word that was read.
    Glanced(u64),
    Gathered,
}

/// Why an event can't happen. The first fault that applies is returned, and nothing changes.
#[derive(Clone, Copy, PartialEq, Eq, Debug)]
pub enum Fault {
    /// No seat has this own number, or it was gathered into another.
    NoSeat,
    /// The event doesn't fit the seat's phase. Or the seat to be split isn't fresh, or the count is out of
    /// range. Or a leave brings a call although one was posted, or brings no call although no call was
    /// posted. Or a posted call has no place on the board, or a call that a leave brings has one. Or a glance
    /// is at a place without a word, or a seat is to be gathered into itself.
    Phase,
    /// No draw is left.
    Spent,
}
