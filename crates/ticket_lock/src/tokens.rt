//! Seats, turns and holds: the tokens by which callers take part in the lock.
//!
//! Threads share no bytes of a token. Only in proofs, a token carries the knowledge of its caller: the
//! history that the caller has seen. It is always a first part of the one history of the book.

ghost use Rattle.std.specs.Prelude.{◌≡◌, ◌+◌, ◌^◌, ◌<◌, ◌≤◌, nat_lt, false, cond, [], ◌∷◌, length, None};
ghost use Rattle.std.specs.Coded.{Coded-set};
ghost use Rattle.ticket_steps.specs.declared.seats.Phase.TheVariants.{Idle, Waiting, Holding, Posted};
ghost use Rattle.ticket_steps.specs.Seats.{fresh_seat};
ghost use Rattle.ticket_steps.specs.Sums.{numbers_from, occurrences};
ghost use Rattle.ticket_lock.specs.Counts.{AreCountsOf};
ghost use Rattle.ticket_lock.specs.Legal.{IsLegalFrom, IsLegalFrom-prop};

use crate::views::View;
use ticket_steps::Kept;

pub(crate) type TableSeat<K> = atomic_table::Seat<
    Option<K>,
    View<K, <K as Kept>::Call, <K as Kept>::Reply>,
>;

/// A caller that neither waits nor holds.
///
/// The seat that opens a lock has all numbers. `TicketLock::split` gives some of them to a new seat, for
/// another thread, and `TicketLock::gather` joins two seats again.
#[derive(Drop)]
pub struct Seat<K: Kept> {
    pub(crate) table_seat: TableSeat<K>,
    pub(crate) counts: SeatCounts,
    /// The number of numbers that can be divided. These are all numbers for which the seat answers, until it
    /// draws or another seat is gathered into it. From then on the field is 0. The field is as wide as the
    /// fields before it: bytes between fields would be copied with each seat.
    pub(crate) parts: u64,
    ghost bare: { table_seat.me.1 ≡ [] },
    ghost legal: { IsLegalFrom K.Kept table_seat.me.0.start table_seat.me.0.seen } by { IsLegalFrom-prop K.Kept (Coded-set K.Reply.code) _ _ },
    ghost idle: { table_seat.me.0.seat.phase ≡ Idle },
    ghost agreement: { AreCountsOf counts table_seat.me.0.seat },
    ghost fresh_is: { table_seat.me.0.seat.fresh ≡ nat_lt 0 parts },
    ghost range: { 0 < parts → counts.number + counts.count ≤ 1024 },
    ghost row: { 0 < parts → table_seat.me.0.seat.numbers ≡ numbers_from counts.number counts.count },
}

/// A caller that has drawn a ticket and waits for its turn.
///
/// It is not `Drop`, so code that doesn't pass a turn to `TicketLock::look` doesn't compile. A ticket that
/// nobody uses would stop all that come after it.
pub struct Turn<K: Kept> {
    pub(crate) table_seat: TableSeat<K>,
    pub(crate) counts: SeatCounts,
    pub(crate) ticket: u64,
    ghost waits: { table_seat.me.0.seat.phase ≡ Waiting ticket },
    ghost bare: { table_seat.me.1 ≡ [] },
    ghost legal: { IsLegalFrom K.Kept table_seat.me.0.start table_seat.me.0.seen } by { IsLegalFrom-prop K.Kept (Coded-set K.Reply.code) _ _ },
    ghost agreement: { AreCountsOf counts table_seat.me.0.seat },
    ghost stale: { table_seat.me.0.seat.fresh ≡ false },
}

/// A caller whose turn has come: it holds the book. It posts its call (`TicketLock::post`), if the board is to
/// show it, and leaves.
///
/// It is not `Drop`, so code that doesn't pass a hold to `TicketLock::leave` doesn't compile. The lock needs
/// the book back.
pub struct Hold<K: Kept> {
    pub(crate) table_seat: TableSeat<K>,
    pub(crate) counts: SeatCounts,
    pub(crate) ticket: u64,
    pub(crate) posted: bool,
    ghost bounded: { ticket < 2 ^ 42 },
    ghost out: { table_seat.me.1 ≡ (0, None) ∷ [] },
    ghost legal: { IsLegalFrom K.Kept table_seat.me.0.start table_seat.me.0.seen } by { IsLegalFrom-prop K.Kept (Coded-set K.Reply.code) _ _ },
    ghost holds: { table_seat.me.0.seat.phase ≡ cond posted (Posted ticket) (Holding ticket) },
    ghost agreement: { AreCountsOf counts table_seat.me.0.seat },
    ghost stale: { table_seat.me.0.seat.fresh ≡ false },
}

impl<K: Kept> Seat<K> {
    ghost use Rattle.ticket_lock.specs.Tokens.{seat_of};

    /// A seat that has never drawn, for `count` numbers from `number` on with `draws` draws each.
    pub(crate) fn with_all_draws(
        table_seat: TableSeat<K>,
        number: u32,
        count: u32,
        draws: u32,
        calls: u64,
    ) -> Seat<K>
        requires bare { table_seat.me.1 ≡ [] }
        requires legal { IsLegalFrom K.Kept table_seat.me.0.start table_seat.me.0.seen }
        requires seat { table_seat.me.0.seat ≡ fresh_seat draws number (numbers_from number count) calls }
        requires numbers { (0 < count) × (number + count ≤ 1024) }
        requires calls { calls ≤ 4398046510080 }
        ensures { result.table_seat ≡ table_seat }
    {
        let counts = SeatCounts {
            number,
            count,
            left: count as u64 * draws as u64,
            calls,
        };
        Seat {
            table_seat,
            counts,
            parts: count as u64,
        }
    }

    /// Its own number: its calls are recorded under it, and it is one of the numbers for which the seat
    /// answers.
    pub fn number(&self) -> u32
        ensures own { result ≡ (seat_of self.now).own }
        ensures among { 0 < occurrences result (seat_of self.now).numbers }
    {
        self.counts.number
    }

    /// How many numbers it answers for now, including its own.
    pub fn count(&self) -> u32
        ensures numbers { result ≡ length (seat_of self.now).numbers }
        ensures nonempty { 0 < result }
        ensures bounded { result ≤ 1024 }
    {
        self.counts.count
    }

    /// Whether it has never drawn, and no seat was gathered into it.
    pub fn fresh(&self) -> bool
        ensures { result ≡ (seat_of self.now).fresh }
    {
        0 < self.parts
    }

    /// The draws that it has left.
    pub fn left(&self) -> u64
        ensures { result ≡ (seat_of self.now).left }
    {
        self.counts.left
    }

    /// The calls that it and the seats gathered into it have ended.
    pub fn calls(&self) -> u64
        ensures calls { result ≡ (seat_of self.now).calls }
        ensures bounded { result < 2 ^ 42 }
    {
        self.counts.calls
    }
}

impl<K: Kept> Turn<K> {
    ghost use Rattle.ticket_lock.specs.Tokens.{ticket_of};

    /// Its ticket: the number of calls that end before its own.
    pub fn ticket(&self) -> u64
        ensures { result ≡ ticket_of self.now }
    {
        self.ticket
    }
}

impl<K: Kept> Hold<K> {
    ghost use Rattle.ticket_lock.specs.Tokens.{hold_of, held_ticket_of, has_posted};

    /// The own number of its seat, under which its call is to be recorded.
    pub fn number(&self) -> u32
        ensures { result ≡ (hold_of self.now).own }
    {
        self.counts.number
    }

    /// Its ticket: the number of calls that have ended before its own.
    pub fn ticket(&self) -> u64
        ensures { result ≡ held_ticket_of self.now }
    {
        self.ticket
    }

    /// Whether it has posted its call.
    pub fn posted(&self) -> bool
        ensures { result ≡ has_posted self.now }
    {
        self.posted
    }
}

/// The numbers that a caller takes along from seat to turn to hold.
#[derive(Clone, Copy)]
pub(crate) struct SeatCounts {
    /// Its own number.
    pub(crate) number: u32,
    /// How many numbers it answers for.
    pub(crate) count: u32,
    /// The draws that it has left.
    pub(crate) left: u64,
    /// The calls that it and the callers gathered into it have ended.
    pub(crate) calls: u64,
}
