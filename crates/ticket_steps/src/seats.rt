//! The seats of the core.

ghost use Rattle.std.specs.Prelude.{◌≡◌, ◌↔◌, ◌+◌, ◌*◌, ◌^◌, ◌<◌, ◌≤◌, length, IsTrue, true};
ghost use Rattle.ticket_steps.specs.declared.seats.Phase.TheVariants.{Idle};
ghost use Rattle.ticket_steps.specs.Seats.{is_present, seat_after_split, other_seat, waiting_seat, holding_seat, posted_seat, seat_after_leave, gathered_seat};
ghost use Rattle.ticket_steps.specs.Seats.{gone_seat};

use std::collections::LinkedList;

/// The number of draws that each number of a core made by `Core::open` brings, and the most that
/// `Core::open_with` gives. A seat makes at most this many calls for each of its numbers.
pub const DRAWS: u32 = 4_294_967_295;

/// The phase of a seat.
#[derive(Clone, Copy, PartialEq, Eq, Debug)]
pub enum Phase {
    /// It has no ticket.
    Idle,
    /// It has drawn this ticket, and waits for its turn.
    Waiting(u64),
    /// It has this ticket, and its turn has come: it holds the book.
    Holding(u64),
    /// It has this ticket, and its call is recorded in the book: it only has to leave.
    Posted(u64),
    /// It was gathered into another seat.
    Gone,
}

/// A seat of the core, as the definitions see it.
#[derive(Drop)]
pub struct CoreSeat {
    /// Its own number. Events name the seat by it, and its calls are recorded under it.
    pub own: u32,
    /// The numbers for which it answers, its own first. They are a range if the seat is fresh. Later they
    /// include those of the seats that were gathered into it.
    pub numbers: LinkedList<u32>,
    pub phase: Phase,
    /// The draws that it has left.
    pub left: u64,
    /// The calls that it and the seats gathered into it have ended.
    pub calls: u64,
    /// Whether it has never drawn, and no seat was gathered into it.
    pub fresh: bool,
}

impl CoreSeat {
    /// Whether events name this seat by that number.
    pub(crate) fn is_named(&self, own: u32) -> bool
        ensures { IsTrue result ↔ ((self.now.own ≡ own) × (is_present self.now.phase ≡ true)) }
    {
        match self.phase {
            Phase::Gone => false,
            _ => self.own == own,
        }
    }

    pub(crate) fn is_idle(&self) -> bool
        ensures { IsTrue result ↔ (self.now.phase ≡ Idle) }
    {
        matches!(self.phase, Phase::Idle)
    }

    /// Whether it can give away this many of its numbers.
    pub(crate) fn can_split(&self, count: u32) -> bool
        ensures { IsTrue result ↔ ((self.now.phase ≡ Idle) × (self.now.fresh ≡ true)
            × (0 < count) × (count < length self.now.numbers)) }
    {
        self.is_idle() && self.fresh && 0 < count && (count as usize) < self.numbers.len()
    }

    /// Gives its last numbers, with all their draws, to a new seat.
    pub(crate) fn split_off(&mut self, count: u32, draws: u32) -> CoreSeat
        requires idle { self.old.phase ≡ Idle }
        requires fresh { self.old.fresh ≡ true }
        requires count { count ≤ length self.old.numbers }
        requires bounded { self.old.own + length self.old.numbers < 2 ^ 32 }
        ensures kept { self.new ≡ seat_after_split draws count self.old }
        ensures other_seat { result ≡ other_seat draws count self.old }
    {
        let kept = self.numbers.len() - count as usize;
        let Ok(numbers) = self.numbers.split_off(kept) else {
            unreachable!()
        };
        self.left = kept as u64 * draws as u64;
        CoreSeat {
            own: self.own + kept as u32,
            numbers,
            phase: Phase::Idle,
            left: count as u64 * draws as u64,
            calls: 0,
            fresh: true,
        }
    }

    /// Waits with a ticket that it has drawn.
    pub(crate) fn wait(&mut self, ticket: u64)
        requires { 0 < self.old.left }
        ensures { self.new ≡ waiting_seat ticket self.old }
    {
        self.phase = Phase::Waiting(ticket);
        self.left -= 1;
        self.fresh = false;
    }

    pub(crate) fn hold(&mut self, ticket: u64)
        ensures { self.new ≡ holding_seat ticket self.old }
    {
        self.phase = Phase::Holding(ticket);
    }

    /// Still holds, with its call recorded.
    pub(crate) fn post(&mut self, ticket: u64)
        ensures { self.new ≡ posted_seat ticket self.old }
    {
        self.phase = Phase::Posted(ticket);
    }

    /// Leaves: its call has ended.
    pub(crate) fn end(&mut self)
        requires { self.old.calls + 1 < 2 ^ 64 }
        ensures { self.new ≡ seat_after_leave self.old }
    {
        self.phase = Phase::Idle;
        self.calls += 1;
    }

    /// Is gathered into another seat. Returns its former value.
    pub(crate) fn retire(&mut self) -> CoreSeat
        ensures was { result ≡ self.old }
        ensures gone_seat { self.new ≡ gone_seat }
    {
        let Ok(numbers) = self.numbers.split_off(0) else {
            unreachable!()
        };
        let was = CoreSeat {
            own: self.own,
            numbers,
            phase: self.phase,
            left: self.left,
            calls: self.calls,
            fresh: self.fresh,
        };
        self.own = 0;
        self.phase = Phase::Gone;
        self.left = 0;
        self.calls = 0;
        self.fresh = false;
        was
    }

    /// Takes over the numbers and the calls of another seat, whose draws are lost.
    pub(crate) fn join(&mut self, other: CoreSeat)
        requires idle { self.old.phase ≡ Idle }
        requires numbers { length self.old.numbers + length other.numbers < 2 ^ 63 }
        requires calls { self.old.calls + other.calls < 2 ^ 64 }
        ensures { self.new ≡ gathered_seat self.old other }
    {
        let CoreSeat {
            own: _,
            mut numbers,
            phase: _,
            left: _,
            calls,
            fresh: _,
        } = other;
        let Ok(()) = self.numbers.append(&mut numbers) else {
            unreachable!()
        };
        self.calls += calls;
        self.fresh = false;
    }
}
