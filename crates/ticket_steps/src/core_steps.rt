//! The core as a program that makes one step or a list of steps, on one thread.

ghost use Rattle.std.specs.Prelude.{◌≡◌, ◌↔◌, ◌+◌, ◌-◌, ◌^◌, ◌<◌, ◌≤◌, [], length, take, true, IfOk, IfErr, OnErr, OnOk, Some, None, slice_get, vec_capacity};
ghost use Rattle.std.specs.Prelude.{vec_len};
ghost use mathlib.Core.Option.{some};
ghost use lib.ListN.{get_elem?};
ghost use Rattle.ticket_steps.specs.Books.{book_state, IsLawfulBook};
ghost use Rattle.ticket_steps.specs.CoreStates.{core_state, opening_core};
ghost use Rattle.ticket_steps.specs.Faults.{IsFault, Shows, LeadsBy, Steps};
ghost use Rattle.ticket_steps.specs.Lawful.{IsLawful};
ghost use Rattle.ticket_steps.specs.Seats.{HasSeat, is_present};
ghost use Rattle.ticket_steps.specs.Sums.{numbers_from};

use crate::books::Kept;
use crate::events::{Event, Fault, Seen};
use crate::grants::Grants;
use crate::seats::{CoreSeat, DRAWS, Phase};
use std::alloc::{AllocError, Global};
use std::collections::LinkedList;

/// The core of the lock: its next ticket, the number served, its seats, its book, and the board that shows
/// the book's words.
///
/// Each event is one step of one seat. After any events, in any order, `every_schedule` holds of the core.
#[derive(Drop)]
pub struct Core<K: Kept> {
    next: u64,
    grants: Grants,
    seats: Vec<CoreSeat>,
    numbers: u32,
    draws: u32,
    book: K,
    board: Vec<u64>,
    ghost bounded: { numbers ≤ 1024 },
    ghost bounded_draws: { draws ≤ 4294967295 },
    ghost seat_capacity: { numbers ≤ vec_capacity seats },
    ghost readout: { board.items ≡ K.board (K.state book) },
    ghost lawful: { IsLawful numbers draws (core_state next grants seats.items
        (book_state (K.state book) (K.history book) (K.refusals book))) },
}

impl<K: Kept> Core<K> {
    ghost use Rattle.ticket_steps.specs.Cores.{core_state_of, core_opening, core_numbers, core_draws, HasSameOpening};

    /// A core with one seat, whose own number is 0, for all of `numbers`, and with the book at home. Each
    /// number brings 2^32 - 1 draws, the most that [`Core::open_with`] gives. The call makes places for all
    /// possible seats, and a board of the book's words. Later only a `Post` or a `Leave` can run out of
    /// memory. If there is no memory for the places and the board, the call returns the book as it was.
    pub fn open(alloc: Global, book: K, numbers: u32) -> Result<Core<K>, K>
        requires numbers { (0 < numbers) × (numbers ≤ 1024) }
        requires empty { (K.history book ≡ []) × (K.refusals book ≡ 0) }
        requires words { length (K.board (K.state book)) ≤ 4096 }
        ensures opening_core { IfOk result (λ core.
            core_state_of core ≡ opening_core numbers (2 ^ 32 - 1) (K.opening book)) }
        ensures same_opening { IfOk result (λ core. (core_opening core ≡ K.opening book)
            × (core_numbers core ≡ numbers) × (core_draws core ≡ 2 ^ 32 - 1)) }
        ensures err { IfErr result (λ back. back ≡ book) }
    {
        Core::open_with(alloc, book, numbers, DRAWS)
    }

    /// A core as `open` makes it, except that each number brings `draws` draws. Use it for callers that make
    /// few calls, and for schedules that use up their seats. If there is no memory, the call returns the book
    /// as it was.
    pub fn open_with(alloc: Global, book: K, numbers: u32, draws: u32) -> Result<Core<K>, K>
        requires numbers { (0 < numbers) × (numbers ≤ 1024) }
        requires draws { 0 < draws }
        requires empty { (K.history book ≡ []) × (K.refusals book ≡ 0) }
        requires words { length (K.board (K.state book)) ≤ 4096 }
        ensures opening_core { IfOk result (λ core.
            core_state_of core ≡ opening_core numbers draws (K.opening book)) }
        ensures same_opening { IfOk result (λ core. (core_opening core ≡ K.opening book)
            × (core_numbers core ≡ numbers) × (core_draws core ≡ draws)) }
        ensures err { IfErr result (λ back. back ≡ book) }
    {
        let Ok(all) = first_numbers(alloc, numbers) else {
            return Err(book);
        };
        let Ok(mut seats) = Vec::with_capacity(alloc, numbers as usize) else {
            return Err(book);
        };
        let Ok(board) = first_words(alloc, &book) else {
            return Err(book);
        };
        seats.push_reserved(CoreSeat {
            own: 0,
            numbers: all,
            phase: Phase::Idle,
            left: numbers as u64 * draws as u64,
            calls: 0,
            fresh: true,
        });
        Ok(Core {
            next: 0,
            grants: Grants::open(),
            seats,
            numbers,
            draws,
            book,
            board,
        })
    }

    /// Makes one event, and returns its outcome. If the event has a fault, nothing changes: `NoSeat` comes
    /// before `Phase`, and `Phase` before `Spent`. It is not a fault if the call of a `Post` or a `Leave` is
    /// refused, out of memory. The seat has posted or left then, and sees the refusal.
    pub fn step(&mut self, event: Event<K::Call>) -> Result<Seen<K::Reply>, Fault>
        ensures readout { IfOk result (λ seen.
            Shows K.Kept (core_draws self.old) (core_state_of self.old) event seen (core_state_of self.new)) }
        ensures fault { (f : Fault)
            → (result ≡ Err f) ↔ IsFault K.Kept (core_state_of self.old) event f }
        ensures same { OnErr result (core_state_of self.new ≡ core_state_of self.old) }
        ensures same_opening { HasSameOpening self.old self.new }
        ensures lawful { IsLawful (core_numbers self.new) (core_draws self.new) (core_state_of self.new) }
        ensures book { IsLawfulBook K.step (core_opening self.new) (core_state_of self.new).book }
    {
        match event {
            Event::Split { seat, count } => self.split(seat, count),
            Event::Draw { seat } => self.draw(seat),
            Event::Look { seat } => self.look(seat),
            Event::Post { seat, call } => self.post(seat, call),
            Event::Leave { seat, call } => match call {
                Some(call) => self.leave(seat, call),
                None => self.leave_posted(seat),
            },
            Event::Glance { seat, place } => self.glance(seat, place),
            Event::Gather { seat, other } => self.gather(seat, other),
        }
    }

    /// Makes events, one after another, up to the first that has a fault. Returns the place of that event,
    /// from 0, and the fault. The events before it have happened.
    pub fn run(&mut self, events: &[Event<K::Call>]) -> Result<(), (usize, Fault)>
        ensures all { OnOk result (
            LeadsBy K.Kept (core_draws self.old) (core_state_of self.old) events.now (core_state_of self.new)) }
        ensures place { IfErr result (λ stop. stop.0 < length events.now) }
        ensures before { IfErr result (λ stop. LeadsBy K.Kept (core_draws self.old)
            (core_state_of self.old) (take stop.0 events.now) (core_state_of self.new)) }
        ensures fault { IfErr result (λ stop. (event : Event K.Call)
            → slice_get events.now stop.0 ≡ Some event
            → IsFault K.Kept (core_state_of self.new) event stop.1) }
        ensures same_opening { HasSameOpening self.old self.new }
        ensures lawful { IsLawful (core_numbers self.new) (core_draws self.new) (core_state_of self.new) }
        ensures book { IsLawfulBook K.step (core_opening self.new) (core_state_of self.new).book }
    {
        for (place, event) in events.iter().enumerate() {
            if let Err(fault) = self.step(*event) {
                return Err((place, fault));
            }
        }
        Ok(())
    }

    /// The book, as it is at home or as the holder took it out.
    pub fn book(&self) -> &K
        ensures { book_state (K.state result.now) (K.history result.now) (K.refusals result.now)
            ≡ (core_state_of self.now).book }
    {
        &self.book
    }

    fn split(&mut self, seat: u32, count: u32) -> Result<Seen<K::Reply>, Fault>
        ensures step { Steps K.Kept (core_draws self.old) (core_state_of self.old) (Event.Split seat count)
            result (core_state_of self.new) }
        ensures same_opening { HasSameOpening self.old self.new }
    {
        let at = self.seat_index(seat)?;
        if !self.seats[at].can_split(count) {
            return Err(Fault::Phase);
        }
        let other_seat = self.seats[at].split_off(count, self.draws);
        self.seats.push_reserved(other_seat);
        Ok(Seen::Split)
    }

    fn draw(&mut self, seat: u32) -> Result<Seen<K::Reply>, Fault>
        ensures step { Steps K.Kept (core_draws self.old) (core_state_of self.old) (Event.Draw seat)
            result (core_state_of self.new) }
        ensures same_opening { HasSameOpening self.old self.new }
    {
        let at = self.seat_index(seat)?;
        let place = &self.seats[at];
        if !place.is_idle() {
            return Err(Fault::Phase);
        }
        if place.left == 0 {
            return Err(Fault::Spent);
        }
        let ticket = self.next;
        self.seats[at].wait(ticket);
        self.next += 1;
        Ok(Seen::Drew(ticket))
    }

    fn look(&mut self, seat: u32) -> Result<Seen<K::Reply>, Fault>
        ensures step { Steps K.Kept (core_draws self.old) (core_state_of self.old) (Event.Look seat)
            result (core_state_of self.new) }
        ensures same_opening { HasSameOpening self.old self.new }
    {
        let at = self.seat_index(seat)?;
        let Phase::Waiting(ticket) = self.seats[at].phase else {
            return Err(Fault::Phase);
        };
        if !self.grants.serves(ticket) {
            return Ok(Seen::Waiting);
        }
        self.seats[at].hold(ticket);
        Ok(Seen::Held)
    }

    /// Records the holder's call, and shows the outcome on the board. The seat continues to hold.
    fn post(&mut self, seat: u32, call: K::Call) -> Result<Seen<K::Reply>, Fault>
        ensures step { Steps K.Kept (core_draws self.old) (core_state_of self.old) (Event.Post seat call)
            result (core_state_of self.new) }
        ensures same_opening { HasSameOpening self.old self.new }
    {
        let at = self.seat_index(seat)?;
        let Phase::Holding(ticket) = self.seats[at].phase else {
            return Err(Fault::Phase);
        };
        let Some(place) = self.book.posts(call) else {
            return Err(Fault::Phase);
        };
        let recorded = self.book.record(seat, call);
        self.seats[at].post(ticket);
        self.board[place as usize] = self.book.word(place);
        Ok(Seen::Posted(recorded))
    }

    /// The holder leaves after it has posted its call: nothing more is recorded.
    fn leave_posted(&mut self, seat: u32) -> Result<Seen<K::Reply>, Fault>
        ensures step { Steps K.Kept (core_draws self.old) (core_state_of self.old) (Event.Leave seat None)
            result (core_state_of self.new) }
        ensures same_opening { HasSameOpening self.old self.new }
    {
        let at = self.seat_index(seat)?;
        let Phase::Posted(ticket) = self.seats[at].phase else {
            return Err(Fault::Phase);
        };
        self.seats[at].end();
        self.grants.leave(ticket);
        Ok(Seen::Left(None))
    }

    /// Records the holder's call, which the board doesn't show, and the seat leaves.
    fn leave(&mut self, seat: u32, call: K::Call) -> Result<Seen<K::Reply>, Fault>
        ensures step { Steps K.Kept (core_draws self.old) (core_state_of self.old)
            (Event.Leave seat (Some call)) result (core_state_of self.new) }
        ensures same_opening { HasSameOpening self.old self.new }
    {
        let at = self.seat_index(seat)?;
        let Phase::Holding(ticket) = self.seats[at].phase else {
            return Err(Fault::Phase);
        };
        let None = self.book.posts(call) else {
            return Err(Fault::Phase);
        };
        let reply = self.book.record(seat, call);
        self.seats[at].end();
        self.grants.leave(ticket);
        Ok(Seen::Left(Some(reply)))
    }

    fn glance(&self, seat: u32, place: u32) -> Result<Seen<K::Reply>, Fault>
        ensures step { Steps K.Kept (core_draws self.now) (core_state_of self.now)
            (Event.Glance seat place) result (core_state_of self.now) }
    {
        let at = self.seat_index(seat)?;
        if !self.seats[at].is_idle() {
            return Err(Fault::Phase);
        }
        let Some(word) = self.board.get(place as usize) else {
            return Err(Fault::Phase);
        };
        Ok(Seen::Glanced(*word))
    }

    fn gather(&mut self, seat: u32, other: u32) -> Result<Seen<K::Reply>, Fault>
        ensures step { Steps K.Kept (core_draws self.old) (core_state_of self.old)
            (Event.Gather seat other) result (core_state_of self.new) }
        ensures same_opening { HasSameOpening self.old self.new }
    {
        let at = self.seat_index(seat)?;
        let from = self.seat_index(other)?;
        if seat == other || !self.seats[at].is_idle() || !self.seats[from].is_idle() {
            return Err(Fault::Phase);
        }
        let other_seat = self.seats[from].retire();
        self.seats[at].join(other_seat);
        Ok(Seen::Gathered)
    }

    /// The place in the list of the seat with this own number.
    fn seat_index(&self, own: u32) -> Result<usize, Fault>
        ensures found { IfOk result (λ i. (p : CoreSeat)
            × (get_elem? (core_state_of self.now).seats i ≡ some p)
            × (p.own ≡ own) × (is_present p.phase ≡ true)) }
        ensures within { IfOk result (λ i. i < vec_len self.now.seats) }
        ensures missing { IfErr result (λ fault. (fault ≡ Fault.NoSeat)
            × (HasSeat (core_state_of self.now).seats own → ⊥)) }
    {
        for (at, seat) in self.seats.iter().enumerate() {
            if seat.is_named(own) {
                return Ok(at);
            }
        }
        Err(Fault::NoSeat)
    }
}

/// The numbers from 0 on, this many.
fn first_numbers(alloc: Global, count: u32) -> Result<LinkedList<u32>, AllocError>
    ensures { IfOk result (λ numbers. numbers ≡ numbers_from 0 count) }
{
    let mut numbers = LinkedList::new(alloc);
    for number in 0..count {
        numbers.push_back(number)?;
    }
    Ok(numbers)
}

/// The words that the book shows, by place.
fn first_words<K: Kept>(alloc: Global, book: &K) -> Result<Vec<u64>, AllocError>
    ensures { IfOk result (λ board. board.items ≡ K.board (K.state book.now)) }
{
    let count = book.words();
    let mut board = Vec::with_capacity(alloc, count as usize)?;
    for place in 0..count {
        board.push_reserved(book.word(place));
    }
    Ok(board)
}
