//! The lock and its calls: open, split, draw, look, post, leave, gather, glance and close.

ghost use Rattle.std.specs.Prelude.{⊤, ◌≡◌, ◌↔◌, ℕ, ◌+◌, ◌-◌, ◌*◌, ◌^◌, ◌<◌, ◌≤◌, true, false, [], ◌∷◌, length, slice_index, Some, None, IsErr, IfOk, IfErr};
ghost use Rattle.ticket_steps.specs.Books.{book_state, IsLawfulBook};
ghost use Rattle.ticket_steps.specs.History.{of, IsLegal};
ghost use Rattle.ticket_lock.specs.Boards.{board_after, board_length};
ghost use Rattle.ticket_lock.specs.Callers.{first_caller, caller_after_split, split_part, caller_after_draw, caller_with_history, caller_after_call};
ghost use Rattle.ticket_lock.specs.Callers.{gathered_caller, IsHandedOut};
ghost use Rattle.ticket_lock.specs.Endings.{EndsSchedule};
ghost use Rattle.ticket_lock.specs.Layout.{word_count};
ghost use Rattle.ticket_lock.specs.Steps.{IsBookAfterCall, IsBookAfterPost};
ghost use Rattle.ticket_lock.specs.Views.{Follows};

use crate::ghost_steps::{
    After, Count, Draws, Gathers, Glances, Leaves, Looks, Posts, SecondLoad, Splits,
};
use crate::layout::{NEXT, board_word, first_words, grant_word};
use crate::tokens::{Hold, Seat, SeatCounts, TableSeat, Turn};
use crate::views::{LockRule, TableStart, View};
use atomic_table::{Refused, Table};
use std::alloc::Global;
use std::marker::Brand;
use std::snapshot::Snapshot;
use ticket_steps::{DRAWS, Kept};

type LockTable<K> = Table<
    Option<K>,
    View<K, <K as Kept>::Call, <K as Kept>::Reply>,
    TableStart<K>,
    LockRule<K>,
    Global,
>;

/// A ticket lock around a book, for threads that have seats of it.
///
/// A caller makes a call in these steps. It takes a ticket (`draw`) and looks until its ticket is served
/// (`look`). It records the call in the book that it gets. It posts the call if the book's board is to show
/// the call (`post`), and leaves (`leave`). Calls end in the order of their draws. No step waits: a caller
/// that isn't served yet gets that result, and can look again later. Each step needs a seat, turn or hold of
/// this lock.
///
/// The lock shows the book's board: a caller reads one of its words, without a ticket, by one load
/// (`glance`).
///
/// For all orders of the threads' steps, the history of the book is that of one thread. Each reply is that of
/// the book's sequential step at its place.
#[derive(Drop)]
pub struct TicketLock<K: Kept> {
    pub(crate) table: LockTable<K>,
    pub(crate) numbers: u32,
    pub(crate) draws: u32,
    ghost sized: { (table.shared.table_id.words ≡ word_count table.shared.key.words) × (table.shared.table_id.slots ≡ 1) },
    ghost agreement: { (table.shared.key.numbers ≡ numbers) × (table.shared.key.draws ≡ draws) },
}

/// The outcome of a look.
pub enum Look<K: Kept> {
    /// The ticket is served: the caller has the book.
    Held(Hold<K>, K),
    /// The ticket isn't served yet.
    Waiting(Turn<K>),
}

impl<K: Kept> TicketLock<K> {
    ghost use Rattle.ticket_lock.specs.Tokens.{start_of, words_of, seat_of, turn_of, hold_of, ticket_of, held_ticket_of, has_posted, refused_before};
    ghost use Rattle.ticket_lock.specs.Tokens.{IsSeatOf, IsTurnOf, IsHoldOf, MatchLook};
    ghost use Rattle.ticket_lock.specs.Posting.{MayPost, HasPosted};

    /// A lock with the book in it, and a seat for all of `numbers`. Each number brings 2^32 - 1 draws, the
    /// most that [`TicketLock::open_with`] gives. The lock's board shows the book's board, which has at most
    /// 4,096 words. If there is no memory for the lock, the call returns the book as it was.
    pub fn open(alloc: Global, book: K, numbers: u32) -> Result<(TicketLock<K>, Seat<K>), K>
        requires numbers { (0 < numbers) × (numbers ≤ 1024) }
        requires empty { (K.history book ≡ []) × (K.refusals book ≡ 0) }
        requires words { length (K.board (K.state book)) ≤ 4096 }
        ensures start { IfOk result (λ made. ((start_of made.0).book ≡ book)
            × ((start_of made.0).numbers ≡ numbers) × ((start_of made.0).draws ≡ 2 ^ 32 - 1)) }
        ensures lock { IfOk result (λ made. IsSeatOf made.0 made.1) }
        ensures seat { IfOk result (λ made. seat_of made.1 ≡ first_caller numbers (2 ^ 32 - 1)) }
        ensures err { IfErr result (λ back. back ≡ book) }
    {
        TicketLock::open_with(alloc, book, numbers, DRAWS)
    }

    /// A lock as `open` makes it, except that each number brings `draws` draws. Use it for callers that make
    /// few calls. If there is no memory for the lock, the call returns the book as it was.
    pub fn open_with(
        alloc: Global,
        book: K,
        numbers: u32,
        draws: u32,
    ) -> Result<(TicketLock<K>, Seat<K>), K>
        requires numbers { (0 < numbers) × (numbers ≤ 1024) }
        requires draws { 0 < draws }
        requires empty { (K.history book ≡ []) × (K.refusals book ≡ 0) }
        requires words { length (K.board (K.state book)) ≤ 4096 }
        ensures start { IfOk result (λ made. ((start_of made.0).book ≡ book)
            × ((start_of made.0).numbers ≡ numbers) × ((start_of made.0).draws ≡ draws)) }
        ensures lock { IfOk result (λ made. IsSeatOf made.0 made.1) }
        ensures seat { IfOk result (λ made. seat_of made.1 ≡ first_caller numbers draws) }
        ensures err { IfErr result (λ back. back ≡ book) }
    {
        let opening = TableStart {
            book: Snapshot::of(&book),
            numbers,
            draws,
            words: book.words(),
        };
        let Ok(words) = first_words(alloc, &book) else {
            return Err(book);
        };
        let Ok(mut slots) = Vec::with_capacity(alloc, 1) else {
            return Err(book);
        };
        slots.push_reserved(Some(book));
        match Table::new(alloc, words.as_slice(), slots, &opening) {
            Ok((table, table_seat)) => {
                let seat = Seat::with_all_draws(table_seat, 0, numbers, draws, 0);
                let lock = TicketLock {
                    table,
                    numbers,
                    draws,
                };
                Ok((lock, seat))
            }
            Err(Refused { mut slots }) => {
                let last = slots.pop();
                let Some(slot) = last else { unreachable!() };
                let Some(book) = slot else { unreachable!() };
                slots.destroy_empty();
                Err(book)
            }
        }
    }

    /// Gives the last `count` numbers of a fresh seat, with their draws, to a new seat. The new seat is the
    /// second.
    pub fn split(&self, seat: Seat<K>, count: u32) -> (Seat<K>, Seat<K>)
        requires lock { IsSeatOf self.now seat }
        requires count { (0 < count) × (count < length (seat_of seat).numbers) }
        requires fresh { (seat_of seat).fresh ≡ true }
        ensures lock { IsSeatOf self.now result.0 × IsSeatOf self.now result.1 }
        ensures kept { seat_of result.0 ≡ caller_after_split (start_of self.now).draws count (seat_of seat) }
        ensures split_part { seat_of result.1 ≡ split_part (start_of self.now).draws count (seat_of seat) }
    {
        self.split_by::<Brand>(seat, count)
    }

    /// The same, for a count that proofs can name in a type.
    fn split_by<N: Count>(&self, seat: Seat<K>, count: u32) -> (Seat<K>, Seat<K>)
        requires { (count ≡ N.count) × (0 < count) × (count < length (seat_of seat).numbers)
            × ((seat_of seat).fresh ≡ true) × IsSeatOf self.now seat }
        ensures kept { IsSeatOf self.now result.0
            × (seat_of result.0 ≡ caller_after_split (start_of self.now).draws count (seat_of seat)) }
        ensures split_part { IsSeatOf self.now result.1
            × (seat_of result.1 ≡ split_part (start_of self.now).draws count (seat_of seat)) }
    {
        let Seat {
            mut table_seat,
            counts,
            parts: _,
        } = seat;
        let other = self.table.shared.split_seat::<Splits<N>>(&mut table_seat);
        let kept = counts.count - count;
        let split_part = Seat::with_all_draws(other, counts.number + kept, count, self.draws, 0);
        let seat = Seat::with_all_draws(table_seat, counts.number, kept, self.draws, counts.calls);
        (seat, split_part)
    }

    /// Takes the next ticket, by one of the seat's draws. The call returns the seat as it was exactly if the
    /// seat has no draw left.
    pub fn draw(&self, seat: Seat<K>) -> Result<Turn<K>, Seat<K>>
        requires { IsSeatOf self.now seat }
        ensures spent { IsErr result ↔ ((seat_of seat).left ≡ 0) }
        ensures err { IfErr result (λ back. back ≡ seat) }
        ensures lock { IfOk result (λ turn. IsTurnOf self.now turn) }
        ensures caller_after_draw { IfOk result (λ turn. turn_of turn ≡ caller_after_draw (seat_of seat)) }
    {
        if seat.counts.left == 0 {
            return Err(seat);
        }
        let Seat {
            mut table_seat,
            counts,
            parts: _,
        } = seat;
        let ticket = self
            .table
            .shared
            .fetch_add::<Draws<K>>(&mut table_seat, NEXT, 1);
        let counts = SeatCounts {
            left: counts.left - 1,
            ..counts
        };
        Ok(Turn {
            table_seat,
            counts,
            ticket,
        })
    }

    /// Looks whether the turn's ticket is served. If it is, the caller gets the book. The book's entries
    /// begin with all that the caller has seen, and the rest has no entries of the caller's numbers. The
    /// number of entries and refusals is the ticket. A turn whose seat has all numbers is always served. The
    /// book is that at the end of a schedule of the core (`schedule`), so all that
    /// [`every_schedule`](ticket_steps::every_schedule) says of such an end holds of it.
    pub fn look(&self, turn: Turn<K>) -> Look<K>
        requires { IsTurnOf self.now turn }
        ensures lock { MatchLook result (λ hold book. IsHoldOf self.now hold)
            (λ back. IsTurnOf self.now back) }
        ensures caller { MatchLook result
            (λ hold book. (hold_of hold ≡ caller_with_history (K.history book) (turn_of turn))
            × (held_ticket_of hold ≡ ticket_of turn) × (has_posted hold ≡ false)
            × (refused_before hold ≡ K.refusals book))
            (λ back. (turn_of back ≡ turn_of turn) × (ticket_of back ≡ ticket_of turn)) }
        ensures book { MatchLook result
            (λ hold book. IsHandedOut K.Kept (start_of self.now) (turn_of turn).numbers
            (turn_of turn).seen (ticket_of turn) book)
            (λ back. length (turn_of turn).numbers < (start_of self.now).numbers) }
        ensures schedule { MatchLook result
            (λ hold book. EndsSchedule K.Kept (start_of self.now) book) (λ back. ⊤) }
        ensures lawful { MatchLook result
            (λ hold book. IsLawfulBook K.step (K.opening book)
            (book_state (K.state book) (K.history book) (K.refusals book)))
            (λ back. ⊤) }
    {
        let Turn {
            mut table_seat,
            counts,
            ticket,
        } = turn;
        let granted = self
            .table
            .shared
            .load::<Looks<K>>(&mut table_seat, grant_word(ticket));
        if granted == ticket {
            let book = self.take_book(&mut table_seat);
            let hold = Hold {
                table_seat,
                counts,
                ticket,
                posted: false,
            };
            return Look::Held(hold, book);
        }
        Look::Waiting(Turn {
            table_seat,
            counts,
            ticket,
        })
    }

    /// Posts the hold's call: stores the book's word at the place of the call on the board. From now on
    /// everyone who glances there has seen the call. The book must be the one that was handed out, with one
    /// more entry or one more refusal. The entry is of the hold's own number, and its call is posted at this
    /// place. With a refusal the word stays as it was. The hold continues to hold, and has seen the book's
    /// history.
    pub fn post(&self, hold: Hold<K>, book: &K, place: u32) -> Hold<K>
        requires lock { IsHoldOf self.now hold }
        requires unposted { has_posted hold ≡ false }
        requires book { IsBookAfterCall K.Kept (start_of self.now) (hold_of hold).own (hold_of hold).seen
            (refused_before hold) (Some place) book.now }
        requires place { place < words_of self.now }
        ensures lock { IsHoldOf self.now result }
        ensures posted { has_posted result ≡ true }
        ensures caller { (hold_of result ≡ caller_with_history (K.history book.now) (hold_of hold))
            × (held_ticket_of result ≡ held_ticket_of hold) }
        ensures refused { refused_before result ≡ K.refusals book.now }
    {
        self.post_by::<Brand>(hold, book, place)
    }

    /// The same, for entries and refusals of the book that proofs can name in a type.
    fn post_by<A: After<K::Call, K::Reply>>(&self, hold: Hold<K>, book: &K, place: u32) -> Hold<K>
        requires after { (A.entries ≡ K.history book.now) × (A.refused ≡ K.refusals book.now) }
        requires may { MayPost self.now hold book.now place }
        ensures { HasPosted self.now hold book.now result }
    {
        let word = book.word(place);
        let mut hold = hold;
        self.table
            .shared
            .store::<Posts<K, A>>(&mut hold.table_seat, board_word(place), word);
        hold.posted = true;
        hold
    }

    /// Puts the book back and ends the hold. If the hold has posted, the book must be the one that it posted.
    /// Otherwise it must be the one that was handed out, with one more entry or one more refusal. The entry
    /// is of the hold's own number, and its call is not posted.
    pub fn leave(&self, hold: Hold<K>, book: K) -> Seat<K>
        requires lock { IsHoldOf self.now hold }
        requires recorded { has_posted hold ≡ false → IsBookAfterCall K.Kept (start_of self.now)
            (hold_of hold).own (hold_of hold).seen (refused_before hold) None book }
        requires posted { has_posted hold ≡ true → IsBookAfterPost K.Kept (start_of self.now)
            (hold_of hold).seen (refused_before hold) book }
        ensures lock { IsSeatOf self.now result }
        ensures caller_after_call { seat_of result ≡ caller_after_call (K.history book) (hold_of hold) }
    {
        let Hold {
            mut table_seat,
            counts,
            ticket,
            posted: _,
        } = hold;
        let next = ticket + 1;
        self.put_book(&mut table_seat, book);
        self.table
            .shared
            .store::<Leaves<K>>(&mut table_seat, grant_word(next), next);
        let counts = SeatCounts {
            calls: counts.calls + 1,
            ..counts
        };
        Seat {
            table_seat,
            counts,
            parts: 0,
        }
    }

    /// Joins two seats. The first seat remains, answers for the numbers of both, and has ended the calls of
    /// both. It has seen the longer history, to which neither seat's numbers added anything. The draws of the
    /// second seat are lost.
    pub fn gather(&self, seat: Seat<K>, other: Seat<K>) -> Seat<K>
        requires lock { IsSeatOf self.now seat × IsSeatOf self.now other }
        ensures lock { IsSeatOf self.now result }
        ensures gathered_caller { seat_of result ≡ gathered_caller (seat_of seat) (seat_of other) }
        ensures seen { Follows (seat_of seat).numbers (seat_of seat).seen (seat_of result).seen }
        ensures seen_by_other { Follows (seat_of other).numbers (seat_of other).seen
            (seat_of result).seen }
    {
        let Seat {
            mut table_seat,
            counts,
            parts: _,
        } = seat;
        let Seat {
            table_seat: other,
            counts: more,
            parts: _,
        } = other;
        self.table
            .shared
            .join_seat::<Gathers>(&mut table_seat, other);
        self.table
            .shared
            .load::<SecondLoad<K>>(&mut table_seat, NEXT);
        let counts = SeatCounts {
            count: counts.count + more.count,
            calls: counts.calls + more.calls,
            ..counts
        };
        Seat {
            table_seat,
            counts,
            parts: 0,
        }
    }

    /// Reads the word at this place of the board, by one load and without a ticket. It is the word after a
    /// legal history that continues the one that the seat had seen. The seat has seen that history now.
    pub fn glance(&self, seat: Seat<K>, place: u32) -> (Seat<K>, u64)
        requires lock { IsSeatOf self.now seat }
        requires place { place < words_of self.now }
        ensures lock { IsSeatOf self.now result.0 }
        ensures caller { seat_of result.0 ≡ caller_with_history (seat_of result.0).seen (seat_of seat) }
        ensures seen { Follows (seat_of seat).numbers (seat_of seat).seen (seat_of result.0).seen }
        ensures legal { IsLegal K.step (K.opening (start_of self.now).book) (seat_of result.0).seen }
        ensures word { result.1 ≡ slice_index
            (board_after K.Kept (start_of self.now).book (seat_of result.0).seen) place }
    {
        let mut seat = seat;
        let word = self
            .table
            .shared
            .load::<Glances<K>>(&mut seat.table_seat, board_word(place));
        (seat, word)
    }

    /// Takes the book out for good, if the seat has all numbers. The seat has seen the whole history, and its
    /// calls are all that were made. The book is that at the end of a schedule of the core (`schedule`), so
    /// all that [`every_schedule`](ticket_steps::every_schedule) says of such an end holds of it. The call
    /// returns the lock and the seat as they were exactly if numbers are missing.
    pub fn close(self, seat: Seat<K>) -> Result<K, (TicketLock<K>, Seat<K>)>
        requires { IsSeatOf self seat }
        ensures missing { IsErr result ↔ (length (seat_of seat).numbers < (start_of self).numbers) }
        ensures err { IfErr result (λ back. (back.0 ≡ self) × (back.1 ≡ seat)) }
        ensures schedule { IfOk result (λ book. EndsSchedule K.Kept (start_of self) book) }
        ensures opening { IfOk result (λ book. K.opening book ≡ K.opening (start_of self).book) }
        ensures history { IfOk result (λ book. K.history book ≡ (seat_of seat).seen) }
        ensures calls { IfOk result (λ book.
            length (K.history book) + K.refusals book ≡ (seat_of seat).calls) }
        ensures numbers { IfOk result (λ book. (number : ℕ)
            → (start_of self).numbers ≤ number → of number (K.history book) ≡ []) }
        ensures lawful { IfOk result (λ book. IsLawfulBook K.step (K.opening book)
            (book_state (K.state book) (K.history book) (K.refusals book))) }
    {
        if seat.counts.count < self.numbers {
            return Err((self, seat));
        }
        let TicketLock {
            table,
            numbers: _,
            draws: _,
        } = self;
        let Seat {
            table_seat,
            counts: _,
            parts: _,
        } = seat;
        let mut closed = table.close_with(table_seat);
        let slot = closed.take(0);
        closed.free();
        let Some(book) = slot else { unreachable!() };
        Ok(book)
    }

    /// Moves the book out of the slot, which the seat owns.
    fn take_book(&self, table_seat: &mut TableSeat<K>) -> K
        requires lock { table_seat.old.table_id ≡ self.now.table.shared.table_id }
        requires full { (book : K) × (table_seat.old.me.1 ≡ (0, Some book) ∷ []) }
        ensures book { table_seat.old.me.1 ≡ (0, Some result) ∷ [] }
        ensures taken { table_seat.new.me ≡ (table_seat.old.me.0, (0, None) ∷ []) }
        ensures same { (table_seat.new.table_id ≡ table_seat.old.table_id) × (table_seat.new.id ≡ table_seat.old.id) }
    {
        self.table.shared.exchange(table_seat, 0, None).unwrap()
    }

    /// Moves the book back into the slot, which the seat owns.
    fn put_book(&self, table_seat: &mut TableSeat<K>, book: K)
        requires lock { table_seat.old.table_id ≡ self.now.table.shared.table_id }
        requires empty { table_seat.old.me.1 ≡ (0, None) ∷ [] }
        ensures put { table_seat.new.me ≡ (table_seat.old.me.0, (0, Some book) ∷ []) }
        ensures same { (table_seat.new.table_id ≡ table_seat.old.table_id) × (table_seat.new.id ≡ table_seat.old.id) }
    {
        let was = self.table.shared.exchange(table_seat, 0, Some(book));
        let None = was else { unreachable!() };
    }
}
