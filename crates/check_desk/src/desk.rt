//! The desk and its calls.

ghost use Rattle.std.specs.Prelude.{⊤, ◌≡◌, ◌↔◌, ℕ, ◌+◌, ◌<◌, ◌≤◌, [], length, false, Some, None, IsErr, IfSome, IfOk, IfErr, OnErr, vec_capacity};
ghost use Rattle.std.specs.List.{All};
ghost use Rattle.ticket_steps.specs.History.{of};
ghost use Rattle.ticket_steps.specs.Books.{book_state, IsLawfulBook};
ghost use Rattle.ticket_lock.specs.Callers.{Caller, caller_after_draw, caller_after_call, first_caller, caller_with_history, gathered_caller};
ghost use Rattle.ticket_lock.specs.Steps.{IsBookAfterCall};
ghost use Rattle.ticket_lock.specs.Tokens.{has_posted, hold_of, refused_before, seat_of, start_of, IsHoldOf, IsSeatOf};
ghost use Rattle.ticket_lock.specs.Views.{Follows};
ghost use Rattle.check_objects.specs.Configuration.{object_count};
ghost use Rattle.check_book.specs.BookState.{book_step};
ghost use Rattle.check_sched.specs.Board.{slot_of_reply};
ghost use Rattle.check_book.specs.contracts.book.BookKept.TheImpl.{ghosts as kept_book};
ghost use Rattle.check_book.specs.Books.{entries_of, opening_of, refused_of, room_of, state_of};

use crate::passes::{Hold, Pass, Turn};
use crate::waiting::Patience;
use check_book::Book;
use check_sched::{Call, Reply};
use check_states::{Standing, decode};
use std::alloc::Global;
use std::sync::Wait;
use ticket_lock::{Look, Seat, TicketLock};
use ticket_steps::{DRAWS, Kept, NoMemory};

/// A book in a lock, for up to 1,024 callers in any threads.
///
/// Each call needs a pass, turn or hold of this desk.
pub struct Desk {
    pub(crate) passes: u32,
    pub(crate) objects: u32,
    // After these eight bytes, and the eight of a shared count, the two pointers with which the lock begins
    // are in one line of the cache.
    pub(crate) lock: TicketLock<Book>,
    ghost passes_are: { (start_of lock).numbers ≡ passes },
    ghost objects_are: { object_count (opening_of (start_of lock).book).sched.setup ≡ objects },
}

// A crate that drops a desk calls this. A derived one would be proved there again, field by field.
impl Drop for Desk {
    fn drop(self) {
        let Desk {
            passes: _,
            objects: _,
            lock: _,
        } = self;
    }
}

/// The outcome of a poll.
pub enum Poll {
    /// The turn has come: the caller holds the book.
    Mine(Hold),
    /// The turn hasn't come yet.
    NotYet(Turn),
}

/// The outcome of a call.
#[derive(Clone, Copy, Debug, PartialEq, Eq)]
pub enum Answer {
    /// The call was made, and is recorded with this reply.
    Reply(Reply),
    /// Out of memory for the entry: the call wasn't made, but it is counted.
    NoMemory,
    /// The pass has no call left. Nothing was done.
    Spent,
}

impl Desk {
    ghost use Rattle.check_desk.specs.Desks.{AreNewPasses, HasNoMemory, HasRecorded, IsHistoryOf, IsHolderAt, IsPassOf, IsWaitingAt, MatchAnswer};
    ghost use Rattle.check_desk.specs.Desks.{AreNewPassesWith, MatchPoll, calls_of, objects_of, desk_opening, passes_of, caller_after_reply, standing_after};
    ghost use Rattle.check_desk.specs.Schedules.{EndsScheduleFrom};
    ghost use Rattle.check_desk.specs.Passes.{held_book, drawn_ticket, hold_caller, pass_of, turn_caller};

    /// A desk over the book, and its passes in the order of their numbers, from 0. Each pass has 2^32 - 1
    /// calls, the most that [`Desk::open_with`] gives. It answers only for itself, and has made no call and
    /// seen nothing.
    ///
    /// An Err means out of memory, and returns the book as it was. Only two other calls need memory,
    /// [`Desk::finish`] and [`Desk::ask`], and they need it only if the book's room is used up.
    pub fn open(alloc: Global, book: Book, passes: u32) -> Result<(Desk, Vec<Pass>), Book>
        requires passes { (0 < passes) × (passes ≤ 1024) }
        requires empty { (entries_of book ≡ []) × (refused_of book ≡ 0) }
        ensures opening { IfOk result (λ made. desk_opening made.0 ≡ opening_of book) }
        ensures passes { IfOk result (λ made. passes_of made.0 ≡ passes) }
        ensures list { IfOk result (λ made. length made.1.items ≡ passes) }
        ensures new { IfOk result (λ made. AreNewPasses made.0 0 made.1.items) }
        ensures own { IfOk result (λ made. All (IsPassOf made.0) made.1.items) }
        ensures err { IfErr result (λ back. back ≡ book) }
    {
        Desk::open_with(alloc, book, passes, DRAWS)
    }

    /// A desk as `open` makes it, except that each pass brings `calls` calls. Use it for callers that make
    /// few calls. A pass is spent when it has made its calls.
    ///
    /// An Err means out of memory, and returns the book as it was. [`Desk::open`] says which other calls need
    /// memory.
    pub fn open_with(
        alloc: Global,
        book: Book,
        passes: u32,
        calls: u32,
    ) -> Result<(Desk, Vec<Pass>), Book>
        requires passes { (0 < passes) × (passes ≤ 1024) }
        requires calls { 0 < calls }
        requires empty { (entries_of book ≡ []) × (refused_of book ≡ 0) }
        ensures opening { IfOk result (λ made. desk_opening made.0 ≡ opening_of book) }
        ensures passes { IfOk result (λ made. passes_of made.0 ≡ passes) }
        ensures list { IfOk result (λ made. length made.1.items ≡ passes) }
        ensures new { IfOk result (λ made. AreNewPassesWith calls made.0 0 made.1.items) }
        ensures own { IfOk result (λ made. All (IsPassOf made.0) made.1.items) }
        ensures err { IfErr result (λ back. back ≡ book) }
    {
        let Ok(mut list) = Vec::with_capacity(alloc, passes as usize) else {
            return Err(book);
        };
        let objects = book.words();
        match TicketLock::open_with(alloc, book, passes, calls) {
            Ok((lock, seat)) => {
                let desk = Desk {
                    lock,
                    passes,
                    objects,
                };
                desk.hand_out(seat, &mut list);
                Ok((desk, list))
            }
            Err(book) => Err(book),
        }
    }

    /// Divides the seat for all numbers into one pass for each.
    fn hand_out(&self, seat: Seat<Book>, list: &mut Vec<Pass>)
        requires desk { IsSeatOf self.now.lock seat }
        requires all { seat_of seat ≡ first_caller (passes_of self.now) (calls_of self.now) }
        requires nonempty { 0 < passes_of self.now }
        requires empty { list.old.items ≡ [] }
        requires room { passes_of self.now ≤ vec_capacity list.old }
        ensures list { length list.new.items ≡ passes_of self.now }
        ensures new { AreNewPassesWith (calls_of self.now) self.now 0 list.new.items }
        ensures own { All (IsPassOf self.now) list.new.items }
    {
        let mut rest = seat;
        for _number in 0..self.passes - 1 {
            let others = rest.count() - 1;
            let (own, more) = self.lock.split(rest, others);
            list.push_reserved(Pass { seat: own });
            rest = more;
        }
        list.push_reserved(Pass { seat: rest });
    }

    /// Takes a ticket, by one of the pass's calls. The call returns the pass as it was exactly if the pass
    /// has no call left.
    pub fn begin(&self, pass: Pass) -> Result<Turn, Pass>
        requires { IsPassOf self.now pass }
        ensures spent { IsErr result ↔ ((pass_of pass).left ≡ 0) }
        ensures err { IfErr result (λ back. back ≡ pass) }
        ensures desk { IfOk result (λ turn. IsWaitingAt self.now turn) }
        ensures caller_after_draw { IfOk result (λ turn. turn_caller turn ≡ caller_after_draw (pass_of pass)) }
    {
        match self.lock.draw(pass.into_seat()) {
            Ok(turn) => Ok(Turn { turn }),
            Err(seat) => Err(Pass { seat }),
        }
    }

    /// Looks whether the turn has come. It always has if the pass answers for all passes.
    ///
    /// With the book, the caller has seen the book's history. The history begins with all that the caller had
    /// seen, and the rest has no entries of the numbers for which the pass answers. The number of its entries
    /// and refusals is the ticket, so calls end in the order of their tickets.
    pub fn poll(&self, turn: Turn) -> Poll
        requires { IsWaitingAt self.now turn }
        ensures desk { MatchPoll result (λ hold. IsHolderAt self.now hold)
            (λ back. IsWaitingAt self.now back) }
        ensures follows { MatchPoll result
            (λ hold. Follows (turn_caller turn).numbers (turn_caller turn).seen (hold_caller hold).seen)
            (λ back. turn_caller back ≡ turn_caller turn) }
        ensures legal { MatchPoll result
            (λ hold. IsHistoryOf self.now (hold_caller hold).seen) (λ back. ⊤) }
        ensures caller { MatchPoll result
            (λ hold. hold_caller hold ≡ caller_with_history (hold_caller hold).seen (turn_caller turn))
            (λ back. length (turn_caller turn).numbers < passes_of self.now) }
        ensures ticket { MatchPoll result
            (λ hold. length (hold_caller hold).seen + refused_of (held_book hold)
            ≡ drawn_ticket turn)
            (λ back. drawn_ticket back ≡ drawn_ticket turn) }
        ensures seen { MatchPoll result
            (λ hold. (hold_caller hold).seen ≡ entries_of (held_book hold)) (λ back. ⊤) }
    {
        let Turn { turn } = turn;
        match self.lock.look(turn) {
            Look::Held(hold, book) => Poll::Mine(Hold { hold, book }),
            Look::Waiting(turn) => Poll::NotYet(Turn { turn }),
        }
    }

    /// Makes the call, records it under the pass's own number, and ends the hold. A report whose reply is its
    /// object's standing is posted first. From then on, everyone who glances at the object has seen the
    /// report. If there is no memory for the entry, the call isn't made, but counted. This happens only if
    /// the history has reached the book's room.
    pub fn finish(&self, hold: Hold, call: Call) -> (Pass, Answer)
        requires { IsHolderAt self.now hold }
        ensures desk { IsPassOf self.now result.0 }
        ensures caller { MatchAnswer result.1
            (λ reply. pass_of result.0 ≡ caller_after_reply call reply (hold_caller hold).seen (hold_caller hold))
            (pass_of result.0 ≡ caller_after_call (hold_caller hold).seen (hold_caller hold)) ⊥ }
        ensures legal { IsHistoryOf self.now (pass_of result.0).seen }
        ensures full { MatchAnswer result.1 (λ reply. ⊤)
            ((desk_opening self.now).room ≤ length (hold_caller hold).seen) ⊤ }
    {
        let Hold { hold, mut book } = hold;
        let recorded = book.record(hold.number(), call);
        let place = place_of(call, recorded);
        let seat = self.leave(hold, book, place);
        let answer = match recorded {
            Ok(reply) => Answer::Reply(reply),
            Err(_refused) => Answer::NoMemory,
        };
        (Pass { seat }, answer)
    }

    /// Ends the hold of a caller whose call is recorded in the book, or refused. A call that has a place on
    /// the board is posted first.
    fn leave(&self, hold: ticket_lock::Hold<Book>, book: Book, place: Option<u32>) -> Seat<Book>
        requires desk { IsHoldOf self.now.lock hold }
        requires unposted { has_posted hold ≡ false }
        requires book { IsBookAfterCall kept_book (start_of self.now.lock) (hold_of hold).own
            (hold_of hold).seen (refused_before hold) place book }
        requires place { IfSome place (λ at. at < objects_of self.now) }
        ensures desk { IsSeatOf self.now.lock result }
        ensures caller_after_call { seat_of result ≡ caller_after_call (entries_of book) (hold_of hold) }
    {
        match place {
            Some(place) => {
                let hold = self.lock.post(hold, &book, place);
                self.lock.leave(hold, book)
            }
            None => self.lock.leave(hold, book),
        }
    }

    /// A whole call: takes a ticket, waits until its turn comes, and makes the call. The answer is `Spent`,
    /// and nothing is done, exactly if the pass has no call left.
    ///
    /// The contract holds when the call returns. It doesn't say how long the call waits. A caller that waits
    /// for more than some microseconds sleeps, and rests before the call returns, for up to 50 milliseconds.
    #[tactic(auto, using(crate::proofs::PassLemmas::seen_history))]
    pub fn ask(&self, rt: &impl Wait, pass: Pass, call: Call) -> (Pass, Answer)
        requires { IsPassOf self.now pass }
        ensures desk { IsPassOf self.now result.0 }
        ensures answer { MatchAnswer result.1
            (λ reply. HasRecorded call reply (pass_of pass) (pass_of result.0))
            (HasNoMemory (desk_opening self.now).room (pass_of pass) (pass_of result.0))
            (((pass_of pass).left ≡ 0) × (result.0 ≡ pass)) }
        ensures legal { IsHistoryOf self.now (pass_of result.0).seen }
    {
        match self.begin(pass) {
            Ok(turn) => {
                let mut patience = Patience::new();
                let hold = self.wait(rt, turn, &mut patience);
                let ended = self.finish(hold, call);
                patience.rest(rt);
                ended
            }
            Err(pass) => (pass, Answer::Spent),
        }
    }

    /// Polls until the turn has come. Between two polls it waits as its patience says.
    fn wait(&self, rt: &impl Wait, turn: Turn, patience: &mut Patience) -> Hold
        requires { IsWaitingAt self.now turn }
        ensures desk { IsHolderAt self.now result }
        ensures follows { Follows (turn_caller turn).numbers (turn_caller turn).seen
            (hold_caller result).seen }
        ensures caller { hold_caller result
            ≡ caller_with_history (hold_caller result).seen (turn_caller turn) }
    {
        let mut turn = turn;
        for _ in rt.forever() {
            turn = match self.poll(turn) {
                Poll::Mine(hold) => return hold,
                Poll::NotYet(turn) => turn,
            };
            patience.wait(rt);
        }
        unreachable!()
    }

    /// Reads the standing of an object, by one load: without a ticket, without waiting, and without a call of
    /// the pass. It returns None exactly if the setup has no object of this number. There is no load then,
    /// and the pass stays as it was.
    ///
    /// The standing is the object's after a history of the desk. This history begins with all that the pass
    /// had seen, and the rest has no entries of the numbers for which the pass answers. The pass has seen it
    /// now, so later glances never go back.
    pub fn glance(&self, pass: Pass, object: u32) -> (Pass, Option<Standing>)
        requires { IsPassOf self.now pass }
        ensures desk { IsPassOf self.now result.0 }
        ensures missing { (result.1 ≡ None) ↔ (objects_of self.now ≤ object) }
        ensures same { objects_of self.now ≤ object → result.0 ≡ pass }
        ensures caller { pass_of result.0 ≡ caller_with_history (pass_of result.0).seen (pass_of pass) }
        ensures seen { Follows (pass_of pass).numbers (pass_of pass).seen (pass_of result.0).seen }
        ensures legal { IsHistoryOf self.now (pass_of result.0).seen }
        ensures standing { object < objects_of self.now
            → result.1 ≡ Some (standing_after self.now (pass_of result.0).seen object) }
    {
        if self.objects <= object {
            return (pass, None);
        }
        let (seat, word) = self.lock.glance(pass.into_seat(), object);
        (Pass { seat }, decode(word))
    }

    /// Joins two passes. The first pass remains, answers for the numbers of both, and has made the calls of
    /// both. It has seen the longer history, to which neither pass's numbers added anything. The calls that
    /// the second pass had left are lost.
    #[tactic(auto, using(crate::proofs::PassLemmas::seen_history))]
    pub fn gather(&self, pass: Pass, other: Pass) -> Pass
        requires { IsPassOf self.now pass × IsPassOf self.now other }
        ensures desk { IsPassOf self.now result }
        ensures gathered_caller { pass_of result ≡ gathered_caller (pass_of pass) (pass_of other) }
        ensures legal { IsHistoryOf self.now (pass_of result).seen }
        ensures seen { Follows (pass_of pass).numbers (pass_of pass).seen (pass_of result).seen }
        ensures seen_by_other { Follows (pass_of other).numbers (pass_of other).seen
            (pass_of result).seen }
    {
        Pass {
            seat: self.lock.gather(pass.into_seat(), other.into_seat()),
        }
    }

    /// Returns the book, if all passes were gathered into this one. The call returns the desk and the pass as
    /// they were exactly if passes are missing.
    ///
    /// The book's history is the one that the pass has seen. It has each caller's calls once, in the caller's
    /// order, and nothing else. The book is that at the end of a schedule from the desk's opening (`schedule`),
    /// so all that [`headline_from_any_state`](crate::laws::headline_from_any_state) says of such an end holds
    /// of it.
    pub fn close(self, pass: Pass) -> Result<Book, (Desk, Pass)>
        requires { IsPassOf self pass }
        ensures missing { IsErr result ↔ (length (pass_of pass).numbers < passes_of self) }
        ensures err { IfErr result (λ back. (back.0 ≡ self) × (back.1 ≡ pass)) }
        ensures schedule { IfOk result (λ book. EndsScheduleFrom (desk_opening self) (passes_of self) book) }
        ensures opening { IfOk result (λ book. opening_of book ≡ desk_opening self) }
        ensures history { IfOk result (λ book. entries_of book ≡ (pass_of pass).seen) }
        ensures calls { IfOk result (λ book.
            length (entries_of book) + refused_of book ≡ (pass_of pass).calls) }
        ensures numbers { IfOk result (λ book. (number : ℕ)
            → passes_of self ≤ number → of number (entries_of book) ≡ []) }
        ensures made { IfOk result (λ book.
            All (λ e. e.pass < passes_of self) (entries_of book)) }
        ensures lawful { IfOk result (λ book. IsLawfulBook book_step (opening_of book)
            (book_state (state_of book) (entries_of book) (refused_of book))) }
    {
        let Desk {
            lock,
            passes,
            objects,
        } = self;
        match lock.close(pass.into_seat()) {
            Ok(book) => Ok(book),
            Err((lock, seat)) => Err((
                Desk {
                    lock,
                    passes,
                    objects,
                },
                Pass { seat },
            )),
        }
    }
}

/// The place at which a call is posted, by the reply that was recorded: the object's number, for a report that
/// was answered by the object's standing. A call that wasn't recorded isn't posted.
fn place_of(call: Call, recorded: Result<Reply, NoMemory>) -> Option<u32>
    ensures ok { IfOk recorded (λ reply. result ≡ slot_of_reply call reply) }
    ensures err { OnErr recorded (result ≡ None) }
{
    let Call::Report { object, .. } = call else {
        return None;
    };
    match recorded {
        Ok(Reply::Standing { .. }) => Some(object),
        _ => None,
    }
}
