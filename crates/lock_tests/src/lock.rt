//! Facts that no clause states: worked calls, successful calls, glances before and after a post, two
//! threads, and out of memory.
//!
//! The test of one thread also passes if any one request for memory is refused (`rt try --test --fail-alloc
//! N`).

ghost use Rattle.std.specs.Prelude.{◌≡◌, ◌<◌, ◌≤◌, IfOk};
ghost use Rattle.ticket_lock.specs.Tokens.{IsSeatOf, IsTurnOf};

use crate::books::{assert_entries, empty_book, entry};
use calls::try_call;
use std::alloc::{AllocError, Global};
use std::process::Abort;
use std::test::Fail;
use std::thread::join;
use ticket_lock::{Look, Seat, TicketLock, Turn, every_step};
use ticket_steps::Kept;
use ticket_steps::counter::CounterBook;

mod calls;

/// A lock over a book of counts.
type Lock = TicketLock<CounterBook>;

/// A seat of such a lock.
type LockSeat = Seat<CounterBook>;

/// Two seats of such a lock.
type TwoSeats = (LockSeat, LockSeat);

/// A turn of such a seat.
type LockTurn = Turn<CounterBook>;

/// A lock and two of its seats.
type LockOfTwo = (Lock, LockSeat, LockSeat);

/// A lock of two numbers over an empty book, and a seat for each of them. Out of memory hands the book
/// back as it was, and a second try with memory succeeds.
fn two_seats(alloc: Global, room: usize) -> Result<LockOfTwo, AllocError>
    ensures { IfOk result (λ made. IsSeatOf made.0 made.1 × IsSeatOf made.0 made.2) }
{
    let book = empty_book(alloc, room)?;
    let (lock, seat) = match TicketLock::open(alloc, book, 2) {
        Ok(made) => made,
        Err(book) => TicketLock::open(alloc, book, 2).or(Err(AllocError))?,
    };
    if seat.count() < 2 {
        return Err(AllocError);
    }
    let (first, second) = lock.split(seat, 1);
    Ok((lock, first, second))
}

/// A lock of one number that brings this many draws, over an empty book, and its seat.
fn seat_with(alloc: Global, draws: u32) -> Result<(Lock, LockSeat), AllocError>
    requires { 0 < draws }
    ensures { IfOk result (λ made. IsSeatOf made.0 made.1) }
{
    let book = empty_book(alloc, 10)?;
    match TicketLock::open_with(alloc, book, 1, draws) {
        Ok(made) => Ok(made),
        Err(book) => TicketLock::open_with(alloc, book, 1, draws).or(Err(AllocError)),
    }
}

/// The turn that a seat draws. A test of a seat with no draw left, or with another ticket, fails.
fn draw(rt: &impl Abort, lock: &Lock, seat: LockSeat, ticket: u64) -> LockTurn
    requires { IsSeatOf lock.now seat }
    ensures { IsTurnOf lock.now result }
{
    match lock.draw(seat) {
        Ok(turn) => {
            assert!(rt; turn.ticket() == ticket);
            turn
        }
        Err(_seat) => panic!(rt; "spent"),
    }
}

/// A seat that has no draw left, after it tried to draw.
fn spent_seat(rt: &impl Abort, lock: &Lock, seat: LockSeat) -> LockSeat
    requires { IsSeatOf lock.now seat }
    ensures { result ≡ seat }
{
    match lock.draw(seat) {
        Ok(_turn) => panic!(rt; "drew with no draw left"),
        Err(seat) => seat,
    }
}

/// A turn whose ticket isn't served yet, after it looked.
fn turn_that_waits(rt: &impl Abort, lock: &Lock, turn: LockTurn) -> LockTurn
    requires { IsTurnOf lock.now turn }
    ensures { IsTurnOf lock.now result }
{
    match try_call(lock, turn, 7) {
        Ok((_seat, _reply)) => panic!(rt; "held too early"),
        Err(turn) => turn,
    }
}

/// The seat after its call. A test of a turn that has to wait, or that gets another reply, fails.
fn seat_after_call(rt: &impl Abort, lock: &Lock, turn: LockTurn, call: u8, reply: u64) -> LockSeat
    requires { IsTurnOf lock.now turn }
    ensures { IsSeatOf lock.now result }
{
    match try_call(lock, turn, call) {
        Ok((seat, replied)) => {
            assert!(rt; replied == Ok(reply));
            seat
        }
        Err(_turn) => panic!(rt; "waits"),
    }
}

/// The seat after a glance at the board's one word, which is the expected one.
fn seat_after_glance(rt: &impl Abort, lock: &Lock, seat: LockSeat, word: u64) -> LockSeat
    requires { IsSeatOf lock.now seat }
    ensures { IsSeatOf lock.now result }
{
    let (seat, shown) = lock.glance(seat, 0);
    assert!(rt; shown == word);
    seat
}

/// Shows that a seat has this number alone, and hasn't drawn.
fn assert_unused(rt: &impl Abort, seat: &LockSeat, number: u32) {
    let numbers = (seat.number(), seat.count());
    let draws = (seat.left(), seat.calls(), seat.fresh());
    assert!(rt; numbers == (number, 1) && draws == (4_294_967_295, 0, true));
}

/// A lock that one seat can't close, since the other is missing.
fn open_with_one_seat(rt: &impl Abort, lock: Lock, seat: LockSeat) -> (Lock, LockSeat)
    requires { IsSeatOf lock seat }
    ensures { (result.0 ≡ lock) × (result.1 ≡ seat) }
{
    match lock.close(seat) {
        Ok(_book) => panic!(rt; "closed with a seat missing"),
        Err(back) => back,
    }
}

/// The book of a lock that is closed. A test in which a seat is missing fails.
fn book_of(rt: &impl Abort, lock: Lock, seat: LockSeat) -> CounterBook
    requires { IsSeatOf lock seat }
{
    match lock.close(seat) {
        Ok(book) => book,
        Err((_lock, _seat)) => panic!(rt; "missing"),
    }
}

/// Two seats after one call each. The second seat also looks before it is served.
fn two_calls(rt: &impl Abort, lock: &Lock, first: LockSeat, second: LockSeat) -> TwoSeats
    requires { IsSeatOf lock.now first × IsSeatOf lock.now second }
    ensures { IsSeatOf lock.now result.0 × IsSeatOf lock.now result.1 }
{
    let a = draw(rt, lock, first, 0);
    let b = draw(rt, lock, second, 1);
    let b = turn_that_waits(rt, lock, b);
    let first = seat_after_call(rt, lock, a, 5, 5);
    let second = seat_after_call(rt, lock, b, 7, 12);
    (first, seat_after_glance(rt, lock, second, 12))
}

#[test]
fn two_seats_make_calls(rt: HostRuntime) -> Result<(), Fail> {
    let (lock, first, second) = two_seats(rt.alloc(), 10)?;
    assert_unused(&rt, &first, 0);
    assert_unused(&rt, &second, 1);
    let first = seat_after_glance(&rt, &lock, first, 0);
    assert_unused(&rt, &first, 0);
    let (first, second) = two_calls(&rt, &lock, first, second);
    let (lock, first) = open_with_one_seat(&rt, lock, first);
    let seat = lock.gather(first, second);
    assert!(rt; seat.calls() == 2 && seat.count() == 2 && !seat.fresh());
    let book = book_of(&rt, lock, seat);
    let entries = [entry(0, 5, 5), entry(1, 7, 12)];
    assert_entries(&rt, &book, &entries);
    every_step::<CounterBook>();
    Ok(())
}

/// Two seats after a call of the first, in which the second glances at the board before and after the post.
fn glances_at_a_post(rt: &impl Abort, lock: &Lock, first: LockSeat, second: LockSeat) -> TwoSeats
    requires { IsSeatOf lock.now first × IsSeatOf lock.now second }
    ensures { IsSeatOf lock.now result.0 × IsSeatOf lock.now result.1 }
{
    let turn = draw(rt, lock, first, 0);
    let (hold, mut book) = match lock.look(turn) {
        Look::Held(hold, book) => (hold, book),
        Look::Waiting(_turn) => panic!(rt; "waits"),
    };
    assert!(rt; !hold.posted() && hold.number() == 0 && hold.ticket() == 0);
    let reply = book.record(hold.number(), 5);
    let second = seat_after_glance(rt, lock, second, 0);
    let hold = lock.post(hold, &book, 0);
    let second = seat_after_glance(rt, lock, second, 5);
    assert!(rt; hold.posted() && reply == Ok(5));
    (lock.leave(hold, book), second)
}

/// A board is read without a ticket: it shows what was posted, before the holder leaves. A call of 0
/// changes no word: it has no place, and the holder leaves with it.
#[test]
fn a_glance_reads_what_was_posted(rt: HostRuntime) -> Result<(), Fail> {
    let (lock, first, second) = two_seats(rt.alloc(), 10)?;
    let (first, second) = glances_at_a_post(&rt, &lock, first, second);
    let turn = draw(&rt, &lock, second, 1);
    let second = seat_after_call(&rt, &lock, turn, 0, 5);
    let second = seat_after_glance(&rt, &lock, second, 5);
    let seat = lock.gather(first, second);
    let book = book_of(&rt, lock, seat);
    let entries = [entry(0, 5, 5), entry(1, 0, 5)];
    assert_entries(&rt, &book, &entries);
    Ok(())
}

/// Whether a book has this many entries, and the last reply is their number.
fn has_counted(book: &CounterBook, calls: usize) -> bool {
    let entries = book.entries();
    entries.len() == calls && matches!(entries.last(), Some(entry) if entry.reply == calls as u64)
}

/// Closes a lock after this many calls of 1, by the seat that has all numbers.
fn close_after_ones(rt: &impl Abort, lock: Lock, seat: LockSeat, calls: usize)
    requires { IsSeatOf lock seat }
{
    assert!(rt; seat.calls() == calls as u64);
    let book = book_of(rt, lock, seat);
    assert!(rt; has_counted(&book, calls));
}

/// A seat with two draws makes two calls. Then its third draw gives it back as it was.
#[test]
fn a_seat_draws_as_often_as_it_was_given(rt: HostRuntime) -> Result<(), Fail> {
    let (lock, seat) = seat_with(rt.alloc(), 2)?;
    assert!(rt; seat.left() == 2);
    let done = add_ones(&lock, seat, 2);
    let seat = seat_back(&rt, &lock, done);
    let seat = spent_seat(&rt, &lock, seat);
    assert!(rt; seat.left() == 0);
    close_after_ones(&rt, lock, seat, 2);
    Ok(())
}

/// How often a caller looks for one turn before the test stops.
const LOOKS: u64 = 1_000_000_000;

/// Makes this many calls of 1. The turn comes back if it isn't served in time.
fn add_ones(lock: &Lock, mut seat: LockSeat, calls: u32) -> Result<LockSeat, Option<LockTurn>>
    requires { IsSeatOf lock.now seat }
    ensures { IfOk result (λ seat. IsSeatOf lock.now seat) }
{
    for _ in 0..calls {
        let Ok(turn) = lock.draw(seat) else {
            return Err(None);
        };
        seat = wait_and_add(lock, turn)?;
    }
    Ok(seat)
}

/// One call of 1, which looks until its ticket is served.
fn wait_and_add(lock: &Lock, mut turn: LockTurn) -> Result<LockSeat, Option<LockTurn>>
    requires { IsTurnOf lock.now turn }
    ensures { IfOk result (λ seat. IsSeatOf lock.now seat) }
{
    for _ in 0..LOOKS {
        turn = match try_call(lock, turn, 1) {
            Ok((seat, _reply)) => return Ok(seat),
            Err(turn) => turn,
        };
    }
    Err(Some(turn))
}

/// The result of a thread, or the end of the test.
fn seat_back(rt: &impl Abort, lock: &Lock, done: Result<LockSeat, Option<LockTurn>>) -> LockSeat
    requires { IfOk done (λ seat. IsSeatOf lock.now seat) }
    ensures { IsSeatOf lock.now result }
{
    match done {
        Ok(seat) => seat,
        Err(_turn) => panic!(rt; "not served in time"),
    }
}

#[test]
fn two_threads_make_a_thousand_calls_each(rt: HostRuntime) -> Result<(), Fail> {
    let (lock, first, second) = two_seats(rt.alloc(), 2000)?;
    let (first, second) = join(
        &rt,
        || -> Result<LockSeat, Option<LockTurn>>
            requires { IsSeatOf lock first }
            ensures { IfOk result (λ seat. IsSeatOf lock seat) }
        { add_ones(&lock, first, 1000) },
        || -> Result<LockSeat, Option<LockTurn>>
            requires { IsSeatOf lock second }
            ensures { IfOk result (λ seat. IsSeatOf lock seat) }
        { add_ones(&lock, second, 1000) },
    );
    let first = seat_back(&rt, &lock, first);
    let second = seat_back(&rt, &lock, second);
    let seat = lock.gather(first, second);
    close_after_ones(&rt, lock, seat, 2000);
    Ok(())
}
