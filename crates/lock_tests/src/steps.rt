//! Facts that no clause states: worked schedules, successful calls, and out of memory.
//!
//! Each test also passes if any one request for memory is refused (`rt try --test --fail-alloc N`).

ghost use Rattle.std.specs.Prelude.{◌≡◌, ◌+◌, ◌^◌, ◌<◌, ◌≤◌};
ghost use Rattle.ticket_steps.specs.CounterBooks.{counter_refusals};

use crate::books::{assert_entries, empty_book, entry};
use std::alloc::{AllocError, Global};
use std::process::Abort;
use std::test::Fail;
use ticket_steps::Event::{Draw, Gather, Glance, Leave, Look, Post, Split};
use ticket_steps::counter::CounterBook;
use ticket_steps::{Core, Entry, Event, Fault, Grants, Kept, NoMemory, Seen, every_schedule};

/// A core of this many numbers over an empty book. Out of memory hands the book back as it was, and a
/// second try with memory succeeds.
fn core_of(alloc: Global, numbers: u32, room: usize) -> Result<Core<CounterBook>, AllocError>
    requires { (0 < numbers) × (numbers ≤ 1024) }
{
    let book = empty_book(alloc, room)?;
    match Core::open(alloc, book, numbers) {
        Ok(core) => Ok(core),
        Err(book) => Core::open(alloc, book, numbers).or(Err(AllocError)),
    }
}

/// A core of two numbers over an empty book with room 10.
fn core_of_two(alloc: Global) -> Result<Core<CounterBook>, AllocError> {
    core_of(alloc, 2, 10)
}

/// A core of one number that brings one draw.
fn core_of_one_draw(alloc: Global) -> Result<Core<CounterBook>, AllocError> {
    let book = empty_book(alloc, 1)?;
    match Core::open_with(alloc, book, 1, 1) {
        Ok(core) => Ok(core),
        Err(book) => Core::open_with(alloc, book, 1, 1).or(Err(AllocError)),
    }
}

/// The first seat gives its last number to a new seat.
const SPLIT: Event<u8> = Split { seat: 0, count: 1 };

/// The first seat leaves, after its post.
const FIRST_LEAVES: Event<u8> = Leave {
    seat: 0,
    call: None,
};

/// The second seat leaves, after its post.
const SECOND_LEAVES: Event<u8> = Leave {
    seat: 1,
    call: None,
};

/// The first seat leaves with a call of 5.
const FIRST_LEAVES_WITH_5: Event<u8> = Leave {
    seat: 0,
    call: Some(5),
};

/// The second seat leaves with a call of 0.
const SECOND_LEAVES_WITH_0: Event<u8> = Leave {
    seat: 1,
    call: Some(0),
};

/// The answer of a core to an event.
type Answer = Result<Seen<u64>, Fault>;

/// Makes an event on a core, and compares the answer with the expected one.
fn step(rt: &impl Abort, core: &mut Core<CounterBook>, event: Event<u8>, answer: Answer) {
    assert_eq!(rt; core.step(event), answer, "{event:?}");
}

/// Makes events on a core, one after another, each with the expected answer.
fn play(rt: &impl Abort, core: &mut Core<CounterBook>, rows: &[(Event<u8>, Answer)]) {
    for (event, answer) in rows {
        step(rt, core, *event, *answer);
    }
}

/// Plays on a core of two numbers, and compares the entries of its book afterwards.
fn play_on_two(
    rt: &impl Abort,
    alloc: Global,
    rows: &[(Event<u8>, Answer)],
    entries: &[Entry<u8, u64>],
) -> Result<(), Fail> {
    let mut core = core_of_two(alloc)?;
    play(rt, &mut core, rows);
    assert_entries(rt, core.book(), entries);
    Ok(())
}

/// Makes events on a core up to the one at this place, which doesn't fit its seat's phase.
fn run_to_fault(rt: &impl Abort, core: &mut Core<CounterBook>, events: &[Event<u8>], place: usize) {
    assert_eq!(rt; core.run(events), Err((place, Fault::Phase)));
}

#[test]
fn two_seats_make_calls(rt: HostRuntime) -> Result<(), Fail> {
    let rows = &[
        (SPLIT, Ok(Seen::Split)),
        (Draw { seat: 0 }, Ok(Seen::Drew(0))),
        (Draw { seat: 1 }, Ok(Seen::Drew(1))),
        (Look { seat: 1 }, Ok(Seen::Waiting)),
        (Look { seat: 0 }, Ok(Seen::Held)),
        (Post { seat: 0, call: 5 }, Ok(Seen::Posted(Ok(5)))),
        (FIRST_LEAVES, Ok(Seen::Left(None))),
        (Look { seat: 1 }, Ok(Seen::Held)),
        (Post { seat: 1, call: 7 }, Ok(Seen::Posted(Ok(12)))),
        (SECOND_LEAVES, Ok(Seen::Left(None))),
        (Gather { seat: 0, other: 1 }, Ok(Seen::Gathered)),
    ];
    play_on_two(&rt, rt.alloc(), rows, &[entry(0, 5, 5), entry(1, 7, 12)])?;
    every_schedule::<CounterBook>();
    Ok(())
}

#[test]
fn a_seat_posts_before_it_leaves(rt: HostRuntime) -> Result<(), Fail> {
    let rows = &[
        (SPLIT, Ok(Seen::Split)),
        (Draw { seat: 0 }, Ok(Seen::Drew(0))),
        // it waits
        (Post { seat: 0, call: 5 }, Err(Fault::Phase)),
        (Look { seat: 0 }, Ok(Seen::Held)),
        // none was posted
        (FIRST_LEAVES, Err(Fault::Phase)),
        (Post { seat: 0, call: 5 }, Ok(Seen::Posted(Ok(5)))),
        // one was posted
        (Post { seat: 0, call: 5 }, Err(Fault::Phase)),
        (FIRST_LEAVES_WITH_5, Err(Fault::Phase)),
        (Post { seat: 7, call: 5 }, Err(Fault::NoSeat)),
        (FIRST_LEAVES, Ok(Seen::Left(None))),
    ];
    play_on_two(&rt, rt.alloc(), rows, &[entry(0, 5, 5)])
}

/// A board is read without a ticket: it shows what was posted, before the seat leaves. A call of 0
/// changes no word, so it is left with and can't be posted.
#[test]
fn a_glance_reads_what_was_posted(rt: HostRuntime) -> Result<(), Fail> {
    let mut core = core_of_two(rt.alloc())?;
    let rows = &[
        (SPLIT, Ok(Seen::Split)),
        (Draw { seat: 0 }, Ok(Seen::Drew(0))),
        (Look { seat: 0 }, Ok(Seen::Held)),
        (Glance { seat: 1, place: 0 }, Ok(Seen::Glanced(0))),
        // a call of 0 has no place, one of 5 has one
        (Post { seat: 0, call: 0 }, Err(Fault::Phase)),
        (FIRST_LEAVES_WITH_5, Err(Fault::Phase)),
        (Post { seat: 0, call: 5 }, Ok(Seen::Posted(Ok(5)))),
        (Glance { seat: 1, place: 0 }, Ok(Seen::Glanced(5))),
        // there is one word, and the holder doesn't glance
        (Glance { seat: 1, place: 1 }, Err(Fault::Phase)),
        (Glance { seat: 0, place: 0 }, Err(Fault::Phase)),
        (FIRST_LEAVES_WITH_5, Err(Fault::Phase)),
        (FIRST_LEAVES, Ok(Seen::Left(None))),
        (Draw { seat: 1 }, Ok(Seen::Drew(1))),
        (Look { seat: 1 }, Ok(Seen::Held)),
        (SECOND_LEAVES_WITH_0, Ok(Seen::Left(Some(Ok(5))))),
        (Glance { seat: 0, place: 0 }, Ok(Seen::Glanced(5))),
    ];
    play(&rt, &mut core, rows);
    assert!(rt; has_one_word(core.book(), 5));
    Ok(())
}

/// Whether the board of a book has this word alone. Then a call of 0 has no place, and one of 7 has one.
fn has_one_word(book: &CounterBook, word: u64) -> bool {
    book.words() == 1 && book.word(0) == word && book.posts(0) == None && book.posts(7) == Some(0)
}

/// A posted seat holds: the next ticket is served when it leaves.
#[test]
fn a_posted_seat_is_waited_for(rt: HostRuntime) -> Result<(), Fail> {
    let mut core = core_of_two(rt.alloc())?;
    let events = &[
        SPLIT,
        Draw { seat: 0 },
        Draw { seat: 1 },
        Look { seat: 0 },
        Post { seat: 0, call: 5 },
        Look { seat: 1 },
        FIRST_LEAVES,
        Look { seat: 1 },
        Post { seat: 1, call: 7 },
        SECOND_LEAVES,
        Gather { seat: 0, other: 1 },
        Draw { seat: 0 },
        Look { seat: 0 },
        Post { seat: 0, call: 1 },
        Draw { seat: 0 },
    ];
    run_to_fault(&rt, &mut core, events, 14);
    let entries = &[entry(0, 5, 5), entry(1, 7, 12), entry(0, 1, 13)];
    assert_entries(&rt, core.book(), entries);
    let rows = &[
        // it holds
        (Look { seat: 0 }, Err(Fault::Phase)),
        (FIRST_LEAVES, Ok(Seen::Left(None))),
    ];
    play(&rt, &mut core, rows);
    Ok(())
}

#[test]
fn a_fresh_core_has_faults(rt: HostRuntime) -> Result<(), Fail> {
    let rows = &[
        // before a draw
        (Look { seat: 0 }, Err(Fault::Phase)),
        // of none, and of all
        (Split { seat: 0, count: 0 }, Err(Fault::Phase)),
        (Split { seat: 0, count: 2 }, Err(Fault::Phase)),
        // into itself
        (Gather { seat: 0, other: 0 }, Err(Fault::Phase)),
        (Look { seat: 1 }, Err(Fault::NoSeat)),
        (SPLIT, Ok(Seen::Split)),
        (Look { seat: 1 }, Err(Fault::Phase)),
    ];
    play_on_two(&rt, rt.alloc(), rows, &[])
}

#[test]
fn a_run_stops_at_the_first_fault(rt: HostRuntime) -> Result<(), Fail> {
    let mut core = core_of_two(rt.alloc())?;
    let events = &[
        SPLIT,
        Draw { seat: 0 },
        Draw { seat: 1 },
        Look { seat: 1 },
        Look { seat: 0 },
        Post { seat: 0, call: 5 },
        FIRST_LEAVES,
        Look { seat: 1 },
        Post { seat: 1, call: 7 },
        SECOND_LEAVES,
        Gather { seat: 0, other: 1 },
        Look { seat: 0 },
    ];
    run_to_fault(&rt, &mut core, events, 11);
    let entries = &[entry(0, 5, 5), entry(1, 7, 12)];
    assert_entries(&rt, core.book(), entries);
    Ok(())
}

#[test]
fn a_seat_without_a_draw_left_is_spent(rt: HostRuntime) -> Result<(), Fail> {
    let mut core = core_of_one_draw(rt.alloc())?;
    let rows = &[
        (Draw { seat: 0 }, Ok(Seen::Drew(0))),
        // it waits
        (Draw { seat: 0 }, Err(Fault::Phase)),
        (Look { seat: 0 }, Ok(Seen::Held)),
        (Post { seat: 0, call: 5 }, Ok(Seen::Posted(Ok(5)))),
        (FIRST_LEAVES, Ok(Seen::Left(None))),
        (Draw { seat: 0 }, Err(Fault::Spent)),
        // it has no ticket
        (Look { seat: 0 }, Err(Fault::Phase)),
    ];
    play(&rt, &mut core, rows);
    let entries = &[entry(0, 5, 5)];
    assert_entries(&rt, core.book(), entries);
    Ok(())
}

/// Makes a call of 2, and returns whether its outcome is right. If the book has the memory, the reply is the
/// sum of all calls of 2. If not, the book has used up its room of four entries, and counts the call.
fn records_or_refuses(book: &mut CounterBook) -> bool
    requires { counter_refusals book.old < 2 ^ 60 }
{
    let kept = book.entries().len();
    let refused = book.refused();
    let outcome = book.record(3, 2);
    let kept_now = book.entries().len();
    let refused_now = book.refused();
    match outcome {
        Ok(reply) => {
            reply == 2u64.wrapping_mul(kept_now as u64)
                && kept_now == kept + 1
                && refused_now == refused
        }
        Err(NoMemory) => 4 <= kept && kept_now == kept && refused_now == refused.wrapping_add(1),
    }
}

/// A book with room for four calls gets 200. A call without memory is counted and changes nothing else.
/// This happens only past the room, and later calls are answered as if it had not been made.
#[test]
fn a_book_counts_what_it_refuses(rt: HostRuntime) -> Result<(), Fail> {
    let mut book = empty_book(rt.alloc(), 4)?;
    for made in 0..200u64 {
        assert!(rt; book.refused() <= made && records_or_refuses(&mut book));
    }
    let kept = book.entries().len() as u64;
    assert!(rt; kept == 200u64.wrapping_sub(book.refused()) && book.room() == 4);
    Ok(())
}

/// How many seats there can be.
const SEATS: u32 = 1024;

/// Splits off as many seats as there can be, and lets each draw. The last one has to wait.
fn draw_all(rt: &impl Abort, core: &mut Core<CounterBook>) {
    for _seat in 1..SEATS {
        step(rt, core, SPLIT, Ok(Seen::Split));
    }
    // one number is left
    step(rt, core, SPLIT, Err(Fault::Phase));
    for seat in 0..SEATS {
        step(rt, core, Draw { seat }, Ok(Seen::Drew(seat as u64)));
    }
    step(rt, core, Look { seat: 1023 }, Ok(Seen::Waiting));
}

/// Lets the seats make their calls, in the order of their draws, and gathers them.
fn serve_all(rt: &impl Abort, core: &mut Core<CounterBook>) {
    for seat in 0..SEATS {
        step(rt, core, Look { seat }, Ok(Seen::Held));
        let sum = seat as u64 + 1;
        step(rt, core, Post { seat, call: 1 }, Ok(Seen::Posted(Ok(sum))));
        step(rt, core, Leave { seat, call: None }, Ok(Seen::Left(None)));
    }
    for other in 1..SEATS {
        step(rt, core, Gather { seat: 0, other }, Ok(Seen::Gathered));
    }
}

/// As many seats as there can be, each with one call, in the order of their draws.
#[test]
fn a_core_of_1024_seats(rt: HostRuntime) -> Result<(), Fail> {
    let mut core = core_of(rt.alloc(), SEATS, 1024)?;
    draw_all(&rt, &mut core);
    serve_all(&rt, &mut core);
    Ok(())
}

/// Compares the four grant words, in their order, with the expected ones.
fn assert_words(rt: &impl Abort, grants: &Grants, words: [u64; 4]) {
    let found = [
        grants.word(0),
        grants.word(1),
        grants.word(2),
        grants.word(3),
    ];
    assert_eq!(rt; found, words);
}

/// Leaves with the ticket that is served, and compares the grant words after it.
fn leave(rt: &impl Abort, grants: &mut Grants, ticket: u64, words: [u64; 4])
    requires served { ticket ≡ grants.old }
    requires small { ticket < 2 ^ 60 }
    ensures { grants.new ≡ ticket + 1 }
{
    grants.leave(ticket);
    assert_words(rt, grants, words);
}

#[test]
fn a_leave_writes_one_grant_word(rt: HostRuntime) {
    let mut grants = Grants::open();
    assert_words(&rt, &grants, [0, 0, 0, 0]);
    leave(&rt, &mut grants, 0, [0, 1, 0, 0]);
    leave(&rt, &mut grants, 1, [0, 1, 2, 0]);
    leave(&rt, &mut grants, 2, [0, 1, 2, 3]);
    leave(&rt, &mut grants, 3, [4, 1, 2, 3]);
    leave(&rt, &mut grants, 4, [4, 5, 2, 3]);
    assert!(rt; grants.serves(5) && !grants.serves(9));
}
