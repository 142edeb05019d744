//! Facts that no clause states and no test over the C library shows (`c/tests/desks.c`): turns that come
//! while another pass waits, and glances while another pass holds.

ghost use Rattle.check_desk.specs.Desks.{IsHolderAt, IsPassOf, IsWaitingAt};

use crate::openings::{ONE_SERVICE, close_desk, two_passes};
use check_desk::{Answer, Desk, Hold, Pass, Poll, Turn};
use check_sched::{Call, Reply};
use check_states::{Code, Standing, code};
use std::process::Abort;
use std::sync::Wait;
use std::test::Fail;
use std::thread::join;
use ticket_steps::Kept;

const STATUS: Call = Call::Status { object: 1 };

const REPORT: Call = Call::Report {
    object: 1,
    run: 1,
    code: Code::Critical,
};

/// Takes a ticket.
fn take_ticket(rt: &impl Abort, desk: &Desk, pass: Pass) -> Turn
    requires { IsPassOf desk.now pass }
    ensures { IsWaitingAt desk.now result }
{
    match desk.begin(pass) {
        Ok(turn) => turn,
        Err(_pass) => panic!(rt; "no call left"),
    }
}

/// The hold of a turn that has come.
fn expect_hold(rt: &impl Abort, desk: &Desk, turn: Turn) -> Hold
    requires { IsWaitingAt desk.now turn }
    ensures { IsHolderAt desk.now result }
{
    match desk.poll(turn) {
        Poll::Mine(hold) => hold,
        Poll::NotYet(_turn) => panic!(rt; "not yet"),
    }
}

/// A turn that has not come.
fn expect_waiting(rt: &impl Abort, desk: &Desk, turn: Turn) -> Turn
    requires { IsWaitingAt desk.now turn }
    ensures { IsWaitingAt desk.now result }
{
    match desk.poll(turn) {
        Poll::Mine(_hold) => panic!(rt; "too early"),
        Poll::NotYet(turn) => turn,
    }
}

/// A whole call of a thread that finds its turn at its first poll, with a reply.
fn ask_at_once(rt: &impl Abort, desk: &Desk, pass: Pass, call: Call) -> Pass
    requires { IsPassOf desk.now pass }
    ensures { IsPassOf desk.now result }
{
    let turn = take_ticket(rt, desk, pass);
    let hold = expect_hold(rt, desk, turn);
    let (pass, answer) = desk.finish(hold, call);
    assert!(rt; matches!(answer, Answer::Reply(_)));
    pass
}

/// This many rounds in which one thread asks by both passes, each at once.
fn ask_alternately(
    rt: &impl Abort,
    desk: &Desk,
    mut first: Pass,
    mut second: Pass,
    rounds: u32,
) -> (Pass, Pass)
    requires { IsPassOf desk.now first × IsPassOf desk.now second }
    ensures { IsPassOf desk.now result.0 × IsPassOf desk.now result.1 }
{
    for _round in 0..rounds {
        first = ask_at_once(rt, desk, first, STATUS);
        second = ask_at_once(rt, desk, second, STATUS);
    }
    (first, second)
}

/// This many calls of one pass, each waiting for its turn.
fn ask_often(rt: &(impl Wait + Abort), desk: &Desk, mut pass: Pass, calls: u32) -> Pass
    requires { IsPassOf desk.now pass }
    ensures { IsPassOf desk.now result }
{
    for _made in 0..calls {
        let (back, answer) = desk.ask(rt, pass, STATUS);
        assert!(rt; matches!(answer, Answer::Reply(_)));
        pass = back;
    }
    pass
}

/// Whether this is the standing of an object that was never checked, has no next check, and didn't change.
fn is_unchecked(answer: Answer) -> bool {
    matches!(
        answer,
        Answer::Reply(Reply::Standing {
            standing: Standing { checked: false, .. },
            changed: false,
            next: None,
        })
    )
}

#[test]
fn turns_come_in_the_order_of_their_tickets(rt: HostRuntime) -> Result<(), Fail> {
    let (desk, first, second) = two_passes(rt.alloc(), ONE_SERVICE)?;
    let first = take_ticket(&rt, &desk, first);
    let second = take_ticket(&rt, &desk, second);
    let second = expect_waiting(&rt, &desk, second);
    let hold = expect_hold(&rt, &desk, first);
    let (first, taken) = desk.finish(hold, Call::Take { now: 0 });
    let hold = expect_hold(&rt, &desk, second);
    let (second, told) = desk.finish(hold, STATUS);
    assert_eq!(rt; taken, Answer::Reply(Reply::Taken { object: 1, run: 1 }));
    assert!(rt; is_unchecked(told));
    let (desk, first) = match desk.close(first) {
        Ok(_book) => return Err(Fail::from("closed with a pass missing")),
        Err(back) => back,
    };
    let pass = desk.gather(first, second);
    assert_eq!(rt; (pass.number(), pass.gathered(), pass.calls()), (0, 2, 2));
    let book = close_desk(&rt, desk, pass);
    let [taken, told] = book.entries() else {
        return Err(Fail::from("not two entries"));
    };
    assert_eq!(rt; (taken.pass, told.pass), (0, 1));
    Ok(())
}

#[test]
fn rounds_of_one_thread_and_then_two_threads(rt: HostRuntime) -> Result<(), Fail> {
    let (desk, first, second) = two_passes(rt.alloc(), ONE_SERVICE)?;
    let first = ask_at_once(&rt, &desk, first, Call::Take { now: 0 });
    let second = ask_at_once(&rt, &desk, second, STATUS);
    let (first, second) = ask_alternately(&rt, &desk, first, second, 50);
    let (first, second) = join(
        &rt,
        || -> Pass
            requires { IsPassOf desk first }
            ensures { IsPassOf desk result }
        { ask_often(&rt, &desk, first, 100) },
        || -> Pass
            requires { IsPassOf desk second }
            ensures { IsPassOf desk result }
        { ask_often(&rt, &desk, second, 100) },
    );
    let pass = desk.gather(first, second);
    assert_eq!(rt; pass.calls(), 302);
    let book = close_desk(&rt, desk, pass);
    assert_eq!(rt; (book.entries().len(), book.refused()), (302, 0));
    Ok(())
}

/// A glance at an object of the setup, whose standing has this word.
fn expect_word(rt: &impl Abort, desk: &Desk, pass: Pass, object: u32, word: u64) -> Pass
    requires { IsPassOf desk.now pass }
    ensures { IsPassOf desk.now result }
{
    let (pass, standing) = desk.glance(pass, object);
    let Some(standing) = standing else {
        panic!(rt; "no such object");
    };
    assert_eq!(rt; code(standing), word);
    pass
}

/// The hold of a pass that has just taken the service.
fn hold_after_take(rt: &(impl Wait + Abort), desk: &Desk, pass: Pass) -> Hold
    requires { IsPassOf desk.now pass }
    ensures { IsHolderAt desk.now result }
{
    let (pass, taken) = desk.ask(rt, pass, Call::Take { now: 0 });
    assert_eq!(rt; taken, Answer::Reply(Reply::Taken { object: 1, run: 1 }));
    let turn = take_ticket(rt, desk, pass);
    expect_hold(rt, desk, turn)
}

/// The second pass glances while the first takes, holds and reports. It reads what was posted, and the
/// glance is no call. The words are those of an unchecked service (OK HARD 1), an unchecked host (UP HARD 1)
/// and a service that is CRITICAL SOFT 1.
#[test]
fn glances_without_a_turn(rt: HostRuntime) -> Result<(), Fail> {
    let (desk, first, second) = two_passes(rt.alloc(), ONE_SERVICE)?;
    let second = expect_word(&rt, &desk, second, 1, 48);
    let hold = hold_after_take(&rt, &desk, first);
    let second = expect_word(&rt, &desk, second, 0, 32_824);
    let (first, reported) = desk.finish(hold, REPORT);
    assert!(rt; matches!(reported, Answer::Reply(_)));
    let second = expect_word(&rt, &desk, second, 1, 37);
    assert_eq!(rt; second.calls(), 0);
    let (second, standing) = desk.glance(second, 2);
    assert!(rt; standing.is_none());
    let pass = desk.gather(first, second);
    assert_eq!(rt; pass.calls(), 2);
    let book = close_desk(&rt, desk, pass);
    assert_eq!(rt; (book.entries().len(), book.refused()), (2, 0));
    Ok(())
}
