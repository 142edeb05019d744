//! Passes of one call each: a worker takes a check and has no call left for its result, another
//! caller abandons that check, and a third reports it too late.

ghost use Rattle.check_desk.specs.Desks.{IsPassOf};
ghost use Rattle.std.specs.Prelude.{IfOk};

use super::AlwaysOk;
use crate::openings::{ONE_SERVICE, close_desk, open_desk};
use check_desk::{Answer, Desk, Pass};
use check_sched::{Call, Refusal, Reply};
use check_states::Code;
use check_workers::{Tally, crew, work};
use std::alloc::Global;
use std::process::Abort;
use std::sync::Wait;
use std::test::Fail;
use ticket_steps::Kept;

/// A desk on one service, and its three passes of one call each, by number.
fn three_passes(alloc: Global) -> Result<(Desk, Pass, Pass, Pass), Fail>
    ensures { IfOk result (λ made. IsPassOf made.0 made.1 × IsPassOf made.0 made.2
        × IsPassOf made.0 made.3) }
{
    let (desk, mut passes) = open_desk(alloc, ONE_SERVICE, 3, 1)?;
    let third = passes.pop();
    let second = passes.pop();
    let first = passes.pop();
    let (Some(first), Some(second), Some(third)) = (first, second, third) else {
        return Err(Fail::from("not three passes"));
    };
    Ok((desk, first, second, third))
}

/// Works with a pass of one call, which the take uses.
fn take_alone(rt: &(impl Wait + Abort), desk: &Desk, pass: Pass) -> Pass
    requires { IsPassOf desk.now pass }
    ensures { IsPassOf desk.now result }
{
    let (pass, tally, open) = work(rt, desk, pass, &AlwaysOk, &[0]);
    let one_take = Tally {
        takes: 1,
        taken: 1,
        stops: 1,
        ..Tally::default()
    };
    assert_eq!(rt; tally, one_take);
    assert_eq!(rt; open, Some((1, 1)));
    pass
}

/// Asks by a pass that has made its only call, and takes no ticket.
fn ask_spent(rt: &(impl Wait + Abort), desk: &Desk, pass: Pass) -> Pass
    requires { IsPassOf desk.now pass }
    ensures { IsPassOf desk.now result }
{
    let (pass, answer) = desk.ask(rt, pass, Call::Take { now: 0 });
    assert_eq!(rt; answer, Answer::Spent);
    assert_eq!(rt; (pass.left(), pass.calls()), (0, 1));
    match desk.begin(pass) {
        Ok(_turn) => panic!(rt; "a ticket for a spent pass"),
        Err(pass) => pass,
    }
}

/// Makes one call, which has this reply.
fn ask_once(rt: &(impl Wait + Abort), desk: &Desk, pass: Pass, call: Call, reply: Reply) -> Pass
    requires { IsPassOf desk.now pass }
    ensures { IsPassOf desk.now result }
{
    let (pass, answer) = desk.ask(rt, pass, call);
    assert_eq!(rt; answer, Answer::Reply(reply));
    pass
}

#[test]
fn a_spent_worker_leaves_its_check_open(rt: HostRuntime) -> Result<(), Fail> {
    let (desk, first, second, third) = three_passes(rt.alloc())?;
    let first = take_alone(&rt, &desk, first);
    let first = ask_spent(&rt, &desk, first);
    let abandon = Call::Abandon {
        object: 1,
        run: 1,
        now: 10,
    };
    let second = ask_once(&rt, &desk, second, abandon, Reply::Freed { next: 10 });
    let too_late = Reply::Refused(Refusal::NotRunning);
    let report = Call::Report {
        object: 1,
        run: 1,
        code: Code::Ok,
    };
    let third = ask_once(&rt, &desk, third, report, too_late);
    let pass = desk.gather(desk.gather(first, second), third);
    assert_eq!(rt; (pass.gathered(), pass.calls()), (3, 3));
    let book = close_desk(&rt, desk, pass);
    assert_eq!(rt; (book.entries().len(), book.refused()), (3, 0));
    Ok(())
}

/// A crew whose pass has fewer calls left than two for each moment works with the calls that it has.
#[test]
fn a_crew_of_a_pass_with_one_call(rt: HostRuntime) -> Result<(), Fail> {
    let alloc = rt.alloc();
    let (desk, passes) = open_desk(alloc, ONE_SERVICE, 1, 1)?;
    let Ok((book, tally)) = crew(&rt, alloc, desk, passes, &AlwaysOk, &[0]) else {
        return Err(Fail::from("no book"));
    };
    assert_eq!(rt; (tally.taken, tally.reports, tally.stops), (1, 0, 1));
    assert_eq!(rt; (book.entries().len(), book.refused()), (1, 0));
    Ok(())
}
