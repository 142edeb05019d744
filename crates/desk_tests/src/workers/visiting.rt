//! A plugin that calls its own desk from inside a check, through another pass. A worker that held the book,
//! or had drawn its next ticket before the check, would keep that call from its turn.

ghost use Rattle.check_desk.specs.Belonging.{IsPassOf-prop, IsWaitingAt-prop};
ghost use Rattle.check_desk.specs.Desks.{IsPassOf, IsWaitingAt};
ghost use Rattle.std.specs.Prelude.{⊤};

use crate::openings::{TWO_SERVICES, two_passes};
use check_desk::{Desk, Pass, Poll, Turn};
use check_sched::Call;
use check_states::Code;
use check_workers::{Plugin, work};
use std::cell::Cell;
use std::process::Abort;
use std::sync::Wait;
use std::test::Fail;

/// How often a visitor polls before it stops.
const POLLS: u32 = 1_000;

/// A pass with its desk.
struct Ready<'a> {
    desk: &'a Desk,
    pass: Pass,
    ghost belongs: { IsPassOf desk.now pass } by { IsPassOf-prop desk.now pass },
}

/// A turn with its desk.
struct Queued<'a> {
    desk: &'a Desk,
    turn: Turn,
    ghost belongs: { IsWaitingAt desk.now turn } by { IsWaitingAt-prop desk.now turn },
}

/// A caller of a desk: with a pass, or with a turn that didn't come.
enum Visitor<'a> {
    Ready(Ready<'a>),
    Queued(Queued<'a>),
}

/// Asks for the standing of the service, if the turn comes within the polls.
fn visit<'a>(ready: Ready<'a>) -> Visitor<'a> {
    let Ready { desk, pass } = ready;
    match desk.begin(pass) {
        Ok(turn) => ask_within(Queued { desk, turn }),
        Err(pass) => Visitor::Ready(Ready { desk, pass }),
    }
}

/// Polls a turn, and asks for the standing of the service when it comes.
fn ask_within<'a>(queued: Queued<'a>) -> Visitor<'a> {
    let mut queued = queued;
    for _poll in 0..POLLS {
        queued = match look(queued) {
            Visitor::Queued(queued) => queued,
            Visitor::Ready(ready) => return Visitor::Ready(ready),
        };
    }
    Visitor::Queued(queued)
}

/// Polls once, and asks for the standing of the service if the turn has come.
fn look<'a>(queued: Queued<'a>) -> Visitor<'a> {
    let Queued { desk, turn } = queued;
    match desk.poll(turn) {
        Poll::Mine(hold) => {
            let (pass, _answer) = desk.finish(hold, Call::Status { object: 1 });
            Visitor::Ready(Ready { desk, pass })
        }
        Poll::NotYet(turn) => Visitor::Queued(Queued { desk, turn }),
    }
}

/// A plugin that visits its desk in each check.
struct Visiting<'a, R> {
    rt: &'a R,
    visitor: Cell<Option<Visitor<'a>>>,
}

impl<'a, R: Abort> Plugin for Visiting<'a, R> {
    ghost allows = { λ self object run now code. ⊤ };

    fn check(&self, _object: u32, _run: u64, _now: u64) -> Code {
        let visitor = match self.visitor.replace(None) {
            Some(Visitor::Ready(ready)) => visit(ready),
            _ => panic!(self.rt; "no pass is at hand"),
        };
        match self.visitor.replace(Some(visitor)) {
            None => Code::Ok,
            Some(_other) => panic!(self.rt; "somebody else visits"),
        }
    }
}

/// The number of calls made by a visitor whose turn came in time. If the turn didn't come, waits for it.
fn calls_of(rt: &impl Wait, visitor: Visitor) -> Option<u64> {
    match visitor {
        Visitor::Ready(Ready { desk: _, pass }) => Some(pass.calls()),
        Visitor::Queued(queued) => {
            wait_for(rt, queued);
            None
        }
    }
}

/// Polls a turn until it comes.
fn wait_for(rt: &impl Wait, queued: Queued) {
    let mut queued = queued;
    for _ in rt.forever() {
        queued = match look(queued) {
            Visitor::Queued(queued) => queued,
            Visitor::Ready(Ready { desk: _, pass: _ }) => return,
        };
    }
    unreachable!()
}

#[test]
fn a_check_may_call_its_own_desk(rt: HostRuntime) -> Result<(), Fail> {
    let (desk, first, second) = two_passes(rt.alloc(), TWO_SERVICES)?;
    let ready = Ready {
        desk: &desk,
        pass: second,
    };
    let plugin = Visiting {
        rt: &rt,
        visitor: Cell::new(Some(Visitor::Ready(ready))),
    };
    let (_first, tally, _open) = work(&rt, &desk, first, &plugin, &[0]);
    assert_eq!(rt; (tally.taken, tally.reported), (1, 1));
    let Visiting { rt: _, visitor } = plugin;
    match visitor.into_inner() {
        Some(visitor) => assert_eq!(rt; calls_of(&rt, visitor), Some(1)),
        None => panic!(rt; "the visitor is lost"),
    }
    Ok(())
}
