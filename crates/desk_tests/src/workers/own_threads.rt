//! How a team embeds the library in threads of its own: two workers with a plugin that promises more
//! than any code, an operator and a dashboard share one scheduler.

ghost use Rattle.std.specs.Prelude.{◌≡◌, ◌⊎◌, IfOk};
ghost use Rattle.check_states.specs.declared.state.Code.TheVariants as code;
ghost use Rattle.check_desk.specs.Desks.{IsPassOf};

use crate::openings::{MOST_CALLS, close_desk, open_desk};
use check_book::Book;
use check_desk::{Answer, Desk, Pass};
use check_sched::{Call, Reply};
use check_states::{Code, Standing, State};
use check_workers::{Plugin, work};
use std::alloc::Global;
use std::process::Abort;
use std::sync::Wait;
use std::test::Fail;
use std::thread::{Threads, join};
use ticket_steps::Kept;

/// A house that is never checked itself, and its doors, which are objects 1 and 2.
const HOUSE: &[u8] = br#"{
    "options": {"service_inter_check_delay_method": "n"},
    "hosts": [{"name": "house", "check_interval": 0, "max_check_attempts": 1}],
    "services": [
        {"host": "house", "description": "cellar", "max_check_attempts": 3},
        {"host": "house", "description": "front", "max_check_attempts": 3}
    ]
}"#;

/// When each worker takes a check, in milliseconds.
const MOMENTS: [u64; 3] = [0, 60_000, 120_000];

/// The team's plugin: whether each object's door is open. An open door is worth a warning, and never
/// more: that is its contract, and so it holds of every report that a worker makes by it.
#[derive(Drop)]
struct Doors {
    open: [bool; 3],
}

impl Plugin for Doors {
    ghost allows = { λ self object run now told. (told ≡ code.Ok) ⊎ (told ≡ code.Warning) };

    fn check(&self, object: u32, _run: u64, _now: u64) -> Code {
        match self.open.get(object as usize) {
            Some(true) => Code::Warning,
            _ => Code::Ok,
        }
    }
}

/// A worker's thread: it takes what is due, looks at the door, and reports.
fn look_at_doors(rt: &impl Wait, desk: &Desk, pass: Pass, doors: &Doors) -> Pass
    requires { IsPassOf desk.now pass }
    ensures { IsPassOf desk.now result }
{
    let (pass, _tally, _open) = work(rt, desk, pass, doors, &MOMENTS);
    pass
}

/// The operator's thread: the cellar is checked at once, though it may not be due, and a check that
/// somebody took and won't report is abandoned.
fn operate(rt: &impl Wait, desk: &Desk, pass: Pass) -> Pass
    requires { IsPassOf desk.now pass }
    ensures { IsPassOf desk.now result }
{
    let at_once = Call::Reschedule {
        object: 1,
        time: 30_000,
        forced: true,
    };
    let (pass, _set) = desk.ask(rt, pass, at_once);
    let (pass, taken) = desk.ask(rt, pass, Call::Take { now: 60_000 });
    let Answer::Reply(Reply::Taken { object, run }) = taken else {
        return pass;
    };
    let give_up = Call::Abandon {
        object,
        run,
        now: 60_000,
    };
    let (pass, _given_up) = desk.ask(rt, pass, give_up);
    pass
}

/// Whether a standing says that a door is open.
fn is_open(standing: Option<Standing>) -> bool {
    match standing {
        Some(standing) => standing.state == State::Warning,
        None => false,
    }
}

/// The dashboard's thread: whether it finds a door open. It takes no turn, and no call.
fn watch(desk: &Desk, pass: Pass) -> (Pass, bool)
    requires { IsPassOf desk.now pass }
    ensures { IsPassOf desk.now result.0 }
{
    let (pass, cellar) = desk.glance(pass, 1);
    let (pass, front) = desk.glance(pass, 2);
    (pass, is_open(cellar) || is_open(front))
}

/// Lets all four work at the same time, and gathers their passes when all have returned; beside it,
/// whether the dashboard saw a door open.
fn work_together(
    rt: &(impl Threads + Wait + Sync),
    desk: &Desk,
    doors: &Doors,
    workers: (Pass, Pass),
    others: (Pass, Pass),
) -> (Pass, bool)
    requires workers { IsPassOf desk.now workers.0 × IsPassOf desk.now workers.1 }
    requires others { IsPassOf desk.now others.0 × IsPassOf desk.now others.1 }
    ensures { IsPassOf desk.now result.0 }
{
    let (first, second) = workers;
    let (operator, dashboard) = others;
    let (workers, others) = join(
        rt,
        || -> Pass
            requires { IsPassOf desk.now first × IsPassOf desk.now second }
            ensures { IsPassOf desk.entry.now result }
        {
            let (first, second) = join(
                rt,
                || look_at_doors(rt, desk, first, doors),
                || look_at_doors(rt, desk, second, doors),
            );
            desk.gather(first, second)
        },
        || -> (Pass, bool)
            requires { IsPassOf desk.now operator × IsPassOf desk.now dashboard }
            ensures { IsPassOf desk.entry.now result.0 }
        {
            let (operator, (dashboard, was_open)) = join(
                rt,
                || operate(rt, desk, operator),
                || watch(desk, dashboard),
            );
            (desk.gather(operator, dashboard), was_open)
        },
    );
    let (others, was_open) = others;
    (desk.gather(workers, others), was_open)
}

/// Asserts that each check that began has ended, and that a door that was seen open was reported.
fn assert_whole(rt: &impl Abort, book: &Book, was_open: bool) {
    let is_begun = |reply: Reply| matches!(reply, Reply::Taken { .. });
    let is_end = |call: Call| matches!(call, Call::Report { .. } | Call::Abandon { .. });
    let is_warning = |call: Call| {
        matches!(
            call,
            Call::Report {
                code: Code::Warning,
                ..
            }
        )
    };
    let history = book.entries();
    let begun = history.iter().filter(|entry| is_begun(entry.reply)).count();
    let ended = history.iter().filter(|entry| is_end(entry.call)).count();
    assert_eq!(rt; begun, ended);
    assert!(rt; !was_open || history.iter().any(|entry| is_warning(entry.call)));
}

/// A desk on the house, with the passes of the two workers, and those of the operator and the dashboard.
fn open_house(alloc: Global) -> Result<(Desk, (Pass, Pass), (Pass, Pass)), Fail>
    ensures { IfOk result (λ made.
        (IsPassOf made.0 made.1.0 × IsPassOf made.0 made.1.1)
        × (IsPassOf made.0 made.2.0 × IsPassOf made.0 made.2.1)) }
{
    let (desk, mut passes) = open_desk(alloc, HOUSE, 4, MOST_CALLS)?;
    let (dashboard, operator) = (passes.pop(), passes.pop());
    let (second, first) = (passes.pop(), passes.pop());
    match (first, second, operator, dashboard) {
        (Some(first), Some(second), Some(operator), Some(dashboard)) => {
            Ok((desk, (first, second), (operator, dashboard)))
        }
        _ => Err(Fail::from("not four passes")),
    }
}

#[test]
fn a_team_keeps_its_own_threads(rt: HostRuntime) -> Result<(), Fail> {
    let (desk, workers, others) = open_house(rt.alloc())?;
    let doors = Doors {
        open: [false, false, true],
    };
    let (pass, was_open) = work_together(&rt, &desk, &doors, workers, others);
    let calls = pass.calls();
    let book = close_desk(&rt, desk, pass);
    assert_eq!(rt;
        book.entries().len() as u64,
        calls.wrapping_sub(book.refused())
    );
    assert_whole(&rt, &book, was_open);
    Ok(())
}
