//! The work of one moment.

ghost use Rattle.check_desk.specs.Desks.{IsPassOf, desk_opening};
ghost use Rattle.check_desk.specs.Passes.{pass_of};
ghost use Rattle.check_workers.specs.Progress.{EndsInTake, HasProgressed, HasReported};
ghost use Rattle.check_workers.specs.Tallies.{IsSum};

use crate::plugin::Plugin;
use crate::tally::{Stop, Tally};
use check_desk::{Answer, Desk, Pass};
use check_sched::{Call, Reply};
use std::sync::Wait;

/// The progress of a worker with a moment.
#[derive(Clone, Copy, Debug, PartialEq, Eq)]
pub enum Progress {
    /// Its work is done.
    Done,
    /// A call got no answer. If a check was taken and couldn't be reported, its object and run are here.
    Stopped(Stop, Option<(u32, u64)>),
}

/// Takes the next check at the moment `now`. If there is one, runs it and reports its result.
pub fn work_once<P: Plugin>(
    rt: &impl Wait,
    desk: &Desk,
    pass: Pass,
    plugin: &P,
    now: u64,
) -> (Pass, Tally, Progress)
    requires { IsPassOf desk.now pass }
    ensures desk { IsPassOf desk.now result.0 }
    ensures progress { HasProgressed (P.allows plugin.now) now (desk_opening desk.now).room (pass_of pass)
        (pass_of result.0) result.1 result.2 }
    ensures sums { IsSum result.1 }
{
    let (pass, answer) = desk.ask(rt, pass, Call::Take { now });
    match answer {
        Answer::Reply(reply) => match reply {
            Reply::Taken { object, run } => {
                let (pass, reported, progress) = report(rt, desk, pass, plugin, now, object, run);
                (pass, Tally::of_take(reply).plus(reported), progress)
            }
            _ => (pass, Tally::of_take(reply), Progress::Done),
        },
        Answer::NoMemory => (
            pass,
            Tally::default(),
            Progress::Stopped(Stop::NoMemory, None),
        ),
        Answer::Spent => (pass, Tally::default(), Progress::Stopped(Stop::Spent, None)),
    }
}

/// Runs a check that was taken, with no lock held, and reports its result.
fn report<P: Plugin>(
    rt: &impl Wait,
    desk: &Desk,
    pass: Pass,
    plugin: &P,
    now: u64,
    object: u32,
    run: u64,
) -> (Pass, Tally, Progress)
    requires desk { IsPassOf desk.now pass }
    requires taken { EndsInTake object run (pass_of pass).seen }
    ensures desk { IsPassOf desk.now result.0 }
    ensures progress { HasReported (P.allows plugin.now) now object run (desk_opening desk.now).room
        (pass_of pass) (pass_of result.0) result.1 result.2 }
    ensures sums { IsSum result.1 }
{
    let code = plugin.check(object, run, now);
    let open = Some((object, run));
    let (pass, answer) = desk.ask(rt, pass, Call::Report { object, run, code });
    match answer {
        Answer::Reply(reply) => (pass, Tally::of_report(reply), Progress::Done),
        Answer::NoMemory => (
            pass,
            Tally::default(),
            Progress::Stopped(Stop::NoMemory, open),
        ),
        Answer::Spent => (pass, Tally::default(), Progress::Stopped(Stop::Spent, open)),
    }
}
