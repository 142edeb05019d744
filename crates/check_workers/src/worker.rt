//! One worker.

ghost use Rattle.std.specs.Prelude.{◌≡◌, ◌+◌};
ghost use Rattle.check_desk.specs.Desks.{IsHistoryOf, IsPassOf, desk_opening};
ghost use Rattle.check_desk.specs.Passes.{pass_of};
ghost use Rattle.check_workers.specs.Shifts.{HasWorkedShift, Shift, open_run, shift_entries, stops_of};
ghost use Rattle.check_workers.specs.Tallies.{IsSum, tally_of};

use crate::plugin::Plugin;
use crate::round::{Progress, work_once};
use crate::tally::Tally;
use check_desk::{Desk, Pass};
use std::sync::Wait;

/// Works at each moment of the list in order, in milliseconds. It takes the next check by one call of the
/// pass. If a check was taken, it runs the check by the plugin, once, and reports the return code by one more
/// call. Any other reply ends the work of that moment.
///
/// The worker stops early if there is no memory to record a call, which happens only if the history has
/// reached the book's room. It also stops early if the pass has no call left. The last part of the result is
/// then the object and the run that it took and couldn't report, if any. This check stays open, and an
/// operator can abandon it.
///
/// The contract holds when the call returns: it waits for its turns, and for the plugin.
pub fn work<P: Plugin>(
    rt: &impl Wait,
    desk: &Desk,
    pass: Pass,
    plugin: &P,
    moments: &[u64],
) -> (Pass, Tally, Option<(u32, u64)>)
    requires { IsPassOf desk.now pass }
    ensures desk { IsPassOf desk.now result.0 }
    ensures legal { IsHistoryOf desk.now (pass_of result.0).seen }
    ensures worked { (s : Shift)
        × HasWorkedShift (P.allows plugin.now) moments.now (desk_opening desk.now).room s
        (pass_of pass) (pass_of result.0)
        × (result.1 ≡ tally_of (shift_entries s) (stops_of s.stopped))
        × (result.2 ≡ open_run s.left_open) }
    ensures sums { IsSum result.1 }
    ensures left { (pass_of pass).left ≡ (pass_of result.0).left + result.1.takes
        + result.1.reports + result.1.unanswered }
{
    let mut pass = pass;
    let mut tally = Tally::default();
    for now in moments {
        let (back, made, progress) = work_once(rt, desk, pass, plugin, *now);
        pass = back;
        tally = tally.plus(made);
        if let Progress::Stopped(stop, open) = progress {
            return (pass, tally.plus(Tally::of_stop(stop)), open);
        }
    }
    (pass, tally, None)
}
