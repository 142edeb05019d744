//! How a scheduler starts: fresh, or from a saved state, which is line 2 of the input then.

ghost use Rattle.std.specs.Prelude.{◌≡◌, ◌≤◌, IfOk, IfSome, unwrap_or};
ghost use Rattle.check_sched.specs.State.{opening};
ghost use Rattle.nagsched_protocol.specs.Script.{state_after_resume_at};

use check_objects::Setup;
use check_saved_state::Saved;
use check_sched::{LAST_MOMENT, Sched};
use std::alloc::{AllocError, Global};

/// How a scheduler starts. Moments are in milliseconds.
#[derive(Clone, Copy, Debug, PartialEq, Eq)]
pub enum Start {
    /// Fresh, at this moment. Commands begin at line 2.
    Fresh(u64),
    /// From the saved state on line 2, at this moment, or at the saved start if no moment is given.
    /// Commands begin at line 3.
    Resumed(Option<u64>),
}

/// A new scheduler that starts at this moment.
pub fn open(alloc: Global, setup: Setup, start: u64) -> Result<Sched, AllocError>
    requires { start ≤ LAST_MOMENT }
    ensures { IfOk result (λ sched. sched ≡ opening setup start) }
{
    match Sched::new(alloc, setup, start) {
        Ok(sched) => Ok(sched),
        Err(_) => Err(AllocError),
    }
}

/// The scheduler that continues from a saved state, at this moment or at the saved start.
pub fn resume(
    alloc: Global,
    setup: Setup,
    saved: &Saved,
    start: Option<u64>,
) -> Result<Sched, AllocError>
    requires { IfSome start (λ moment. moment ≤ LAST_MOMENT) }
    ensures { IfOk result (λ sched. sched ≡ state_after_resume_at setup saved.now start) }
{
    match Sched::resume(alloc, setup, saved, moment_of(start, saved)) {
        Ok(sched) => Ok(sched),
        Err(_) => Err(AllocError),
    }
}

/// This moment, or the saved start if no moment is given.
pub fn moment_of(start: Option<u64>, saved: &Saved) -> u64
    requires { IfSome start (λ moment. moment ≤ LAST_MOMENT) }
    ensures value { result ≡ unwrap_or start saved.now.start }
    ensures moment { result ≤ LAST_MOMENT }
{
    match start {
        Some(moment) => moment,
        None => saved.start(),
    }
}
