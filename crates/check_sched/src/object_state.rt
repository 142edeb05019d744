//! The scheduling of one object, which the scheduler stores between calls.

use crate::call::Refusal;
use check_saved_state::SavedRun;
use std::marker::Model;

/// The run in the field of an object that isn't being checked.
const NO_RUN: SavedRun = SavedRun {
    number: 0,
    start: 0,
};

/// The scheduling of one object: the time of its next check in milliseconds, and the run of its running
/// check. It also says whether the object's active checks are enabled, and whether its next check is forced.
/// Contracts see it as a record `Scheduling` with the same fields.
///
/// It takes half a cache line, 32 bytes, instead of the 48 of two options. One byte says whether there is a
/// next time, and another whether there is a run. Without a next time or a run, its field has no meaning.
#[derive(Drop)]
pub(crate) struct ObjectState {
    time: u64,
    run: SavedRun,
    has_time: bool,
    has_run: bool,
    enabled: bool,
    forced: bool,
}

impl Model for ObjectState {
    ghost use Rattle.check_saved_state.specs.Scheduling.{Scheduling};

    ghost Value = { Scheduling };

    ghost use Rattle.check_sched.specs.ObjectState.{scheduling_view};

    ghost view = { scheduling_view };
}

/// A change of one object. All changes except `Begin` leave the number of runs as it was, or end one.
#[derive(Clone, Copy)]
pub(crate) enum Change {
    /// Begin this run: the object loses its next time and its forced mark.
    Begin(SavedRun),
    /// End the run: the object has its next check at this time, if one is given.
    End(Option<u64>),
    /// Put the next check off to this time. Without a time there is no next check.
    PutOff(Option<u64>),
    /// Set the next check to this time, and whether it is forced.
    Reschedule { time: u64, forced: bool },
    /// Turn the active checks on or off.
    Enable(bool),
}

impl ObjectState {
    ghost use Rattle.std.specs.Prelude.{◌≡◌, is_some, option_map};
    ghost use Rattle.check_sched.specs.Change.{object_after_change};
    ghost use Rattle.check_sched.specs.Saved.{object_after_abandon};
    ghost use Rattle.check_sched.specs.Scheduling.{candidate_time, freed_time, opening_object, put_off_to, run_under};

    /// The state of an object when scheduling starts. Its first check is at `first`, it isn't being checked,
    /// it is enabled as the setup says, and its next check isn't forced.
    pub(crate) fn opening(first: Option<u64>, enabled: bool) -> ObjectState
        ensures { result ≡ opening_object first enabled }
    {
        ObjectState {
            time: first.unwrap_or(0),
            run: NO_RUN,
            has_time: first.is_some(),
            has_run: false,
            enabled,
            forced: false,
        }
    }

    /// The state of an object with this next time and run, if they are given, enabled and forced or not.
    pub(crate) fn saved(
        next: Option<u64>,
        run: Option<SavedRun>,
        enabled: bool,
        forced: bool,
    ) -> ObjectState
        ensures { result ≡ record { next = next; run = run; enabled = enabled; forced = forced } }
    {
        ObjectState {
            time: next.unwrap_or(0),
            run: run.unwrap_or(NO_RUN),
            has_time: next.is_some(),
            has_run: run.is_some(),
            enabled,
            forced,
        }
    }

    /// The time of the next check, if one is set.
    pub(crate) fn next(&self) -> Option<u64>
        ensures { result ≡ self.now.next }
    {
        if self.has_time { Some(self.time) } else { None }
    }

    /// The run of the running check, if there is one.
    pub(crate) fn run(&self) -> Option<SavedRun>
        ensures { result ≡ self.now.run }
    {
        if self.has_run { Some(self.run) } else { None }
    }

    /// Whether the object is being checked.
    pub(crate) fn is_running(&self) -> bool
        ensures { result ≡ is_some self.now.run }
    {
        self.has_run
    }

    /// The number of the run under which the object is being checked.
    pub(crate) fn run_number(&self) -> Option<u64>
        ensures { result ≡ option_map (λ run. run.number) self.now.run }
    {
        match self.run() {
            Some(run) => Some(run.number),
            None => None,
        }
    }

    /// Whether the active checks are enabled.
    pub(crate) fn is_enabled(&self) -> bool
        ensures { result ≡ self.now.enabled }
    {
        self.enabled
    }

    /// Whether the next check is forced.
    pub(crate) fn is_forced(&self) -> bool
        ensures { result ≡ self.now.forced }
    {
        self.forced
    }

    /// The time for which the object waits: its next time, if it isn't being checked and is enabled or
    /// forced.
    pub(crate) fn candidate_time(&self) -> Option<u64>
        ensures { result ≡ candidate_time self.now }
    {
        if self.has_time && !self.has_run && (self.enabled || self.forced) {
            Some(self.time)
        } else {
            None
        }
    }

    /// Makes this change.
    pub(crate) fn change(&mut self, change: Change)
        ensures { self.new ≡ object_after_change change self.old }
    {
        match change {
            Change::Begin(run) => {
                self.has_time = false;
                self.run = run;
                self.has_run = true;
                self.forced = false;
            }
            Change::End(next) => {
                self.set_next(next);
                self.has_run = false;
            }
            Change::PutOff(until) => self.set_next(until),
            Change::Reschedule { time, forced } => {
                self.set_next(Some(time));
                self.forced = forced;
            }
            Change::Enable(on) => self.enabled = on,
        }
    }

    /// Abandons the run of the running check, if there is one, at this moment.
    pub(crate) fn abandon_run(&mut self, now: u64)
        ensures { self.new ≡ object_after_abandon now self.old }
    {
        if self.is_running() {
            let next = self.freed_time(now);
            self.change(Change::End(Some(next)));
        }
    }

    /// The time of the next check if the run is abandoned at this moment: the time that was set during the
    /// run, or else this moment.
    pub(crate) fn freed_time(&self, now: u64) -> u64
        ensures { result ≡ freed_time now self.now }
    {
        self.next().unwrap_or(now)
    }

    /// Sets the next time. None clears it.
    fn set_next(&mut self, next: Option<u64>)
        ensures { self.new ≡ put_off_to next self.old }
    {
        self.has_time = next.is_some();
        self.time = next.unwrap_or(0);
    }

    /// The run of this number, or why the object has no such run.
    pub(crate) fn run_under(&self, number: u64) -> Result<SavedRun, Refusal>
        ensures { result ≡ run_under number self.now.run }
    {
        match self.run() {
            None => Err(Refusal::NotRunning),
            Some(run) if run.number == number => Ok(run),
            Some(_) => Err(Refusal::WrongRun),
        }
    }
}
