//! The calls of the scheduler, and its replies.

use check_states::{Code, Standing};

/// A call of the scheduler.
///
/// A moment is a number of milliseconds from 0 to 2^60 of a clock that the caller chooses. The moments of
/// later calls needn't be later: each call is answered by its own moment. (Our own profile.)
#[derive(Clone, Copy, Debug, PartialEq, Eq)]
pub enum Call {
    /// Asks which object is due to be checked at the moment `now`, and begins its check.
    Take {
        now: u64,
    },
    /// Reports the return code of the check that was handed out under the number `run`, and ends
    /// that run.
    Report {
        object: u32,
        run: u64,
        code: Code,
    },
    /// Abandons, at the moment `now`, the check that was handed out under the number `run`, and ends that run
    /// without a result. The object's standing stays. A next check that was set during the run also stays. If
    /// no next check was set, the object is due at `now`. (Our own profile.)
    Abandon {
        object: u32,
        run: u64,
        now: u64,
    },
    /// Sets the next check of an object to the moment `time`, whether the object is being checked or not. If
    /// `forced` is true, that check ignores that the object is disabled, and ignores its dependencies. If it
    /// is false, a forced check that was set before is no longer forced. (Manual: "Service and Host Check
    /// Scheduling"; our own profile defines the effect of a forced check.)
    Reschedule {
        object: u32,
        time: u64,
        forced: bool,
    },
    /// Turns the active checks of an object on or off. Its next time stays as it is: an object without a next
    /// time doesn't get one. (Our own profile.)
    Enable {
        object: u32,
        on: bool,
    },
    /// Asks for the standing of an object, and changes nothing.
    Status {
        object: u32,
    },
}

/// A reply of the scheduler.
#[derive(Clone, Copy, Debug, PartialEq, Eq)]
pub enum Reply {
    /// The object with this number is to be checked now, and runs under the number `run` from the moment of
    /// the call on. Run numbers go up by 1. They begin with 1 in a new scheduler, and with the number after
    /// the saved number of runs in a resumed one. No number is given twice.
    Taken {
        object: u32,
        run: u64,
    },
    /// The object with this number was due, but isn't checked now, because one of its dependencies fails. It
    /// was put off: `until` is the time of its next check in milliseconds. This is its check interval after
    /// the moment of the call, or None if that interval is 0. (Manual: "Host and Service Dependencies"; the
    /// time is our own profile.)
    PutOff {
        object: u32,
        until: Option<u64>,
    },
    /// No check is due. `next` is the earliest time at which one will be due, in milliseconds, or None if no
    /// object waits for a check.
    Idle {
        next: Option<u64>,
    },
    /// A service is due, but as many checks of services run as the option `max_concurrent_checks`
    /// allows. (Manual: "Main Configuration File Options".)
    AtLimit,
    /// The result was recorded. The reply has the object's new standing, whether its state differs from the
    /// one before, and the time of its next check in milliseconds, or None if no check is set. A status call
    /// gets the object's present standing, with `changed` false.
    Standing {
        standing: Standing,
        changed: bool,
        next: Option<u64>,
    },
    /// The run has ended without a result. `next` is the time of the object's next check in milliseconds.
    Freed {
        next: u64,
    },
    /// The next check was set, or the active checks were turned on or off.
    Done,
    /// The call was refused, and the scheduler is as it was.
    Refused(Refusal),
}

/// Why a call was refused. A refused call changes nothing. The reasons are tested in the order of
/// these variants, each only if it applies to the call. (Our own profile.)
#[derive(Clone, Copy, Debug, PartialEq, Eq)]
pub enum Refusal {
    /// The setup has no object of that number.
    UnknownObject,
    /// The call's moment or time is above 2^60 milliseconds.
    TimeRange,
    /// A check was asked for after 2^60 runs had been handed out.
    RunsSpent,
    /// The object isn't being checked, so no result of it is expected.
    NotRunning,
    /// The object is being checked under another run number. The call names a check that has ended.
    WrongRun,
}
