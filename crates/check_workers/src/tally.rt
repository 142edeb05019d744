//! Counts of answers.

ghost use Rattle.std.specs.Prelude.{◌≡◌, ℕ, ◌∷◌, []};
ghost use Rattle.ticket_steps.specs.History.{entry};
ghost use Rattle.check_sched.specs.declared.call.Call.TheVariants as call;
ghost use Rattle.check_workers.specs.Tallies.{IsBounded, plus, tally_of};

use check_sched::{Refusal, Reply};

/// The number of answers of each kind.
///
/// `takes` is the sum of `taken`, `put_off`, `idle`, `at_limit` and `refused`. `reports` is the sum of
/// `reported` and `late`.
#[derive(Clone, Copy, Debug, Default, PartialEq, Eq)]
pub struct Tally {
    /// Takes that got a reply.
    pub takes: u64,
    /// Takes that began a check.
    pub taken: u64,
    /// Takes whose object was put off, since a dependency of it failed.
    pub put_off: u64,
    /// Takes when nothing was due.
    pub idle: u64,
    /// Takes when services were due, but the limit of running checks was reached.
    pub at_limit: u64,
    /// Takes that were refused: a moment out of range, or no run number left.
    pub refused: u64,
    /// Reports that got a reply.
    pub reports: u64,
    /// Reports that ended their run.
    pub reported: u64,
    /// Reports that came too late: the object was not running any more, or under another run.
    pub late: u64,
    /// Calls that were refused when out of memory.
    pub unanswered: u64,
    /// Workers that stopped before their last moment was done.
    pub stops: u64,
}

/// Why a worker stops before its last moment is done.
#[derive(Clone, Copy, Debug, PartialEq, Eq)]
pub enum Stop {
    /// There was no memory to record a call.
    NoMemory,
    /// Its pass had no call left.
    Spent,
}

impl Tally {
    /// The tally of one take with this reply. Only the replies that have an arm here answer a take.
    pub(crate) fn of_take(reply: Reply) -> Tally
        ensures { (number now : ℕ)
            → result ≡ tally_of (entry number (call.Take now) reply ∷ []) [] }
    {
        let one = Tally {
            takes: 1,
            ..Tally::default()
        };
        match reply {
            Reply::Taken { .. } => Tally { taken: 1, ..one },
            Reply::PutOff { .. } => Tally { put_off: 1, ..one },
            Reply::Idle { .. } => Tally { idle: 1, ..one },
            Reply::AtLimit => Tally { at_limit: 1, ..one },
            Reply::Refused(_) => Tally { refused: 1, ..one },
            Reply::Standing { .. } | Reply::Freed { .. } | Reply::Done => one,
        }
    }

    /// The tally of one report with this reply.
    pub(crate) fn of_report(reply: Reply) -> Tally
        ensures { (number object run : ℕ) (code : _)
            → result ≡ tally_of (entry number (call.Report object run code) reply ∷ []) [] }
    {
        let one = Tally {
            reports: 1,
            ..Tally::default()
        };
        match reply {
            Reply::Standing { .. } => Tally { reported: 1, ..one },
            Reply::Refused(Refusal::NotRunning | Refusal::WrongRun) => Tally { late: 1, ..one },
            _ => one,
        }
    }

    /// The tally of one worker that stopped early.
    pub(crate) fn of_stop(stop: Stop) -> Tally
        ensures { result ≡ tally_of [] (stop ∷ []) }
    {
        let one = Tally {
            stops: 1,
            ..Tally::default()
        };
        match stop {
            Stop::NoMemory => Tally {
                unanswered: 1,
                ..one
            },
            Stop::Spent => one,
        }
    }

    /// Both tallies, added up.
    pub(crate) fn plus(self, other: Tally) -> Tally
        requires { IsBounded self × IsBounded other }
        ensures { result ≡ plus self other }
    {
        Tally {
            takes: self.takes + other.takes,
            taken: self.taken + other.taken,
            put_off: self.put_off + other.put_off,
            idle: self.idle + other.idle,
            at_limit: self.at_limit + other.at_limit,
            refused: self.refused + other.refused,
            reports: self.reports + other.reports,
            reported: self.reported + other.reported,
            late: self.late + other.late,
            unanswered: self.unanswered + other.unanswered,
            stops: self.stops + other.stops,
        }
    }
}
