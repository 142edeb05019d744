//! The standing of an object: its state, the kind of that state, the attempt.

ghost use Rattle.std.specs.Prelude.{◌≡◌};
ghost use Rattle.check_states.specs.Standing.{as_checked, is_down, is_lawful, is_soft_problem, pending_standing, phase_of};

use crate::state::State;

/// Whether a state is soft or hard. Further checks have to confirm a soft state. (Manual: "State Types".)
#[derive(Clone, Copy, Debug, PartialEq, Eq)]
pub enum Kind {
    Soft,
    Hard,
}

/// The standing of an object: the results of its checks so far.
#[derive(Clone, Copy, Debug, PartialEq, Eq)]
pub struct Standing {
    /// Whether a result has ever come in.
    pub checked: bool,
    /// The current state. It is `Ok` or `Up` for an object that was never checked.
    pub state: State,
    /// The kind of the current state.
    pub kind: Kind,
    /// The number of the check attempt, 1 to the object's maximum.
    pub attempt: u8,
    /// The state of the last result whose state was hard. It is `Ok` or `Up` before there is one.
    pub last_hard: State,
    /// Whether the state keeps changing: see [`flaps`](crate::flaps).
    pub flapping: bool,
}

/// The three phases of the manual's "State Types": no problem, a problem that is being retried, a confirmed
/// problem.
#[derive(Clone, Copy)]
pub(crate) enum ProblemPhase {
    NoProblem,
    SoftProblem,
    HardProblem,
}

impl Standing {
    /// Whether the host is down: it was checked, and its state is DOWN or UNREACHABLE. No other standing
    /// counts as down. (In our own profile a host that was never checked counts as up.)
    pub fn is_down(self) -> bool
        ensures { result ≡ is_down self }
    {
        self.checked && self.state.is_down()
    }

    /// Whether the object is a soft problem, which is being retried.
    pub fn is_soft_problem(self) -> bool
        ensures { result ≡ is_soft_problem self }
    {
        matches!(self.phase(), ProblemPhase::SoftProblem)
    }

    /// The phase that the object is in.
    pub(crate) fn phase(self) -> ProblemPhase
        ensures { result ≡ phase_of self }
    {
        if !self.state.is_problem() {
            return ProblemPhase::NoProblem;
        }
        match self.kind {
            Kind::Soft => ProblemPhase::SoftProblem,
            Kind::Hard => ProblemPhase::HardProblem,
        }
    }

    /// This standing. For an object that was never checked it is [`pending`].
    pub(crate) fn as_checked(self) -> Standing
        ensures { result ≡ as_checked self }
    {
        if self.checked {
            self
        } else {
            pending(self.state.is_host())
        }
    }
}

/// The standing of a host, or of a service, that was never checked: `Up` or `Ok`, hard, attempt 1, not
/// flapping. (Our own profile.)
pub fn pending(is_host: bool) -> Standing
    ensures { result ≡ pending_standing is_host }
{
    let state = State::ok_or_up(is_host);
    Standing {
        checked: false,
        state,
        kind: Kind::Hard,
        attempt: 1,
        last_hard: state,
        flapping: false,
    }
}

/// Whether an object with `max` check attempts can have this standing. A soft problem has an attempt from 1
/// to `max - 1`, and a hard problem the attempt `max`. OK and UP have one from 1 to `max`. Except for hard
/// problems, the last hard state is OK or UP. Any standing can flap. (Our own profile, after the manual's
/// "State Types".)
pub fn lawful(standing: Standing, max: u8) -> bool
    ensures { result ≡ is_lawful standing max }
{
    let attempt = standing.attempt;
    let was_fine = !standing.last_hard.is_problem();
    match standing.phase() {
        ProblemPhase::NoProblem => 1 <= attempt && attempt <= max && was_fine,
        ProblemPhase::SoftProblem => 1 <= attempt && attempt < max && was_fine,
        ProblemPhase::HardProblem => attempt == max,
    }
}
