//! The verdict: the standing of an object after a result.

ghost use Rattle.std.specs.Prelude.{◌≡◌, ◌≤◌, IsTrue};
ghost use Rattle.check_states.specs.State.{is_host_state};
ghost use Rattle.check_states.specs.Standing.{is_lawful};
ghost use Rattle.check_states.specs.Verdict.{kind_and_attempt, kind_at, last_hard_after, verdict_on};

use crate::standing::{Kind, ProblemPhase, Standing};
use crate::state::State;

/// The standing of an object after a check whose result is the state `found`.
///
/// `before` is the standing before the check, and `max` the object's maximum of check attempts. `host_up`
/// says whether the host of a service is up. It doesn't count for a host, so that callers pass `true`.
/// `flapping` says whether the object flaps with this result ([`flaps`](crate::flaps)). It is copied into the
/// new standing and decides nothing else.
///
/// The kind and the attempt are those of the first row that fits:
///
/// | Result | Before | Kind after | Attempt after |
/// |---|---|---|---|
/// | OK or UP | OK or UP, soft or hard | hard | 1 |
/// | OK or UP | a soft problem | soft | one more |
/// | OK or UP | a hard problem | hard | 1 |
/// | a problem of a service whose host isn't up | any | hard | `max` |
/// | a problem | OK or UP | hard if the attempt is `max`, else soft | 1 |
/// | a problem | a soft problem | hard if the attempt is `max`, else soft | one more |
/// | a problem | a hard problem | hard | `max` |
///
/// The new state is the result. If the new kind is hard, the last hard state becomes the result. Otherwise it
/// stays as it was. The standing before is [`pending`] for an object that was never checked. (Our own
/// profile, after the manual's "State Types".)
pub fn verdict(before: Standing, found: State, max: u8, host_up: bool, flapping: bool) -> Standing
    requires attempts { 1 ≤ max }
    requires lawful { IsTrue (is_lawful before max) }
    requires same_sort { is_host_state found ≡ is_host_state before.state }
    ensures table { result ≡ verdict_on before found max host_up flapping }
    ensures lawful { IsTrue (is_lawful result max) }
    ensures checked { IsTrue result.checked }
    ensures state { result.state ≡ found }
{
    let before = before.as_checked();
    let (kind, attempt) = kind_and_attempt(before, found, max, host_up);
    Standing {
        checked: true,
        state: found,
        kind,
        attempt,
        last_hard: last_hard_after(kind, found, before.last_hard),
        flapping,
    }
}

/// The kind and the attempt after a result.
fn kind_and_attempt(before: Standing, found: State, max: u8, host_up: bool) -> (Kind, u8)
    requires attempts { 1 ≤ max }
    requires lawful { IsTrue (is_lawful before max) }
    ensures { result ≡ kind_and_attempt before found max host_up }
{
    let phase = before.phase();
    if !found.is_problem() {
        return match phase {
            ProblemPhase::SoftProblem => (Kind::Soft, before.attempt + 1),
            ProblemPhase::NoProblem | ProblemPhase::HardProblem => (Kind::Hard, 1),
        };
    }
    if !host_up && !found.is_host() {
        return (Kind::Hard, max);
    }
    let attempt = match phase {
        ProblemPhase::NoProblem => 1,
        ProblemPhase::SoftProblem => before.attempt + 1,
        ProblemPhase::HardProblem => max,
    };
    (kind_at(attempt, max), attempt)
}

/// The kind of a problem at an attempt: hard at the last one.
fn kind_at(attempt: u8, max: u8) -> Kind
    ensures { result ≡ kind_at attempt max }
{
    if attempt == max {
        Kind::Hard
    } else {
        Kind::Soft
    }
}

/// The last hard state after a result: the result if the kind is hard, otherwise the last hard state before.
fn last_hard_after(kind: Kind, found: State, last_hard: State) -> State
    ensures { result ≡ last_hard_after kind found last_hard }
{
    match kind {
        Kind::Hard => found,
        Kind::Soft => last_hard,
    }
}
