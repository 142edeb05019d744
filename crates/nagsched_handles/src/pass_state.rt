//! The state of a pass between two calls of C: the pass at rest, or the turn of a call that waits.

ghost use Rattle.std.specs.Prelude.{◌≡◌, IfSome, None};
ghost use Rattle.check_desk.specs.Desks.{IsWaitingAt};
ghost use Rattle.nagsched_handles.specs.PassStates.{IsPassStateOf};
ghost use Rattle.nagsched_handles.specs.Tries.{HasAdvanced, HasLooked, HasTurn, MayContinue, step_of};

use check_desk::{Answer, Desk, Pass, Poll, Turn};
use check_sched::{Call, Reply};
use std::mem::{ManuallyDrop, replace};

/// The state of a pass between two calls.
#[derive(Drop)]
pub enum PassState {
    /// Nothing: only while a desk opens or a call is made.
    Gone,
    /// The pass at rest.
    Resting(Pass),
    /// A ticket whose turn hasn't come, and the call for which it was taken. C makes the same call again
    /// until its turn has come. The library doesn't make it.
    Waiting(ManuallyDrop<Turn>, Call),
}

/// The outcome of a try.
#[derive(Clone, Copy, PartialEq, Eq)]
pub enum Step {
    /// The call was made, and is recorded with this reply.
    Replied(Reply),
    /// Out of memory for the entry: the call wasn't made, but it is counted.
    NoMemory,
    /// The pass has no call left. Nothing was done.
    Spent,
    /// The turn hasn't come.
    NotYet,
    /// The pass waits for the turn of another call. Nothing was done.
    OtherWaits,
}

/// Takes a ticket if the pass has none, looks whether its turn has come, and makes the call then. A ticket
/// that was taken for another call is left as it is.
#[tactic(auto, using(crate::proofs::Steps::advanced))]
pub(crate) fn advance(desk: &Desk, state: &mut PassState, call: Call) -> Step
    requires { IsPassStateOf desk.now state.old }
    ensures own { IsPassStateOf desk.now state.new }
    ensures advanced { HasAdvanced desk.now call state.old result state.new }
{
    if let Some(step) = blocking_step(state, call) {
        return step;
    }
    let turn = take_turn(desk, state, call);
    look(desk, state, turn, call)
}

/// The reason why the pass can't continue with the call: the pass has no call left, or waits for the turn of
/// another call.
fn blocking_step(state: &PassState, call: Call) -> Option<Step>
    ensures blocking { IfSome result (λ step.
        (desk : Desk) → HasAdvanced desk call state.now step state.now) }
    ensures unblocked { result ≡ None → MayContinue call state.now }
{
    match state {
        PassState::Resting(pass) => (pass.left() == 0).then_some(Step::Spent),
        PassState::Waiting(_turn, asked) => (*asked != call).then_some(Step::OtherWaits),
        PassState::Gone => Some(Step::OtherWaits),
    }
}

/// Takes the turn out of the state: the turn that waits, or a new one, for one of the calls of the pass. The
/// call is a parameter only for the proof: the pass can continue with it.
fn take_turn(desk: &Desk, state: &mut PassState, call: Call) -> Turn
    requires own { IsPassStateOf desk.now state.old }
    requires unblocked { MayContinue call state.old }
    ensures is_waiting { IsWaitingAt desk.now result }
    ensures turn { HasTurn state.old result }
{
    match replace(state, PassState::Gone) {
        PassState::Resting(pass) => match desk.begin(pass) {
            Ok(turn) => turn,
            Err(_pass) => unreachable!(),
        },
        PassState::Waiting(turn, _asked) => ManuallyDrop::into_inner(turn),
        PassState::Gone => unreachable!(),
    }
}

/// Looks whether the turn has come, and makes the call then. It always has come if the pass answers for all
/// passes. The state is the pass's afterwards.
fn look(desk: &Desk, state: &mut PassState, turn: Turn, call: Call) -> Step
    requires { IsWaitingAt desk.now turn }
    ensures own { IsPassStateOf desk.now state.new }
    ensures looked { HasLooked desk.now call turn result state.new }
{
    match desk.poll(turn) {
        Poll::Mine(hold) => {
            let (pass, answer) = desk.finish(hold, call);
            *state = PassState::Resting(pass);
            step_of(answer)
        }
        Poll::NotYet(turn) => {
            let turn = unsafe { ManuallyDrop::new_unchecked(turn) };
            *state = PassState::Waiting(turn, call);
            Step::NotYet
        }
    }
}

/// The outcome of a try whose call got this answer.
fn step_of(answer: Answer) -> Step
    ensures { result ≡ step_of answer }
{
    match answer {
        Answer::Reply(reply) => Step::Replied(reply),
        Answer::NoMemory => Step::NoMemory,
        Answer::Spent => Step::Spent,
    }
}
