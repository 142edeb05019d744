//! A pass of a desk, with the desk.

ghost use Rattle.std.specs.Prelude.{◌≡◌};
ghost use Rattle.std_alloc.specs.Arc.{arc_value};
ghost use Rattle.nagsched_handles.specs.PassStates.{IsPassStateOf, IsPassStateOf-prop};

use crate::pass_state::{PassState, Step, advance};
use crate::shared::Shared;
use crate::target::NamedBook;
use check_desk::Pass;
use check_sched::Call;
use check_states::Standing;
use std::alloc::Global;
use std::mem::replace;
use std::sync::Arc;

/// A pass of a desk, with the desk, which lives as long as one of its passes.
#[derive(Drop)]
pub struct DeskPass {
    /// The desk.
    pub(crate) shared: Arc<Shared, Global>,
    /// The pass at rest, or the turn of a call that waits.
    pub(crate) state: PassState,
    ghost own: { IsPassStateOf (arc_value shared).desk state } by { IsPassStateOf-prop (arc_value shared).desk state },
}

impl DeskPass {
    ghost use Rattle.std.specs.Prelude.{◌↔◌, true, false, IfOk, IfErr};
    ghost use Rattle.check_desk.specs.Desks.{IsPassOf};
    ghost use Rattle.nagsched_handles.specs.Closing.{IsAtRest, IsBookAfter, MayJoin};
    ghost use Rattle.nagsched_handles.specs.Desks.{AreOneDesk, IsSamePass, desk_of, pass_state_of};
    ghost use Rattle.nagsched_handles.specs.Glances.{IsGlanceResult};
    ghost use Rattle.nagsched_handles.specs.Joining.{HasJoined};
    ghost use Rattle.nagsched_handles.specs.Tries.{HasAdvanced};

    /// Tries to make the call. A pass that answers for all passes of its desk never waits.
    pub fn step(&mut self, call: Call) -> Step
        ensures desk { AreOneDesk self.old self.new }
        ensures advanced { HasAdvanced (desk_of self.old) call (pass_state_of self.old) result
            (pass_state_of self.new) }
    {
        advance(&self.shared.desk, &mut self.state, call)
    }

    /// The standing of an object. None if there is no such object, or if the pass waits.
    pub fn glance(&mut self, object: u32) -> Option<Standing>
        ensures desk { AreOneDesk self.old self.new }
        ensures seen { IsGlanceResult (desk_of self.old) object (pass_state_of self.old) result (pass_state_of self.new) }
    {
        match replace(&mut self.state, PassState::Gone) {
            PassState::Resting(pass) => {
                let (pass, standing) = self.shared.desk.glance(pass, object);
                self.state = PassState::Resting(pass);
                standing
            }
            other => {
                self.state = other;
                None
            }
        }
    }

    /// Joins another pass of the same desk to this one. It does nothing, and returns false, exactly if
    /// one of the two doesn't rest or their desks have two marks.
    pub(crate) fn join(&mut self, other: &mut DeskPass) -> bool
        requires { AreOneDesk self.old other.old }
        ensures desk { AreOneDesk self.old self.new }
        ensures exactly { (result ≡ true) ↔ MayJoin self.old other.old }
        ensures gathered_caller { result ≡ true → HasJoined (pass_state_of self.old) (pass_state_of other.old) (pass_state_of self.new) }
        ensures same { result ≡ false → (self.new ≡ self.old) × (other.new ≡ other.old) }
    {
        if !self.is_resting() || !other.is_resting() || !self.shared.has_mark_of(&other.shared) {
            return false;
        }
        let PassState::Resting(own) = replace(&mut self.state, PassState::Gone) else {
            unreachable!()
        };
        let PassState::Resting(others) = replace(&mut other.state, PassState::Gone) else {
            unreachable!()
        };
        self.state = PassState::Resting(self.shared.desk.gather(own, others));
        true
    }

    /// Whether the pass is at rest.
    pub(crate) fn is_resting(&self) -> bool
        ensures { (result ≡ true) ↔ IsAtRest (pass_state_of self.now) }
    {
        matches!(self.state, PassState::Resting(_))
    }

    /// Ends the desk if all its passes were gathered into this one and nothing else shares the desk.
    pub(crate) fn close(self) -> Result<NamedBook, DeskPass>
        requires { IsAtRest (pass_state_of self) }
        ensures closed { IfOk result (λ named. IsBookAfter (desk_of self) (pass_state_of self) named) }
        ensures same { IfErr result (λ same. IsSamePass self same) }
    {
        let DeskPass { shared, state } = self;
        let PassState::Resting(pass) = state else {
            unreachable!()
        };
        if pass.gathered() < shared.passes {
            return Err(DeskPass::at_rest(shared, pass));
        }
        match Arc::try_unwrap(shared) {
            Ok(Shared { desk, names, .. }) => match desk.close(pass) {
                Ok(book) => Ok(NamedBook { book, names }),
                Err(_) => unreachable!(),
            },
            Err(shared) => Err(DeskPass::at_rest(shared, pass)),
        }
    }

    /// A place for a pass of the desk, without the pass.
    pub(crate) fn without_pass(shared: Arc<Shared, Global>) -> DeskPass
        ensures { result.shared ≡ shared }
    {
        DeskPass {
            shared,
            state: PassState::Gone,
        }
    }

    /// Puts the pass into its place. It rests there.
    pub(crate) fn set_pass(&mut self, pass: Pass)
        requires { IsPassOf (desk_of self.old) pass }
        ensures shared { self.new.shared ≡ self.old.shared }
        ensures state { self.new.state ≡ PassState.Resting pass }
    {
        self.state = PassState::Resting(pass);
    }

    /// A pass at rest.
    pub(crate) fn at_rest(shared: Arc<Shared, Global>, pass: Pass) -> DeskPass
        requires { IsPassOf (arc_value shared).desk pass }
        ensures shared { result.shared ≡ shared }
        ensures state { result.state ≡ PassState.Resting pass }
    {
        DeskPass {
            shared,
            state: PassState::Resting(pass),
        }
    }
}
