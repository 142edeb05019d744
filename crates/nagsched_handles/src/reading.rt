//! Reads a setup from a document, and says which handles can't be freed.

ghost use Rattle.std.specs.Prelude.{◌≡◌, ◌⊎◌, ◌↔◌, true, Ok, Err, Some, IfOk, IfErr};
ghost use Rattle.setup_model.specs.Fault.{non_memory_fault, view_of};
ghost use Rattle.check_objects.specs.Setup.{setup_of, IsRefusedFor};
ghost use Rattle.setup_model.specs.declared.error.LoadError.TheVariants.{Memory};
ghost use Rattle.nagsched_handles.specs.Reading.{IsSetupOf, IsTurnWaitingIn};

use crate::pass_state::PassState;
use crate::target::{HandleTarget, NamedSetup};
use check_objects::{Setup, read_document};
use setup_model::{Fault, LoadError};
use std::alloc::Global;

/// The setup of a document, once for a desk and once for the names.
pub fn load_setup(alloc: Global, document: &[u8]) -> Result<Box<HandleTarget>, LoadError>
    ensures read { IfOk result (λ target. IsSetupOf document.now (Some target.value)) }
    ensures refused { IfErr result (λ error. (error ≡ Memory) ⊎ (setup_of document.now ≡ Err error)) }
{
    match read_named(alloc, document) {
        Ok(named) => Ok(Box::new(alloc, HandleTarget::Setup(named))?),
        Err(fault) => Err(LoadError::from(fault)),
    }
}

/// Two copies of the setup of a document. The document is parsed once: both are made from its tree.
#[tactic(auto, unfolding(check_objects::specs::Setup::setup_of))]
fn read_named(alloc: Global, document: &[u8]) -> Result<NamedSetup, Fault>
    ensures read { IfOk result (λ named. setup_of document.now ≡ Ok named.setup) }
    ensures refused { IfErr result (λ fault. IsRefusedFor document.now (non_memory_fault (view_of fault))) }
{
    let tree = read_document(alloc, document)?;
    let setup = Setup::read_tree_with_fault(alloc, &tree)?;
    let names = Setup::read_tree_with_fault(alloc, &tree)?;
    Ok(NamedSetup { setup, names })
}

/// Whether the target is a pass that waits for its turn.
pub fn is_waiting(target: &HandleTarget) -> bool
    ensures { (result ≡ true) ↔ IsTurnWaitingIn (Some target.now) }
{
    match target {
        HandleTarget::Pass(pass) => matches!(pass.state, PassState::Waiting(_, _)),
        _ => false,
    }
}
