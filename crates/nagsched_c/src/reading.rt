//! Reads a setup from a document, and frees handles.

ghost use Rattle.std.specs.Prelude.{◌≡◌, ◌≢◌, ◌⊎◌, ◌↔◌, true, is_some, None};
ghost use Rattle.nagsched_handles.specs.Handles.{contents_of};
ghost use Rattle.nagsched_handles.specs.Reading.{IsSetupOf, IsTurnWaitingIn};
ghost use Rattle.nagsched_c.specs.Reading.{IsRefusalOf};

use crate::status::{NO_MEMORY, OK, REFUSED, WRONG};
use nagsched_handles::reading::{is_waiting, load_setup};
use nagsched_handles::{CRefusal, Handle, c_refusal};
use setup_model::LoadError;
use std::alloc::Global;

/// Reads a setup from a JSON document into an empty handle. It makes two setups, since the passes of a
/// desk need the names of its objects outside its lock.
///
/// `REFUSED` if the document isn't a setup: the struct has the reason and the place. `WRONG` exactly if
/// the handle isn't empty. If memory is refused, the status says so, and says nothing about the
/// document. The handle changes only if the setup was made, and the struct only with a refusal.
#[unsafe(no_mangle)]
pub extern "C" fn nagsched_read(
    alloc: Global,
    document: &[u8],
    setup: &mut Handle,
    refusal: &mut CRefusal,
) -> u32
    ensures status { (result ≡ OK) ⊎ ((result ≡ NO_MEMORY) ⊎ ((result ≡ REFUSED) ⊎ (result ≡ WRONG))) }
    ensures wrong { (result ≡ WRONG) ↔ (is_some (contents_of setup.old) ≡ true) }
    ensures read { result ≡ OK → IsSetupOf document.now (contents_of setup.new) }
    ensures refused { result ≡ REFUSED → IsRefusalOf document.now refusal.new }
    ensures handle { result ≢ OK → contents_of setup.new ≡ contents_of setup.old }
    ensures output { result ≢ REFUSED → refusal.new ≡ refusal.old }
{
    if !setup.is_empty() {
        return WRONG;
    }
    match load_setup(alloc, document) {
        Ok(target) => {
            *setup = Handle::of(target);
            OK
        }
        Err(LoadError::Memory) => NO_MEMORY,
        Err(error) => {
            *refusal = c_refusal(error);
            REFUSED
        }
    }
}

/// Frees what the handle leads to, and makes the handle empty. An empty handle stays empty.
///
/// `WRONG` exactly if it is a pass that waits for its turn. Then the handle is as it was, since the
/// lost ticket would stop all other passes.
#[unsafe(no_mangle)]
pub extern "C" fn nagsched_free(alloc: Global, handle: &mut Handle) -> u32
    ensures freed { (result ≡ OK) × (contents_of handle.new ≡ None)
        ⊎ (result ≡ WRONG) × (contents_of handle.new ≡ contents_of handle.old) }
    ensures wrong { (result ≡ WRONG) ↔ IsTurnWaitingIn (contents_of handle.old) }
{
    let target = handle.take(alloc);
    if let Some(target) = target {
        if is_waiting(&target) {
            *handle = Handle::of(target);
            return WRONG;
        }
    }
    OK
}
