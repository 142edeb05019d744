//! The place of each object of a setup in a saved state.

ghost use Rattle.std.specs.Prelude.{◌≡◌, ◌<◌, IfOk, OnOk, length, option_map};
ghost use Rattle.check_objects.specs.Configuration.{Configuration, name_of, object_count};
ghost use Rattle.check_saved_state.specs.Saved.{IsSaved, saved_by_name};
ghost use Rattle.check_sched.specs.SavedIndexes.{AreSavedIndexes};

use check_objects::Setup;
use check_saved_state::{Saved, SavedObject};
use std::alloc::{AllocError, Global};

/// For each object of the setup by number, the place of the saved object with its name, if there is one.
/// An Err means out of memory.
pub(crate) fn saved_indexes(
    alloc: Global,
    setup: &Setup,
    saved: &Saved,
) -> Result<Vec<Option<usize>>, AllocError>
    ensures saved_indexes { IfOk result (λ saved_indexes. AreSavedIndexes setup.now saved.now.objects saved.now.objects saved_indexes.items) }
    ensures saved { OnOk result (IsSaved saved.now) }
{
    let objects = saved.objects();
    let mut saved_indexes = vec![in alloc; None; setup.len()]?;
    for place in (0..objects.len()).rev() {
        let object = &objects[place];
        if let Some(number) = setup.number(&object.name) {
            saved_indexes[number as usize] = Some(place);
        }
    }
    Ok(saved_indexes)
}

/// The saved object for the object with this number, if there is one.
pub(crate) fn saved_match<'a>(
    saved: &'a Saved,
    saved_indexes: &[Option<usize>],
    number: u32,
) -> Option<&'a SavedObject>
    requires in_range { number < length saved_indexes.now }
    ensures { (setup : Configuration) → AreSavedIndexes setup saved.now.objects saved.now.objects saved_indexes.now
        → number < object_count setup
        → option_map (λ o. o.now) result ≡ saved_by_name saved.now (name_of setup number) }
{
    let place = saved_indexes[number as usize]?;
    saved.objects().get(place)
}
