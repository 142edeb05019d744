//! The objects of a setup, compared with those of a saved state.

ghost use Rattle.std.specs.Prelude.{◌≡◌, ◌≤◌, IfOk, length};
ghost use Rattle.check_objects.specs.Configuration.{IsSetup};
ghost use Rattle.setup_summary.specs.Changes.{object_diff, object_diffs};

use check_objects::{MAX_INTERVAL, Object, Setup};
use check_saved_state::{Saved, SavedObject};
use check_spread::milliseconds;
use std::alloc::{AllocError, Global};

/// An object that is kept: an object of the setup whose full name is in the saved state.
#[derive(Clone, Copy, Debug, PartialEq, Eq)]
pub struct ObjectDiff {
    /// Whether a check of it is out.
    pub running: bool,
    /// Whether the setup has another maximum of attempts for it.
    pub attempts: bool,
    /// Whether the setup has another check interval for it, in milliseconds.
    pub interval: bool,
    /// Whether one of the two setups has its active checks enabled, and the other doesn't.
    pub enabled: bool,
}

/// Every object of the setup by number, or None if it is new. An Err means out of memory.
pub(crate) fn object_diffs(
    alloc: Global,
    setup: &Setup,
    saved: &Saved,
) -> Result<Vec<Option<ObjectDiff>>, AllocError>
    ensures kept { IfOk result (λ kept. kept.items ≡ object_diffs setup.now saved.now) }
    ensures bounded { IfOk result (λ kept. length kept.items ≤ 4096) }
{
    let objects = saved.objects();
    let mut kept = vec![in alloc; None; setup.len()]?;
    for place in (0..objects.len()).rev() {
        let object = &objects[place];
        if let Some(number) = setup.number(&object.name) {
            kept[number as usize] = Some(object_diff(setup, setup.object(number), object));
        }
    }
    Ok(kept)
}

/// Compares an object that is kept with its saved object.
fn object_diff(setup: &Setup, object: &Object, saved: &SavedObject) -> ObjectDiff
    requires valid_setup { IsSetup setup.now }
    requires interval { object.now.check_interval ≤ MAX_INTERVAL }
    ensures { result ≡ object_diff setup.now object.now saved.now }
{
    ObjectDiff {
        running: saved.run.is_some(),
        attempts: object.max_check_attempts != u64::from(saved.max_attempts),
        interval: milliseconds(setup, object.check_interval) != saved.interval,
        enabled: object.enabled != saved.setup_enabled,
    }
}
