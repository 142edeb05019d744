//! The numbers of objects that are kept, new and dropped, and of runs that are abandoned.

ghost use Rattle.std.specs.Prelude.{◌≡◌, ◌≤◌, count_by, is_none, is_some, length};
ghost use Rattle.check_objects.specs.Configuration.{host_count, number_by_name};
ghost use Rattle.setup_summary.specs.Changes.{dropped_count, figures_of, abandoned_count_among, is_running, object_diffs};

use crate::diffs::ObjectDiff;
use check_objects::Setup;
use check_saved_state::{Saved, SavedObject};

/// The numbers of objects of a setup and a saved state, and of the runs that end.
#[derive(Clone, Copy, Debug, PartialEq, Eq)]
pub struct Figures {
    /// Objects of both.
    pub kept: usize,
    /// Objects that only the setup has.
    pub new: usize,
    /// Objects that only the saved state has.
    pub dropped: usize,
    /// Runs of services that are abandoned because more services are out than the setup's limit allows.
    pub given_up: usize,
}

impl Figures {
    /// The figures of a setup and a saved state. `kept` has the objects of the setup by number.
    pub(crate) fn of(setup: &Setup, saved: &Saved, kept: &[Option<ObjectDiff>]) -> Figures
        requires { kept.now ≡ object_diffs setup.now saved.now }
        ensures { result ≡ figures_of setup.now saved.now }
    {
        Figures {
            kept: count_kept(kept),
            new: count_new(kept),
            dropped: count_dropped(setup, saved),
            given_up: count_abandoned(setup, kept),
        }
    }
}

/// How many of the objects are kept.
fn count_kept(kept: &[Option<ObjectDiff>]) -> usize
    ensures { result ≡ count_by is_some kept.now }
{
    kept.iter().filter(|object| object.is_some()).count()
}

/// How many of the objects are new.
fn count_new(kept: &[Option<ObjectDiff>]) -> usize
    ensures { result ≡ count_by is_none kept.now }
{
    kept.iter().filter(|object| object.is_none()).count()
}

/// How many of the saved objects the setup hasn't.
fn count_dropped(setup: &Setup, saved: &Saved) -> usize
    ensures { result ≡ dropped_count setup.now saved.now }
{
    saved
        .objects()
        .iter()
        .filter(|object| is_dropped(setup, object))
        .count()
}

/// Whether the setup hasn't the object.
fn is_dropped(setup: &Setup, object: &SavedObject) -> bool
    ensures { result ≡ is_none (number_by_name setup.now object.now.name) }
{
    setup.number(&object.name).is_none()
}

/// The number of runs of services that are abandoned: all that are out, if they are more than the limit
/// allows.
fn count_abandoned(setup: &Setup, kept: &[Option<ObjectDiff>]) -> usize
    requires { host_count setup.now ≤ length kept.now }
    ensures { result ≡ abandoned_count_among setup.now kept.now }
{
    let running = count_running(&kept[setup.hosts()..]);
    let limit = setup.options().max_concurrent_checks;
    if limit == 0 || running as u64 <= limit {
        0
    } else {
        running
    }
}

/// How many of the objects are out.
fn count_running(kept: &[Option<ObjectDiff>]) -> usize
    ensures { result ≡ count_by is_running kept.now }
{
    kept.iter().filter(|object| is_running(**object)).count()
}

/// Whether an object is kept and out.
fn is_running(object: Option<ObjectDiff>) -> bool
    ensures { result ≡ is_running object }
{
    match object {
        Some(kept) => kept.running,
        None => false,
    }
}
