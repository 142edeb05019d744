//! How many objects are scheduled, and how many links there are.

ghost use Rattle.std.specs.Prelude.{◌≡◌, count_by};
ghost use Rattle.check_spread.specs.Spread.{is_scheduled};
ghost use Rattle.setup_summary.specs.Summary.{links_in, reasons_among, is_disabled, has_no_interval};

use check_objects::{Object, Setup};

/// How many links the objects of a setup have.
#[derive(Clone, Copy, Debug, PartialEq, Eq)]
pub struct Links {
    /// Dependencies, of hosts and of services together.
    pub dependencies: usize,
    /// Links from a host to a parent.
    pub parents: usize,
}

/// Which objects are checked at first, and why the others aren't. Each object is counted once.
#[derive(Clone, Copy, Debug, PartialEq, Eq)]
pub struct Reasons {
    /// Those that are scheduled.
    pub scheduled: usize,
    /// Those whose active checks are switched off.
    pub disabled: usize,
    /// Those whose active checks are switched on, but whose check interval is 0.
    pub without_interval: usize,
}

/// How many links there are.
pub(crate) fn count_links(setup: &Setup) -> Links
    ensures { result ≡ links_in setup.now }
{
    let mut dependencies = 0;
    let mut parents = 0;
    for number in 0..setup.len() {
        dependencies += setup.dependencies(number as u32).len();
        parents += setup.parents(number as u32).len();
    }
    Links {
        dependencies,
        parents,
    }
}

/// How many objects are scheduled, and why the others aren't.
pub(crate) fn count_reasons(objects: &[Object]) -> Reasons
    ensures { result ≡ reasons_among objects.now }
{
    Reasons {
        scheduled: count_scheduled(objects),
        disabled: count_disabled(objects),
        without_interval: count_without_interval(objects),
    }
}

/// How many of the objects are scheduled.
fn count_scheduled(objects: &[Object]) -> usize
    ensures { result ≡ count_by is_scheduled objects.now }
{
    objects
        .iter()
        .filter(|object| object.enabled && object.check_interval != 0)
        .count()
}

/// How many of the objects are disabled.
fn count_disabled(objects: &[Object]) -> usize
    ensures { result ≡ count_by is_disabled objects.now }
{
    objects.iter().filter(|object| !object.enabled).count()
}

/// How many of the objects are enabled, but have no check interval.
fn count_without_interval(objects: &[Object]) -> usize
    ensures { result ≡ count_by has_no_interval objects.now }
{
    objects
        .iter()
        .filter(|object| object.enabled && object.check_interval == 0)
        .count()
}
