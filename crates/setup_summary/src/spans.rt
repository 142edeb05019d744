//! The first and the last of the first checks.

ghost use Rattle.std.specs.Prelude.{◌≡◌};
ghost use Rattle.setup_summary.specs.Summary.{earliest, latest, later, span_of};

use check_states::earlier;

/// The times at which the first checks of one sort of object are due, in milliseconds, from `first` to
/// `last`. Both are None if no object of the sort is scheduled.
#[derive(Clone, Copy, Debug, PartialEq, Eq)]
pub struct Span {
    pub first: Option<u64>,
    pub last: Option<u64>,
}

/// The span of these times.
pub(crate) fn span_of(times: &[Option<u64>]) -> Span
    ensures { result ≡ span_of times.now }
{
    Span {
        first: earliest(times),
        last: latest(times),
    }
}

/// The least of the times, if there is one.
fn earliest(times: &[Option<u64>]) -> Option<u64>
    ensures { result ≡ earliest times.now }
{
    let mut first = None;
    for time in times {
        first = earlier(first, *time);
    }
    first
}

/// The greatest of the times, if there is one.
fn latest(times: &[Option<u64>]) -> Option<u64>
    ensures { result ≡ latest times.now }
{
    let mut last = None;
    for time in times {
        last = later(last, *time);
    }
    last
}

/// The later of two times. If only one is given, it is that one; without a time it is None.
fn later(found: Option<u64>, time: Option<u64>) -> Option<u64>
    ensures { result ≡ later found time }
{
    match (found, time) {
        (Some(found), Some(time)) => Some(found.max(time)),
        (None, time) => time,
        (found, None) => found,
    }
}
