//! The time at which the check of a rank is due.

ghost use Rattle.std.specs.Prelude.{◌≡◌, ◌<◌, ◌≤◌, ◌*◌, length, count_by, filter, sum_by, All};
ghost use Rattle.check_spread.specs.Spread.{interval_milliseconds, is_scheduled, scheduled_among, smart_delay, time_at};
ghost use Rattle.check_spread.specs.Limits.{IsInLimits};

use check_objects::{
    DelayMethod, MAX_INTERVAL, MAX_INTERVAL_LENGTH, MAX_OBJECTS, MAX_SPREAD, Object,
};
use check_states::{LAST_TIME, MINUTE};

/// How the first checks of one sort of object are spread over time.
#[derive(Clone, Copy)]
pub(crate) struct Spread {
    /// The moment at which scheduling starts, in milliseconds.
    pub(crate) start: u64,
    /// The inter-check delay.
    pub(crate) method: DelayMethod,
    /// The maximum spread, in milliseconds.
    pub(crate) max_spread: u64,
    /// The length of a unit of the intervals, in seconds.
    pub(crate) interval_length: u64,
    /// The interleave factor: the number of positions from one visit to the next.
    pub(crate) factor: usize,
}

/// The scheduled objects of one sort: their number, and the sum of their check intervals in milliseconds.
#[derive(Clone, Copy)]
pub(crate) struct Scheduled {
    pub(crate) count: u64,
    pub(crate) total_interval: u64,
}

/// Whether the object is checked at first: it is enabled and its check interval isn't 0.
pub(crate) fn is_scheduled(object: &Object) -> bool
    ensures { result ≡ is_scheduled object.now }
{
    object.enabled && object.check_interval != 0
}

impl Scheduled {
    /// The scheduled objects among these.
    pub(crate) fn of(objects: &[Object], interval_length: u64) -> Scheduled
        requires bounded { length objects.now ≤ MAX_OBJECTS }
        requires unit { interval_length ≤ MAX_INTERVAL_LENGTH }
        requires intervals { All (λ o. o.check_interval ≤ MAX_INTERVAL) objects.now }
        ensures { result ≡ scheduled_among interval_length objects.now }
    {
        Scheduled {
            count: count_scheduled(objects) as u64,
            total_interval: sum_intervals(objects, interval_length),
        }
    }
}

/// The number of scheduled objects among these.
fn count_scheduled(objects: &[Object]) -> usize
    ensures { result ≡ count_by is_scheduled objects.now }
{
    objects.iter().filter(|object| is_scheduled(object)).count()
}

/// The sum of the check intervals of the scheduled objects, in milliseconds.
fn sum_intervals(objects: &[Object], interval_length: u64) -> u64
    requires bounded { length objects.now ≤ MAX_OBJECTS }
    requires unit { interval_length ≤ MAX_INTERVAL_LENGTH }
    requires intervals { All (λ o. o.check_interval ≤ MAX_INTERVAL) objects.now }
    ensures { result ≡ sum_by (interval_milliseconds interval_length) (filter is_scheduled objects.now) }
{
    let mut total = 0;
    for object in objects {
        if is_scheduled(object) {
            total += object.check_interval * interval_length * 1000;
        }
    }
    total
}

impl Spread {
    /// The time of the check of this rank, in milliseconds.
    pub(crate) fn time(self, scheduled: Scheduled, rank: u64) -> u64
        requires limits { IsInLimits self }
        requires in_range { rank < scheduled.count }
        requires bounded { scheduled.count ≤ MAX_OBJECTS }
        ensures time { result ≡ time_at self scheduled rank }
        ensures within { result < LAST_TIME }
    {
        let delay = match self.method {
            DelayMethod::NoDelay => 0,
            DelayMethod::Dumb => 1000 * rank,
            DelayMethod::Fixed(delay) => delay * rank,
            DelayMethod::Smart => smart_delay(self.max_spread, scheduled, rank),
        };
        self.start + delay
    }
}

/// The smart delay: the average check interval divided by the number of objects. It is shortened so that no
/// more than the maximum spread passes from the first check to the last.
fn smart_delay(max_spread: u64, scheduled: Scheduled, rank: u64) -> u64
    requires spread { max_spread ≤ MAX_SPREAD * MINUTE }
    requires in_range { rank < scheduled.count }
    requires bounded { scheduled.count ≤ MAX_OBJECTS }
    ensures delay { result ≡ smart_delay max_spread scheduled rank }
    ensures within { result ≤ MAX_SPREAD * MINUTE * MAX_OBJECTS * MAX_OBJECTS }
{
    if scheduled.total_interval <= max_spread * scheduled.count {
        rank * scheduled.total_interval / (scheduled.count * scheduled.count)
    } else {
        rank * max_spread / scheduled.count
    }
}
