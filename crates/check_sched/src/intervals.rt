//! The intervals of each object in milliseconds, computed once for all checks, and the times that follow from
//! them.

ghost use Rattle.std.specs.Prelude.{◌≡◌, ◌≤◌, IfOk, IfSome, OnOk};
ghost use Rattle.check_objects.specs.Configuration.{IsSetup};
ghost use Rattle.std.specs.Option.{option_or};
ghost use Rattle.check_sched.specs.Intervals.{AreBounded, interval_for_standing, intervals_for, intervals_of, time_after};

use check_objects::{MAX_INTERVAL, Object, Setup};
use check_spread::milliseconds;
use check_states::{LAST_MOMENT, LAST_TIME, Standing};
use std::alloc::{AllocError, Global};

/// The intervals of an object in milliseconds: from a check to the next, and from a check to the next while
/// the object is a soft problem.
#[derive(Clone, Copy)]
pub(crate) struct Intervals {
    pub(crate) check: u64,
    pub(crate) retry: u64,
}

/// The intervals of each object of the setup, by number.
pub(crate) fn intervals_by_number(
    alloc: Global,
    setup: &Setup,
) -> Result<Vec<Intervals>, AllocError>
    ensures { IfOk result (λ made. made.items ≡ intervals_of setup.now) }
{
    let count = setup.len();
    let mut intervals = Vec::with_capacity(alloc, count)?;
    for number in 0..count {
        intervals.push(intervals_for(setup, setup.object(number as u32)))?;
    }
    Ok(intervals)
}

/// The intervals of an object.
fn intervals_for(setup: &Setup, object: &Object) -> Intervals
    requires valid_setup { IsSetup setup.now }
    requires check { object.now.check_interval ≤ MAX_INTERVAL }
    requires retry { object.now.retry_interval ≤ MAX_INTERVAL }
    ensures { result ≡ intervals_for setup.now object.now }
{
    Intervals {
        check: milliseconds(setup, object.check_interval),
        retry: milliseconds(setup, object.retry_interval),
    }
}

/// The time of the check that follows one that began at `start`. It is `already` if a time was set while the
/// check ran. Otherwise it is the interval after the start, or None if the interval is 0.
pub(crate) fn next_check_time(
    intervals: Intervals,
    standing: Standing,
    start: u64,
    already: Option<u64>,
) -> Option<u64>
    requires bounded { AreBounded intervals }
    requires moment { start ≤ LAST_MOMENT }
    requires in_time { IfSome already (λ time. time ≤ LAST_TIME) }
    ensures value { result ≡ option_or already (time_after start (interval_for_standing intervals standing)) }
    ensures within { IfSome result (λ time. time ≤ LAST_TIME) }
{
    if already.is_some() {
        return already;
    }
    time_after(start, interval_for_standing(intervals, standing))
}

/// The time that is an interval after `start`, or None if the interval is 0.
pub(crate) fn time_after(start: u64, interval: u64) -> Option<u64>
    requires bounded { interval ≤ 45411840000000 }
    requires moment { start ≤ LAST_MOMENT }
    ensures value { result ≡ time_after start interval }
    ensures within { IfSome result (λ time. time ≤ LAST_TIME) }
{
    if interval == 0 {
        None
    } else {
        Some(start + interval)
    }
}

/// The interval to the next check: that of retries while the object is a soft problem.
fn interval_for_standing(intervals: Intervals, standing: Standing) -> u64
    requires { AreBounded intervals }
    ensures value { result ≡ interval_for_standing intervals standing }
    ensures bounded { result ≤ 45411840000000 }
{
    if standing.is_soft_problem() {
        intervals.retry
    } else {
        intervals.check
    }
}
