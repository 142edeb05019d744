//! The times of the first checks of all objects of a setup.

ghost use Rattle.std.specs.Prelude.{◌≡◌, ◌<◌, ◌≤◌, ◌*◌, ◌++◌, IfOk, IfSome, OnOk, All, length};
ghost use Rattle.check_objects.specs.Configuration.{object_count, IsSetup};
ghost use Rattle.check_spread.specs.Spread.{all_objects, factor_by, first_times, initial_times, milliseconds};
ghost use Rattle.check_spread.specs.Spread.{host_spread, service_spread};
ghost use Rattle.check_spread.specs.Limits.{IsInLimits};

use crate::spread::{Scheduled, Spread, is_scheduled};
use crate::visits::first_ranks;
use check_objects::{
    InterleaveFactor, MAX_INTERVAL, MAX_INTERVAL_LENGTH, MAX_OBJECTS, Object, Setup,
};
use check_states::{LAST_MOMENT, LAST_TIME, MINUTE};
use std::alloc::{AllocError, Global};

/// The time of the first check of each object of the setup, by number, in milliseconds. Scheduling starts at
/// the moment `start`, in milliseconds. An object that isn't scheduled at first gets None: it is disabled, or
/// its check interval is 0.
///
/// Hosts and services each have their own inter-check delay method and maximum spread, and services are
/// interleaved. (Manual: "Service and Host Check Scheduling". Our own profile defines the rounding of the
/// smart delay, and applies the maximum spread to the smart delay only.) The call takes time linear in the
/// objects. An Err means out of memory.
#[tactic(auto, unfolding(crate::specs::Spread::initial_times))]
pub fn initial_times(
    alloc: Global,
    setup: &Setup,
    start: u64,
) -> Result<Vec<Option<u64>>, AllocError>
    requires { start ≤ LAST_MOMENT }
    ensures times { IfOk result (λ times. times.items ≡ initial_times setup.now start) }
    ensures one_each { IfOk result (λ times. length times.items ≡ object_count setup.now) }
    ensures within { IfOk result (λ times.
        All (λ first. IfSome first (λ time. time < LAST_TIME)) times.items) }
{
    let mut times = Vec::with_capacity(alloc, setup.len())?;
    let objects = copy_objects(alloc, setup)?;
    let (hosts, services) = objects.split_at(setup.hosts());
    let (host_spread, service_spread) = find_spreads(setup, start);
    push_first_times(alloc, hosts, host_spread, &mut times)?;
    push_first_times(alloc, services, service_spread, &mut times)?;
    Ok(times)
}

/// Appends the times of the first checks of one sort of object, in the order of their numbers.
fn push_first_times(
    alloc: Global,
    objects: &[Object],
    spread: Spread,
    times: &mut Vec<Option<u64>>,
) -> Result<(), AllocError>
    requires bounded { length objects.now ≤ MAX_OBJECTS }
    requires intervals { All (λ o. o.check_interval ≤ MAX_INTERVAL) objects.now }
    requires limits { IsInLimits spread }
    requires within { All (λ first. IfSome first (λ time. time < LAST_TIME)) times.old.items }
    ensures times { OnOk result
        (times.new.items ≡ times.old.items ++ first_times spread objects.now) }
    ensures within { OnOk result
        (All (λ first. IfSome first (λ time. time < LAST_TIME)) times.new.items) }
{
    let scheduled = Scheduled::of(objects, spread.interval_length);
    let mut ranks = first_ranks(alloc, objects, spread.factor)?;
    for (position, object) in objects.iter().enumerate() {
        if is_scheduled(object) {
            let remainder = position % spread.factor;
            times.push(Some(spread.time(scheduled, ranks[remainder])))?;
            ranks[remainder] += 1;
        } else {
            times.push(None)?;
        }
    }
    Ok(())
}

/// The spread of the first checks of hosts, without interleaving, and that of services.
fn find_spreads(setup: &Setup, start: u64) -> (Spread, Spread)
    requires start { start ≤ LAST_MOMENT }
    requires valid_setup { IsSetup setup.now }
    ensures hosts { result.0 ≡ host_spread setup.now start }
    ensures services { result.1 ≡ service_spread setup.now start }
    ensures limits { IsInLimits result.0 × IsInLimits result.1 }
{
    let options = setup.options();
    let hosts = Spread {
        start,
        method: options.host_inter_check_delay_method,
        max_spread: options.max_host_check_spread * MINUTE,
        interval_length: options.interval_length,
        factor: 1,
    };
    let services = Spread {
        method: options.service_inter_check_delay_method,
        max_spread: options.max_service_check_spread * MINUTE,
        factor: interleave_factor(setup),
        ..hosts
    };
    (hosts, services)
}

/// The interleave factor of services: the one that the setup names, or the number of services for each host,
/// rounded up. The factor is 1 if there is no service. All services and hosts count, including those that
/// aren't scheduled. (Manual: "Service and Host Check Scheduling", service interleaving.)
pub fn interleave_factor(setup: &Setup) -> usize
    ensures factor { result ≡ factor_by setup.now.options.service_interleave_factor
        (length setup.now.services) (length setup.now.hosts) }
    ensures steps { 0 < result }
{
    let services = setup.len() - setup.hosts();
    match setup.options().service_interleave_factor {
        InterleaveFactor::Smart if services == 0 => 1,
        InterleaveFactor::Smart => services.div_ceil(setup.hosts()),
        InterleaveFactor::Fixed(factor) => factor as usize,
    }
}

/// An interval of `interval` units, in milliseconds. The setup's option `interval_length` is the
/// length of a unit in seconds.
pub fn milliseconds(setup: &Setup, interval: u64) -> u64
    requires valid_setup { IsSetup setup.now }
    requires interval { interval ≤ MAX_INTERVAL }
    ensures value { result ≡ milliseconds setup.now interval }
    ensures within { result ≤ MAX_INTERVAL * MAX_INTERVAL_LENGTH * 1000 }
{
    interval * setup.options().interval_length * 1000
}

/// Copies all objects of the setup, in the order of their numbers. An Err means out of memory.
pub fn copy_objects(alloc: Global, setup: &Setup) -> Result<Vec<Object>, AllocError>
    ensures objects { IfOk result (λ objects. objects.items ≡ all_objects setup.now) }
    ensures intervals { IfOk result (λ objects.
        All (λ o. o.check_interval ≤ MAX_INTERVAL) objects.items) }
    ensures valid_setup { OnOk result (IsSetup setup.now) }
{
    let mut objects = Vec::with_capacity(alloc, setup.len())?;
    for number in 0..setup.len() {
        objects.push(*setup.object(number as u32))?;
    }
    Ok(objects)
}
