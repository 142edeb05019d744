//! The standing of an object after the result of a check.

ghost use Rattle.std.specs.Prelude.{◌≡◌, ◌<◌, ◌≤◌, length, true};
ghost use Rattle.check_objects.specs.Configuration.{IsSetup, host_of, object_count};
ghost use Rattle.check_states.specs.State.{is_another_state, is_host_state, is_problem};
ghost use Rattle.check_sched.specs.State.{IsStandingOf, flap_thresholds_of, is_host, max_attempts_of, standing_at};
ghost use Rattle.check_sched.specs.Report.{is_host_up, new_standing, state_found};

use check_objects::{Object, Setup};
use check_rules::host_state;
use check_states::{Code, Standing, State, service_state, verdict};

/// The state of the object with this number after its check returned this code, given the standings
/// of all objects, by number.
pub(crate) fn state_found(setup: &Setup, standings: &[Standing], number: u32, code: Code) -> State
    requires in_range { number < object_count setup.now }
    requires one_each { length standings.now ≡ object_count setup.now }
    requires valid_setup { IsSetup setup.now }
    ensures value { result ≡ state_found setup.now standings.now number code }
    ensures sort { is_host_state result ≡ is_host setup.now number }
{
    match setup.host_of(number) {
        None => host_state(setup, standings, number, code),
        Some(_host) => service_state(code),
    }
}

/// The low and the high threshold of the object with this number, in percents: those of hosts for a host, and
/// those of services for a service. (Manual: "Detection and Handling of State Flapping".)
pub(crate) fn flap_thresholds(setup: &Setup, number: u32) -> (u8, u8)
    requires valid_setup { IsSetup setup.now }
    ensures { result ≡ flap_thresholds_of setup.now number }
{
    let options = setup.options();
    let (low, high) = if (number as usize) < setup.hosts() {
        (
            options.low_host_flap_threshold,
            options.high_host_flap_threshold,
        )
    } else {
        (
            options.low_service_flap_threshold,
            options.high_service_flap_threshold,
        )
    };
    (low as u8, high as u8)
}

/// The standing of the object with this number after a check that found this state, given the
/// standings of all objects, by number. `flapping` says whether the object flaps with it.
pub(crate) fn new_standing(
    setup: &Setup,
    standings: &[Standing],
    number: u32,
    found: State,
    flapping: bool,
) -> Standing
    requires in_range { number < object_count setup.now }
    requires one_each { length standings.now ≡ object_count setup.now }
    requires valid_setup { IsSetup setup.now }
    requires before { IsStandingOf setup.now number (standing_at standings.now number) }
    requires same_sort { is_host_state found ≡ is_host setup.now number }
    ensures { result ≡ new_standing setup.now standings.now number found flapping }
{
    let before = standing_at(standings, number);
    let max = max_attempts(setup, number);
    let host_up = is_host_up(setup, standings, number, found);
    verdict(before, found, max, host_up, flapping)
}

/// Whether the host of the object with this number isn't down. The result is true for an object without a
/// host. Only a verdict on a problem uses it: for another state it is true, and no host's standing is read.
fn is_host_up(setup: &Setup, standings: &[Standing], number: u32, found: State) -> bool
    requires in_range { number < object_count setup.now }
    requires one_each { length standings.now ≡ object_count setup.now }
    requires valid_setup { IsSetup setup.now }
    ensures { is_problem found ≡ true → result ≡ is_host_up (host_of setup.now number) standings.now }
{
    if !found.is_problem() {
        return true;
    }
    match setup.host_of(number) {
        None => true,
        Some(host) => !standing_at(standings, host).is_down(),
    }
}

/// The standing of the object with this number.
fn standing_at(standings: &[Standing], number: u32) -> Standing
    requires { number < length standings.now }
    ensures { result ≡ standing_at standings.now number }
{
    standings[number as usize]
}

/// The maximum of check attempts of the object with this number.
fn max_attempts(setup: &Setup, number: u32) -> u8
    requires in_range { number < object_count setup.now }
    requires valid_setup { IsSetup setup.now }
    ensures value { result ≡ max_attempts_of setup.now number }
    ensures nonempty { 1 ≤ result }
{
    attempts_of(setup.object(number))
}

/// The maximum of check attempts of an object whose numbers are in their ranges.
pub(crate) fn attempts_of(object: &Object) -> u8
    requires { object.now.max_check_attempts ≤ 255 }
    ensures { result ≡ object.now.max_check_attempts }
{
    object.max_check_attempts as u8
}

/// Whether the state differs from the one before.
pub(crate) fn is_changed(before: Standing, after: Standing) -> bool
    ensures { result ≡ is_another_state after.state before.state }
{
    after.state != before.state
}
