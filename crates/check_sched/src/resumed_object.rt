//! Each object of a setup after a resume: it is kept if its name was saved, and otherwise new.

ghost use Rattle.std.specs.Prelude.{◌≡◌, ◌≤◌, option_map};
ghost use Rattle.check_objects.specs.Configuration.{IsSetup};
ghost use Rattle.check_sched.specs.Saved.{is_same_switch, keeps_time, scheduling_kept, scheduling_after_resume, soft_kept, standing_kept};
ghost use Rattle.check_sched.specs.Saved.{standing_after_resume};

use crate::object_state::ObjectState;
use crate::report::attempts_of;
use check_objects::{MAX_INTERVAL, Object, Setup};
use check_saved_state::SavedObject;
use check_spread::milliseconds;
use check_states::{Kind, Standing, earlier, pending};

/// The scheduling of an object whose first time by the spread is `first`. A new object begins as at an
/// opening.
pub(crate) fn scheduling(
    setup: &Setup,
    object: &Object,
    first: Option<u64>,
    kept: Option<&SavedObject>,
) -> ObjectState
    requires valid_setup { IsSetup setup.now }
    requires interval { object.now.check_interval ≤ MAX_INTERVAL }
    ensures { result ≡ scheduling_after_resume setup.now first object.now (option_map (λ o. o.now) kept.entry) }
{
    match kept {
        Some(saved) => scheduling_kept(setup, object, first, saved),
        None => ObjectState::opening(first, object.enabled),
    }
}

/// The scheduling of an object that is kept. If both setups have the same switch for the object, its switch
/// stays as an operator set it. If they differ, this setup's switch applies.
fn scheduling_kept(
    setup: &Setup,
    object: &Object,
    first: Option<u64>,
    saved: &SavedObject,
) -> ObjectState
    requires valid_setup { IsSetup setup.now }
    requires interval { object.now.check_interval ≤ MAX_INTERVAL }
    ensures { result ≡ scheduling_kept setup.now first object.now saved.now }
{
    let next = if keeps_time(setup, object, saved) {
        saved.next
    } else {
        earlier(saved.next, first)
    };
    let enabled = if is_same_switch(object.enabled, saved.setup_enabled) {
        saved.enabled
    } else {
        object.enabled
    };
    ObjectState::saved(next, saved.run, enabled, saved.forced)
}

/// Whether the saved next time stays. It does if the check interval and the setup's switch are unchanged, if
/// a check is running, or if the next check is forced.
fn keeps_time(setup: &Setup, object: &Object, saved: &SavedObject) -> bool
    requires valid_setup { IsSetup setup.now }
    requires interval { object.now.check_interval ≤ MAX_INTERVAL }
    ensures { result ≡ keeps_time setup.now object.now saved.now }
{
    if saved.run.is_some() || saved.forced {
        return true;
    }
    milliseconds(setup, object.check_interval) == saved.interval
        && is_same_switch(object.enabled, saved.setup_enabled)
}

/// Whether two switches are equal.
fn is_same_switch(one: bool, other: bool) -> bool
    ensures { result ≡ is_same_switch one other }
{
    one == other
}

/// The standing of an object, a host or a service. The standing of a new object is pending.
pub(crate) fn standing(host: bool, object: &Object, kept: Option<&SavedObject>) -> Standing
    requires nonempty { 1 ≤ object.now.max_check_attempts }
    requires bounded { object.now.max_check_attempts ≤ 255 }
    ensures { result ≡ standing_after_resume host object.now (option_map (λ o. o.now) kept.entry) }
{
    match kept {
        Some(saved) => standing_kept(saved.standing, attempts_of(object)),
        None => pending(host),
    }
}

/// The standing of an object that is kept, with its new maximum of attempts. A hard problem gets the
/// maximum as its attempt. OK and UP keep their attempt, up to the maximum.
fn standing_kept(was: Standing, max: u8) -> Standing
    requires { 1 ≤ max }
    ensures { result ≡ standing_kept max was }
{
    if was.is_soft_problem() {
        return soft_kept(was, max);
    }
    let attempt = if was.state.is_problem() {
        max
    } else {
        was.attempt.min(max)
    };
    Standing { attempt, ..was }
}

/// The standing of a soft problem that is kept, with its new maximum of attempts. It stays soft, with an
/// attempt below the maximum. If the maximum is 1, it becomes hard.
fn soft_kept(was: Standing, max: u8) -> Standing
    requires { 1 ≤ max }
    ensures { result ≡ soft_kept max was }
{
    if max == 1 {
        return Standing {
            kind: Kind::Hard,
            attempt: 1,
            last_hard: was.state,
            ..was
        };
    }
    Standing {
        attempt: was.attempt.min(max - 1),
        ..was
    }
}
