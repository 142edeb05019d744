//! The limits of moments and times, and the earlier of two times.

ghost use Rattle.std.specs.Prelude.{◌≡◌, ◌^◌};
ghost use Rattle.check_states.specs.declared.times.TheConstants.{LAST_MOMENT, LAST_TIME, MINUTE};
ghost use Rattle.check_states.specs.Times.{earlier};

/// The greatest moment that a clock can show, in milliseconds.
pub const LAST_MOMENT: u64 = 1 << 60;

/// The time up to which checks are set, in milliseconds.
pub const LAST_TIME: u64 = 1 << 61;

/// The number of milliseconds in a minute.
pub const MINUTE: u64 = 60_000;

/// The limits of moments and times, as numbers of milliseconds. (Our own profile.)
pub fn limits_of_times()
    ensures moment { LAST_MOMENT ≡ 2 ^ 60 }
    ensures time { LAST_TIME ≡ 2 ^ 61 }
    ensures minute { MINUTE ≡ 60000 }
{}

/// The earlier of two times, or the only one. None if neither is given.
pub fn earlier(one: Option<u64>, other: Option<u64>) -> Option<u64>
    ensures { result ≡ earlier one other }
{
    match (one, other) {
        (Some(one), Some(other)) => Some(one.min(other)),
        (Some(one), None) => Some(one),
        (None, other) => other,
    }
}
