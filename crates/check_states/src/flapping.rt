//! Flapping: whether the state of an object keeps changing. (Manual: "Detection and Handling of State
//! Flapping". Our own profile defines the weights, and lets flapping also start at a percentage equal to the
//! high threshold.)

ghost use Rattle.std.specs.Prelude.{◌≡◌, ◌≤◌, nat_le, nat_lt, not, if◌then◌else◌};
ghost use Rattle.check_states.specs.Flapping.{is_flapping, percent_of};

use crate::changes::Changes;
use crate::state::State;
use circular_buffer::HeapCircularBuffer;

/// The number of an object's last results that are stored. There are at most 20 changes among them.
pub const STORED_RESULTS: usize = 21;

/// How much the state of an object changed over its last 21 results, in whole percents, rounded down. It is 0
/// until there are 21 results.
///
/// The changes are numbered from the oldest, 0 to 19. Change i takes place if result i + 1 differs from
/// result i. It weighs 57 + 2i, and all changes together weigh 1,520. (Our own profile, after the manual's
/// "Detection and Handling of State Flapping".)
pub fn percent(results: &HeapCircularBuffer<State>) -> u8
    requires capacity { results.now.capacity ≡ STORED_RESULTS }
    ensures value { result ≡ percent_of results.now.items }
    ensures within { result ≤ 100 }
{
    if results.is_full() {
        Changes::among(results).percent()
    } else {
        0
    }
}

/// Whether an object flaps after a result. `results` are its last 21 with that one, and `was` says whether it
/// flapped before. An object that didn't flap begins at a percentage of at least `high`. An object that did
/// flap stops below `low`.
///
/// With a high threshold of 0 an object flaps from its first result on. (Manual: "Detection and Handling of
/// State Flapping"; in our own profile flapping starts at a percentage equal to the high threshold too.)
pub fn flaps(results: &HeapCircularBuffer<State>, was: bool, low: u8, high: u8) -> bool
    requires { results.now.capacity ≡ STORED_RESULTS }
    ensures { result ≡ is_flapping results.now.items was low high }
{
    flaps_at(percent(results), was, low, high)
}

/// Whether an object flaps if its results have this percentage.
pub(crate) fn flaps_at(percent: u8, was: bool, low: u8, high: u8) -> bool
    ensures { result ≡ (if was then not (nat_lt percent low) else nat_le high percent) }
{
    if was { percent >= low } else { percent >= high }
}
