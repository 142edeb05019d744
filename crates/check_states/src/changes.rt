//! The changes among the last results of an object: their number, and their total weight.
//! (Our own profile, after the manual's "Detection and Handling of State Flapping".)

ghost use Rattle.std.specs.Prelude.{◌≡◌, ◌+◌, ◌-◌, ◌*◌, ◌/◌, ◌≤◌, length};
ghost use Rattle.check_states.specs.Board.{flag};
ghost use Rattle.check_states.specs.Changes.{changes_after, changes_in, weight_after};
ghost use Rattle.check_states.specs.Flapping.{changes_weight};

use crate::flapping::STORED_RESULTS;
use crate::state::State;
use circular_buffer::HeapCircularBuffer;

/// The weight of the oldest of 20 changes. Each newer change weighs `WEIGHT_STEP` more.
const OLDEST_WEIGHT: u16 = 57;

const WEIGHT_STEP: u16 = 2;

/// The weight of the newest of 20 changes.
const NEWEST_WEIGHT: u16 = 95;

/// The total weight of 20 changes.
const WEIGHT_OF_ALL: u16 = 1520;

/// The changes among some results.
#[derive(Clone, Copy)]
pub(crate) struct Changes {
    /// Their total weight.
    pub(crate) weight: u16,
    /// Their number.
    pub(crate) count: u16,
}

impl Changes {
    /// The changes among these results. The two parts of the ring are scanned one after the other, each from
    /// the result before it. The oldest result counts as its own predecessor.
    // A separate call, since a report scans the results only until there are 21.
    #[inline(never)]
    pub(crate) fn among(results: &HeapCircularBuffer<State>) -> Changes
        requires { length results.now.items ≤ STORED_RESULTS }
        ensures weight { result.weight ≡ changes_weight results.now.items }
        ensures count { result.count ≡ changes_in results.now.items }
    {
        let Some(oldest) = results.front() else {
            return Changes {
                weight: 0,
                count: 0,
            };
        };
        let (older, newer) = results.as_slices();
        let before_newer = older.last().copied().unwrap_or(*oldest);
        let first_of_newer = OLDEST_WEIGHT - WEIGHT_STEP + WEIGHT_STEP * older.len() as u16;
        let among_older = changes_after(*oldest, older, OLDEST_WEIGHT - WEIGHT_STEP);
        let among_newer = changes_after(before_newer, newer, first_of_newer);
        Changes {
            weight: among_older.weight + among_newer.weight,
            count: among_older.count + among_newer.count,
        }
    }

    /// The changes after one more result, which pushes out the oldest of 21. `loses_change` says whether a change is
    /// pushed out with the oldest result. `gains_change` says whether the new result is a change. Each change that
    /// stays weighs 2 less.
    pub(crate) fn after(self, loses_change: bool, gains_change: bool) -> Changes
        requires in_range { flag loses_change ≤ self.count }
        requires bounded { self.count ≤ 20 }
        requires lower_bound { 57 * flag loses_change + 2 * (self.count - flag loses_change) ≤ self.weight }
        requires upper_bound { self.weight ≤ 1520 }
        ensures weight { result.weight + 57 * flag loses_change + 2 * (self.count - flag loses_change) ≡ self.weight + 95 * flag gains_change }
        ensures count { result.count + flag loses_change ≡ self.count + flag gains_change }
    {
        let gone = u16::from(loses_change);
        let new = u16::from(gains_change);
        let stay = self.count - gone;
        Changes {
            weight: self.weight - OLDEST_WEIGHT * gone - WEIGHT_STEP * stay + NEWEST_WEIGHT * new,
            count: stay + new,
        }
    }

    /// Their weight as a share of the weight of all 20 changes, in whole percents, rounded down.
    pub(crate) fn percent(self) -> u8
        requires { self.weight ≤ 1520 }
        ensures value { result ≡ 100 * self.weight / 1520 }
        ensures within { result ≤ 100 }
    {
        (100 * u32::from(self.weight) / u32::from(WEIGHT_OF_ALL)) as u8
    }
}

/// The changes from the result `before` to the last of `results`. A change to the first of `results`
/// weighs `weight`.
fn changes_after(before: State, results: &[State], weight: u16) -> Changes
    requires bounded { length results.now ≤ STORED_RESULTS }
    requires upper_bound { weight ≤ 100 }
    ensures weight { result.weight ≡ weight_after before results.now weight }
    ensures count { result.count ≡ changes_after before results.now }
{
    let mut changes = Changes {
        weight: 0,
        count: 0,
    };
    let mut last = before;
    let mut next_weight = weight;
    for found in results {
        if found.is_another(last) {
            changes.weight += next_weight;
            changes.count += 1;
        }
        last = *found;
        next_weight += WEIGHT_STEP;
    }
    changes
}
