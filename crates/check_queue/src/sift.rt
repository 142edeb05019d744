//! Moves of an entry up and down the heap. The children of position i are 2i + 1 and 2i + 2.
//!
//! Entries aren't swapped. The entry that moves is held outside the heap, and its position is a hole. Other
//! entries move into the hole, one by one, and the held entry is written once, at the end.

ghost use Rattle.std.specs.Prelude.{◌≡◌, ◌+◌, ◌-◌, ◌*◌, ◌<◌, ◌≤◌, ◌^◌, Some, length, slice_set};
ghost use Rattle.check_queue.specs.Heap.{FitsBelow, HasHole, IsFirstChild, IsOrdered};
ghost use Rattle.check_queue.specs.Positions.{IsAbsent, times_in};

use crate::entry::{Entry, is_before};

/// The stored position of a number without a time. No heap is as long as this, since there are at most
/// `u32::MAX` numbers.
pub(crate) const ABSENT: u32 = u32::MAX;

/// Writes an entry to a position, and the position to the entry's number.
fn put_at(entries: &mut [Entry], positions: &mut [u32], position: usize, entry: Entry)
    requires position { position < length entries.old }
    requires number { entry.number < length positions.old }
    requires bounded { length entries.old < 2 ^ 32 }
    ensures entries { entries.new ≡ slice_set entries.old position entry }
    ensures positions { positions.new ≡ slice_set positions.old entry.number position }
{
    entries[position] = entry;
    positions[entry.number as usize] = position as u32;
}

/// The position of the first child of `hole` in the order of entries.
fn first_child(entries: &[Entry], len: usize, hole: usize) -> usize
    requires capacity { len ≤ length entries.now }
    requires bounded { length entries.now < 2 ^ 32 }
    requires children { 2 * hole + 2 < len }
    ensures { IsFirstChild entries.now len hole result }
{
    let left = 2 * hole + 1;
    left + usize::from(is_before(entries[left + 1], entries[left]))
}

/// Moves the hole up until `held` fits, and puts `held` there.
pub(crate) fn sift_up(
    entries: &mut [Entry],
    positions: &mut [u32],
    len: usize,
    mut hole: usize,
    held: Entry,
)
    requires around { HasHole entries.old positions.old len hole }
    requires below { FitsBelow entries.old len hole held }
    requires outside { IsAbsent positions.old held.number }
    ensures ordered { IsOrdered entries.new positions.new len }
    ensures times { times_in entries.new positions.new ≡ slice_set (times_in entries.old positions.old) held.number (Some held.time) }
{
    while 0 < hole {
        let parent = (hole - 1) / 2;
        let above = entries[parent];
        if !is_before(held, above) {
            break;
        }
        put_at(entries, positions, hole, above);
        hole = parent;
    }
    put_at(entries, positions, hole, held);
}

/// Closes the hole with the last entry, so that the heap is one entry shorter. The hole moves down until it
/// doesn't have two children. Then the last entry, which mostly belongs low, rises until it fits. If the hole
/// reached the last position, the last entry has moved already, or was the one removed.
pub(crate) fn close_hole(entries: &mut [Entry], positions: &mut [u32], len: usize, mut hole: usize)
    requires { HasHole entries.old positions.old len hole }
    ensures ordered { IsOrdered entries.new positions.new (len - 1) }
    ensures times { times_in entries.new positions.new ≡ times_in entries.old positions.old }
{
    while hole < (len - 1) / 2 {
        let child = first_child(entries, len, hole);
        let below = entries[child];
        put_at(entries, positions, hole, below);
        hole = child;
    }
    if hole < len - 1 {
        let last = entries[len - 1];
        positions[last.number as usize] = ABSENT;
        sift_up(entries, positions, len - 1, hole, last);
    }
}
