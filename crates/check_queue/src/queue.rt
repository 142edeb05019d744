//! The queue.

ghost use Rattle.std.specs.Prelude.{◌≡◌, ◌<◌, ℕ, IfOk, IfSome, MatchOption, Some, None, is_some, replicate, length, slice_set, slice_index_or};
ghost use Rattle.check_queue.specs.Order.{least};
ghost use Rattle.check_queue.specs.Positions.{position_of};
ghost use Rattle.check_queue.specs.Times.{pairs_of};

use crate::entry::Entry;
use crate::sift::{ABSENT, close_hole, sift_up};
use std::alloc::{AllocError, Global};
use std::marker::Model;

/// The numbers from 0 on, below a bound, each with or without a time. Contracts see the queue as the list of
/// these times, by number. (Our own profile.)
#[derive(Drop)]
pub struct Queue {
    /// The heap. Its first `len` entries are those of the numbers that have a time.
    entries: Vec<Entry>,
    /// The position in the heap of each number, by number. It is `ABSENT` if the number has no time.
    positions: Vec<u32>,
    /// The number of numbers that have a time.
    len: usize,
}

impl Model for Queue {
    ghost use Rattle.std.specs.Prelude.{ℕ, List, Option};

    ghost Value = { List (Option ℕ) };

    ghost use Rattle.check_queue.specs.WellFormed.{times_of, IsWellFormed};

    ghost view = { times_of };

    ghost invariant = { IsWellFormed };
}

impl Queue {
    /// A queue of the numbers below `n`, all without a time.
    ///
    /// An Err means out of memory. Only this call needs memory.
    pub fn new(alloc: Global, n: u32) -> Result<Queue, AllocError>
        ensures { IfOk result (λ queue. queue ≡ replicate n None) }
    {
        let entries = vec![in alloc; Entry { time: 0, number: 0 }; n as usize]?;
        let positions = vec![in alloc; ABSENT; n as usize]?;
        Ok(Queue {
            entries,
            positions,
            len: 0,
        })
    }

    /// The time of a number. None if the number has no time, or isn't below the bound.
    pub fn time_of(&self, number: u32) -> Option<u64>
        ensures { result ≡ slice_index_or self.now number None }
    {
        let position = position_of(&self.positions, number)?;
        Some(self.entries[position].time)
    }

    /// The least time and its number. At equal times it is the least number. None if no number has a time.
    pub fn first(&self) -> Option<(u64, u32)>
        ensures least { result ≡ least (pairs_of self.now) }
        ensures present { MatchOption result
            ((number : ℕ) → slice_index_or self.now number None ≡ None)
            (λ first. slice_index_or self.now first.1 None ≡ Some first.0) }
        ensures within { IfSome result (λ first. first.1 < length self.now) }
    {
        if self.len == 0 {
            return None;
        }
        let first = self.entries[0];
        Some((first.time, first.number as u32))
    }

    /// Gives a number this time, which replaces any earlier time. All other numbers stay as they are.
    pub fn put(&mut self, number: u32, time: u64)
        requires { number < length self.old }
        ensures { self.new ≡ slice_set self.old number (Some time) }
    {
        let entry = Entry {
            time,
            number: number as u64,
        };
        self.remove(number);
        let end = self.len;
        self.len += 1;
        sift_up(&mut self.entries, &mut self.positions, self.len, end, entry);
    }

    /// Removes the time of a number, and returns whether it had one. All other numbers stay as they are. If
    /// the number isn't below the bound, the whole queue does.
    pub fn remove(&mut self, number: u32) -> bool
        ensures was_present { result ≡ is_some (slice_index_or self.old number None) }
        ensures after { self.new ≡ slice_set self.old number None }
    {
        let Some(hole) = position_of(&self.positions, number) else {
            return false;
        };
        self.positions[number as usize] = ABSENT;
        let len = self.len;
        self.len -= 1;
        close_hole(&mut self.entries, &mut self.positions, len, hole);
        true
    }
}

/// The position of a number. None if the number isn't in the heap, or isn't below the bound.
fn position_of(positions: &[u32], number: u32) -> Option<usize>
    ensures { result ≡ position_of positions.now number }
{
    let position = *positions.get(number as usize)?;
    if position == ABSENT {
        None
    } else {
        Some(position as usize)
    }
}
