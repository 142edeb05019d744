//! The last results of an object, with the weight of the changes among them. So one more result needs no scan
//! of all results.

ghost use Rattle.std.specs.Prelude.{◌≡◌, ◌≤◌, [], IfOk, IsTrue, length};
ghost use Rattle.check_states.specs.Flapping.{is_flapping, results_after, percent_of};

use crate::changes::Changes;
use crate::flapping::{STORED_RESULTS, flaps, flaps_at};
use crate::state::State;
use circular_buffer::HeapCircularBuffer;
use std::alloc::{AllocError, Global};
use std::marker::Model;

/// The last results of an object, at most 21. Contracts see them as a list, the oldest first.
///
/// When one more result is added to 21, the change between the two oldest goes with its weight of 57. Each
/// other change weighs 2 less. The new change, if there is one, weighs 95.
#[derive(Drop)]
pub struct LastResults {
    /// The results, with room for 21.
    kept: HeapCircularBuffer<State>,
    /// The changes among 21 results. Nothing reads it while there are fewer results.
    changes: Changes,
    /// The newest result, if there is one.
    newest: State,
}

impl Model for LastResults {
    ghost use Rattle.std.specs.Prelude.{List};
    ghost use Rattle.check_states.specs.declared.state.State.{State};

    ghost Value = { List State };

    ghost use Rattle.check_states.specs.LastResults.{results_view, IsWellFormed};

    ghost view = { results_view };

    ghost invariant = { IsWellFormed };
}

impl LastResults {
    /// No results, with room for all that will be stored. An Err means out of memory.
    pub fn empty(alloc: Global) -> Result<LastResults, AllocError>
        ensures { IfOk result (λ results. results ≡ []) }
    {
        LastResults::of(alloc, &[])
    }

    /// These results, the oldest first, with room for all that will be stored. An Err means out of memory.
    pub fn of(alloc: Global, results: &[State]) -> Result<LastResults, AllocError>
        requires { length results.now ≤ STORED_RESULTS }
        ensures { IfOk result (λ kept. kept ≡ results.now) }
    {
        let mut kept = HeapCircularBuffer::with_capacity(alloc, STORED_RESULTS)?;
        kept.extend_from_slice(results);
        let changes = Changes::among(&kept);
        Ok(LastResults {
            kept,
            changes,
            newest: results.last().copied().unwrap_or(State::Ok),
        })
    }

    /// A copy of the results, the oldest first. An Err means out of memory.
    pub fn to_vec(&self, alloc: Global) -> Result<Vec<State>, AllocError>
        ensures { IfOk result (λ copy. copy.items ≡ self.now) }
    {
        self.kept.to_vec(alloc)
    }

    /// Stores one more result, which pushes out the oldest of 21. Returns whether the object flaps with the
    /// stored results, as [`flaps`](crate::flaps) does. `was` says whether it flapped before, and `low` and
    /// `high` are the thresholds in percents. The call needs no memory.
    pub fn push(&mut self, found: State, was: bool, low: u8, high: u8) -> bool
        ensures kept { self.new ≡ results_after self.old found }
        ensures flaps { result ≡ is_flapping (results_after self.old found) was low high }
    {
        if self.are_all(found) {
            flaps_at(0, was, low, high)
        } else {
            self.push_and_count(found, was, low, high)
        }
    }

    /// Stores one more result, as [`LastResults::push`] does, for any results.
    // Only `push` calls it. A call of its own would save registers and load fields again.
    #[inline(always)]
    fn push_and_count(&mut self, found: State, was: bool, low: u8, high: u8) -> bool
        ensures kept { self.new ≡ results_after self.old found }
        ensures flaps { result ≡ is_flapping (results_after self.old found) was low high }
    {
        let Some(oldest) = self.kept.push_back(found) else {
            self.newest = found;
            if self.kept.is_full() {
                self.changes = Changes::among(&self.kept);
            }
            return flaps(&self.kept, was, low, high);
        };
        let second = self.kept.front().copied().unwrap_or(oldest);
        let loses_change = second.is_another(oldest);
        let gains_change = found.is_another(self.newest);
        self.changes = self.changes.after(loses_change, gains_change);
        self.newest = found;
        flaps_at(self.changes.percent(), was, low, high)
    }

    /// Whether there are 21 results, and all are this state. Then one more result of this state leaves them
    /// as they are.
    pub fn are_all(&self, found: State) -> bool
        ensures kept { IsTrue result → results_after self.now found ≡ self.now }
        ensures percent { IsTrue result → percent_of self.now ≡ 0 }
    {
        if self.changes.count > 0 || found.is_another(self.newest) {
            return false;
        }
        self.kept.is_full()
    }
}
