//! The last results of each object, which decide whether it flaps.

ghost use Rattle.std.specs.Prelude.{◌≡◌, ◌<◌, List, [], IfOk, length, replicate, true};
ghost use Rattle.check_states.specs.declared.state.State.{State};
ghost use Rattle.check_states.specs.Flapping.{is_flapping, results_after};
ghost use Rattle.check_sched.specs.State.{results_at};
ghost use Rattle.check_sched.specs.Step.{update_at};

use check_states::{LastResults, State};
use std::alloc::{AllocError, Global};
use std::marker::Model;

/// The last results of each object, as many as flapping depends on. Contracts see them as a list of results
/// for each object by number, the oldest first.
#[derive(Drop)]
pub(crate) struct Results {
    /// The results of each object by its number.
    by_number: Vec<LastResults>,
}

impl Model for Results {
    ghost Value = { List (List State) };

    ghost view = { λ results. results.by_number.items };
}

impl Results {
    /// An empty list of results for each of `count` objects, with room for all that will be stored.
    ///
    /// An Err means out of memory. Adding results later needs no memory.
    pub(crate) fn empty(alloc: Global, count: usize) -> Result<Results, AllocError>
        ensures { IfOk result (λ results. results ≡ replicate count []) }
    {
        let mut by_number = Vec::with_capacity(alloc, count)?;
        for _number in 0..count {
            let results = LastResults::empty(alloc)?;
            by_number.push(results)?;
        }
        Ok(Results { by_number })
    }

    /// The results in these lists, one for each object by number, the oldest first.
    pub(crate) fn of(by_number: Vec<LastResults>) -> Results
        ensures { result ≡ by_number.items }
    {
        Results { by_number }
    }

    /// A copy of the results of the object with this number, the oldest first. An Err means out of
    /// memory.
    pub(crate) fn copy(&self, alloc: Global, number: u32) -> Result<Vec<State>, AllocError>
        requires { number < length self.now }
        ensures { IfOk result (λ copy. copy.items ≡ results_at self.now number) }
    {
        self.by_number[number as usize].to_vec(alloc)
    }

    /// Stores one more result of the object with this number, and returns whether the object flaps with it.
    /// `was` says whether the object flapped before. `thresholds` are the low and the high threshold in
    /// percents. (Manual: "Detection and Handling of State Flapping".)
    pub(crate) fn add(&mut self, number: u32, found: State, was: bool, thresholds: (u8, u8)) -> bool
        requires { number < length self.old }
        ensures kept { self.new ≡ update_at number (λ results. results_after results found) self.old }
        ensures flaps { result ≡ is_flapping (results_after (results_at self.old number) found) was thresholds.0 thresholds.1 }
    {
        let (low, high) = thresholds;
        self.by_number[number as usize].push(found, was, low, high)
    }

    /// Whether the object with this number has as many results as are stored, and all are this state. Then
    /// one more result of this state leaves them as they are.
    pub(crate) fn are_all(&self, number: u32, state: State) -> bool
        requires { number < length self.now }
        ensures { result ≡ true → results_after (results_at self.now number) state ≡ results_at self.now number }
    {
        self.by_number[number as usize].are_all(state)
    }
}
