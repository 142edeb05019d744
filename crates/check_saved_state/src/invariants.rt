//! Tests whether saved objects are possible in a scheduler.

ghost use Rattle.std.specs.Prelude.{◌≡◌, IfOk, IsOkUnless, map, not, position};
ghost use Rattle.std.specs.List.{list_all};
ghost use Rattle.setup_model.specs.Keys.{first_repeat};
ghost use Rattle.check_states.specs.State.{is_of_sort};
ghost use Rattle.check_saved_state.specs.SavedFault.{IsExpectedResult};
ghost use Rattle.check_saved_state.specs.Scheduling.{is_timed};
ghost use Rattle.check_saved_state.specs.Verification.{is_possible, are_possible_results, is_possible_standing, is_like_pending};
ghost use Rattle.check_states.specs.Times.{earlier};
ghost use Rattle.check_saved_state.specs.Verification.{has_valid_run, is_same_run, possible_objects_test, run_number};

use crate::fault::SavedFault;
use crate::name::is_host_name;
use crate::saved::{SavedObject, SavedRun};
use check_states::{Kind, STORED_RESULTS, Standing, State, lawful};
use indexmap::IndexSet;
use std::alloc::Global;

/// Tests that each of these objects is possible in a scheduler that handed out `runs` runs, and that no two
/// of them run under the same number. An error names the first object that fails.
pub(crate) fn verify_possible(
    alloc: Global,
    runs: u64,
    objects: &[SavedObject],
) -> Result<(), SavedFault>
    ensures { IsExpectedResult (λ u. u) result (possible_objects_test runs objects.now) }
{
    match earlier(
        first_impossible(runs, objects),
        first_repeated_run(alloc, objects)?,
    ) {
        Some(index) => Err(SavedFault::Unlawful(index)),
        None => Ok(()),
    }
}

/// The earlier of two places, or the only one. None if neither is given.
fn earlier(one: Option<usize>, other: Option<usize>) -> Option<usize>
    ensures { result ≡ earlier one other }
{
    match (one, other) {
        (Some(one), Some(other)) => Some(one.min(other)),
        (Some(one), None) => Some(one),
        (None, other) => other,
    }
}

fn first_impossible(runs: u64, objects: &[SavedObject]) -> Option<usize>
    ensures { result ≡ position (λ o. not (is_possible runs o)) objects.now }
{
    objects.iter().position(|object| !is_possible(runs, object))
}

/// The first object that runs under the number of an earlier one.
fn first_repeated_run(alloc: Global, objects: &[SavedObject]) -> Result<Option<usize>, SavedFault>
    ensures place { IfOk result (λ place. place
        ≡ first_repeat is_same_run (map run_number objects.now)) }
    ensures memory { IsOkUnless result SavedFault.Memory }
{
    let mut numbers = IndexSet::with_capacity(alloc, objects.len())?;
    for (index, object) in objects.iter().enumerate() {
        if let Some(number) = run_number(object) {
            if !numbers.insert(number)? {
                return Ok(Some(index));
            }
        }
    }
    Ok(None)
}

/// The number of the object's run, if its check is running.
fn run_number(object: &SavedObject) -> Option<u64>
    ensures { result ≡ run_number object.now }
{
    object.run.map(|run| run.number)
}

fn is_possible(runs: u64, object: &SavedObject) -> bool
    ensures { result ≡ is_possible runs object.now }
{
    let host = is_host_name(object.name.as_str());
    is_possible_standing(host, object.max_attempts, object.standing)
        && are_possible_results(host, &object.results)
        && has_valid_run(runs, object.run)
        && is_timed(object.next, object.forced)
}

fn is_possible_standing(host: bool, max: u8, standing: Standing) -> bool
    ensures { result ≡ is_possible_standing host max standing }
{
    lawful(standing, max)
        && is_of_sort(host, standing.state)
        && is_of_sort(host, standing.last_hard)
        && (standing.checked || is_like_pending(standing))
}

/// Whether a standing is that of an object that was never checked, except for the sort of its states.
fn is_like_pending(standing: Standing) -> bool
    ensures { result ≡ is_like_pending standing }
{
    !standing.state.is_problem()
        && matches!(standing.kind, Kind::Hard)
        && standing.attempt == 1
        && !standing.last_hard.is_problem()
        && !standing.flapping
}

fn is_of_sort(host: bool, state: State) -> bool
    ensures { result ≡ is_of_sort host state }
{
    if host {
        state.is_host()
    } else {
        !state.is_host()
    }
}

fn are_possible_results(host: bool, results: &[State]) -> bool
    ensures { result ≡ are_possible_results host results.now }
{
    results.len() <= STORED_RESULTS && are_of_sort(host, results)
}

fn are_of_sort(host: bool, results: &[State]) -> bool
    ensures { result ≡ list_all (is_of_sort host) results.now }
{
    results.iter().all(|state| is_of_sort(host, *state))
}

fn has_valid_run(runs: u64, run: Option<SavedRun>) -> bool
    ensures { result ≡ has_valid_run runs run }
{
    match run {
        Some(run) => 1 <= run.number && run.number <= runs,
        None => true,
    }
}

/// Whether an object that is forced has a next time.
fn is_timed(next: Option<u64>, forced: bool) -> bool
    ensures { result ≡ is_timed next forced }
{
    next.is_some() || !forced
}
