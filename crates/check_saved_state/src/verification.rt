//! Verifies a draft: counts, names, repeats, limits. Each test covers the whole draft before the next test
//! begins, and reports the first object with a fault.

ghost use Rattle.std.specs.Prelude.{◌≡◌, ◌≤◌, All, IfNone, IsTrue, OnOk, bytes_eq, length, map, not, position};
ghost use Rattle.check_saved_state.specs.SavedFault.{IsExpectedResult};
ghost use Rattle.check_saved_state.specs.Scheduling.{is_in_time, is_moment, is_time};
ghost use Rattle.check_saved_state.specs.Verification.{HasBoundedAttempts, distinct_names_test, object_count_test, names_test, ranges_test};
ghost use Rattle.check_saved_state.specs.Verification.{is_attempt, is_full_name, is_in_range, draft_test};

use crate::draft::{ObjectDraft, SavedDraft, SchedulingDraft};
use crate::fault::SavedFault;
use crate::name::is_full_name;
use crate::saved::{LONGEST_INTERVAL, MAX_RUNS, SavedRun};
use check_states::{LAST_MOMENT, LAST_TIME};
use indexmap::IndexSet;
use setup_model::{MAX_ATTEMPTS, MAX_OBJECTS};
use std::alloc::Global;

/// Tests that a draft has at most 4,096 objects, each with a name of its own, and numbers within their
/// limits. An error is the first fault.
pub(crate) fn verify_draft(alloc: Global, draft: &SavedDraft<'_>) -> Result<(), SavedFault>
    ensures exact { IsExpectedResult (λ u. u) result (draft_test draft.now) }
    ensures bounded { OnOk result (All HasBoundedAttempts draft.now.objects) }
{
    verify_count(&draft.objects)?;
    verify_names(&draft.objects)?;
    verify_distinct(alloc, &draft.objects)?;
    verify_ranges(draft)
}

fn verify_count(objects: &[ObjectDraft<'_>]) -> Result<(), SavedFault>
    ensures { result ≡ object_count_test objects.now }
{
    if objects.len() > MAX_OBJECTS {
        return Err(SavedFault::TooMany);
    }
    Ok(())
}

// ---- names

fn verify_names(objects: &[ObjectDraft<'_>]) -> Result<(), SavedFault>
    ensures { result ≡ names_test objects.now }
{
    match first_bad_name(objects) {
        Some(index) => Err(SavedFault::BadName(index)),
        None => Ok(()),
    }
}

fn first_bad_name(objects: &[ObjectDraft<'_>]) -> Option<usize>
    ensures { result ≡ position (λ o. not (is_full_name o.name)) objects.now }
{
    objects.iter().position(|object| !is_full_name(object.name))
}

fn verify_distinct(alloc: Global, objects: &[ObjectDraft<'_>]) -> Result<(), SavedFault>
    ensures { IsExpectedResult (λ u. u) result (distinct_names_test objects.now) }
{
    let mut names = IndexSet::with_capacity(alloc, objects.len())?;
    for (index, object) in objects.iter().enumerate() {
        if !names.insert(object.name)? {
            return Err(SavedFault::Duplicate(index));
        }
    }
    Ok(())
}

// ---- limits

fn verify_ranges(draft: &SavedDraft<'_>) -> Result<(), SavedFault>
    ensures exact { result ≡ ranges_test draft.now }
    ensures bounded { OnOk result (All HasBoundedAttempts draft.now.objects) }
{
    if draft.start > LAST_MOMENT || draft.runs > MAX_RUNS {
        return Err(SavedFault::Range(None));
    }
    match first_out_of_range(&draft.objects) {
        Some(index) => Err(SavedFault::Range(Some(index))),
        None => Ok(()),
    }
}

fn first_out_of_range(objects: &[ObjectDraft<'_>]) -> Option<usize>
    ensures place { result ≡ position (λ o. not (is_in_range o)) objects.now }
    ensures bounded { IfNone result (All HasBoundedAttempts objects.now) }
{
    objects.iter().position(|object| !is_in_range(object))
}

fn is_in_range(object: &ObjectDraft<'_>) -> bool
    ensures test { result ≡ is_in_range object.now }
    ensures bounded { IsTrue result → HasBoundedAttempts object.now }
{
    is_attempt(object.standing.attempt)
        && is_attempt(object.max_attempts)
        && is_in_time(object.scheduling)
        && object.interval <= LONGEST_INTERVAL
}

fn is_attempt(number: u64) -> bool
    ensures { result ≡ is_attempt number }
{
    1 <= number && number <= MAX_ATTEMPTS
}

fn is_in_time(scheduling: SchedulingDraft) -> bool
    ensures { result ≡ is_in_time scheduling }
{
    is_time(scheduling.next) && is_moment(scheduling.run)
}

fn is_time(time: Option<u64>) -> bool
    ensures { result ≡ is_time time }
{
    match time {
        Some(time) => time <= LAST_TIME,
        None => true,
    }
}

fn is_moment(run: Option<SavedRun>) -> bool
    ensures { result ≡ is_moment run }
{
    match run {
        Some(run) => run.start <= LAST_MOMENT,
        None => true,
    }
}
