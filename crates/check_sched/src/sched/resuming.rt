//! Makes a scheduler from a saved state.

ghost use Rattle.std.specs.Prelude.{◌≡◌, ◌≤◌, ◌++◌, IfErr, IfOk, IfSome, OnOk, drop, false, length, map, option_map, replicate, take};
ghost use Rattle.check_objects.specs.Configuration.{IsSetup, host_count, object_count};
ghost use Rattle.check_saved_state.specs.Saved.{IsSaved};
ghost use Rattle.check_spread.specs.Spread.{initial_times};
ghost use Rattle.check_sched.specs.SavedIndexes.{AreSavedIndexes};
ghost use Rattle.check_sched.specs.Sched.{AreParts, state_with};
ghost use Rattle.check_sched.specs.State.{IsState};
ghost use Rattle.check_sched.specs.Saved.{object_after_abandon, objects_kept, objects_after_resume, results_after_resume, result_lists_after_resume};
ghost use Rattle.check_sched.specs.Saved.{state_after_resume, standings_after_resume, within_limit};

use super::{Parts, Sched};
use crate::intervals::intervals_by_number;
use crate::object_state::ObjectState;
use crate::results::Results;
use crate::resumed_object::{scheduling, standing};
use crate::roster::{Roster, running_from};
use crate::saved_indexes::{saved_indexes, saved_match};
use check_objects::Setup;
use check_saved_state::{Saved, SavedObject};
use check_spread::initial_times;
use check_states::{LAST_MOMENT, LastResults, STORED_RESULTS, Standing};
use std::alloc::{AllocError, Global};

impl Sched {
    /// Makes a scheduler from a saved state, over this setup, which can be the one with which it was saved or
    /// another. Scheduling starts at the moment `start`, in milliseconds. An object of the setup whose full
    /// name was saved is kept. Any other object begins as at an opening from `start` on. A saved object that
    /// the setup doesn't have is dropped. (Our own profile; Nagios uses its retention files in the same way
    /// at a restart and a reload.)
    ///
    /// For a kept object:
    ///
    /// - As saved: the results, the running check, whether the next check is forced, the state, the last hard
    ///   state, flapping, and whether it was ever checked.
    /// - The attempt follows the maximum of attempts in this setup. A hard problem gets the maximum. A soft
    ///   problem stays soft with an attempt below the maximum, and becomes hard if the maximum is 1. OK and
    ///   UP keep their attempt, up to the maximum.
    /// - It is enabled as saved if both setups have the same switch for it, and otherwise as in this setup.
    /// - The next time is as saved if the check interval and the setup's switch are unchanged, if a check is
    ///   running, or if the next check is forced. Otherwise it is the earlier of the saved time and the first
    ///   time by the spread from `start` on.
    ///
    /// If more services are running than the option `max_concurrent_checks` allows, the runs of all services
    /// are abandoned at `start`. The numbers of runs continue those that were handed out.
    ///
    /// Over the same setup, the scheduler is in the saved state, except for the start, which no call reads
    /// ([`resumed_over_the_same`](crate::laws::resumed_over_the_same)).
    ///
    /// An Err means out of memory, and returns the setup as it was.
    pub fn resume(alloc: Global, setup: Setup, saved: &Saved, start: u64) -> Result<Sched, Setup>
        requires { start ≤ LAST_MOMENT }
        ensures ok { IfOk result (λ scheduler. scheduler ≡ state_after_resume setup saved.now start) }
        ensures state { IfOk result IsState }
        ensures valid_setup { OnOk result (IsSetup setup) }
        ensures err { IfErr result (λ handed_back. handed_back ≡ setup) }
    {
        match resumed_parts(alloc, &setup, saved, start) {
            Ok(parts) => Ok(Sched::of(setup, start, saved.runs(), parts)),
            Err(_refused) => Err(setup),
        }
    }
}

/// The fields of a resumed scheduler, without its setup and its counts. An Err means out of memory.
fn resumed_parts(
    alloc: Global,
    setup: &Setup,
    saved: &Saved,
    start: u64,
) -> Result<Parts, AllocError>
    requires { start ≤ LAST_MOMENT }
    ensures valid_setup { OnOk result (IsSetup setup.now) }
    ensures saved { OnOk result (IsSaved saved.now) }
    ensures parts { IfOk result (AreParts setup.now) }
    ensures state_after_resume { IfOk result (λ parts.
        state_with setup.now start saved.now.runs parts ≡ state_after_resume setup.now saved.now start) }
{
    let saved_indexes = saved_indexes(alloc, setup, saved)?;
    let objects = resumed_objects(alloc, setup, saved, &saved_indexes, start)?;
    Ok(Parts {
        marks: vec![in alloc; false; setup.len()]?,
        steady: vec![in alloc; false; setup.len()]?,
        intervals: intervals_by_number(alloc, setup)?,
        results: resumed_results(alloc, setup, saved, &saved_indexes)?,
        standings: resumed_standings(alloc, setup, saved, &saved_indexes)?,
        roster: Roster::new(alloc, setup.hosts(), objects)?,
    })
}

/// The scheduling of each object, by number, within the limit of services.
fn resumed_objects(
    alloc: Global,
    setup: &Setup,
    saved: &Saved,
    saved_indexes: &[Option<usize>],
    start: u64,
) -> Result<Vec<ObjectState>, AllocError>
    requires moment { start ≤ LAST_MOMENT }
    requires saved_indexes { AreSavedIndexes setup.now saved.now.objects saved.now.objects saved_indexes.now }
    ensures { IfOk result (λ objects. objects.items ≡ objects_after_resume setup.now saved.now start) }
{
    let times = initial_times(alloc, setup, start)?;
    let mut objects = kept_objects(alloc, setup, saved, saved_indexes, &times)?;
    abandon_over_limit(setup, &mut objects, start);
    Ok(objects)
}

/// The scheduling of each object, by number, kept or new. `times` are the first times by the spread.
fn kept_objects(
    alloc: Global,
    setup: &Setup,
    saved: &Saved,
    saved_indexes: &[Option<usize>],
    times: &[Option<u64>],
) -> Result<Vec<ObjectState>, AllocError>
    requires each { length times.now ≡ object_count setup.now }
    requires saved_indexes { AreSavedIndexes setup.now saved.now.objects saved.now.objects saved_indexes.now }
    ensures { IfOk result (λ objects. objects.items ≡ objects_kept setup.now saved.now times.now) }
{
    let mut objects = Vec::with_capacity(alloc, setup.len())?;
    for (number, first) in times.iter().enumerate() {
        let kept = saved_match(saved, saved_indexes, number as u32);
        let object = setup.object(number as u32);
        objects.push(scheduling(setup, object, *first, kept))?;
    }
    Ok(objects)
}

/// Abandons the runs of all services at this moment, if more are running than the limit allows.
fn abandon_over_limit(setup: &Setup, objects: &mut Vec<ObjectState>, now: u64)
    requires { host_count setup.now ≤ length objects.old.items }
    ensures { objects.new.items ≡ within_limit setup.now now objects.old.items }
{
    let limit = setup.options().max_concurrent_checks;
    if limit == 0 || running_from(objects, setup.hosts()) as u64 <= limit {
        return;
    }
    abandon_runs_from(objects, setup.hosts(), now);
}

/// Abandons the runs of the objects with the numbers from `from` on, at this moment.
fn abandon_runs_from(objects: &mut Vec<ObjectState>, from: usize, now: u64)
    requires { from ≤ length objects.old.items }
    ensures { objects.new.items ≡ take from objects.old.items ++ map (object_after_abandon now) (drop from objects.old.items) }
{
    for number in from..objects.len() {
        objects[number].abandon_run(now);
    }
}

/// The standing of each object, by number.
fn resumed_standings(
    alloc: Global,
    setup: &Setup,
    saved: &Saved,
    saved_indexes: &[Option<usize>],
) -> Result<Vec<Standing>, AllocError>
    requires { AreSavedIndexes setup.now saved.now.objects saved.now.objects saved_indexes.now }
    ensures { IfOk result (λ standings. standings.items ≡ standings_after_resume setup.now saved.now) }
{
    let count = setup.len();
    let mut standings = Vec::with_capacity(alloc, count)?;
    for index in 0..count {
        let kept = saved_match(saved, saved_indexes, index as u32);
        let object = setup.object(index as u32);
        standings.push(standing(index < setup.hosts(), object, kept))?;
    }
    Ok(standings)
}

/// The stored results of each object, by number.
fn resumed_results(
    alloc: Global,
    setup: &Setup,
    saved: &Saved,
    saved_indexes: &[Option<usize>],
) -> Result<Results, AllocError>
    requires saved { IsSaved saved.now }
    requires saved_indexes { AreSavedIndexes setup.now saved.now.objects saved.now.objects saved_indexes.now }
    ensures { IfOk result (λ results. results ≡ result_lists_after_resume setup.now saved.now) }
{
    let count = setup.len();
    let mut by_number = Vec::with_capacity(alloc, count)?;
    for number in 0..count {
        let kept = saved_match(saved, saved_indexes, number as u32);
        let results = last_results(alloc, kept)?;
        by_number.push(results)?;
    }
    Ok(Results::of(by_number))
}

/// The stored results of an object: the saved ones, or none if the object is new. An Err means out of
/// memory.
fn last_results(alloc: Global, kept: Option<&SavedObject>) -> Result<LastResults, AllocError>
    requires { IfSome (option_map (λ o. o.now) kept) (λ o. length o.results ≤ STORED_RESULTS) }
    ensures { IfOk result (λ results. results ≡ results_after_resume (option_map (λ o. o.now) kept.entry)) }
{
    match kept {
        Some(saved) => LastResults::of(alloc, &saved.results),
        None => LastResults::empty(alloc),
    }
}
