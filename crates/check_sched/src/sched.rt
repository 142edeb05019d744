//! The scheduler: its constructor, its one call, and the functions that read it between calls.

ghost use Rattle.std.specs.Prelude.{◌≡◌, ◌<◌, ◌≤◌, IfSome, IfOk, IfErr, IsTrue, Ok, OnOk, length, option_and_then, slice_get, slice_index};
ghost use Rattle.std.specs.List.{All};
ghost use Rattle.check_objects.specs.Configuration.{IsSetup, object_count};
ghost use Rattle.check_spread.specs.Spread.{initial_times};
ghost use Rattle.check_sched.specs.State.{IsStandingOf, IsState, next_of, objects_at, opening_objects, opening, opening_standings, run_number_of, standing_at};
ghost use Rattle.check_saved_state.specs.Scheduling.{is_moment, is_time};
ghost use Rattle.check_sched.specs.Sched.{AreParts, state_with};
ghost use Rattle.check_sched.specs.Step.{is_forced, existing_object, step, with_object};
ghost use Rattle.check_sched.specs.Change.{object_after_change, is_valid_change, keeps_timed};
ghost use Rattle.check_sched.specs.Board.{board_of, slot_of_call};
ghost use Rattle.check_sched.specs.Reply.{OnRefused, NamesObjectOf, HasTimesUpTo, reply_of};

use crate::call::{Call, Refusal, Reply};
use crate::intervals::{Intervals, intervals_by_number};
use crate::object_state::{Change, ObjectState};
use crate::results::Results;
use crate::roster::Roster;
use check_objects::Setup;
use check_saved_state::SavedRun;
use check_spread::initial_times;
use check_states::{LAST_MOMENT, LAST_TIME, Standing, code, pending};
use std::alloc::{AllocError, Global};
use std::marker::Model;

mod operator_calls;
mod resuming;
mod saving;
mod worker_calls;

/// A scheduler over a setup. Contracts see it as a record `State`. The record has the setup, the start, and
/// the scheduling, the standing and the last results of each object by number. It also has the number of runs
/// handed out.
pub struct Sched {
    start: u64,
    /// Scratch space for the search through dependencies: a mark for each object.
    marks: Vec<bool>,
    // The fields that only a report reads are next to the number of hosts, the first field of a setup.
    // The fields that each call reads and writes follow the setup's services, its last field.
    results: Results,
    standings: Vec<Standing>,
    /// The objects that an OK leaves unchanged, as far as reports have found it.
    steady: Vec<bool>,
    /// The intervals of each object.
    intervals: Vec<Intervals>,
    setup: Setup,
    roster: Roster,
    runs: u64,
}

// A crate that drops a scheduler calls this. A derived one would be proved there again, field by field.
impl Drop for Sched {
    fn drop(self) {
        let _setup = self.into_setup();
    }
}

impl Model for Sched {
    ghost use Rattle.check_sched.specs.State.{State};
    ghost use Rattle.check_sched.specs.Sched.{state_of, IsWellFormed};

    ghost Value = { State };

    ghost view = { state_of };

    ghost invariant = { IsWellFormed };
}

/// The fields of a scheduler, without its setup, its start and its number of runs.
#[derive(Drop)]
struct Parts {
    marks: Vec<bool>,
    steady: Vec<bool>,
    intervals: Vec<Intervals>,
    results: Results,
    standings: Vec<Standing>,
    roster: Roster,
}

impl Sched {
    /// A scheduler for the objects of `setup`. Scheduling starts at the moment `start`, in milliseconds. The
    /// first checks are spread over time from `start` on, as the setup's options say. An object that is
    /// disabled or whose check interval is 0 begins without a next time. (Manual: "Service and Host Check
    /// Scheduling".)
    ///
    /// An Err means out of memory, and returns the setup as it was. No call that is made later needs memory,
    /// except [`Sched::save`].
    pub fn new(alloc: Global, setup: Setup, start: u64) -> Result<Sched, Setup>
        requires { start ≤ LAST_MOMENT }
        ensures ok { IfOk result (λ scheduler. scheduler ≡ opening setup start) }
        ensures state { IfOk result IsState }
        ensures valid_setup { OnOk result (IsSetup setup) }
        ensures err { IfErr result (λ handed_back. handed_back ≡ setup) }
    {
        match opening_parts(alloc, &setup, start) {
            Ok(parts) => Ok(Sched::of(setup, start, 0, parts)),
            Err(_refused) => Err(setup),
        }
    }

    /// The scheduler with these parts, which were made for this setup.
    fn of(setup: Setup, start: u64, runs: u64, parts: Parts) -> Sched
        requires state { IsState (state_with setup start runs parts) }
        requires parts { AreParts setup parts }
        ensures { result ≡ state_with setup start runs parts }
    {
        let Parts {
            marks,
            steady,
            intervals,
            results,
            standings,
            roster,
        } = parts;
        Sched {
            setup,
            start,
            roster,
            standings,
            results,
            steady,
            intervals,
            runs,
            marks,
        }
    }

    /// Answers one call and changes the scheduler's state, as `step` says. It needs no memory.
    ///
    /// A refused call leaves the scheduler as it was. No call changes the setup or the start. The objects
    /// that a reply names are those of the setup, and each time in it is at most 2^61 milliseconds. No more
    /// services are being checked than the option `max_concurrent_checks` allows, if it isn't 0
    /// ([`limit`](crate::laws::limit)).
    // If a caller makes a known call, the compiler keeps only that part.
    #[inline(always)]
    pub fn apply(&mut self, call: Call) -> Reply
        ensures state { self.new ≡ (step self.old call).0 }
        ensures reply { result ≡ (step self.old call).1 }

        // Other facts for callers. All follow from the two clauses above and from the facts of every
        // scheduler.
        ensures refused { OnRefused result (self.new ≡ self.old) }
        ensures setup { self.new.setup ≡ self.old.setup }
        ensures start { self.new.start ≡ self.old.start }
        ensures named { NamesObjectOf self.new.setup result }
        ensures times { HasTimesUpTo LAST_TIME result }
    {
        match call {
            Call::Take { now } => reply_of(self.take(now)),
            Call::Report { object, run, code } => reply_of(self.report(object, run, code)),
            Call::Abandon { object, run, now } => reply_of(self.abandon(object, run, now)),
            Call::Reschedule {
                object,
                time,
                forced,
            } => { reply_of(self.reschedule(object, time, forced)) }
            Call::Enable { object, on } => reply_of(self.enable(object, on)),
            Call::Status { object } => reply_of(self.status(object)),
        }
    }

    /// Makes this change of the scheduling of an object. The rest stays as it was.
    // Each caller makes a known change, so the compiler keeps only that part.
    #[inline(always)]
    fn change(&mut self, object: u32, change: Change)
        requires in_range { object < object_count self.old.setup }
        requires valid { IsTrue (is_valid_change change) }
        requires timed { IsTrue (keeps_timed change (is_forced self.old object)) }
        ensures { self.new ≡ with_object object (object_after_change change) self.old }
    {
        self.roster.change(object, change);
    }

    /// The scheduling of the object with this number.
    fn object(&self, number: u32) -> Result<&ObjectState, Refusal>
        ensures value { IfOk result (λ object. existing_object number self.now ≡ Ok object.now) }
        ensures refused { IfErr result (λ why. existing_object number self.now ≡ Err why) }
        ensures in_range { OnOk result (number < object_count self.now.setup) }
        ensures times { IfOk result (λ object. IsTrue (is_time object.now.next)) }
        ensures moments { IfOk result (λ object. IsTrue (is_moment object.now.run)) }
    {
        match self.roster.get(number) {
            Some(object) => Ok(object),
            None => Err(Refusal::UnknownObject),
        }
    }

    /// The number of words of its board. It has one word for each object, and so at most 4,096. A lock shows
    /// the board to callers that don't hold it.
    pub fn words(&self) -> u32
        ensures { result ≡ length (board_of self.now) }
    {
        self.setup.len() as u32
    }

    /// The word of its board for the object with this number: the [`code`] of the object's standing,
    /// which [`decode`](check_states::decode) reads.
    pub fn word(&self, number: u32) -> u64
        requires { number < length (board_of self.now) }
        ensures { result ≡ slice_index (board_of self.now) number }
    {
        code(self.standings[number as usize])
    }

    /// The place of the board at which the call is posted, if it is made now. If a report will be answered by
    /// a standing, it is posted at its object's number. No other call is posted.
    pub fn slot_of_call(&self, call: Call) -> Option<u32>
        ensures { result ≡ slot_of_call self.now call }
    {
        let Call::Report { object, run, .. } = call else {
            return None;
        };
        match self.object(object) {
            Ok(state) if state.run_under(run).is_ok() => Some(object),
            _ => None,
        }
    }

    /// The setup that the scheduler was made from.
    pub fn setup(&self) -> &Setup
        ensures { result.now ≡ self.now.setup }
    {
        &self.setup
    }

    /// Returns the setup, as it was handed in, and ends the scheduler.
    pub fn into_setup(self) -> Setup
        ensures { result ≡ self.setup }
    {
        let Sched {
            start: _,
            marks: _,
            results: _,
            standings: _,
            steady: _,
            intervals: _,
            setup,
            roster: _,
            runs: _,
        } = self;
        setup
    }

    /// The moment at which scheduling started, in milliseconds.
    pub fn start(&self) -> u64
        ensures { result ≡ self.now.start }
    {
        self.start
    }

    /// The standing of the object with this number: its state, kind and attempt. An object that was
    /// never checked is [`pending`].
    pub fn standing(&self, number: u32) -> Standing
        requires { number < object_count self.now.setup }
        ensures value { result ≡ standing_at self.now.standings number }
        ensures lawful { IsStandingOf self.now.setup number result }
    {
        self.standings[number as usize]
    }

    /// The time of the next check of the object with this number, in milliseconds, or None if no time
    /// is set. It is at most 2^61.
    pub fn next_of(&self, number: u32) -> Option<u64>
        requires { number < object_count self.now.setup }
        ensures value { result ≡ next_of number self.now }
        ensures within { IfSome result (λ time. time ≤ LAST_TIME) }
    {
        self.roster.at(number).next()
    }

    /// The number of the run under which the object with this number is being checked, or None if it
    /// isn't being checked.
    pub fn running(&self, number: u32) -> Option<u64>
        requires { number < object_count self.now.setup }
        ensures { result ≡ run_number_of number self.now }
    {
        self.roster.at(number).run_number()
    }

    /// The run of the object with this number: its number, and the moment at which it was handed out, in
    /// milliseconds. None if the object isn't being checked.
    pub fn open_run(&self, number: u32) -> Option<SavedRun>
        requires { number < object_count self.now.setup }
        ensures { result ≡ option_and_then (λ o. o.run) (slice_get self.now.objects number) }
    {
        self.roster.at(number).run()
    }
}

/// The reply to a call that was answered or refused.
fn reply_of(answer: Result<Reply, Refusal>) -> Reply
    ensures { result ≡ reply_of answer }
{
    match answer {
        Ok(reply) => reply,
        Err(why) => Reply::Refused(why),
    }
}

/// The parts of a scheduler that is opened. An Err means out of memory.
fn opening_parts(alloc: Global, setup: &Setup, start: u64) -> Result<Parts, AllocError>
    requires { start ≤ LAST_MOMENT }
    ensures valid_setup { OnOk result (IsSetup setup.now) }
    ensures parts { IfOk result (AreParts setup.now) }
    ensures opening { IfOk result (λ parts. state_with setup.now start 0 parts ≡ opening setup.now start) }
{
    let objects = opening_objects(alloc, setup, start)?;
    Ok(Parts {
        marks: vec![in alloc; false; setup.len()]?,
        steady: vec![in alloc; false; setup.len()]?,
        intervals: intervals_by_number(alloc, setup)?,
        results: Results::empty(alloc, setup.len())?,
        standings: opening_standings(alloc, setup)?,
        roster: Roster::new(alloc, setup.hosts(), objects)?,
    })
}

/// The scheduling of each object of the setup when scheduling starts, by number.
fn opening_objects(alloc: Global, setup: &Setup, start: u64) -> Result<Vec<ObjectState>, AllocError>
    requires { start ≤ LAST_MOMENT }
    ensures items { IfOk result (λ objects. objects.items ≡ opening_objects setup.now start) }
    ensures valid_setup { OnOk result (IsSetup setup.now) }
    ensures one_each { OnOk result (length (initial_times setup.now start) ≡ object_count setup.now) }
    ensures within { OnOk result (All (λ first. IfSome first (λ time. time < LAST_TIME))
        (initial_times setup.now start)) }
{
    let times = initial_times(alloc, setup, start)?;
    objects_at(alloc, setup, &times)
}

/// The scheduling of each object, given the times of the first checks.
fn objects_at(
    alloc: Global,
    setup: &Setup,
    times: &[Option<u64>],
) -> Result<Vec<ObjectState>, AllocError>
    requires { length times.now ≡ object_count setup.now }
    ensures items { IfOk result (λ objects. objects.items ≡ objects_at setup.now times.now) }
    ensures valid_setup { OnOk result (IsSetup setup.now) }
{
    let mut objects = Vec::with_capacity(alloc, setup.len())?;
    for (number, first) in times.iter().enumerate() {
        let enabled = setup.object(number as u32).enabled;
        objects.push(ObjectState::opening(*first, enabled))?;
    }
    Ok(objects)
}

/// The standing of each object when scheduling starts, by number. No object was ever checked.
fn opening_standings(alloc: Global, setup: &Setup) -> Result<Vec<Standing>, AllocError>
    ensures { IfOk result (λ standings. standings.items ≡ opening_standings setup.now) }
{
    let count = setup.len();
    let mut standings = Vec::with_capacity(alloc, count)?;
    for index in 0..count {
        standings.push(pending(index < setup.hosts()))?;
    }
    Ok(standings)
}
