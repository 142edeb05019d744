//! A check from its choice to its result: taken or put off, reported or abandoned.

ghost use Rattle.std.specs.Prelude.{◌≡◌, ◌+◌, ◌<◌, ◌≤◌, IfSome, IsTrue, Ok, OnOk, None, false, length, slice_set, true};
ghost use Rattle.check_objects.specs.Configuration.{object_count};
ghost use Rattle.check_states.specs.Flapping.{results_after};
ghost use Rattle.check_sched.specs.State.{is_below_limit, next_of, results_at};
ghost use Rattle.check_sched.specs.Steady.{IsSteadyIn};
ghost use Rattle.check_queue.specs.Order.{least};
ghost use Rattle.check_sched.specs.Step.{eligible_candidates, is_forced, is_held_back, is_startable, put_off, report_result, step, state_after_take};
ghost use Rattle.check_sched.specs.Step.{waiting_reply, moment_test};
ghost use Rattle.check_sched.specs.Report.{put_off_until};
ghost use Rattle.check_sched.specs.Reply.{NamesObjectOf, HasTimesUpTo, reply_of};

use super::Sched;
use crate::call::{Call, Refusal, Reply};
use crate::candidate::{Candidate, if_due};
use crate::intervals::{next_check_time, time_after};
use crate::object_state::Change;
use crate::report::{flap_thresholds, is_changed, new_standing, state_found};
use crate::results::Results;
use check_rules::blocked;
use check_saved_state::{MAX_RUNS, SavedRun};
use check_states::{Code, LAST_MOMENT, LAST_TIME, Standing, State};

impl Sched {
    /// Begins the check of the least object that is due and may be checked, or puts the object off. If there
    /// is no such object, the reply says why.
    #[inline(never)]
    pub(super) fn take(&mut self, now: u64) -> Result<Reply, Refusal>
        ensures state { self.new ≡ (step self.old (Call.Take now)).0 }
        ensures reply { reply_of result ≡ (step self.old (Call.Take now)).1 }
        ensures named { NamesObjectOf self.new.setup (reply_of result) }
        ensures times { HasTimesUpTo LAST_TIME (reply_of result) }
    {
        test_moment(now)?;
        if self.runs >= MAX_RUNS {
            return Err(Refusal::RunsSpent);
        }
        let Some((_time, number)) = self.least_eligible(now) else {
            return Ok(self.idle_reply(now));
        };
        if self.is_held_back(number) {
            Ok(self.put_off(number, now))
        } else {
            Ok(self.begin(number, now))
        }
    }

    /// The least object that is due and whose check may begin. If there is no room for one more service, the
    /// object is a host.
    fn least_eligible(&self, now: u64) -> Option<Candidate>
        ensures value { result ≡ least (eligible_candidates now self.now) }
        ensures in_range { IfSome result (λ c. c.1 < object_count self.now.setup) }
        ensures open { IfSome result (λ c. IsTrue (is_startable self.now c.1)) }
    {
        if self.is_below_limit() {
            if_due(self.roster.first(), now)
        } else {
            if_due(self.roster.first_host(), now)
        }
    }

    /// Whether the check of one more service may begin.
    fn is_below_limit(&self) -> bool
        ensures { result ≡ is_below_limit self.now }
    {
        let limit = self.setup.options().max_concurrent_checks;
        limit == 0 || (self.roster.running_services() as u64) < limit
    }

    /// Whether the object that a take chose isn't to be checked: its check isn't forced, and some
    /// dependency of it fails. Only the scratch space changes.
    #[tactic(auto, using(crate::proofs::TakeLaws::unblocked))]
    fn is_held_back(&mut self, object: u32) -> bool
        requires { object < object_count self.old.setup }
        ensures state { self.new ≡ self.old }
        ensures value { result ≡ is_held_back self.old object }
    {
        if self.roster.at(object).is_forced() {
            return false;
        }
        // For an object without dependencies, no standing is read.
        if self.setup.dependencies(object).is_empty() {
            return false;
        }
        blocked(&self.setup, &self.standings, &mut self.marks, object)
    }

    /// Puts an object off by its check interval.
    #[inline(never)]
    fn put_off(&mut self, object: u32, now: u64) -> Reply
        requires in_range { object < object_count self.old.setup }
        requires moment { now ≤ LAST_MOMENT }
        requires unforced { is_forced self.old object ≡ false }
        ensures state { self.new ≡ put_off now object self.old }
        ensures reply { result ≡ Reply.PutOff object (put_off_until self.old.setup object now) }
        ensures times { HasTimesUpTo LAST_TIME result }
    {
        let intervals = self.intervals[object as usize];
        let until = time_after(now, intervals.check);
        self.change(object, Change::PutOff(until));
        Reply::PutOff { object, until }
    }

    /// Begins the check of an object, under the next run number.
    fn begin(&mut self, object: u32, now: u64) -> Reply
        requires in_range { object < object_count self.old.setup }
        requires moment { now ≤ LAST_MOMENT }
        requires spare { self.old.runs < MAX_RUNS }
        requires open { IsTrue (is_startable self.old object) }
        ensures state { self.new ≡ state_after_take now object self.old }
        ensures reply { result ≡ Reply.Taken object (self.old.runs + 1) }
    {
        self.runs += 1;
        let run = SavedRun {
            number: self.runs,
            start: now,
        };
        self.roster.change(object, Change::Begin(run));
        Reply::Taken {
            object,
            run: self.runs,
        }
    }

    /// The reply if no check may begin. If an object is due then, it is a service, and the limit is reached.
    #[inline(never)]
    fn idle_reply(&self, now: u64) -> Reply
        requires { least (eligible_candidates now self.now) ≡ None }
        ensures reply { result ≡ waiting_reply now self.now }
        ensures times { HasTimesUpTo LAST_TIME result }
    {
        match self.roster.first() {
            Some((time, _number)) if time <= now => Reply::AtLimit,
            Some((time, _number)) => Reply::Idle { next: Some(time) },
            None => Reply::Idle { next: None },
        }
    }

    /// Takes the result of a run, and ends the run. The object's standing and next time follow from it.
    #[inline(never)]
    pub(super) fn report(&mut self, object: u32, run: u64, code: Code) -> Result<Reply, Refusal>
        ensures state { self.new ≡ (step self.old (Call.Report object run code)).0 }
        ensures reply { reply_of result ≡ (step self.old (Call.Report object run code)).1 }
        ensures times { HasTimesUpTo LAST_TIME (reply_of result) }
    {
        let state = self.object(object)?;
        let running = state.run_under(run)?;
        let start = running.start;
        let already = state.next();
        if code == Code::Ok && self.is_steady(object) {
            Ok(self.report_unchanged(object, start, already))
        } else {
            Ok(self.report_changed(object, code, start, already))
        }
    }

    /// Whether it is known that an OK leaves the object with this number unchanged.
    fn is_steady(&self, object: u32) -> bool
        requires { object < object_count self.now.setup }
        ensures { result ≡ true → IsSteadyIn self.now object }
    {
        self.steady[object as usize]
    }

    /// Ends a run that began at `start` by an OK that leaves the object unchanged, except for its next time.
    /// The next time may be set already.
    fn report_unchanged(&mut self, object: u32, start: u64, already: Option<u64>) -> Reply
        requires in_range { object < object_count self.old.setup }
        requires moment { start ≤ LAST_MOMENT }
        requires in_time { IfSome already (λ time. time ≤ LAST_TIME) }
        requires already { next_of object self.old ≡ already }
        requires steady { IsSteadyIn self.old object }
        ensures state { self.new ≡ (report_result object start Code.Ok already self.old).0 }
        ensures reply { result ≡ (report_result object start Code.Ok already self.old).1 }
        ensures times { HasTimesUpTo LAST_TIME result }
    {
        let standing = self.standing(object);
        let next = next_check_time(self.intervals[object as usize], standing, start, already);
        self.change(object, Change::End(next));
        Reply::Standing {
            standing,
            changed: false,
            next,
        }
    }

    /// Ends a run that began at `start` by the rules. The standing and the next time follow from its code.
    /// The next time may be set already.
    // Only `report` calls it. The reply of a call of its own would be copied, field by field.
    #[inline(always)]
    fn report_changed(&mut self, object: u32, code: Code, start: u64, already: Option<u64>) -> Reply
        requires in_range { object < object_count self.old.setup }
        requires moment { start ≤ LAST_MOMENT }
        requires in_time { IfSome already (λ time. time ≤ LAST_TIME) }
        requires already { next_of object self.old ≡ already }
        ensures state { self.new ≡ (report_result object start code already self.old).0 }
        ensures reply { result ≡ (report_result object start code already self.old).1 }
        ensures times { HasTimesUpTo LAST_TIME result }
    {
        let found = state_found(&self.setup, &self.standings, object, code);
        let thresholds = flap_thresholds(&self.setup, object);
        let was = self.standings[object as usize];
        let flapping = self.results.add(object, found, was.flapping, thresholds);
        // The standing is read again, and stored before the queue changes, so that few values have to be
        // saved over a call.
        let before = self.standings[object as usize];
        let standing = new_standing(&self.setup, &self.standings, object, found, flapping);
        let changed = is_changed(before, standing);
        let intervals = self.intervals[object as usize];
        let next = next_check_time(intervals, standing, start, already);
        put_standing(&mut self.standings, object, standing);
        self.steady[object as usize] = is_steady_after(
            &self.results,
            object,
            code,
            found,
            before,
            standing,
        );
        self.roster.change(object, Change::End(next));
        Reply::Standing {
            standing,
            changed,
            next,
        }
    }

    /// Ends a run without a result.
    #[inline(never)]
    pub(super) fn abandon(&mut self, object: u32, run: u64, now: u64) -> Result<Reply, Refusal>
        ensures state { self.new ≡ (step self.old (Call.Abandon object run now)).0 }
        ensures reply { reply_of result ≡ (step self.old (Call.Abandon object run now)).1 }
        ensures times { HasTimesUpTo LAST_TIME (reply_of result) }
    {
        let state = self.object(object)?;
        test_moment(now)?;
        state.run_under(run)?;
        let next = state.freed_time(now);
        self.change(object, Change::End(Some(next)));
        Ok(Reply::Freed { next })
    }
}

/// Whether the next OK will leave the object unchanged, after an OK that led from `before` to `after`. It
/// will if this OK left the standing unchanged, and all stored results are the state that was found.
fn is_steady_after(
    results: &Results,
    number: u32,
    code: Code,
    found: State,
    before: Standing,
    after: Standing,
) -> bool
    requires { number < length results.now }
    ensures ok { result ≡ true → code ≡ Code.Ok }
    ensures same { result ≡ true → before ≡ after }
    ensures kept { result ≡ true → results_after (results_at results.now number) found ≡ results_at results.now number }
{
    code == Code::Ok && is_same(before, after) && results.are_all(number, found)
}

/// Stores the standing of an object. An equal standing isn't written again, so that it stays in the caches of
/// callers on other cores.
fn put_standing(standings: &mut Vec<Standing>, number: u32, standing: Standing)
    requires { number < length standings.old.items }
    ensures { standings.new.items ≡ slice_set standings.old.items number standing }
{
    let place = &mut standings[number as usize];
    if !is_same(*place, standing) {
        *place = standing;
    }
}

/// Whether two standings are equal. The fields are compared one by one. The proof search knows the meaning of
/// `==` on a field, but not of a derived `==` with two fields of the same enum. The state comes first: if it
/// differs, no other field needs to be compared.
fn is_same(one: Standing, other: Standing) -> bool
    ensures { result ≡ true → one ≡ other }
{
    if one.state != other.state {
        return false;
    }
    if one.last_hard != other.last_hard || one.kind != other.kind || one.attempt != other.attempt {
        return false;
    }
    one.checked == other.checked && one.flapping == other.flapping
}

/// Refuses a moment that is too late.
pub(super) fn test_moment(moment: u64) -> Result<(), Refusal>
    ensures value { result ≡ moment_test moment }
    ensures within { OnOk result (moment ≤ LAST_MOMENT) }
{
    if moment > LAST_MOMENT {
        Err(Refusal::TimeRange)
    } else {
        Ok(())
    }
}
