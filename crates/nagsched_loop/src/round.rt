//! A round of the loop. It makes the calls that have come in, abandons the runs that are past their limit,
//! takes a check that is due, and sleeps.

ghost use Rattle.std.specs.Prelude.{◌≡◌, ℕ, Bool, ◌<◌, ◌≤◌, ◌∷◌, ◌++◌, []};
ghost use Rattle.std.specs.Prelude.{Contains, IfErr, IfOk, OnErr, OnOk, vec_capacity, vec_len};
ghost use Rattle.std.specs.List.{All};
ghost use Rattle.check_desk.specs.Desks.{HasRecorded, IsPassOf};
ghost use Rattle.check_desk.specs.Passes.{pass_of};
ghost use Rattle.check_sched.specs.declared.call.Call.TheVariants as call;
ghost use Rattle.check_sched.specs.declared.call.Reply.{Reply as ReplyOf};
ghost use Rattle.nagsched_loop.specs.Effects.{answers, begins};
ghost use Rattle.nagsched_loop.specs.Loop.{HasMadeIncomingCalls, HasAbandoned, HasSlept, IsLoopRound, IsReturnedResult, IsReturnedWithReply, HasBegunCheck};
ghost use Rattle.nagsched_loop.specs.Loop.{runs_after_call, limit_at, run_with_limit};
ghost use Rattle.nagsched_loop.specs.Work.{EndsRound};

use crate::environment::{End, Environment, Event};
use crate::runs::{Run, forget, limit_of, overdue_run, wake_time};
use check_desk::{Answer, Desk, Pass};
use check_sched::{Call, LAST_MOMENT, Reply};
use std::sync::Wait;

/// The greatest number of incoming calls that a round makes.
const CALLS_AT_ONCE: u32 = 1_000;

/// A pass whose generation has ended, and the reason.
#[derive(Drop)]
pub(crate) struct GenerationEnd {
    pub(crate) pass: Pass,
    pub(crate) end: End,
}

/// A round: the desk at which it works, the handle to wait there, and its moment.
#[derive(Drop)]
pub(crate) struct Round<'a, R> {
    pub(crate) rt: &'a R,
    pub(crate) desk: &'a Desk,
    pub(crate) moment: u64,
}

impl<R: Wait> Round<'_, R> {
    /// Runs the round. If a check was taken or put off, the next round comes at once. Otherwise the round
    /// sleeps.
    pub(crate) fn run<O: Environment>(
        &self,
        pass: Pass,
        environment: &mut O,
        runs: &mut Vec<Run>,
    ) -> Result<Pass, GenerationEnd>
        requires desk { IsPassOf self.now.desk.now pass }
        requires moment { self.now.moment ≤ LAST_MOMENT }
        ensures returned { IsReturnedResult self.now.desk.now (pass_of pass)
            runs.old.items runs.new.items result }
        ensures taken { IfOk result (λ returned. IsLoopRound O.does self.now.moment
            (pass_of pass) (pass_of returned) runs.old.items runs.new.items environment.old environment.new) }
        ensures ended { IfErr result (λ ended. EndsRound O.does ended.end environment.old environment.new) }
    {
        let pass = self.make_calls(pass, environment, runs)?;
        let pass = self.abandon_overdue(pass, runs)?;
        let (pass, reply) = self.take(pass, environment, runs)?;
        rest(environment, self.moment, reply, runs.as_slice());
        Ok(pass)
    }

    /// Makes the calls that have come in: reports of plugins, and calls of operators.
    fn make_calls<O: Environment>(
        &self,
        pass: Pass,
        environment: &mut O,
        runs: &mut Vec<Run>,
    ) -> Result<Pass, GenerationEnd>
        requires { IsPassOf self.now.desk.now pass }
        ensures returned { IsReturnedResult self.now.desk.now (pass_of pass)
            runs.old.items runs.new.items result }
        ensures called { IfOk result (λ returned. HasMadeIncomingCalls O.does
            (pass_of pass) (pass_of returned) runs.old.items runs.new.items environment.old environment.new) }
        ensures ended { IfErr result (λ ended. EndsRound O.does ended.end environment.old environment.new) }
    {
        let mut pass = pass;
        for _call in 0..CALLS_AT_ONCE {
            match environment.next_event() {
                Some(Event::Call(call)) => {
                    pass = self.make_call(pass, environment, runs, call)?;
                }
                Some(Event::Ends(end)) => return Err(GenerationEnd { pass, end }),
                None => return Ok(pass),
            }
        }
        Ok(pass)
    }

    /// Makes a call that came in. A call that can't be made isn't answered, and comes in again.
    #[tactic(auto, using(crate::proofs::RunLemmas::keeps_same))]
    fn make_call<O: Environment>(
        &self,
        pass: Pass,
        environment: &mut O,
        runs: &mut Vec<Run>,
        call: Call,
    ) -> Result<Pass, GenerationEnd>
        requires { IsPassOf self.now.desk.now pass }
        ensures returned { IsReturnedResult self.now.desk.now (pass_of pass)
            runs.old.items runs.new.items result }
        ensures made { IfOk result (λ returned. (reply : ReplyOf)
            × HasRecorded call reply (pass_of pass) (pass_of returned)
            × O.does environment.old (answers call reply) environment.new
            × (runs.new.items ≡ runs_after_call call runs.old.items)) }
        ensures stays { OnErr result ((environment.new ≡ environment.old)
            × (runs.new.items ≡ runs.old.items)) }
        ensures ended { IfErr result (λ ended. ended.end ≡ End.Renewal) }
    {
        let (pass, reply) = self.ask(pass, call)?;
        forget(runs, call);
        environment.accept_reply(call, reply);
        Ok(pass)
    }

    /// Abandons each run that is past its limit, so that its object is due again.
    fn abandon_overdue(&self, pass: Pass, runs: &mut Vec<Run>) -> Result<Pass, GenerationEnd>
        requires { IsPassOf self.now.desk.now pass }
        ensures returned { IsReturnedResult self.now.desk.now (pass_of pass)
            runs.old.items runs.new.items result }
        ensures abandoned { IfOk result (λ returned. HasAbandoned self.now.moment
            (pass_of pass) (pass_of returned) runs.old.items runs.new.items) }
        ensures none_left { OnOk result (All (λ run. self.now.moment < run.limit) runs.new.items) }
        ensures ended { IfErr result (λ ended. ended.end ≡ End.Renewal) }
    {
        let mut pass = pass;
        while let Some(run) = overdue_run(runs.as_slice(), self.moment) {
            pass = self.abandon_run(pass, runs, run)?;
        }
        Ok(pass)
    }

    /// Abandons a run, and removes it from the list.
    #[tactic(auto, using(crate::proofs::RunLemmas::keeps_same))]
    fn abandon_run(&self, pass: Pass, runs: &mut Vec<Run>, run: Run) -> Result<Pass, GenerationEnd>
        requires desk { IsPassOf self.now.desk.now pass }
        requires overdue_run { run.limit ≤ self.now.moment }
        ensures returned { IsReturnedResult self.now.desk.now (pass_of pass)
            runs.old.items runs.new.items result }
        ensures abandoned { IfOk result (λ returned. (reply : ReplyOf)
            × HasRecorded (call.Abandon run.object run.number self.now.moment) reply
            (pass_of pass) (pass_of returned)
            × (runs.new.items
            ≡ runs_after_call (call.Abandon run.object run.number self.now.moment) runs.old.items)) }
        ensures ended { IfErr result (λ ended. ended.end ≡ End.Renewal) }
    {
        let abandoned = Call::Abandon {
            object: run.object,
            run: run.number,
            now: self.moment,
        };
        let (pass, _reply) = self.ask(pass, abandoned)?;
        forget(runs, abandoned);
        Ok(pass)
    }

    /// Takes a check, and starts its plugin. If the plugin can't be started, the run is past its limit at
    /// once.
    fn take<O: Environment>(
        &self,
        pass: Pass,
        environment: &mut O,
        runs: &mut Vec<Run>,
    ) -> Result<(Pass, Reply), GenerationEnd>
        requires desk { IsPassOf self.now.desk.now pass }
        requires moment { self.now.moment ≤ LAST_MOMENT }
        ensures returned { IsReturnedWithReply self.now.desk.now (pass_of pass) result }
        ensures taken { IfOk result (λ made.
            HasRecorded (call.Take self.now.moment) made.1 (pass_of pass) (pass_of made.0)) }
        ensures begun { IfOk result (λ made. HasBegunCheck O.does self.now.moment made.1
            runs.old.items runs.new.items environment.old environment.new) }
        ensures stays { OnErr result ((environment.new ≡ environment.old)
            × (runs.new.items ≡ runs.old.items)) }
        ensures ended { IfErr result (λ ended. ended.end ≡ End.Renewal) }
    {
        if runs.reserve(1).is_err() {
            let end = End::Renewal;
            return Err(GenerationEnd { pass, end });
        }
        let (pass, reply) = self.ask(pass, Call::Take { now: self.moment })?;
        if let Reply::Taken { object, run } = reply {
            start(environment, runs, object, run, self.moment);
        }
        Ok((pass, reply))
    }

    /// Makes a call. If the call can't be made, the generation ends. The next one has room and makes the
    /// call.
    fn ask(&self, pass: Pass, call: Call) -> Result<(Pass, Reply), GenerationEnd>
        requires { IsPassOf self.now.desk.now pass }
        ensures returned { IsReturnedWithReply self.now.desk.now (pass_of pass) result }
        ensures made { IfOk result (λ made.
            HasRecorded call made.1 (pass_of pass) (pass_of made.0)) }
        ensures ended { IfErr result (λ ended. ended.end ≡ End.Renewal) }
    {
        let (pass, answer) = self.desk.ask(self.rt, pass, call);
        match answer {
            Answer::Reply(reply) => Ok((pass, reply)),
            Answer::NoMemory | Answer::Spent => {
                let end = End::Renewal;
                Err(GenerationEnd { pass, end })
            }
        }
    }
}

/// Starts the plugin of a check that was taken, and adds its run to the list. The list has room.
fn start<O: Environment>(
    environment: &mut O,
    runs: &mut Vec<Run>,
    object: u32,
    number: u64,
    now: u64,
)
    requires moment { now ≤ LAST_MOMENT }
    requires room { vec_len runs.old < vec_capacity runs.old }
    ensures { (is_begun : Bool)
        × O.does environment.old (begins object number now is_begun) environment.new
        × (runs.new.items ≡ runs.old.items ++ run_with_limit object number (limit_at is_begun now) ∷ []) }
{
    let is_begun = environment.begin(object, number, now);
    let limit = limit_of(is_begun, now);
    runs.push_reserved(Run {
        object,
        number,
        limit,
    });
}

/// Sleeps, unless a check was taken or put off.
fn rest<O: Environment>(environment: &mut O, now: u64, reply: Reply, runs: &[Run])
    requires { now ≤ LAST_MOMENT }
    ensures { HasSlept O.does now reply runs.now environment.old environment.new }
{
    match reply {
        Reply::Taken { .. } | Reply::PutOff { .. } => {}
        _ => environment.sleep(wake_time(now, reply, runs)),
    }
}
