//! The sentence that explains why a call was refused.

ghost use Rattle.std.specs.Prelude.{◌≡◌, ◌++◌, IfErr, IfOk, OnOk, false, option_map, string_bytes};
ghost use Rattle.nagsched_protocol.specs.CallExplanation.{IsRefused, call_fault, call_sentence, given_run, given_time, reply_sentence, run_fault, time_fault};
ghost use Rattle.setup_diagnostics.specs.Feeds.{has_line_feed};

use crate::text::asked_name;
use check_objects::Setup;
use check_sched::{Call, Refusal, Reply};
use setup_diagnostics::{Line, Pushed};
use std::alloc::{AllocError, Global};

/// Explains in one sentence why the call in the line with this number was refused, if it was. The sentence
/// names the object of the call, and the time or the run that the call gave. The only error is out of memory.
/// It comes only if the call was refused. The words are this project's own.
pub(crate) fn explain_reply(
    alloc: Global,
    number: usize,
    setup: &Setup,
    call: Call,
    reply: Reply,
) -> Result<Option<String>, AllocError>
    ensures text { IfOk result (λ text. option_map string_bytes text ≡ reply_sentence number setup.now call reply) }
    ensures refused { IfErr result (λ e. IsRefused reply) }
{
    match reply {
        Reply::Refused(refusal) => Ok(Some(explain_call(alloc, number, setup, call, refusal)?)),
        _ => Ok(None),
    }
}

/// The sentence about a refused call in the line with this number.
fn explain_call(
    alloc: Global,
    number: usize,
    setup: &Setup,
    call: Call,
    refusal: Refusal,
) -> Result<String, AllocError>
    ensures { IfOk result (λ text. string_bytes text ≡ call_sentence number setup.now call refusal) }
{
    let mut line = Line::new(alloc);
    line.push_words("line ")?;
    line.push_number(number as u64)?;
    line.push_words(": ")?;
    push_call_fault(&mut line, setup, call, refusal)?;
    Ok(line.into_text())
}

/// Appends why a call was refused.
fn push_call_fault(line: &mut Line, setup: &Setup, call: Call, refusal: Refusal) -> Pushed
    ensures { OnOk result (line.new ≡ line.old ++ call_fault setup.now call refusal) }
{
    match refusal {
        Refusal::UnknownObject => line.push_words("the setup has no object with this number"),
        Refusal::TimeRange => push_time_fault(line, given_time(call)),
        Refusal::NotRunning => {
            push_run_fault(
                line,
                asked_name(setup, call),
                " isn't being checked",
                given_run(call),
            )
        }
        Refusal::WrongRun => push_run_fault(
            line,
            asked_name(setup, call),
            " is being checked under another number",
            given_run(call),
        ),
        Refusal::RunsSpent => line.push_words(
            "all 2^60 numbers of runs were handed out; start another scheduler",
        ),
    }
}

/// Appends that a time is too late.
fn push_time_fault(line: &mut Line, time: u64) -> Pushed
    ensures { OnOk result (line.new ≡ line.old ++ time_fault time) }
{
    line.push_words("the time is ")?;
    line.push_number(time)?;
    line.push_words("; it has to be a whole number of milliseconds from 0 to 2^60")
}

/// Appends that the object with this name has no run with this number. The words say whether it is being
/// checked.
fn push_run_fault(line: &mut Line, name: &str, words: &str, run: u64) -> Pushed
    requires { has_line_feed words.now ≡ false }
    ensures { OnOk result (line.new ≡ line.old ++ run_fault name.now words.now run) }
{
    line.push_text(name)?;
    line.push_words(words)?;
    line.push_words("; its run ")?;
    line.push_number(run)?;
    line.push_words(" has ended, or never began; nothing is left to do")
}

/// The time that a call gives, or 0 if it gives none.
fn given_time(call: Call) -> u64
    ensures { result ≡ given_time call }
{
    match call {
        Call::Take { now } | Call::Abandon { now, .. } => now,
        Call::Reschedule { time, .. } => time,
        Call::Report { .. } | Call::Enable { .. } | Call::Status { .. } => 0,
    }
}

/// The number of the run that a call gives, or 0 if it gives none.
fn given_run(call: Call) -> u64
    ensures { result ≡ given_run call }
{
    match call {
        Call::Report { run, .. } | Call::Abandon { run, .. } => run,
        Call::Take { .. } | Call::Reschedule { .. } | Call::Enable { .. } | Call::Status { .. } =>
            0,
    }
}
