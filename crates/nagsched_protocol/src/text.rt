//! The text of replies and histories. Each has one definition, in `specs/Text.antt`, for all
//! subcommands.

ghost use Rattle.std.specs.Prelude.{◌≡◌, ◌+◌, ◌≤◌, ◌++◌, IfOk, OnOk, codes, decimal, length, string_bytes};
ghost use Rattle.check_objects.specs.Configuration.{name_of};
ghost use Rattle.nagsched_protocol.specs.Text.{reply_text, reply_line, entry_line, total_line, saved_line};
ghost use Rattle.check_sched.specs.ReplyTable.{refusal_row};
ghost use Rattle.nagsched_protocol.specs.Text.{time_text};
ghost use Rattle.nagsched_protocol.specs.Text.{asked_name, state_text, changed_word};
ghost use Rattle.check_saved_state.specs.Words.{flapping_word};
ghost use Rattle.nagsched_protocol.specs.Capacity.{PushesAtMost};

use check_objects::Setup;
use check_sched::{Call, Refusal, Reply, Sched};
use check_states::Standing;
use itoa::Buffer;
use std::alloc::{AllocError, Global};
use ticket_steps::Entry;

/// The outcome of appending to a text. An Err means out of memory, and a part may have been appended.
pub type Pushed = Result<(), AllocError>;

/// The most bytes that the line of a reply has, with its line feed.
pub const REPLY_BYTES: usize = 1024;

/// Appends the line of the reply to a call, with its line feed. Objects have their full names in it,
/// and a number without an object has no name. An error comes only if the line had no room for
/// `REPLY_BYTES` more.
pub fn push_reply(line: &mut String, setup: &Setup, call: Call, reply: Reply) -> Pushed
    ensures text { OnOk result
        (string_bytes line.new ≡ string_bytes line.old ++ reply_line setup.now call reply) }
    ensures capacity { PushesAtMost REPLY_BYTES result line.old line.new }
{
    push_reply_text(line, setup, call, reply)?;
    line.push_str("\n")
}

/// Appends the text of the reply to a call.
fn push_reply_text(line: &mut String, setup: &Setup, call: Call, reply: Reply) -> Pushed
    ensures text { OnOk result
        (string_bytes line.new ≡ string_bytes line.old ++ reply_text setup.now call reply) }
    ensures capacity { PushesAtMost 1023 result line.old line.new }
{
    match reply {
        Reply::Taken { object, run } => push_timed(
            line,
            "taken ",
            Some(run),
            name_or_empty(setup, object),
        ),
        Reply::PutOff { object, until } => push_timed(
            line,
            "putoff ",
            until,
            name_or_empty(setup, object),
        ),
        Reply::Idle { next } => push_idle(line, next),
        Reply::AtLimit => line.push_str("atlimit"),
        Reply::Standing {
            standing,
            changed,
            next,
        } => push_standing(line, setup, call, standing, changed, next),
        Reply::Freed { next } => push_timed(line, "freed ", Some(next), asked_name(setup, call)),
        Reply::Done => push_worded(line, "done ", asked_name(setup, call)),
        Reply::Refused(refusal) => push_worded(line, "refused ", call_refusal_text(refusal)),
    }
}

/// Appends a word, a time and the full name of an object. The word ends with a space.
fn push_timed(line: &mut String, word: &str, time: Option<u64>, name: &str) -> Pushed
    ensures text { OnOk result (string_bytes line.new
        ≡ string_bytes line.old ++ (word.now ++ (time_text time ++ (codes " " ++ name.now)))) }
    ensures capacity { PushesAtMost (length word.now + length name.now + 41) result line.old line.new }
{
    line.push_str(word)?;
    push_time(line, time)?;
    line.push_str(" ")?;
    line.push_str(name)
}

/// Appends that nothing is due.
fn push_idle(line: &mut String, next: Option<u64>) -> Pushed
    ensures text { OnOk result (string_bytes line.new ≡ string_bytes line.old ++ (codes "idle " ++ time_text next)) }
    ensures capacity { PushesAtMost 64 result line.old line.new }
{
    line.push_str("idle ")?;
    push_time(line, next)
}

/// Appends the standing of the object that a call asked for, and the time of its next check.
fn push_standing(
    line: &mut String,
    setup: &Setup,
    call: Call,
    standing: Standing,
    changed: bool,
    next: Option<u64>,
) -> Pushed
    ensures text { OnOk result (string_bytes line.new
        ≡ string_bytes line.old ++ reply_text setup.now call (Reply.Standing standing changed next)) }
    ensures capacity { PushesAtMost 640 result line.old line.new }
{
    line.push_str("standing ")?;
    line.push_str(state_text(standing))?;
    push_between_spaces(line, standing.kind.word())?;
    push_number(line, standing.attempt as u64)?;
    line.push_str(marks_between_spaces(changed, standing.flapping))?;
    push_time(line, next)?;
    line.push_str(" ")?;
    line.push_str(asked_name(setup, call))?;
    Ok(())
}

/// Appends a word and a text. The word ends with a space.
fn push_worded(line: &mut String, word: &str, text: &str) -> Pushed
    ensures text { OnOk result
        (string_bytes line.new ≡ string_bytes line.old ++ (word.now ++ text.now)) }
    ensures capacity { PushesAtMost (length word.now + length text.now) result line.old line.new }
{
    line.push_str(word)?;
    line.push_str(text)
}

/// Appends a word between two spaces.
fn push_between_spaces(line: &mut String, word: &str) -> Pushed
    ensures text { OnOk result (string_bytes line.new
        ≡ string_bytes line.old ++ (codes " " ++ (word.now ++ codes " "))) }
    ensures capacity { PushesAtMost (length word.now + 2) result line.old line.new }
{
    line.push_str(" ")?;
    line.push_str(word)?;
    line.push_str(" ")
}

/// Appends a number in decimal.
fn push_number(line: &mut String, number: u64) -> Pushed
    ensures text { OnOk result (string_bytes line.new ≡ string_bytes line.old ++ decimal number) }
    ensures capacity { PushesAtMost 40 result line.old line.new }
{
    let mut buffer = Buffer::new();
    line.push_str(buffer.format(number))
}

/// Appends a time in milliseconds, or `none`.
fn push_time(line: &mut String, time: Option<u64>) -> Pushed
    ensures text { OnOk result (string_bytes line.new ≡ string_bytes line.old ++ time_text time) }
    ensures capacity { PushesAtMost 40 result line.old line.new }
{
    match time {
        Some(time) => push_number(line, time),
        None => line.push_str("none"),
    }
}

/// The full name of the object that a call asks for, or nothing if it asks for no object.
pub(crate) fn asked_name(setup: &Setup, call: Call) -> &str
    ensures text { result.now ≡ asked_name setup.now call }
    ensures bounded { length result.now ≤ 511 }
{
    match call {
        Call::Take { .. } => "",
        Call::Report { object, .. }
        | Call::Abandon { object, .. }
        | Call::Reschedule { object, .. }
        | Call::Enable { object, .. }
        | Call::Status { object } => name_or_empty(setup, object),
    }
}

/// The full name of an object, or nothing if the setup has no object of this number.
#[tactic(auto, using(crate::proofs::NameLengthLemmas::name_short))]
pub(crate) fn name_or_empty(setup: &Setup, number: u32) -> &str
    ensures text { result.now ≡ name_of setup.now number }
    ensures bounded { length result.now ≤ 511 }
{
    if (number as usize) < setup.len() {
        setup.name(number)
    } else {
        ""
    }
}

/// The state of an object, or `PENDING` if it was never checked.
pub(crate) fn state_text(standing: Standing) -> &'static str
    ensures text { result.now ≡ state_text standing }
    ensures bounded { length result.now ≤ 11 }
{
    if !standing.checked {
        return "PENDING";
    }
    standing.state.word()
}

/// Whether an object is flapping.
pub(crate) fn flapping_word(flapping: bool) -> &'static str
    ensures { result.now ≡ flapping_word flapping }
{
    if flapping { "FLAPPING" } else { "STEADY" }
}

/// Whether a state differs from the one before, and whether the object is flapping, between spaces.
fn marks_between_spaces(changed: bool, flapping: bool) -> &'static str
    ensures text { result.now ≡ codes " " ++ (changed_word changed
        ++ (codes " " ++ (flapping_word flapping ++ codes " "))) }
    ensures bounded { length result.now ≤ 14 }
{
    match (changed, flapping) {
        (true, true) => " yes FLAPPING ",
        (true, false) => " yes STEADY ",
        (false, true) => " no FLAPPING ",
        (false, false) => " no STEADY ",
    }
}

/// Appends the line of an entry of a history, with its line feed. The line is the number of the pass
/// that made the call, a space, and the line of the reply. An error means out of memory, and a part of
/// the line may have been appended.
pub fn push_entry(line: &mut String, setup: &Setup, entry: &Entry<Call, Reply>) -> Pushed
    ensures { OnOk result
        (string_bytes line.new ≡ string_bytes line.old ++ entry_line setup.now entry.now) }
{
    let Entry { pass, call, reply } = *entry;
    push_number(line, pass as u64)?;
    line.push_str(" ")?;
    push_reply(line, setup, call, reply)
}

/// Appends the last line of a drill, with its line feed. It has the number of entries in the history,
/// and the number of calls that were refused when out of memory. An error means out of memory, and a
/// part of the line may have been appended.
pub fn push_total(line: &mut String, entries: usize, refused: u64) -> Pushed
    ensures { OnOk result
        (string_bytes line.new ≡ string_bytes line.old ++ total_line entries refused) }
{
    writeln!(line, "total {entries} {refused}")
}

/// The line of a scheduler's saved state, with its line feed: the word `saved`, a space, and the text
/// of the saved state. The scheduler stays as it is.
#[tactic(auto, unfolding(crate::specs::Text::saved_line))]
pub(crate) fn saved_line(alloc: Global, sched: &Sched) -> Result<Vec<u8>, AllocError>
    ensures { IfOk result (λ line. line.items ≡ saved_line sched.now) }
{
    let mut front = Vec::new(alloc);
    front.extend_from_slice(b"saved ")?;
    let mut line = sched.save(alloc)?.write_after(alloc, front)?;
    line.push(b'\n')?;
    Ok(line)
}

/// Why a call was refused. A refused call has changed nothing.
pub(crate) fn call_refusal_text(refusal: Refusal) -> &'static str
    ensures text { result.now ≡ (refusal_row refusal).reason }
    ensures bounded { length result.now ≤ 16 }
{
    match refusal {
        Refusal::UnknownObject => "C1 UnknownObject",
        Refusal::TimeRange => "C2 TimeRange",
        Refusal::NotRunning => "C3 NotRunning",
        Refusal::WrongRun => "C4 WrongRun",
        Refusal::RunsSpent => "C5 RunsSpent",
    }
}
