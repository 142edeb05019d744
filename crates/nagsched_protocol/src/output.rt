//! Gives bytes to a writer: a text, the line of a refusal or of a saved state, the lines of all objects,
//! and the flush at the end. The modules `text`, `refusal_text`, `listing` and `json_text` make the lines.

ghost use Rattle.std.specs.Prelude.{◌≡◌, ◌≤◌, ◌+◌, ◌++◌, IfErr, IfOk, IfSome, IsErrAnd, IsOkUnless, None, OnErr, OnOk, string_bytes, string_capacity};
ghost use Rattle.std.specs.Prelude.{string_len};
ghost use Rattle.std.specs.Io.KnownBytes.{Appends, Keeps};
ghost use Rattle.nagsched_protocol.specs.Agreement.{refusal};
ghost use Rattle.nagsched_protocol.specs.Output.{WroteFront};
ghost use Rattle.nagsched_protocol.specs.Explanation.{sentence};
ghost use Rattle.nagsched_protocol.specs.Forms.{refusal_text};
ghost use Rattle.nagsched_protocol.specs.CallExplanation.{IsRefused, explained_answer, explained_line, explained_reply};
ghost use Rattle.nagsched_protocol.specs.Notes.{IsNote};
ghost use Rattle.nagsched_protocol.specs.Requested.{head_id};
ghost use Rattle.nagsched_protocol.specs.Script.{refused_bytes};
ghost use Rattle.nagsched_protocol.specs.JsonText.{json_answer_line, json_list_line, json_saved_line};
ghost use Rattle.nagsched_protocol.specs.Text.{list_lines, refusal_line, saved_line};
ghost use Rattle.nagsched_protocol.specs.Written.{IsLineWritten};

use crate::answer_form::AnswerForm;
use crate::call_explanation::explain_reply;
use crate::drive_error::DriveError;
use crate::explanation::explain_refusal;
use crate::json_text::{Head, json_list_line, json_refusal_line, json_reply_line, json_saved_line};
use crate::listing::list_lines;
use crate::outcome::{Ended, Outcome};
use crate::refusal::{InputRefusal, ScriptError};
use crate::refusal_text::push_refusal;
use crate::script::refused_bytes;
use crate::text::{Pushed, REPLY_BYTES, push_reply, saved_line};
use check_objects::Setup;
use check_sched::{Call, Reply, Sched};
use std::alloc::{AllocError, Global};
use std::io::Write;

/// Writes all of the text, or up to a fault the prefix that the writer took.
///
/// Each error of the writer is a fault, an interruption too, and so is a write that takes no byte:
/// nothing is tried again.
pub fn write_text<W: Write>(writer: &mut W, text: &[u8]) -> Result<(), DriveError>
    ensures ok { OnOk result (Appends (W.contents writer.old) (W.contents writer.new) text.now) }
    ensures err { OnErr result
        (WroteFront (W.contents writer.old) (W.contents writer.new) text.now) }
    ensures only { IsOkUnless result DriveError.Write }
{
    let mut rest = text;
    while !rest.is_empty() {
        let Ok(count) = writer.write(rest) else {
            return Err(DriveError::Write);
        };
        if count == 0 {
            return Err(DriveError::Write);
        }
        rest = &rest[count..];
    }
    Ok(())
}

/// Writes the line of a scheduler's saved state. The scheduler stays as it is, and nothing is flushed.
/// The error is `Write`, and a prefix of the line was written then, or `Memory`, and nothing was
/// written.
#[tactic(auto, using(crate::proofs::WrittenLemmas::line_written, crate::proofs::WrittenLemmas::line_unwritten))]
pub fn write_saved<W: Write>(alloc: Global, sched: &Sched, writer: &mut W) -> Result<(), DriveError>
    ensures { IsLineWritten result (W.contents writer.old) (W.contents writer.new)
        (saved_line sched.now) }
{
    let line = saved_line(alloc, sched)?;
    write_text(writer, &line)
}

/// Writes the lines of all objects. The scheduler stays as it is, and nothing is flushed. The error is
/// `Write`, and a prefix of the lines was written then, or `Memory`, and nothing was written.
#[tactic(auto, using(crate::proofs::WrittenLemmas::line_written, crate::proofs::WrittenLemmas::line_unwritten))]
pub fn write_list<W: Write>(alloc: Global, sched: &Sched, writer: &mut W) -> Result<(), DriveError>
    ensures { IsLineWritten result (W.contents writer.old) (W.contents writer.new)
        (list_lines sched.now) }
{
    let lines = list_lines(alloc, sched)?;
    write_text(writer, lines.as_bytes())
}

/// Writes a refusal in this form. `line` has the bytes of the refused line. Nothing is flushed. The error is
/// `Write`, and a prefix of the refusal was written then, or `Memory`, and nothing was written.
#[tactic(auto, using(crate::proofs::WrittenLemmas::line_written, crate::proofs::WrittenLemmas::line_unwritten))]
pub fn refuse_as<W: Write>(
    alloc: Global,
    form: AnswerForm,
    line: &[u8],
    refusal: InputRefusal,
    writer: &mut W,
) -> Result<(), DriveError>
    ensures { IsLineWritten result (W.contents writer.old) (W.contents writer.new)
        (refusal_text form line.now refusal) }
{
    let text = refusal_text(alloc, form, line, refusal)?;
    write_text(writer, &text)
}

/// Writes the refusal of an input in this form, and appends the sentence that explains it to the note. Nothing is
/// flushed. The error is `Write`, and a prefix of the refusal was written then, or `Memory`, and nothing was
/// written. After an error the note may already have the sentence.
pub fn refuse_input<W: Write>(
    alloc: Global,
    form: AnswerForm,
    input: &[u8],
    error: ScriptError,
    writer: &mut W,
    note: &mut String,
) -> Ended
    ensures wrote { IfSome (refusal error) (λ why. IsLineWritten result (W.contents writer.old) (W.contents writer.new)
        (refusal_text form (refused_bytes input.now why) why)) }
    ensures note { IfSome (refusal error) (λ why. OnOk result
        (IsNote note.old note.new (sentence (refused_bytes input.now why) why))) }
    ensures outcome { IfOk result (λ outcome. outcome ≡ Outcome.Refused) }
    ensures memory { refusal error ≡ None → IsErrAnd result (λ e. e ≡ DriveError.Memory)
        × (W.contents writer.new ≡ W.contents writer.old) }
{
    let refusal = error.refusal()?;
    let line = refused_bytes(input, refusal);
    let explanation = explain_refusal(alloc, line, refusal)?;
    note.push_str(explanation.as_str())?;
    refuse_as(alloc, form, line, refusal, writer)?;
    Ok(Outcome::Refused)
}

/// The refusal in this form.
fn refusal_text(
    alloc: Global,
    form: AnswerForm,
    line: &[u8],
    refusal: InputRefusal,
) -> Result<Vec<u8>, AllocError>
    ensures { IfOk result (λ text. text.items ≡ refusal_text form line.now refusal) }
{
    match form {
        AnswerForm::Words => words_of_refusal(alloc, refusal),
        AnswerForm::Explained => explained_refusal(alloc, line, refusal),
        AnswerForm::Json => json_refusal_line(alloc, line, refusal),
    }
}

/// The line of a refusal.
fn words_of_refusal(alloc: Global, refusal: InputRefusal) -> Result<Vec<u8>, AllocError>
    ensures { IfOk result (λ text. text.items ≡ refusal_line refusal) }
{
    let mut text = String::new(alloc);
    push_refusal(&mut text, refusal)?;
    Ok(text.into_bytes())
}

/// The line of a refusal, and the line that explains it.
fn explained_refusal(
    alloc: Global,
    line: &[u8],
    refusal: InputRefusal,
) -> Result<Vec<u8>, AllocError>
    ensures { IfOk result (λ text. text.items
        ≡ refusal_line refusal ++ explained_line (sentence line.now refusal)) }
{
    let explanation = explain_refusal(alloc, line, refusal)?;
    let mut text = String::new(alloc);
    push_refusal(&mut text, refusal)?;
    push_explained(&mut text, explanation.as_str())?;
    Ok(text.into_bytes())
}

/// Appends a sentence as a line of its own.
fn push_explained(text: &mut String, sentence: &str) -> Pushed
    ensures text { OnOk result (string_bytes text.new ≡ string_bytes text.old ++ explained_line sentence.now) }
    ensures capacity { string_capacity text.old ≤ string_capacity text.new }
{
    text.push_str("explained ")?;
    text.push_str(sentence)?;
    text.push_str("\n")
}

/// Appends the line of the reply to the call in the line with this number, like [`push_reply`]. If the call
/// was refused, a second line explains why. If the text has room for `REPLY_BYTES` more, out of memory comes
/// only after a refused call. After an error the text may have a part of the lines.
pub fn push_explained_reply(
    alloc: Global,
    text: &mut String,
    number: usize,
    setup: &Setup,
    call: Call,
    reply: Reply,
) -> Pushed
    ensures text { OnOk result (string_bytes text.new
        ≡ string_bytes text.old ++ explained_reply number setup.now call reply) }
    ensures capacity { string_capacity text.old ≤ string_capacity text.new }
    ensures refused { string_len text.old + REPLY_BYTES ≤ string_capacity text.old
        → IfErr result (λ e. IsRefused reply) }
{
    push_reply(text, setup, call, reply)?;
    match explain_reply(alloc, number, setup, call, reply)? {
        Some(sentence) => push_explained(text, sentence.as_str()),
        None => Ok(()),
    }
}

/// Writes the line of the reply to a call as JSON. Nothing is flushed. The error is `Write`, and a prefix of
/// the line was written then, or `Memory`, and nothing was written.
#[tactic(auto, using(crate::proofs::WrittenLemmas::line_written, crate::proofs::WrittenLemmas::line_unwritten))]
pub fn write_json_reply<W: Write>(
    alloc: Global,
    head: Head,
    setup: &Setup,
    call: Call,
    reply: Reply,
    writer: &mut W,
) -> Result<(), DriveError>
    ensures { IsLineWritten result (W.contents writer.old) (W.contents writer.new)
        (json_answer_line head.entry.line (head_id head.entry)
        (explained_answer head.entry.line setup.now call reply)) }
{
    let text = json_reply_line(alloc, head, setup, call, reply)?;
    write_text(writer, &text)
}

/// Writes the line of a scheduler's saved state as JSON, like [`write_saved`].
#[tactic(auto, using(crate::proofs::WrittenLemmas::line_written, crate::proofs::WrittenLemmas::line_unwritten))]
pub fn write_json_saved<W: Write>(
    alloc: Global,
    head: Head,
    sched: &Sched,
    writer: &mut W,
) -> Result<(), DriveError>
    ensures { IsLineWritten result (W.contents writer.old) (W.contents writer.new)
        (json_saved_line head.entry.line (head_id head.entry) sched.now) }
{
    let text = json_saved_line(alloc, head, sched)?;
    write_text(writer, &text)
}

/// Writes the line of all objects as JSON, like [`write_list`].
#[tactic(auto, using(crate::proofs::WrittenLemmas::line_written, crate::proofs::WrittenLemmas::line_unwritten))]
pub fn write_json_list<W: Write>(
    alloc: Global,
    head: Head,
    sched: &Sched,
    writer: &mut W,
) -> Result<(), DriveError>
    ensures { IsLineWritten result (W.contents writer.old) (W.contents writer.new)
        (json_list_line head.entry.line (head_id head.entry) sched.now) }
{
    let text = json_list_line(alloc, head, sched)?;
    write_text(writer, &text)
}

/// Writes a text and flushes it. The error is `Write`, and a prefix of the text was written then.
pub fn print_text<W: Write>(writer: &mut W, text: &[u8]) -> Result<(), DriveError>
    ensures written { OnOk result
        (Appends (W.contents writer.old) (W.contents writer.new) text.now) }
    ensures fault { OnErr result
        (WroteFront (W.contents writer.old) (W.contents writer.new) text.now) }
    ensures only { IsOkUnless result DriveError.Write }
{
    write_text(writer, text)?;
    flush(writer)
}

/// Flushes the writer. The error is `Write`.
pub fn flush<W: Write>(writer: &mut W) -> Result<(), DriveError>
    ensures kept { Keeps (W.contents writer.old) (W.contents writer.new) }
    ensures kind { IsOkUnless result DriveError.Write }
{
    match writer.flush() {
        Ok(()) => Ok(()),
        Err(_) => Err(DriveError::Write),
    }
}
