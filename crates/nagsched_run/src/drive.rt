//! A run: reads an input, carries out its commands on one scheduler, and writes the lines of the answers.

ghost use Rattle.std.specs.Prelude.{◌≡◌, ◌≢◌, ◌≤◌, IfErr, IfOk, OnOk, string_capacity};
ghost use Rattle.check_sched.specs.Step.{step};
ghost use Rattle.nagsched_protocol.specs.Forms.{answer_text, explained_text, json_line};
ghost use Rattle.nagsched_protocol.specs.Start.{CanStart};
ghost use Rattle.nagsched_protocol.specs.Text.{answer_line, line_from, state_after_command, text, text_from};
ghost use Rattle.nagsched_protocol.specs.Written.{IsLineWritten, IsTextWritten};
ghost use Rattle.nagsched_protocol.specs.Requested.{request as request_view};
ghost use Rattle.nagsched_protocol.specs.Notes.{IsNote};
ghost use Rattle.nagsched_run.specs.Drive.{RunEnded, outcome_of, run_note};
ghost use Rattle.nagsched_protocol.specs.Streams.{streams};

use check_sched::{Call, LAST_MOMENT, Sched};
use nagsched_protocol::{
    AnswerForm, DriveError, Ended, Head, MAX_READ_BYTES, Outcome, REPLY_BYTES, Request, RunCommand,
    Script, Start, flush, push_explained_reply, push_reply, read_at_most, refuse_input,
    write_json_list, write_json_reply, write_json_saved, write_list, write_saved, write_text,
};
use std::alloc::Global;
use std::io::{Read, Write};

/// Makes the calls of a script on a scheduler that starts fresh at the moment `start`, in milliseconds.
/// It is [`run`] with this start, without the note.
pub fn drive<R: Read, W: Write>(alloc: Global, start: u64, reader: &mut R, writer: &mut W) -> Ended
    requires { start ≤ LAST_MOMENT }
    ensures { RunEnded (Start.Fresh start) result
        (streams (R.remaining reader.old) (R.remaining reader.new)
        (W.contents writer.old) (W.contents writer.new)) }
{
    let mut note = String::new(alloc);
    run(alloc, Start::Fresh(start), reader, writer, &mut note)
}

/// Runs a script. It reads a setup, a saved state if the scheduler starts from one, and commands, and
/// checks every line. Then it makes the calls on one scheduler that starts as `start` says, and writes
/// the line of each reply. The commands `save` and `list` aren't calls, and change nothing: their answers
/// are the line of the scheduler's saved state, and the lines of all objects. For a refused input it writes only the line of the first
/// refusal. The writer is flushed once, at the end.
///
/// Line 1 is the setup. A saved state is line 2, of any length: it is the text after the word in a line
/// `saved`. The tests come in this order: the input's length, the setup, the saved state, the lines in
/// their order.
///
/// The input is read whole, but at most 67,108,865 bytes of it. Any error of the reader or the writer
/// ends the run. An interruption is such an error, and so is a write that takes no byte.
///
/// - `Read`: the reader failed, and nothing was written.
/// - `Write`: the writer or its flush failed, and a prefix of the text was written.
/// - `Memory`: out of memory, and a prefix of the text was written. It is whole lines, and never all of
///   a text that has a line.
///
/// The prefix is empty if the input wasn't read.
///
/// Input, text and commands are our own profile. The rules of the calls are those of check_sched, after
/// the chapters of the Nagios Core 4 manual that it names.
///
/// `note` gets the sentence that explains a refusal.
pub fn run<R: Read, W: Write>(
    alloc: Global,
    start: Start,
    reader: &mut R,
    writer: &mut W,
    note: &mut String,
) -> Ended
    requires { CanStart start }
    ensures { (run : RunEnded start result
        (streams (R.remaining reader.old) (R.remaining reader.new)
        (W.contents writer.old) (W.contents writer.new)))
        × OnOk result (IsNote note.old note.new (run_note start run.input)) }
{
    let input = read_at_most(alloc, reader, MAX_READ_BYTES)?;
    let outcome = answer(alloc, start, &input, writer, note)?;
    flush(writer)?;
    Ok(outcome)
}

/// Writes the text of an input that was read.
#[tactic(auto, unfolding(nagsched_protocol::specs::Text::text, crate::specs::Drive::outcome_of))]
fn answer<W: Write>(
    alloc: Global,
    start: Start,
    input: &[u8],
    writer: &mut W,
    note: &mut String,
) -> Ended
    requires { CanStart start }
    ensures wrote { IsTextWritten result (W.contents writer.old) (W.contents writer.new)
        (text start input.now) }
    ensures outcome { IfOk result (λ outcome. outcome ≡ outcome_of start input.now) }
    ensures note { OnOk result (IsNote note.old note.new (run_note start input.now)) }
{
    match Script::read(alloc, start, input) {
        Ok(Script { sched, commands }) => carry_out(alloc, sched, &commands, writer),
        Err(error) => refuse_input(alloc, AnswerForm::Words, input, error, writer, note),
    }
}

/// Carries out these commands on a scheduler that nobody needs afterwards, and writes the line of each
/// answer.
fn carry_out<W: Write>(
    alloc: Global,
    sched: Sched,
    commands: &[RunCommand],
    writer: &mut W,
) -> Ended
    ensures wrote { IsTextWritten result (W.contents writer.old) (W.contents writer.new)
        (text_from sched commands.now) }
    ensures outcome { IfOk result (λ outcome. outcome ≡ Outcome.Ran) }
{
    let mut sched = sched;
    answer_commands(alloc, &mut sched, commands, writer)
}

/// Carries out these commands, and writes the line of each answer. One buffer serves the lines of all
/// replies.
fn answer_commands<W: Write>(
    alloc: Global,
    sched: &mut Sched,
    commands: &[RunCommand],
    writer: &mut W,
) -> Ended
    ensures wrote { IsTextWritten result (W.contents writer.old) (W.contents writer.new)
        (text_from sched.old commands.now) }
    ensures outcome { IfOk result (λ outcome. outcome ≡ Outcome.Ran) }
{
    let mut line = String::new(alloc);
    for command in commands {
        answer_command(alloc, sched, *command, &mut line, writer)?;
    }
    Ok(Outcome::Ran)
}

/// Carries out one command, and writes its answer. The line of a reply goes through the buffer `line`.
/// With room for `REPLY_BYTES` in that buffer, `Memory` comes only from `save` and `list`, which change
/// nothing.
pub(crate) fn answer_command<W: Write>(
    alloc: Global,
    sched: &mut Sched,
    command: RunCommand,
    line: &mut String,
    writer: &mut W,
) -> Result<(), DriveError>
    ensures state { sched.new ≡ state_after_command sched.old command }
    ensures wrote { IsLineWritten result (W.contents writer.old) (W.contents writer.new)
        (answer_line sched.old command) }
    ensures capacity { string_capacity line.old ≤ string_capacity line.new }
    ensures sufficient { REPLY_BYTES ≤ string_capacity line.old
        → IfErr result (λ e. e ≡ DriveError.Memory → sched.new ≡ sched.old) }
{
    match command {
        RunCommand::Call(call) => make_call(sched, call, line, writer),
        RunCommand::Save => write_saved(alloc, sched, writer),
        RunCommand::List => write_list(alloc, sched, writer),
    }
}

/// Carries out the command of a request, and writes its answer in this form. The request is in the line with
/// this number. The line of a reply in words goes through the buffer `line`. With room for `REPLY_BYTES` in
/// that buffer, `Memory` comes in words only from `save` and `list`, which change nothing. In JSON it may
/// come after a call was made.
pub(crate) fn answer_as<W: Write>(
    alloc: Global,
    form: AnswerForm,
    number: usize,
    sched: &mut Sched,
    request: &Request,
    line: &mut String,
    writer: &mut W,
) -> Result<(), DriveError>
    ensures state { sched.new ≡ state_after_command sched.old request.now.command }
    ensures wrote { IsLineWritten result (W.contents writer.old) (W.contents writer.new)
        (answer_text form number sched.old (request_view request.now)) }
    ensures capacity { string_capacity line.old ≤ string_capacity line.new }
    ensures sufficient { form ≢ AnswerForm.Json → REPLY_BYTES ≤ string_capacity line.old
        → IfErr result (λ e. e ≡ DriveError.Memory → sched.new ≡ sched.old) }
{
    match form {
        AnswerForm::Words => answer_command(alloc, sched, request.command, line, writer),
        AnswerForm::Explained => answer_explained(
            alloc,
            number,
            sched,
            request.command,
            line,
            writer,
        ),
        AnswerForm::Json => answer_as_json(alloc, number, sched, request, writer),
    }
}

/// Carries out one command, and writes its answer like [`answer_command`]. If a call is refused, a second line
/// explains why. The command is in the line with this number.
fn answer_explained<W: Write>(
    alloc: Global,
    number: usize,
    sched: &mut Sched,
    command: RunCommand,
    line: &mut String,
    writer: &mut W,
) -> Result<(), DriveError>
    ensures state { sched.new ≡ state_after_command sched.old command }
    ensures wrote { IsLineWritten result (W.contents writer.old) (W.contents writer.new)
        (explained_text number sched.old command) }
    ensures capacity { string_capacity line.old ≤ string_capacity line.new }
    ensures sufficient { REPLY_BYTES ≤ string_capacity line.old
        → IfErr result (λ e. e ≡ DriveError.Memory → sched.new ≡ sched.old) }
{
    match command {
        RunCommand::Call(call) => make_explained_call(alloc, number, sched, call, line, writer),
        RunCommand::Save | RunCommand::List => answer_command(alloc, sched, command, line, writer),
    }
}

/// Makes the call of the line with this number, and writes its explained reply through the buffer `line`.
fn make_explained_call<W: Write>(
    alloc: Global,
    number: usize,
    sched: &mut Sched,
    call: Call,
    line: &mut String,
    writer: &mut W,
) -> Result<(), DriveError>
    ensures state { sched.new ≡ (step sched.old call).0 }
    ensures wrote { IsLineWritten result (W.contents writer.old) (W.contents writer.new)
        (explained_text number sched.old (RunCommand.Call call)) }
    ensures capacity { string_capacity line.old ≤ string_capacity line.new }
    ensures sufficient { REPLY_BYTES ≤ string_capacity line.old
        → IfErr result (λ e. e ≡ DriveError.Memory → sched.new ≡ sched.old) }
{
    let reply = sched.apply(call);
    line.clear();
    push_explained_reply(alloc, line, number, sched.setup(), call, reply)?;
    write_text(writer, line.as_bytes())
}

/// Carries out the command of a request, and writes its answer as JSON. The request is in the line with this
/// number.
fn answer_as_json<W: Write>(
    alloc: Global,
    number: usize,
    sched: &mut Sched,
    request: &Request,
    writer: &mut W,
) -> Result<(), DriveError>
    ensures state { sched.new ≡ state_after_command sched.old request.now.command }
    ensures wrote { IsLineWritten result (W.contents writer.old) (W.contents writer.new)
        (json_line number sched.old (request_view request.now)) }
{
    let head = Head {
        line: number,
        id: request.id.as_ref(),
    };
    match request.command {
        RunCommand::Call(call) => {
            let reply = sched.apply(call);
            write_json_reply(alloc, head, sched.setup(), call, reply, writer)
        }
        RunCommand::Save => write_json_saved(alloc, head, sched, writer),
        RunCommand::List => write_json_list(alloc, head, sched, writer),
    }
}

/// Makes one call, and writes the line of its reply through the buffer `line`. With room for
/// `REPLY_BYTES` in that buffer, `Memory` doesn't come.
pub fn make_call<W: Write>(
    sched: &mut Sched,
    call: Call,
    line: &mut String,
    writer: &mut W,
) -> Result<(), DriveError>
    ensures state { sched.new ≡ (step sched.old call).0 }
    ensures setup { sched.new.setup ≡ sched.old.setup }
    ensures wrote { IsLineWritten result (W.contents writer.old) (W.contents writer.new)
        (line_from sched.old call) }
    ensures capacity { string_capacity line.old ≤ string_capacity line.new }
    ensures sufficient { REPLY_BYTES ≤ string_capacity line.old
        → IfErr result (λ e. e ≢ DriveError.Memory) }
{
    let reply = sched.apply(call);
    line.clear();
    push_reply(line, sched.setup(), call, reply)?;
    write_text(writer, line.as_bytes())
}
