//! A run whose answers are JSON objects. Its lines are tested first, and then answered like those of a
//! conversation.

ghost use Rattle.std.specs.Prelude.{◌≡◌, IfOk, OnOk};
ghost use Rattle.nagsched_protocol.specs.Notes.{IsNote};
ghost use Rattle.nagsched_protocol.specs.Start.{CanStart};
ghost use Rattle.nagsched_protocol.specs.Streams.{streams};
ghost use Rattle.nagsched_run.specs.JsonRun.{JsonRunEnded, IsJsonText, json_outcome, json_run_note, json_run_text};

use crate::live::live;
use nagsched_protocol::{
    AnswerForm, Ended, MAX_READ_BYTES, Start, flush, read_at_most, refuse_input, test_requests,
};
use std::alloc::Global;
use std::io::{Read, Write};

/// Runs a script like [`run`](crate::drive::run), and answers each line with a JSON object. A request may have
/// an id, which its answer repeats. For a refused input it writes only the object of the first refusal, and
/// `note` gets the sentence that explains it.
///
/// The errors are those of a run. Out of memory, whole objects were written.
pub fn run_as_json<R: Read, W: Write>(
    alloc: Global,
    start: Start,
    reader: &mut R,
    writer: &mut W,
    note: &mut String,
) -> Ended
    requires { CanStart start }
    ensures { (run : JsonRunEnded start result
        (streams (R.remaining reader.old) (R.remaining reader.new)
        (W.contents writer.old) (W.contents writer.new)))
        × OnOk result (IsNote note.old note.new (json_run_note start run.input)) }
{
    let input = read_at_most(alloc, reader, MAX_READ_BYTES)?;
    let outcome = answer(alloc, start, &input, writer, note)?;
    flush(writer)?;
    Ok(outcome)
}

/// Writes the text of an input that was read.
fn answer<W: Write>(
    alloc: Global,
    start: Start,
    input: &[u8],
    writer: &mut W,
    note: &mut String,
) -> Ended
    requires { CanStart start }
    ensures wrote { IsJsonText result (W.contents writer.old) (W.contents writer.new)
        (json_run_text start input.now) }
    ensures outcome { IfOk result (λ outcome. outcome ≡ json_outcome start input.now) }
    ensures note { OnOk result (IsNote note.old note.new (json_run_note start input.now)) }
{
    match test_requests(alloc, start, input) {
        Ok(()) => live(alloc, AnswerForm::Json, start, &mut &*input, writer),
        Err(error) => refuse_input(alloc, AnswerForm::Json, input, error, writer, note),
    }
}
