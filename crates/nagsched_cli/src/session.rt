//! Does the job that the program's arguments ask for, and gives the exit status.

ghost use Rattle.std.specs.Prelude.{◌≡◌, ℕ, List, codes, OnOk, OnErr, IsOkUnless};
ghost use Rattle.std.specs.Io.KnownBytes.{Appends};
ghost use Rattle.clap.specs.Walk.{texts};
ghost use Rattle.nagsched_protocol.specs.Notes.{IsNote};
ghost use Rattle.nagsched_protocol.specs.Output.{WroteFront};
ghost use Rattle.nagsched_protocol.specs.Start.{CanStart};
ghost use Rattle.nagsched_protocol.specs.Streams.{streams};
ghost use Rattle.nagsched_cli.specs.Session.{exit_status, SessionEnds, JobEnded, RunNoted, IsSchemaOutput, IsJobTextOutput, IsWordsOutput};
ghost use Rattle.nagsched_cli.specs.Arguments.{IsWithinLimits};

use crate::arguments::{Job, WordsError};
use crate::job::job;
use nagsched_jobs::check::{check, write_setup_line};
use nagsched_jobs::drill::drill;
use nagsched_protocol::{AnswerForm, DriveError, Ended, Outcome, Start, print_text};
use nagsched_run::drive::run;
use nagsched_run::json_run::run_as_json;
use nagsched_run::live::live;
use setup_diagnostics::json_schema;
use std::alloc::Global;
use std::io::{Read, Write};
use std::sync::Wait;
use std::thread::Threads;

/// How a session ended, if it met no fault and wasn't out of memory.
#[derive(Clone, Copy, Debug, PartialEq, Eq)]
pub enum Ending {
    /// The arguments were accepted, and the input was run or refused. Or the schema was written, which
    /// reads no input.
    RunEnded(Outcome),
    /// The arguments asked for help or for the version, and it was written. The input wasn't read.
    Helped,
    /// The arguments were refused, and the line that says so was written. The input wasn't read.
    RefusedWords,
}

/// Does the job that the program's arguments ask for. The first argument is the program's name. The
/// arguments are tested first. If they are refused, the line `refused words` is written; if they ask
/// for help or the version, that text. In both cases the input isn't read. The writer is flushed once,
/// at the end. Only `live` flushes it before each read too.
///
/// [`exit_status`] gives the status. After an error, a job leaves what `run`, `live`, `check`,
/// `write_setup_line` or `drill` says about that error. Without a job, and if the job is the schema, the
/// reader is as it was, and the writer has got nothing or a prefix of the text.
///
/// If a run or a drill refuses its input, `note` gets the sentence that explains why.
///
/// `rt` is the machine that starts threads and waits, which only a drill uses.
pub fn session<H: Threads + Wait + Sync, R: Read, W: Write>(
    rt: &H,
    alloc: Global,
    words: &[&str],
    reader: &mut R,
    writer: &mut W,
    note: &mut String,
) -> Result<Ending, DriveError>
    ensures { (noted : List ℕ) × OnOk result (IsNote note.old note.new noted)
        × SessionEnds (texts words.now) result
        (streams (R.remaining reader.old) (R.remaining reader.new)
        (W.contents writer.old) (W.contents writer.new)) noted }
{
    match job(alloc, words) {
        Ok(request) => {
            let outcome = do_job(rt, alloc, request, reader, writer, note)?;
            Ok(Ending::RunEnded(outcome))
        }
        Err(error) => print_words_error(error, writer),
    }
}

/// Does a job. A run or a drill that refuses its input notes why.
fn do_job<H: Threads + Wait + Sync, R: Read, W: Write>(
    rt: &H,
    alloc: Global,
    request: Job,
    reader: &mut R,
    writer: &mut W,
    note: &mut String,
) -> Ended
    requires { IsWithinLimits request }
    ensures { (noted : List ℕ) × OnOk result (IsNote note.old note.new noted)
        × JobEnded request result
        (streams (R.remaining reader.old) (R.remaining reader.new)
        (W.contents writer.old) (W.contents writer.new)) noted }
{
    match request {
        Job::Run { start, form } => run_as(alloc, form, start, reader, writer, note),
        Job::Live { start, form } => live(alloc, form, start, reader, writer),
        Job::Check { start } => check(alloc, start, reader, writer),
        Job::SetupLine => write_setup_line(alloc, reader, writer),
        Job::Drill {
            start,
            workers,
            room,
        } => drill(rt, alloc, start, workers, room, reader, writer, note),
        Job::Schema => print_schema(alloc, writer),
    }
}

/// Runs a script, and answers it in this form. The lines of a run don't explain refusals, so its form is words
/// or JSON.
fn run_as<R: Read, W: Write>(
    alloc: Global,
    form: AnswerForm,
    start: Start,
    reader: &mut R,
    writer: &mut W,
    note: &mut String,
) -> Ended
    requires { CanStart start }
    ensures { (noted : List ℕ) × OnOk result (IsNote note.old note.new noted)
        × RunNoted form start result
        (streams (R.remaining reader.old) (R.remaining reader.new)
        (W.contents writer.old) (W.contents writer.new)) noted }
{
    match form {
        AnswerForm::Words | AnswerForm::Explained => run(alloc, start, reader, writer, note),
        AnswerForm::Json => run_as_json(alloc, start, reader, writer, note),
    }
}

/// Writes the JSON schema of a setup. Out of memory it writes nothing.
fn print_schema<W: Write>(alloc: Global, writer: &mut W) -> Ended
    ensures { IsSchemaOutput result (W.contents writer.old) (W.contents writer.new) }
{
    match json_schema(alloc) {
        Ok(schema) => print_job_text(writer, schema.as_str()),
        Err(_) => Err(DriveError::Memory),
    }
}

/// Writes the whole text of a job, and flushes it.
fn print_job_text<W: Write>(writer: &mut W, report: &str) -> Ended
    ensures { IsJobTextOutput report.now result (W.contents writer.old) (W.contents writer.new) }
{
    print_text(writer, report.as_bytes())?;
    Ok(Outcome::Ran)
}

/// Answers arguments that ask for no job: by the text that they ask for, or by the line that refuses
/// them. Out of memory it writes nothing.
fn print_words_error<W: Write>(error: WordsError, writer: &mut W) -> Result<Ending, DriveError>
    ensures { IsWordsOutput error result (W.contents writer.old) (W.contents writer.new) }
{
    match error {
        WordsError::Help(text) => {
            print_text(writer, text.as_bytes())?;
            Ok(Ending::Helped)
        }
        WordsError::Refused => {
            refuse_words(writer)?;
            Ok(Ending::RefusedWords)
        }
        WordsError::Memory => Err(DriveError::Memory),
    }
}

/// Writes the line that refuses the program's arguments, and flushes it. The error is `Write`: the
/// writer or its flush failed, or a write took no byte. A prefix of the line was written then.
pub fn refuse_words<W: Write>(writer: &mut W) -> Result<(), DriveError>
    ensures written { OnOk result
        (Appends (W.contents writer.old) (W.contents writer.new) (codes "refused words\n")) }
    ensures fault { OnErr result
        (WroteFront (W.contents writer.old) (W.contents writer.new) (codes "refused words\n")) }
    ensures only { IsOkUnless result DriveError.Write }
{
    print_text(writer, b"refused words\n")
}

/// The exit status of a session:
///
/// - 0: done, or the help or the version was printed.
/// - 1: the input was refused.
/// - 2: the arguments were refused.
/// - 3: a fault of the reader or the writer.
/// - 4: out of memory.
pub fn exit_status(ended: Result<Ending, DriveError>) -> u8
    ensures { result ≡ exit_status ended }
{
    match ended {
        Ok(Ending::RunEnded(Outcome::Ran) | Ending::Helped) => 0,
        Ok(Ending::RunEnded(Outcome::Refused)) => 1,
        Ok(Ending::RefusedWords) => 2,
        Err(DriveError::Read | DriveError::Write) => 3,
        Err(DriveError::Memory) => 4,
    }
}
