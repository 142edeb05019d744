//! A drill: reads a setup, return codes and moments, lets many workers work on one scheduler, and
//! writes the history that they made.

ghost use Rattle.std.specs.Prelude.{◌≡◌, ◌<◌, ◌≤◌, IfOk, IfErr, OnOk, length};
ghost use Rattle.std.specs.List.{All};
ghost use Rattle.check_book.specs.BookState.{book_opening};
ghost use Rattle.check_book.specs.Books.{entries_of, refused_of, sched_of};
ghost use Rattle.check_desk.specs.Desks.{AreNewPasses, IsPassOf, desk_opening, passes_of};
ghost use Rattle.nagsched_jobs.specs.Drill.{DrillEnded, IsDrill, IsDrillWritten, drill_note, drill_outcome};
ghost use Rattle.nagsched_protocol.specs.DrillScript.{drill_script_of};
ghost use Rattle.nagsched_protocol.specs.DrillScripted.{drill_script};
ghost use Rattle.nagsched_protocol.specs.Notes.{IsNote};
ghost use Rattle.nagsched_protocol.specs.Streams.{streams};
ghost use Rattle.nagsched_protocol.specs.Text.{drill_text, entry_line, total_line};
ghost use Rattle.nagsched_protocol.specs.Written.{IsLineWritten, IsTextWritten};

use crate::scripted_plugin::ScriptedPlugin;
use check_book::Book;
use check_desk::{Desk, Pass};
use check_objects::Setup;
use check_sched::{Call, LAST_MOMENT, Reply};
use check_workers::crew;
use nagsched_protocol::{
    AnswerForm, DrillScript, DriveError, Ended, MAX_INPUT_BYTES, MAX_READ_BYTES, Outcome, flush,
    push_entry, push_total, read_at_most, refuse_input, write_text,
};
use std::alloc::{AllocError, Global};
use std::io::{Read, Write};
use std::sync::Wait;
use std::thread::Threads;
use ticket_steps::{Entry, Kept};

/// Runs a drill. It reads a setup and the script of a drill, and checks every line. Then it lets
/// `workers` workers work at the script's moments on one scheduler that starts at the moment `start`,
/// in milliseconds. Each worker asks for a check at each moment, and reports the scripted code of the
/// check that it gets. When all workers have returned, the history is written, and then the total. Each
/// entry is a line with the number of its pass. For a refused input only the line of its first refusal
/// is written, and `note` gets the sentence that explains it. The writer is flushed once, at the end.
///
/// The book has room for `room` entries, and memory for more is asked for as they come. A worker stops
/// at its first call without memory, and the total counts this call.
///
/// - `Read`: the reader failed, and nothing was written.
/// - `Write`: the writer or its flush failed. Nothing was written, or a prefix of a text that the drill
///   can write.
/// - `Memory`: out of memory elsewhere, for example for a thread. The output is as after `Write`, but
///   whole lines, and never all of the text.
///
/// (A drill is our own profile.)
pub fn drill<H: Threads + Wait + Sync, R: Read, W: Write>(
    rt: &H,
    alloc: Global,
    start: u64,
    workers: u32,
    room: usize,
    reader: &mut R,
    writer: &mut W,
    note: &mut String,
) -> Ended
    requires start { start ≤ LAST_MOMENT }
    requires workers { (0 < workers) × (workers ≤ 64) }
    ensures { (drill : DrillEnded start workers room result
        (streams (R.remaining reader.old) (R.remaining reader.new)
        (W.contents writer.old) (W.contents writer.new)))
        × OnOk result (IsNote note.old note.new (drill_note drill.input)) }
{
    let input = read_at_most(alloc, reader, MAX_READ_BYTES)?;
    let outcome = answer(rt, alloc, start, workers, room, &input, writer, note)?;
    flush(writer)?;
    Ok(outcome)
}

/// Writes the text of an input that was read.
#[tactic(auto, unfolding(nagsched_protocol::specs::DrillScript::drill_script_of))]
fn answer<H: Threads + Wait + Sync, W: Write>(
    rt: &H,
    alloc: Global,
    start: u64,
    workers: u32,
    room: usize,
    input: &[u8],
    writer: &mut W,
    note: &mut String,
) -> Ended
    requires start { start ≤ LAST_MOMENT }
    requires workers { (0 < workers) × (workers ≤ 64) }
    ensures wrote { IsDrillWritten start workers room input.now result
        (W.contents writer.old) (W.contents writer.new) }
    ensures outcome { IfOk result (λ outcome. outcome ≡ drill_outcome input.now) }
    ensures note { OnOk result (IsNote note.old note.new (drill_note input.now)) }
{
    match DrillScript::read(alloc, input) {
        Ok(script) => {
            let book = work_all(rt, alloc, start, workers, room, script)?;
            write_book(alloc, &book, writer)
        }
        Err(error) => refuse_input(alloc, AnswerForm::Words, input, error, writer, note),
    }
}

/// Lets the workers work, and returns the book that they leave.
fn work_all<H: Threads + Wait + Sync>(
    rt: &H,
    alloc: Global,
    start: u64,
    workers: u32,
    room: usize,
    script: DrillScript,
) -> Result<Book, DriveError>
    requires start { start ≤ LAST_MOMENT }
    requires workers { (0 < workers) × (workers ≤ 64) }
    requires bounded { length script.moments.items ≤ MAX_INPUT_BYTES }
    ensures drill { IfOk result (λ book. IsDrill (drill_script script) start workers room
        (entries_of book) (refused_of book)) }
    ensures setup { IfOk result (λ book. (sched_of book).setup ≡ script.setup) }
    ensures kind { IfErr result (λ e. e ≡ DriveError.Memory) }
{
    let DrillScript {
        setup,
        codes,
        moments,
    } = script;
    let (desk, passes) = open_desk(alloc, setup, start, workers, room)?;
    match crew(rt, alloc, desk, passes, &ScriptedPlugin { codes }, &moments) {
        Ok((book, _tally)) => Ok(book),
        Err(_) => Err(DriveError::Memory),
    }
}

/// A desk over an empty book, and a pass for each worker. An Err means out of memory.
fn open_desk(
    alloc: Global,
    setup: Setup,
    start: u64,
    workers: u32,
    room: usize,
) -> Result<(Desk, Vec<Pass>), AllocError>
    requires start { start ≤ LAST_MOMENT }
    requires workers { (0 < workers) × (workers ≤ 64) }
    ensures opening { IfOk result (λ made. desk_opening made.0 ≡ book_opening setup start room) }
    ensures passes { IfOk result (λ made. passes_of made.0 ≡ workers) }
    ensures list { IfOk result (λ made. length made.1.items ≡ workers) }
    ensures new { IfOk result (λ made. AreNewPasses made.0 0 made.1.items) }
    ensures own { IfOk result (λ made. All (IsPassOf made.0) made.1.items) }
{
    let Ok(book) = Book::open(alloc, setup, start, room) else {
        return Err(AllocError);
    };
    match Desk::open(alloc, book, workers) {
        Ok(made) => Ok(made),
        Err(_) => Err(AllocError),
    }
}

/// Writes the history of a book, and its total.
fn write_book<W: Write>(alloc: Global, book: &Book, writer: &mut W) -> Ended
    ensures wrote { IsTextWritten result (W.contents writer.old) (W.contents writer.new)
        (drill_text (sched_of book.now).setup (entries_of book.now) (refused_of book.now)) }
    ensures outcome { IfOk result (λ outcome. outcome ≡ Outcome.Ran) }
{
    write_history(
        alloc,
        book.sched().setup(),
        book.entries(),
        book.refused(),
        writer,
    )?;
    Ok(Outcome::Ran)
}

/// Writes the line of each entry of a history, in order, and then the total. The total is the number of
/// entries, and the number of calls that were refused when out of memory. One buffer serves all lines.
/// Nothing is flushed.
///
/// The error is `Write` if the writer fails or takes no byte, or `Memory`. A prefix of the text was
/// written then.
pub fn write_history<W: Write>(
    alloc: Global,
    setup: &Setup,
    entries: &[Entry<Call, Reply>],
    refused: u64,
    writer: &mut W,
) -> Result<(), DriveError>
    ensures { IsTextWritten result (W.contents writer.old) (W.contents writer.new)
        (drill_text setup.now entries.now refused) }
{
    let mut line = String::new(alloc);
    for entry in entries {
        write_entry(setup, entry, &mut line, writer)?;
    }
    write_total(entries.len(), refused, &mut line, writer)
}

/// Writes the line of an entry through the buffer `line`.
#[tactic(auto, using(nagsched_protocol::proofs::WrittenLemmas::line_written, nagsched_protocol::proofs::WrittenLemmas::line_unwritten))]
fn write_entry<W: Write>(
    setup: &Setup,
    entry: &Entry<Call, Reply>,
    line: &mut String,
    writer: &mut W,
) -> Result<(), DriveError>
    ensures { IsLineWritten result (W.contents writer.old) (W.contents writer.new)
        (entry_line setup.now entry.now) }
{
    line.clear();
    push_entry(line, setup, entry)?;
    write_text(writer, line.as_bytes())
}

/// Writes the total through the buffer `line`.
#[tactic(auto, using(nagsched_protocol::proofs::WrittenLemmas::line_written, nagsched_protocol::proofs::WrittenLemmas::line_unwritten))]
fn write_total<W: Write>(
    entries: usize,
    refused: u64,
    line: &mut String,
    writer: &mut W,
) -> Result<(), DriveError>
    ensures { IsLineWritten result (W.contents writer.old) (W.contents writer.new)
        (total_line entries refused) }
{
    line.clear();
    push_total(line, entries, refused)?;
    write_text(writer, line.as_bytes())
}
