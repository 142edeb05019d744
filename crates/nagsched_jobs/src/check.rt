//! A check reads a setup, and a saved state if a scheduler is to start from one. It reports their contents, or
//! why one of the two is refused.

ghost use Rattle.std.specs.Prelude.{◌≡◌, ◌≤◌, ℕ, List, Ok, IfOk, IfErr};
ghost use Rattle.serde_json.specs.View.{view};
ghost use Rattle.setup_model.specs.Fault.{view_of};
ghost use Rattle.setup_diagnostics.specs.Explanation.{tree_in};
ghost use Rattle.check_objects.specs.Configuration.{Configuration};
ghost use Rattle.check_objects.specs.Setup.{document_tree};
ghost use Rattle.nagsched_jobs.specs.Check.{IsFaultReport, IsGood, IsLineReport, IsSummaryReport, IsDocumentReport};
ghost use Rattle.nagsched_jobs.specs.CheckEnded.{CheckEnded, IsSetupLineReport, IsReportFrom};
ghost use Rattle.nagsched_jobs.specs.Reading.{check_input_of, document_input_of};
ghost use Rattle.nagsched_jobs.specs.SetupReading.{IsSetupReading};
ghost use Rattle.nagsched_protocol.specs.Start.{CanStart};
ghost use Rattle.nagsched_protocol.specs.Streams.{streams};

use crate::check_resumed::render_resumed_input;
use crate::reading::{MAX_DOCUMENT_INPUT, document, read_document_input, read_input};
use check_objects::{Fault, LoadError, Setup, read_document};
use check_sched::LAST_MOMENT;
use nagsched_protocol::{
    DriveError, Ended, InputRefusal, Outcome, Start, print_text, push_refusal,
};
use serde_json::Value;
use setup_diagnostics::{Document, compact_document, explain};
use setup_summary::{Summary, push_summary};
use std::alloc::{AllocError, Global};
use std::io::{Read, Write};

/// The report on a document.
#[derive(Drop)]
pub(crate) struct Report {
    pub(crate) text: Vec<u8>,
    pub(crate) outcome: Outcome,
}

/// Reads a setup, and a saved state if a scheduler is to start from one. It reports the figures of the setup
/// and what happens to the saved objects, or why one of the two is refused. No scheduler is opened.
///
/// For a fresh start the document is the whole input except for one line feed at its end, and may have many
/// lines. For a good document the check prints the line `setup ok` and its figures. Their first checks are
/// those of a scheduler that starts fresh. For a refused document it prints the line that a run writes, and
/// then an explanation in one line.
///
/// For a start from a saved state the input is that of a run: line 1 is the setup, and line 2 the saved
/// state. Later lines aren't tested. The setup is tested first. After its figures the check prints what
/// happens to the saved objects. An input of more than 67,108,864 bytes is refused before either is tested.
///
/// For a fresh start it reads at most 16,777,217 bytes, which show that a document is too long, and one byte
/// more if the last of these is a line feed. The writer is flushed once, at the end. After the errors `Read`
/// and `Memory` nothing was written, and after `Write` a prefix of the report. `Memory` comes only after a
/// byte was read, or if the input is empty. The report is our own profile.
pub fn check<R: Read, W: Write>(
    alloc: Global,
    start: Start,
    reader: &mut R,
    writer: &mut W,
) -> Ended
    requires { CanStart start }
    ensures ending { CheckEnded (IsReportFrom start) (check_input_of start) result
        (streams (R.remaining reader.old) (R.remaining reader.new)
        (W.contents writer.old) (W.contents writer.new)) }
    ensures limit { MAX_DOCUMENT_INPUT ≡ 16777217 }
{
    let input = read_input(alloc, start, reader)?;
    let report = render_input(alloc, start, &input)?;
    print_text(writer, &report.text)?;
    Ok(report.outcome)
}

/// Reads one setup document, as [`check`] does, and writes it as one line, which is read as the same setup. A
/// refused document is reported as `check` reports it. A document whose line would be longer than the limit
/// is refused too, as `TooLong`. The errors are those of `check`.
pub fn write_setup_line<R: Read, W: Write>(alloc: Global, reader: &mut R, writer: &mut W) -> Ended
    ensures { CheckEnded IsSetupLineReport document_input_of result
        (streams (R.remaining reader.old) (R.remaining reader.new)
        (W.contents writer.old) (W.contents writer.new)) }
{
    let input = read_document_input(alloc, reader)?;
    let report = render_line(alloc, document(&input))?;
    print_text(writer, &report.text)?;
    Ok(report.outcome)
}

/// The report on an input. An Err is `Memory`.
fn render_input(alloc: Global, start: Start, input: &[u8]) -> Result<Report, DriveError>
    requires { CanStart start }
    ensures report { IfOk result (λ report.
        IsReportFrom start input.now report.text.items report.outcome) }
    ensures kind { IfErr result (λ e. e ≡ DriveError.Memory) }
{
    match start {
        Start::Fresh(moment) => render_document(alloc, moment, document(input)),
        Start::Resumed(moment) => render_resumed_input(alloc, moment, input),
    }
}

/// The report on a document. An Err is `Memory`.
fn render_document(alloc: Global, start: u64, document: &[u8]) -> Result<Report, DriveError>
    requires start { start ≤ LAST_MOMENT }
    ensures report { IfOk result (λ report.
        IsDocumentReport start document.now report.text.items report.outcome) }
    ensures kind { IfErr result (λ e. e ≡ DriveError.Memory) }
{
    match read_with_fault(alloc, document)? {
        SetupReading::Good { setup, .. } => Ok(render_summary(alloc, start, &setup)?),
        SetupReading::Refused(report) => Ok(report),
    }
}

/// The line of a document, or why it is refused. An Err is `Memory`.
fn render_line(alloc: Global, document: &[u8]) -> Result<Report, DriveError>
    ensures report { IfOk result (λ report.
        IsLineReport document.now report.text.items report.outcome) }
    ensures kind { IfErr result (λ e. e ≡ DriveError.Memory) }
{
    match read_with_fault(alloc, document)? {
        SetupReading::Good { tree, .. } => render_tree(alloc, &tree),
        SetupReading::Refused(report) => Ok(report),
    }
}

/// A setup document that was examined.
#[derive(Drop)]
pub(crate) enum SetupReading {
    /// Its setup and its tree.
    Good {
        /// The setup.
        setup: Setup,
        /// The tree.
        tree: Value,
    },
    /// The report on its refusal.
    Refused(Report),
}

/// The setup of a document, or the report on its refusal. An Err is `Memory`.
pub(crate) fn read_with_fault(alloc: Global, document: &[u8]) -> Result<SetupReading, DriveError>
    ensures reading { IfOk result (IsSetupReading document.now) }
    ensures kind { IfErr result (λ e. e ≡ DriveError.Memory) }
{
    match read_document(alloc, document) {
        Ok(tree) => read_tree_with_fault(alloc, tree),
        Err(Fault::Memory) => Err(DriveError::Memory),
        Err(fault) => Ok(SetupReading::Refused(render_refusal(
            alloc,
            Document::Bytes(document),
            fault,
        )?)),
    }
}

/// The setup of a tree, or the report on its refusal. An Err is `Memory`.
fn read_tree_with_fault(alloc: Global, tree: Value) -> Result<SetupReading, DriveError>
    ensures reading { IfOk result (λ reading. (document : List ℕ)
        → document_tree document ≡ Ok (view tree) → IsSetupReading document reading) }
    ensures kind { IfErr result (λ e. e ≡ DriveError.Memory) }
{
    match Setup::read_tree_with_fault(alloc, &tree) {
        Ok(setup) => Ok(SetupReading::Good { setup, tree }),
        Err(Fault::Memory) => Err(DriveError::Memory),
        Err(fault) => Ok(SetupReading::Refused(render_refusal(
            alloc,
            Document::Tree(&tree),
            fault,
        )?)),
    }
}

/// The line of the document with this tree, or that the line is too long. An Err is `Memory`.
fn render_tree(alloc: Global, tree: &Value) -> Result<Report, DriveError>
    ensures report { IfOk result (λ report. (document : List ℕ) (setup : Configuration)
        → IsGood document setup (view tree.now)
        → IsLineReport document report.text.items report.outcome) }
    ensures kind { IfErr result (λ e. e ≡ DriveError.Memory) }
{
    match compact_document(alloc, tree) {
        Ok(mut text) => {
            if text.push(b'\n').is_err() {
                return Err(DriveError::Memory);
            }
            Ok(Report {
                text,
                outcome: Outcome::Ran,
            })
        }
        Err(Fault::TooLong) => Ok(render_refusal(alloc, Document::Tree(tree), Fault::TooLong)?),
        Err(_) => Err(DriveError::Memory),
    }
}

/// The figures of a setup.
fn render_summary(alloc: Global, start: u64, setup: &Setup) -> Result<Report, AllocError>
    requires start { start ≤ LAST_MOMENT }
    ensures { IfOk result (λ report.
        IsSummaryReport start setup.now report.text.items report.outcome) }
{
    let summary = Summary::of(alloc, setup, start)?;
    let mut text = String::new(alloc);
    push_summary(&mut text, &summary)?;
    Ok(Report {
        text: text.into_bytes(),
        outcome: Outcome::Ran,
    })
}

/// The line of a refusal, and the line that explains it over the document.
fn render_refusal(alloc: Global, document: Document<'_>, fault: Fault) -> Result<Report, AllocError>
    ensures { IfOk result (λ report.
        IsFaultReport (tree_in document.entry) (view_of fault) report.text.items report.outcome) }
{
    let words = explain(alloc, document, &fault)?;
    let mut text = String::new(alloc);
    push_refusal(&mut text, InputRefusal::Setup(LoadError::from(fault)))?;
    text.push_str(words.as_str())?;
    text.push_str("\n")?;
    Ok(Report {
        text: text.into_bytes(),
        outcome: Outcome::Refused,
    })
}
