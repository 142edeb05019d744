//! The report of a check on a setup and a saved state: the figures of the setup and what happens to the saved
//! objects over it, or why one of the two is refused.

ghost use Rattle.std.specs.Prelude.{◌≡◌, ◌≤◌, ℕ, Option, Ok, Err, IfOk, IfErr, IfSome, option_map};
ghost use Rattle.check_objects.specs.Configuration.{Configuration};
ghost use Rattle.check_saved_state.specs.Text.{saved_of_tree};
ghost use Rattle.serde_json.specs.Data.{Data};
ghost use Rattle.serde_json.specs.View.{view};
ghost use Rattle.setup_diagnostics.specs.Explanation.{tree_or_null};
ghost use Rattle.nagsched_jobs.specs.CheckResumed.{IsSetupAndSavedReport, IsLengthReport, IsResumedReport, IsSavedReport, IsSavedTextReport};

use crate::check::{Report, SetupReading, read_with_fault};
use check_objects::Setup;
use check_saved_state::{Saved, SavedFault, read_saved_tree};
use check_sched::LAST_MOMENT;
use nagsched_protocol::{
    DriveError, InputRefusal, LineFault, MAX_INPUT_BYTES, Outcome, moment_of, push_refusal,
    split_line,
};
use serde_json::Value;
use setup_diagnostics::explain_saved;
use setup_summary::{Summary, push_changes, push_summary};
use std::alloc::{AllocError, Global};

/// The report on the input of a run that starts from a saved state, at the moment `start` in milliseconds, or
/// at the saved start if no moment is given. An Err is `Memory`.
pub(crate) fn render_resumed_input(
    alloc: Global,
    start: Option<u64>,
    input: &[u8],
) -> Result<Report, DriveError>
    requires { IfSome start (λ moment. moment ≤ LAST_MOMENT) }
    ensures report { IfOk result (λ report.
        IsResumedReport start input.now report.text.items report.outcome) }
    ensures kind { IfErr result (λ e. e ≡ DriveError.Memory) }
{
    if input.len() > MAX_INPUT_BYTES {
        return Ok(render_excess_length(alloc)?);
    }
    let (document, rest) = split_line(input);
    let (text, _) = split_line(rest);
    render_setup_and_saved(alloc, start, document, text)
}

/// The report on an input that is too long.
fn render_excess_length(alloc: Global) -> Result<Report, AllocError>
    ensures { IfOk result (λ report. IsLengthReport report.text.items report.outcome) }
{
    let mut text = String::new(alloc);
    push_refusal(
        &mut text,
        InputRefusal::Line {
            fault: LineFault::TooLong,
            line: 0,
        },
    )?;
    text.push_str("the input has more than 67108864 bytes\n")?;
    Ok(Report {
        text: text.into_bytes(),
        outcome: Outcome::Refused,
    })
}

/// The report on a setup document and the text of a saved state. An Err is `Memory`.
fn render_setup_and_saved(
    alloc: Global,
    start: Option<u64>,
    document: &[u8],
    text: &[u8],
) -> Result<Report, DriveError>
    requires { IfSome start (λ moment. moment ≤ LAST_MOMENT) }
    ensures report { IfOk result (λ report.
        IsSetupAndSavedReport start document.now text.now report.text.items report.outcome) }
    ensures kind { IfErr result (λ e. e ≡ DriveError.Memory) }
{
    match read_with_fault(alloc, document)? {
        SetupReading::Good { setup, .. } => render_saved(alloc, start, &setup, text),
        SetupReading::Refused(report) => Ok(report),
    }
}

/// The report on the text of a saved state over a setup. An Err is `Memory`.
fn render_saved(
    alloc: Global,
    start: Option<u64>,
    setup: &Setup,
    text: &[u8],
) -> Result<Report, DriveError>
    requires { IfSome start (λ moment. moment ≤ LAST_MOMENT) }
    ensures report { IfOk result (λ report.
        IsSavedTextReport start setup.now text.now report.text.items report.outcome) }
    ensures kind { IfErr result (λ e. e ≡ DriveError.Memory) }
{
    match read_saved_tree(alloc, text) {
        Ok(tree) => render_saved_tree(alloc, start, setup, &tree),
        Err(SavedFault::Memory) => Err(DriveError::Memory),
        Err(fault) => Ok(render_saved_fault(alloc, None, fault)?),
    }
}

/// The report on the tree of a saved state over a setup. An Err is `Memory`.
fn render_saved_tree(
    alloc: Global,
    start: Option<u64>,
    setup: &Setup,
    tree: &Value,
) -> Result<Report, DriveError>
    requires { IfSome start (λ moment. moment ≤ LAST_MOMENT) }
    ensures report { IfOk result (λ report. IsSavedReport start setup.now (view tree.now)
        (saved_of_tree (view tree.now)) report.text.items report.outcome) }
    ensures kind { IfErr result (λ e. e ≡ DriveError.Memory) }
{
    match Saved::read_tree(alloc, tree) {
        Ok(saved) => Ok(render_changes(alloc, start, setup, &saved)?),
        Err(SavedFault::Memory) => Err(DriveError::Memory),
        Err(fault) => Ok(render_saved_fault(alloc, Some(tree), fault)?),
    }
}

/// The figures of a setup, and what happens to the saved objects over it.
fn render_changes(
    alloc: Global,
    start: Option<u64>,
    setup: &Setup,
    saved: &Saved,
) -> Result<Report, AllocError>
    requires { IfSome start (λ moment. moment ≤ LAST_MOMENT) }
    ensures { IfOk result (λ report. (tree : Data)
        → IsSavedReport start setup.now tree (Ok saved.now) report.text.items report.outcome) }
{
    let summary = Summary::of(alloc, setup, moment_of(start, saved))?;
    let mut text = String::new(alloc);
    push_summary(&mut text, &summary)?;
    push_changes(alloc, &mut text, setup, saved)?;
    Ok(Report {
        text: text.into_bytes(),
        outcome: Outcome::Ran,
    })
}

/// The line that refuses a saved state, and the line that explains why over the tree, if there is one.
fn render_saved_fault(
    alloc: Global,
    tree: Option<&Value>,
    fault: SavedFault,
) -> Result<Report, AllocError>
    ensures { IfOk result (λ report. (setup : Configuration) → (start : Option ℕ)
        → IsSavedReport start setup (tree_or_null (option_map (λ v. view v.now) tree.entry)) (Err fault)
        report.text.items report.outcome) }
{
    let words = explain_saved(alloc, tree, fault)?;
    let mut text = String::new(alloc);
    push_refusal(&mut text, InputRefusal::Saved(fault))?;
    text.push_str(words.as_str())?;
    text.push_str("\n")?;
    Ok(Report {
        text: text.into_bytes(),
        outcome: Outcome::Refused,
    })
}
