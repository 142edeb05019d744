//! The lines that report the changes of a resume.

ghost use Rattle.std.specs.Prelude.{◌≡◌, ◌≤◌, ◌++◌, OnErr, OnOk, length, string_bytes};
ghost use Rattle.check_objects.specs.Configuration.{object_count};
ghost use Rattle.setup_summary.specs.ChangeText.{change_lines_among, change_line, changes_text, figures_text, object_diff_text, object_text};

use crate::diffs::{ObjectDiff, object_diffs};
use crate::figures::Figures;
use check_objects::Setup;
use check_saved_state::Saved;
use std::alloc::{AllocError, Global};

/// Appends the changes that a resume from this saved state over this setup makes, each line with its line
/// feed. The first lines are the numbers of objects that are kept, new and dropped, and the number of runs
/// that are abandoned. Then, for each object that is kept, follow the values that the setup changes, in the
/// order of the objects' numbers. The start of the scheduler has no effect on the lines. It takes time
/// linear in the objects of both. An Err means out of memory, and the text stays as it was. (Our own
/// profile.)
pub fn push_changes(
    alloc: Global,
    text: &mut String,
    setup: &Setup,
    saved: &Saved,
) -> Result<(), AllocError>
    ensures output { OnOk result
        (string_bytes text.new ≡ string_bytes text.old ++ changes_text setup.now saved.now) }
    ensures err { OnErr result (string_bytes text.new ≡ string_bytes text.old) }
{
    let kept = object_diffs(alloc, setup, saved)?;
    let mut lines = String::new(alloc);
    push_figures(&mut lines, Figures::of(setup, saved, &kept))?;
    push_object_changes(&mut lines, setup, &kept)?;
    text.push_str(lines.as_str())
}

/// Appends the figures, a line each.
#[tactic(auto, unfolding(crate::specs::ChangeText::figures_text))]
fn push_figures(text: &mut String, figures: Figures) -> Result<(), AllocError>
    ensures { OnOk result
        (string_bytes text.new ≡ string_bytes text.old ++ figures_text figures) }
{
    let Figures {
        kept,
        new,
        dropped,
        given_up,
    } = figures;
    writeln!(text, "kept {kept}")?;
    writeln!(text, "new {new}")?;
    writeln!(text, "dropped {dropped}")?;
    writeln!(text, "given_up {given_up}")
}

/// Appends the lines of all objects, by number.
fn push_object_changes(
    text: &mut String,
    setup: &Setup,
    kept: &[Option<ObjectDiff>],
) -> Result<(), AllocError>
    requires each { length kept.now ≤ object_count setup.now }
    requires bounded { length kept.now ≤ 4096 }
    ensures { OnOk result
        (string_bytes text.new ≡ string_bytes text.old ++ change_lines_among setup.now kept.now) }
{
    for (number, object) in kept.iter().enumerate() {
        push_object(text, setup.name(number as u32), *object)?;
    }
    Ok(())
}

/// Appends the lines of an object with this full name. A new one has none.
fn push_object(text: &mut String, name: &str, object: Option<ObjectDiff>) -> Result<(), AllocError>
    ensures { OnOk result
        (string_bytes text.new ≡ string_bytes text.old ++ object_text name.now object) }
{
    match object {
        Some(kept) => push_object_diff(text, name, kept),
        None => Ok(()),
    }
}

/// Appends the lines of an object that is kept.
#[tactic(auto, unfolding(crate::specs::ChangeText::object_diff_text))]
fn push_object_diff(text: &mut String, name: &str, kept: ObjectDiff) -> Result<(), AllocError>
    ensures { OnOk result
        (string_bytes text.new ≡ string_bytes text.old ++ object_diff_text name.now kept) }
{
    push_value(text, kept.attempts, "attempts", name)?;
    push_value(text, kept.interval, "interval", name)?;
    push_value(text, kept.enabled, "enabled", name)
}

/// Appends the line of a value of an object, if the setup changes it.
fn push_value(text: &mut String, changes: bool, value: &str, name: &str) -> Result<(), AllocError>
    ensures { OnOk result (string_bytes text.new
        ≡ string_bytes text.old ++ change_line changes value.now name.now) }
{
    if changes {
        writeln!(text, "changed {value} {name}")
    } else {
        Ok(())
    }
}
