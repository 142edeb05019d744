//! The explanation of a refused saved state.

ghost use Rattle.std.specs.Prelude.{◌≡◌, ◌++◌, IfOk, OnOk, [], false, option_map, string_bytes};
ghost use Rattle.serde_json.specs.View.{view};
ghost use Rattle.setup_diagnostics.specs.Explanation.{tree_or_null};
ghost use Rattle.setup_diagnostics.specs.Feeds.{has_line_feed, HasNoLineFeed};
ghost use Rattle.setup_diagnostics.specs.SavedExplanation.{at_object, IsSavedExplanation};

use crate::line::{Line, Pushed};
use crate::saved_shapes::push_saved_shape;
use check_saved_state::SavedFault;
use serde_json::Value;
use std::alloc::{AllocError, Global};

/// Explains on one line why a saved state with this tree was refused. A text that is too long or isn't JSON has
/// no tree.
///
/// The line names the object in the list of objects, if the fault is one of an object, and the requirement that it
/// fails. For a fault of shape it names the member, and what it has to be. Texts of the saved state are shown as
/// JSON strings of at most 80 characters. The only error is out of memory. (Our own profile.)
pub fn explain_saved(
    alloc: Global,
    tree: Option<&Value>,
    fault: SavedFault,
) -> Result<String, AllocError>
    ensures line { IfOk result (λ text. HasNoLineFeed (string_bytes text)) }
    ensures text { IfOk result (λ text.
        IsSavedExplanation (tree_or_null (option_map (λ v. view v.now) tree.entry)) fault
        (string_bytes text)) }
{
    let line = match tree {
        Some(tree) => explanation(alloc, tree, fault)?,
        None => explanation(alloc, &Value::Null, fault)?,
    };
    Ok(line.into_text())
}

/// The line that explains a fault.
fn explanation(alloc: Global, tree: &Value, fault: SavedFault) -> Result<Line, AllocError>
    ensures { IfOk result (λ line. IsSavedExplanation (view tree.now) fault line) }
{
    let mut line = Line::new(alloc);
    push_saved_fault(alloc, &mut line, tree, fault)?;
    Ok(line)
}

/// Explains a fault on an empty line.
fn push_saved_fault(alloc: Global, line: &mut Line, tree: &Value, fault: SavedFault) -> Pushed
    requires { line.old ≡ [] }
    ensures { OnOk result (IsSavedExplanation (view tree.now) fault line.new) }
{
    match fault {
        SavedFault::TooLong => line.push_words("the saved state has more than 16777216 bytes"),
        SavedFault::NotJson => line.push_words("the saved state is no JSON"),
        SavedFault::Version => line.push_words("\"format\" has to be 1"),
        SavedFault::Shape(index) => push_saved_shape(alloc, line, tree, index),
        SavedFault::TooMany => line.push_words("\"objects\" has more than 4096 objects"),
        SavedFault::BadName(index) => push_at_object(
            line,
            index,
            "\"name\" has to be a host's name, or a host's name and a description with a \";\" between them",
        ),
        SavedFault::Duplicate(index) => {
            push_at_object(line, index, "\"name\" is that of an earlier object")
        }
        SavedFault::Range(None) => {
            line.push_words("\"start\" and \"runs\" can be at most 1152921504606846976")
        }
        SavedFault::Range(Some(index)) => push_at_object(
            line,
            index,
            "a time, an attempt or the maximum of attempts is out of its limits",
        ),
        SavedFault::Unlawful(index) => push_at_object(
            line,
            index,
            "no object of its sort can have this standing, these results or this run, or a forced check without a next time",
        ),
        SavedFault::Memory => line.push_words("out of memory"),
    }
}

/// Appends words about the object at an index of the list of objects.
fn push_at_object(line: &mut Line, index: usize, words: &str) -> Pushed
    requires { has_line_feed words.now ≡ false }
    ensures { OnOk result (line.new ≡ line.old ++ at_object index words.now) }
{
    line.push_words("objects ")?;
    line.push_number(index as u64)?;
    line.push_words(": ")?;
    line.push_words(words)
}
