//! Reads the draft of a saved state from its tree. This module finds every fault of shape, and no other
//! fault.

ghost use Rattle.std.specs.Prelude.{◌≡◌, option_map};
ghost use Rattle.serde_json.specs.View.{items_view, view};
ghost use Rattle.check_saved_state.specs.Object.{object_in, optional_run, optional_run_member, run_in_tree};
ghost use Rattle.check_saved_state.specs.Reading.{draft_in, draft_of, format_in, format_test, objects_from};
ghost use Rattle.check_saved_state.specs.SavedFault.{IsExpectedResult};
ghost use Rattle.check_saved_state.specs.Table.{as_row, is_format};

use crate::draft::{ObjectDraft, SavedDraft, SchedulingDraft, StandingDraft};
use crate::fault::SavedFault;
use crate::members::{
    bool_member, found_in, has_only_members, list_member, number_member, optional_number_member,
    state_member, text_member,
};
use crate::result_letters::only_letters;
use crate::saved::SavedRun;
use crate::table::{
    ATTEMPT, CHECK_INTERVAL, CHECKED, DOCUMENT_FORMAT, DOCUMENT_MEMBERS, ENABLED, ENABLED_IN_SETUP,
    FLAPPING, FORCED, FORMAT, KIND, LAST_HARD_STATE, MAX_CHECK_ATTEMPTS, Member, NAME, NEXT_CHECK,
    OBJECT_MEMBERS, OBJECTS, RESULTS, RUN, RUN_MEMBERS, RUN_NUMBER, RUN_START, RUNS, START, STATE,
};
use crate::words::flapping_of_word;
use check_states::Kind;
use serde_json::Value;
use std::alloc::Global;

/// Tests that the format is one that is read, if there is a number for it.
pub(crate) fn verify_format(tree: &Value) -> Result<(), SavedFault>
    ensures { result ≡ format_test (view tree.now) }
{
    match format_of(tree) {
        Some(format) => {
            if is_format(format) {
                Ok(())
            } else {
                Err(SavedFault::Version)
            }
        }
        None => Ok(()),
    }
}

/// The format that the tree of a saved state names, if it is a whole number.
pub fn format_of(tree: &Value) -> Option<u64>
    ensures { result ≡ format_in (view tree.now) }
{
    found_in(tree, DOCUMENT_FORMAT).and_then(Value::as_u64)
}

/// Whether texts of this format are read.
fn is_format(format: u64) -> bool
    ensures { result ≡ is_format format }
{
    1 <= format && format <= FORMAT && FORMAT <= format + 1
}

/// The draft in a tree, or its first fault of shape. Faults of the document itself come before those of its
/// objects.
pub(crate) fn read_draft<'v>(alloc: Global, tree: &'v Value) -> Result<SavedDraft<'v>, SavedFault>
    ensures { IsExpectedResult (λ draft. draft) result (draft_in (view tree.now)) }
{
    let format = format_of(tree).ok_or(SavedFault::Shape(None))?;
    read_draft_of(alloc, format, tree)
}

/// The same in a text of this format.
#[tactic(auto, unfolding(crate::specs::Reading::draft_of))]
fn read_draft_of<'v>(
    alloc: Global,
    format: u64,
    tree: &'v Value,
) -> Result<SavedDraft<'v>, SavedFault>
    ensures { IsExpectedResult (λ draft. draft) result (draft_of format (view tree.now)) }
{
    if !has_only_members(format, &DOCUMENT_MEMBERS, tree) {
        return Err(SavedFault::Shape(None));
    }
    let start = number_member(format, tree, START).ok_or(SavedFault::Shape(None))?;
    let runs = number_member(format, tree, RUNS).ok_or(SavedFault::Shape(None))?;
    let values = list_member(format, tree, OBJECTS).ok_or(SavedFault::Shape(None))?;
    let objects = read_objects(alloc, format, values)?;
    Ok(SavedDraft {
        start,
        runs,
        objects,
    })
}

fn read_objects<'v>(
    alloc: Global,
    format: u64,
    values: &'v [Value],
) -> Result<Vec<ObjectDraft<'v>>, SavedFault>
    ensures { IsExpectedResult (λ drafts. drafts.items) result
        (objects_from format 0 (items_view values.now)) }
{
    let mut objects = Vec::new(alloc);
    for (index, value) in values.iter().enumerate() {
        let object = read_object(format, value).ok_or(SavedFault::Shape(Some(index)))?;
        objects.push(object)?;
    }
    Ok(objects)
}

#[tactic(auto, unfolding(crate::specs::Object::object_in, crate::specs::Object::object_of_values))]
fn read_object<'v>(format: u64, value: &'v Value) -> Option<ObjectDraft<'v>>
    ensures { result ≡ object_in format (view value.now) }
{
    if !has_only_members(format, &OBJECT_MEMBERS, value) {
        return None;
    }
    Some(ObjectDraft {
        name: text_member(format, value, NAME)?,
        standing: StandingDraft {
            state: state_member(format, value, STATE)?,
            kind: Kind::from_word(text_member(format, value, KIND)?)?,
            attempt: number_member(format, value, ATTEMPT)?,
            last_hard: state_member(format, value, LAST_HARD_STATE)?,
            checked: bool_member(format, value, CHECKED)?,
            flapping: flapping_of_word(text_member(format, value, FLAPPING)?)?,
        },
        letters: only_letters(text_member(format, value, RESULTS)?)?,
        scheduling: SchedulingDraft {
            next: optional_number_member(format, value, NEXT_CHECK)?,
            run: optional_run_member(format, value, RUN)?,
            enabled: bool_member(format, value, ENABLED)?,
            forced: bool_member(format, value, FORCED)?,
        },
        interval: number_member(format, value, CHECK_INTERVAL)?,
        max_attempts: number_member(format, value, MAX_CHECK_ATTEMPTS)?,
        setup_enabled: bool_member(format, value, ENABLED_IN_SETUP)?,
    })
}

/// The run of a member. None inside for `null`. None if the member is missing or of another kind.
fn optional_run_member(format: u64, value: &Value, member: Member) -> Option<Option<SavedRun>>
    ensures { result ≡ optional_run_member format (view value.now) (as_row member) }
{
    match member.default_at(format) {
        Some(default) => default.optional_run(),
        None => read_run(format, found_in(value, member)?),
    }
}

/// A run. None inside for `null`.
fn read_run(format: u64, value: &Value) -> Option<Option<SavedRun>>
    ensures { result ≡ optional_run format (view value.now) }
{
    if value.is_null() {
        return Some(None);
    }
    Some(Some(read_open_run(format, value)?))
}

fn read_open_run(format: u64, value: &Value) -> Option<SavedRun>
    ensures { result ≡ run_in_tree format (view value.now) }
{
    if !has_only_members(format, &RUN_MEMBERS, value) {
        return None;
    }
    Some(SavedRun {
        number: number_member(format, value, RUN_NUMBER)?,
        start: number_member(format, value, RUN_START)?,
    })
}
