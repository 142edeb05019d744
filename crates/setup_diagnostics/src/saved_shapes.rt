//! Faults in the shape of a saved state, by the table of its members.

ghost use Rattle.std.specs.Prelude.{◌≡◌, ◌&&◌, ◌++◌, [], OnOk, Some, bytes_eq, false, find, map, not, option_map, string_bytes};
ghost use Rattle.std.specs.List.{list_any};
ghost use Rattle.std.specs.BTreeMap.{keys};
ghost use Rattle.serde_json.specs.View.{members_view, view};
ghost use Rattle.check_saved_state.specs.Table.{as_row, is_in, object_members};
ghost use Rattle.setup_diagnostics.specs.Feeds.{has_line_feed};
ghost use Rattle.setup_diagnostics.specs.SavedShapes.{fault_view, first_unknown, has_other_kind, has_wrong_kind, is_missing, item_head, kind_text};
ghost use Rattle.setup_diagnostics.specs.SavedShapes.{member_fault, object_fault, run_fault, saved_item, saved_name};
ghost use Rattle.setup_diagnostics.specs.SavedShapes.{IsFaultText, IsItemFault, IsOwnFault, IsRunFault, IsSavedShapeText, IsWrongMember};
ghost use Rattle.setup_diagnostics.specs.Shapes.{Appends};

use crate::line::{Line, Pushed};
use crate::places::member_text;
use crate::shapes::{push_kind_fault, push_missing, push_unknown};
use check_saved_state::table::{
    DOCUMENT_MEMBERS, Member, NAME, OBJECT_MEMBERS, OBJECTS, RUN, RUN_MEMBERS, ValueKind,
};
use check_saved_state::{FORMAT, format_of, has_kind, is_known};
use serde_json::{Map, Value};
use std::alloc::Global;

/// The fault of an object of JSON, by the table of its members.
#[derive(Clone, Copy)]
pub(crate) enum MemberFault<'v> {
    /// The value isn't an object.
    NotAnObject,
    /// It has a member of this name, which isn't known.
    Unknown(&'v str),
    /// This member is missing.
    Missing(Member),
    /// The value of this member isn't of its kind.
    WrongKind(Member),
}

/// Appends the fault of the saved state itself, or of the object at an index of its list.
pub(crate) fn push_saved_shape(
    alloc: Global,
    line: &mut Line,
    tree: &Value,
    index: Option<usize>,
) -> Pushed
    ensures { OnOk result (line.old ≡ [] → IsSavedShapeText (view tree.now) index line.new) }
{
    let format = format_of(tree).unwrap_or(FORMAT);
    match index {
        Some(index) => {
            let item = saved_item(tree, index);
            push_item_head(line, index, item)?;
            push_item_fault(alloc, line, format, item)
        }
        None => {
            line.push_words("saved state: ")?;
            push_found(
                alloc,
                line,
                tree,
                object_fault(format, &DOCUMENT_MEMBERS, tree),
            )
        }
    }
}

/// The value at an index of the list of objects.
fn saved_item(tree: &Value, index: usize) -> Option<&Value>
    ensures { option_map (λ v. view v.now) result ≡ saved_item (view tree.now) index }
{
    let objects = tree.get(OBJECTS.name)?;
    objects.get(index)
}

/// Appends the index of an object, and its name if it has one.
fn push_item_head(line: &mut Line, index: usize, item: Option<&Value>) -> Pushed
    ensures { OnOk result (line.new
        ≡ line.old ++ item_head index (option_map (λ v. view v.now) item.entry)) }
{
    line.push_words("objects ")?;
    line.push_number(index as u64)?;
    line.push_name(" ", item_name(item))?;
    line.push_words(": ")
}

/// The name of an object.
fn item_name(item: Option<&Value>) -> Option<&str>
    ensures { option_map (λ name. name.now) result
        ≡ saved_name (option_map (λ v. view v.now) item.entry) }
{
    member_text(item?, NAME.name)
}

/// Appends the fault of an object's own members, otherwise that of its run.
fn push_item_fault(alloc: Global, line: &mut Line, format: u64, item: Option<&Value>) -> Pushed
    ensures { OnOk result (Appends (IsItemFault format (option_map (λ v. view v.now) item.entry))
        line.old line.new) }
{
    match item {
        Some(object) => push_own_fault(alloc, line, format, object),
        None => Ok(()),
    }
}

fn push_own_fault(alloc: Global, line: &mut Line, format: u64, object: &Value) -> Pushed
    ensures { OnOk result (Appends (IsOwnFault format (view object.now)
        (object_fault format object_members (view object.now))) line.old line.new) }
{
    match object_fault(format, &OBJECT_MEMBERS, object) {
        Some(fault) => push_found(alloc, line, object, Some(fault)),
        None => push_run_fault(alloc, line, format, object.get(RUN.name)),
    }
}

/// Appends the fault of an object's run, if it has one.
fn push_run_fault(alloc: Global, line: &mut Line, format: u64, run: Option<&Value>) -> Pushed
    ensures { OnOk result (Appends (IsRunFault format (option_map (λ v. view v.now) run.entry))
        line.old line.new) }
{
    match run {
        Some(run) => {
            line.push_words("run: ")?;
            push_found(alloc, line, run, run_fault(format, run))
        }
        None => Ok(()),
    }
}

/// Appends a fault of an object, if there is one.
fn push_found(
    alloc: Global,
    line: &mut Line,
    value: &Value,
    fault: Option<MemberFault<'_>>,
) -> Pushed
    ensures { OnOk result (Appends (IsFaultText (view value.now) (option_map fault_view fault.entry))
        line.old line.new) }
{
    match fault {
        Some(MemberFault::NotAnObject) => {
            push_kind_fault(alloc, line, "this is ", Some(value), "an object")
        }
        Some(MemberFault::Unknown(name)) => push_unknown(line, Some(name)),
        Some(MemberFault::Missing(member)) => push_missing(line, member.name),
        Some(MemberFault::WrongKind(member)) => push_wrong_member(alloc, line, value, member),
        None => Ok(()),
    }
}

/// Appends that the value of a member isn't of its kind.
fn push_wrong_member(alloc: Global, line: &mut Line, object: &Value, member: Member) -> Pushed
    ensures { OnOk result (Appends (IsWrongMember (as_row member) (view object.now))
        line.old line.new) }
{
    line.push_text(member.name)?;
    let value = object.get(member.name);
    push_kind_fault(alloc, line, " is ", value, kind_words(member.kind))
}

/// The kind that a value must have, as the end of a sentence.
fn kind_words(kind: ValueKind) -> &'static str
    ensures text { result.now ≡ kind_text kind }
    ensures no_line_feed { has_line_feed result.now ≡ false }
{
    match kind {
        ValueKind::Text => "a text",
        ValueKind::Number => "a whole number",
        ValueKind::NumberOrNull => "a whole number or null",
        ValueKind::Switch => "true or false",
        ValueKind::State => {
            "\"OK\", \"WARNING\", \"CRITICAL\", \"UNKNOWN\", \"UP\", \"DOWN\" or \"UNREACHABLE\""
        }
        ValueKind::StateKind => "\"SOFT\" or \"HARD\"",
        ValueKind::Flapping => "\"FLAPPING\" or \"STEADY\"",
        ValueKind::Letters => "letters of o, w, u, c and d",
        ValueKind::RunOrNull => "an object or null",
        ValueKind::List => "an array",
    }
}

// ---- the search

/// The fault of a value that must be an object with these members in a text of this format.
fn object_fault<'v>(format: u64, members: &[Member], value: &'v Value) -> Option<MemberFault<'v>>
    ensures { option_map fault_view result
        ≡ object_fault format (map as_row members.now) (view value.now) }
{
    match value.as_object() {
        Some(object) => member_fault(format, members, value, object),
        None => Some(MemberFault::NotAnObject),
    }
}

/// The fault of a run. `null` has none.
fn run_fault(format: u64, run: &Value) -> Option<MemberFault<'_>>
    ensures { option_map fault_view result ≡ run_fault format (view run.now) }
{
    match run.as_object() {
        Some(object) => member_fault(format, &RUN_MEMBERS, run, object),
        None => None,
    }
}

/// The first unknown member, otherwise the first missing one, otherwise the first of another kind.
fn member_fault<'v>(
    format: u64,
    members: &[Member],
    value: &Value,
    object: &'v Map<String, Value>,
) -> Option<MemberFault<'v>>
    ensures { option_map fault_view result ≡ member_fault format (map as_row members.now)
        (view value.now) (members_view object.now.entries) }
{
    if let Some(name) = first_unknown(format, members, object) {
        return Some(MemberFault::Unknown(name));
    }
    if let Some(member) = first_missing(format, members, value) {
        return Some(MemberFault::Missing(member));
    }
    let member = first_wrong_kind(format, members, value)?;
    Some(MemberFault::WrongKind(member))
}

/// The name of the first member of an object that a text of this format doesn't have.
fn first_unknown<'v>(
    format: u64,
    members: &[Member],
    object: &'v Map<String, Value>,
) -> Option<&'v str>
    ensures { option_map (λ name. name.now) result
        ≡ first_unknown format (map as_row members.now) (members_view object.now.entries) }
{
    match unknown_key(format, members, object) {
        Some(key) => Some(key.as_str()),
        None => None,
    }
}

fn unknown_key<'v>(
    format: u64,
    members: &[Member],
    object: &'v Map<String, Value>,
) -> Option<&'v String>
    ensures { option_map (λ key. key.now) result ≡
        find (λ key. not (list_any (λ m. is_in format (as_row m)
        && bytes_eq m.name.now (string_bytes key)) members.now)) (keys object.now) }
{
    object
        .keys()
        .find(|key| !is_known(format, members, key.as_str()))
}

/// The first of these members that a text of this format has and the object hasn't.
fn first_missing(format: u64, members: &[Member], object: &Value) -> Option<Member>
    ensures { option_map as_row result
        ≡ find (is_missing format (view object.now)) (map as_row members.now) }
{
    for member in members {
        if is_missing(format, object, *member) {
            return Some(*member);
        }
    }
    None
}

fn is_missing(format: u64, object: &Value, member: Member) -> bool
    ensures { result ≡ is_missing format (view object.now) (as_row member) }
{
    member.is_in(format) && object.get(member.name).is_none()
}

/// The first of these members for which the object has a value that isn't of its kind.
fn first_wrong_kind(format: u64, members: &[Member], object: &Value) -> Option<Member>
    ensures { option_map as_row result
        ≡ find (has_wrong_kind format (view object.now)) (map as_row members.now) }
{
    for member in members {
        if has_wrong_kind(format, object, *member) {
            return Some(*member);
        }
    }
    None
}

fn has_wrong_kind(format: u64, object: &Value, member: Member) -> bool
    ensures { result ≡ has_wrong_kind format (view object.now) (as_row member) }
{
    member.is_in(format) && is_of_other_kind(object.get(member.name), member.kind)
}

/// Whether there is a value that isn't of the kind.
fn is_of_other_kind(value: Option<&Value>, kind: ValueKind) -> bool
    ensures { result ≡ has_other_kind kind (option_map (λ v. view v.now) value.entry) }
{
    match value {
        Some(value) => !has_kind(value, kind),
        None => false,
    }
}
