//! Faults of shape: a member that is unknown, missing or of another kind.

ghost use Rattle.std.specs.Prelude.{◌≡◌, ◌++◌, [], OnOk, Some, codes, false, option_and_then, option_map, slice_get};
ghost use Rattle.std.specs.BTreeMap.{keys};
ghost use Rattle.serde_json.specs.View.{members_view, view};
ghost use Rattle.setup_model.specs.Fault.{shape_view};
ghost use Rattle.setup_model.specs.Member.{as_row};
ghost use Rattle.serde_json.specs.Data.{Items};
ghost use Rattle.serde_json.specs.Find.{as_array, get};
ghost use Rattle.serde_json.specs.View.{items_view};
ghost use Rattle.setup_reader.specs.Places.{value_at};
ghost use Rattle.setup_diagnostics.specs.Feeds.{has_line_feed};
ghost use Rattle.setup_diagnostics.specs.Shapes.{nth_member_name, member_name_at, first_wrong_text, kind_text, missing_text, unknown_name_text, Appends};
ghost use Rattle.setup_diagnostics.specs.Shapes.{IsItemFault, IsKindFault, IsMemberFault, IsShapeFault, IsShapeText, IsWrongMember};
ghost use Rattle.setup_diagnostics.specs.Excerpts.{quotation};

use crate::kinds::{kind_words, push_shown};
use crate::line::{Line, Pushed};
use crate::places::push_place;
use serde_json::{Map, Value};
use setup_model::{Kind, Member, Place, ShapeFault};
use setup_reader::value_at;
use std::alloc::Global;

/// Appends a fault in the shape of the value at a place.
pub(crate) fn push_shape(
    alloc: Global,
    line: &mut Line,
    tree: &Value,
    place: Place,
    fault: ShapeFault,
) -> Pushed
    ensures { OnOk result (line.old ≡ []
        → IsShapeText (view tree.now) place (shape_view fault) line.new) }
{
    push_place(line, tree, place)?;
    push_shape_fault(alloc, line, tree, place, fault)
}

/// Appends a fault in the shape of the value at a place, without the place.
fn push_shape_fault(
    alloc: Global,
    line: &mut Line,
    tree: &Value,
    place: Place,
    fault: ShapeFault,
) -> Pushed
    ensures { OnOk result (Appends (IsShapeFault (view tree.now) place (shape_view fault)) line.old line.new) }
{
    match fault {
        ShapeFault::NotAnArray => {
            push_kind_fault(alloc, line, "this is ", value_at(tree, place), "an array")
        }
        ShapeFault::NotAnObject => {
            push_kind_fault(alloc, line, "this is ", value_at(tree, place), "an object")
        }
        ShapeFault::Unknown(index) => push_unknown(line, member_name_at(tree, place, index)),
        ShapeFault::Missing(member) => push_missing(line, member.name),
        ShapeFault::WrongKind(member) => {
            push_wrong_member(alloc, line, value_at(tree, place), member)
        }
    }
}

/// Appends these words, a value, and the kind that it must have.
pub(crate) fn push_kind_fault(
    alloc: Global,
    line: &mut Line,
    words: &str,
    value: Option<&Value>,
    kind: &str,
) -> Pushed
    requires words { has_line_feed words.now ≡ false }
    requires kind { has_line_feed kind.now ≡ false }
    ensures { OnOk result (Appends (IsKindFault words.now (option_map (λ v. view v.now) value.entry) kind.now)
        line.old line.new) }
{
    line.push_words(words)?;
    push_shown(alloc, line, value)?;
    line.push_words("; it has to be ")?;
    line.push_words(kind)
}

/// Appends that the member of this name isn't known.
pub(crate) fn push_unknown(line: &mut Line, name: Option<&str>) -> Pushed
    ensures { OnOk result (line.new
        ≡ line.old ++ unknown_name_text (option_map (λ name. name.now) name.entry)) }
{
    line.push_name("a member ", name)?;
    line.push_words(" isn't known here")
}

/// The name of the member at this index of the object at a place, in the order of its members' names.
fn member_name_at(tree: &Value, place: Place, index: usize) -> Option<&str>
    ensures { option_map (λ key. key.now) result ≡ member_name_at (view tree.now) place index }
{
    let object = value_at(tree, place).and_then(Value::as_object)?;
    nth_member_name(object, index)
}

fn nth_member_name(object: &Map<String, Value>, index: usize) -> Option<&str>
    ensures { option_map (λ key. key.now) result
        ≡ nth_member_name index (members_view object.now.entries) }
{
    match nth_key(object, index) {
        Some(key) => Some(key.as_str()),
        None => None,
    }
}

fn nth_key(object: &Map<String, Value>, index: usize) -> Option<&String>
    ensures { option_map (λ key. key.now) result ≡ slice_get (keys object.now) index }
{
    object.keys().nth(index)
}

/// Appends that the member of this name is missing.
pub(crate) fn push_missing(line: &mut Line, name: &str) -> Pushed
    ensures { OnOk result (line.new ≡ line.old ++ missing_text name.now) }
{
    line.push_words("the member ")?;
    line.push_text(name)?;
    line.push_words(" is missing")
}

/// Appends that the value of a member isn't of its kind.
fn push_wrong_member(
    alloc: Global,
    line: &mut Line,
    object: Option<&Value>,
    member: Member,
) -> Pushed
    ensures { OnOk result (Appends (IsWrongMember (as_row member) (option_map (λ v. view v.now) object.entry))
        line.old line.new) }
{
    line.push_text(member.name)?;
    match member_value(object, member.name) {
        Some(value) => push_member_fault(alloc, line, value, member.kind),
        None => Ok(()),
    }
}

/// A member of an object, if both are there.
fn member_value<'v>(object: Option<&'v Value>, name: &str) -> Option<&'v Value>
    ensures { option_map (λ v. view v.now) result
        ≡ option_and_then (get name.now) (option_map (λ v. view v.now) object.entry) }
{
    object.and_then(|object| object.get(name))
}

/// Appends the kind of a value, and the kind that it must have.
fn push_member_fault(alloc: Global, line: &mut Line, value: &Value, kind: Kind) -> Pushed
    ensures { OnOk result (Appends (IsMemberFault kind (as_array (view value.now)) (view value.now))
        line.old line.new) }
{
    match (kind, value.as_array()) {
        (Kind::Texts, Some(values)) => push_item_fault(alloc, line, values),
        _ => push_kind_fault(alloc, line, " is ", Some(value), kind_words(kind)),
    }
}

/// Appends the first value of an array of texts that isn't a text.
fn push_item_fault(alloc: Global, line: &mut Line, values: &[Value]) -> Pushed
    ensures { OnOk result (Appends (IsItemFault (first_wrong_text 0 (items_view values.now))) line.old line.new) }
{
    match first_wrong_text(values) {
        Some((index, value)) => {
            line.push_words(" ")?;
            line.push_number(index as u64)?;
            push_kind_fault(alloc, line, " is ", Some(value), "a text")
        }
        None => Ok(()),
    }
}

/// The first of these values that isn't a text, and its index.
fn first_wrong_text(values: &[Value]) -> Option<(usize, &Value)>
    ensures { option_map (λ found. (found.0, view found.1.now)) result
        ≡ first_wrong_text 0 (items_view values.now) }
{
    for (index, value) in values.iter().enumerate() {
        if value.as_str().is_none() {
            return Some((index, value));
        }
    }
    None
}
