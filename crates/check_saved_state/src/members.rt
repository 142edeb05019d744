//! Reads the members of an object of JSON by the table of members.

ghost use Rattle.std.specs.Prelude.{◌≡◌, ◌&&◌, map, option_map, string_bytes, bytes_eq};
ghost use Rattle.std.specs.List.{list_all, list_any};
ghost use Rattle.std.specs.BTreeMap.{keys};
ghost use Rattle.serde_json.specs.View.{items_view, view};
ghost use Rattle.check_saved_state.specs.Object.{bool_member, list_member, number_member, optional_number, optional_number_member};
ghost use Rattle.check_saved_state.specs.Object.{state_member, text_member};
ghost use Rattle.check_saved_state.specs.Table.{as_row, found_in, has_kind, has_only_members, is_in};

use crate::result_letters::only_letters;
use crate::table::{Member, ValueKind};
use crate::words::flapping_of_word;
use check_states::{Kind, State};
use serde_json::{Map, Value};

/// Whether the value is an object with no other members than those that this format has.
pub(crate) fn has_only_members(format: u64, members: &[Member], value: &Value) -> bool
    ensures { result ≡ has_only_members format (map as_row members.now) (view value.now) }
{
    match value.as_object() {
        Some(object) => are_known(format, members, object),
        None => false,
    }
}

fn are_known(format: u64, members: &[Member], object: &Map<String, Value>) -> bool
    ensures { result ≡
        list_all (λ key. list_any (λ m. is_in format (as_row m) && bytes_eq m.name.now (string_bytes key))
        members.now) (keys object.now) }
{
    object
        .keys()
        .all(|key| is_known(format, members, key.as_str()))
}

/// Whether a text of this format has a member of this name among these.
pub fn is_known(format: u64, members: &[Member], key: &str) -> bool
    ensures { result ≡
        list_any (λ m. is_in format (as_row m) && bytes_eq m.name.now key.now) members.now }
{
    members
        .iter()
        .any(|member| member.is_in(format) && member.name == key)
}

/// The value that an object has for a member, if it is of the member's kind.
pub(crate) fn found_in<'v>(value: &'v Value, member: Member) -> Option<&'v Value>
    ensures { option_map (λ found. view found.now) result ≡ found_in (view value.now) (as_row member) }
{
    let found = value.get(member.name)?;
    if has_kind(found, member.kind) {
        Some(found)
    } else {
        None
    }
}

/// Whether a value is of a kind. The members of a run aren't looked at.
pub fn has_kind(value: &Value, kind: ValueKind) -> bool
    ensures { result ≡ has_kind kind (view value.now) }
{
    match kind {
        ValueKind::Text => value.as_str().is_some(),
        ValueKind::Number => value.as_u64().is_some(),
        ValueKind::NumberOrNull => value.is_null() || value.as_u64().is_some(),
        ValueKind::Switch => value.as_bool().is_some(),
        ValueKind::State => value.as_str().and_then(State::from_word).is_some(),
        ValueKind::StateKind => value.as_str().and_then(Kind::from_word).is_some(),
        ValueKind::Flapping => value.as_str().and_then(flapping_of_word).is_some(),
        ValueKind::Letters => value.as_str().and_then(only_letters).is_some(),
        ValueKind::RunOrNull => value.is_null() || value.as_object().is_some(),
        ValueKind::List => value.as_array().is_some(),
    }
}

/// The text of a member. None if the member is missing or isn't a text.
pub(crate) fn text_member<'v>(format: u64, value: &'v Value, member: Member) -> Option<&'v str>
    ensures { option_map (λ text. text.now) result
        ≡ text_member format (view value.now) (as_row member) }
{
    match member.default_at(format) {
        Some(default) => default.text(),
        None => found_in(value, member).and_then(Value::as_str),
    }
}

/// The whole number of a member. None if the member is missing or isn't a whole number.
pub(crate) fn number_member(format: u64, value: &Value, member: Member) -> Option<u64>
    ensures { result ≡ number_member format (view value.now) (as_row member) }
{
    match member.default_at(format) {
        Some(default) => default.number(),
        None => found_in(value, member).and_then(Value::as_u64),
    }
}

/// The number of a member. None inside for `null`. None if the member is missing or of another kind.
pub(crate) fn optional_number_member(
    format: u64,
    value: &Value,
    member: Member,
) -> Option<Option<u64>>
    ensures { result ≡ optional_number_member format (view value.now) (as_row member) }
{
    match member.default_at(format) {
        Some(default) => default.optional_number(),
        None => optional_number(found_in(value, member)?),
    }
}

/// A number. None inside for `null`.
fn optional_number(value: &Value) -> Option<Option<u64>>
    ensures { result ≡ optional_number (view value.now) }
{
    if value.is_null() {
        return Some(None);
    }
    Some(Some(value.as_u64()?))
}

/// The items of a member. None if the member is missing or isn't a list.
pub(crate) fn list_member<'v>(format: u64, value: &'v Value, member: Member) -> Option<&'v [Value]>
    ensures { option_map (λ items. items_view items.now) result
        ≡ list_member format (view value.now) (as_row member) }
{
    match member.default_at(format) {
        Some(default) => default.list(),
        None => {
            let items = found_in(value, member)?.as_array()?;
            Some(items)
        }
    }
}

/// The truth value of a member. None if the member is missing or isn't a truth value.
pub(crate) fn bool_member(format: u64, value: &Value, member: Member) -> Option<bool>
    ensures { result ≡ bool_member format (view value.now) (as_row member) }
{
    match member.default_at(format) {
        Some(default) => default.switch(),
        None => found_in(value, member).and_then(Value::as_bool),
    }
}

/// The state whose word a member is, if there is one.
pub(crate) fn state_member(format: u64, value: &Value, member: Member) -> Option<State>
    ensures { result ≡ state_member format (view value.now) (as_row member) }
{
    State::from_word(text_member(format, value, member)?)
}
