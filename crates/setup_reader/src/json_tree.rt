//! Looks into the tree that `serde_json` reads from a document.

ghost use Rattle.std.specs.Prelude.{◌≡◌, ◌↔◌, IsTrue, map, option_map, ok_or, is_some, bytes_eq};
ghost use Rattle.std.specs.List.{list_all, list_any};
ghost use Rattle.serde_json.specs.View.{view};
ghost use Rattle.serde_json.specs.Find.{as_str};
ghost use Rattle.serde_json.specs.Errors.{category};
ghost use Rattle.serde_json.specs.declared.error.Category.TheVariants.{Eof};
ghost use Rattle.setup_reader.specs.JsonTree.{tree_of, member_value, number_at, switch_at, text_at, texts_at, texts_in};
ghost use Rattle.setup_model.specs.Member.{as_row};
ghost use Rattle.setup_model.specs.Text.{text};
ghost use Rattle.setup_model.specs.Fault.{IsExpectedReading, not_json};

use serde_json::{Error, Value};
use setup_model::{Fault, JsonPosition, Member};
use std::alloc::Global;

/// The tree that `serde_json` reads from the bytes. The fault is `NotJson` if there is no reading, or
/// `Memory` if memory ran out.
pub fn read_tree(alloc: Global, bytes: &[u8]) -> Result<Value, Fault>
    ensures { IsExpectedReading view result (ok_or (tree_of bytes.now) not_json) }
{
    match Value::from_slice(alloc, bytes) {
        Ok(tree) => Ok(tree),
        Err(e) => Err(if e.is_memory() {
            Fault::Memory
        } else {
            Fault::NotJson(json_position(&e))
        }),
    }
}

/// The line and the column at which reading stopped.
// `serde_json` promises nothing of the two.
fn json_position(error: &Error) -> JsonPosition
    ensures { IsTrue result.is_at_end ↔ (category error.now ≡ Eof) }
{
    JsonPosition {
        line: error.line(),
        column: error.column(),
        is_at_end: error.is_eof(),
    }
}

/// Whether the text is the name of one of these.
pub(crate) fn is_known(key: &str, members: &[Member]) -> bool
    ensures { result ≡ list_any (λ member. bytes_eq member.name.now key.now) members.now }
{
    members.iter().any(|member| member.name == key)
}

/// A member of an object. The object can be absent itself.
pub(crate) fn member<'v>(value: Option<&'v Value>, name: &str) -> Option<&'v Value>
    ensures { option_map (λ v. view v.now) result
        ≡ member_value name.now (option_map (λ v. view v.now) value.entry) }
{
    match value {
        Some(value) => value.get(name),
        None => None,
    }
}

/// The whole number of a member of an object in the right shape, or its default. The object can be absent itself. A
/// value of another kind counts as 0.
pub(crate) fn number_at(object: Option<&Value>, wanted: Member) -> u64
    ensures { result ≡ number_at (as_row wanted) (option_map (λ v. view v.now) object.entry) }
{
    let number = match member(object, wanted.name) {
        Some(value) => value.as_u64(),
        None => wanted.default_number(),
    };
    number.unwrap_or(0)
}

/// The truth value of a member of an object in the right shape, or its default. The object can be absent itself. A
/// value of another kind counts as false.
pub(crate) fn switch_at(object: Option<&Value>, wanted: Member) -> bool
    ensures { result ≡ switch_at (as_row wanted) (option_map (λ v. view v.now) object.entry) }
{
    let switch = match member(object, wanted.name) {
        Some(value) => value.as_bool(),
        None => wanted.default_switch(),
    };
    switch.unwrap_or(false)
}

/// The text of a member of an object. No text counts as the empty one.
pub(crate) fn text_at<'v>(object: &'v Value, name: &str) -> &'v str
    ensures { result.now ≡ text_at name.now (view object.now) }
{
    object.get(name).and_then(Value::as_str).unwrap_or("")
}

/// The texts of a member of an object, if it is an array of texts. Otherwise there are none.
pub(crate) fn texts_at<'v>(object: &'v Value, name: &str) -> &'v [Value]
    ensures { map text result.now ≡ texts_at name.now (view object.now) }
{
    match object.get(name) {
        Some(value) => texts(value).unwrap_or(&[]),
        None => &[],
    }
}

/// The texts of a value, if it is an array of texts.
pub(crate) fn texts<'v>(value: &'v Value) -> Option<&'v [Value]>
    ensures { option_map (λ items. map text items.now) result ≡ texts_in (view value.now) }
{
    let items = value.as_array()?;
    if are_texts(items) { Some(items) } else { None }
}

fn are_texts(items: &[Value]) -> bool
    ensures { result ≡ list_all (λ v. is_some (as_str (view v))) items.now }
{
    items.iter().all(|item| item.as_str().is_some())
}
