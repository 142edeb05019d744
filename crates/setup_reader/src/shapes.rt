//! Faults of shape, by the table of members.

ghost use Rattle.std.specs.Prelude.{◌≡◌, bytes_eq, find, map, not, option_map, position, string_bytes};
ghost use Rattle.std.specs.List.{list_any};
ghost use Rattle.std.specs.BTreeMap.{keys};
ghost use Rattle.serde_json.specs.Find.{as_str};
ghost use Rattle.serde_json.specs.View.{view, members_view};
ghost use Rattle.setup_model.specs.Fault.{IsExpectedReading, shape_view};
ghost use Rattle.setup_model.specs.Member.{as_row};
ghost use Rattle.setup_model.specs.Members.{item_members};
ghost use Rattle.setup_reader.specs.Criteria.{has_only_letters};
ghost use Rattle.setup_reader.specs.Reading.{items_test, part_items};
ghost use Rattle.setup_reader.specs.Shapes.{first_unknown, has_kind, has_wrong_kind, is_missing, names};
ghost use Rattle.setup_reader.specs.Shapes.{member_fault, object_fault, shape_test};

use crate::criteria::are_letters;
use crate::json_tree::{is_known, texts};
use crate::reading::{delay_method, interleave_factor};
use serde_json::{Map, Value};
use setup_model::{Fault, HOST_LETTERS, Kind, Member, Part, Place, SERVICE_LETTERS, ShapeFault};

/// Whether the value at a place is an object in the shape that these members give it. The error is its fault.
pub(crate) fn verify_shape(place: Place, value: &Value, members: &[Member]) -> Result<(), Fault>
    ensures { IsExpectedReading (λ u. u) result
        (shape_test place (map as_row members.now) (view value.now)) }
{
    match object_fault(value, members) {
        Some(fault) => Err(Fault::Shape(place, fault)),
        None => Ok(()),
    }
}

/// The values of a part of the document, if it is an array of objects in the shape that these members give them. The
/// error is the fault of the array, or of its first value with another shape. A part that is absent has no values.
#[tactic(auto, using(crate::proofs::TreeLemmas::values_seen))]
pub(crate) fn part_items<'v>(
    value: Option<&'v Value>,
    part: Part,
    members: &[Member],
) -> Result<&'v [Value], Fault>
    requires { map as_row members.now ≡ item_members part }
    ensures { IsExpectedReading (λ items. map view items.now) result
        (part_items part (option_map (λ v. view v.now) value.entry)) }
{
    let Some(value) = value else {
        return Ok(&[]);
    };
    match value.as_array() {
        Some(items) => {
            verify_items(items, part, members)?;
            Ok(items)
        }
        None => Err(Fault::Shape(Place::list(part), ShapeFault::NotAnArray)),
    }
}

fn verify_items(items: &[Value], part: Part, members: &[Member]) -> Result<(), Fault>
    ensures { IsExpectedReading (λ u. u) result
        (items_test part (map as_row members.now) (map view items.now)) }
{
    for (index, item) in items.iter().enumerate() {
        verify_shape(Place::item(part, index), item, members)?;
    }
    Ok(())
}

/// The fault of a value that must be an object with these members, or None if it is one.
fn object_fault(value: &Value, members: &[Member]) -> Option<ShapeFault>
    ensures { option_map shape_view result ≡ object_fault (map as_row members.now) (view value.now) }
{
    match value.as_object() {
        Some(object) => member_fault(value, object, members),
        None => Some(ShapeFault::NotAnObject),
    }
}

/// The fault of an object's first member at fault, or None if all its members are right.
fn member_fault(
    value: &Value,
    object: &Map<String, Value>,
    members: &[Member],
) -> Option<ShapeFault>
    ensures { option_map shape_view result ≡
        member_fault (map as_row members.now) (view value.now) (members_view object.now.entries) }
{
    if let Some(index) = first_unknown(object, members) {
        return Some(ShapeFault::Unknown(index));
    }
    if let Some(member) = first_missing(value, members) {
        return Some(ShapeFault::Missing(member));
    }
    let member = first_wrong_kind(value, members)?;
    Some(ShapeFault::WrongKind(member))
}

/// The index of the first member of an object that isn't one of these.
fn first_unknown(object: &Map<String, Value>, members: &[Member]) -> Option<usize>
    ensures { result ≡ first_unknown (names (map as_row members.now))
        (members_view object.now.entries) }
{
    unknown_key(object, members)
}

fn unknown_key(object: &Map<String, Value>, members: &[Member]) -> Option<usize>
    ensures { result ≡
        position (λ key. not (list_any (λ member. bytes_eq member.name.now (string_bytes key))
        members.now)) (keys object.now) }
{
    object
        .keys()
        .position(|key| !is_known(key.as_str(), members))
}

/// The first of these members that is required and is missing.
fn first_missing(object: &Value, members: &[Member]) -> Option<Member>
    ensures { option_map as_row result ≡ find (is_missing (view object.now)) (map as_row members.now) }
{
    for member in members {
        if is_missing(object, *member) {
            return Some(*member);
        }
    }
    None
}

fn is_missing(object: &Value, member: Member) -> bool
    ensures { result ≡ is_missing (view object.now) (as_row member) }
{
    member.is_required() && object.get(member.name).is_none()
}

/// The first of these members that is present and isn't of its kind.
fn first_wrong_kind(object: &Value, members: &[Member]) -> Option<Member>
    ensures { option_map as_row result ≡ find (has_wrong_kind (view object.now)) (map as_row members.now) }
{
    for member in members {
        if has_wrong_kind(object, *member) {
            return Some(*member);
        }
    }
    None
}

fn has_wrong_kind(object: &Value, member: Member) -> bool
    ensures { result ≡ has_wrong_kind (view object.now) (as_row member) }
{
    match object.get(member.name) {
        Some(value) => !has_kind(value, member.kind),
        None => false,
    }
}

/// Whether a value is of a kind. A number beyond its limits still is.
fn has_kind(value: &Value, kind: Kind) -> bool
    ensures { result ≡ has_kind kind (view value.now) }
{
    match kind {
        Kind::Part(_) => true,
        Kind::Text => value.as_str().is_some(),
        Kind::Texts => texts(value).is_some(),
        Kind::Switch => value.as_bool().is_some(),
        Kind::Number { .. } => value.as_u64().is_some(),
        Kind::Delay => delay_method(value).is_some(),
        Kind::Factor => interleave_factor(value).is_some(),
        Kind::ServiceLetters => has_only_letters(value, &SERVICE_LETTERS),
        Kind::HostLetters => has_only_letters(value, &HOST_LETTERS),
    }
}

/// Whether a value is a text of these letters, with one comma between two of them.
fn has_only_letters(value: &Value, letters: &[&str]) -> bool
    ensures { result ≡ has_only_letters (map (λ letter. letter.now) letters.now)
        (as_str (view value.now)) }
{
    match value.as_str() {
        Some(text) => are_letters(text, letters),
        None => false,
    }
}
