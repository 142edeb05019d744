//! Writes a place of a document: its part, its index, and the name of the object there.

ghost use Rattle.std.specs.Prelude.{◌≡◌, ◌++◌, OnOk, false, option_map};
ghost use Rattle.serde_json.specs.View.{view};
ghost use Rattle.setup_model.specs.declared.place.Part.TheVariants as part;
ghost use Rattle.setup_diagnostics.specs.Feeds.{has_line_feed};
ghost use Rattle.setup_model.specs.Members.{part_name};
ghost use Rattle.setup_diagnostics.specs.Places.{after_space, item_name_text, name_text, part_text, place_text, member_text, member_text_pair};

use crate::line::{Line, Pushed};
use serde_json::Value;
use setup_model::{Part, Place};
use setup_reader::value_at;

/// The text of a member of an object, or None if it has no such text.
pub(crate) fn member_text<'v>(item: &'v Value, member: &str) -> Option<&'v str>
    ensures { option_map (λ text. text.now) result ≡ member_text member.now (view item.now) }
{
    item.get(member).and_then(Value::as_str)
}

/// The texts of two members of an object, or None if it doesn't have both.
pub(crate) fn texts_of<'v>(item: &'v Value, first: &str, second: &str) -> Option<(&'v str, &'v str)>
    ensures { option_map (λ p. (p.0.now, p.1.now)) result
        ≡ member_text_pair first.now second.now (view item.now) }
{
    match (member_text(item, first), member_text(item, second)) {
        (Some(first), Some(second)) => Some((first, second)),
        _ => None,
    }
}

/// Appends a place, a colon and a space. The place is the part, and for an item of a list its index and name.
pub(crate) fn push_place(line: &mut Line, tree: &Value, place: Place) -> Pushed
    ensures { OnOk result (line.new ≡ line.old ++ place_text (view tree.now) place) }
{
    push_part_and_index(line, place.part, place.index)?;
    push_name_at(line, tree, place)?;
    line.push_words(": ")
}

/// Appends a part of the document, and the index in its list if there is one.
pub(crate) fn push_part_and_index(line: &mut Line, part: Part, index: Option<usize>) -> Pushed
    ensures { OnOk result (line.new ≡ line.old ++ part_text part index) }
{
    line.push_words(part_words(part))?;
    match index {
        Some(index) => {
            line.push_words(" ")?;
            line.push_number(index as u64)
        }
        None => Ok(()),
    }
}

/// The name of a part of the document.
pub(crate) fn part_words(part: Part) -> &'static str
    ensures text { result.now ≡ part_name part }
    ensures no_line_feed { has_line_feed result.now ≡ false }
{
    part.name()
}

/// Appends a space and the name of the object at a place, if there is one.
pub(crate) fn push_name_at(line: &mut Line, tree: &Value, place: Place) -> Pushed
    ensures { OnOk result (line.new ≡ line.old ++ name_text (view tree.now) place) }
{
    match value_at(tree, place) {
        Some(item) => push_item_name(line, item, place.part),
        None => Ok(()),
    }
}

/// Appends a space and the name of an item of a part. It is the name of a host, the full name of a service,
/// or both ends of a dependency. Nothing is appended for an item without a name.
fn push_item_name(line: &mut Line, item: &Value, part: Part) -> Pushed
    ensures { OnOk result (line.new ≡ line.old ++ after_space (item_name_text part (view item.now))) }
{
    match part {
        Part::Document | Part::Options => Ok(()),
        Part::Hosts => push_host_name(line, item),
        Part::Services => push_service_name(line, item),
        Part::ServiceDependencies | Part::HostDependencies => push_ends(line, item),
    }
}

fn push_host_name(line: &mut Line, item: &Value) -> Pushed
    ensures { OnOk result (line.new ≡ line.old ++ after_space (item_name_text part.Hosts (view item.now))) }
{
    match member_text(item, "name") {
        Some(name) => {
            line.push_words(" ")?;
            line.push_text(name)
        }
        None => Ok(()),
    }
}

fn push_service_name(line: &mut Line, item: &Value) -> Pushed
    ensures { OnOk result (line.new ≡ line.old ++ after_space (item_name_text part.Services (view item.now))) }
{
    match texts_of(item, "host", "description") {
        Some((host, description)) => {
            line.push_words(" \"")?;
            line.push_excerpt(host)?;
            line.push_words(";")?;
            line.push_excerpt(description)?;
            line.push_words("\"")
        }
        None => Ok(()),
    }
}

fn push_ends(line: &mut Line, item: &Value) -> Pushed
    ensures { OnOk result (line.new ≡ line.old
        ++ after_space (item_name_text part.HostDependencies (view item.now))) }
{
    match texts_of(item, "dependent", "master") {
        Some((dependent, master)) => {
            line.push_words(" ")?;
            line.push_text(dependent)?;
            line.push_words(" on ")?;
            line.push_text(master)
        }
        None => Ok(()),
    }
}
