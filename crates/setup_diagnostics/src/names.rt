//! Faults of names: bad names, repeated names, and names of objects that don't exist.

ghost use Rattle.std.specs.Prelude.{◌≡◌, ◌++◌, OnOk, false, option_and_then, option_map};
ghost use Rattle.serde_json.specs.View.{view};
ghost use Rattle.setup_model.specs.Place.{service_place};
ghost use Rattle.setup_reader.specs.Places.{value_at};
ghost use Rattle.setup_diagnostics.specs.Feeds.{has_line_feed};
ghost use Rattle.setup_diagnostics.specs.Names.{bad_byte_text, bad_name_text, duplicate_text, end_member, end_of, end_role, end_words};
ghost use Rattle.setup_diagnostics.specs.Names.{name_fault_text, name_member};
ghost use Rattle.setup_diagnostics.specs.Names.{parent_name, repeat_words, unknown_end_text, unknown_host_text, unknown_parent_text};
ghost use Rattle.setup_diagnostics.specs.Places.{member_text};

use crate::line::{Line, Pushed};
use crate::places::{member_text, push_part_and_index, push_place};
use serde_json::Value;
use setup_model::{End, EndFault, NameFault, Part, Place};
use setup_reader::value_at;

// ---- bad names

/// Appends why a name isn't allowed.
pub(crate) fn push_bad_name(line: &mut Line, tree: &Value, place: Place, fault: NameFault) -> Pushed
    ensures { OnOk result (line.new ≡ line.old ++ bad_name_text (view tree.now) place fault) }
{
    push_place(line, tree, place)?;
    line.push_text(name_member(place.part))?;
    push_name_fault(line, fault)
}

/// The member whose text must be a name. For a service it is the description.
pub(crate) fn name_member(part: Part) -> &'static str
    ensures { result.now ≡ name_member part }
{
    match part {
        Part::Services => "description",
        _ => "name",
    }
}

fn push_name_fault(line: &mut Line, fault: NameFault) -> Pushed
    ensures { OnOk result (line.new ≡ line.old ++ name_fault_text fault) }
{
    match fault {
        NameFault::Empty => line.push_words(" is empty; it can have 1 to 255 bytes"),
        NameFault::Long(bytes) => {
            line.push_words(" has ")?;
            line.push_number(bytes as u64)?;
            line.push_words(" bytes; it can have 1 to 255")
        }
        NameFault::Byte(byte) => push_bad_byte(line, byte),
    }
}

fn push_bad_byte(line: &mut Line, byte: u8) -> Pushed
    ensures { OnOk result (line.new ≡ line.old ++ bad_byte_text byte) }
{
    if byte == b';' {
        return line.push_words(" has a \";\" in it, which no name can have");
    }
    line.push_words(" has the byte ")?;
    line.push_number(byte as u64)?;
    line.push_words(" in it, which no name can have")
}

// ---- repeats

/// Appends that the host or service at this index has the name of the one at a place.
pub(crate) fn push_duplicate(line: &mut Line, tree: &Value, place: Place, earlier: usize) -> Pushed
    ensures { OnOk result (line.new ≡ line.old ++ duplicate_text (view tree.now) place earlier) }
{
    push_place(line, tree, place)?;
    push_part_and_index(line, place.part, Some(earlier))?;
    line.push_words(repeat_words(place.part))
}

fn repeat_words(part: Part) -> &'static str
    ensures text { result.now ≡ repeat_words part }
    ensures no_line_feed { has_line_feed result.now ≡ false }
{
    match part {
        Part::Services => " has that host and description too",
        _ => " has that name too",
    }
}

// ---- hosts that don't exist

/// Appends that a parent of a host doesn't exist, by the index of the host and that of the parent.
pub(crate) fn push_unknown_parent(
    line: &mut Line,
    tree: &Value,
    host: usize,
    parent: usize,
) -> Pushed
    ensures { OnOk result (line.new
        ≡ line.old ++ unknown_parent_text (view tree.now) host parent) }
{
    push_place(line, tree, Place::host(host))?;
    line.push_name("parent ", parent_name(tree, host, parent))?;
    line.push_words(" isn't among the hosts")
}

/// The name of a parent, by the index of the host and that of the parent.
fn parent_name(tree: &Value, host: usize, parent: usize) -> Option<&str>
    ensures { option_map (λ name. name.now) result ≡ parent_name (view tree.now) host parent }
{
    let parents = value_at(tree, Place::host(host))?.get("parents")?;
    parents.get(parent)?.as_str()
}

/// Appends that the host of the service at this index doesn't exist.
pub(crate) fn push_unknown_host(line: &mut Line, tree: &Value, service: usize) -> Pushed
    ensures { OnOk result (line.new ≡ line.old ++ unknown_host_text (view tree.now) service) }
{
    let place = Place::service(service);
    push_place(line, tree, place)?;
    line.push_name("host ", text_at(tree, place, "host"))?;
    line.push_words(" isn't among the hosts")
}

/// The text of a member of the object at a place.
fn text_at<'v>(tree: &'v Value, place: Place, member: &str) -> Option<&'v str>
    ensures { option_map (λ text. text.now) result
        ≡ option_and_then (member_text member.now) (value_at (view tree.now) place) }
{
    member_text(value_at(tree, place)?, member)
}

// ---- ends that don't exist

/// Appends which end of a dependency doesn't exist, or is of the other sort.
pub(crate) fn push_unknown_end(
    line: &mut Line,
    tree: &Value,
    place: Place,
    fault: EndFault,
) -> Pushed
    ensures { OnOk result (line.new ≡ line.old ++ unknown_end_text (view tree.now) place fault) }
{
    let end = end_of(fault);
    push_place(line, tree, place)?;
    line.push_name(end_role(end), text_at(tree, place, end_member(end)))?;
    line.push_words(end_words(place.part, fault))
}

fn end_of(fault: EndFault) -> End
    ensures { result ≡ end_of fault }
{
    match fault {
        EndFault::Unknown(end) | EndFault::OtherSort(end) => end,
    }
}

fn end_member(end: End) -> &'static str
    ensures { result.now ≡ end_member end }
{
    match end {
        End::Dependent => "dependent",
        End::Master => "master",
    }
}

fn end_role(end: End) -> &'static str
    ensures text { result.now ≡ end_role end }
    ensures no_line_feed { has_line_feed result.now ≡ false }
{
    match end {
        End::Dependent => "dependent ",
        End::Master => "master ",
    }
}

fn end_words(part: Part, fault: EndFault) -> &'static str
    ensures text { result.now ≡ end_words part fault }
    ensures no_line_feed { has_line_feed result.now ≡ false }
{
    match (part, fault) {
        (Part::HostDependencies, EndFault::Unknown(_)) => " isn't among the hosts",
        (Part::HostDependencies, EndFault::OtherSort(_)) => " is a service; it has to be a host",
        (_, EndFault::Unknown(_)) => " isn't among the services",
        (_, EndFault::OtherSort(_)) => " is a host; it has to be a service",
    }
}
