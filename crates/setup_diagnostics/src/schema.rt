//! The JSON schema of a setup document, from the table of its members.

ghost use Rattle.std.specs.Prelude.{IfOk, OnOk, codes, map, string_bytes, ◌≡◌};
ghost use Rattle.setup_model.specs.Member.{as_row};
ghost use Rattle.setup_model.specs.Members.{document_members};
ghost use Rattle.setup_diagnostics.specs.Schema.{inner_members, number_member, ContainsText, NamesAll, NamesEach, NamesInner};
ghost use Rattle.setup_diagnostics.specs.Shapes.{BeginsWith};

use crate::layout::Layout;
use crate::line::Pushed;
use crate::names::name_member;
use setup_model::members::{
    DOCUMENT_MEMBERS, HOST_DEPENDENCY_MEMBERS, HOST_MEMBERS, SERVICE_DEPENDENCY_MEMBERS,
    SERVICE_MEMBERS,
};
use setup_model::options::OPTION_MEMBERS;
use setup_model::{
    DefaultValue, HOST_LETTERS, Kind, MAX_DEPENDENCIES, MAX_NAME_BYTES, MAX_OBJECTS, MAX_PARENTS,
    Member, Part, SERVICE_LETTERS,
};
use std::alloc::{AllocError, Global};

/// Rules of a setup that a schema can't express.
const DESCRIPTION: &str = "\
Line 1 of the program's input, written on one line. What a schema can't say: names are at most 255 bytes, \
not characters; they are told apart by their bytes; parents, hosts and the names in dependencies have to be \
there; nothing may be its own parent or master, through any number of links; a low threshold of flapping \
isn't above its high one; there are at most 4096 hosts and services together, 16384 parents of all hosts \
together, and 16384 dependencies of both sorts together; a whole number is written without point, exponent \
or sign (1.0, 1e2 and -0 pass here and are refused); a lone surrogate in a text is refused.";

/// Writes the JSON schema, of draft 2020-12, of a setup document. The schema describes the members of each
/// object, with their kinds, limits and defaults, from the table of members. It names each member of the
/// table. The only error is out of memory. (Our own profile.)
pub fn json_schema(alloc: Global) -> Result<String, AllocError>
    ensures names { IfOk result (λ text. NamesAll document_members (string_bytes text)) }
{
    let mut layout = Layout::new(alloc)?;
    layout.text("$schema", "https://json-schema.org/draft/2020-12/schema")?;
    layout.text("title", "Setup of nagsched")?;
    layout.text("description", DESCRIPTION)?;
    push_object(&mut layout, &[])?;
    layout.open("properties")?;
    push_parts(&mut layout, &DOCUMENT_MEMBERS)?;
    layout.close()?;
    layout.into_text()
}

/// Writes the schema of each of these parts of the document.
fn push_parts(layout: &mut Layout, members: &[Member]) -> Pushed
    ensures { OnOk result (NamesAll (map as_row members.now) layout.new) }
{
    for member in members {
        layout.open(member.name)?;
        push_part_kind(layout, *member)?;
        layout.close()?;
    }
    Ok(())
}

/// Writes the schema of a part of the document.
fn push_part_kind(layout: &mut Layout, member: Member) -> Pushed
    ensures extends { OnOk result (BeginsWith layout.old layout.new) }
    ensures names { OnOk result (NamesInner member.kind layout.new) }
{
    match member.kind {
        Kind::Part(part) => push_part(layout, part, member.purpose),
        _ => Ok(()),
    }
}

/// Writes the schema of a part of the document: its options, or a list of objects.
fn push_part(layout: &mut Layout, part: Part, purpose: &str) -> Pushed
    ensures extends { OnOk result (BeginsWith layout.old layout.new) }
    ensures names { OnOk result (NamesEach (inner_members part) layout.new) }
{
    layout.text("description", purpose)?;
    match part {
        Part::Document | Part::Options => {
            layout.json("default", "{}")?;
            push_members(layout, part, inner_members(part))
        }
        Part::Hosts | Part::Services => push_list(layout, part, MAX_OBJECTS),
        Part::ServiceDependencies | Part::HostDependencies => push_list(
            layout,
            part,
            MAX_DEPENDENCIES,
        ),
    }
}

/// The members of the options, or of the objects in a list.
fn inner_members(part: Part) -> &'static [Member]
    ensures { map as_row result.now ≡ inner_members part }
{
    match part {
        Part::Document => &[],
        Part::Options => &OPTION_MEMBERS,
        Part::Hosts => &HOST_MEMBERS,
        Part::Services => &SERVICE_MEMBERS,
        Part::ServiceDependencies => &SERVICE_DEPENDENCY_MEMBERS,
        Part::HostDependencies => &HOST_DEPENDENCY_MEMBERS,
    }
}

/// Writes the schema of a list of the document.
fn push_list(layout: &mut Layout, part: Part, most: usize) -> Pushed
    ensures extends { OnOk result (BeginsWith layout.old layout.new) }
    ensures names { OnOk result (NamesEach (inner_members part) layout.new) }
{
    layout.text("type", "array")?;
    layout.number("maxItems", most as u64)?;
    layout.json("default", "[]")?;
    layout.open("items")?;
    push_members(layout, part, inner_members(part))?;
    layout.close()
}

/// Writes the schema of an object of this part: its members.
fn push_members(layout: &mut Layout, part: Part, members: &[Member]) -> Pushed
    ensures extends { OnOk result (BeginsWith layout.old layout.new) }
    ensures names { OnOk result (NamesEach (map as_row members.now) layout.new) }
{
    push_object(layout, members)?;
    layout.open("properties")?;
    push_each(layout, part, members)?;
    layout.close()
}

fn push_each(layout: &mut Layout, part: Part, members: &[Member]) -> Pushed
    ensures extends { OnOk result (BeginsWith layout.old layout.new) }
    ensures names { OnOk result (NamesEach (map as_row members.now) layout.new) }
{
    for member in members {
        layout.open(member.name)?;
        push_member(layout, part, *member)?;
        layout.close()?;
    }
    Ok(())
}

/// Writes that a value is an object, and which of these members it must have.
fn push_object(layout: &mut Layout, members: &[Member]) -> Pushed
    ensures { OnOk result (BeginsWith layout.old layout.new) }
{
    layout.text("type", "object")?;
    layout.json("additionalProperties", "false")?;
    if members.iter().any(|member| member.is_required()) {
        push_required(layout, members)?;
    }
    Ok(())
}

fn push_required(layout: &mut Layout, members: &[Member]) -> Pushed
    ensures { OnOk result (BeginsWith layout.old layout.new) }
{
    layout.begin("required")?;
    let mut is_first = true;
    for member in members {
        if member.is_required() {
            push_item(layout, is_first, member.name)?;
            is_first = false;
        }
    }
    layout.push_json("]")
}

/// Writes a text of a list.
fn push_item(layout: &mut Layout, is_first: bool, text: &str) -> Pushed
    ensures { OnOk result (BeginsWith layout.old layout.new) }
{
    layout.push_json(if is_first { "[" } else { ", " })?;
    layout.push_quoted(text)
}

/// Writes the schema of a member: its kind with its limits, its default, and its purpose.
fn push_member(layout: &mut Layout, part: Part, member: Member) -> Pushed
    ensures { OnOk result (BeginsWith layout.old layout.new) }
{
    push_kind(layout, member.kind, member.name == name_member(part))?;
    if let Some(default) = member.default {
        push_default(layout, default, member.kind)?;
    }
    layout.text("description", member.purpose)
}

fn push_default(layout: &mut Layout, default: DefaultValue, kind: Kind) -> Pushed
    ensures { OnOk result (BeginsWith layout.old layout.new) }
{
    match (default, kind) {
        (DefaultValue::Number(number), _) => layout.number("default", number),
        (DefaultValue::Switch(true), _) => layout.json("default", "true"),
        (DefaultValue::Switch(false), _) => layout.json("default", "false"),
        (DefaultValue::Smart, _) => layout.text("default", "s"),
        (DefaultValue::Empty, Kind::Texts) => layout.json("default", "[]"),
        (DefaultValue::Empty, _) => Ok(()),
    }
}

/// Writes which values are of a kind. For a text it also writes whether the text must be a name.
fn push_kind(layout: &mut Layout, kind: Kind, is_name: bool) -> Pushed
    ensures { OnOk result (BeginsWith layout.old layout.new) }
{
    match kind {
        Kind::Part(_) => Ok(()),
        Kind::Text => push_text(layout, is_name),
        Kind::Texts => push_texts(layout),
        Kind::Switch => layout.text("type", "boolean"),
        Kind::Number { low, high } => push_number(layout, low, high),
        Kind::Delay => push_word_or_number(layout, "{\"enum\": [\"n\", \"d\", \"s\"]}", kind),
        Kind::Factor => push_word_or_number(layout, "{\"const\": \"s\"}", kind),
        Kind::ServiceLetters => push_letters(layout, &SERVICE_LETTERS),
        Kind::HostLetters => push_letters(layout, &HOST_LETTERS),
    }
}

fn push_text(layout: &mut Layout, is_name: bool) -> Pushed
    ensures { OnOk result (BeginsWith layout.old layout.new) }
{
    layout.text("type", "string")?;
    if is_name {
        layout.number("minLength", 1)?;
        layout.number("maxLength", MAX_NAME_BYTES as u64)?;
        layout.json("not", "{\"pattern\": \"[;\\\\u0000-\\\\u001f\\\\u007f]\"}")?;
    }
    Ok(())
}

fn push_texts(layout: &mut Layout) -> Pushed
    ensures { OnOk result (BeginsWith layout.old layout.new) }
{
    layout.text("type", "array")?;
    layout.number("maxItems", MAX_PARENTS as u64)?;
    layout.json("items", "{\"type\": \"string\"}")
}

fn push_number(layout: &mut Layout, low: u64, high: u64) -> Pushed
    ensures extends { OnOk result (BeginsWith layout.old layout.new) }
    ensures least { OnOk result (ContainsText (number_member (codes "minimum") low) layout.new) }
    ensures greatest { OnOk result (ContainsText (number_member (codes "maximum") high) layout.new) }
{
    layout.text("type", "integer")?;
    layout.number("minimum", low)?;
    layout.number("maximum", high)
}

/// Writes that a value is one of these words or a number within the limits of its kind.
fn push_word_or_number(layout: &mut Layout, words: &str, kind: Kind) -> Pushed
    ensures { OnOk result (BeginsWith layout.old layout.new) }
{
    layout.begin("anyOf")?;
    layout.push_json("[")?;
    layout.push_json(words)?;
    push_limits(layout, kind)?;
    layout.push_json("]")
}

fn push_limits(layout: &mut Layout, kind: Kind) -> Pushed
    ensures { OnOk result (BeginsWith layout.old layout.new) }
{
    match kind.limits() {
        Some((low, high)) => push_between(layout, low, high),
        None => Ok(()),
    }
}

fn push_between(layout: &mut Layout, low: u64, high: u64) -> Pushed
    ensures { OnOk result (BeginsWith layout.old layout.new) }
{
    layout.push_json(", {\"type\": \"integer\", \"minimum\": ")?;
    layout.push_number(low)?;
    layout.push_json(", \"maximum\": ")?;
    layout.push_number(high)?;
    layout.push_json("}")
}

/// Writes that a text has these letters, with one comma between two of them.
fn push_letters(layout: &mut Layout, letters: &[&str]) -> Pushed
    ensures { OnOk result (BeginsWith layout.old layout.new) }
{
    layout.text("type", "string")?;
    push_pattern(layout, letters)?;
    push_others(layout, letters)
}

fn push_pattern(layout: &mut Layout, letters: &[&str]) -> Pushed
    ensures { OnOk result (BeginsWith layout.old layout.new) }
{
    layout.begin("pattern")?;
    push_all(layout, "\"^[", letters)?;
    push_all(layout, "](,[", letters)?;
    layout.push_json("])*$\"")
}

/// Writes that a text has nothing else.
fn push_others(layout: &mut Layout, letters: &[&str]) -> Pushed
    ensures { OnOk result (BeginsWith layout.old layout.new) }
{
    layout.begin("not")?;
    push_all(layout, "{\"pattern\": \"[^", letters)?;
    layout.push_json(",]\"}")
}

/// Appends JSON as it is, and these letters.
fn push_all(layout: &mut Layout, json: &str, letters: &[&str]) -> Pushed
    ensures { OnOk result (BeginsWith layout.old layout.new) }
{
    layout.push_json(json)?;
    for letter in letters {
        layout.push_json(letter)?;
    }
    Ok(())
}
