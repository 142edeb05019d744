//! Requests: commands with an id that their answers repeat, for a conversation in JSON.

ghost use Rattle.std.specs.Prelude.{◌≡◌, IfOk, is_some, option_and_then, option_map, string_bytes};
ghost use Rattle.serde_json.specs.Find.{as_array};
ghost use Rattle.serde_json.specs.View.{view, items_view};
ghost use Rattle.nagsched_protocol.specs.Request.{has_one_member, id_in, id_member, id_of_line, id_of_value, id_value, values_in};
ghost use Rattle.nagsched_protocol.specs.Requested.{id_view};

use crate::command::RunCommand;
use crate::line::{Command, MAX_LINE_BYTES};
use crate::refusal::CommandError;
use check_objects::Setup;
use json::Scratch;
use serde_json::Value;
use std::alloc::{AllocError, Global};

/// What the answer to a request repeats.
#[derive(Drop)]
pub enum RequestId {
    /// A whole number.
    Number(u64),
    /// A text.
    Text(String),
}

/// A command, and the id of its request, if it has one.
#[derive(Drop)]
pub struct Request {
    pub command: RunCommand,
    pub id: Option<RequestId>,
}

impl Command for Request {
    ghost use Rattle.nagsched_protocol.specs.Request as spec;
    ghost use Rattle.nagsched_protocol.specs.Requested.{request};

    ghost Seen = { spec.Request };

    ghost seen = { request };

    ghost meaning = { spec.request_by };

    fn read_flat(_setup: &Setup, _line: &[u8], _scratch: &mut Scratch) -> Option<Request> {
        None
    }

    fn read(
        alloc: Global,
        setup: &Setup,
        word: &str,
        members: &[Value],
    ) -> Result<Request, CommandError> {
        let id = id_in(alloc, members)?;
        let command = RunCommand::read(alloc, setup, word, values_in(members))?;
        Ok(Request { command, id })
    }
}

/// The id of the request in a line, if it has one. A line that is too long, or isn't JSON, has none. The
/// only error is out of memory.
#[tactic(auto, unfolding(crate::specs::Request::id_of_line))]
pub(crate) fn id_of_line(alloc: Global, line: &[u8]) -> Result<Option<RequestId>, AllocError>
    ensures { IfOk result (λ id. option_map id_view id ≡ id_of_line line.now) }
{
    if line.len() > MAX_LINE_BYTES {
        return Ok(None);
    }
    match Value::from_slice(alloc, line) {
        Ok(tree) => id_of_tree(alloc, &tree),
        Err(e) => if e.is_memory() {
            Err(AllocError)
        } else {
            Ok(None)
        },
    }
}

/// The id that is the last item of a tree, if the tree is an array.
fn id_of_tree(alloc: Global, tree: &Value) -> Result<Option<RequestId>, AllocError>
    ensures { IfOk result (λ id. option_map id_view id
        ≡ option_and_then id_in (as_array (view tree.now))) }
{
    match tree.as_array() {
        Some(items) => id_in(alloc, items),
        None => Ok(None),
    }
}

/// The id that is the last of these items, if it is one.
fn id_in(alloc: Global, items: &[Value]) -> Result<Option<RequestId>, AllocError>
    ensures { IfOk result (λ id. option_map id_view id ≡ id_in (items_view items.now)) }
{
    match id_value(items) {
        Some(value) => id_of_value(alloc, value),
        None => Ok(None),
    }
}

/// The id that a value is, if it is one.
fn id_of_value(alloc: Global, value: &Value) -> Result<Option<RequestId>, AllocError>
    ensures { IfOk result (λ id. option_map id_view id ≡ id_of_value (view value.now)) }
{
    if let Some(number) = value.as_u64() {
        return Ok(Some(RequestId::Number(number)));
    }
    match value.as_str() {
        Some(text) => Ok(Some(RequestId::Text(copy_of(alloc, text)?))),
        None => Ok(None),
    }
}

/// A copy of a text.
fn copy_of(alloc: Global, text: &str) -> Result<String, AllocError>
    ensures { IfOk result (λ copy. string_bytes copy ≡ text.now) }
{
    let mut copy = String::new(alloc);
    copy.push_str(text)?;
    Ok(copy)
}

/// The value of the member `id` in the last of these items, if that is an object with this only member.
#[tactic(auto, using(crate::proofs::RequestLemmas::last_seen, crate::proofs::RequestLemmas::none_last))]
fn id_value(items: &[Value]) -> Option<&Value>
    ensures { option_map (λ v. view v.now) result ≡ id_value (items_view items.now) }
{
    match items.split_last() {
        Some((last, _)) => id_member(last),
        None => None,
    }
}

/// The value of the member `id`, if a value is an object with this only member.
fn id_member(value: &Value) -> Option<&Value>
    ensures { option_map (λ v. view v.now) result ≡ id_member (view value.now) }
{
    if has_one_member(value) {
        value.get("id")
    } else {
        None
    }
}

/// Whether a value is an object with one member.
#[tactic(auto, using(crate::proofs::RequestLemmas::one_member, crate::proofs::RequestLemmas::no_object))]
fn has_one_member(value: &Value) -> bool
    ensures { result ≡ has_one_member (view value.now) }
{
    match value.as_object() {
        Some(object) => object.len() == 1,
        None => false,
    }
}

/// The values after a word, without an id.
#[tactic(auto, using(crate::proofs::RequestLemmas::rest_seen))]
fn values_in(members: &[Value]) -> &[Value]
    ensures { items_view result.now ≡ values_in (items_view members.now) }
{
    if !has_id(members) {
        return members;
    }
    match members.split_last() {
        Some((_, values)) => values,
        None => members,
    }
}

/// Whether the last of these items is an id.
fn has_id(items: &[Value]) -> bool
    ensures { result ≡ is_some (id_in (items_view items.now)) }
{
    match id_value(items) {
        Some(value) => value.as_u64().is_some() || value.as_str().is_some(),
        None => false,
    }
}
