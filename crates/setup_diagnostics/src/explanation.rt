//! The explanation of a refused document: the place of its fault, and the reason.

ghost use Rattle.std.specs.Prelude.{◌≡◌, ◌++◌, IfOk, OnOk, [], string_bytes};
ghost use Rattle.serde_json.specs.View.{view};
ghost use Rattle.setup_model.specs.Fault.{view_of};
ghost use Rattle.setup_diagnostics.specs.Explanation.{bytes_of, tree_in, too_long_text, json_position_text, IsExplanation, IsNotJsonText};
ghost use Rattle.setup_diagnostics.specs.Feeds.{HasNoLineFeed};

use crate::counts::push_count;
use crate::cycle::{push_dependency_cycle, push_parent_cycle};
use crate::json_faults::push_json_fault;
use crate::line::{Line, Pushed};
use crate::names::{
    push_bad_name, push_duplicate, push_unknown_end, push_unknown_host, push_unknown_parent,
};
use crate::ranges::push_range;
use crate::shapes::push_shape;
use serde_json::Value;
use setup_model::{Fault, JsonPosition, MAX_DOCUMENT_BYTES};
use std::alloc::{AllocError, Global};

/// A document that is refused.
#[derive(Clone, Copy)]
pub enum Document<'a> {
    /// The tree of a document that is JSON.
    Tree(&'a Value),
    /// The bytes of a document without a tree: it is too long or isn't JSON.
    Bytes(&'a [u8]),
}

/// Explains on one line why a document was refused.
///
/// The line names the place of the fault, the object there, the member or the name at fault, and the values
/// that it can have. A cycle is shown by its objects, in their order. Texts of the document are shown as JSON
/// strings of at most 80 characters. For a document that isn't JSON the line names the position at which reading
/// stops, what is there, and what to do about it. The only error is out of memory. The words are this
/// project's own: Nagios checks its configuration in other ways.
pub fn explain(alloc: Global, document: Document<'_>, fault: &Fault) -> Result<String, AllocError>
    ensures line { IfOk result (λ text. HasNoLineFeed (string_bytes text)) }
    ensures text { IfOk result (λ text.
        IsExplanation (tree_in document.entry) (view_of fault.now) (string_bytes text)) }
    ensures position { IfOk result (λ text.
        IsNotJsonText (bytes_of document.entry) fault.now (string_bytes text)) }
{
    let line = match document {
        Document::Tree(tree) => explanation(alloc, tree, &[], fault)?,
        Document::Bytes(bytes) => explanation(alloc, &Value::Null, bytes, fault)?,
    };
    Ok(line.into_text())
}

/// The line that explains a fault.
fn explanation(alloc: Global, tree: &Value, bytes: &[u8], fault: &Fault) -> Result<Line, AllocError>
    ensures text { IfOk result (λ line. IsExplanation (view tree.now) (view_of fault.now) line) }
    ensures position { IfOk result (λ line. IsNotJsonText bytes.now fault.now line) }
{
    let mut line = Line::new(alloc);
    push_fault(alloc, &mut line, tree, bytes, fault)?;
    Ok(line)
}

/// Explains a fault on an empty line.
fn push_fault(alloc: Global, line: &mut Line, tree: &Value, bytes: &[u8], fault: &Fault) -> Pushed
    requires { line.old ≡ [] }
    ensures text { OnOk result (IsExplanation (view tree.now) (view_of fault.now) line.new) }
    ensures position { OnOk result (IsNotJsonText bytes.now fault.now line.new) }
{
    match fault {
        Fault::TooLong => push_too_long(line),
        Fault::NotJson(position) => push_json_position(alloc, line, bytes, *position),
        Fault::Shape(place, shape) => push_shape(alloc, line, tree, *place, *shape),
        Fault::TooMany(count, number) => push_count(line, *count, *number),
        Fault::BadName(place, name) => push_bad_name(line, tree, *place, *name),
        Fault::Duplicate(place, earlier) => push_duplicate(line, tree, *place, *earlier),
        Fault::UnknownParent(host, parent) => push_unknown_parent(line, tree, *host, *parent),
        Fault::UnknownHost(service) => push_unknown_host(line, tree, *service),
        Fault::UnknownEnd(place, end) => push_unknown_end(line, tree, *place, *end),
        Fault::Range(place, range) => push_range(line, tree, *place, *range),
        Fault::DependencyCycle(part, cycle) => push_dependency_cycle(line, *part, cycle),
        Fault::ParentCycle(cycle) => push_parent_cycle(line, cycle),
        Fault::Memory => line.push_words("memory ran out; that says nothing of the document"),
    }
}

/// Appends the most bytes that a document can have.
fn push_too_long(line: &mut Line) -> Pushed
    ensures { OnOk result (line.new ≡ line.old ++ too_long_text) }
{
    line.push_words("the document has more than ")?;
    line.push_number(MAX_DOCUMENT_BYTES as u64)?;
    line.push_words(" bytes")
}

/// Appends the position at which reading stops in a document that isn't JSON, and why it stops there.
fn push_json_position(
    alloc: Global,
    line: &mut Line,
    bytes: &[u8],
    position: JsonPosition,
) -> Pushed
    ensures { OnOk result (line.new ≡ line.old ++ json_position_text bytes.now position) }
{
    line.push_words("line ")?;
    line.push_number(position.line as u64)?;
    line.push_words(", column ")?;
    line.push_number(position.column as u64)?;
    push_json_fault(alloc, line, bytes, position)
}
