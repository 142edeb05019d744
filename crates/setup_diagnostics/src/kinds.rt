//! Writes kinds of members, and values.

ghost use Rattle.std.specs.Prelude.{◌≡◌, OnOk, false, option_map};
ghost use Rattle.serde_json.specs.View.{number_view, view};
ghost use Rattle.serde_json.specs.Data.{number};
ghost use Rattle.serde_json.specs.Written.{compact_text, has_float};
ghost use Rattle.setup_diagnostics.specs.Feeds.{has_line_feed};
ghost use Rattle.setup_diagnostics.specs.Shapes.{kind_text, Appends, IsShown, IsValueText};

use crate::line::{Line, Pushed};
use serde_json::Value;
use setup_model::Kind;
use std::alloc::Global;

/// A kind in words, as the end of a sentence.
pub(crate) fn kind_words(kind: Kind) -> &'static str
    ensures text { result.now ≡ kind_text kind }
    ensures no_line_feed { has_line_feed result.now ≡ false }
{
    match kind {
        Kind::Part(_) => "a part of the document",
        Kind::Text => "a text",
        Kind::Texts => "an array of texts",
        Kind::Switch => "true or false",
        Kind::Number { .. } => "a whole number",
        Kind::Delay => "\"n\", \"d\", \"s\" or a whole number",
        Kind::Factor => "\"s\" or a whole number",
        Kind::ServiceLetters => "letters of o, w, u, c, p and n with a comma between two",
        Kind::HostLetters => "letters of o, u, d, p and n with a comma between two",
    }
}

/// Appends a value, if there is one.
pub(crate) fn push_shown(alloc: Global, line: &mut Line, value: Option<&Value>) -> Pushed
    ensures { OnOk result (Appends (IsShown (option_map (λ v. view v.now) value.entry)) line.old line.new) }
{
    match value {
        Some(value) => push_value(alloc, line, value),
        None => Ok(()),
    }
}

/// Appends a value. For an array or an object it appends only which of the two it is.
fn push_value(alloc: Global, line: &mut Line, value: &Value) -> Pushed
    ensures { OnOk result (Appends (IsValueText (view value.now)) line.old line.new) }
{
    match value {
        Value::Null => line.push_words("null"),
        Value::Bool(true) => line.push_words("true"),
        Value::Bool(false) => line.push_words("false"),
        Value::Number(_) => push_any_number(alloc, line, value),
        Value::String(text) => line.push_text(text.as_str()),
        Value::Array(_) => line.push_words("an array"),
        Value::Object(_) => line.push_words("an object"),
    }
}

/// Appends a value that is a number.
fn push_any_number(alloc: Global, line: &mut Line, value: &Value) -> Pushed
    ensures { OnOk result (Appends (λ text. has_float (view value.now) ≡ false
        → text ≡ compact_text (view value.now)) line.old line.new) }
{
    let number = value.to_string(alloc)?;
    line.push_words(number.as_str())
}
