//! The values at the places of a document.

ghost use Rattle.std.specs.Prelude.{◌≡◌, option_map};
ghost use Rattle.serde_json.specs.View.{view};
ghost use Rattle.setup_reader.specs.Places.{value_at, value_of_part};

use serde_json::Value;
use setup_model::{Part, Place};

/// The value at a place, or None if the document has no such place.
pub fn value_at(tree: &Value, place: Place) -> Option<&Value>
    ensures { option_map (λ v. view v.now) result ≡ value_at (view tree.now) place }
{
    let value = value_of_part(tree, place.part)?;
    match place.index {
        Some(index) => value.get(index),
        None => Some(value),
    }
}

fn value_of_part(tree: &Value, part: Part) -> Option<&Value>
    ensures { option_map (λ v. view v.now) result ≡ value_of_part (view tree.now) part }
{
    match part {
        Part::Document => Some(tree),
        _ => tree.get(part.name()),
    }
}
