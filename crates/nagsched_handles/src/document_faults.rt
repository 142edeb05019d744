//! Structs for the refusals of a document, in both directions.

ghost use Rattle.std.specs.Prelude.{◌≡◌, ◌≢◌, IfNone, IfSome};
ghost use Rattle.setup_model.specs.declared.error.LoadError.TheVariants.{Memory};
ghost use Rattle.nagsched_handles.specs.Structs.{place_from_c, c_refusal, refusal_at, refusal_without_place, IsNoRefusal};

use crate::numbers::{index_parts, optional_index, part_or_host_dependencies};
use crate::structs::CRefusal;
use setup_model::{LoadError, Place};

/// A refusal of this kind that has no place.
fn refusal_without_place(kind: u32) -> CRefusal
    ensures { result ≡ refusal_without_place kind }
{
    CRefusal {
        kind,
        part: 0,
        has_index: 0,
        index: 0,
    }
}

/// A refusal of this kind at this place.
fn refusal_at(kind: u32, place: Place) -> CRefusal
    ensures { result ≡ refusal_at kind place }
{
    let (has_index, index) = index_parts(place.index);
    CRefusal {
        kind,
        part: place.part.number(),
        has_index,
        index,
    }
}

/// Why a document isn't a setup, for C. Out of memory is a status, so C never gets its struct.
pub fn c_refusal(error: LoadError) -> CRefusal
    ensures { result ≡ c_refusal error }
{
    match error.place() {
        Some(place) => refusal_at(error.number(), place),
        None => refusal_without_place(error.number()),
    }
}

/// The refusal of a document with this struct, if there is one. Out of memory doesn't count.
pub fn refusal_of(plain: CRefusal) -> Option<LoadError>
    ensures some { IfSome result (λ error. c_refusal error ≡ plain) }
    ensures output { IfSome result (λ error. error ≢ Memory) }
    ensures none { IfNone result (IsNoRefusal plain) }
{
    let error = LoadError::from_number(plain.kind, place_from_c(plain))?;
    (c_refusal(error) == plain).then_some(error)
}

/// The place that the fields of a struct name, if they name one.
fn place_from_c(plain: CRefusal) -> Place
    ensures { result ≡ place_from_c plain }
{
    Place {
        part: part_or_host_dependencies(plain.part),
        index: optional_index(plain.has_index, plain.index),
    }
}
