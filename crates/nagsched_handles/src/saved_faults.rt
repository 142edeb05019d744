//! Structs for the refusals of a saved state, in both directions.

ghost use Rattle.std.specs.Prelude.{◌≡◌, ◌≢◌, IfNone, IfSome};
ghost use Rattle.check_saved_state.specs.declared.fault.SavedFault.TheVariants.{Memory};
ghost use Rattle.nagsched_handles.specs.SavedFaults.{fault_from_c, fault_struct, c_fault, IsNoFault};

use crate::kinds;
use crate::numbers::{index_parts, optional_index};
use crate::structs::CRefusal;
use check_saved_state::SavedFault;

/// A refusal of this kind, at the object with this index, if there is one.
fn fault_struct(kind: u32, index: Option<usize>) -> CRefusal
    ensures { result ≡ fault_struct kind index }
{
    let (has_index, index) = index_parts(index);
    CRefusal {
        kind,
        part: 0,
        has_index,
        index,
    }
}

/// Why a saved state is refused, for C. Out of memory is a status, so C never gets its struct.
pub fn c_fault(fault: SavedFault) -> CRefusal
    ensures { result ≡ c_fault fault }
{
    match fault {
        SavedFault::TooLong => fault_struct(kinds::REFUSAL_SAVED_TOO_LONG, None),
        SavedFault::NotJson => fault_struct(kinds::REFUSAL_SAVED_NOT_JSON, None),
        SavedFault::Version => fault_struct(kinds::REFUSAL_SAVED_VERSION, None),
        SavedFault::Shape(index) => fault_struct(kinds::REFUSAL_SAVED_SHAPE, index),
        SavedFault::TooMany => fault_struct(kinds::REFUSAL_SAVED_TOO_MANY, None),
        SavedFault::BadName(index) => fault_struct(kinds::REFUSAL_SAVED_BAD_NAME, Some(index)),
        SavedFault::Duplicate(index) => fault_struct(kinds::REFUSAL_SAVED_DUPLICATE, Some(index)),
        SavedFault::Range(index) => fault_struct(kinds::REFUSAL_SAVED_RANGE, index),
        SavedFault::Unlawful(index) => fault_struct(kinds::REFUSAL_SAVED_UNLAWFUL, Some(index)),
        SavedFault::Memory => fault_struct(kinds::REFUSAL_SAVED_MEMORY, None),
    }
}

/// The refusal of a saved state with this struct, if there is one. Out of memory doesn't count.
pub fn fault_of(plain: CRefusal) -> Option<SavedFault>
    ensures some { IfSome result (λ fault. c_fault fault ≡ plain) }
    ensures output { IfSome result (λ fault. fault ≢ Memory) }
    ensures none { IfNone result (IsNoFault plain) }
{
    match fault_from_c(plain) {
        SavedFault::Memory => None,
        fault => (c_fault(fault) == plain).then_some(fault),
    }
}

/// The refusal that the fields of a struct name, if they are those of a refusal. For other fields it is
/// `Memory`, whose struct no function writes.
fn fault_from_c(plain: CRefusal) -> SavedFault
    ensures { result ≡ fault_from_c plain }
{
    match plain.kind {
        kinds::REFUSAL_SAVED_TOO_LONG => SavedFault::TooLong,
        kinds::REFUSAL_SAVED_NOT_JSON => SavedFault::NotJson,
        kinds::REFUSAL_SAVED_VERSION => SavedFault::Version,
        kinds::REFUSAL_SAVED_SHAPE => SavedFault::Shape(optional_index(
            plain.has_index,
            plain.index,
        )),
        kinds::REFUSAL_SAVED_TOO_MANY => SavedFault::TooMany,
        kinds::REFUSAL_SAVED_BAD_NAME => SavedFault::BadName(plain.index as usize),
        kinds::REFUSAL_SAVED_DUPLICATE => SavedFault::Duplicate(plain.index as usize),
        kinds::REFUSAL_SAVED_RANGE => SavedFault::Range(optional_index(
            plain.has_index,
            plain.index,
        )),
        kinds::REFUSAL_SAVED_UNLAWFUL => SavedFault::Unlawful(plain.index as usize),
        _ => SavedFault::Memory,
    }
}
