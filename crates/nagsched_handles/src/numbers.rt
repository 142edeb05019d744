//! The numbers of switches, times and indices, and the values with given numbers. `setup_model` has the
//! numbers of parts, and `check_states` those of codes, states and kinds.

ghost use Rattle.std.specs.Prelude.{◌≡◌};
ghost use Rattle.nagsched_handles.specs.Structs.{flag, flag_of, presence, number_or_0};
ghost use Rattle.nagsched_handles.specs.Structs.{code_or_unknown, kind_or_hard, optional_number, part_or_host_dependencies, state_or_unreachable};

use check_states::{Code, Kind, State};
use setup_model::Part;

/// Yes as 1, no as 0.
pub(crate) fn flag(yes: bool) -> u32
    ensures { result ≡ flag yes }
{
    if yes { 1 } else { 0 }
}

/// Yes or no, if the number is 1 or 0. None for any other number.
pub fn flag_of(number: u32) -> Option<bool>
    ensures { result ≡ flag_of number }
{
    match number {
        0 => Some(false),
        1 => Some(true),
        _ => None,
    }
}

/// The number, or 0 for None.
pub(crate) fn number_or_0(number: Option<u64>) -> u64
    ensures { result ≡ number_or_0 number }
{
    match number {
        Some(number) => number,
        None => 0,
    }
}

/// Whether there is a number: 1 or 0.
pub(crate) fn presence(number: Option<u64>) -> u32
    ensures { result ≡ presence number }
{
    match number {
        Some(_) => 1,
        None => 0,
    }
}

/// An index as two fields of a struct: whether there is one, 1 or 0, and the index, or 0.
pub(crate) fn index_parts(index: Option<usize>) -> (u64, u64)
    ensures presence { result.0 ≡ presence index }
    ensures number { result.1 ≡ number_or_0 index }
{
    match index {
        Some(index) => (1, index as u64),
        None => (0, 0),
    }
}

/// The return code of this number, or `Unknown` if no code has it.
pub(crate) fn code_or_unknown(number: u32) -> Code
    ensures { result ≡ code_or_unknown number }
{
    match Code::from_number(u64::from(number)) {
        Some(code) => code,
        None => Code::Unknown,
    }
}

/// The state of this number, or `Unreachable` if no state has it.
pub(crate) fn state_or_unreachable(number: u32) -> State
    ensures { result ≡ state_or_unreachable number }
{
    match State::from_number(u64::from(number)) {
        Some(state) => state,
        None => State::Unreachable,
    }
}

/// The kind of a state from its number: `Soft` for 0, `Hard` for any other number.
pub(crate) fn kind_or_hard(number: u32) -> Kind
    ensures { result ≡ kind_or_hard number }
{
    match number {
        0 => Kind::Soft,
        _ => Kind::Hard,
    }
}

/// The part of a document of this number, or `HostDependencies` if no part has it.
pub(crate) fn part_or_host_dependencies(number: u32) -> Part
    ensures { result ≡ part_or_host_dependencies number }
{
    match Part::from_number(number) {
        Some(part) => part,
        None => Part::HostDependencies,
    }
}

/// The time, if the first number isn't 0.
pub(crate) fn optional_time(has_time: u32, time: u64) -> Option<u64>
    ensures { result ≡ optional_number has_time time }
{
    if has_time == 0 { None } else { Some(time) }
}

/// The index, if the first number isn't 0.
pub(crate) fn optional_index(has_index: u64, index: u64) -> Option<usize>
    ensures { result ≡ optional_number has_index index }
{
    if has_index == 0 {
        None
    } else {
        Some(index as usize)
    }
}
