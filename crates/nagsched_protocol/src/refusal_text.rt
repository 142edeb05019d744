//! The text of the refusal of an input.

ghost use Rattle.std.specs.Prelude.{◌≡◌, ◌++◌, OnOk, string_bytes};
ghost use Rattle.nagsched_protocol.specs.Text.{line_fault_text, refusal_line, saved_fault_index, saved_fault_reason};

use crate::refusal::{InputRefusal, LineFault};
use crate::text::Pushed;
use check_objects::{LoadError, Place};
use check_saved_state::SavedFault;
use std::fmt;

/// Appends the line of an input's refusal, with its line feed. An error means out of memory, and a part
/// of the line may have been appended.
pub fn push_refusal(line: &mut String, refusal: InputRefusal) -> Pushed
    ensures { OnOk result
        (string_bytes line.new ≡ string_bytes line.old ++ refusal_line refusal) }
{
    let reason = RefusalText(refusal);
    writeln!(line, "refused {reason}")
}

/// Why an input is refused, and at which place.
#[derive(Clone, Copy)]
struct RefusalText(InputRefusal);

impl fmt::Display for RefusalText {
    ghost use Rattle.std.specs.Prelude.{Some};
    ghost use Rattle.nagsched_protocol.specs.Text.{input_refusal_text};

    ghost output = { λ refusal. Some (input_refusal_text refusal.0) };

    fn fmt<W: fmt::Write>(&self, f: &mut fmt::Formatter<W>) -> fmt::Result {
        match self.0 {
            InputRefusal::Setup(error) => {
                let reason = LoadErrorText(error);
                write!(f, "{reason}")
            }
            InputRefusal::Saved(fault) => {
                let reason = SavedText(fault);
                write!(f, "{reason}")
            }
            InputRefusal::Line { fault, line } => {
                let reason = line_fault_text(fault);
                write!(f, "{reason} {line}")
            }
        }
    }
}

/// The fault of a line.
pub(crate) fn line_fault_text(fault: LineFault) -> &'static str
    ensures { result.now ≡ line_fault_text fault }
{
    match fault {
        LineFault::TooLong => "S1 TooLong",
        LineFault::NotJson => "S2 NotJson",
        LineFault::Shape(_) => "S3 Shape",
        LineFault::Code(_) => "S4 Code",
        LineFault::UnknownName => "S5 UnknownName",
    }
}

/// The fault of a setup document, and its place.
#[derive(Clone, Copy)]
struct LoadErrorText(LoadError);

impl fmt::Display for LoadErrorText {
    ghost use Rattle.std.specs.Prelude.{Some};
    ghost use Rattle.nagsched_protocol.specs.Text.{load_error_text};

    ghost output = { λ e. Some (load_error_text e.0) };

    fn fmt<W: fmt::Write>(&self, f: &mut fmt::Formatter<W>) -> fmt::Result {
        let reason = self.0.reason();
        let Some(place) = self.0.place() else {
            return f.write_str(reason);
        };
        let place = PlaceText(place);
        write!(f, "{reason} {place}")
    }
}

/// The fault of a saved state, and its place.
#[derive(Clone, Copy)]
struct SavedText(SavedFault);

impl fmt::Display for SavedText {
    ghost use Rattle.std.specs.Prelude.{Some};
    ghost use Rattle.nagsched_protocol.specs.Text.{saved_fault_text};

    ghost output = { λ e. Some (saved_fault_text e.0) };

    fn fmt<W: fmt::Write>(&self, f: &mut fmt::Formatter<W>) -> fmt::Result {
        let reason = saved_reason(self.0);
        match saved_index(self.0) {
            Some(index) => write!(f, "{reason} {index}"),
            None => f.write_str(reason),
        }
    }
}

/// The code and the name of the fault of a saved state.
pub(crate) fn saved_reason(fault: SavedFault) -> &'static str
    ensures { result.now ≡ saved_fault_reason fault }
{
    match fault {
        SavedFault::TooLong => "K1 TooLong",
        SavedFault::NotJson => "K2 NotJson",
        SavedFault::Version => "K3 Version",
        SavedFault::Shape(_) => "K4 Shape",
        SavedFault::TooMany => "K5 TooMany",
        SavedFault::BadName(_) => "K6 BadName",
        SavedFault::Duplicate(_) => "K7 Duplicate",
        SavedFault::Range(_) => "K8 Range",
        SavedFault::Unlawful(_) => "K9 Unlawful",
        SavedFault::Memory => "Memory",
    }
}

/// The saved object that has the fault, if it is one object's.
pub(crate) fn saved_index(fault: SavedFault) -> Option<usize>
    ensures { result ≡ saved_fault_index fault }
{
    match fault {
        SavedFault::Shape(index) | SavedFault::Range(index) => index,
        SavedFault::BadName(index) | SavedFault::Duplicate(index) | SavedFault::Unlawful(index) =>
            Some(index),
        _ => None,
    }
}

/// A place in a setup document: its part, and the index if there is one.
#[derive(Clone, Copy)]
struct PlaceText(Place);

impl fmt::Display for PlaceText {
    ghost use Rattle.std.specs.Prelude.{Some};
    ghost use Rattle.nagsched_protocol.specs.Text.{document_place_text};

    ghost output = { λ p. Some (document_place_text p.0) };

    fn fmt<W: fmt::Write>(&self, f: &mut fmt::Formatter<W>) -> fmt::Result {
        let part = self.0.part.name();
        match self.0.index {
            Some(index) => write!(f, "{part} {index}"),
            None => f.write_str(part),
        }
    }
}
