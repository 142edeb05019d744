//! The reasons for which an input can be refused, with what the failed test has found. `refusal_text` has the
//! line of a refusal, and `explanation` the sentence that explains it.

ghost use Rattle.std.specs.Prelude.{◌≡◌, ok_or};
ghost use Rattle.nagsched_protocol.specs.declared.refusal.ScriptError.TheVariants.{Memory};
ghost use Rattle.nagsched_protocol.specs.Agreement.{refusal};

use crate::drive_error::DriveError;
use check_objects::LoadError;
use check_saved_state::SavedFault;
use std::alloc::{AllocError, AllocFailed};

/// The commands that a line can name.
#[derive(Clone, Copy, Debug, PartialEq, Eq)]
pub enum Vocabulary {
    /// Those of `run` and `live`.
    Run,
    /// Those of `drill`.
    Drill,
}

/// What a value after a word has to be.
#[derive(Clone, Copy, Debug, PartialEq, Eq)]
pub enum ValueKind {
    /// The full name of an object.
    Name,
    /// A time in milliseconds.
    Time,
    /// The number of a run.
    Run,
    /// A return code of a plugin.
    Code,
    /// True or false.
    Switch,
}

/// A fault in the shape of a line. The first of these that holds is reported, in the order of the variants.
/// The values after the word are counted from 1.
#[derive(Clone, Copy, Debug, PartialEq, Eq)]
pub enum LineShape {
    /// The line isn't an array.
    NotAnArray,
    /// The array has no word, since it is empty.
    Empty,
    /// The first item of the array isn't a text.
    NoWord,
    /// The word isn't one of these commands.
    UnknownWord(Vocabulary),
    /// The number of values after the word, and the number that there has to be.
    Count(usize, usize),
    /// The number of values after the word, and the least number that there has to be.
    TooFew(usize, usize),
    /// The value with this number isn't of this kind: the first one.
    WrongKind(usize, ValueKind),
}

/// The faults of a line of a script, in the order in which a line is tested.
#[derive(Clone, Copy, Debug, PartialEq, Eq)]
pub enum LineFault {
    /// The line has more than 4,096 bytes without its line feed. As the fault of line 0: the input has
    /// more than 67,108,864 bytes.
    TooLong,
    /// `serde_json` gives no reading of the line, for a cause other than memory.
    NotJson,
    /// The line isn't an array, its word is unknown, or the values after it are wrong in number or kind.
    Shape(LineShape),
    /// The value with this number is a return code above 3: the first one. (Manual: "Plugin API"; a plugin
    /// may return no other.)
    Code(usize),
    /// The setup has no object with the full name that is the first value.
    UnknownName,
}

/// The first refusal of an input. It comes before any call is made.
#[derive(Clone, Copy, Debug, PartialEq, Eq)]
pub enum InputRefusal {
    /// The setup document, which is line 1, was refused.
    Setup(LoadError),
    /// The saved state, which is line 2 of an input that resumes it, was refused.
    Saved(SavedFault),
    /// A later line was refused, or with line 0 the whole input.
    Line { fault: LineFault, line: usize },
}

/// Why an array isn't a command.
#[derive(Clone, Copy, Debug, PartialEq, Eq)]
pub enum CommandError {
    /// The line is refused for this fault.
    Refused(LineFault),
    /// Out of memory, which says nothing about the line.
    Memory,
}

impl From<LineFault> for CommandError {
    ghost use Rattle.nagsched_protocol.specs.declared.refusal.CommandError.TheVariants as errors;

    ghost from_gives = { λ fault e. e ≡ errors.Refused fault };

    fn from(fault: LineFault) -> CommandError {
        CommandError::Refused(fault)
    }
}

impl From<AllocError> for CommandError {
    ghost use Rattle.nagsched_protocol.specs.declared.refusal.CommandError.TheVariants as errors;

    ghost from_gives = { λ _ e. e ≡ errors.Memory };

    fn from(_refused: AllocError) -> CommandError {
        CommandError::Memory
    }
}

impl<T: Drop> From<AllocFailed<T>> for CommandError {
    ghost use Rattle.nagsched_protocol.specs.declared.refusal.CommandError.TheVariants as errors;

    ghost from_gives = { λ _ e. e ≡ errors.Memory };

    fn from(_refused: AllocFailed<T>) -> CommandError {
        CommandError::Memory
    }
}

/// Why an input was not read as a script.
#[derive(Clone, Copy, Debug, PartialEq, Eq)]
pub enum ScriptError {
    /// The input is refused, and the run writes this refusal.
    Refused(InputRefusal),
    /// Out of memory, which says nothing about the input.
    Memory,
}

impl ScriptError {
    /// The refusal of the input, which is to be written. Out of memory there is no refusal, and the run
    /// ends as `Memory`.
    pub fn refusal(self) -> Result<InputRefusal, DriveError>
        ensures { result ≡ ok_or (refusal self) DriveError.Memory }
    {
        match self {
            ScriptError::Refused(refusal) => Ok(refusal),
            ScriptError::Memory => Err(DriveError::Memory),
        }
    }
}

impl From<AllocError> for ScriptError {
    ghost from_gives = { λ _ e. e ≡ Memory };

    fn from(_refused: AllocError) -> ScriptError {
        ScriptError::Memory
    }
}
