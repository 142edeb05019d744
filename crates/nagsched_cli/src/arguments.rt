//! The jobs that the program's arguments can ask for. The module `job` reads the arguments.

use nagsched_protocol::{AnswerForm, Start};
use std::alloc::AllocError;
use thiserror::Error;

/// A job that the program's arguments ask for.
#[derive(Clone, Copy, Debug, PartialEq, Eq)]
pub enum Job {
    /// To make the calls of a script on a scheduler that starts like this, at a moment from 0 to 2^60, and to
    /// answer in this form. A run doesn't explain refusals in its answers, so its form is words or JSON.
    Run {
        start: Start,
        form: AnswerForm,
    },
    /// To answer lines one after another as they come, in this form, on a scheduler that starts like this, as
    /// above.
    Live {
        start: Start,
        form: AnswerForm,
    },
    /// To check a setup, and a saved state if the scheduler starts from one. The report says what the
    /// setup contains and what becomes of the saved objects in it, or why one of the two is refused.
    /// The first checks in the report are those of a scheduler that starts like this, as above.
    Check {
        start: Start,
    },
    /// To check a setup, and to write it on one line or report why it is refused.
    SetupLine,
    /// To let 1 to 64 workers take the checks that are due at the moments of a script. They share one
    /// scheduler that starts fresh at the moment `start`, from 0 to 2^60. The scheduler's book has room
    /// for `room` entries from the outset, 0 to 1,000,000.
    Drill {
        start: u64,
        workers: u32,
        room: usize,
    },
    /// To write the JSON schema of a setup. No input is read.
    Schema,
}

/// The version of the program.
pub const VERSION: &str = "1.0.0-dev";

/// Why the program's arguments ask for no job.
#[derive(Debug, Drop, Error)]
pub enum WordsError {
    /// They ask for help or for the version, which is this text.
    #[error("{0}")]
    Help(String),
    /// They name no job, or a value that isn't a number within its limits.
    #[error("refused words")]
    Refused,
    /// Out of memory, which says nothing about the arguments.
    #[error("out of memory")]
    Memory,
}

impl From<AllocError> for WordsError {
    ghost use Rattle.std.specs.Prelude.{◌≡◌};
    ghost use Rattle.nagsched_cli.specs.declared.arguments.WordsError.TheVariants.{Memory};

    ghost from_gives = { λ _ e. e ≡ Memory };

    fn from(_refused: AllocError) -> WordsError {
        WordsError::Memory
    }
}
