//! How a job of the program ends.

use crate::drive_error::DriveError;

/// How a run, a conversation, a drill, a check or the writing of a schema ended, if it met no fault and
/// wasn't out of memory.
#[derive(Clone, Copy, Debug, PartialEq, Eq)]
pub enum Outcome {
    /// The job was done. A run made each call of its script and wrote the line of each reply.
    Ran,
    /// The input was refused before any call was made, and the line of its first refusal was written. A
    /// conversation refuses its input only for the setup or the saved state.
    Refused,
}

/// How a job ended, or the error that ended it early.
pub type Ended = Result<Outcome, DriveError>;
