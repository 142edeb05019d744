//! Why a run, a drill or a conversation ended early: a fault of its reader or its writer, or out of
//! memory. A conversation may also have spent its lines or its reads.

ghost use Rattle.std.specs.Prelude.{◌≡◌};
ghost use Rattle.nagsched_protocol.specs.declared.drive_error.DriveError.TheVariants.{Memory, Read};

use crate::reader::ReaderFault;
use std::alloc::AllocError;
use thiserror::Error;

/// Why a run, a drill or a conversation ended early.
#[derive(Clone, Copy, Debug, PartialEq, Eq, Error)]
pub enum DriveError {
    /// The reader failed or was interrupted. A run and a drill have written nothing then, and a
    /// conversation has written the answers to the lines that came. A conversation also ends like this
    /// when its lines or reads are spent, which [`LiveError`](crate::live_error::LiveError)
    /// distinguishes.
    #[error("the input could not be read")]
    Read,
    /// The writer failed, was interrupted or took no byte, or its flush failed. A prefix of the text
    /// was written.
    #[error("the output could not be written")]
    Write,
    /// Out of memory. A prefix of the text was written, which is empty if the input wasn't read.
    #[error("out of memory")]
    Memory,
}

impl From<AllocError> for DriveError {
    ghost from_gives = { λ _ e. e ≡ Memory };

    fn from(_refused: AllocError) -> DriveError {
        DriveError::Memory
    }
}

impl From<ReaderFault> for DriveError {
    ghost from_gives = { λ _ e. e ≡ Read };

    fn from(_fault: ReaderFault) -> DriveError {
        DriveError::Read
    }
}
