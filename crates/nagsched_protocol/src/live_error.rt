//! Why a conversation ends early, as its own functions report it.

ghost use Rattle.std.specs.Prelude.{◌≡◌};
ghost use Rattle.nagsched_protocol.specs.declared.live_error.LiveError.TheVariants.{Memory, Reader};

use crate::drive_error::DriveError;
use crate::reader::ReaderFault;
use std::alloc::AllocError;

/// Why a conversation ended early. Its caller gets the [`DriveError`] for it.
#[derive(Debug, Drop)]
pub enum LiveError {
    /// The reader failed or was interrupted.
    Reader(ReaderFault),
    /// The writer failed, was interrupted or took no byte, or its flush failed.
    Writer,
    /// Out of memory.
    Memory,
    /// Each line with a number below 2^64 - 1 was answered. These are 2^64 - 3 lines if they begin at
    /// line 2. They are 2^64 - 4 lines if line 2 is the saved state and they begin at line 3.
    LinesSpent,
    /// A line is so long that 2^64 - 1 reads didn't bring its end.
    ReadsSpent,
}

impl From<ReaderFault> for LiveError {
    ghost from_gives = { λ fault e. e ≡ Reader fault };

    fn from(fault: ReaderFault) -> LiveError {
        LiveError::Reader(fault)
    }
}

impl From<AllocError> for LiveError {
    ghost from_gives = { λ _ e. e ≡ Memory };

    fn from(_refused: AllocError) -> LiveError {
        LiveError::Memory
    }
}

impl From<LiveError> for DriveError {
    ghost use Rattle.nagsched_protocol.specs.LiveError.{drive_error_of};

    ghost from_gives = { λ error e. e ≡ drive_error_of error };

    fn from(error: LiveError) -> DriveError {
        match error {
            LiveError::Reader(_) | LiveError::LinesSpent | LiveError::ReadsSpent =>
                DriveError::Read,
            LiveError::Writer => DriveError::Write,
            LiveError::Memory => DriveError::Memory,
        }
    }
}
