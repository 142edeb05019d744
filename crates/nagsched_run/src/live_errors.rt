//! Conversions of errors: from functions that only write to a conversation, and from a conversation to
//! its caller.

ghost use Rattle.std.specs.Prelude.{◌≡◌, ◌≢◌, IfErr};
ghost use Rattle.nagsched_protocol.specs.LiveError.{IsWriteResult, drive_result_of};

use nagsched_protocol::{DriveError, LiveError};

/// The result of a function that only writes, as a conversation's functions report it.
pub fn as_live_result<T: Drop>(written: Result<T, DriveError>) -> Result<T, LiveError>
    requires { IfErr written (λ e. e ≢ DriveError.Read) }
    ensures { IsWriteResult result written }
{
    match written {
        Ok(value) => Ok(value),
        Err(DriveError::Memory) => Err(LiveError::Memory),
        Err(_) => Err(LiveError::Writer),
    }
}

/// The result of a conversation, as its caller gets it.
pub fn as_drive_result<T: Drop>(ended: Result<T, LiveError>) -> Result<T, DriveError>
    ensures { result ≡ drive_result_of ended }
{
    Ok(ended?)
}
