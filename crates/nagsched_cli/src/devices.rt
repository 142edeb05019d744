//! The explanation of a stream that failed.

ghost use Rattle.std.specs.Prelude.{◌≡◌, IfOk, string_bytes};
ghost use Rattle.nagsched_cli.specs.Devices.{device_text, reason_text, stream_text};

use std::alloc::{AllocError, Global};
use std::io::ErrorKind;

/// One of the program's streams.
#[derive(Clone, Copy, Debug, PartialEq, Eq)]
pub enum Stream {
    Input,
    Output,
}

/// Explains in one sentence that a stream failed, and what the system says about it. Without a kind it says nothing, as
/// when a write takes no byte.
pub fn explain_device(
    alloc: Global,
    stream: Stream,
    kind: Option<ErrorKind>,
) -> Result<String, AllocError>
    ensures { IfOk result (λ text. string_bytes text ≡ device_text stream kind) }
{
    let failed = stream_text(stream);
    let reason = reason_text(kind);
    format!(in alloc; "{failed}: {reason}")
}

/// Which stream failed.
fn stream_text(stream: Stream) -> &'static str
    ensures { result.now ≡ stream_text stream }
{
    match stream {
        Stream::Input => "standard input can't be read",
        Stream::Output => "standard output can't be written",
    }
}

/// What the system says about a failure.
fn reason_text(kind: Option<ErrorKind>) -> &'static str
    ensures { result.now ≡ reason_text kind }
{
    match kind {
        None => "it takes no more bytes",
        Some(ErrorKind::IsADirectory) => "it is a folder",
        Some(ErrorKind::PermissionDenied) => "the permission is missing",
        Some(ErrorKind::BrokenPipe) => "nothing reads it any more",
        Some(ErrorKind::StorageFull) => "the device is full",
        Some(ErrorKind::QuotaExceeded) => "the quota is used up",
        Some(ErrorKind::FileTooLarge) => "the file can't grow",
        Some(ErrorKind::WouldBlock) => "it doesn't wait",
        Some(ErrorKind::Interrupted) => "a signal came",
        Some(ErrorKind::OutOfMemory) => "memory ran out",
        Some(_) => "it is closed, or the device failed",
    }
}
