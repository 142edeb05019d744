//! Reads the input of a check, and finds the document in it.

ghost use Rattle.std.specs.Prelude.{◌≡◌};
ghost use Rattle.nagsched_protocol.specs.Input.{without_last_feed};
ghost use Rattle.nagsched_jobs.specs.Reading.{ReadsPart, is_full_with_feed, check_input_of, document_input_of};

use nagsched_protocol::{DriveError, MAX_READ_BYTES, Start, read_at_most};
use std::alloc::Global;
use std::io::Read;

/// The most bytes of a document that are read at first: one more than it may have. So a longer document
/// is known to be too long.
pub const MAX_DOCUMENT_INPUT: usize = 16_777_217;

/// Reads the part of its input that a check needs: of a document alone, or of the input of a run that
/// starts from a saved state. The errors are those of [`read_document_input`].
pub(crate) fn read_input<R: Read>(
    alloc: Global,
    start: Start,
    reader: &mut R,
) -> Result<Vec<u8>, DriveError>
    ensures { ReadsPart (check_input_of start) (R.remaining reader.old) (R.remaining reader.new) result }
{
    match start {
        Start::Fresh(_) => read_document_input(alloc, reader),
        Start::Resumed(_) => read_at_most(alloc, reader, MAX_READ_BYTES),
    }
}

/// Reads to the end of the input or to `MAX_DOCUMENT_INPUT` bytes, whichever comes first. If the last of
/// these bytes is a line feed, it reads one byte more: the line feed isn't part of the document if the
/// input ends after it.
///
/// Each error of the reader is a fault, an interruption too: nothing is tried again. `Memory` comes
/// only if a byte was read, or if the reader had none.
pub(crate) fn read_document_input<R: Read>(
    alloc: Global,
    reader: &mut R,
) -> Result<Vec<u8>, DriveError>
    ensures { ReadsPart document_input_of (R.remaining reader.old) (R.remaining reader.new) result }
{
    let mut input = read_at_most(alloc, reader, MAX_DOCUMENT_INPUT)?;
    if is_full_with_feed(&input) {
        let behind = read_at_most(alloc, reader, 1)?;
        input.extend_from_slice(&behind)?;
    }
    Ok(input)
}

/// Whether these bytes are one more than a document may have and the last is a line feed. If the input
/// ends after them, they hold a document. Otherwise the document is too long.
fn is_full_with_feed(read: &[u8]) -> bool
    ensures { result ≡ is_full_with_feed read.now }
{
    read.len() == MAX_DOCUMENT_INPUT && document(read).len() < MAX_DOCUMENT_INPUT
}

/// The document of an input: its bytes without the line feed at their end, if they end with one.
pub(crate) fn document(input: &[u8]) -> &[u8]
    ensures { result.now ≡ without_last_feed input.now }
{
    match input.split_last() {
        Some((last, document)) if *last == b'\n' => document,
        Some(_) => input,
        None => input,
    }
}
