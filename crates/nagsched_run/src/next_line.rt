//! Takes the lines of a conversation one at a time. The reader is asked only if the buffer holds no
//! whole line, and the output is flushed before.

ghost use Rattle.std.specs.Prelude.{◌≡◌, ◌<◌, ◌⊎◌, ◌++◌, ℕ, List, [], IfOk, IfErr, OnOk, true, false, length};
ghost use Rattle.std.specs.Io.KnownBytes.{Consumes, IsAtEnd, Keeps};
ghost use Rattle.nagsched_protocol.specs.LiveError.{IsLineReadingError, IsInputError};
ghost use Rattle.nagsched_protocol.specs.LiveInput.{TookLine, has_feed};

use crate::live_errors::as_live_result;
use nagsched_protocol::{InputBuffer, LineBuffer, LiveError, flush};
use std::io::{Read, Write};

/// Takes the next line, and returns whether its line feed came. If it didn't, the input has ended. If
/// the buffer holds a whole line, the reader isn't asked, and the only possible error is `Memory`.
/// `ReadsSpent` comes only if each of 2^64 - 1 reads gave something of the line.
pub fn take_next_line<R: Read, W: Write>(
    buffered: &mut InputBuffer,
    line: &mut LineBuffer,
    reader: &mut R,
    writer: &mut W,
) -> Result<bool, LiveError>
    ensures reading { (bytes_read : List ℕ)
        × Consumes (R.remaining reader.old) (R.remaining reader.new) bytes_read
        × IfOk result (TookLine line.old.most (buffered.old ++ bytes_read) line.new buffered.new
        (IsAtEnd (R.remaining reader.new)))
        × IfErr result (IsLineReadingError bytes_read) }
    ensures no_read { has_feed buffered.old ≡ true → reader.new ≡ reader.old }
    ensures memory { has_feed buffered.old ≡ true
        → IfErr result (λ e. e ≡ LiveError.Memory) }
    ensures kept { Keeps (W.contents writer.old) (W.contents writer.new) }
{
    line.clear();
    for _reads in 0..u64::MAX {
        if buffered.take_line(line)? {
            return Ok(true);
        }
        if !flush_and_read(buffered, reader, writer)? {
            return Ok(false);
        }
    }
    Err(LiveError::ReadsSpent)
}

/// Asks the reader for more, and returns whether it gave any. The buffer is empty. The output is
/// flushed before.
fn flush_and_read<R: Read, W: Write>(
    buffered: &mut InputBuffer,
    reader: &mut R,
    writer: &mut W,
) -> Result<bool, LiveError>
    requires { buffered.old ≡ [] }
    ensures bytes_read { (bytes_read : List ℕ)
        × Consumes (R.remaining reader.old) (R.remaining reader.new) bytes_read
        × OnOk result (buffered.new ≡ bytes_read) }
    ensures end { IfOk result (λ more. more ≡ false
        → (buffered.new ≡ []) × IsAtEnd (R.remaining reader.new)) }
    ensures more { IfOk result (λ more. more ≡ true → 0 < length buffered.new) }
    ensures errors { IfErr result (λ e. IsInputError e ⊎ (e ≡ LiveError.Writer)) }
    ensures kept { Keeps (W.contents writer.old) (W.contents writer.new) }
{
    as_live_result(flush(writer))?;
    buffered.read_more(reader)
}
