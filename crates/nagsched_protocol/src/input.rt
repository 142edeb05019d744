//! The bytes of an input and its lines. The modules `script` and `command` read what a line says.

ghost use Rattle.std.specs.Prelude.{◌≡◌, ◌==◌, ◌<◌, ◌≤◌, ◌++◌, ℕ, List, length, position, ◌≢◌, take};
ghost use Rattle.std.specs.Prelude.{IfOk, IfErr, IfSome, IsOkUnless, OnOk};
ghost use Rattle.std.specs.Iterator.{YieldsFirstRef, item_count};
ghost use Rattle.nagsched_protocol.specs.Input.{AreLines, HasStartedReading, HasStartedReadingBy, lines_of, first_line_of};
ghost use Rattle.nagsched_protocol.specs.LiveInput.{rest_after_line};

use crate::drive_error::DriveError;
use crate::reader::ask_reader;
use memchr::memchr;
use std::alloc::Global;
use std::io::Read;

/// The most bytes of an input that are read: one more than it may have. So a longer input is known to
/// be too long.
pub const MAX_READ_BYTES: usize = 67_108_865;

/// The number of bytes that the reader is asked for at a time.
const CHUNK: usize = 65_536;

const LINE_FEED: u8 = b'\n';

/// Reads to the end of the input or to `most` bytes, whichever comes first.
///
/// Each error of the reader is a fault, an interruption too: nothing is tried again. The error is
/// `Read` if the reader fails, or `Memory`, and the bytes that were read are lost then. `Memory` comes
/// only if a byte was read, or if the reader had none.
pub fn read_at_most<R: Read>(
    alloc: Global,
    reader: &mut R,
    most: usize,
) -> Result<Vec<u8>, DriveError>
    requires { 0 < most }
    ensures all { IfOk result (λ input.
        IfSome (R.remaining reader.old) (λ bytes. input.items ≡ take most bytes)) }
    ensures left { IfOk result (λ input.
        HasStartedReadingBy (R.remaining reader.old) (R.remaining reader.new) input.items) }
    ensures errors { IfErr result (λ e. e ≢ DriveError.Write) }
    ensures memory { IfErr result (λ e. e ≡ DriveError.Memory
        → HasStartedReading (R.remaining reader.old) (R.remaining reader.new)) }
{
    let mut input = Vec::new(alloc);
    let mut chunk = [0; CHUNK];
    while input.len() < most {
        let wanted = CHUNK.min(most - input.len());
        let count = ask_reader(reader, &mut chunk[..wanted])?;
        if count == 0 {
            break;
        }
        append(&mut input, &chunk[..count])?;
    }
    Ok(input)
}

/// Appends bytes that were read. The error is `Memory`, and never the reader's.
fn append(input: &mut Vec<u8>, bytes: &[u8]) -> Result<(), DriveError>
    ensures added { OnOk result (input.new.items ≡ input.old.items ++ bytes.now) }
    ensures kind { IsOkUnless result DriveError.Memory }
{
    input.extend_from_slice(bytes)?;
    Ok(())
}

/// The lines of an input, each without its line feed. The last line needs no line feed, and a line feed
/// at the end begins no further line.
#[derive(Drop)]
pub struct Lines<'a> {
    /// The bytes of the lines that are still to come.
    pub rest: &'a [u8],
}

impl<'a> Lines<'a> {
    /// The lines of these bytes. By `AreLines` these are their lines, and no others are.
    pub fn new(input: &'a [u8]) -> Self
        ensures bytes { result.rest.now ≡ input.now }
        ensures lines { AreLines input.now (lines_of input.now) }
        ensures only { (others : List (List ℕ)) → AreLines input.now others
            → others ≡ lines_of input.now }
    {
        Lines { rest: input }
    }
}

impl<'a> Iterator for Lines<'a> {
    type Item = &'a [u8];

    ghost next_gives = { YieldsFirstRef (λ s. lines_of s.rest.now) };

    ghost remaining = { item_count (λ s. lines_of s.rest.now) };

    fn next(&mut self) -> Option<&'a [u8]> {
        if self.rest.is_empty() {
            return None;
        }
        let (line, rest) = split_line(self.rest);
        self.rest = rest;
        Some(line)
    }
}

/// The first line of these bytes, and the bytes after its line feed. Without a line feed the line is
/// all bytes.
pub fn split_line(bytes: &[u8]) -> (&[u8], &[u8])
    ensures line { result.0.now ≡ first_line_of bytes.now }
    ensures rest { result.1.now ≡ rest_after_line bytes.now }
    ensures fewer { length result.1.now ≤ length bytes.now }
{
    match line_end(bytes) {
        Some(end) => (&bytes[..end], &bytes[end + 1..]),
        None => (bytes, &[]),
    }
}

/// The place of the first line feed.
pub fn line_end(bytes: &[u8]) -> Option<usize>
    ensures index { result ≡ position (λ b. b == LINE_FEED) bytes.now }
    ensures within { IfSome result (λ end. end < length bytes.now) }
{
    memchr(LINE_FEED, bytes)
}
