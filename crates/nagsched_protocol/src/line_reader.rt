//! An input that is taken line by line as it comes, in memory that doesn't grow with it. The memory
//! holds the bytes that a reader has given and nobody has taken, and the kept part of the line that is
//! being taken.

ghost use Rattle.std.specs.Prelude.{◌≡◌, ◌≢◌, ◌<◌, ◌≤◌, ◌+◌, ◌⊎◌, ◌++◌, ◌&&◌, ℕ, List, [], IfOk, IfErr, OnErr, OnOk, false, length, true, drop, vec_len, ◌==◌};
ghost use Rattle.std.specs.Prelude.{option_map};
ghost use Rattle.std.specs.Io.KnownBytes.{Consumes, IsAtEnd};
ghost use Rattle.nagsched_protocol.specs.Input.{first_line_of};
ghost use Rattle.nagsched_protocol.specs.LiveError.{IsReadingError, IsInputError};
ghost use Rattle.nagsched_protocol.specs.LiveInput.{LinePrefix, IsBoundedReading, TookLine, rest_after_line, prefix_of, has_feed, line_meaning_by};
ghost use Rattle.nagsched_protocol.specs.Agreement.{IsExpectedResult};
ghost use Rattle.nagsched_protocol.specs.LiveText.{line_meaning};
ghost use Rattle.nagsched_protocol.specs.Requested.{request};

use crate::answer_form::AnswerForm;
use crate::command::RunCommand;
use crate::input::line_end;
use crate::line::{Command, is_blank, read_command};
use crate::live_error::LiveError;
use crate::reader::ask_reader;
use crate::refusal::ScriptError;
use crate::request::Request;
use check_objects::Setup;
use json::Scratch;
use std::alloc::{AllocError, Global};
use std::io::Read;
use std::marker::Model;

/// The number of bytes that the reader is asked for at a time.
pub const READ_BYTES: usize = 8192;

/// The most bytes of line 1 that are kept: one more than a setup document may have. So a longer
/// document is known to be too long.
pub const SETUP_PREFIX_BYTES: usize = 16_777_217;

/// The most bytes of a saved state, on line 2, that are kept: one more than it may have.
pub const SAVED_PREFIX_BYTES: usize = 16_777_217;

/// The most bytes of a later line that are kept: one more than it may have.
pub const LINE_PREFIX_BYTES: usize = 4097;

/// The kept part of a line: at most `most` of its first bytes, and whether all of the line is blank.
#[derive(Drop)]
pub struct LineBuffer {
    most: usize,
    bytes: Vec<u8>,
    blank: bool,
}

impl Model for LineBuffer {
    ghost use Rattle.std.specs.Prelude.{◌≤◌, vec_len};
    ghost use Rattle.nagsched_protocol.specs.LiveInput.{LinePrefix};

    ghost Value = { LinePrefix };

    ghost view = { λ l. record { most = l.most; bytes = l.bytes.items; blank = l.blank } };

    ghost invariant = { λ l. vec_len l.bytes ≤ l.most };
}

impl LineBuffer {
    /// A line that has no byte yet. At most `most` bytes of it are kept.
    pub fn new(alloc: Global, most: usize) -> LineBuffer
        ensures { result ≡ prefix_of most [] }
    {
        LineBuffer {
            most,
            bytes: Vec::new(alloc),
            blank: true,
        }
    }

    /// Begins another line.
    pub fn clear(&mut self)
        ensures { self.new ≡ prefix_of self.old.most [] }
    {
        self.bytes.clear();
        self.blank = true;
    }

    /// Appends bytes to the line. An error means out of memory, and the line stays as it was.
    pub fn push(&mut self, bytes: &[u8]) -> Result<(), AllocError>
        ensures kept { (line : List ℕ) → self.old ≡ prefix_of self.old.most line
            → OnOk result (self.new ≡ prefix_of self.old.most (line ++ bytes.now)) }
        ensures unchanged { OnErr result (self.new ≡ self.old) }
    {
        let room = bytes.len().min(self.most - self.bytes.len());
        self.bytes.extend_from_slice(&bytes[..room])?;
        self.blank &= is_blank(bytes);
        Ok(())
    }

    /// The bytes that are kept.
    pub fn bytes(&self) -> &[u8]
        ensures { result.now ≡ self.now.bytes }
    {
        &self.bytes
    }

    /// Whether all of the line is blank.
    pub fn is_blank(&self) -> bool
        ensures { result ≡ self.now.blank }
    {
        self.blank
    }

    /// Whether as many bytes are kept as may be.
    pub fn is_full(&self) -> bool
        ensures { result ≡ (length self.now.bytes == self.now.most) }
    {
        self.bytes.len() == self.most
    }
}

/// The bytes that a reader has given and that aren't taken yet. The buffer holds at most the bytes of
/// one read, including those already taken.
#[derive(Drop)]
pub struct InputBuffer {
    bytes_read: Vec<u8>,
    taken: usize,
}

impl Model for InputBuffer {
    ghost use Rattle.std.specs.Prelude.{◌≤◌, List, ℕ, drop, vec_len};
    ghost use Rattle.nagsched_protocol.specs.declared.line_reader.TheConstants.{READ_BYTES};

    ghost Value = { List ℕ };

    ghost view = { λ b. drop b.taken b.bytes_read.items };

    ghost invariant = { λ b. (b.taken ≤ vec_len b.bytes_read) × (vec_len b.bytes_read ≤ READ_BYTES) };
}

impl InputBuffer {
    /// An empty buffer.
    pub fn new(alloc: Global) -> InputBuffer
        ensures { result ≡ [] }
    {
        InputBuffer {
            bytes_read: Vec::new(alloc),
            taken: 0,
        }
    }

    /// Takes the bytes up to the next line feed, and the line feed. It appends the bytes without the
    /// line feed to a line. If the buffer has no line feed, it takes all bytes. It returns whether
    /// there was a line feed. An error means out of memory: nothing was taken, and the line stays as it
    /// was.
    pub fn take_line(&mut self, line: &mut LineBuffer) -> Result<bool, AllocError>
        ensures whole { IfOk result (λ whole. whole ≡ has_feed self.old) }
        ensures rest { OnOk result (self.new ≡ rest_after_line self.old) }
        ensures line { (begun : List ℕ) → line.old ≡ prefix_of line.old.most begun
            → OnOk result (line.new ≡ prefix_of line.old.most (begun ++ first_line_of self.old)) }
        ensures unchanged { OnErr result ((self.new ≡ self.old) × (line.new ≡ line.old)) }
    {
        let buffered = &self.bytes_read[self.taken..];
        match line_end(buffered) {
            Some(end) => {
                line.push(&buffered[..end])?;
                self.taken += end + 1;
                Ok(true)
            }
            None => {
                line.push(buffered)?;
                self.taken = self.bytes_read.len();
                Ok(false)
            }
        }
    }

    /// Asks the reader once, with an empty buffer, and returns whether it gave anything. The reader
    /// gives nothing at its end. The error is the reader's fault or `Memory`, and the buffer is empty
    /// then. After `Memory` the bytes that the reader gave are lost.
    pub fn read_more<R: Read>(&mut self, reader: &mut R) -> Result<bool, LiveError>
        requires { self.old ≡ [] }
        ensures bytes_read { (bytes_read : List ℕ)
            × Consumes (R.remaining reader.old) (R.remaining reader.new) bytes_read
            × OnOk result (self.new ≡ bytes_read) × (length bytes_read ≤ READ_BYTES) }
        ensures end { IfOk result (λ more. more ≡ false
            → (self.new ≡ []) × IsAtEnd (R.remaining reader.new)) }
        ensures more { IfOk result (λ more. more ≡ true → 0 < length self.new) }
        ensures errors { IfErr result IsInputError }
        ensures lost { OnErr result (self.new ≡ []) }
    {
        let mut chunk = [0; READ_BYTES];
        let count = ask_reader(reader, &mut chunk)?;
        self.taken = 0;
        self.bytes_read.clear();
        self.bytes_read.extend_from_slice(&chunk[..count])?;
        Ok(count != 0)
    }
}

/// Takes the next line, a document's, and returns whether its line feed came. If it didn't, the input
/// has ended, or as many bytes of the line have come as are kept at most. The reader isn't asked for
/// more than that, and it isn't asked if the buffer holds the whole line. The error is the reader's
/// fault, `Memory`, or `ReadsSpent` if each of 2^64 - 1 reads gave something.
pub fn take_document<R: Read>(
    buffered: &mut InputBuffer,
    line: &mut LineBuffer,
    reader: &mut R,
) -> Result<bool, LiveError>
    requires bounded { length buffered.old ≤ READ_BYTES }
    requires begins { (line.old ≡ prefix_of line.old.most []) × (0 < line.old.most) }
    ensures reading { (bytes_read : List ℕ)
        × Consumes (R.remaining reader.old) (R.remaining reader.new) bytes_read
        × IfOk result (TookLine line.old.most (buffered.old ++ bytes_read) line.new buffered.new
        (IsAtEnd (R.remaining reader.new) ⊎ (line.old.most ≤ length (buffered.old ++ bytes_read))))
        × IsBoundedReading line.old.most (buffered.old ++ bytes_read)
        × IfErr result (IsReadingError bytes_read) }
    ensures no_read { has_feed buffered.old ≡ true → reader.new ≡ reader.old }
{
    for _reads in 0..u64::MAX {
        if buffered.take_line(line)? {
            return Ok(true);
        }
        if line.is_full() {
            return Ok(false);
        }
        if !buffered.read_more(reader)? {
            return Ok(false);
        }
    }
    Err(LiveError::ReadsSpent)
}

/// The meaning of the line with this kept part: nothing if it is blank, or the command of the line with
/// this number, or its first fault. Out of memory is an error of its own.
pub fn read_buffered<C: Command>(
    alloc: Global,
    setup: &Setup,
    line: &LineBuffer,
    number: usize,
    scratch: &mut Scratch,
) -> Result<Option<C>, ScriptError>
    ensures { (text : List ℕ) → line.now ≡ prefix_of LINE_PREFIX_BYTES text
        → IsExpectedResult (option_map C.seen) result (line_meaning_by (C.meaning setup.now) number text) }
{
    if line.is_blank() {
        return Ok(None);
    }
    Ok(Some(read_command(alloc, setup, line.bytes(), number, scratch)?))
}

/// The request of a line that was taken, or its refusal. In JSON it may have an id. A blank line has no
/// request.
pub fn read_request(
    alloc: Global,
    form: AnswerForm,
    setup: &Setup,
    line: &LineBuffer,
    number: usize,
    scratch: &mut Scratch,
) -> Result<Option<Request>, ScriptError>
    ensures { (text : List ℕ) → line.now ≡ prefix_of LINE_PREFIX_BYTES text
        → IsExpectedResult (option_map request) result (line_meaning form setup.now number text) }
{
    match form {
        AnswerForm::Json => read_buffered::<Request>(alloc, setup, line, number, scratch),
        AnswerForm::Words | AnswerForm::Explained => {
            match read_buffered::<RunCommand>(alloc, setup, line, number, scratch)? {
                Some(command) => Ok(Some(Request { command, id: None })),
                None => Ok(None),
            }
        }
    }
}
