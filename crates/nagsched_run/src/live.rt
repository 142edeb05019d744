//! A conversation: reads a setup, then answers each line when it has come, before it asks for more.

ghost use Rattle.std.specs.Prelude.{◌≡◌, ◌≢◌, ◌≤◌, ◌++◌, ◌⊎◌, ℕ, List, [], Ok, IfOk, IfErr, OnOk, true, false, length, string_capacity};
ghost use Rattle.std.specs.Io.KnownBytes.{Appends, Consumes, IsAtEnd, Keeps};
ghost use Rattle.check_objects.specs.Setup.{setup_of};
ghost use Rattle.nagsched_protocol.specs.Agreement.{IsExpectedResult};
ghost use Rattle.nagsched_protocol.specs.Input.{first_line_of};
ghost use Rattle.nagsched_protocol.specs.LiveError.{IsLineReadingError, IsReadingError, drive_error_of, drive_result_of};
ghost use Rattle.nagsched_protocol.specs.LiveInput.{IsBoundedReading, rest_after_line, prefix_of, has_feed};
ghost use Rattle.nagsched_protocol.specs.Script.{state_after_resume_at, with_setup_refusal};
ghost use Rattle.nagsched_protocol.specs.Start.{CanStart};
ghost use Rattle.nagsched_protocol.specs.LiveText.{line_answer, line_meaning, state_after_line};
ghost use Rattle.nagsched_protocol.specs.Forms.{refusal_text};
ghost use Rattle.nagsched_run.specs.Live.{IsSpentAfterInput, IsSpentAfterSetup, IsSpentAfterLines, HasAnsweredLine, ConversationEnded, LeavesText};
ghost use Rattle.nagsched_run.specs.Live.{LineFailed, AnsweringEnded, HasTakenDocument, IsContinuation, saved_at_start};
ghost use Rattle.nagsched_protocol.specs.Streams.{streams};

use crate::drive::answer_as;
use crate::live_errors::{as_drive_result, as_live_result};
use crate::next_line::take_next_line;
use check_objects::Setup;
use check_saved_state::Saved;
use check_sched::Sched;
use json::Scratch;
use nagsched_protocol::{
    AnswerForm, DriveError, Ended, InputBuffer, InputRefusal, LINE_PREFIX_BYTES, LineBuffer,
    LiveError, Outcome, READ_BYTES, REPLY_BYTES, SAVED_PREFIX_BYTES, SETUP_PREFIX_BYTES,
    ScriptError, Start, flush, open, read_request, read_saved, read_setup, refuse_as, resume,
    take_document,
};
use std::alloc::Global;
use std::io::{Read, Write};

/// Holds a conversation. It reads a setup, and a saved state if the scheduler starts from one, and
/// starts the scheduler. Then it answers each line when the line is complete: its line feed has come,
/// or the input has ended after it.
///
/// - A call is made, and the line of its reply is written.
/// - The command `save` is answered by the line of the scheduler's saved state, and `list` by the lines of
///   all objects. Both change nothing.
/// - A line that isn't a command is answered by the line of its refusal, and the scheduler stays as it
///   was.
/// - A blank line is skipped.
///
/// Line 1 is the setup. If it is refused, the line of its refusal is written, and the conversation ends
/// before more is asked for. A saved state is line 2: it is the text after the word in a line `saved`.
/// A refused saved state ends the conversation in the same way. It is refused when its line has come,
/// or as soon as the line has more than 16,777,216 bytes. An accepted saved state has no answer.
///
/// The output is flushed before the reader is asked for more, and at the end. The reader is asked for
/// more only if the buffer holds no whole line. At most 16,777,217 bytes of line 1 and of a saved state
/// are kept, and 4,097 of any other line. The input has no limit.
///
/// Any error of the reader or the writer ends the conversation. An interruption is such an error, and
/// so is a write that takes no byte.
///
/// - `Read`: the reader failed. It also comes if each line with a number below 2^64 - 1 was answered,
///   or if 2^64 - 1 reads didn't bring the end of a line.
/// - `Write`: the writer or its flush failed.
/// - `Memory`: out of memory. A save and a list may run out of memory too.
///
/// A prefix of the text was written then, and after `Memory` whole lines of it.
///
/// Input, text and commands are our own profile. The rules of the calls are those of check_sched, after
/// the chapters of the Nagios Core 4 manual that it names.
pub fn live<R: Read, W: Write>(
    alloc: Global,
    form: AnswerForm,
    start: Start,
    reader: &mut R,
    writer: &mut W,
) -> Ended
    requires { CanStart start }
    ensures { ConversationEnded form start result
        (streams (R.remaining reader.old) (R.remaining reader.new)
        (W.contents writer.old) (W.contents writer.new)) }
{
    as_drive_result(converse(alloc, form, start, reader, writer))
}

/// A conversation that distinguishes a spent loop from a fault of the reader. A loop is spent only if
/// at least 2^64 - 3 bytes were given.
fn converse<R: Read, W: Write>(
    alloc: Global,
    form: AnswerForm,
    start: Start,
    reader: &mut R,
    writer: &mut W,
) -> Result<Outcome, LiveError>
    requires { CanStart start }
    ensures conversation { ConversationEnded form start (drive_result_of result)
        (streams (R.remaining reader.old) (R.remaining reader.new)
        (W.contents writer.old) (W.contents writer.new)) }
    ensures spent { IfErr result (IsSpentAfterInput (R.remaining reader.old) (R.remaining reader.new)) }
{
    let mut buffered = InputBuffer::new(alloc);
    let (setup, whole) = read_setup_line(alloc, &mut buffered, reader)?;
    match setup {
        Ok(setup) => { continue_live(alloc, form, start, setup, whole, buffered, reader, writer) }
        Err(ScriptError::Refused(refusal)) => {
            as_live_result(refuse(alloc, form, refusal, writer))
        }
        Err(ScriptError::Memory) => Err(LiveError::Memory),
    }
}

/// Continues after a setup: starts the scheduler, which may resume a saved state, and answers the lines
/// for it. If nothing may follow the setup, nothing is read. A loop is spent only if at least 2^64 - 3
/// bytes were in the buffer or were given.
fn continue_live<R: Read, W: Write>(
    alloc: Global,
    form: AnswerForm,
    start: Start,
    setup: Setup,
    may_follow: bool,
    buffered: InputBuffer,
    reader: &mut R,
    writer: &mut W,
) -> Result<Outcome, LiveError>
    requires start { CanStart start }
    requires end { may_follow ≡ false → (buffered ≡ []) × IsAtEnd (R.remaining reader.old) }
    requires bounded { length buffered ≤ READ_BYTES }
    ensures continuation { IsContinuation form start setup may_follow buffered result
        (streams (R.remaining reader.old) (R.remaining reader.new)
        (W.contents writer.old) (W.contents writer.new)) }
    ensures spent { IfErr result
        (IsSpentAfterSetup buffered (R.remaining reader.old) (R.remaining reader.new)) }
{
    match start {
        Start::Fresh(moment) => {
            continue_fresh(
                alloc, form, setup, moment, may_follow, buffered, reader, writer,
            )
        }
        Start::Resumed(moment) => {
            continue_resumed(
                alloc, form, setup, moment, may_follow, buffered, reader, writer,
            )
        }
    }
}

/// Continues after a setup with a new scheduler that starts at this moment.
fn continue_fresh<R: Read, W: Write>(
    alloc: Global,
    form: AnswerForm,
    setup: Setup,
    moment: u64,
    may_follow: bool,
    buffered: InputBuffer,
    reader: &mut R,
    writer: &mut W,
) -> Result<Outcome, LiveError>
    requires start { CanStart (Start.Fresh moment) }
    requires end { may_follow ≡ false → (buffered ≡ []) × IsAtEnd (R.remaining reader.old) }
    ensures continuation { IsContinuation form (Start.Fresh moment) setup may_follow buffered result
        (streams (R.remaining reader.old) (R.remaining reader.new)
        (W.contents writer.old) (W.contents writer.new)) }
    ensures spent { IfErr result
        (IsSpentAfterSetup buffered (R.remaining reader.old) (R.remaining reader.new)) }
{
    match open(alloc, setup, moment) {
        Ok(sched) => answer_with(alloc, form, sched, buffered, 2, may_follow, reader, writer),
        Err(_) => Err(LiveError::Memory),
    }
}

/// Continues after a setup with a saved state: reads the line of the saved state, and continues after
/// that line.
fn continue_resumed<R: Read, W: Write>(
    alloc: Global,
    form: AnswerForm,
    setup: Setup,
    moment: Option<u64>,
    may_follow: bool,
    buffered: InputBuffer,
    reader: &mut R,
    writer: &mut W,
) -> Result<Outcome, LiveError>
    requires end { may_follow ≡ false → (buffered ≡ []) × IsAtEnd (R.remaining reader.old) }
    requires bounded { length buffered ≤ READ_BYTES }
    requires start { CanStart (Start.Resumed moment) }
    ensures spent { IfErr result
        (IsSpentAfterSetup buffered (R.remaining reader.old) (R.remaining reader.new)) }
    ensures continuation { IsContinuation form (Start.Resumed moment) setup may_follow buffered result
        (streams (R.remaining reader.old) (R.remaining reader.new)
        (W.contents writer.old) (W.contents writer.new)) }
{
    let mut buffered = buffered;
    let (saved, follow) = read_saved_line(alloc, may_follow, &mut buffered, reader)?;
    match saved {
        Ok(saved) => {
            continue_from_saved(
                alloc, form, setup, moment, &saved, follow, buffered, reader, writer,
            )
        }
        Err(ScriptError::Refused(why)) => as_live_result(refuse(alloc, form, why, writer)),
        Err(ScriptError::Memory) => Err(LiveError::Memory),
    }
}

/// Continues after the line of a saved state: resumes the scheduler, and answers the lines for it. If
/// the scheduler can't be resumed because memory has run out, nothing is read or written.
fn continue_from_saved<R: Read, W: Write>(
    alloc: Global,
    form: AnswerForm,
    setup: Setup,
    moment: Option<u64>,
    saved: &Saved,
    may_follow: bool,
    buffered: InputBuffer,
    reader: &mut R,
    writer: &mut W,
) -> Result<Outcome, LiveError>
    requires { CanStart (Start.Resumed moment) }
    ensures outcome { IfOk result (λ outcome. outcome ≡ Outcome.Ran) }
    ensures none { may_follow ≡ false → IfErr result (λ e. e ≡ LiveError.Memory)
        × (R.remaining reader.new ≡ R.remaining reader.old)
        × (W.contents writer.new ≡ W.contents writer.old) }
    ensures lines { may_follow ≡ true
        → AnsweringEnded form 3 (state_after_resume_at setup saved.now moment) buffered
        (streams (R.remaining reader.old) (R.remaining reader.new)
        (W.contents writer.old) (W.contents writer.new)) result }
    ensures spent { IfErr result
        (IsSpentAfterLines form 3 (state_after_resume_at setup saved.now moment) buffered
        (streams (R.remaining reader.old) (R.remaining reader.new)
        (W.contents writer.old) (W.contents writer.new))) }
{
    match resume(alloc, setup, saved, moment) {
        Ok(sched) => answer_with(alloc, form, sched, buffered, 3, may_follow, reader, writer),
        Err(_) => Err(LiveError::Memory),
    }
}

/// Answers the lines for this scheduler from the one with the number `begins` on, if any may follow.
/// Otherwise nothing is read or written.
fn answer_with<R: Read, W: Write>(
    alloc: Global,
    form: AnswerForm,
    sched: Sched,
    buffered: InputBuffer,
    begins: usize,
    may_follow: bool,
    reader: &mut R,
    writer: &mut W,
) -> Result<Outcome, LiveError>
    requires { begins ≤ 3 }
    ensures outcome { IfOk result (λ outcome. outcome ≡ Outcome.Ran) }
    ensures none { may_follow ≡ false → (result ≡ Ok Outcome.Ran)
        × (R.remaining reader.new ≡ R.remaining reader.old)
        × (W.contents writer.new ≡ W.contents writer.old) }
    ensures lines { may_follow ≡ true → AnsweringEnded form begins sched buffered
        (streams (R.remaining reader.old) (R.remaining reader.new)
        (W.contents writer.old) (W.contents writer.new)) result }
    ensures spent { IfErr result (IsSpentAfterLines form begins sched buffered
        (streams (R.remaining reader.old) (R.remaining reader.new)
        (W.contents writer.old) (W.contents writer.new))) }
{
    let mut talk = Conversation::new(alloc, sched, buffered);
    talk.answer_all(alloc, form, begins, may_follow, reader, writer)
}

/// Writes the refusal of a setup or of a saved state in this form, and flushes the writer.
fn refuse<W: Write>(alloc: Global, form: AnswerForm, refusal: InputRefusal, writer: &mut W) -> Ended
    ensures outcome { IfOk result (λ outcome. outcome ≡ Outcome.Refused) }
    ensures written { OnOk result
        (Appends (W.contents writer.old) (W.contents writer.new) (refusal_text form [] refusal)) }
    ensures fault { IfErr result (λ e. LeavesText e (W.contents writer.old) (W.contents writer.new)
        (refusal_text form [] refusal)) }
    ensures kind { IfErr result (λ e. e ≢ DriveError.Read) }
{
    refuse_as(alloc, form, &[], refusal, writer)?;
    flush(writer)?;
    Ok(Outcome::Refused)
}

/// The setup of line 1, or its refusal, and whether lines may follow.
fn read_setup_line<R: Read>(
    alloc: Global,
    buffered: &mut InputBuffer,
    reader: &mut R,
) -> Result<(Result<Setup, ScriptError>, bool), LiveError>
    requires { buffered.old ≡ [] }
    ensures { (bytes_read : List ℕ)
        × Consumes (R.remaining reader.old) (R.remaining reader.new) bytes_read
        × IsBoundedReading SETUP_PREFIX_BYTES bytes_read
        × IfOk result (λ first.
        IsExpectedResult (λ setup. setup) first.0 (with_setup_refusal (setup_of (first_line_of bytes_read)))
        × HasTakenDocument SETUP_PREFIX_BYTES bytes_read first.1 buffered.new (R.remaining reader.new))
        × IfErr result (IsReadingError bytes_read) }
{
    let mut document = LineBuffer::new(alloc, SETUP_PREFIX_BYTES);
    let whole = take_document(buffered, &mut document, reader)?;
    Ok((read_setup(alloc, document.bytes()), whole))
}

/// The saved state of line 2, or its refusal, and whether lines may follow. If nothing may follow the
/// setup, line 2 is empty, and nothing is read. If the buffer holds the whole line, the reader isn't
/// asked. Nothing was written before this line, so nothing is flushed.
fn read_saved_line<R: Read>(
    alloc: Global,
    may_follow: bool,
    buffered: &mut InputBuffer,
    reader: &mut R,
) -> Result<(Result<Saved, ScriptError>, bool), LiveError>
    requires end { may_follow ≡ false → (buffered.old ≡ []) × IsAtEnd (R.remaining reader.old) }
    requires bounded { length buffered.old ≤ READ_BYTES }
    ensures reading { (bytes_read : List ℕ)
        × Consumes (R.remaining reader.old) (R.remaining reader.new) bytes_read
        × (may_follow ≡ false → bytes_read ≡ [])
        × IsBoundedReading SAVED_PREFIX_BYTES (buffered.old ++ bytes_read)
        × IfOk result (λ second.
        IsExpectedResult (λ saved. saved) second.0 (saved_at_start (buffered.old ++ bytes_read))
        × HasTakenDocument SAVED_PREFIX_BYTES (buffered.old ++ bytes_read) second.1 buffered.new
        (R.remaining reader.new))
        × IfErr result (IsReadingError bytes_read) }
    ensures no_read { has_feed buffered.old ≡ true → reader.new ≡ reader.old }
{
    if !may_follow {
        return Ok((read_saved(alloc, &[]), false));
    }
    let mut line = LineBuffer::new(alloc, SAVED_PREFIX_BYTES);
    let follow = take_document(buffered, &mut line, reader)?;
    Ok((read_saved(alloc, line.bytes()), follow))
}

/// A scheduler in a conversation, the input in its buffer, and the buffers of a line and of a reply.
#[derive(Drop)]
struct Conversation {
    sched: Sched,
    buffered: InputBuffer,
    line: LineBuffer,
    reply: String,
    scratch: Scratch,
}

impl Conversation {
    /// A conversation with this scheduler. There is no memory for a reply yet.
    fn new(alloc: Global, sched: Sched, buffered: InputBuffer) -> Conversation
        ensures sched { result.sched ≡ sched }
        ensures buffered { result.buffered ≡ buffered }
        ensures line { result.line ≡ prefix_of LINE_PREFIX_BYTES [] }
    {
        Conversation {
            sched,
            buffered,
            line: LineBuffer::new(alloc, LINE_PREFIX_BYTES),
            reply: String::new(alloc),
            scratch: Scratch::new(alloc),
        }
    }

    /// Answers the lines from the one with the number `begins` on, if any may follow. Gets the memory for
    /// a reply first. If no lines may follow, nothing is read or written.
    fn answer_all<R: Read, W: Write>(
        &mut self,
        alloc: Global,
        form: AnswerForm,
        begins: usize,
        may_follow: bool,
        reader: &mut R,
        writer: &mut W,
    ) -> Result<Outcome, LiveError>
        requires line { self.old.line.most ≡ LINE_PREFIX_BYTES }
        requires begins { begins ≤ 3 }
        ensures outcome { IfOk result (λ outcome. outcome ≡ Outcome.Ran) }
        ensures none { may_follow ≡ false → (result ≡ Ok Outcome.Ran)
            × (R.remaining reader.new ≡ R.remaining reader.old)
            × (W.contents writer.new ≡ W.contents writer.old) }
        ensures lines { may_follow ≡ true → AnsweringEnded form begins self.old.sched self.old.buffered
            (streams (R.remaining reader.old) (R.remaining reader.new)
            (W.contents writer.old) (W.contents writer.new)) result }
        ensures spent { IfErr result (IsSpentAfterLines form begins self.old.sched self.old.buffered
            (streams (R.remaining reader.old) (R.remaining reader.new)
            (W.contents writer.old) (W.contents writer.new))) }
    {
        if may_follow {
            self.reply = String::with_capacity(alloc, REPLY_BYTES)?;
            self.answer_lines(alloc, form, begins, reader, writer)?;
        }
        Ok(Outcome::Ran)
    }

    /// Answers each line from the one with the number `begins` on, to the end of the input, and then
    /// flushes the writer. `LinesSpent` comes only if all lines below 2^64 - 1 were answered.
    fn answer_lines<R: Read, W: Write>(
        &mut self,
        alloc: Global,
        form: AnswerForm,
        begins: usize,
        reader: &mut R,
        writer: &mut W,
    ) -> Result<(), LiveError>
        requires buffers { (self.old.line.most ≡ LINE_PREFIX_BYTES)
            × (REPLY_BYTES ≤ string_capacity self.old.reply) }
        requires begins { begins ≤ 3 }
        ensures lines { AnsweringEnded form begins self.old.sched self.old.buffered
            (streams (R.remaining reader.old) (R.remaining reader.new)
            (W.contents writer.old) (W.contents writer.new)) result }
        ensures spent { IfErr result (IsSpentAfterLines form begins self.old.sched self.old.buffered
            (streams (R.remaining reader.old) (R.remaining reader.new)
            (W.contents writer.old) (W.contents writer.new))) }
    {
        for number in begins..usize::MAX {
            if !self.answer_next(alloc, form, number, reader, writer)? {
                return as_live_result(flush(writer));
            }
        }
        Err(LiveError::LinesSpent)
    }

    /// Takes the next line, which has this number, and writes its answer. Returns whether lines may
    /// follow. If the buffer holds a whole line, the reader stays as it was. Out of memory nothing is
    /// written, and with words the scheduler stays as it was. With JSON a call may have been made.
    fn answer_next<R: Read, W: Write>(
        &mut self,
        alloc: Global,
        form: AnswerForm,
        number: usize,
        reader: &mut R,
        writer: &mut W,
    ) -> Result<bool, LiveError>
        requires { (self.old.line.most ≡ LINE_PREFIX_BYTES)
            × (REPLY_BYTES ≤ string_capacity self.old.reply) }
        ensures reading { (bytes_read : List ℕ)
            × Consumes (R.remaining reader.old) (R.remaining reader.new) bytes_read
            × IfOk result (λ more. HasAnsweredLine form self.old.sched number (self.old.buffered ++ bytes_read) more
            (R.remaining reader.new) self.new.sched self.new.buffered
            (W.contents writer.old) (W.contents writer.new))
            × IfErr result (IsLineReadingError bytes_read) }
        ensures no_read { has_feed self.old.buffered ≡ true → reader.new ≡ reader.old }
        ensures line { OnOk result (self.new.line.most ≡ LINE_PREFIX_BYTES) }
        ensures capacity { REPLY_BYTES ≤ string_capacity self.new.reply }
        ensures fault { IfErr result (λ e. LineFailed form self.old.sched number self.old.buffered
            (R.remaining reader.old) (W.contents writer.old) (W.contents writer.new) (drive_error_of e)) }
        ensures memory { IfErr result (λ e. e ≡ LiveError.Memory
            → (form ≢ AnswerForm.Json → self.new.sched ≡ self.old.sched)
            × Keeps (W.contents writer.old) (W.contents writer.new)) }
    {
        let whole = take_next_line(&mut self.buffered, &mut self.line, reader, writer)?;
        as_live_result(self.answer(alloc, form, number, writer))?;
        Ok(whole)
    }

    /// Writes the answer to the line that was taken. The memory for a reply's line in words is there before
    /// its call is made. A save or a list may run out of memory, and changes nothing.
    fn answer<W: Write>(
        &mut self,
        alloc: Global,
        form: AnswerForm,
        number: usize,
        writer: &mut W,
    ) -> Result<(), DriveError>
        requires { REPLY_BYTES ≤ string_capacity self.old.reply }
        ensures answered { (text : List ℕ) → self.old.line ≡ prefix_of LINE_PREFIX_BYTES text
            → OnOk result ((self.new.sched
            ≡ state_after_line self.old.sched (line_meaning form self.old.sched.setup number text))
            × Appends (W.contents writer.old) (W.contents writer.new)
            (line_answer form self.old.sched number text (line_meaning form self.old.sched.setup number text))) }
        ensures fault { (text : List ℕ) → self.old.line ≡ prefix_of LINE_PREFIX_BYTES text
            → IfErr result (λ e. LeavesText e (W.contents writer.old) (W.contents writer.new)
            (line_answer form self.old.sched number text (line_meaning form self.old.sched.setup number text))) }
        ensures kind { IfErr result (λ e. e ≢ DriveError.Read) }
        ensures buffered { self.new.buffered ≡ self.old.buffered }
        ensures line { self.new.line ≡ self.old.line }
        ensures capacity { REPLY_BYTES ≤ string_capacity self.new.reply }
        ensures memory { IfErr result (λ e. e ≡ DriveError.Memory
            → (form ≢ AnswerForm.Json → self.new.sched ≡ self.old.sched)
            × Keeps (W.contents writer.old) (W.contents writer.new)) }
    {
        let setup = self.sched.setup();
        match read_request(alloc, form, setup, &self.line, number, &mut self.scratch) {
            Ok(None) => Ok(()),
            Ok(Some(request)) => {
                answer_as(
                    alloc,
                    form,
                    number,
                    &mut self.sched,
                    &request,
                    &mut self.reply,
                    writer,
                )
            }
            Err(ScriptError::Refused(refusal)) => {
                refuse_as(alloc, form, self.line.bytes(), refusal, writer)
            }
            Err(ScriptError::Memory) => Err(DriveError::Memory),
        }
    }
}
