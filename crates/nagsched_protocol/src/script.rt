//! The script of an input. Line 1 is the setup document, and line 2 a saved state if the scheduler
//! starts from one. Each later line that isn't blank is one command.

ghost use Rattle.std.specs.Prelude.{◌≡◌, ◌≤◌, length, map};
ghost use Rattle.check_objects.specs.Setup.{setup_of};
ghost use Rattle.check_saved_state.specs.Text.{saved_of_text};
ghost use Rattle.nagsched_protocol.specs.Agreement.{IsExpectedResult};
ghost use Rattle.nagsched_protocol.specs.Input.{lines_of};
ghost use Rattle.nagsched_protocol.specs.Script.{line_at, refused_bytes, requests_in, requests_of, requests_over};
ghost use Rattle.nagsched_protocol.specs.Script.{commands_of_lines, with_saved_refusal, with_setup_refusal, script_from, script_of, script_over};
ghost use Rattle.nagsched_protocol.specs.Start.{CanStart};

use crate::command::RunCommand;
use crate::input::{Lines, split_line};
use crate::line::{Command, is_blank, line_refusal, read_command};
use crate::refusal::{InputRefusal, LineFault, ScriptError};
use crate::request::Request;
use crate::start::{Start, open, resume};
use check_objects::{LoadError, Setup};
use check_saved_state::{Saved, SavedFault};
use check_sched::Sched;
use json::Scratch;
use std::alloc::Global;

/// The most bytes that an input may have.
pub const MAX_INPUT_BYTES: usize = 67_108_864;

/// A scheduler that has started, and the commands for it in their order.
#[derive(Drop)]
pub struct Script {
    pub sched: Sched,
    pub commands: Vec<RunCommand>,
}

impl Script {
    ghost use Rattle.nagsched_protocol.specs.Scripted.{script};

    /// Reads every line of an input, or returns its first refusal. The tests come in this order: the
    /// input's length, the setup document, the saved state if there is to be one, the lines in their
    /// order. A saved state on a blank or missing line isn't JSON. Out of memory is an error of its
    /// own.
    #[tactic(auto, unfolding(crate::specs::Script::script_of))]
    pub fn read(alloc: Global, start: Start, input: &[u8]) -> Result<Script, ScriptError>
        requires { CanStart start }
        ensures { IsExpectedResult script result (script_of start input.now) }
    {
        if input.len() > MAX_INPUT_BYTES {
            return Err(line_refusal(LineFault::TooLong, 0));
        }
        let (document, rest) = split_line(input);
        let setup = read_setup(alloc, document)?;
        Script::over(alloc, start, setup, rest)
    }

    /// The script over a setup, by the bytes after the setup document.
    fn over(alloc: Global, start: Start, setup: Setup, bytes: &[u8]) -> Result<Script, ScriptError>
        requires start { CanStart start }
        requires bounded { length bytes.now ≤ MAX_INPUT_BYTES }
        ensures { IsExpectedResult script result (script_over start setup bytes.now) }
    {
        match start {
            Start::Fresh(moment) => Script::of_lines(alloc, open(alloc, setup, moment)?, bytes, 2),
            Start::Resumed(moment) => {
                let (text, rest) = split_line(bytes);
                let saved = read_saved(alloc, text)?;
                let sched = resume(alloc, setup, &saved, moment)?;
                Script::of_lines(alloc, sched, rest, 3)
            }
        }
    }

    /// The script of a scheduler and of the lines for it. The first line has this number.
    fn of_lines(
        alloc: Global,
        sched: Sched,
        bytes: &[u8],
        first: usize,
    ) -> Result<Script, ScriptError>
        requires bounded { length bytes.now ≤ MAX_INPUT_BYTES }
        requires first { first ≤ 3 }
        ensures { IsExpectedResult script result
            (script_from (record { state = sched; number = first; rest = bytes.now })) }
    {
        let commands = read_commands(alloc, sched.setup(), bytes, first)?;
        Ok(Script { sched, commands })
    }
}

/// The setup of the document on line 1.
pub fn read_setup(alloc: Global, document: &[u8]) -> Result<Setup, ScriptError>
    ensures { IsExpectedResult (λ setup. setup) result (with_setup_refusal (setup_of document.now)) }
{
    match Setup::read(alloc, document) {
        Ok(setup) => Ok(setup),
        Err(LoadError::Memory) => Err(ScriptError::Memory),
        Err(e) => Err(ScriptError::Refused(InputRefusal::Setup(e))),
    }
}

/// The saved state of the text on line 2.
pub fn read_saved(alloc: Global, text: &[u8]) -> Result<Saved, ScriptError>
    ensures { IsExpectedResult (λ saved. saved) result (with_saved_refusal (saved_of_text text.now)) }
{
    match Saved::read(alloc, text) {
        Ok(saved) => Ok(saved),
        Err(SavedFault::Memory) => Err(ScriptError::Memory),
        Err(fault) => Err(ScriptError::Refused(InputRefusal::Saved(fault))),
    }
}

/// The commands of the lines of these bytes. The first line has this number. A blank line of any length
/// is skipped, but counted.
pub(crate) fn read_commands<C: Command>(
    alloc: Global,
    setup: &Setup,
    bytes: &[u8],
    first: usize,
) -> Result<Vec<C>, ScriptError>
    requires bounded { length bytes.now ≤ MAX_INPUT_BYTES }
    requires first { first ≤ 3 }
    ensures { IsExpectedResult (λ v. map C.seen v.items) result
        (commands_of_lines first (C.meaning setup.now) (lines_of bytes.now)) }
{
    let mut scratch = Scratch::new(alloc);
    let mut commands = Vec::new(alloc);
    let mut number = first;
    let lines = Lines::new(bytes);
    for line in lines {
        if !is_blank(line) {
            let command = read_command(alloc, setup, line, number, &mut scratch)?;
            let Ok(()) = commands.push(command) else {
                return Err(ScriptError::Memory);
            };
        }
        number += 1;
    }
    Ok(commands)
}

/// Tests every line of an input whose requests may have an id, or returns its first refusal. The tests are
/// those of [`Script::read`], in the same order.
#[tactic(auto, unfolding(crate::specs::Script::requests_of))]
pub fn test_requests(alloc: Global, start: Start, input: &[u8]) -> Result<(), ScriptError>
    ensures { IsExpectedResult (λ u. u) result (requests_of start input.now) }
{
    if input.len() > MAX_INPUT_BYTES {
        return Err(line_refusal(LineFault::TooLong, 0));
    }
    let (document, rest) = split_line(input);
    let setup = read_setup(alloc, document)?;
    test_behind(alloc, start, &setup, rest)
}

/// Tests the lines after the setup document.
fn test_behind(alloc: Global, start: Start, setup: &Setup, bytes: &[u8]) -> Result<(), ScriptError>
    requires bounded { length bytes.now ≤ MAX_INPUT_BYTES }
    ensures { IsExpectedResult (λ u. u) result (requests_over start setup.now bytes.now) }
{
    match start {
        Start::Fresh(_) => test_lines(alloc, setup, bytes, 2),
        Start::Resumed(_) => {
            let (text, rest) = split_line(bytes);
            let _saved = read_saved(alloc, text)?;
            test_lines(alloc, setup, rest, 3)
        }
    }
}

/// Tests the lines of these bytes. The first line has this number.
fn test_lines(alloc: Global, setup: &Setup, bytes: &[u8], first: usize) -> Result<(), ScriptError>
    requires bounded { length bytes.now ≤ MAX_INPUT_BYTES }
    requires first { first ≤ 3 }
    ensures { IsExpectedResult (λ u. u) result (requests_in first setup.now bytes.now) }
{
    let _requests = read_commands::<Request>(alloc, setup, bytes, first)?;
    Ok(())
}

/// The bytes of the line that is refused. Of a refused setup or saved state, and of an input that is too
/// long, there are none.
pub(crate) fn refused_bytes(input: &[u8], refusal: InputRefusal) -> &[u8]
    ensures { result.now ≡ refused_bytes input.now refusal }
{
    match refusal {
        InputRefusal::Line { line, .. } => line_at(input, line),
        _ => &[],
    }
}

/// The line with this number, counted from 1, or no byte if there is none.
fn line_at(input: &[u8], number: usize) -> &[u8]
    ensures { result.now ≡ line_at number (lines_of input.now) }
{
    let mut left = number;
    for line in Lines::new(input) {
        if left <= 1 {
            return if left == 1 { line } else { &[] };
        }
        left -= 1;
    }
    &[]
}
