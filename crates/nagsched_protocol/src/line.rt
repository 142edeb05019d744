//! One line of a script: it is blank, or a JSON array that is a command. The array's first member is
//! its word. Each subcommand has a vocabulary of its own, a type that is a [`Command`].

ghost use Rattle.std.specs.Prelude.{◌≡◌, List, ℕ, Result, Ok, Some, IfSome, ok_or, option_map};
ghost use Rattle.serde_json.specs.Data.{Items};
ghost use Rattle.serde_json.specs.View.{view, items_view};
ghost use Rattle.check_objects.specs.Configuration.{Configuration};
ghost use Rattle.check_objects.specs.JsonTree.{tree_of};
ghost use Rattle.nagsched_protocol.specs.declared.refusal.LineFault.{LineFault};
ghost use Rattle.nagsched_protocol.specs.Line.{is_blank, command_in, command_in_items, command_of};
ghost use Rattle.nagsched_protocol.specs.Agreement.{IsExpectedCommand, IsExpectedResult};

use crate::refusal::{CommandError, InputRefusal, LineFault, LineShape, ScriptError};
use check_objects::Setup;
use json::Scratch;
use serde_json::Value;
use std::alloc::Global;

/// The most bytes that a line may have without its line feed.
pub(crate) const MAX_LINE_BYTES: usize = 4096;

/// A command of a vocabulary. An implementation names a command as the definitions see it (`Seen`,
/// `seen`). It also names the meaning of a word with the members after it over a setup (`meaning`).
pub trait Command: Drop {
    ghost Seen: { Type 0 };

    ghost seen: { Self → Seen };

    ghost meaning: { Configuration → List ℕ → Items → Result Seen LineFault };

    /// The command of a line that is read without its tree. None says nothing about the line.
    fn read_flat(setup: &Setup, line: &[u8], scratch: &mut Scratch) -> Option<Self>
        ensures { IfSome result (λ command.
            option_map (command_in (meaning setup.now)) (tree_of line.now) ≡ Some (Ok (seen command))) };

    /// The command of a word with these members after it, or the first fault. The faults are, in order:
    /// another shape, a return code above 3, a name that the setup doesn't have. Out of memory is an error
    /// of its own.
    fn read(
        alloc: Global,
        setup: &Setup,
        word: &str,
        members: &[Value],
    ) -> Result<Self, CommandError>
        ensures { IsExpectedCommand seen result
            (meaning setup.now word.now (items_view members.now)) };
}

/// Whether a line has only spaces, tabs and carriage returns, or nothing. Such a line is skipped.
pub fn is_blank(line: &[u8]) -> bool
    ensures { result ≡ is_blank line.now }
{
    line.iter()
        .all(|byte| *byte == b' ' || *byte == b'\t' || *byte == b'\r')
}

/// The command of the line with this number, or its first fault: too long, then not JSON, then those of
/// the command.
#[tactic(auto, unfolding(crate::specs::Line::command_of))]
pub fn read_command<C: Command>(
    alloc: Global,
    setup: &Setup,
    line: &[u8],
    number: usize,
    scratch: &mut Scratch,
) -> Result<C, ScriptError>
    ensures { IsExpectedResult C.seen result (command_of (C.meaning setup.now) number line.now) }
{
    if line.len() > MAX_LINE_BYTES {
        return Err(line_refusal(LineFault::TooLong, number));
    }
    if let Some(command) = C::read_flat(setup, line, scratch) {
        return Ok(command);
    }
    let tree = read_tree(alloc, line, number)?;
    match command_in(alloc, setup, &tree) {
        Ok(command) => Ok(command),
        Err(CommandError::Refused(fault)) => Err(line_refusal(fault, number)),
        Err(CommandError::Memory) => Err(ScriptError::Memory),
    }
}

/// The tree that `serde_json` reads from a line.
fn read_tree(alloc: Global, line: &[u8], number: usize) -> Result<Value, ScriptError>
    ensures { IsExpectedResult view result
        (ok_or (tree_of line.now) (InputRefusal.Line LineFault.NotJson number)) }
{
    match Value::from_slice(alloc, line) {
        Ok(tree) => Ok(tree),
        Err(e) => {
            if e.is_memory() {
                return Err(ScriptError::Memory);
            }
            Err(line_refusal(LineFault::NotJson, number))
        }
    }
}

/// The command that a tree is, or its first fault.
fn command_in<C: Command>(alloc: Global, setup: &Setup, tree: &Value) -> Result<C, CommandError>
    ensures { IsExpectedCommand C.seen result (command_in (C.meaning setup.now) (view tree.now)) }
{
    match tree.as_array() {
        Some(items) => command_in_items(alloc, setup, items),
        None => Err(CommandError::Refused(LineFault::Shape(LineShape::NotAnArray))),
    }
}

/// The command that the items of an array are, or its first fault.
fn command_in_items<C: Command>(
    alloc: Global,
    setup: &Setup,
    items: &[Value],
) -> Result<C, CommandError>
    ensures { IsExpectedCommand C.seen result
        (command_in_items (C.meaning setup.now) (items_view items.now)) }
{
    match items {
        [word, members @ ..] => match word.as_str() {
            Some(word) => C::read(alloc, setup, word, members),
            None => Err(CommandError::Refused(LineFault::Shape(LineShape::NoWord))),
        },
        [] => Err(CommandError::Refused(LineFault::Shape(LineShape::Empty))),
    }
}

/// The refusal of a line for a fault.
pub fn line_refusal(fault: LineFault, line: usize) -> ScriptError
    ensures { result ≡ ScriptError.Refused (InputRefusal.Line fault line) }
{
    ScriptError::Refused(InputRefusal::Line { fault, line })
}
