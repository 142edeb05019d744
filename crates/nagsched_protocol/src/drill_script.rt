//! The script of a drill: the meaning of all commands of an input together.

ghost use Rattle.std.specs.Prelude.{◌≡◌, [], IfOk, filter_map, map, replicate};
ghost use Rattle.nagsched_protocol.specs.DrillCommanded.{drill_command};
ghost use Rattle.nagsched_protocol.specs.DrillScript.{drill_script_of, drill_over};
ghost use Rattle.nagsched_protocol.specs.DrillScript.{moment_of, returns_below, returns_after};
ghost use Rattle.nagsched_protocol.specs.Agreement.{IsExpectedResult};

use crate::drill_command::DrillCommand;
use crate::input::split_line;
use crate::line::line_refusal;
use crate::refusal::{LineFault, ScriptError};
use crate::script::{MAX_INPUT_BYTES, read_commands, read_setup};
use check_objects::Setup;
use check_states::Code;
use std::alloc::{AllocError, Global};

/// A setup, the return codes of its objects' plugins, and the moments at which each worker asks for a
/// check.
#[derive(Drop)]
pub struct DrillScript {
    pub setup: Setup,
    /// The return codes of each object's plugin, by the object's number. No codes if no command gives
    /// the object any.
    pub codes: Vec<Vec<Code>>,
    /// The moments, in milliseconds, in the order of their commands.
    pub moments: Vec<u64>,
}

impl DrillScript {
    ghost use Rattle.nagsched_protocol.specs.DrillScripted.{drill_script};

    /// Reads every line of an input, or returns its first refusal, in the order in which a script is
    /// tested. If several commands name the plugin of one object, the last one counts. Out of memory is
    /// an error of its own.
    #[tactic(auto, unfolding(crate::specs::DrillScript::drill_script_of))]
    pub fn read(alloc: Global, input: &[u8]) -> Result<DrillScript, ScriptError>
        ensures { IsExpectedResult drill_script result (drill_script_of input.now) }
    {
        if input.len() > MAX_INPUT_BYTES {
            return Err(line_refusal(LineFault::TooLong, 0));
        }
        let (document, rest) = split_line(input);
        let setup = read_setup(alloc, document)?;
        let commands = read_commands(alloc, &setup, rest, 2)?;
        Ok(DrillScript::over(alloc, setup, commands)?)
    }

    /// The script that commands make together over a setup.
    fn over(
        alloc: Global,
        setup: Setup,
        commands: Vec<DrillCommand>,
    ) -> Result<DrillScript, AllocError>
        ensures { IfOk result (λ drill.
            drill_script drill ≡ drill_over setup (map drill_command commands.items)) }
    {
        let moments = moments_in(alloc, &commands)?;
        let codes = codes_below(alloc, setup.len(), commands)?;
        Ok(DrillScript {
            setup,
            codes,
            moments,
        })
    }
}

/// The moments that commands add, in their order.
fn moments_in(alloc: Global, commands: &[DrillCommand]) -> Result<Vec<u64>, AllocError>
    ensures { IfOk result (λ moments.
        moments.items ≡ filter_map (λ command. moment_of (drill_command command)) commands.now) }
{
    commands
        .iter()
        .filter_map(|command| command.moment())
        .collect(alloc)
}

/// The return codes of each object below the number `count`: those of the last command that gives it
/// any.
fn codes_below(
    alloc: Global,
    count: usize,
    commands: Vec<DrillCommand>,
) -> Result<Vec<Vec<Code>>, AllocError>
    ensures { IfOk result (λ lists. map (λ list. list.items) lists.items
        ≡ returns_below count (map drill_command commands.items)) }
{
    let mut lists = no_codes(alloc, count)?;
    for command in commands {
        set_codes(&mut lists, command);
    }
    Ok(lists)
}

/// This many lists without a code.
fn no_codes(alloc: Global, count: usize) -> Result<Vec<Vec<Code>>, AllocError>
    ensures { IfOk result (λ lists. map (λ list. list.items) lists.items ≡ replicate count []) }
{
    let mut lists = Vec::with_capacity(alloc, count)?;
    for _made in 0..count {
        lists.push(Vec::new(alloc))?;
    }
    Ok(lists)
}

/// Replaces the codes of the command's object by those of the command.
fn set_codes(lists: &mut Vec<Vec<Code>>, command: DrillCommand)
    ensures { map (λ list. list.items) lists.new.items
        ≡ returns_after (drill_command command) (map (λ list. list.items) lists.old.items) }
{
    if let DrillCommand::Plugin { object, codes } = command {
        if (object as usize) < lists.len() {
            lists[object as usize] = codes;
        }
    }
}
