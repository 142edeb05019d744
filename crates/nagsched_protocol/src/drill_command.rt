//! The words of `drill`: the return codes of plugins, and moments. Each word has one function here
//! and one definition in `specs/DrillCommand.antt`.

ghost use Rattle.std.specs.Prelude.{◌≡◌};
ghost use Rattle.serde_json.specs.View.{view, items_view};
ghost use Rattle.nagsched_protocol.specs.DrillCommand.{plugin_command, plugin_of, moment_command};
ghost use Rattle.nagsched_protocol.specs.DrillCommand.{codes_from, first_other};
ghost use Rattle.nagsched_protocol.specs.Command.{value_count};
ghost use Rattle.nagsched_protocol.specs.DrillScript.{moment_of};
ghost use Rattle.nagsched_protocol.specs.Agreement.{IsExpectedCommand};

use crate::command::{code_in, number_in, object_named, one_of, wrong_count, wrong_kind};
use crate::line::Command;
use crate::refusal::{CommandError, LineFault, LineShape, ValueKind, Vocabulary};
use check_objects::Setup;
use check_states::Code;
use json::Scratch;
use serde_json::Value;
use std::alloc::Global;

/// A command of a drill.
#[derive(Drop)]
pub enum DrillCommand {
    /// The return codes of the plugin of the object with this number, at least one. The runs get them
    /// one by one, over and over.
    Plugin { object: u32, codes: Vec<Code> },
    /// One more moment, in milliseconds, at which each worker asks for a check.
    Moment { now: u64 },
}

impl Command for DrillCommand {
    ghost use Rattle.nagsched_protocol.specs.DrillCommand as spec;
    ghost use Rattle.nagsched_protocol.specs.DrillCommanded.{drill_command};

    ghost Seen = { spec.Command };

    ghost seen = { drill_command };

    ghost meaning = { spec.drill_command_by };

    fn read_flat(_setup: &Setup, _line: &[u8], _scratch: &mut Scratch) -> Option<DrillCommand> {
        None
    }

    fn read(
        alloc: Global,
        setup: &Setup,
        word: &str,
        members: &[Value],
    ) -> Result<DrillCommand, CommandError> {
        match word {
            "plugin" => DrillCommand::of_plugin(alloc, setup, members),
            "moment" => DrillCommand::of_moment(members),
            _ => Err(CommandError::Refused(LineFault::Shape(LineShape::UnknownWord(
                Vocabulary::Drill,
            )))),
        }
    }
}

impl DrillCommand {
    ghost use Rattle.nagsched_protocol.specs.DrillCommanded.{drill_command};

    /// `["plugin",name,code,..]`: the plugin of the object `name` returns these codes.
    #[tactic(auto, using(crate::proofs::DrillLemmas::few_values, crate::proofs::DrillLemmas::plugin_values))]
    fn of_plugin(
        alloc: Global,
        setup: &Setup,
        members: &[Value],
    ) -> Result<DrillCommand, CommandError>
        ensures { IsExpectedCommand drill_command result
            (plugin_command setup.now (items_view members.now)) }
    {
        let Some((name, returned)) = members.split_first() else {
            return Err(too_few(members, 2));
        };
        if returned.is_empty() {
            return Err(too_few(members, 2));
        }
        DrillCommand::plugin_of(alloc, setup, name, returned)
    }

    /// The plugin with these values.
    fn plugin_of(
        alloc: Global,
        setup: &Setup,
        name: &Value,
        returned: &[Value],
    ) -> Result<DrillCommand, CommandError>
        ensures { IsExpectedCommand drill_command result
            (plugin_of setup.now (view name.now) (items_view returned.now)) }
    {
        let Some(name) = name.as_str() else {
            return Err(CommandError::Refused(wrong_kind(1, ValueKind::Name)));
        };
        if let Some(number) = first_other(returned) {
            return Err(CommandError::Refused(wrong_kind(number, ValueKind::Code)));
        }
        let codes = codes_from(alloc, returned)?;
        match object_named(setup, name) {
            Ok(object) => Ok(DrillCommand::Plugin { object, codes }),
            Err(fault) => Err(CommandError::Refused(fault)),
        }
    }

    /// `["moment",now]`: one more moment, `now`, in milliseconds.
    fn of_moment(members: &[Value]) -> Result<DrillCommand, CommandError>
        ensures { IsExpectedCommand drill_command result (moment_command (items_view members.now)) }
    {
        let Some(now) = one_of(members) else {
            return Err(CommandError::Refused(wrong_count(members, 1)));
        };
        match number_in(now, 1, ValueKind::Time) {
            Ok(now) => Ok(DrillCommand::Moment { now }),
            Err(fault) => Err(CommandError::Refused(fault)),
        }
    }

    /// The moment that the command adds, in milliseconds.
    pub fn moment(&self) -> Option<u64>
        ensures { result ≡ moment_of (drill_command self.now) }
    {
        match self {
            DrillCommand::Moment { now } => Some(*now),
            DrillCommand::Plugin { .. } => None,
        }
    }
}

/// The fault that there are fewer values than there have to be.
#[tactic(auto, using(crate::proofs::CommandLemmas::values_counted))]
fn too_few(members: &[Value], least: usize) -> CommandError
    ensures { result ≡ CommandError.Refused (LineFault.Shape
        (LineShape.TooFew (value_count (items_view members.now)) least)) }
{
    CommandError::Refused(LineFault::Shape(LineShape::TooFew(members.len(), least)))
}

/// The number of the first value that isn't a whole number. The first of these values has the number 2.
fn first_other(values: &[Value]) -> Option<usize>
    ensures { result ≡ first_other 2 (items_view values.now) }
{
    for (index, value) in values.iter().enumerate() {
        if value.as_u64().is_none() {
            return Some(index + 2);
        }
    }
    None
}

/// The return codes that values are. The first of these values has the number 2.
fn codes_from(alloc: Global, values: &[Value]) -> Result<Vec<Code>, CommandError>
    ensures { IsExpectedCommand (λ list. list.items) result (codes_from 2 (items_view values.now)) }
{
    let mut codes = Vec::new(alloc);
    for (index, value) in values.iter().enumerate() {
        let code = code_in(value, index + 2)?;
        codes.push(code)?;
    }
    Ok(codes)
}
