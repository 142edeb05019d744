//! Laws of the definitions. Each is the contract of a function without parameters and code.

ghost use Rattle.std.specs.Prelude.{◌≡◌};
ghost use Rattle.nagsched_cli.specs.ArgumentNames.{command_names, option_names, read_commands, read_options};
ghost use Rattle.nagsched_cli.specs.Arguments.{program, run_subcommand, live_subcommand, check_subcommand, drill_subcommand, schema_subcommand};

use crate::argument_names::Topic;

/// The commands and options that explanations of refused arguments know are those that `clap` reads.
pub fn explanations_know_all_names()
    ensures commands { command_names ≡ read_commands program }
    ensures program { option_names Topic.Program ≡ read_options program.top }
    ensures run { option_names Topic.Run ≡ read_options run_subcommand.top }
    ensures live { option_names Topic.Live ≡ read_options live_subcommand.top }
    ensures check { option_names Topic.Check ≡ read_options check_subcommand.top }
    ensures drill { option_names Topic.Drill ≡ read_options drill_subcommand.top }
    ensures schema { option_names Topic.Schema ≡ read_options schema_subcommand.top }
{}
