//! The explanation of arguments that are refused.

ghost use Rattle.std.specs.Prelude.{◌≡◌, IfOk, [], option_map, slice_get, string_bytes, unwrap_or};
ghost use Rattle.clap.specs.Walk.{texts};
ghost use Rattle.json.specs.Print.{quoted};
ghost use Rattle.nagsched_cli.specs.ArgumentExplanation.{bad_value_text, limits_text, missing_value_text, near_text, needless_text, needless_value_text};
ghost use Rattle.nagsched_cli.specs.ArgumentExplanation.{other_commands_text, repeated_text, unknown_command_text, unknown_option_text};
ghost use Rattle.nagsched_cli.specs.ArgumentExplanation.{IsArgumentText, IsExplanation, IsUnknownCommandText, IsUnknownOptionText};
ghost use Rattle.nagsched_cli.specs.ArgumentFaults.{value_part};

use crate::argument_faults::{ArgumentFault, RefusedArgument, arguments_of, first_fault, topic_of};
use crate::argument_names::{
    Switch, Topic, command_names, limits_of, option_names, owners_text, switch_name, taken_text,
    topic_name,
};
use crate::argument_words::{name_part, value_part, word_at};
use crate::nearest::nearest;
use json::Writer;
use std::alloc::{AllocError, Global};

/// A text, unless memory ran out.
type Text = Result<String, AllocError>;

/// Explains in one sentence why the program's arguments are refused: the first that is wrong, what is wrong with it,
/// and what was expected. A mistyped command or option is shown with the nearest one. Arguments are shown as JSON
/// strings.
pub fn explain_arguments(alloc: Global, words: &[&str]) -> Text
    ensures { IfOk result (λ text. IsExplanation (texts words.now) (string_bytes text)) }
{
    let topic = topic_of(words);
    let arguments = arguments_of(topic, words);
    match first_fault(topic, arguments) {
        Some(refused) => argument_text(alloc, arguments, refused),
        None => String::from_str(
            alloc,
            "the arguments can't be read as a command and its options",
        ),
    }
}

/// The fault of one of these arguments.
fn argument_text(alloc: Global, arguments: &[&str], refused: RefusedArgument) -> Text
    ensures { IfOk result (λ text. IsArgumentText
        (unwrap_or (slice_get (texts arguments.now) refused.place) []) refused.fault (string_bytes text)) }
{
    let word = word_at(arguments, refused.place).unwrap_or("");
    fault_text(alloc, word, refused.fault)
}

/// The fault of this argument.
fn fault_text(alloc: Global, word: &str, fault: ArgumentFault) -> Text
    ensures { IfOk result (λ text. IsArgumentText word.now fault (string_bytes text)) }
{
    match fault {
        ArgumentFault::UnknownCommand => command_text(alloc, word),
        ArgumentFault::UnknownOption(topic) => option_text(alloc, word, topic),
        ArgumentFault::OtherCommands(topic, switch) => {
            other_commands_text(alloc, word, topic, switch)
        }
        ArgumentFault::MissingValue(switch) => missing_value_text(alloc, switch),
        ArgumentFault::BadValue(switch) => bad_value_text(alloc, word, switch),
        ArgumentFault::NeedlessValue(switch) => needless_value_text(alloc, word, switch),
        ArgumentFault::Repeated(switch) => repeated_text(alloc, switch),
        ArgumentFault::LineWithResume => {
            String::from_str(alloc, "--line and --resume can't be combined")
        }
        ArgumentFault::Needless(topic) => needless_text(alloc, word, topic),
    }
}

fn command_text(alloc: Global, word: &str) -> Text
    ensures { IfOk result (λ text. IsUnknownCommandText word.now (string_bytes text)) }
{
    let near = nearest(alloc, word, command_names())?;
    unknown_command_text(alloc, word, near)
}

fn unknown_command_text(alloc: Global, word: &str, near: Option<&str>) -> Text
    ensures { IfOk result (λ text. string_bytes text ≡ unknown_command_text word.now (option_map (λ n. n.now) near.entry)) }
{
    let word = quoted(alloc, word)?;
    let near = near_text(alloc, near)?;
    format!(in alloc;
        "the command must be run, live, check, drill, schema or help, not {word}{near}"
    )
}

fn option_text(alloc: Global, word: &str, topic: Topic) -> Text
    ensures { IfOk result (λ text. IsUnknownOptionText word.now topic (string_bytes text)) }
{
    let near = nearest(alloc, name_part(word), option_names(topic))?;
    unknown_option_text(alloc, word, topic, near)
}

fn unknown_option_text(alloc: Global, word: &str, topic: Topic, near: Option<&str>) -> Text
    ensures { IfOk result (λ text. string_bytes text ≡ unknown_option_text word.now topic (option_map (λ n. n.now) near.entry)) }
{
    let word = quoted(alloc, word)?;
    let name = topic_name(topic);
    let taken = taken_text(topic);
    let near = near_text(alloc, near)?;
    format!(in alloc; "{word} isn't an option of {name}, which takes {taken}{near}")
}

/// The name that is near, if there is one.
fn near_text(alloc: Global, near: Option<&str>) -> Text
    ensures { IfOk result (λ text. string_bytes text ≡ near_text (option_map (λ n. n.now) near.entry)) }
{
    match near {
        Some(name) => format!(in alloc; " (did you mean {name}?)"),
        None => Ok(String::new(alloc)),
    }
}

fn other_commands_text(alloc: Global, word: &str, topic: Topic, switch: Switch) -> Text
    ensures { IfOk result (λ text. string_bytes text ≡ other_commands_text word.now topic switch) }
{
    let word = quoted(alloc, word)?;
    let owners = owners_text(switch);
    let name = topic_name(topic);
    format!(in alloc; "{word} is an option of {owners}, not of {name}")
}

fn missing_value_text(alloc: Global, switch: Switch) -> Text
    ensures { IfOk result (λ text. string_bytes text ≡ missing_value_text switch) }
{
    let option = switch_name(switch);
    let limits = limits_text(alloc, switch)?;
    format!(in alloc; "{option} needs a value, {limits}")
}

fn bad_value_text(alloc: Global, word: &str, switch: Switch) -> Text
    ensures { IfOk result (λ text. string_bytes text ≡ bad_value_text word.now switch) }
{
    let option = switch_name(switch);
    let limits = limits_text(alloc, switch)?;
    let value = quoted(alloc, value_part(word))?;
    format!(in alloc; "the value of {option} must be {limits}, not {value}")
}

/// The numbers that an option takes.
fn limits_text(alloc: Global, switch: Switch) -> Text
    ensures { IfOk result (λ text. string_bytes text ≡ limits_text switch) }
{
    match limits_of(switch) {
        Some(limits) => {
            let least = limits.least;
            let most = limits.most;
            format!(in alloc; "a whole number from {least} to {most}")
        }
        None => Ok(String::new(alloc)),
    }
}

fn needless_value_text(alloc: Global, word: &str, switch: Switch) -> Text
    ensures { IfOk result (λ text. string_bytes text ≡ needless_value_text word.now switch) }
{
    let option = switch_name(switch);
    let word = quoted(alloc, word)?;
    format!(in alloc; "{option} takes no value, so it can't be given as {word}")
}

fn repeated_text(alloc: Global, switch: Switch) -> Text
    ensures { IfOk result (λ text. string_bytes text ≡ repeated_text switch) }
{
    let option = switch_name(switch);
    format!(in alloc; "{option} must be given only once")
}

fn needless_text(alloc: Global, word: &str, topic: Topic) -> Text
    ensures { IfOk result (λ text. string_bytes text ≡ needless_text word.now topic) }
{
    let word = quoted(alloc, word)?;
    let name = topic_name(topic);
    let taken = taken_text(topic);
    format!(in alloc; "{word} is one argument too many: {name} takes only {taken}")
}

/// A text as a JSON string.
fn quoted(alloc: Global, text: &str) -> Text
    ensures { IfOk result (λ string. string_bytes string ≡ quoted text.now) }
{
    let mut writer = Writer::new(Vec::new(alloc));
    writer.string(text)?;
    Ok(String::from_utf8(writer.into_inner()).unwrap())
}
