//! Finds the first argument that is wrong.

ghost use Rattle.std.specs.Prelude.{◌≡◌, option_map};
ghost use Rattle.std.specs.List.{list_any};
ghost use Rattle.std.specs.Str.{bytes_eq};
ghost use Rattle.clap.specs.Walk.{texts};
ghost use Rattle.nagsched_cli.specs.ArgumentFaults.{argument_fault, arguments_of, clashes, fault_at, help_fault, is_given, name_part, option_fault};
ghost use Rattle.nagsched_cli.specs.ArgumentFaults.{shape_fault};
ghost use Rattle.nagsched_cli.specs.ArgumentFaults.{switch_fault, topic_of, value_fault, valued_switch, waits_for_value, word_fault, IsFirstFault};

use crate::argument_names::{
    Switch, Topic, has_switch, limits_of, named_switch, named_topic, switch_name,
};
use crate::argument_words::{
    attached_value, is_dashes, is_option, name_part, next_word, previous_word, word_at, words_from,
    words_until,
};
use crate::job::parse_number;

/// The fault of an argument.
#[derive(Clone, Copy, Debug, PartialEq, Eq)]
pub enum ArgumentFault {
    /// No command has this name.
    UnknownCommand,
    /// No option has this name.
    UnknownOption(Topic),
    /// The option belongs to other commands.
    OtherCommands(Topic, Switch),
    /// The option needs a value.
    MissingValue(Switch),
    /// The value isn't a number within the option's limits.
    BadValue(Switch),
    /// The option takes no value.
    NeedlessValue(Switch),
    /// The option was given before.
    Repeated(Switch),
    /// The options `--line` and `--resume` were both given.
    LineWithResume,
    /// An argument that isn't an option or its value, where none can be.
    Needless(Topic),
}

/// An argument that is wrong.
#[derive(Clone, Copy, Debug, PartialEq, Eq)]
pub struct RefusedArgument {
    /// Its place among the arguments after the command, from 0.
    pub place: usize,
    /// Its fault.
    pub fault: ArgumentFault,
}

/// The command that the program's arguments name, which is the first after the program's name. Without a command it
/// is the program itself.
pub(crate) fn topic_of(words: &[&str]) -> Topic
    ensures { result ≡ topic_of (texts words.now) }
{
    match word_at(words, 1) {
        Some(word) => named_topic(word).unwrap_or(Topic::Program),
        None => Topic::Program,
    }
}

/// The arguments after the command, or after the program's name if there is no command.
pub(crate) fn arguments_of<'w, 'a>(topic: Topic, words: &'w [&'a str]) -> &'w [&'a str]
    ensures { texts result.now ≡ arguments_of topic (texts words.now) }
{
    match topic {
        Topic::Program => words_from(words, 1),
        _ => words_from(words, 2),
    }
}

/// The first argument after the command that is wrong. Each option can be given only once, so only a few arguments can
/// come before it.
pub(crate) fn first_fault(topic: Topic, arguments: &[&str]) -> Option<RefusedArgument>
    ensures { IsFirstFault topic (texts arguments.now) result }
{
    for place in 0..arguments.len() {
        if let Some(fault) = fault_at(topic, arguments, place) {
            return Some(RefusedArgument { place, fault });
        }
    }
    None
}

/// The fault of the argument at a place.
fn fault_at(topic: Topic, arguments: &[&str], place: usize) -> Option<ArgumentFault>
    ensures { result ≡ fault_at topic (texts arguments.now) place }
{
    let word = word_at(arguments, place)?;
    match topic {
        Topic::Help => help_fault(word, place),
        _ => argument_fault(topic, arguments, word, place),
    }
}

/// The fault of the argument of `help` at a place. The first names a command, and no other can follow.
fn help_fault(word: &str, place: usize) -> Option<ArgumentFault>
    ensures { result ≡ help_fault word.now place }
{
    if place > 0 {
        return Some(ArgumentFault::Needless(Topic::Help));
    }
    match named_topic(word) {
        Some(_) => None,
        None => Some(ArgumentFault::UnknownCommand),
    }
}

/// The fault of the argument at a place, of another command or of the program.
fn argument_fault(
    topic: Topic,
    arguments: &[&str],
    word: &str,
    place: usize,
) -> Option<ArgumentFault>
    ensures { result ≡ argument_fault topic (texts arguments.now) word.now place }
{
    let previous = previous_word(arguments, place);
    if is_dashes(previous) {
        return Some(ArgumentFault::Needless(topic));
    }
    if is_option(word) {
        return option_fault(topic, arguments, word, place);
    }
    match valued_switch(topic, previous) {
        Some(switch) => value_fault(switch, word),
        None => Some(word_fault(topic)),
    }
}

/// The fault of an argument that isn't an option or its value.
fn word_fault(topic: Topic) -> ArgumentFault
    ensures { result ≡ word_fault topic }
{
    match topic {
        Topic::Program => ArgumentFault::UnknownCommand,
        _ => ArgumentFault::Needless(topic),
    }
}

/// The option in the argument before a value.
fn valued_switch(topic: Topic, previous: Option<&str>) -> Option<Switch>
    ensures { result ≡ valued_switch topic (option_map (λ w. w.now) previous.entry) }
{
    let switch = named_switch(previous?)?;
    if has_switch(topic, switch) && limits_of(switch).is_some() {
        Some(switch)
    } else {
        None
    }
}

/// The fault of the value of an option.
fn value_fault(switch: Switch, value: &str) -> Option<ArgumentFault>
    ensures { result ≡ value_fault switch value.now }
{
    let limits = limits_of(switch)?;
    match parse_number(value, limits.least, limits.most) {
        Some(_) => None,
        None => Some(ArgumentFault::BadValue(switch)),
    }
}

/// The fault of an option at a place.
fn option_fault(topic: Topic, arguments: &[&str], word: &str, place: usize) -> Option<ArgumentFault>
    ensures { result ≡ option_fault topic (texts arguments.now) word.now place }
{
    if word == "--" {
        return None;
    }
    match named_switch(name_part(word)) {
        None => Some(ArgumentFault::UnknownOption(topic)),
        Some(switch) if has_switch(topic, switch) => switch_fault(switch, arguments, word, place),
        Some(switch) => Some(ArgumentFault::OtherCommands(topic, switch)),
    }
}

/// The fault of an option of the command, at a place.
fn switch_fault(
    switch: Switch,
    arguments: &[&str],
    word: &str,
    place: usize,
) -> Option<ArgumentFault>
    ensures { result ≡ switch_fault switch (texts arguments.now) word.now place }
{
    let before = words_until(arguments, place);
    if is_given(switch, before) {
        Some(ArgumentFault::Repeated(switch))
    } else if clashes(switch, before) {
        Some(ArgumentFault::LineWithResume)
    } else {
        shape_fault(switch, attached_value(word), next_word(arguments, place))
    }
}

/// Whether an option is among these arguments.
fn is_given(switch: Switch, words: &[&str]) -> bool
    ensures { result ≡ is_given switch (texts words.now) }
{
    is_named(switch_name(switch), words)
}

/// Whether one of these arguments has this name.
fn is_named(name: &str, words: &[&str]) -> bool
    ensures { result ≡ list_any (λ w. bytes_eq (name_part w.now) name.now) words.now }
{
    words.iter().any(|word| name_part(word) == name)
}

/// Whether these arguments have the option that can't be combined with this one.
fn clashes(switch: Switch, words: &[&str]) -> bool
    ensures { result ≡ clashes switch (texts words.now) }
{
    match switch {
        Switch::Line => is_given(Switch::Resume, words),
        Switch::Resume => is_given(Switch::Line, words),
        _ => false,
    }
}

/// The fault of an option that has this value attached, or this argument after it.
fn shape_fault(switch: Switch, value: Option<&str>, next: Option<&str>) -> Option<ArgumentFault>
    ensures { result ≡ shape_fault switch (option_map (λ v. v.now) value.entry) (option_map (λ w. w.now) next.entry) }
{
    match (limits_of(switch), value) {
        (Some(_), Some(value)) => value_fault(switch, value),
        (Some(_), None) if waits_for_value(next) => Some(ArgumentFault::MissingValue(switch)),
        (Some(_), None) => None,
        (None, Some(_)) => Some(ArgumentFault::NeedlessValue(switch)),
        (None, None) => None,
    }
}

/// Whether the argument after an option can't be its value.
fn waits_for_value(next: Option<&str>) -> bool
    ensures { result ≡ waits_for_value (option_map (λ w. w.now) next.entry) }
{
    match next {
        Some(word) => is_option(word),
        None => true,
    }
}
