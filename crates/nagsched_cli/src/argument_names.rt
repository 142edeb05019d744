//! The names of the program's commands and of their options.

ghost use Rattle.std.specs.Prelude.{◌≡◌};
ghost use Rattle.std.specs.List.{list_any};
ghost use Rattle.std.specs.Str.{bytes_eq};
ghost use Rattle.clap.specs.Walk.{texts};
ghost use Rattle.nagsched_cli.specs.ArgumentNames.{command_names, has_switch, limits_of, named_switch, named_topic, option_names};
ghost use Rattle.nagsched_cli.specs.ArgumentNames.{owners_text, switch_name, taken_text, topic_name};

use check_sched::LAST_MOMENT;

/// What the arguments are about: one of the program's commands, or the program itself if no command is named.
#[derive(Clone, Copy, Debug, PartialEq, Eq)]
pub enum Topic {
    Program,
    Run,
    Live,
    Check,
    Drill,
    Schema,
    Help,
}

/// An option of the program or of a command, with or without a value.
#[derive(Clone, Copy, Debug, PartialEq, Eq)]
pub enum Switch {
    Help,
    Version,
    Start,
    Resume,
    Json,
    Explain,
    Line,
    Workers,
    Room,
}

/// The least and the most number that an option takes.
#[derive(Clone, Copy, Debug, PartialEq, Eq)]
pub struct Limits {
    pub least: u64,
    pub most: u64,
}

/// The command of this name.
pub(crate) fn named_topic(name: &str) -> Option<Topic>
    ensures { result ≡ named_topic name.now }
{
    match name {
        "run" => Some(Topic::Run),
        "live" => Some(Topic::Live),
        "check" => Some(Topic::Check),
        "drill" => Some(Topic::Drill),
        "schema" => Some(Topic::Schema),
        "help" => Some(Topic::Help),
        _ => None,
    }
}

/// The names of the commands.
pub(crate) fn command_names() -> &'static [&'static str]
    ensures { texts result.now ≡ command_names }
{
    &["run", "live", "check", "drill", "schema", "help"]
}

/// The name of a command, or of the program.
pub(crate) fn topic_name(topic: Topic) -> &'static str
    ensures { result.now ≡ topic_name topic }
{
    match topic {
        Topic::Program => "nagsched",
        Topic::Run => "run",
        Topic::Live => "live",
        Topic::Check => "check",
        Topic::Drill => "drill",
        Topic::Schema => "schema",
        Topic::Help => "help",
    }
}

/// The option of this name, whatever it belongs to.
pub(crate) fn named_switch(name: &str) -> Option<Switch>
    ensures { result ≡ named_switch name.now }
{
    match name {
        "--help" | "-h" => Some(Switch::Help),
        "--version" | "-V" => Some(Switch::Version),
        "--start" => Some(Switch::Start),
        "--resume" => Some(Switch::Resume),
        "--json" => Some(Switch::Json),
        "--explain" => Some(Switch::Explain),
        "--line" => Some(Switch::Line),
        "--workers" => Some(Switch::Workers),
        "--room" => Some(Switch::Room),
        _ => None,
    }
}

/// The long name of an option.
pub(crate) fn switch_name(switch: Switch) -> &'static str
    ensures { result.now ≡ switch_name switch }
{
    match switch {
        Switch::Help => "--help",
        Switch::Version => "--version",
        Switch::Start => "--start",
        Switch::Resume => "--resume",
        Switch::Json => "--json",
        Switch::Explain => "--explain",
        Switch::Line => "--line",
        Switch::Workers => "--workers",
        Switch::Room => "--room",
    }
}

/// Whether an option belongs to a command, or to the program.
pub(crate) fn has_switch(topic: Topic, switch: Switch) -> bool
    ensures { result ≡ has_switch topic switch }
{
    is_among(switch_name(switch), option_names(topic))
}

/// Whether a name is one of these.
fn is_among(name: &str, names: &[&str]) -> bool
    ensures { result ≡ list_any (λ n. bytes_eq n.now name.now) names.now }
{
    names.iter().any(|other| *other == name)
}

/// The names of the options of a command, or of the program.
pub(crate) fn option_names(topic: Topic) -> &'static [&'static str]
    ensures { texts result.now ≡ option_names topic }
{
    match topic {
        Topic::Program => &["--help", "--version"],
        Topic::Run => &["--start", "--resume", "--json", "--help"],
        Topic::Live => &["--start", "--resume", "--json", "--explain", "--help"],
        Topic::Check => &["--start", "--resume", "--line", "--help"],
        Topic::Drill => &["--start", "--workers", "--room", "--help"],
        Topic::Schema => &["--help"],
        Topic::Help => &[],
    }
}

/// What a command takes, or the program, in words.
pub(crate) fn taken_text(topic: Topic) -> &'static str
    ensures { result.now ≡ taken_text topic }
{
    match topic {
        Topic::Program => "a command or the options --help and --version",
        Topic::Run => "the options --start N, --resume, --json and --help",
        Topic::Live => "the options --start N, --resume, --json, --explain and --help",
        Topic::Check => "the options --start N, --line, --resume and --help",
        Topic::Drill => "the options --start N, --workers N, --room N and --help",
        Topic::Schema => "the option --help",
        Topic::Help => "the name of one command",
    }
}

/// The commands that have an option, in words.
pub(crate) fn owners_text(switch: Switch) -> &'static str
    ensures { result.now ≡ owners_text switch }
{
    match switch {
        Switch::Help => "nagsched, run, live, check, drill and schema",
        Switch::Version => "nagsched",
        Switch::Start => "run, live, check and drill",
        Switch::Resume => "run, live and check",
        Switch::Json => "run and live",
        Switch::Explain => "live",
        Switch::Line => "check",
        Switch::Workers | Switch::Room => "drill",
    }
}

/// The numbers that an option takes. None if it takes no value.
pub(crate) fn limits_of(switch: Switch) -> Option<Limits>
    ensures { result ≡ limits_of switch }
{
    match switch {
        Switch::Start => Some(Limits {
            least: 0,
            most: LAST_MOMENT,
        }),
        Switch::Workers => Some(Limits { least: 1, most: 64 }),
        Switch::Room => Some(Limits {
            least: 0,
            most: 1_000_000,
        }),
        _ => None,
    }
}
