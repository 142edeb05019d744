//! Reads the program's arguments with `clap`. This crate doesn't do the jobs that they ask for.

ghost use Rattle.std.specs.Prelude.{◌≡◌, ◌≤◌, ◌^◌, if◌then◌else◌, Some, [], false, option_map, IfOk, IsOkAnd, OnOk, IfErr, IfSome, string_bytes};
ghost use Rattle.clap.specs.declared.builder.command.Command.TheViews.{out-Command};
ghost use Rattle.clap.specs.Words.{app_of, fault_of, kind_of, new_app, rows_of, rule_of, found_of, subcommand_rows_of, with_subcommand};
ghost use Rattle.clap.specs.Walk.{texts};
ghost use Rattle.nagsched_cli.specs.Arguments.{program, run_subcommand, live_subcommand, check_subcommand, drill_subcommand, schema_subcommand};
ghost use Rattle.nagsched_cli.specs.Arguments.{number_option, optional_start_option, subcommand_with_json, subcommand_with_start};
ghost use Rattle.nagsched_cli.specs.Arguments.{answer_form, flag_argument, has_explain_flag, has_flag, has_json_flag, has_resume_flag};
ghost use Rattle.nagsched_protocol.specs.Start.{CanStart};
ghost use Rattle.nagsched_cli.specs.Arguments.{check_job, optional_start_of, scheduler_start_of, start_of_text, start_from};
ghost use Rattle.nagsched_cli.specs.Arguments.{requested_job, job_of, run_job_of, live_job_of, check_job_of, drill_job_of, drill_start_of, drill_workers_of};
ghost use Rattle.nagsched_cli.specs.Arguments.{drill_room_of};
ghost use Rattle.nagsched_cli.specs.Arguments.{option_number, number_between, Explains, IsWithinLimits, IsExpectedJob, IsErrorFor, version_line};

use crate::arguments::{Job, VERSION, WordsError};
use crate::help::{
    ABOUT_CHECK_RESUME, ABOUT_EXPLAIN, ABOUT_JSON, ABOUT_LINE, ABOUT_OPEN_START, ABOUT_RESUME,
    ABOUT_ROOM, ABOUT_START, ABOUT_WORKERS, HELP, HELP_CHECK, HELP_DRILL, HELP_LIVE, HELP_RUN,
    HELP_SCHEMA, Help,
};
use check_sched::LAST_MOMENT;
use clap::error::ErrorKind;
use clap::{Arg, ArgAction, ArgMatches, Command};
use nagsched_protocol::{AnswerForm, Start};
use std::alloc::{AllocError, Global};

/// The most workers that a drill may have.
const MAX_WORKERS: u64 = 64;

/// The most entries for which a drill may have room from the outset.
const MAX_ROOM: u64 = 1_000_000;

/// Reads the program's arguments. The first is the program's name. One of these follows it:
///
/// - `run [--start N] [--resume] [--json]`
/// - `live [--start N] [--resume] [--json] [--explain]`
/// - `check [--start N] [--line | --resume]`
/// - `drill [--start N] [--workers N] [--room N]`
/// - `schema`
/// - nothing, which means `run --start 0`
///
/// N is read as std reads a `u64` from a text. Options without a subcommand are refused. If an option
/// is given twice, `clap` decides. Without `--start` a scheduler starts at 0, and with `--resume` at
/// the saved start.
///
/// The errors:
///
/// - `Help`: the arguments ask for this text, by `--help` or `-h`, or by `--version` or `-V`.
/// - `Refused`: the arguments ask for nothing that there is.
/// - `Memory`: out of memory.
pub fn job(alloc: Global, words: &[&str]) -> Result<Job, WordsError>
    ensures request { IfOk result (λ job. requested_job (texts words.now) ≡ Some job) }
    ensures faultless { OnOk result (fault_of program (texts words.now) ≡ []) }
    ensures limits { IfOk result IsWithinLimits }
    ensures errors { IfErr result (Explains (texts words.now)) }
{
    match build_program(alloc)?.try_get_matches_from(words) {
        Ok(matches) => read_job(&matches),
        Err(error) => Err(words_error_of(alloc, &error)),
    }
}

/// The arguments that the program takes, with their help.
fn build_program<'a>(alloc: Global) -> Result<Command<'a>, AllocError>
    ensures { IfOk result (λ c. app_of c ≡ program) }
{
    let program = new_command(alloc, "nagsched", HELP).version(VERSION);
    let program = add_subcommand(program, build_run(alloc))?;
    let program = add_subcommand(program, build_live(alloc))?;
    let program = add_subcommand(program, build_check(alloc))?;
    let program = add_subcommand(program, build_drill(alloc))?;
    program.subcommand(build_schema(alloc))
}

/// The program with one more subcommand.
fn add_subcommand<'a>(
    program: Command<'a>,
    subcommand: Result<Command<'a>, AllocError>,
) -> Result<Command<'a>, AllocError>
    ensures { IfOk result (λ c. IsOkAnd subcommand.entry (λ added. (out-Command added).has_globals ≡ false
        → app_of c ≡ with_subcommand (app_of program.entry) (app_of added).top)) }
{
    program.subcommand(subcommand?)
}

/// The subcommand `run`.
fn build_run<'a>(alloc: Global) -> Result<Command<'a>, AllocError>
    ensures { IfOk result (λ c.
        (app_of c ≡ run_subcommand) × ((out-Command c).has_globals ≡ false)) }
{
    build_with_json(alloc, "run", HELP_RUN)
}

/// The subcommand `live`.
fn build_live<'a>(alloc: Global) -> Result<Command<'a>, AllocError>
    ensures { IfOk result (λ c.
        (app_of c ≡ live_subcommand) × ((out-Command c).has_globals ≡ false)) }
{
    build_with_json(alloc, "live", HELP_LIVE)?.arg(flag_argument(alloc, "explain", ABOUT_EXPLAIN))
}

/// A subcommand of this name with this help, with the option `--start` and the flags `--resume` and `--json`.
fn build_with_json<'a>(alloc: Global, name: &'a str, help: Help) -> Result<Command<'a>, AllocError>
    ensures { IfOk result (λ c.
        (app_of c ≡ subcommand_with_json name.now) × ((out-Command c).has_globals ≡ false)) }
{
    build_with_start(alloc, name, help, ABOUT_RESUME)?.arg(flag_argument(alloc, "json", ABOUT_JSON))
}

/// The subcommand `check`.
fn build_check<'a>(alloc: Global) -> Result<Command<'a>, AllocError>
    ensures { IfOk result (λ c.
        (app_of c ≡ check_subcommand) × ((out-Command c).has_globals ≡ false)) }
{
    build_with_start(alloc, "check", HELP_CHECK, ABOUT_CHECK_RESUME)?.arg(flag_argument(
        alloc, "line", ABOUT_LINE,
    ))
}

/// A subcommand of this name, with the option `--start` and the flag `--resume`, and with these help
/// texts.
fn build_with_start<'a>(
    alloc: Global,
    name: &'a str,
    help: Help,
    about_resume: &'a str,
) -> Result<Command<'a>, AllocError>
    ensures { IfOk result (λ c.
        (app_of c ≡ subcommand_with_start name.now) × ((out-Command c).has_globals ≡ false)) }
{
    new_command(alloc, name, help)
        .arg(optional_start_option(alloc))?
        .arg(flag_argument(alloc, "resume", about_resume))
}

/// The subcommand `drill`.
fn build_drill<'a>(alloc: Global) -> Result<Command<'a>, AllocError>
    ensures { IfOk result (λ c.
        (app_of c ≡ drill_subcommand) × ((out-Command c).has_globals ≡ false)) }
{
    new_command(alloc, "drill", HELP_DRILL)
        .arg(number_option(alloc, "start", "0", ABOUT_START))?
        .arg(number_option(alloc, "workers", "2", ABOUT_WORKERS))?
        .arg(number_option(alloc, "room", "1000", ABOUT_ROOM))
}

/// The subcommand `schema`, which has no option.
fn build_schema<'a>(alloc: Global) -> Command<'a>
    ensures app { app_of result ≡ schema_subcommand }
    ensures local { (out-Command result).has_globals ≡ false }
{
    new_command(alloc, "schema", HELP_SCHEMA)
}

/// The program or a subcommand, by its name and its help, without arguments of its own.
fn new_command<'a>(alloc: Global, name: &'a str, help: Help) -> Command<'a>
    ensures app { app_of result ≡ new_app name.now }
    ensures local { (out-Command result).has_globals ≡ false }
{
    Command::new(alloc, name)
        .about(help.about)
        .after_help(help.notes)
}

/// The option `--start N` of `run`, `live` and `check`.
fn optional_start_option<'a>(alloc: Global) -> Arg<'a>
    ensures rule { rule_of result ≡ optional_start_option }
    ensures local { result.global ≡ false }
{
    Arg::new(alloc, "start")
        .long("start")
        .value_name("N")
        .help(ABOUT_OPEN_START)
}

/// The flag `--name`, with this help text.
fn flag_argument<'a>(alloc: Global, name: &'a str, about: &'a str) -> Arg<'a>
    ensures rule { rule_of result ≡ flag_argument name.now }
    ensures local { result.global ≡ false }
{
    Arg::new(alloc, name)
        .long(name)
        .action(ArgAction::SetTrue)
        .help(about)
}

/// The option `--name N`, a number, with the default `otherwise` and this help text.
fn number_option<'a>(alloc: Global, name: &'a str, otherwise: &'a str, about: &'a str) -> Arg<'a>
    ensures rule { rule_of result ≡ number_option name.now otherwise.now }
    ensures local { result.global ≡ false }
{
    Arg::new(alloc, name)
        .long(name)
        .value_name("N")
        .default_value(otherwise)
        .help(about)
}

/// The job that was read.
fn read_job(matches: &ArgMatches<'_>) -> Result<Job, WordsError>
    ensures request { IsExpectedJob result (job_of (subcommand_rows_of matches.now)) }
    ensures limits { IfOk result IsWithinLimits }
{
    match matches.subcommand() {
        None => Ok(Job::Run {
            start: Start::Fresh(0),
            form: AnswerForm::Words,
        }),
        Some(("run", options)) => read_run(options).ok_or(WordsError::Refused),
        Some(("live", options)) => read_live(options).ok_or(WordsError::Refused),
        Some(("check", options)) => read_check(options).ok_or(WordsError::Refused),
        Some(("drill", options)) => read_drill(options).ok_or(WordsError::Refused),
        Some(("schema", _)) => Ok(Job::Schema),
        Some(_) => Err(WordsError::Refused),
    }
}

/// The job of `run` with these options.
fn read_run(options: &ArgMatches<'_>) -> Option<Job>
    ensures request { result ≡ run_job_of (rows_of (found_of options.now)) }
    ensures limits { IfSome result IsWithinLimits }
{
    let start = read_scheduler_start(options)?;
    Some(Job::Run {
        start,
        form: answer_form(has_json_flag(options), false),
    })
}

/// The job of `live` with these options.
fn read_live(options: &ArgMatches<'_>) -> Option<Job>
    ensures request { result ≡ live_job_of (rows_of (found_of options.now)) }
    ensures limits { IfSome result IsWithinLimits }
{
    let start = read_scheduler_start(options)?;
    Some(Job::Live {
        start,
        form: answer_form(has_json_flag(options), has_explain_flag(options)),
    })
}

/// The form of answers with these flags `--json` and `--explain`. JSON explains refusals anyway.
fn answer_form(json: bool, explains: bool) -> AnswerForm
    ensures { result ≡ answer_form json explains }
{
    match (json, explains) {
        (true, _) => AnswerForm::Json,
        (false, true) => AnswerForm::Explained,
        (false, false) => AnswerForm::Words,
    }
}

/// The job of `check` with these options.
fn read_check(options: &ArgMatches<'_>) -> Option<Job>
    ensures request { result ≡ check_job_of (rows_of (found_of options.now)) }
    ensures limits { IfSome result IsWithinLimits }
{
    let start = read_scheduler_start(options)?;
    check_job(has_flag(options, "line"), start)
}

/// The job of `check` with this flag `--line` and this start, if the two can be combined.
fn check_job(line: bool, start: Start) -> Option<Job>
    ensures request { result ≡ check_job line start }
    ensures limits { CanStart start → IfSome result IsWithinLimits }
{
    match (line, start) {
        (false, start) => Some(Job::Check { start }),
        (true, Start::Fresh(_)) => Some(Job::SetupLine),
        (true, Start::Resumed(_)) => None,
    }
}

/// How the scheduler of `run`, `live` or `check` starts with these options.
fn read_scheduler_start(options: &ArgMatches<'_>) -> Option<Start>
    ensures value { result ≡ scheduler_start_of (rows_of (found_of options.now)) }
    ensures limits { IfSome result CanStart }
{
    let moment = read_optional_start(options)?;
    Some(start_from(has_resume_flag(options), moment))
}

/// How a scheduler starts with this flag `--resume` and this moment.
fn start_from(resumes: bool, moment: Option<u64>) -> Start
    ensures value { result ≡ start_from resumes moment }
    ensures limits { IfSome moment (λ m. m ≤ LAST_MOMENT) → CanStart result }
{
    if resumes {
        Start::Resumed(moment)
    } else {
        Start::Fresh(moment.unwrap_or(0))
    }
}

/// The job of `drill` with these options.
fn read_drill(options: &ArgMatches<'_>) -> Option<Job>
    ensures request { result ≡ drill_job_of (rows_of (found_of options.now)) }
    ensures limits { IfSome result IsWithinLimits }
{
    Some(Job::Drill {
        start: read_start(options)?,
        workers: read_workers(options)?,
        room: read_room(options)?,
    })
}

/// The number of the option `--start`, if a scheduler may start then.
fn read_start(options: &ArgMatches<'_>) -> Option<u64>
    ensures value { result ≡ drill_start_of (rows_of (found_of options.now)) }
    ensures limits { IfSome result (λ start. start ≤ 2 ^ 60) }
{
    read_number(options, "start", 0, LAST_MOMENT)
}

/// The number of the option `--start` of `run`, `live` and `check`. None if a scheduler may not start
/// then, and `Some(None)` if the option isn't given.
fn read_optional_start(options: &ArgMatches<'_>) -> Option<Option<u64>>
    ensures value { result ≡ optional_start_of (rows_of (found_of options.now)) }
    ensures limits { IfSome result (λ start. IfSome start (λ moment. moment ≤ 2 ^ 60)) }
{
    start_of_text(options.get_str("start"))
}

/// The start that the text of the option `--start` gives. None if a scheduler may not start then, and
/// `Some(None)` if there is no text.
fn start_of_text(text: Option<&str>) -> Option<Option<u64>>
    ensures value { result ≡ start_of_text (option_map (λ t. t.now) text.entry) }
    ensures limits { IfSome result (λ start. IfSome start (λ moment. moment ≤ 2 ^ 60)) }
{
    match text {
        Some(text) => Some(Some(parse_number(text, 0, LAST_MOMENT)?)),
        None => Some(None),
    }
}

/// Whether the flag `--resume` was given.
fn has_resume_flag(options: &ArgMatches<'_>) -> bool
    ensures { result ≡ has_resume_flag (rows_of (found_of options.now)) }
{
    has_flag(options, "resume")
}

/// Whether the flag `--json` was given.
fn has_json_flag(options: &ArgMatches<'_>) -> bool
    ensures { result ≡ has_json_flag (rows_of (found_of options.now)) }
{
    has_flag(options, "json")
}

/// Whether the flag `--explain` was given.
fn has_explain_flag(options: &ArgMatches<'_>) -> bool
    ensures { result ≡ has_explain_flag (rows_of (found_of options.now)) }
{
    has_flag(options, "explain")
}

/// Whether a flag was given.
fn has_flag(options: &ArgMatches<'_>, name: &str) -> bool
    ensures { result ≡ has_flag name.now (rows_of (found_of options.now)) }
{
    match options.get_str(name) {
        Some(text) => text == "true",
        None => false,
    }
}

/// The number of the option `--workers`, if a drill may have this many.
fn read_workers(options: &ArgMatches<'_>) -> Option<u32>
    ensures value { result ≡ drill_workers_of (rows_of (found_of options.now)) }
    ensures limits { IfSome result (λ workers. (1 ≤ workers) × (workers ≤ 64)) }
{
    let workers = read_number(options, "workers", 1, MAX_WORKERS)?;
    Some(workers as u32)
}

/// The number of the option `--room`, if a drill may have that room.
fn read_room(options: &ArgMatches<'_>) -> Option<usize>
    ensures value { result ≡ drill_room_of (rows_of (found_of options.now)) }
    ensures limits { IfSome result (λ room. room ≤ 1000000) }
{
    let room = read_number(options, "room", 0, MAX_ROOM)?;
    Some(room as usize)
}

/// The number of an option, if it is within these limits.
fn read_number(options: &ArgMatches<'_>, name: &str, least: u64, most: u64) -> Option<u64>
    ensures value { result ≡ option_number name.now least most (rows_of (found_of options.now)) }
    ensures limits { IfSome result (λ number. (least ≤ number) × (number ≤ most)) }
{
    parse_number(options.get_str(name)?, least, most)
}

/// The number that std reads as a `u64` from a text, if it is within these limits.
pub(crate) fn parse_number(text: &str, least: u64, most: u64) -> Option<u64>
    ensures value { result ≡ number_between least most text.now }
    ensures limits { IfSome result (λ number. (least ≤ number) × (number ≤ most)) }
{
    match text.parse::<u64>() {
        Ok(number) if least <= number && number <= most => Some(number),
        Ok(_) => None,
        Err(_) => None,
    }
}

/// The meaning of an error of `clap` for the arguments.
fn words_error_of(alloc: Global, error: &clap::Error) -> WordsError
    ensures { IsErrorFor (kind_of error.now) result }
{
    match error.kind() {
        ErrorKind::OutOfMemory => WordsError::Memory,
        ErrorKind::DisplayHelp => match format!(in alloc; "{error}") {
            Ok(text) => WordsError::Help(text),
            Err(_) => WordsError::Memory,
        },
        ErrorKind::DisplayVersion => match version_line(alloc) {
            Ok(text) => WordsError::Help(text),
            Err(_) => WordsError::Memory,
        },
        _ => WordsError::Refused,
    }
}

/// The program's answer to `--version`.
fn version_line(alloc: Global) -> Result<String, AllocError>
    ensures { IfOk result (λ text. string_bytes text ≡ version_line) }
{
    format!(in alloc; "nagsched {VERSION}\n")
}
