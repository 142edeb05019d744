//! The words of `run`: the calls of a script, `save` and `list`. Each word has one function here and one
//! definition in `specs/Command.antt`.

ghost use Rattle.std.specs.Prelude.{◌≡◌, option_map};
ghost use Rattle.serde_json.specs.View.{view, items_view};
ghost use Rattle.nagsched_protocol.specs.Command.{command_by, list_command, save_command};
ghost use Rattle.nagsched_protocol.specs.Command.{call_by, take_call, report_call, abandon_call};
ghost use Rattle.nagsched_protocol.specs.Command.{reschedule_call, enable_call, status_call};
ghost use Rattle.nagsched_protocol.specs.Command.{report_of, abandon_of, reschedule_of, enable_of};
ghost use Rattle.nagsched_protocol.specs.Command.{one_of, two_of, three_of, object_named};
ghost use Rattle.nagsched_protocol.specs.Command.{code_in, number_in, switch_in, wrong_count, wrong_kind};

use crate::flat_line::flat_call;
use crate::line::Command;
use crate::refusal::{CommandError, LineFault, LineShape, ValueKind, Vocabulary};
use check_objects::Setup;
use check_sched::Call;
use check_states::Code;
use json::Scratch;
use serde_json::Value;
use std::alloc::Global;

/// A command of a run.
#[derive(Clone, Copy, Debug, PartialEq, Eq)]
pub enum RunCommand {
    /// A call of the scheduler.
    Call(Call),
    /// To save the scheduler, which stays as it is. (Our own profile.)
    Save,
    /// To list all objects. The scheduler stays as it is. (Our own profile.)
    List,
}

impl Command for RunCommand {
    ghost use Rattle.nagsched_protocol.specs.declared.command.RunCommand as declared;

    ghost Seen = { declared.RunCommand };

    ghost seen = { λ command. command };

    ghost meaning = { command_by };

    fn read_flat(setup: &Setup, line: &[u8], scratch: &mut Scratch) -> Option<RunCommand> {
        match flat_call(setup, line, scratch) {
            Some(call) => Some(RunCommand::Call(call)),
            None => None,
        }
    }

    fn read(
        _alloc: Global,
        setup: &Setup,
        word: &str,
        members: &[Value],
    ) -> Result<RunCommand, CommandError> {
        match command_by(setup, word, members) {
            Ok(command) => Ok(command),
            Err(fault) => Err(CommandError::Refused(fault)),
        }
    }
}

/// The command of a word with these members after it.
fn command_by(setup: &Setup, word: &str, members: &[Value]) -> Result<RunCommand, LineFault>
    ensures { result ≡ command_by setup.now word.now (items_view members.now) }
{
    match word {
        "save" => save_command(members),
        "list" => list_command(members),
        _ => Ok(RunCommand::Call(call_by(setup, word, members)?)),
    }
}

/// `["save"]`: the scheduler's saved state.
#[tactic(auto, using(crate::proofs::CommandLemmas::save_members))]
fn save_command(members: &[Value]) -> Result<RunCommand, LineFault>
    ensures { result ≡ save_command (items_view members.now) }
{
    match members {
        [] => Ok(RunCommand::Save),
        _ => Err(wrong_count(members, 0)),
    }
}

/// `["list"]`: all objects.
#[tactic(auto, using(crate::proofs::CommandLemmas::list_members))]
fn list_command(members: &[Value]) -> Result<RunCommand, LineFault>
    ensures { result ≡ list_command (items_view members.now) }
{
    match members {
        [] => Ok(RunCommand::List),
        _ => Err(wrong_count(members, 0)),
    }
}

/// The call of a word with these members after it.
#[tactic(auto, using(crate::proofs::CommandLemmas::call_by_other))]
fn call_by(setup: &Setup, word: &str, members: &[Value]) -> Result<Call, LineFault>
    ensures { result ≡ call_by setup.now word.now (items_view members.now) }
{
    match word {
        "take" => take_call(members),
        "report" => report_call(setup, members),
        "abandon" => abandon_call(setup, members),
        "reschedule" => reschedule_call(setup, members),
        "enable" => enable_call(setup, members),
        "status" => status_call(setup, members),
        _ => Err(LineFault::Shape(LineShape::UnknownWord(Vocabulary::Run))),
    }
}

/// `["take",now]`: the next check to run at the moment `now`, in milliseconds.
fn take_call(members: &[Value]) -> Result<Call, LineFault>
    ensures { result ≡ take_call (items_view members.now) }
{
    let Some(now) = one_of(members) else {
        return Err(wrong_count(members, 1));
    };
    let now = number_in(now, 1, ValueKind::Time)?;
    Ok(Call::Take { now })
}

/// `["report",name,run,code]`: the check of the object `name` that runs under the number `run`
/// returned `code`.
fn report_call(setup: &Setup, members: &[Value]) -> Result<Call, LineFault>
    ensures { result ≡ report_call setup.now (items_view members.now) }
{
    match three_of(members) {
        Some((name, run, code)) => report_of(setup, name, run, code),
        None => Err(wrong_count(members, 3)),
    }
}

/// The report with these values.
fn report_of(setup: &Setup, name: &Value, run: &Value, code: &Value) -> Result<Call, LineFault>
    ensures { result ≡ report_of setup.now (view name.now) (view run.now) (view code.now) }
{
    let Some(name) = name.as_str() else {
        return Err(wrong_kind(1, ValueKind::Name));
    };
    let run = number_in(run, 2, ValueKind::Run)?;
    let code = code_in(code, 3)?;
    let object = object_named(setup, name)?;
    Ok(Call::Report { object, run, code })
}

/// `["abandon",name,run,now]`: the check of the object `name` that runs under the number `run` is
/// abandoned at the moment `now`, in milliseconds.
fn abandon_call(setup: &Setup, members: &[Value]) -> Result<Call, LineFault>
    ensures { result ≡ abandon_call setup.now (items_view members.now) }
{
    match three_of(members) {
        Some((name, run, now)) => abandon_of(setup, name, run, now),
        None => Err(wrong_count(members, 3)),
    }
}

/// The abandonment with these values.
fn abandon_of(setup: &Setup, name: &Value, run: &Value, now: &Value) -> Result<Call, LineFault>
    ensures { result ≡ abandon_of setup.now (view name.now) (view run.now) (view now.now) }
{
    let Some(name) = name.as_str() else {
        return Err(wrong_kind(1, ValueKind::Name));
    };
    let run = number_in(run, 2, ValueKind::Run)?;
    let now = number_in(now, 3, ValueKind::Time)?;
    let object = object_named(setup, name)?;
    Ok(Call::Abandon { object, run, now })
}

/// `["reschedule",name,time,forced]`: the next check of the object `name` is at the moment `time`,
/// in milliseconds, forced or not.
fn reschedule_call(setup: &Setup, members: &[Value]) -> Result<Call, LineFault>
    ensures { result ≡ reschedule_call setup.now (items_view members.now) }
{
    match three_of(members) {
        Some((name, time, forced)) => reschedule_of(setup, name, time, forced),
        None => Err(wrong_count(members, 3)),
    }
}

/// The request for a next check with these values.
fn reschedule_of(
    setup: &Setup,
    name: &Value,
    time: &Value,
    forced: &Value,
) -> Result<Call, LineFault>
    ensures { result ≡ reschedule_of setup.now (view name.now) (view time.now) (view forced.now) }
{
    let Some(name) = name.as_str() else {
        return Err(wrong_kind(1, ValueKind::Name));
    };
    let time = number_in(time, 2, ValueKind::Time)?;
    let forced = switch_in(forced, 3)?;
    let object = object_named(setup, name)?;
    Ok(Call::Reschedule {
        object,
        time,
        forced,
    })
}

/// `["enable",name,on]`: the active checks of the object `name` are on or off.
fn enable_call(setup: &Setup, members: &[Value]) -> Result<Call, LineFault>
    ensures { result ≡ enable_call setup.now (items_view members.now) }
{
    match two_of(members) {
        Some((name, on)) => enable_of(setup, name, on),
        None => Err(wrong_count(members, 2)),
    }
}

/// The request to turn active checks on or off with these values.
fn enable_of(setup: &Setup, name: &Value, on: &Value) -> Result<Call, LineFault>
    ensures { result ≡ enable_of setup.now (view name.now) (view on.now) }
{
    let Some(name) = name.as_str() else {
        return Err(wrong_kind(1, ValueKind::Name));
    };
    let on = switch_in(on, 2)?;
    let object = object_named(setup, name)?;
    Ok(Call::Enable { object, on })
}

/// `["status",name]`: the standing of the object `name`.
fn status_call(setup: &Setup, members: &[Value]) -> Result<Call, LineFault>
    ensures { result ≡ status_call setup.now (items_view members.now) }
{
    let Some(name) = one_of(members) else {
        return Err(wrong_count(members, 1));
    };
    let Some(name) = name.as_str() else {
        return Err(wrong_kind(1, ValueKind::Name));
    };
    let object = object_named(setup, name)?;
    Ok(Call::Status { object })
}

/// The only value.
#[tactic(auto, using(crate::proofs::CommandLemmas::one_few, crate::proofs::CommandLemmas::one_many))]
pub(crate) fn one_of(members: &[Value]) -> Option<&Value>
    ensures { option_map (λ v. view v.now) result ≡ one_of (items_view members.now) }
{
    match members {
        [value] => Some(value),
        _ => None,
    }
}

/// Two values.
#[tactic(auto, using(crate::proofs::CommandLemmas::two_few, crate::proofs::CommandLemmas::two_many))]
fn two_of(members: &[Value]) -> Option<(&Value, &Value)>
    ensures { option_map (λ p. (view p.0.now, view p.1.now)) result
        ≡ two_of (items_view members.now) }
{
    match members {
        [first, second] => Some((first, second)),
        _ => None,
    }
}

/// Three values.
#[tactic(auto, using(crate::proofs::CommandLemmas::three_few, crate::proofs::CommandLemmas::three_many))]
fn three_of(members: &[Value]) -> Option<(&Value, &Value, &Value)>
    ensures { option_map (λ p. (view p.0.now, view p.1.now, view p.2.now)) result
        ≡ three_of (items_view members.now) }
{
    match members {
        [first, second, third] => Some((first, second, third)),
        _ => None,
    }
}

/// The value with this number, as a number of this kind.
pub(crate) fn number_in(value: &Value, number: usize, kind: ValueKind) -> Result<u64, LineFault>
    ensures { result ≡ number_in number kind (view value.now) }
{
    match value.as_u64() {
        Some(read) => Ok(read),
        None => Err(wrong_kind(number, kind)),
    }
}

/// The value with this number, as true or false.
fn switch_in(value: &Value, number: usize) -> Result<bool, LineFault>
    ensures { result ≡ switch_in number (view value.now) }
{
    match value.as_bool() {
        Some(on) => Ok(on),
        None => Err(wrong_kind(number, ValueKind::Switch)),
    }
}

/// The value with this number, as a return code.
pub(crate) fn code_in(value: &Value, number: usize) -> Result<Code, LineFault>
    ensures { result ≡ code_in number (view value.now) }
{
    let digit = number_in(value, number, ValueKind::Code)?;
    match Code::from_number(digit) {
        Some(code) => Ok(code),
        None => Err(LineFault::Code(number)),
    }
}

/// The fault that there aren't as many values as there have to be.
#[tactic(auto, using(crate::proofs::CommandLemmas::values_counted))]
pub(crate) fn wrong_count(members: &[Value], wanted: usize) -> LineFault
    ensures { result ≡ wrong_count (items_view members.now) wanted }
{
    LineFault::Shape(LineShape::Count(members.len(), wanted))
}

/// The fault that the value with this number isn't of this kind.
pub(crate) fn wrong_kind(number: usize, kind: ValueKind) -> LineFault
    ensures { result ≡ wrong_kind number kind }
{
    LineFault::Shape(LineShape::WrongKind(number, kind))
}

/// The number of the object with this full name.
pub fn object_named(setup: &Setup, name: &str) -> Result<u32, LineFault>
    ensures { result ≡ object_named setup.now name.now }
{
    match setup.number(name) {
        Some(object) => Ok(object),
        None => Err(LineFault::UnknownName),
    }
}
