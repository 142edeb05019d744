//! Reads structs back: the call, the reply or the entry with a struct, if there is one.

ghost use Rattle.std.specs.Prelude.{◌≡◌, ◌↔◌, ◌≤◌, ◌^◌, true, IfNone, IfSome};
ghost use Rattle.nagsched_handles.specs.Structs.{call_from_c, reply_from_c, standing_from_c};
ghost use Rattle.nagsched_handles.specs.Structs.{IsNoCall, IsNoEntry, IsNoReply};
ghost use Rattle.nagsched_handles.specs.Structs.{c_call, c_entry, c_reply};

use crate::kinds;
use crate::numbers::{code_or_unknown, kind_or_hard, optional_time, state_or_unreachable};
use crate::structs::{CCall, CEntry, CReply, CStanding, c_call, c_reply};
use check_sched::{Call, Refusal, Reply};
use check_states::Standing;
use ticket_steps::Entry;

/// The call with this struct, if there is one.
pub fn call_of(plain: CCall) -> Option<Call>
    ensures some { IfSome result (λ call. c_call call ≡ plain) }
    ensures none { IfNone result (IsNoCall plain) }
{
    let call = call_from_c(plain);
    (c_call(call) == plain).then_some(call)
}

/// The call that the fields of a struct name, if they are those of a call.
fn call_from_c(plain: CCall) -> Call
    ensures { result ≡ call_from_c plain }
{
    let object = plain.object;
    match plain.kind {
        kinds::CALL_TAKE => Call::Take { now: plain.moment },
        kinds::CALL_REPORT => Call::Report {
            object,
            run: plain.run,
            code: code_or_unknown(plain.code),
        },
        kinds::CALL_ABANDON => Call::Abandon {
            object,
            run: plain.run,
            now: plain.moment,
        },
        kinds::CALL_RESCHEDULE => Call::Reschedule {
            object,
            time: plain.moment,
            forced: plain.flag == 1,
        },
        kinds::CALL_ENABLE => Call::Enable {
            object,
            on: plain.flag == 1,
        },
        _ => Call::Status { object },
    }
}

/// The reply with this struct, if there is one.
pub fn reply_of(plain: CReply) -> Option<Reply>
    ensures some { IfSome result (λ reply. c_reply reply ≡ plain) }
    ensures none { IfNone result (IsNoReply plain) }
{
    let reply = read_reply(plain)?;
    if has_struct(reply, plain) {
        Some(reply)
    } else {
        None
    }
}

/// Whether this is the struct of the reply.
fn has_struct(reply: Reply, plain: CReply) -> bool
    ensures { (result ≡ true) ↔ (c_reply reply ≡ plain) }
{
    c_reply(reply) == plain
}

/// The reply that the fields of a struct name, if they are those of a reply. None if the attempt of a
/// standing is more than a byte.
fn read_reply(plain: CReply) -> Option<Reply>
    ensures some { IfSome result (λ reply. reply ≡ reply_from_c plain) }
    ensures none { IfNone result (2 ^ 8 ≤ plain.standing.attempt) }
{
    let object = plain.object;
    let time = optional_time(plain.has_time, plain.time);
    let reply = match plain.kind {
        kinds::REPLY_TAKEN => Reply::Taken {
            object,
            run: plain.run,
        },
        kinds::REPLY_PUT_OFF => Reply::PutOff {
            object,
            until: time,
        },
        kinds::REPLY_IDLE => Reply::Idle { next: time },
        kinds::REPLY_AT_LIMIT => Reply::AtLimit,
        kinds::REPLY_STANDING => Reply::Standing {
            standing: read_standing(plain.standing)?,
            changed: plain.changed == 1,
            next: time,
        },
        kinds::REPLY_FREED => Reply::Freed { next: plain.time },
        kinds::REPLY_DONE => Reply::Done,
        kinds::REPLY_UNKNOWN_OBJECT => Reply::Refused(Refusal::UnknownObject),
        kinds::REPLY_TIME_RANGE => Reply::Refused(Refusal::TimeRange),
        kinds::REPLY_NOT_RUNNING => Reply::Refused(Refusal::NotRunning),
        kinds::REPLY_WRONG_RUN => Reply::Refused(Refusal::WrongRun),
        _ => Reply::Refused(Refusal::RunsSpent),
    };
    Some(reply)
}

/// The standing that the fields of a struct name, if they are those of a standing. None if the attempt is
/// more than a byte.
fn read_standing(plain: CStanding) -> Option<Standing>
    ensures some { IfSome result (λ standing. standing ≡ standing_from_c plain) }
    ensures none { IfNone result (2 ^ 8 ≤ plain.attempt) }
{
    let Ok(attempt) = u8::try_from(plain.attempt) else {
        return None;
    };
    Some(Standing {
        checked: plain.checked == 1,
        state: state_or_unreachable(plain.state),
        kind: kind_or_hard(plain.kind),
        attempt,
        last_hard: state_or_unreachable(plain.last_hard),
        flapping: plain.flapping == 1,
    })
}

/// The entry with this struct, if there is one.
pub fn entry_of(plain: CEntry) -> Option<Entry<Call, Reply>>
    ensures some { IfSome result (λ entry. c_entry entry ≡ plain) }
    ensures none { IfNone result (IsNoEntry plain) }
{
    let Ok(pass) = u32::try_from(plain.pass) else {
        return None;
    };
    let call = call_of(plain.call)?;
    let reply = reply_of(plain.reply)?;
    Some(Entry { pass, call, reply })
}
