//! Values for C: structs of numbers, each made from its value.
//!
//! Each struct has the layout that `nagsched.h` gives it: no padding and no `bool`. A field that a kind
//! doesn't use is 0. If two values have the same struct, they are equal ([`crate::laws`]).

ghost use Rattle.std.specs.Prelude.{◌≡◌};
ghost use Rattle.check_sched.specs.declared.call.Reply.TheVariants as reply;
ghost use Rattle.nagsched_handles.specs.Structs.{call_struct, c_call, c_entry, c_reply, c_standing, empty_reply, with_time};

use crate::kinds;
use crate::numbers::{flag, number_or_0, presence};
use check_sched::{Call, Refusal, Reply};
use check_states::Standing;
use ticket_steps::Entry;

/// The standing of an object.
#[repr(C)]
#[derive(Clone, Copy, PartialEq)]
pub struct CStanding {
    /// 1 if a result has come in, otherwise 0.
    pub checked: u32,
    /// A state: OK, WARNING, CRITICAL, UNKNOWN are 0 to 3, UP, DOWN, UNREACHABLE 4 to 6.
    pub state: u32,
    /// Soft is 0, hard 1.
    pub kind: u32,
    /// The number of the check attempt.
    pub attempt: u32,
    /// The state of the last result whose state was hard.
    pub last_hard: u32,
    /// 1 if the state keeps changing, otherwise 0.
    pub flapping: u32,
}

/// A call, as a history stores it.
#[repr(C)]
#[derive(Clone, Copy, PartialEq)]
pub struct CCall {
    /// Take, report, abandon, reschedule, enable and status are 0 to 5.
    pub kind: u32,
    /// The number of the object, for all calls except take.
    pub object: u32,
    /// The number of the run, for report and abandon.
    pub run: u64,
    /// A moment in milliseconds, for take, abandon and reschedule.
    pub moment: u64,
    /// The return code of the check, 0 to 3, for report.
    pub code: u32,
    /// Forced, for reschedule, or on, for enable: 0 or 1.
    pub flag: u32,
}

/// The reply to a call.
#[repr(C)]
#[derive(Clone, Copy, PartialEq)]
pub struct CReply {
    /// Taken, put off, idle, at limit, standing, freed and done are 0 to 6; refusals are 101 to 105.
    pub kind: u32,
    /// The number of the object, for taken and put off.
    pub object: u32,
    /// The number of the run, for taken.
    pub run: u64,
    /// A time in milliseconds, if there is one.
    pub time: u64,
    /// 1 if there is a time, otherwise 0.
    pub has_time: u32,
    /// 1 if the state differs from the one before, otherwise 0, for standing.
    pub changed: u32,
    /// The object's standing, for standing.
    pub standing: CStanding,
}

/// An entry of a history: the pass that made the call, the call, the reply.
#[repr(C)]
#[derive(Clone, Copy, PartialEq)]
pub struct CEntry {
    /// The number of the pass, from 0.
    pub pass: u64,
    /// The call.
    pub call: CCall,
    /// The reply.
    pub reply: CReply,
}

/// Why a document isn't a setup, or a text isn't a saved state, and the place of the fault.
#[repr(C)]
#[derive(Clone, Copy, PartialEq)]
pub struct CRefusal {
    /// The reason: 201 to 212 for a document, 301 to 309 for a saved state.
    pub kind: u32,
    /// The part of the document, 1 to 6. It is 0 if the kind has no place, and for a saved state.
    pub part: u32,
    /// 1 if there is an index, otherwise 0.
    pub has_index: u64,
    /// The index in the part's list, or in the list of saved objects, from 0, if there is one.
    pub index: u64,
}

/// A take at the moment 0. The struct of every call is made from it.
const FIRST_TAKE: CCall = CCall {
    kind: kinds::CALL_TAKE,
    object: 0,
    run: 0,
    moment: 0,
    code: 0,
    flag: 0,
};

/// The standing in a reply that has no standing.
const NO_STANDING: CStanding = CStanding {
    checked: 0,
    state: 0,
    kind: 0,
    attempt: 0,
    last_hard: 0,
    flapping: 0,
};

/// A reply with nothing written yet.
const NO_REPLY: CReply = CReply {
    kind: kinds::REPLY_TAKEN,
    object: 0,
    run: 0,
    time: 0,
    has_time: 0,
    changed: 0,
    standing: NO_STANDING,
};

/// The standing of an object, for C.
pub fn c_standing(standing: Standing) -> CStanding
    ensures { result ≡ c_standing standing }
{
    CStanding {
        checked: flag(standing.checked),
        state: standing.state.number(),
        kind: standing.kind.number(),
        attempt: standing.attempt as u32,
        last_hard: standing.last_hard.number(),
        flapping: flag(standing.flapping),
    }
}

/// A call of this kind for an object. All other fields are 0.
fn call_for(kind: u32, object: u32) -> CCall
    ensures { result ≡ call_struct kind object 0 0 0 0 }
{
    CCall {
        kind,
        object,
        ..FIRST_TAKE
    }
}

/// A call, for C.
pub fn c_call(call: Call) -> CCall
    ensures { result ≡ c_call call }
{
    match call {
        Call::Take { now } => CCall {
            moment: now,
            ..FIRST_TAKE
        },
        Call::Report { object, run, code } => CCall {
            run,
            code: code.number(),
            ..call_for(kinds::CALL_REPORT, object)
        },
        Call::Abandon { object, run, now } => CCall {
            run,
            moment: now,
            ..call_for(kinds::CALL_ABANDON, object)
        },
        Call::Reschedule {
            object,
            time,
            forced,
        } => CCall {
            moment: time,
            flag: flag(forced),
            ..call_for(kinds::CALL_RESCHEDULE, object)
        },
        Call::Enable { object, on } => CCall {
            flag: flag(on),
            ..call_for(kinds::CALL_ENABLE, object)
        },
        Call::Status { object } => call_for(kinds::CALL_STATUS, object),
    }
}

/// Writes a time. Without a time, it writes 0, with `has_time` 0.
fn write_time(time: Option<u64>, output: &mut CReply)
    ensures { output.new ≡ with_time time output.old }
{
    output.time = number_or_0(time);
    output.has_time = presence(time);
}

/// A reply of this kind without other fields.
fn bare_reply(kind: u32) -> CReply
    ensures { result ≡ empty_reply kind }
{
    CReply { kind, ..NO_REPLY }
}

/// The refusal of a call, for C.
fn c_refused_reply(refusal: Refusal) -> CReply
    ensures { result ≡ c_reply (reply.Refused refusal) }
{
    match refusal {
        Refusal::UnknownObject => bare_reply(kinds::REPLY_UNKNOWN_OBJECT),
        Refusal::TimeRange => bare_reply(kinds::REPLY_TIME_RANGE),
        Refusal::NotRunning => bare_reply(kinds::REPLY_NOT_RUNNING),
        Refusal::WrongRun => bare_reply(kinds::REPLY_WRONG_RUN),
        Refusal::RunsSpent => bare_reply(kinds::REPLY_RUNS_SPENT),
    }
}

/// Writes the reply to a call, for C: first an empty struct, and then the fields of the reply.
pub fn write_reply(reply: Reply, output: &mut CReply)
    ensures { output.new ≡ c_reply reply }
{
    *output = NO_REPLY;
    match reply {
        Reply::Taken { object, run } => {
            output.kind = kinds::REPLY_TAKEN;
            output.object = object;
            output.run = run;
        }
        Reply::PutOff { object, until } => {
            output.kind = kinds::REPLY_PUT_OFF;
            output.object = object;
            write_time(until, output);
        }
        Reply::Idle { next } => {
            output.kind = kinds::REPLY_IDLE;
            write_time(next, output);
        }
        Reply::AtLimit => output.kind = kinds::REPLY_AT_LIMIT,
        Reply::Standing {
            standing,
            changed,
            next,
        } => {
            output.kind = kinds::REPLY_STANDING;
            output.changed = flag(changed);
            output.standing = c_standing(standing);
            write_time(next, output);
        }
        Reply::Freed { next } => {
            output.kind = kinds::REPLY_FREED;
            write_time(Some(next), output);
        }
        Reply::Done => output.kind = kinds::REPLY_DONE,
        Reply::Refused(refusal) => *output = c_refused_reply(refusal),
    }
}

/// The reply to a call, for C.
pub fn c_reply(reply: Reply) -> CReply
    ensures { result ≡ c_reply reply }
{
    let mut output = NO_REPLY;
    write_reply(reply, &mut output);
    output
}

/// An entry of a history, for C.
pub fn c_entry(entry: &Entry<Call, Reply>) -> CEntry
    ensures { result ≡ c_entry entry.now }
{
    let Entry { pass, call, reply } = *entry;
    CEntry {
        pass: pass as u64,
        call: c_call(call),
        reply: c_reply(reply),
    }
}
