//! Tries each of the six calls.
//!
//! A try looks once whether the pass's turn has come, and makes the call then. C tries again until it
//! has. So no pass holds the book between two calls of C.

ghost use Rattle.std.specs.Prelude.{◌≡◌, Option, Some, None};
ghost use Rattle.check_states.specs.Numbers.{code_of_number};
ghost use Rattle.check_sched.specs.declared.call.Call.TheVariants as call;
ghost use Rattle.nagsched_handles.specs.Handles.{contents_of};
ghost use Rattle.nagsched_handles.specs.Structs.{flag_of};
ghost use Rattle.nagsched_c.specs.Tries.{reply_after, status_of, HasTried, HasTriedIf};

use crate::status::{NO_MEMORY, OK, SPENT, WAIT, WRONG};
use check_sched::Call;
use check_states::Code;
use nagsched_handles::{CReply, Handle, HandleTarget, Step, flag_of, write_reply};
use std::alloc::Global;

/// Asks which object is to be checked at the moment `now`, and begins its check.
///
/// Each of the six calls is tried like this. If the turn has come, the call is made and recorded, and the
/// struct has its reply (`OK`). If it hasn't, the pass waits, and C has to make the same call with the same
/// arguments again (`WAIT`). `SPENT`: the pass has no call left. `NO_MEMORY`: out of memory for the entry;
/// the call wasn't made, but is counted. `WRONG`: the handle has no pass, or the pass waits for the turn of
/// another call; nothing was done.
#[unsafe(no_mangle)]
pub extern "C" fn nagsched_try_take(
    alloc: Global,
    pass: &mut Handle,
    now: u64,
    reply: &mut CReply,
) -> u32
    ensures { HasTried (call.Take now) (contents_of pass.old) reply.old result
        (contents_of pass.new) reply.new }
{
    try_call(alloc, pass, Call::Take { now }, reply)
}

/// Reports the return code of the check of an object that was handed out under the number `run`, and ends
/// that run. A code above 3 is `WRONG`. The rest is as for [`nagsched_try_take`].
#[unsafe(no_mangle)]
pub extern "C" fn nagsched_try_report(
    alloc: Global,
    pass: &mut Handle,
    object: u32,
    run: u64,
    code: u32,
    reply: &mut CReply,
) -> u32
    ensures { HasTriedIf (code_of_number code) (λ known. call.Report object run known)
        (contents_of pass.old) reply.old result (contents_of pass.new) reply.new }
{
    match Code::from_number(u64::from(code)) {
        Some(code) => try_call(alloc, pass, Call::Report { object, run, code }, reply),
        None => WRONG,
    }
}

/// Abandons, at the moment `now`, the check of an object that was handed out under the number `run`, and
/// ends that run without a result. The rest is as for [`nagsched_try_take`].
#[unsafe(no_mangle)]
pub extern "C" fn nagsched_try_abandon(
    alloc: Global,
    pass: &mut Handle,
    object: u32,
    run: u64,
    now: u64,
    reply: &mut CReply,
) -> u32
    ensures { HasTried (call.Abandon object run now) (contents_of pass.old) reply.old result
        (contents_of pass.new) reply.new }
{
    try_call(alloc, pass, Call::Abandon { object, run, now }, reply)
}

/// Sets the next check of an object to the time `time`, in milliseconds, forced if `forced` is 1. Another
/// number than 0 and 1 is `WRONG`. The rest is as for [`nagsched_try_take`].
#[unsafe(no_mangle)]
pub extern "C" fn nagsched_try_reschedule(
    alloc: Global,
    pass: &mut Handle,
    object: u32,
    time: u64,
    forced: u32,
    reply: &mut CReply,
) -> u32
    ensures { HasTriedIf (flag_of forced) (λ known. call.Reschedule object time known)
        (contents_of pass.old) reply.old result (contents_of pass.new) reply.new }
{
    match flag_of(forced) {
        Some(forced) => {
            let call = Call::Reschedule {
                object,
                time,
                forced,
            };
            try_call(alloc, pass, call, reply)
        }
        None => WRONG,
    }
}

/// Switches the active checks of an object on, if `on` is 1, or off, if it is 0. Another number is `WRONG`.
/// The rest is as for [`nagsched_try_take`].
#[unsafe(no_mangle)]
pub extern "C" fn nagsched_try_enable(
    alloc: Global,
    pass: &mut Handle,
    object: u32,
    on: u32,
    reply: &mut CReply,
) -> u32
    ensures { HasTriedIf (flag_of on) (λ known. call.Enable object known)
        (contents_of pass.old) reply.old result (contents_of pass.new) reply.new }
{
    match flag_of(on) {
        Some(on) => try_call(alloc, pass, Call::Enable { object, on }, reply),
        None => WRONG,
    }
}

/// Asks for the standing of an object, and changes only the history. The rest is as for
/// [`nagsched_try_take`].
#[unsafe(no_mangle)]
pub extern "C" fn nagsched_try_status(
    alloc: Global,
    pass: &mut Handle,
    object: u32,
    reply: &mut CReply,
) -> u32
    ensures { HasTried (call.Status object) (contents_of pass.old) reply.old result
        (contents_of pass.new) reply.new }
{
    try_call(alloc, pass, Call::Status { object }, reply)
}

/// Tries to make the call.
fn try_call(alloc: Global, pass: &mut Handle, call: Call, reply: &mut CReply) -> u32
    ensures { HasTried call (contents_of pass.old) reply.old result (contents_of pass.new)
        reply.new }
{
    let Some(mut target) = pass.take(alloc) else {
        return WRONG;
    };
    let status = match &mut *target {
        HandleTarget::Pass(pass) => write_outcome(pass.step(call), reply),
        _ => WRONG,
    };
    *pass = Handle::of(target);
    status
}

/// Writes the outcome of a try for C.
fn write_outcome(step: Step, reply: &mut CReply) -> u32
    ensures status { result ≡ status_of step }
    ensures reply { reply.new ≡ reply_after step reply.old }
{
    match step {
        Step::Replied(made) => {
            write_reply(made, reply);
            OK
        }
        Step::NotYet => WAIT,
        Step::Spent => SPENT,
        Step::NoMemory => NO_MEMORY,
        Step::OtherWaits => WRONG,
    }
}
