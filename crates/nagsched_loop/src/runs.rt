//! The running checks, and the time until which the loop may sleep.

ghost use Rattle.std.specs.Prelude.{◌≡◌, ℕ, ◌≤◌, ◌<◌, ◌⊎◌, Some, None};
ghost use Rattle.std.specs.Prelude.{Any, Contains, IfOk, IfSome};
ghost use Rattle.std.specs.List.{All};
ghost use Rattle.check_book.specs.Books.{sched_of};
ghost use Rattle.check_sched.specs.State.{run_number_of};
ghost use Rattle.nagsched_loop.specs.Loop.{IsRunning, IsWakeTime, due_after, runs_after_call, limit_at, is_call_for, run_with_limit};

use check_book::Book;
use check_sched::{Call, LAST_MOMENT, Reply};
use std::alloc::{AllocError, Global};

/// The time limit of a plugin, in milliseconds.
const PLUGIN_LIMIT: u64 = 300_000;

/// The longest sleep of a loop in milliseconds: at the limit of running checks, and if no check is due.
const AT_LIMIT: u64 = 1_000;

const WITHOUT_WORK: u64 = 3_600_000;

/// A running check, and the moment at which it is abandoned.
#[derive(Clone, Copy)]
pub(crate) struct Run {
    pub(crate) object: u32,
    pub(crate) number: u64,
    pub(crate) limit: u64,
}

/// Lists the runs of all running checks of a book's scheduler, each with this limit.
pub(crate) fn running_checks(alloc: Global, book: &Book, limit: u64) -> Result<Vec<Run>, AllocError>
    ensures out { IfOk result (λ runs.
        All (λ run. IsRunning (sched_of book.now) run × (run.limit ≡ limit)) runs.items) }
    ensures all { IfOk result (λ runs. (object number : ℕ)
        → run_number_of object (sched_of book.now) ≡ Some number
        → Contains runs.items (run_with_limit object number limit)) }
{
    let sched = book.sched();
    let mut runs = Vec::new(alloc);
    for place in 0..sched.setup().len() {
        let object = place as u32;
        if let Some(number) = sched.running(object) {
            runs.push(Run {
                object,
                number,
                limit,
            })?;
        }
    }
    Ok(runs)
}

/// The first run that is past its limit.
pub(crate) fn overdue_run(runs: &[Run], now: u64) -> Option<Run>
    ensures listed { IfSome result (λ run. Contains runs.now run) }
    ensures past { IfSome result (λ run. run.limit ≤ now) }
    ensures none { result ≡ None → All (λ run. now < run.limit) runs.now }
{
    for run in runs {
        if run.limit <= now {
            return Some(*run);
        }
    }
    None
}

/// Drops the run that a call reports or abandons, and no other.
pub(crate) fn forget(runs: &mut Vec<Run>, call: Call)
    ensures { runs.new.items ≡ runs_after_call call runs.old.items }
{
    runs.retain(|run| !is_call_for(call, *run));
}

/// Whether a call reports or abandons this run.
fn is_call_for(call: Call, run: Run) -> bool
    ensures { result ≡ is_call_for call run }
{
    match call {
        Call::Report {
            object,
            run: number,
            ..
        }
        | Call::Abandon {
            object,
            run: number,
            ..
        } => object == run.object && number == run.number,
        _ => false,
    }
}

/// The limit of a check that was taken at this moment. It depends on whether its plugin could be started.
pub(crate) fn limit_of(is_begun: bool, now: u64) -> u64
    requires { now ≤ LAST_MOMENT }
    ensures { result ≡ limit_at is_begun now }
{
    if is_begun { now + PLUGIN_LIMIT } else { now }
}

/// The time until which to sleep if no check was taken. It is the time of the next check, a second later at
/// the limit of running checks, or an hour later if no check is due. It is never past the limit of a run.
pub(crate) fn wake_time(now: u64, reply: Reply, runs: &[Run]) -> u64
    requires { now ≤ LAST_MOMENT }
    ensures { IsWakeTime now reply runs.now result }
{
    earliest(due_time(now, reply), runs)
}

/// The time `until`, or the least limit of the runs if that is earlier.
fn earliest(until: u64, runs: &[Run]) -> u64
    ensures until { result ≤ until }
    ensures limits { All (λ run. result ≤ run.limit) runs.now }
    ensures earliest { (result ≡ until) ⊎ Any (λ run. result ≡ run.limit) runs.now }
{
    let mut least = until;
    for run in runs {
        least = least.min(run.limit);
    }
    least
}

/// The time until which to sleep by the reply alone.
fn due_time(now: u64, reply: Reply) -> u64
    requires { now ≤ LAST_MOMENT }
    ensures { result ≡ due_after now reply }
{
    match reply {
        Reply::Idle { next: Some(time) } => time,
        Reply::AtLimit => now + AT_LIMIT,
        _ => now + WITHOUT_WORK,
    }
}
