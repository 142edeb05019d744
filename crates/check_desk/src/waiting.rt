//! How a caller waits for its turn: it pauses, then it sleeps. After a call for which it slept, it rests.

use crossbeam_utils::Backoff;
use std::sync::Wait;
use std::thread::Parker;
use std::time::Duration;

/// The number of pauses between polls before a caller sleeps. Each pause is up to twice as long as the one
/// before.
const PAUSES: u32 = 7;

/// The first sleep between polls, in microseconds. Each later sleep is as long as all before it together.
const FIRST_SLEEP: u64 = 10;

/// The longest sleep between polls, in microseconds.
const LONGEST_SLEEP: u64 = 100;

/// How many times as long as all its sleeps a caller rests.
const REST: u64 = 16;

/// The longest rest, in microseconds.
const LONGEST_REST: u64 = 50_000;

/// How long a caller has waited, from its ticket to the end of its call.
#[derive(Drop)]
pub(crate) struct Patience {
    backoff: Backoff,
    pauses: u32,
    /// The time of all sleeps in microseconds.
    slept: u64,
}

impl Patience {
    /// The patience of a caller that hasn't waited yet.
    pub(crate) fn new() -> Patience {
        Patience {
            backoff: Backoff::new(),
            pauses: 0,
            slept: 0,
        }
    }

    /// Waits between two polls. An earlier caller that has a processor ends its call within a few pauses. One
    /// that has none gets this caller's while it sleeps.
    ///
    /// A caller never yields: next to a busy program it would get its processor back only after
    /// milliseconds, and all later callers would wait for it.
    pub(crate) fn wait(&mut self, rt: &impl Wait) {
        if self.pauses < PAUSES {
            self.pauses += 1;
            self.backoff.spin();
        } else {
            let time = self.slept.clamp(FIRST_SLEEP, LONGEST_SLEEP);
            self.slept = self.slept.saturating_add(time);
            sleep(rt, time);
        }
    }

    /// Rests after the call, if the caller slept. Without rests, callers that sleep would follow each other,
    /// and each of their calls would take a sleep. A rest is much longer than the sleeps, since
    /// callers that come back early would meet again. A caller that rests has no ticket, so nobody waits for it.
    pub(crate) fn rest(&self, rt: &impl Wait) {
        if 0 < self.slept {
            sleep(rt, self.slept.saturating_mul(REST).min(LONGEST_REST));
        }
    }
}

/// Sleeps for this number of microseconds. No other thread knows the parker, so only the time ends the sleep.
fn sleep(rt: &impl Wait, micros: u64) {
    Parker::new().park_timeout(rt, Duration::from_micros(micros));
}
