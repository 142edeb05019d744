//! The calls of operators: another time, checks turned on or off, the status of an object.

ghost use Rattle.std.specs.Prelude.{◌≡◌};
ghost use Rattle.check_sched.specs.Step.{step};
ghost use Rattle.check_sched.specs.Reply.{HasTimesUpTo, reply_of};

use super::Sched;
use super::worker_calls::test_moment;
use crate::call::{Call, Refusal, Reply};
use crate::object_state::Change;
use check_states::{LAST_TIME, Standing};

// Each is a separate call in `Sched::apply`, so that takes and reports, which are most calls, don't pay for
// the values that these functions keep.
impl Sched {
    /// Sets the next check of an object.
    #[inline(never)]
    pub(super) fn reschedule(
        &mut self,
        object: u32,
        time: u64,
        forced: bool,
    ) -> Result<Reply, Refusal>
        ensures state { self.new ≡ (step self.old (Call.Reschedule object time forced)).0 }
        ensures reply { reply_of result ≡ (step self.old (Call.Reschedule object time forced)).1 }
    {
        self.object(object)?;
        test_moment(time)?;
        self.change(object, Change::Reschedule { time, forced });
        Ok(Reply::Done)
    }

    /// Turns the active checks of an object on or off.
    #[inline(never)]
    pub(super) fn enable(&mut self, object: u32, on: bool) -> Result<Reply, Refusal>
        ensures state { self.new ≡ (step self.old (Call.Enable object on)).0 }
        ensures reply { reply_of result ≡ (step self.old (Call.Enable object on)).1 }
    {
        self.object(object)?;
        self.change(object, Change::Enable(on));
        Ok(Reply::Done)
    }

    /// Replies with the standing of an object.
    #[inline(never)]
    pub(super) fn status(&self, object: u32) -> Result<Reply, Refusal>
        ensures state { self.now ≡ (step self.now (Call.Status object)).0 }
        ensures reply { reply_of result ≡ (step self.now (Call.Status object)).1 }
        ensures times { HasTimesUpTo LAST_TIME (reply_of result) }
    {
        let state = self.object(object)?;
        Ok(Reply::Standing {
            standing: self.standings[object as usize],
            changed: false,
            next: state.next(),
        })
    }
}
