//! The environment of a loop that monitors for months: the clock, the plugins, the operators, and the
//! files. A program implements these two traits. `simulated` has an example of each.

ghost use Rattle.std.specs.Prelude.{◌≡◌, ◌≤◌, ◌⊎◌, Some, option_map, IfErr, IfOk, OnErr, OnOk};

use crate::fault::Fault;
use check_objects::Setup;
use check_sched::{Call, LAST_MOMENT, Reply};
use std::alloc::Global;
use ticket_steps::Entry;

/// An event from outside.
#[derive(Clone, Copy)]
pub(crate) enum Event {
    /// A plugin's report, or an operator's call.
    Call(Call),
    /// The generation is to end.
    Ends(End),
}

/// Why a generation ends.
#[derive(Clone, Copy)]
pub(crate) enum End {
    /// Its rounds are used up, or a call couldn't be made.
    Renewal,
    /// Another setup is to be used. The running checks are abandoned, and the results of plugins that still
    /// run are no longer used.
    Setup,
    /// The program is to end.
    Program,
}

/// The clock, the plugins and the operators. A program runs the plugins in threads or processes of its own,
/// and no call of this trait waits for them.
///
/// `does` is for contracts only: it relates a state of the environment, an effect, and the state after it. A program
/// without proofs of its own allows all: `ghost does = { λ before effect after. ⊤ };`.
pub(crate) trait Environment {
    ghost use Rattle.std.specs.Prelude.{◌≤◌};
    ghost use Rattle.nagsched_loop.specs.Effects.{Effect, answers, asks, begins, reads, sleeps};

    ghost does: { Self → Effect → Self → Type 0 };

    /// The moment now, in milliseconds of a clock that never goes back.
    fn now(&mut self) -> u64
        ensures moment { result ≤ LAST_MOMENT }
        ensures does { does self.old (reads result) self.new };

    /// Starts the plugin of a check that was taken. Returns false if it can't be started.
    fn begin(&mut self, object: u32, run: u64, now: u64) -> bool
        ensures { does self.old (begins object run now result) self.new };

    /// The next event. A call stays until it is answered: if there was no memory for it, it is returned
    /// again.
    fn next_event(&mut self) -> Option<Event>
        ensures { does self.old (asks result) self.new };

    /// Takes the reply to the last call that `next_event` returned, for example the standing of an object after
    /// a report, or why the call was refused. The call is then finished.
    fn accept_reply(&mut self, call: Call, reply: Reply)
        ensures { does self.old (answers call reply) self.new };

    /// Sleeps until this moment, or until an event comes in. It may end earlier.
    fn sleep(&mut self, until: u64)
        ensures { does self.old (sleeps until) self.new };
}

/// The setup file, the file with the stored state, and the destination of the history.
///
/// For contracts only: `stored` is the text that was stored last. `gives` is the set of setups that the file
/// can contain, and `past` the set of histories that it can get. `fails` is the set of errors that a call can
/// return, for each state of the files after it. A program without proofs about these three allows all, by
/// `⊤`.
pub(crate) trait Files {
    ghost use Rattle.std.specs.Prelude.{ℕ, List, Option};
    ghost use Rattle.ticket_steps.specs.declared.books.Entry.{Entry as EntryOf};
    ghost use Rattle.check_objects.specs.Configuration.{Configuration};
    ghost use Rattle.check_sched.specs.declared.call.Call.{Call as CallOf};
    ghost use Rattle.check_sched.specs.declared.call.Reply.{Reply as ReplyOf};
    ghost use Rattle.nagsched_loop.specs.declared.fault.Fault.{Fault as FaultOf};

    ghost stored: { Self → Option (List ℕ) };

    ghost gives: { Configuration → Type 0 };

    ghost past: { Configuration → List (EntryOf CallOf ReplyOf) → Type 0 };

    ghost fails: { Self → FaultOf → Type 0 };

    /// The present setup.
    fn setup(&mut self, alloc: Global) -> Result<Setup, Fault>
        ensures stored { stored self.new ≡ stored self.old }
        ensures given { IfOk result gives }
        ensures fails { IfErr result (fails self.new) };

    /// The text that was stored last, by this run of the program or by an earlier one.
    fn state(&self, alloc: Global) -> Result<Option<Vec<u8>>, Fault>
        ensures stored { IfOk result (λ text.
            option_map (λ bytes. bytes.items) text ≡ stored self.now) }
        ensures fails { IfErr result (fails self.now) };

    /// Ends a generation: stores the text of its last state in place of the one before, and takes its history.
    /// Both are done or none, so that the stored text and the history never part.
    fn end_generation(
        &mut self,
        setup: &Setup,
        entries: &[Entry<Call, Reply>],
        text: &[u8],
    ) -> Result<(), Fault>
        ensures stored { OnOk result (stored self.new ≡ Some text.now) }
        ensures past { OnOk result (past setup.now entries.now) }
        ensures kept { OnErr result ((stored self.new ≡ stored self.old)
            ⊎ ((stored self.new ≡ Some text.now) × past setup.now entries.now)) }
        ensures fails { IfErr result (fails self.new) };
}
