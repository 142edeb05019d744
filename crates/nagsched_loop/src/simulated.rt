//! The simulated environment of the loop. Its clock advances only while the loop sleeps, and its machines
//! answer after seconds or never. It also has an operator, a setup that changes, and files in memory.

ghost use Rattle.std.specs.Prelude.{⊤, ◌≢◌, option_map};

use crate::environment::{End, Environment, Event, Files};
use crate::fault::Fault;
use crate::machines::{
    ANSWER, CHANGED_ROOM, GATEWAY, HOUR, MACHINE_ROOM, OBJECTS, code_at, morning, next_noon,
};
use crate::output;
use check_objects::Setup;
use check_sched::{Call, LAST_MOMENT, Reply};
use std::alloc::Global;
use std::io::Write;
use ticket_steps::Entry;

/// A report that comes in later.
#[derive(Clone, Copy)]
struct Pending {
    time: u64,
    call: Call,
}

/// The clock, the machines and the operator of some days. After half of the days another setup is used.
#[derive(Drop)]
pub(crate) struct Days {
    now: u64,
    noon: u64,
    change: Option<u64>,
    end: u64,
    pending: [Option<Pending>; OBJECTS],
}

impl Days {
    pub(crate) fn of(days: u32) -> Days {
        Days {
            now: 0,
            noon: next_noon(0),
            change: Some(morning(days) / 2),
            end: morning(days),
            pending: [None; OBJECTS],
        }
    }

    /// The next report that has come in.
    fn report(&self) -> Option<Call> {
        for object in 0..OBJECTS {
            if let Some(Pending { time, call }) = self.pending[object] {
                if time <= self.now {
                    return Some(call);
                }
            }
        }
        None
    }

    /// The time of the next event: a report, a call of the operator, the change of the setup, or the end.
    fn next(&self) -> u64 {
        let mut next = self.noon.min(self.end);
        if let Some(change) = self.change {
            next = next.min(change);
        }
        for object in 0..OBJECTS {
            if let Some(pending) = self.pending[object] {
                next = next.min(pending.time);
            }
        }
        next
    }
}

impl Environment for Days {
    ghost does = { λ before deed after. ⊤ };

    fn now(&mut self) -> u64 {
        self.now.min(LAST_MOMENT)
    }

    /// A check takes some seconds. Sometimes a machine doesn't answer, or its plugin can't be started.
    fn begin(&mut self, object: u32, run: u64, now: u64) -> bool {
        if run % 31 == 0 {
            return false;
        }
        let Some(place) = self.pending.get_mut(object as usize) else {
            return false;
        };
        if run % 17 != 0 {
            let code = code_at(object, now);
            *place = Some(Pending {
                time: now.saturating_add((1 + u64::from(object % 4)) * ANSWER),
                call: Call::Report { object, run, code },
            });
        }
        true
    }

    fn next_event(&mut self) -> Option<Event> {
        if let Some(call) = self.report() {
            return Some(Event::Call(call));
        }
        if self.now >= self.end {
            return Some(Event::Ends(End::Program));
        }
        if self.now >= self.noon {
            let time = self.noon.saturating_add(HOUR);
            return Some(Event::Call(Call::Reschedule {
                object: GATEWAY,
                time,
                forced: true,
            }));
        }
        match self.change {
            Some(change) if self.now >= change => {
                self.change = None;
                self.pending = [None; OBJECTS];
                Some(Event::Ends(End::Setup))
            }
            _ => None,
        }
    }

    fn accept_reply(&mut self, call: Call, _reply: Reply) {
        match call {
            Call::Report { object, .. } => {
                if let Some(place) = self.pending.get_mut(object as usize) {
                    *place = None;
                }
            }
            _ => self.noon = next_noon(self.noon),
        }
    }

    fn sleep(&mut self, until: u64) {
        self.now = self.now.max(until.min(self.next()));
    }
}

/// Files in memory, whose texts and history are written to a writer.
#[derive(Drop)]
pub(crate) struct Memory<W: Write> {
    alloc: Global,
    writer: W,
    is_changed: bool,
    text: Option<Vec<u8>>,
}

impl<W: Write> Memory<W> {
    pub(crate) fn empty(alloc: Global, writer: W) -> Memory<W> {
        Memory {
            alloc,
            writer,
            is_changed: false,
            text: None,
        }
    }

    /// Ends the writing.
    pub(crate) fn flush(&mut self) -> Result<(), Fault> {
        match self.writer.flush() {
            Ok(()) => Ok(()),
            Err(_fault) => Err(Fault::Output),
        }
    }
}

impl<W: Write> Files for Memory<W> {
    ghost use Rattle.nagsched_loop.specs.declared.fault.Fault.TheVariants as fault;

    ghost stored = { λ files. option_map (λ text. text.items) files.text };

    ghost gives = { λ setup. ⊤ };

    ghost past = { λ setup history. ⊤ };

    ghost fails = { λ files error. error ≢ fault.Words };

    /// The room's setup first, and then the changed one.
    fn setup(&mut self, alloc: Global) -> Result<Setup, Fault> {
        let document = if self.is_changed {
            CHANGED_ROOM
        } else {
            MACHINE_ROOM
        };
        self.is_changed = true;
        output::write(&mut self.writer, document)?;
        output::write(&mut self.writer, "\n")?;
        Ok(Setup::read(alloc, document.as_bytes())?)
    }

    fn state(&self, _alloc: Global) -> Result<Option<Vec<u8>>, Fault> {
        match &self.text {
            Some(text) => Ok(Some(text.clone()?)),
            None => Ok(None),
        }
    }

    fn end_generation(
        &mut self,
        setup: &Setup,
        entries: &[Entry<Call, Reply>],
        text: &[u8],
    ) -> Result<(), Fault> {
        self.text = Some(text.to_vec(self.alloc)?);
        output::write_bytes(&mut self.writer, text)?;
        output::write(&mut self.writer, "\n")?;
        output::write_entries(self.alloc, setup, entries, &mut self.writer)
    }
}
