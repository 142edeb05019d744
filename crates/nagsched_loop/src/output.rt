//! The report of a generation: its entries as lines that `nagsched run` reads and writes.

ghost use Rattle.std.specs.Prelude.{◌≡◌, ◌⊎◌, IfErr};

use crate::fault::Fault;
use check_objects::Setup;
use check_sched::{Call, Reply};
use nagsched_protocol::push_entry;
use std::alloc::{AllocError, Global};
use std::io::Write;
use ticket_steps::Entry;

/// Writes entries, one line for each.
pub(crate) fn write_entries<W: Write>(
    alloc: Global,
    setup: &Setup,
    entries: &[Entry<Call, Reply>],
    writer: &mut W,
) -> Result<(), Fault>
    ensures { IfErr result (λ fault. (fault ≡ Fault.Output) ⊎ (fault ≡ Fault.Memory)) }
{
    let mut line = String::new(alloc);
    for entry in entries {
        line.clear();
        push_call(&mut line, setup, entry.call)?;
        line.push_str("\t")?;
        push_entry(&mut line, setup, entry)?;
        write(writer, line.as_str())?;
    }
    Ok(())
}

/// Appends a call as a command of `nagsched run`. The room's names have no character that JSON escapes.
fn push_call(line: &mut String, setup: &Setup, call: Call) -> Result<(), AllocError> {
    match call {
        Call::Take { now } => write!(*line, "[\"take\",{now}]"),
        Call::Report { object, run, code } => {
            let (name, code) = (name_of(setup, object), code.number());
            write!(*line, "[\"report\",\"{name}\",{run},{code}]")
        }
        Call::Abandon { object, run, now } => {
            let name = name_of(setup, object);
            write!(*line, "[\"abandon\",\"{name}\",{run},{now}]")
        }
        Call::Reschedule {
            object,
            time,
            forced,
        } => {
            let name = name_of(setup, object);
            write!(*line, "[\"reschedule\",\"{name}\",{time},{forced}]")
        }
        Call::Enable { object, on } => {
            let name = name_of(setup, object);
            write!(*line, "[\"enable\",\"{name}\",{on}]")
        }
        Call::Status { object } => {
            let name = name_of(setup, object);
            write!(*line, "[\"status\",\"{name}\"]")
        }
    }
}

/// The full name of an object, or an empty text if the setup has no object of this number.
fn name_of(setup: &Setup, object: u32) -> &str {
    if (object as usize) < setup.len() {
        setup.name(object)
    } else {
        ""
    }
}

/// Writes a text.
pub(crate) fn write<W: Write>(writer: &mut W, text: &str) -> Result<(), Fault>
    ensures { IfErr result (λ fault. fault ≡ Fault.Output) }
{
    write_bytes(writer, text.as_bytes())
}

/// Writes a text, as bytes.
pub(crate) fn write_bytes<W: Write>(writer: &mut W, text: &[u8]) -> Result<(), Fault>
    ensures { IfErr result (λ fault. fault ≡ Fault.Output) }
{
    match writer.write_all(text) {
        Ok(()) => Ok(()),
        Err(_fault) => Err(Fault::Output),
    }
}
