#![tactic(auto)]
//! The program `nagsched_loop` monitors a simulated machine room for some days. It shows embedders how a desk
//! runs for months. It runs the loop of `months`, which a program that embeds the scheduler can use
//! unchanged. The clock, the machines and the operator are simulated: some machines answer late or never, and
//! the setup changes after half of the days.
//!
//! The argument is the number of days, 1 to 10,000. The program writes each setup that it uses, as one line.
//! For each generation it writes the stored state, as one line. Then it writes a line for each entry. The
//! line has the call as `nagsched run` reads it, a tab, the number of the pass that made the call, and the
//! reply as `nagsched run` writes it.
//!
//! The exit statuses:
//! - 0: success;
//! - 2: the argument is wrong;
//! - 3: the output can't be written;
//! - 4: memory runs out;
//! - 5: a setup or a stored state is refused.
//!
//! The modules:
//! - `months`: the loop; `round`: a round of it;
//! - `environment`: the traits for the loop's environment; `simulated`: the simulated environment;
//! - `runs`: the running checks; `resuming`: the saved text;
//! - `machines`: the setups and the machines;
//! - `output`: the lines of output; `fault`: the errors.

mod environment;
mod fault;
mod machines;
mod months;
mod output;
mod resuming;
mod round;
mod runs;
mod simulated;

use fault::Fault;
use months::watch_months;
use simulated::{Days, Memory};
use std::alloc::Global;
use std::io::{BufWriter, ErrorKind};
use std::process::ExitCode;
use std::rt::Env;
use std::sync::Wait;
use std::{env, io};

/// The greatest number of days.
const MAX_DAYS: u32 = 10_000;

/// The number of entries for which the book of a generation has room.
const ROOM: usize = 200;

fn main(rt: HostRuntime) -> ExitCode {
    match watch(&rt) {
        Ok(()) => ExitCode::SUCCESS,
        Err(fault) => ExitCode::from(fault.status()),
    }
}

/// Monitors the room for the number of days in the argument, and writes everything to standard output.
fn watch<R: Env + Print + AllocGlobal + Wait>(rt: &R) -> Result<(), Fault> {
    let alloc = rt.alloc();
    let mut environment = Days::of(read_days(rt, alloc)?);
    let Ok(writer) = BufWriter::new(alloc, io::writer(rt)) else {
        return Err(Fault::Memory);
    };
    let mut files = Memory::empty(alloc, writer);
    watch_months(rt, alloc, &mut environment, &mut files, ROOM)?;
    files.flush()
}

/// Reads the number of days from the argument. An Err is `Words` or `Memory`.
fn read_days<R: Env + AllocGlobal>(rt: &R, alloc: Global) -> Result<u32, Fault> {
    let args = match env::args(rt) {
        Ok(args) => args,
        Err(e) if e.kind() == ErrorKind::OutOfMemory => return Err(Fault::Memory),
        Err(_no_text) => return Err(Fault::Words),
    };
    let words = args.collect::<Vec<String>>(alloc)?;
    let [_program, days] = words.as_slice() else {
        return Err(Fault::Words);
    };
    match days.as_str().parse::<u32>() {
        Ok(days) if 0 < days && days <= MAX_DAYS => Ok(days),
        _ => Err(Fault::Words),
    }
}
