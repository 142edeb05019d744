#![tactic(auto)]
//! The program `nagsched` reads standard input, and writes to standard output. `run` reads a setup and a script,
//! and writes a line for each reply. `live` reads a setup, and answers each later line when it arrives. `check`
//! reads a setup, and reports its figures or why it is refused. `drill` reads a setup and a script for many
//! workers, and writes the history that they made. `schema` reads nothing, and writes the JSON schema of a setup.
//!
//! This crate has the program's arguments and streams. `session` of `nagsched_cli` does the work.

ghost use Rattle.std.specs.Prelude.{◌≡◌, IfOk, map, string_bytes};
ghost use Rattle.clap.specs.Walk.{texts};

mod device;
#[cfg(test)]
mod sessions;

use crate::device::Device;
use nagsched_cli::arguments::Job;
use nagsched_cli::devices::{Stream, explain_device};
use nagsched_cli::explanation::explain_arguments;
use nagsched_cli::job::job;
use nagsched_cli::session::{Ending, exit_status, refuse_words, session};
use nagsched_protocol::DriveError;
use std::alloc::{AllocError, Global};
use std::fs::Files;
use std::io::{BufWriter, ErrorKind, Write};
use std::process::ExitCode;
use std::rt::Env;
use std::sync::Wait;
use std::thread::Threads;
use std::{env, fs, io};

fn main(rt: HostRuntime) -> ExitCode {
    ExitCode::from(run_program(&rt))
}

/// The session for the program's arguments, from standard input to standard output. Writes are
/// gathered, and flushed once at the end. `live` also flushes before it reads again. Arguments that aren't
/// text are refused. Standard error says in one sentence why arguments or the input of `run` or `drill` are
/// refused, and which stream failed.
fn run_program<R: Env + Files + Input + Print + Eprint + AllocGlobal + Threads + Wait + Sync>(
    rt: &R,
) -> u8 {
    let alloc = rt.alloc();
    let Ok(writer) = BufWriter::new(alloc, io::writer(rt)) else {
        return exit_status(Err(DriveError::Memory));
    };
    let mut output = Device::new(writer);
    match env::args(rt) {
        Ok(args) => {
            let Ok(args) = args.collect::<Vec<String>>(alloc) else {
                return exit_status(Err(DriveError::Memory));
            };
            let Ok(words) = texts_of(alloc, &args) else {
                return exit_status(Err(DriveError::Memory));
            };
            run_session(rt, alloc, &words, &mut output)
        }
        Err(e) if e.kind() == ErrorKind::OutOfMemory => exit_status(Err(DriveError::Memory)),
        Err(_) => {
            let ended = refuse_words(&mut output).map(|()| Ending::RefusedWords);
            explain_words(rt, "the arguments must be UTF-8 text");
            exit_status(ended)
        }
    }
}

/// The session for these arguments, from standard input to this output.
fn run_session<R: Files + Input + Eprint + AllocGlobal + Threads + Wait + Sync, W: Write>(
    rt: &R,
    alloc: Global,
    words: &[&str],
    output: &mut Device<W>,
) -> u8 {
    if reads_input(alloc, words) && is_terminal(rt) {
        say(
            rt,
            "it waits for a setup; Ctrl-D ends the input; try: nagsched --help",
        );
    }
    let mut input = Device::new(rt.reader());
    let mut note = String::new(alloc);
    let ended = session(rt, alloc, words, &mut input, output, &mut note);
    if !note.is_empty() {
        say(rt, note.as_str());
    }
    match ended {
        Ok(Ending::RefusedWords) => {
            if let Ok(text) = explain_arguments(alloc, words) {
                explain_words(rt, text.as_str());
            }
        }
        Err(DriveError::Read) => explain_stream(rt, alloc, Stream::Input, input.error()),
        Err(DriveError::Write) => explain_stream(rt, alloc, Stream::Output, output.error()),
        _ => {}
    }
    exit_status(ended)
}

/// Whether these arguments ask for a job that reads an input.
fn reads_input(alloc: Global, words: &[&str]) -> bool {
    match job(alloc, words) {
        Ok(Job::Schema) | Err(_) => false,
        Ok(_) => true,
    }
}

/// Whether standard input is a terminal, by the name that Linux gives it.
fn is_terminal<R: Files + AllocGlobal>(rt: &R) -> bool {
    match fs::read_link(rt, "/proc/self/fd/0") {
        Ok(name) => {
            name.as_str().starts_with("/dev/pts/") || name.as_str().starts_with("/dev/tty")
        }
        Err(_) => false,
    }
}

/// Says on standard error why the arguments are refused. If it can't be written, nothing is said.
fn explain_words<R: Eprint>(rt: &R, text: &str) {
    let _ = rt.eprintln(format_args!("nagsched: {text}; try: nagsched --help"));
}

/// Says on standard error which stream failed. If it can't be written, nothing is said.
fn explain_stream<R: Eprint>(rt: &R, alloc: Global, stream: Stream, kind: Option<ErrorKind>) {
    if let Ok(text) = explain_device(alloc, stream, kind) {
        say(rt, text.as_str());
    }
}

/// Says this on standard error. If it can't be written, nothing is said.
fn say<R: Eprint>(rt: &R, text: &str) {
    let _ = rt.eprintln(format_args!("nagsched: {text}"));
}

/// The words as texts, all of them, in their order.
fn texts_of(alloc: Global, words: &[String]) -> Result<Vec<&str>, AllocError>
    ensures { IfOk result (λ given. texts given.items ≡ map string_bytes words.now) }
{
    let mut texts = Vec::new(alloc);
    for word in words {
        texts.push(word.as_str())?;
    }
    Ok(texts)
}
