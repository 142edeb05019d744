//! Sessions: the exit statuses of arguments over one host.

use super::devices::ShortWriter;
use super::with_host;
use nagsched_cli::session::{exit_status, session};
use std::alloc::Global;
use std::io::ErrorKind;
use std::sync::Wait;
use std::test::Fail;
use std::thread::Threads;

/// Two takes on the setup with one host, whose check is due at the scheduler's start.
const TAKES: &str = "[\"take\",7]\n[\"take\",7]\n";

/// The output of these takes from the start 0 or 7 on.
const TAKEN: &[u8] = b"taken 1 h\nidle none\n";

/// The status of a session with these arguments over this input, and the number of bytes that it leaves.
fn status_and_rest(
    rt: &(impl Threads + Wait + Sync),
    alloc: Global,
    words: &[&str],
    input: &str,
    writer: &mut ShortWriter,
) -> (u8, usize) {
    let mut reader = input.as_bytes();
    let mut note = String::new(alloc);
    let ended = session(rt, alloc, words, &mut reader, writer, &mut note);
    (exit_status(ended), reader.len())
}

/// Arguments that run, no arguments, and arguments that are refused. Refused ones leave the input as it
/// is.
#[test]
fn words_decide_the_status(rt: HostRuntime) -> Result<(), Fail> {
    let alloc = rt.alloc();
    let input = with_host(alloc, TAKES)?;
    for (words, status, text) in [
        (["nagsched", "run", "--start", "7"].as_slice(), 0, TAKEN),
        (["nagsched"].as_slice(), 0, TAKEN),
        ([].as_slice(), 0, TAKEN),
        (
            ["nagsched", "run", "--start", "x"].as_slice(),
            2,
            b"refused words\n",
        ),
    ] {
        let rest = if status == 2 { input.len() } else { 0 };
        let mut writer = ShortWriter::new(alloc, 100);
        let told = status_and_rest(&rt, alloc, words, &input, &mut writer);
        assert_eq!(rt; told, (status, rest));
        assert!(rt; writer.taken.as_slice() == text);
        assert_eq!(rt; writer.flushed, text.len());
        let mut writer = ShortWriter::new(alloc, 100);
        writer.flush_error = Some(ErrorKind::Other);
        let told = status_and_rest(&rt, alloc, words, &input, &mut writer);
        assert_eq!(rt; told, (3, rest));
    }
    Ok(())
}
