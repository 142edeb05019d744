//! Runs whose reader or writer fails, or takes little at a time.

use super::devices::{FailingReader, KINDS, ShortWriter};
use super::with_host;
use nagsched_jobs::check::{check, write_setup_line};
use nagsched_jobs::drill::drill;
use nagsched_protocol::{AnswerForm, DriveError, Outcome, Start};
use nagsched_run::drive::drive;
use nagsched_run::live::live;
use std::alloc::Global;
use std::io::ErrorKind;
use std::test::Fail;

const LINES: &str = "[\"take\",0]\n[\"take\",0]\n";

const TEXT: &[u8] = b"taken 1 h\nidle none\n";

#[test]
fn readers_fail(rt: HostRuntime) -> Result<(), Fail> {
    let alloc = rt.alloc();
    let input = with_host(alloc, LINES)?;
    for count in 0..=input.len() {
        for error in KINDS {
            let mut reader = FailingReader {
                bytes: &input.as_bytes()[..count],
                most: 7,
                error,
            };
            let mut writer = ShortWriter::new(alloc, 7);
            let result = drive(alloc, 0, &mut reader, &mut writer);
            assert_eq!(rt; result, Err(DriveError::Read));
            assert!(rt; writer.taken.is_empty());
        }
    }
    Ok(())
}

/// A run over this input, from the start 0 on.
fn drive_over(alloc: Global, input: &str, writer: &mut ShortWriter) -> Result<Outcome, DriveError> {
    drive(alloc, 0, &mut input.as_bytes(), writer)
}

#[test]
fn writers_fail(rt: HostRuntime) -> Result<(), Fail> {
    let alloc = rt.alloc();
    let input = with_host(alloc, LINES)?;
    for room in 0..TEXT.len() {
        for most in [1, 3, 100] {
            let mut writer = ShortWriter::new(alloc, most);
            writer.room = room;
            let result = drive_over(alloc, &input, &mut writer);
            assert_eq!(rt; result, Err(DriveError::Write));
            assert!(rt; writer.taken.as_slice() == &TEXT[..room]);
        }
    }
    Ok(())
}

#[test]
fn writer_takes_no_byte(rt: HostRuntime) -> Result<(), Fail> {
    let alloc = rt.alloc();
    for lines in [LINES, "["] {
        let input = with_host(alloc, lines)?;
        let mut writer = ShortWriter::new(alloc, 0);
        let result = drive_over(alloc, &input, &mut writer);
        assert_eq!(rt; result, Err(DriveError::Write));
        assert!(rt; writer.taken.is_empty());
    }
    Ok(())
}

/// A writer that takes one byte in each call gets the whole text, and one flush at the end.
#[test]
fn flushes_once(rt: HostRuntime) -> Result<(), Fail> {
    let alloc = rt.alloc();
    let refused = b"refused S2 NotJson 2\n".as_slice();
    for (lines, wanted, ended) in [
        ("", b"".as_slice(), Outcome::Ran),
        (LINES, TEXT, Outcome::Ran),
        ("[", refused, Outcome::Refused),
    ] {
        let input = with_host(alloc, lines)?;
        let mut writer = ShortWriter::new(alloc, 1);
        let result = drive_over(alloc, &input, &mut writer);
        assert_eq!(rt; result, Ok(ended));
        assert!(rt; writer.taken.as_slice() == wanted);
        assert_eq!(rt; (writer.flushes, writer.flushed), (1, wanted.len()));
    }
    Ok(())
}

/// A reader that fails after these bytes.
fn failing_reader(bytes: &[u8]) -> FailingReader<'_> {
    FailingReader {
        bytes,
        most: 7,
        error: ErrorKind::OutOfMemory,
    }
}

/// A writer that takes no byte and fails.
fn failing_writer(alloc: Global) -> ShortWriter {
    let mut writer = ShortWriter::new(alloc, 7);
    writer.room = 0;
    writer.error = ErrorKind::OutOfMemory;
    writer
}

/// Conversations, checks and drills report a reader that fails as `Read`. The program has one status for
/// both devices.
#[test]
fn each_job_reports_a_reader_that_fails(rt: HostRuntime) -> Result<(), Fail> {
    let alloc = rt.alloc();
    let input = with_host(alloc, LINES)?;
    let reader = &mut failing_reader(input.as_bytes());
    let good = &mut ShortWriter::new(alloc, 100);
    let talked = live(alloc, AnswerForm::Words, Start::Fresh(0), reader, good);
    assert_eq!(rt; talked, Err(DriveError::Read));
    for start in [Start::Fresh(0), Start::Resumed(None)] {
        let told = check(alloc, start, &mut failing_reader(b"{}"), good);
        assert_eq!(rt; told, Err(DriveError::Read));
    }
    let note = &mut String::new(alloc);
    let drilled = drill(
        &rt,
        alloc,
        0,
        1,
        100,
        &mut failing_reader(b"{}"),
        good,
        note,
    );
    assert_eq!(rt; drilled, Err(DriveError::Read));
    Ok(())
}

/// They report a writer that fails as `Write`.
#[test]
fn each_job_reports_a_writer_that_fails(rt: HostRuntime) -> Result<(), Fail> {
    let alloc = rt.alloc();
    let input = with_host(alloc, LINES)?;
    let writer = &mut failing_writer(alloc);
    let talked = live(
        alloc,
        AnswerForm::Words,
        Start::Fresh(0),
        &mut input.as_bytes(),
        writer,
    );
    assert_eq!(rt; talked, Err(DriveError::Write));
    let told = write_setup_line(alloc, &mut b"{}".as_slice(), writer);
    assert_eq!(rt; told, Err(DriveError::Write));
    let note = &mut String::new(alloc);
    let drilled = drill(&rt, alloc, 0, 1, 100, &mut b"{}".as_slice(), writer, note);
    assert_eq!(rt; drilled, Err(DriveError::Write));
    Ok(())
}
