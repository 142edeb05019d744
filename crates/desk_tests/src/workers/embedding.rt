//! How a monitoring team embeds the library: its own plugin, a setup, four workers, and a look at
//! the book.

ghost use Rattle.std.specs.Prelude.{⊤};

use check_book::Book;
use check_desk::Desk;
use check_objects::Setup;
use check_sched::Reply;
use check_states::Code;
use check_workers::{Plugin, Tally, crew};
use std::alloc::Global;
use std::sync::Wait;
use std::test::Fail;
use std::thread::Threads;
use ticket_steps::Kept;

/// A machine room and its four thermometers, which are objects 1 to 4 in the order of their names.
/// Each is read every 5 minutes, and every minute while a problem is to be confirmed.
const MACHINE_ROOM: &[u8] = br#"{
    "options": {"service_inter_check_delay_method": "n"},
    "hosts": [{"name": "room", "check_interval": 0, "max_check_attempts": 1}],
    "services": [
        {"host": "room", "description": "ceiling", "max_check_attempts": 3},
        {"host": "room", "description": "door", "max_check_attempts": 3},
        {"host": "room", "description": "floor", "max_check_attempts": 3},
        {"host": "room", "description": "rack", "max_check_attempts": 3}
    ]
}"#;

/// The team's plugin: what each thermometer reads, in degrees, by its object's number. From 30
/// degrees on that is a warning, and from 40 on critical.
#[derive(Drop)]
struct Thermometers {
    degrees: [u8; 5],
}

impl Plugin for Thermometers {
    ghost allows = { λ self object run now code. ⊤ };

    fn check(&self, object: u32, _run: u64, _now: u64) -> Code {
        match self.degrees.get(object as usize) {
            Some(0..30) => Code::Ok,
            Some(30..40) => Code::Warning,
            Some(_) => Code::Critical,
            None => Code::Unknown,
        }
    }
}

/// Lets four workers work at three moments. Returns the book and the counts of the answers.
fn watch_room(rt: &(impl Threads + Wait + Sync), alloc: Global) -> Result<(Book, Tally), Fail> {
    let setup = Setup::read(alloc, MACHINE_ROOM)?;
    let Ok(book) = Book::open(alloc, setup, 0, 1_000) else {
        return Err(Fail::from("no memory for the book"));
    };
    let Ok((desk, passes)) = Desk::open(alloc, book, 4) else {
        return Err(Fail::from("no memory for the desk"));
    };
    let plugin = Thermometers {
        degrees: [0, 24, 22, 31, 42],
    };
    let moments = [0, 60_000, 120_000];
    let Ok((book, tally)) = crew(rt, alloc, desk, passes, &plugin, &moments) else {
        return Err(Fail::from("no memory for the threads"));
    };
    Ok((book, tally))
}

/// The number of checks that were taken.
fn count_taken(book: &Book) -> usize {
    let is_taken = |reply: Reply| matches!(reply, Reply::Taken { .. });
    book.entries()
        .iter()
        .filter(|entry| is_taken(entry.reply))
        .count()
}

#[test]
fn a_team_embeds_it(rt: HostRuntime) -> Result<(), Fail> {
    let (book, tally) = watch_room(&rt, rt.alloc())?;
    let taken = count_taken(&book) as u64;
    assert!(rt; taken >= 4, "each thermometer was read");
    assert_eq!(rt; (tally.takes, tally.stops), (12, 0));
    assert_eq!(rt; (tally.taken, tally.reported), (taken, taken));
    assert_eq!(rt; book.entries().len() as u64, taken.wrapping_add(12));
    Ok(())
}
