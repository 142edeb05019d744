//! Facts that no clause states and no drill of the program shows: the workers of a crew work at the same
//! time, what a plugin can do, crews without one of the passes, and how the library is embedded.

ghost use Rattle.std.specs.Prelude.{⊤};

mod embedding;
mod own_threads;
mod spending;
mod visiting;

use crate::openings::{
    MOST_CALLS, ONE_SERVICE, TWO_SERVICES, close_desk, one_pass, open_desk, two_passes,
};
use check_states::Code;
use check_workers::{CrewError, Plugin, Tally, crew, work};
use std::hint::spin_loop;
use std::sync::atomic::AtomicU64;
use std::sync::atomic::Ordering::SeqCst;
use std::test::Fail;
use ticket_steps::Kept;

/// Two hosts that are due at 0. The first depends on the second, and fails if that was never checked.
const FIRST_ON_PENDING: &[u8] =
    br#"{"options":{"host_inter_check_delay_method":"n"},"hosts":[{"name":"a","max_check_attempts":3},{"name":"b","max_check_attempts":3}],"host_dependencies":[{"dependent":"a","master":"b","criteria":"p"}]}"#;

/// How often a check looks whether another check has begun, before it stops looking.
const LOOKS: u32 = 1_000_000_000;

/// No run finds a problem.
struct AlwaysOk;

impl Plugin for AlwaysOk {
    ghost allows = { λ self object run now code. ⊤ };

    fn check(&self, _object: u32, _run: u64, _now: u64) -> Code {
        Code::Ok
    }
}

/// Counts its calls; no run finds a problem.
#[derive(Drop)]
struct Counting {
    calls: AtomicU64,
}

impl Plugin for Counting {
    ghost allows = { λ self object run now code. ⊤ };

    fn check(&self, _object: u32, _run: u64, _now: u64) -> Code {
        self.calls.fetch_add(1, SeqCst);
        Code::Ok
    }
}

/// Two checks that wait for each other: each ends when both have begun, or after the last look.
#[derive(Drop)]
struct Meeting {
    begun: AtomicU64,
    given_up: AtomicU64,
}

impl Meeting {
    /// Whether two checks have begun before the last look.
    fn has_met(&self) -> bool {
        for _look in 0..LOOKS {
            if self.begun.load(SeqCst) == 2 {
                return true;
            }
            spin_loop();
        }
        false
    }
}

impl Plugin for Meeting {
    ghost allows = { λ self object run now code. ⊤ };

    fn check(&self, _object: u32, _run: u64, _now: u64) -> Code {
        self.begun.fetch_add(1, SeqCst);
        if !self.has_met() {
            self.given_up.fetch_add(1, SeqCst);
        }
        Code::Ok
    }
}

/// At the first moment a host is put off, and at the second its master is taken. The plugin is called only
/// for the check that was taken.
#[test]
fn no_plugin_is_called_for_what_is_put_off(rt: HostRuntime) -> Result<(), Fail> {
    let (desk, pass) = one_pass(rt.alloc(), FIRST_ON_PENDING)?;
    let plugin = Counting {
        calls: AtomicU64::new(0),
    };
    let (_pass, tally, _open) = work(&rt, &desk, pass, &plugin, &[0, 0]);
    assert_eq!(rt; (tally.put_off, tally.taken, tally.reported), (1, 1, 1));
    assert_eq!(rt; plugin.calls.load(SeqCst), 1);
    Ok(())
}

#[test]
fn a_crew_without_a_pass_gives_the_desk_back(rt: HostRuntime) -> Result<(), Fail> {
    let alloc = rt.alloc();
    let (desk, pass) = one_pass(alloc, ONE_SERVICE)?;
    let none = Vec::new(alloc);
    match crew(&rt, alloc, desk, none, &AlwaysOk, &[0]) {
        Err(CrewError::NoPass(desk)) => {
            let book = close_desk(&rt, desk, pass);
            assert_eq!(rt; book.entries().len(), 0);
            Ok(())
        }
        _ => Err(Fail::from("a crew of nobody")),
    }
}

#[test]
fn a_crew_lacks_a_pass_of_the_desk(rt: HostRuntime) -> Result<(), Fail> {
    let alloc = rt.alloc();
    let (desk, first, second) = two_passes(alloc, TWO_SERVICES)?;
    let mut passes = Vec::new(alloc);
    passes.push(first)?;
    match crew(&rt, alloc, desk, passes, &AlwaysOk, &[0]) {
        Err(CrewError::Missing(desk, pass)) => {
            assert_eq!(rt; (pass.number(), pass.gathered(), pass.calls()), (0, 1, 2));
            let pass = desk.gather(second, pass);
            let book = close_desk(&rt, desk, pass);
            assert_eq!(rt; book.entries().len(), 2);
            Ok(())
        }
        _ => Err(Fail::from("no pass is missing")),
    }
}

/// If the workers worked one after another, the first would wait in vain for the second's check.
#[test]
fn the_workers_of_a_crew_work_at_the_same_time(rt: HostRuntime) -> Result<(), Fail> {
    let alloc = rt.alloc();
    let (desk, passes) = open_desk(alloc, TWO_SERVICES, 2, MOST_CALLS)?;
    let meeting = Meeting {
        begun: AtomicU64::new(0),
        given_up: AtomicU64::new(0),
    };
    let Ok((book, tally)) = crew(&rt, alloc, desk, passes, &meeting, &[0]) else {
        return Err(Fail::from("no memory for the threads"));
    };
    assert_eq!(rt; meeting.given_up.load(SeqCst), 0);
    assert_eq!(rt; book.entries().len(), 4);
    assert_eq!(rt; (tally.taken, tally.reported, tally.stops), (2, 2, 0));
    Ok(())
}

/// The program has no drill of more than 64 workers, and a crew has no such limit. Whichever worker takes
/// the two services, each is checked once: at the second moment neither is due.
#[test]
fn a_crew_of_sixty_five(rt: HostRuntime) -> Result<(), Fail> {
    let alloc = rt.alloc();
    let (desk, passes) = open_desk(alloc, TWO_SERVICES, 65, MOST_CALLS)?;
    let Ok((book, tally)) = crew(&rt, alloc, desk, passes, &AlwaysOk, &[0, 60_000]) else {
        return Err(Fail::from("no memory for the threads"));
    };
    let two_runs = Tally {
        takes: 130,
        taken: 2,
        idle: 128,
        reports: 2,
        reported: 2,
        ..Tally::default()
    };
    assert_eq!(rt; tally, two_runs);
    assert_eq!(rt; (book.entries().len(), book.refused()), (132, 0));
    Ok(())
}
