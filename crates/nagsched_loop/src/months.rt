//! The whole loop of a program that monitors for months. It resumes the stored state, and works at a desk
//! round by round. It stores the state from time to time and at the end, and changes to other setups.
//!
//! Other modules:
//! - `environment`: the traits that the program implements;
//! - `round`: a round;
//! - `runs`: the list of the running checks, and the time limits;
//! - `resuming`: the text of a state.

ghost use Rattle.std.specs.Prelude.{◌≡◌, ◌⊎◌, ◌/◌, List, [], IfErr, IfOk, OnErr};
ghost use Rattle.ticket_steps.specs.declared.books.Entry.{Entry};
ghost use Rattle.check_book.specs.Books.{entries_of, refused_of, sched_of};
ghost use Rattle.check_desk.specs.Desks.{IsPassOf};
ghost use Rattle.check_desk.specs.Passes.{pass_of};
ghost use Rattle.check_sched.specs.declared.call.Call.{Call};
ghost use Rattle.check_sched.specs.declared.call.Reply.{Reply};
ghost use Rattle.nagsched_loop.specs.Faults.{IsLoopFault};
ghost use Rattle.nagsched_loop.specs.Loop.{KeepsOtherRuns, IsReturned};
ghost use Rattle.nagsched_loop.specs.Months.{IsGeneration, IsGenerationText, IsMonitored, IsSavedText};
ghost use Rattle.nagsched_loop.specs.Months.{IsTextOfSetup, IsTextSince, IsWatched};
ghost use Rattle.nagsched_loop.specs.Work.{HasWorked};

use crate::environment::{End, Environment, Files};
use crate::fault::Fault;
use crate::resuming::{begin, saved_text};
use crate::round::{GenerationEnd, Round};
use crate::runs::{Run, running_checks};
use check_book::Book;
use check_desk::{Desk, Pass};
use std::alloc::Global;
use std::sync::Wait;
use ticket_steps::Kept;

/// Monitors until the program is to end, and returns the book. The text that was stored last is that of the
/// book's state. To change to another setup, the loop begins again as after a restart: from the stored state,
/// over the new setup.
///
/// The number of rounds of a generation is half the room of its book. With a room of 0 or 1 a generation has
/// no rounds, and no check is ever taken.
///
/// An error loses no saved state. The text that is stored then is the one from before, or the text of the state
/// at the end of a generation since. The error is that of the call of `files` that failed, and no other
/// call followed. Otherwise memory ran out, or the text from before isn't a saved state.
pub(crate) fn watch_months<O: Environment, F: Files>(
    rt: &impl Wait,
    alloc: Global,
    environment: &mut O,
    files: &mut F,
    room: usize,
) -> Result<Book, Fault>
    ensures stored { IfOk result (λ book. IsSavedText (sched_of book) (F.stored files.new)) }
    ensures watched { IfOk result (λ book. IsMonitored O.does F.gives F.past (room / 2)
        (F.stored files.old) (sched_of book) environment.old environment.new) }
    ensures kept { IsTextSince O.does F.gives F.past (room / 2) (F.stored files.old) (F.stored files.new) }
    ensures fault { IfErr result (λ fault.
        IsLoopFault (F.stored files.old) fault ⊎ F.fails files.new fault) }
{
    for _ in rt.forever() {
        let Watched {
            book,
            end,
            runs: _runs,
        } = watch_setup(rt, alloc, environment, files, room)?;
        match end {
            End::Program => return Ok(book),
            End::Setup | End::Renewal => {}
        }
    }
    unreachable!()
}

/// The end of the monitoring over one setup: the book, the reason, and the list of the running checks.
#[derive(Drop)]
struct Watched {
    book: Book,
    end: End,
    runs: Vec<Run>,
}

/// Monitors over one setup, one generation after another. The checks that were running when the state was
/// stored are past their limit at once, because their plugins no longer run. None of them is forgotten: each
/// stays in the list until a call reports or abandons it.
fn watch_setup<O: Environment, F: Files>(
    rt: &impl Wait,
    alloc: Global,
    environment: &mut O,
    files: &mut F,
    room: usize,
) -> Result<Watched, Fault>
    ensures stored { IfOk result (λ made. IsSavedText (sched_of made.book) (F.stored files.new)) }
    ensures watched { IfOk result (λ made. IsWatched O.does F.gives F.past (room / 2)
        (F.stored files.old) made.end (sched_of made.book) made.runs.items environment.old environment.new) }
    ensures kept { OnErr result ((F.stored files.new ≡ F.stored files.old)
        ⊎ IsTextOfSetup O.does F.gives F.past (room / 2) (F.stored files.old) environment.old
        (F.stored files.new)) }
    ensures fault { IfErr result (λ fault.
        IsLoopFault (F.stored files.old) fault ⊎ F.fails files.new fault) }
{
    let start = environment.now();
    let setup = files.setup(alloc)?;
    let stored = files.state(alloc)?;
    let mut book = begin(alloc, setup, stored, start, room)?;
    let mut runs = running_checks(alloc, &book, start)?;
    for _ in rt.forever() {
        let (next, end) = generation(rt, alloc, book, environment, files, &mut runs, room)?;
        book = match end {
            End::Renewal => next,
            End::Setup | End::Program => {
                return Ok(Watched {
                    book: next,
                    end,
                    runs,
                });
            }
        };
    }
    unreachable!()
}

/// One generation: opens a desk on the book, works there, closes the desk, hands the state and the history to
/// the files, and renews the book. The plugins continue meanwhile.
fn generation<O: Environment, F: Files>(
    rt: &impl Wait,
    alloc: Global,
    book: Book,
    environment: &mut O,
    files: &mut F,
    runs: &mut Vec<Run>,
    room: usize,
) -> Result<(Book, End), Fault>
    requires { (entries_of book ≡ []) × (refused_of book ≡ 0) }
    ensures empty { IfOk result (λ made. (entries_of made.0 ≡ []) × (refused_of made.0 ≡ 0)) }
    ensures stored { IfOk result (λ made. IsSavedText (sched_of made.0) (F.stored files.new)) }
    ensures generation_ended { IfOk result (λ made. (history : List (Entry Call Reply))
        × IsGeneration O.does F.past (room / 2) made.1 history (sched_of book) (sched_of made.0)
        runs.old.items runs.new.items environment.old environment.new
        × KeepsOtherRuns history runs.old.items runs.new.items) }
    ensures kept { OnErr result ((F.stored files.new ≡ F.stored files.old)
        ⊎ IsGenerationText F.past (sched_of book) (F.stored files.new)) }
    ensures fault { IfErr result (λ fault. (fault ≡ Fault.Memory) ⊎ F.fails files.new fault) }
{
    let Ok((desk, mut passes)) = Desk::open(alloc, book, 1) else {
        return Err(Fault::Memory);
    };
    let Some(pass) = passes.pop() else {
        unreachable!()
    };
    let GenerationEnd { pass, end } = watch(rt, &desk, pass, environment, runs, room / 2);
    let Ok(book) = desk.close(pass) else {
        unreachable!()
    };
    let text = saved_text(alloc, &book)?;
    files.end_generation(book.sched().setup(), book.entries(), &text)?;
    let Ok((book, _entries)) = book.renew(alloc, room) else {
        return Err(Fault::Memory);
    };
    Ok((book, end))
}

/// Works at a desk by one pass, for at most `rounds` rounds. If several threads work at a desk, each has
/// a pass, an environment and a list of runs of its own.
fn watch<O: Environment>(
    rt: &impl Wait,
    desk: &Desk,
    pass: Pass,
    environment: &mut O,
    runs: &mut Vec<Run>,
    rounds: usize,
) -> GenerationEnd
    requires { IsPassOf desk.now pass }
    ensures returned { IsReturned desk.now (pass_of pass) runs.old.items runs.new.items result.pass }
    ensures worked { HasWorked O.does rounds result.end (pass_of pass) (pass_of result.pass)
        runs.old.items runs.new.items environment.old environment.new }
{
    let mut pass = pass;
    for _round in 0..rounds {
        let round = Round {
            rt,
            desk,
            moment: environment.now(),
        };
        pass = match round.run(pass, environment, runs) {
            Ok(pass) => pass,
            Err(ended) => return ended,
        };
    }
    let end = End::Renewal;
    GenerationEnd { pass, end }
}
