//! Many workers on one desk.

ghost use Rattle.std.specs.Prelude.{◌≡◌, ℕ, ◌+◌, ◌*◌, ◌<◌, ◌≤◌, [], List, length, IfOk, IfErr};
ghost use Rattle.std.specs.List.{All};
ghost use mathlib.Core.List.{IsPrefix};
ghost use Rattle.ticket_steps.specs.History.{of};
ghost use Rattle.ticket_steps.specs.Books.{book_state, IsLawfulBook};
ghost use Rattle.check_book.specs.BookState.{book_step};
ghost use Rattle.check_book.specs.Books.{entries_of, opening_of, refused_of, state_of};
ghost use Rattle.check_desk.specs.Desks.{IsHistoryOf, IsPassOf, desk_opening, passes_of};
ghost use Rattle.check_desk.specs.Passes.{pass_of};
ghost use Rattle.check_workers.specs.Crews.{AreGathered, AreShiftsOf, AreWorkerResults, HaveCallsLeft, IsTallied, IsWorkerResult, MatchCrewError};
ghost use Rattle.check_workers.specs.Crews.{MatchGathered};
ghost use Rattle.check_workers.specs.Crews.{calls_counted, calls_of_passes, pass_count, pass_numbers, tally_of_all};
ghost use Rattle.check_workers.specs.Shifts.{Shift};
ghost use Rattle.check_workers.specs.Tallies.{IsSum};

use crate::plugin::Plugin;
use crate::tally::Tally;
use crate::worker::work;
use check_book::Book;
use check_desk::{Desk, Pass};
use std::alloc::{AllocError, Global};
use std::sync::Wait;
use std::thread;
use std::thread::Threads;

/// Why a crew returns no book. The desk comes back as it was.
#[derive(Drop)]
pub enum CrewError {
    /// The list had no pass, and so there was no worker.
    NoPass(Desk),
    /// All workers have done their work and returned, but the list didn't have all passes of the desk. The
    /// desk can't be closed until the other passes are gathered too. All passes of the list are gathered in
    /// this one.
    Missing(Desk, Pass),
    /// Out of memory for the threads. Some workers may have worked and others not. All that started have
    /// returned. Their passes are lost, so the desk can never be closed.
    NoThread(Desk),
}

/// One worker for each pass of the list works at each moment of the whole list ([`work`]). One worker runs in
/// the caller's thread, and each other in a thread of its own. When all have returned, the passes are
/// gathered, the desk is closed, and the tallies are added up. If a thread can't be made, its worker works in
/// the caller's thread.
///
/// The book begins with the history that each pass had seen. Each pass's entries in it are those that it
/// brought, followed by those of its worker's shift. The contract holds when the call returns: it waits for
/// all workers.
pub fn crew<R: Threads + Wait + Sync, P: Plugin + Sync>(
    rt: &R,
    _alloc: Global,
    desk: Desk,
    passes: Vec<Pass>,
    plugin: &P,
    moments: &[u64],
) -> Result<(Book, Tally), CrewError>
    requires { All (IsPassOf desk) passes.items }
    ensures shifts { IfOk result (λ made. (shifts : List Shift)
        × AreShiftsOf (P.allows plugin.now) moments.now (desk_opening desk).room
        (entries_of made.0) passes.items shifts
        × (made.1 ≡ tally_of_all shifts)) }
    ensures begins { IfOk result (λ made.
        All (λ pass. IsPrefix (pass_of pass).seen (entries_of made.0)) passes.items) }
    ensures sums { IfOk result (λ made. IsSum made.1) }
    ensures calls { IfOk result (λ made. length (entries_of made.0) + refused_of made.0
        ≡ calls_of_passes passes.items + made.1.takes + made.1.reports + made.1.unanswered) }
    ensures memory { IfOk result (λ made. HaveCallsLeft (2 * length moments.now) passes.items
        → made.1.stops ≡ made.1.unanswered) }
    ensures opening { IfOk result (λ made. opening_of made.0 ≡ desk_opening desk) }
    ensures lawful { IfOk result (λ made. IsLawfulBook book_step (opening_of made.0)
        (book_state (state_of made.0) (entries_of made.0) (refused_of made.0))) }
    ensures numbers { IfOk result (λ made. (number : ℕ)
        → passes_of desk ≤ number → of number (entries_of made.0) ≡ []) }
    ensures all { IfOk result (λ made. passes_of desk ≤ pass_count passes.items) }
    ensures errors { IfErr result (λ e. MatchCrewError e
        (λ back. (back ≡ desk) × (passes.items ≡ []))
        (λ back pass. (back ≡ desk) × IsPassOf desk pass
        × (pass_count passes.items < passes_of desk)
        × (length (pass_of pass).numbers ≡ pass_count passes.items)
        × ((pass_of pass).numbers ≡ pass_numbers passes.items)
        × IsHistoryOf desk (pass_of pass).seen
        × ((shifts : List Shift)
        × AreShiftsOf (P.allows plugin.now) moments.now (desk_opening desk).room
        (pass_of pass).seen passes.items shifts
        × ((pass_of pass).calls ≡ calls_of_passes passes.items + calls_counted (tally_of_all shifts))))
        (λ back. back ≡ desk)) }
{
    if passes.is_empty() {
        return Err(CrewError::NoPass(desk));
    }
    match work_all(rt, &desk, passes, plugin, moments) {
        Ok(worked) => close(desk, worked),
        Err(_refused) => Err(CrewError::NoThread(desk)),
    }
}

/// Lets a worker work for each pass, at the same time, and returns the passes and tallies.
fn work_all<R: Threads + Wait + Sync, P: Plugin + Sync>(
    rt: &R,
    desk: &Desk,
    passes: Vec<Pass>,
    plugin: &P,
    moments: &[u64],
) -> Result<Vec<(Pass, Tally)>, AllocError>
    requires { All (IsPassOf desk.now) passes.items }
    ensures { IfOk result (λ worked.
        AreWorkerResults (P.allows plugin.now) moments.now desk.now passes.items worked.items) }
{
    thread::map_vec(
        rt,
        passes,
        &|pass| work_one(rt, desk, pass, plugin, moments),
    )
}

/// Works with one pass, and returns it with its tally.
fn work_one<P: Plugin>(
    rt: &impl Wait,
    desk: &Desk,
    pass: Pass,
    plugin: &P,
    moments: &[u64],
) -> (Pass, Tally)
    requires { IsPassOf desk.now pass }
    ensures { IsWorkerResult (P.allows plugin.now) moments.now desk.now pass result.0 result.1 }
{
    let (pass, tally, _open) = work(rt, desk, pass, plugin, moments);
    (pass, tally)
}

/// Gathers the passes into the first, adds up the tallies, and closes the desk.
fn close(desk: Desk, worked: Vec<(Pass, Tally)>) -> Result<(Book, Tally), CrewError>
    requires { All (λ w. IsTallied desk w.0 w.1) worked.items }
    ensures gathered { IfOk result (λ made. (pass : Pass)
        × AreGathered desk worked.items pass made.1
        × (entries_of made.0 ≡ (pass_of pass).seen)
        × (length (entries_of made.0) + refused_of made.0 ≡ (pass_of pass).calls)
        × (passes_of desk ≤ length (pass_of pass).numbers)) }
    ensures opening { IfOk result (λ made. opening_of made.0 ≡ desk_opening desk) }
    ensures lawful { IfOk result (λ made. IsLawfulBook book_step (opening_of made.0)
        (book_state (state_of made.0) (entries_of made.0) (refused_of made.0))) }
    ensures numbers { IfOk result (λ made. (number : ℕ)
        → passes_of desk ≤ number → of number (entries_of made.0) ≡ []) }
    ensures errors { IfErr result (λ e. MatchCrewError e
        (λ back. (back ≡ desk) × (worked.items ≡ []))
        (λ back pass. (back ≡ desk) × IsPassOf desk pass × (tally : Tally)
        × AreGathered desk worked.items pass tally
        × (length (pass_of pass).numbers < passes_of desk))
        (λ back. ⊥)) }
{
    let Some((pass, tally)) = gather_all(&desk, worked) else {
        return Err(CrewError::NoPass(desk));
    };
    match desk.close(pass) {
        Ok(book) => Ok((book, tally)),
        Err((desk, pass)) => Err(CrewError::Missing(desk, pass)),
    }
}

/// Gathers the passes into the first, and adds up the tallies. None if there are no passes.
fn gather_all(desk: &Desk, mut worked: Vec<(Pass, Tally)>) -> Option<(Pass, Tally)>
    requires { All (λ w. IsTallied desk.now w.0 w.1) worked.items }
    ensures { MatchGathered desk.now worked.items result }
{
    let (mut pass, mut tally) = worked.pop()?;
    while let Some((other, more)) = worked.pop() {
        pass = desk.gather(other, pass);
        tally = more.plus(tally);
    }
    Some((pass, tally))
}
