//! Saves the state of a book's scheduler, resumes a saved state in a new book, and reports running
//! checks.

ghost use Rattle.std.specs.Prelude.{◌≡◌, ◌≢◌, ◌⊎◌, ◌↔◌, ◌≤◌};
ghost use Rattle.check_book.specs.Books.{sched_of};
ghost use Rattle.nagsched_handles.specs.Handles.{contents_of};
ghost use Rattle.nagsched_handles.specs.Resuming.{IsSetupTarget};
ghost use Rattle.nagsched_c.specs.Histories.{handle_book, MatchPresent};
ghost use Rattle.nagsched_c.specs.Texts.{IsNoOutput};
ghost use Rattle.nagsched_c.specs.Saving.{HasResumedFrom, HasRun, HasSavedText, IsSavedRefusalOf, IsLeft, IsLeftIn, IsResumedFrom, MayResume};

use crate::naming::put;
use crate::status::{MISSING, NO_MEMORY, OK, REFUSED, WRONG};
use check_book::Book;
use check_saved_state::{Saved, SavedFault};
use check_sched::{LAST_MOMENT, Sched};
use nagsched_handles::resuming::{is_setup, resume};
use nagsched_handles::{CRefusal, Handle, HandleTarget, c_fault};
use std::alloc::Global;

/// The text of the saved state of a book's scheduler, into the room at `text`; `bytes` is its length,
/// at most 16,777,216. It is one line of JSON, without a line feed.
///
/// `WRONG` exactly if the handle has no book, or if the text is longer than the room. Then nothing is
/// written, except in the last case its length. If memory is refused, nothing is written.
#[unsafe(no_mangle)]
pub extern "C" fn nagsched_save(
    alloc: Global,
    book: &mut Handle,
    text: &mut [u8],
    bytes: &mut usize,
) -> u32
    ensures handle { contents_of book.new ≡ contents_of book.old }
    ensures output { MatchPresent (handle_book (contents_of book.old))
        (λ kept. HasSavedText (sched_of kept) text.old bytes.old result text.new bytes.new)
        (IsNoOutput WRONG text.old bytes.old result text.new bytes.new) }
{
    let Some(target) = book.take(alloc) else {
        return WRONG;
    };
    let status = match target.book() {
        Some(book) => put_saved(alloc, book, text, bytes),
        None => WRONG,
    };
    *book = Handle::of(target);
    status
}

/// Puts the text of the saved state of a book's scheduler.
fn put_saved(alloc: Global, book: &Book, text: &mut [u8], bytes: &mut usize) -> u32
    ensures { HasSavedText (sched_of book.now) text.old bytes.old result text.new bytes.new }
{
    let Ok(saved) = book.save(alloc) else {
        return NO_MEMORY;
    };
    match saved.write(alloc) {
        Ok(line) => put(line.as_slice(), text, bytes),
        Err(_) => NO_MEMORY,
    }
}

/// Makes the book over a setup that resumes the saved state of a text, from the moment `start` on, in
/// milliseconds, at most 2^60. The book has memory for `room` entries at once, and no entries. The
/// setup's handle is empty afterwards.
///
/// `REFUSED` if the text isn't a saved state: the struct has the reason and the place. `WRONG` exactly
/// if the first handle has no setup, the other isn't empty, or the start is later. If memory is
/// refused, the status says so, and nothing is known about the text. The handles change only if a book
/// was made, and the struct only with a refusal.
#[unsafe(no_mangle)]
pub extern "C" fn nagsched_resume(
    alloc: Global,
    setup: &mut Handle,
    text: &[u8],
    start: u64,
    room: usize,
    book: &mut Handle,
    refusal: &mut CRefusal,
) -> u32
    ensures status { (result ≡ OK) ⊎ ((result ≡ NO_MEMORY) ⊎ ((result ≡ REFUSED) ⊎ (result ≡ WRONG))) }
    ensures wrong { (result ≡ WRONG)
        ↔ (MayResume start (contents_of setup.old) (contents_of book.old) → ⊥) }
    ensures resumed { result ≡ OK → HasResumedFrom start room text.now (contents_of setup.old)
        (contents_of setup.new) (contents_of book.new) }
    ensures refused { result ≡ REFUSED → IsSavedRefusalOf text.now refusal.new }
    ensures setup { result ≢ OK → IsLeftIn (contents_of setup.old) (contents_of setup.new) }
    ensures book { result ≢ OK → contents_of book.new ≡ contents_of book.old }
    ensures refusal { result ≢ REFUSED → refusal.new ≡ refusal.old }
{
    if !book.is_empty() {
        return WRONG;
    }
    if LAST_MOMENT < start {
        return WRONG;
    }
    let Some(mut target) = setup.take(alloc) else {
        return WRONG;
    };
    if !is_setup(&target) {
        *setup = Handle::of(target);
        return WRONG;
    }
    let status = resume_text(alloc, &mut target, text, start, room, refusal);
    if status == OK {
        *book = Handle::of(target);
        OK
    } else {
        *setup = Handle::of(target);
        status
    }
}

/// Replaces a setup by the book over it that resumes the saved state of the text, or leaves it.
fn resume_text(
    alloc: Global,
    target: &mut HandleTarget,
    text: &[u8],
    start: u64,
    room: usize,
    refusal: &mut CRefusal,
) -> u32
    requires setup { IsSetupTarget target.old }
    requires start { start ≤ LAST_MOMENT }
    ensures status { (result ≡ OK) ⊎ ((result ≡ NO_MEMORY) ⊎ (result ≡ REFUSED)) }
    ensures resumed { result ≡ OK → IsResumedFrom start room text.now target.old target.new }
    ensures refused { result ≡ REFUSED → IsSavedRefusalOf text.now refusal.new }
    ensures left { result ≢ OK → IsLeft target.old target.new }
    ensures refusal { result ≢ REFUSED → refusal.new ≡ refusal.old }
{
    match Saved::read(alloc, text) {
        Ok(saved) => {
            if resume(alloc, target, &saved, start, room) {
                OK
            } else {
                NO_MEMORY
            }
        }
        Err(SavedFault::Memory) => NO_MEMORY,
        Err(fault) => {
            *refusal = c_fault(fault);
            REFUSED
        }
    }
}

/// The running check of an object of a book: the number of its run, and the moment at which it was
/// handed out, in milliseconds.
///
/// `MISSING` exactly if the object isn't being checked; `WRONG` exactly if the handle has no book or
/// the book no object of this number. The two are written only if the check is running.
#[unsafe(no_mangle)]
pub extern "C" fn nagsched_running(
    alloc: Global,
    book: &mut Handle,
    object: u32,
    run: &mut u64,
    start: &mut u64,
) -> u32
    ensures handle { contents_of book.new ≡ contents_of book.old }
    ensures output { MatchPresent (handle_book (contents_of book.old))
        (λ kept. HasRun (sched_of kept) object run.old start.old result run.new start.new)
        ((result ≡ WRONG) × (run.new ≡ run.old) × (start.new ≡ start.old)) }
{
    let Some(target) = book.take(alloc) else {
        return WRONG;
    };
    let status = match target.book() {
        Some(book) => put_run(book.sched(), object, run, start),
        None => WRONG,
    };
    *book = Handle::of(target);
    status
}

/// Writes the run of the object's check and its moment, if the check is running.
fn put_run(sched: &Sched, object: u32, run: &mut u64, start: &mut u64) -> u32
    ensures { HasRun sched.now object run.old start.old result run.new start.new }
{
    if sched.setup().len() <= object as usize {
        return WRONG;
    }
    match sched.open_run(object) {
        Some(found) => {
            *run = found.number;
            *start = found.start;
            OK
        }
        None => MISSING,
    }
}
