//! Reads histories: the number of entries, each entry by its index, and the number of refused calls.

ghost use Rattle.std.specs.Prelude.{◌≡◌, length};
ghost use Rattle.check_book.specs.Books.{refused_of};
ghost use Rattle.nagsched_handles.specs.Handles.{contents_of};
ghost use Rattle.nagsched_c.specs.Histories.{handle_book, handle_entries, HasEntry, MatchPresent};

use crate::status::{OK, WRONG};
use check_sched::{Call, Reply};
use nagsched_handles::{CEntry, Handle, c_entry};
use std::alloc::Global;
use ticket_steps::{Entry, Kept};

/// The number of entries of a book or a history.
///
/// `WRONG` exactly if the handle has neither. Then nothing is written.
#[unsafe(no_mangle)]
pub extern "C" fn nagsched_entries(alloc: Global, kept: &mut Handle, count: &mut u64) -> u32
    ensures handle { contents_of kept.new ≡ contents_of kept.old }
    ensures output { MatchPresent (handle_entries (contents_of kept.old))
        (λ entries. (result ≡ OK) × (count.new ≡ length entries))
        ((result ≡ WRONG) × (count.new ≡ count.old)) }
{
    let Some(target) = kept.take(alloc) else {
        return WRONG;
    };
    let status = match target.entries() {
        Some(entries) => {
            *count = entries.len() as u64;
            OK
        }
        None => WRONG,
    };
    *kept = Handle::of(target);
    status
}

/// The entry of a book or a history with this index, from 0.
///
/// `WRONG` exactly if the handle has neither, or no entry of this index. Then nothing is written.
#[unsafe(no_mangle)]
pub extern "C" fn nagsched_entry(
    alloc: Global,
    kept: &mut Handle,
    index: u64,
    entry: &mut CEntry,
) -> u32
    ensures handle { contents_of kept.new ≡ contents_of kept.old }
    ensures output { MatchPresent (handle_entries (contents_of kept.old))
        (λ entries. HasEntry entries index entry.old result entry.new)
        ((result ≡ WRONG) × (entry.new ≡ entry.old)) }
{
    let Some(target) = kept.take(alloc) else {
        return WRONG;
    };
    let status = match target.entries() {
        Some(entries) => put_entry(entries, index, entry),
        None => WRONG,
    };
    *kept = Handle::of(target);
    status
}

/// Writes the entry with this index, if there is one.
fn put_entry(entries: &[Entry<Call, Reply>], index: u64, entry: &mut CEntry) -> u32
    ensures { HasEntry entries.now index entry.old result entry.new }
{
    match entries.get(index as usize) {
        Some(found) => {
            *entry = c_entry(found);
            OK
        }
        None => WRONG,
    }
}

/// The number of calls that a book refused when out of memory.
///
/// `WRONG` exactly if the handle has no book. Then nothing is written.
#[unsafe(no_mangle)]
pub extern "C" fn nagsched_refused(alloc: Global, book: &mut Handle, count: &mut u64) -> u32
    ensures handle { contents_of book.new ≡ contents_of book.old }
    ensures output { MatchPresent (handle_book (contents_of book.old))
        (λ kept. (result ≡ OK) × (count.new ≡ refused_of kept))
        ((result ≡ WRONG) × (count.new ≡ count.old)) }
{
    let Some(target) = book.take(alloc) else {
        return WRONG;
    };
    let status = match target.book() {
        Some(book) => {
            *count = book.refused();
            OK
        }
        None => WRONG,
    };
    *book = Handle::of(target);
    status
}
