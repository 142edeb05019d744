//! A restart: the state of the book is saved as text, and another book is resumed from that text. A
//! program that really ends stores the text in a file, and reads its setup again.

ghost use Rattle.std.specs.Prelude.{◌≡◌, ◌≤◌, [], option_map, Some, IfErr, IfOk};
ghost use Rattle.check_book.specs.Books.{entries_of, refused_of, sched_of};
ghost use Rattle.nagsched_loop.specs.Faults.{IsLoopFault};
ghost use Rattle.nagsched_loop.specs.Months.{IsFirst, IsResumedState, IsSavedText};

use crate::fault::Fault;
use check_book::Book;
use check_objects::Setup;
use check_sched::{LAST_MOMENT, Saved};
use std::alloc::{AllocError, Global};

/// The text of a book's saved state. It is read as that saved state.
pub(crate) fn saved_text(alloc: Global, book: &Book) -> Result<Vec<u8>, AllocError>
    ensures { IfOk result (λ text. IsSavedText (sched_of book.now) (Some text.items)) }
{
    book.save(alloc)?.write(alloc)
}

/// The book that is resumed from a saved text from this moment on. It is over this setup, which can differ
/// from the saved one.
pub(crate) fn resume_book(
    alloc: Global,
    setup: Setup,
    text: &[u8],
    start: u64,
    room: usize,
) -> Result<Book, Fault>
    requires { start ≤ LAST_MOMENT }
    ensures empty { IfOk result (λ book. (entries_of book ≡ []) × (refused_of book ≡ 0)) }
    ensures resumed { IfOk result (λ book. IsResumedState setup text.now start (sched_of book)) }
    ensures fault { IfErr result (IsLoopFault (Some text.now)) }
{
    let saved = Saved::read(alloc, text)?;
    match Book::resume(alloc, setup, &saved, start, room) {
        Ok(book) => Ok(book),
        Err(_setup) => Err(Fault::Memory),
    }
}

/// The first book. It is resumed from the stored text, or opened if there is no text.
pub(crate) fn begin(
    alloc: Global,
    setup: Setup,
    stored: Option<Vec<u8>>,
    start: u64,
    room: usize,
) -> Result<Book, Fault>
    requires { start ≤ LAST_MOMENT }
    ensures empty { IfOk result (λ book. (entries_of book ≡ []) × (refused_of book ≡ 0)) }
    ensures first { IfOk result (λ book.
        IsFirst setup (option_map (λ text. text.items) stored) start (sched_of book)) }
    ensures fault { IfErr result (IsLoopFault (option_map (λ text. text.items) stored)) }
{
    match stored {
        Some(text) => resume_book(alloc, setup, &text, start, room),
        None => match Book::open(alloc, setup, start, room) {
            Ok(book) => Ok(book),
            Err(_setup) => Err(Fault::Memory),
        },
    }
}
