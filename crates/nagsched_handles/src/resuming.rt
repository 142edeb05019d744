//! Makes a book over a setup that resumes a saved state.

ghost use Rattle.std.specs.Prelude.{◌≡◌, ◌↔◌, ◌≤◌, true, false};
ghost use Rattle.nagsched_handles.specs.Resuming.{IsResumedBook, IsSameSetup, IsSetupTarget};

use crate::target::{HandleTarget, NamedBook, NamedSetup};
use check_book::Book;
use check_sched::{LAST_MOMENT, Saved};
use std::alloc::Global;

/// Whether the target is a setup.
pub fn is_setup(target: &HandleTarget) -> bool
    ensures { (result ≡ true) ↔ IsSetupTarget target.now }
{
    matches!(target, HandleTarget::Setup(_))
}

/// Replaces a setup by a book over it that resumes the saved state, from the moment `start` on, in
/// milliseconds, with room for `room` entries. If memory is refused, it returns false and leaves the
/// setup as it was.
pub fn resume(
    alloc: Global,
    target: &mut HandleTarget,
    saved: &Saved,
    start: u64,
    room: usize,
) -> bool
    requires setup { IsSetupTarget target.old }
    requires start { start ≤ LAST_MOMENT }
    ensures resumed { result ≡ true → IsResumedBook start room saved.now target.old target.new }
    ensures same { result ≡ false → IsSameSetup target.old target.new }
{
    let (after, resumed) = resume_over(alloc, target.take(), saved, start, room);
    target.put(after);
    resumed
}

/// The book over a setup that resumes the saved state, and true. If memory is refused, the setup and
/// false.
fn resume_over(
    alloc: Global,
    target: HandleTarget,
    saved: &Saved,
    start: u64,
    room: usize,
) -> (HandleTarget, bool)
    requires setup { IsSetupTarget target }
    requires start { start ≤ LAST_MOMENT }
    ensures resumed { result.1 ≡ true → IsResumedBook start room saved.now target result.0 }
    ensures same { result.1 ≡ false → IsSameSetup target result.0 }
{
    match target {
        HandleTarget::Setup(NamedSetup { setup, names }) => {
            match Book::resume(alloc, setup, saved, start, room) {
                Ok(book) => (HandleTarget::Book(NamedBook { book, names }), true),
                Err(setup) => (HandleTarget::Setup(NamedSetup { setup, names }), false),
            }
        }
        other => (other, false),
    }
}
