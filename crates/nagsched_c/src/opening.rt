//! Opens desks on a setup, or on a book without entries.

ghost use Rattle.std.specs.Prelude.{◌≡◌, ◌≢◌, ◌⊎◌, ◌↔◌, ◌<◌, true};
ghost use Rattle.nagsched_handles.specs.Handles.{contents_of};
ghost use Rattle.nagsched_c.specs.Opening.{are_empty, terms_of, ArePassHandles, HasOpened, IsBackIn, MayOpen};

use crate::status::{NO_MEMORY, OK, WRONG};
use nagsched_handles::Handle;
use nagsched_handles::opening::{Terms, is_source, open_source};
use std::alloc::Global;
use ticket_steps::DRAWS;

/// Opens a desk, with a pass for each of the handles, 1 to 1,024 empty ones. Each pass has 2^32 - 1 calls.
/// The rest is as for [`nagsched_open_with`].
#[unsafe(no_mangle)]
pub extern "C" fn nagsched_open(
    alloc: Global,
    source: &mut Handle,
    start: u64,
    room: usize,
    mark: u64,
    passes: &mut [Handle],
) -> u32
    ensures status { (result ≡ OK) ⊎ ((result ≡ NO_MEMORY) ⊎ (result ≡ WRONG)) }
    ensures opened { result ≡ OK
        → HasOpened (terms_of start room mark 4294967295) (contents_of source.old) (contents_of source.new) passes.new }
    ensures err { result ≡ NO_MEMORY
        → IsBackIn (terms_of start room mark 4294967295) (contents_of source.old) (contents_of source.new) }
    ensures same { result ≡ WRONG → contents_of source.new ≡ contents_of source.old }
    ensures passes { result ≢ OK → passes.new ≡ passes.old }
    ensures wrong { (result ≡ WRONG)
        ↔ (MayOpen (terms_of start room mark 4294967295) (contents_of source.old) passes.old → ⊥) }
{
    let terms = Terms {
        start,
        room,
        mark,
        calls: DRAWS,
    };
    open_desk(alloc, source, terms, passes)
}

/// Opens a desk, with a pass for each of the handles, 1 to 1,024 empty ones. Each pass has `calls`
/// calls, 1 to 2^32 - 1, and has made no call and seen nothing. The first has the number 0, and so on.
/// The handle of the source is empty afterwards.
///
/// No other desk has the mark, which keeps the passes of two desks apart. The guard in C gives each
/// desk another mark.
///
/// The source is a setup: scheduling starts at the moment `start`, in milliseconds, at most 2^60, and
/// the history has memory for `room` entries at once. Or the source is a book without entries and
/// refusals, which keeps its start and its room: then both are 0 here. The status is `WRONG` exactly in
/// all other cases, and then nothing was done. If memory is refused (`NO_MEMORY`), all handles are as
/// they were. (No clause excludes that the source's handle then has the desk's only pass: that would
/// need a count of 2^63 owners.)
#[unsafe(no_mangle)]
pub extern "C" fn nagsched_open_with(
    alloc: Global,
    source: &mut Handle,
    start: u64,
    room: usize,
    mark: u64,
    calls: u64,
    passes: &mut [Handle],
) -> u32
    ensures status { (result ≡ OK) ⊎ ((result ≡ NO_MEMORY) ⊎ (result ≡ WRONG)) }
    ensures opened { result ≡ OK
        → HasOpened (terms_of start room mark calls) (contents_of source.old) (contents_of source.new) passes.new }
    ensures err { result ≡ NO_MEMORY
        → IsBackIn (terms_of start room mark calls) (contents_of source.old) (contents_of source.new) }
    ensures same { result ≡ WRONG → contents_of source.new ≡ contents_of source.old }
    ensures passes { result ≢ OK → passes.new ≡ passes.old }
    ensures wrong { (result ≡ WRONG)
        ↔ (MayOpen (terms_of start room mark calls) (contents_of source.old) passes.old → ⊥) }
{
    if calls == 0 || (DRAWS as u64) < calls {
        return WRONG;
    }
    let terms = Terms {
        start,
        room,
        mark,
        calls: calls as u32,
    };
    open_desk(alloc, source, terms, passes)
}

/// Opens a desk on these terms.
fn open_desk(alloc: Global, source: &mut Handle, terms: Terms, passes: &mut [Handle]) -> u32
    requires { 0 < terms.calls }
    ensures status { (result ≡ OK) ⊎ ((result ≡ NO_MEMORY) ⊎ (result ≡ WRONG)) }
    ensures opened { result ≡ OK
        → HasOpened terms (contents_of source.old) (contents_of source.new) passes.new }
    ensures err { result ≡ NO_MEMORY
        → IsBackIn terms (contents_of source.old) (contents_of source.new) }
    ensures same { result ≡ WRONG → contents_of source.new ≡ contents_of source.old }
    ensures passes { result ≢ OK → passes.new ≡ passes.old }
    ensures wrong { (result ≡ WRONG) ↔ (MayOpen terms (contents_of source.old) passes.old → ⊥) }
{
    if !are_pass_handles(passes) {
        return WRONG;
    }
    let Some(mut target) = source.take(alloc) else {
        return WRONG;
    };
    if !is_source(&target, terms) {
        *source = Handle::of(target);
        return WRONG;
    }
    if open_source(alloc, &mut target, terms, passes) {
        OK
    } else {
        *source = Handle::of(target);
        NO_MEMORY
    }
}

/// Whether these are 1 to 1,024 empty handles.
fn are_pass_handles(passes: &[Handle]) -> bool
    ensures { (result ≡ true) ↔ ArePassHandles passes.now }
{
    let count = passes.len();
    0 < count && count <= 1024 && are_empty(passes)
}

/// Whether all of these handles are empty.
fn are_empty(handles: &[Handle]) -> bool
    ensures { result ≡ are_empty handles.now }
{
    handles.iter().all(|handle| handle.is_empty())
}
