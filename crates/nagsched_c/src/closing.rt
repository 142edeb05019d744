//! Gathers passes, closes a desk, and renews its book.

ghost use Rattle.std.specs.Prelude.{◌≡◌, ◌≢◌, ◌⊎◌, ◌↔◌, is_some, true, None};
ghost use Rattle.nagsched_handles.specs.Closing.{AreOfOneDesk, MayBeGathered, MissesPasses};
ghost use Rattle.nagsched_handles.specs.Handles.{contents_of};
ghost use Rattle.nagsched_c.specs.Closing.{HasClosed, HasGathered, HasRenewed, IsBookIn, IsOpenStill, IsRestingIn, IsSameBook};

use crate::status::{MISSING, NO_MEMORY, OK, WRONG};
use nagsched_handles::Handle;
use nagsched_handles::closing::{close, is_book, is_resting, merge_passes, renew};
use std::alloc::Global;

/// Gathers two passes of one desk: the first stays, and answers for the calls of both. The second
/// handle is empty afterwards.
///
/// `WRONG` exactly if one of the two is no pass or waits for its turn, or if their desks have two
/// marks. Then both are as they were.
#[unsafe(no_mangle)]
pub extern "C" fn nagsched_gather(alloc: Global, pass: &mut Handle, other: &mut Handle) -> u32
    requires one_desk { AreOfOneDesk (contents_of pass.old) (contents_of other.old) }
    ensures gathered { HasGathered (contents_of pass.old) (contents_of other.old) result
        (contents_of pass.new) (contents_of other.new) }
    ensures exactly { (result ≡ WRONG)
        ↔ (MayBeGathered (contents_of pass.old) (contents_of other.old) → ⊥) }
{
    let Some(mut first) = pass.take(alloc) else {
        return WRONG;
    };
    let Some(mut second) = other.take(alloc) else {
        *pass = Handle::of(first);
        return WRONG;
    };
    if merge_passes(&mut first, &mut second) {
        *pass = Handle::of(first);
        OK
    } else {
        *pass = Handle::of(first);
        *other = Handle::of(second);
        WRONG
    }
}

/// Ends the desk, if all its passes were gathered into this one. The handle has the book afterwards.
///
/// `MISSING` if they weren't, and `WRONG` exactly if the handle has no pass or the pass waits for its
/// turn. Then the handle is as it was.
#[unsafe(no_mangle)]
pub extern "C" fn nagsched_close(alloc: Global, pass: &mut Handle) -> u32
    ensures status { (result ≡ OK) ⊎ ((result ≡ MISSING) ⊎ (result ≡ WRONG)) }
    ensures closed { result ≡ OK → HasClosed (contents_of pass.old) (contents_of pass.new) }
    ensures err { result ≡ MISSING → IsOpenStill (contents_of pass.old) (contents_of pass.new) }
    ensures same { result ≡ WRONG → contents_of pass.new ≡ contents_of pass.old }
    ensures missing { MissesPasses (contents_of pass.old) → result ≡ MISSING }
    ensures wrong { (result ≡ WRONG) ↔ (IsRestingIn (contents_of pass.old) → ⊥) }
{
    let Some(mut target) = pass.take(alloc) else {
        return WRONG;
    };
    if !is_resting(&target) {
        *pass = Handle::of(target);
        return WRONG;
    }
    let is_closed = close(&mut target);
    *pass = Handle::of(target);
    if is_closed { OK } else { MISSING }
}

/// Renews a book: it opens in its present state, without entries and with room for `room` entries. Its
/// entries move to the other handle, which must be empty.
///
/// `WRONG` exactly if the first handle has no book or the second isn't empty. Then, and if memory is
/// refused (`NO_MEMORY`), both are as they were.
#[unsafe(no_mangle)]
pub extern "C" fn nagsched_renew(
    alloc: Global,
    book: &mut Handle,
    room: usize,
    history: &mut Handle,
) -> u32
    ensures status { (result ≡ OK) ⊎ ((result ≡ NO_MEMORY) ⊎ (result ≡ WRONG)) }
    ensures renewed { result ≡ OK → (contents_of history.old ≡ None)
        × HasRenewed room (contents_of book.old) (contents_of book.new) (contents_of history.new) }
    ensures kept { result ≡ NO_MEMORY → IsSameBook (contents_of book.old) (contents_of book.new) }
    ensures same { result ≡ WRONG → contents_of book.new ≡ contents_of book.old }
    ensures history { result ≢ OK → contents_of history.new ≡ contents_of history.old }
    ensures wrong { (result ≡ WRONG)
        ↔ (IsBookIn (contents_of book.old) → is_some (contents_of history.old) ≡ true) }
{
    if !history.is_empty() {
        return WRONG;
    }
    let Some(mut target) = book.take(alloc) else {
        return WRONG;
    };
    if !is_book(&target) {
        *book = Handle::of(target);
        return WRONG;
    }
    let past = renew(alloc, &mut target, room);
    *book = Handle::of(target);
    match past {
        Some(past) => {
            *history = Handle::of(past);
            OK
        }
        None => NO_MEMORY,
    }
}
