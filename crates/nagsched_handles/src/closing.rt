//! Joins passes, ends a desk, and renews its book.

ghost use Rattle.std.specs.Prelude.{◌≡◌, ◌↔◌, true, false, IfErr, IfOk, Some};
ghost use Rattle.nagsched_handles.specs.Closing.{AreOfOneDesk, HasClosedDesk, HasRenewedBook, IsUnchangedPass, IsBookTarget, IsGathered, IsRenewed, IsResting};
ghost use Rattle.nagsched_handles.specs.Closing.{MayBeGathered};
ghost use Rattle.nagsched_handles.specs.Handles.{box_value};

use crate::pass_state::PassState;
use crate::target::{HandleTarget, NamedBook};
use std::alloc::Global;

/// Joins the second pass to the first, exactly if both are passes at rest and their desks have one mark.
pub fn merge_passes(first: &mut HandleTarget, second: &mut HandleTarget) -> bool
    requires { AreOfOneDesk (Some first.old) (Some second.old) }
    ensures exactly { (result ≡ true) ↔ MayBeGathered (Some first.old) (Some second.old) }
    ensures gathered { result ≡ true → IsGathered first.old second.old first.new }
    ensures same { result ≡ false → (first.new ≡ first.old) × (second.new ≡ second.old) }
{
    match first {
        HandleTarget::Pass(first) => match second {
            HandleTarget::Pass(second) => first.join(second),
            _ => false,
        },
        _ => false,
    }
}

/// Whether the target is a pass at rest.
pub fn is_resting(target: &HandleTarget) -> bool
    ensures { (result ≡ true) ↔ IsResting target.now }
{
    match target {
        HandleTarget::Pass(pass) => matches!(pass.state, PassState::Resting(_)),
        _ => false,
    }
}

/// Ends the desk of a pass, if all its passes were gathered into this one: the book takes the pass's
/// place. Otherwise the pass stays.
pub fn close(target: &mut HandleTarget) -> bool
    requires { IsResting target.old }
    ensures closed { result ≡ true → HasClosedDesk target.old target.new }
    ensures open { result ≡ false → IsUnchangedPass target.old target.new }
{
    match book_or_pass(target.take()) {
        Ok(book) => {
            target.put(book);
            true
        }
        Err(pass) => {
            target.put(pass);
            false
        }
    }
}

/// The book of a pass's desk, if all passes were gathered into this one. Otherwise the pass.
fn book_or_pass(target: HandleTarget) -> Result<HandleTarget, HandleTarget>
    requires { IsResting target }
    ensures ended { IfOk result (λ book. HasClosedDesk target book) }
    ensures err { IfErr result (λ pass. IsUnchangedPass target pass) }
{
    match target {
        HandleTarget::Pass(pass) => match pass.close() {
            Ok(named) => Ok(HandleTarget::Book(named)),
            Err(pass) => Err(HandleTarget::Pass(pass)),
        },
        _ => unreachable!(),
    }
}

/// Whether the target is a book.
pub fn is_book(target: &HandleTarget) -> bool
    ensures { (result ≡ true) ↔ IsBookTarget target.now }
{
    matches!(target, HandleTarget::Book(_))
}

/// Renews a book, and returns the entries of the old one. If memory is refused, the book stays as it was,
/// and there are no entries.
pub fn renew(alloc: Global, target: &mut HandleTarget, room: usize) -> Option<Box<HandleTarget>>
    requires { IsBookTarget target.old }
    ensures { HasRenewedBook room target.old target.new (box_value result) }
{
    let (renewed, past) = renew_target(alloc, target.take(), room);
    target.put(renewed);
    past
}

/// The renewed book, and the entries of the old one. If memory was refused, the book as it was, and no
/// entries.
fn renew_target(
    alloc: Global,
    target: HandleTarget,
    room: usize,
) -> (HandleTarget, Option<Box<HandleTarget>>)
    requires { IsBookTarget target }
    ensures { HasRenewedBook room target result.0 (box_value result.1) }
{
    match target {
        HandleTarget::Book(named) => {
            let (named, past) = renew_book(alloc, named, room);
            (HandleTarget::Book(named), past)
        }
        other => (other, None),
    }
}

/// The same for a book.
fn renew_book(
    alloc: Global,
    named: NamedBook,
    room: usize,
) -> (NamedBook, Option<Box<HandleTarget>>)
    ensures { IsRenewed room named result.0 (box_value result.1) }
{
    let Ok(mut place) = HandleTarget::vacant_place(alloc) else {
        return (named, None);
    };
    let NamedBook { book, names } = named;
    match book.renew(alloc, room) {
        Ok((book, entries)) => {
            place.put(HandleTarget::History(entries));
            (NamedBook { book, names }, Some(place))
        }
        Err(book) => (NamedBook { book, names }, None),
    }
}
