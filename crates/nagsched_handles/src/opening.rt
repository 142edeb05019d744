//! Opens desks on a setup, or on a book without entries.
//!
//! The memory for the passes of a desk is asked for before the desk opens. So if it is refused, the setup or
//! the book can be handed back.

ghost use Rattle.std.specs.Prelude.{◌≡◌, ◌↔◌, ◌<◌, ◌≤◌, [], length, true, false, IfOk, IfErr, OnOk};
ghost use Rattle.std.specs.List.{All};
ghost use Rattle.std_alloc.specs.Arc.{arc_value};
ghost use Rattle.check_desk.specs.Desks.{desk_opening, passes_of, AreNewPassesWith, IsPassOf};
ghost use Rattle.check_desk.specs.Passes.{pass_of};
ghost use Rattle.check_book.specs.BookState.{book_opening};
ghost use Rattle.check_book.specs.Books.{entries_of, opening_of, refused_of};
ghost use Rattle.nagsched_handles.specs.Places.{HavePasses, IsPlaceFor, IsPlaceOf, IsPlaceWithPass};
ghost use Rattle.nagsched_handles.specs.Opening.{IsAsSetup, IsHandedBack, IsHandedBackOf, IsBookBack, IsEmptyBack, IsSetupBack};
ghost use Rattle.nagsched_handles.specs.Opening.{IsFreshPassOf, IsOpenedBy, IsOpenedWith, IsSource};

use crate::desk_pass::DeskPass;
use crate::handle::Handle;
use crate::shared::Shared;
use crate::target::{HandleTarget, NamedBook, NamedSetup};
use check_book::Book;
use check_desk::{Desk, Pass};
use check_sched::LAST_MOMENT;
use std::alloc::{AllocError, Global};
use std::sync::Arc;
use ticket_steps::Kept;

/// The terms on which a desk opens.
#[derive(Clone, Copy)]
pub struct Terms {
    /// The moment at which scheduling starts, in milliseconds, at most 2^60; 0 for a book, which has its own.
    pub start: u64,
    /// The number of entries for which the history has memory at once; 0 for a book, which has its own.
    pub room: usize,
    /// The desk's mark: a number that no other desk of the process has.
    pub mark: u64,
    /// The number of calls that each pass has, at least 1.
    pub calls: u32,
}

/// Whether a desk can be opened on this target, on these terms.
pub fn is_source(target: &HandleTarget, terms: Terms) -> bool
    ensures { (result ≡ true) ↔ IsSource terms target.now }
{
    match target {
        HandleTarget::Setup(_) => terms.start <= LAST_MOMENT,
        HandleTarget::Book(named) => {
            terms.start == 0
                && terms.room == 0
                && named.book.entries().is_empty()
                && named.book.refused() == 0
        }
        _ => false,
    }
}

/// Opens a desk on a setup or a book, with a pass for each handle. If memory is refused, the handles and
/// the source are as they were, or else the source is the only pass of the desk. The pass would need a
/// count of owners that is at its limit (`IsHandedBackOf`).
pub fn open_source(
    alloc: Global,
    source: &mut HandleTarget,
    terms: Terms,
    handles: &mut [Handle],
) -> bool
    requires source { IsSource terms source.old }
    requires calls { 0 < terms.calls }
    requires nonempty { (0 < length handles.old) × (length handles.old ≤ 1024) }
    ensures opened { result ≡ true → IsOpenedBy terms source.old handles.new }
    ensures err { result ≡ false
        → IsHandedBack terms source.old source.new × (handles.new ≡ handles.old) }
{
    match open_target(alloc, source.take(), terms, handles) {
        Ok(()) => true,
        Err(back) => {
            source.put(back);
            false
        }
    }
}

/// The same. A source that is handed back is the error.
fn open_target(
    alloc: Global,
    source: HandleTarget,
    terms: Terms,
    handles: &mut [Handle],
) -> Result<(), HandleTarget>
    requires source { IsSource terms source }
    requires calls { 0 < terms.calls }
    requires nonempty { (0 < length handles.old) × (length handles.old ≤ 1024) }
    ensures ok { OnOk result (IsOpenedBy terms source handles.new) }
    ensures err { IfErr result (λ back. IsHandedBack terms source back × (handles.new ≡ handles.old)) }
{
    match source {
        HandleTarget::Setup(named) => open_setup(alloc, named, terms, handles),
        HandleTarget::Book(named) => open_book(alloc, named, terms, handles),
        other => Err(other),
    }
}

/// Opens a desk on a setup, or hands the setup back.
fn open_setup(
    alloc: Global,
    named: NamedSetup,
    terms: Terms,
    handles: &mut [Handle],
) -> Result<(), HandleTarget>
    requires start { terms.start ≤ LAST_MOMENT }
    requires calls { 0 < terms.calls }
    requires nonempty { (0 < length handles.old) × (length handles.old ≤ 1024) }
    ensures ok { OnOk result (IsOpenedWith terms (book_opening named.setup terms.start terms.room) handles.new) }
    ensures err { IfErr result (λ back. IsSetupBack terms named back × (handles.new ≡ handles.old)) }
{
    let NamedSetup { setup, names } = named;
    match Book::open(alloc, setup, terms.start, terms.room) {
        Ok(book) => match open_book(alloc, NamedBook { book, names }, terms, handles) {
            Ok(()) => Ok(()),
            Err(back) => Err(as_setup(back)),
        },
        Err(setup) => Err(HandleTarget::Setup(NamedSetup { setup, names })),
    }
}

/// The setup on which a book was opened; a pass stays a pass.
fn as_setup(back: HandleTarget) -> HandleTarget
    requires { IsEmptyBack back }
    ensures { IsAsSetup back result }
{
    match back {
        HandleTarget::Book(named) => {
            let NamedBook { book, names } = named;
            HandleTarget::Setup(NamedSetup {
                setup: book.into_setup(),
                names,
            })
        }
        other => other,
    }
}

/// Opens a desk on a book without entries, or hands the book back.
fn open_book(
    alloc: Global,
    named: NamedBook,
    terms: Terms,
    handles: &mut [Handle],
) -> Result<(), HandleTarget>
    requires empty { (entries_of named.book ≡ []) × (refused_of named.book ≡ 0) }
    requires calls { 0 < terms.calls }
    requires nonempty { (0 < length handles.old) × (length handles.old ≤ 1024) }
    ensures ok { OnOk result (IsOpenedWith terms (opening_of named.book) handles.new) }
    ensures err { IfErr result (λ back. IsBookBack named back × (handles.new ≡ handles.old)) }
{
    let count = handles.len();
    let Ok(places) = prepare_places(alloc, count) else {
        return Err(HandleTarget::Book(named));
    };
    let NamedBook { book, names } = named;
    match Desk::open_with(alloc, book, count as u32, terms.calls) {
        Ok((desk, passes)) => {
            let shared = Shared {
                desk,
                names,
                passes: count as u32,
                mark: terms.mark,
            };
            place_all(alloc, shared, passes, places, handles)
        }
        Err(book) => Err(HandleTarget::Book(NamedBook { book, names })),
    }
}

/// Asks for a place on the heap for each pass of a desk.
fn prepare_places(alloc: Global, count: usize) -> Result<Vec<Box<HandleTarget>>, AllocError>
    ensures { IfOk result (λ places. length places.items ≡ count) }
{
    let mut places = Vec::with_capacity(alloc, count)?;
    for _place in 0..count {
        places.push_reserved(HandleTarget::vacant_place(alloc)?);
    }
    Ok(places)
}

/// Gives each handle a pass of the desk, or hands the book back.
fn place_all(
    alloc: Global,
    shared: Shared,
    passes: Vec<Pass>,
    places: Vec<Box<HandleTarget>>,
    handles: &mut [Handle],
) -> Result<(), HandleTarget>
    requires fresh { All (IsFreshPassOf shared.desk) passes.items }
    requires nonempty { (0 < length passes.items) × (length passes.items ≤ 1024) }
    requires passes { length passes.items ≡ passes_of shared.desk }
    requires places { length places.items ≡ length passes.items }
    requires handles { length handles.old ≡ length passes.items }
    ensures ok { OnOk result (HavePasses shared passes.items handles.new) }
    ensures err { IfErr result (λ back.
        IsHandedBackOf (desk_opening shared.desk) back × (handles.new ≡ handles.old)) }
{
    match Arc::new(alloc, shared) {
        Ok(shared) => {
            let mut places = places;
            if share(&shared, &mut places).is_err() {
                return Err(reclaim_shared(shared, passes));
            }
            hand_out(shared, passes, places, handles);
            Ok(())
        }
        Err(refused) => Err(HandleTarget::Book(reclaim(refused.value, passes))),
    }
}

/// Makes each place one for a pass of the desk.
fn share(
    shared: &Arc<Shared, Global>,
    places: &mut Vec<Box<HandleTarget>>,
) -> Result<(), AllocError>
    ensures count { length places.new.items ≡ length places.old.items }
    ensures shared { OnOk result (All (λ place. IsPlaceOf (arc_value shared.now) place.value) places.new.items) }
{
    for at in 0..places.len() {
        let place = HandleTarget::Pass(DeskPass::without_pass(Arc::try_clone(shared)?));
        places[at].put(place);
    }
    Ok(())
}

/// The book of a desk that nothing else shares. If the desk is shared nevertheless, its only pass: that
/// would need a count of 2^63 owners.
fn reclaim_shared(shared: Arc<Shared, Global>, passes: Vec<Pass>) -> HandleTarget
    requires fresh { All (IsFreshPassOf (arc_value shared).desk) passes.items }
    requires count { length passes.items ≡ passes_of (arc_value shared).desk }
    requires nonempty { (0 < length passes.items) × (length passes.items ≤ 1024) }
    ensures { IsHandedBackOf (desk_opening (arc_value shared).desk) result }
{
    match Arc::try_unwrap(shared) {
        Ok(shared) => HandleTarget::Book(reclaim(shared, passes)),
        Err(shared) => {
            let pass = gather_all(&shared.desk, passes);
            HandleTarget::Pass(DeskPass::at_rest(shared, pass))
        }
    }
}

/// The book of a desk whose passes have made no call.
fn reclaim(shared: Shared, passes: Vec<Pass>) -> NamedBook
    requires fresh { All (IsFreshPassOf shared.desk) passes.items }
    requires count { length passes.items ≡ passes_of shared.desk }
    requires nonempty { 0 < length passes.items }
    ensures { (opening_of result.book ≡ desk_opening shared.desk) × (entries_of result.book ≡ [])
        × (refused_of result.book ≡ 0) }
{
    let Shared { desk, names, .. } = shared;
    let pass = gather_all(&desk, passes);
    match desk.close(pass) {
        Ok(book) => NamedBook { book, names },
        Err(_) => unreachable!(),
    }
}

/// All passes of a desk, which have made no call, as one.
fn gather_all(desk: &Desk, passes: Vec<Pass>) -> Pass
    requires fresh { All (IsFreshPassOf desk.now) passes.items }
    requires nonempty { 0 < length passes.items }
    ensures desk { IsPassOf desk.now result }
    ensures all { length (pass_of result).numbers ≡ length passes.items }
    ensures fresh { ((pass_of result).seen ≡ []) × ((pass_of result).calls ≡ 0) }
{
    let mut rest = passes;
    let last = rest.pop();
    let Some(mut whole) = last else {
        unreachable!()
    };
    while let Some(pass) = rest.pop() {
        whole = desk.gather(whole, pass);
    }
    whole
}

/// Gives each handle a place with its pass: the first handle the first pass. The passes are then the only
/// owners of their desk.
fn hand_out(
    shared: Arc<Shared, Global>,
    passes: Vec<Pass>,
    places: Vec<Box<HandleTarget>>,
    handles: &mut [Handle],
)
    requires fresh { All (IsFreshPassOf (arc_value shared).desk) passes.items }
    requires places { All (λ place. IsPlaceOf (arc_value shared) place.value) places.items }
    requires count { length places.items ≡ length passes.items }
    requires handles { length handles.old ≡ length passes.items }
    ensures { HavePasses (arc_value shared) passes.items handles.new }
{
    let mut passes = passes;
    let mut places = places;
    while let Some(pass) = passes.pop() {
        let Some(mut place) = places.pop() else {
            unreachable!()
        };
        fill_place(&mut *place, pass);
        handles[passes.len()] = Handle::of(place);
    }
}

/// Puts a pass into a vacant place of its desk.
fn fill_place(place: &mut HandleTarget, pass: Pass)
    requires { IsPlaceFor pass place.old }
    ensures { IsPlaceWithPass pass place.old place.new }
{
    match place {
        HandleTarget::Pass(vacant) => vacant.set_pass(pass),
        _ => unreachable!(),
    }
}
