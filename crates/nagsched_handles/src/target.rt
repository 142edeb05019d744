//! The target of a handle: a setup, a pass of a desk, the book of a closed desk, or the entries of an
//! earlier book.

ghost use Rattle.std.specs.Prelude.{◌≡◌, IfOk, option_map};
ghost use Rattle.check_book.specs.Books.{sched_of};

use crate::desk_pass::DeskPass;
use check_book::Book;
use check_objects::Setup;
use check_sched::{Call, Reply};
use std::alloc::{AllocError, Global};
use std::mem::replace;
use ticket_steps::{Entry, Kept};

/// A setup for the book of a desk, and a second copy of it for the names. Passes read names while the
/// book, which owns the first copy, is in use.
#[derive(Drop)]
pub struct NamedSetup {
    pub(crate) setup: Setup,
    pub(crate) names: Setup,
    ghost same: { names ≡ setup },
}

/// A book, and a second copy of its setup for the names.
#[derive(Drop)]
pub struct NamedBook {
    /// The book.
    pub book: Book,
    /// The setup of the book.
    pub(crate) names: Setup,
    ghost same: { names ≡ (sched_of book).setup },
}

/// The target of a handle.
#[derive(Drop)]
pub enum HandleTarget {
    /// Nothing: only while a call is made.
    Nothing,
    /// A setup, on which a desk can be opened.
    Setup(NamedSetup),
    /// A pass of a desk.
    Pass(DeskPass),
    /// The book of a closed desk, or a book that resumes a saved state.
    Book(NamedBook),
    /// The entries that a book had when it was renewed.
    History(Vec<Entry<Call, Reply>>),
}

/// The value. Each call of this function proves that several threads may read the value at once.
fn shared<T: Sync>(value: &T) -> &T
    ensures { result.now ≡ value.now }
{
    value
}

impl HandleTarget {
    ghost use Rattle.nagsched_handles.specs.Handles.{target_book, target_setup};
    ghost use Rattle.nagsched_handles.specs.Histories.{target_entries};
    ghost use Rattle.nagsched_handles.specs.declared.target.HandleTarget.TheVariants as target;

    /// A place on the heap for a target, without the target.
    pub(crate) fn vacant_place(alloc: Global) -> Result<Box<HandleTarget>, AllocError>
        ensures { IfOk result (λ place. place.value ≡ target.Nothing) }
    {
        Ok(Box::new(alloc, HandleTarget::Nothing)?)
    }

    /// The target, which leaves nothing in its place.
    pub(crate) fn take(&mut self) -> HandleTarget
        ensures value { result ≡ self.old }
        ensures vacant { self.new ≡ target.Nothing }
    {
        replace(self, HandleTarget::Nothing)
    }

    /// Puts another target into the place of this one, which is dropped.
    pub(crate) fn put(&mut self, target: HandleTarget)
        ensures { self.new ≡ target }
    {
        drop(replace(self, target));
    }

    /// The setup that names the objects. A history has none.
    pub fn setup(&self) -> Option<&Setup>
        ensures { option_map (λ setup. setup.now) result ≡ target_setup self.now }
    {
        match self {
            HandleTarget::Setup(named) => Some(shared(&named.setup)),
            HandleTarget::Pass(pass) => Some(&shared(&pass.shared).names),
            HandleTarget::Book(named) => Some(shared(&named.names)),
            HandleTarget::History(_) | HandleTarget::Nothing => None,
        }
    }

    /// The book, if the target is one.
    pub fn book(&self) -> Option<&Book>
        ensures { option_map (λ book. book.now) result ≡ target_book self.now }
    {
        match self {
            HandleTarget::Book(named) => Some(shared(&named.book)),
            _ => None,
        }
    }

    /// The entries of a book or a history, oldest first.
    pub fn entries(&self) -> Option<&[Entry<Call, Reply>]>
        ensures { option_map (λ entries. entries.now) result ≡ target_entries self.now }
    {
        match self {
            HandleTarget::Book(named) => Some(shared(&named.book).entries()),
            HandleTarget::History(entries) => Some(shared(entries).as_slice()),
            _ => None,
        }
    }
}
