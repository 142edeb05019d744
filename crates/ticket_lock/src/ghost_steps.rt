//! The steps of the lock (split, draw, look, post, leave, gather, glance), and the facts that the seat learns
//! from each of them.

ghost use Rattle.std.specs.Prelude.{ℕ, List, []};
ghost use Rattle.ticket_steps.specs.declared.books.Entry.{Entry as EntryOf};
ghost use Rattle.ticket_lock.specs.GhostSteps.{DrawFact, LookFact, PostFact, LeaveFact, SecondLoadFact, GlanceFact};
ghost use Rattle.ticket_lock.specs.Views.{view_after_split, split_view, gathered_view, spent_view};

use crate::views::View;
use atomic_table::{Join, Play, Split};
use std::marker::{Brand, PhantomData};
use ticket_steps::Kept;

/// The step of a draw.
pub(crate) struct Draws<K> {
    marker: PhantomData<K>,
}

impl<K: Kept> Play<Option<K>, View<K, K::Call, K::Reply>> for Draws<K> {
    ghost then = { DrawFact };
}

/// The step of a look.
pub(crate) struct Looks<K> {
    marker: PhantomData<K>,
}

impl<K: Kept> Play<Option<K>, View<K, K::Call, K::Reply>> for Looks<K> {
    ghost then = { LookFact K.Kept };
}

/// The entries and the refusals of the book after a call that is posted. No step sees the book while a holder
/// has it, so each call chooses them.
pub trait After<C, R> {
    ghost entries: { List (EntryOf C R) };

    ghost refused: { ℕ };
}

impl<C, R> After<C, R> for Brand {
    ghost entries = { [] };

    ghost refused = { 0 };
}

/// The step of a post.
pub(crate) struct Posts<K, A> {
    marker: PhantomData<(K, A)>,
}

impl<K: Kept, A: After<K::Call, K::Reply>> Play<Option<K>, View<K, K::Call, K::Reply>>
    for Posts<K, A> {
    ghost then = { PostFact A.entries A.refused };
}

/// The step of a leave.
pub(crate) struct Leaves<K> {
    marker: PhantomData<K>,
}

impl<K: Kept> Play<Option<K>, View<K, K::Call, K::Reply>> for Leaves<K> {
    ghost then = { LeaveFact K.Kept };
}

/// The number of numbers that a split gives away. Each call chooses it.
pub trait Count {
    ghost count: { ℕ };
}

impl Count for Brand {
    ghost count = { 0 };
}

/// The step of a split.
pub(crate) struct Splits<N> {
    marker: PhantomData<N>,
}

impl<K, C, R, N: Count> Split<View<K, C, R>> for Splits<N> {
    ghost left = { view_after_split N.count };

    ghost right = { split_view N.count };
}

/// The step of a gather.
pub(crate) struct Gathers;

impl<K, C, R> Join<View<K, C, R>> for Gathers {
    ghost both = { gathered_view };

    ghost spent = { spent_view };
}

/// The second step of a gather. Joining two seats gives no facts from the rule. So the joined seat loads once
/// more, and learns that the two histories are first parts of one history.
pub(crate) struct SecondLoad<K> {
    marker: PhantomData<K>,
}

impl<K: Kept> Play<Option<K>, View<K, K::Call, K::Reply>> for SecondLoad<K> {
    ghost then = { SecondLoadFact };
}

/// The step of a glance.
pub(crate) struct Glances<K> {
    marker: PhantomData<K>,
}

impl<K: Kept> Play<Option<K>, View<K, K::Call, K::Reply>> for Glances<K> {
    ghost then = { GlanceFact K.Kept };
}
