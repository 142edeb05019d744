//! Each kind of step of the lock is one event of the core.

ghost use Rattle.std.specs.Prelude.{◌≡◌, ◌<◌, ◌≤◌, [], Option};
ghost use Rattle.ticket_steps.specs.declared.seats.Phase.TheVariants.{Waiting};
ghost use Rattle.ticket_steps.specs.CoreStates.{opening_core};
ghost use Rattle.atomic_table.specs.Table.{Step};
ghost use Rattle.ticket_lock.specs.declared.views.Start.{Start};
ghost use Rattle.ticket_lock.specs.Kinds.{Kind, table_after, IsReady, IsEventOf, MayLearn, HasFact, Decides, LeavesOnly, IsInSlot};
ghost use Rattle.ticket_lock.specs.Rule.{IsTableOf};
ghost use Rattle.ticket_lock.specs.Steps.{TableMoment, IsTableMoment, first_table};

use ticket_steps::Kept;

/// A law without code: each kind of step of the lock is one event of the core.
///
/// The new table is that of the core's opening (`opening`). At any moment that meets the rule, each kind of
/// step leads to a table that meets the rule again. The core state of that table is the state after one
/// event (`event`). The definition `Kind` lists the kinds: a split, a draw, a look that holds or waits, a
/// post, a leave, a gather or a glance. The second load of a gather is a kind of its own, but not an event.
/// The joined seat learns from it that its two histories are first parts of one history, and the core state
/// stays as it was. When a ticket is served, the book is in its slot, so the look takes it (`home`).
///
/// The definition also says of each kind which word it loads, adds to or stores in, and which number is in
/// that word after it: `word_of` and `number_after`. A look loads the word that its ticket watches. A post
/// stores the book's word at the place of the call. A leave stores the next number in the word that this
/// number watches. A glance loads a word of the board.
///
/// The lock's code relies on the facts that the seat learns from its step. These facts hold of that very step
/// (`fact`). They are about the number found in the word, and the seat in the table after the step.
///
/// The step couldn't be another one either (`only`). Take an operation of that kind, by a seat that carries
/// what its phase says. If the kind's fact holds of it, the operation leaves the table of `event` and no
/// other, for anything that the seat took or gave back. Glances are left out (`Decides`). Their fact holds of
/// any legal history that continues the one that the seat had seen and shows that word. The seat's view after
/// the glance is one of these.
pub fn every_step<K: Kept>()
    ensures opening { (start : Start K) → K.history start.book ≡ [] → K.refusals start.book ≡ 0
        → 0 < start.numbers → start.numbers ≤ 1024 → start.draws ≤ 4294967295
        → IsTableOf K.Kept start [] (opening_core start.numbers start.draws (K.opening start.book))
        (first_table K.Kept start) }
    ensures home { (m : TableMoment K K.State K.Call K.Reply) → IsTableMoment K.Kept m
        → m.me.0.seat.phase ≡ Waiting m.core.served → (book : K) × IsInSlot m.table book }
    ensures event { (m : TableMoment K K.State K.Call K.Reply) (kind : Kind K K.Call K.Reply)
        → IsTableMoment K.Kept m → IsReady K.Kept m kind
        → IsEventOf K.Kept m kind (table_after K.Kept m kind) }
    ensures fact { (m : TableMoment K K.State K.Call K.Reply) (kind : Kind K K.Call K.Reply)
        (step : Step (Option K)) → IsTableMoment K.Kept m → MayLearn K.Kept m kind step
        → HasFact K.Kept m kind step }
    ensures only { (m : TableMoment K K.State K.Call K.Reply) (kind : Kind K K.Call K.Reply)
        (step : Step (Option K)) → IsTableMoment K.Kept m → MayLearn K.Kept m kind step
        → Decides K.Kept m kind → LeavesOnly K.Kept m kind step }
{}
