//! The law that holds after every schedule, and the law of endless schedules.

ghost use Rattle.std.specs.Prelude.{◌≡◌, ℕ, ◌+◌, ◌<◌, ◌≤◌, ◌*◌, List, [], ◌∷◌, ◌++◌, length, true};
ghost use mathlib.Core.Option.{some};
ghost use lib.ListN.{get_elem?};
ghost use Rattle.ticket_steps.specs.declared.seats.CoreSeat.{CoreSeat};
ghost use Rattle.ticket_steps.specs.Books.{IsLawfulBook, calls_handled};
ghost use Rattle.ticket_steps.specs.CoreStates.{IsCounted};
ghost use Rattle.ticket_steps.specs.Endless.{Endless, IsEndless, IsFair, HoldsLater};
ghost use Rattle.ticket_steps.specs.Happenings.{Happening, calls_made, drew, glanced, recorded_by, recordings, calls_ended};
ghost use Rattle.ticket_steps.specs.History.{entry, of};
ghost use Rattle.ticket_steps.specs.Schedules.{Schedule, IsSchedule, IsLine, ShowsAt};
ghost use Rattle.ticket_steps.specs.Seats.{Holds, answering, holders, is_present, tickets_of};
ghost use Rattle.ticket_steps.specs.Sums.{total, once_below};
ghost use Rattle.ticket_steps.specs.RecordedCalls.{RecordedCall, IsRecordedIn, drawn_at, entry_at, GoesOn};
ghost use Rattle.ticket_steps.specs.declared.seats.Phase.TheVariants.{Waiting};

use crate::books::Kept;

/// A law without code. It holds of the core after every schedule, for every kind of book.
///
/// A schedule is any list of events by any seats, each with its outcome. It begins at the opening of a core
/// with an empty book and 1 to 1,024 numbers. At its end:
///
/// - at most one seat holds (`one_holder`), with the number served as its ticket (`holder`);
/// - the tickets of the waiting and holding seats are the numbers from the number served to the last one
///   drawn, each once (`line`);
/// - entries and refusals together are the number served, plus one while a seat has posted its call and not
///   left (`counted`). They are the calls that were made (`made`);
/// - the number served is the number of calls that have ended (`ended`). It is also the number of calls that
///   all seats together have ended (`calls`). If there is a seat for all numbers, it is the number of calls
///   that this seat has ended (`alone`);
/// - the book is lawful: its entries are legal, and its state is their replay (`lawful`);
/// - the entries are the calls that were recorded, by a post or by a leave, in the order of the posts and
///   leaves (`order`). The entry of a recorded call is at the place that its recording has among them
///   (`placed`), and each entry is that of a recorded call (`recorded`);
/// - first come, first served: if a seat drew before another, its entry comes before the other's
///   (`first_come`);
/// - while a seat waits or holds, fewer calls end than there are numbers (`bypass`);
/// - nothing is stuck: while a seat waits, some seat holds, or the seat whose ticket is served waits and holds
///   at its next look (`unstuck`);
/// - the entries of each number are the calls that it recorded, by a post or by a leave, in their order
///   (`entries`). Numbers that weren't given to a seat have no entries (`strangers`);
/// - each word that a seat has read is the word after some first part of the entries, from the opening on
///   (`glanced`);
/// - no two seats have the same own number (`named`), and exactly one seat answers for each number
///   (`numbered`);
/// - the tickets drawn and the draws left are together at most all draws that the numbers brought (`supply`).
pub fn every_schedule<K: Kept>()
    ensures one_holder { (s : Schedule K.State K.Call K.Reply) → IsSchedule K.Kept s
        → holders s.end.seats ≤ 1 }
    ensures holder { (s : Schedule K.State K.Call K.Reply) → IsSchedule K.Kept s
        → (i ticket : ℕ) (p : CoreSeat) → get_elem? s.end.seats i ≡ some p
        → Holds ticket p.phase → ticket ≡ s.end.served }
    ensures line { (s : Schedule K.State K.Call K.Reply) → IsSchedule K.Kept s → IsLine s.end }
    ensures counted { (s : Schedule K.State K.Call K.Reply) → IsSchedule K.Kept s
        → IsCounted s.end }
    ensures made { (s : Schedule K.State K.Call K.Reply) → IsSchedule K.Kept s
        → calls_made s.happenings ≡ calls_handled s.end.book }
    ensures ended { (s : Schedule K.State K.Call K.Reply) → IsSchedule K.Kept s
        → calls_ended s.happenings ≡ s.end.served }
    ensures calls { (s : Schedule K.State K.Call K.Reply) → IsSchedule K.Kept s
        → total (λ (p : CoreSeat). p.calls) s.end.seats ≡ s.end.served }
    ensures alone { (s : Schedule K.State K.Call K.Reply) → IsSchedule K.Kept s
        → (i : ℕ) (p : CoreSeat) → get_elem? s.end.seats i ≡ some p
        → length p.numbers ≡ s.numbers → p.calls ≡ s.end.served }
    ensures lawful { (s : Schedule K.State K.Call K.Reply) → IsSchedule K.Kept s
        → IsLawfulBook K.step s.opening s.end.book }
    ensures entries { (s : Schedule K.State K.Call K.Reply) → IsSchedule K.Kept s
        → (number : ℕ) → of number s.end.book.entries ≡ recorded_by number s.happenings }
    ensures order { (s : Schedule K.State K.Call K.Reply) → IsSchedule K.Kept s
        → s.end.book.entries ≡ recordings s.happenings }
    ensures placed { (s : Schedule K.State K.Call K.Reply) → IsSchedule K.Kept s
        → (made : RecordedCall K.Call K.Reply) → IsRecordedIn s.happenings made
        → get_elem? s.end.book.entries (entry_at made) ≡ some (entry made.own made.call made.reply) }
    ensures recorded { (s : Schedule K.State K.Call K.Reply) → IsSchedule K.Kept s
        → (place : ℕ) → place < length s.end.book.entries
        → (made : RecordedCall K.Call K.Reply) × IsRecordedIn s.happenings made × (entry_at made ≡ place) }
    ensures first_come { (s : Schedule K.State K.Call K.Reply) → IsSchedule K.Kept s
        → (one other : RecordedCall K.Call K.Reply) → IsRecordedIn s.happenings one → IsRecordedIn s.happenings other
        → drawn_at one < drawn_at other → entry_at one < entry_at other }
    ensures bypass { (s : Schedule K.State K.Call K.Reply) → IsSchedule K.Kept s
        → (own ticket : ℕ) (before after : List (Happening K.Call K.Reply))
        → s.happenings ≡ before ++ drew own ticket ∷ after
        → (i : ℕ) (p : CoreSeat) → get_elem? s.end.seats i ≡ some p
        → tickets_of p.phase ≡ ticket ∷ [] → calls_ended after < s.numbers }
    ensures unstuck { (s : Schedule K.State K.Call K.Reply) → IsSchedule K.Kept s
        → (i ticket : ℕ) (p : CoreSeat) → get_elem? s.end.seats i ≡ some p
        → p.phase ≡ Waiting ticket → GoesOn K.Kept s.draws s.end }
    ensures glanced { (s : Schedule K.State K.Call K.Reply) → IsSchedule K.Kept s
        → (own place word : ℕ) (before after : List (Happening K.Call K.Reply))
        → s.happenings ≡ before ++ glanced own place word ∷ after
        → ShowsAt K.Kept s.opening place word s.end.book.entries }
    ensures strangers { (s : Schedule K.State K.Call K.Reply) → IsSchedule K.Kept s
        → (number : ℕ) → s.numbers ≤ number → of number s.end.book.entries ≡ [] }
    ensures named { (s : Schedule K.State K.Call K.Reply) → IsSchedule K.Kept s
        → (i k : ℕ) (p q : CoreSeat)
        → get_elem? s.end.seats i ≡ some p → is_present p.phase ≡ true
        → get_elem? s.end.seats k ≡ some q → is_present q.phase ≡ true → p.own ≡ q.own → k ≡ i }
    ensures numbered { (s : Schedule K.State K.Call K.Reply) → IsSchedule K.Kept s
        → (number : ℕ) → answering number s.end.seats ≡ once_below number s.numbers }
    ensures supply { (s : Schedule K.State K.Call K.Reply) → IsSchedule K.Kept s
        → s.end.next + total (λ (p : CoreSeat). p.left) s.end.seats ≤ s.numbers * s.draws }
{}

/// A law without code. No caller starves: in every endless schedule in which each waiting seat looks at some
/// later time, and each holder leaves at some later time, each seat that drew a ticket holds with that ticket
/// at some later time (`fair`).
pub fn every_endless_schedule<K: Kept>()
    ensures fair { (s : Endless K.State K.Call K.Reply) → IsEndless K.Kept s → IsFair s
        → (n own ticket : ℕ) → s.happening n ≡ drew own ticket → HoldsLater s n own ticket }
{}
