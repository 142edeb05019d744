//! Laws without code: of the history that all callers share, of every pass, and of calls that have returned.

ghost use Rattle.std.specs.Prelude.{ℕ, ◌≡◌, ◌+◌, ◌<◌, ◌≤◌, ◌^◌, List, [], ◌∷◌, ◌++◌, length, Bool, true, false, Option, Some};
ghost use Rattle.std.specs.List.{All, list_any};
ghost use mathlib.Core.List.{IsPrefix};
ghost use mathlib.Core.Option.{some};
ghost use lib.ListN.{get_elem?};
ghost use Rattle.ticket_steps.specs.declared.books.Entry.{Entry};
ghost use Rattle.ticket_steps.specs.declared.seats.CoreSeat.{CoreSeat};
ghost use Rattle.ticket_steps.specs.Books.{calls_handled};
ghost use Rattle.ticket_steps.specs.Endless.{Endless, IsEndless, IsFair, HoldsLater};
ghost use Rattle.ticket_steps.specs.Happenings.{Happening, calls_made, drew, recorded_by, recordings, calls_ended};
ghost use Rattle.ticket_steps.specs.History.{entry, of, replay, IsLegal};
ghost use Rattle.ticket_steps.specs.Schedules.{Schedule};
ghost use Rattle.ticket_steps.specs.Seats.{poster_count_of, tickets_of};
ghost use Rattle.ticket_steps.specs.Sums.{occurrences};
ghost use Rattle.ticket_steps.specs.RecordedCalls.{RecordedCall, IsRecordedIn, drawn_at, entry_at, GoesOn};
ghost use Rattle.ticket_steps.specs.declared.seats.Phase.TheVariants.{Waiting};
ghost use Rattle.ticket_lock.specs.Callers.{Caller, caller_after_draw};
ghost use Rattle.ticket_lock.specs.Views.{Follows};
ghost use Rattle.check_objects.specs.Configuration.{Configuration};
ghost use Rattle.check_states.specs.declared.standing.Standing.{Standing};
ghost use Rattle.check_states.specs.declared.state.Code.{Code};
ghost use Rattle.check_sched.specs.declared.call.Call.{Call};
ghost use Rattle.check_sched.specs.declared.call.Call.TheVariants as call;
ghost use Rattle.check_sched.specs.declared.call.Reply.{Reply};
ghost use Rattle.check_sched.specs.declared.call.Reply.TheVariants as reply;
ghost use Rattle.check_sched.specs.Runs.{begins, ends, runs_begun, runs_under};
ghost use Rattle.check_sched.specs.State.{State, opening, run_number_of};
ghost use Rattle.check_sched.specs.Step.{step};
ghost use Rattle.check_book.specs.BookState.{BookState};
ghost use Rattle.check_book.specs.contracts.book.BookKept.TheImpl.{ghosts as kept_book};
ghost use Rattle.check_desk.specs.Answered.{IsMadeAfter};
ghost use Rattle.check_desk.specs.declared.desk.Desk.{Desk};
ghost use Rattle.check_desk.specs.declared.passes.{Hold.Hold, Pass.Pass, Turn.Turn};
ghost use Rattle.check_desk.specs.Desks.{AreNewPasses, HasRecorded, IsHistoryOf, IsPassOf, objects_of, caller_after_reply, standing_after};
ghost use Rattle.check_desk.specs.Passes.{hold_caller, pass_of, turn_caller};
ghost use Rattle.check_desk.specs.Reports.{HasNoReport, HasSeen, IsStandingAfter};
ghost use Rattle.check_desk.specs.Schedules.{IsScheduleAfter, IsScheduleFrom, IsScheduleOver};

/// A law without code. The history that all callers share is that of one thread. This holds for all their
/// calls, and for every order of the steps of their passes.
///
/// It holds for every setup, start and room, for 1 to 1,024 passes, and for every schedule of the core from
/// the opening on. When no seat holds, the book is the one at home. While a seat holds, it is the book as its
/// holder took it out, with what the holder has posted since. So no clause asks whether the lock is free.
///
/// - Each reply is the sequential scheduler's at its place (`legal`), and the scheduler is in the
///   state after those calls (`state`).
/// - The history shows no object taken while it runs (`once`), and the numbers of runs are 1,
///   2, 3 and so on (`runs`).
/// - Each number's entries are the calls that it recorded, each once and in its order (`entries`). A
///   number that was never given out has no entries (`strangers`).
/// - All entries are the calls that were recorded, in the order of the posts and leaves (`order`). The
///   entry of a recorded call is at the place of its recording (`placed`), and each entry is that of such a
///   call (`recorded`).
/// - First come, first served: if a pass drew before another, its entry comes before the other's
///   (`first_come`). While a pass waits, fewer calls of others end than there are passes (`bypass`).
/// - Nothing is stuck: while a pass waits, some pass holds, or the pass whose ticket is served waits and holds
///   at its next look (`unstuck`). In every endless schedule in which each pass that waits looks again and
///   each holder leaves, each pass that drew holds later (`fair`).
/// - Entries and refusals together are the calls that were made (`made`). If one seat has all
///   numbers, they are the calls that it counts, plus one while it has posted a call and not left
///   (`all`).
///
/// A book that was [renewed](check_book::Book::renew) continues the books before it. For each such book, and
/// any legal history `earlier` that led to its opening state:
///
/// - `earlier` followed by its entries is one thread's history from the setup's opening on
///   (`joined_legal`), and leaves the state in which the scheduler is (`joined_state`).
/// - No object is taken while the whole history shows it running (`joined_once`). If a check was running when
///   a book ended, its object is taken again only after the end of that check. The numbers of runs continue
///   (`joined_runs`).
/// - The clauses about the schedule of the book's own callers hold as for the first book
///   (`later_entries`, `later_strangers`, `later_made`, `later_all`).
pub fn headline()
    ensures legal { (setup : Configuration) (start room : ℕ) (s : Schedule BookState Call Reply)
        → IsScheduleOver setup start room s → IsLegal step (opening setup start) s.end.book.entries }
    ensures state { (setup : Configuration) (start room : ℕ) (s : Schedule BookState Call Reply)
        → IsScheduleOver setup start room s
        → s.end.book.state.sched ≡ replay step (opening setup start) s.end.book.entries }
    ensures once { (setup : Configuration) (start room : ℕ) (s : Schedule BookState Call Reply)
        → IsScheduleOver setup start room s
        → (front back : List (Entry Call Reply)) (e : Entry Call Reply) (object run other : ℕ)
        → s.end.book.entries ≡ front ++ e ∷ back → begins object run e ≡ true
        → runs_under object other front ≡ false }
    ensures runs { (setup : Configuration) (start room : ℕ) (s : Schedule BookState Call Reply)
        → IsScheduleOver setup start room s
        → (front back : List (Entry Call Reply)) (e : Entry Call Reply) (object run : ℕ)
        → s.end.book.entries ≡ front ++ e ∷ back → begins object run e ≡ true
        → run ≡ runs_begun front + 1 }
    ensures entries { (setup : Configuration) (start room : ℕ) (s : Schedule BookState Call Reply)
        → IsScheduleOver setup start room s
        → (number : ℕ) → of number s.end.book.entries ≡ recorded_by number s.happenings }
    ensures order { (setup : Configuration) (start room : ℕ) (s : Schedule BookState Call Reply)
        → IsScheduleOver setup start room s
        → s.end.book.entries ≡ recordings s.happenings }
    ensures placed { (setup : Configuration) (start room : ℕ) (s : Schedule BookState Call Reply)
        → IsScheduleOver setup start room s
        → (made : RecordedCall Call Reply) → IsRecordedIn s.happenings made
        → get_elem? s.end.book.entries (entry_at made) ≡ some (entry made.own made.call made.reply) }
    ensures recorded { (setup : Configuration) (start room : ℕ) (s : Schedule BookState Call Reply)
        → IsScheduleOver setup start room s
        → (place : ℕ) → place < length s.end.book.entries
        → (made : RecordedCall Call Reply) × IsRecordedIn s.happenings made × (entry_at made ≡ place) }
    ensures first_come { (setup : Configuration) (start room : ℕ) (s : Schedule BookState Call Reply)
        → IsScheduleOver setup start room s
        → (one other : RecordedCall Call Reply) → IsRecordedIn s.happenings one → IsRecordedIn s.happenings other
        → drawn_at one < drawn_at other → entry_at one < entry_at other }
    ensures bypass { (setup : Configuration) (start room : ℕ) (s : Schedule BookState Call Reply)
        → IsScheduleOver setup start room s
        → (own ticket : ℕ) (before after : List (Happening Call Reply))
        → s.happenings ≡ before ++ drew own ticket ∷ after
        → (i : ℕ) (p : CoreSeat) → get_elem? s.end.seats i ≡ some p
        → tickets_of p.phase ≡ ticket ∷ [] → calls_ended after < s.numbers }
    ensures unstuck { (setup : Configuration) (start room : ℕ) (s : Schedule BookState Call Reply)
        → IsScheduleOver setup start room s
        → (i ticket : ℕ) (p : CoreSeat) → get_elem? s.end.seats i ≡ some p
        → p.phase ≡ Waiting ticket → GoesOn kept_book s.draws s.end }
    ensures fair { (s : Endless BookState Call Reply) → IsEndless kept_book s → IsFair s
        → (n own ticket : ℕ) → s.happening n ≡ drew own ticket → HoldsLater s n own ticket }
    ensures strangers { (setup : Configuration) (start room : ℕ) (s : Schedule BookState Call Reply)
        → IsScheduleOver setup start room s
        → (number : ℕ) → s.numbers ≤ number → of number s.end.book.entries ≡ [] }
    ensures made { (setup : Configuration) (start room : ℕ) (s : Schedule BookState Call Reply)
        → IsScheduleOver setup start room s → calls_handled s.end.book ≡ calls_made s.happenings }
    ensures all { (setup : Configuration) (start room : ℕ) (s : Schedule BookState Call Reply)
        → IsScheduleOver setup start room s
        → (i : ℕ) (p : CoreSeat) → get_elem? s.end.seats i ≡ some p
        → length p.numbers ≡ s.numbers
        → calls_handled s.end.book ≡ p.calls + poster_count_of p.phase }
    ensures joined_legal { (setup : Configuration) (start : ℕ) (earlier : List (Entry Call Reply)) (room : ℕ)
        → (s : Schedule BookState Call Reply) → IsScheduleAfter (opening setup start) earlier room s
        → IsLegal step (opening setup start) (earlier ++ s.end.book.entries) }
    ensures joined_state { (setup : Configuration) (start : ℕ) (earlier : List (Entry Call Reply)) (room : ℕ)
        → (s : Schedule BookState Call Reply) → IsScheduleAfter (opening setup start) earlier room s
        → s.end.book.state.sched
        ≡ replay step (opening setup start) (earlier ++ s.end.book.entries) }
    ensures joined_once { (setup : Configuration) (start : ℕ) (earlier : List (Entry Call Reply)) (room : ℕ)
        → (s : Schedule BookState Call Reply) → IsScheduleAfter (opening setup start) earlier room s
        → (front back : List (Entry Call Reply)) (e : Entry Call Reply) (object run other : ℕ)
        → earlier ++ s.end.book.entries ≡ front ++ e ∷ back → begins object run e ≡ true
        → runs_under object other front ≡ false }
    ensures joined_runs { (setup : Configuration) (start : ℕ) (earlier : List (Entry Call Reply)) (room : ℕ)
        → (s : Schedule BookState Call Reply) → IsScheduleAfter (opening setup start) earlier room s
        → (front back : List (Entry Call Reply)) (e : Entry Call Reply) (object run : ℕ)
        → earlier ++ s.end.book.entries ≡ front ++ e ∷ back → begins object run e ≡ true
        → run ≡ runs_begun front + 1 }
    ensures later_entries { (setup : Configuration) (start : ℕ) (earlier : List (Entry Call Reply)) (room : ℕ)
        → (s : Schedule BookState Call Reply) → IsScheduleAfter (opening setup start) earlier room s
        → (number : ℕ) → of number s.end.book.entries ≡ recorded_by number s.happenings }
    ensures later_strangers { (setup : Configuration) (start : ℕ) (earlier : List (Entry Call Reply)) (room : ℕ)
        → (s : Schedule BookState Call Reply) → IsScheduleAfter (opening setup start) earlier room s
        → (number : ℕ) → s.numbers ≤ number → of number s.end.book.entries ≡ [] }
    ensures later_made { (setup : Configuration) (start : ℕ) (earlier : List (Entry Call Reply)) (room : ℕ)
        → (s : Schedule BookState Call Reply) → IsScheduleAfter (opening setup start) earlier room s
        → calls_handled s.end.book ≡ calls_made s.happenings }
    ensures later_all { (setup : Configuration) (start : ℕ) (earlier : List (Entry Call Reply)) (room : ℕ)
        → (s : Schedule BookState Call Reply) → IsScheduleAfter (opening setup start) earlier room s
        → (i : ℕ) (p : CoreSeat) → get_elem? s.end.seats i ≡ some p
        → length p.numbers ≡ s.numbers
        → calls_handled s.end.book ≡ p.calls + poster_count_of p.phase }
{}

/// The same as [`headline`], for a book that opens in any state. A book that was
/// [resumed](check_book::Book::resume) from a saved state opens like that, over the same setup or another.
///
/// - Each reply is the sequential scheduler's at its place, from that state on (`legal`), and the
///   scheduler is in the state after those calls (`state`).
/// - The history shows no object taken while it runs (`once`). An object whose check was already running
///   isn't taken until that run was reported or abandoned (`out`). The numbers of runs continue from those
///   that were handed out before (`runs`).
/// - The clauses about the schedule of the book's callers hold as in `headline` (`entries`, `strangers`,
///   `order`, `placed`, `recorded`, `first_come`, `bypass`, `unstuck`, `made`, `all`).
///
/// A [renewed](check_book::Book::renew) book opens in such a state too, so the clauses about callers hold for
/// it. `earlier`, a legal history from a state on that led to its opening, followed by its entries is one
/// history from that state on. The first five clauses hold for it: `joined_legal`, `joined_state`,
/// `joined_once`, `joined_out` and `joined_runs`.
pub fn headline_from_any_state()
    ensures legal { (opened : BookState) (s : Schedule BookState Call Reply) → IsScheduleFrom opened s
        → IsLegal step opened.sched s.end.book.entries }
    ensures state { (opened : BookState) (s : Schedule BookState Call Reply) → IsScheduleFrom opened s
        → s.end.book.state.sched ≡ replay step opened.sched s.end.book.entries }
    ensures once { (opened : BookState) (s : Schedule BookState Call Reply) → IsScheduleFrom opened s
        → (front back : List (Entry Call Reply)) (e : Entry Call Reply) (object run other : ℕ)
        → s.end.book.entries ≡ front ++ e ∷ back → begins object run e ≡ true
        → runs_under object other front ≡ false }
    ensures out { (opened : BookState) (s : Schedule BookState Call Reply) → IsScheduleFrom opened s
        → (front back : List (Entry Call Reply)) (e : Entry Call Reply) (object run other : ℕ)
        → s.end.book.entries ≡ front ++ e ∷ back → begins object run e ≡ true
        → run_number_of object opened.sched ≡ Some other → list_any (ends object other) front ≡ true }
    ensures runs { (opened : BookState) (s : Schedule BookState Call Reply) → IsScheduleFrom opened s
        → (front back : List (Entry Call Reply)) (e : Entry Call Reply) (object run : ℕ)
        → s.end.book.entries ≡ front ++ e ∷ back → begins object run e ≡ true
        → run ≡ opened.sched.runs + runs_begun front + 1 }
    ensures entries { (opened : BookState) (s : Schedule BookState Call Reply) → IsScheduleFrom opened s
        → (number : ℕ) → of number s.end.book.entries ≡ recorded_by number s.happenings }
    ensures order { (opened : BookState) (s : Schedule BookState Call Reply) → IsScheduleFrom opened s
        → s.end.book.entries ≡ recordings s.happenings }
    ensures placed { (opened : BookState) (s : Schedule BookState Call Reply) → IsScheduleFrom opened s
        → (made : RecordedCall Call Reply) → IsRecordedIn s.happenings made
        → get_elem? s.end.book.entries (entry_at made) ≡ some (entry made.own made.call made.reply) }
    ensures recorded { (opened : BookState) (s : Schedule BookState Call Reply) → IsScheduleFrom opened s
        → (place : ℕ) → place < length s.end.book.entries
        → (made : RecordedCall Call Reply) × IsRecordedIn s.happenings made × (entry_at made ≡ place) }
    ensures first_come { (opened : BookState) (s : Schedule BookState Call Reply) → IsScheduleFrom opened s
        → (one other : RecordedCall Call Reply) → IsRecordedIn s.happenings one → IsRecordedIn s.happenings other
        → drawn_at one < drawn_at other → entry_at one < entry_at other }
    ensures bypass { (opened : BookState) (s : Schedule BookState Call Reply) → IsScheduleFrom opened s
        → (own ticket : ℕ) (before after : List (Happening Call Reply))
        → s.happenings ≡ before ++ drew own ticket ∷ after
        → (i : ℕ) (p : CoreSeat) → get_elem? s.end.seats i ≡ some p
        → tickets_of p.phase ≡ ticket ∷ [] → calls_ended after < s.numbers }
    ensures unstuck { (opened : BookState) (s : Schedule BookState Call Reply) → IsScheduleFrom opened s
        → (i ticket : ℕ) (p : CoreSeat) → get_elem? s.end.seats i ≡ some p
        → p.phase ≡ Waiting ticket → GoesOn kept_book s.draws s.end }
    ensures strangers { (opened : BookState) (s : Schedule BookState Call Reply) → IsScheduleFrom opened s
        → (number : ℕ) → s.numbers ≤ number → of number s.end.book.entries ≡ [] }
    ensures made { (opened : BookState) (s : Schedule BookState Call Reply) → IsScheduleFrom opened s
        → calls_handled s.end.book ≡ calls_made s.happenings }
    ensures all { (opened : BookState) (s : Schedule BookState Call Reply) → IsScheduleFrom opened s
        → (i : ℕ) (p : CoreSeat) → get_elem? s.end.seats i ≡ some p
        → length p.numbers ≡ s.numbers
        → calls_handled s.end.book ≡ p.calls + poster_count_of p.phase }
    ensures joined_legal { (from : State) (earlier : List (Entry Call Reply)) (room : ℕ)
        → (s : Schedule BookState Call Reply) → IsScheduleAfter from earlier room s
        → IsLegal step from (earlier ++ s.end.book.entries) }
    ensures joined_state { (from : State) (earlier : List (Entry Call Reply)) (room : ℕ)
        → (s : Schedule BookState Call Reply) → IsScheduleAfter from earlier room s
        → s.end.book.state.sched ≡ replay step from (earlier ++ s.end.book.entries) }
    ensures joined_once { (from : State) (earlier : List (Entry Call Reply)) (room : ℕ)
        → (s : Schedule BookState Call Reply) → IsScheduleAfter from earlier room s
        → (front back : List (Entry Call Reply)) (e : Entry Call Reply) (object run other : ℕ)
        → earlier ++ s.end.book.entries ≡ front ++ e ∷ back → begins object run e ≡ true
        → runs_under object other front ≡ false }
    ensures joined_out { (from : State) (earlier : List (Entry Call Reply)) (room : ℕ)
        → (s : Schedule BookState Call Reply) → IsScheduleAfter from earlier room s
        → (front back : List (Entry Call Reply)) (e : Entry Call Reply) (object run other : ℕ)
        → earlier ++ s.end.book.entries ≡ front ++ e ∷ back → begins object run e ≡ true
        → run_number_of object from ≡ Some other → list_any (ends object other) front ≡ true }
    ensures joined_runs { (from : State) (earlier : List (Entry Call Reply)) (room : ℕ)
        → (s : Schedule BookState Call Reply) → IsScheduleAfter from earlier room s
        → (front back : List (Entry Call Reply)) (e : Entry Call Reply) (object run : ℕ)
        → earlier ++ s.end.book.entries ≡ front ++ e ∷ back → begins object run e ≡ true
        → run ≡ from.runs + runs_begun front + 1 }
{}

/// A call that [`Desk::ask`](crate::Desk::ask) answered is recorded in the desk's schedule, after all calls that
/// its pass knew when it asked (`made`).
///
/// The schedule is the one that [`Desk::close`](crate::Desk::close) names, by clause `schedule`. Its history
/// begins with what the pass has seen after the answer, by the clauses of later calls and of `gather`. The
/// history that a pass has seen contains its own calls, those of passes that were gathered into it, and what it
/// glanced at.
pub fn answered_calls()
    ensures made { (opened : BookState) (s : Schedule BookState Call Reply) → IsScheduleFrom opened s
        → (call : Call) (reply : Reply) (before after : Pass)
        → HasRecorded call reply (pass_of before) (pass_of after)
        → IsPrefix (pass_of after).seen s.end.book.entries
        → IsMadeAfter (pass_of before).seen (pass_of before).own call reply s }
{}

/// A law of every pass, at any time.
///
/// A pass has seen a history of its desk (`legal`). It answers for its own number (`own`), for at least one
/// number (`nonempty`) and for at most 1,024 (`bounded`). It has made fewer than 2^42 calls (`bounded_calls`). New passes
/// are of their desk (`new`).
pub fn every_pass()
    ensures legal { (desk : Desk) → (pass : Pass) → IsPassOf desk pass
        → IsHistoryOf desk (pass_of pass).seen }
    ensures own { (pass : Pass) → 0 < occurrences (pass_of pass).own (pass_of pass).numbers }
    ensures nonempty { (pass : Pass) → 0 < length (pass_of pass).numbers }
    ensures bounded { (pass : Pass) → length (pass_of pass).numbers ≤ 1024 }
    ensures bounded_calls { (pass : Pass) → (pass_of pass).calls < 2 ^ 42 }
    ensures new { (desk : Desk) → (number : ℕ) → (passes : List Pass)
        → AreNewPasses desk number passes → All (IsPassOf desk) passes }
{}

/// A report whose call has returned is on the board, for the pass that made it and for each pass that has
/// gathered it. This follows from the clauses of `finish`, `ask`, `gather` and `glance` alone.
///
/// The history that its pass has seen contains the call, under the pass's number (`finished`, `asked`). The
/// call stays there while a turn waits (`waiting`), and in everything that begins with that history
/// (`later`). This includes the histories that the pass sees by later polls, calls and glances, and those of
/// passes that have gathered it. So the standing that such a pass sees at a glance is the standing after a
/// history of the desk that contains the call (`glanced`). Let the call be a report whose reply was the
/// object's standing, with no such report after it. Then the glance shows that very standing (`same_standing`).
///
/// No clause says this of other passes: as far as contracts know, they may see the standing before the
/// report. The report is posted before its hold ends because of the order of operations on the atomic word.
pub fn returned_reports()
    ensures finished { (call : Call) → (reply : Reply) → (hold : Hold) → (pass : Pass)
        → pass_of pass ≡ caller_after_reply call reply (hold_caller hold).seen (hold_caller hold)
        → HasSeen (entry (hold_caller hold).own call reply) (pass_of pass) }
    ensures asked { (call : Call) → (reply : Reply) → (before after : Pass)
        → HasRecorded call reply (pass_of before) (pass_of after)
        → HasSeen (entry (pass_of before).own call reply) (pass_of after) }
    ensures waiting { (e : Entry Call Reply) → (pass : Pass) → (turn : Turn)
        → turn_caller turn ≡ caller_after_draw (pass_of pass) → HasSeen e (pass_of pass)
        → HasSeen e (turn_caller turn) }
    ensures later { (e : Entry Call Reply) → (caller after : Caller Call Reply)
        → Follows caller.numbers caller.seen after.seen → HasSeen e caller → HasSeen e after }
    ensures glanced { (desk : Desk) → (e : Entry Call Reply) → (before after : Pass) → (object : ℕ)
        → (standing : Option Standing) → HasSeen e (pass_of before)
        → Follows (pass_of before).numbers (pass_of before).seen (pass_of after).seen
        → IsHistoryOf desk (pass_of after).seen
        → standing ≡ Some (standing_after desk (pass_of after).seen object)
        → IsStandingAfter desk e object standing }
    ensures same_standing { (desk : Desk) → (before since : List (Entry Call Reply))
        → (own object run : ℕ) → (code : Code) → (standing : Standing) → (changed : Bool)
        → (next : Option ℕ) → object < objects_of desk
        → IsHistoryOf desk (before
        ++ entry own (call.Report object run code) (reply.Standing standing changed next) ∷ since)
        → HasNoReport object since
        → standing_after desk (before
        ++ entry own (call.Report object run code) (reply.Standing standing changed next) ∷ since)
        object ≡ standing }
{}
