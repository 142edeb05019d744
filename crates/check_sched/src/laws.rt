//! Laws of the definitions. Each is the contract of a function without parameters and code.

ghost use Rattle.std.specs.Prelude.{ℕ, ◌≡◌, ◌≢◌, ◌+◌, ◌^◌, ◌<◌, ◌≤◌, true, false, List, [], ◌∷◌, ◌++◌, None, Some, slice_get};
ghost use Rattle.std.specs.List.{list_any};
ghost use Rattle.std.specs.List.Sorted.{IsPermutation};
ghost use Rattle.ticket_steps.specs.declared.books.Entry.{Entry};
ghost use Rattle.ticket_steps.specs.History.{replay, IsLegal};
ghost use Rattle.circular_buffer.specs.Buffer.{keep_last};
ghost use Rattle.check_objects.specs.Configuration.{Configuration, IsSetup, name_of, object_count};
ghost use Rattle.check_states.specs.declared.times.TheConstants.{LAST_MOMENT, LAST_TIME};
ghost use Rattle.check_states.specs.declared.standing.Standing.{Standing};
ghost use Rattle.check_states.specs.Standing.{is_soft_problem, pending_standing};
ghost use Rattle.check_saved_state.specs.declared.saved.TheConstants.{MAX_RUNS};
ghost use Rattle.check_sched.specs.declared.call.Call.{Call};
ghost use Rattle.check_saved_state.specs.Saved.{IsSaved, Saved, SavedObject, saved_by_name};
ghost use Rattle.check_sched.specs.Saved.{state_after_resume, saved_run_number_of, saved_of, continues_running};
ghost use Rattle.check_sched.specs.State.{IsStandingOf, IsState, IsWithinLimit, State, flap_thresholds_of, is_host, max_attempts_of, opening, results_at};
ghost use Rattle.check_sched.specs.State.{run_number_of, scheduling_at, standing_at};
ghost use Rattle.check_sched.specs.Step.{after, step};
ghost use Rattle.check_sched.specs.Runs.{begins, ends, runs_begun, runs_under};
ghost use Rattle.check_sched.specs.Flapping.{flapping_in, never_checked, reported_states, with_results};
ghost use Rattle.check_sched.specs.declared.call.Reply.{Reply};

mod lasting;
mod passed_over;

pub use lasting::never_forgotten;
pub use passed_over::passed_over_once;

/// After every sequence of calls of a newly opened scheduler, no more services are being checked than the
/// option `max_concurrent_checks` allows. 0 means no limit.
pub fn limit()
    ensures { (setup : Configuration) → (start : ℕ) → (calls : List Call)
        → IsWithinLimit (after (opening setup start) calls) }
{}

/// After every sequence of calls of a newly opened scheduler, an object that was never checked has the
/// standing [`pending`](check_states::pending).
pub fn never_checked()
    ensures { (setup : Configuration) → (start : ℕ) → (calls : List Call) → (object : ℕ)
        → (standing : Standing)
        → slice_get (after (opening setup start) calls).standings object ≡ Some standing
        → standing.checked ≡ false → standing ≡ pending_standing (is_host setup object) }
{}

/// After every history of a scheduler that was opened over a setup of [`Setup`](check_objects::Setup), each
/// object has a standing that it can have. The standing is lawful for the object's maximum of attempts, its
/// states are of the object's sort, and it is pending until the object is checked. The replies in the history
/// can be any replies, so this holds of every legal history.
pub fn standings_are_lawful()
    ensures { (setup : Configuration) → (start : ℕ) → (history : List (Entry Call Reply))
        → (object : ℕ) → IsSetup setup → object < object_count setup
        → IsStandingOf setup object
        (standing_at (replay step (opening setup start) history).standings object) }
{}

/// The limits of moments, of times and of runs, as numbers: definitions contain these numbers.
pub fn constants()
    ensures last_moment { LAST_MOMENT ≡ 2 ^ 60 }
    ensures last_time { LAST_TIME ≡ 2 ^ 61 }
    ensures max_runs { MAX_RUNS ≡ 2 ^ 60 }
{}

/// In every legal history of a newly opened scheduler, no object is taken while it runs (`once`). When an
/// object is taken, each earlier run of it in the history has ended, by its result or by an abandon. The
/// numbers of runs are 1, 2, 3 and so on (`numbers`). The history of a book of check_book is such a history.
pub fn runs_once()
    ensures once { (setup : Configuration) → (start : ℕ) → (front back : List (Entry Call Reply))
        → (e : Entry Call Reply) → (object run other : ℕ)
        → IsLegal step (opening setup start) (front ++ e ∷ back) → begins object run e ≡ true
        → runs_under object other front ≡ false }
    ensures numbers { (setup : Configuration) → (start : ℕ)
        → (front back : List (Entry Call Reply)) → (e : Entry Call Reply) → (object run : ℕ)
        → IsLegal step (opening setup start) (front ++ e ∷ back) → begins object run e ≡ true
        → run ≡ runs_begun front + 1 }
{}

/// In every legal history of a newly opened scheduler, the history determines an object's stored results.
/// They depend on the states in the answers to the object's reports, in their order. Fold these states one
/// after another, under the object's thresholds. The outcome is the stored results, and whether the object
/// flaps (`fold`). Each state pushes the oldest one out if there are 21 already. The results that include it
/// decide whether the object begins to flap or stops. So the stored results are the last 21 of all (`last`).
/// The history of a book of check_book is such a history.
pub fn flaps_by_history()
    ensures fold { (setup : Configuration) → (start : ℕ) → (history : List (Entry Call Reply))
        → (object : ℕ) → IsLegal step (opening setup start) history
        → flapping_in (replay step (opening setup start) history) object
        ≡ with_results (flap_thresholds_of setup object) never_checked (reported_states object history) }
    ensures last { (setup : Configuration) → (start : ℕ) → (history : List (Entry Call Reply))
        → (object : ℕ) → IsLegal step (opening setup start) history
        → results_at (replay step (opening setup start) history).results object
        ≡ keep_last 21 (reported_states object history) }
{}

/// A saved state is complete. If it is resumed over the same setup, the state is the saved one, except for
/// the start, which no call reads.
pub fn resumed_over_the_same()
    ensures { (s : State) → (start : ℕ) → IsState s
        → state_after_resume s.setup (saved_of s) start ≡ record s { start = start } }
{}

/// A scheduler that is resumed from any saved state, over any setup and from any moment, is in a state that a
/// scheduler can be in (`state_after_resume`). The saved state of a scheduler, in any state that it can be in, is well
/// formed (`saved`).
pub fn resumed_states()
    ensures state_after_resume { (setup : Configuration) → (saved : Saved) → (start : ℕ) → IsSetup setup
        → IsSaved saved → start ≤ LAST_MOMENT → IsState (state_after_resume setup saved start) }
    ensures saved { (s : State) → IsState s → IsSaved (saved_of s) }
{}

/// The state with which a scheduler opens is one that a scheduler can be in.
pub fn opening_states()
    ensures { (setup : Configuration) → (start : ℕ) → IsSetup setup → start ≤ LAST_MOMENT
        → IsState (opening setup start) }
{}

/// If no object was saved and no run was handed out, a scheduler resumes in the state with which one opens
/// (`nothing`). Take an object whose full name wasn't saved. For every saved state of the others, it has the
/// same scheduling, standing and results as at an opening from the same moment (`scheduling`, `standing`,
/// `results`).
pub fn new_objects()
    ensures nothing { (setup : Configuration) → (before start : ℕ)
        → state_after_resume setup (record { start = before; runs = 0; objects = [] }) start ≡ opening setup start }
    ensures scheduling { (setup : Configuration) → (saved : Saved) → (start object : ℕ)
        → object < object_count setup → saved_by_name saved (name_of setup object) ≡ None
        → scheduling_at (state_after_resume setup saved start).objects object
        ≡ scheduling_at (opening setup start).objects object }
    ensures standing { (setup : Configuration) → (saved : Saved) → (start object : ℕ)
        → object < object_count setup → saved_by_name saved (name_of setup object) ≡ None
        → standing_at (state_after_resume setup saved start).standings object
        ≡ standing_at (opening setup start).standings object }
    ensures results { (setup : Configuration) → (saved : Saved) → (start object : ℕ)
        → object < object_count setup → saved_by_name saved (name_of setup object) ≡ None
        → results_at (state_after_resume setup saved start).results object
        ≡ results_at (opening setup start).results object }
{}

/// Every call leaves a state that a scheduler can be in (`states`). So histories join. Take a history that is
/// legal up to the moment of a save, and one that is legal after a resume over the same setup, from any
/// moment. The first followed by the second is legal as a whole (`joined`).
pub fn resumed_histories_join()
    ensures states { (s : State) → (call : Call) → IsState s → IsState (step s call).0 }
    ensures joined { (s : State) → (before later : List (Entry Call Reply)) → (start : ℕ) → IsState s
        → IsLegal step s before
        → IsLegal step (state_after_resume (replay step s before).setup (saved_of (replay step s before)) start) later
        → IsLegal step s (before ++ later) }
{}

/// A law of a scheduler that is resumed over any setup, from any saved state. Each run that is handed out
/// later has a greater number than those handed out before (`greater`). No run number in a history is above
/// the number of runs that is saved at the end of the history (`counted`). So no run number comes twice. An
/// object whose check was running isn't taken until that run is reported or abandoned. The exception is a
/// service if the limit ended the runs of all services (`out`).
pub fn resumed_runs()
    ensures greater { (setup : Configuration) → (saved : Saved) → (start : ℕ)
        → (front back : List (Entry Call Reply)) → (e : Entry Call Reply) → (object run : ℕ)
        → IsLegal step (state_after_resume setup saved start) (front ++ e ∷ back) → begins object run e ≡ true
        → saved.runs < run }
    ensures counted { (s : State) → (front back : List (Entry Call Reply)) → (e : Entry Call Reply)
        → (object run : ℕ) → IsLegal step s (front ++ e ∷ back) → begins object run e ≡ true
        → run ≤ (saved_of (replay step s (front ++ e ∷ back))).runs }
    ensures out { (setup : Configuration) → (saved : Saved) → (start : ℕ)
        → (front back : List (Entry Call Reply)) → (e : Entry Call Reply)
        → (object run other : ℕ) → object < object_count setup
        → saved_run_number_of setup saved object ≡ Some other → continues_running setup saved start object ≡ true
        → IsLegal step (state_after_resume setup saved start) (front ++ e ∷ back) → begins object run e ≡ true
        → list_any (ends object other) front ≡ true }
{}

/// A resume over any setup makes no soft problem hard, unless the object's maximum of attempts is 1.
pub fn resumed_problems_stay_soft()
    ensures { (setup : Configuration) → (saved : Saved) → (start object : ℕ) → (o : SavedObject)
        → object < object_count setup → saved_by_name saved (name_of setup object) ≡ Some o
        → is_soft_problem o.standing ≡ true → max_attempts_of setup object ≢ 1
        → is_soft_problem (standing_at (state_after_resume setup saved start).standings object) ≡ true }
{}

/// The order of the objects in a saved state has no effect: every order is resumed as the same state.
pub fn resumed_in_any_order()
    ensures { (setup : Configuration) → (saved : Saved) → (others : List SavedObject) → (start : ℕ)
        → IsSaved saved → IsPermutation saved.objects others
        → state_after_resume setup (record saved { objects = others }) start ≡ state_after_resume setup saved start }
{}

/// The laws of a newly opened scheduler hold from every state that a scheduler can be in, for example after a
/// resume. After every sequence of calls, no more services are being checked than the limit allows (`limit`).
/// An object that was never checked has a pending standing (`never_checked`). Each object has a standing that
/// it can have (`standings`).
pub fn from_any_state()
    ensures limit { (s : State) → (calls : List Call) → IsState s → IsWithinLimit (after s calls) }
    ensures never_checked { (s : State) → (calls : List Call) → (object : ℕ) → (standing : Standing)
        → IsState s → slice_get (after s calls).standings object ≡ Some standing
        → standing.checked ≡ false → standing ≡ pending_standing (is_host s.setup object) }
    ensures standings { (s : State) → (history : List (Entry Call Reply)) → (object : ℕ) → IsState s
        → object < object_count s.setup
        → IsStandingOf s.setup object (standing_at (replay step s history).standings object) }
{}

/// In every legal history from such a state, no object is taken while the history shows it running (`once`).
/// An object that was running before isn't taken until that run has ended (`out`). The numbers of runs
/// continue those that were handed out before (`numbers`), so no number comes twice.
pub fn runs_from_any_state()
    ensures once { (s : State) → (front back : List (Entry Call Reply)) → (e : Entry Call Reply)
        → (object run other : ℕ) → IsLegal step s (front ++ e ∷ back) → begins object run e ≡ true
        → runs_under object other front ≡ false }
    ensures out { (s : State) → (front back : List (Entry Call Reply)) → (e : Entry Call Reply)
        → (object run other : ℕ) → IsLegal step s (front ++ e ∷ back) → begins object run e ≡ true
        → run_number_of object s ≡ Some other → list_any (ends object other) front ≡ true }
    ensures numbers { (s : State) → (front back : List (Entry Call Reply)) → (e : Entry Call Reply)
        → (object run : ℕ) → IsLegal step s (front ++ e ∷ back) → begins object run e ≡ true
        → run ≡ s.runs + runs_begun front + 1 }
{}

/// In every legal history from such a state, an object's stored results are those of the history, after
/// the results that were stored before (`fold`, `last`).
pub fn flaps_from_any_state()
    ensures fold { (s : State) → (history : List (Entry Call Reply)) → (object : ℕ) → IsState s
        → IsLegal step s history → flapping_in (replay step s history) object
        ≡ with_results (flap_thresholds_of s.setup object) (flapping_in s object)
        (reported_states object history) }
    ensures last { (s : State) → (history : List (Entry Call Reply)) → (object : ℕ) → IsState s
        → IsLegal step s history → results_at (replay step s history).results object
        ≡ keep_last 21 (results_at s.results object ++ reported_states object history) }
{}

/// No call reads the moment at which scheduling started, and none changes it.
pub fn start_is_not_read()
    ensures { (s : State) → (start : ℕ) → (call : Call) → step (record s { start = start }) call
        ≡ (record (step s call).0 { start = start }, (step s call).1) }
{}
