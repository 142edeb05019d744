//! The law that no object is forgotten.

ghost use Rattle.std.specs.Prelude.{ℕ, ◌≡◌, true, false, List};
ghost use Rattle.check_objects.specs.Configuration.{Configuration};
ghost use Rattle.check_sched.specs.declared.call.Call.{Call};
ghost use Rattle.check_sched.specs.Lasting.{IsCheckedAtIntervals, ShowsNoTime, has_next_check};
ghost use Rattle.check_sched.specs.State.{State, opening, scheduling_at};
ghost use Rattle.check_sched.specs.Step.{after, step};

/// A law without code: no check is forgotten.
///
/// Take an object that the setup enables and that is checked at intervals: neither its check interval nor its
/// retry interval is 0. After every sequence of calls of a newly opened scheduler, it has a time for its next
/// check, or is being checked (`opened`). From any state in which such an object has a next check, it has one
/// after every sequence of calls (`kept`).
///
/// An object with an interval of 0 can lose its next check, and then the reply shows it. The object was put
/// off, or the call was a report of the object, and the reply has no next time (`shown`).
pub fn never_forgotten()
    ensures opened { (setup : Configuration) → (start object : ℕ) → (calls : List Call)
        → (at : IsCheckedAtIntervals setup object) → at.object.object.enabled ≡ true
        → has_next_check (scheduling_at (after (opening setup start) calls).objects object) ≡ true }
    ensures kept { (s : State) → (calls : List Call) → (object : ℕ)
        → IsCheckedAtIntervals s.setup object
        → has_next_check (scheduling_at s.objects object) ≡ true
        → has_next_check (scheduling_at (after s calls).objects object) ≡ true }
    ensures shown { (s : State) → (call : Call) → (object : ℕ)
        → has_next_check (scheduling_at s.objects object) ≡ true
        → has_next_check (scheduling_at (step s call).0.objects object) ≡ false
        → ShowsNoTime object call (step s call).1 }
{}
