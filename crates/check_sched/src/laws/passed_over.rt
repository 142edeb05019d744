//! The law that no object is passed over twice in favour of the same other one.

ghost use Rattle.std.specs.Prelude.{ℕ, ◌≡◌, ◌≤◌, ◌<◌, ◌^◌, ◌==◌, true, false, List, length, count_by, is_some};
ghost use Rattle.std.specs.List.{list_all};
ghost use Rattle.ticket_steps.specs.declared.books.Entry.{Entry};
ghost use Rattle.ticket_steps.specs.History.{IsLegal};
ghost use Rattle.check_sched.specs.declared.call.Call.{Call};
ghost use Rattle.check_sched.specs.declared.call.Call.TheVariants as call;
ghost use Rattle.check_sched.specs.declared.call.Reply.{Reply};
ghost use Rattle.check_sched.specs.PassedOver.{WaitsFor, can_choose, chosen_by, choices_with, is_among, lets_none_in};
ghost use Rattle.check_sched.specs.State.{State};
ghost use Rattle.check_sched.specs.Step.{step};

/// A law without code: a due check is passed over at most once by each other object.
///
/// Take a legal history from any state, and an object that waits for a time. The moments of the calls can rise
/// and fall, but no abandon or reschedule lets another object in before that time. Look at the takes that
/// could choose the waiting object: it was due, enabled or forced, and had room under the limit. Until one of
/// them chooses it, they choose each other object at most once (`once`). So with n objects the n-th of these
/// takes has chosen it: its check began, or it was put off (`chosen`). Each of these takes chooses some
/// object, unless it is refused because its moment is above 2^60 or 2^60 runs were handed out (`chooses`).
pub fn passed_over_once()
    ensures once { (s : State) → (history : List (Entry Call Reply)) → (waiting time other : ℕ)
        → IsLegal step s history → WaitsFor waiting time s
        → list_all (λ e. lets_none_in waiting time e.call) history ≡ true
        → is_among waiting (choices_with waiting s history) ≡ false
        → count_by (λ n. n == other) (choices_with waiting s history) ≤ 1 }
    ensures chosen { (s : State) → (history : List (Entry Call Reply)) → (waiting time : ℕ)
        → IsLegal step s history → WaitsFor waiting time s
        → list_all (λ e. lets_none_in waiting time e.call) history ≡ true
        → length s.objects ≤ length (choices_with waiting s history)
        → is_among waiting (choices_with waiting s history) ≡ true }
    ensures chooses { (s : State) → (waiting now : ℕ) → can_choose waiting s (call.Take now) ≡ true
        → now ≤ 2 ^ 60 → s.runs < 2 ^ 60 → is_some (chosen_by (step s (call.Take now)).1) ≡ true }
{}
