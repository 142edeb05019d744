//! Laws of the figures of a summary and of a change. Each law is the contract of a function without code.

ghost use Rattle.setup_summary.specs.Changes.{ended_count, figures_of};
ghost use Rattle.setup_model.specs.declared.parsed_setup.Object.{Object};
ghost use Rattle.check_objects.specs.Configuration.{Configuration, IsSetup, object_count};
ghost use Rattle.check_saved_state.specs.Saved.{IsSaved, Saved};
ghost use Rattle.check_sched.specs.Roster.{running_among};
ghost use Rattle.check_sched.specs.Saved.{objects_kept, objects_after_resume};
ghost use Rattle.setup_summary.specs.Chains.{has_chain, longest_chain, HasChainOfLength};
ghost use Rattle.setup_summary.specs.Facts.{summary_after_delay, reasons_count, IsLeast, IsGreatest};
ghost use Rattle.setup_summary.specs.Summary.{earliest, latest, reasons_among, summary_of};
ghost use Rattle.setup_order.specs.Cycles.{has_cycle};
ghost use Rattle.std.specs.Prelude.{◌≡◌, ◌+◌, ◌<◌, ℕ, List, Option, length, false};

/// The moment at which scheduling starts shifts the first checks, and changes no other figure. If the start
/// is `delay` milliseconds later, the first and the last of the first checks of hosts and of services are
/// later by the same delay.
pub fn no_start_changes_a_summary()
    ensures { (c : Configuration) → (start : ℕ) → (delay : ℕ)
        → summary_of c (start + delay) ≡ summary_after_delay delay (summary_of c start) }
{}

/// The first of some times is one of them, and no time is less (`first`). The last is one of them, and no
/// time is greater (`last`). Both are missing if and only if there is no time.
pub fn spans_hold_all_times()
    ensures first { (times : List (Option ℕ)) → IsLeast times (earliest times) }
    ensures last { (times : List (Option ℕ)) → IsGreatest times (latest times) }
{}

/// Each object is counted for one reason: the counts add up to the number of objects.
pub fn each_object_has_one_reason()
    ensures { (objects : List Object) → reasons_count (reasons_among objects) ≡ length objects }
{}

/// The length of the longest chain, if no links lead back to an object. There is a chain of that length,
/// unless it is 0 (`reached`), and no longer chain (`longest`).
pub fn chains_are_longest()
    ensures reached { (links : List (List ℕ)) → HasChainOfLength links (longest_chain links) }
    ensures longest { (links : List (List ℕ)) → (count : ℕ) → has_cycle links ≡ false
        → longest_chain links < count → has_chain links count ≡ false }
{}

/// Each object of a setup is kept or new (`setup`), and each object of a saved state is kept or dropped
/// (`saved`). The number of kept objects that are out, for any first times, is the number of those that are
/// still out after the resume plus the number of runs that are abandoned (`runs`). The abandoned runs are those
/// of the objects that are out before and aren't out after the resume (`given_up`).
pub fn figures_add_up()
    ensures setup { (setup : Configuration) → (saved : Saved)
        → (figures_of setup saved).kept + (figures_of setup saved).new ≡ object_count setup }
    ensures saved { (setup : Configuration) → (saved : Saved) → IsSetup setup → IsSaved saved
        → (figures_of setup saved).kept + (figures_of setup saved).dropped ≡ length saved.objects }
    ensures runs { (setup : Configuration) → (saved : Saved) → (start : ℕ)
        → (times : List (Option ℕ)) → running_among (objects_kept setup saved times)
        ≡ running_among (objects_after_resume setup saved start) + (figures_of setup saved).given_up }
    ensures given_up { (setup : Configuration) → (saved : Saved) → (start : ℕ)
        → (times : List (Option ℕ)) → (figures_of setup saved).given_up
        ≡ ended_count (objects_kept setup saved times) (objects_after_resume setup saved start) }
{}
