//! Laws of the definitions. Each is the contract of a function without parameters and code.

ghost use Rattle.std.specs.Prelude.{ℕ, ◌≡◌, Bool, false, List, length};
ghost use Rattle.std.specs.List.{list_any};
ghost use Rattle.check_objects.specs.Configuration.{Configuration, dependencies_of, masters_of, object_count};
ghost use Rattle.setup_order.specs.Cycles.{has_cycle};
ghost use Rattle.check_rules.specs.Dependencies.{fails, is_blocked};
ghost use Rattle.check_states.specs.declared.standing.Standing.{Standing};

/// In a setup whose dependencies have no cycle, an object is blocked if and only if some dependency of it
/// fails. A dependency fails because its master meets one of its criteria, or because it inherits and its
/// master is blocked (`blocked`). This rule has one solution. Every test of objects that follows it, with its
/// own answers for the masters, gives the same answers (`alone`). (Manual: "Host and Service Dependencies".)
pub fn blocked_where_a_dependency_fails()
    ensures blocked { (setup : Configuration) → (standings : List Standing)
        → has_cycle (masters_of setup) ≡ false → length setup.dependencies ≡ object_count setup
        → (object : ℕ) → is_blocked setup standings object
        ≡ list_any (fails (is_blocked setup standings) setup standings) (dependencies_of setup object) }
    ensures alone { (setup : Configuration) → (standings : List Standing) → (answer : ℕ → Bool)
        → has_cycle (masters_of setup) ≡ false → length setup.dependencies ≡ object_count setup
        → ((object : ℕ) → answer object
        ≡ list_any (fails answer setup standings) (dependencies_of setup object))
        → (object : ℕ) → answer object ≡ is_blocked setup standings object }
{}
