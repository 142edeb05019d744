//! The criteria of dependencies: whether the state of a master makes a dependency fail.

ghost use Rattle.std.specs.Prelude.{◌≡◌};
ghost use Rattle.std.specs.List.{list_any};
ghost use Rattle.check_rules.specs.Dependencies.{is_criterion, is_met, meets, state_for_dependency};

use check_objects::{Criteria, Dependency, Setup};
use check_states::{Standing, State};

/// Whether the master of some of the dependencies is in one of its criteria.
pub(crate) fn is_any_met(setup: &Setup, standings: &[Standing], dependencies: &[Dependency]) -> bool
    ensures { result ≡ list_any (is_met setup.now standings.now) dependencies.now }
{
    dependencies
        .iter()
        .any(|dependency| is_met(setup, standings, *dependency))
}

/// Whether some of the dependencies inherit.
pub(crate) fn inherits_any(dependencies: &[Dependency]) -> bool
    ensures { result ≡ list_any (λ d. d.inherits) dependencies.now }
{
    dependencies.iter().any(|dependency| dependency.inherits)
}

/// Whether the master of the dependency is in one of its criteria.
pub(crate) fn is_met(setup: &Setup, standings: &[Standing], dependency: Dependency) -> bool
    ensures { result ≡ is_met setup.now standings.now dependency }
{
    match standings.get(dependency.master as usize) {
        Some(master) => meets(
            setup.options().soft_state_dependencies,
            dependency.criteria,
            *master,
        ),
        None => false,
    }
}

fn meets(reads_soft: bool, criteria: Criteria, master: Standing) -> bool
    ensures { result ≡ meets reads_soft criteria master }
{
    if !master.checked {
        return criteria.pending;
    }
    is_criterion(criteria, state_for_dependency(reads_soft, master))
}

fn state_for_dependency(reads_soft: bool, master: Standing) -> State
    ensures { result ≡ state_for_dependency reads_soft master }
{
    if reads_soft {
        master.state
    } else {
        master.last_hard
    }
}

fn is_criterion(criteria: Criteria, state: State) -> bool
    ensures { result ≡ is_criterion criteria state }
{
    match state {
        State::Ok | State::Up => criteria.ok,
        State::Warning => criteria.warning,
        State::Critical => criteria.critical,
        State::Unknown | State::Unreachable => criteria.unknown,
        State::Down => criteria.down,
    }
}
