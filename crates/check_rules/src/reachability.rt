//! The state of a host: UP, DOWN, or UNREACHABLE because of its parents.

ghost use Rattle.std.specs.Prelude.{◌≡◌, ◌<◌, IsTrue, length};
ghost use Rattle.std.specs.List.{list_all};
ghost use Rattle.check_objects.specs.Configuration.{host_count, object_count, parents_of};
ghost use Rattle.check_states.specs.State.{is_host_state};
ghost use Rattle.check_rules.specs.Reachability.{host_state_of, is_cut_off, is_down_at, is_problem_of_host};

use check_objects::Setup;
use check_states::{Code, Standing, State};

/// The state of the host with this number after its check returned this code, given the standings of all
/// objects, by number.
///
/// 0 is UP, and 2 and 3 are a problem. 1 is a problem if the option `use_aggressive_host_checking` is on, and
/// UP if it is off. (Manual: "Host Checks".) A host with a problem is UNREACHABLE if it has parents and each
/// of them is DOWN or UNREACHABLE. Otherwise it is DOWN. (Manual: "Determining Status and Reachability of
/// Network Hosts".) The current state of a parent counts, soft or hard. A parent that was never checked
/// counts as UP. (Our own profile.)
pub fn host_state(setup: &Setup, standings: &[Standing], number: u32, code: Code) -> State
    requires host { number < host_count setup.now }
    requires one_each { length standings.now ≡ object_count setup.now }
    ensures value { result ≡ host_state_of setup.now standings.now number code }
    ensures of_host { IsTrue (is_host_state result) }
{
    if !is_problem_of_host(setup.options().use_aggressive_host_checking, code) {
        return State::Up;
    }
    if is_cut_off(setup.parents(number), standings) {
        State::Unreachable
    } else {
        State::Down
    }
}

/// Whether a return code is a problem of a host.
fn is_problem_of_host(is_aggressive: bool, code: Code) -> bool
    ensures { result ≡ is_problem_of_host is_aggressive code }
{
    match code {
        Code::Ok => false,
        Code::Warning => is_aggressive,
        Code::Critical | Code::Unknown => true,
    }
}

/// Whether there are parents and each of them is DOWN or UNREACHABLE.
fn is_cut_off(parents: &[u32], standings: &[Standing]) -> bool
    ensures { result ≡ is_cut_off standings.now parents.now }
{
    !parents.is_empty() && are_down(parents, standings)
}

fn are_down(parents: &[u32], standings: &[Standing]) -> bool
    ensures { result ≡ list_all (is_down_at standings.now) parents.now }
{
    parents.iter().all(|parent| is_down_at(standings, *parent))
}

/// Whether the host with this number was checked and is down or unreachable.
fn is_down_at(standings: &[Standing], number: u32) -> bool
    ensures { result ≡ is_down_at standings.now number }
{
    match standings.get(number as usize) {
        Some(standing) => standing.is_down(),
        None => false,
    }
}
