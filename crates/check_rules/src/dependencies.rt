//! Execution dependencies, which can block the check of an object.

ghost use Rattle.std.specs.Prelude.{◌≡◌, ◌<◌, [], length};
ghost use Rattle.check_objects.specs.Configuration.{dependencies_of, object_count};
ghost use Rattle.check_rules.specs.Dependencies.{is_blocked};

use crate::criteria::{inherits_any, is_any_met};
use crate::masters::is_blocked_by_masters;
use check_objects::Setup;
use check_states::Standing;

/// Whether some execution dependency of the object with this number fails, given the standings of all
/// objects, by number.
///
/// A dependency fails if its master's state is among its criteria. This state is the last hard state, or with
/// the option `soft_state_dependencies` the current state. A dependency that inherits also fails if some
/// dependency of its master does. (Manual: "Host and Service Dependencies".) A master that was never checked
/// meets only the criterion `p`. (Our own profile.)
///
/// `marks` is scratch space with a place for each object, and can contain anything. It isn't used if a master
/// of the object meets a criterion, or if no dependency of the object inherits, or if a chain of masters settles
/// it. Otherwise it is cleared, and each master that is reached through inheriting dependencies is marked. The stack
/// doesn't grow with the setup.
pub fn blocked(setup: &Setup, standings: &[Standing], marks: &mut [bool], n: u32) -> bool
    requires in_range { n < object_count setup.now }
    requires one_each { length standings.now ≡ object_count setup.now }
    requires scratch { length marks.old ≡ object_count setup.now }
    ensures value { result ≡ is_blocked setup.now standings.now n }
    ensures size { length marks.new ≡ length marks.old }
    ensures untouched { dependencies_of setup.now n ≡ [] → marks.new ≡ marks.old }
{
    let dependencies = setup.dependencies(n);
    if is_any_met(setup, standings, dependencies) {
        return true;
    }
    if !inherits_any(dependencies) {
        return false;
    }
    is_blocked_by_masters(setup, standings, marks, n)
}
