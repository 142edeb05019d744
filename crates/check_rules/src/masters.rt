//! The masters that an object reaches through dependencies that inherit: one that is blocked blocks the object.
//! No search here calls itself, so the stack doesn't grow with the setup.

ghost use Rattle.std.specs.Prelude.{◌≡◌, ◌<◌, ◌≤◌, All, IfSome, false, length, take, true};
ghost use Rattle.std.specs.List.{list_any};
ghost use Rattle.check_objects.specs.Configuration.{IsSetup, dependencies_of, object_count};
ghost use Rattle.check_rules.specs.Dependencies.{is_blocked, is_met};
ghost use Rattle.check_rules.specs.Marks.{are_marked, HasMarked, HasQueued};

use crate::criteria::{inherits_any, is_any_met, is_met};
use check_objects::{Dependency, Setup};
use check_states::Standing;

/// How many masters can wait in [`search_few`] at once.
const WAITING: usize = 16;

/// Whether the object with this number is blocked. A chain of masters is followed to its end first. `marks` is
/// scratch space.
pub(crate) fn is_blocked_by_masters(
    setup: &Setup,
    standings: &[Standing],
    marks: &mut [bool],
    n: u32,
) -> bool
    requires in_range { n < object_count setup.now }
    requires scratch { length marks.old ≡ object_count setup.now }
    ensures value { result ≡ is_blocked setup.now standings.now n }
    ensures size { length marks.new ≡ length marks.old }
{
    let end = chain_end(setup, standings, n);
    let dependencies = setup.dependencies(end);
    if is_any_met(setup, standings, dependencies) {
        return true;
    }
    if !inherits_any(dependencies) {
        return false;
    }
    match search_few(setup, standings, marks, end) {
        Some(answer) => answer,
        None => search_all(setup, standings, marks, end),
    }
}

/// The end of the chain of masters that begins at the object with this number. Each object before the end depends on
/// the next one alone, so the first is blocked if and only if the end is.
fn chain_end(setup: &Setup, standings: &[Standing], n: u32) -> u32
    requires { n < object_count setup.now }
    ensures value { is_blocked setup.now standings.now result ≡ is_blocked setup.now standings.now n }
    ensures in_range { result < object_count setup.now }
{
    let mut end = n;
    for _link in 0..setup.len() {
        let Some(master) = deciding_master(setup, standings, end) else {
            return end;
        };
        end = master;
    }
    end
}

/// The master that alone decides whether the object with this number is blocked: the object has one dependency, which
/// inherits, and whose master isn't in one of its criteria. None if there is no such master.
fn deciding_master(setup: &Setup, standings: &[Standing], n: u32) -> Option<u32>
    requires in_range { n < object_count setup.now }
    requires valid_setup { IsSetup setup.now }
    ensures value { IfSome result (λ master. is_blocked setup.now standings.now master ≡ is_blocked setup.now standings.now n) }
    ensures in_range { IfSome result (λ master. master < object_count setup.now) }
{
    let dependencies = setup.dependencies(n);
    if dependencies.len() != 1 {
        return None;
    }
    let dependency = dependencies[0];
    if !dependency.inherits || is_met(setup, standings, dependency) {
        return None;
    }
    Some(dependency.master)
}

/// The same, by one master after the other. None if too many masters have to wait. The cost depends on the
/// masters that are reached alone, except for clearing the marks.
fn search_few(setup: &Setup, standings: &[Standing], marks: &mut [bool], n: u32) -> Option<bool>
    requires in_range { n < object_count setup.now }
    requires scratch { length marks.old ≡ object_count setup.now }
    requires unmet { list_any (is_met setup.now standings.now) (dependencies_of setup.now n) ≡ false }
    ensures value { IfSome result (λ answer. answer ≡ is_blocked setup.now standings.now n) }
    ensures size { length marks.new ≡ length marks.old }
{
    marks.fill(false);
    marks[n as usize] = true;
    let mut waiting = [0; WAITING];
    let mut count = queue_masters(setup.dependencies(n), marks, &mut waiting, 0)?;
    // Each other object waits once at most.
    for _turn in 0..setup.len() {
        if count == 0 {
            return Some(false);
        }
        let dependencies = setup.dependencies(waiting[count - 1]);
        if is_any_met(setup, standings, dependencies) {
            return Some(true);
        }
        count = queue_masters(dependencies, marks, &mut waiting, count - 1)?;
    }
    None
}

/// Marks the masters from which these dependencies inherit. Those that weren't marked before wait behind the
/// first `count` of `waiting`. Returns how many wait then, or None if there is no room.
fn queue_masters(
    dependencies: &[Dependency],
    marks: &mut [bool],
    waiting: &mut [u32],
    count: usize,
) -> Option<usize>
    requires in_range { All (λ d. d.master < length marks.old) dependencies.now }
    requires fits { count ≤ length waiting.old }
    ensures marked { IfSome result (λ more. HasMarked dependencies.now marks.old marks.new) }
    ensures all { IfSome result (λ more. are_marked dependencies.now marks.new ≡ true) }
    ensures queued { IfSome result (λ more.
        HasQueued marks.old marks.new (take count waiting.old) (take more waiting.new)) }
    ensures fits { IfSome result (λ more. more ≤ length waiting.new) }
    ensures room { length waiting.new ≡ length waiting.old }
    ensures size { length marks.new ≡ length marks.old }
{
    let mut more = count;
    for dependency in dependencies {
        let master = dependency.master;
        if dependency.inherits && !marks[master as usize] {
            if more == waiting.len() {
                return None;
            }
            marks[master as usize] = true;
            waiting[more] = master;
            more += 1;
        }
    }
    Some(more)
}

/// The same as [`search_few`], for any number of masters, by one pass over the order of all objects. From its
/// end on, a marked object marks its masters, which come before it.
fn search_all(setup: &Setup, standings: &[Standing], marks: &mut [bool], n: u32) -> bool
    requires in_range { n < object_count setup.now }
    requires scratch { length marks.old ≡ object_count setup.now }
    ensures value { result ≡ is_blocked setup.now standings.now n }
    ensures size { length marks.new ≡ length marks.old }
{
    marks.fill(false);
    marks[n as usize] = true;
    let order = setup.order();
    for place in (0..setup.len()).rev() {
        let object = order[place];
        if marks[object as usize] {
            let dependencies = setup.dependencies(object);
            if is_any_met(setup, standings, dependencies) {
                return true;
            }
            mark_masters(dependencies, marks);
        }
    }
    false
}

/// Marks the masters from which these dependencies inherit.
fn mark_masters(dependencies: &[Dependency], marks: &mut [bool])
    requires in_range { All (λ d. d.master < length marks.old) dependencies.now }
    ensures marked { HasMarked dependencies.now marks.old marks.new }
    ensures all { are_marked dependencies.now marks.new ≡ true }
{
    for dependency in dependencies {
        if dependency.inherits {
            marks[dependency.master as usize] = true;
        }
    }
}
