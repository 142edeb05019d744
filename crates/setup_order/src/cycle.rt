//! Finds a cycle among the objects that no order can place. Its definitions are in `specs/Search.antt`.

ghost use Rattle.std.specs.Prelude.{◌≡◌, ◌==◌, ◌≤◌, ◌^◌, IfOk, MatchOption, false, get_or, length, map, true, ◌<◌, ℕ, List};
ghost use Rattle.std.specs.List.{list_all, list_any};
ghost use Rattle.setup_order.specs.Orders.{is_among};
ghost use Rattle.setup_order.specs.Results.{IsCycle};
ghost use Rattle.setup_order.specs.Search.{step, steps, is_waiting, ReturnsToItself, AreSuccessors, IsClosedWalk, IsStuck};
ghost use Rattle.setup_order.specs.Cycles.{are_within, has_cycle, IsOnCycle, IsCyclic};

use smallvec::SmallVec;
use std::alloc::{AllocError, Global};

/// Different objects, each linked to the next one, and the last to the first. The search begins at the last
/// object that waits.
///
/// `left` has for each object the number of its links to objects that wait. An object waits if no order can
/// place it.
pub(crate) fn find_cycle(
    alloc: Global,
    links: &[SmallVec<u32, 4>],
    left: &[usize],
) -> Result<Vec<u32>, AllocError>
    requires bounded { length links.now ≤ 2 ^ 32 }
    requires stuck { IsStuck (map (λ list. list.items) links.now) left.now }
    requires nonempty { list_all (λ count. count == 0) left.now ≡ false }
    ensures { IfOk result (λ cycle. IsCycle (map (λ list. list.items) links.now) cycle.items) }
{
    let next = next_objects(alloc, links, left)?;
    let start = last_waiting_object(left);
    closed_walk(alloc, &next, object_on_cycle(&next, start))
}

/// For each object that waits, an object to which it is linked and that also waits.
fn next_objects(
    alloc: Global,
    links: &[SmallVec<u32, 4>],
    left: &[usize],
) -> Result<Vec<u32>, AllocError>
    requires { length links.now ≤ 2 ^ 32 }
    ensures { IfOk result (λ next. AreSuccessors (map (λ list. list.items) links.now) left.now next.items) }
{
    let mut next = Vec::with_capacity(alloc, links.len())?;
    for object in 0..links.len() {
        next.push(last_waiting_among(links[object].as_slice(), left).unwrap_or(object as u32))?;
    }
    Ok(next)
}

/// The last of these objects that waits, if one of them does.
fn last_waiting_among(objects: &[u32], left: &[usize]) -> Option<u32>
    ensures { MatchOption result (list_any (is_waiting left.now) objects.now ≡ false) (λ object.
        (is_among objects.now object ≡ true) × (is_waiting left.now object ≡ true)) }
{
    let mut found = None;
    for object in objects {
        if is_waiting(left, *object) {
            found = Some(*object);
        }
    }
    found
}

/// Whether an object waits.
fn is_waiting(left: &[usize], object: u32) -> bool
    ensures { result ≡ is_waiting left.now object }
{
    match left.get(object as usize) {
        Some(count) => *count != 0,
        None => false,
    }
}

/// The last object that waits.
fn last_waiting_object(left: &[usize]) -> u32
    requires bounded { length left.now ≤ 2 ^ 32 }
    requires nonempty { list_all (λ count. count == 0) left.now ≡ false }
    ensures { is_waiting left.now result ≡ true }
{
    let mut last = 0;
    for object in 0..left.len() {
        if left[object] != 0 {
            last = object as u32;
        }
    }
    last
}

/// The next object after this one.
fn step(next: &[u32], object: u32) -> u32
    ensures { result ≡ step next.now object }
{
    match next.get(object as usize) {
        Some(other) => *other,
        None => object,
    }
}

/// The object that a walk reaches after as many steps as there are objects. It is on a cycle.
fn object_on_cycle(next: &[u32], object: u32) -> u32
    ensures { result ≡ steps next.now object (length next.now) }
{
    let mut at = object;
    for _step in 0..next.len() {
        at = step(next, at);
    }
    at
}

/// The objects that a walk from this one passes until it returns.
fn closed_walk(alloc: Global, next: &[u32], object: u32) -> Result<Vec<u32>, AllocError>
    requires { ReturnsToItself next.now object }
    ensures { IfOk result (λ cycle. IsClosedWalk next.now object cycle.items) }
{
    let mut cycle = Vec::new(alloc);
    let mut at = object;
    for _step in 0..next.len() {
        cycle.push(at)?;
        at = step(next, at);
        if at == object {
            return Ok(cycle);
        }
    }
    Ok(cycle)
}

/// The meaning of a cycle. If all links lead to objects, there is a cycle exactly if some object is reached
/// from itself by one link or more. `back` finds the object of a cycle. `cycle` says that an object that
/// leads back to itself makes a cycle, wherever the other links lead.
pub fn cycles_lead_back()
    ensures back { (links : List (List ℕ)) → are_within (length links) links ≡ true
        → has_cycle links ≡ true → IsCyclic links }
    ensures cycle { (links : List (List ℕ)) → (object : ℕ) → object < length links
        → IsOnCycle links object → has_cycle links ≡ true }
{}
