//! Makes the order object by object: an object is placed after the last object that it links to. If some
//! objects can't be placed, there is a cycle among them. `specs/Results.antt` defines the result.

ghost use Rattle.std.specs.Prelude.{◌≡◌, ℕ, ◌<◌, ◌≤◌, ◌==◌, ◌-◌, ◌^◌, ◌++◌, ◌∷◌, [], IfOk, OnOk, length, map, true, vec_len, slice_set, nat_lt, if◌then◌else◌};
ghost use Rattle.std.specs.List.{list_all};
ghost use Rattle.setup_order.specs.Cycles.{are_within};
ghost use Rattle.setup_order.specs.Results.{IsOrderOrCycle};
ghost use Rattle.setup_order.specs.Orders.{occurrences};
ghost use Rattle.setup_order.specs.Growth.{open_link_count, free_objects_from, ClosesLinks, AddsDependent, HasDependents};

use crate::cycle::find_cycle;
use crate::lists::{empty_lists, push_to_list};
use smallvec::SmallVec;
use std::alloc::{AllocError, Global};

/// The result for linked objects: an order, or a cycle.
#[derive(Drop)]
pub enum OrderOrCycle {
    /// The numbers of all objects, each once and after all that it links to.
    Order(Vec<u32>),
    /// The numbers of different objects, each linked to the next one, and the last to the first.
    Cycle(Vec<u32>),
}

/// A topological order of linked objects, or a cycle if there is no order. Use it for work in which
/// everything that an object links to comes before the object.
///
/// `links` has for each object the numbers of the objects that it links to, in any order, including repeats.
/// There are at most 2^32 objects.
///
/// The call takes time and memory linear in the objects and their links. The only error is out of memory.
/// Nothing is made then.
pub fn topological_order(
    alloc: Global,
    links: &[SmallVec<u32, 4>],
) -> Result<OrderOrCycle, AllocError>
    requires bounded { length links.now ≤ 2 ^ 32 }
    requires within { are_within (length links.now) (map (λ list. list.items) links.now) ≡ true }
    ensures { IfOk result (IsOrderOrCycle (map (λ list. list.items) links.now)) }
{
    let dependents = dependents_of(alloc, links)?;
    let mut left = link_counts(alloc, links)?;
    let mut order = free_objects(alloc, &left)?;
    let mut place = 0;
    while place < order.len() {
        let object = order[place];
        close_links(
            dependents[object as usize].as_slice(),
            &mut left,
            &mut order,
        )?;
        place += 1;
    }
    if are_closed(&left) {
        Ok(OrderOrCycle::Order(order))
    } else {
        Ok(OrderOrCycle::Cycle(find_cycle(alloc, links, &left)?))
    }
}

/// The number of links of each object.
fn link_counts(alloc: Global, links: &[SmallVec<u32, 4>]) -> Result<Vec<usize>, AllocError>
    ensures { IfOk result (λ counts.
        counts.items ≡ map length (map (λ list. list.items) links.now)) }
{
    let mut counts = Vec::new(alloc);
    for list in links {
        counts.push(list.as_slice().len())?;
    }
    Ok(counts)
}

/// The numbers of the objects without an open link.
fn free_objects(alloc: Global, left: &[usize]) -> Result<Vec<u32>, AllocError>
    requires { length left.now ≤ 2 ^ 32 }
    ensures { IfOk result (λ objects. objects.items ≡ free_objects_from 0 left.now) }
{
    let mut objects = Vec::new(alloc);
    for object in 0..left.len() {
        if left[object] == 0 {
            objects.push(object as u32)?;
        }
    }
    Ok(objects)
}

/// Whether no link is open.
fn are_closed(left: &[usize]) -> bool
    ensures { result ≡ list_all (λ count. count == 0) left.now }
{
    left.iter().all(|count| *count == 0)
}

/// For each object the objects that link to it, once for each link.
fn dependents_of(
    alloc: Global,
    links: &[SmallVec<u32, 4>],
) -> Result<Vec<SmallVec<u32, 4>>, AllocError>
    requires bounded { length links.now ≤ 2 ^ 32 }
    requires within { are_within (length links.now) (map (λ list. list.items) links.now) ≡ true }
    ensures { IfOk result (λ dependents. HasDependents (length links.now)
        (map (λ list. list.items) links.now) (map (λ list. list.items) dependents.items)) }
{
    let mut dependents = empty_lists(alloc, links.len())?;
    for object in 0..links.len() {
        add_dependent(&mut dependents, object as u32, links[object].as_slice())?;
    }
    Ok(dependents)
}

/// Adds an object to the list of each object that it links to.
fn add_dependent(
    dependents: &mut Vec<SmallVec<u32, 4>>,
    object: u32,
    links: &[u32],
) -> Result<(), AllocError>
    requires { list_all (λ link. nat_lt link (vec_len dependents.old)) links.now ≡ true }
    ensures { OnOk result (AddsDependent object links.now
        (map (λ list. list.items) dependents.old.items)
        (map (λ list. list.items) dependents.new.items)) }
{
    for link in links {
        push_to_list(dependents, *link, object)?;
    }
    Ok(())
}

/// Closes a link of each of the dependents, and places each dependent whose last link it was.
fn close_links(
    dependents: &[u32],
    left: &mut [usize],
    order: &mut Vec<u32>,
) -> Result<(), AllocError>
    requires within { list_all (λ object. nat_lt object (length left.old)) dependents.now ≡ true }
    requires open { (object : ℕ) → object < length left.old
        → occurrences object dependents.now ≤ open_link_count left.old object }
    ensures { OnOk result
        (ClosesLinks dependents.now left.old order.old.items left.new order.new.items) }
{
    for dependent in dependents {
        close_link(*dependent, left, order)?;
    }
    Ok(())
}

/// Closes a link of an object, and places the object if the link was the last.
fn close_link(object: u32, left: &mut [usize], order: &mut Vec<u32>) -> Result<(), AllocError>
    requires within { object < length left.old }
    requires open { 0 < open_link_count left.old object }
    ensures left { left.new ≡ slice_set left.old object (open_link_count left.old object - 1) }
    ensures order { OnOk result (order.new.items ≡
        (if open_link_count left.old object - 1 == 0 then order.old.items ++ object ∷ []
        else order.old.items)) }
{
    let count = left[object as usize] - 1;
    left[object as usize] = count;
    if count == 0 {
        order.push(object)?;
    }
    Ok(())
}
