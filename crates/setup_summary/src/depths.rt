//! The longest chain of links, by the depth of each object: the number of links in the longest chain
//! from it.

ghost use Rattle.std.specs.Prelude.{◌≡◌, ◌≤◌, ℕ, IfOk, length, map, nat_lt, true};
ghost use Rattle.std.specs.List.{list_all};
ghost use Rattle.setup_order.specs.Cycles.{are_within};
ghost use Rattle.setup_order.specs.Orders.{IsOrder};
ghost use Rattle.setup_summary.specs.Chains.{depth_at, depth_over, greatest_of, longest_chain, HasDepths};

use setup_order::{OrderOrCycle, topological_order};
use smallvec::SmallVec;
use std::alloc::{AllocError, Global};

/// The number of links in the longest chain, given the links of each object by its number. If a chain
/// leads back, it is the number of objects. An Err means out of memory.
pub(crate) fn longest_chain(alloc: Global, links: &[SmallVec<u32, 4>]) -> Result<usize, AllocError>
    requires bounded { length links.now ≤ 4096 }
    requires within { are_within (length links.now) (map (λ list. list.items) links.now) ≡ true }
    ensures { IfOk result (λ count.
        count ≡ longest_chain (map (λ list. list.items) links.now)) }
{
    match topological_order(alloc, links)? {
        OrderOrCycle::Order(order) => longest_chain_in_order(alloc, links, &order),
        OrderOrCycle::Cycle(_) => Ok(links.len()),
    }
}

/// The same, given an order in which each object comes after all that it links to.
pub(crate) fn longest_chain_in_order(
    alloc: Global,
    links: &[SmallVec<u32, 4>],
    order: &[u32],
) -> Result<usize, AllocError>
    requires bounded { length links.now ≤ 4096 }
    requires order { IsOrder (map (λ list. list.items) links.now) order.now }
    ensures { IfOk result (λ count.
        count ≡ longest_chain (map (λ list. list.items) links.now)) }
{
    let depths = find_depths(alloc, links, order)?;
    Ok(greatest_of(&depths))
}

/// The depth of each object, by number. In the order each object comes after all that it links to.
fn find_depths(
    alloc: Global,
    links: &[SmallVec<u32, 4>],
    order: &[u32],
) -> Result<Vec<usize>, AllocError>
    requires bounded { length links.now ≤ 4096 }
    requires order { IsOrder (map (λ list. list.items) links.now) order.now }
    ensures { IfOk result (λ depths. HasDepths (map (λ list. list.items) links.now) depths.items) }
{
    let mut depths = vec![in alloc; 0; links.len()]?;
    for object in order {
        let depth = depth_over(links[*object as usize].as_slice(), &depths);
        depths[*object as usize] = depth;
    }
    Ok(depths)
}

/// The depth of an object with these links, given the depths of the objects that they lead to.
fn depth_over(links: &[u32], depths: &[usize]) -> usize
    requires within { list_all (λ link. nat_lt link (length depths.now)) links.now ≡ true }
    requires bounded { (object : ℕ) → depth_at depths.now object ≤ 4096 }
    ensures { result ≡ depth_over depths.now links.now }
{
    let mut most = 0;
    for link in links {
        most = most.max(depths[*link as usize] + 1);
    }
    most
}

/// The greatest of the depths, or 0 without depths.
fn greatest_of(depths: &[usize]) -> usize
    ensures { result ≡ greatest_of depths.now }
{
    let mut most = 0;
    for depth in depths {
        most = most.max(*depth);
    }
    most
}
