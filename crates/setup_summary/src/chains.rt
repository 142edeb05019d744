//! The longest chains of dependencies, and of parents.

ghost use Rattle.std.specs.Prelude.{◌≡◌, IfOk};
ghost use Rattle.setup_summary.specs.Summary.{chains_in};

use crate::depths::{longest_chain, longest_chain_in_order};
use check_objects::Setup;
use std::alloc::{AllocError, Global};

/// The number of links in the longest chains; 0 if there is no link.
#[derive(Clone, Copy, Debug, PartialEq, Eq)]
pub struct Chains {
    /// Chains of dependencies: from an object to its master, from that one to its own, and so on.
    pub dependencies: usize,
    /// Chains of parents: from a host to its parent, from that one to its own, and so on.
    pub parents: usize,
}

/// The longest chains of a setup.
pub(crate) fn chains_in(alloc: Global, setup: &Setup) -> Result<Chains, AllocError>
    ensures { IfOk result (λ chains. chains ≡ chains_in setup.now) }
{
    Ok(Chains {
        dependencies: dependency_chain(alloc, setup)?,
        parents: parent_chain(alloc, setup)?,
    })
}

/// How many dependencies the longest chain of them has.
fn dependency_chain(alloc: Global, setup: &Setup) -> Result<usize, AllocError>
    ensures { IfOk result (λ count. count ≡ (chains_in setup.now).dependencies) }
{
    let links = setup.master_links(alloc)?;
    longest_chain_in_order(alloc, &links, setup.order())
}

/// How many parents the longest chain of them has.
fn parent_chain(alloc: Global, setup: &Setup) -> Result<usize, AllocError>
    ensures { IfOk result (λ count. count ≡ (chains_in setup.now).parents) }
{
    let links = setup.parent_links(alloc)?;
    longest_chain(alloc, &links)
}
