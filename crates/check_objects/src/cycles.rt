//! Cycles as faults: the names of their objects, from the least number on.

ghost use Rattle.std.specs.Prelude.{◌≡◌, ◌<◌, ◌≤◌, ℕ, List, IfOk, Ok, Some, get_or, length, map, string_bytes, true};
ghost use Rattle.setup_model.specs.ParsedSetup.{ParsedSetup};
ghost use Rattle.setup_model.specs.Fault.{view_of};
ghost use Rattle.setup_reader.specs.Verification.{verification};
ghost use Rattle.check_objects.specs.Configuration.{masters_of, parents_by_host};
ghost use Rattle.check_objects.specs.Entries.{host_entry, objects_in, service_entry};
ghost use Rattle.check_objects.specs.Numbering.{configuration};
ghost use Rattle.check_objects.specs.Cycles.{name_among, part_at, IsParentCycle, IsNamedFromLeast};
ghost use Rattle.check_objects.specs.Setup.{AreRefusedFor};
ghost use Rattle.setup_order.specs.Cycles.{has_cycle};
ghost use Rattle.setup_order.specs.Results.{IsCycle};
ghost use Rattle.setup_model.specs.ParsedViews.{parsed_view};

use crate::object_index::{Host, Service};
use crate::setup::object_entry;
use indexmap::IndexMap;
use setup_model::{Fault, ParsedSetup, Part};
use std::alloc::{AllocError, Global};

/// A cycle of dependencies as a fault, from its objects' numbers. An Err means out of memory.
pub(crate) fn dependency_cycle(
    alloc: Global,
    parsed: &ParsedSetup<'_>,
    hosts: &IndexMap<String, Host>,
    services: &IndexMap<String, Service>,
    cycle: &[u32],
) -> Result<Fault, AllocError>
    requires faultless { verification (parsed_view parsed.now) ≡ Ok tt }
    requires hosts { map host_entry hosts.now.entries
        ≡ (configuration (parsed_view parsed.now)).hosts }
    requires services { map service_entry services.now.entries
        ≡ (configuration (parsed_view parsed.now)).services }
    requires cyclic { has_cycle (masters_of (configuration (parsed_view parsed.now))) ≡ true }
    requires cycle { IsCycle (masters_of (configuration (parsed_view parsed.now))) cycle.now }
    ensures { IfOk result (λ fault. AreRefusedFor (parsed_view parsed.now) (Some (view_of fault))) }
{
    let part = part_at(hosts.len(), cycle[0]);
    let names = cycle_names(alloc, hosts, services, cycle)?;
    Ok(Fault::DependencyCycle(part, names))
}

/// The names of the hosts of a cycle of parents, from their numbers. An Err means out of memory.
pub(crate) fn parent_cycle(
    alloc: Global,
    parsed: &ParsedSetup<'_>,
    hosts: &IndexMap<String, Host>,
    services: &IndexMap<String, Service>,
    cycle: &[u32],
) -> Result<Vec<String>, AllocError>
    requires hosts { map host_entry hosts.now.entries
        ≡ (configuration (parsed_view parsed.now)).hosts }
    requires services { map service_entry services.now.entries
        ≡ (configuration (parsed_view parsed.now)).services }
    requires cycle { IsCycle (parents_by_host (configuration (parsed_view parsed.now))) cycle.now }
    ensures { IfOk result (λ names.
        IsParentCycle (configuration (parsed_view parsed.now)) (map string_bytes names.items)) }
{
    cycle_names(alloc, hosts, services, cycle)
}

/// The part of the object with this number, after this many hosts.
fn part_at(hosts: usize, number: u32) -> Part
    ensures { result ≡ part_at hosts number }
{
    if (number as usize) < hosts {
        Part::Hosts
    } else {
        Part::Services
    }
}

/// The names of these objects, rotated so that the object with the least number comes first. An Err means out of
/// memory.
fn cycle_names(
    alloc: Global,
    hosts: &IndexMap<String, Host>,
    services: &IndexMap<String, Service>,
    cycle: &[u32],
) -> Result<Vec<String>, AllocError>
    requires nonempty { 0 < length cycle.now }
    requires within { (place : ℕ) → place < length cycle.now
        → get_or cycle.now place 0 < length (objects_in hosts.now.entries services.now.entries) }
    ensures { IfOk result (λ names.
        IsNamedFromLeast (name_among (objects_in hosts.now.entries services.now.entries)) cycle.now
        (map string_bytes names.items)) }
{
    let mut names = Vec::with_capacity(alloc, cycle.len())?;
    for number in cycle {
        let (name, _) = object_entry(hosts, services, *number);
        names.push(String::from_str(alloc, name)?)?;
    }
    names.rotate_left(place_of_least(cycle));
    Ok(names)
}

/// The place of the least of these numbers.
fn place_of_least(numbers: &[u32]) -> usize
    requires { 0 < length numbers.now }
    ensures within { result < length numbers.now }
    ensures least { (place : ℕ) → place < length numbers.now
        → get_or numbers.now result 0 ≤ get_or numbers.now place 0 }
{
    let mut least = 0;
    for place in 0..numbers.len() {
        if numbers[place] < numbers[least] {
            least = place;
        }
    }
    least
}
