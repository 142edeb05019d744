//! The dependencies of each object by number, and an order of the objects that agrees with them.

ghost use Rattle.std.specs.Prelude.{◌≡◌, ◌≤◌, ◌+◌, ◌++◌, ℕ, List, length, map, nat_lt, true, false, IfOk, OnOk};
ghost use Rattle.std.specs.List.{list_all};
ghost use Rattle.setup_order.specs.Cycles.{are_within};
ghost use Rattle.setup_order.specs.Results.{IsOrderOrCycle};
ghost use Rattle.setup_order.specs.Orders.{IsOrder};
ghost use Rattle.check_objects.specs.Configuration.{masters_in};
ghost use Rattle.setup_model.specs.ParsedViews.{dependency, parsed_view};
ghost use Rattle.setup_model.specs.Ends.{is_known, has_known_ends};
ghost use Rattle.check_objects.specs.Entries.{names_in, objects_in};
ghost use Rattle.check_objects.specs.Numbering.{index_of_name, offset_dependency, dependencies_by_number, dependency_lists};

use crate::object_index::{Host, Service};
use indexmap::IndexMap;
use setup_model::{Dependency, ParsedDependency, ParsedSetup};
use setup_order::{OrderOrCycle, empty_lists, push_to_list, topological_order};
use smallvec::SmallVec;
use std::alloc::{AllocError, Global};

/// The dependencies of an object, in the document's order. Most objects have at most one, which needs no
/// block of its own. A list is then 32 bytes, so that two lists fit in a cache line.
pub(crate) type Dependencies = SmallVec<Dependency, 1>;

// ---- numbers

/// The dependencies of each object by number, in the document's order, if both ends of each one exist. An Err
/// means out of memory.
pub(crate) fn list_dependencies(
    alloc: Global,
    parsed: &ParsedSetup<'_>,
    hosts: &IndexMap<String, Host>,
    services: &IndexMap<String, Service>,
) -> Result<Vec<Dependencies>, AllocError>
    requires bounded { length (objects_in hosts.now.entries services.now.entries) ≤ 4096 }
    requires apart { (name : List ℕ) → is_known (names_in services.now.entries) name ≡ true
        → is_known (names_in hosts.now.entries) name ≡ false }
    requires of_services { list_all (has_known_ends (names_in services.now.entries))
        (parsed_view parsed.now).service_dependencies ≡ true }
    requires of_hosts { list_all (has_known_ends (names_in hosts.now.entries))
        (parsed_view parsed.now).host_dependencies ≡ true }
    ensures { IfOk result (λ lists. map (λ list. list.items) lists.items
        ≡ dependencies_by_number (objects_in hosts.now.entries services.now.entries)
        (parsed_view parsed.now)) }
{
    let mut numbered = Vec::new(alloc);
    let host_count = hosts.len();
    number_dependencies(
        &mut numbered,
        &parsed.service_dependencies,
        host_count as u32,
        services,
    )?;
    number_dependencies(&mut numbered, &parsed.host_dependencies, 0, hosts)?;
    list_by_dependent(alloc, host_count + services.len(), &numbered)
}

/// Adds each dependency by the numbers of its dependent and its master among these objects. This many other
/// objects come before them. An Err means out of memory.
fn number_dependencies<T>(
    numbered: &mut Vec<(u32, Dependency)>,
    parsed: &[ParsedDependency<'_>],
    others: u32,
    objects: &IndexMap<String, T>,
) -> Result<(), AllocError>
    requires bounded { others + length objects.now.entries ≤ 4096 }
    requires known { list_all (has_known_ends (names_in objects.now.entries))
        (map dependency parsed.now) ≡ true }
    ensures { OnOk result (numbered.new.items ≡ numbered.old.items
        ++ map (offset_dependency others (names_in objects.now.entries)) (map dependency parsed.now)) }
{
    for item in parsed {
        numbered.push(number_dependency(*item, others, objects))?;
    }
    Ok(())
}

/// The number of a dependency's dependent, and the dependency by number. Both ends are among these objects,
/// and this many other objects come before them.
fn number_dependency<T>(
    item: ParsedDependency<'_>,
    others: u32,
    objects: &IndexMap<String, T>,
) -> (u32, Dependency)
    requires bounded { others + length objects.now.entries ≤ 4096 }
    requires known { has_known_ends (names_in objects.now.entries) (dependency item) ≡ true }
    ensures { result
        ≡ offset_dependency others (names_in objects.now.entries) (dependency item.entry) }
{
    let dependent = offset_number(others, objects, item.dependent);
    let master = offset_number(others, objects, item.master);
    let dependency = Dependency {
        master,
        criteria: item.criteria,
        inherits: item.inherits,
    };
    (dependent, dependency)
}

/// The number of the object with this name among these. This many other objects come before them.
fn offset_number<T>(others: u32, objects: &IndexMap<String, T>, name: &str) -> u32
    requires bounded { others + length objects.now.entries ≤ 4096 }
    requires known { is_known (names_in objects.now.entries) name.now ≡ true }
    ensures { result ≡ others + index_of_name (names_in objects.now.entries) name.now }
{
    let index = objects.get_index_of(name).unwrap();
    others + index as u32
}

/// The dependencies of each of this many objects. Those of one object stay in the same order. An Err means
/// out of memory.
fn list_by_dependent(
    alloc: Global,
    count: usize,
    numbered: &[(u32, Dependency)],
) -> Result<Vec<Dependencies>, AllocError>
    requires { list_all (λ d. nat_lt d.0 count) numbered.now ≡ true }
    ensures { IfOk result (λ lists. map (λ list. list.items) lists.items
        ≡ dependency_lists count numbered.now) }
{
    let mut lists = empty_lists(alloc, count)?;
    for (dependent, dependency) in numbered {
        push_to_list(&mut lists, *dependent, *dependency)?;
    }
    Ok(lists)
}

// ---- the order

/// The numbers of the objects in an order in which each comes after all that it depends on. If there is no
/// such order, the objects of a cycle: each depends on the next one, and the last on the first. An Err means
/// out of memory.
pub(crate) fn dependency_order(
    alloc: Global,
    dependencies: &[Dependencies],
) -> Result<OrderOrCycle, AllocError>
    requires bounded { length dependencies.now ≤ 4096 }
    requires within { are_within (length dependencies.now)
        (map masters_in (map (λ list. list.items) dependencies.now)) ≡ true }
    ensures { IfOk result
        (IsOrderOrCycle (map masters_in (map (λ list. list.items) dependencies.now))) }
{
    let links = master_links(alloc, dependencies)?;
    topological_order(alloc, &links)
}

/// The masters of each object, by number, from its dependencies. An Err means out of memory.
pub(crate) fn master_links(
    alloc: Global,
    dependencies: &[Dependencies],
) -> Result<Vec<SmallVec<u32, 4>>, AllocError>
    ensures { IfOk result (λ links. map (λ list. list.items) links.items
        ≡ map masters_in (map (λ list. list.items) dependencies.now)) }
{
    let mut links = Vec::with_capacity(alloc, dependencies.len())?;
    for list in dependencies {
        links.push(masters(alloc, list.as_slice())?)?;
    }
    Ok(links)
}

/// The masters of these dependencies.
fn masters(alloc: Global, dependencies: &[Dependency]) -> Result<SmallVec<u32, 4>, AllocError>
    ensures { IfOk result (λ masters. masters.items ≡ masters_in dependencies.now) }
{
    let mut masters = SmallVec::new(alloc);
    for dependency in dependencies {
        masters.push(dependency.master)?;
    }
    Ok(masters)
}
