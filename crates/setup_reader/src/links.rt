//! Links: parents, the hosts of services, and the ends of dependencies.

ghost use Rattle.std.specs.Prelude.{◌≡◌, ℕ, List, string_bytes, IfOk, map, position, not};
ghost use Rattle.setup_model.specs.ParsedViews.{dependency, parsed_view, host, service, texts};
ghost use Rattle.setup_model.specs.Ends.{full_names, is_known, dependency_ends_test, dependencies_test, end_test, dependency_list_test};
ghost use Rattle.setup_model.specs.Fault.{IsExpectedReading};
ghost use Rattle.setup_model.specs.Text.{text};
ghost use Rattle.setup_reader.specs.Verification.{service_hosts_test, links_test, parents_test};

use indexmap::IndexSet;
use serde_json::Value;
use setup_model::{
    End, EndFault, Fault, ParsedDependency, ParsedHost, ParsedService, ParsedSetup, Part, Place,
    full_name, text,
};
use std::alloc::{AllocError, Global};

pub(crate) fn verify_links(
    alloc: Global,
    parsed: &ParsedSetup<'_>,
    hosts: &IndexSet<&str>,
) -> Result<(), Fault>
    ensures { IsExpectedReading (λ u. u) result (links_test (texts hosts.now.keys) (parsed_view parsed.now)) }
{
    verify_parents(&parsed.hosts, hosts)?;
    verify_hosts(&parsed.services, hosts)?;
    verify_ends(alloc, parsed, hosts)
}

fn verify_parents(hosts: &[ParsedHost<'_>], names: &IndexSet<&str>) -> Result<(), Fault>
    ensures { IsExpectedReading (λ u. u) result (parents_test (texts names.now.keys) (map host hosts.now)) }
{
    for (index, host) in hosts.iter().enumerate() {
        if let Some(parent) = unknown_parent(host.parents, names) {
            return Err(Fault::UnknownParent(index, parent));
        }
    }
    Ok(())
}

/// The index of the first of these parents that isn't among the names.
fn unknown_parent(parents: &[Value], names: &IndexSet<&str>) -> Option<usize>
    ensures { result ≡ position (λ p. not (is_known (texts names.now.keys) (text p))) parents.now }
{
    parents
        .iter()
        .position(|parent| !is_known(names, text(parent)))
}

fn is_known(names: &IndexSet<&str>, name: &str) -> bool
    ensures { result ≡ is_known (texts names.now.keys) name.now }
{
    names.contains(name)
}

fn verify_hosts(services: &[ParsedService<'_>], names: &IndexSet<&str>) -> Result<(), Fault>
    ensures { IsExpectedReading (λ u. u) result
        (service_hosts_test (texts names.now.keys) (map service services.now)) }
{
    for (index, service) in services.iter().enumerate() {
        if !is_known(names, service.host) {
            return Err(Fault::UnknownHost(index));
        }
    }
    Ok(())
}

// ---- the ends of dependencies

fn verify_ends(alloc: Global, parsed: &ParsedSetup<'_>, hosts: &IndexSet<&str>) -> Result<(), Fault>
    ensures { IsExpectedReading (λ u. u) result
        (dependencies_test (full_names (parsed_view parsed.now).services)
        (texts hosts.now.keys) (parsed_view parsed.now)) }
{
    if parsed.service_dependencies.is_empty() && parsed.host_dependencies.is_empty() {
        return Ok(());
    }
    let names = full_names(alloc, &parsed.services)?;
    let services = distinct_texts(alloc, &names)?;
    verify_both_sorts(parsed, &services, hosts)
}

/// Whether the ends of all dependencies are among these full names of services and these names of hosts.
fn verify_both_sorts(
    parsed: &ParsedSetup<'_>,
    services: &IndexSet<&str>,
    hosts: &IndexSet<&str>,
) -> Result<(), Fault>
    ensures { IsExpectedReading (λ u. u) result
        (dependencies_test (texts services.now.keys) (texts hosts.now.keys)
        (parsed_view parsed.now)) }
{
    verify_dependencies(
        Part::ServiceDependencies,
        &parsed.service_dependencies,
        services,
        hosts,
    )?;
    verify_dependencies(
        Part::HostDependencies,
        &parsed.host_dependencies,
        hosts,
        services,
    )
}

/// The full names of services, in the document's order. An Err means out of memory.
pub fn full_names(alloc: Global, services: &[ParsedService<'_>]) -> Result<Vec<String>, AllocError>
    ensures { IfOk result (λ names.
        map string_bytes names.items ≡ full_names (map service services.now)) }
{
    let mut names = Vec::with_capacity(alloc, services.len())?;
    for service in services {
        names.push(full_name(alloc, service.host, service.description)?)?;
    }
    Ok(names)
}

/// The set of these texts.
fn distinct_texts<'t>(alloc: Global, all: &'t [String]) -> Result<IndexSet<&'t str>, AllocError>
    ensures { IfOk result (λ set. (name : List ℕ)
        → is_known (texts set.keys) name ≡ is_known (map string_bytes all.now) name) }
{
    let mut set = IndexSet::with_capacity(alloc, all.len())?;
    for text in all {
        set.insert(text.as_str())?;
    }
    Ok(set)
}

/// Whether both ends of each dependency of a part are among the names of their sort. `others` are the names
/// of the other sort.
fn verify_dependencies(
    part: Part,
    dependencies: &[ParsedDependency<'_>],
    names: &IndexSet<&str>,
    others: &IndexSet<&str>,
) -> Result<(), Fault>
    ensures { IsExpectedReading (λ u. u) result
        (dependency_list_test part (texts names.now.keys) (texts others.now.keys)
        (map dependency dependencies.now)) }
{
    for (index, item) in dependencies.iter().enumerate() {
        if let Err(fault) = verify_dependency(*item, names, others) {
            return Err(Fault::UnknownEnd(Place::item(part, index), fault));
        }
    }
    Ok(())
}

fn verify_dependency(
    item: ParsedDependency<'_>,
    names: &IndexSet<&str>,
    others: &IndexSet<&str>,
) -> Result<(), EndFault>
    ensures { result ≡ dependency_ends_test (texts names.now.keys) (texts others.now.keys)
        (dependency item.entry) }
{
    verify_end(End::Dependent, item.dependent, names, others)?;
    verify_end(End::Master, item.master, names, others)
}

fn verify_end(
    end: End,
    name: &str,
    names: &IndexSet<&str>,
    others: &IndexSet<&str>,
) -> Result<(), EndFault>
    ensures { result ≡ end_test (texts names.now.keys) (texts others.now.keys) end name.now }
{
    if is_known(names, name) {
        Ok(())
    } else if is_known(others, name) {
        Err(EndFault::OtherSort(end))
    } else {
        Err(EndFault::Unknown(end))
    }
}
