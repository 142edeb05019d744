//! The numbers of objects, and the links between them by number. Hosts come first, in the order of their
//! names' bytes. Then come services, in the order of their hosts' names and then of their descriptions.

ghost use Rattle.std.specs.Prelude.{◌≡◌, ◌≤◌, ◌<◌, length, map, bytes_eq, IfOk, OnOk, None, true, false, [], ◌∷◌, ◌++◌, string_bytes};
ghost use Rattle.std.specs.List.{list_all, list_any};
ghost use Rattle.std.specs.List.Sorted.{IsStrictlySortedBy};
ghost use Rattle.check_objects.specs.Numbering.{configuration_of_objects, hosts_in_order, services_in_order, index_of_name, numbered_host, numbered_service};
ghost use Rattle.setup_model.specs.Name.{is_host_name, full_name, pair_order, text_order};
ghost use Rattle.check_objects.specs.Configuration.{number_among};
ghost use Rattle.setup_model.specs.Keys.{first_repeat, names_of, key_of, is_same_key};
ghost use Rattle.setup_model.specs.ParsedViews.{host, service, parsed_view, texts};
ghost use Rattle.check_objects.specs.Entries.{objects_in, host_entry, service_entry};
ghost use Rattle.setup_model.specs.Text.{text};

use indexmap::{IndexMap, IndexSet};
use serde_json::Value;
use setup_model::{Object, ParsedHost, ParsedService, ParsedSetup, full_name, text};
use smallvec::SmallVec;
use std::alloc::{AllocError, Global};

/// The parents of a host, by number. Most hosts have few.
pub(crate) type Parents = SmallVec<u32, 4>;

/// A host as the setup stores it, under its name.
#[derive(Drop)]
pub(crate) struct Host {
    /// How the host is checked.
    pub(crate) object: Object,
    /// The numbers of its parents, in the document's order.
    pub(crate) parents: Parents,
}

/// A service as the setup stores it, under its full name.
#[derive(Drop)]
pub(crate) struct Service {
    /// How the service is checked.
    pub(crate) object: Object,
    /// The number of its host.
    pub(crate) host: u32,
}

/// The hosts and the services of a parsed setup, each at the index that is its number among those of its sort.
/// Each has a name of its own, and no service's host has a semicolon in its name. An Err means out of
/// memory.
pub(crate) fn number_objects(
    alloc: Global,
    parsed: &ParsedSetup<'_>,
) -> Result<(IndexMap<String, Host>, IndexMap<String, Service>), AllocError>
    requires bounded { length parsed.now.hosts.items ≤ 4096 }
    requires names { first_repeat bytes_eq (names_of (parsed_view parsed.now).hosts) ≡ None }
    requires keys { first_repeat is_same_key (map key_of (parsed_view parsed.now).services) ≡ None }
    requires without_semicolon { list_all (λ s. is_host_name s.host) (parsed_view parsed.now).services ≡ true }
    ensures hosts { IfOk result (λ objects.
        map host_entry objects.0.entries ≡ (configuration_of_objects (parsed_view parsed.now)).hosts) }
    ensures services { IfOk result (λ objects.
        map service_entry objects.1.entries ≡ (configuration_of_objects (parsed_view parsed.now)).services) }
{
    let hosts = sort_hosts(alloc, &parsed.hosts)?;
    let services = sort_services(alloc, &parsed.services)?;
    let names = number_names(alloc, &hosts)?;
    let hosts = index_hosts(alloc, &hosts, &names)?;
    let services = index_services(alloc, &services, &names)?;
    Ok((hosts, services))
}

// ---- the order

/// The hosts, whose names are distinct, in the order of their names' bytes. An Err means out of memory.
fn sort_hosts<'v>(
    alloc: Global,
    parsed: &[ParsedHost<'v>],
) -> Result<Vec<ParsedHost<'v>>, AllocError>
    requires distinct { first_repeat bytes_eq (names_of (map host parsed.now)) ≡ None }
    ensures { IfOk result (λ sorted.
        map host sorted.items ≡ hosts_in_order (map host parsed.now)) }
{
    let mut sorted = Vec::from_slice(alloc, parsed)?;
    sorted.sort_unstable_by_key(|item| item.name);
    Ok(sorted)
}

/// The services, in the order of their hosts' names and then of their descriptions. No two of them have both
/// the same host and the same description. An Err means out of memory.
fn sort_services<'v>(
    alloc: Global,
    parsed: &[ParsedService<'v>],
) -> Result<Vec<ParsedService<'v>>, AllocError>
    requires distinct { first_repeat is_same_key (map key_of (map service parsed.now)) ≡ None }
    ensures { IfOk result (λ sorted.
        map service sorted.items ≡ services_in_order (map service parsed.now)) }
{
    let mut sorted = Vec::from_slice(alloc, parsed)?;
    sorted.sort_unstable_by_key(|item| (item.host, item.description));
    Ok(sorted)
}

// ---- links

/// The names of these hosts, which ascend, each at the index that is its number. An Err means out of memory.
fn number_names<'v>(
    alloc: Global,
    sorted: &[ParsedHost<'v>],
) -> Result<IndexSet<&'v str>, AllocError>
    requires { IsStrictlySortedBy text_order (names_of (map host sorted.now)) }
    ensures { IfOk result (λ names. texts names.keys ≡ names_of (map host sorted.now)) }
{
    let mut names = IndexSet::with_capacity(alloc, sorted.len())?;
    for item in sorted {
        names.insert(item.name)?;
    }
    Ok(names)
}

/// The number of a host among the names.
fn number_of(names: &IndexSet<&str>, name: &str) -> u32
    requires { length names.now.keys ≤ 4096 }
    ensures { result ≡ index_of_name (texts names.now.keys) name.now }
{
    match names.get_index_of(name) {
        Some(index) => index as u32,
        None => 0,
    }
}

/// The numbers of a host's parents.
fn number_parents(
    alloc: Global,
    parents: &[Value],
    names: &IndexSet<&str>,
) -> Result<Parents, AllocError>
    requires { length names.now.keys ≤ 4096 }
    ensures { IfOk result (λ v.
        v.items ≡ map (index_of_name (texts names.now.keys)) (map text parents.now)) }
{
    let mut numbers = SmallVec::new(alloc);
    for parent in parents {
        numbers.push(number_of(names, text(parent)))?;
    }
    Ok(numbers)
}

// ---- names to objects

/// These hosts, whose names ascend, by name. Each is at the index that is its number. An Err means out of memory.
fn index_hosts(
    alloc: Global,
    sorted: &[ParsedHost<'_>],
    names: &IndexSet<&str>,
) -> Result<IndexMap<String, Host>, AllocError>
    requires bounded { length names.now.keys ≤ 4096 }
    requires ascending { IsStrictlySortedBy text_order (names_of (map host sorted.now)) }
    ensures { IfOk result (λ hosts. map host_entry hosts.entries
        ≡ map (numbered_host (texts names.now.keys)) (map host sorted.now)) }
{
    let mut hosts = IndexMap::with_capacity(alloc, sorted.len())?;
    for item in sorted {
        let parents = number_parents(alloc, item.parents, names)?;
        let name = String::from_str(alloc, item.name)?;
        let object = item.check;
        append(&mut hosts, name, Host { object, parents })?;
    }
    Ok(hosts)
}

/// These services, whose pairs of host and description ascend, by full name. The number of each is its index
/// plus the number of hosts. An Err means out of memory.
fn index_services(
    alloc: Global,
    sorted: &[ParsedService<'_>],
    names: &IndexSet<&str>,
) -> Result<IndexMap<String, Service>, AllocError>
    requires bounded { length names.now.keys ≤ 4096 }
    requires ascending { IsStrictlySortedBy pair_order (map key_of (map service sorted.now)) }
    requires without_semicolon { list_all (λ s. is_host_name s.host) (map service sorted.now) ≡ true }
    ensures { IfOk result (λ services. map service_entry services.entries
        ≡ map (numbered_service (texts names.now.keys)) (map service sorted.now)) }
{
    let mut services = IndexMap::with_capacity(alloc, sorted.len())?;
    for item in sorted {
        let name = full_name(alloc, item.host, item.description)?;
        let object = item.check;
        let host = number_of(names, item.host);
        append(&mut services, name, Service { object, host })?;
    }
    Ok(services)
}

/// The number of the object with this full name, or None if there is no such object.
pub(crate) fn object_number(
    hosts: &IndexMap<String, Host>,
    services: &IndexMap<String, Service>,
    name: &str,
) -> Option<u32>
    requires { length (objects_in hosts.now.entries services.now.entries) ≤ 4096 }
    ensures { result ≡ number_among (objects_in hosts.now.entries services.now.entries) name.now }
{
    match hosts.get_index_of(name) {
        Some(index) => Some(index as u32),
        None => {
            let index = services.get_index_of(name)?;
            Some((hosts.len() + index) as u32)
        }
    }
}

/// Adds a new name at the end of the map.
fn append<T: Drop>(map: &mut IndexMap<String, T>, name: String, value: T) -> Result<(), AllocError>
    requires { list_any (λ e. bytes_eq (string_bytes name) (string_bytes e.0)) map.old.entries
        ≡ false }
    ensures { OnOk result (map.new.entries ≡ map.old.entries ++ (name, value) ∷ []) }
{
    map.insert(name, value)?;
    Ok(())
}
