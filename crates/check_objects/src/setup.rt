//! The setup: the objects that are checked, with their names and numbers, and their links.

ghost use Rattle.std.specs.Prelude.{◌≡◌, ◌<◌, ◌≤◌, length, map, Ok, option_map, slice_get, Some, IfSome, IfOk, IfErr, OnOk, Err, ◌==◌, All, false};
ghost use Rattle.std.specs.Prelude.{string_bytes};
ghost use Rattle.check_objects.specs.Configuration.{Configuration, object_count, host_count, objects_of, number_by_name, name_of, host_of, parents_of};
ghost use Rattle.check_objects.specs.Configuration.{dependencies_of, masters_in, masters_of, parents_by_host, IsSetup};
ghost use Rattle.setup_order.specs.Cycles.{has_cycle};
ghost use Rattle.setup_order.specs.Orders.{IsOrder};
ghost use Rattle.check_objects.specs.Numbering.{configuration};
ghost use Rattle.check_objects.specs.WellFormed.{configuration_of, IsWellFormed};
ghost use Rattle.check_objects.specs.Setup.{setup_of, setup_of_tree, without_cycles, AreRefusedFor, IsParentVerdict, IsRefusedFor, IsRefusedTree};
ghost use Rattle.setup_reader.specs.Verification.{verification};
ghost use Rattle.setup_model.specs.ParsedViews.{parsed_view};
ghost use Rattle.check_objects.specs.Entries.{host_entry, named_object, objects_in, service_entry};
ghost use Rattle.setup_model.specs.LoadError.{IsExpectedResult};
ghost use Rattle.setup_model.specs.Fault.{non_memory_fault, view_of};
ghost use Rattle.serde_json.specs.View.{view};

use crate::cycles::{dependency_cycle, parent_cycle};
use crate::dependency_lists::{Dependencies, dependency_order, list_dependencies, master_links};
use crate::document::read_document;
use crate::object_index::{Host, Parents, Service, number_objects, object_number};
use indexmap::IndexMap;
use serde_json::Value;
use setup_model::{Dependency, Fault, LoadError, Object, Options, ParsedSetup};
use setup_order::{OrderOrCycle, topological_order};
use setup_reader::{parse_setup, verify};
use smallvec::SmallVec;
use std::alloc::{AllocError, Global};
use std::marker::Model;

/// The objects that are checked, with their names and numbers.
///
/// Numbers begin at 0. Hosts come first, in the order of their names' bytes. Then come services, in the order
/// of their hosts' names and then of their descriptions. A setup never changes after it is read. Contracts
/// see it as a `Configuration`.
pub struct Setup {
    hosts: IndexMap<String, Host>,
    order: Vec<u32>,
    // A call for a service reads fields that are next to each other: the last options, the dependencies, and
    // the beginning of the services.
    options: Options,
    dependencies: Vec<Dependencies>,
    services: IndexMap<String, Service>,
}

// A crate that drops a setup calls this. A derived one would be proved there again, field by field.
impl Drop for Setup {
    fn drop(self) {
        let Setup {
            hosts: _,
            order: _,
            options: _,
            dependencies: _,
            services: _,
        } = self;
    }
}

impl Model for Setup {
    ghost Value = { Configuration };

    ghost view = { configuration_of };

    ghost invariant = { IsWellFormed };
}

impl Setup {
    /// Reads one setup document, in JSON, of at most 16,777,216 bytes.
    ///
    /// The result is the document's setup. Otherwise the error is the document's first fault in the order of
    /// [`LoadError`]. `Memory` can come in place of either. Nothing is made if there is an error. Call
    /// [`read_with_fault`](Setup::read_with_fault) for the details of the fault.
    pub fn read(alloc: Global, bytes: &[u8]) -> Result<Setup, LoadError>
        ensures exact { IsExpectedResult (λ s. s) result (setup_of bytes.now) }
        ensures too_long { 16777216 < length bytes.now → result ≡ Err LoadError.TooLong }
    {
        match Setup::read_with_fault(alloc, bytes) {
            Ok(setup) => Ok(setup),
            Err(fault) => Err(LoadError::from(fault)),
        }
    }

    /// Reads one setup document as [`read`](Setup::read) does. For a refused document it returns the fault
    /// with all details that the failed test has found.
    ///
    /// `Memory` can come in place of a setup and of a fault. Nothing is made then.
    #[tactic(auto, unfolding(crate::specs::Setup::setup_of))]
    pub fn read_with_fault(alloc: Global, bytes: &[u8]) -> Result<Setup, Fault>
        ensures setup { IfOk result (λ setup. setup_of bytes.now ≡ Ok setup) }
        ensures refused { IfErr result (λ fault. IsRefusedFor bytes.now (non_memory_fault (view_of fault))) }
        ensures too_long { 16777216 < length bytes.now → result ≡ Err Fault.TooLong }
    {
        let tree = read_document(alloc, bytes)?;
        Setup::read_tree_with_fault(alloc, &tree)
    }

    /// The setup of a document's tree, as [`read_document`](crate::read_document) returns it. For a refused
    /// tree it returns the fault with all details that the failed test has found.
    ///
    /// `Memory` can come in place of a setup and of a fault. Nothing is made then.
    #[tactic(auto, unfolding(crate::specs::Setup::setup_of_tree))]
    pub fn read_tree_with_fault(alloc: Global, tree: &Value) -> Result<Setup, Fault>
        ensures setup { IfOk result (λ setup. setup_of_tree (view tree.now) ≡ Ok setup) }
        ensures refused { IfErr result (λ fault.
            IsRefusedTree (view tree.now) (non_memory_fault (view_of fault))) }
    {
        let parsed = parse_setup(alloc, tree)?;
        verify(alloc, &parsed)?;
        Setup::from_parsed(alloc, &parsed)
    }

    /// The setup of a parsed setup without a fault. It is refused if some object depends on itself through one
    /// dependency or more. It is also refused if some host is its own parent through one parent or more.
    fn from_parsed(alloc: Global, parsed: &ParsedSetup<'_>) -> Result<Setup, Fault>
        requires faultless { verification (parsed_view parsed.now) ≡ Ok tt }
        ensures setup { IfOk result (λ setup.
            without_cycles (configuration (parsed_view parsed.now)) ≡ Ok setup) }
        ensures refused { IfErr result (λ fault.
            AreRefusedFor (parsed_view parsed.now) (non_memory_fault (view_of fault))) }
    {
        let (hosts, services) = number_objects(alloc, parsed)?;
        let dependencies = list_dependencies(alloc, parsed, &hosts, &services)?;
        let order = order_without_cycles(alloc, parsed, &hosts, &services, &dependencies)?;
        Ok(Setup {
            options: parsed.options,
            hosts,
            services,
            dependencies,
            order,
        })
    }

    /// The number of objects, 0 to 4,096. The clause `setup` also states the facts that hold of every setup.
    /// Its names are good and ascend. Its parents and its services' hosts are hosts. Its dependencies are
    /// between objects of one sort. Neither dependencies nor parents form a cycle. Its counts and numbers are
    /// within their limits.
    pub fn len(&self) -> usize
        ensures count { result ≡ object_count self.now }
        ensures bounded { result ≤ 4096 }
        ensures setup { IsSetup self.now }
    {
        self.hosts() + self.services.len()
    }

    /// Whether there is no object.
    pub fn is_empty(&self) -> bool
        ensures { result ≡ (object_count self.now == 0) }
    {
        self.len() == 0
    }

    /// The number of hosts. Each host's number is below it.
    pub fn hosts(&self) -> usize
        ensures count { result ≡ host_count self.now }
        ensures within { result ≤ object_count self.now }
    {
        self.hosts.len()
    }

    /// The options. An option that the document leaves out has its default.
    pub fn options(&self) -> &Options
        ensures { result.now ≡ self.now.options }
    {
        &self.options
    }

    /// The full name of the object with this number: a host's name, or a service's
    /// `host;description`.
    pub fn name(&self, number: u32) -> &str
        requires { number < object_count self.now }
        ensures { result.now ≡ name_of self.now number }
    {
        let (name, _) = self.entry(number);
        name
    }

    /// How the object with this number is checked.
    pub fn object(&self, number: u32) -> &Object
        requires { number < object_count self.now }
        ensures { option_map (λ o. o.object) (slice_get (objects_of self.now) number)
            ≡ Some result.now }
    {
        let (_, object) = self.entry(number);
        object
    }

    /// The full name of the object with this number, and how it is checked.
    #[inline(always)]
    fn entry(&self, number: u32) -> (&str, &Object)
        requires { number < object_count self.now }
        ensures { slice_get (objects_of self.now) number
            ≡ Some (named_object result.0.now result.1.now) }
    {
        object_entry(&self.hosts, &self.services, number)
    }

    /// The number of the object with this full name, or None if there is no such object.
    pub fn number(&self, name: &str) -> Option<u32>
        ensures { result ≡ number_by_name self.now name.now }
    {
        object_number(&self.hosts, &self.services, name)
    }

    /// The number of the service's host, or None for a host.
    pub fn host_of(&self, number: u32) -> Option<u32>
        requires { number < object_count self.now }
        ensures host { result ≡ host_of self.now number }
        ensures within { IfSome result (λ h. h < host_count self.now) }
    {
        let index = number as usize;
        if index < self.hosts.len() {
            return None;
        }
        let (_, service) = self.services.get_index(index - self.hosts.len()).unwrap();
        Some(service.host)
    }

    /// The numbers of the host's parents, in the document's order. A service has none.
    pub fn parents(&self, number: u32) -> &[u32]
        requires { number < object_count self.now }
        ensures parents { result.now ≡ parents_of self.now number }
        ensures within { All (λ p. p < host_count self.now) result.now }
    {
        match self.hosts.get_index(number as usize) {
            Some((_, host)) => host.parents.as_slice(),
            None => &[],
        }
    }

    /// The dependencies of the object with this number, in the document's order. Services depend on services,
    /// and hosts on hosts.
    pub fn dependencies(&self, number: u32) -> &[Dependency]
        requires { number < object_count self.now }
        ensures dependencies { result.now ≡ dependencies_of self.now number }
        ensures within { All (λ d. d.master < object_count self.now) result.now }
    {
        self.dependencies[number as usize].as_slice()
    }

    /// The numbers of the masters of each object, by number. An Err means out of memory.
    pub fn master_links(&self, alloc: Global) -> Result<Vec<SmallVec<u32, 4>>, AllocError>
        ensures links { IfOk result (λ links.
            map (λ list. list.items) links.items ≡ masters_of self.now) }
        ensures setup { IsSetup self.now }
    {
        master_links(alloc, &self.dependencies)
    }

    /// The numbers of the parents of each host, by number. An Err means out of memory.
    pub fn parent_links(&self, alloc: Global) -> Result<Vec<Parents>, AllocError>
        ensures links { IfOk result (λ links.
            map (λ list. list.items) links.items ≡ parents_by_host self.now) }
        ensures setup { IsSetup self.now }
    {
        parent_links(alloc, &self.hosts)
    }

    /// The numbers of all objects, each once. Every object comes after all that it depends on.
    pub fn order(&self) -> &[u32]
        ensures { IsOrder (masters_of self.now) result.now }
    {
        &self.order
    }
}

/// The full name of the object with this number, and how it is checked.
// Each caller uses only one half, and the compiler removes the other: a call reads no name.
#[inline(always)]
pub(crate) fn object_entry<'s>(
    hosts: &'s IndexMap<String, Host>,
    services: &'s IndexMap<String, Service>,
    number: u32,
) -> (&'s str, &'s Object)
    requires { number < length (objects_in hosts.now.entries services.now.entries) }
    ensures { slice_get (objects_in hosts.now.entries services.now.entries) number
        ≡ Some (named_object result.0.now result.1.now) }
{
    let index = number as usize;
    if index < hosts.len() {
        let (name, host) = hosts.get_index(index).unwrap();
        (name.as_str(), &host.object)
    } else {
        let (name, service) = services.get_index(index - hosts.len()).unwrap();
        (name.as_str(), &service.object)
    }
}

/// The numbers of the objects in an order in which each comes after all that it depends on. A setup with a cycle
/// is refused.
fn order_without_cycles(
    alloc: Global,
    parsed: &ParsedSetup<'_>,
    hosts: &IndexMap<String, Host>,
    services: &IndexMap<String, Service>,
    dependencies: &[Dependencies],
) -> Result<Vec<u32>, Fault>
    requires faultless { verification (parsed_view parsed.now) ≡ Ok tt }
    requires hosts { map host_entry hosts.now.entries
        ≡ (configuration (parsed_view parsed.now)).hosts }
    requires services { map service_entry services.now.entries
        ≡ (configuration (parsed_view parsed.now)).services }
    requires dependencies { map (λ list. list.items) dependencies.now
        ≡ (configuration (parsed_view parsed.now)).dependencies }
    ensures order { IfOk result (λ order.
        IsOrder (map masters_in (map (λ list. list.items) dependencies.now)) order.items) }
    ensures acyclic { IfOk result (λ order.
        has_cycle (parents_by_host (configuration (parsed_view parsed.now))) ≡ false) }
    ensures refused { IfErr result (λ fault.
        AreRefusedFor (parsed_view parsed.now) (non_memory_fault (view_of fault))) }
{
    let order = match dependency_order(alloc, dependencies)? {
        OrderOrCycle::Order(order) => order,
        OrderOrCycle::Cycle(cycle) => {
            return Err(dependency_cycle(alloc, parsed, hosts, services, &cycle)?);
        }
    };
    match find_parent_cycle(alloc, parsed, hosts, services)? {
        Some(cycle) => Err(Fault::ParentCycle(cycle)),
        None => Ok(order),
    }
}

/// The names of hosts that form a cycle of parents, or None if no host is its own parent, through one parent or
/// more. An Err means out of memory.
fn find_parent_cycle(
    alloc: Global,
    parsed: &ParsedSetup<'_>,
    hosts: &IndexMap<String, Host>,
    services: &IndexMap<String, Service>,
) -> Result<Option<Vec<String>>, AllocError>
    requires faultless { verification (parsed_view parsed.now) ≡ Ok tt }
    requires hosts { map host_entry hosts.now.entries
        ≡ (configuration (parsed_view parsed.now)).hosts }
    requires services { map service_entry services.now.entries
        ≡ (configuration (parsed_view parsed.now)).services }
    ensures { IfOk result (λ found.
        IsParentVerdict (parsed_view parsed.now) (option_map (λ cycle. map string_bytes cycle.items) found)) }
{
    let links = parent_links(alloc, hosts)?;
    match topological_order(alloc, &links)? {
        OrderOrCycle::Order(_) => Ok(None),
        OrderOrCycle::Cycle(cycle) => Ok(Some(parent_cycle(
            alloc, parsed, hosts, services, &cycle,
        )?)),
    }
}

/// The parents of each host, by number.
fn parent_links(alloc: Global, hosts: &IndexMap<String, Host>) -> Result<Vec<Parents>, AllocError>
    ensures { IfOk result (λ v.
        map (λ l. l.items) v.items ≡ map (λ h. h.parents) (map host_entry hosts.now.entries)) }
{
    let mut links = Vec::with_capacity(alloc, hosts.len())?;
    for number in 0..hosts.len() {
        let (_, host) = hosts.get_index(number).unwrap();
        links.push(SmallVec::from_slice(alloc, host.parents.as_slice())?)?;
    }
    Ok(links)
}
