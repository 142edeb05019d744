//! Names, and names that occur twice.

ghost use Rattle.std.specs.Prelude.{map};
ghost use Rattle.setup_model.specs.Agreement.{each};
ghost use Rattle.setup_model.specs.ParsedViews.{host, service, texts};
ghost use Rattle.setup_model.specs.Fault.{IsExpectedReading};
ghost use Rattle.setup_reader.specs.Verification.{description_test, host_name_test, setup_names_test, distinct_host_names, distinct_services_test};

use indexmap::IndexSet;
use setup_model::{Fault, ParsedHost, ParsedService, Place, name_fault};
use std::alloc::Global;

pub(crate) fn verify_names(
    hosts: &[ParsedHost<'_>],
    services: &[ParsedService<'_>],
) -> Result<(), Fault>
    ensures { IsExpectedReading (λ u. u) result (setup_names_test (map host hosts.now) (map service services.now)) }
{
    verify_host_names(hosts)?;
    verify_descriptions(services)
}

fn verify_host_names(hosts: &[ParsedHost<'_>]) -> Result<(), Fault>
    ensures { IsExpectedReading (λ u. u) result (each host_name_test (map host hosts.now)) }
{
    for (index, host) in hosts.iter().enumerate() {
        if let Some(fault) = name_fault(host.name) {
            return Err(Fault::BadName(Place::host(index), fault));
        }
    }
    Ok(())
}

fn verify_descriptions(services: &[ParsedService<'_>]) -> Result<(), Fault>
    ensures { IsExpectedReading (λ u. u) result (each description_test (map service services.now)) }
{
    for (index, service) in services.iter().enumerate() {
        if let Some(fault) = name_fault(service.description) {
            return Err(Fault::BadName(Place::service(index), fault));
        }
    }
    Ok(())
}

/// The names of the hosts in the document's order, if each host has a name of its own.
pub(crate) fn distinct_names<'v>(
    alloc: Global,
    hosts: &[ParsedHost<'v>],
) -> Result<IndexSet<&'v str>, Fault>
    ensures { IsExpectedReading (λ names. texts names.keys) result
        (distinct_host_names (map host hosts.now)) }
{
    let mut names = IndexSet::with_capacity(alloc, hosts.len())?;
    for (index, host) in hosts.iter().enumerate() {
        let (first, is_new) = names.insert_full(host.name)?;
        if !is_new {
            return Err(Fault::Duplicate(Place::host(index), first));
        }
    }
    Ok(names)
}

pub(crate) fn verify_distinct_services(
    alloc: Global,
    services: &[ParsedService<'_>],
) -> Result<(), Fault>
    ensures { IsExpectedReading (λ u. u) result (distinct_services_test (map service services.now)) }
{
    let mut keys = IndexSet::with_capacity(alloc, services.len())?;
    for (index, service) in services.iter().enumerate() {
        let (first, is_new) = keys.insert_full((service.host, service.description))?;
        if !is_new {
            return Err(Fault::Duplicate(Place::service(index), first));
        }
    }
    Ok(())
}
