//! The counts of a document's items.

ghost use Rattle.std.specs.Prelude.{◌≤◌, ◌≡◌, ◌+◌, length, map, nat_lt, OnOk};
ghost use Rattle.setup_model.specs.ParsedViews.{parsed_view, host};
ghost use Rattle.setup_model.specs.Fault.{IsExpectedReading};
ghost use Rattle.setup_reader.specs.Verification.{count_test, item_counts_test, u64_or_max, parent_count};

use setup_model::{
    Count, Fault, MAX_DEPENDENCIES, MAX_OBJECTS, MAX_PARENTS, ParsedHost, ParsedSetup,
};

pub(crate) fn verify_counts(parsed: &ParsedSetup<'_>) -> Result<(), Fault>
    ensures exact { IsExpectedReading (λ u. u) result (item_counts_test (parsed_view parsed.now)) }
    ensures bounded { OnOk result
        (length parsed.now.hosts.items + length parsed.now.services.items ≤ 4096) }
{
    let objects = sum(parsed.hosts.len(), parsed.services.len());
    verify_count(Count::Objects, MAX_OBJECTS, objects)?;
    verify_count(Count::Parents, MAX_PARENTS, count_parents(&parsed.hosts))?;
    let dependencies = sum(
        parsed.service_dependencies.len(),
        parsed.host_dependencies.len(),
    );
    verify_count(Count::Dependencies, MAX_DEPENDENCIES, dependencies)
}

/// Whether this count isn't above the limit.
fn verify_count(what: Count, most: usize, count: u64) -> Result<(), Fault>
    ensures exact { IsExpectedReading (λ u. u) result (count_test what most count) }
    ensures bounded { OnOk result (count ≤ most) }
{
    if count > most as u64 {
        Err(Fault::TooMany(what, count))
    } else {
        Ok(())
    }
}

/// The sum of two counts, up to the largest number of 64 bits.
fn sum(first: usize, second: usize) -> u64
    ensures { result ≡ u64_or_max (first + second) }
{
    (first as u64).saturating_add(second as u64)
}

/// The number of parents of all hosts together, up to the largest number of 64 bits.
fn count_parents(hosts: &[ParsedHost<'_>]) -> u64
    ensures { result ≡ u64_or_max (parent_count (map host hosts.now)) }
{
    let mut count = 0u64;
    for host in hosts {
        match count.checked_add(host.parents.len() as u64) {
            Some(sum) => count = sum,
            None => return u64::MAX,
        }
    }
    count
}
