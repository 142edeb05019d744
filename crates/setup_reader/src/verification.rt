//! Verifies a parsed setup (manual: "Verifying Your Configuration"): counts, names, repeats, links, limits. Each test
//! covers all items before the next test begins.

ghost use Rattle.std.specs.Prelude.{◌≤◌, ◌+◌, length, OnOk};
ghost use Rattle.setup_model.specs.ParsedViews.{parsed_view};
ghost use Rattle.setup_model.specs.Fault.{IsExpectedReading};
ghost use Rattle.setup_reader.specs.Verification.{verification};

use crate::counts::verify_counts;
use crate::links::verify_links;
use crate::names::{distinct_names, verify_distinct_services, verify_names};
use crate::ranges::verify_ranges;
use setup_model::{Fault, ParsedSetup};
use std::alloc::Global;

/// Whether a parsed setup has no fault except for cycles. The error is the first fault after the shape, in the order
/// of [`LoadError`](setup_model::LoadError), with all details that the test has found. `Memory` can come in
/// place of either.
#[tactic(auto, unfolding(crate::specs::Verification::verification))]
pub fn verify(alloc: Global, parsed: &ParsedSetup<'_>) -> Result<(), Fault>
    ensures exact { IsExpectedReading (λ u. u) result (verification (parsed_view parsed.now)) }
    ensures bounded { OnOk result
        (length parsed.now.hosts.items + length parsed.now.services.items ≤ 4096) }
{
    verify_counts(parsed)?;
    verify_names(&parsed.hosts, &parsed.services)?;
    let names = distinct_names(alloc, &parsed.hosts)?;
    verify_distinct_services(alloc, &parsed.services)?;
    verify_links(alloc, parsed, &names)?;
    verify_ranges(&parsed.options, &parsed.hosts, &parsed.services)
}
