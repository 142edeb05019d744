//! The lines of a summary: a word and a value each.

ghost use Rattle.std.specs.Prelude.{◌≡◌, ◌++◌, OnOk, codes, decimal, string_bytes};
ghost use Rattle.setup_summary.specs.SummaryText.{value_line, count_line, moment_text, method_text, sizes_text, chains_text, reasons_text, hosts_text};
ghost use Rattle.setup_summary.specs.SummaryText.{services_text, factor_text, spread_text, spreads_text, ok_line, summary_text};

use crate::chains::Chains;
use crate::counts::Reasons;
use crate::spans::Span;
use crate::summary::Summary;
use check_objects::DelayMethod;
use itoa::Buffer;
use std::alloc::AllocError;

/// Appends the line `setup ok` and the lines of a summary, each with its line feed.
pub fn push_summary(text: &mut String, summary: &Summary) -> Result<(), AllocError>
    ensures { OnOk result
        (string_bytes text.new ≡ string_bytes text.old ++ summary_text summary.now) }
{
    push_ok_line(text)?;
    push_sizes(text, summary)?;
    push_chains(text, summary.chains)?;
    push_reasons(text, summary.reasons)?;
    push_spreads(text, summary)
}

/// Appends how many objects and links there are.
#[tactic(auto, unfolding(crate::specs::SummaryText::sizes_text))]
fn push_sizes(text: &mut String, summary: &Summary) -> Result<(), AllocError>
    ensures { OnOk result
        (string_bytes text.new ≡ string_bytes text.old ++ sizes_text summary.now) }
{
    push_count(text, "hosts", summary.hosts)?;
    push_count(text, "services", summary.services)?;
    push_count(text, "dependencies", summary.links.dependencies)?;
    push_count(text, "parents", summary.links.parents)
}

/// Appends how many links the longest chains have.
#[tactic(auto, unfolding(crate::specs::SummaryText::chains_text))]
fn push_chains(text: &mut String, chains: Chains) -> Result<(), AllocError>
    ensures { OnOk result
        (string_bytes text.new ≡ string_bytes text.old ++ chains_text chains) }
{
    push_count(text, "dependency_chain", chains.dependencies)?;
    push_count(text, "parent_chain", chains.parents)
}

/// Appends how many objects are scheduled, and why the others aren't.
#[tactic(auto, unfolding(crate::specs::SummaryText::reasons_text))]
fn push_reasons(text: &mut String, reasons: Reasons) -> Result<(), AllocError>
    ensures { OnOk result
        (string_bytes text.new ≡ string_bytes text.old ++ reasons_text reasons) }
{
    push_count(text, "scheduled", reasons.scheduled)?;
    push_count(text, "disabled", reasons.disabled)?;
    push_count(text, "without_interval", reasons.without_interval)
}

/// Appends how the first checks are spread.
#[tactic(auto, unfolding(crate::specs::SummaryText::spreads_text))]
fn push_spreads(text: &mut String, summary: &Summary) -> Result<(), AllocError>
    ensures { OnOk result
        (string_bytes text.new ≡ string_bytes text.old ++ spreads_text summary.now) }
{
    push_hosts(text, summary)?;
    push_services(text, summary)?;
    push_factor(text, summary)
}

/// Appends how the first checks of hosts are spread.
#[tactic(auto, unfolding(crate::specs::SummaryText::hosts_text))]
fn push_hosts(text: &mut String, summary: &Summary) -> Result<(), AllocError>
    ensures { OnOk result
        (string_bytes text.new ≡ string_bytes text.old ++ hosts_text summary.now) }
{
    push_spread(
        text,
        "host_delay",
        "host_first",
        "host_last",
        summary.host_delay,
        summary.host_span,
    )
}

/// Appends how the first checks of services are spread.
#[tactic(auto, unfolding(crate::specs::SummaryText::services_text))]
fn push_services(text: &mut String, summary: &Summary) -> Result<(), AllocError>
    ensures { OnOk result
        (string_bytes text.new ≡ string_bytes text.old ++ services_text summary.now) }
{
    push_spread(
        text,
        "service_delay",
        "service_first",
        "service_last",
        summary.service_delay,
        summary.service_span,
    )
}

/// Appends the interleave factor of services.
#[tactic(auto, unfolding(crate::specs::SummaryText::factor_text))]
fn push_factor(text: &mut String, summary: &Summary) -> Result<(), AllocError>
    ensures { OnOk result
        (string_bytes text.new ≡ string_bytes text.old ++ factor_text summary.now) }
{
    push_count(text, "interleave_factor", summary.interleave_factor)
}

/// Appends how the first checks of one sort of object are spread: a line each with these words.
#[tactic(auto, unfolding(crate::specs::SummaryText::spread_text))]
fn push_spread(
    text: &mut String,
    delay: &str,
    first: &str,
    last: &str,
    method: DelayMethod,
    span: Span,
) -> Result<(), AllocError>
    ensures { OnOk result (string_bytes text.new
        ≡ string_bytes text.old ++ spread_text delay.now first.now last.now method span) }
{
    push_method(text, delay, method)?;
    push_moment(text, first, span.first)?;
    push_moment(text, last, span.last)
}

/// Appends the first line of a good setup.
#[tactic(auto, unfolding(crate::specs::SummaryText::ok_line))]
fn push_ok_line(text: &mut String) -> Result<(), AllocError>
    ensures { OnOk result (string_bytes text.new ≡ string_bytes text.old ++ ok_line) }
{
    text.push_str("setup ok\n")
}

/// Appends the line of a count.
fn push_count(text: &mut String, word: &str, count: usize) -> Result<(), AllocError>
    ensures { OnOk result
        (string_bytes text.new ≡ string_bytes text.old ++ count_line word.now count) }
{
    push_number(text, word, count as u64)
}

/// Appends the line of a moment in milliseconds, or of `none`.
fn push_moment(text: &mut String, word: &str, moment: Option<u64>) -> Result<(), AllocError>
    ensures { OnOk result (string_bytes text.new
        ≡ string_bytes text.old ++ value_line word.now (moment_text moment)) }
{
    match moment {
        Some(moment) => push_number(text, word, moment),
        None => push_value(text, word, "none"),
    }
}

/// Appends the line of a delay method.
fn push_method(text: &mut String, word: &str, method: DelayMethod) -> Result<(), AllocError>
    ensures { OnOk result (string_bytes text.new
        ≡ string_bytes text.old ++ value_line word.now (method_text method)) }
{
    match method {
        DelayMethod::NoDelay => push_value(text, word, "none"),
        DelayMethod::Dumb => push_value(text, word, "dumb"),
        DelayMethod::Smart => push_value(text, word, "smart"),
        DelayMethod::Fixed(delay) => push_number(text, word, delay),
    }
}

/// Appends a line of a word and a number.
fn push_number(text: &mut String, word: &str, number: u64) -> Result<(), AllocError>
    ensures { OnOk result
        (string_bytes text.new ≡ string_bytes text.old ++ count_line word.now number) }
{
    let mut buffer = Buffer::new();
    push_value(text, word, buffer.format(number))
}

/// Appends a line of a word and a value.
fn push_value(text: &mut String, word: &str, value: &str) -> Result<(), AllocError>
    ensures { OnOk result
        (string_bytes text.new ≡ string_bytes text.old ++ value_line word.now value.now) }
{
    text.push_str(word)?;
    text.push_str(" ")?;
    text.push_str(value)?;
    text.push_str("\n")
}
