//! All figures of the summary of a setup.

ghost use Rattle.std.specs.Prelude.{◌≡◌, ◌≤◌, IfOk, length};
ghost use Rattle.check_objects.specs.Configuration.{IsSetup};
ghost use Rattle.setup_summary.specs.Summary.{summary_of};

use crate::chains::{Chains, chains_in};
use crate::counts::{Links, Reasons, count_links, count_reasons};
use crate::spans::{Span, span_of};
use check_objects::{DelayMethod, Setup};
use check_spread::{copy_objects, initial_times, interleave_factor};
use check_states::LAST_MOMENT;
use std::alloc::{AllocError, Global};

/// The summary of a setup. Times are moments in milliseconds, as a scheduler sets them that starts at the
/// given moment.
#[derive(Clone, Copy, Debug, PartialEq, Eq)]
pub struct Summary {
    /// How many hosts there are.
    pub hosts: usize,
    /// How many services there are.
    pub services: usize,
    /// How many links there are.
    pub links: Links,
    /// How many objects are scheduled, and why the others aren't.
    pub reasons: Reasons,
    /// How many links the longest chains have.
    pub chains: Chains,
    /// How the first checks of hosts are spread.
    pub host_delay: DelayMethod,
    /// The span of the first checks of hosts.
    pub host_span: Span,
    /// How the first checks of services are spread.
    pub service_delay: DelayMethod,
    /// The span of the first checks of services.
    pub service_span: Span,
    /// The number of positions from one visit of a service to the next (manual: Service and Host Check
    /// Scheduling, service interleaving).
    pub interleave_factor: usize,
}

impl Summary {
    /// The summary of a setup whose scheduling starts at the moment `start`, in milliseconds. It takes time
    /// linear in the objects and their links. An Err means out of memory.
    pub fn of(alloc: Global, setup: &Setup, start: u64) -> Result<Summary, AllocError>
        requires { start ≤ LAST_MOMENT }
        ensures exact { IfOk result (λ summary. summary ≡ summary_of setup.now start) }
    {
        let times = initial_times(alloc, setup, start)?;
        let (host_times, service_times) = times.split_at(setup.hosts());
        let objects = copy_objects(alloc, setup)?;
        let options = setup.options();
        Ok(Summary {
            hosts: setup.hosts(),
            services: count_services(setup),
            links: count_links(setup),
            reasons: count_reasons(&objects),
            chains: chains_in(alloc, setup)?,
            host_delay: options.host_inter_check_delay_method,
            host_span: span_of(host_times),
            service_delay: options.service_inter_check_delay_method,
            service_span: span_of(service_times),
            interleave_factor: interleave_factor(setup),
        })
    }
}

/// How many services there are.
fn count_services(setup: &Setup) -> usize
    ensures count { result ≡ length setup.now.services }
    ensures setup { IsSetup setup.now }
{
    setup.len() - setup.hosts()
}
