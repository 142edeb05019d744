//! A parsed setup: the contents of a document whose members have the right names and kinds.
//!
//! Texts are borrowed from the document's tree. Numbers are those of the document.

ghost use Rattle.std.specs.Prelude.{◌≡◌};
ghost use Rattle.setup_model.specs.Text.{text};

use crate::dependency::Criteria;
use crate::options::Options;
use serde_json::Value;

/// How a host or a service is checked (manual: Service and Host Check Scheduling; State Types). In a setup that was
/// verified each number is in its range.
#[derive(Clone, Copy, Debug, PartialEq, Eq)]
pub struct Object {
    // The fields that each report reads come first, next to each other.
    /// From one check to the next, in units of `interval_length`, 0 to 525,600. 0 means that no check follows
    /// automatically.
    pub check_interval: u64,
    /// How many checks in a row must find a problem before it is hard, 1 to 255.
    pub max_check_attempts: u64,
    /// Whether the object's checks are scheduled.
    pub enabled: bool,
    /// From one check to the next while the object is a soft problem, in units of
    /// `interval_length`, 0 to 525,600.
    pub retry_interval: u64,
}

/// A host as the document describes it.
#[derive(Clone, Copy)]
pub struct ParsedHost<'v> {
    /// The host's name.
    pub name: &'v str,
    /// Its parents' names, each a text.
    pub parents: &'v [Value],
    /// How the host is checked.
    pub check: Object,
}

/// A service as the document describes it.
#[derive(Clone, Copy)]
pub struct ParsedService<'v> {
    /// The name of the service's host.
    pub host: &'v str,
    /// The service's description.
    pub description: &'v str,
    /// How the service is checked.
    pub check: Object,
}

/// A dependency as the document describes it, between services or between hosts.
#[derive(Clone, Copy)]
pub struct ParsedDependency<'v> {
    /// The full name of the object that depends on the other.
    pub dependent: &'v str,
    /// The full name of the object that is depended on.
    pub master: &'v str,
    /// The states of the master in which the dependency fails.
    pub criteria: Criteria,
    /// Whether the dependency also fails when one of the master's own dependencies fails.
    pub inherits: bool,
}

/// A document in the right shape. Each list is in the document's order.
#[derive(Drop)]
pub struct ParsedSetup<'v> {
    /// The options. An option that the document leaves out has its default.
    pub options: Options,
    /// The hosts.
    pub hosts: Vec<ParsedHost<'v>>,
    /// The services.
    pub services: Vec<ParsedService<'v>>,
    /// The dependencies between services.
    pub service_dependencies: Vec<ParsedDependency<'v>>,
    /// The dependencies between hosts.
    pub host_dependencies: Vec<ParsedDependency<'v>>,
}

/// The text of a value, as a parent's name is one. A value that isn't a text gives no bytes.
pub fn text(value: &Value) -> &str
    ensures { result.now ≡ text value.now }
{
    value.as_str().unwrap_or("")
}
