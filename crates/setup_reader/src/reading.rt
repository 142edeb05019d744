//! Reads a parsed setup from a document's tree. This finds every fault of shape, and no other fault.

ghost use Rattle.std.specs.Prelude.{◌≡◌, IfOk, map, option_map};
ghost use Rattle.serde_json.specs.Data.{Data};
ghost use Rattle.serde_json.specs.View.{view};
ghost use Rattle.setup_model.specs.Fault.{IsExpectedReading};
ghost use Rattle.setup_model.specs.Member.{as_row};
ghost use Rattle.setup_model.specs.ParsedSetup as spec;
ghost use Rattle.setup_model.specs.ParsedViews.{host, service, dependency, parsed_view};
ghost use Rattle.setup_reader.specs.Reading.{check_of, delay_at, dependency_of, factor_at, host_of, options_of, options_test, parsed_setup, service_of};
ghost use Rattle.setup_reader.specs.Values.{delay_method, interleave_factor};

use crate::criteria::read_criteria;
use crate::json_tree::{member, number_at, switch_at, text_at, texts_at};
use crate::shapes::{part_items, verify_shape};
use serde_json::Value;
use setup_model::members::{
    CHECK_INTERVAL, CRITERIA, DEPENDENT, DESCRIPTION, DOCUMENT_MEMBERS, ENABLED, HOST,
    HOST_DEPENDENCIES, HOST_DEPENDENCY_MEMBERS, HOST_MEMBERS, HOSTS, INHERITS_PARENT, MASTER,
    MAX_CHECK_ATTEMPTS, NAME, OPTIONS, PARENTS, RETRY_INTERVAL, SERVICE_DEPENDENCIES,
    SERVICE_DEPENDENCY_MEMBERS, SERVICE_MEMBERS, SERVICES,
};
use setup_model::options::{
    HIGH_HOST_FLAP_THRESHOLD, HIGH_SERVICE_FLAP_THRESHOLD, HOST_INTER_CHECK_DELAY_METHOD,
    INTERVAL_LENGTH, LOW_HOST_FLAP_THRESHOLD, LOW_SERVICE_FLAP_THRESHOLD, MAX_CONCURRENT_CHECKS,
    MAX_HOST_CHECK_SPREAD, MAX_SERVICE_CHECK_SPREAD, OPTION_MEMBERS,
    SERVICE_INTER_CHECK_DELAY_METHOD, SERVICE_INTERLEAVE_FACTOR, SOFT_STATE_DEPENDENCIES,
    USE_AGGRESSIVE_HOST_CHECKING,
};
use setup_model::{
    DelayMethod, Fault, InterleaveFactor, Member, Object, Options, ParsedDependency, ParsedHost,
    ParsedService, ParsedSetup, Part, Place,
};
use std::alloc::{AllocError, Global};

/// The parsed setup of a document's tree, or its first fault of shape, in the order of the document's members in
/// [`Part`]. The fault names the member at fault by the table of members. If memory runs out, the fault is
/// `Memory`.
#[tactic(auto, unfolding(crate::specs::Reading::parsed_setup))]
pub fn parse_setup<'v>(alloc: Global, tree: &'v Value) -> Result<ParsedSetup<'v>, Fault>
    ensures { IsExpectedReading parsed_view result (parsed_setup (view tree.now)) }
{
    verify_shape(Place::DOCUMENT, tree, &DOCUMENT_MEMBERS)?;
    let options = tree.get(OPTIONS.name);
    verify_options(options)?;
    let hosts = part_items(tree.get(HOSTS.name), Part::Hosts, &HOST_MEMBERS)?;
    let services = part_items(tree.get(SERVICES.name), Part::Services, &SERVICE_MEMBERS)?;
    let service_dependencies = part_items(
        tree.get(SERVICE_DEPENDENCIES.name),
        Part::ServiceDependencies,
        &SERVICE_DEPENDENCY_MEMBERS,
    )?;
    let host_dependencies = part_items(
        tree.get(HOST_DEPENDENCIES.name),
        Part::HostDependencies,
        &HOST_DEPENDENCY_MEMBERS,
    )?;
    Ok(ParsedSetup {
        options: read_options(options),
        hosts: read_items(alloc, hosts)?,
        services: read_items(alloc, services)?,
        service_dependencies: read_items(alloc, service_dependencies)?,
        host_dependencies: read_items(alloc, host_dependencies)?,
    })
}

// ---- the options

/// Whether the options have the right shape. Options that are absent do.
fn verify_options(options: Option<&Value>) -> Result<(), Fault>
    ensures { IsExpectedReading (λ u. u) result
        (options_test (option_map (λ v. view v.now) options.entry)) }
{
    match options {
        Some(options) => verify_shape(Place::OPTIONS, options, &OPTION_MEMBERS),
        None => Ok(()),
    }
}

/// The options. One that isn't named has its default.
#[tactic(auto, unfolding(crate::specs::Reading::options_of))]
fn read_options(value: Option<&Value>) -> Options
    ensures { result ≡ options_of (option_map (λ v. view v.now) value.entry) }
{
    Options {
        interval_length: number_at(value, INTERVAL_LENGTH),
        service_inter_check_delay_method: delay_at(value, SERVICE_INTER_CHECK_DELAY_METHOD),
        max_service_check_spread: number_at(value, MAX_SERVICE_CHECK_SPREAD),
        service_interleave_factor: factor_at(value, SERVICE_INTERLEAVE_FACTOR),
        host_inter_check_delay_method: delay_at(value, HOST_INTER_CHECK_DELAY_METHOD),
        max_host_check_spread: number_at(value, MAX_HOST_CHECK_SPREAD),
        max_concurrent_checks: number_at(value, MAX_CONCURRENT_CHECKS),
        soft_state_dependencies: switch_at(value, SOFT_STATE_DEPENDENCIES),
        use_aggressive_host_checking: switch_at(value, USE_AGGRESSIVE_HOST_CHECKING),
        low_service_flap_threshold: number_at(value, LOW_SERVICE_FLAP_THRESHOLD),
        high_service_flap_threshold: number_at(value, HIGH_SERVICE_FLAP_THRESHOLD),
        low_host_flap_threshold: number_at(value, LOW_HOST_FLAP_THRESHOLD),
        high_host_flap_threshold: number_at(value, HIGH_HOST_FLAP_THRESHOLD),
    }
}

/// The delay that a member of the options gives. It is smart without one.
fn delay_at(options: Option<&Value>, wanted: Member) -> DelayMethod
    ensures { result ≡ delay_at (as_row wanted) (option_map (λ v. view v.now) options.entry) }
{
    match member(options, wanted.name) {
        Some(value) => delay_method(value).unwrap_or(DelayMethod::Smart),
        None => DelayMethod::Smart,
    }
}

/// A method by its letter, or a number of milliseconds.
pub(crate) fn delay_method(value: &Value) -> Option<DelayMethod>
    ensures { result ≡ delay_method (view value.now) }
{
    match value.as_str() {
        Some("n") => Some(DelayMethod::NoDelay),
        Some("d") => Some(DelayMethod::Dumb),
        Some("s") => Some(DelayMethod::Smart),
        Some(_) => None,
        None => Some(DelayMethod::Fixed(value.as_u64()?)),
    }
}

/// The factor that a member of the options gives. It is smart without one.
fn factor_at(options: Option<&Value>, wanted: Member) -> InterleaveFactor
    ensures { result ≡ factor_at (as_row wanted) (option_map (λ v. view v.now) options.entry) }
{
    match member(options, wanted.name) {
        Some(value) => interleave_factor(value).unwrap_or(InterleaveFactor::Smart),
        None => InterleaveFactor::Smart,
    }
}

/// The smart factor by its letter, or a number.
pub(crate) fn interleave_factor(value: &Value) -> Option<InterleaveFactor>
    ensures { result ≡ interleave_factor (view value.now) }
{
    match value.as_str() {
        Some("s") => Some(InterleaveFactor::Smart),
        Some(_) => None,
        None => Some(InterleaveFactor::Fixed(value.as_u64()?)),
    }
}

// ---- the items of lists

/// An item of a list. An implementation names the item as the definitions see it (`ViewType`, `view_of`), and the item
/// that a value describes (`described`).
pub(crate) trait Item<'v>: Drop {
    ghost ViewType: { Type 0 };

    ghost view_of: { Self → ViewType };

    ghost described: { Data → ViewType };

    /// The item that a value in the right shape describes.
    fn read(value: &'v Value) -> Self
        ensures { view_of result ≡ described (view value.now) };
}

/// The items that these values describe.
pub(crate) fn read_items<'v, T: Item<'v>>(
    alloc: Global,
    values: &'v [Value],
) -> Result<Vec<T>, AllocError>
    ensures { IfOk result (λ read. map T.view_of read.items ≡ map T.described (map view values.now)) }
{
    let mut items = Vec::new(alloc);
    for value in values {
        items.push(T::read(value))?;
    }
    Ok(items)
}

impl<'v> Item<'v> for ParsedHost<'v> {
    ghost ViewType = { spec.ParsedHost };

    ghost view_of = { host };

    ghost described = { host_of };

    fn read(value: &'v Value) -> ParsedHost<'v> {
        ParsedHost {
            name: text_at(value, NAME.name),
            parents: texts_at(value, PARENTS.name),
            check: read_check(value),
        }
    }
}

impl<'v> Item<'v> for ParsedService<'v> {
    ghost ViewType = { spec.ParsedService };

    ghost view_of = { service };

    ghost described = { service_of };

    fn read(value: &'v Value) -> ParsedService<'v> {
        ParsedService {
            host: text_at(value, HOST.name),
            description: text_at(value, DESCRIPTION.name),
            check: read_check(value),
        }
    }
}

impl<'v> Item<'v> for ParsedDependency<'v> {
    ghost ViewType = { spec.ParsedDependency };

    ghost view_of = { dependency };

    ghost described = { dependency_of };

    fn read(value: &'v Value) -> ParsedDependency<'v> {
        ParsedDependency {
            dependent: text_at(value, DEPENDENT.name),
            master: text_at(value, MASTER.name),
            criteria: read_criteria(text_at(value, CRITERIA)),
            inherits: switch_at(Some(value), INHERITS_PARENT),
        }
    }
}

/// How an object in the right shape is checked.
#[tactic(auto, unfolding(crate::specs::Reading::check_of))]
fn read_check(value: &Value) -> Object
    ensures { result ≡ check_of (view value.now) }
{
    Object {
        check_interval: number_at(Some(value), CHECK_INTERVAL),
        retry_interval: number_at(Some(value), RETRY_INTERVAL),
        max_check_attempts: number_at(Some(value), MAX_CHECK_ATTEMPTS),
        enabled: switch_at(Some(value), ENABLED),
    }
}
