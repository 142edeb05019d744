//! Numbers and their limits, in the order of the table of members.

ghost use Rattle.std.specs.Prelude.{map, Some};
ghost use Rattle.setup_model.specs.Agreement.{each, IsExpectedResult};
ghost use Rattle.setup_model.specs.ParsedViews.{host, service};
ghost use Rattle.setup_model.specs.Fault.{IsExpectedReading, range_view, service_thresholds, host_thresholds};
ghost use Rattle.setup_model.specs.Member.{as_row};
ghost use Rattle.setup_reader.specs.Verification.{check_ranges_test, fixed_delay, fixed_factor, host_range_test, number_test, options_test, setup_ranges_test};
ghost use Rattle.setup_reader.specs.Verification.{service_range_test, option_numbers_test, option_ranges_test, threshold_order_test, within};

use setup_model::members::{CHECK_INTERVAL, MAX_CHECK_ATTEMPTS, RETRY_INTERVAL};
use setup_model::options::{
    HIGH_HOST_FLAP_THRESHOLD, HIGH_SERVICE_FLAP_THRESHOLD, HOST_INTER_CHECK_DELAY_METHOD,
    INTERVAL_LENGTH, LOW_HOST_FLAP_THRESHOLD, LOW_SERVICE_FLAP_THRESHOLD, MAX_CONCURRENT_CHECKS,
    MAX_HOST_CHECK_SPREAD, MAX_SERVICE_CHECK_SPREAD, SERVICE_INTER_CHECK_DELAY_METHOD,
    SERVICE_INTERLEAVE_FACTOR,
};
use setup_model::{
    DelayMethod, Fault, InterleaveFactor, Member, Object, Options, ParsedHost, ParsedService,
    Place, RangeFault,
};

pub(crate) fn verify_ranges(
    options: &Options,
    hosts: &[ParsedHost<'_>],
    services: &[ParsedService<'_>],
) -> Result<(), Fault>
    ensures { IsExpectedReading (λ u. u) result
        (setup_ranges_test options.now (map host hosts.now) (map service services.now)) }
{
    verify_options(options)?;
    verify_host_ranges(hosts)?;
    verify_service_ranges(services)
}

fn verify_host_ranges(hosts: &[ParsedHost<'_>]) -> Result<(), Fault>
    ensures { IsExpectedReading (λ u. u) result (each host_range_test (map host hosts.now)) }
{
    for (index, host) in hosts.iter().enumerate() {
        if let Err(fault) = verify_check(host.check) {
            return Err(Fault::Range(Place::host(index), fault));
        }
    }
    Ok(())
}

fn verify_service_ranges(services: &[ParsedService<'_>]) -> Result<(), Fault>
    ensures { IsExpectedReading (λ u. u) result (each service_range_test (map service services.now)) }
{
    for (index, service) in services.iter().enumerate() {
        if let Err(fault) = verify_check(service.check) {
            return Err(Fault::Range(Place::service(index), fault));
        }
    }
    Ok(())
}

fn verify_check(check: Object) -> Result<(), RangeFault>
    ensures { IsExpectedResult (λ f. Some (range_view f)) (λ u. u) result (check_ranges_test check) }
{
    verify_number(CHECK_INTERVAL, check.check_interval)?;
    verify_number(RETRY_INTERVAL, check.retry_interval)?;
    verify_number(MAX_CHECK_ATTEMPTS, check.max_check_attempts)
}

fn verify_number(member: Member, number: u64) -> Result<(), RangeFault>
    ensures { IsExpectedResult (λ f. Some (range_view f)) (λ u. u) result (within (as_row member) number) }
{
    if member.allows(number) {
        Ok(())
    } else {
        Err(RangeFault::OutOfRange(member, number))
    }
}

// ---- the options

fn verify_options(options: &Options) -> Result<(), Fault>
    ensures { IsExpectedReading (λ u. u) result (options_test options.now) }
{
    match verify_option_numbers(options) {
        Ok(()) => Ok(()),
        Err(fault) => Err(Fault::Range(Place::OPTIONS, fault)),
    }
}

fn verify_option_numbers(options: &Options) -> Result<(), RangeFault>
    ensures { IsExpectedResult (λ f. Some (range_view f)) (λ u. u) result (option_ranges_test options.now) }
{
    verify_numbers(options)?;
    verify_thresholds_in_order(options)
}

fn verify_numbers(options: &Options) -> Result<(), RangeFault>
    ensures { IsExpectedResult (λ f. Some (range_view f)) (λ u. u) result (option_numbers_test options.now) }
{
    verify_number(INTERVAL_LENGTH, options.interval_length)?;
    verify_delay(
        SERVICE_INTER_CHECK_DELAY_METHOD,
        options.service_inter_check_delay_method,
    )?;
    verify_number(MAX_SERVICE_CHECK_SPREAD, options.max_service_check_spread)?;
    verify_factor(SERVICE_INTERLEAVE_FACTOR, options.service_interleave_factor)?;
    verify_delay(
        HOST_INTER_CHECK_DELAY_METHOD,
        options.host_inter_check_delay_method,
    )?;
    verify_number(MAX_HOST_CHECK_SPREAD, options.max_host_check_spread)?;
    verify_number(MAX_CONCURRENT_CHECKS, options.max_concurrent_checks)?;
    verify_number(
        LOW_SERVICE_FLAP_THRESHOLD,
        options.low_service_flap_threshold,
    )?;
    verify_number(
        HIGH_SERVICE_FLAP_THRESHOLD,
        options.high_service_flap_threshold,
    )?;
    verify_number(LOW_HOST_FLAP_THRESHOLD, options.low_host_flap_threshold)?;
    verify_number(HIGH_HOST_FLAP_THRESHOLD, options.high_host_flap_threshold)
}

fn verify_delay(member: Member, method: DelayMethod) -> Result<(), RangeFault>
    ensures { IsExpectedResult (λ f. Some (range_view f)) (λ u. u) result
        (number_test (as_row member) (fixed_delay method)) }
{
    match method {
        DelayMethod::Fixed(delay) => verify_number(member, delay),
        _ => Ok(()),
    }
}

fn verify_factor(member: Member, factor: InterleaveFactor) -> Result<(), RangeFault>
    ensures { IsExpectedResult (λ f. Some (range_view f)) (λ u. u) result
        (number_test (as_row member) (fixed_factor factor)) }
{
    match factor {
        InterleaveFactor::Smart => Ok(()),
        InterleaveFactor::Fixed(factor) => verify_number(member, factor),
    }
}

/// Whether no low threshold of flapping is above its high threshold.
fn verify_thresholds_in_order(options: &Options) -> Result<(), RangeFault>
    ensures { IsExpectedResult (λ f. Some (range_view f)) (λ u. u) result
        (threshold_order_test options.now) }
{
    let low = options.low_service_flap_threshold;
    let high = options.high_service_flap_threshold;
    if low > high {
        return Err(RangeFault::ServiceThresholds(low, high));
    }
    let low = options.low_host_flap_threshold;
    let high = options.high_host_flap_threshold;
    if low > high {
        return Err(RangeFault::HostThresholds(low, high));
    }
    Ok(())
}
