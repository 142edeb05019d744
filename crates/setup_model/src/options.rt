//! The options of a setup, named after those of the main configuration file: their fields, and their rows in the table
//! of members.

use crate::limits;
use crate::member::{DefaultValue, Kind, Member};

/// How the first checks of a sort of object are spread over time (manual: Service and Host Check
/// Scheduling, inter-check delay).
#[derive(Clone, Copy, Debug, PartialEq, Eq)]
pub enum DelayMethod {
    /// `"n"`: no delay; all first checks are due at the start.
    NoDelay,
    /// `"d"`: the dumb delay, one second from one to the next.
    Dumb,
    /// `"s"`: the smart delay, the default. It is the average check interval divided by the number of
    /// objects, and shorter if the maximum spread requires it.
    Smart,
    /// A number of milliseconds from one to the next, 0 to 86,400,000.
    Fixed(u64),
}

/// How many services to step over to the next one whose first check is due (manual: Service and Host Check
/// Scheduling, service interleaving).
#[derive(Clone, Copy, Debug, PartialEq, Eq)]
pub enum InterleaveFactor {
    /// `"s"`: the smart factor, the default. It is the average number of services of a host, rounded up.
    Smart,
    /// A number, 1 to 4,096. 1 means no interleaving.
    Fixed(u64),
}

/// The options of a setup (manual: Main Configuration File Options).
#[derive(Clone, Copy, Debug, PartialEq, Eq)]
pub struct Options {
    /// How the first checks of services are spread. Smart unless the document says so.
    pub service_inter_check_delay_method: DelayMethod,
    /// The minutes within which the smart method makes the first checks of all services due, 1 to 525,600. 30
    /// unless the document says so.
    pub max_service_check_spread: u64,
    /// The order in which the first checks of services are due. Smart unless the document says so.
    pub service_interleave_factor: InterleaveFactor,
    /// How the first checks of hosts are spread. Smart unless the document says so.
    pub host_inter_check_delay_method: DelayMethod,
    /// The minutes within which the smart method makes the first checks of all hosts due, 1 to 525,600. 30
    /// unless the document says so.
    pub max_host_check_spread: u64,
    // Calls read the fields from here on. A call for a service reads the last ones.
    /// A flapping host stops flapping below this percentage of changes, 0 to 100 and at most the high
    /// threshold. 20 unless the document says so.
    pub low_host_flap_threshold: u64,
    /// A host flaps from this percentage of changes on, 0 to 100. 30 unless the document says so.
    pub high_host_flap_threshold: u64,
    /// Whether dependencies look at the current state of the master, and not at its last hard state (manual:
    /// Host and Service Dependencies). False unless the document says so.
    pub soft_state_dependencies: bool,
    /// Whether a WARNING of a host's plugin counts as a problem (manual: Host Checks). False unless
    /// the document says so.
    pub use_aggressive_host_checking: bool,
    /// A flapping service stops flapping below this percentage of changes, 0 to 100 and at most the high
    /// threshold. 20 unless the document says so. (Manual: Detection and Handling of State Flapping; the
    /// limits are our own profile.)
    pub low_service_flap_threshold: u64,
    /// A service flaps from this percentage of changes on, 0 to 100. 30 unless the document says so.
    pub high_service_flap_threshold: u64,
    /// How many seconds a unit of the intervals lasts, 1 to 86,400. 60 unless the document says so.
    pub interval_length: u64,
    /// How many service checks may run at the same time, up to 1,000,000. 0, the default, means no limit.
    pub max_concurrent_checks: u64,
}

// ---- the rows of the table

/// The unit of the intervals.
pub const INTERVAL_LENGTH: Member = Member {
    name: "interval_length",
    kind: Kind::Number {
        low: 1,
        high: limits::MAX_INTERVAL_LENGTH,
    },
    default: Some(DefaultValue::Number(60)),
    purpose: "seconds per unit of the intervals",
};

/// How the first checks of services are spread.
pub const SERVICE_INTER_CHECK_DELAY_METHOD: Member = Member {
    name: "service_inter_check_delay_method",
    kind: Kind::Delay,
    default: Some(DefaultValue::Smart),
    purpose: "first checks of services are not spread (n), one second apart (d), spread by the average check interval (s), or so many milliseconds apart",
};

/// How long the first checks of services are spread over.
pub const MAX_SERVICE_CHECK_SPREAD: Member = Member {
    name: "max_service_check_spread",
    kind: Kind::Number {
        low: 1,
        high: limits::MAX_SPREAD,
    },
    default: Some(DefaultValue::Number(30)),
    purpose: "minutes within which the smart method (s) places all first checks of services",
};

/// How the first checks of services are interleaved.
pub const SERVICE_INTERLEAVE_FACTOR: Member = Member {
    name: "service_interleave_factor",
    kind: Kind::Factor,
    default: Some(DefaultValue::Smart),
    purpose: "step between services when first checks are spread; 1 is no interleaving, s is services per host, rounded up",
};

/// How the first checks of hosts are spread.
pub const HOST_INTER_CHECK_DELAY_METHOD: Member = Member {
    name: "host_inter_check_delay_method",
    kind: Kind::Delay,
    default: Some(DefaultValue::Smart),
    purpose: "first checks of hosts are not spread (n), one second apart (d), spread by the average check interval (s), or so many milliseconds apart",
};

/// How long the first checks of hosts are spread over.
pub const MAX_HOST_CHECK_SPREAD: Member = Member {
    name: "max_host_check_spread",
    kind: Kind::Number {
        low: 1,
        high: limits::MAX_SPREAD,
    },
    default: Some(DefaultValue::Number(30)),
    purpose: "minutes within which the smart method (s) places all first checks of hosts",
};

/// How many service checks may run at the same time.
pub const MAX_CONCURRENT_CHECKS: Member = Member {
    name: "max_concurrent_checks",
    kind: Kind::Number {
        low: 0,
        high: limits::MAX_CONCURRENT_CHECKS,
    },
    default: Some(DefaultValue::Number(0)),
    purpose: "checks of services that may run at a time; 0 is no limit",
};

/// Which state of a master dependencies look at.
pub const SOFT_STATE_DEPENDENCIES: Member = Member {
    name: "soft_state_dependencies",
    kind: Kind::Switch,
    default: Some(DefaultValue::Switch(false)),
    purpose: "dependencies look at the master's current state, not at its last hard state",
};

/// How a WARNING of a host's plugin counts.
pub const USE_AGGRESSIVE_HOST_CHECKING: Member = Member {
    name: "use_aggressive_host_checking",
    kind: Kind::Switch,
    default: Some(DefaultValue::Switch(false)),
    purpose: "return code 1 of a host's plugin counts as a problem",
};

/// The threshold below which a service stops flapping.
pub const LOW_SERVICE_FLAP_THRESHOLD: Member = Member {
    name: "low_service_flap_threshold",
    kind: PERCENT,
    default: Some(DefaultValue::Number(20)),
    purpose: "percent of changes below which a service stops flapping: at most the high threshold",
};

/// The threshold from which a service starts flapping.
pub const HIGH_SERVICE_FLAP_THRESHOLD: Member = Member {
    name: "high_service_flap_threshold",
    kind: PERCENT,
    default: Some(DefaultValue::Number(30)),
    purpose: "percent of changes from which a service flaps",
};

/// The threshold below which a host stops flapping.
pub const LOW_HOST_FLAP_THRESHOLD: Member = Member {
    name: "low_host_flap_threshold",
    kind: PERCENT,
    default: Some(DefaultValue::Number(20)),
    purpose: "percent of changes below which a host stops flapping: at most the high threshold",
};

/// The threshold from which a host starts flapping.
pub const HIGH_HOST_FLAP_THRESHOLD: Member = Member {
    name: "high_host_flap_threshold",
    kind: PERCENT,
    default: Some(DefaultValue::Number(30)),
    purpose: "percent of changes from which a host flaps",
};

const PERCENT: Kind = Kind::Number {
    low: 0,
    high: limits::MAX_FLAP_THRESHOLD,
};

/// The members of the options.
pub static OPTION_MEMBERS: [Member; 13] = [
    INTERVAL_LENGTH,
    SERVICE_INTER_CHECK_DELAY_METHOD,
    MAX_SERVICE_CHECK_SPREAD,
    SERVICE_INTERLEAVE_FACTOR,
    HOST_INTER_CHECK_DELAY_METHOD,
    MAX_HOST_CHECK_SPREAD,
    MAX_CONCURRENT_CHECKS,
    SOFT_STATE_DEPENDENCIES,
    USE_AGGRESSIVE_HOST_CHECKING,
    LOW_SERVICE_FLAP_THRESHOLD,
    HIGH_SERVICE_FLAP_THRESHOLD,
    LOW_HOST_FLAP_THRESHOLD,
    HIGH_HOST_FLAP_THRESHOLD,
];
