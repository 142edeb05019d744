//! The table of the members that each sort of object of a setup document can have (manual: Main Configuration
//! File Options, Object Definitions). Limits and defaults that the manual doesn't give are our own profile.
//! The code that reads a document, explains its faults or describes it uses this table.

use crate::limits;
use crate::member::{DefaultValue, Kind, Member};
use crate::place::Part;

// ---- the document

/// The options of the setup.
pub const OPTIONS: Member = Member {
    name: "options",
    kind: Kind::Part(Part::Options),
    default: Some(DefaultValue::Empty),
    purpose: "how checks are spread, run and judged, for all objects",
};

/// The hosts.
pub const HOSTS: Member = Member {
    name: "hosts",
    kind: Kind::Part(Part::Hosts),
    default: Some(DefaultValue::Empty),
    purpose: "the hosts that are checked, or that services are on",
};

/// The services.
pub const SERVICES: Member = Member {
    name: "services",
    kind: Kind::Part(Part::Services),
    default: Some(DefaultValue::Empty),
    purpose: "the services that are checked",
};

/// The dependencies between services.
pub const SERVICE_DEPENDENCIES: Member = Member {
    name: "service_dependencies",
    kind: Kind::Part(Part::ServiceDependencies),
    default: Some(DefaultValue::Empty),
    purpose: "which services' checks wait for the states of which other services",
};

/// The dependencies between hosts.
pub const HOST_DEPENDENCIES: Member = Member {
    name: "host_dependencies",
    kind: Kind::Part(Part::HostDependencies),
    default: Some(DefaultValue::Empty),
    purpose: "which hosts' checks wait for the states of which other hosts",
};

/// The members of the document, in the order of [`Part`].
pub static DOCUMENT_MEMBERS: [Member; 5] = [
    OPTIONS,
    HOSTS,
    SERVICES,
    SERVICE_DEPENDENCIES,
    HOST_DEPENDENCIES,
];

// ---- hosts and services

/// The name of a host.
pub const NAME: Member = Member {
    name: "name",
    kind: Kind::Text,
    default: None,
    purpose: "the name of the host: no control character and no semicolon",
};

/// The parents of a host.
pub const PARENTS: Member = Member {
    name: "parents",
    kind: Kind::Texts,
    default: Some(DefaultValue::Empty),
    purpose: "names of the hosts through which this host is reached",
};

/// The host of a service.
pub const HOST: Member = Member {
    name: "host",
    kind: Kind::Text,
    default: None,
    purpose: "the name of the service's host",
};

/// The description of a service.
pub const DESCRIPTION: Member = Member {
    name: "description",
    kind: Kind::Text,
    default: None,
    purpose: "the name of the service on its host: no control character and no semicolon",
};

/// The time from one check to the next.
pub const CHECK_INTERVAL: Member = Member {
    name: "check_interval",
    kind: UNITS,
    default: Some(DefaultValue::Number(5)),
    purpose: "units of interval_length from one check to the next; 0 means no automatic checks",
};

/// The time from one check to the next of a soft problem.
pub const RETRY_INTERVAL: Member = Member {
    name: "retry_interval",
    kind: UNITS,
    default: Some(DefaultValue::Number(1)),
    purpose: "units of interval_length to the next check while a problem is soft",
};

/// The number of checks that find a problem before it is hard.
pub const MAX_CHECK_ATTEMPTS: Member = Member {
    name: "max_check_attempts",
    kind: Kind::Number {
        low: 1,
        high: limits::MAX_ATTEMPTS,
    },
    default: None,
    purpose: "checks in a row that must find a problem before it is hard",
};

/// Whether checks are scheduled.
pub const ENABLED: Member = Member {
    name: "enabled",
    kind: Kind::Switch,
    default: Some(DefaultValue::Switch(true)),
    purpose: "active checks are on",
};

const UNITS: Kind = Kind::Number {
    low: 0,
    high: limits::MAX_INTERVAL,
};

/// The members of a host.
pub static HOST_MEMBERS: [Member; 6] = [
    NAME,
    PARENTS,
    CHECK_INTERVAL,
    RETRY_INTERVAL,
    MAX_CHECK_ATTEMPTS,
    ENABLED,
];

/// The members of a service.
pub static SERVICE_MEMBERS: [Member; 6] = [
    HOST,
    DESCRIPTION,
    CHECK_INTERVAL,
    RETRY_INTERVAL,
    MAX_CHECK_ATTEMPTS,
    ENABLED,
];

// ---- dependencies

/// The object that depends on the other.
pub const DEPENDENT: Member = Member {
    name: "dependent",
    kind: Kind::Text,
    default: None,
    purpose: "full name of the object that depends on the other: a host's name, or host;description",
};

/// The object that the other depends on.
pub const MASTER: Member = Member {
    name: "master",
    kind: Kind::Text,
    default: None,
    purpose: "full name of the object that it depends on: a host's name, or host;description",
};

/// The name of the member with the criteria, for both sorts of dependencies.
pub const CRITERIA: &str = "criteria";

/// The states of the master in which a dependency between services fails.
pub const SERVICE_CRITERIA: Member = Member {
    name: CRITERIA,
    kind: Kind::ServiceLetters,
    default: None,
    purpose: "letters of the states of the master that forbid the check, separated by commas: OK (o), WARNING (w), UNKNOWN (u), CRITICAL (c), pending (p), none (n)",
};

/// The states of the master in which a dependency between hosts fails.
pub const HOST_CRITERIA: Member = Member {
    name: CRITERIA,
    kind: Kind::HostLetters,
    default: None,
    purpose: "letters of the states of the master that forbid the check, separated by commas: UP (o), UNREACHABLE (u), DOWN (d), pending (p), none (n)",
};

/// Whether a dependency also looks at the master's own dependencies.
pub const INHERITS_PARENT: Member = Member {
    name: "inherits_parent",
    kind: Kind::Switch,
    default: Some(DefaultValue::Switch(false)),
    purpose: "dependencies of the master also apply to the dependent",
};

/// The members of a dependency between services.
pub static SERVICE_DEPENDENCY_MEMBERS: [Member; 4] = [
    DEPENDENT,
    MASTER,
    SERVICE_CRITERIA,
    INHERITS_PARENT,
];

/// The members of a dependency between hosts.
pub static HOST_DEPENDENCY_MEMBERS: [Member; 4] = [
    DEPENDENT,
    MASTER,
    HOST_CRITERIA,
    INHERITS_PARENT,
];
