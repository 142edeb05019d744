//! The limits of a setup. They are our own profile.

/// The most bytes that a setup document can have.
pub const MAX_DOCUMENT_BYTES: usize = 16_777_216;

/// The most hosts and services that a setup can have, together.
pub const MAX_OBJECTS: usize = 4096;

/// The most parents that all hosts can have, together.
pub const MAX_PARENTS: usize = 16_384;

/// The most dependencies that a setup can have, of both sorts together.
pub const MAX_DEPENDENCIES: usize = 16_384;

/// The most bytes that a host name or a service description can have.
pub const MAX_NAME_BYTES: usize = 255;

/// The most units that a check interval can have.
pub const MAX_INTERVAL: u64 = 525_600;

/// The most seconds that a unit of the intervals can last.
pub const MAX_INTERVAL_LENGTH: u64 = 86_400;

/// The largest number of checks in a row that must find a problem before it is hard.
pub const MAX_ATTEMPTS: u64 = 255;

/// The most milliseconds that a fixed inter-check delay can have.
pub const MAX_DELAY: u64 = 86_400_000;

/// The most minutes that a maximum spread can have.
pub const MAX_SPREAD: u64 = 525_600;

/// The largest fixed interleave factor.
pub const MAX_FACTOR: u64 = 4096;

/// The largest limit on the service checks that run at the same time. 0 means that there is no limit.
pub const MAX_CONCURRENT_CHECKS: u64 = 1_000_000;

/// The largest threshold of flapping, in percent.
pub const MAX_FLAP_THRESHOLD: u64 = 100;
