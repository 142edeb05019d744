//! Execution dependencies: the checks of an object wait for the states of other objects.

/// The letters that the criteria of a dependency between services can have.
pub const SERVICE_LETTERS: [&str; 6] = ["o", "w", "u", "c", "p", "n"];

/// The letters that the criteria of a dependency between hosts can have.
pub const HOST_LETTERS: [&str; 5] = ["o", "u", "d", "p", "n"];

/// The states of the master in which a dependency fails, one for each letter of the document's
/// text (manual: Host and Service Dependencies).
#[derive(Clone, Copy, Debug, Default, PartialEq, Eq)]
pub struct Criteria {
    /// `o`: OK, or UP for a host.
    pub ok: bool,
    /// `w`: WARNING, only of a service.
    pub warning: bool,
    /// `u`: UNKNOWN, or UNREACHABLE for a host.
    pub unknown: bool,
    /// `c`: CRITICAL, only of a service.
    pub critical: bool,
    /// `d`: DOWN, only of a host.
    pub down: bool,
    /// `p`: never checked.
    pub pending: bool,
    /// `n`: no state at all. This letter adds nothing to the others.
    pub none: bool,
}

/// One dependency of an object on another of its sort (manual: Host and Service Dependencies).
#[derive(Clone, Copy, Debug, Default, PartialEq, Eq)]
pub struct Dependency {
    /// The number of the object that is depended on.
    pub master: u32,
    /// The states of the master in which the dependency fails.
    pub criteria: Criteria,
    /// Whether the dependency also fails when one of the master's own dependencies fails.
    pub inherits: bool,
}
