//! Faults of a setup document: the refusal, and the details that the failed test has found.

ghost use Rattle.std.specs.Prelude.{◌≡◌};
ghost use Rattle.setup_model.specs.Fault.{view_of, load_error};
ghost use Rattle.setup_model.specs.declared.fault.Fault.TheVariants.{Memory};

use crate::error::LoadError;
use crate::member::Member;
use crate::place::{Part, Place};
use std::alloc::{AllocError, AllocFailed};

/// The position at which reading stops in a document that isn't JSON.
#[derive(Clone, Copy, Debug, PartialEq, Eq)]
pub struct JsonPosition {
    /// The line, from 1.
    pub line: usize,
    /// The column, as `serde_json` counts it.
    pub column: usize,
    /// Whether the document ends before its JSON does.
    pub is_at_end: bool,
}

/// A fault in the shape of the value at a place. The first of these that holds is reported, in the order of
/// the variants.
#[derive(Clone, Copy, Debug, PartialEq, Eq)]
pub enum ShapeFault {
    /// A list of the document isn't an array.
    NotAnArray,
    /// A value that has members isn't an object.
    NotAnObject,
    /// A member isn't in the table: the first such member of the object, in the order of their names. The
    /// number is its index in that order, from 0.
    Unknown(usize),
    /// A required member of the table is missing: the first one, in the order of the table.
    Missing(Member),
    /// The value of a member of the table isn't of its kind: the first one, in the order of the table.
    WrongKind(Member),
}

/// A fault of a name. The first of these that holds is reported, in the order of the variants.
#[derive(Clone, Copy, Debug, PartialEq, Eq)]
pub enum NameFault {
    /// The name has no byte.
    Empty,
    /// The name has this many bytes, which is more than 255.
    Long(usize),
    /// The name contains this byte, which is below 32, or is 127 or a semicolon. It is the first such byte.
    Byte(u8),
}

/// One of the two objects of a dependency.
#[derive(Clone, Copy, Debug, PartialEq, Eq)]
pub enum End {
    /// The object that depends on the other one.
    Dependent,
    /// The object that the other one depends on.
    Master,
}

/// A fault in the ends of a dependency. The dependent is tested before the master.
#[derive(Clone, Copy, Debug, PartialEq, Eq)]
pub enum EndFault {
    /// Neither a host nor a service has the name of this end.
    Unknown(End),
    /// The name of this end is that of a host in a dependency of services, or that of a service in a
    /// dependency of hosts.
    OtherSort(End),
}

/// Which number is out of its limits. The first of these that holds is reported, in the order of the
/// variants.
#[derive(Clone, Copy, Debug, PartialEq, Eq)]
pub enum RangeFault {
    /// The number of this member, and the number itself: the first one, in the order of the table.
    OutOfRange(Member, u64),
    /// The low threshold for the flapping of services is above the high one. Both are given.
    ServiceThresholds(u64, u64),
    /// The low threshold for the flapping of hosts is above the high one. Both are given.
    HostThresholds(u64, u64),
}

/// A count that is past its limit. The first of these that holds is reported, in the order of the variants.
#[derive(Clone, Copy, Debug, PartialEq, Eq)]
pub enum Count {
    /// More than 4,096 hosts and services together.
    Objects,
    /// More than 16,384 parents of all hosts together.
    Parents,
    /// More than 16,384 dependencies of both sorts together.
    Dependencies,
}

/// Why a setup was not read, as in [`LoadError`], with the details that the failed test has found.
/// `LoadError::from` gives the refusal. The faults are our own profile.
///
/// Indices are those of the document's lists, from 0.
#[derive(Debug, Drop)]
pub enum Fault {
    /// The document has more than 16,777,216 bytes.
    TooLong,
    /// `serde_json` gives no reading, for another reason than memory. The position at which it stops.
    NotJson(JsonPosition),
    /// A member is unknown, missing or of the wrong kind. The fault names the member.
    Shape(Place, ShapeFault),
    /// There are too many objects, parents or dependencies. The number of them is given.
    TooMany(Count, u64),
    /// A host name or a service description isn't allowed, and why.
    BadName(Place, NameFault),
    /// A host or a service has the name of an earlier one. The index is that of the first one with this name
    /// in the same list.
    Duplicate(Place, usize),
    /// A parent of a host isn't a host. The first index is that of the host, the second that of the parent in
    /// the host's list.
    UnknownParent(usize, usize),
    /// The host of a service isn't a host. The index is that of the service.
    UnknownHost(usize),
    /// An end of a dependency isn't an object, or is of the other sort.
    UnknownEnd(Place, EndFault),
    /// A number is out of its limits. The fault says which number.
    Range(Place, RangeFault),
    /// A cycle of services or hosts, by their full names: each depends on the next one, and the last on the
    /// first. The first one has the least number.
    DependencyCycle(Part, Vec<String>),
    /// A cycle of hosts, by their names: each has the next one for a parent, and the last has the first. The
    /// first one has the least number.
    ParentCycle(Vec<String>),
    /// Out of memory. It can come in place of any result except `TooLong`.
    Memory,
}

impl From<Fault> for LoadError {
    ghost from_gives = { λ fault e. e ≡ load_error (view_of fault) };

    fn from(fault: Fault) -> LoadError {
        match fault {
            Fault::TooLong => LoadError::TooLong,
            Fault::NotJson(_) => LoadError::NotJson,
            Fault::Shape(place, _) => LoadError::Shape(place),
            Fault::TooMany(_, _) => LoadError::TooMany,
            Fault::BadName(place, _) => LoadError::BadName(place),
            Fault::Duplicate(place, _) => LoadError::Duplicate(place),
            Fault::UnknownParent(host, _) => LoadError::UnknownHost(Place::host(host)),
            Fault::UnknownHost(service) => LoadError::UnknownHost(Place::service(service)),
            Fault::UnknownEnd(place, _) => LoadError::UnknownMaster(place),
            Fault::Range(place, _) => LoadError::Range(place),
            Fault::DependencyCycle(_, _) => LoadError::DependencyCycle,
            Fault::ParentCycle(_) => LoadError::ParentCycle,
            Fault::Memory => LoadError::Memory,
        }
    }
}

impl From<AllocError> for Fault {
    ghost from_gives = { λ _ fault. fault ≡ Memory };

    fn from(_refused: AllocError) -> Fault {
        Fault::Memory
    }
}

impl<T: Drop> From<AllocFailed<T>> for Fault {
    ghost from_gives = { λ _ fault. fault ≡ Memory };

    fn from(_refused: AllocFailed<T>) -> Fault {
        Fault::Memory
    }
}
