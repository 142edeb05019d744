//! Why a setup document is refused.

ghost use Rattle.std.specs.Prelude.{◌≡◌};
ghost use Rattle.setup_model.specs.declared.error.LoadError.TheVariants.{Memory};

use crate::place::Place;
use std::alloc::AllocFailed;

/// Why a setup was not read. `TooLong` is tested first. Then each test covers the whole document before the
/// next test begins, in the order of these variants. The fault of the first place is reported. Nothing is
/// made of a document that is refused. The refusals are our own profile.
#[derive(Clone, Copy, Debug, PartialEq, Eq)]
pub enum LoadError {
    /// The document has more than 16,777,216 bytes. This is tested first, and needs no memory.
    TooLong,
    /// `serde_json` gives no reading, for another reason than memory.
    NotJson,
    /// A member is unknown, missing or of the wrong kind.
    Shape(Place),
    /// There are more than 4,096 hosts and services together, more than 16,384 dependencies of both sorts, or
    /// more than 16,384 parents of all hosts.
    TooMany,
    /// A host name or a service description is empty, is longer than 255 bytes, or contains a `;`, a byte
    /// below 32 or the byte 127.
    BadName(Place),
    /// A host has the name of an earlier host, or a service has the host and the description of an earlier
    /// service. The later one is reported.
    Duplicate(Place),
    /// A host has a parent that doesn't exist, or the host of a service doesn't exist.
    UnknownHost(Place),
    /// The dependent or the master of a dependency doesn't exist, or is of the other sort.
    UnknownMaster(Place),
    /// A number is out of its limits. An interval is above 525,600 units, or the attempts aren't from 1 to
    /// 255. Or an `interval_length` isn't from 1 to 86,400 seconds, or a fixed delay is above 86,400,000
    /// milliseconds. Or a spread isn't from 1 to 525,600 minutes, or an interleave factor isn't from 1 to
    /// 4,096. Or the limit of concurrent checks is above 1,000,000.
    Range(Place),
    /// An object depends on itself, through one dependency or more.
    DependencyCycle,
    /// A host is its own parent, through one parent or more.
    ParentCycle,
    /// Out of memory, at any growth. It can come in place of any result except `TooLong`.
    Memory,
}

impl<T: Drop> From<AllocFailed<T>> for LoadError {
    ghost from_gives = { λ _ e. e ≡ Memory };

    fn from(_refused: AllocFailed<T>) -> LoadError {
        LoadError::Memory
    }
}

/// What each refusal has: a row of the table of refusals.
#[derive(Drop)]
struct ErrorRow {
    number: u32,
    reason: &'static str,
    place: Option<Place>,
}

fn row(number: u32, reason: &'static str, place: Option<Place>) -> ErrorRow
    ensures number { result.number ≡ number }
    ensures reason { result.reason.now ≡ reason.now }
    ensures place { result.place ≡ place }
{
    ErrorRow {
        number,
        reason,
        place,
    }
}

impl LoadError {
    ghost use Rattle.setup_model.specs.LoadError.{error_number, error_reason, errors_at, numbered_error, place_of};

    /// The table of refusals: the number in C, the reason in the line, and the place if there is one. Numbers of
    /// documents begin at 200. The header doesn't have the number of `Memory`.
    fn row(self) -> ErrorRow
        ensures number { result.number ≡ error_number self }
        ensures reason { result.reason.now ≡ error_reason self }
        ensures place { result.place ≡ place_of self }
    {
        match self {
            LoadError::TooLong => row(212, "L12 TooLong", None),
            LoadError::NotJson => row(201, "L1 NotJson", None),
            LoadError::Shape(place) => row(202, "L2 Shape", Some(place)),
            LoadError::TooMany => row(203, "L3 TooMany", None),
            LoadError::BadName(place) => row(204, "L4 BadName", Some(place)),
            LoadError::Duplicate(place) => row(205, "L5 Duplicate", Some(place)),
            LoadError::UnknownHost(place) => row(206, "L6 UnknownHost", Some(place)),
            LoadError::UnknownMaster(place) => row(207, "L7 UnknownMaster", Some(place)),
            LoadError::Range(place) => row(208, "L8 Range", Some(place)),
            LoadError::DependencyCycle => row(209, "L9 DependencyCycle", None),
            LoadError::ParentCycle => row(210, "L10 ParentCycle", None),
            LoadError::Memory => row(900, "L11 Memory", None),
        }
    }

    /// Each refusal except `Memory`, with this place if it has one.
    fn all_at(place: Place) -> [LoadError; 11]
        ensures { result ≡ errors_at place }
    {
        [
            LoadError::TooLong,
            LoadError::NotJson,
            LoadError::Shape(place),
            LoadError::TooMany,
            LoadError::BadName(place),
            LoadError::Duplicate(place),
            LoadError::UnknownHost(place),
            LoadError::UnknownMaster(place),
            LoadError::Range(place),
            LoadError::DependencyCycle,
            LoadError::ParentCycle,
        ]
    }

    /// The number of the refusal, as the C library has it. Its header doesn't have the number of `Memory`.
    pub fn number(self) -> u32
        ensures { result ≡ error_number self }
    {
        self.row().number
    }

    /// The refusal of this number, with this place if such a refusal has one. None for the number of `Memory`
    /// and for a number that no refusal has.
    pub fn from_number(number: u32, place: Place) -> Option<LoadError>
        ensures { result ≡ numbered_error number place }
    {
        LoadError::all_at(place)
            .iter()
            .copied()
            .find(|error| error.number() == number)
    }

    /// The reason in the line of the refusal: its code and its name.
    pub fn reason(self) -> &'static str
        ensures { result.now ≡ error_reason self }
    {
        self.row().reason
    }

    /// The place of the fault, if the refusal has one.
    pub fn place(self) -> Option<Place>
        ensures { result ≡ place_of self }
    {
        self.row().place
    }
}
