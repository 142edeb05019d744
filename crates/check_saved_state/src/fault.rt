//! Why a saved state is refused.

ghost use Rattle.std.specs.Prelude.{◌≡◌};
ghost use Rattle.check_saved_state.specs.declared.fault.SavedFault.TheVariants.{Memory};

use std::alloc::{AllocError, AllocFailed};

/// Why a saved state was refused. `TooLong` is tested first. Then each test covers the whole text before the
/// next test begins, in the order of these variants. The first object with a fault is reported, by its index
/// in the list of objects. If two objects conflict, the later one is reported. A refusal makes nothing. The
/// refusals are our own profile.
#[derive(Clone, Copy, Debug, PartialEq, Eq)]
pub enum SavedFault {
    /// The text has more than 16,777,216 bytes. This is tested first, and needs no memory.
    TooLong,
    /// `serde_json` can't read the text, for another reason than memory.
    NotJson,
    /// The text is an object of JSON, but its `format` is another whole number than
    /// those of the formats that are read.
    Version,
    /// A member is unknown, missing or of the wrong kind. Or a word isn't allowed there, or a byte isn't the
    /// letter of a result. There is no index if the fault isn't one of an object in the list.
    Shape(Option<usize>),
    /// There are more than 4,096 objects.
    TooMany,
    /// A name is neither a host's nor a host's and a description around one `;`. Each of these has 1 to 255
    /// bytes, none of them below 32 or 127.
    BadName(usize),
    /// An object has the name of an earlier one. The later one is reported.
    Duplicate(usize),
    /// A number is out of its limits. A start is above 2^60, there are more than 2^60 runs, or a next time is
    /// above 2^61. Or an attempt or a maximum of attempts isn't from 1 to 255, or a check interval is longer
    /// than a setup can have. There is no index for the start and the total number of runs.
    Range(Option<usize>),
    /// No scheduler can have this object. Its standing is impossible for its sort and its maximum of
    /// attempts, or its last hard state or a result is of the other sort. Or it has more than 21 results, or
    /// a forced check without a next time. Or the number of its run is 0, above the number of runs handed
    /// out, or that of an earlier object's run.
    Unlawful(usize),
    /// Out of memory, at any allocation. It can come in place of any result except `TooLong`.
    Memory,
}

impl From<AllocError> for SavedFault {
    ghost from_gives = { λ _ e. e ≡ Memory };

    fn from(_refused: AllocError) -> SavedFault {
        SavedFault::Memory
    }
}

impl<T: Drop> From<AllocFailed<T>> for SavedFault {
    ghost from_gives = { λ _ e. e ≡ Memory };

    fn from(_refused: AllocFailed<T>) -> SavedFault {
        SavedFault::Memory
    }
}
