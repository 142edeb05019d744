//! The members of a setup document's objects: the value that each must have, and its default.

use crate::limits::{MAX_DELAY, MAX_FACTOR};
use crate::place::Part;

/// The kind of value that a member must have.
#[derive(Clone, Copy, Debug, PartialEq, Eq)]
pub enum Kind {
    /// A part of the document: its options, or one of its lists. A fault inside has a place of its own.
    Part(Part),
    /// A text.
    Text,
    /// An array of texts.
    Texts,
    /// `true` or `false`.
    Switch,
    /// A whole number from `low` to `high`.
    Number {
        /// The least value.
        low: u64,
        /// The greatest value.
        high: u64,
    },
    /// An inter-check delay: `"n"`, `"d"`, `"s"`, or a whole number of milliseconds from 0 to
    /// [`MAX_DELAY`].
    Delay,
    /// An interleave factor: `"s"`, or a whole number from 1 to [`MAX_FACTOR`].
    Factor,
    /// The criteria of a dependency between services: letters of `SERVICE_LETTERS`, with a comma between two.
    ServiceLetters,
    /// The criteria of a dependency between hosts: letters of `HOST_LETTERS`, with a comma between two.
    HostLetters,
}

/// The value that is used if an optional member is absent.
#[derive(Clone, Copy, Debug, PartialEq, Eq)]
pub enum DefaultValue {
    /// This number.
    Number(u64),
    /// This truth value.
    Switch(bool),
    /// The smart delay or the smart factor, `"s"`.
    Smart,
    /// Nothing: an empty list, an empty text, or options without members.
    Empty,
}

/// A member that an object of the document can have.
#[derive(Clone, Copy, Debug, PartialEq, Eq)]
pub struct Member {
    /// Its name.
    pub name: &'static str,
    /// The kind of value that it must have.
    pub kind: Kind,
    /// The value that is used without it. None if an object without it is refused.
    pub default: Option<DefaultValue>,
    /// Its purpose, in one line.
    pub purpose: &'static str,
}

impl Kind {
    ghost use Rattle.std.specs.Prelude.{◌≡◌};
    ghost use Rattle.setup_model.specs.Member.{limits_of};

    /// The least and the greatest number of the kind. None for a kind without numbers.
    pub fn limits(self) -> Option<(u64, u64)>
        ensures { result ≡ limits_of self }
    {
        match self {
            Kind::Number { low, high } => Some((low, high)),
            Kind::Delay => Some((0, MAX_DELAY)),
            Kind::Factor => Some((1, MAX_FACTOR)),
            _ => None,
        }
    }
}

impl Member {
    ghost use Rattle.std.specs.Prelude.{◌≡◌};
    ghost use Rattle.setup_model.specs.Member.{as_row, default_number, default_switch, is_required, is_within_limits};

    /// Whether an object without this member is refused.
    pub fn is_required(self) -> bool
        ensures { result ≡ is_required (as_row self) }
    {
        self.default.is_none()
    }

    /// Whether a number is within its limits. If its kind has no limits, every number is.
    pub fn allows(self, number: u64) -> bool
        ensures { result ≡ is_within_limits (as_row self) number }
    {
        match self.kind.limits() {
            Some((low, high)) => low <= number && number <= high,
            None => true,
        }
    }

    /// The number that is used without the member. None if the member is required, or its default is of
    /// another kind.
    pub fn default_number(self) -> Option<u64>
        ensures { result ≡ default_number (as_row self) }
    {
        match self.default {
            Some(DefaultValue::Number(number)) => Some(number),
            _ => None,
        }
    }

    /// The truth value that is used without the member. None if the member is required, or its default is of
    /// another kind.
    pub fn default_switch(self) -> Option<bool>
        ensures { result ≡ default_switch (as_row self) }
    {
        match self.default {
            Some(DefaultValue::Switch(value)) => Some(value),
            _ => None,
        }
    }
}
