//! The table of the members of a saved state. A row says all of a member: its name, the kind of its value, and
//! how it was added. A text has the members of its format. Each member that was added since has a default, which
//! stands for it in a text of an earlier format.

use crate::saved::SavedRun;
use serde_json::Value;

/// The format that is written. Texts of this format and of the one before are read.
pub const FORMAT: u64 = 1;

/// The kind of value that a member must have.
#[derive(Clone, Copy)]
pub enum ValueKind {
    /// A text.
    Text,
    /// A whole number.
    Number,
    /// A whole number, or `null`.
    NumberOrNull,
    /// `true` or `false`.
    Switch,
    /// The word of a state.
    State,
    /// The word of a soft or of a hard state.
    StateKind,
    /// The word of flapping.
    Flapping,
    /// Letters of results.
    Letters,
    /// A run, or `null`. Its members have rows of their own.
    RunOrNull,
    /// A list.
    List,
}

/// The value that stands for a member in a text of an earlier format.
#[derive(Clone, Copy)]
pub enum DefaultValue {
    /// `null`.
    Nothing,
    /// A list without items.
    Empty,
    /// This number.
    Number(u64),
    /// This truth value.
    Switch(bool),
    /// This text.
    Text(&'static str),
}

/// How a member was added.
#[derive(Clone, Copy)]
pub struct Addition {
    /// The first format whose texts have it.
    pub since: u64,
    /// The value that stands for it in texts of earlier formats.
    pub default: DefaultValue,
}

/// A member of one of the objects of a saved state.
#[derive(Clone, Copy)]
pub struct Member {
    /// Its name in the object of JSON.
    pub name: &'static str,
    /// The kind of its value.
    pub kind: ValueKind,
    /// None if the first format has it.
    pub added: Option<Addition>,
}

impl DefaultValue {
    ghost use Rattle.std.specs.Prelude.{◌≡◌, ℕ, option_map};
    ghost use Rattle.serde_json.specs.Find.{as_array, as_bool, as_str};
    ghost use Rattle.serde_json.specs.View.{items_view};
    ghost use Rattle.setup_reader.specs.JsonTree.{whole_number};
    ghost use Rattle.check_saved_state.specs.Object.{optional_number, optional_run};
    ghost use Rattle.check_saved_state.specs.Table.{default_tree};

    /// The number, if it is one.
    pub(crate) fn number(self) -> Option<u64>
        ensures { result ≡ whole_number (default_tree self) }
    {
        match self {
            DefaultValue::Number(number) => Some(number),
            _ => None,
        }
    }

    /// The number, if it is one. None inside for `null`.
    pub(crate) fn optional_number(self) -> Option<Option<u64>>
        ensures { result ≡ optional_number (default_tree self) }
    {
        match self {
            DefaultValue::Nothing => Some(None),
            DefaultValue::Number(number) => Some(Some(number)),
            _ => None,
        }
    }

    /// No run, if it is `null`.
    pub(crate) fn optional_run(self) -> Option<Option<SavedRun>>
        ensures { (format : ℕ) → result ≡ optional_run format (default_tree self) }
    {
        match self {
            DefaultValue::Nothing => Some(None),
            _ => None,
        }
    }

    /// The items of the list, if it is one.
    pub(crate) fn list<'v>(self) -> Option<&'v [Value]>
        ensures { option_map (λ items. items_view items.now) result ≡ as_array (default_tree self) }
    {
        match self {
            DefaultValue::Empty => Some(&[]),
            _ => None,
        }
    }

    /// The truth value, if it is one.
    pub(crate) fn switch(self) -> Option<bool>
        ensures { result ≡ as_bool (default_tree self) }
    {
        match self {
            DefaultValue::Switch(value) => Some(value),
            _ => None,
        }
    }

    /// The text, if it is one.
    pub(crate) fn text(self) -> Option<&'static str>
        ensures { option_map (λ text. text.now) result ≡ as_str (default_tree self) }
    {
        match self {
            DefaultValue::Text(text) => Some(text),
            _ => None,
        }
    }
}

impl Member {
    ghost use Rattle.std.specs.Prelude.{◌≡◌, option_map};
    ghost use Rattle.check_saved_state.specs.Table.{as_row, default_at, default_tree, is_in};

    /// The value that stands for it in a text of this format. None if the text has the member itself.
    pub(crate) fn default_at(self, format: u64) -> Option<DefaultValue>
        ensures { option_map default_tree result ≡ default_at format (as_row self) }
    {
        let added = self.added?;
        if added.since <= format {
            return None;
        }
        Some(added.default)
    }

    /// Whether a text of this format has it.
    pub fn is_in(self, format: u64) -> bool
        ensures { result ≡ is_in format (as_row self) }
    {
        self.default_at(format).is_none()
    }
}

/// The row of a member that the first format has.
macro_rules! required {
    ($name:literal, $kind:ident) => {
        Member {
            name: $name,
            kind: ValueKind::$kind,
            added: None,
        }
    };
}

// ---- the document

/// The format of the text.
pub(crate) const DOCUMENT_FORMAT: Member = required!("format", Number);

/// The moment at which scheduling started.
pub(crate) const START: Member = required!("start", Number);

/// The number of runs that were handed out.
pub(crate) const RUNS: Member = required!("runs", Number);

/// The objects.
pub const OBJECTS: Member = required!("objects", List);

/// The members of the document.
pub static DOCUMENT_MEMBERS: [Member; 4] = [DOCUMENT_FORMAT, START, RUNS, OBJECTS];

// ---- a run

/// The number under which it was handed out.
pub(crate) const RUN_NUMBER: Member = required!("number", Number);

/// The moment at which it was handed out.
pub(crate) const RUN_START: Member = required!("start", Number);

/// The members of a run.
pub static RUN_MEMBERS: [Member; 2] = [RUN_NUMBER, RUN_START];

// ---- an object

/// Its full name.
pub const NAME: Member = required!("name", Text);

/// Its state.
pub(crate) const STATE: Member = required!("state", State);

/// Soft or hard.
pub(crate) const KIND: Member = required!("kind", StateKind);

/// Its attempt.
pub(crate) const ATTEMPT: Member = required!("attempt", Number);

/// Its last hard state.
pub(crate) const LAST_HARD_STATE: Member = required!("last_hard_state", State);

/// Whether there was a result yet.
pub(crate) const CHECKED: Member = required!("checked", Switch);

/// Whether it flaps.
pub(crate) const FLAPPING: Member = required!("flapping", Flapping);

/// The letters of its results.
pub(crate) const RESULTS: Member = required!("results", Letters);

/// The time of its next check.
pub(crate) const NEXT_CHECK: Member = required!("next_check", NumberOrNull);

/// Its running check.
pub const RUN: Member = required!("run", RunOrNull);

/// Whether its active checks are enabled.
pub(crate) const ENABLED: Member = required!("enabled", Switch);

/// Whether its next check is forced.
pub(crate) const FORCED: Member = required!("forced", Switch);

/// Its check interval in milliseconds.
pub(crate) const CHECK_INTERVAL: Member = required!("check_interval", Number);

/// Its maximum of check attempts.
pub(crate) const MAX_CHECK_ATTEMPTS: Member = required!("max_check_attempts", Number);

/// Whether the setup has its active checks enabled.
pub(crate) const ENABLED_IN_SETUP: Member = required!("enabled_in_setup", Switch);

/// The members of an object.
pub static OBJECT_MEMBERS: [Member; 15] = [
    NAME,
    STATE,
    KIND,
    ATTEMPT,
    LAST_HARD_STATE,
    CHECKED,
    FLAPPING,
    RESULTS,
    NEXT_CHECK,
    RUN,
    ENABLED,
    FORCED,
    CHECK_INTERVAL,
    MAX_CHECK_ATTEMPTS,
    ENABLED_IN_SETUP,
];
