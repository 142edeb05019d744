//! The saved state of a scheduler, and of each of its objects.

ghost use Rattle.std.specs.Prelude.{◌≡◌};

use check_states::{LAST_MOMENT, Standing, State};
use std::marker::Model;

/// A running check: it was handed out, and its result hasn't come back. Contracts see it as a record
/// `OpenRun`.
#[derive(Clone, Copy)]
pub struct SavedRun {
    /// The number under which it was handed out.
    pub number: u64,
    /// The moment at which it was handed out, in milliseconds.
    pub start: u64,
}

impl Model for SavedRun {
    ghost use Rattle.check_saved_state.specs.Scheduling.{OpenRun};

    ghost Value = { OpenRun };

    ghost view = { λ run. record { number = run.number; start = run.start } };

    ghost inverse = { λ run. record { number = run.number; start = run.start } };
}

/// One saved object: its standing, its last results, its scheduling, and three values of its setup. Contracts
/// see it as a record `SavedObject` with the same fields.
#[derive(Drop)]
pub struct SavedObject {
    /// Its full name: a host's name, or a host's name and a description around a semicolon.
    pub name: String,
    pub standing: Standing,
    /// Its stored results, the oldest first.
    pub results: Vec<State>,
    /// The time of its next check in milliseconds, if one is set.
    pub next: Option<u64>,
    /// Its running check, if there is one.
    pub run: Option<SavedRun>,
    /// Whether its active checks are enabled.
    pub enabled: bool,
    /// Whether its next check is forced.
    pub forced: bool,
    /// Its check interval in milliseconds.
    pub interval: u64,
    /// Its maximum of check attempts.
    pub max_attempts: u8,
    /// Whether the setup has its active checks enabled.
    pub setup_enabled: bool,
}

impl Model for SavedObject {
    ghost use Rattle.check_saved_state.specs.Saved as spec;
    ghost use Rattle.std.specs.Prelude.{string_bytes};

    ghost Value = { spec.SavedObject };

    ghost view = { λ o. record {
      name = string_bytes o.name;
      standing = o.standing;
      results = o.results.items;
      scheduling = record { next = o.next; run = o.run; enabled = o.enabled; forced = o.forced };
      interval = o.interval;
      max_attempts = o.max_attempts;
      setup_enabled = o.setup_enabled;
    } };
}

/// All of a scheduler except its setup: the number of runs handed out, the moment at which scheduling
/// started, and each object. (Our own profile; Nagios uses retention files.)
///
/// A scheduler can be resumed from every value of this type. No two objects have the same name. Each has a
/// standing, results and times that are possible for its sort. Each run of a running check is one of those
/// that were handed out. Contracts see it as a record `Saved`, and `IsSaved` holds of it.
#[derive(Drop)]
pub struct Saved {
    start: u64,
    runs: u64,
    objects: Vec<SavedObject>,
}

impl Model for Saved {
    ghost use Rattle.check_saved_state.specs.Saved as spec;

    ghost Value = { spec.Saved };

    ghost use Rattle.check_saved_state.specs.SavedViews.{saved_view, IsWellFormed};

    ghost view = { saved_view };

    ghost invariant = { IsWellFormed };
}

impl Saved {
    ghost use Rattle.std.specs.Prelude.{◌≤◌};
    ghost use Rattle.check_saved_state.specs.Saved.{IsSaved};

    /// The saved state with these objects, of a scheduler that started at `start`, in milliseconds, and
    /// handed out `runs` runs. The order of the objects has no meaning.
    pub fn of(start: u64, runs: u64, objects: Vec<SavedObject>) -> Saved
        requires { IsSaved (record { start = start; runs = runs; objects = objects.items }) }
        ensures { result ≡ record { start = start; runs = runs; objects = objects.items } }
    {
        Saved {
            start,
            runs,
            objects,
        }
    }

    /// The moment at which scheduling started, in milliseconds: at most 2^60.
    pub fn start(&self) -> u64
        ensures value { result ≡ self.now.start }
        ensures moment { result ≤ LAST_MOMENT }
    {
        self.start
    }

    /// The number of runs that were handed out: at most 2^60.
    pub fn runs(&self) -> u64
        ensures { result ≡ self.now.runs }
    {
        self.runs
    }

    /// The saved objects: at most 4,096.
    pub fn objects(&self) -> &[SavedObject]
        ensures value { result.now ≡ self.now.objects }
        ensures saved { IsSaved self.now }
    {
        &self.objects
    }
}

/// The greatest length of the text of a saved state, in bytes.
pub const MAX_SAVED_BYTES: usize = 16_777_216;

/// The longest check interval that a setup can have, in milliseconds: 525,600 units of a day.
pub const LONGEST_INTERVAL: u64 = 45_411_840_000_000;

/// The greatest number of runs that a scheduler hands out.
pub const MAX_RUNS: u64 = 1 << 60;
