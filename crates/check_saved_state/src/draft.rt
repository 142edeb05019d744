//! The contents of a saved state whose members have the right names and kinds. Its values aren't verified
//! yet.

ghost use Rattle.std.specs.Prelude.{◌≡◌, ◌≤◌, IfOk};

use crate::name::is_host_name;
use crate::result_letters::results_of_letters;
use crate::saved::{SavedObject, SavedRun};
use check_states::{Kind, Standing, State};
use std::alloc::{AllocError, Global};
use std::marker::Model;

/// An object's standing in a text. Contracts see it as a standing, whose attempt can be any number.
#[derive(Clone, Copy)]
pub(crate) struct StandingDraft {
    pub(crate) checked: bool,
    pub(crate) state: State,
    pub(crate) kind: Kind,
    pub(crate) attempt: u64,
    pub(crate) last_hard: State,
    pub(crate) flapping: bool,
}

impl Model for StandingDraft {
    ghost use Rattle.check_states.specs.declared.standing.Standing as rules;
    ghost use Rattle.check_saved_state.specs.Object.{standing_with};

    ghost Value = { rules.Standing };

    ghost view = { λ s. standing_with s.checked s.state s.kind s.attempt s.last_hard s.flapping };

    ghost inverse = { λ s. record {
      checked = s.checked;
      state = s.state;
      kind = s.kind;
      attempt = s.attempt;
      last_hard = s.last_hard;
      flapping = s.flapping;
    } };
}

/// An object's scheduling in a text.
#[derive(Clone, Copy)]
pub(crate) struct SchedulingDraft {
    pub(crate) next: Option<u64>,
    pub(crate) run: Option<SavedRun>,
    pub(crate) enabled: bool,
    pub(crate) forced: bool,
}

impl Model for SchedulingDraft {
    ghost use Rattle.check_saved_state.specs.Scheduling as spec;

    ghost Value = { spec.Scheduling };

    ghost view = { λ s. record { next = s.next; run = s.run; enabled = s.enabled; forced = s.forced } };

    ghost inverse = { λ s. record { next = s.next; run = s.run; enabled = s.enabled; forced = s.forced } };
}

/// One object in a text. Contracts see it as a saved object, whose numbers can be any.
#[derive(Drop)]
pub(crate) struct ObjectDraft<'v> {
    pub(crate) name: &'v str,
    pub(crate) standing: StandingDraft,
    /// The letters of its results.
    pub(crate) letters: &'v str,
    pub(crate) scheduling: SchedulingDraft,
    pub(crate) interval: u64,
    pub(crate) max_attempts: u64,
    pub(crate) setup_enabled: bool,
}

impl<'v> Model for ObjectDraft<'v> {
    ghost use Rattle.setup_model.specs.Name.{is_host_name};
    ghost use Rattle.check_saved_state.specs.Saved as spec;
    ghost use Rattle.check_saved_state.specs.Words.{results_of_letters};

    ghost Value = { spec.SavedObject };

    ghost view = { λ d. record {
      name = d.name.now;
      standing = d.standing;
      results = results_of_letters (is_host_name d.name.now) d.letters.now;
      scheduling = d.scheduling;
      interval = d.interval;
      max_attempts = d.max_attempts;
      setup_enabled = d.setup_enabled;
    } };
}

/// The whole text. Contracts see it as a saved state, without further conditions.
#[derive(Drop)]
pub(crate) struct SavedDraft<'v> {
    pub(crate) start: u64,
    pub(crate) runs: u64,
    pub(crate) objects: Vec<ObjectDraft<'v>>,
}

impl<'v> Model for SavedDraft<'v> {
    ghost use Rattle.check_saved_state.specs.Saved as spec;

    ghost Value = { spec.Saved };

    ghost view = { λ d. record { start = d.start; runs = d.runs; objects = d.objects.items } };
}

impl<'v> ObjectDraft<'v> {
    ghost use Rattle.check_saved_state.specs.Verification.{HasBoundedAttempts};

    /// The saved object. Its attempts are within their limits.
    pub(crate) fn to_saved(&self, alloc: Global) -> Result<SavedObject, AllocError>
        requires { HasBoundedAttempts self.now }
        ensures { IfOk result (λ object. object ≡ self.now) }
    {
        let standing = self.standing;
        let scheduling = self.scheduling;
        Ok(SavedObject {
            name: String::from_str(alloc, self.name)?,
            standing: Standing {
                checked: standing.checked,
                state: standing.state,
                kind: standing.kind,
                attempt: standing.attempt as u8,
                last_hard: standing.last_hard,
                flapping: standing.flapping,
            },
            results: results_of_letters(alloc, is_host_name(self.name), self.letters)?,
            next: scheduling.next,
            run: scheduling.run,
            enabled: scheduling.enabled,
            forced: scheduling.forced,
            interval: self.interval,
            max_attempts: self.max_attempts as u8,
            setup_enabled: self.setup_enabled,
        })
    }
}
