//! Why the program ends early.

use check_objects::LoadError;
use check_saved_state::SavedFault;
use std::alloc::AllocError;

/// Why the program ends early.
#[derive(Clone, Copy)]
pub(crate) enum Fault {
    /// The arguments are wrong.
    Words = 2,
    /// The output can't be written.
    Output = 3,
    /// There is no memory: for a book, a desk, threads or a line.
    Memory = 4,
    /// A setup or a stored state is refused.
    Refused = 5,
}

impl Fault {
    ghost use Rattle.std.specs.Prelude.{◌≡◌};
    ghost use Rattle.nagsched_loop.specs.Faults.{exit_status};

    /// The exit status that reports it. Status 0 reports success.
    pub(crate) fn status(self) -> u8
        ensures { result ≡ exit_status self }
    {
        self as u8
    }
}

impl From<AllocError> for Fault {
    ghost use Rattle.std.specs.Prelude.{◌≡◌};
    ghost use Rattle.nagsched_loop.specs.declared.fault.Fault.TheVariants as fault;

    ghost from_gives = { λ _ e. e ≡ fault.Memory };

    fn from(_refused: AllocError) -> Fault {
        Fault::Memory
    }
}

impl From<LoadError> for Fault {
    ghost use Rattle.std.specs.Prelude.{◌≡◌};
    ghost use Rattle.nagsched_loop.specs.Faults.{fault_of_setup};

    ghost from_gives = { λ refusal e. e ≡ fault_of_setup refusal };

    fn from(refusal: LoadError) -> Fault {
        match refusal {
            LoadError::Memory => Fault::Memory,
            _ => Fault::Refused,
        }
    }
}

impl From<SavedFault> for Fault {
    ghost use Rattle.std.specs.Prelude.{◌≡◌};
    ghost use Rattle.nagsched_loop.specs.Faults.{fault_of_text};

    ghost from_gives = { λ refusal e. e ≡ fault_of_text refusal };

    fn from(refusal: SavedFault) -> Fault {
        if let SavedFault::Memory = refusal {
            Fault::Memory
        } else {
            Fault::Refused
        }
    }
}
