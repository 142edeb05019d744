//! The interface to the code that runs a check.

ghost use Rattle.std.specs.Prelude.{ℕ};
ghost use Rattle.check_states.specs.declared.state.Code.{Code as CodeOf};

use check_states::Code;

/// Runs the checks: the program's own code, which starts a plugin and waits for its return code.
///
/// It is called with no lock held, so other workers continue meanwhile. Many threads can call it at once. An
/// implementation names in `allows` the codes that it may return for an object, a run and a moment. If
/// nothing is known, any code is allowed.
pub trait Plugin {
    ghost allows: { Self → ℕ → ℕ → ℕ → CodeOf → Type 0 };

    /// Runs the check of an object, and returns its return code. `object` is the object's number, and `run`
    /// the number of the run as which the check was taken. `now` is the moment of the take, in milliseconds.
    fn check(&self, object: u32, run: u64, now: u64) -> Code
        ensures { allows self.now object run now result };
}
