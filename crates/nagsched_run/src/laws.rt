//! Laws of the texts that runs write. Each law is the contract of a function without parameters and
//! code.

ghost use Rattle.std.specs.Prelude.{ℕ, ◌≡◌, ◌≤◌, ◌++◌, List, None, Ok, false, length};
ghost use Rattle.check_sched.specs.State.{State};
ghost use Rattle.nagsched_protocol.specs.declared.script.TheConstants.{MAX_INPUT_BYTES};
ghost use Rattle.nagsched_protocol.specs.declared.start.Start.TheVariants.{Fresh, Resumed};
ghost use Rattle.nagsched_protocol.specs.LiveInput.{has_feed};
ghost use Rattle.nagsched_protocol.specs.Script.{Script, script_of};
ghost use Rattle.check_states.specs.declared.times.TheConstants.{LAST_MOMENT};
ghost use Rattle.nagsched_protocol.specs.Output.{AreWholeLines};
ghost use Rattle.nagsched_protocol.specs.Text.{saved_line, text};
ghost use Rattle.nagsched_run.specs.Cut.{first_part, second_part, whole_input};

/// A run that is accepted can be cut after any of its lines. The first part ends with `["save"]`. It
/// writes what the whole run writes for it, and then the line of a saved state. The second part begins
/// with the same setup document and that saved state. It writes what the whole run writes for it. Both
/// parts together give the answers of the whole run, except for the line of the saved state. This holds
/// for each part that is within the limit of an input.
pub fn a_cut_run_resumes()
    ensures { (start : ℕ) → (document front rest : List ℕ) → (script : Script)
        → start ≤ LAST_MOMENT → has_feed document ≡ false → AreWholeLines front
        → script_of (Fresh start) (whole_input document front rest) ≡ Ok script
        → (before : List ℕ) × (s : State)
        × (length (first_part document front) ≤ MAX_INPUT_BYTES
        → text (Fresh start) (first_part document front) ≡ before ++ saved_line s)
        × (length (second_part document s rest) ≤ MAX_INPUT_BYTES
        → text (Fresh start) (whole_input document front rest)
        ≡ before ++ text (Resumed None) (second_part document s rest)) }
{}
