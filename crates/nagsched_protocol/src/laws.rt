//! Laws of the limits of an input and of a reply, and of the text of a conversation. Each law is the contract of a
//! function without parameters and code.

ghost use Rattle.check_objects.specs.Configuration.{Configuration};
ghost use Rattle.check_saved_state.specs.Saved.{Saved};
ghost use Rattle.check_sched.specs.Saved.{state_after_resume};
ghost use Rattle.nagsched_protocol.specs.Forms.{refusal_text};
ghost use Rattle.nagsched_protocol.specs.Input.{lines_of};
ghost use Rattle.nagsched_protocol.specs.LiveInput.{rest_after_line, has_feed};
ghost use Rattle.nagsched_protocol.specs.Script.{Beginning, Script, beginning_of, script_of};
ghost use Rattle.nagsched_protocol.specs.declared.answer_form.AnswerForm.{AnswerForm};
ghost use Rattle.nagsched_protocol.specs.declared.answer_form.AnswerForm.TheVariants.{Words};
ghost use Rattle.nagsched_protocol.specs.declared.input.TheConstants.{MAX_READ_BYTES};
ghost use Rattle.nagsched_protocol.specs.declared.line.TheConstants.{MAX_LINE_BYTES};
ghost use Rattle.nagsched_protocol.specs.declared.line_reader.TheConstants.{READ_BYTES, LINE_PREFIX_BYTES, SAVED_PREFIX_BYTES, SETUP_PREFIX_BYTES};
ghost use Rattle.nagsched_protocol.specs.declared.refusal.InputRefusal.{InputRefusal};
ghost use Rattle.nagsched_protocol.specs.declared.script.TheConstants.{MAX_INPUT_BYTES};
ghost use Rattle.nagsched_protocol.specs.declared.start.Start.{Start};
ghost use Rattle.nagsched_protocol.specs.declared.start.Start.TheVariants.{Resumed};
ghost use Rattle.nagsched_protocol.specs.LiveText.{BeginsWith, HasStart, line_meaning, live_text};
ghost use Rattle.nagsched_protocol.specs.Text.{text, text_from};
ghost use Rattle.nagsched_protocol.specs.declared.text.TheConstants.{REPLY_BYTES};
ghost use Rattle.std.specs.Prelude.{◌≡◌, ℕ, ◌+◌, ◌++◌, false, List, [], ◌∷◌, Some, None, Ok, Err, length};

/// An input has at most 64 MiB, and one byte more is read. A line has at most 4,096 bytes.
pub fn limits_of_an_input()
    ensures input { MAX_INPUT_BYTES ≡ 67108864 }
    ensures read { MAX_READ_BYTES ≡ 67108865 }
    ensures line { MAX_LINE_BYTES ≡ 4096 }
{}

/// A conversation asks for 8,192 bytes at a time. It keeps at most 16,777,217 bytes of a setup document
/// or a saved state, and 4,097 of a later line. Each limit is one more than such a text may have.
pub fn limits_of_a_conversation()
    ensures read { READ_BYTES ≡ 8192 }
    ensures setup { SETUP_PREFIX_BYTES ≡ 16777217 }
    ensures saved { SAVED_PREFIX_BYTES ≡ 16777217 }
    ensures line { LINE_PREFIX_BYTES ≡ 4097 }
{}

/// The line of a reply has at most 1,024 bytes.
pub fn limit_of_a_reply()
    ensures { REPLY_BYTES ≡ 1024 }
{}

/// On an input that a run accepts, a conversation in words writes what the run writes.
pub fn live_agrees_with_run()
    ensures { (how : Start) → (input : List ℕ) → (script : Script)
        → script_of how input ≡ Ok script
        → live_text Words how input ≡ text how input }
{}

/// No answer depends on later input. The law speaks of whole lines that contain what the scheduler
/// starts with. The text that a conversation writes on them is a prefix of its text on them and later
/// input.
pub fn live_output_only_grows()
    ensures { (form : AnswerForm) → (how : Start) → (front back : List ℕ)
        → HasStart how (rest_after_line (front ++ 10 ∷ [])) → (rest : List ℕ)
        × (live_text form how ((front ++ 10 ∷ []) ++ back)
        ≡ live_text form how (front ++ 10 ∷ []) ++ rest) }
{}

/// If an empty line replaces a refused one, a conversation writes the same except for that refusal. `front` contains what the scheduler starts with and the lines before the refused one, each
/// with its line feed, except for the last one's.
pub fn live_skips_refused_lines()
    ensures { (form : AnswerForm) → (how : Start) → (beginning : Beginning) → (front line back : List ℕ)
        → (why : InputRefusal) → HasStart how (rest_after_line (front ++ 10 ∷ []))
        → beginning_of how (front ++ 10 ∷ []) ≡ Ok beginning → has_feed line ≡ false
        → line_meaning form beginning.state.setup (length (lines_of (front ++ 10 ∷ [])) + 1) line ≡ Err why
        → (before behind : List ℕ)
        × (live_text form how ((front ++ 10 ∷ []) ++ (line ++ 10 ∷ back))
        ≡ before ++ (refusal_text form line why ++ behind))
        × (live_text form how ((front ++ 10 ∷ []) ++ (10 ∷ back)) ≡ before ++ behind) }
{}

/// A run that continues from a saved state, at the moment `start`, carries out its commands on the
/// scheduler that check_sched resumes at that moment. If no moment is given, it does the same with the
/// saved start as that moment.
pub fn given_start_replaces_the_saved_one()
    ensures given { (start : ℕ) → (input : List ℕ) → (setup : Configuration) → (saved : Saved)
        → (script : Script) → BeginsWith input setup saved
        → script_of (Resumed (Some start)) input ≡ Ok script
        → text (Resumed (Some start)) input
        ≡ text_from (state_after_resume setup saved start) script.commands }
    ensures saved { (start : ℕ) → (input other : List ℕ) → (setup : Configuration) → (saved : Saved)
        → (script there : Script) → BeginsWith input setup saved
        → BeginsWith other setup (record saved { start = start })
        → script_of (Resumed (Some start)) input ≡ Ok script
        → script_of (Resumed None) other ≡ Ok there → there.commands ≡ script.commands
        → text (Resumed None) other ≡ text (Resumed (Some start)) input }
{}
