//! Laws of the definitions. Each is the contract of a function without parameters and code.

ghost use Rattle.std.specs.Prelude.{◌≡◌, ◌≤◌, ℕ, List, ◌∷◌, ◌++◌, Ok, Err, length, not, option_map, true};
ghost use Rattle.std.specs.List.{list_all};
ghost use Rattle.serde_json.specs.Data.{Data};
ghost use Rattle.check_saved_state.specs.declared.saved.TheConstants.{MAX_SAVED_BYTES};
ghost use Rattle.check_saved_state.specs.declared.fault.SavedFault.TheVariants as SavedFault;
ghost use Rattle.check_saved_state.specs.Object.{object_in, optional_run};
ghost use Rattle.check_saved_state.specs.Saved.{IsSaved, Saved};
ghost use Rattle.check_saved_state.specs.Table.{Row, defaults, document_members, have_defaults_of_their_kinds, is_in};
ghost use Rattle.check_saved_state.specs.Table.{object_members, run_members, values_in};
ghost use Rattle.check_saved_state.specs.Text.{saved_of_text, saved_text};
ghost use Rattle.check_saved_state.specs.Verification.{verified_saved};

/// The greatest length of the text of a saved state in bytes, as a number. (Our own profile.)
pub fn limit_of_a_text()
    ensures { MAX_SAVED_BYTES ≡ 16777216 }
{}

/// A scheduler can be resumed from every saved state that is read from a text (`lawful`). If a scheduler can
/// be resumed from a saved state, that state passes the tests (`tests`).
pub fn what_is_read_is_what_can_be_saved()
    ensures lawful { (text : List ℕ) → (saved : Saved) → saved_of_text text ≡ Ok saved → IsSaved saved }
    ensures tests { (saved : Saved) → IsSaved saved → verified_saved saved ≡ Ok saved }
{}

/// The text of a saved state is within the limit of a text (`fits`), and is read as the same saved state
/// (`inverse`). The same holds of the text of a saved state that was read from any text (`again`).
pub fn what_is_written_is_read()
    ensures fits { (saved : Saved) → IsSaved saved → length (saved_text saved) ≤ 16777216 }
    ensures inverse { (saved : Saved) → IsSaved saved → saved_of_text (saved_text saved) ≡ Ok saved }
    ensures again { (text : List ℕ) → (saved : Saved) → saved_of_text text ≡ Ok saved
        → saved_of_text (saved_text saved) ≡ Ok saved }
{}

/// A text that was cut off is refused. Take the text of a saved state, without its last byte or with more bytes
/// missing at its end. It isn't JSON, since the object that it opens isn't closed.
pub fn torn_texts_are_refused()
    ensures { (saved : Saved) → (front rest : List ℕ) → (next : ℕ) → IsSaved saved
        → saved_text saved ≡ front ++ next ∷ rest → saved_of_text front ≡ Err SavedFault.NotJson }
{}

/// Each default of the tables is of its member's kind, in a document, a run and an object.
pub fn defaults_are_of_their_kinds()
    ensures document { have_defaults_of_their_kinds document_members ≡ true }
    ensures run { have_defaults_of_their_kinds run_members ≡ true }
    ensures object { have_defaults_of_their_kinds object_members ≡ true }
{}

/// A table can grow. Take an object of a text of some format, and two tables of members, of which the second has
/// those of the first and then others, each added in a later format. By the second, the object has the values
/// that it has by the first, and then the defaults of the others; and it is an object of the second if it is
/// one of the first (`grown`). An object of a saved state is read by these values alone, in whichever format, if
/// runs are read alike in both (`by_values`). So an object of an earlier format is read as the one that has the
/// defaults.
pub fn earlier_formats_are_read()
    ensures grown { (format : ℕ) → (ms others : List Row) → (d : Data)
        → list_all (λ m. not (is_in format m)) others ≡ true
        → values_in format (ms ++ others) d
        ≡ option_map (λ values. values ++ defaults others) (values_in format ms d) }
    ensures by_values { (format other : ℕ) → (d e : Data)
        → values_in format object_members d ≡ values_in other object_members e
        → ((run : Data) → optional_run format run ≡ optional_run other run)
        → object_in format d ≡ object_in other e }
{}
