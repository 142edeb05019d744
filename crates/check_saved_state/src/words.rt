//! The words of a saved state for flapping. The words of states and kinds are in `check_states`.

ghost use Rattle.std.specs.Prelude.{◌≡◌};
ghost use Rattle.check_saved_state.specs.Words.{flapping_of_word, flapping_word};

pub(crate) fn flapping_word(flapping: bool) -> &'static str
    ensures { result.now ≡ flapping_word flapping }
{
    if flapping { "FLAPPING" } else { "STEADY" }
}

/// Whether this word means flapping, if it is one of the two words.
pub(crate) fn flapping_of_word(word: &str) -> Option<bool>
    ensures { result ≡ flapping_of_word word.now }
{
    match word {
        "FLAPPING" => Some(true),
        "STEADY" => Some(false),
        _ => None,
    }
}
