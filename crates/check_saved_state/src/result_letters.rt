//! Results as a text, one letter for each, the oldest first: `o`, `w`, `u` and `c` for a service, `o`, `d`
//! and `u` for a host.

ghost use Rattle.std.specs.Prelude.{◌≡◌, IfOk, option_map, string_bytes};
ghost use Rattle.check_saved_state.specs.Words.{are_letters, letters_of, only_letters, results_of_letters};

use check_states::State;
use std::alloc::{AllocError, Global};

/// The letters of these results.
pub(crate) fn letters_of(alloc: Global, results: &[State]) -> Result<String, AllocError>
    ensures { IfOk result (λ text. string_bytes text ≡ letters_of results.now) }
{
    let mut text = String::new(alloc);
    for found in results {
        text.push_str(found.letter())?;
    }
    Ok(text)
}

/// The text, if each of its bytes is a letter of a result, of either sort of object.
pub(crate) fn only_letters(text: &str) -> Option<&str>
    ensures { option_map (λ letters. letters.now) result ≡ only_letters text.now }
{
    if are_letters(text) { Some(text) } else { None }
}

fn are_letters(text: &str) -> bool
    ensures { result ≡ are_letters text.now }
{
    text.as_bytes().iter().all(|byte| State::is_letter(*byte))
}

/// The results of a host, or of a service, with these letters.
pub(crate) fn results_of_letters(
    alloc: Global,
    host: bool,
    letters: &str,
) -> Result<Vec<State>, AllocError>
    ensures { IfOk result (λ results. results.items ≡ results_of_letters host letters.now) }
{
    letters
        .as_bytes()
        .iter()
        .map(|letter| State::from_letter(host, *letter))
        .collect(alloc)
}
