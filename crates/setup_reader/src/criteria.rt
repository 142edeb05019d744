//! The criteria of a dependency, by the letters of their text.

ghost use Rattle.std.specs.Prelude.{◌≡◌, map, bytes_eq};
ghost use Rattle.std.specs.List.{list_any};
ghost use Rattle.setup_reader.specs.Criteria.{are_letters, criteria_in, has_letter};

use setup_model::Criteria;

/// Whether a text has only these letters, with one comma between two of them.
pub(crate) fn are_letters(text: &str, letters: &[&str]) -> bool
    ensures { result ≡ are_letters (map (λ letter. letter.now) letters.now) text.now }
{
    text.split(',').all(|piece| is_among(piece, letters))
}

/// Whether a piece of the text is one of these letters.
fn is_among(piece: &str, letters: &[&str]) -> bool
    ensures { result ≡ list_any (λ letter. bytes_eq letter.now piece.now) letters.now }
{
    letters.iter().any(|letter| *letter == piece)
}

/// The criteria whose letters are among the pieces of a text between commas.
#[tactic(auto, unfolding(crate::specs::Criteria::criteria_in))]
pub(crate) fn read_criteria(text: &str) -> Criteria
    ensures { result ≡ criteria_in text.now }
{
    Criteria {
        ok: has_letter(text, "o"),
        warning: has_letter(text, "w"),
        unknown: has_letter(text, "u"),
        critical: has_letter(text, "c"),
        down: has_letter(text, "d"),
        pending: has_letter(text, "p"),
        none: has_letter(text, "n"),
    }
}

/// Whether a piece of the text is this letter.
fn has_letter(text: &str, letter: &str) -> bool
    ensures { result ≡ has_letter letter.now text.now }
{
    text.split(',').any(|piece| piece == letter)
}
