//! The parts of an argument, and the arguments next to it.

ghost use Rattle.std.specs.Prelude.{◌≡◌, drop, option_map, slice_get, take};
ghost use Rattle.clap.specs.Walk.{texts};
ghost use Rattle.nagsched_cli.specs.ArgumentFaults.{attached_value, is_dashes, is_option, name_part, next_word, previous_word, value_part};

/// The argument at a place, if there is one.
pub(crate) fn word_at<'a>(words: &[&'a str], place: usize) -> Option<&'a str>
    ensures { option_map (λ w. w.now) result ≡ slice_get (texts words.now) place }
{
    words.get(place).copied()
}

/// The arguments from a place on.
#[tactic(auto, using(crate::proofs::WordLemmas::words_dropped, crate::proofs::WordLemmas::no_words_left))]
pub(crate) fn words_from<'w, 'a>(words: &'w [&'a str], place: usize) -> &'w [&'a str]
    ensures { texts result.now ≡ drop place (texts words.now) }
{
    if words.len() <= place {
        return &[];
    }
    &words[place..]
}

/// The arguments before a place.
#[tactic(auto, using(crate::proofs::WordLemmas::words_taken, crate::proofs::WordLemmas::all_words_taken))]
pub(crate) fn words_until<'w, 'a>(words: &'w [&'a str], place: usize) -> &'w [&'a str]
    ensures { texts result.now ≡ take place (texts words.now) }
{
    if words.len() <= place {
        return words;
    }
    &words[..place]
}

/// The argument before a place, if there is one.
pub(crate) fn previous_word<'a>(words: &[&'a str], place: usize) -> Option<&'a str>
    ensures { option_map (λ w. w.now) result ≡ previous_word (texts words.now) place }
{
    if place == 0 {
        return None;
    }
    word_at(words, place - 1)
}

/// The argument after a place, if there is one.
pub(crate) fn next_word<'a>(words: &[&'a str], place: usize) -> Option<&'a str>
    ensures { option_map (λ w. w.now) result ≡ next_word (texts words.now) place }
{
    word_at(words_from(words, place), 1)
}

/// Whether an argument is an option: it begins with `-`, and is longer.
pub(crate) fn is_option(word: &str) -> bool
    ensures { result ≡ is_option word.now }
{
    let bytes = word.as_bytes();
    bytes.len() > 1 && bytes[0] == b'-'
}

/// Whether an argument is the one after which no options come.
pub(crate) fn is_dashes(word: Option<&str>) -> bool
    ensures { result ≡ is_dashes (option_map (λ w. w.now) word.entry) }
{
    match word {
        Some(word) => word == "--",
        None => false,
    }
}

/// The name in an argument: what comes before the first `=`.
pub(crate) fn name_part(word: &str) -> &str
    ensures { result.now ≡ name_part word.now }
{
    match word.split_once('=') {
        Some((name, _)) => name,
        None => word,
    }
}

/// The value in an argument: what comes after the first `=`, if there is one.
pub(crate) fn attached_value(word: &str) -> Option<&str>
    ensures { option_map (λ v. v.now) result ≡ attached_value word.now }
{
    match word.split_once('=') {
        Some((_, value)) => Some(value),
        None => None,
    }
}

/// The value in an argument: what is attached to an option, or else the whole argument.
pub(crate) fn value_part(word: &str) -> &str
    ensures { result.now ≡ value_part word.now }
{
    if is_option(word) {
        attached_value(word).unwrap_or(word)
    } else {
        word
    }
}
