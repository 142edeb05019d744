//! The sentence that explains why an input is refused.

ghost use Rattle.std.specs.Prelude.{◌≡◌, ◌++◌, [], IfOk, None, OnOk, codes, false, option_map, string_bytes};
ghost use Rattle.json.specs.Lex.{tokens};
ghost use Rattle.json.specs.Reads.{token_of};
ghost use Rattle.setup_diagnostics.specs.Feeds.{has_line_feed, HasNoLineFeed};
ghost use Rattle.setup_diagnostics.specs.Places.{role_text};
ghost use Rattle.nagsched_protocol.specs.Explanation.{are_value, count_fault, fault_text, first_text, is_bad, item_at, items_of};
ghost use Rattle.nagsched_protocol.specs.Explanation.{kind_fault, kind_words, last_good, line_place, line_tokens, most_bytes, not_json_text};
ghost use Rattle.nagsched_protocol.specs.Explanation.{place_text, sentence, setup_sentence, shape_fault, shown_value, stop_text, stops, token_text};
ghost use Rattle.nagsched_protocol.specs.Explanation.{too_long_text, value_fault, value_text, vocabulary_words, word_of};

use crate::line::MAX_LINE_BYTES;
use crate::refusal::{InputRefusal, LineFault, LineShape, ValueKind, Vocabulary};
use crate::script::MAX_INPUT_BYTES;
use check_objects::LoadError;
use json::{MAX_DEPTH, Reader, Scratch, Token};
use setup_diagnostics::{Line, Pushed};
use simdutf8::compat::from_utf8;
use std::alloc::{AllocError, Global};

/// Explains in one sentence why an input is refused. `bytes` are those of the refused line. Of a line it
/// says which value is wrong, what the value is, and what it has to be. A setup and a saved state are
/// explained by a check, which it names. Texts are shown as JSON strings of at most 80 characters. The
/// only error is out of memory. The words are this project's own.
#[tactic(auto, unfolding(crate::specs::Explanation::sentence))]
pub(crate) fn explain_refusal(
    alloc: Global,
    bytes: &[u8],
    refusal: InputRefusal,
) -> Result<String, AllocError>
    ensures line { IfOk result (λ text. HasNoLineFeed (string_bytes text)) }
    ensures text { IfOk result (λ text. string_bytes text ≡ sentence bytes.now refusal) }
{
    let mut line = Line::new(alloc);
    match refusal {
        InputRefusal::Setup(error) => line.push_words(setup_sentence(error))?,
        InputRefusal::Saved(_) => line.push_words(
            "line 2: the saved state is refused; give lines 1 and 2 to \"nagsched check --resume\" to see why",
        )?,
        InputRefusal::Line {
            fault,
            line: number,
        } => {
            push_line_place(&mut line, number)?;
            push_fault(alloc, &mut line, bytes, number, fault)?;
        }
    }
    Ok(line.into_text())
}

/// What to do about a setup that is refused for this error.
fn setup_sentence(error: LoadError) -> &'static str
    ensures text { result.now ≡ setup_sentence error }
    ensures no_line_feed { has_line_feed result.now ≡ false }
{
    match error {
        LoadError::NotJson => {
            "line 1: the setup isn't JSON; give it to \"nagsched check\" to see why, or to \"nagsched check --line\" to have it on one line"
        }
        _ => "line 1: the setup is refused; give this line to \"nagsched check\" to see why",
    }
}

/// Appends the number of a line. Line 0 is the whole input.
fn push_line_place(line: &mut Line, number: usize) -> Pushed
    ensures { OnOk result (line.new ≡ line.old ++ line_place number) }
{
    if number == 0 {
        return line.push_words("the input");
    }
    line.push_words("line ")?;
    line.push_number(number as u64)
}

/// Appends the fault of a line with this number.
fn push_fault(
    alloc: Global,
    line: &mut Line,
    bytes: &[u8],
    number: usize,
    fault: LineFault,
) -> Pushed
    ensures { OnOk result (line.new ≡ line.old ++ fault_text bytes.now number fault) }
{
    match fault {
        LineFault::TooLong => push_too_long(line, number),
        LineFault::NotJson => push_not_json(alloc, line, bytes),
        LineFault::Shape(shape) => push_shape_fault(alloc, line, text_of(bytes), shape),
        LineFault::Code(value) => {
            push_value_fault(
                alloc,
                line,
                text_of(bytes),
                value,
                kind_words(ValueKind::Code),
            )
        }
        LineFault::UnknownName => push_value_fault(
            alloc,
            line,
            text_of(bytes),
            1,
            "the full name of a host or a service of the setup",
        ),
    }
}

/// Appends the most bytes that the line with this number can have.
fn push_too_long(line: &mut Line, number: usize) -> Pushed
    ensures { OnOk result (line.new ≡ line.old ++ too_long_text number) }
{
    line.push_words(" has more than ")?;
    line.push_number(most_bytes(number))?;
    line.push_words(" bytes")
}

/// The most bytes that the line with this number can have. Line 0 is the whole input.
fn most_bytes(number: usize) -> u64
    ensures { result ≡ most_bytes number }
{
    if number == 0 {
        MAX_INPUT_BYTES as u64
    } else {
        MAX_LINE_BYTES as u64
    }
}

/// The text of a line, or the empty one for a line that isn't UTF-8.
#[tactic(auto, using(crate::proofs::ExplanationLemmas::no_tokens, crate::proofs::ExplanationLemmas::all_tokens))]
fn text_of(bytes: &[u8]) -> &str
    ensures { tokens result.now ≡ line_tokens bytes.now }
{
    match from_utf8(bytes) {
        Ok(text) => text,
        Err(_) => "",
    }
}

// ---- a fault in the shape

/// Appends a fault in the shape of a line.
fn push_shape_fault(alloc: Global, line: &mut Line, text: &str, shape: LineShape) -> Pushed
    ensures { OnOk result (line.new ≡ line.old ++ shape_fault (tokens text.now) shape) }
{
    match shape {
        LineShape::NotAnArray => push_array_fault(alloc, line, text),
        LineShape::Empty => {
            line.push_words(": the array is empty; it has to begin with the name of a command")
        }
        LineShape::NoWord => push_name_fault(alloc, line, text, "a text"),
        LineShape::UnknownWord(vocabulary) => {
            push_name_fault(alloc, line, text, vocabulary_words(vocabulary))
        }
        LineShape::Count(found, wanted) => {
            push_count_fault(alloc, line, text, found, "; it has to be ", wanted)
        }
        LineShape::TooFew(found, least) => {
            push_count_fault(alloc, line, text, found, "; it has to be at least ", least)
        }
        LineShape::WrongKind(value, kind) => {
            push_value_fault(alloc, line, text, value, kind_words(kind))
        }
    }
}

/// Appends what a line is that isn't an array.
fn push_array_fault(alloc: Global, line: &mut Line, text: &str) -> Pushed
    ensures { OnOk result (line.new ≡ line.old ++ shape_fault (tokens text.now) LineShape.NotAnArray) }
{
    let mut scratch = Scratch::new(alloc);
    let mut reader = Reader::new(text, &mut scratch)?;
    line.push_words(": it is ")?;
    push_kind_fault(
        line,
        &mut reader,
        "an array that begins with the name of a command",
    )
}

/// Appends the first item of an array, and what it has to be.
fn push_name_fault(alloc: Global, line: &mut Line, text: &str, wanted: &str) -> Pushed
    requires { has_line_feed wanted.now ≡ false }
    ensures { OnOk result (line.new ≡ line.old
        ++ kind_fault (codes ": the name of the command is ") (items_of (tokens text.now)) wanted.now) }
{
    let mut scratch = Scratch::new(alloc);
    let mut reader = Reader::new(text, &mut scratch)?;
    pass_bracket(&mut reader);
    line.push_words(": the name of the command is ")?;
    push_kind_fault(line, &mut reader, wanted)
}

/// Appends the number of values after the word, and how many there have to be.
fn push_count_fault(
    alloc: Global,
    line: &mut Line,
    text: &str,
    found: usize,
    words: &str,
    wanted: usize,
) -> Pushed
    requires { has_line_feed words.now ≡ false }
    ensures { OnOk result
        (line.new ≡ line.old ++ count_fault (tokens text.now) found words.now wanted) }
{
    line.push_words(": the number of values")?;
    push_word(alloc, line, text)?;
    line.push_words(" is ")?;
    line.push_number(found as u64)?;
    line.push_words(words)?;
    line.push_number(wanted as u64)
}

/// Appends the value with this number after the word, and what it has to be.
fn push_value_fault(
    alloc: Global,
    line: &mut Line,
    text: &str,
    number: usize,
    wanted: &str,
) -> Pushed
    requires { has_line_feed wanted.now ≡ false }
    ensures { OnOk result
        (line.new ≡ line.old ++ value_fault (tokens text.now) number wanted.now) }
{
    line.push_words(": value ")?;
    line.push_number(number as u64)?;
    push_word(alloc, line, text)?;
    line.push_words(" is ")?;
    let mut scratch = Scratch::new(alloc);
    let mut reader = Reader::new(text, &mut scratch)?;
    pass_bracket(&mut reader);
    pass_items(&mut reader, number);
    push_kind_fault(line, &mut reader, wanted)
}

/// Appends the word of a line, if it has one.
fn push_word(alloc: Global, line: &mut Line, text: &str) -> Pushed
    ensures { OnOk result
        (line.new ≡ line.old ++ role_text (codes " of ") (word_of (tokens text.now))) }
{
    let mut scratch = Scratch::new(alloc);
    let mut reader = Reader::new(text, &mut scratch)?;
    pass_bracket(&mut reader);
    line.push_name(" of ", first_text(&mut reader))
}

/// The text that comes next, if one does.
fn first_text<'a>(reader: &mut Reader<'a>) -> Option<&'a str>
    ensures { option_map (λ text. text.now) result ≡ first_text reader.old }
{
    match reader.next() {
        Some(Token::String(text)) => Some(text),
        _ => None,
    }
}

/// Passes the bracket that opens an array. If there is none, no token follows.
fn pass_bracket(reader: &mut Reader<'_>)
    ensures { reader.new ≡ items_of reader.old }
{
    match reader.next() {
        Some(Token::BeginArray) => {}
        _ => pass_all(reader),
    }
}

/// Passes all tokens.
fn pass_all(reader: &mut Reader<'_>)
    ensures { reader.new ≡ [] }
{
    while reader.next().is_some() {}
}

/// Passes this number of items of an array. After a fault no token follows.
fn pass_items(reader: &mut Reader<'_>, number: usize)
    ensures { reader.new ≡ item_at number reader.old }
{
    for passed in 0..number {
        let _ = reader.skip_value(MAX_DEPTH);
    }
}

/// Appends the value that comes next, and what it has to be.
fn push_kind_fault(line: &mut Line, reader: &mut Reader<'_>, wanted: &str) -> Pushed
    requires { has_line_feed wanted.now ≡ false }
    ensures { OnOk result
        (line.new ≡ line.old ++ (shown_value reader.old ++ (codes "; it has to be " ++ wanted.now))) }
{
    push_shown(line, reader)?;
    line.push_words("; it has to be ")?;
    line.push_words(wanted)
}

/// Appends the value that comes next, if there is one.
fn push_shown(line: &mut Line, reader: &mut Reader<'_>) -> Pushed
    ensures { OnOk result (line.new ≡ line.old ++ shown_value reader.old) }
{
    match reader.next() {
        Some(token) => push_value(line, token),
        None => Ok(()),
    }
}

/// Appends the value that begins with this token. For an array or an object it appends only which of the
/// two it is.
fn push_value(line: &mut Line, token: Token<'_>) -> Pushed
    ensures { OnOk result (line.new ≡ line.old ++ value_text (token_of token.entry)) }
{
    match token {
        Token::BeginObject => line.push_words("an object"),
        Token::BeginArray => line.push_words("an array"),
        _ => push_token(line, token),
    }
}

/// Appends a token as it stands in a line.
fn push_token(line: &mut Line, token: Token<'_>) -> Pushed
    ensures { OnOk result (line.new ≡ line.old ++ token_text (token_of token.entry)) }
{
    match token {
        Token::BeginObject => line.push_words("{"),
        Token::EndObject => line.push_words("}"),
        Token::BeginArray => line.push_words("["),
        Token::EndArray => line.push_words("]"),
        Token::Key(text) | Token::String(text) => line.push_text(text),
        Token::Number(digits) => line.push_excerpt(digits),
        Token::Bool(true) => line.push_words("true"),
        Token::Bool(false) => line.push_words("false"),
        Token::Null => line.push_words("null"),
        Token::Bad => Ok(()),
    }
}

// ---- what isn't JSON

/// Appends why and where a line isn't JSON.
fn push_not_json(alloc: Global, line: &mut Line, bytes: &[u8]) -> Pushed
    ensures { OnOk result (line.new ≡ line.old ++ not_json_text bytes.now) }
{
    let Ok(text) = from_utf8(bytes) else {
        return line.push_words(": it isn't UTF-8");
    };
    line.push_words(": it isn't JSON; ")?;
    push_stop(alloc, line, text)
}

/// Appends where reading stops in a text that isn't JSON, and why.
fn push_stop(alloc: Global, line: &mut Line, text: &str) -> Pushed
    ensures { OnOk result (line.new ≡ line.old ++ stop_text (tokens text.now)) }
{
    let mut scratch = Scratch::new(alloc);
    let mut reader = Reader::new(text, &mut scratch)?;
    let (last, is_stopped) = last_good(&mut reader);
    if is_stopped {
        line.push_words("reading stopped ")?;
        return push_place(line, last);
    }
    let mut scratch = Scratch::new(alloc);
    let mut reader = Reader::new(text, &mut scratch)?;
    if is_value(&mut reader) {
        return line.push_words("a number in it is out of range");
    }
    line.push_words("it ends ")?;
    push_place(line, last)?;
    line.push_words(", but isn't one whole value of at most 127 levels")
}

/// The last token before the first that is none, and whether there is such a one.
fn last_good<'a>(reader: &mut Reader<'a>) -> (Option<Token<'a>>, bool)
    ensures last { option_map token_of result.0 ≡ last_good None reader.old }
    ensures stops { result.1 ≡ stops reader.old }
{
    let mut last = None;
    while let Some(token) = reader.next() {
        if is_bad(token) {
            return (last, true);
        }
        last = Some(token);
    }
    (last, false)
}

/// Whether this is no token.
fn is_bad(token: Token<'_>) -> bool
    ensures { result ≡ is_bad (token_of token.entry) }
{
    matches!(token, Token::Bad)
}

/// Whether the tokens are one value of at most 127 levels, which is as deep as `serde_json` reads.
fn is_value(reader: &mut Reader<'_>) -> bool
    ensures { result ≡ are_value reader.old }
{
    reader.skip_value(127).is_ok() && reader.next().is_none()
}

/// Appends where reading stopped.
fn push_place(line: &mut Line, last: Option<Token<'_>>) -> Pushed
    ensures { OnOk result (line.new ≡ line.old ++ place_text (option_map token_of last.entry)) }
{
    match last {
        Some(token) => {
            line.push_words("after ")?;
            push_token(line, token)
        }
        None => line.push_words("at its beginning"),
    }
}

// ---- what has to be there

/// What a value after the word has to be.
fn kind_words(kind: ValueKind) -> &'static str
    ensures text { result.now ≡ kind_words kind }
    ensures no_line_feed { has_line_feed result.now ≡ false }
{
    match kind {
        ValueKind::Name => "a text, the full name of a host or a service",
        ValueKind::Time => "a whole number of milliseconds from 0 to 2^60",
        ValueKind::Run => "a whole number, the number of a run",
        ValueKind::Code => "a whole number from 0 to 3",
        ValueKind::Switch => "true or false",
    }
}

/// The commands that a line can name.
fn vocabulary_words(vocabulary: Vocabulary) -> &'static str
    ensures text { result.now ≡ vocabulary_words vocabulary }
    ensures no_line_feed { has_line_feed result.now ≡ false }
{
    match vocabulary {
        Vocabulary::Run => {
            "\"take\", \"report\", \"abandon\", \"reschedule\", \"enable\", \"status\", \"save\" or \"list\""
        }
        Vocabulary::Drill => "\"plugin\" or \"moment\"",
    }
}
