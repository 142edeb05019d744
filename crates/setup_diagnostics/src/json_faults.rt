//! Faults of a document that isn't JSON: the mistake where reading stops, and what to do about it.

ghost use Rattle.std.specs.Prelude.{◌≡◌, ◌++◌, ◌==◌, ◌<◌, OnOk, IfOk, IfSome, codes, false, is_some, length, not, option_map};
ghost use Rattle.std.specs.List.{list_all, position};
ghost use Rattle.std.specs.Str.{is_utf8};
ghost use Rattle.json.specs.Lex.{tokens};
ghost use Rattle.setup_reader.specs.JsonTree.{tree_of};
ghost use Rattle.setup_diagnostics.specs.Feeds.{has_line_feed};
ghost use Rattle.setup_diagnostics.specs.JsonFaults.{after_feeds, after_index, around, before_index, before_rest, begins_bad, begins_value, ends_value};
ghost use Rattle.setup_diagnostics.specs.JsonFaults.{first_byte, foreign_byte_text, is_blank, is_close, is_inside_word, is_open, is_unreadable};
ghost use Rattle.setup_diagnostics.specs.JsonFaults.{is_word_part, last_byte, missing_between, mistake_at, mistake_in, mistake_in_text};
ghost use Rattle.setup_diagnostics.specs.JsonFaults.{mistake_read, mistake_text, reason_text, rest_at, shown, start_of, text_in, trimmed, unreadable};

use crate::line::{Line, Pushed};
use json::{Reader, Scratch, Token};
use setup_model::{Fault, JsonPosition};
use setup_reader::read_tree;
use std::alloc::{AllocError, Global};
use std::str::from_utf8;

/// The bytes of a byte order mark in UTF-8.
const BYTE_ORDER_MARK: [u8; 3] = [239, 187, 191];

/// The mistake where reading stops, as far as the bytes there show it.
#[derive(Clone, Copy, Debug, PartialEq, Eq)]
pub(crate) enum Mistake {
    /// The document has nothing but blanks.
    Empty,
    /// The document ends before its JSON does.
    End,
    /// A byte that isn't UTF-8, or the byte 0, as in UTF-16.
    ForeignByte,
    /// A byte order mark.
    Mark,
    /// A comma before what closes an array or an object.
    TrailingComma,
    /// Something after a whole document.
    Surplus,
    /// A text that can't be read.
    Text,
    /// What may begin a comment.
    Comment,
    /// A word or a number that JSON doesn't have.
    Word,
    /// Two values, or a name and a value, with no comma or colon between them.
    Separator,
    /// Anything else.
    Other,
}

/// Appends why a document isn't JSON, by its bytes and the position at which reading stops.
pub(crate) fn push_json_fault(
    alloc: Global,
    line: &mut Line,
    bytes: &[u8],
    position: JsonPosition,
) -> Pushed
    ensures { OnOk result (line.new ≡ line.old ++ reason_text bytes.now position) }
{
    let rest = rest_at(bytes, position);
    let mistake = mistake_in(alloc, bytes, position)?;
    push_mistake(line, mistake, rest)
}

// ---- the position

/// The bytes from a position on.
fn rest_at(bytes: &[u8], position: JsonPosition) -> &[u8]
    ensures { result.now ≡ rest_at bytes.now position }
{
    let line = after_feeds(bytes, position.line.saturating_sub(1));
    line.get(position.column.saturating_sub(1)..).unwrap_or(&[])
}

/// The bytes after this number of line feeds.
fn after_feeds(bytes: &[u8], feeds: usize) -> &[u8]
    ensures { result.now ≡ after_feeds feeds bytes.now }
{
    let mut rest = bytes;
    for passed in 0..feeds {
        rest = after_feed(rest);
    }
    rest
}

/// The bytes after the first line feed.
fn after_feed(bytes: &[u8]) -> &[u8]
    ensures { result.now ≡ after_index (position (λ b. b == 10) bytes.now) bytes.now }
{
    match feed_index(bytes) {
        Some(index) => &bytes[index + 1..],
        None => &[],
    }
}

/// The index of the first line feed.
fn feed_index(bytes: &[u8]) -> Option<usize>
    ensures index { result ≡ position (λ b. b == 10) bytes.now }
    ensures within { IfSome result (λ index. index < length bytes.now) }
{
    bytes.iter().position(|byte| *byte == b'\n')
}

/// The bytes before these last ones.
fn before_rest<'a>(bytes: &'a [u8], rest: &[u8]) -> &'a [u8]
    ensures { result.now ≡ before_rest bytes.now rest.now }
{
    let count = bytes.len().saturating_sub(rest.len());
    &bytes[..count]
}

// ---- the mistake there

/// The mistake in a document, by the position at which reading stops.
fn mistake_in(alloc: Global, bytes: &[u8], position: JsonPosition) -> Result<Mistake, AllocError>
    ensures { IfOk result (λ mistake. mistake ≡ mistake_in bytes.now position) }
{
    if is_text(bytes) {
        return mistake_in_text(alloc, bytes, position);
    }
    Ok(Mistake::ForeignByte)
}

/// The mistake in a document in UTF-8.
fn mistake_in_text(
    alloc: Global,
    bytes: &[u8],
    position: JsonPosition,
) -> Result<Mistake, AllocError>
    ensures { IfOk result (λ mistake. mistake ≡ mistake_in_text bytes.now position) }
{
    if is_empty(bytes) {
        return Ok(Mistake::Empty);
    }
    if position.is_at_end {
        return Ok(Mistake::End);
    }
    let rest = rest_at(bytes, position);
    mistake_at(alloc, before_rest(bytes, rest), rest)
}

/// Whether the bytes are blanks.
fn is_empty(bytes: &[u8]) -> bool
    ensures { result ≡ list_all is_blank bytes.now }
{
    bytes.iter().all(|byte| is_blank(*byte))
}

/// The mistake between the bytes before the position and the rest.
fn mistake_at(alloc: Global, before: &[u8], rest: &[u8]) -> Result<Mistake, AllocError>
    ensures { IfOk result (λ mistake. mistake ≡ mistake_at before.now rest.now) }
{
    let (last, first) = (last_byte(trimmed(before)), first_byte(rest));
    if first == 0 {
        return Ok(Mistake::ForeignByte);
    }
    if rest.starts_with(&BYTE_ORDER_MARK) {
        return Ok(Mistake::Mark);
    }
    if last == b',' && is_close(first) {
        return Ok(Mistake::TrailingComma);
    }
    mistake_read(alloc, before, rest)
}

/// The mistake there if the bytes alone don't show it.
fn mistake_read(alloc: Global, before: &[u8], rest: &[u8]) -> Result<Mistake, AllocError>
    ensures { IfOk result (λ mistake. mistake ≡ mistake_read before.now rest.now) }
{
    if is_inside_word(before, rest) {
        return Ok(Mistake::Other);
    }
    if is_whole(alloc, before)? {
        return Ok(Mistake::Surplus);
    }
    if is_unreadable(alloc, text_of(rest))? {
        return Ok(unreadable(first_byte(rest)));
    }
    Ok(missing_between(last_byte(trimmed(before)), first_byte(rest)))
}

/// Whether the position is inside a word or a number.
fn is_inside_word(before: &[u8], rest: &[u8]) -> bool
    ensures { result ≡ is_inside_word before.now rest.now }
{
    is_word_part(last_byte(before)) && is_word_part(first_byte(rest))
}

/// Whether the bytes are a whole document.
fn is_whole(alloc: Global, bytes: &[u8]) -> Result<bool, AllocError>
    ensures { IfOk result (λ whole. whole ≡ is_some (tree_of bytes.now)) }
{
    match read_tree(alloc, bytes) {
        Ok(_) => Ok(true),
        Err(Fault::Memory) => Err(AllocError),
        Err(_) => Ok(false),
    }
}

/// Whether there is a text, and no token can be read at its front.
fn is_unreadable(alloc: Global, text: Option<&str>) -> Result<bool, AllocError>
    ensures { IfOk result (λ bad. bad
        ≡ is_unreadable (option_map (λ text. text.now) text.entry)) }
{
    match text {
        Some(text) => is_bad_start(alloc, text),
        None => Ok(false),
    }
}

/// Whether no token can be read at the front of a text.
fn is_bad_start(alloc: Global, text: &str) -> Result<bool, AllocError>
    ensures { IfOk result (λ bad. bad ≡ begins_bad (tokens text.now)) }
{
    let mut scratch = Scratch::new(alloc);
    let mut reader = Reader::new(text, &mut scratch)?;
    Ok(begins_bad(&mut reader))
}

/// Whether the next token is none.
fn begins_bad(reader: &mut Reader<'_>) -> bool
    ensures { result ≡ begins_bad reader.old }
{
    matches!(reader.next(), Some(Token::Bad))
}

/// What is missing before a value or a name that can be read, by the last byte before it and its first.
fn missing_between(last: u8, first: u8) -> Mistake
    ensures { result ≡ missing_between last first }
{
    if ends_value(last) && begins_value(first) {
        Mistake::Separator
    } else {
        Mistake::Other
    }
}

/// What is unreadable and begins with this byte.
fn unreadable(first: u8) -> Mistake
    ensures { result ≡ unreadable first }
{
    match first {
        b'"' => Mistake::Text,
        b'#' | b'/' => Mistake::Comment,
        _ if is_word_part(first) => Mistake::Word,
        _ => Mistake::Other,
    }
}

// ---- the words

/// Appends the mistake where the rest begins, and what to do about it.
fn push_mistake(line: &mut Line, mistake: Mistake, rest: &[u8]) -> Pushed
    ensures { OnOk result (line.new ≡ line.old ++ mistake_text mistake rest.now) }
{
    match mistake {
        Mistake::Empty => { line.push_words(": the document is empty; it has to be an object") }
        Mistake::End => { line.push_words(": the document ends before its JSON does; complete it") }
        Mistake::ForeignByte => push_foreign_byte(line, rest),
        Mistake::Mark => line.push_words(
            ": this is a byte order mark; save the document as UTF-8 without one",
        ),
        Mistake::TrailingComma => {
            push_around(line, ": there is a comma before ", rest, "; remove it")
        }
        Mistake::Surplus => {
            push_around(
                line,
                ": the JSON ends before ",
                rest,
                "; remove what follows",
            )
        }
        Mistake::Text => line.push_words(
            ": the text that begins here can't be read; close it on its line, and escape control characters and \"\\\" in it",
        ),
        Mistake::Comment => push_around(
            line,
            ": ",
            rest,
            " is neither a number nor true, false or null; JSON has no comments, so remove it",
        ),
        Mistake::Word => push_around(
            line,
            ": ",
            rest,
            " is neither a number nor true, false or null; put names and texts between double quotes",
        ),
        Mistake::Separator => {
            push_around(line, ": a comma or a colon is missing before ", rest, "")
        }
        Mistake::Other => push_around(
            line,
            ": reading stopped at ",
            rest,
            "; correct this or what is before it",
        ),
    }
}

/// Appends that the first byte isn't allowed.
fn push_foreign_byte(line: &mut Line, rest: &[u8]) -> Pushed
    ensures { OnOk result (line.new ≡ line.old ++ foreign_byte_text rest.now) }
{
    line.push_words(": the byte ")?;
    line.push_number(first_byte(rest) as u64)?;
    line.push_words(" isn't allowed here; save the document as UTF-8")
}

/// Appends these words around the front of the rest.
fn push_around(line: &mut Line, front: &str, rest: &[u8], back: &str) -> Pushed
    requires front { has_line_feed front.now ≡ false }
    requires back { has_line_feed back.now ≡ false }
    ensures { OnOk result (line.new ≡ line.old ++ around front.now rest.now back.now) }
{
    line.push_words(front)?;
    push_shown(line, text_of(start_of(rest)), first_byte(rest))?;
    line.push_words(back)
}

/// Appends a text as a JSON string. Bytes that aren't UTF-8 are shown by the number of the first.
fn push_shown(line: &mut Line, text: Option<&str>, first: u8) -> Pushed
    ensures { OnOk result
        (line.new ≡ line.old ++ shown (option_map (λ text. text.now) text.entry) first) }
{
    match text {
        Some(text) => line.push_text(text),
        None => {
            line.push_words("the byte ")?;
            line.push_number(first as u64)
        }
    }
}

/// The number or the word at the front of these bytes, or the first byte if there is none.
fn start_of(rest: &[u8]) -> &[u8]
    ensures { result.now ≡ start_of rest.now }
{
    if is_word_part(first_byte(rest)) {
        return word_of(rest);
    }
    &rest[..rest.len().min(1)]
}

/// The bytes before the first that ends a word.
fn word_of(rest: &[u8]) -> &[u8]
    ensures { result.now ≡ before_index (position (λ b. not (is_word_part b)) rest.now) rest.now }
{
    match word_end(rest) {
        Some(index) => &rest[..index],
        None => rest,
    }
}

/// The index of the first byte that ends a word.
fn word_end(rest: &[u8]) -> Option<usize>
    ensures index { result ≡ position (λ b. not (is_word_part b)) rest.now }
    ensures within { IfSome result (λ index. index < length rest.now) }
{
    rest.iter().position(|byte| !is_word_part(*byte))
}

// ---- bytes

/// Whether a byte is a blank of JSON.
fn is_blank(byte: u8) -> bool
    ensures { result ≡ is_blank byte }
{
    byte == b' ' || byte == b'\t' || byte == b'\n' || byte == b'\r'
}

/// Whether a byte closes an array or an object.
fn is_close(byte: u8) -> bool
    ensures { result ≡ is_close byte }
{
    byte == b']' || byte == b'}'
}

/// Whether a byte opens an array or an object.
fn is_open(byte: u8) -> bool
    ensures { result ≡ is_open byte }
{
    byte == b'[' || byte == b'{'
}

/// Whether a byte can be part of a number or of a word.
fn is_word_part(byte: u8) -> bool
    ensures { result ≡ is_word_part byte }
{
    let is_other = byte == b',' || byte == b':' || byte == b'"';
    !(is_blank(byte) || is_close(byte) || is_open(byte) || is_other)
}

/// Whether a value or a name can end with a byte.
fn ends_value(byte: u8) -> bool
    ensures { result ≡ ends_value byte }
{
    is_word_part(byte) || is_close(byte) || byte == b'"'
}

/// Whether a value or a name can begin with a byte.
fn begins_value(byte: u8) -> bool
    ensures { result ≡ begins_value byte }
{
    is_word_part(byte) || is_open(byte) || byte == b'"'
}

/// The first byte, or a space if there is none.
fn first_byte(bytes: &[u8]) -> u8
    ensures { result ≡ first_byte bytes.now }
{
    match bytes.first() {
        Some(byte) => *byte,
        None => b' ',
    }
}

/// The last byte, or a space if there is none.
fn last_byte(bytes: &[u8]) -> u8
    ensures { result ≡ last_byte bytes.now }
{
    match bytes.last() {
        Some(byte) => *byte,
        None => b' ',
    }
}

/// The bytes without the white space at their end.
fn trimmed(bytes: &[u8]) -> &[u8]
    ensures { result.now ≡ trimmed bytes.now }
{
    bytes.trim_ascii_end()
}

/// Whether the bytes are UTF-8.
#[tactic(auto, using(crate::proofs::JsonLemmas::is_text, crate::proofs::JsonLemmas::is_no_text))]
fn is_text(bytes: &[u8]) -> bool
    ensures { result ≡ is_utf8 bytes.now }
{
    match from_utf8(bytes) {
        Ok(_) => true,
        Err(_) => false,
    }
}

/// The text that the bytes are, if they are UTF-8.
#[tactic(auto, using(crate::proofs::JsonLemmas::some_text, crate::proofs::JsonLemmas::no_text))]
fn text_of(bytes: &[u8]) -> Option<&str>
    ensures { option_map (λ text. text.now) result ≡ text_in bytes.now }
{
    match from_utf8(bytes) {
        Ok(text) => Some(text),
        Err(_) => None,
    }
}
