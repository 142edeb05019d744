//! A line of text that grows, and never contains a line feed.

ghost use Rattle.std.specs.Prelude.{◌≡◌, ◌≢◌, ◌<◌, ◌++◌, ◌∷◌, false, [], OnOk, decimal, option_map, string_bytes};
ghost use Rattle.std.specs.Char.{digit_char, encode_utf8};
ghost use Rattle.setup_diagnostics.specs.Places.{role_text};
ghost use Rattle.setup_diagnostics.specs.Feeds.{has_line_feed, HasNoLineFeed};
ghost use Rattle.setup_diagnostics.specs.Excerpts.{excerpt, control_escape, escape, quotation};

use itoa::Buffer;
use std::alloc::{AllocError, Global};
use std::marker::Model;

/// The number of characters of a document's text that are shown.
const MAX_EXCERPT_CHARS: usize = 80;

/// The outcome of appending to a text. An Err means out of memory, and a part may have been appended.
pub type Pushed = Result<(), AllocError>;

/// A line of text without a line feed. Contracts see its bytes.
#[derive(Drop)]
pub struct Line {
    text: String,
}

impl Model for Line {
    ghost use Rattle.std.specs.Prelude.{List, ℕ, string_bytes};
    ghost use Rattle.setup_diagnostics.specs.Feeds.{HasNoLineFeed};

    ghost Value = { List ℕ };

    ghost view = { λ line. string_bytes line.text };

    ghost invariant = { λ line. HasNoLineFeed (string_bytes line.text) };
}

impl Line {
    /// An empty line.
    pub fn new(alloc: Global) -> Line
        ensures { result ≡ [] }
    {
        Line {
            text: String::new(alloc),
        }
    }

    /// The text of the line.
    pub fn into_text(self) -> String
        ensures text { string_bytes result ≡ self }
        ensures line { HasNoLineFeed (string_bytes result) }
    {
        self.text
    }

    /// Appends words without a line feed.
    pub fn push_words(&mut self, words: &str) -> Pushed
        requires { has_line_feed words.now ≡ false }
        ensures text { OnOk result (self.new ≡ self.old ++ words.now) }
    {
        self.text.push_str(words)
    }

    /// Appends a character that isn't a line feed.
    fn push_char(&mut self, character: char) -> Pushed
        requires { character ≢ 10 }
        ensures text { OnOk result (self.new ≡ self.old ++ encode_utf8 character) }
    {
        self.text.push(character)
    }

    /// Appends a number in decimal.
    #[tactic(auto, using(crate::proofs::FeedLemmas::number_flat))]
    pub fn push_number(&mut self, number: u64) -> Pushed
        ensures text { OnOk result (self.new ≡ self.old ++ decimal number) }
    {
        let mut buffer = Buffer::new();
        self.push_words(buffer.format(number))
    }

    /// Appends a text of the document as a JSON string, cut after 80 characters.
    pub fn push_text(&mut self, text: &str) -> Pushed
        ensures text { OnOk result (self.new ≡ self.old ++ quotation text.now) }
    {
        self.push_words("\"")?;
        self.push_excerpt(text)?;
        self.push_words("\"")
    }

    /// Appends the role of a name, and the name, if there is one.
    pub fn push_name(&mut self, role: &str, name: Option<&str>) -> Pushed
        requires { has_line_feed role.now ≡ false }
        ensures text { OnOk result (self.new
            ≡ self.old ++ role_text role.now (option_map (λ name. name.now) name.entry)) }
    {
        match name {
            Some(name) => {
                self.push_words(role)?;
                self.push_text(name)
            }
            None => Ok(()),
        }
    }

    /// Appends a text, escaped as in a JSON string. If it has more than 80 characters, dots replace the rest.
    pub fn push_excerpt(&mut self, text: &str) -> Pushed
        ensures text { OnOk result (self.new ≡ self.old ++ excerpt text.now) }
    {
        let mut left = text.chars();
        for shown in 0..MAX_EXCERPT_CHARS {
            match left.next() {
                Some(character) => self.push_escaped(character)?,
                None => return Ok(()),
            }
        }
        match left.next() {
            Some(_) => self.push_words("..."),
            None => Ok(()),
        }
    }

    /// Appends a character, escaped as in a JSON string. A control character is written as its number.
    fn push_escaped(&mut self, character: char) -> Pushed
        ensures text { OnOk result (self.new ≡ self.old ++ escape character) }
    {
        match character {
            '"' => self.push_words("\\\""),
            '\\' => self.push_words("\\\\"),
            '\n' => self.push_words("\\n"),
            '\r' => self.push_words("\\r"),
            '\t' => self.push_words("\\t"),
            '\0'..='\u{1f}' | '\u{7f}'..='\u{9f}' => self.push_code(character as u32),
            _ => self.push_char(character),
        }
    }

    /// Appends the escape of the control character with this number.
    fn push_code(&mut self, code: u32) -> Pushed
        requires { code < 256 }
        ensures text { OnOk result (self.new ≡ self.old ++ control_escape code) }
    {
        self.push_words("\\u00")?;
        self.push_digit(code / 16)?;
        self.push_digit(code % 16)
    }

    /// Appends a hexadecimal digit.
    fn push_digit(&mut self, digit: u32) -> Pushed
        requires { digit < 16 }
        ensures text { OnOk result (self.new ≡ self.old ++ (digit_char digit ∷ [])) }
    {
        match char::from_digit(digit, 16) {
            Some(character) => self.push_char(character),
            None => Ok(()),
        }
    }
}
