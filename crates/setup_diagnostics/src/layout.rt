//! JSON text with a layout: one line per member, indented by two spaces for each object around it.

ghost use Rattle.std.specs.Prelude.{◌≡◌, ◌++◌, IfOk, OnOk, codes, decimal, string_bytes};
ghost use Rattle.json.specs.Print.{quoted};
ghost use Rattle.setup_diagnostics.specs.{Schema.ContainsText, Schema.EndsWith, Schema.number_member, Shapes.BeginsWith};

use crate::line::Pushed;
use itoa::Buffer;
use serde_json::Value;
use std::alloc::{AllocError, Global};
use std::marker::Model;

/// A JSON object that is being written, member by member. Contracts see the bytes so far.
#[derive(Drop)]
pub(crate) struct Layout {
    alloc: Global,
    text: String,
    /// The number of open objects.
    depth: usize,
    /// Whether the innermost object already has a member.
    has_member: bool,
}

impl Model for Layout {
    ghost use Rattle.std.specs.Prelude.{List, ℕ, string_bytes};

    ghost Value = { List ℕ };

    ghost view = { λ layout. string_bytes layout.text };
}

impl Layout {
    /// An object without a member yet.
    pub(crate) fn new(alloc: Global) -> Result<Layout, AllocError> {
        let mut text = String::new(alloc);
        text.push_str("{")?;
        Ok(Layout {
            alloc,
            text,
            depth: 1,
            has_member: false,
        })
    }

    /// The text, with the outermost object closed and a line feed at its end.
    pub(crate) fn into_text(self) -> Result<String, AllocError>
        ensures { IfOk result (λ text. BeginsWith self (string_bytes text)) }
    {
        let mut text = self.text;
        text.push_str("\n}\n")?;
        Ok(text)
    }

    /// Begins a line.
    fn begin_line(&mut self) -> Pushed
        ensures { OnOk result (BeginsWith self.old self.new) }
    {
        self.push_json("\n")?;
        for _ in 0..self.depth {
            self.push_json("  ")?;
        }
        Ok(())
    }

    /// Begins a member with this name.
    pub(crate) fn begin(&mut self, name: &str) -> Pushed
        ensures extends { OnOk result (BeginsWith self.old self.new) }
        ensures named { OnOk result (ContainsText (quoted name.now) self.new) }
        ensures ends { OnOk result (EndsWith (quoted name.now ++ codes ": ") self.new) }
    {
        if self.has_member {
            self.push_json(",")?;
        }
        self.has_member = true;
        self.begin_line()?;
        self.push_quoted(name)?;
        self.push_json(": ")
    }

    /// Appends JSON as it is.
    pub(crate) fn push_json(&mut self, json: &str) -> Pushed
        ensures { OnOk result (self.new ≡ self.old ++ json.now) }
    {
        self.text.push_str(json)
    }

    /// Appends a number.
    pub(crate) fn push_number(&mut self, number: u64) -> Pushed
        ensures { OnOk result (self.new ≡ self.old ++ decimal number) }
    {
        let mut buffer = Buffer::new();
        self.push_json(buffer.format(number))
    }

    /// Appends a text as a JSON string.
    pub(crate) fn push_quoted(&mut self, text: &str) -> Pushed
        ensures { OnOk result (self.new ≡ self.old ++ quoted text.now) }
    {
        let value = Value::String(String::from_str(self.alloc, text)?);
        let json = value.to_string(self.alloc)?;
        self.push_json(json.as_str())
    }

    /// A member whose value is JSON as it is.
    pub(crate) fn json(&mut self, name: &str, json: &str) -> Pushed
        ensures { OnOk result (BeginsWith self.old self.new) }
    {
        self.begin(name)?;
        self.push_json(json)
    }

    /// A member whose value is a number.
    pub(crate) fn number(&mut self, name: &str, number: u64) -> Pushed
        ensures extends { OnOk result (BeginsWith self.old self.new) }
        ensures written { OnOk result (ContainsText (number_member name.now number) self.new) }
    {
        self.begin(name)?;
        self.push_number(number)
    }

    /// A member whose value is a text.
    pub(crate) fn text(&mut self, name: &str, text: &str) -> Pushed
        ensures { OnOk result (BeginsWith self.old self.new) }
    {
        self.begin(name)?;
        self.push_quoted(text)
    }

    /// Opens a member whose value is an object.
    pub(crate) fn open(&mut self, name: &str) -> Pushed
        ensures extends { OnOk result (BeginsWith self.old self.new) }
        ensures named { OnOk result (ContainsText (quoted name.now) self.new) }
    {
        self.begin(name)?;
        self.depth = self.depth.saturating_add(1);
        self.has_member = false;
        self.push_json("{")
    }

    /// Closes the innermost object.
    pub(crate) fn close(&mut self) -> Pushed
        ensures { OnOk result (BeginsWith self.old self.new) }
    {
        self.depth = self.depth.saturating_sub(1);
        self.has_member = true;
        self.begin_line()?;
        self.push_json("}")
    }
}
