ghost use Rattle.std.specs.Prelude.{◌≡◌, ◌↔◌, IfOk, IsTrue, encode_utf8_all, string_bytes};
ghost use Rattle.std.specs.Str.{chars};

use std::alloc::{AllocError, Global};
use std::marker::Model;

/// A text that contracts see as the list of its characters.
#[derive(Debug, Drop)]
pub struct Text {
    text: String,
}

impl Model for Text {
    ghost use Rattle.std.specs.Prelude.{List, ℕ, string_bytes};
    ghost use Rattle.std.specs.Str.{chars};

    ghost Value = { List ℕ };

    ghost view = { λ t. chars (string_bytes t.text) };
}

impl Text {
    /// The text with these characters. It takes no memory.
    pub fn of(text: String) -> Text
        ensures { result ≡ chars (string_bytes text) }
    {
        Text { text }
    }

    /// The characters as a string slice.
    pub fn as_str(&self) -> &str
        ensures value { chars result.now ≡ self.now }
        ensures bytes { result.now ≡ encode_utf8_all self.now }
    {
        self.text.as_str()
    }

    /// An equal text.
    pub fn copy(&self, alloc: Global) -> Result<Text, AllocError>
        ensures { IfOk result (λ t. t ≡ self.now) }
    {
        Ok(Text {
            text: self.text.clone()?,
        })
    }

    /// Whether both have the same characters.
    pub fn same(&self, other: &Text) -> bool
        ensures { IsTrue result ↔ (self.now ≡ other.now) }
    {
        self.as_str() == other.as_str()
    }
}
