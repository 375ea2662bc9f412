//! A `String` that contracts see as its bytes.

ghost use Rattle.std.specs.Prelude.{◌≡◌, [], ◌++◌, length, MatchResult, string_bytes, encode_utf8, IsUtf8, IsTrue, ◌↔◌};
ghost use Rattle.vx_base.specs.Answers.{Answers};

use crate::error::VortexResult;
use crate::items::Bytes;
use std::alloc::Global;
use std::marker::Model;

#[derive(Debug, Drop)]
pub struct Text {
    text: String,
}

impl Model for Text {
    ghost use Rattle.std.specs.Prelude.{List, ℕ, string_bytes};

    ghost Value = { List ℕ };

    ghost view = { λ a. string_bytes a.text };
}

impl Text {
    pub fn new_in(alloc: Global) -> Self
        ensures { result ≡ [] }
    {
        Text {
            text: String::new(alloc),
        }
    }

    pub fn from_string(text: String) -> Self
        ensures { result ≡ string_bytes text }
    {
        Text { text }
    }

    pub fn push(&mut self, item: char) -> Result<(), char>
        ensures { MatchResult result (λ _. self.new ≡ self.old ++ encode_utf8 item) (λ back. (back ≡ item) × (self.new ≡ self.old)) }
    {
        match self.text.push(item) {
            Ok(()) => Ok(()),
            Err(_) => Err(item),
        }
    }

    pub fn len(&self) -> u64
        ensures { result ≡ length self.now }
    {
        self.text.len() as u64
    }

    pub fn as_str(&self) -> &str
        ensures { result.now ≡ self.now }
    {
        self.text.as_str()
    }

    /// The bytes, which are valid UTF-8.
    pub fn into_bytes(self) -> Bytes
        ensures bytes { result ≡ self }
        ensures utf8 { IsUtf8 result }
    {
        Bytes::from_vec(self.text.into_bytes())
    }

    pub fn copy(&self, alloc: Global) -> VortexResult<Text>
        ensures { Answers result self.now }
    {
        Ok(Text {
            text: String::from_str(alloc, self.text.as_str())?,
        })
    }

    /// Whether the two texts have the same bytes.
    pub fn same(&self, other: &Text) -> bool
        ensures { IsTrue result ↔ (self.now ≡ other.now) }
    {
        self.text.as_str() == other.text.as_str()
    }
}
