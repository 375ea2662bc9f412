//! The room that the matches of one column share.

ghost use Rattle.std.specs.Prelude.{◌≡◌, ◌++◌, IsTrue, map};
ghost use Rattle.std.specs.Result.{OnOk};
ghost use Rattle.std.specs.Str.{chars, is_utf8};
ghost use Rattle.vx_base.specs.Answers.{Answers, OrMemory};
ghost use Rattle.vx_rows.specs.Items.{plain_item};
ghost use Rattle.vx_rules.specs.Patterns.{matches, pattern_items};

use crate::pattern::{Item, read_pattern};
use crate::searching::matches;
use std::alloc::{AllocError, Global};
use vx_base::VortexResult;

/// The characters of a text that isn't ASCII, or of a pattern. They grow to the longest text of a column and are reused from row to
/// row: made anew they would cost two allocations in each such row.
#[derive(Drop)]
pub(super) struct Room {
    chars: Vec<char>,
}

impl Room {
    pub(super) fn new(alloc: Global) -> Room {
        Room {
            chars: Vec::new(alloc),
        }
    }

    /// Puts the items of a pattern in the place of those before.
    pub(super) fn read_items(&mut self, pattern: &[u8], items: &mut Vec<Item>) -> VortexResult<()>
        requires { IsTrue (is_utf8 pattern.now) }
        ensures { OrMemory result (λ _. map plain_item items.new.items ≡ pattern_items (chars pattern.now)) }
    {
        read_characters(pattern, &mut self.chars)?;
        read_pattern(self.chars.as_slice(), items)
    }

    /// Whether a text matches items. Only one with a character beyond ASCII is decoded.
    #[tactic(auto, using(crate::proofs::SearchLemmas::codes_same))]
    pub(super) fn text_matches(&mut self, text: &[u8], items: &[Item]) -> VortexResult<bool>
        requires { IsTrue (is_utf8 text.now) }
        ensures { Answers result (matches (map plain_item items.now) (chars text.now)) }
    {
        if text.is_ascii() {
            return Ok(matches(items, text));
        }
        read_characters(text, &mut self.chars)?;
        Ok(matches(items, self.chars.as_slice()))
    }
}

// Puts the characters of a text in the place of those before.
fn read_characters(bytes: &[u8], characters: &mut Vec<char>) -> VortexResult<()>
    requires { IsTrue (is_utf8 bytes.now) }
    ensures { OrMemory result (λ _. characters.new.items ≡ chars bytes.now) }
{
    characters.clear();
    match std::str::from_utf8(bytes) {
        Ok(text) => Ok(append_characters(text, characters)?),
        Err(_) => unreachable!(),
    }
}

// Appends the characters of a text.
fn append_characters(text: &str, characters: &mut Vec<char>) -> Result<(), AllocError>
    ensures { OnOk result (characters.new.items ≡ characters.old.items ++ chars text.now) }
{
    characters.extend(text.chars())
}
