//! Patterns of `like`, and their items.

ghost use Rattle.std.specs.Prelude.{◌≡◌, ◌++◌, ◌∷◌, ℕ, List, map};
ghost use Rattle.vx_base.specs.Answers.{OrMemory};
ghost use Rattle.vx_rows.specs.Items.{left_items, plain_item};
ghost use Rattle.vx_rules.specs.Patterns.{item_of, pattern_items};

use vx_base::VortexResult;

/// What an item of a pattern stands for.
#[derive(Clone, Copy)]
pub(crate) enum Item {
    /// Any characters.
    AnyRun,
    /// Any one character.
    AnyChar,
    /// This character.
    Exactly(char),
}

/// Puts the items of a pattern in the place of those before. Behind a backslash a character stands for itself, as does a backslash at
/// the end.
pub(crate) fn read_pattern(pattern: &[char], items: &mut Vec<Item>) -> VortexResult<()>
    ensures { OrMemory result (λ _. map plain_item items.new.items ≡ pattern_items pattern.now) }
{
    items.clear();
    let mut is_escaped = false;
    for place in 0..pattern.len() {
        is_escaped = put_item(items, is_escaped, pattern[place])?;
    }
    if is_escaped {
        items.push(Item::Exactly('\\'))?;
    }
    Ok(())
}

// Appends the item of a character, unless that is a backslash which the next character is behind. Answers whether it is.
fn put_item(items: &mut Vec<Item>, is_escaped: bool, found: char) -> VortexResult<bool>
    ensures { OrMemory result (λ escapes. (cs : List ℕ) → map plain_item items.new.items ++ left_items escapes cs ≡ map plain_item items.old.items ++ left_items is_escaped (found ∷ cs)) }
{
    if is_escaped {
        items.push(Item::Exactly(found))?;
        return Ok(false);
    }
    if found == '\\' {
        return Ok(true);
    }
    items.push(item_of(found))?;
    Ok(false)
}

// The item that a character is without a backslash before it.
fn item_of(found: char) -> Item
    ensures { plain_item result ≡ item_of found }
{
    match found {
        '%' => Item::AnyRun,
        '_' => Item::AnyChar,
        other => Item::Exactly(other),
    }
}
