//! A text and a pattern.

ghost use Rattle.std.specs.Prelude.{◌≡◌, IsTrue, map};
ghost use Rattle.vx_base.specs.Answers.{OrMemory};
ghost use Rattle.vx_base.specs.CellValue.{cell_value};
ghost use Rattle.vx_rows.specs.Items.{plain_item};
ghost use Rattle.vx_rows.specs.Texts.{has_text, liked_items};
ghost use Rattle.vx_rows.specs.Truths.{truth_or_null};
ghost use Rattle.vx_rules.specs.Patterns.{liked};

use super::room::Room;
use crate::pattern::Item;
use vx_base::{Cell, VortexResult};
use vx_rules::LikeOptions;

/// Whether a text matches a pattern, None where either is null. `items` is room for those of the pattern.
pub(super) fn row_liked(
    room: &mut Room,
    items: &mut Vec<Item>,
    text: Cell<'_>,
    pattern: Cell<'_>,
    options: LikeOptions,
) -> VortexResult<Option<bool>>
    requires text { IsTrue (has_text (cell_value text)) }
    requires pattern { IsTrue (has_text (cell_value pattern)) }
    ensures { OrMemory result (λ found. truth_or_null found ≡ liked options (cell_value text.entry) (cell_value pattern.entry)) }
{
    if pattern.is_null() {
        return Ok(None);
    }
    room.read_items(pattern.bytes(), items)?;
    cell_liked(room, text, items.as_slice(), options)
}

/// Whether a text matches the items of a pattern, None where it is null.
#[inline(always)]
pub(super) fn cell_liked(
    room: &mut Room,
    text: Cell<'_>,
    items: &[Item],
    options: LikeOptions,
) -> VortexResult<Option<bool>>
    requires { IsTrue (has_text (cell_value text)) }
    ensures { OrMemory result (λ found. truth_or_null found ≡ liked_items options (cell_value text.entry) (map plain_item items.now)) }
{
    if text.is_null() {
        return Ok(None);
    }
    let found = room.text_matches(text.bytes(), items)?;
    let answer = if options.negated { !found } else { found };
    Ok(Some(answer))
}
