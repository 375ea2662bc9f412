//! Texts that are read where they stand and their patterns, row by row.

ghost use Rattle.std.specs.List.{list_all};
ghost use Rattle.std.specs.Prelude.{◌≡◌, IsTrue, length, map, true};
ghost use Rattle.std.specs.Str.{is_utf8};
ghost use Rattle.vx_base.specs.Answers.{Answers};
ghost use Rattle.vx_base.specs.PlainValue.{bytes};
ghost use Rattle.vx_model.specs.Refusals.{validity_length};
ghost use Rattle.vx_model.specs.Rows.{valid_rows};
ghost use Rattle.vx_rows.specs.Items.{plain_item};
ghost use Rattle.vx_rows.specs.Readable.{is_whole, lent_rows};
ghost use Rattle.vx_rows.specs.Texts.{has_text, liked_items, liked_rows};
ghost use Rattle.vx_rules.specs.Patterns.{liked};

use super::cells::{cell_liked, row_liked};
use super::room::Room;
use crate::lent::{Lent, same_bytes};
use crate::pattern::Item;
use crate::truths::{Truths, TruthsBuilder};
use std::alloc::Global;
use vx_base::{ByteRows, Mask, VortexResult};
use vx_flat::view_at;
use vx_rules::LikeOptions;
use vx_values::copy_validity;

/// Whether each text matches the pattern of its row. One pattern for all rows is read once.
pub(super) fn liked_rows(
    alloc: Global,
    texts: Lent<'_>,
    patterns: Lent<'_>,
    options: LikeOptions,
) -> VortexResult<Truths>
    requires texts { IsTrue (is_whole texts) }
    requires patterns { IsTrue (is_whole patterns) }
    requires lengths { length (lent_rows texts) ≡ length (lent_rows patterns) }
    requires utf8 { IsTrue (list_all has_text (lent_rows texts)) }
    requires utf8_patterns { IsTrue (list_all has_text (lent_rows patterns)) }
    ensures { Answers result (liked_rows options (lent_rows texts.entry) (lent_rows patterns.entry)) }
{
    // Without rows nothing says that the bytes of a constant are a text.
    if texts.len() == 0 {
        return Ok(TruthsBuilder::nulls(alloc, 0)?.finish());
    }
    match same_bytes(patterns) {
        Some(pattern) => liked_by_one(alloc, texts, pattern, options),
        None => liked_by_each(alloc, texts, patterns, options),
    }
}

// Whether each text matches one pattern.
fn liked_by_one(
    alloc: Global,
    texts: Lent<'_>,
    pattern: &[u8],
    options: LikeOptions,
) -> VortexResult<Truths>
    requires texts { IsTrue (is_whole texts) }
    requires utf8 { IsTrue (list_all has_text (lent_rows texts)) }
    requires utf8_pattern { IsTrue (is_utf8 pattern.now) }
    ensures { Answers result (map (λ v. liked options v (bytes pattern.now)) (lent_rows texts.entry)) }
{
    let mut room = Room::new(alloc);
    let mut items = Vec::new(alloc);
    room.read_items(pattern, &mut items)?;
    match texts {
        Lent::Bytes(rows, valid) => {
            stored_liked(alloc, &mut room, rows, valid, items.as_slice(), options)
        }
        _ => cells_liked(alloc, &mut room, texts, items.as_slice(), options),
    }
}

// Whether each stored text matches the items of a pattern. The bit beneath a null is false, and not seen.
fn stored_liked(
    alloc: Global,
    room: &mut Room,
    rows: &ByteRows,
    valid: &Option<Mask>,
    items: &[Item],
    options: LikeOptions,
) -> VortexResult<Truths>
    requires whole { validity_length valid.now (length rows.now) ≡ true }
    requires utf8 { IsTrue (list_all has_text (valid_rows valid.now (map bytes rows.now))) }
    ensures { Answers result (map (λ v. liked_items options v (map plain_item items.now)) (valid_rows valid.now (map bytes rows.now))) }
{
    let mut bits = vec![in alloc; false; rows.len() as usize]?;
    for row in 0..rows.len() {
        let found = cell_liked(room, view_at(rows, valid, row), items, options)?;
        bits[row as usize] = found.unwrap_or(false);
    }
    let valid = copy_validity(alloc, valid)?;
    Ok(Truths::new(Mask::from_bits(bits), valid))
}

// Whether each text matches the items of a pattern.
fn cells_liked(
    alloc: Global,
    room: &mut Room,
    texts: Lent<'_>,
    items: &[Item],
    options: LikeOptions,
) -> VortexResult<Truths>
    requires texts { IsTrue (is_whole texts) }
    requires utf8 { IsTrue (list_all has_text (lent_rows texts)) }
    ensures { Answers result (map (λ v. liked_items options v (map plain_item items.now)) (lent_rows texts.entry)) }
{
    let mut truths = TruthsBuilder::nulls(alloc, texts.len())?;
    for row in 0..texts.len() {
        let answer = cell_liked(room, texts.cell(row), items, options)?;
        truths.set(row, answer);
    }
    Ok(truths.finish())
}

// Whether each text matches the pattern of its row.
fn liked_by_each(
    alloc: Global,
    texts: Lent<'_>,
    patterns: Lent<'_>,
    options: LikeOptions,
) -> VortexResult<Truths>
    requires texts { IsTrue (is_whole texts) }
    requires patterns { IsTrue (is_whole patterns) }
    requires lengths { length (lent_rows texts) ≡ length (lent_rows patterns) }
    requires utf8 { IsTrue (list_all has_text (lent_rows texts)) }
    requires utf8_patterns { IsTrue (list_all has_text (lent_rows patterns)) }
    ensures { Answers result (liked_rows options (lent_rows texts.entry) (lent_rows patterns.entry)) }
{
    let mut room = Room::new(alloc);
    let mut items = Vec::new(alloc);
    let mut truths = TruthsBuilder::nulls(alloc, texts.len())?;
    for row in 0..texts.len() {
        let answer = row_liked(
            &mut room,
            &mut items,
            texts.cell(row),
            patterns.cell(row),
            options,
        )?;
        truths.set(row, answer);
    }
    Ok(truths.finish())
}
