//! Rows of trees as JSON. Each is written where it stands, with no value made of it: a row of lists may have as many items as
//! its tree, and is cut off where the text is over.

ghost use Rattle.std.specs.List.{list_all};
ghost use Rattle.std.specs.Prelude.{◌≡◌, ◌<◌, ◌≤◌, ◌+◌, ◌*◌, IsTrue, OnOk, [], ◌++◌, codes, length, nat_lt};
ghost use Rattle.vx_base.specs.PlainType.{is_integer};
ghost use Rattle.vx_base.specs.TypeText.{value_text};
ghost use Rattle.vx_document.specs.CappedText.{put};
ghost use Rattle.vx_document.specs.RowText.{or_null, part_text, row_text, rows_text};
ghost use Rattle.vx_model.specs.Rows.{offset_at, patched, rows};
ghost use Rattle.vx_model.specs.TreeType.{tree_type};
ghost use Rattle.vx_model.specs.WellFormed.{are_offsets};

use crate::writing::capped_text::CappedText;
use crate::writing::cells::{push_cell, push_scalar};
use crate::writing::reads::{counted, offset_at, patch_place};
use std::alloc::{AllocError, Global};
use vx_array::{ArrayRef, Arrays, Node, Patches};
use vx_base::{Mask, Scalar};
use vx_values::is_valid;

// Appends a row.
#[cycle(rows)]
fn push_row(
    alloc: Global,
    text: &mut CappedText,
    tree: &ArrayRef,
    row: u64,
) -> Result<(), AllocError>
    requires in_range { row < length (rows tree.now) }
    ensures { OnOk result (text.new ≡ put text.old (row_text tree.now row)) }
{
    tree.known();
    if tree.dtype().is_flat() {
        return push_cell(alloc, text, tree.dtype(), tree.cell_at(row));
    }
    match tree.node() {
        Node::Null(_) => text.push("null"),
        Node::Constant(scalar, _) => push_scalar(alloc, text, scalar),
        Node::Struct(_, fields, _, valid, _) => push_struct(alloc, text, fields, valid, row),
        Node::List(elements, offsets, valid, _) => {
            push_list(alloc, text, &elements.array, &offsets.array, valid, row)
        }
        Node::FixedSizeList(elements, size, _, valid, _) => {
            push_fixed(alloc, text, &elements.array, *size, valid, row)
        }
        Node::Sparse(patches, fill) => push_patched(alloc, text, patches, fill, row),
        _ => unreachable!(),
    }
}

// Appends a struct: the row of each field, null where the row isn't valid.
#[cycle(rows)]
fn push_struct(
    alloc: Global,
    text: &mut CappedText,
    fields: &Arrays,
    valid: &Option<Mask>,
    row: u64,
) -> Result<(), AllocError>
    requires { IsTrue (list_all (λ t. nat_lt row (length (rows t))) fields.now) }
    ensures { OnOk result (text.new ≡ put text.old (or_null valid.now row (codes "[" ++ rows_text [] fields.now row ++ codes "]"))) }
{
    if !is_valid(valid, row) {
        return text.push("null");
    }
    text.push("[")?;
    let mut before = "";
    for field in fields.as_slice() {
        text.push(before)?;
        push_row(alloc, text, field, row)?;
        before = ",";
    }
    text.push("]")
}

// Appends a list: the elements from the row's offset to the next one, null where the row isn't valid.
#[cycle(rows)]
fn push_list(
    alloc: Global,
    text: &mut CappedText,
    elements: &ArrayRef,
    offsets: &ArrayRef,
    valid: &Option<Mask>,
    row: u64,
) -> Result<(), AllocError>
    requires integers { IsTrue (is_integer (tree_type offsets.now)) }
    requires in_range { row + 1 < length (rows offsets.now) }
    requires ends { IsTrue (are_offsets (length (rows elements.now)) (rows offsets.now)) }
    ensures { OnOk result (text.new ≡ put text.old (or_null valid.now row (part_text elements.now (offset_at (rows offsets.now) row) (offset_at (rows offsets.now) (row + 1))))) }
{
    if !is_valid(valid, row) {
        return text.push("null");
    }
    counted(elements);
    counted(offsets);
    let start = offset_at(offsets, row);
    let end = offset_at(offsets, row + 1);
    push_part(alloc, text, elements, start as u64, end as u64)
}

// Appends a fixed-size list: elements `row * size .. (row + 1) * size`, null where the row isn't valid.
#[cycle(rows)]
fn push_fixed(
    alloc: Global,
    text: &mut CappedText,
    elements: &ArrayRef,
    size: u32,
    valid: &Option<Mask>,
    row: u64,
) -> Result<(), AllocError>
    requires { row * size + size ≤ length (rows elements.now) }
    ensures { OnOk result (text.new ≡ put text.old (or_null valid.now row (part_text elements.now (row * size) (row * size + size)))) }
{
    if !is_valid(valid, row) {
        return text.push("null");
    }
    counted(elements);
    let start = row * u64::from(size);
    push_part(alloc, text, elements, start, start + u64::from(size))
}

// Appends a row of a sparse tree: its patch, else the fill.
#[cycle(rows)]
fn push_patched(
    alloc: Global,
    text: &mut CappedText,
    patches: &Patches,
    fill: &Scalar,
    row: u64,
) -> Result<(), AllocError>
    requires in_range { row < patches.now.array_len }
    requires typed { fill.now.dtype ≡ tree_type patches.now.values }
    ensures { OnOk result (text.new ≡ put text.old (value_text fill.now.dtype (patched (rows patches.now.indices) (rows patches.now.values) fill.now.value (patches.now.offset + row)))) }
{
    patches.known();
    match patch_place(patches, row) {
        Some(place) => push_row(alloc, text, patches.values(), place),
        None => push_scalar(alloc, text, fill),
    }
}

/// Appends the rows `start .. end` as a list. Nothing is read once the text is over, nor where there are more rows than room: each
/// takes at least a comma or a bracket.
#[cycle(rows)]
pub(super) fn push_part(
    alloc: Global,
    text: &mut CappedText,
    tree: &ArrayRef,
    start: u64,
    end: u64,
) -> Result<(), AllocError>
    requires order { start ≤ end }
    requires in_range { end ≤ length (rows tree.now) }
    ensures { OnOk result (text.new ≡ put text.old (part_text tree.now start end)) }
{
    if !text.has_room((end - start) as usize) {
        text.end();
        return Ok(());
    }
    text.push("[")?;
    let mut before = "";
    for row in start..end {
        if text.is_over() {
            return Ok(());
        }
        text.push(before)?;
        push_row(alloc, text, tree, row)?;
        before = ",";
    }
    text.push("]")
}
