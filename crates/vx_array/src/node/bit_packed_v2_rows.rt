//! Rows of integers packed in blocks: a single one, and all of them.

ghost use Rattle.std.specs.Prelude.{◌≡◌, ◌<◌, ◌≤◌, ◌+◌, ◌-◌, ◌*◌, ◌/◌, ℕ, IfSome, IsTrue, List, true, if◌then◌else◌, drop, length, map, pos};
ghost use Rattle.vx_array.specs.TreeOf.{unboxed};
ghost use Rattle.vx_base.specs.Answers.{OrMemory};
ghost use Rattle.vx_base.specs.CellValue.{cell_value};
ghost use Rattle.vx_base.specs.Integers.{natural_bits};
ghost use Rattle.vx_base.specs.Packed.{block_count, packed_row};
ghost use Rattle.vx_base.specs.PlainType.{is_flat, is_integer};
ghost use Rattle.vx_base.specs.PlainType as types;
ghost use Rattle.vx_base.specs.PlainValue.{PlainValue, int, null, whole_or_zero};
ghost use Rattle.vx_base.specs.declared.dtype.Nullability.TheVariants.{NonNullable};
ghost use Rattle.vx_model.specs.Decoded.{zeroed_by};
ghost use Rattle.vx_model.specs.Refusals.{validity_length};
ghost use Rattle.vx_model.specs.Rows.{rows, below, block_or_patch, block_rows, is_valid_at, offset_at, packed_in_block};
ghost use Rattle.vx_model.specs.TreeType.{tree_type};
ghost use Rattle.vx_model.specs.WellFormed.{are_block_offsets};
ghost use Rattle.vx_values.specs.IntsOf.{ptype_of, wholes_of};
ghost use Rattle.vx_values.specs.ValuesOf.{ints, AreRows};

use super::bit_packed::patch_at;
use super::bit_packed_v2::BYTES_PER_BIT;
use super::offsets::offset_at;
use super::rle::BLOCK_ROWS;
use crate::array::{ArrayRef, Patches};
use std::alloc::Global;
use vx_base::{Bytes, Cell, Mask, PType, VortexResult};
use vx_blocks::get;
use vx_values::{Decoded, Ints, behind, copy_validity, is_valid};

// A row with these bits: null where it isn't valid, else its patch, else the bits.
#[cycle(cell_at)]
pub(crate) fn block_row_at<'a>(
    bits: u64,
    valid: &Option<Mask>,
    patches: &'a Option<Box<Patches>>,
    row: u64,
) -> Cell<'a>
    requires { IfSome (unboxed patches.now) (λ p. IsTrue (is_flat (tree_type p.values))) }
    ensures { (bs : List ℕ) (offsets : List PlainValue) → int (pos bits) ≡ packed_in_block bs offsets row → cell_value result ≡ (if is_valid_at valid.now row then block_or_patch bs offsets (unboxed patches.now) row else null) }
{
    if !is_valid(valid, row) {
        return Cell::Null;
    }
    match patch_at(patches, row) {
        Some(patch) => patch,
        None => Cell::Int(i128::from(bits)),
    }
}

// A row's bits, at the width of its block.
#[cycle(cell_at)]
pub(crate) fn bits_at(packed: &Bytes, offsets: &ArrayRef, row: u64) -> u64
    requires integers { IsTrue (is_integer (tree_type offsets.now)) }
    requires widths { are_block_offsets 64 (rows offsets.now) ≡ true }
    requires block { row / block_rows + 1 < length (rows offsets.now) }
    requires bytes { 128 * offset_at (rows offsets.now) (row / block_rows + 1) ≤ length packed.now }
    ensures { int (pos result) ≡ packed_in_block packed.now (rows offsets.now) row }
{
    let block = row / BLOCK_ROWS;
    let begin = offset_at(offsets, block);
    let end = offset_at(offsets, block + 1);
    bits_between(packed.as_slice(), begin, end, row % BLOCK_ROWS)
}

// The bits of a row of a block, which begins and ends at these offsets, in units of 128 bytes.
fn bits_between(packed: &[u8], begin: u128, end: u128, row: u64) -> u64
    requires order { begin ≤ end }
    requires narrow { end ≤ begin + 64 }
    requires in_block { row < block_rows }
    requires bytes { 128 * end ≤ length packed.now }
    ensures { result ≡ packed_row (drop (128 * begin) packed.now) (end - begin) row }
{
    let bytes = &packed[(BYTES_PER_BIT * begin) as usize..];
    get(bytes, (end - begin) as u32, row)
}

// The integers, each patched row with its patch's value.
fn block_written(values: Ints, patches: &Option<Box<Patches>>) -> Ints
    requires integers { IfSome (unboxed patches.now) (λ p. tree_type p.values ≡ types.primitive (ptype_of values) NonNullable) }
    requires rows { IfSome (unboxed patches.now) (λ p. length (wholes_of values) ≡ p.array_len) }
    ensures ptype { ptype_of result ≡ ptype_of values }
    ensures wholes { (bs : List ℕ) (offsets : List PlainValue) (len : ℕ) → length (wholes_of values) ≡ len → wholes_of values ≡ below (λ i. whole_or_zero (packed_in_block bs offsets i)) len → wholes_of result ≡ below (λ i. whole_or_zero (block_or_patch bs offsets (unboxed patches.now) i)) len }
{
    match patches {
        Some(patches) => patches.written(values),
        None => values,
    }
}

// All rows: unpacks a block after another, and then writes the patches over. 0 beneath nulls.
pub(crate) fn decoded_in_blocks(
    alloc: Global,
    ptype: PType,
    packed: &Bytes,
    offsets: &Ints,
    len: u64,
    valid: &Option<Mask>,
    patches: &Option<Box<Patches>>,
) -> VortexResult<Decoded>
    requires widths { are_block_offsets (natural_bits ptype) (map int (wholes_of offsets.now)) ≡ true }
    requires blocks { length (wholes_of offsets.now) ≡ block_count len + 1 }
    requires sized { length packed.now ≡ 128 * offset_at (map int (wholes_of offsets.now)) (block_count len) }
    requires bits { validity_length valid.now len ≡ true }
    requires integers { IfSome (unboxed patches.now) (λ p. tree_type p.values ≡ types.primitive ptype NonNullable) }
    requires rows { IfSome (unboxed patches.now) (λ p. len ≡ p.array_len) }
    ensures { OrMemory result (AreRows (ints ptype) (map int (zeroed_by (pos 0) valid.now (below (λ i. whole_or_zero (block_or_patch packed.now (map int (wholes_of offsets.now)) (unboxed patches.now) i)) len))) valid.now) }
{
    let values = Ints::unpacked_blocks(alloc, ptype, packed.as_slice(), offsets, len)?;
    let values = block_written(values, patches);
    Ok(behind(values, copy_validity(alloc, valid)?))
}
