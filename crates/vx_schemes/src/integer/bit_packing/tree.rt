//! The bit-packed tree of a plain column of integers.

ghost use Rattle.std.specs.Prelude.{◌≡◌, ◌<◌, ◌≤◌, ◌+◌, ◌^◌, ◌==◌, not, [], Some, pos, length, map, replicate, drop, sum, true, false, nat_le, unwrap_or, IsTrue};
ghost use Rattle.std.specs.List.{list_all, list_any};
ghost use Rattle.vx_base.specs.Answers.{Answers, OrMemory};
ghost use Rattle.vx_base.specs.declared.dtype.Nullability.{Nullability};
ghost use Rattle.vx_base.specs.Integers.{bits_in, bits_of, lies_in, natural_bits};
ghost use Rattle.vx_base.specs.Packed.{kept_rows, wide_rows};
ghost use Rattle.vx_base.specs.PlainType.{is_integer};
ghost use Rattle.vx_base.specs.PlainValue.{int};
ghost use Rattle.vx_blocks.specs.Histogram.{IsHistogram};
ghost use Rattle.vx_model.specs.Column.{column_of};
ghost use Rattle.vx_model.specs.Plain.{IsPlain};
ghost use Rattle.vx_model.specs.Refusals.{kept, validity_allowed, validity_length};
ghost use Rattle.vx_model.specs.Rows.{rows};
ghost use Rattle.vx_model.specs.TreeType.{tree_type};
ghost use Rattle.vx_model.specs.WellFormed.{ascend};
ghost use Rattle.vx_values.specs.IntsOf.{ptype_of, wholes_of};
ghost use Rattle.vx_schemes.specs.BitPacking.Tree.{is_negative, has_negative, bit_packing_made, packing_of, packed_tree, patches_of, patches_at};
ghost use Rattle.vx_schemes.specs.Widths.{best_width_of};

use crate::patches::compress_patches;
use std::alloc::Global;
use vx_array::{ArrayRef, Patches};
use vx_base::{ExecutionCtx, IntList, Mask, Nullability, VortexResult};
use vx_blocks::best_width;
use vx_schemes_common::{mask_of, whole_tree};
use vx_values::Ints;

/// A plain column of integers, none negative, packed at the width of least cost, wider values as patches. None where
/// that width is the type's, since packing gains nothing then.
#[tactic(auto, using(vx_model::proofs::PrimitiveLemmas::plain_roots))]
pub(crate) fn bit_packing_tree(
    plain: &ArrayRef,
    ctx: &mut ExecutionCtx,
) -> VortexResult<Option<ArrayRef>>
    requires plain { IsPlain plain.now }
    requires integer { IsTrue (is_integer (tree_type plain.now)) }
    requires natural { has_negative (column_of plain.now) ≡ false }
    requires few { length (rows plain.now) ≤ 2 ^ 32 }
    ensures answer { Answers result (bit_packing_made (column_of plain.now)) }
    ensures ctx { ctx.new ≡ ctx.old }
{
    let (values, valid, nullability) = plain.as_primitive();
    let has_null = valid.is_some();
    let valid = mask_of(ctx.alloc(), valid, values.len())?;
    packing(values, valid, has_null, nullability, ctx)
}

// The packed tree of integers and their validity bitmap. `has_null` is false only where every bit is true.
fn packing(
    values: &Ints,
    valid: Mask,
    has_null: bool,
    nullability: Nullability,
    ctx: &mut ExecutionCtx,
) -> VortexResult<Option<ArrayRef>>
    requires held { IsTrue (list_all (lies_in (ptype_of values.now)) (wholes_of values.now)) }
    requires natural { list_any is_negative (wholes_of values.now) ≡ false }
    requires same { length valid ≡ length (wholes_of values.now) }
    requires few { length (wholes_of values.now) ≤ 2 ^ 32 }
    requires allowed { validity_allowed (Some valid) nullability ≡ true }
    requires no_null { has_null ≡ false → valid ≡ replicate (length (wholes_of values.now)) true }
    ensures answer { Answers result (packing_of (ptype_of values.now) nullability (wholes_of values.now) valid) }
    ensures ctx { ctx.new ≡ ctx.old }
{
    let (width, wider) = best_width_of(ctx.alloc(), values, &valid, has_null)?;
    if width == values.ptype().bit_width() {
        return Ok(None);
    }
    let tree = packed_tree(values, valid, has_null, width, wider, nullability, ctx)?;
    Ok(Some(tree))
}

// The width of least cost, and whether some value is wider.
fn best_width_of(
    alloc: Global,
    values: &Ints,
    valid: &Mask,
    has_null: bool,
) -> VortexResult<(u32, bool)>
    requires held { IsTrue (list_all (lies_in (ptype_of values.now)) (wholes_of values.now)) }
    requires natural { list_any is_negative (wholes_of values.now) ≡ false }
    requires same { length valid.now ≡ length (wholes_of values.now) }
    requires few { length (wholes_of values.now) ≤ 2 ^ 32 }
    requires no_null { has_null ≡ false → valid.now ≡ replicate (length (wholes_of values.now)) true }
    ensures width { OrMemory result (λ best. best.0 ≡ best_width_of (ptype_of values.now) (wholes_of values.now) valid.now) }
    ensures wider { OrMemory result (λ best. best.1 ≡ false → wide_rows best.0 (map (bits_in (ptype_of values.now)) (wholes_of values.now)) valid.now ≡ []) }
{
    let counts = widths(alloc, values, valid, has_null)?;
    let width = best_width(counts.as_slice(), values.ptype());
    let wider = counts_above(counts.as_slice(), width);
    Ok((width, wider))
}

// The histogram of bit widths. Without nulls the validity bitmap isn't read.
fn widths(alloc: Global, values: &Ints, valid: &Mask, has_null: bool) -> VortexResult<Vec<u64>>
    requires same { length valid.now ≡ length (wholes_of values.now) }
    requires no_null { has_null ≡ false → valid.now ≡ replicate (length (wholes_of values.now)) true }
    ensures total { OrMemory result (λ counts. sum counts.items ≡ length (wholes_of values.now)) }
    ensures widths { OrMemory result (λ counts. IsHistogram (bits_of (ptype_of values.now)) (kept_rows 64 (map (bits_in (ptype_of values.now)) (wholes_of values.now)) valid.now) counts.items) }
{
    if has_null {
        values.bit_width_histogram(alloc, valid)
    } else {
        values.bit_widths_of_all(alloc)
    }
}

/// Whether the histogram counts a row wider than `width`.
pub(crate) fn counts_above(counts: &[u64], width: u32) -> bool
    requires { width < length counts.now }
    ensures { result ≡ list_any (λ count. not (count == 0)) (drop (width + 1) counts.now) }
{
    some_counted(&counts[width as usize + 1..])
}

fn some_counted(counts: &[u64]) -> bool
    ensures { result ≡ list_any (λ count. not (count == 0)) counts.now }
{
    counts.iter().any(|count| *count != 0)
}

// The rows packed at `width`, and the wider ones as patches.
fn packed_tree(
    values: &Ints,
    valid: Mask,
    has_null: bool,
    width: u32,
    wider: bool,
    nullability: Nullability,
    ctx: &mut ExecutionCtx,
) -> VortexResult<ArrayRef>
    requires wider { wider ≡ false → wide_rows width (map (bits_in (ptype_of values.now)) (wholes_of values.now)) valid ≡ [] }
    requires same { length valid ≡ length (wholes_of values.now) }
    requires allowed { validity_allowed (Some valid) nullability ≡ true }
    requires no_null { has_null ≡ false → list_all (λ bit. bit) valid ≡ true }
    requires narrow { nat_le width (natural_bits (ptype_of values.now)) ≡ true }
    ensures answer { Answers result (packed_tree (ptype_of values.now) nullability (wholes_of values.now) valid width) }
    ensures ctx { ctx.new ≡ ctx.old }
{
    let alloc = ctx.alloc();
    let packed = values.pack(alloc, &valid, width)?;
    let patches = wide_patches(values, &valid, width, wider, ctx)?;
    let ptype = values.ptype();
    match ArrayRef::bit_packed(
        alloc,
        ptype,
        width,
        packed,
        values.len(),
        validity(valid, has_null),
        patches,
        nullability,
    ) {
        Ok(tree) => Ok(tree),
        Err(refused) => Err(refused.error),
    }
}

// The validity bitmap; None without nulls, so that the constructor needn't scan it.
fn validity(valid: Mask, has_null: bool) -> Option<Mask>
    requires { has_null ≡ false → list_all (λ bit. bit) valid ≡ true }
    ensures kept { kept result ≡ kept (Some valid) }
    ensures length { validity_length result (length valid) ≡ true }
    ensures allowed { (n : Nullability) → validity_allowed (Some valid) n ≡ true → validity_allowed result n ≡ true }
{
    if has_null { Some(valid) } else { None }
}

// The rows wider than `width` as compressed patches; None where there are none.
fn wide_patches(
    values: &Ints,
    valid: &Mask,
    width: u32,
    wider: bool,
    ctx: &mut ExecutionCtx,
) -> VortexResult<Option<Patches>>
    requires wider { wider ≡ false → wide_rows width (map (bits_in (ptype_of values.now)) (wholes_of values.now)) valid.now ≡ [] }
    requires same { length valid.now ≡ length (wholes_of values.now) }
    requires narrow { nat_le width (natural_bits (ptype_of values.now)) ≡ true }
    ensures answer { Answers result (patches_of (ptype_of values.now) (wholes_of values.now) (wide_rows width (map (bits_in (ptype_of values.now)) (wholes_of values.now)) valid.now)) }
    ensures ctx { ctx.new ≡ ctx.old }
{
    if !wider {
        return Ok(None);
    }
    let wide = values.wide_rows(ctx.alloc(), valid, width)?;
    patches_of(values, wide, ctx)
}

// The values of `rows` as compressed patches; None where there are no rows.
fn patches_of(
    values: &Ints,
    rows: IntList<u64>,
    ctx: &mut ExecutionCtx,
) -> VortexResult<Option<Patches>>
    requires { ascend 0 (length (wholes_of values.now)) (map int (map pos rows)) ≡ true }
    ensures answer { Answers result (patches_of (ptype_of values.now) (wholes_of values.now) rows) }
    ensures ctx { ctx.new ≡ ctx.old }
{
    if rows.len() == 0 {
        return Ok(None);
    }
    let patches = patches_at(ctx.alloc(), values, rows)?;
    Ok(Some(compress_patches(&patches, ctx)?))
}

// The values of `rows` as patches.
fn patches_at(alloc: Global, values: &Ints, rows: IntList<u64>) -> VortexResult<Patches>
    requires { ascend 0 (length (wholes_of values.now)) (map int (map pos rows)) ≡ true }
    ensures { Answers result (patches_at (ptype_of values.now) (wholes_of values.now) rows) }
{
    let patched = values.gathered(alloc, rows.as_slice())?;
    let indices = whole_tree(Ints::U64(rows), Nullability::NonNullable)?;
    let patched = whole_tree(patched, Nullability::NonNullable)?;
    match Patches::new(values.len(), 0, indices, patched) {
        Ok(patches) => Ok(patches),
        Err(refused) => Err(refused.error),
    }
}
