//! Differences packed block by block as they are made, without a column of them.

ghost use Rattle.std.specs.Prelude.{◌≡◌, ◌≤◌, ◌+◌, ◌^◌, ◌==◌, IfSome, IsTrue, drop, false, length, sum};
ghost use Rattle.vx_base.specs.Answers.{OrMemory};
ghost use Rattle.vx_base.specs.Integers.{bits_of, bytes_of, lies_in};
ghost use Rattle.vx_base.specs.PlainType.{integer_of, is_integer};
ghost use Rattle.vx_blocks.specs.Cost.{IsBest, cost};
ghost use Rattle.vx_model.specs.Column.{column_of};
ghost use Rattle.vx_model.specs.Plain.{IsPlain};
ghost use Rattle.vx_model.specs.Rows.{rows};
ghost use Rattle.vx_model.specs.TreeType.{tree_type};
ghost use Rattle.vx_schemes.specs.FrameOfReference.Tree.{differences, packed_or_plain};

use crate::integer::bit_packing::counts_above;
use std::alloc::Global;
use vx_array::ArrayRef;
use vx_base::{PType, VortexResult};
use vx_blocks::best_width;
use vx_values::copy_validity;

/// The differences of a plain column from a reference, packed at the width of least cost. None where that width is the
/// type's, or where some difference is wider: both need the differences as a column.
#[tactic(auto, using(vx_model::proofs::PrimitiveLemmas::plain_roots))]
pub(super) fn packed_at_once(
    alloc: Global,
    array: &ArrayRef,
    reference: i128,
) -> VortexResult<Option<ArrayRef>>
    requires plain { IsPlain array.now }
    requires integer { IsTrue (is_integer (tree_type array.now)) }
    requires held { IsTrue (lies_in (integer_of (tree_type array.now)) reference) }
    requires few { length (rows array.now) ≤ 2 ^ 32 }
    ensures { OrMemory result (λ made. IfSome made (λ tree. tree ≡ packed_or_plain (differences (column_of array.now) reference))) }
{
    let (values, valid, nullability) = array.as_primitive();
    let ptype = values.ptype().to_unsigned();
    let counts = values.difference_widths(alloc, reference, valid)?;
    let Some(width) = whole_width(counts.as_slice(), ptype) else {
        return Ok(None);
    };
    let packed = values.pack_differences(alloc, reference, valid, width)?;
    let valid = copy_validity(alloc, valid)?;
    let len = values.len();
    match ArrayRef::bit_packed(alloc, ptype, width, packed, len, valid, None, nullability) {
        Ok(tree) => Ok(Some(tree)),
        Err(refused) => Err(refused.error),
    }
}

// The width of least cost, if it is below the type's bits and the histogram counts no row above it.
fn whole_width(counts: &[u64], ptype: PType) -> Option<u32>
    requires size { length counts.now ≡ bits_of ptype + 1 }
    requires room { sum counts.now ≤ 2 ^ 32 }
    ensures best { IfSome result (λ width. IsBest (cost counts.now (bytes_of ptype)) (bits_of ptype) width) }
    ensures narrow { IfSome result (λ width. (width == bits_of ptype) ≡ false) }
    ensures none_above { IfSome result (λ width. sum (drop (width + 1) counts.now) ≡ 0) }
{
    let width = best_width(counts, ptype);
    if width == ptype.bit_width() || counts_above(counts, width) {
        return None;
    }
    Some(width)
}
