//! The frame-of-reference tree of a plain column of integers.

ghost use Rattle.std.specs.Prelude.{◌≡◌, ◌≤◌, ◌^◌, false, length, IsTrue};
ghost use Rattle.vx_base.specs.Answers.{Answers};
ghost use Rattle.vx_base.specs.declared.dtype.Nullability.TheVariants.{NonNullable};
ghost use Rattle.vx_base.specs.Integers.{lies_in};
ghost use Rattle.vx_base.specs.PlainScalar.{scalar};
ghost use Rattle.vx_base.specs.PlainType.{is_integer, integer_of};
ghost use Rattle.vx_base.specs.PlainType as types;
ghost use Rattle.vx_base.specs.PlainValue.{int};
ghost use Rattle.vx_model.specs.Column.{column_of};
ghost use Rattle.vx_model.specs.Plain.{IsPlain, plain};
ghost use Rattle.vx_model.specs.Rows.{rows};
ghost use Rattle.vx_model.specs.Tree.{frame_of_reference};
ghost use Rattle.vx_model.specs.TreeType.{tree_type};
ghost use Rattle.vx_model.specs.WellFormed.{differences_type};
ghost use Rattle.vx_schemes.specs.BitPacking.Tree.{has_negative};
ghost use Rattle.vx_schemes.specs.FrameOfReference.Tree.{least_value, differences, packed_or_plain, for_made};

use super::blocks::packed_at_once;
use crate::integer::bit_packing::bit_packing_tree;
use std::alloc::Global;
use vx_array::ArrayRef;
use vx_base::{ExecutionCtx, Nullability, PType, Scalar, VortexResult};

/// A plain column of integers as differences from its least value, bit packed, or plain where bit packing keeps them.
/// None where every row is null, so that there is no least value.
pub(crate) fn frame_of_reference_tree(
    array: &ArrayRef,
    least: Option<i128>,
    ctx: &mut ExecutionCtx,
) -> VortexResult<Option<ArrayRef>>
    requires plain { IsPlain array.now }
    requires integer { IsTrue (is_integer (tree_type array.now)) }
    requires least { least ≡ least_value (rows array.now) }
    requires few { length (rows array.now) ≤ 2 ^ 32 }
    ensures answer { Answers result (for_made (column_of array.now)) }
    ensures ctx { ctx.new ≡ ctx.old }
{
    array.known();
    let Some(reference) = least else {
        return Ok(None);
    };
    let encoded = encoded_differences(array, reference, ctx)?;
    Ok(Some(framed(ctx.alloc(), encoded, array.dtype().ptype(), reference)?))
}

// The differences from a reference, bit packed, or plain where bit packing keeps them. Most are packed as they are made;
// those with patches become a column first.
fn encoded_differences(
    array: &ArrayRef,
    reference: i128,
    ctx: &mut ExecutionCtx,
) -> VortexResult<ArrayRef>
    requires plain { IsPlain array.now }
    requires integer { IsTrue (is_integer (tree_type array.now)) }
    requires held { IsTrue (lies_in (integer_of (tree_type array.now)) reference) }
    requires few { length (rows array.now) ≤ 2 ^ 32 }
    ensures answer { Answers result (packed_or_plain (differences (column_of array.now) reference)) }
    ensures ctx { ctx.new ≡ ctx.old }
{
    array.known();
    if let Some(packed) = packed_at_once(ctx.alloc(), array, reference)? {
        return Ok(packed);
    }
    let differences = differences(ctx.alloc(), array, reference)?;
    packed_or_plain(differences, ctx)
}

// The differences bit packed, or plain where bit packing keeps them.
fn packed_or_plain(array: ArrayRef, ctx: &mut ExecutionCtx) -> VortexResult<ArrayRef>
    requires plain { IsPlain array }
    requires integer { IsTrue (is_integer (tree_type array)) }
    requires natural { has_negative (column_of array) ≡ false }
    requires few { length (rows array) ≤ 2 ^ 32 }
    ensures answer { Answers result (packed_or_plain (column_of array)) }
    ensures ctx { ctx.new ≡ ctx.old }
{
    match bit_packing_tree(&array, ctx)? {
        Some(packed) => Ok(packed),
        None => Ok(array),
    }
}

/// The FoR over a tree of differences. The reference is of the type of the rows, `ptype`.
pub fn framed(
    alloc: Global,
    encoded: ArrayRef,
    ptype: PType,
    reference: i128,
) -> VortexResult<ArrayRef>
    requires held { IsTrue (lies_in ptype reference) }
    requires of_type { tree_type encoded ≡ differences_type (types.primitive ptype NonNullable) (tree_type encoded) }
    ensures { Answers result (frame_of_reference encoded (scalar (types.primitive ptype NonNullable) (int reference))) }
{
    let reference = Scalar::primitive(reference, ptype, Nullability::NonNullable)?;
    match ArrayRef::frame_of_reference(alloc, encoded, reference) {
        Ok(tree) => Ok(tree),
        Err(refused) => Err(refused.error),
    }
}

/// Row - reference, wrapping, for each row of a plain column of integers, as a plain tree of the unsigned type of the same
/// width. Nulls stay. The reference is of the column's type.
#[tactic(auto, using(vx_model::proofs::PrimitiveLemmas::plain_roots))]
pub fn differences(alloc: Global, array: &ArrayRef, reference: i128) -> VortexResult<ArrayRef>
    requires plain { IsPlain array.now }
    requires integer { IsTrue (is_integer (tree_type array.now)) }
    requires held { IsTrue (lies_in (integer_of (tree_type array.now)) reference) }
    ensures { Answers result (plain (differences (column_of array.now) reference)) }
{
    let (values, valid, _) = array.as_primitive();
    let wrapped = values.differences(alloc, reference)?;
    let zeroed = wrapped.zeroed_by(valid);
    array.with_integers(alloc, zeroed)
}
