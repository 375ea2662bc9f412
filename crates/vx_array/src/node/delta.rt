//! Integers by their differences, in blocks of 1,024 rows.

ghost use Rattle.std.specs.Prelude.{◌≡◌};
ghost use Rattle.vx_array.specs.TreeOf.{tree_of};
ghost use Rattle.vx_base.specs.Answers.{Makes, OrMemory};
ghost use Rattle.vx_model.specs.Refusals.{delta_refusal, kept};
ghost use Rattle.vx_model.specs.Tree.{delta};

use super::offsets::are_integers;
use super::rle::{block_count, fill_blocks};
use crate::array::{ArrayRef, Child, Node};
use crate::node::{Made, boxed};
use std::alloc::Global;
use vx_base::{DType, Mask, Nullability, Refused, VortexError, VortexResult};
use vx_values::{copy_validity, has_length, is_allowed, keep};

impl ArrayRef {
    /// `len` delta-encoded integers: row r of a block of 1,024 rows is the block's base plus its differences 0 to r,
    /// wrapping in the bases' type; null where `valid` is false. Child 0: `bases`, one for each block; child 1: `deltas`,
    /// 1,024 for each block.
    ///
    /// Refuses MismatchedTypes where the bases aren't non-nullable integers or the differences are of another type; then
    /// LengthMismatch where bases or differences are too many or too few, or the mask doesn't have one bit per row; then
    /// MismatchedTypes where the mask has a false in a non-nullable node.
    #[tactic(auto, using(crate::proofs::Blocks::delta_array))]
    pub fn delta(
        alloc: Global,
        bases: ArrayRef,
        deltas: ArrayRef,
        len: u64,
        valid: Option<Mask>,
        nullability: Nullability,
    ) -> Made<(ArrayRef, ArrayRef, Option<Mask>)>
        ensures { Makes (delta_refusal bases deltas len valid nullability) (delta bases deltas len (kept valid) nullability) (bases, deltas, valid) result }
    {
        if let Some(error) = refusal(&bases, &deltas, len, &valid, nullability) {
            return Err(Refused {
                error,
                inputs: (bases, deltas, valid),
            });
        }
        let own_type = DType::primitive(bases.dtype().ptype(), nullability);
        bases.known();
        deltas.known();
        match boxed(alloc, bases, deltas) {
            Ok((bases, deltas)) => Ok(ArrayRef {
                node: Node::Delta(
                    Child { array: bases },
                    Child { array: deltas },
                    len,
                    keep(valid),
                    nullability,
                ),
                own_type: Some(own_type),
                len,
            }),
            Err((bases, deltas)) => Err(Refused {
                error: VortexError::NoMemory,
                inputs: (bases, deltas, valid),
            }),
        }
    }
}

// The refusal of these inputs, if there is one.
fn refusal(
    bases: &ArrayRef,
    deltas: &ArrayRef,
    len: u64,
    valid: &Option<Mask>,
    nullability: Nullability,
) -> Option<VortexError>
    ensures { result ≡ delta_refusal bases.now deltas.now len valid.now nullability }
{
    let are_same = *deltas.dtype() == *bases.dtype();
    if !are_integers(bases.dtype()) || !are_same {
        return Some(VortexError::MismatchedTypes);
    }
    let are_full = u128::from(deltas.len()) == fill_blocks(bases.len());
    if bases.len() != block_count(len) || !are_full || !has_length(valid, len) {
        return Some(VortexError::LengthMismatch);
    }
    if !is_allowed(valid, nullability) {
        return Some(VortexError::MismatchedTypes);
    }
    None
}

// A deep copy of the node, over the caller's copy of the differences.
#[cycle(copy)]
pub(crate) fn copied_delta(
    alloc: Global,
    bases: &ArrayRef,
    deltas: ArrayRef,
    len: u64,
    valid: &Option<Mask>,
    nullability: Nullability,
) -> VortexResult<Node>
    ensures { OrMemory result (λ copy. tree_of copy ≡ delta bases.now deltas len valid.now nullability) }
{
    let bases = Box::new(alloc, bases.copy(alloc)?)?;
    let deltas = Box::new(alloc, deltas)?;
    let valid = copy_validity(alloc, valid)?;
    Ok(Node::Delta(
        Child { array: bases },
        Child { array: deltas },
        len,
        valid,
        nullability,
    ))
}
