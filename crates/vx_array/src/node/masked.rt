//! A tree behind a validity mask.

ghost use Rattle.std.specs.Prelude.{◌≡◌, ◌<◌, ◌-◌, length, IsTrue, Some, slice_index_or, false, if◌then◌else◌};
ghost use Rattle.vx_array.specs.TreeOf.{tree_of};
ghost use Rattle.vx_base.specs.Answers.{Makes, OrMemory};
ghost use Rattle.vx_base.specs.CellValue.{cell_value};
ghost use Rattle.vx_base.specs.PlainType.{is_flat};
ghost use Rattle.vx_base.specs.PlainValue.{null};
ghost use Rattle.vx_model.specs.Refusals.{masked_refusal};
ghost use Rattle.vx_model.specs.Rows.{rows, row_at};
ghost use Rattle.vx_model.specs.Tree.{masked};
ghost use Rattle.vx_model.specs.TreeType.{tree_type};

use crate::array::{ArrayRef, Child, Node};
use crate::node::Made;
use std::alloc::Global;
use vx_base::{Cell, Mask, Refused, VortexError, VortexResult};

impl ArrayRef {
    /// The child's rows, null where `valid` is false. Child 0: `child`, as many rows.
    ///
    /// Refuses MismatchedTypes where the child isn't of a nullable leaf type or nullable timestamps; then LengthMismatch
    /// where the mask doesn't have one bit per row; then MismatchedTypes where the child has a null row.
    #[tactic(auto, using(crate::proofs::Making::masked_array))]
    pub fn masked(alloc: Global, child: ArrayRef, valid: Mask) -> Made<(ArrayRef, Mask)>
        ensures { Makes (masked_refusal child valid) (masked child valid) (child, valid) result }
    {
        if !child.dtype().is_flat() || !child.dtype().is_nullable() {
            return Err(Refused {
                error: VortexError::MismatchedTypes,
                inputs: (child, valid),
            });
        }
        if valid.len() != child.len() {
            return Err(Refused {
                error: VortexError::LengthMismatch,
                inputs: (child, valid),
            });
        }
        if child.has_null() {
            return Err(Refused {
                error: VortexError::MismatchedTypes,
                inputs: (child, valid),
            });
        }
        let own_type = match child.dtype().copy(alloc) {
            Ok(own_type) => own_type,
            Err(error) => {
                return Err(Refused {
                    error,
                    inputs: (child, valid),
                });
            }
        };
        let len = child.len();
        child.known();
        match Box::new(alloc, child) {
            Ok(child) => Ok(ArrayRef {
                node: Node::Masked(Child { array: child }, valid),
                own_type: Some(own_type),
                len,
            }),
            Err(failed) => Err(Refused {
                error: VortexError::NoMemory,
                inputs: (failed.value, valid),
            }),
        }
    }
}

// The child's row, null where the mask is false.
#[cycle(cell_at)]
pub(crate) fn masked_at<'a>(child: &'a ArrayRef, valid: &Mask, row: u64) -> Cell<'a>
    requires flat { IsTrue (is_flat (tree_type child.now)) }
    requires in_range { row < length (rows child.now) }
    ensures { cell_value result ≡ (if slice_index_or valid.now row false then row_at (rows child.now) row else null) }
{
    if valid.is_set(row) {
        child.cell_at(row)
    } else {
        Cell::Null
    }
}

// A copy of the node, over the caller's copy of the child.
pub(crate) fn copied_masked(alloc: Global, child: ArrayRef, valid: &Mask) -> VortexResult<Node>
    ensures { OrMemory result (λ copy. tree_of copy ≡ masked child valid.now) }
{
    let child = Box::new(alloc, child)?;
    Ok(Node::Masked(Child { array: child }, valid.copy(alloc)?))
}
