//! Runs in blocks of 1,024 rows. The indices count from where the block's values begin, so that they stay below 1,024.

ghost use Rattle.std.specs.Prelude.{◌≡◌, ◌*◌, MatchResult, None};
ghost use Rattle.vx_array.specs.TreeOf.{tree_of};
ghost use Rattle.vx_base.specs.Packed.{block_count};
ghost use Rattle.vx_base.specs.Answers.{Makes, OrMemory};
ghost use Rattle.vx_model.specs.Refusals.{rle_refusal};
ghost use Rattle.vx_model.specs.Rows.{block_rows};
ghost use Rattle.vx_model.specs.Tree.{rle};

use super::offsets::are_integers;
use super::rle_rows::have_places;
use crate::array::{ArrayRef, Child, Node};
use crate::node::{Made, boxed};
use std::alloc::Global;
use vx_base::{Refused, VortexError, VortexResult};

// The rows of a block, as row numbers count them.
pub(crate) const BLOCK_ROWS: u64 = 1024;

impl ArrayRef {
    /// `values[offsets[row / 1024] + indices[row]]` in each of `len` rows. Child 0: `values`; child 1: `indices`, 1,024
    /// for each block of rows; child 2: `offsets`, one for each block. Indices behind the last row are not tested.
    ///
    /// Refuses MismatchedTypes where the values aren't integers, or the indices or offsets aren't non-nullable ones; then
    /// LengthMismatch where indices or offsets are too many or too few; then OutOfBounds where a sum is out of bounds of
    /// `values`.
    pub fn rle(
        alloc: Global,
        values: ArrayRef,
        indices: ArrayRef,
        offsets: ArrayRef,
        len: u64,
    ) -> Made<(ArrayRef, ArrayRef, ArrayRef)>
        ensures { Makes (rle_refusal values indices offsets len) (rle values indices offsets len) (values, indices, offsets) result }
    {
        match refusal(alloc, &values, &indices, &offsets, len) {
            Some(error) => Err(Refused {
                error,
                inputs: (values, indices, offsets),
            }),
            None => ArrayRef::rle_of_places(alloc, values, indices, offsets, len),
        }
    }

    /// `rle` without its checks, for inputs that the caller knows to pass them. Reads no row. Refuses NoMemory alone, and
    /// hands the three back.
    #[tactic(auto, using(crate::proofs::Blocks::rle_array))]
    pub fn rle_of_places(
        alloc: Global,
        values: ArrayRef,
        indices: ArrayRef,
        offsets: ArrayRef,
        len: u64,
    ) -> Made<(ArrayRef, ArrayRef, ArrayRef)>
        requires { rle_refusal values indices offsets len ≡ None }
        ensures { Makes None (rle values indices offsets len) (values, indices, offsets) result }
    {
        let own_type = match values.dtype().copy(alloc) {
            Ok(own_type) => own_type,
            Err(error) => {
                return Err(Refused {
                    error,
                    inputs: (values, indices, offsets),
                });
            }
        };
        values.known();
        indices.known();
        offsets.known();
        match three_boxed(alloc, values, indices, offsets) {
            Ok((values, indices, offsets)) => Ok(ArrayRef {
                node: Node::Rle(
                    Child { array: values },
                    Child { array: indices },
                    Child { array: offsets },
                    len,
                ),
                own_type: Some(own_type),
                len,
            }),
            Err(inputs) => Err(Refused {
                error: VortexError::NoMemory,
                inputs,
            }),
        }
    }
}

// The refusal of these inputs, if there is one.
fn refusal(
    alloc: Global,
    values: &ArrayRef,
    indices: &ArrayRef,
    offsets: &ArrayRef,
    len: u64,
) -> Option<VortexError>
    ensures { result ≡ rle_refusal values.now indices.now offsets.now len }
{
    let are_whole = are_integers(indices.dtype()) && are_integers(offsets.dtype());
    if !values.dtype().is_integer() || !are_whole {
        return Some(VortexError::MismatchedTypes);
    }
    let blocks = block_count(len);
    if u128::from(indices.len()) != fill_blocks(blocks) || offsets.len() != blocks {
        return Some(VortexError::LengthMismatch);
    }
    if !have_places(alloc, values.len(), indices, offsets, len) {
        return Some(VortexError::OutOfBounds);
    }
    None
}

// The blocks of `len` rows: `ceil(len / 1024)`. The sum needs 65 bits.
pub(crate) fn block_count(len: u64) -> u64
    ensures { result ≡ block_count len }
{
    ((u128::from(len) + 1023) / 1024) as u64
}

// The rows of full blocks.
pub(crate) fn fill_blocks(blocks: u64) -> u128
    ensures { result ≡ block_rows * blocks }
{
    1024 * u128::from(blocks)
}

// The three in boxes; handed back where memory is wanting.
pub(crate) fn three_boxed(
    alloc: Global,
    values: ArrayRef,
    indices: ArrayRef,
    offsets: ArrayRef,
) -> Result<(Box<ArrayRef>, Box<ArrayRef>, Box<ArrayRef>), (ArrayRef, ArrayRef, ArrayRef)>
    ensures { MatchResult result (λ boxed. (boxed.0.value ≡ values) × (boxed.1.value ≡ indices) × (boxed.2.value ≡ offsets)) (λ back. back ≡ (values, indices, offsets)) }
{
    match boxed(alloc, values, indices) {
        Ok((values, indices)) => match Box::new(alloc, offsets) {
            Ok(offsets) => Ok((values, indices, offsets)),
            Err(failed) => Err((
                Box::into_inner(values),
                Box::into_inner(indices),
                failed.value,
            )),
        },
        Err((values, indices)) => Err((values, indices, offsets)),
    }
}

// A deep copy of the node, over the caller's copies of the indices and the offsets.
#[cycle(copy)]
pub(crate) fn copied_rle(
    alloc: Global,
    values: &ArrayRef,
    indices: ArrayRef,
    offsets: ArrayRef,
    len: u64,
) -> VortexResult<Node>
    ensures { OrMemory result (λ copy. tree_of copy ≡ rle values.now indices offsets len) }
{
    let values = Box::new(alloc, values.copy(alloc)?)?;
    let indices = Box::new(alloc, indices)?;
    let offsets = Box::new(alloc, offsets)?;
    Ok(Node::Rle(
        Child { array: values },
        Child { array: indices },
        Child { array: offsets },
        len,
    ))
}
