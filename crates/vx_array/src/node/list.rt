//! Lists by offsets into their elements.

ghost use Rattle.std.specs.Prelude.{◌≡◌, None};
ghost use Rattle.vx_array.specs.TreeOf.{tree_of};
ghost use Rattle.vx_base.specs.Answers.{Makes, OrMemory};
ghost use Rattle.vx_base.specs.PlainType as types;
ghost use Rattle.vx_base.specs.TypeOf.{type_of};
ghost use Rattle.vx_model.specs.Refusals.{list_refusal, kept};
ghost use Rattle.vx_model.specs.Tree.{list};
ghost use Rattle.vx_model.specs.TreeType.{tree_type};

use super::offsets::{are_integers, hold_offsets, row_count};
use crate::array::{ArrayRef, Child, Node};
use crate::node::{Made, boxed};
use std::alloc::Global;
use vx_base::{DType, Mask, Nullability, Refused, VortexError, VortexResult};
use vx_values::{copy_validity, has_length, is_allowed, keep};

impl ArrayRef {
    /// Lists, in each row `elements[offsets[row] .. offsets[row + 1]]`, null where `valid` is false; beneath nulls any
    /// elements may stand. Child 0: `elements`; child 1: `offsets`, one more than there are rows.
    ///
    /// Refuses MismatchedTypes where the offsets aren't non-nullable integers; then LengthMismatch where there is no
    /// offset or the mask doesn't have one bit per row; then OutOfBounds where the offsets don't begin at 0, fall, or
    /// don't end at the elements' length; then MismatchedTypes where the mask has a false in a non-nullable node.
    pub fn list(
        alloc: Global,
        elements: ArrayRef,
        offsets: ArrayRef,
        valid: Option<Mask>,
        nullability: Nullability,
    ) -> Made<(ArrayRef, ArrayRef, Option<Mask>)>
        ensures { Makes (list_refusal elements offsets valid nullability) (list elements offsets (kept valid) nullability) (elements, offsets, valid) result }
    {
        match refusal(&elements, &offsets, &valid, nullability) {
            Some(error) => Err(Refused {
                error,
                inputs: (elements, offsets, valid),
            }),
            None => ArrayRef::list_of_offsets(alloc, elements, offsets, valid, nullability),
        }
    }

    /// `list` without its checks, for inputs that the caller knows to pass them. Reads no offset. Refuses NoMemory alone,
    /// and hands the inputs back.
    #[tactic(auto, using(crate::proofs::Making::list_array))]
    pub fn list_of_offsets(
        alloc: Global,
        elements: ArrayRef,
        offsets: ArrayRef,
        valid: Option<Mask>,
        nullability: Nullability,
    ) -> Made<(ArrayRef, ArrayRef, Option<Mask>)>
        requires { list_refusal elements offsets valid nullability ≡ None }
        ensures { Makes None (list elements offsets (kept valid) nullability) (elements, offsets, valid) result }
    {
        let own_type = match list_type(alloc, &elements, nullability) {
            Ok(own_type) => own_type,
            Err(error) => {
                return Err(Refused {
                    error,
                    inputs: (elements, offsets, valid),
                });
            }
        };
        let len = row_count(&offsets);
        elements.known();
        offsets.known();
        match boxed(alloc, elements, offsets) {
            Ok((elements, offsets)) => Ok(ArrayRef {
                node: Node::List(
                    Child { array: elements },
                    Child { array: offsets },
                    keep(valid),
                    nullability,
                ),
                own_type: Some(own_type),
                len,
            }),
            Err((elements, offsets)) => Err(Refused {
                error: VortexError::NoMemory,
                inputs: (elements, offsets, valid),
            }),
        }
    }
}

// The refusal of these inputs, if there is one.
fn refusal(
    elements: &ArrayRef,
    offsets: &ArrayRef,
    valid: &Option<Mask>,
    nullability: Nullability,
) -> Option<VortexError>
    ensures { result ≡ list_refusal elements.now offsets.now valid.now nullability }
{
    if !are_integers(offsets.dtype()) {
        return Some(VortexError::MismatchedTypes);
    }
    if offsets.len() == 0 || !has_length(valid, row_count(offsets)) {
        return Some(VortexError::LengthMismatch);
    }
    if !hold_offsets(offsets, elements.len()) {
        return Some(VortexError::OutOfBounds);
    }
    if !is_allowed(valid, nullability) {
        return Some(VortexError::MismatchedTypes);
    }
    None
}

// The type of lists of these elements.
fn list_type(alloc: Global, elements: &ArrayRef, nullability: Nullability) -> VortexResult<DType>
    ensures { OrMemory result (λ dtype. type_of dtype ≡ types.list (tree_type elements.now) nullability) }
{
    let items = elements.dtype().copy(alloc)?;
    Ok(DType::list(Box::new(alloc, items)?, nullability))
}

// A deep copy of the node, over the caller's copy of the offsets.
#[cycle(copy)]
pub(crate) fn copied_list(
    alloc: Global,
    elements: &ArrayRef,
    offsets: ArrayRef,
    valid: &Option<Mask>,
    nullability: Nullability,
) -> VortexResult<Node>
    ensures { OrMemory result (λ copy. tree_of copy ≡ list elements.now offsets valid.now nullability) }
{
    let elements = Box::new(alloc, elements.copy(alloc)?)?;
    let offsets = Box::new(alloc, offsets)?;
    let valid = copy_validity(alloc, valid)?;
    Ok(Node::List(
        Child { array: elements },
        Child { array: offsets },
        valid,
        nullability,
    ))
}
