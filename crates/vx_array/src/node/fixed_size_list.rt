//! Fixed-size lists.

ghost use Rattle.std.specs.Prelude.{◌≡◌};
ghost use Rattle.vx_array.specs.TreeOf.{tree_of};
ghost use Rattle.vx_base.specs.Answers.{Makes, OrMemory};
ghost use Rattle.vx_base.specs.PlainType as types;
ghost use Rattle.vx_base.specs.TypeOf.{type_of};
ghost use Rattle.vx_model.specs.Refusals.{fixed_size_list_refusal, kept};
ghost use Rattle.vx_model.specs.Tree.{fixed_size_list};
ghost use Rattle.vx_model.specs.TreeType.{tree_type};

use crate::array::{ArrayRef, Child, Node};
use crate::node::Made;
use std::alloc::Global;
use vx_base::{DType, Mask, Nullability, Refused, VortexError, VortexResult};
use vx_flat::have_elements;
use vx_values::{copy_validity, has_length, is_allowed, keep};

impl ArrayRef {
    /// `len` lists of `list_size` elements each, in order, null where `valid` is false; beneath nulls any elements may
    /// stand. Child 0: `elements`, `len * list_size` rows.
    ///
    /// Refuses LengthMismatch where the elements are too many or too few, with the product taken exactly, or the mask
    /// doesn't have one bit per row; then MismatchedTypes where the mask has a false in a non-nullable node.
    #[tactic(auto, using(crate::proofs::Making::fixed_size_list_array))]
    pub fn fixed_size_list(
        alloc: Global,
        elements: ArrayRef,
        list_size: u32,
        len: u64,
        valid: Option<Mask>,
        nullability: Nullability,
    ) -> Made<(ArrayRef, Option<Mask>)>
        ensures { Makes (fixed_size_list_refusal elements list_size len valid nullability) (fixed_size_list elements list_size len (kept valid) nullability) (elements, valid) result }
    {
        if let Some(error) = refusal(&elements, list_size, len, &valid, nullability) {
            return Err(Refused {
                error,
                inputs: (elements, valid),
            });
        }
        let own_type = match fixed_type(alloc, &elements, list_size, nullability) {
            Ok(own_type) => own_type,
            Err(error) => {
                return Err(Refused {
                    error,
                    inputs: (elements, valid),
                });
            }
        };
        elements.known();
        match Box::new(alloc, elements) {
            Ok(elements) => Ok(ArrayRef {
                node: Node::FixedSizeList(
                    Child { array: elements },
                    list_size,
                    len,
                    keep(valid),
                    nullability,
                ),
                own_type: Some(own_type),
                len,
            }),
            Err(failed) => Err(Refused {
                error: VortexError::NoMemory,
                inputs: (failed.value, valid),
            }),
        }
    }
}

// The refusal of these inputs, if there is one.
fn refusal(
    elements: &ArrayRef,
    list_size: u32,
    len: u64,
    valid: &Option<Mask>,
    nullability: Nullability,
) -> Option<VortexError>
    ensures { result ≡ fixed_size_list_refusal elements.now list_size len valid.now nullability }
{
    if !have_elements(elements.len(), list_size, len) || !has_length(valid, len) {
        return Some(VortexError::LengthMismatch);
    }
    if !is_allowed(valid, nullability) {
        return Some(VortexError::MismatchedTypes);
    }
    None
}

// The type of lists of these elements.
fn fixed_type(
    alloc: Global,
    elements: &ArrayRef,
    list_size: u32,
    nullability: Nullability,
) -> VortexResult<DType>
    ensures { OrMemory result (λ dtype. type_of dtype ≡ types.fixed_size_list (tree_type elements.now) list_size nullability) }
{
    let items = elements.dtype().copy(alloc)?;
    let items = Box::new(alloc, items)?;
    Ok(DType::fixed_size_list(items, list_size, nullability))
}

// A copy of the node, over the caller's copy of the elements.
pub(crate) fn copied_fixed(
    alloc: Global,
    elements: ArrayRef,
    list_size: u32,
    len: u64,
    valid: &Option<Mask>,
    nullability: Nullability,
) -> VortexResult<Node>
    ensures { OrMemory result (λ copy. tree_of copy ≡ fixed_size_list elements list_size len valid.now nullability) }
{
    let elements = Box::new(alloc, elements)?;
    let valid = copy_validity(alloc, valid)?;
    Ok(Node::FixedSizeList(
        Child { array: elements },
        list_size,
        len,
        valid,
        nullability,
    ))
}
