//! Truth values, row by row.

ghost use Rattle.std.specs.Prelude.{◌≡◌, length, IsTrue, None};
ghost use Rattle.vx_array.specs.TreeOf.{tree_of};
ghost use Rattle.vx_base.specs.Answers.{Answers, MakesSurely, OrMemory};
ghost use Rattle.vx_base.specs.Gathered.{gathered, are_parts};
ghost use Rattle.vx_base.specs.PlainType as types;
ghost use Rattle.vx_model.specs.Column.{column};
ghost use Rattle.vx_model.specs.Refusals.{primitive_refusal, kept};
ghost use Rattle.vx_model.specs.Plain.{IsPlain, plain};
ghost use Rattle.vx_model.specs.Rows.{rows};
ghost use Rattle.vx_model.specs.Tree.{bool};
ghost use Rattle.vx_model.specs.WellFormed.{WellFormed};

use crate::array::{ArrayRef, Node};
use crate::node::Made;
use std::alloc::Global;
use vx_base::{DType, Mask, Nullability, Refused, VortexResult};
use vx_flat::flat_refusal;
use vx_values::{copy_validity, gathered_validity, keep};

impl ArrayRef {
    /// Truth values, null where `valid` is false. No children; takes no memory. Refuses LengthMismatch where the mask
    /// doesn't have one bit per row, then MismatchedTypes where it has a false in a non-nullable node.
    pub fn bool(
        values: Mask,
        valid: Option<Mask>,
        nullability: Nullability,
    ) -> Made<(Mask, Option<Mask>)>
        ensures { MakesSurely (primitive_refusal (length values) valid nullability) (bool values (kept valid) nullability) (values, valid) result }
    {
        match flat_refusal(values.len(), &valid, nullability) {
            Some(error) => Err(Refused {
                error,
                inputs: (values, valid),
            }),
            None => Ok(ArrayRef::bool_of(values, valid, nullability)),
        }
    }

    /// `bool` without its checks, for validity that the caller knows to pass them.
    #[tactic(auto, using(crate::proofs::Making::bool_array))]
    pub fn bool_of(values: Mask, valid: Option<Mask>, nullability: Nullability) -> ArrayRef
        requires { primitive_refusal (length values) valid nullability ≡ None }
        ensures { result ≡ bool values (kept valid) nullability }
    {
        let len = values.len();
        ArrayRef {
            node: Node::Bool(values, keep(valid), nullability),
            own_type: Some(DType::bool(nullability)),
            len,
        }
    }
}

// A copy of the node.
pub(crate) fn copied_bool(
    alloc: Global,
    values: &Mask,
    valid: &Option<Mask>,
    nullability: Nullability,
) -> VortexResult<Node>
    ensures { OrMemory result (λ copy. tree_of copy ≡ bool values.now valid.now nullability) }
{
    let values = values.copy(alloc)?;
    let valid = copy_validity(alloc, valid)?;
    Ok(Node::Bool(values, valid, nullability))
}

// The rows of ranges of a plain node, as a plain tree.
pub(crate) fn gathered_bool(
    alloc: Global,
    values: &Mask,
    valid: &Option<Mask>,
    nullability: Nullability,
    ranges: &[(u64, u64)],
) -> VortexResult<ArrayRef>
    requires plain { IsPlain (bool values.now valid.now nullability) }
    requires well { WellFormed (bool values.now valid.now nullability) }
    requires parts { IsTrue (are_parts (length values.now) ranges.now) }
    ensures { Answers result (plain (column (types.boolean nullability) (gathered ranges.now (rows (bool values.now valid.now nullability))))) }
{
    let values = values.gather(alloc, ranges)?;
    let valid = gathered_validity(alloc, valid, ranges)?;
    Ok(ArrayRef::bool_of(values, valid, nullability))
}
