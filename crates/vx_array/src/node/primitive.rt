//! Integers, row by row.

ghost use Rattle.std.specs.Prelude.{◌≡◌, ◌<◌, length, IsTrue, None};
ghost use Rattle.vx_array.specs.TreeOf.{tree_of};
ghost use Rattle.vx_base.specs.Answers.{Answers, MakesSurely, OrMemory};
ghost use Rattle.vx_base.specs.Gathered.{gathered, are_parts};
ghost use Rattle.vx_base.specs.PlainType as types;
ghost use Rattle.vx_model.specs.Column.{column};
ghost use Rattle.vx_model.specs.Plain.{IsPlain, plain};
ghost use Rattle.vx_model.specs.Refusals.{primitive_refusal, kept};
ghost use Rattle.vx_model.specs.Rows.{rows};
ghost use Rattle.vx_model.specs.Tree.{primitive};
ghost use Rattle.vx_model.specs.WellFormed.{WellFormed};
ghost use Rattle.vx_values.specs.IntsOf.{ptype_of, wholes_of};

use crate::array::{ArrayRef, Node};
use crate::node::Made;
use std::alloc::Global;
use vx_base::{DType, Mask, Nullability, Refused, VortexResult};
use vx_flat::flat_refusal;
use vx_values::{Ints, copy_validity, gathered_validity, keep};

impl ArrayRef {
    /// Integers, null where `valid` is false. No children; takes no memory. Refuses LengthMismatch where the mask doesn't
    /// have one bit per row, then MismatchedTypes where it has a false in a non-nullable node.
    pub fn primitive(
        values: Ints,
        valid: Option<Mask>,
        nullability: Nullability,
    ) -> Made<(Ints, Option<Mask>)>
        ensures { MakesSurely (primitive_refusal (length (wholes_of values)) valid nullability) (primitive (ptype_of values) (wholes_of values) (kept valid) nullability) (values, valid) result }
    {
        match flat_refusal(values.len(), &valid, nullability) {
            Some(error) => Err(Refused {
                error,
                inputs: (values, valid),
            }),
            None => Ok(ArrayRef::primitive_of(values, valid, nullability)),
        }
    }

    /// `primitive` without its checks, for validity that the caller knows to pass them.
    #[tactic(auto, using(crate::proofs::Making::primitive_array))]
    pub fn primitive_of(values: Ints, valid: Option<Mask>, nullability: Nullability) -> ArrayRef
        requires { primitive_refusal (length (wholes_of values)) valid nullability ≡ None }
        ensures { result ≡ primitive (ptype_of values) (wholes_of values) (kept valid) nullability }
    {
        let len = values.len();
        values.known();
        let own_type = Some(DType::primitive(values.ptype(), nullability));
        ArrayRef {
            node: Node::Primitive(values, keep(valid), nullability),
            own_type,
            len,
        }
    }
}

// A copy of the node.
pub(crate) fn copied_primitive(
    alloc: Global,
    values: &Ints,
    valid: &Option<Mask>,
    nullability: Nullability,
) -> VortexResult<Node>
    ensures { OrMemory result (λ copy. tree_of copy ≡ primitive (ptype_of values.now) (wholes_of values.now) valid.now nullability) }
{
    let values = values.copy(alloc)?;
    let valid = copy_validity(alloc, valid)?;
    Ok(Node::Primitive(values, valid, nullability))
}

// The rows of ranges of a plain node, as a plain tree.
pub(crate) fn gathered_primitive(
    alloc: Global,
    values: &Ints,
    valid: &Option<Mask>,
    nullability: Nullability,
    ranges: &[(u64, u64)],
) -> VortexResult<ArrayRef>
    requires plain { IsPlain (primitive (ptype_of values.now) (wholes_of values.now) valid.now nullability) }
    requires well { WellFormed (primitive (ptype_of values.now) (wholes_of values.now) valid.now nullability) }
    requires parts { IsTrue (are_parts (length (wholes_of values.now)) ranges.now) }
    ensures { Answers result (plain (column (types.primitive (ptype_of values.now) nullability) (gathered ranges.now (rows (primitive (ptype_of values.now) (wholes_of values.now) valid.now nullability))))) }
{
    let values = values.gather(alloc, ranges)?;
    let valid = gathered_validity(alloc, valid, ranges)?;
    Ok(ArrayRef::primitive_of(values, valid, nullability))
}
