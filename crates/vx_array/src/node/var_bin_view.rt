//! Texts and binaries, row by row.

ghost use Rattle.std.specs.Prelude.{◌≡◌, ◌<◌, ◌-◌, IsTrue, None, length};
ghost use Rattle.vx_array.specs.TreeOf.{tree_of};
ghost use Rattle.vx_base.specs.Answers.{Answers, MakesSurely, OrMemory};
ghost use Rattle.vx_base.specs.Gathered.{gathered, are_parts};
ghost use Rattle.vx_base.specs.TypeOf.{type_of};
ghost use Rattle.vx_model.specs.Column.{column};
ghost use Rattle.vx_model.specs.Plain.{IsPlain, plain};
ghost use Rattle.vx_model.specs.Refusals.{var_bin_view_refusal, kept};
ghost use Rattle.vx_model.specs.Rows.{rows};
ghost use Rattle.vx_model.specs.Tree.{var_bin_view};
ghost use Rattle.vx_model.specs.WellFormed.{WellFormed};
ghost use Rattle.vx_values.specs.ValuesOf.{byte_rows};

use crate::array::{ArrayRef, Node};
use crate::node::Made;
use std::alloc::Global;
use vx_base::{ByteRows, DType, Mask, Refused, VortexResult};
use vx_flat::view_refusal;
use vx_values::{byte_rows, copy_validity, gathered_validity, keep};

impl ArrayRef {
    /// Texts or binaries, null where `valid` is false; beneath nulls any bytes may stand. No children; takes no memory.
    ///
    /// Refuses MismatchedTypes where the type isn't one of texts or binaries; then LengthMismatch where the mask doesn't
    /// have one bit per row; then ValueTooLong where a value, valid or not, has 2^32 bytes or more; then MismatchedTypes
    /// where the mask has a false in a non-nullable node, or a valid row of texts isn't UTF-8.
    pub fn var_bin_view(
        values: ByteRows,
        valid: Option<Mask>,
        dtype: DType,
    ) -> Made<(ByteRows, Option<Mask>, DType)>
        ensures { MakesSurely (var_bin_view_refusal values valid (type_of dtype)) (var_bin_view values (kept valid) (type_of dtype)) (values, valid, dtype) result }
    {
        match view_refusal(&values, &valid, &dtype) {
            Some(error) => Err(Refused {
                error,
                inputs: (values, valid, dtype),
            }),
            None => Ok(ArrayRef::var_bin_view_of(values, valid, dtype)),
        }
    }

    /// `var_bin_view` without its checks, for values that the caller knows to pass them. Reads none, so that a text isn't
    /// tested for UTF-8 twice.
    #[tactic(auto, using(crate::proofs::Making::view_array))]
    pub fn var_bin_view_of(values: ByteRows, valid: Option<Mask>, dtype: DType) -> ArrayRef
        requires { var_bin_view_refusal values valid (type_of dtype) ≡ None }
        ensures { result ≡ var_bin_view values (kept valid) (type_of dtype) }
    {
        let len = values.len();
        ArrayRef {
            node: Node::VarBinView(values, keep(valid), dtype),
            own_type: None,
            len,
        }
    }
}

// A copy of the node, with what stands beneath nulls.
pub(crate) fn copied_view(
    alloc: Global,
    values: &ByteRows,
    valid: &Option<Mask>,
    dtype: &DType,
) -> VortexResult<Node>
    ensures { OrMemory result (λ copy. tree_of copy ≡ var_bin_view values.now valid.now (type_of dtype.now)) }
{
    let values = byte_rows::decoded(alloc, values, &None)?;
    let valid = copy_validity(alloc, valid)?;
    Ok(Node::VarBinView(values, valid, dtype.copy(alloc)?))
}

// The rows of ranges of a plain node, as a plain tree.
pub(crate) fn gathered_view(
    alloc: Global,
    values: &ByteRows,
    valid: &Option<Mask>,
    dtype: &DType,
    ranges: &[(u64, u64)],
) -> VortexResult<ArrayRef>
    requires plain { IsPlain (var_bin_view values.now valid.now (type_of dtype.now)) }
    requires well { WellFormed (var_bin_view values.now valid.now (type_of dtype.now)) }
    requires parts { IsTrue (are_parts (length values.now) ranges.now) }
    ensures { Answers result (plain (column (type_of dtype.now) (gathered ranges.now (rows (var_bin_view values.now valid.now (type_of dtype.now)))))) }
{
    let dtype = dtype.copy(alloc)?;
    let valid = gathered_validity(alloc, valid, ranges)?;
    let values = byte_rows::gather(alloc, values, ranges)?;
    Ok(ArrayRef::var_bin_view_of(values, valid, dtype))
}
