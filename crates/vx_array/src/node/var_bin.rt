//! Texts and binaries by offsets into one run of bytes.

ghost use Rattle.std.specs.List.{list_all};
ghost use Rattle.std.specs.Prelude.{◌≡◌, ◌<◌, ◌+◌, ◌-◌, IsTrue, None, length, map, nat_le, true, if◌then◌else◌};
ghost use Rattle.vx_array.specs.TreeOf.{tree_of};
ghost use Rattle.vx_base.specs.Answers.{Makes, OrMemory};
ghost use Rattle.vx_base.specs.CellValue.{cell_value};
ghost use Rattle.vx_base.specs.Masks.{rows_between};
ghost use Rattle.vx_base.specs.PlainScalar.{fits};
ghost use Rattle.vx_base.specs.PlainType.{is_bytes, is_integer};
ghost use Rattle.vx_base.specs.PlainValue as plain;
ghost use Rattle.vx_base.specs.PlainValue.{null, is_short};
ghost use Rattle.vx_base.specs.TypeOf.{type_of};
ghost use Rattle.vx_model.specs.Extents.{row_limit};
ghost use Rattle.vx_model.specs.Refusals.{var_bin_refusal, validity_length, kept};
ghost use Rattle.vx_model.specs.Rows.{rows, cut_at, is_valid_at, offset_at, valid_rows};
ghost use Rattle.vx_model.specs.Tree.{var_bin};
ghost use Rattle.vx_model.specs.TreeType.{tree_type};
ghost use Rattle.vx_model.specs.WellFormed.{are_offsets};

use super::offsets::{are_integers, are_offsets, offset_at, row_count};
use crate::array::{ArrayRef, Child, Node};
use crate::node::Made;
use std::alloc::Global;
use vx_base::{Bytes, Cell, DType, Mask, Refused, VortexError, VortexResult, is_short};
use vx_flat::{fits, is_few, part};
use vx_values::{copy_validity, has_length, is_allowed, is_valid, keep};

impl ArrayRef {
    /// Texts or binaries, in each row `bytes[offsets[row] .. offsets[row + 1]]`, null where `valid` is false; beneath nulls
    /// any bytes may stand. Child 0: `offsets`, one more than there are rows.
    ///
    /// Refuses MismatchedTypes where the offsets aren't non-nullable integers or the type isn't one of texts or binaries;
    /// then LengthMismatch where there is no offset or the mask doesn't have one bit per row; then OutOfBounds where the
    /// offsets don't begin at 0, fall, or don't end at the bytes' length; then ValueTooLong where a value has 2^32 bytes
    /// or more; then MismatchedTypes where the mask has a false in a non-nullable node, or a valid row of texts isn't
    /// UTF-8.
    pub fn var_bin(
        alloc: Global,
        offsets: ArrayRef,
        bytes: Bytes,
        valid: Option<Mask>,
        dtype: DType,
    ) -> Made<(ArrayRef, Bytes, Option<Mask>, DType)>
        ensures { Makes (var_bin_refusal offsets bytes valid (type_of dtype)) (var_bin offsets bytes (kept valid) (type_of dtype)) (offsets, bytes, valid, dtype) result }
    {
        match tested(&offsets, &bytes, &valid, &dtype) {
            Some(error) => Err(Refused {
                error,
                inputs: (offsets, bytes, valid, dtype),
            }),
            None => ArrayRef::var_bin_of_offsets(alloc, offsets, bytes, valid, dtype),
        }
    }

    /// `var_bin` without its checks, for inputs that the caller knows to pass them. Reads no offset and no value. Refuses
    /// NoMemory alone, and hands the inputs back.
    #[tactic(auto, using(crate::proofs::Making::var_bin_array))]
    pub fn var_bin_of_offsets(
        alloc: Global,
        offsets: ArrayRef,
        bytes: Bytes,
        valid: Option<Mask>,
        dtype: DType,
    ) -> Made<(ArrayRef, Bytes, Option<Mask>, DType)>
        requires { var_bin_refusal offsets bytes valid (type_of dtype) ≡ None }
        ensures { Makes None (var_bin offsets bytes (kept valid) (type_of dtype)) (offsets, bytes, valid, dtype) result }
    {
        let len = row_count(&offsets);
        offsets.known();
        match Box::new(alloc, offsets) {
            Ok(offsets) => Ok(ArrayRef {
                node: Node::VarBin(Child { array: offsets }, bytes, keep(valid), dtype),
                own_type: None,
                len,
            }),
            Err(failed) => Err(Refused {
                error: VortexError::NoMemory,
                inputs: (failed.value, bytes, valid, dtype),
            }),
        }
    }
}

// The refusal of these inputs, if there is one.
fn tested(
    offsets: &ArrayRef,
    bytes: &Bytes,
    valid: &Option<Mask>,
    dtype: &DType,
) -> Option<VortexError>
    ensures { result ≡ var_bin_refusal offsets.now bytes.now valid.now (type_of dtype.now) }
{
    let plain = offsets.summed();
    refusal(offsets.or(&plain), bytes, valid, dtype)
}

// `tested`, one offset after another.
fn refusal(
    offsets: &ArrayRef,
    bytes: &Bytes,
    valid: &Option<Mask>,
    dtype: &DType,
) -> Option<VortexError>
    ensures { result ≡ var_bin_refusal offsets.now bytes.now valid.now (type_of dtype.now) }
{
    if !are_integers(offsets.dtype()) || !dtype.is_bytes() {
        return Some(VortexError::MismatchedTypes);
    }
    if offsets.len() == 0 || !has_length(valid, row_count(offsets)) {
        return Some(VortexError::LengthMismatch);
    }
    if !are_offsets(offsets, bytes.len()) {
        return Some(VortexError::OutOfBounds);
    }
    if !are_short(offsets, bytes) {
        return Some(VortexError::ValueTooLong);
    }
    if !is_allowed(valid, dtype.nullability()) || !are_values(offsets, bytes, valid, dtype) {
        return Some(VortexError::MismatchedTypes);
    }
    None
}

// Whether each value is shorter than 2^32 bytes.
#[tactic(auto, using(crate::proofs::EmptyTexts::short_texts))]
fn are_short(offsets: &ArrayRef, bytes: &Bytes) -> bool
    requires integers { IsTrue (is_integer (tree_type offsets.now)) }
    requires ends { IsTrue (are_offsets (length bytes.now) (rows offsets.now)) }
    ensures { result ≡ list_all is_short (cut_at (rows offsets.now) bytes.now) }
{
    // No value is longer than all of the bytes.
    if bytes.len() < 1 << 32 {
        return true;
    }
    for row in 0..row_count(offsets) {
        if !is_short(piece(offsets, bytes, row)) {
            return false;
        }
    }
    true
}

// Whether each row fits the type.
#[tactic(auto, using(crate::proofs::EmptyTexts::empty_texts))]
fn are_values(offsets: &ArrayRef, bytes: &Bytes, valid: &Option<Mask>, dtype: &DType) -> bool
    requires bytes { IsTrue (is_bytes (type_of dtype.now)) }
    requires integers { IsTrue (is_integer (tree_type offsets.now)) }
    requires ends { IsTrue (are_offsets (length bytes.now) (rows offsets.now)) }
    requires lengths { validity_length valid.now (length (rows offsets.now) - 1) ≡ true }
    ensures { result ≡ list_all (fits (type_of dtype.now)) (valid_rows (kept valid.now) (map plain.bytes (cut_at (rows offsets.now) bytes.now))) }
{
    // Without bytes each value is empty.
    if valid.is_none() && bytes.len() == 0 {
        return true;
    }
    for row in 0..row_count(offsets) {
        if !fits(dtype, piece_at(offsets, bytes, valid, row)) {
            return false;
        }
    }
    true
}

// `bytes[offsets[row] .. offsets[row + 1]]`.
#[cycle(cell_at)]
fn piece<'a>(offsets: &ArrayRef, bytes: &'a Bytes, row: u64) -> &'a [u8]
    requires integers { IsTrue (is_integer (tree_type offsets.now)) }
    requires in_range { row + 1 < length (rows offsets.now) }
    requires ends { IsTrue (are_offsets (length bytes.now) (rows offsets.now)) }
    ensures { result.now ≡ rows_between bytes.now (offset_at (rows offsets.now) row) (offset_at (rows offsets.now) (row + 1)) }
{
    let _offsets = offsets.len();
    let start = offset_at(offsets, row);
    let end = offset_at(offsets, row + 1);
    part(bytes.as_slice(), start, end)
}

// A row's bytes, null where the row isn't valid.
#[cycle(cell_at)]
pub(crate) fn piece_at<'a>(
    offsets: &ArrayRef,
    bytes: &'a Bytes,
    valid: &Option<Mask>,
    row: u64,
) -> Cell<'a>
    requires integers { IsTrue (is_integer (tree_type offsets.now)) }
    requires in_range { row + 1 < length (rows offsets.now) }
    requires ends { IsTrue (are_offsets (length bytes.now) (rows offsets.now)) }
    ensures { cell_value result ≡ (if is_valid_at valid.now row then plain.bytes (rows_between bytes.now (offset_at (rows offsets.now) row) (offset_at (rows offsets.now) (row + 1))) else null) }
{
    if is_valid(valid, row) {
        Cell::Bytes(piece(offsets, bytes, row))
    } else {
        Cell::Null
    }
}

// Whether the rows between the offsets are at most 2^31.
pub(crate) fn var_bin_extents_fit(offsets: &ArrayRef) -> bool
    ensures { result ≡ nat_le (length (rows offsets.now) - 1) row_limit }
{
    is_few(row_count(offsets))
}

// A copy of the node, over the caller's copy of the offsets.
pub(crate) fn copied_var_bin(
    alloc: Global,
    offsets: ArrayRef,
    bytes: &Bytes,
    valid: &Option<Mask>,
    dtype: &DType,
) -> VortexResult<Node>
    ensures { OrMemory result (λ copy. tree_of copy ≡ var_bin offsets bytes.now valid.now (type_of dtype.now)) }
{
    let offsets = Box::new(alloc, offsets)?;
    let bytes = bytes.copy(alloc)?;
    let valid = copy_validity(alloc, valid)?;
    Ok(Node::VarBin(Child { array: offsets }, bytes, valid, dtype.copy(alloc)?))
}
