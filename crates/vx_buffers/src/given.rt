//! Plain columns of a caller's rows: integers, truth values, texts and binaries.

ghost use Rattle.std.specs.Prelude.{◌≡◌};
ghost use Rattle.vx_base.specs.Answers.{Answers};
ghost use Rattle.vx_base.specs.TypeOf.{type_of};
ghost use Rattle.vx_buffers.specs.Answered.{Answered};
ghost use Rattle.vx_buffers.specs.Given.{bytes_type, given_bytes, given_integers, given_truths, joined, joined_at, offsets_tree};
ghost use Rattle.vx_values.specs.IntsOf.{ptype_of, wholes_of};

use crate::refusal::Refusal;
use crate::validity::{given_validity, truths};
use std::alloc::Global;
use vx_array::ArrayRef;
use vx_base::{Bytes, DType, IntList, Mask, Nullability, VortexResult};
use vx_values::Ints;

/// A column of integers.
#[tactic(auto, using(crate::proofs::Passing::passing))]
pub fn given_integers(
    alloc: Global,
    values: Ints,
    form: u8,
    valid: &[u8],
    offset: u64,
) -> Result<ArrayRef, Refusal>
    ensures { Answered (given_integers (ptype_of values) (wholes_of values) form valid.now offset) result }
{
    let (mask, nullability) = given_validity(alloc, form, valid, offset, values.len())?;
    Ok(ArrayRef::primitive_of(values, mask, nullability))
}

/// A column of truth values, each a byte: false of 0, else true.
#[tactic(auto, using(crate::proofs::Passing::passing))]
pub fn given_truths(
    alloc: Global,
    rows: &[u8],
    form: u8,
    valid: &[u8],
    offset: u64,
) -> Result<ArrayRef, Refusal>
    ensures { Answered (given_truths rows.now form valid.now offset) result }
{
    let (mask, nullability) = given_validity(alloc, form, valid, offset, rows.len() as u64)?;
    let bits = truths(alloc, rows)?;
    Ok(ArrayRef::bool_of(bits, mask, nullability))
}

// The type of texts or of binaries.
fn bytes_type(is_text: bool, nullability: Nullability) -> DType
    ensures { type_of result ≡ bytes_type is_text nullability }
{
    if is_text {
        DType::utf8(nullability)
    } else {
        DType::binary(nullability)
    }
}

/// A column of texts or binaries: row `r` has the bytes from `offsets[r]` to `offsets[r + 1]`.
#[tactic(auto, using(crate::proofs::Passing::passing))]
pub fn given_bytes(
    alloc: Global,
    is_text: bool,
    offsets: &[u64],
    bytes: &[u8],
    form: u8,
    valid: &[u8],
    offset: u64,
) -> Result<ArrayRef, Refusal>
    ensures { Answered (given_bytes is_text offsets.now bytes.now form valid.now offset) result }
{
    if offsets.len() == 0 {
        return Err(Refusal::BadOffsets);
    }
    let rows = offsets.len() as u64 - 1;
    let (mask, nullability) = given_validity(alloc, form, valid, offset, rows)?;
    joined(alloc, is_text, offsets, bytes, mask, nullability)
}

// A caller's offsets as a column of `u64`.
fn offsets_column(alloc: Global, offsets: &[u64]) -> VortexResult<ArrayRef>
    ensures { Answers result (offsets_tree offsets.now) }
{
    let starts = Ints::U64(IntList::from_vec(Vec::from_slice(alloc, offsets)?));
    Ok(ArrayRef::primitive_of(starts, None, Nullability::NonNullable))
}

// The node of texts or binaries by offsets, over copies of both.
#[tactic(auto, using(crate::proofs::Passing::passing))]
fn joined(
    alloc: Global,
    is_text: bool,
    offsets: &[u64],
    bytes: &[u8],
    mask: Option<Mask>,
    nullability: Nullability,
) -> Result<ArrayRef, Refusal>
    ensures { Answered (joined is_text offsets.now bytes.now mask nullability) result }
{
    let starts = offsets_column(alloc, offsets)?;
    let content = Vec::from_slice(alloc, bytes)?;
    joined_at(
        alloc,
        starts,
        Bytes::from_vec(content),
        mask,
        bytes_type(is_text, nullability),
    )
}

// The node of texts or binaries by a column of offsets.
fn joined_at(
    alloc: Global,
    starts: ArrayRef,
    content: Bytes,
    mask: Option<Mask>,
    dtype: DType,
) -> Result<ArrayRef, Refusal>
    ensures { Answered (joined_at starts content mask (type_of dtype)) result }
{
    match ArrayRef::var_bin(alloc, starts, content, mask, dtype) {
        Ok(column) => Ok(column),
        Err(refused) => Err(Refusal::from(refused.error)),
    }
}
