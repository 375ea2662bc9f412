//! Rows of a tree, decoded into a caller's buffers: the default beneath nulls, and beside each row whether it is there.

ghost use Rattle.std.specs.Prelude.{◌≡◌, length, map, MatchOption, OnOk, OnErr, false};
ghost use Rattle.vx_base.specs.PlainType.{is_timestamp};
ghost use Rattle.vx_base.specs.TypeOf.{type_of};
ghost use Rattle.vx_buffers.specs.Decoded.{HasIntegers, HasStamps, HasTruths, integers_of, into_buffers, is_bool, is_of, shown_of, truths_of};
ghost use Rattle.vx_buffers.specs.Answered.{Answered};
ghost use Rattle.vx_base.specs.declared.array_id.ArrayId.TheVariants as ids;
ghost use Rattle.vx_model.specs.Nodes.{encoding};
ghost use Rattle.vx_model.specs.Plain.{IsPlain};
ghost use Rattle.vx_model.specs.Rows.{rows};
ghost use Rattle.vx_model.specs.Tree.{bool, timestamp};
ghost use Rattle.vx_model.specs.TreeType.{tree_type};

mod byte_rows;
mod signed;
mod unsigned;

use crate::refusal::Refusal;
use crate::rows::{copy_rows, plain_tree};
pub use byte_rows::{byte_count, decode_bytes};
pub use signed::{decode_i8, decode_i16, decode_i32, decode_i64};
use std::alloc::Global;
pub use unsigned::{decode_u8, decode_u16, decode_u32, decode_u64};
use vx_array::{ArrayRef, Node};
use vx_base::{DType, Mask, Nullability, PType, TimestampType};
use vx_values::Ints;

// Whether a type is that of integers of this kind, nullable or not.
fn is_of(dtype: &DType, ptype: PType) -> bool
    ensures { result ≡ is_of ptype (type_of dtype.now) }
{
    *dtype == DType::primitive(ptype, dtype.nullability())
}

// The integers of a plain tree of this type, and their validity; None of another type.
fn integers_in(plain: &ArrayRef, ptype: PType) -> Option<(&Ints, &Option<Mask>)>
    requires { IsPlain plain.now }
    ensures { MatchOption result (is_of ptype (tree_type plain.now) ≡ false) (λ found. HasIntegers ptype plain.now found.0.now found.1.now) }
{
    if !is_of(plain.dtype(), ptype) {
        return None;
    }
    let (ints, mask, _) = plain.as_primitive();
    Some((ints, mask))
}

// Whether a type is that of truth values, nullable or not.
fn is_bool(dtype: &DType) -> bool
    ensures { result ≡ is_bool (type_of dtype.now) }
{
    matches!(dtype, DType::Bool(_))
}

// The truth values, the validity and the nullability of a node of truth values.
fn truth_parts(plain: &ArrayRef) -> (&Mask, &Option<Mask>, Nullability)
    requires { encoding plain.now ≡ ids.Bool }
    ensures { bool result.0.now result.1.now result.2 ≡ plain.now }
{
    match plain.node() {
        Node::Bool(bits, mask, nullability) => (bits, mask, *nullability),
        _ => unreachable!(),
    }
}

// The truth values of a plain tree, and their validity; None of another type.
fn truths_in(plain: &ArrayRef) -> Option<(&Mask, &Option<Mask>)>
    requires { IsPlain plain.now }
    ensures { MatchOption result (is_bool (tree_type plain.now) ≡ false) (λ found. HasTruths plain.now found.0.now found.1.now) }
{
    if !is_bool(plain.dtype()) {
        return None;
    }
    let (bits, mask, _) = truth_parts(plain);
    Some((bits, mask))
}

// The storage and the kind of a node of timestamps.
fn storage_in(plain: &ArrayRef) -> (&ArrayRef, &TimestampType)
    requires { encoding plain.now ≡ ids.Timestamp }
    ensures { timestamp result.0.now result.1.now ≡ plain.now }
{
    match plain.node() {
        Node::Timestamp(storage, kind) => (&storage.array, kind),
        _ => unreachable!(),
    }
}

// The counts of a plain tree of timestamps, and their validity; None of another type.
fn stamps_in(plain: &ArrayRef) -> Option<(&Ints, &Option<Mask>)>
    requires { IsPlain plain.now }
    ensures { MatchOption result (is_timestamp (tree_type plain.now) ≡ false) (λ found. HasStamps plain.now found.0.now found.1.now) }
{
    if !plain.dtype().is_timestamp() {
        return None;
    }
    let (storage, _) = storage_in(plain);
    let (ints, mask, _) = storage.as_primitive();
    Some((ints, mask))
}

// Writes the rows of a plain tree of truth values.
fn write_bool(plain: &ArrayRef, out: &mut [bool], valid: &mut [bool]) -> Result<(), Refusal>
    requires { IsPlain plain.now }
    ensures status { result ≡ into_buffers (is_bool (tree_type plain.now)) (length (rows plain.now)) (length out.old) (length valid.old) }
    ensures rows { OnOk result (out.new ≡ truths_of plain.now) }
    ensures valid { OnOk result (valid.new ≡ shown_of plain.now) }
    ensures kept { OnErr result ((out.new ≡ out.old) × (valid.new ≡ valid.old)) }
{
    match truths_in(plain) {
        Some((bits, mask)) => copy_rows(bits.as_slice(), mask, out, valid),
        None => Err(Refusal::OtherType),
    }
}

/// The rows of a tree of truth values, false beneath nulls, and which are there.
#[tactic(auto, using(crate::proofs::Passing::passing))]
pub fn decode_bool(
    alloc: Global,
    tree: &ArrayRef,
    out: &mut [bool],
    valid: &mut [bool],
) -> Result<(), Refusal>
    ensures status { Answered (into_buffers (is_bool (tree_type tree.now)) (length (rows tree.now)) (length out.old) (length valid.old)) result }
    ensures rows { OnOk result (out.new ≡ truths_of tree.now) }
    ensures valid { OnOk result (valid.new ≡ shown_of tree.now) }
    ensures kept { OnErr result ((out.new ≡ out.old) × (valid.new ≡ valid.old)) }
{
    if tree.is_plain() {
        return write_bool(tree, out, valid);
    }
    let plain = plain_tree(alloc, tree)?;
    write_bool(&plain, out, valid)
}

// Writes the rows of a plain tree of timestamps.
fn write_timestamps(plain: &ArrayRef, out: &mut [i64], valid: &mut [bool]) -> Result<(), Refusal>
    requires { IsPlain plain.now }
    ensures status { result ≡ into_buffers (is_timestamp (tree_type plain.now)) (length (rows plain.now)) (length out.old) (length valid.old) }
    ensures rows { OnOk result (map (λ x. x) out.new ≡ integers_of plain.now) }
    ensures valid { OnOk result (valid.new ≡ shown_of plain.now) }
    ensures kept { OnErr result ((out.new ≡ out.old) × (valid.new ≡ valid.old)) }
{
    match stamps_in(plain) {
        Some((Ints::I64(items), mask)) => copy_rows(items.as_slice(), mask, out, valid),
        Some(_) => unreachable!(),
        None => Err(Refusal::OtherType),
    }
}

/// The rows of a tree of timestamps, in their unit, 0 beneath nulls, and which are there.
#[tactic(auto, using(crate::proofs::Passing::passing))]
pub fn decode_timestamps(
    alloc: Global,
    tree: &ArrayRef,
    out: &mut [i64],
    valid: &mut [bool],
) -> Result<(), Refusal>
    ensures status { Answered (into_buffers (is_timestamp (tree_type tree.now)) (length (rows tree.now)) (length out.old) (length valid.old)) result }
    ensures rows { OnOk result (map (λ x. x) out.new ≡ integers_of tree.now) }
    ensures valid { OnOk result (valid.new ≡ shown_of tree.now) }
    ensures kept { OnErr result ((out.new ≡ out.old) × (valid.new ≡ valid.old)) }
{
    if tree.is_plain() {
        return write_timestamps(tree, out, valid);
    }
    let plain = plain_tree(alloc, tree)?;
    write_timestamps(&plain, out, valid)
}
