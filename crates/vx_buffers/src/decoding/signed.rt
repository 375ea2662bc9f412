//! Rows of signed integers.

ghost use Rattle.std.specs.Prelude.{◌≡◌, length, map, OnOk, OnErr};
ghost use Rattle.vx_base.specs.declared.ptype.PType.TheVariants.{I8, I16, I32, I64};
ghost use Rattle.vx_buffers.specs.Decoded.{integers_of, into_buffers, is_of, shown_of};
ghost use Rattle.vx_buffers.specs.Answered.{Answered};
ghost use Rattle.vx_model.specs.Plain.{IsPlain};
ghost use Rattle.vx_model.specs.Rows.{rows};
ghost use Rattle.vx_model.specs.TreeType.{tree_type};

use super::integers_in;
use crate::refusal::Refusal;
use crate::rows::{copy_rows, plain_tree};
use std::alloc::Global;
use vx_array::ArrayRef;
use vx_base::PType;
use vx_values::Ints;

// Writes the rows of a plain tree of `i8`.
fn write_i8(plain: &ArrayRef, out: &mut [i8], valid: &mut [bool]) -> Result<(), Refusal>
    requires { IsPlain plain.now }
    ensures status { result ≡ into_buffers (is_of I8 (tree_type plain.now)) (length (rows plain.now)) (length out.old) (length valid.old) }
    ensures rows { OnOk result (map (λ x. x) out.new ≡ integers_of plain.now) }
    ensures valid { OnOk result (valid.new ≡ shown_of plain.now) }
    ensures kept { OnErr result ((out.new ≡ out.old) × (valid.new ≡ valid.old)) }
{
    match integers_in(plain, PType::I8) {
        Some((Ints::I8(items), mask)) => copy_rows(items.as_slice(), mask, out, valid),
        Some(_) => unreachable!(),
        None => Err(Refusal::OtherType),
    }
}

/// The rows of a tree of `i8`, 0 beneath nulls, and which are there.
#[tactic(auto, using(crate::proofs::Passing::passing))]
pub fn decode_i8(
    alloc: Global,
    tree: &ArrayRef,
    out: &mut [i8],
    valid: &mut [bool],
) -> Result<(), Refusal>
    ensures status { Answered (into_buffers (is_of I8 (tree_type tree.now)) (length (rows tree.now)) (length out.old) (length valid.old)) result }
    ensures rows { OnOk result (map (λ x. x) out.new ≡ integers_of tree.now) }
    ensures valid { OnOk result (valid.new ≡ shown_of tree.now) }
    ensures kept { OnErr result ((out.new ≡ out.old) × (valid.new ≡ valid.old)) }
{
    if tree.is_plain() {
        return write_i8(tree, out, valid);
    }
    let plain = plain_tree(alloc, tree)?;
    write_i8(&plain, out, valid)
}

// Writes the rows of a plain tree of `i16`.
fn write_i16(plain: &ArrayRef, out: &mut [i16], valid: &mut [bool]) -> Result<(), Refusal>
    requires { IsPlain plain.now }
    ensures status { result ≡ into_buffers (is_of I16 (tree_type plain.now)) (length (rows plain.now)) (length out.old) (length valid.old) }
    ensures rows { OnOk result (map (λ x. x) out.new ≡ integers_of plain.now) }
    ensures valid { OnOk result (valid.new ≡ shown_of plain.now) }
    ensures kept { OnErr result ((out.new ≡ out.old) × (valid.new ≡ valid.old)) }
{
    match integers_in(plain, PType::I16) {
        Some((Ints::I16(items), mask)) => copy_rows(items.as_slice(), mask, out, valid),
        Some(_) => unreachable!(),
        None => Err(Refusal::OtherType),
    }
}

/// The rows of a tree of `i16`, 0 beneath nulls, and which are there.
#[tactic(auto, using(crate::proofs::Passing::passing))]
pub fn decode_i16(
    alloc: Global,
    tree: &ArrayRef,
    out: &mut [i16],
    valid: &mut [bool],
) -> Result<(), Refusal>
    ensures status { Answered (into_buffers (is_of I16 (tree_type tree.now)) (length (rows tree.now)) (length out.old) (length valid.old)) result }
    ensures rows { OnOk result (map (λ x. x) out.new ≡ integers_of tree.now) }
    ensures valid { OnOk result (valid.new ≡ shown_of tree.now) }
    ensures kept { OnErr result ((out.new ≡ out.old) × (valid.new ≡ valid.old)) }
{
    if tree.is_plain() {
        return write_i16(tree, out, valid);
    }
    let plain = plain_tree(alloc, tree)?;
    write_i16(&plain, out, valid)
}

// Writes the rows of a plain tree of `i32`.
fn write_i32(plain: &ArrayRef, out: &mut [i32], valid: &mut [bool]) -> Result<(), Refusal>
    requires { IsPlain plain.now }
    ensures status { result ≡ into_buffers (is_of I32 (tree_type plain.now)) (length (rows plain.now)) (length out.old) (length valid.old) }
    ensures rows { OnOk result (map (λ x. x) out.new ≡ integers_of plain.now) }
    ensures valid { OnOk result (valid.new ≡ shown_of plain.now) }
    ensures kept { OnErr result ((out.new ≡ out.old) × (valid.new ≡ valid.old)) }
{
    match integers_in(plain, PType::I32) {
        Some((Ints::I32(items), mask)) => copy_rows(items.as_slice(), mask, out, valid),
        Some(_) => unreachable!(),
        None => Err(Refusal::OtherType),
    }
}

/// The rows of a tree of `i32`, 0 beneath nulls, and which are there.
#[tactic(auto, using(crate::proofs::Passing::passing))]
pub fn decode_i32(
    alloc: Global,
    tree: &ArrayRef,
    out: &mut [i32],
    valid: &mut [bool],
) -> Result<(), Refusal>
    ensures status { Answered (into_buffers (is_of I32 (tree_type tree.now)) (length (rows tree.now)) (length out.old) (length valid.old)) result }
    ensures rows { OnOk result (map (λ x. x) out.new ≡ integers_of tree.now) }
    ensures valid { OnOk result (valid.new ≡ shown_of tree.now) }
    ensures kept { OnErr result ((out.new ≡ out.old) × (valid.new ≡ valid.old)) }
{
    if tree.is_plain() {
        return write_i32(tree, out, valid);
    }
    let plain = plain_tree(alloc, tree)?;
    write_i32(&plain, out, valid)
}

// Writes the rows of a plain tree of `i64`.
fn write_i64(plain: &ArrayRef, out: &mut [i64], valid: &mut [bool]) -> Result<(), Refusal>
    requires { IsPlain plain.now }
    ensures status { result ≡ into_buffers (is_of I64 (tree_type plain.now)) (length (rows plain.now)) (length out.old) (length valid.old) }
    ensures rows { OnOk result (map (λ x. x) out.new ≡ integers_of plain.now) }
    ensures valid { OnOk result (valid.new ≡ shown_of plain.now) }
    ensures kept { OnErr result ((out.new ≡ out.old) × (valid.new ≡ valid.old)) }
{
    match integers_in(plain, PType::I64) {
        Some((Ints::I64(items), mask)) => copy_rows(items.as_slice(), mask, out, valid),
        Some(_) => unreachable!(),
        None => Err(Refusal::OtherType),
    }
}

/// The rows of a tree of `i64`, 0 beneath nulls, and which are there.
#[tactic(auto, using(crate::proofs::Passing::passing))]
pub fn decode_i64(
    alloc: Global,
    tree: &ArrayRef,
    out: &mut [i64],
    valid: &mut [bool],
) -> Result<(), Refusal>
    ensures status { Answered (into_buffers (is_of I64 (tree_type tree.now)) (length (rows tree.now)) (length out.old) (length valid.old)) result }
    ensures rows { OnOk result (map (λ x. x) out.new ≡ integers_of tree.now) }
    ensures valid { OnOk result (valid.new ≡ shown_of tree.now) }
    ensures kept { OnErr result ((out.new ≡ out.old) × (valid.new ≡ valid.old)) }
{
    if tree.is_plain() {
        return write_i64(tree, out, valid);
    }
    let plain = plain_tree(alloc, tree)?;
    write_i64(&plain, out, valid)
}
