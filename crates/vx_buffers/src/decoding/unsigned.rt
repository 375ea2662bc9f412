//! Rows of unsigned integers.

ghost use Rattle.std.specs.Prelude.{◌≡◌, length, map, pos, OnOk, OnErr};
ghost use Rattle.vx_base.specs.declared.ptype.PType.TheVariants.{U8, U16, U32, U64};
ghost use Rattle.vx_buffers.specs.Decoded.{integers_of, into_buffers, is_of, shown_of};
ghost use Rattle.vx_buffers.specs.Answered.{Answered};
ghost use Rattle.vx_model.specs.Plain.{IsPlain};
ghost use Rattle.vx_model.specs.Rows.{rows};
ghost use Rattle.vx_model.specs.TreeType.{tree_type};

use super::integers_in;
use crate::refusal::Refusal;
use crate::rows::{copy_rows, plain_tree};
use std::alloc::Global;
use vx_array::ArrayRef;
use vx_base::PType;
use vx_values::Ints;

// Writes the rows of a plain tree of `u8`.
fn write_u8(plain: &ArrayRef, out: &mut [u8], valid: &mut [bool]) -> Result<(), Refusal>
    requires { IsPlain plain.now }
    ensures status { result ≡ into_buffers (is_of U8 (tree_type plain.now)) (length (rows plain.now)) (length out.old) (length valid.old) }
    ensures rows { OnOk result (map (λ x. pos x) out.new ≡ integers_of plain.now) }
    ensures valid { OnOk result (valid.new ≡ shown_of plain.now) }
    ensures kept { OnErr result ((out.new ≡ out.old) × (valid.new ≡ valid.old)) }
{
    match integers_in(plain, PType::U8) {
        Some((Ints::U8(items), mask)) => copy_rows(items.as_slice(), mask, out, valid),
        Some(_) => unreachable!(),
        None => Err(Refusal::OtherType),
    }
}

/// The rows of a tree of `u8`, 0 beneath nulls, and which are there.
#[tactic(auto, using(crate::proofs::Passing::passing))]
pub fn decode_u8(
    alloc: Global,
    tree: &ArrayRef,
    out: &mut [u8],
    valid: &mut [bool],
) -> Result<(), Refusal>
    ensures status { Answered (into_buffers (is_of U8 (tree_type tree.now)) (length (rows tree.now)) (length out.old) (length valid.old)) result }
    ensures rows { OnOk result (map (λ x. pos x) out.new ≡ integers_of tree.now) }
    ensures valid { OnOk result (valid.new ≡ shown_of tree.now) }
    ensures kept { OnErr result ((out.new ≡ out.old) × (valid.new ≡ valid.old)) }
{
    if tree.is_plain() {
        return write_u8(tree, out, valid);
    }
    let plain = plain_tree(alloc, tree)?;
    write_u8(&plain, out, valid)
}

// Writes the rows of a plain tree of `u16`.
fn write_u16(plain: &ArrayRef, out: &mut [u16], valid: &mut [bool]) -> Result<(), Refusal>
    requires { IsPlain plain.now }
    ensures status { result ≡ into_buffers (is_of U16 (tree_type plain.now)) (length (rows plain.now)) (length out.old) (length valid.old) }
    ensures rows { OnOk result (map (λ x. pos x) out.new ≡ integers_of plain.now) }
    ensures valid { OnOk result (valid.new ≡ shown_of plain.now) }
    ensures kept { OnErr result ((out.new ≡ out.old) × (valid.new ≡ valid.old)) }
{
    match integers_in(plain, PType::U16) {
        Some((Ints::U16(items), mask)) => copy_rows(items.as_slice(), mask, out, valid),
        Some(_) => unreachable!(),
        None => Err(Refusal::OtherType),
    }
}

/// The rows of a tree of `u16`, 0 beneath nulls, and which are there.
#[tactic(auto, using(crate::proofs::Passing::passing))]
pub fn decode_u16(
    alloc: Global,
    tree: &ArrayRef,
    out: &mut [u16],
    valid: &mut [bool],
) -> Result<(), Refusal>
    ensures status { Answered (into_buffers (is_of U16 (tree_type tree.now)) (length (rows tree.now)) (length out.old) (length valid.old)) result }
    ensures rows { OnOk result (map (λ x. pos x) out.new ≡ integers_of tree.now) }
    ensures valid { OnOk result (valid.new ≡ shown_of tree.now) }
    ensures kept { OnErr result ((out.new ≡ out.old) × (valid.new ≡ valid.old)) }
{
    if tree.is_plain() {
        return write_u16(tree, out, valid);
    }
    let plain = plain_tree(alloc, tree)?;
    write_u16(&plain, out, valid)
}

// Writes the rows of a plain tree of `u32`.
fn write_u32(plain: &ArrayRef, out: &mut [u32], valid: &mut [bool]) -> Result<(), Refusal>
    requires { IsPlain plain.now }
    ensures status { result ≡ into_buffers (is_of U32 (tree_type plain.now)) (length (rows plain.now)) (length out.old) (length valid.old) }
    ensures rows { OnOk result (map (λ x. pos x) out.new ≡ integers_of plain.now) }
    ensures valid { OnOk result (valid.new ≡ shown_of plain.now) }
    ensures kept { OnErr result ((out.new ≡ out.old) × (valid.new ≡ valid.old)) }
{
    match integers_in(plain, PType::U32) {
        Some((Ints::U32(items), mask)) => copy_rows(items.as_slice(), mask, out, valid),
        Some(_) => unreachable!(),
        None => Err(Refusal::OtherType),
    }
}

/// The rows of a tree of `u32`, 0 beneath nulls, and which are there.
#[tactic(auto, using(crate::proofs::Passing::passing))]
pub fn decode_u32(
    alloc: Global,
    tree: &ArrayRef,
    out: &mut [u32],
    valid: &mut [bool],
) -> Result<(), Refusal>
    ensures status { Answered (into_buffers (is_of U32 (tree_type tree.now)) (length (rows tree.now)) (length out.old) (length valid.old)) result }
    ensures rows { OnOk result (map (λ x. pos x) out.new ≡ integers_of tree.now) }
    ensures valid { OnOk result (valid.new ≡ shown_of tree.now) }
    ensures kept { OnErr result ((out.new ≡ out.old) × (valid.new ≡ valid.old)) }
{
    if tree.is_plain() {
        return write_u32(tree, out, valid);
    }
    let plain = plain_tree(alloc, tree)?;
    write_u32(&plain, out, valid)
}

// Writes the rows of a plain tree of `u64`.
fn write_u64(plain: &ArrayRef, out: &mut [u64], valid: &mut [bool]) -> Result<(), Refusal>
    requires { IsPlain plain.now }
    ensures status { result ≡ into_buffers (is_of U64 (tree_type plain.now)) (length (rows plain.now)) (length out.old) (length valid.old) }
    ensures rows { OnOk result (map (λ x. pos x) out.new ≡ integers_of plain.now) }
    ensures valid { OnOk result (valid.new ≡ shown_of plain.now) }
    ensures kept { OnErr result ((out.new ≡ out.old) × (valid.new ≡ valid.old)) }
{
    match integers_in(plain, PType::U64) {
        Some((Ints::U64(items), mask)) => copy_rows(items.as_slice(), mask, out, valid),
        Some(_) => unreachable!(),
        None => Err(Refusal::OtherType),
    }
}

/// The rows of a tree of `u64`, 0 beneath nulls, and which are there.
#[tactic(auto, using(crate::proofs::Passing::passing))]
pub fn decode_u64(
    alloc: Global,
    tree: &ArrayRef,
    out: &mut [u64],
    valid: &mut [bool],
) -> Result<(), Refusal>
    ensures status { Answered (into_buffers (is_of U64 (tree_type tree.now)) (length (rows tree.now)) (length out.old) (length valid.old)) result }
    ensures rows { OnOk result (map (λ x. pos x) out.new ≡ integers_of tree.now) }
    ensures valid { OnOk result (valid.new ≡ shown_of tree.now) }
    ensures kept { OnErr result ((out.new ≡ out.old) × (valid.new ≡ valid.old)) }
{
    if tree.is_plain() {
        return write_u64(tree, out, valid);
    }
    let plain = plain_tree(alloc, tree)?;
    write_u64(&plain, out, valid)
}
