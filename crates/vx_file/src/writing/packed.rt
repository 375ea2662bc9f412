//! Writers of packed integers, frames of reference and deltas, behind their ids. Of zigzags only the child is spelled.

ghost use Rattle.std.specs.Prelude.{◌≡◌, ◌++◌, ◌≤◌, IsTrue, OnOk, length};
ghost use Rattle.vx_array.specs.TreeOf.{unboxed};
ghost use Rattle.vx_codec.specs.FixedWidth.{byte};
ghost use Rattle.vx_file.specs.Writing.{MaybeWithin, maybe_flat_text, valid_text};
ghost use Rattle.vx_spelling.specs.Fields.{counted_bytes, nullability, ptype, row_count};
ghost use Rattle.vx_spelling.specs.Storable.{all_within};
ghost use Rattle.vx_spelling.specs.TreeSpelling.{tree_text};
ghost use Rattle.vx_spelling.specs.TypeSpelling.{type_depth};
ghost use Rattle.vx_spelling.specs.ValueSpelling.{scalar_parts};

use super::fields::{put_nullability, put_ptype, put_validity};
use super::patches::put_maybe_flat;
use super::tree::{put_tree, put_two};
use super::values::put_scalar;
use std::alloc::AllocError;
use vx_array::{Child, Patches};
use vx_base::{Bytes, Mask, Nullability, PType, Scalar};
use vx_codec::{put_byte, put_delimited, put_varint};

/// Appends integers packed at one width: type, nullability, width, row count, packed bytes, validity, patches.
#[cycle(put_tree)]
pub(super) fn put_bit_packed(
    out: &mut Vec<u8>,
    own_type: (PType, Nullability),
    width: u32,
    len: u64,
    packed: &Bytes,
    valid: &Option<Mask>,
    patches: &Option<Box<Patches>>,
) -> Result<(), AllocError>
    requires width { width ≤ 64 }
    requires within { MaybeWithin (unboxed patches.now) }
    ensures { OnOk result (out.new.items ≡ out.old.items ++ ((((ptype.spell own_type.0 ++ nullability.spell own_type.1) ++ (byte.spell width ++ row_count.spell len)) ++ (packed.now ++ valid_text valid.now)) ++ maybe_flat_text (unboxed patches.now))) }
{
    let (ptype, nulls) = own_type;
    put_ptype(out, ptype)?;
    put_nullability(out, nulls)?;
    put_byte(out, width as u8)?;
    put_varint(out, len)?;
    out.extend_from_slice(packed.as_slice())?;
    put_validity(out, valid)?;
    put_maybe_flat(out, patches)
}

/// Appends integers packed in blocks: type, nullability, row count, block offsets, packed bytes behind their length, validity,
/// patches.
#[cycle(put_tree)]
pub(super) fn put_bit_packed_v2(
    out: &mut Vec<u8>,
    own_type: (PType, Nullability),
    len: u64,
    offsets: &Child,
    packed: &Bytes,
    valid: &Option<Mask>,
    patches: &Option<Box<Patches>>,
) -> Result<(), AllocError>
    requires offsets_within { IsTrue (all_within offsets.now.array.value) }
    requires within { MaybeWithin (unboxed patches.now) }
    ensures { OnOk result (out.new.items ≡ out.old.items ++ ((((ptype.spell own_type.0 ++ nullability.spell own_type.1) ++ row_count.spell len) ++ (tree_text offsets.now.array.value ++ (counted_bytes.spell packed.now ++ valid_text valid.now))) ++ maybe_flat_text (unboxed patches.now))) }
{
    let (ptype, nulls) = own_type;
    put_ptype(out, ptype)?;
    put_nullability(out, nulls)?;
    put_varint(out, len)?;
    put_tree(out, &offsets.array)?;
    put_delimited(out, packed.as_slice())?;
    put_validity(out, valid)?;
    put_maybe_flat(out, patches)
}

/// Appends a frame of reference: the encoded integers, and the reference as a scalar.
#[cycle(put_tree)]
pub(super) fn put_for(
    out: &mut Vec<u8>,
    encoded: &Child,
    reference: &Scalar,
) -> Result<(), AllocError>
    requires within { IsTrue (all_within encoded.now.array.value) }
    requires nests { type_depth reference.now.dtype ≤ 64 }
    ensures { OnOk result (out.new.items ≡ out.old.items ++ (tree_text encoded.now.array.value ++ scalar_parts.spell (reference.now.dtype, reference.now.value))) }
{
    put_tree(out, &encoded.array)?;
    put_scalar(out, reference)
}

/// Appends deltas: nullability, row count, bases, deltas, validity.
#[cycle(put_tree)]
pub(super) fn put_delta(
    out: &mut Vec<u8>,
    bases: &Child,
    deltas: &Child,
    len: u64,
    valid: &Option<Mask>,
    nulls: Nullability,
) -> Result<(), AllocError>
    requires bases_within { IsTrue (all_within bases.now.array.value) }
    requires deltas_within { IsTrue (all_within deltas.now.array.value) }
    ensures { OnOk result (out.new.items ≡ out.old.items ++ ((nullability.spell nulls ++ row_count.spell len) ++ ((tree_text bases.now.array.value ++ tree_text deltas.now.array.value) ++ valid_text valid.now))) }
{
    put_nullability(out, nulls)?;
    put_varint(out, len)?;
    put_two(out, bases, deltas)?;
    put_validity(out, valid)
}
