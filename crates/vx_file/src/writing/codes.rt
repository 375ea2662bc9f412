//! Writers of nodes that look rows up in other columns, behind their ids: texts by offsets, masks and runs in blocks. Of codes
//! and runs only the two children are spelled.

ghost use Rattle.std.specs.Prelude.{◌≡◌, ◌++◌, IsTrue, OnOk, length};
ghost use Rattle.vx_base.specs.PlainType.{is_text, nullability_of};
ghost use Rattle.vx_base.specs.TypeOf.{type_of};
ghost use Rattle.vx_codec.specs.Bits.{bits};
ghost use Rattle.vx_codec.specs.Lists.{delimited};
ghost use Rattle.vx_file.specs.Writing.{valid_text};
ghost use Rattle.vx_spelling.specs.Fields.{row_count};
ghost use Rattle.vx_spelling.specs.LeafParts.{byte_type};
ghost use Rattle.vx_spelling.specs.Storable.{all_within};
ghost use Rattle.vx_spelling.specs.TreeSpelling.{tree_text};

use super::fields::{put_byte_type, put_mask, put_validity};
use super::tree::{put_tree, put_two};
use std::alloc::AllocError;
use vx_array::Child;
use vx_base::{Bytes, DType, Mask};
use vx_codec::{put_delimited, put_varint};

/// Appends texts or binaries by offsets: type, offsets, all bytes behind their length, validity.
#[cycle(put_tree)]
pub(super) fn put_var_bin(
    out: &mut Vec<u8>,
    offsets: &Child,
    content: &Bytes,
    valid: &Option<Mask>,
    dtype: &DType,
) -> Result<(), AllocError>
    requires { IsTrue (all_within offsets.now.array.value) }
    ensures { OnOk result (out.new.items ≡ out.old.items ++ (byte_type.spell (is_text (type_of dtype.now), nullability_of (type_of dtype.now)) ++ (tree_text offsets.now.array.value ++ (delimited.spell content.now ++ valid_text valid.now)))) }
{
    put_byte_type(out, dtype)?;
    put_tree(out, &offsets.array)?;
    put_delimited(out, content.as_slice())?;
    put_validity(out, valid)
}

/// Appends masked rows: child, a bit a row.
#[cycle(put_tree)]
pub(super) fn put_masked(out: &mut Vec<u8>, child: &Child, valid: &Mask) -> Result<(), AllocError>
    requires { IsTrue (all_within child.now.array.value) }
    ensures { OnOk result (out.new.items ≡ out.old.items ++ (tree_text child.now.array.value ++ (bits (length valid.now)).spell valid.now)) }
{
    put_tree(out, &child.array)?;
    put_mask(out, valid)
}

/// Appends runs in blocks: row count, values, indices, offsets.
#[cycle(put_tree)]
pub(super) fn put_rle(
    out: &mut Vec<u8>,
    values: &Child,
    indices: &Child,
    offsets: &Child,
    len: u64,
) -> Result<(), AllocError>
    requires values_within { IsTrue (all_within values.now.array.value) }
    requires indices_within { IsTrue (all_within indices.now.array.value) }
    requires offsets_within { IsTrue (all_within offsets.now.array.value) }
    ensures { OnOk result (out.new.items ≡ out.old.items ++ (row_count.spell len ++ (tree_text values.now.array.value ++ (tree_text indices.now.array.value ++ tree_text offsets.now.array.value)))) }
{
    put_varint(out, len)?;
    put_tree(out, &values.array)?;
    put_two(out, indices, offsets)
}
