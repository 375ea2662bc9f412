//! Rows of texts or binaries.

ghost use Rattle.std.specs.Prelude.{◌≡◌, ◌+◌, length, true, false, MatchOption, OnOk, OnErr};
ghost use Rattle.vx_base.specs.PlainType.{is_bytes};
ghost use Rattle.vx_base.specs.TypeOf.{type_of};
ghost use Rattle.vx_base.specs.declared.array_id.ArrayId.TheVariants as ids;
ghost use Rattle.vx_buffers.specs.Decoded.{HasTexts, bytes_fit, bytes_into, counted, shown, shown_of, texts_of};
ghost use Rattle.vx_buffers.specs.Answered.{Answered};
ghost use Rattle.vx_model.specs.Nested.{concatenated};
ghost use Rattle.vx_model.specs.Nodes.{encoding};
ghost use Rattle.vx_model.specs.Offsets.{offsets_of};
ghost use Rattle.vx_model.specs.Plain.{IsPlain};
ghost use Rattle.vx_model.specs.Refusals.{validity_length};
ghost use Rattle.vx_model.specs.Tree.{var_bin_view};
ghost use Rattle.vx_model.specs.TreeType.{tree_type};

use crate::refusal::Refusal;
use crate::rows::{plain_tree, show};
use std::alloc::Global;
use vx_array::{ArrayRef, Node};
use vx_base::{ByteRows, DType, Mask};
use vx_values::byte_rows;

// The rows, the validity and the type of a node of texts or binaries.
fn view_parts(plain: &ArrayRef) -> (&ByteRows, &Option<Mask>, &DType)
    requires { encoding plain.now ≡ ids.VarBinView }
    ensures { var_bin_view result.0.now result.1.now (type_of result.2.now) ≡ plain.now }
{
    match plain.node() {
        Node::VarBinView(rows, mask, dtype) => (rows, mask, dtype),
        _ => unreachable!(),
    }
}

// The rows of a plain tree of texts or binaries, and their validity; None of another type.
fn texts_in(plain: &ArrayRef) -> Option<(&ByteRows, &Option<Mask>)>
    requires { IsPlain plain.now }
    ensures { MatchOption result (is_bytes (tree_type plain.now) ≡ false) (λ found. HasTexts plain.now found.0.now found.1.now) }
{
    if !plain.dtype().is_bytes() {
        return None;
    }
    let (rows, mask, _) = view_parts(plain);
    Some((rows, mask))
}

// The number of bytes of all rows of a plain tree.
#[tactic(auto, using(crate::proofs::Passing::passing))]
fn plain_count(alloc: Global, plain: &ArrayRef) -> Result<u64, Refusal>
    requires { IsPlain plain.now }
    ensures { Answered (counted plain.now) result }
{
    match texts_in(plain) {
        Some((rows, _)) => Ok(byte_rows::concatenated(alloc, rows)?.len()),
        None => Err(Refusal::OtherType),
    }
}

/// The number of bytes of all rows of a tree of texts or binaries.
#[tactic(auto, using(crate::proofs::Passing::passing))]
pub fn byte_count(alloc: Global, tree: &ArrayRef) -> Result<u64, Refusal>
    ensures { Answered (counted tree.now) result }
{
    if tree.is_plain() {
        return plain_count(alloc, tree);
    }
    let plain = plain_tree(alloc, tree)?;
    plain_count(alloc, &plain)
}

// Copies the offsets, bytes and validity of all rows into buffers of their lengths.
fn copy_bytes(
    count: usize,
    starts: &[u64],
    all: &[u8],
    mask: &Option<Mask>,
    offsets: &mut [u64],
    bytes: &mut [u8],
    valid: &mut [bool],
) -> Result<(), Refusal>
    requires starts { length starts.now ≡ count + 1 }
    requires fits { validity_length mask.now count ≡ true }
    ensures status { result ≡ bytes_fit count (length all.now) (length offsets.old) (length bytes.old) (length valid.old) }
    ensures offsets { OnOk result (offsets.new ≡ starts.now) }
    ensures bytes { OnOk result (bytes.new ≡ all.now) }
    ensures valid { OnOk result (valid.new ≡ shown mask.now count) }
    ensures kept { OnErr result ((offsets.new ≡ offsets.old) × (bytes.new ≡ bytes.old) × (valid.new ≡ valid.old)) }
{
    if offsets.len() != starts.len() {
        return Err(Refusal::BufferLength);
    }
    if bytes.len() != all.len() {
        return Err(Refusal::BufferLength);
    }
    if valid.len() != count {
        return Err(Refusal::BufferLength);
    }
    offsets.copy_from_slice(starts);
    bytes.copy_from_slice(all);
    show(mask, valid);
    Ok(())
}

// Writes rows of bytes and their validity. The offsets and the bytes are made before anything is written, so that want of
// memory leaves the buffers as they were.
#[tactic(auto, using(crate::proofs::TextRows::offsets_count))]
fn write_rows(
    alloc: Global,
    rows: &ByteRows,
    mask: &Option<Mask>,
    offsets: &mut [u64],
    bytes: &mut [u8],
    valid: &mut [bool],
) -> Result<(), Refusal>
    requires { validity_length mask.now (length rows.now) ≡ true }
    ensures status { Answered (bytes_fit (length rows.now) (length (concatenated rows.now)) (length offsets.old) (length bytes.old) (length valid.old)) result }
    ensures offsets { OnOk result (offsets.new ≡ offsets_of rows.now) }
    ensures bytes { OnOk result (bytes.new ≡ concatenated rows.now) }
    ensures valid { OnOk result (valid.new ≡ shown mask.now (length rows.now)) }
    ensures kept { OnErr result ((offsets.new ≡ offsets.old) × (bytes.new ≡ bytes.old) × (valid.new ≡ valid.old)) }
{
    let starts = byte_rows::offsets(alloc, rows)?;
    let all = byte_rows::concatenated(alloc, rows)?;
    copy_bytes(
        rows.as_slice().len(),
        starts.as_slice(),
        all.as_slice(),
        mask,
        offsets,
        bytes,
        valid,
    )
}

// Writes the rows of a plain tree of texts or binaries.
fn write_bytes(
    alloc: Global,
    plain: &ArrayRef,
    offsets: &mut [u64],
    bytes: &mut [u8],
    valid: &mut [bool],
) -> Result<(), Refusal>
    requires { IsPlain plain.now }
    ensures status { Answered (bytes_into plain.now (length offsets.old) (length bytes.old) (length valid.old)) result }
    ensures offsets { OnOk result (offsets.new ≡ offsets_of (texts_of plain.now)) }
    ensures bytes { OnOk result (bytes.new ≡ concatenated (texts_of plain.now)) }
    ensures valid { OnOk result (valid.new ≡ shown_of plain.now) }
    ensures kept { OnErr result ((offsets.new ≡ offsets.old) × (bytes.new ≡ bytes.old) × (valid.new ≡ valid.old)) }
{
    match texts_in(plain) {
        Some((rows, mask)) => write_rows(alloc, rows, mask, offsets, bytes, valid),
        None => Err(Refusal::OtherType),
    }
}

/// The rows of a tree of texts or binaries, concatenated, no bytes beneath nulls; the offset of each row, and the end of the
/// last one; and which rows are there.
#[tactic(auto, using(crate::proofs::Passing::passing))]
pub fn decode_bytes(
    alloc: Global,
    tree: &ArrayRef,
    offsets: &mut [u64],
    bytes: &mut [u8],
    valid: &mut [bool],
) -> Result<(), Refusal>
    ensures status { Answered (bytes_into tree.now (length offsets.old) (length bytes.old) (length valid.old)) result }
    ensures offsets { OnOk result (offsets.new ≡ offsets_of (texts_of tree.now)) }
    ensures bytes { OnOk result (bytes.new ≡ concatenated (texts_of tree.now)) }
    ensures valid { OnOk result (valid.new ≡ shown_of tree.now) }
    ensures kept { OnErr result ((offsets.new ≡ offsets.old) × (bytes.new ≡ bytes.old) × (valid.new ≡ valid.old)) }
{
    if tree.is_plain() {
        return write_bytes(alloc, tree, offsets, bytes, valid);
    }
    let plain = plain_tree(alloc, tree)?;
    write_bytes(alloc, &plain, offsets, bytes, valid)
}
