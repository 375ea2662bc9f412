//! How many bytes fields take in a file. A sum stops at 2^64 - 1, above which no memory holds the spelling.

ghost use Rattle.std.specs.Prelude.{◌≡◌, ◌≤◌, ◌+◌, ◌-◌, ◌*◌, IfOk, length};
ghost use Rattle.vx_array.specs.TreeOf.{unboxed};
ghost use Rattle.vx_base.specs.Integers.{bytes_of};
ghost use Rattle.vx_codec.specs.Bits.{bytes_for};
ghost use Rattle.vx_codec.specs.Varint.{groups};
ghost use Rattle.vx_file.specs.Lengths.{capped, delimited_size, flat_size, kind_size, maybe_flat_size, scalar_size, texts_size, validity_size, varint_size};
ghost use Rattle.vx_model.specs.Rows.{rows};
ghost use Rattle.vx_spelling.specs.TypeSpelling.{type_depth};
ghost use Rattle.vx_values.specs.IntsOf.{ptype_of, wholes_of};

use super::values::put_scalar;
use std::alloc::{AllocError, Global};
use vx_array::{ArrayRef, Patches};
use vx_base::{ByteRows, Mask, Names, Scalar, TimestampType};
use vx_values::Ints;

// A byte for each group of seven bits, at most `left` groups.
fn groups_length(number: u64, left: u8) -> u64
    ensures is { result ≡ length (groups left number) }
    ensures few { result ≤ left }
{
    if left == 0 {
        return 0;
    }
    if number < 128 {
        return 1;
    }
    1 + groups_length(number / 128, left - 1)
}

/// A byte for each seven bits.
#[tactic(auto, unfolding(crate::specs::Lengths::varint_size))]
pub(super) fn varint_length(number: u64) -> u64
    ensures is { result ≡ varint_size number }
    ensures few { result ≤ 10 }
{
    groups_length(number, 10)
}

/// A byte for each eight rows.
pub(super) fn bits_length(rows: u64) -> u64
    ensures { result ≡ bytes_for rows }
{
    rows.div_ceil(8)
}

/// Bytes behind their number.
pub(super) fn delimited_length(count: u64) -> u64
    ensures { result ≡ capped (delimited_size count) }
{
    varint_length(count).saturating_add(count)
}

/// A flag, and a bit for each row where some row is null.
pub(super) fn validity_length(valid: &Option<Mask>, rows: u64) -> u64
    ensures { result ≡ validity_size valid.now rows }
{
    match valid {
        None => 1,
        Some(_) => 1 + bits_length(rows),
    }
}

/// The number of items between offsets.
pub(super) fn item_count(offsets: &ArrayRef) -> u64
    ensures { result ≡ length (rows offsets.now) - 1 }
{
    offsets.len().saturating_sub(1)
}

/// What many nodes have: bytes of a fixed number, the row count, some content, validity.
pub(super) fn rows_length(fixed: u64, rows: u64, content: u64, valid: &Option<Mask>) -> u64
    ensures { result ≡ capped (fixed + (varint_size rows + (content + validity_size valid.now rows))) }
{
    let counted = fixed.saturating_add(varint_length(rows));
    let filled = counted.saturating_add(content);
    filled.saturating_add(validity_length(valid, rows))
}

/// Each integer in the width of its type.
pub(super) fn items_length(values: &Ints) -> u64
    ensures { result ≡ capped (length (wholes_of values.now) * bytes_of (ptype_of values.now)) }
{
    values.len().saturating_mul(values.ptype().byte_width())
}

/// Texts or binaries, each behind its length.
pub(super) fn texts_length(rows: &ByteRows) -> u64
    ensures { result ≡ capped (texts_size rows.now) }
{
    let mut all: u64 = 0;
    for row in rows.as_slice() {
        all = all.saturating_add(delimited_length(row.len()));
    }
    all
}

/// The number of names, and each behind its length.
pub(super) fn names_length(names: &Names) -> u64
    ensures { result ≡ capped (varint_size (length names.now) + texts_size names.now) }
{
    let mut all = varint_length(names.len());
    for name in names.as_slice() {
        all = all.saturating_add(delimited_length(name.len()));
    }
    all
}

/// A unit, a flag, and the zone's name behind its length.
pub(super) fn kind_length(kind: &TimestampType) -> u64
    ensures { result ≡ capped (kind_size kind.now) }
{
    match kind.zone() {
        None => 2,
        Some(zone) => delimited_length(zone.len()).saturating_add(2),
    }
}

/// Of a scalar, which is small: it is spelled to be counted.
#[tactic(auto, unfolding(crate::specs::Lengths::scalar_size))]
pub(super) fn scalar_length(alloc: Global, scalar: &Scalar) -> Result<u64, AllocError>
    requires { type_depth scalar.now.dtype ≤ 64 }
    ensures { IfOk result (λ found. found ≡ scalar_size scalar.now) }
{
    let mut spelled = Vec::new(alloc);
    put_scalar(&mut spelled, scalar)?;
    Ok(spelled.len() as u64)
}

/// Row count and offset of patches; their trees are children.
pub(super) fn patch_length(patches: &Patches) -> u64
    ensures is { result ≡ flat_size patches.now.array_len patches.now.offset }
    ensures few { result ≤ 20 }
{
    varint_length(patches.array_len()) + varint_length(patches.offset())
}

/// The flag; and where there are patches, their numbers and the 0 for no chunk offsets.
pub(super) fn maybe_flat_length(patches: &Option<Box<Patches>>) -> u64
    ensures is { result ≡ maybe_flat_size (unboxed patches.now) }
    ensures few { result ≤ 22 }
{
    match patches {
        None => 1,
        Some(patches) => 2 + patch_length(patches),
    }
}
