//! Texts and binaries by offsets into one run of bytes: a value, bytes, decoding.

ghost use Rattle.std.specs.Prelude.{◌≡◌, ◌<◌, ◌≤◌, ◌+◌, ◌-◌, ◌^◌, IsTrue, length, map, min, true, []};
ghost use Rattle.vx_base.specs.Answers.{OrMemory};
ghost use Rattle.vx_base.specs.Masks.{rows_between};
ghost use Rattle.vx_base.specs.PlainValue as plain;
ghost use Rattle.vx_base.specs.PlainValue.{int};
ghost use Rattle.vx_model.specs.Decoded.{zeroed_by};
ghost use Rattle.vx_model.specs.Refusals.{validity_length};
ghost use Rattle.vx_model.specs.Rows.{rows, cut_at};
ghost use Rattle.vx_model.specs.Size.{validity_size};
ghost use Rattle.vx_model.specs.WellFormed.{are_offsets};
ghost use Rattle.vx_values.specs.IntsOf.{wholes_of};
ghost use Rattle.vx_values.specs.ValuesOf.{byte_rows, AreRows};

use crate::sizes::validity_bytes;
use std::alloc::Global;
use vx_base::{Bytes, Mask, VortexResult};
use vx_values::{Decoded, Ints, Values, byte_rows, copy_validity};

/// `bytes[start..end]`.
pub fn part(bytes: &[u8], start: u128, end: u128) -> &[u8]
    requires rising { start ≤ end }
    requires within { end ≤ length bytes.now }
    ensures { result.now ≡ rows_between bytes.now start end }
{
    &bytes[start as usize..end as usize]
}

/// The bytes of texts or binaries by offsets: the offsets' own, one a byte, and validity. Saturates at 2^128 - 1.
pub fn var_bin_bytes(offsets: u128, bytes: &Bytes, valid: &Option<Mask>) -> u128
    ensures { result ≡ min (offsets + length bytes.now + validity_size valid.now) (2 ^ 128 - 1) }
{
    let own = u128::from(bytes.len()) + validity_bytes(valid);
    offsets.saturating_add(own)
}

/// `bytes[offsets[row]..offsets[row + 1]]` in each row, no bytes beneath nulls, and the validity.
pub fn decoded_var_bin(
    alloc: Global,
    offsets: &Ints,
    bytes: &Bytes,
    valid: &Option<Mask>,
) -> VortexResult<Decoded>
    requires some { 1 ≤ length (wholes_of offsets.now) }
    requires ends { IsTrue (are_offsets (length bytes.now) (map int (wholes_of offsets.now))) }
    requires bits { validity_length valid.now (length (wholes_of offsets.now) - 1) ≡ true }
    ensures { OrMemory result (AreRows byte_rows (map plain.bytes (zeroed_by [] valid.now (cut_at (map int (wholes_of offsets.now)) bytes.now))) valid.now) }
{
    let rows = byte_rows::cut(alloc, bytes.as_slice(), offsets, valid)?;
    let valid = copy_validity(alloc, valid)?;
    Ok(Decoded {
        values: Values::Bytes(rows),
        valid,
    })
}
