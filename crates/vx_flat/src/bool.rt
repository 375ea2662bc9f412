//! Truth values with validity: a row, bytes, decoding.

ghost use Rattle.std.specs.Prelude.{◌≡◌, ◌+◌, length, None, slice_index_or, map, not, false, true, if◌then◌else◌};
ghost use Rattle.vx_base.specs.Answers.{OrMemory};
ghost use Rattle.vx_base.specs.CellValue.{cell_value};
ghost use Rattle.vx_base.specs.PlainType as types;
ghost use Rattle.vx_base.specs.PlainValue.{truth, null};
ghost use Rattle.vx_model.specs.Decoded.{zeroed_by, zero_beneath_by};
ghost use Rattle.vx_model.specs.Refusals.{validity_length};
ghost use Rattle.vx_model.specs.Rows.{is_valid_at};
ghost use Rattle.vx_model.specs.Size.{bit_bytes, validity_size};
ghost use Rattle.vx_model.specs.Tree.{bool};
ghost use Rattle.vx_values.specs.ValuesOf.{truths, AreRows};

use crate::sizes::{bit_bytes, validity_bytes};
use std::alloc::Global;
use vx_base::{Cell, Mask, VortexResult};
use vx_values::{Decoded, Values, bits, copy_validity, is_valid};

/// The truth value in a row, null where the row isn't valid.
pub fn truth_at(values: &Mask, valid: &Option<Mask>, row: u64) -> Cell<'static>
    ensures { cell_value result ≡ (if is_valid_at valid.now row then truth (slice_index_or values.now row false) else null) }
{
    if is_valid(valid, row) {
        Cell::Bool(values.is_set(row))
    } else {
        Cell::Null
    }
}

/// The bytes of truth values: `ceil(rows / 8)`, and as many again where there are validity bits.
pub fn bool_bytes(values: &Mask, valid: &Option<Mask>) -> u128
    ensures { result ≡ bit_bytes (length values.now) + validity_size valid.now }
{
    bit_bytes(values.len()) + validity_bytes(valid)
}

/// The rows, false beneath nulls, and their validity.
pub fn decoded_bool(alloc: Global, values: &Mask, valid: &Option<Mask>) -> VortexResult<Decoded>
    requires { validity_length valid.now (length values.now) ≡ true }
    ensures { OrMemory result (AreRows truths (map truth (zeroed_by false valid.now values.now)) valid.now) }
{
    let values = Values::Bits(bits::decoded(alloc, values, valid)?);
    let valid = copy_validity(alloc, valid)?;
    Ok(Decoded { values, valid })
}

/// Whether false stands beneath each null, as in a plain tree.
pub fn is_false_beneath(values: &Mask, valid: &Option<Mask>) -> bool
    requires { validity_length valid.now (length values.now) ≡ true }
    ensures { result ≡ zero_beneath_by not valid.now values.now }
{
    match valid {
        Some(mask) => bits::is_zero_beneath(values, mask),
        None => true,
    }
}
