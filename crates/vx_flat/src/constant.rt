//! One scalar in every row: nulls, places, bytes, extents, decoding. Each is found from the scalar once, whatever the
//! number of rows.

ghost use Rattle.std.specs.List.{list_all, list_any};
ghost use Rattle.std.specs.Prelude.{◌≡◌, IsTrue, map, replicate, ◌+◌, ◌-◌, ◌^◌, min};
ghost use Rattle.vx_base.specs.Answers.{Answers, OrMemory};
ghost use Rattle.vx_base.specs.Defaults.{default_of, or_default};
ghost use Rattle.vx_base.specs.PlainType.{is_flat, is_integer};
ghost use Rattle.vx_base.specs.PlainValue.{is_null};
ghost use Rattle.vx_model.specs.Extents.{extents_fit};
ghost use Rattle.vx_model.specs.Plain.{validity};
ghost use Rattle.vx_model.specs.Size.{payload};
ghost use Rattle.vx_model.specs.Tree.{constant};
ghost use Rattle.vx_model.specs.WellFormed.{is_place};
ghost use Rattle.vx_values.specs.ValuesOf.{kind_of, AreRows};

use crate::counting::counts_fit;
use crate::dict::is_place;
use crate::payload::payload_bytes;
use std::alloc::Global;
use std::slice;
use vx_base::{Mask, Scalar, VortexResult};
use vx_values::{Decoded, Values};

/// Whether some row of a constant is null: its value is, and there are rows.
#[tactic(auto, using(vx_model::proofs::NullLemmas::nulls))]
pub fn constant_has_null(value: &Scalar, len: u64) -> bool
    ensures { result ≡ list_any is_null (replicate len value.now.value) }
{
    value.is_null() && len > 0
}

/// Whether a constant integer is null or in bounds of `values` values, in each of its rows.
#[tactic(auto, using(crate::proofs::Copies::copies))]
pub fn constant_is_place(code: &Scalar, len: u64, values: u64) -> bool
    requires { IsTrue (is_integer code.now.dtype) }
    ensures { result ≡ list_all (is_place values) (replicate len code.now.value) }
{
    len == 0 || is_place(code.integer(), values)
}

/// The bytes of a constant: 1 and its payload, whatever its rows. Saturates at 2^128 - 1.
pub fn constant_bytes(value: &Scalar) -> u128
    ensures { result ≡ min (1 + payload value.now.dtype value.now.value) (2 ^ 128 - 1) }
{
    payload_bytes(value.dtype(), value.value()).saturating_add(1)
}

/// Whether the extents of a constant, its own rows and those of each nested column, are at most 2^31.
#[tactic(auto, using(crate::proofs::ConstantExtents::constants))]
pub fn constant_extents_fit(value: &Scalar, len: u64) -> bool
    ensures { result ≡ extents_fit (constant value.now len) }
{
    counts_fit(value.dtype(), slice::from_ref(value.value()), len)
}

// The validity of a constant's rows: bits exactly where the value is null and there are rows.
#[tactic(auto, using(vx_model::proofs::DecodeLemmas::decodes))]
fn validity_of_constant(alloc: Global, value: &Scalar, len: u64) -> VortexResult<Option<Mask>>
    ensures { Answers result (validity (replicate len value.now.value)) }
{
    if !value.is_null() || len == 0 {
        return Ok(None);
    }
    Ok(Some(Mask::from_bits(vec![in alloc; false; len as usize]?)))
}

/// The rows of a constant of a leaf type or of timestamps, the type's default beneath nulls, and their validity.
pub fn decoded_constant(alloc: Global, value: &Scalar, len: u64) -> VortexResult<Decoded>
    requires { IsTrue (is_flat value.now.dtype) }
    ensures { OrMemory result (AreRows (kind_of value.now.dtype) (map (or_default (default_of value.now.dtype)) (replicate len value.now.value)) (validity (replicate len value.now.value))) }
{
    let values = Values::filled(alloc, value, len)?;
    let valid = validity_of_constant(alloc, value, len)?;
    Ok(Decoded { values, valid })
}
