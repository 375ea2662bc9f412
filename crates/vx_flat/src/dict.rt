//! Dictionaries: which codes are places, decoding.

ghost use Rattle.std.specs.Prelude.{◌≡◌, true, length, map};
ghost use Rattle.vx_base.specs.Answers.{OrMemory};
ghost use Rattle.vx_base.specs.PlainValue.{cell};
ghost use Rattle.vx_model.specs.Decoded.{zeroed_by, picked};
ghost use Rattle.vx_model.specs.Refusals.{validity_length};
ghost use Rattle.vx_model.specs.WellFormed.{is_place};
ghost use Rattle.vx_values.specs.Codes.{validity_by_codes};
ghost use Rattle.vx_values.specs.IntsOf.{ptype_of, wholes_of};
ghost use Rattle.vx_values.specs.ValuesOf.{kind_in, values_of, default_in, AreRows};

use std::alloc::Global;
use vx_base::{Mask, VortexResult};
use vx_values::{Decoded, Ints, valid_codes};

/// Whether a code is null or in bounds of `values` values.
pub fn is_place(code: Option<i128>, values: u64) -> bool
    ensures { result ≡ is_place values (cell code) }
{
    match code {
        Some(code) => code >= 0 && code < i128::from(values),
        None => true,
    }
}

/// `values[code]` in each row, the default beneath nulls, and the validity: a row is valid where its code is and that value
/// is. Used for each node whose rows are found by places: Dict and Rle.
pub fn decoded_by_codes(
    alloc: Global,
    codes: Ints,
    valid: Option<Mask>,
    values: Decoded,
) -> VortexResult<Decoded>
    requires { validity_length valid (length (wholes_of codes)) ≡ true }
    ensures { OrMemory result (AreRows (kind_in values.values) (zeroed_by (default_in (kind_in values.values)) valid (map (λ code. picked (ptype_of codes) (values_of values.values) (default_in (kind_in values.values)) code) (wholes_of codes))) (validity_by_codes (ptype_of codes) (wholes_of codes) valid values.valid)) }
{
    let picked = values.values.picked(alloc, &codes)?;
    let picked = picked.zeroed_by(&valid);
    let valid = valid_codes(alloc, &codes, valid, &values.valid)?;
    Ok(Decoded {
        values: picked,
        valid,
    })
}
