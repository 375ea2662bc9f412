//! Decoding of runs and of patches: each row is written in place.

ghost use Rattle.std.specs.Prelude.{◌≡◌, ◌+◌, ◌^◌, IsTrue, true, length, map, not};
ghost use Rattle.vx_base.specs.Answers.{OrMemory};
ghost use Rattle.vx_base.specs.Defaults.{default_of, or_default};
ghost use Rattle.vx_base.specs.PlainType.{is_flat};
ghost use Rattle.vx_base.specs.PlainValue.{int, is_null};
ghost use Rattle.vx_model.specs.Refusals.{validity_length};
ghost use Rattle.vx_model.specs.Rows.{rows};
ghost use Rattle.vx_model.specs.WellFormed.{ascend};
ghost use Rattle.vx_values.specs.IntsOf.{wholes_of};
ghost use Rattle.vx_values.specs.Placed.{by_patches, by_runs, validity_by_patches, validity_by_runs};
ghost use Rattle.vx_values.specs.ValuesOf.{kind_in, kind_of, values_of, default_in, AreRows};

use std::alloc::Global;
use vx_base::{Scalar, VortexResult};
use vx_values::{Decoded, Ints, validity_in_runs, validity_with_patches};

/// In each row the value of its run, and its validity, of runs by their ends, which are exclusive.
pub fn decoded_by_runs(alloc: Global, ends: &Ints, values: Decoded) -> VortexResult<Decoded>
    requires { IsTrue (ascend 1 (2 ^ 64) (map int (wholes_of ends.now))) }
    ensures { OrMemory result (AreRows (kind_in values.values) (by_runs (map int (wholes_of ends.now)) (values_of values.values) (default_in (kind_in values.values))) (validity_by_runs (map int (wholes_of ends.now)) values.valid)) }
{
    let rows = values.values.in_runs(alloc, ends)?;
    let valid = validity_in_runs(alloc, ends, &values.valid)?;
    Ok(Decoded {
        values: rows,
        valid,
    })
}

/// The fill in each of `len` rows, and then the value of each patch in its row, `index - offset`, and the validity of both.
pub fn decoded_by_patches(
    alloc: Global,
    fill: &Scalar,
    values: Decoded,
    indices: &Ints,
    offset: u64,
    len: u64,
) -> VortexResult<Decoded>
    requires flat { IsTrue (is_flat fill.now.dtype) }
    requires kind { kind_in values.values ≡ kind_of fill.now.dtype }
    requires rising { ascend offset (offset + len) (map int (wholes_of indices.now)) ≡ true }
    requires lengths { length (values_of values.values) ≡ length (wholes_of indices.now) }
    requires bits { validity_length values.valid (length (wholes_of indices.now)) ≡ true }
    ensures { OrMemory result (AreRows (kind_in values.values) (by_patches (map int (wholes_of indices.now)) offset len (values_of values.values) (or_default (default_of fill.now.dtype) fill.now.value)) (validity_by_patches (map int (wholes_of indices.now)) offset len values.valid (not (is_null fill.now.value)))) }
{
    let rows = values
        .values
        .with_patches(alloc, fill, indices, offset, len)?;
    let valid = validity_with_patches(alloc, !fill.is_null(), &values.valid, indices, offset, len)?;
    Ok(Decoded {
        values: rows,
        valid,
    })
}
