//! Values filled by runs or by patches.

ghost use Rattle.std.specs.Prelude.{◌≡◌, ◌+◌, ◌^◌, [], IsTrue, true, false, length, map, pos};
ghost use Rattle.vx_base.specs.Answers.{OrMemory};
ghost use Rattle.vx_base.specs.Defaults.{default_of, or_default};
ghost use Rattle.vx_base.specs.PlainType.{is_flat};
ghost use Rattle.vx_base.specs.PlainValue.{truth, int, bytes};
ghost use Rattle.vx_model.specs.WellFormed.{ascend};
ghost use Rattle.vx_values.specs.IntsOf.{wholes_of};
ghost use Rattle.vx_values.specs.Placed.{by_runs, by_patches};
ghost use Rattle.vx_values.specs.ValuesOf.{kind_of, kind_in, values_of, default_in};

use super::Values;
use crate::ints::Ints;
use crate::{bits, byte_rows};
use std::alloc::Global;
use vx_base::{ByteRows, Mask, Scalar, VortexResult};

impl Values {
    /// In each row the value of its run, of runs by their ends, which are exclusive. The kind's default where a run has no
    /// value.
    pub fn in_runs(&self, alloc: Global, ends: &Ints) -> VortexResult<Values>
        requires { IsTrue (ascend 1 (2 ^ 64) (map int (wholes_of ends.now))) }
        ensures { OrMemory result (λ values. (kind_in values ≡ kind_in self.now) × (values_of values ≡ by_runs (map int (wholes_of ends.now)) (values_of self.now) (default_in (kind_in self.now)))) }
    {
        match self {
            Values::Bits(bits) => truths_in_runs(alloc, bits, ends),
            Values::Ints(ints) => integers_in_runs(alloc, ints, ends),
            Values::Bytes(rows) => rows_in_runs(alloc, rows, ends),
        }
    }

    /// The fill in each of `len` rows, or its type's default where it is null, and then the value of each patch in its row,
    /// `index - offset`.
    pub fn with_patches(
        &self,
        alloc: Global,
        fill: &Scalar,
        indices: &Ints,
        offset: u64,
        len: u64,
    ) -> VortexResult<Values>
        requires flat { IsTrue (is_flat fill.now.dtype) }
        requires kind { kind_in self.now ≡ kind_of fill.now.dtype }
        requires rising { ascend offset (offset + len) (map int (wholes_of indices.now)) ≡ true }
        requires lengths { length (values_of self.now) ≡ length (wholes_of indices.now) }
        ensures { OrMemory result (λ values. (kind_in values ≡ kind_in self.now) × (values_of values ≡ by_patches (map int (wholes_of indices.now)) offset len (values_of self.now) (or_default (default_of fill.now.dtype) fill.now.value))) }
    {
        fill.known();
        let cell = fill.cell();
        match self {
            Values::Bits(bits) => {
                let rows = bits::with_patches(alloc, cell.truth(), bits, indices, offset, len)?;
                Ok(Values::Bits(rows))
            }
            Values::Ints(ints) => {
                let rows = ints.with_patches(alloc, cell.whole(), indices, offset, len)?;
                Ok(Values::Ints(rows))
            }
            Values::Bytes(rows) => {
                let rows = byte_rows::with_patches(
                    alloc,
                    cell.bytes(),
                    rows,
                    indices,
                    offset,
                    len,
                )?;
                Ok(Values::Bytes(rows))
            }
        }
    }
}

// `in_runs` of truth values, whose default is false.
fn truths_in_runs(alloc: Global, items: &Mask, ends: &Ints) -> VortexResult<Values>
    requires { IsTrue (ascend 1 (2 ^ 64) (map int (wholes_of ends.now))) }
    ensures { OrMemory result (λ values. (kind_in values ≡ kind_in (Values.Bits items.now)) × (values_of values ≡ by_runs (map int (wholes_of ends.now)) (map truth items.now) (truth false))) }
{
    Ok(Values::Bits(bits::in_runs(alloc, ends, items)?))
}

// `in_runs` of integers, whose default is 0.
fn integers_in_runs(alloc: Global, items: &Ints, ends: &Ints) -> VortexResult<Values>
    requires { IsTrue (ascend 1 (2 ^ 64) (map int (wholes_of ends.now))) }
    ensures { OrMemory result (λ values. (kind_in values ≡ kind_in (Values.Ints items.now)) × (values_of values ≡ by_runs (map int (wholes_of ends.now)) (map int (wholes_of items.now)) (int (pos 0)))) }
{
    Ok(Values::Ints(items.in_runs(alloc, ends)?))
}

// `in_runs` of texts and binaries, whose default is empty.
fn rows_in_runs(alloc: Global, items: &ByteRows, ends: &Ints) -> VortexResult<Values>
    requires { IsTrue (ascend 1 (2 ^ 64) (map int (wholes_of ends.now))) }
    ensures { OrMemory result (λ values. (kind_in values ≡ kind_in (Values.Bytes items.now)) × (values_of values ≡ by_runs (map int (wholes_of ends.now)) (map bytes items.now) (bytes []))) }
{
    Ok(Values::Bytes(byte_rows::in_runs(alloc, ends, items)?))
}
