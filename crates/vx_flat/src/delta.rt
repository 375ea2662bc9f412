//! Integers as differences: wrapping of a sum, decoding.

ghost use Rattle.std.specs.Prelude.{◌≡◌, ◌<◌, ◌+◌, ◌-◌, ◌*◌, length, map, pos, take, true};
ghost use Rattle.vx_base.specs.Answers.{OrMemory};
ghost use Rattle.vx_base.specs.Packed.{block_count};
ghost use Rattle.vx_base.specs.PlainValue.{int};
ghost use Rattle.vx_base.specs.Undelta.{undelta};
ghost use Rattle.vx_base.specs.Wrapping.{wrap};
ghost use Rattle.vx_model.specs.Decoded.{zeroed_by};
ghost use Rattle.vx_model.specs.Refusals.{validity_length};
ghost use Rattle.vx_model.specs.Rows.{rows, block_rows};
ghost use Rattle.vx_values.specs.IntsOf.{ptype_of, wholes_of};
ghost use Rattle.vx_values.specs.ValuesOf.{ints, AreRows};

use std::alloc::Global;
use vx_base::{Mask, PType, VortexResult};
use vx_values::{Decoded, Ints, behind, copy_validity};

/// A whole number wrapped into an integer type: the number of the type that is equal to it modulo 2^bits.
pub fn wrapped(ptype: PType, whole: i128) -> i128
    ensures { result ≡ wrap ptype whole }
{
    let all = ptype.greatest() - ptype.least() + 1;
    let low = whole.rem_euclid(all);
    if low <= ptype.greatest() {
        low
    } else {
        low - all
    }
}

/// `len` rows: row r of a block of 1,024 is the block's base plus its differences 0 to r, wrapping in the bases' type; 0 where
/// `valid` is false. They are written over the differences.
pub fn decoded_delta(
    alloc: Global,
    bases: &Ints,
    deltas: Ints,
    len: u64,
    valid: &Option<Mask>,
) -> VortexResult<Decoded>
    requires kinds { ptype_of deltas ≡ ptype_of bases.now }
    requires begins { length (wholes_of bases.now) ≡ block_count len }
    requires enough { length (wholes_of deltas) ≡ block_rows * block_count len }
    requires bits { validity_length valid.now len ≡ true }
    ensures { OrMemory result (AreRows (ints (ptype_of bases.now)) (map int (zeroed_by (pos 0) valid.now (take len (undelta (ptype_of bases.now) (wholes_of bases.now) (wholes_of deltas))))) valid.now) }
{
    let rows = deltas.rows_from(bases).truncated(len);
    Ok(behind(rows, copy_validity(alloc, valid)?))
}
