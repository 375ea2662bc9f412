//! Validity: a mask that is true where a row isn't null, or None where no row is null.

ghost use Rattle.std.specs.Prelude.{◌≡◌, ◌+◌, ◌^◌, length, map, option_map, IfSome, IsTrue, true, Some};
ghost use Rattle.vx_base.specs.Answers.{Answers};
ghost use Rattle.vx_base.specs.Gathered.{gathered, are_parts};
ghost use Rattle.vx_base.specs.PlainValue.{int};
ghost use Rattle.vx_model.specs.Refusals.{validity_length, validity_allowed, kept};
ghost use Rattle.vx_model.specs.Rows.{is_valid_at};
ghost use Rattle.vx_model.specs.WellFormed.{ascend};
ghost use Rattle.vx_values.specs.IntsOf.{wholes_of};
ghost use Rattle.vx_values.specs.Placed.{by_patches, validity_by_runs, validity_by_patches};

use crate::bits::{filled, in_runs, with_patches};
use crate::ints::Ints;
use std::alloc::Global;
use vx_base::{Mask, Nullability, VortexResult};

/// Whether the validity has `len` rows, as None has for every `len`.
pub fn has_length(valid: &Option<Mask>, len: u64) -> bool
    ensures { result ≡ validity_length valid.now len }
{
    match valid {
        Some(bits) => bits.len() == len,
        None => true,
    }
}

/// Whether a node of this nullability may have the validity: a non-nullable one has no null.
pub fn is_allowed(valid: &Option<Mask>, nullability: Nullability) -> bool
    ensures { result ≡ validity_allowed valid.now nullability }
{
    match valid {
        Some(bits) => nullability.allows_null() || bits.all_true(),
        None => true,
    }
}

/// The validity in its one form: None where every bit is true.
pub fn keep(valid: Option<Mask>) -> Option<Mask>
    ensures { result ≡ kept valid }
{
    match valid {
        Some(bits) if !bits.all_true() => Some(bits),
        _ => None,
    }
}

/// Whether a row is valid; with a mask, false out of bounds.
pub fn is_valid(valid: &Option<Mask>, row: u64) -> bool
    ensures { result ≡ is_valid_at valid.now row }
{
    match valid {
        Some(bits) => bits.is_set(row),
        None => true,
    }
}

/// A copy.
pub fn copy_validity(alloc: Global, valid: &Option<Mask>) -> VortexResult<Option<Mask>>
    ensures { Answers result valid.now }
{
    match valid {
        Some(bits) => Ok(Some(bits.copy(alloc)?)),
        None => Ok(None),
    }
}

/// The validity of the rows of half-open ranges, in the order of the ranges; None where all of them are valid.
pub fn gathered_validity(
    alloc: Global,
    valid: &Option<Mask>,
    ranges: &[(u64, u64)],
) -> VortexResult<Option<Mask>>
    requires { IfSome valid.now (λ bits. IsTrue (are_parts (length bits) ranges.now)) }
    ensures { Answers result (kept (option_map (gathered ranges.now) valid.now)) }
{
    match valid {
        Some(bits) => Ok(keep(Some(bits.gather(alloc, ranges)?))),
        None => Ok(None),
    }
}

/// The validity of rows that are filled by runs, from that of the runs' values; None where all of them are valid.
pub fn validity_in_runs(
    alloc: Global,
    ends: &Ints,
    valid: &Option<Mask>,
) -> VortexResult<Option<Mask>>
    requires { IsTrue (ascend 1 (2 ^ 64) (map int (wholes_of ends.now))) }
    ensures { Answers result (validity_by_runs (map int (wholes_of ends.now)) valid.now) }
{
    match valid {
        Some(bits) => Ok(keep(Some(in_runs(alloc, ends, bits)?))),
        None => Ok(None),
    }
}

/// The validity of a fill and patches, from whether the fill is valid and from that of the patches' values; None where all
/// rows are valid.
#[tactic(auto, using(crate::proofs::Placed::all_valid))]
pub fn validity_with_patches(
    alloc: Global,
    fill: bool,
    valid: &Option<Mask>,
    indices: &Ints,
    offset: u64,
    len: u64,
) -> VortexResult<Option<Mask>>
    requires rising { ascend offset (offset + len) (map int (wholes_of indices.now)) ≡ true }
    requires lengths { validity_length valid.now (length (wholes_of indices.now)) ≡ true }
    ensures { Answers result (validity_by_patches (map int (wholes_of indices.now)) offset len valid.now fill) }
{
    match valid {
        Some(bits) => kept_with_patches(alloc, fill, bits, indices, offset, len),
        None if fill => Ok(None),
        None => {
            let bits = filled(alloc, true, indices.len())?;
            kept_with_patches(alloc, fill, &bits, indices, offset, len)
        }
    }
}

// `validity_with_patches` by the bits of the patches' values.
fn kept_with_patches(
    alloc: Global,
    fill: bool,
    bits: &Mask,
    indices: &Ints,
    offset: u64,
    len: u64,
) -> VortexResult<Option<Mask>>
    requires rising { ascend offset (offset + len) (map int (wholes_of indices.now)) ≡ true }
    requires lengths { length bits.now ≡ length (wholes_of indices.now) }
    ensures { Answers result (kept (Some (by_patches (map int (wholes_of indices.now)) offset len bits.now fill))) }
{
    let rows = with_patches(alloc, fill, bits, indices, offset, len)?;
    Ok(keep(Some(rows)))
}
