//! The items of flat columns whose bit is true, item by item.

ghost use Rattle.std.specs.Prelude.{◌≡◌, ◌++◌, ◌∷◌, [], if◌then◌else◌, length, map, option_map, true};
ghost use Rattle.vx_base.specs.Answers.{Answers, OrMemory};
ghost use Rattle.vx_model.specs.Refusals.{kept, validity_length};
ghost use Rattle.vx_rules.specs.Selections.{kept_items};
ghost use Rattle.vx_values.specs.IntsOf.{ptype_of, wholes_of};

use super::compacting::kept_copies;
use std::alloc::Global;
use vx_base::{ByteRows, Bytes, IntList, Integer, Mask, VortexResult};
use vx_values::{Ints, keep};

/// The integers whose bit is true.
pub(super) fn kept_ints(alloc: Global, ints: &Ints, bits: &[bool]) -> VortexResult<Ints>
    requires { length bits.now ≡ length (wholes_of ints.now) }
    ensures { OrMemory result (λ out. (ptype_of out ≡ ptype_of ints.now) × (wholes_of out ≡ kept_items bits.now (wholes_of ints.now))) }
{
    match ints {
        Ints::U8(items) => Ok(Ints::U8(kept_list(alloc, items, bits)?)),
        Ints::U16(items) => Ok(Ints::U16(kept_list(alloc, items, bits)?)),
        Ints::U32(items) => Ok(Ints::U32(kept_list(alloc, items, bits)?)),
        Ints::U64(items) => Ok(Ints::U64(kept_list(alloc, items, bits)?)),
        Ints::I8(items) => Ok(Ints::I8(kept_list(alloc, items, bits)?)),
        Ints::I16(items) => Ok(Ints::I16(kept_list(alloc, items, bits)?)),
        Ints::I32(items) => Ok(Ints::I32(kept_list(alloc, items, bits)?)),
        Ints::I64(items) => Ok(Ints::I64(kept_list(alloc, items, bits)?)),
    }
}

// The integers of one type.
fn kept_list<T: Integer>(
    alloc: Global,
    items: &IntList<T>,
    bits: &[bool],
) -> VortexResult<IntList<T>>
    requires { length bits.now ≡ length (map T.whole items.now) }
    ensures { OrMemory result (λ list. map T.whole list ≡ kept_items bits.now (map T.whole items.now)) }
{
    Ok(IntList::from_vec(kept_copies(alloc, items.as_slice(), bits)?))
}

/// The truth values whose bit is true.
pub(super) fn kept_bits(alloc: Global, values: &Mask, bits: &[bool]) -> VortexResult<Mask>
    requires { length bits.now ≡ length values.now }
    ensures { Answers result (kept_items bits.now values.now) }
{
    Ok(Mask::from_bits(kept_copies(alloc, values.as_slice(), bits)?))
}

/// The validity of the rows whose bit is true; None where all of them are valid.
pub(super) fn kept_validity(
    alloc: Global,
    valid: &Option<Mask>,
    bits: &[bool],
) -> VortexResult<Option<Mask>>
    requires { validity_length valid.now (length bits.now) ≡ true }
    ensures { Answers result (kept (option_map (kept_items bits.now) valid.now)) }
{
    match valid {
        Some(mask) => Ok(keep(Some(kept_bits(alloc, mask, bits)?))),
        None => Ok(None),
    }
}

/// Copies of the rows of bytes whose bit is true.
#[tactic(auto, using(crate::proofs::KeptItems::keeping))]
pub(super) fn kept_bytes(alloc: Global, rows: &ByteRows, bits: &[bool]) -> VortexResult<ByteRows>
    requires { length bits.now ≡ length rows.now }
    ensures { Answers result (kept_items bits.now rows.now) }
{
    let rows = rows.as_slice();
    let mut out = Vec::new(alloc);
    for row in 0..bits.len() {
        push_copy_if(alloc, &mut out, &rows[row], bits[row])?;
    }
    Ok(ByteRows::from_vec(out))
}

// Appends a copy of the bytes where the bit is true.
fn push_copy_if(alloc: Global, out: &mut Vec<Bytes>, row: &Bytes, bit: bool) -> VortexResult<()>
    ensures { OrMemory result (λ _. out.new.items ≡ (if bit then out.old.items ++ row.now ∷ [] else out.old.items)) }
{
    if bit {
        out.push(row.copy(alloc)?)?;
    }
    Ok(())
}
