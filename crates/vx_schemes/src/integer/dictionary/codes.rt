//! The codes of a dictionary of integers: for each row the place of its value among the distinct values.

ghost use Rattle.std.specs.Prelude.{◌≡◌, ◌<◌, ◌≤◌, ◌^◌, length, map, true, pos, if◌then◌else◌};
ghost use Rattle.std.specs.List.Sorted.{IsStrictlySortedBy};
ghost use Rattle.std.specs.Ordering.{int_cmp};
ghost use Rattle.vx_base.specs.Answers.{OrMemory};
ghost use Rattle.vx_base.specs.Integers.{natural_bits};
ghost use Rattle.vx_base.specs.PlainValue.{int, whole_or_zero};
ghost use Rattle.vx_model.specs.Decoded.{zeroed, zeroed_by};
ghost use Rattle.vx_model.specs.Refusals.{validity_length};
ghost use Rattle.vx_model.specs.Rows.{valid_rows};
ghost use Rattle.vx_values.specs.IntsOf.{ptype_of, wholes_of};
ghost use Rattle.vx_stats.specs.Stats.{distinct_values};
ghost use Rattle.vx_schemes.specs.Dictionary.Codes.{as_code, codes_in};
ghost use Rattle.vx_schemes_common.specs.Dictionaries.{code_type};
ghost use Rattle.vx_schemes.specs.Dictionary.Tree.{code_in};

use super::recent_codes::RecentCodes;
use std::alloc::Global;
use vx_base::{IntList, Integer, Mask, VortexResult};
use vx_values::Ints;

// The code of an item, 0 where the bit is false.
#[inline(always)]
fn code_at<T: Integer, C: Integer>(recent: &mut RecentCodes<'_, T, C>, item: T, bit: bool) -> C
    ensures code { C.whole result ≡ (if bit then as_code C.kind recent.old (T.whole item) else pos 0) }
    ensures values { recent.new ≡ recent.old }
{
    if bit { recent.code_of(item) } else { C::zero() }
}

// The code of each item.
fn all_codes<T: Integer, C: Integer>(
    alloc: Global,
    items: &[T],
    values: &[T],
) -> VortexResult<IntList<C>>
    requires { IsStrictlySortedBy int_cmp (map T.whole values.now) }
    ensures { OrMemory result (λ codes. map C.whole codes ≡ codes_in C.kind (map T.whole values.now) (map T.whole items.now)) }
{
    let mut recent = RecentCodes::new(alloc, values, items.len())?;
    let mut codes = Vec::with_capacity(alloc, items.len())?;
    for row in 0..items.len() {
        codes.push(recent.code_of(items[row]))?;
    }
    Ok(IntList::from_vec(codes))
}

// The code of each item whose bit is true, else 0.
fn masked_codes<T: Integer, C: Integer>(
    alloc: Global,
    items: &[T],
    bits: &[bool],
    values: &[T],
) -> VortexResult<IntList<C>>
    requires bits { length bits.now ≡ length items.now }
    requires values { IsStrictlySortedBy int_cmp (map T.whole values.now) }
    ensures { OrMemory result (λ codes. map C.whole codes ≡ zeroed (pos 0) bits.now (codes_in C.kind (map T.whole values.now) (map T.whole items.now))) }
{
    let mut recent = RecentCodes::new(alloc, values, items.len())?;
    let mut codes = Vec::with_capacity(alloc, items.len())?;
    for row in 0..items.len() {
        codes.push(code_at(&mut recent, items[row], bits[row]))?;
    }
    Ok(IntList::from_vec(codes))
}

// The code of each valid row among ascending values, 0 where a row isn't valid.
fn wrapped_codes<T: Integer, C: Integer>(
    alloc: Global,
    items: &[T],
    valid: &Option<Mask>,
    values: &[T],
) -> VortexResult<IntList<C>>
    requires mask { validity_length valid.now (length items.now) ≡ true }
    requires values { IsStrictlySortedBy int_cmp (map T.whole values.now) }
    ensures { OrMemory result (λ codes. map C.whole codes ≡ zeroed_by (pos 0) valid.now (codes_in C.kind (map T.whole values.now) (map T.whole items.now))) }
{
    match valid {
        Some(mask) => masked_codes(alloc, items, mask.as_slice(), values),
        None => all_codes(alloc, items, values),
    }
}

// The code of each valid row among the distinct values, 0 where a row isn't valid, of a type that holds the codes.
fn codes<T: Integer, C: Integer>(
    alloc: Global,
    items: &[T],
    valid: &Option<Mask>,
    values: &[T],
) -> VortexResult<IntList<C>>
    requires mask { validity_length valid.now (length items.now) ≡ true }
    requires values { map T.whole values.now ≡ distinct_values (valid_rows valid.now (map int (map T.whole items.now))) }
    requires few { length values.now ≤ 2 ^ natural_bits C.kind }
    ensures { OrMemory result (λ codes. map C.whole codes ≡ map whole_or_zero (map (code_in (map T.whole values.now)) (valid_rows valid.now (map int (map T.whole items.now))))) }
{
    wrapped_codes(alloc, items, valid, values)
}

/// The code of each valid row among the distinct values, 0 where a row isn't valid, in the narrowest unsigned type.
pub(crate) fn narrowed_codes<T: Integer>(
    alloc: Global,
    items: &[T],
    valid: &Option<Mask>,
    values: &[T],
) -> VortexResult<Ints>
    requires mask { validity_length valid.now (length items.now) ≡ true }
    requires values { map T.whole values.now ≡ distinct_values (valid_rows valid.now (map int (map T.whole items.now))) }
    requires few { length values.now < 2 ^ 32 }
    ensures ptype { OrMemory result (λ ints. ptype_of ints ≡ code_type (length values.now)) }
    ensures codes { OrMemory result (λ ints. wholes_of ints ≡ map whole_or_zero (map (code_in (map T.whole values.now)) (valid_rows valid.now (map int (map T.whole items.now))))) }
{
    let count = values.len();
    if count <= 256 {
        Ok(Ints::U8(codes(alloc, items, valid, values)?))
    } else if count <= 65_536 {
        Ok(Ints::U16(codes(alloc, items, valid, values)?))
    } else {
        Ok(Ints::U32(codes(alloc, items, valid, values)?))
    }
}
