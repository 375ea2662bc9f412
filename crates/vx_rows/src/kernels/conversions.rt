//! Integers in another type.

ghost use Rattle.std.specs.List.{list_all};
ghost use Rattle.std.specs.Prelude.{◌≡◌, Some, length, map, true};
ghost use Rattle.vx_base.specs.Answers.{OrMemory};
ghost use Rattle.vx_base.specs.Integers.{lies_in};
ghost use Rattle.vx_model.specs.Refusals.{validity_length};
ghost use Rattle.vx_rows.specs.Conversions.{whole_or_zero_in, all_valid_in};
ghost use Rattle.vx_values.specs.IntsOf.{ptype_of, wholes_of};

use crate::ints::with_ints;
use std::alloc::Global;
use vx_base::{IntList, Integer, Mask, PType, VortexResult};
use vx_values::Ints;

/// Whether each valid integer lies in the range of a type.
pub(crate) fn lie_in(values: &Ints, valid: &Option<Mask>, ptype: PType) -> bool
    requires { validity_length valid.now (length (wholes_of values.now)) ≡ true }
    ensures { result ≡ all_valid_in ptype valid.now (wholes_of values.now) }
{
    match valid {
        Some(mask) =>
            with_ints!(values, items => valid_lie_in(items.as_slice(), mask.as_slice(), ptype)),
        None => with_ints!(values, items => all_lie_in(items.as_slice(), ptype)),
    }
}

// Whether each item lies in the range of a type: no branch per row.
fn all_lie_in<T: Integer>(items: &[T], ptype: PType) -> bool
    ensures { result ≡ list_all (lies_in ptype) (map T.whole items.now) }
{
    let mut all = true;
    for row in 0..items.len() {
        all &= is_in(items[row].to_whole(), ptype);
    }
    all
}

// Whether each item whose bit is true lies in the range of a type.
fn valid_lie_in<T: Integer>(items: &[T], mask: &[bool], ptype: PType) -> bool
    requires { length mask.now ≡ length items.now }
    ensures { result ≡ all_valid_in ptype (Some mask.now) (map T.whole items.now) }
{
    let mut all = true;
    for row in 0..items.len() {
        all &= !mask[row] | is_in(items[row].to_whole(), ptype);
    }
    all
}

/// Whether a number is in the range of a type.
#[inline(always)]
pub(crate) fn is_in(whole: i128, ptype: PType) -> bool
    ensures { result ≡ lies_in ptype whole }
{
    whole >= ptype.least() && whole <= ptype.greatest()
}

/// The integers in another type, 0 in place of those that are out of its range.
pub(crate) fn converted(alloc: Global, values: &Ints, ptype: PType) -> VortexResult<Ints>
    ensures { OrMemory result (λ out. (ptype_of out ≡ ptype) × (wholes_of out ≡ map (whole_or_zero_in ptype) (wholes_of values.now))) }
{
    match ptype {
        PType::U8 => Ok(Ints::U8(from_ints(alloc, values)?)),
        PType::U16 => Ok(Ints::U16(from_ints(alloc, values)?)),
        PType::U32 => Ok(Ints::U32(from_ints(alloc, values)?)),
        PType::U64 => Ok(Ints::U64(from_ints(alloc, values)?)),
        PType::I8 => Ok(Ints::I8(from_ints(alloc, values)?)),
        PType::I16 => Ok(Ints::I16(from_ints(alloc, values)?)),
        PType::I32 => Ok(Ints::I32(from_ints(alloc, values)?)),
        PType::I64 => Ok(Ints::I64(from_ints(alloc, values)?)),
    }
}

// `converted` to one type.
fn from_ints<U: Integer>(alloc: Global, values: &Ints) -> VortexResult<IntList<U>>
    ensures { OrMemory result (λ out. map U.whole out ≡ map (whole_or_zero_in U.kind) (wholes_of values.now)) }
{
    with_ints!(values, items => from_items(alloc, items.as_slice()))
}

// `converted` from items of one type.
fn from_items<T: Integer, U: Integer>(alloc: Global, items: &[T]) -> VortexResult<IntList<U>>
    ensures { OrMemory result (λ out. map U.whole out ≡ map (whole_or_zero_in U.kind) (map T.whole items.now)) }
{
    let mut out = vec![in alloc; U::zero(); items.len()]?;
    write_converted(items, out.as_mut_slice());
    Ok(IntList::from_vec(out))
}

// Writes each item in the other type.
fn write_converted<T: Integer, U: Integer>(items: &[T], out: &mut [U])
    requires { length out.old ≡ length items.now }
    ensures { map U.whole out.new ≡ map (whole_or_zero_in U.kind) (map T.whole items.now) }
{
    for row in 0..items.len() {
        out[row] = in_type(items[row].to_whole());
    }
}

// A number in a type, 0 where it is out of its range.
#[inline(always)]
fn in_type<U: Integer>(whole: i128) -> U
    ensures { U.whole result ≡ whole_or_zero_in U.kind whole }
{
    match U::from_whole(whole) {
        Some(item) => {
            let _held = item.to_whole();
            item
        }
        None => U::zero(),
    }
}
