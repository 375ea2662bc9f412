//! Integers of 32 signed bits in the narrowest type for them.

ghost use Rattle.std.specs.Int.{int_max, int_min};
ghost use Rattle.std.specs.List.{list_all};
ghost use Rattle.std.specs.Prelude.{◌≡◌, IsTrue, None, Some, fold, length, map, pos, replicate};
ghost use Rattle.vx_base.specs.Answers.{Answers, OrMemory};
ghost use Rattle.vx_base.specs.Integers.{lies_in};
ghost use Rattle.vx_base.specs.Narrow.{narrow_of};
ghost use Rattle.vx_base.specs.PlainValue.{whole_or_zero};
ghost use Rattle.vx_base.specs.declared.dtype.Nullability.TheVariants.{NonNullable};
ghost use Rattle.vx_base.specs.declared.ptype.PType.TheVariants.{U8};
ghost use Rattle.vx_model.specs.Column.{column_of};
ghost use Rattle.vx_model.specs.Plain.{plain};
ghost use Rattle.vx_model.specs.Rows.{rows};
ghost use Rattle.vx_model.specs.Tree.{primitive};
ghost use Rattle.vx_values.specs.IntsOf.{ptype_of, wholes_of};
ghost use Rattle.vx_schemes_time.specs.Narrowest.{narrowed};
ghost use Rattle.vx_schemes_time.specs.Stored.{IsStored, IsStored32};

use std::alloc::Global;
use vx_array::ArrayRef;
use vx_base::{ArrayId, IntList, Integer, Nullability, PType, VortexResult};
use vx_blocks::{greater, lesser, narrow_type};
use vx_values::Ints;

/// The rows of a part as a plain column of the narrowest type for them.
pub(crate) fn narrowed(alloc: Global, part: ArrayRef) -> VortexResult<ArrayRef>
    requires { IsStored part }
    ensures { Answers result (plain (narrowed (column_of part))) }
{
    if part.encoding_id() == ArrayId::Constant {
        zeros(alloc, part.len())
    } else {
        narrowed_integers(alloc, part)
    }
}

// 0 in each of `len` rows.
fn zeros(alloc: Global, len: u64) -> VortexResult<ArrayRef>
    ensures { Answers result (primitive U8 (replicate len (pos 0)) None NonNullable) }
{
    let values = Ints::filled(alloc, 0, PType::U8, len)?;
    Ok(ArrayRef::primitive_of(values, None, Nullability::NonNullable))
}

// Plain integers in the narrowest type for them. They are handed back as they are where that is their own.
fn narrowed_integers(alloc: Global, part: ArrayRef) -> VortexResult<ArrayRef>
    requires { IsStored32 part }
    ensures { Answers result (plain (narrowed (column_of part))) }
{
    part.known();
    let ptype = narrowest_type(stored_rows(&part));
    if ptype == PType::I32 {
        return Ok(part);
    }
    let values = in_type(alloc, stored_rows(&part), ptype)?;
    part.with_integers(alloc, values)
}

// The rows that plain integers store, with 0 beneath nulls.
fn stored_rows(part: &ArrayRef) -> &[i32]
    requires { IsStored32 part.now }
    ensures { result.now ≡ map whole_or_zero (rows part.now) }
{
    let (values, _, _) = part.as_primitive();
    match values {
        Ints::I32(items) => items.as_slice(),
        _ => unreachable!(),
    }
}

// The narrowest type that holds the items and 0. What stands beneath nulls is 0, which every type holds, so validity isn't
// asked.
fn narrowest_type(items: &[i32]) -> PType
    ensures { narrow_of (fold int_min (pos 0) items.now) (fold int_max (pos 0) items.now) ≡ Some result }
{
    let (least, greatest) = extremes(items);
    narrow_type(i128::from(least), i128::from(greatest))
}

// The least and the greatest of the items and 0.
fn extremes(items: &[i32]) -> (i32, i32)
    ensures least { result.0 ≡ fold int_min (pos 0) items.now }
    ensures greatest { result.1 ≡ fold int_max (pos 0) items.now }
{
    let (mut least, mut greatest) = (0, 0);
    for row in 0..items.len() {
        least = lesser(least, items[row]);
        greatest = greater(greatest, items[row]);
    }
    (least, greatest)
}

// The items in a type that holds each of them.
fn in_type(alloc: Global, items: &[i32], ptype: PType) -> VortexResult<Ints>
    requires { IsTrue (list_all (lies_in ptype) items.now) }
    ensures { OrMemory result (λ ints. (ptype_of ints ≡ ptype) × (wholes_of ints ≡ items.now)) }
{
    match ptype {
        PType::U8 => Ok(Ints::U8(converted(alloc, items)?)),
        PType::U16 => Ok(Ints::U16(converted(alloc, items)?)),
        PType::U32 => Ok(Ints::U32(converted(alloc, items)?)),
        PType::U64 => Ok(Ints::U64(converted(alloc, items)?)),
        PType::I8 => Ok(Ints::I8(converted(alloc, items)?)),
        PType::I16 => Ok(Ints::I16(converted(alloc, items)?)),
        PType::I32 => Ok(Ints::I32(converted(alloc, items)?)),
        PType::I64 => Ok(Ints::I64(converted(alloc, items)?)),
    }
}

// The items as those of another type.
fn converted<T: Integer>(alloc: Global, items: &[i32]) -> VortexResult<IntList<T>>
    requires { IsTrue (list_all (lies_in T.kind) items.now) }
    ensures { OrMemory result (λ list. map T.whole list ≡ items.now) }
{
    let mut list = vec![in alloc; T::zero(); items.len()]?;
    write_converted(items, list.as_mut_slice());
    Ok(IntList::from_vec(list))
}

// Writes the items over a list of another type.
fn write_converted<T: Integer>(items: &[i32], list: &mut [T])
    requires held { IsTrue (list_all (lies_in T.kind) items.now) }
    requires length { length list.old ≡ length items.now }
    ensures { map T.whole list.new ≡ items.now }
{
    for row in 0..items.len() {
        list[row] = convert(items[row]);
    }
}

// The item as one of another type.
#[inline(always)]
fn convert<T: Integer>(item: i32) -> T
    requires { IsTrue (lies_in T.kind item) }
    ensures { T.whole result ≡ item }
{
    let Some(item) = T::from_whole(i128::from(item)) else {
        unreachable!();
    };
    item
}
