//! Rows filled by runs and by patches, and their validity, worked by hand. A list is dropped before the only exit of a test, since
//! each exit that drops one is proved by itself.

use crate::ints::{are_wholes, shows};
use std::alloc::Global;
use std::test::Fail;
use vx_base::Nullability::{NonNullable, Nullable};
use vx_base::PType::{self, I8, I16, I64, U32};
use vx_base::{ByteRows, Bytes, Cell, DType, IntList, Mask, Scalar, VortexResult};
use vx_values::{Ints, Values, bits, byte_rows, validity_in_runs, validity_with_patches};

// Whether a call made these truth values.
fn shows_bits(made: VortexResult<Mask>, bits: &[bool]) -> VortexResult<bool> {
    Ok(made?.as_slice() == bits)
}

// Whether a call made rows of one byte each, or of none where 0 stands.
fn shows_rows(made: VortexResult<ByteRows>, firsts: &[u8]) -> VortexResult<bool> {
    Ok(are_rows(&made?, firsts))
}

// Whether the rows have one byte each, or none where 0 stands.
fn are_rows(rows: &ByteRows, firsts: &[u8]) -> bool {
    if rows.len() != firsts.len() as u64 {
        return false;
    }
    for place in 0..firsts.len() {
        if !is_row(rows, place, firsts[place]) {
            return false;
        }
    }
    true
}

// Whether a row is this byte alone, or empty at 0.
fn is_row(rows: &ByteRows, place: usize, first: u8) -> bool {
    match rows.get(place as u64) {
        Some(row) if first == 0 => row.len() == 0,
        Some(row) => row.len() == 1 && row.get(0) == Some(&first),
        None => false,
    }
}

// A row of one byte.
fn row(alloc: Global, byte: u8) -> VortexResult<Bytes> {
    Ok(Bytes::from_vec(vec![in alloc; byte]?))
}

// ---- runs

#[test]
fn truth_values_of_runs(rt: HostRuntime) -> Result<(), Fail> {
    let items = Mask::from_bits(vec![in rt.alloc(); true, false]?);
    let ends = Ints::U16(IntList::from_vec(vec![in rt.alloc(); 2, 5]?));
    let rows = shows_bits(
        bits::in_runs(rt.alloc(), &ends, &items),
        &[true, true, false, false, false],
    );
    drop(ends);
    assert!(rt; rows?);
    Ok(())
}

#[test]
fn integers_of_runs(rt: HostRuntime) -> Result<(), Fail> {
    let (items, ends) = (
        vec![in rt.alloc(); 300i16, -7]?,
        vec![in rt.alloc(); 1u64, 4]?,
    );
    let items = Ints::I16(IntList::from_vec(items));
    let ends = Ints::U64(IntList::from_vec(ends));
    let rows = shows(items.in_runs(rt.alloc(), &ends), I16, &[300, -7, -7, -7]);
    drop(items);
    drop(ends);
    assert!(rt; rows?);
    Ok(())
}

#[test]
fn a_run_without_an_integer(rt: HostRuntime) -> Result<(), Fail> {
    let (items, ends) = (vec![in rt.alloc(); 5u32]?, vec![in rt.alloc(); 2i8, 3]?);
    let items = Ints::U32(IntList::from_vec(items));
    let ends = Ints::I8(IntList::from_vec(ends));
    let rows = shows(items.in_runs(rt.alloc(), &ends), U32, &[5, 5, 0]);
    drop(items);
    drop(ends);
    assert!(rt; rows?);
    Ok(())
}

#[test]
fn no_run(rt: HostRuntime) -> Result<(), Fail> {
    let items = Ints::I64(IntList::from_vec(vec![in rt.alloc(); -5]?));
    let ends = Ints::U8(IntList::from_vec(Vec::new(rt.alloc())));
    let rows = shows(items.in_runs(rt.alloc(), &ends), I64, &[]);
    drop(items);
    drop(ends);
    assert!(rt; rows?);
    Ok(())
}

// The third run has no row.
#[test]
fn bytes_of_runs(rt: HostRuntime) -> Result<(), Fail> {
    let ends = vec![in rt.alloc(); 1u8, 3, 4]?;
    let items = vec![in rt.alloc(); row(rt.alloc(), 7)?, row(rt.alloc(), 9)?]?;
    let (items, ends) = (ByteRows::from_vec(items), Ints::U8(IntList::from_vec(ends)));
    let rows = shows_rows(byte_rows::in_runs(rt.alloc(), &ends, &items), &[7, 9, 9, 0]);
    drop(ends);
    assert!(rt; rows?);
    Ok(())
}

// ---- patches

// In the first row and in the last.
#[test]
fn patches_at_both_ends(rt: HostRuntime) -> Result<(), Fail> {
    let (items, indices) = (
        vec![in rt.alloc(); 7i8, 9]?,
        vec![in rt.alloc(); 10u32, 13]?,
    );
    let items = Ints::I8(IntList::from_vec(items));
    let indices = Ints::U32(IntList::from_vec(indices));
    let rows = shows(
        items.with_patches(rt.alloc(), -1, &indices, 10, 4),
        I8,
        &[7, -1, -1, 9],
    );
    drop(items);
    drop(indices);
    assert!(rt; rows?);
    Ok(())
}

#[test]
fn no_patch(rt: HostRuntime) -> Result<(), Fail> {
    let items = Ints::U32(IntList::from_vec(Vec::new(rt.alloc())));
    let indices = Ints::U64(IntList::from_vec(Vec::new(rt.alloc())));
    let rows = shows(
        items.with_patches(rt.alloc(), 8, &indices, 3, 2),
        U32,
        &[8, 8],
    );
    drop(items);
    drop(indices);
    assert!(rt; rows?);
    Ok(())
}

#[test]
fn every_row_patched(rt: HostRuntime) -> Result<(), Fail> {
    let items = Mask::from_bits(vec![in rt.alloc(); true, false]?);
    let indices = Ints::U8(IntList::from_vec(vec![in rt.alloc(); 3, 4]?));
    let rows = shows_bits(
        bits::with_patches(rt.alloc(), true, &items, &indices, 3, 2),
        &[true, false],
    );
    drop(indices);
    assert!(rt; rows?);
    Ok(())
}

#[test]
fn bytes_over_a_fill(rt: HostRuntime) -> Result<(), Fail> {
    let indices = vec![in rt.alloc(); 1u16]?;
    let items = vec![in rt.alloc(); row(rt.alloc(), 9)?]?;
    let (items, indices) = (
        ByteRows::from_vec(items),
        Ints::U16(IntList::from_vec(indices)),
    );
    let rows = shows_rows(
        byte_rows::with_patches(rt.alloc(), b"\x07", &items, &indices, 0, 3),
        &[7, 9, 7],
    );
    drop(indices);
    assert!(rt; rows?);
    Ok(())
}

// ---- values of any kind

// Whether a call made these truth values.
fn shows_truths(made: VortexResult<Values>, truths: &[bool]) -> VortexResult<bool> {
    match made? {
        Values::Bits(bits) => Ok(bits.as_slice() == truths),
        _ => Ok(false),
    }
}

// Whether a call made these integers of this type.
fn shows_integers(made: VortexResult<Values>, ptype: PType, wholes: &[i128]) -> VortexResult<bool> {
    match made? {
        Values::Ints(ints) => Ok(are_wholes(&ints, ptype, wholes)),
        _ => Ok(false),
    }
}

// Whether a call made these rows.
fn shows_bytes(made: VortexResult<Values>, firsts: &[u8]) -> VortexResult<bool> {
    match made? {
        Values::Bytes(rows) => Ok(are_rows(&rows, firsts)),
        _ => Ok(false),
    }
}

#[test]
fn truth_values_of_any_runs(rt: HostRuntime) -> Result<(), Fail> {
    let ends = Ints::U8(IntList::from_vec(vec![in rt.alloc(); 1, 3]?));
    let items = Values::Bits(Mask::from_bits(vec![in rt.alloc(); false, true]?));
    let rows = shows_truths(items.in_runs(rt.alloc(), &ends), &[false, true, true]);
    drop(items);
    drop(ends);
    assert!(rt; rows?);
    Ok(())
}

#[test]
fn integers_of_any_runs(rt: HostRuntime) -> Result<(), Fail> {
    let ends = Ints::U32(IntList::from_vec(vec![in rt.alloc(); 2, 3]?));
    let items = Values::Ints(Ints::I64(IntList::from_vec(vec![in rt.alloc(); -1, 4]?)));
    let rows = shows_integers(items.in_runs(rt.alloc(), &ends), I64, &[-1, -1, 4]);
    drop(items);
    drop(ends);
    assert!(rt; rows?);
    Ok(())
}

#[test]
fn bytes_of_any_runs(rt: HostRuntime) -> Result<(), Fail> {
    let ends = Ints::I16(IntList::from_vec(vec![in rt.alloc(); 2]?));
    let items = Values::Bytes(ByteRows::from_vec(vec![in rt.alloc(); row(rt.alloc(), 7)?]?));
    let rows = shows_bytes(items.in_runs(rt.alloc(), &ends), &[7, 7]);
    drop(items);
    drop(ends);
    assert!(rt; rows?);
    Ok(())
}

#[test]
fn truth_values_over_a_fill(rt: HostRuntime) -> Result<(), Fail> {
    let indices = Ints::U8(IntList::from_vec(vec![in rt.alloc(); 5]?));
    let items = Values::Bits(Mask::from_bits(vec![in rt.alloc(); false]?));
    let fill = Scalar::bool(true, NonNullable);
    let rows = shows_truths(
        items.with_patches(rt.alloc(), &fill, &indices, 4, 3),
        &[true, false, true],
    );
    drop(items);
    drop(indices);
    assert!(rt; rows?);
    Ok(())
}

// The fill is null, so 0 stands in its rows.
#[test]
fn integers_over_a_null_fill(rt: HostRuntime) -> Result<(), Fail> {
    let indices = Ints::U64(IntList::from_vec(vec![in rt.alloc(); 0]?));
    let items = Values::Ints(Ints::I16(IntList::from_vec(vec![in rt.alloc(); -7]?)));
    let fill = Scalar::default_value(rt.alloc(), &DType::primitive(I16, Nullable))?;
    let rows = shows_integers(
        items.with_patches(rt.alloc(), &fill, &indices, 0, 3),
        I16,
        &[-7, 0, 0],
    );
    drop(items);
    drop(indices);
    assert!(rt; rows?);
    Ok(())
}

#[test]
fn rows_of_bytes_over_a_fill(rt: HostRuntime) -> Result<(), Fail> {
    let indices = Ints::U8(IntList::from_vec(vec![in rt.alloc(); 1]?));
    let items = Values::Bytes(ByteRows::from_vec(vec![in rt.alloc(); row(rt.alloc(), 9)?]?));
    let dtype = DType::binary(NonNullable);
    let fill = Scalar::of_cell(rt.alloc(), &dtype, Cell::Bytes(&[7]))?;
    let rows = shows_bytes(
        items.with_patches(rt.alloc(), &fill, &indices, 0, 2),
        &[7, 9],
    );
    drop(items);
    drop(indices);
    assert!(rt; rows?);
    Ok(())
}

// ---- validity

// Whether a call made a mask with these bits.
fn shows_mask(made: VortexResult<Option<Mask>>, bits: &[bool]) -> VortexResult<bool> {
    match made? {
        Some(mask) => Ok(mask.as_slice() == bits),
        None => Ok(false),
    }
}

// Whether a call found no null.
fn shows_no_null(made: VortexResult<Option<Mask>>) -> VortexResult<bool> {
    Ok(made?.is_none())
}

#[test]
fn a_null_run(rt: HostRuntime) -> Result<(), Fail> {
    let ends = Ints::U16(IntList::from_vec(vec![in rt.alloc(); 1, 3, 4]?));
    let valid = Some(Mask::from_bits(vec![in rt.alloc(); true, false, true]?));
    let rows = shows_mask(
        validity_in_runs(rt.alloc(), &ends, &valid),
        &[true, false, false, true],
    );
    drop(ends);
    assert!(rt; rows?);
    Ok(())
}

#[test]
fn runs_without_a_null(rt: HostRuntime) -> Result<(), Fail> {
    let ends = Ints::U16(IntList::from_vec(vec![in rt.alloc(); 1, 3]?));
    let valid = Some(Mask::from_bits(vec![in rt.alloc(); true, true]?));
    let none = shows_no_null(validity_in_runs(rt.alloc(), &ends, &valid));
    let neither = shows_no_null(validity_in_runs(rt.alloc(), &ends, &None));
    drop(ends);
    assert!(rt; none? && neither?);
    Ok(())
}

// A valid patch and a null one over a null fill, and valid ones alone.
#[test]
fn patches_over_a_null_fill(rt: HostRuntime) -> Result<(), Fail> {
    let indices = Ints::U8(IntList::from_vec(vec![in rt.alloc(); 8, 9]?));
    let valid = Some(Mask::from_bits(vec![in rt.alloc(); true, false]?));
    let some = shows_mask(
        validity_with_patches(rt.alloc(), false, &valid, &indices, 7, 4),
        &[false, true, false, false],
    );
    let all = shows_mask(
        validity_with_patches(rt.alloc(), false, &None, &indices, 7, 4),
        &[false, true, true, false],
    );
    drop(indices);
    assert!(rt; some? && all?);
    Ok(())
}

#[test]
fn a_null_patch_over_a_fill(rt: HostRuntime) -> Result<(), Fail> {
    let indices = Ints::U32(IntList::from_vec(vec![in rt.alloc(); 0, 2]?));
    let valid = Some(Mask::from_bits(vec![in rt.alloc(); true, false]?));
    let rows = shows_mask(
        validity_with_patches(rt.alloc(), true, &valid, &indices, 0, 3),
        &[true, true, false],
    );
    drop(indices);
    assert!(rt; rows?);
    Ok(())
}

#[test]
fn patches_without_a_null(rt: HostRuntime) -> Result<(), Fail> {
    let indices = Ints::U8(IntList::from_vec(vec![in rt.alloc(); 0, 1]?));
    let valid = Some(Mask::from_bits(vec![in rt.alloc(); true, true]?));
    let bits = shows_no_null(validity_with_patches(rt.alloc(), true, &valid, &indices, 0, 3));
    let none = shows_no_null(validity_with_patches(rt.alloc(), true, &None, &indices, 0, 3));
    drop(indices);
    assert!(rt; bits? && none?);
    Ok(())
}

// No row is left for the null fill.
#[test]
fn every_row_patched_over_a_null_fill(rt: HostRuntime) -> Result<(), Fail> {
    let indices = Ints::U64(IntList::from_vec(vec![in rt.alloc(); 6, 7]?));
    let rows = shows_no_null(validity_with_patches(rt.alloc(), false, &None, &indices, 6, 2));
    drop(indices);
    assert!(rt; rows?);
    Ok(())
}
