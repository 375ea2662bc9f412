//! Kernels of lists of integers that no test of trees reaches, once each. A list is dropped before the only exit of a test, since
//! each exit that drops one is proved by itself.

use std::test::Fail;
use vx_base::PType::{self, I16, U8, U16};
use vx_base::{IntList, Mask, VortexResult};
use vx_values::Ints;

// Whether a list has this type and these integers.
pub(crate) fn are_wholes(values: &Ints, ptype: PType, wholes: &[i128]) -> bool {
    if values.ptype() != ptype || values.len() != wholes.len() as u64 {
        return false;
    }
    for row in 0..wholes.len() {
        if values.whole_at(row as u64) != wholes[row] {
            return false;
        }
    }
    true
}

// `are_wholes` of a call's result.
pub(crate) fn shows(made: VortexResult<Ints>, ptype: PType, wholes: &[i128]) -> VortexResult<bool> {
    Ok(are_wholes(&made?, ptype, wholes))
}

#[test]
fn ranges_are_gathered(rt: HostRuntime) -> Result<(), Fail> {
    let values = Ints::I16(IntList::from_vec(vec![in rt.alloc(); 300, 9, -7, 8]?));
    let part = shows(values.gather(rt.alloc(), &[(1, 3)]), I16, &[9, -7]);
    drop(values);
    assert!(rt; part?);
    Ok(())
}

#[test]
fn rows_are_gathered(rt: HostRuntime) -> Result<(), Fail> {
    let values = Ints::I16(IntList::from_vec(vec![in rt.alloc(); 300, 9, -7, 8]?));
    let two = shows(values.gathered(rt.alloc(), &[3, 0]), I16, &[8, 300]);
    drop(values);
    assert!(rt; two?);
    Ok(())
}

#[test]
fn differences_are_unsigned(rt: HostRuntime) -> Result<(), Fail> {
    let values = Ints::I16(IntList::from_vec(vec![in rt.alloc(); 32767, -32768, -7]?));
    let less = shows(
        values.differences(rt.alloc(), -32768),
        U16,
        &[65535, 0, 32761],
    );
    drop(values);
    assert!(rt; less?);
    Ok(())
}

#[test]
fn integers_are_converted(rt: HostRuntime) -> Result<(), Fail> {
    let values = Ints::U8(IntList::from_vec(vec![in rt.alloc(); 0, 255]?));
    values.known();
    let same = shows(values.in_unsigned(rt.alloc(), U8), U8, &[0, 255]);
    drop(values);
    assert!(rt; same?);
    Ok(())
}

#[test]
fn wide_rows_are_left_to_patches(rt: HostRuntime) -> Result<(), Fail> {
    let valid = Mask::from_bits(vec![in rt.alloc(); true, false, true]?);
    let values = Ints::U16(IntList::from_vec(vec![in rt.alloc(); 1, 300, 4]?));
    let wide = values.wide_rows(rt.alloc(), &valid, 2);
    drop(values);
    assert_eq!(rt; wide?.as_slice(), [2].as_slice());
    Ok(())
}

#[test]
fn rows_are_packed(rt: HostRuntime) -> Result<(), Fail> {
    let valid = Mask::from_bits(vec![in rt.alloc(); true, false, true]?);
    let values = Ints::U16(IntList::from_vec(vec![in rt.alloc(); 1, 2, 3]?));
    let packed = values.pack(rt.alloc(), &valid, 2);
    drop(values);
    assert_eq!(rt; packed?.get(0).copied(), Some(0x31));
    Ok(())
}

#[test]
fn widths_are_counted(rt: HostRuntime) -> Result<(), Fail> {
    let valid = Mask::from_bits(vec![in rt.alloc(); true, true, true]?);
    let values = Ints::U16(IntList::from_vec(vec![in rt.alloc(); 0, 65535, 65534]?));
    let counts = values.bit_width_histogram(rt.alloc(), &valid);
    drop(values);
    assert_eq!(rt; counts?.get(16).copied(), Some(2));
    Ok(())
}

#[test]
fn widths_without_nulls_are_counted(rt: HostRuntime) -> Result<(), Fail> {
    let values = Ints::U16(IntList::from_vec(vec![in rt.alloc(); 0, 65535, 65534]?));
    let counts = values.bit_widths_of_all(rt.alloc());
    drop(values);
    assert_eq!(rt; counts?.get(16).copied(), Some(2));
    Ok(())
}

#[test]
fn widths_of_differences_are_counted(rt: HostRuntime) -> Result<(), Fail> {
    let valid = Some(Mask::from_bits(vec![in rt.alloc(); false, true, true]?));
    let values = Ints::I16(IntList::from_vec(vec![in rt.alloc(); 32767, -32768, -7]?));
    let counts = values.difference_widths(rt.alloc(), -32768, &valid);
    drop(values);
    let counts = counts?;
    assert_eq!(rt; counts.get(0).copied(), Some(2));
    assert_eq!(rt; counts.get(15).copied(), Some(1));
    Ok(())
}

#[test]
fn differences_are_packed(rt: HostRuntime) -> Result<(), Fail> {
    let values = Ints::I16(IntList::from_vec(vec![in rt.alloc(); -3, -1, 0]?));
    let packed = values.pack_differences(rt.alloc(), -3, &None, 2);
    drop(values);
    assert_eq!(rt; packed?.get(0).copied(), Some(0x38));
    Ok(())
}
