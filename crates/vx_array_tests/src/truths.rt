//! Truth values: plain, constant and masked.

use std::test::Fail;
use vx_array::ArrayRef;
use vx_base::Nullability::{NonNullable, Nullable};
use vx_base::{DType, Mask, Scalar};
use vx_fixtures::{accepted, bits};

// Whether the tree has these truth values, None of null.
fn has_truths(array: &ArrayRef, truths: &[Option<bool>]) -> bool {
    if !matches!(array.dtype(), DType::Bool(_)) || array.len() != truths.len() as u64 {
        return false;
    }
    for row in 0..truths.len() {
        if array.bool_at(row as u64) != truths[row] {
            return false;
        }
    }
    true
}

#[test]
fn truth_values_are_copied_and_made_plain(rt: HostRuntime) -> Result<(), Fail> {
    let values = bits(rt.alloc(), &[true, true, false])?;
    let valid = Some(bits(rt.alloc(), &[true, false, true])?);
    let tree = accepted(ArrayRef::bool(values, valid, Nullable))?;
    let plain = tree.copy(rt.alloc())?.canonical(rt.alloc())?;
    let truths = [Some(true), None, Some(false)];
    let have_both = has_truths(&tree, &truths) && has_truths(&plain, &truths);
    assert!(rt; have_both && tree.nbytes() == 2 && plain.is_plain() && !tree.is_plain());
    Ok(())
}

#[test]
fn nine_rows_take_two_bytes(rt: HostRuntime) -> Result<(), Fail> {
    let values = Mask::from_bits(vec![in rt.alloc(); true; 9]?);
    let tree = accepted(ArrayRef::bool(values, None, NonNullable))?;
    assert_eq!(rt; tree.nbytes(), 2);
    Ok(())
}

#[test]
fn a_masked_constant_is_made_plain(rt: HostRuntime) -> Result<(), Fail> {
    let tree = ArrayRef::constant(Scalar::bool(true, Nullable), 2);
    let tree = accepted(ArrayRef::masked(rt.alloc(), tree, bits(rt.alloc(), &[false, true])?))?;
    let plain = tree.canonical(rt.alloc())?;
    // The constant's 2 bytes, and one of validity.
    assert!(rt; tree.nbytes() == 3 && plain.is_plain() && has_truths(&plain, &[None, Some(true)]));
    Ok(())
}

#[test]
fn ranges_of_plain_truth_values_are_plain(rt: HostRuntime) -> Result<(), Fail> {
    let values = bits(rt.alloc(), &[true, false, true])?;
    let valid = Some(bits(rt.alloc(), &[true, false, true])?);
    let tree = accepted(ArrayRef::bool(values, valid, Nullable))?;
    assert!(rt; tree.is_plain() && tree.dtype().is_flat() && tree.len() == 3);
    let some = tree.gather(rt.alloc(), &[(2, 3), (0, 1)])?;
    assert!(rt;
        some.is_plain() && has_truths(&some, &[Some(true), Some(true)]) && some.nbytes() == 1
    );
    Ok(())
}
