//! Structs, lists, fixed-size lists and nulls alone: rows, plain trees and sizes.

use crate::printed::prints;
use std::alloc::Global;
use std::test::Fail;
use vx_array::{ArrayRef, Arrays};
use vx_base::Nullability::{NonNullable, Nullable};
use vx_base::PType::{I32, U8};
use vx_base::{DType, Names, Scalar, Text, Value, Values, VortexError, VortexResult};
use vx_fixtures::{accepted, bits, flat};

// A plain tree with these rows and bytes.
fn is_plain_of(alloc: Global, tree: &ArrayRef, bytes: u128, rows: &[&str]) -> VortexResult<bool> {
    Ok(tree.is_plain() && tree.nbytes() == bytes && prints(alloc, tree, rows)?)
}

// A tree with these rows that isn't plain: its bytes, and those of its copy's plain tree.
fn becomes_plain(
    alloc: Global,
    tree: &ArrayRef,
    (bytes, plain_bytes): (u128, u128),
    rows: &[&str],
) -> VortexResult<bool> {
    let plain = tree.copy(alloc)?.canonical(alloc)?;
    let is_whole = !tree.is_plain() && tree.nbytes() == bytes && prints(alloc, tree, rows)?;
    Ok(is_whole && is_plain_of(alloc, &plain, plain_bytes, rows)?)
}

// Lists of 1 and 2, of nothing, null over 9, and of 3.
fn lists(alloc: Global) -> VortexResult<ArrayRef> {
    let elements = flat(alloc, I32, NonNullable, &[1, 2, 9, 3])?;
    let offsets = flat(alloc, U8, NonNullable, &[0, 2, 2, 3, 4])?;
    let valid = Some(bits(alloc, &[true, true, false, true])?);
    accepted(ArrayRef::list(alloc, elements, offsets, valid, Nullable))
}

#[test]
fn lists_are_made_plain(rt: HostRuntime) -> Result<(), Fail> {
    let tree = lists(rt.alloc())?;
    let rows = ["[1,2]", "[]", "null", "[3]"];
    assert!(rt; becomes_plain(rt.alloc(), &tree, (22, 53), &rows)?);
    Ok(())
}

// Structs of a number and a list each; the second is null over 8 and a list.
fn structs(alloc: Global) -> VortexResult<ArrayRef> {
    let mut names = Names::new_in(alloc);
    let mut fields = Arrays::new_in(alloc);
    for name in ["a", "b"] {
        let name = Text::from_string(String::from_str(alloc, name)?);
        names.push(name).ok().ok_or(VortexError::NoMemory)?;
    }
    fields
        .push(flat(alloc, U8, NonNullable, &[7, 8, 9, 10])?)
        .ok()
        .ok_or(VortexError::NoMemory)?;
    fields
        .push(lists(alloc)?)
        .ok()
        .ok_or(VortexError::NoMemory)?;
    let valid = Some(bits(alloc, &[true, false, true, true])?);
    accepted(ArrayRef::structure(alloc, names, fields, 4, valid, Nullable))
}

#[test]
fn structs_are_made_plain(rt: HostRuntime) -> Result<(), Fail> {
    let tree = structs(rt.alloc())?;
    let rows = ["[7,[1,2]]", "null", "[9,null]", "[10,[3]]"];
    assert!(rt; becomes_plain(rt.alloc(), &tree, (27, 58), &rows)?);
    Ok(())
}

#[test]
fn fixed_size_lists_are_made_plain(rt: HostRuntime) -> Result<(), Fail> {
    let elements = flat(rt.alloc(), U8, NonNullable, &[1, 2, 3, 4])?;
    let valid = Some(bits(rt.alloc(), &[true, false])?);
    let tree = accepted(ArrayRef::fixed_size_list(rt.alloc(), elements, 2, 2, valid, Nullable))?;
    assert!(rt; becomes_plain(rt.alloc(), &tree, (5, 5), &["[1,2]", "null"])?);
    Ok(())
}

#[test]
fn nulls_alone_are_plain(rt: HostRuntime) -> Result<(), Fail> {
    let tree = ArrayRef::null(3);
    assert!(rt; is_plain_of(rt.alloc(), &tree, 0, &["null", "null", "null"])?);
    let most = ArrayRef::null(2_147_483_648);
    let more = ArrayRef::null(2_147_483_649);
    assert!(rt; most.extents_fit() && !more.extents_fit());
    Ok(())
}

// The list of 1, 2 and 3 as a scalar.
fn three(alloc: Global) -> VortexResult<Scalar> {
    let items = Box::new(alloc, DType::primitive(U8, NonNullable))?;
    let mut values = Vec::new(alloc);
    for whole in [1, 2, 3] {
        values.push(Value::Int(whole))?;
    }
    let dtype = DType::list(items, NonNullable);
    accepted(Scalar::new(dtype, Value::List(Values::from_vec(values))))
}

#[test]
fn a_constant_list_counts_its_items_in_each_row(rt: HostRuntime) -> Result<(), Fail> {
    let tree = ArrayRef::constant(three(rt.alloc())?, 2);
    assert!(rt; becomes_plain(rt.alloc(), &tree, (4, 30), &["[1,2,3]", "[1,2,3]"])?);
    Ok(())
}

// A pair of lists of two bytes, of which the second is null, as a scalar.
fn pair_with_null(alloc: Global) -> VortexResult<Scalar> {
    let byte = Box::new(alloc, DType::primitive(U8, NonNullable))?;
    let inner = Box::new(alloc, DType::fixed_size_list(byte, 2, Nullable))?;
    let dtype = DType::fixed_size_list(inner, 2, NonNullable);
    let mut bytes = Vec::new(alloc);
    for whole in [1, 2] {
        bytes.push(Value::Int(whole))?;
    }
    let mut pair = Vec::new(alloc);
    pair.push(Value::List(Values::from_vec(bytes)))?;
    pair.push(Value::Null)?;
    accepted(Scalar::new(dtype, Value::List(Values::from_vec(pair))))
}

#[test]
fn defaults_are_laid_beneath_a_null_list(rt: HostRuntime) -> Result<(), Fail> {
    let tree = ArrayRef::constant(pair_with_null(rt.alloc())?, 2);
    let rows = ["[[1,2],null]", "[[1,2],null]"];
    assert!(rt; becomes_plain(rt.alloc(), &tree, (3, 9), &rows)?);
    Ok(())
}

#[test]
fn a_constant_list_may_have_too_many_items(rt: HostRuntime) -> Result<(), Fail> {
    let many = ArrayRef::constant(three(rt.alloc())?, 1_073_741_824);
    assert!(rt; !many.extents_fit());
    Ok(())
}

#[test]
fn a_row_behind_the_last_is_refused(rt: HostRuntime) -> Result<(), Fail> {
    let tree = ArrayRef::null(1);
    let refused = match tree.scalar_at(rt.alloc(), 1) {
        Ok(_) => false,
        Err(error) => error == VortexError::OutOfBounds,
    };
    assert!(rt; refused);
    Ok(())
}
