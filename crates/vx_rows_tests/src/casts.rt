//! Casts: between integer types, of nullability alone, and refusals.

use crate::calls::cast;
use crate::columns::{by_codes, structs, texts, texts_with_nulls, whole};
use std::test::Fail;
use vx_array::ArrayRef;
use vx_base::Nullability::{NonNullable, Nullable};
use vx_base::PType::{I8, I32, I64, U8, U64};
use vx_base::{DType, Nullability, PType, VortexError};
use vx_fixtures::{flat, has_rows, with_nulls};

fn integers(ptype: PType, nullability: Nullability) -> DType {
    DType::primitive(ptype, nullability)
}

#[test]
fn integers_are_cast_to_wider_and_narrower_types(rt: HostRuntime) -> Result<(), Fail> {
    let alloc = rt.alloc();
    let column = flat(alloc, I64, NonNullable, &[-128, 0, 127])?;
    let small = cast(alloc, &column, &integers(I8, NonNullable))?;
    assert!(rt; has_rows(&small, &[Some(-128), Some(0), Some(127)]) && small.nbytes() == 3);
    let wide = cast(alloc, &small, &integers(I32, Nullable))?;
    assert!(rt; has_rows(&wide, &[Some(-128), Some(0), Some(127)]) && wide.dtype().is_nullable());
    Ok(())
}

#[test]
fn what_stands_beneath_null_is_not_cast(rt: HostRuntime) -> Result<(), Fail> {
    let alloc = rt.alloc();
    let column = with_nulls(alloc, I32, &[7, 3000, 200], &[true, false, true])?;
    let out = cast(alloc, &column, &integers(U8, Nullable))?;
    assert!(rt; has_rows(&out, &[Some(7), None, Some(200)]));
    let out = cast(alloc, &by_codes(alloc)?, &integers(U64, Nullable))?;
    assert!(rt; has_rows(&out, &[Some(5), None, Some(5), Some(9), None]));
    Ok(())
}

#[test]
fn no_integer_wraps_and_no_null_becomes_a_value(rt: HostRuntime) -> Result<(), Fail> {
    let alloc = rt.alloc();
    let large = flat(alloc, I32, NonNullable, &[1, 256])?;
    let out = cast(alloc, &large, &integers(U8, NonNullable));
    assert!(rt; matches!(out, Err(VortexError::CastRefused)));
    let negative = flat(alloc, I32, NonNullable, &[-1])?;
    let out = cast(alloc, &negative, &integers(U64, NonNullable));
    assert!(rt; matches!(out, Err(VortexError::CastRefused)));
    let null = with_nulls(alloc, I32, &[1, 1], &[true, false])?;
    let out = cast(alloc, &null, &integers(I64, NonNullable));
    assert!(rt; matches!(out, Err(VortexError::CastRefused)));
    let constant = ArrayRef::constant(whole(300, I32, NonNullable)?, 2);
    let out = cast(alloc, &constant, &integers(U8, NonNullable));
    assert!(rt; matches!(out, Err(VortexError::CastRefused)));
    Ok(())
}

#[test]
fn no_rows_of_any_value_are_cast(rt: HostRuntime) -> Result<(), Fail> {
    let alloc = rt.alloc();
    let constant = ArrayRef::constant(whole(300, I32, NonNullable)?, 0);
    let out = cast(alloc, &constant, &integers(U8, NonNullable))?;
    assert!(rt; has_rows(&out, &[]));
    Ok(())
}

#[test]
fn nullability_alone_is_cast_of_every_type(rt: HostRuntime) -> Result<(), Fail> {
    let alloc = rt.alloc();
    let out = cast(alloc, &texts(alloc, &["a"])?, &DType::utf8(Nullable))?;
    assert!(rt; out.dtype().is_nullable() && out.len() == 1);
    let back = cast(alloc, &out, &DType::utf8(NonNullable))?;
    assert!(rt; !back.dtype().is_nullable());
    let null = texts_with_nulls(alloc, &["a", "b"], &[true, false])?;
    let out = cast(alloc, &null, &DType::utf8(NonNullable));
    assert!(rt; matches!(out, Err(VortexError::CastRefused)));
    let nested = structs(alloc)?;
    let narrow = nested.dtype().with_nullability(alloc, NonNullable)?;
    assert!(rt; matches!(cast(alloc, &nested, &narrow), Err(VortexError::CastRefused)));
    assert!(rt; cast(alloc, &nested, nested.dtype())?.len() == 3);
    Ok(())
}

#[test]
fn other_types_are_not_cast(rt: HostRuntime) -> Result<(), Fail> {
    let alloc = rt.alloc();
    let out = cast(alloc, &texts(alloc, &["1"])?, &integers(I32, NonNullable));
    assert!(rt; matches!(out, Err(VortexError::MismatchedTypes)));
    let out = cast(alloc, &texts(alloc, &["1"])?, &DType::binary(NonNullable));
    assert!(rt; matches!(out, Err(VortexError::MismatchedTypes)));
    Ok(())
}
