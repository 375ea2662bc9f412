//! Constructors, copies and casts of scalars.

use std::test::Fail;
use vx_base::Nullability::NonNullable;
use vx_base::PType::{I32, U8};
use vx_base::{DType, Scalar, Value};

#[test]
fn a_scalar_is_made_and_copied(rt: HostRuntime) -> Result<(), Fail> {
    let made = Scalar::new(DType::primitive(U8, NonNullable), Value::Int(255));
    let made = made.ok().ok_or("255 of u8")?;
    assert!(rt; made.copy(rt.alloc())? == Scalar::primitive(255, U8, NonNullable)?);
    Ok(())
}

#[test]
fn a_cast_keeps_the_value(rt: HostRuntime) -> Result<(), Fail> {
    let seven = Scalar::primitive(7, I32, NonNullable)?;
    let cast = seven.cast(rt.alloc(), &DType::primitive(U8, NonNullable))?;
    assert!(rt; cast == Scalar::primitive(7, U8, NonNullable)?);
    Ok(())
}
