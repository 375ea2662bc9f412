//! Single rows of a type, from values of JSON.

use serde_json::Value as Json;
use std::alloc::Global;
use std::test::Fail;
use vx_base::{DType, Nullability, PType, Value};
use vx_document::{Unread, read_row};

// Whether a value is no row of the type.
fn is_no_row(alloc: Global, json: Json, dtype: &DType) -> bool {
    matches!(read_row(alloc, json, dtype), Err(Unread::BadDocument))
}

#[test]
fn rows_of_one_type(rt: HostRuntime) -> Result<(), Fail> {
    let alloc = rt.alloc();
    let dtype = DType::Primitive(PType::U8, Nullability::Nullable);
    let json = Json::from_slice(alloc, "255".as_bytes())?;
    let whole = read_row(alloc, json, &dtype)?;
    assert!(rt; matches!(&whole, Value::Int(255)));
    let null = read_row(alloc, Json::Null, &dtype)?;
    assert!(rt; matches!(&null, Value::Null));
    Ok(())
}

#[test]
fn values_that_are_no_rows(rt: HostRuntime) -> Result<(), Fail> {
    let alloc = rt.alloc();
    let dtype = DType::Primitive(PType::U8, Nullability::NonNullable);
    let json = Json::from_slice(alloc, "256".as_bytes())?;
    assert!(rt; is_no_row(alloc, json, &dtype));
    assert!(rt; is_no_row(alloc, Json::Null, &dtype));
    assert!(rt; is_no_row(alloc, Json::Bool(true), &dtype));
    Ok(())
}
