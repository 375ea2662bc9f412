//! Lines with the text of a scalar. The expected lines are worked out by hand.

use crate::reading::lists;
use std::alloc::{AllocError, Global};
use std::test::Fail;
use vx_array::ArrayRef;
use vx_base::Nullability::NonNullable;
use vx_base::{Bytes, Scalar, Text};

// Whether this text is the listing of the scalar in `len` rows.
fn lists_constant(alloc: Global, scalar: Scalar, len: u64, text: &str) -> Result<bool, AllocError> {
    let tree = ArrayRef::constant(scalar, len);
    lists(alloc, &tree, text)
}

#[test]
fn a_text_stands_as_a_string_of_json(rt: HostRuntime) -> Result<(), Fail> {
    let text = Text::from_string(String::from_str(rt.alloc(), "\"\u{e9}\n")?);
    let Ok(scalar) = Scalar::text(text, NonNullable) else {
        return Err(Fail::from("a long text"));
    };
    let listing = "vortex.constant text len=2 size=5 value=\"\\\"\u{e9}\\n\"\n";
    let is_listed = lists_constant(rt.alloc(), scalar, 2, listing)?;
    assert!(rt; is_listed);
    Ok(())
}

#[test]
fn bytes_stand_as_their_digits(rt: HostRuntime) -> Result<(), Fail> {
    let bytes = Bytes::from_vec(Vec::from_slice(rt.alloc(), b"\x00\xff")?);
    let Ok(scalar) = Scalar::binary(bytes, NonNullable) else {
        return Err(Fail::from("long bytes"));
    };
    let listing = "vortex.constant binary len=3 size=3 value=\"00ff\"\n";
    let is_listed = lists_constant(rt.alloc(), scalar, 3, listing)?;
    assert!(rt; is_listed);
    Ok(())
}
