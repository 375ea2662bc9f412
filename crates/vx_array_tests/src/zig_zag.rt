//! Integers as their zigzag: each type, and nulls of the child.

use std::alloc::Global;
use std::test::Fail;
use vx_array::ArrayRef;
use vx_base::Nullability::{NonNullable, Nullable};
use vx_base::PType::{self, I8, I16, I32, I64, U8, U16, U32, U64};
use vx_base::VortexResult;
use vx_fixtures::{accepted, bits, flat, has_rows, has_wholes, is_made_plain, packed, with_nulls};

// Whether these zigzags of an unsigned type stand for these numbers of a signed type, and so does their plain tree.
fn are_zigzags(
    alloc: Global,
    (unsigned, signed): (PType, PType),
    words: &[i128],
    numbers: &[i128],
) -> VortexResult<bool> {
    let tree = accepted(ArrayRef::zig_zag(alloc, flat(alloc, unsigned, NonNullable, words)?))?;
    let plain = tree.canonical(alloc)?;
    let own_type = plain.dtype();
    Ok(
        has_wholes(&tree, numbers)
            && has_wholes(&plain, numbers)
            && own_type.is_integer()
            && own_type.ptype() == signed,
    )
}

#[test]
fn numbers_are_of_the_signed_type(rt: HostRuntime) -> Result<(), Fail> {
    for (types, words, numbers) in [
        ((U8, I8), &[5, 10, 255], &[-3, 5, -128]),
        ((U16, I16), &[0, 1, 65534], &[0, -1, 32767]),
        (
            (U32, I32),
            &[4294967294, 4294967295, 2],
            &[2147483647, -2147483648, 1],
        ),
        (
            (U64, I64),
            &[5, 10, 18446744073709551615],
            &[-3, 5, -9223372036854775808],
        ),
    ] {
        assert!(rt; are_zigzags(rt.alloc(), types, words, numbers)?);
    }
    Ok(())
}

#[test]
fn nulls_of_zigzags_stay(rt: HostRuntime) -> Result<(), Fail> {
    let words = with_nulls(rt.alloc(), U16, &[5, 9, 4], &[true, false, true])?;
    let copy = accepted(ArrayRef::zig_zag(rt.alloc(), words))?.copy(rt.alloc())?;
    assert!(rt; has_rows(&copy, &[Some(-3), None, Some(2)]) && copy.nbytes() == 7);
    Ok(())
}

#[test]
fn nulls_of_packed_zigzags_stay(rt: HostRuntime) -> Result<(), Fail> {
    let alloc = rt.alloc();
    let bytes = packed(alloc, &[5u32, 2, 4], 3)?;
    let valid = Some(bits(alloc, &[true, false, true])?);
    let made = ArrayRef::bit_packed(alloc, U32, 3, bytes, 3, valid, None, Nullable);
    let tree = accepted(ArrayRef::zig_zag(alloc, accepted(made)?))?;
    assert!(rt; is_made_plain(alloc, &tree, (385, 13), &[Some(-3), None, Some(2)])?);
    Ok(())
}
