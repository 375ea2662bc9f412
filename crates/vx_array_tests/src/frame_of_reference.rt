//! Frames of reference: sums that wrap in each type, and nulls of the child.

use std::alloc::Global;
use std::test::Fail;
use vx_array::ArrayRef;
use vx_base::Nullability::{NonNullable, Nullable};
use vx_base::PType::{self, I8, I16, I32, I64, U8, U16, U32, U64};
use vx_base::{Scalar, VortexResult};
use vx_fixtures::{accepted, bits, flat, has_wholes, is_made_plain, packed};

// Whether differences from a reference of a type have these sums, and so has their plain tree.
fn are_sums(
    alloc: Global,
    (ptype, reference): (PType, i128),
    differences: &[i128],
    sums: &[i128],
) -> VortexResult<bool> {
    let differences = flat(alloc, ptype.to_unsigned(), NonNullable, differences)?;
    let reference = Scalar::primitive(reference, ptype, NonNullable)?;
    let tree = accepted(ArrayRef::frame_of_reference(alloc, differences, reference))?;
    Ok(has_wholes(&tree, sums) && has_wholes(&tree.canonical(alloc)?, sums))
}

#[test]
fn sums_wrap_in_the_type_of_the_reference(rt: HostRuntime) -> Result<(), Fail> {
    let least = i128::from(i64::MIN);
    let most = i128::from(i64::MAX);
    let top = i128::from(u64::MAX);
    for (reference, differences, sums) in [
        ((U8, 250), &[0, 5, 6], &[250, 255, 0]),
        ((U16, 65535), &[0, 1, 65535], &[65535, 0, 65534]),
        ((U32, 7), &[0, 4294967288, 4294967289], &[7, 4294967295, 0]),
        ((U64, top), &[0, 1, top], &[top, 0, top - 1]),
        ((I8, 127), &[0, 3, 255], &[127, -126, 126]),
        ((I16, -32768), &[0, 65535, 32768], &[-32768, 32767, 0]),
        ((I32, 1000), &[0, 5, 4294967295], &[1000, 1005, 999]),
        ((I64, least), &[0, 1, top], &[least, least + 1, most]),
    ] {
        assert!(rt; are_sums(rt.alloc(), reference, differences, sums)?);
    }
    Ok(())
}

#[test]
fn nulls_of_packed_differences_stay(rt: HostRuntime) -> Result<(), Fail> {
    let alloc = rt.alloc();
    let bytes = packed(alloc, &[1u32, 2, 3], 2)?;
    let valid = Some(bits(alloc, &[true, false, true])?);
    let made = ArrayRef::bit_packed(alloc, U32, 2, bytes, 3, valid, None, Nullable);
    let reference = Scalar::primitive(1000, I32, NonNullable)?;
    let tree = accepted(ArrayRef::frame_of_reference(alloc, accepted(made)?, reference))?;
    assert!(rt; is_made_plain(alloc, &tree, (257, 13), &[Some(1001), None, Some(1003)])?);
    Ok(())
}
