//! The data of a sparse array beside its trees.

use std::alloc::Global;
use std::test::Fail;
use vx_array::Patches;
use vx_base::Nullability::{self, NonNullable, Nullable};
use vx_base::PType::{I32, U8};
use vx_base::{DType, Scalar, VortexError, VortexResult};
use vx_fixtures::{accepted, flat};
use vx_sparse_array::{Sparse, SparseData};

// 10 and 20 in rows 1 and 3 of four, with offset 2.
fn two(alloc: Global) -> VortexResult<Patches> {
    let indices = flat(alloc, U8, NonNullable, &[3, 5])?;
    let values = flat(alloc, I32, NonNullable, &[10, 20])?;
    accepted(Patches::new(4, 2, indices, values))
}

fn one() -> VortexResult<Scalar> {
    Scalar::primitive(1, I32, NonNullable)
}

// Whether the data are those of four rows with offset 2, over 1.
fn are_of_two(alloc: Global, data: &SparseData<'_>) -> VortexResult<bool> {
    let is_described = data.describe(alloc)?.as_str() == "fill_value: 1";
    let has_rows = data.len() == 4 && data.offset() == 2 && !data.is_empty();
    let has_type = *data.dtype() == DType::primitive(I32, NonNullable);
    Ok(is_described && has_rows && has_type && *data.fill_scalar() == one()?)
}

#[test]
fn data_of_patches(rt: HostRuntime) -> Result<(), Fail> {
    let patches = two(rt.alloc())?;
    let fill = one()?;
    let data = SparseData::try_new_from_patches(&patches, &fill)?;
    assert!(rt; are_of_two(rt.alloc(), &data)?);
    Ok(())
}

// Why patches and a fill aren't those of a sparse array of `len` rows of `i32`, if they aren't.
fn validated(
    patches: &Patches,
    fill: &Scalar,
    nullability: Nullability,
    len: u64,
) -> VortexResult<()> {
    SparseData::validate(patches, fill, &DType::primitive(I32, nullability), len)
}

#[test]
fn patches_are_of_a_type_and_a_length(rt: HostRuntime) -> Result<(), Fail> {
    let patches = two(rt.alloc())?;
    let fill = one()?;
    let same = validated(&patches, &fill, NonNullable, 4);
    let longer = validated(&patches, &fill, NonNullable, 5);
    let other = validated(&patches, &fill, Nullable, 5);
    assert!(rt;
        same.is_ok()
            && longer == Err(VortexError::LengthMismatch)
            && other == Err(VortexError::MismatchedTypes)
    );
    Ok(())
}

#[test]
fn an_array_has_the_data_of_its_patches(rt: HostRuntime) -> Result<(), Fail> {
    let made = Sparse::try_new_from_patches(rt.alloc(), two(rt.alloc())?, one()?);
    let array = accepted(made)?;
    assert!(rt; are_of_two(rt.alloc(), &array.sparse_data())?);
    Ok(())
}

// Whether the data of patches over a fill equal those of `two` over 1.
fn are_equal(alloc: Global, patches: &Patches, fill: &Scalar) -> VortexResult<bool> {
    let own = two(alloc)?;
    let own_fill = one()?;
    let data = SparseData::try_new_from_patches(&own, &own_fill)?;
    let other = SparseData::try_new_from_patches(patches, fill)?;
    Ok(other == data)
}

#[test]
fn equality_is_that_of_what_is_kept(rt: HostRuntime) -> Result<(), Fail> {
    let alloc = rt.alloc();
    // Other values at other indices, which the data don't have.
    let indices = flat(alloc, U8, NonNullable, &[2, 3])?;
    let values = flat(alloc, I32, NonNullable, &[7, 7])?;
    let others = accepted(Patches::new(4, 2, indices, values))?;
    let ten = Scalar::primitive(10, I32, NonNullable)?;
    assert!(rt; are_equal(alloc, &others, &one()?)? && !are_equal(alloc, &others, &ten)?);
    Ok(())
}
