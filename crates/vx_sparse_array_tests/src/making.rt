//! How sparse arrays are made, and that what is refused comes back.

use std::test::Fail;
use vx_array::Patches;
use vx_base::Nullability::{NonNullable, Nullable};
use vx_base::PType::{I32, U8};
use vx_base::{Refused, Scalar, VortexError};
use vx_fixtures::{accepted, flat, has_wholes};
use vx_sparse_array::{Sparse, SparseArray};

#[test]
fn of_indices_and_values(rt: HostRuntime) -> Result<(), Fail> {
    let alloc = rt.alloc();
    let indices = flat(alloc, U8, NonNullable, &[1, 3, 5])?;
    let values = flat(alloc, I32, NonNullable, &[10, 20, 30])?;
    let fill = Scalar::primitive(1, I32, NonNullable)?;
    let made = accepted(Sparse::try_new(alloc, indices, values, 8, fill))?;
    assert!(rt; has_wholes(made.as_array(), &[1, 10, 1, 20, 1, 30, 1, 1]));
    let back = SparseArray::from_array(made.into_array());
    assert!(rt; back.is_ok());
    let other = SparseArray::from_array(flat(alloc, U8, NonNullable, &[1])?);
    assert!(rt; other.is_err());
    Ok(())
}

#[test]
fn what_is_refused_comes_back(rt: HostRuntime) -> Result<(), Fail> {
    let alloc = rt.alloc();
    let indices = flat(alloc, U8, NonNullable, &[3, 1])?;
    let values = flat(alloc, I32, NonNullable, &[10, 20])?;
    let fill = Scalar::primitive(1, I32, Nullable)?;
    let Err(refused) = Sparse::try_new(alloc, indices, values, 8, fill) else {
        return Err(Fail::from("a fill of another type"));
    };
    let Refused { error, inputs } = refused;
    assert!(rt; error == VortexError::MismatchedTypes);
    let (indices, values, _other) = inputs;
    let fill = Scalar::primitive(1, I32, NonNullable)?;
    let Err(refused) = Sparse::try_new(alloc, indices, values, 8, fill) else {
        return Err(Fail::from("indices that fall"));
    };
    let Refused { error, inputs } = refused;
    assert!(rt; error == VortexError::IndicesNotAscending);
    let (indices, values, fill) = inputs;
    assert!(rt; has_wholes(&indices, &[3, 1]) && has_wholes(&values, &[10, 20]));
    assert!(rt; fill == Scalar::primitive(1, I32, NonNullable)?);
    Ok(())
}

#[test]
fn of_patches(rt: HostRuntime) -> Result<(), Fail> {
    let alloc = rt.alloc();
    let indices = flat(alloc, U8, NonNullable, &[3, 5])?;
    let values = flat(alloc, I32, NonNullable, &[10, 20])?;
    let patches = accepted(Patches::new(4, 2, indices, values))?;
    let fill = Scalar::primitive(1, I32, Nullable)?;
    let Err(refused) = Sparse::try_new_from_patches(alloc, patches, fill) else {
        return Err(Fail::from("a fill of another type"));
    };
    let Refused { error, inputs } = refused;
    assert!(rt; error == VortexError::MismatchedTypes);
    let (patches, _other) = inputs;
    let fill = Scalar::primitive(1, I32, NonNullable)?;
    let made = accepted(Sparse::try_new_from_patches(alloc, patches, fill))?;
    assert!(rt; has_wholes(made.as_array(), &[1, 10, 1, 20]));
    Ok(())
}
