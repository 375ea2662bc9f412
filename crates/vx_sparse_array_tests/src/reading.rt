//! What a sparse array gives back: its rows, its plain tree and its patches.

use std::alloc::Global;
use std::test::Fail;
use vx_array::{ArrayRef, Patches};
use vx_base::Nullability::NonNullable;
use vx_base::PType::{I32, U8, U32, U64};
use vx_base::{ArrayId, DType, ExecutionCtx, Scalar, VortexError, VortexResult};
use vx_fixtures::{accepted, context, flat, has_wholes, list_scalar};
use vx_sparse_array::{Sparse, SparseArray, SparseExt};

// Eight rows: 10, 20 and 30 in the rows `index - offset`, and 1 in the others.
fn tens(alloc: Global, offset: u64, indices: &[i128]) -> VortexResult<SparseArray> {
    let indices = flat(alloc, U8, NonNullable, indices)?;
    let values = flat(alloc, I32, NonNullable, &[10, 20, 30])?;
    let patches = accepted(Patches::new(8, offset, indices, values))?;
    let fill = Scalar::primitive(1, I32, NonNullable)?;
    accepted(Sparse::try_new_from_patches(alloc, patches, fill))
}

// Whether the resolved patches have these indices, as `u64`, and the values 10, 20 and 30.
fn resolves_to<A: SparseExt>(
    array: &A,
    ctx: &mut ExecutionCtx,
    indices: &[i128],
) -> VortexResult<bool> {
    let own = array.resolved_patches(ctx)?;
    let typed = *own.indices().dtype() == DType::primitive(U64, NonNullable);
    let placed = own.array_len() == 8 && own.offset() == 0 && has_wholes(own.indices(), indices);
    Ok(typed && placed && has_wholes(own.values(), &[10, 20, 30]))
}

#[test]
fn rows_and_patches_come_back(rt: HostRuntime) -> Result<(), Fail> {
    let alloc = rt.alloc();
    let array = tens(alloc, 0, &[1, 3, 5])?;
    let rows = [1, 10, 1, 20, 1, 30, 1, 1];
    let copy = array.as_array().copy(alloc)?;
    assert!(rt; has_wholes(array.as_array(), &rows));
    assert!(rt; copy.encoding_id() == ArrayId::Sparse && has_wholes(&copy, &rows));
    let plain = copy.canonical(alloc)?;
    assert!(rt; plain.is_plain() && has_wholes(&plain, &rows));
    assert!(rt; copy.scalar_at(alloc, 3)? == Scalar::primitive(20, I32, NonNullable)?);
    let behind = match copy.scalar_at(alloc, 8) {
        Ok(_) => false,
        Err(error) => error == VortexError::OutOfBounds,
    };
    assert!(rt; behind);
    assert!(rt; array.sparse_data().describe(alloc)?.as_str() == "fill_value: 1");
    Ok(())
}

#[test]
fn resolved_patches_have_no_offset(rt: HostRuntime) -> Result<(), Fail> {
    let alloc = rt.alloc();
    let mut ctx = context(alloc)?;
    let array = tens(alloc, 0, &[1, 3, 5])?;
    assert!(rt; resolves_to(&array, &mut ctx, &[1, 3, 5])?);
    let above = tens(alloc, 200, &[201, 203, 205])?;
    assert!(rt;
        above.patches().offset() == 200 && has_wholes(above.patches().indices(), &[201, 203, 205])
    );
    assert!(rt; resolves_to(&above, &mut ctx, &[1, 3, 5])?);
    Ok(())
}

#[test]
fn lists_are_laid_one_after_the_other(rt: HostRuntime) -> Result<(), Fail> {
    let alloc = rt.alloc();
    let elements = flat(alloc, I32, NonNullable, &[9])?;
    let offsets = flat(alloc, U8, NonNullable, &[0, 1])?;
    let values = accepted(ArrayRef::list(alloc, elements, offsets, None, NonNullable))?;
    let indices = flat(alloc, U32, NonNullable, &[1])?;
    let fill = list_scalar(alloc, &[7, 8])?;
    let array = accepted(Sparse::try_new(alloc, indices, values, 3, fill))?;
    let plain = array.as_array().canonical(alloc)?;
    let laid = match (plain.child(0), plain.child(1)) {
        (Some(elements), Some(offsets)) => {
            has_wholes(elements, &[7, 8, 9, 7, 8]) && has_wholes(offsets, &[0, 2, 3, 5])
        }
        _ => false,
    };
    assert!(rt; plain.is_plain() && plain.len() == 3 && laid);
    Ok(())
}
