//! Columns encoded as sparse arrays: which rows are patched, and what is refused.

use std::alloc::Global;
use std::test::Fail;
use vx_array::ArrayRef;
use vx_base::Nullability::{NonNullable, Nullable};
use vx_base::PType::{I32, U8, U32, U64};
use vx_base::{ArrayId, DType, ExecutionCtx, PType, Scalar, VortexError, VortexResult};
use vx_fixtures::{accepted, byte_rows, context, flat, has_rows, has_wholes, with_nulls};
use vx_sparse_array::{Sparse, SparseArray};

// Whether a tree is sparse, with these rows patched and indices of a type.
fn is_patched(tree: &ArrayRef, ptype: PType, numbers: &[i128]) -> bool {
    match tree.child(0) {
        Some(indices) => {
            tree.encoding_id() == ArrayId::Sparse
                && *indices.dtype() == DType::primitive(ptype, NonNullable)
                && has_wholes(indices, numbers)
        }
        None => false,
    }
}

// Whether a tree is sparse, with a fill described by the text.
fn is_filled(alloc: Global, tree: ArrayRef, text: &str) -> VortexResult<bool> {
    match SparseArray::from_array(tree) {
        Ok(array) => Ok(array.sparse_data().describe(alloc)?.as_str() == text),
        Err(_) => Ok(false),
    }
}

// Whether a column and a fill are refused by the error.
fn is_refused(
    array: &ArrayRef,
    fill: Option<&Scalar>,
    ctx: &mut ExecutionCtx,
    error: VortexError,
) -> bool {
    match Sparse::encode(array, fill, ctx) {
        Ok(_) => false,
        Err(own) => own == error,
    }
}

// Whether a column is encoded over a fill as patches at these indices of a type, and has these rows.
fn encodes(
    column: &ArrayRef,
    fill: Option<&Scalar>,
    ctx: &mut ExecutionCtx,
    (ptype, numbers): (PType, &[i128]),
    rows: &[Option<i128>],
) -> VortexResult<bool> {
    let tree = Sparse::encode(column, fill, ctx)?;
    Ok(is_patched(&tree, ptype, numbers) && has_rows(&tree, rows))
}

// Whether a column is encoded over a fill described by the text.
fn fills(
    column: &ArrayRef,
    fill: Option<&Scalar>,
    ctx: &mut ExecutionCtx,
    text: &str,
) -> VortexResult<bool> {
    let tree = Sparse::encode(column, fill, ctx)?;
    is_filled(ctx.alloc(), tree, text)
}

// Whether a column is encoded as a Constant with these rows.
fn is_one(
    column: &ArrayRef,
    fill: Option<&Scalar>,
    ctx: &mut ExecutionCtx,
    rows: &[Option<i128>],
) -> VortexResult<bool> {
    let tree = Sparse::encode(column, fill, ctx)?;
    Ok(tree.encoding_id() == ArrayId::Constant && has_rows(&tree, rows))
}

#[test]
fn the_most_frequent_integer_is_the_fill(rt: HostRuntime) -> Result<(), Fail> {
    let mut ctx = context(rt.alloc())?;
    let column = flat(rt.alloc(), I32, NonNullable, &[1, 1, 2])?;
    let two = Scalar::primitive(2, I32, Nullable)?;
    let rows = [Some(1), Some(1), Some(2)];
    let by_its_own = encodes(&column, None, &mut ctx, (U64, &[2]), &rows)?;
    let by_two = encodes(&column, Some(&two), &mut ctx, (U64, &[0, 1]), &rows)?;
    assert!(rt; by_its_own && by_two && fills(&column, None, &mut ctx, "fill_value: 1")?);
    Ok(())
}

#[test]
fn one_value_in_each_row_is_one_scalar(rt: HostRuntime) -> Result<(), Fail> {
    let mut ctx = context(rt.alloc())?;
    let same = flat(rt.alloc(), U8, NonNullable, &[7, 7])?;
    assert!(rt; is_one(&same, None, &mut ctx, &[Some(7), Some(7)])?);
    Ok(())
}

#[test]
fn an_empty_column_stays_plain(rt: HostRuntime) -> Result<(), Fail> {
    let mut ctx = context(rt.alloc())?;
    let none = flat(rt.alloc(), U8, NonNullable, &[])?;
    let empty = Sparse::encode(&none, None, &mut ctx)?;
    assert!(rt; empty.is_plain() && empty.len() == 0);
    Ok(())
}

// 9 in row 5 of eleven, and null in the others.
fn nine_among_nulls(alloc: Global) -> VortexResult<(ArrayRef, Vec<Option<i128>>)> {
    let mut wholes = vec![in alloc; 0; 11]?;
    let mut valid = vec![in alloc; false; 11]?;
    let mut rows = vec![in alloc; None; 11]?;
    (wholes[5], valid[5], rows[5]) = (9, true, Some(9));
    let column = with_nulls(alloc, U8, wholes.as_slice(), valid.as_slice())?;
    Ok((column, rows))
}

#[test]
fn nulls_in_most_rows_are_the_fill(rt: HostRuntime) -> Result<(), Fail> {
    let mut ctx = context(rt.alloc())?;
    let three = Scalar::primitive(3, U8, NonNullable)?;
    let (column, rows) = nine_among_nulls(rt.alloc())?;
    let patched = encodes(
        &column,
        Some(&three),
        &mut ctx,
        (U32, &[5]),
        rows.as_slice(),
    )?;
    assert!(rt; patched && fills(&column, Some(&three), &mut ctx, "fill_value: null")?);
    Ok(())
}

#[test]
fn nulls_alone_are_one_scalar(rt: HostRuntime) -> Result<(), Fail> {
    let mut ctx = context(rt.alloc())?;
    let three = Scalar::primitive(3, U8, NonNullable)?;
    let nulls = with_nulls(rt.alloc(), U8, &[0, 0], &[false, false])?;
    assert!(rt; is_one(&nulls, Some(&three), &mut ctx, &[None, None])?);
    Ok(())
}

// Over a null fill each row is a patch, and over any other each null.
#[test]
fn a_null_among_others_is_a_patch(rt: HostRuntime) -> Result<(), Fail> {
    let mut ctx = context(rt.alloc())?;
    let column = with_nulls(rt.alloc(), U8, &[3, 0, 4], &[true, false, true])?;
    let three = Scalar::primitive(3, U8, NonNullable)?;
    let null = accepted(Scalar::null(DType::primitive(U8, Nullable)))?;
    let rows = [Some(3), None, Some(4)];
    let by_null = encodes(&column, Some(&null), &mut ctx, (U64, &[0, 1, 2]), &rows)?;
    let by_three = encodes(&column, Some(&three), &mut ctx, (U64, &[1, 2]), &rows)?;
    assert!(rt; by_null && by_three);
    Ok(())
}

// A column of texts.
fn texts(alloc: Global, rows: &[&[u8]]) -> VortexResult<ArrayRef> {
    let rows = byte_rows(alloc, rows)?;
    accepted(ArrayRef::var_bin_view(rows, None, DType::Utf8(NonNullable)))
}

// A text.
fn text(alloc: Global, letters: &str) -> VortexResult<Scalar> {
    let letters = String::from_str(alloc, letters)?;
    accepted(Scalar::text(vx_base::Text::from_string(letters), NonNullable))
}

#[test]
fn texts_need_a_fill(rt: HostRuntime) -> Result<(), Fail> {
    let mut ctx = context(rt.alloc())?;
    let column = texts(rt.alloc(), &[b"a"])?;
    assert!(rt; is_refused(&column, None, &mut ctx, VortexError::MismatchedTypes));
    Ok(())
}

// Whether a row is this JSON.
fn prints(alloc: Global, tree: &ArrayRef, row: u64, text: &str) -> VortexResult<bool> {
    Ok(tree.scalar_at(alloc, row)?.json(alloc)?.as_str() == text)
}

#[test]
fn texts_other_than_the_fill_are_patches(rt: HostRuntime) -> Result<(), Fail> {
    let alloc = rt.alloc();
    let mut ctx = context(alloc)?;
    let column = texts(alloc, &[b"b", b"ab", b"b"])?;
    let fill = text(alloc, "b")?;
    let tree = Sparse::encode(&column, Some(&fill), &mut ctx)?;
    let print = prints(alloc, &tree, 0, "\"b\"")? && prints(alloc, &tree, 1, "\"ab\"")?;
    assert!(rt; print && is_patched(&tree, U64, &[1]));
    Ok(())
}

#[test]
fn too_many_rows_are_refused(rt: HostRuntime) -> Result<(), Fail> {
    let mut ctx = context(rt.alloc())?;
    let many = ArrayRef::constant(Scalar::primitive(1, U8, NonNullable)?, 4_294_967_296);
    let null = accepted(Scalar::null(DType::primitive(I32, Nullable)))?;
    let without = is_refused(&many, None, &mut ctx, VortexError::TooManyRows);
    assert!(rt; without && is_refused(&many, Some(&null), &mut ctx, VortexError::MismatchedTypes));
    Ok(())
}

#[test]
fn fills_of_another_type_are_refused(rt: HostRuntime) -> Result<(), Fail> {
    let mut ctx = context(rt.alloc())?;
    let column = flat(rt.alloc(), I32, NonNullable, &[1])?;
    let null = accepted(Scalar::null(DType::primitive(I32, Nullable)))?;
    let other = Scalar::primitive(1, U8, NonNullable)?;
    let of_null = is_refused(&column, Some(&null), &mut ctx, VortexError::CastRefused);
    let of_other = is_refused(
        &column,
        Some(&other),
        &mut ctx,
        VortexError::MismatchedTypes,
    );
    assert!(rt; of_null && of_other);
    Ok(())
}
