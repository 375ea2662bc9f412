//! The form of the tree that a compressor makes of a column, as plain data.

use std::alloc::Global;
use vx_array::ArrayRef;
use vx_base::{ArrayId, ExecutionCtx, Nullability, PType, VortexResult};
use vx_btrblocks::BtrBlocksCompressor;
use vx_fixtures::{column, context, flat, made_of};
use vx_scheme::{NoScheme, Scheme};

/// The root's encoding, the bytes of the whole tree, and the encoding of child 0.
pub(crate) type Form = (ArrayId, u128, Option<ArrayId>);

pub(crate) fn form_of(tree: &ArrayRef) -> Form {
    (tree.encoding_id(), tree.nbytes(), encoding_inside(tree))
}

// The encoding of child 0.
fn encoding_inside(tree: &ArrayRef) -> Option<ArrayId> {
    let child = tree.child(0)?;
    Some(child.encoding_id())
}

// The encoding and the bytes of a child.
pub(crate) fn inside(tree: &ArrayRef, place: usize) -> Option<(ArrayId, u128)> {
    let child = tree.child(place)?;
    Some((child.encoding_id(), child.nbytes()))
}

// The number of parts that a scheme makes of a column, and the form of its tree over the plain parts.
pub(crate) fn made_form<S: Scheme>(
    alloc: Global,
    scheme: &S,
    ptype: PType,
    rows: &[Option<i128>],
) -> VortexResult<(u64, Form)> {
    let (parts, tree) = made_of(alloc, scheme, ptype, rows)?;
    Ok((parts, form_of(&tree)))
}

// The form of the tree that a compressor makes.
pub(crate) fn form_by<X: Scheme>(
    compressor: &BtrBlocksCompressor<X>,
    array: &ArrayRef,
    ctx: &mut ExecutionCtx,
) -> VortexResult<Form> {
    let tree = compressor.compress(array, ctx)?;
    Ok(form_of(&tree))
}

// The form by the shipped schemes, and by a list with schemes of a caller's.
pub(crate) fn by_both<X: Scheme>(
    alloc: Global,
    compressor: &BtrBlocksCompressor<X>,
    array: &ArrayRef,
) -> VortexResult<(Form, Form)> {
    let mut ctx = context(alloc)?;
    let shipped = BtrBlocksCompressor::<NoScheme>::shipped(alloc)?;
    let without = form_by(&shipped, array, &mut ctx)?;
    let with = form_by(compressor, array, &mut ctx)?;
    Ok((without, with))
}

// Both forms of a column without nulls.
pub(crate) fn wholes_by_both<X: Scheme>(
    alloc: Global,
    compressor: &BtrBlocksCompressor<X>,
    ptype: PType,
    wholes: &[i128],
) -> VortexResult<(Form, Form)> {
    let array = flat(alloc, ptype, Nullability::NonNullable, wholes)?;
    by_both(alloc, compressor, &array)
}

// Both forms of a column, None for null.
pub(crate) fn rows_by_both<X: Scheme>(
    alloc: Global,
    compressor: &BtrBlocksCompressor<X>,
    ptype: PType,
    rows: &[Option<i128>],
) -> VortexResult<(Form, Form)> {
    let array = column(alloc, ptype, rows)?;
    by_both(alloc, compressor, &array)
}

// Both forms of a thousand rows: `first` to `first` + 9 in turn.
pub(crate) fn tens_by_both<X: Scheme>(
    alloc: Global,
    compressor: &BtrBlocksCompressor<X>,
    first: i128,
) -> VortexResult<(Form, Form)> {
    let wholes = tens(alloc, 1000, first)?;
    wholes_by_both(alloc, compressor, PType::I32, wholes.as_slice())
}

// Both forms of `waves`.
pub(crate) fn waves_by_both<X: Scheme>(
    alloc: Global,
    compressor: &BtrBlocksCompressor<X>,
    least: i128,
) -> VortexResult<(Form, Form)> {
    let wholes = waves(alloc, least)?;
    wholes_by_both(alloc, compressor, PType::I32, wholes.as_slice())
}

// `first` to `first` + 9 in turn.
pub(crate) fn tens(alloc: Global, rows: u16, first: i128) -> VortexResult<Vec<i128>> {
    let mut wholes = Vec::new(alloc);
    for row in 0..rows {
        wholes.push(first.saturating_add(i128::from(row % 10)))?;
    }
    Ok(wholes)
}

// 2,048 rows. Of each 128 the first 64, which are the slice by the word 0, have the least value; the others are 1 to 7 above it.
fn waves(alloc: Global, least: i128) -> VortexResult<Vec<i128>> {
    let mut wholes = Vec::new(alloc);
    for row in 0..2048_u16 {
        let more = if row % 128 < 64 { 0 } else { row % 7 + 1 };
        wholes.push(least.saturating_add(i128::from(more)))?;
    }
    Ok(wholes)
}
