//! The answers of a scheme about a short column of texts or binaries.

ghost use Rattle.std.specs.Prelude.{◌≡◌, ◌<◌, IfOk, IsTrue, length, true};
ghost use Rattle.vx_base.specs.PlainType.{is_bytes};
ghost use Rattle.vx_model.specs.Column.{column_of};
ghost use Rattle.vx_model.specs.Plain.{IsPlain};
ghost use Rattle.vx_model.specs.Rows.{rows};
ghost use Rattle.vx_model.specs.TreeType.{tree_type};
ghost use Rattle.vx_scheme.specs.Asked.{HasValue};

use std::alloc::Global;
use vx_array::ArrayRef;
use vx_base::{
    ArrayId, ByteRows, Bytes, Cell, DType, ExecutionCtx, Mask, VortexError, VortexResult,
};
use vx_fixtures::{Told, context, made_of_taken, told_by_estimate};
use vx_scheme::{ArrayAndStats, CompressorContext, GenerateStatsOptions, Scheme};

/// A row of a column of texts or binaries, None for null.
pub(crate) type Row<'a> = Option<&'a [u8]>;

// The plain column with these rows. Refuses MismatchedTypes where the type isn't one of texts or binaries.
fn column(alloc: Global, dtype: DType, rows: &[Row]) -> VortexResult<ArrayRef>
    ensures bytes { IfOk result (λ array. IsTrue (is_bytes (tree_type array))) }
    ensures plain { IfOk result (λ array. IsPlain array) }
{
    let mut values = Vec::new(alloc);
    let mut valid = Vec::new(alloc);
    for row in rows {
        let bytes = Vec::from_slice(alloc, row.unwrap_or(b""))?;
        values.push(Bytes::from_vec(bytes))?;
        valid.push(row.is_some())?;
    }
    match ArrayRef::var_bin_view(
        ByteRows::from_vec(values),
        Some(Mask::from_bits(valid)),
        dtype,
    ) {
        Ok(array) if array.is_plain() && array.dtype().is_bytes() => Ok(array),
        Ok(_) => Err(VortexError::MismatchedTypes),
        Err(refused) => Err(refused.error),
    }
}

// A bundle over that column, whose options ask for distinct values.
fn bundle(alloc: Global, dtype: DType, rows: &[Row]) -> VortexResult<ArrayAndStats>
    ensures bytes { IfOk result (λ column. IsTrue (is_bytes (tree_type column.array))) }
    ensures asked { IfOk result (λ column. column.options.count_distinct_values ≡ true) }
{
    let options = GenerateStatsOptions {
        count_distinct_values: true,
    };
    Ok(ArrayAndStats::new(column(alloc, dtype, rows)?, options))
}

// Whether some row has a value.
#[tactic(auto, using(crate::proofs::ValueLemmas::values))]
fn has_value(array: &ArrayRef) -> bool
    requires { IsPlain array.now }
    ensures some { IsTrue result → 0 < length (rows array.now) }
    ensures value { IsTrue result → HasValue (column_of array.now) }
{
    array.first_valid().is_some()
}

// The estimate of a scheme for a column at a fresh site.
fn estimate<S: Scheme>(
    scheme: &S,
    column: &mut ArrayAndStats,
    ctx: &mut ExecutionCtx,
) -> VortexResult<Told>
    requires bytes { IsTrue (is_bytes (tree_type column.old.array)) }
    requires options { column.old.options.count_distinct_values ≡ true }
{
    let array = column.array();
    if array.len() > 4096 || !has_value(array) {
        return Err(VortexError::MismatchedTypes);
    }
    let site = CompressorContext::new();
    Ok(told_by_estimate(scheme.expected_compression_ratio(column, &site, ctx)?))
}

/// The estimate of a scheme for a column of at most 4,096 rows with a value.
pub(crate) fn told_of<S: Scheme>(
    alloc: Global,
    scheme: &S,
    dtype: DType,
    rows: &[Row],
) -> VortexResult<Told> {
    let mut ctx = context(alloc)?;
    let mut column = bundle(alloc, dtype, rows)?;
    estimate(scheme, &mut column, &mut ctx)
}

// The number of parts that a scheme makes of a column, and its tree over the plain parts.
fn made_of<S: Scheme>(
    alloc: Global,
    scheme: &S,
    dtype: DType,
    rows: &[Row],
) -> VortexResult<(u64, ArrayRef)> {
    let mut ctx = context(alloc)?;
    let mut column = bundle(alloc, dtype, rows)?;
    made_of_taken(scheme, &mut column, &mut ctx)
}

// Whether a row of a tree is this one.
fn is_row(tree: &ArrayRef, row: u64, want: Row) -> bool {
    if !tree.dtype().is_flat() || row >= tree.len() {
        return false;
    }
    match (tree.cell_at(row), want) {
        (Cell::Bytes(bytes), Some(want)) => bytes == want,
        (Cell::Null, None) => true,
        _ => false,
    }
}

// Whether a tree has these rows.
fn has_rows(tree: &ArrayRef, rows: &[Row]) -> bool {
    if tree.len() != rows.len() as u64 {
        return false;
    }
    for row in 0..rows.len() {
        if !is_row(tree, row as u64, rows[row]) {
            return false;
        }
    }
    true
}

/// The encoding and the bytes of a node.
pub(crate) type Shape = (ArrayId, u128);

fn shape_of(tree: &ArrayRef) -> Shape {
    (tree.encoding_id(), tree.nbytes())
}

// Whether these are the shapes of a tree and of its children.
fn is_tree(tree: &ArrayRef, root: Shape, children: &[Shape]) -> bool {
    if shape_of(tree) != root || tree.num_children() != children.len() {
        return false;
    }
    for place in 0..children.len() {
        match tree.child(place) {
            Some(child) if shape_of(child) == children[place] => {}
            _ => return false,
        }
    }
    true
}

/// Whether a scheme makes this number of parts of the rows, and over the plain parts a tree of these shapes with the rows.
pub(crate) fn makes<S: Scheme>(
    alloc: Global,
    scheme: &S,
    parts: u64,
    (dtype, rows): (DType, &[Row]),
    (root, children): (Shape, &[Shape]),
) -> VortexResult<bool> {
    let (made, tree) = made_of(alloc, scheme, dtype, rows)?;
    Ok(made == parts && is_tree(&tree, root, children) && has_rows(&tree, rows))
}

/// The rows of a child of the tree that a scheme makes over its plain parts, integers as whole numbers, compared.
pub(crate) fn child_is<S: Scheme>(
    alloc: Global,
    scheme: &S,
    (dtype, rows): (DType, &[Row]),
    place: usize,
    want: &[Option<i128>],
) -> VortexResult<bool> {
    let (_, tree) = made_of(alloc, scheme, dtype, rows)?;
    match tree.child(place) {
        Some(child) => Ok(vx_fixtures::has_rows(child, want)),
        None => Ok(false),
    }
}
