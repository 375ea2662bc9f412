//! Sparse trees of a column over a fill.

ghost use Rattle.std.specs.List.{list_all};
ghost use Rattle.std.specs.Prelude.{◌≡◌, ◌<◌, ◌==◌, ◌^◌, IsTrue, None, Ok, if◌then◌else◌, length, map, pos, true};
ghost use Rattle.vx_base.specs.Answers.{Answers, OrMemory};
ghost use Rattle.vx_base.specs.Integers.{lies_in};
ghost use Rattle.vx_base.specs.PlainScalar.{scalar};
ghost use Rattle.vx_base.specs.PlainType.{is_integer};
ghost use Rattle.vx_base.specs.PlainValue.{int, is_null, null};
ghost use Rattle.vx_base.specs.declared.dtype.Nullability.TheVariants.{NonNullable};
ghost use Rattle.vx_base.specs.declared.ptype.PType.TheVariants.{U32, U64};
ghost use Rattle.vx_model.specs.Column.{column_of};
ghost use Rattle.vx_model.specs.Plain.{IsPlain};
ghost use Rattle.vx_model.specs.Rows.{rows};
ghost use Rattle.vx_model.specs.Tree.{constant, primitive, sparse};
ghost use Rattle.vx_model.specs.TreeType.{tree_type};
ghost use Rattle.vx_stats.specs.Stats.{most_frequent};
ghost use Rattle.vx_sparse_array.specs.Filling.{filled_tree, is_mostly_null, null_filling, patched_rows, value_filling};
ghost use Rattle.vx_sparse_array.specs.Refused.{parts_refusal};
ghost use Rattle.vx_values.specs.IntsOf.{ptype_of, wholes_of};

use crate::encode::Sparse;
use crate::integers::patched_rows;
use crate::rows::{rows_at, rows_with_others, rows_with_values};
use std::alloc::Global;
use vx_array::ArrayRef;
use vx_base::{Cell, ExecutionCtx, IntList, Nullability, PType, Scalar, VortexResult, Words};
use vx_stats::{GenerateStatsOptions, IntegerStats};
use vx_values::Ints;

/// The plain tree of the column of a tree.
pub(crate) fn plain_tree(alloc: Global, array: &ArrayRef) -> VortexResult<ArrayRef>
    ensures plain { OrMemory result (λ plain. IsPlain plain) }
    ensures column { OrMemory result (λ plain. column_of plain ≡ column_of array.now) }
{
    array.known();
    array.canonical(alloc)
}

/// A Constant of null, of a column whose rows are all null.
pub(crate) fn null_tree(alloc: Global, array: &ArrayRef) -> VortexResult<ArrayRef>
    requires some { 0 < length (rows array.now) }
    requires nulls { IsTrue (list_all is_null (rows array.now)) }
    ensures { Answers result (constant (scalar (tree_type array.now) null) (length (rows array.now))) }
{
    array.known();
    let fill = Scalar::of_cell(alloc, array.dtype(), Cell::Null)?;
    Ok(ArrayRef::constant(fill, array.len()))
}

/// A plain column over the null fill, with its values as patches and `u32` indices.
pub(crate) fn over_nulls(alloc: Global, plain: &ArrayRef) -> VortexResult<ArrayRef>
    requires plain { IsPlain plain.now }
    requires mostly { IsTrue (is_mostly_null (rows plain.now)) }
    requires few { length (rows plain.now) < 2 ^ 32 }
    ensures { Answers result (filled_tree U32 null_filling (column_of plain.now)) }
{
    plain.known();
    let fill = Scalar::of_cell(alloc, plain.dtype(), Cell::Null)?;
    let numbers = numbers_of_values(alloc, plain)?;
    let values = rows_at(alloc, plain, numbers.as_slice())?;
    let indices = narrow_indices(alloc, numbers)?;
    filled(alloc, plain.len(), indices, values, fill)
}

/// A plain column over a value as the fill, with the other rows as patches and `u64` indices.
pub(crate) fn over_value(alloc: Global, plain: &ArrayRef, fill: Scalar) -> VortexResult<ArrayRef>
    requires plain { IsPlain plain.now }
    requires fill { fill.dtype ≡ tree_type plain.now }
    ensures { Answers result (filled_tree U64 (value_filling fill.value) (column_of plain.now)) }
{
    plain.known();
    let numbers = numbers_of_others(alloc, plain, &fill)?;
    let values = rows_at(alloc, plain, numbers.as_slice())?;
    let indices = wide_indices(numbers)?;
    filled(alloc, plain.len(), indices, values, fill)
}

/// The most frequent integer of a plain column.
pub(crate) fn frequent_value(plain: &ArrayRef, ctx: &mut ExecutionCtx) -> VortexResult<Scalar>
    requires integer { IsTrue (is_integer (tree_type plain.now)) }
    requires some { 0 < length (rows plain.now) }
    requires few { length (rows plain.now) < 2 ^ 32 }
    ensures answer { Answers result (scalar (tree_type plain.now) (int (most_frequent (rows plain.now)).0)) }
    ensures ctx { ctx.new ≡ ctx.old }
{
    plain.known();
    let options = GenerateStatsOptions {
        count_distinct_values: true,
    };
    let stats = IntegerStats::generate_opts(plain, options, ctx)?;
    let Some((frequent, _)) = stats.most_frequent_value_and_count() else {
        unreachable!();
    };
    Scalar::of_cell(ctx.alloc(), plain.dtype(), Cell::Int(frequent.value))
}

// The numbers of the valid rows of a plain column.
fn numbers_of_values(alloc: Global, plain: &ArrayRef) -> VortexResult<IntList<u64>>
    requires { IsPlain plain.now }
    ensures { Answers result (patched_rows null_filling (rows plain.now)) }
{
    if plain.dtype().is_integer() {
        patched_rows(alloc, plain, None)
    } else {
        rows_with_values(alloc, plain)
    }
}

// The numbers of the rows of a plain column that are null or differ from the fill.
fn numbers_of_others(alloc: Global, plain: &ArrayRef, fill: &Scalar) -> VortexResult<IntList<u64>>
    requires plain { IsPlain plain.now }
    requires fill { fill.now.dtype ≡ tree_type plain.now }
    ensures { Answers result (patched_rows (value_filling fill.now.value) (rows plain.now)) }
{
    fill.known();
    if fill.dtype().is_integer() && !fill.is_null() {
        patched_rows(alloc, plain, fill.integer())
    } else {
        rows_with_others(alloc, plain, fill)
    }
}

// Row numbers as `u64` indices.
fn wide_indices(numbers: Words) -> VortexResult<ArrayRef>
    ensures { Answers result (primitive U64 (map pos numbers) None NonNullable) }
{
    index_tree(Ints::U64(numbers))
}

// Row numbers as `u32` indices.
fn narrow_indices(alloc: Global, numbers: Words) -> VortexResult<ArrayRef>
    requires { IsTrue (list_all (lies_in U32) (map pos numbers)) }
    ensures { Answers result (primitive U32 (map pos numbers) None NonNullable) }
{
    index_tree(Ints::U64(numbers).in_unsigned(alloc, PType::U32)?)
}

/// A Primitive of integers without nulls.
pub(crate) fn index_tree(numbers: Ints) -> VortexResult<ArrayRef>
    ensures { result ≡ Ok (primitive (ptype_of numbers) (wholes_of numbers) None NonNullable) }
{
    match ArrayRef::primitive(numbers, None, Nullability::NonNullable) {
        Ok(tree) => Ok(tree),
        Err(refused) => Err(refused.error),
    }
}

// A Sparse of `len` rows; a Constant of the fill where there is no patch.
fn filled(
    alloc: Global,
    len: u64,
    indices: ArrayRef,
    values: ArrayRef,
    fill: Scalar,
) -> VortexResult<ArrayRef>
    requires { parts_refusal len indices values fill ≡ None }
    ensures { Answers result (if length (rows indices) == 0 then constant fill len else sparse len 0 indices values fill) }
{
    if indices.len() == 0 {
        return Ok(ArrayRef::constant(fill, len));
    }
    match Sparse::try_new(alloc, indices, values, len, fill) {
        Ok(array) => Ok(array.into_array()),
        Err(refused) => Err(refused.error),
    }
}
