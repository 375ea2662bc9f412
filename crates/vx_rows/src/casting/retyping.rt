//! Rows as a column of a type that they are of, and that differs from theirs in outermost nullability alone. Truth values, texts and
//! binaries are copied as they stand, and a constant by its value.

ghost use Rattle.std.specs.List.{list_all};
ghost use Rattle.std.specs.Prelude.{◌≡◌, ◌<◌, IsTrue, length, map, replicate, true};
ghost use Rattle.vx_base.specs.Answers.{OrMemory};
ghost use Rattle.vx_base.specs.PlainScalar.{fits};
ghost use Rattle.vx_base.specs.PlainType.{is_bytes, is_flat};
ghost use Rattle.vx_base.specs.PlainType as types;
ghost use Rattle.vx_base.specs.PlainValue.{bytes, truth};
ghost use Rattle.vx_base.specs.TypeOf.{type_of, value_of};
ghost use Rattle.vx_model.specs.Column.{column, column_of};
ghost use Rattle.vx_model.specs.Rows.{rows, valid_rows};
ghost use Rattle.vx_model.specs.Tree.{bool, var_bin_view};
ghost use Rattle.vx_model.specs.WellFormed.{WellFormed};

use std::alloc::Global;
use vx_array::{ArrayRef, Node};
use vx_base::{ByteRows, DType, Mask, Nullability, Scalar, Value, VortexResult};
use vx_values::{byte_rows, copy_validity};

// The rows as a column of a type that they are of.
pub(super) fn retyped(alloc: Global, array: &ArrayRef, dtype: &DType) -> VortexResult<ArrayRef>
    requires { IsTrue (list_all (fits (type_of dtype.now)) (rows array.now)) }
    ensures { OrMemory result (λ out. column_of out ≡ column (type_of dtype.now) (rows array.now)) }
{
    match (array.node(), dtype) {
        (Node::Bool(values, valid, own), DType::Bool(nullability)) => {
            retyped_bool(alloc, values, valid, *own, *nullability)
        }
        (Node::VarBinView(values, valid, own), _) if dtype.is_bytes() => {
            retyped_view(alloc, values, valid, own, dtype)
        }
        (Node::Constant(value, len), _) if *len > 0 && value.dtype().is_flat() => {
            retyped_same(alloc, value, *len, dtype)
        }
        _ => retyped_values(alloc, array, dtype),
    }
}

// Truth values in another nullability.
fn retyped_bool(
    alloc: Global,
    values: &Mask,
    valid: &Option<Mask>,
    own: Nullability,
    nullability: Nullability,
) -> VortexResult<ArrayRef>
    requires well { WellFormed (bool values.now valid.now own) }
    requires fit { IsTrue (list_all (fits (types.boolean nullability)) (valid_rows valid.now (map truth values.now))) }
    ensures { OrMemory result (λ out. column_of out ≡ column (types.boolean nullability) (valid_rows valid.now (map truth values.now))) }
{
    let items = values.copy(alloc)?;
    let bits = copy_validity(alloc, valid)?;
    Ok(ArrayRef::bool_of(items, bits, nullability))
}

// Texts or binaries in another type of texts or binaries.
fn retyped_view(
    alloc: Global,
    values: &ByteRows,
    valid: &Option<Mask>,
    own: &DType,
    dtype: &DType,
) -> VortexResult<ArrayRef>
    requires well { WellFormed (var_bin_view values.now valid.now (type_of own.now)) }
    requires bytes { IsTrue (is_bytes (type_of dtype.now)) }
    requires fit { IsTrue (list_all (fits (type_of dtype.now)) (valid_rows valid.now (map bytes values.now))) }
    ensures { OrMemory result (λ out. column_of out ≡ column (type_of dtype.now) (valid_rows valid.now (map bytes values.now))) }
{
    let items = byte_rows::decoded(alloc, values, &None)?;
    let bits = copy_validity(alloc, valid)?;
    let kind = dtype.copy(alloc)?;
    Ok(ArrayRef::var_bin_view_of(items, bits, kind))
}

// One value in every row, in another type.
fn retyped_same(alloc: Global, value: &Scalar, len: u64, dtype: &DType) -> VortexResult<ArrayRef>
    requires some { 0 < len }
    requires flat { IsTrue (is_flat value.now.dtype) }
    requires fit { IsTrue (list_all (fits (type_of dtype.now)) (replicate len value.now.value)) }
    ensures { OrMemory result (λ out. column_of out ≡ column (type_of dtype.now) (replicate len value.now.value)) }
{
    let scalar = Scalar::of_cell(alloc, dtype, value.cell())?;
    Ok(ArrayRef::constant(scalar, len))
}

// Any rows in another type, value by value of the plain tree.
fn retyped_values(alloc: Global, array: &ArrayRef, dtype: &DType) -> VortexResult<ArrayRef>
    requires { IsTrue (list_all (fits (type_of dtype.now)) (rows array.now)) }
    ensures { OrMemory result (λ out. column_of out ≡ column (type_of dtype.now) (rows array.now)) }
{
    let plain = array.canonical(alloc)?;
    let values = values_in(alloc, &plain)?;
    ArrayRef::of_values(alloc, dtype, values)
}

// The values of all rows.
fn values_in(alloc: Global, tree: &ArrayRef) -> VortexResult<Vec<Value>>
    ensures { OrMemory result (λ out. map value_of out.items ≡ rows tree.now) }
{
    let len = tree.len();
    let mut values = Vec::with_capacity(alloc, len as usize)?;
    for row in 0..len {
        values.push(tree.value_at(alloc, row)?)?;
    }
    Ok(values)
}
