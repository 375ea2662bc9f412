//! Scalars that kernels answer. Truth values, integers and their nulls take no memory.

ghost use Rattle.std.specs.Prelude.{◌≡◌, IsTrue, Ok, true};
ghost use Rattle.vx_base.specs.Answers.{Answers, OrMemory};
ghost use Rattle.vx_base.specs.CellValue.{cell_value};
ghost use Rattle.vx_base.specs.PlainScalar.{fits, scalar};
ghost use Rattle.vx_base.specs.TypeOf.{type_of, value_of};
ghost use Rattle.vx_sparse.specs.CellPairs.{FitPair, cell_pair, scalar_pair};
ghost use Rattle.vx_sparse.specs.Kernels.{is_summable};

use std::alloc::Global;
use vx_base::{Cell, DType, Scalar, Value, VortexResult};

/// A cell's value as a scalar of a type that it fits. Takes no memory for truth values and integers.
pub(crate) fn scalar_of(alloc: Global, dtype: &DType, cell: Cell<'_>) -> VortexResult<Scalar>
    requires { fits (type_of dtype.now) (cell_value cell) ≡ true }
    ensures answer { Answers result (scalar (type_of dtype.now) (cell_value cell.entry)) }
    ensures no_memory { IsTrue (is_summable (type_of dtype.now)) → result ≡ Ok (scalar (type_of dtype.now) (cell_value cell.entry)) }
{
    match dtype {
        DType::Bool(nullability) => small_scalar(DType::Bool(*nullability), cell),
        DType::Primitive(ptype, nullability) => {
            small_scalar(DType::Primitive(*ptype, *nullability), cell)
        }
        _ => Scalar::of_cell(alloc, dtype, cell),
    }
}

// A truth value, an integer or null as a scalar.
fn small_scalar(dtype: DType, cell: Cell<'_>) -> VortexResult<Scalar>
    requires summable { IsTrue (is_summable (type_of dtype)) }
    requires fit { fits (type_of dtype) (cell_value cell) ≡ true }
    ensures { result ≡ Ok (scalar (type_of dtype) (cell_value cell.entry)) }
{
    let value = match cell {
        Cell::Null => Value::Null,
        Cell::Bool(bit) => Value::Bool(bit),
        Cell::Int(whole) => Value::Int(whole),
        Cell::Bytes(_) => unreachable!(),
    };
    match Scalar::new(dtype, value) {
        Ok(scalar) => Ok(scalar),
        Err(refused) => Err(refused.error),
    }
}

/// A copy of the fill.
pub(crate) fn copied_fill(alloc: Global, fill: &Scalar) -> VortexResult<Scalar>
    ensures answer { Answers result fill.now }
    ensures no_memory { IsTrue (is_summable fill.now.dtype) → result ≡ Ok fill.now }
{
    fill.known();
    if fill.dtype().is_flat() {
        scalar_of(alloc, fill.dtype(), fill.cell())
    } else {
        fill.copy(alloc)
    }
}

/// Two cells as scalars of a type.
pub(crate) fn scalar_pair(
    alloc: Global,
    dtype: &DType,
    cells: Option<(Cell<'_>, Cell<'_>)>,
) -> VortexResult<Option<(Scalar, Scalar)>>
    requires { FitPair (type_of dtype.now) (cell_pair cells) }
    ensures answer { OrMemory result (λ pair. pair ≡ scalar_pair (type_of dtype.now) (cell_pair cells.entry)) }
    ensures no_memory { IsTrue (is_summable (type_of dtype.now)) → result ≡ Ok (scalar_pair (type_of dtype.now) (cell_pair cells.entry)) }
{
    let Some((least, greatest)) = cells else {
        return Ok(None);
    };
    let least = scalar_of(alloc, dtype, least)?;
    let greatest = scalar_of(alloc, dtype, greatest)?;
    Ok(Some((least, greatest)))
}
