//! Parts of a sum, and its scalar.

ghost use Rattle.std.specs.Prelude.{◌≡◌, ◌-ℤ◌, Ok, pos};
ghost use Rattle.vx_base.specs.CellValue.{cell_value};
ghost use Rattle.vx_base.specs.PlainScalar.{scalar};
ghost use Rattle.vx_base.specs.PlainType as types;
ghost use Rattle.vx_base.specs.PlainValue.{cell};
ghost use Rattle.vx_base.specs.TypeOf.{type_of};
ghost use Rattle.vx_base.specs.declared.dtype.Nullability.TheVariants.{Nullable};
ghost use Rattle.vx_rules.specs.Aggregates.{or_null, sum_ptype};
ghost use Rattle.vx_sparse.specs.Kernels.{is_summable};
ghost use Rattle.vx_sparse.specs.SumParts.{downs, ups};

use vx_base::{Cell, DType, Nullability, PType, Scalar, VortexResult};

/// Whether a type has a sum.
pub(crate) fn is_summable(dtype: &DType) -> bool
    ensures { result ≡ is_summable (type_of dtype.now) }
{
    matches!(dtype, DType::Bool(_) | DType::Primitive(_, _))
}

/// The type of a sum.
pub(crate) fn sum_ptype(dtype: &DType) -> PType
    ensures { result ≡ sum_ptype (type_of dtype.now) }
{
    match dtype {
        DType::Primitive(ptype, _) if !ptype.is_unsigned() => PType::I64,
        _ => PType::U64,
    }
}

/// What a cell adds to the positive and to the negative part.
pub(crate) fn parts(cell: Cell<'_>) -> (u128, u128)
    ensures up { result.0 ≡ ups (cell_value cell.entry) }
    ensures down { result.1 ≡ downs (cell_value cell.entry) }
{
    match cell {
        Cell::Bool(true) => (1, 0),
        Cell::Int(whole) if whole >= 0 => (whole as u128, 0),
        Cell::Int(whole) => (0, whole.unsigned_abs()),
        _ => (0, 0),
    }
}

/// The difference as an integer of the type, null where it is out of range.
pub(crate) fn whole_scalar(ptype: PType, up: u128, down: u128) -> VortexResult<Scalar>
    ensures { result ≡ Ok (scalar (types.primitive ptype Nullable) (or_null ptype (pos up -ℤ pos down))) }
{
    match difference(ptype, up, down) {
        Some(whole) => Scalar::primitive(whole, ptype, Nullability::Nullable),
        None => match Scalar::null(DType::Primitive(ptype, Nullability::Nullable)) {
            Ok(scalar) => Ok(scalar),
            Err(refused) => Err(refused.error),
        },
    }
}

// The difference where it is in the range of the type.
fn difference(ptype: PType, up: u128, down: u128) -> Option<i128>
    ensures { cell result ≡ or_null ptype (pos up -ℤ pos down) }
{
    if up >= down {
        let magnitude = up - down;
        if magnitude <= ptype.greatest() as u128 {
            return Some(magnitude as i128);
        }
        return None;
    }
    let magnitude = down - up;
    if magnitude <= ptype.least().unsigned_abs() {
        Some(-(magnitude as i128))
    } else {
        None
    }
}
