//! Integers and timestamps with a fill in place of nulls.

ghost use Rattle.std.specs.Prelude.{◌≡◌, IsTrue, false, length, map, true};
ghost use Rattle.vx_base.specs.Answers.{OrMemory};
ghost use Rattle.vx_base.specs.Defaults.{or_default};
ghost use Rattle.vx_base.specs.Integers.{lies_in};
ghost use Rattle.vx_base.specs.PlainValue.{int, is_null};
ghost use Rattle.vx_base.specs.TypeOf.{type_of};
ghost use Rattle.vx_model.specs.Column.{column, column_of};
ghost use Rattle.vx_model.specs.Refusals.{validity_length};
ghost use Rattle.vx_model.specs.Rows.{valid_rows};
ghost use Rattle.vx_values.specs.IntsOf.{ptype_of, wholes_of};
ghost use Rattle.vx_values.specs.ValuesOf.{ints, kind_of};

use crate::kernels::filled_beneath;
use crate::stamps::stamped;
use std::alloc::Global;
use vx_array::ArrayRef;
use vx_base::{DType, Mask, PType, Scalar, VortexResult};
use vx_values::Ints;

// `fill_null` of integers or timestamps, as a kernel.
pub(super) fn filled_integers(
    alloc: Global,
    values: &Ints,
    valid: &Option<Mask>,
    fill: &Scalar,
) -> VortexResult<ArrayRef>
    requires whole { validity_length valid.now (length (wholes_of values.now)) ≡ true }
    requires kind { kind_of fill.now.dtype ≡ ints (ptype_of values.now) }
    requires value { is_null fill.now.value ≡ false }
    ensures { OrMemory result (λ out. column_of out ≡ column fill.now.dtype (map (or_default fill.now.value) (valid_rows valid.now (map int (wholes_of values.now))))) }
{
    let whole = integer_of(fill, values.ptype());
    let filled = filled_beneath(alloc, values, valid, whole)?;
    typed_integers(alloc, filled, fill.dtype())
}

// The integer of a fill that isn't null, of an integer type or of timestamps.
fn integer_of(fill: &Scalar, ptype: PType) -> i128
    requires kind { kind_of fill.now.dtype ≡ ints ptype }
    requires value { is_null fill.now.value ≡ false }
    ensures value { int result ≡ fill.now.value }
    ensures held { IsTrue (lies_in ptype result) }
{
    fill.known();
    fill.cell().whole()
}

// Integers without nulls as a column of an integer type or of timestamps.
fn typed_integers(alloc: Global, values: Ints, dtype: &DType) -> VortexResult<ArrayRef>
    requires { kind_of (type_of dtype.now) ≡ ints (ptype_of values) }
    ensures { OrMemory result (λ out. column_of out ≡ column (type_of dtype.now) (map int (wholes_of values))) }
{
    match dtype {
        DType::Primitive(_, nullability) => Ok(ArrayRef::primitive_of(values, None, *nullability)),
        DType::Timestamp(kind, nullability) => {
            let storage = ArrayRef::primitive_of(values, None, *nullability);
            stamped(alloc, storage, kind)
        }
        _ => unreachable!(),
    }
}
