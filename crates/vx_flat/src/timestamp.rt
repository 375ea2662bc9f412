//! Timestamps: the types of their storage.

ghost use Rattle.std.specs.Prelude.{◌≡◌};
ghost use Rattle.vx_base.specs.PlainType as types;
ghost use Rattle.vx_base.specs.PlainType.{nullability_of, same_type};
ghost use Rattle.vx_base.specs.TypeOf.{type_of};
ghost use Rattle.vx_base.specs.declared.ptype.PType.TheVariants.{I64};

use vx_base::{DType, PType};

/// Whether the type is `i64`, nullable or not, the storage of timestamps of every kind.
pub fn is_storage(dtype: &DType) -> bool
    ensures { result ≡ same_type (type_of dtype.now) (types.primitive I64 (nullability_of (type_of dtype.now))) }
{
    *dtype == DType::primitive(PType::I64, dtype.nullability())
}
