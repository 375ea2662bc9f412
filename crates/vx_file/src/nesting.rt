//! How many types nest in one another.

ghost use Rattle.std.specs.Prelude.{◌≡◌, nat_le};
ghost use Rattle.vx_base.specs.PlainType.{of_fields};
ghost use Rattle.vx_base.specs.TypeOf.{type_of, fields_of};
ghost use Rattle.vx_spelling.specs.TypeSpelling.{field_types_depth, type_depth};

use vx_base::{DType, Fields};

/// The most types that nest in one another in a file, the outermost counted.
pub(crate) const MOST_TYPES: u8 = 64;

/// Whether at most `limit` types nest, the outermost counted.
#[cycle(nests)]
pub(crate) fn nests(dtype: &DType, limit: u8) -> bool
    ensures { result ≡ nat_le (type_depth (type_of dtype.now)) limit }
{
    if limit == 0 {
        return false;
    }
    match dtype {
        DType::Struct(fields, _) => each_nests(fields, limit - 1),
        DType::List(items, _) => nests(items, limit - 1),
        DType::FixedSizeList(items, _, _) => nests(items, limit - 1),
        DType::Null
        | DType::Bool(_)
        | DType::Primitive(_, _)
        | DType::Utf8(_)
        | DType::Binary(_)
        | DType::Timestamp(_, _) => true,
    }
}

#[cycle(nests)]
fn each_nests(fields: &Fields, limit: u8) -> bool
    ensures { result ≡ nat_le (field_types_depth (of_fields (fields_of fields.now))) limit }
{
    for (_, dtype) in fields.as_slice() {
        if !nests(dtype, limit) {
            return false;
        }
    }
    true
}
