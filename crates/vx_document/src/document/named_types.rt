//! The types that a document names by a text, not by an object.

ghost use Rattle.std.specs.Prelude.{◌≡◌, IsTrue, option_map, None};
ghost use Rattle.vx_base.specs.PlainType.{timestamp};
ghost use Rattle.vx_base.specs.Timestamps.{divides, kind};
ghost use Rattle.vx_base.specs.TypeOf.{type_of};
ghost use Rattle.vx_document.specs.Types.{type_named};

use vx_base::{DType, Nullability, PType, TimeUnit, TimestampType};

// Timestamps without a zone.
fn stamps(unit: TimeUnit, nullability: Nullability) -> DType
    requires { IsTrue (divides unit) }
    ensures { type_of result ≡ timestamp (kind unit None) nullability }
{
    match TimestampType::new(unit, None) {
        Ok(kind) => DType::timestamp(kind, nullability),
        Err(_) => unreachable!(),
    }
}

// The type with this name.
#[tactic(auto, unfolding(crate::specs::Types::type_named))]
pub(crate) fn type_named(text: &str) -> Option<DType>
    ensures { option_map type_of result ≡ type_named text.now }
{
    match text {
        "null" => Some(DType::null()),
        "bool" => Some(DType::bool(Nullability::NonNullable)),
        "u8" => Some(DType::primitive(PType::U8, Nullability::NonNullable)),
        "u16" => Some(DType::primitive(PType::U16, Nullability::NonNullable)),
        "u32" => Some(DType::primitive(PType::U32, Nullability::NonNullable)),
        "u64" => Some(DType::primitive(PType::U64, Nullability::NonNullable)),
        "i8" => Some(DType::primitive(PType::I8, Nullability::NonNullable)),
        "i16" => Some(DType::primitive(PType::I16, Nullability::NonNullable)),
        "i32" => Some(DType::primitive(PType::I32, Nullability::NonNullable)),
        "i64" => Some(DType::primitive(PType::I64, Nullability::NonNullable)),
        "text" => Some(DType::utf8(Nullability::NonNullable)),
        "binary" => Some(DType::binary(Nullability::NonNullable)),
        "timestamp s" => Some(stamps(TimeUnit::Seconds, Nullability::NonNullable)),
        "timestamp ms" => Some(stamps(TimeUnit::Milliseconds, Nullability::NonNullable)),
        "timestamp us" => Some(stamps(TimeUnit::Microseconds, Nullability::NonNullable)),
        "timestamp ns" => Some(stamps(TimeUnit::Nanoseconds, Nullability::NonNullable)),
        "bool?" => Some(DType::bool(Nullability::Nullable)),
        "u8?" => Some(DType::primitive(PType::U8, Nullability::Nullable)),
        "u16?" => Some(DType::primitive(PType::U16, Nullability::Nullable)),
        "u32?" => Some(DType::primitive(PType::U32, Nullability::Nullable)),
        "u64?" => Some(DType::primitive(PType::U64, Nullability::Nullable)),
        "i8?" => Some(DType::primitive(PType::I8, Nullability::Nullable)),
        "i16?" => Some(DType::primitive(PType::I16, Nullability::Nullable)),
        "i32?" => Some(DType::primitive(PType::I32, Nullability::Nullable)),
        "i64?" => Some(DType::primitive(PType::I64, Nullability::Nullable)),
        "text?" => Some(DType::utf8(Nullability::Nullable)),
        "binary?" => Some(DType::binary(Nullability::Nullable)),
        "timestamp s?" => Some(stamps(TimeUnit::Seconds, Nullability::Nullable)),
        "timestamp ms?" => Some(stamps(TimeUnit::Milliseconds, Nullability::Nullable)),
        "timestamp us?" => Some(stamps(TimeUnit::Microseconds, Nullability::Nullable)),
        "timestamp ns?" => Some(stamps(TimeUnit::Nanoseconds, Nullability::Nullable)),
        _ => None,
    }
}
