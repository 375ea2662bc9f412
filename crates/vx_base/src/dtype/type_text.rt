//! Types as text.

ghost use Rattle.std.specs.Prelude.{◌≡◌, [], ◌++◌, codes};
ghost use Rattle.std.specs.Fmt.{WritesOnOk};
ghost use Rattle.vx_base.specs.PlainType.{of_fields};
ghost use Rattle.vx_base.specs.TypeOf.{type_of, fields_of};
ghost use Rattle.vx_base.specs.TypeText.{type_text, base_text, type_mark, fields_text, unit_text, zone_text};

use super::{DType, Fields};
use crate::text::Text;
use crate::timestamp::TimestampType;
use std::fmt;

impl fmt::Display for DType {
    ghost use Rattle.std.specs.Prelude.{Some};
    ghost use Rattle.vx_base.specs.TypeOf.{type_of};
    ghost use Rattle.vx_base.specs.TypeText.{type_text};

    ghost output = { λ a. Some (type_text (type_of a)) };

    fn fmt<W: fmt::Write>(&self, f: &mut fmt::Formatter<W>) -> fmt::Result {
        write_type(self, f)
    }
}

// Writes the text of a type.
#[cycle(texts)]
#[tactic(auto, using(crate::proofs::FallLemmas::falls))]
fn write_type<W: fmt::Write>(dtype: &DType, f: &mut fmt::Formatter<W>) -> fmt::Result
    ensures { WritesOnOk W.write_str_gives f.old result (type_text (type_of dtype.now)) f.new }
{
    write_base(dtype, f)?;
    f.write_str(type_mark(dtype))
}

// The suffix of a type's text.
fn type_mark(dtype: &DType) -> &'static str
    ensures { result.now ≡ type_mark (type_of dtype.now) }
{
    match dtype {
        DType::Null => "",
        _ => dtype.nullability().mark(),
    }
}

// Writes the text of a type without that suffix.
#[cycle(texts)]
#[tactic(auto, using(crate::proofs::FallLemmas::falls))]
fn write_base<W: fmt::Write>(dtype: &DType, f: &mut fmt::Formatter<W>) -> fmt::Result
    ensures { WritesOnOk W.write_str_gives f.old result (base_text (type_of dtype.now)) f.new }
{
    match dtype {
        DType::Null => f.write_str("null"),
        DType::Bool(_) => f.write_str("bool"),
        DType::Primitive(ptype, _) => f.write_str(ptype.name()),
        DType::Utf8(_) => f.write_str("text"),
        DType::Binary(_) => f.write_str("binary"),
        DType::Timestamp(kind, _) => write_kind(kind, f),
        DType::Struct(fields, _) => {
            f.write_str("{")?;
            write_fields(fields, f)?;
            f.write_str("}")
        }
        DType::List(items, _) => {
            f.write_str("[")?;
            write_type(items, f)?;
            f.write_str("]")
        }
        DType::FixedSizeList(items, size, _) => {
            f.write_str("[")?;
            write_type(items, f)?;
            f.write_str(";")?;
            write!(f, "{size}")?;
            f.write_str("]")
        }
    }
}

// Writes the unit and the zone of timestamps.
fn write_kind<W: fmt::Write>(kind: &TimestampType, f: &mut fmt::Formatter<W>) -> fmt::Result
    ensures { WritesOnOk W.write_str_gives f.old result (codes "timestamp " ++ unit_text kind.now.unit ++ zone_text kind.now.zone) f.new }
{
    f.write_str("timestamp ")?;
    f.write_str(kind.unit().name())?;
    match kind.zone() {
        None => Ok(()),
        Some(zone) => {
            f.write_str("<")?;
            f.write_str(zone.as_str())?;
            f.write_str(">")
        }
    }
}

// Writes `name:type` for each field, separated by commas.
#[cycle(texts)]
#[tactic(auto, using(crate::proofs::FallLemmas::falls))]
fn write_fields<W: fmt::Write>(fields: &Fields, f: &mut fmt::Formatter<W>) -> fmt::Result
    ensures { WritesOnOk W.write_str_gives f.old result (fields_text [] (of_fields (fields_of fields.now))) f.new }
{
    let mut before = "";
    for field in fields.as_slice() {
        write_field(before, field, f)?;
        before = ",";
    }
    Ok(())
}

// Writes `before`, and then `name:type`.
#[cycle(texts)]
#[tactic(auto, using(crate::proofs::FallLemmas::falls))]
fn write_field<W: fmt::Write>(
    before: &str,
    field: &(Text, DType),
    f: &mut fmt::Formatter<W>,
) -> fmt::Result
    ensures { WritesOnOk W.write_str_gives f.old result (before.now ++ field.now.0 ++ codes ":" ++ type_text (type_of field.now.1)) f.new }
{
    f.write_str(before)?;
    f.write_str(field.0.as_str())?;
    f.write_str(":")?;
    write_type(&field.1, f)
}
