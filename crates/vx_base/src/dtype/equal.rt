//! Equality and hash of types.

ghost use Rattle.std.specs.Prelude.{◌≡◌, ◌↔◌, IsTrue, fold};
ghost use Rattle.vx_base.specs.PlainType.{ptype_number};
ghost use Rattle.vx_base.specs.Writes.{kind_writes, type_writes, field_list_writes};
ghost use Rattle.vx_base.specs.TypeOf.{type_of, field_of, fields_of};

use super::{DType, Fields};
use crate::ptype::PType;
use crate::text::Text;
use crate::timestamp::TimestampType;
use crate::value::write_bytes;
use std::hash::{Hash, Hasher};

impl DType {
    ghost use Rattle.vx_base.specs.declared.dtype.Nullability.TheVariants.{NonNullable};
    ghost use Rattle.vx_base.specs.PlainType.{with_nullability};

    /// Whether the types are equal up to outermost nullability.
    #[cycle(same)]
    pub fn same_base(&self, other: &DType) -> bool
        ensures { IsTrue result ↔ (with_nullability (type_of self.now) NonNullable ≡ with_nullability (type_of other.now) NonNullable) }
    {
        match (self, other) {
            (DType::Null, DType::Null) => true,
            (DType::Bool(_), DType::Bool(_)) => true,
            (DType::Primitive(ptype, _), DType::Primitive(others, _)) => *ptype == *others,
            (DType::Utf8(_), DType::Utf8(_)) => true,
            (DType::Binary(_), DType::Binary(_)) => true,
            (DType::Timestamp(kind, _), DType::Timestamp(others, _)) => kind.same(others),
            (DType::Struct(fields, _), DType::Struct(others, _)) => fields.same(others),
            (DType::List(items, _), DType::List(others, _)) => items.same(others),
            (DType::FixedSizeList(items, size, _), DType::FixedSizeList(others, count, _)) => {
                *size == *count && items.same(others)
            }
            _ => false,
        }
    }

    // Whether the two types are equal.
    #[cycle(same)]
    fn same(&self, other: &DType) -> bool
        ensures { IsTrue result ↔ (type_of self.now ≡ type_of other.now) }
    {
        self.nullability() == other.nullability() && self.same_base(other)
    }
}

impl Fields {
    /// Whether names and types are equal, in order.
    #[cycle(same)]
    pub fn same(&self, other: &Fields) -> bool
        ensures { IsTrue result ↔ (fields_of self.now ≡ fields_of other.now) }
    {
        if self.items.len() != other.items.len() {
            return false;
        }
        for place in 0..self.items.len() {
            if !same_field(&self.items[place], &other.items[place]) {
                return false;
            }
        }
        true
    }
}

#[cycle(same)]
fn same_field(field: &(Text, DType), other: &(Text, DType)) -> bool
    ensures { IsTrue result ↔ (field_of field.now ≡ field_of other.now) }
{
    field.0.same(&other.0) && field.1.same(&other.1)
}

// The number of an integer type that is hashed.
fn ptype_number(ptype: PType) -> u8
    ensures { result ≡ ptype_number ptype }
{
    match ptype {
        PType::U8 => 0,
        PType::U16 => 1,
        PType::U32 => 2,
        PType::U64 => 3,
        PType::I8 => 4,
        PType::I16 => 5,
        PType::I32 => 6,
        PType::I64 => 7,
    }
}

impl PartialEq for DType {
    ghost use Rattle.vx_base.specs.TypeOf.{type_of};
    ghost use Rattle.vx_base.specs.PlainType.{stored_type};
    ghost use Rattle.vx_base.specs.Storable.{same, same_symm, same_trans};

    ghost eq = { λ a b. same stored_type (type_of a) (type_of b) };

    ghost laws = { record { symm = λ a b. same_symm stored_type (type_of a) (type_of b); trans = λ a b c. same_trans stored_type (type_of a) (type_of b) (type_of c) } };

    fn eq(&self, other: &DType) -> bool {
        self.same(other)
    }
}

impl Eq for DType {
    ghost use Rattle.vx_base.specs.TypeOf.{type_of};
    ghost use Rattle.vx_base.specs.PlainType.{stored_type};
    ghost use Rattle.vx_base.specs.Storable.{same_refl, same_symm, same_congr};
    ghost use Rattle.std.specs.Prelude.{refl};

    ghost laws = { record { refl = λ a. same_refl stored_type (type_of a) (type_of a) refl; symm = λ a b. same_symm stored_type (type_of a) (type_of b); congr = λ a b c. same_congr stored_type (type_of a) (type_of b) (type_of c) } };
}

impl Hash for DType {
    ghost use Rattle.vx_base.specs.TypeOf.{type_of};
    ghost use Rattle.vx_base.specs.Writes.{type_writes, types_alike};

    ghost hash_input = { λ a. type_writes (type_of a) };

    ghost respects_eq = { λ a b e. types_alike (type_of a) (type_of b) e };

    fn hash<H: Hasher>(&self, state: &mut H) {
        self.feed(state);
    }
}

impl DType {
    // Writes a number for the kind, the type's parameters and its nullability to a hasher.
    #[cycle(feed)]
    fn feed<H: Hasher>(&self, state: &mut H)
        ensures { state.new ≡ fold H.write state.old (type_writes (type_of self.now)) }
    {
        match self {
            DType::Bool(_) => state.write_u8(0),
            DType::Primitive(ptype, _) => {
                state.write_u8(1);
                state.write_u8(ptype_number(*ptype));
            }
            DType::Utf8(_) => state.write_u8(2),
            DType::Binary(_) => state.write_u8(3),
            DType::Timestamp(kind, _) => {
                state.write_u8(4);
                write_kind(kind, state);
            }
            DType::Null => state.write_u8(5),
            DType::Struct(fields, _) => {
                state.write_u8(6);
                fields.feed(state);
            }
            DType::List(items, _) => {
                state.write_u8(7);
                items.feed(state);
            }
            DType::FixedSizeList(items, size, _) => {
                state.write_u8(8);
                items.feed(state);
                state.write_u32(*size);
            }
        }
        state.write_u8(self.nullability().number());
    }
}

impl Fields {
    // Writes each field to a hasher.
    #[cycle(feed)]
    fn feed<H: Hasher>(&self, state: &mut H)
        ensures { state.new ≡ fold H.write state.old (field_list_writes (fields_of self.now)) }
    {
        for field in self.items.as_slice() {
            write_bytes(field.0.as_str().as_bytes(), state);
            field.1.feed(state);
        }
    }
}

// Writes the unit and the zone to a hasher.
fn write_kind<H: Hasher>(kind: &TimestampType, state: &mut H)
    ensures { state.new ≡ fold H.write state.old (kind_writes kind.now) }
{
    state.write_u8(kind.unit().number());
    match kind.zone() {
        None => state.write_u8(0),
        Some(zone) => {
            state.write_u8(1);
            write_bytes(zone.as_str().as_bytes(), state);
        }
    }
}
