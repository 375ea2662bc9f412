//! The types of columns.

ghost use Rattle.std.specs.Prelude.{◌≡◌, IsTrue};
ghost use Rattle.vx_base.specs.PlainType.{nullability_number, allows_null, or_nullable};
ghost use Rattle.vx_base.specs.TypeText.{nullable_mark};

mod equal;
mod field_list;
mod making;
mod type_text;

use crate::ptype::PType;
use crate::text::Text;
use crate::timestamp::TimestampType;

/// Whether a column may have nulls.
#[derive(Clone, Copy, Debug, PartialEq, Eq, Hash)]
pub enum Nullability {
    NonNullable,
    Nullable,
}

impl Nullability {
    pub fn allows_null(self) -> bool
        ensures { result ≡ allows_null self }
    {
        matches!(self, Nullability::Nullable)
    }

    /// Nullable where either is.
    pub fn or(self, other: Nullability) -> Nullability
        ensures { result ≡ or_nullable self other }
    {
        match self {
            Nullability::NonNullable => other,
            Nullability::Nullable => Nullability::Nullable,
        }
    }

    // The number that is hashed.
    pub(crate) fn number(self) -> u8
        ensures { result ≡ nullability_number self }
    {
        match self {
            Nullability::NonNullable => 0,
            Nullability::Nullable => 1,
        }
    }

    // The suffix of a type's text.
    pub(crate) fn mark(self) -> &'static str
        ensures { result.now ≡ nullable_mark self }
    {
        match self {
            Nullability::NonNullable => "",
            Nullability::Nullable => "?",
        }
    }
}

/// The type of a column.
#[cycle(dtype)]
#[derive(Debug)]
pub enum DType {
    /// Only null.
    Null,
    /// Truth values.
    Bool(Nullability),
    /// Integers.
    Primitive(PType, Nullability),
    /// Texts.
    Utf8(Nullability),
    /// Byte strings.
    Binary(Nullability),
    /// Points in time, each a signed 64-bit count of the type's unit.
    Timestamp(TimestampType, Nullability),
    /// Structs: one value per field.
    Struct(Fields, Nullability),
    /// Lists of values of one type.
    List(Box<DType>, Nullability),
    /// Lists of this number of values each, all of one type.
    FixedSizeList(Box<DType>, u32, Nullability),
}

/// The names and types of a struct's fields, in their order. Names may repeat.
#[cycle(dtype)]
#[derive(Debug, Drop)]
pub struct Fields {
    items: Vec<(Text, DType)>,
}

impl Drop for DType {
    #[cycle(letting_go)]
    fn drop(self) {
        match self {
            DType::Null
            | DType::Bool(_)
            | DType::Primitive(_, _)
            | DType::Utf8(_)
            | DType::Binary(_)
            | DType::Timestamp(_, _)
            | DType::Struct(_, _)
            | DType::List(_, _)
            | DType::FixedSizeList(_, _, _) => {}
        }
    }
}

impl DType {
    ghost use Rattle.vx_base.specs.TypeOf.{type_of};
    ghost use Rattle.vx_base.specs.PlainType.{is_nullable, is_leaf, is_timestamp, is_flat, is_integer, is_bytes, is_unsigned, integer_of, nullability_of};

    /// Whether null is one of its values.
    pub fn is_nullable(&self) -> bool
        ensures { result ≡ is_nullable (type_of self.now) }
    {
        self.nullability().allows_null()
    }

    /// The type of the integers; it has to be an integer type.
    pub fn ptype(&self) -> PType
        requires integer { IsTrue (is_integer (type_of self.now)) }
        ensures { result ≡ integer_of (type_of self.now) }
    {
        match self {
            DType::Primitive(ptype, _) => *ptype,
            _ => unreachable!(),
        }
    }

    /// The outermost nullability.
    pub fn nullability(&self) -> Nullability
        ensures { result ≡ nullability_of (type_of self.now) }
    {
        match self {
            DType::Null => Nullability::Nullable,
            DType::Bool(nullability) => *nullability,
            DType::Primitive(_, nullability) => *nullability,
            DType::Utf8(nullability) => *nullability,
            DType::Binary(nullability) => *nullability,
            DType::Timestamp(_, nullability) => *nullability,
            DType::Struct(_, nullability) => *nullability,
            DType::List(_, nullability) => *nullability,
            DType::FixedSizeList(_, _, nullability) => *nullability,
        }
    }

    /// Whether it is a bool, integer, text or binary type.
    pub fn is_leaf(&self) -> bool
        ensures { result ≡ is_leaf (type_of self.now) }
    {
        matches!(
            self,
            DType::Bool(_) | DType::Primitive(_, _) | DType::Utf8(_) | DType::Binary(_)
        )
    }

    pub fn is_timestamp(&self) -> bool
        ensures { result ≡ is_timestamp (type_of self.now) }
    {
        matches!(self, DType::Timestamp(_, _))
    }

    /// Whether its values hold no others: it is a leaf type or a timestamp type.
    pub fn is_flat(&self) -> bool
        ensures { result ≡ is_flat (type_of self.now) }
    {
        self.is_leaf() || self.is_timestamp()
    }

    pub fn is_integer(&self) -> bool
        ensures { result ≡ is_integer (type_of self.now) }
    {
        matches!(self, DType::Primitive(_, _))
    }

    /// Whether its values are bytes: it is a text or binary type.
    pub fn is_bytes(&self) -> bool
        ensures { result ≡ is_bytes (type_of self.now) }
    {
        matches!(self, DType::Utf8(_) | DType::Binary(_))
    }

    /// Whether it is an unsigned integer type.
    pub fn is_unsigned(&self) -> bool
        ensures { result ≡ is_unsigned (type_of self.now) }
    {
        match self {
            DType::Primitive(ptype, _) => ptype.is_unsigned(),
            _ => false,
        }
    }
}
