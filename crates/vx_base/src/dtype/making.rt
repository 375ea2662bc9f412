//! Constructors of types, and types from other types.

ghost use Rattle.std.specs.Prelude.{◌≡◌};
ghost use Rattle.vx_base.specs.Answers.{OrMemory};
ghost use Rattle.vx_base.specs.PlainType.{null_type, boolean, primitive, utf8, binary, timestamp, structure, list, fixed_size_list, of_fields, with_nullability};
ghost use Rattle.vx_base.specs.TypeOf.{type_of, fields_of};

use super::{DType, Fields, Nullability};
use crate::error::VortexResult;
use crate::ptype::PType;
use crate::timestamp::TimestampType;
use std::alloc::Global;

impl DType {
    /// Truth values. Contracts of other crates see a type through its constructor here, not through the variant.
    pub fn bool(nullability: Nullability) -> DType
        ensures { type_of result ≡ boolean nullability }
    {
        DType::Bool(nullability)
    }

    /// Integers of one type.
    pub fn primitive(ptype: PType, nullability: Nullability) -> DType
        ensures { type_of result ≡ primitive ptype nullability }
    {
        DType::Primitive(ptype, nullability)
    }

    /// Texts.
    pub fn utf8(nullability: Nullability) -> DType
        ensures { type_of result ≡ utf8 nullability }
    {
        DType::Utf8(nullability)
    }

    /// Byte strings.
    pub fn binary(nullability: Nullability) -> DType
        ensures { type_of result ≡ binary nullability }
    {
        DType::Binary(nullability)
    }

    /// Timestamps of a unit and time zone.
    pub fn timestamp(kind: TimestampType, nullability: Nullability) -> DType
        ensures { type_of result ≡ timestamp kind nullability }
    {
        DType::Timestamp(kind, nullability)
    }

    /// Only null.
    pub fn null() -> DType
        ensures { type_of result ≡ null_type }
    {
        DType::Null
    }

    /// Structs with these fields.
    #[tactic(auto, using(crate::proofs::FieldLemmas::structures))]
    pub fn structure(fields: Fields, nullability: Nullability) -> DType
        ensures { type_of result ≡ structure (of_fields (fields_of fields)) nullability }
    {
        DType::Struct(fields, nullability)
    }

    /// Lists of items of one type.
    pub fn list(items: Box<DType>, nullability: Nullability) -> DType
        ensures { type_of result ≡ list (type_of items.value) nullability }
    {
        DType::List(items, nullability)
    }

    /// Lists of `size` items of one type each.
    pub fn fixed_size_list(items: Box<DType>, size: u32, nullability: Nullability) -> DType
        ensures { type_of result ≡ fixed_size_list (type_of items.value) size nullability }
    {
        DType::FixedSizeList(items, size, nullability)
    }

    /// A deep copy.
    #[cycle(copy)]
    pub fn copy(&self, alloc: Global) -> VortexResult<DType>
        ensures { OrMemory result (λ copy. type_of copy ≡ type_of self.now) }
    {
        self.with_nullability(alloc, self.nullability())
    }

    /// A deep copy with another outermost nullability. The null type stays as it is.
    #[cycle(copy)]
    #[tactic(auto, using(crate::proofs::FieldLemmas::structures))]
    pub fn with_nullability(&self, alloc: Global, nullability: Nullability) -> VortexResult<DType>
        ensures { OrMemory result (λ made. type_of made ≡ with_nullability (type_of self.now) nullability) }
    {
        match self {
            DType::Bool(_) => Ok(DType::Bool(nullability)),
            DType::Primitive(ptype, _) => Ok(DType::Primitive(*ptype, nullability)),
            DType::Utf8(_) => Ok(DType::Utf8(nullability)),
            DType::Binary(_) => Ok(DType::Binary(nullability)),
            DType::Timestamp(kind, _) => Ok(DType::Timestamp(kind.copy(alloc)?, nullability)),
            DType::Null => Ok(DType::Null),
            DType::Struct(fields, _) => Ok(DType::Struct(fields.copy(alloc)?, nullability)),
            DType::List(items, _) => {
                let items = items.copy(alloc)?;
                Ok(DType::List(Box::new(alloc, items)?, nullability))
            }
            DType::FixedSizeList(items, size, _) => {
                let items = items.copy(alloc)?;
                Ok(DType::FixedSizeList(Box::new(alloc, items)?, *size, nullability))
            }
        }
    }
}
