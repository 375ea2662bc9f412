//! Kinds of types.

/// The kind of a type: the first byte of its spelling, from 0 on, in this order.
#[derive(Clone, Copy, Debug, PartialEq, Eq)]
pub enum TypeKind {
    Null,
    Bool,
    Primitive,
    Utf8,
    Binary,
    Timestamp,
    Struct,
    List,
    FixedSizeList,
}
