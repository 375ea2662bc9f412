//! Reads the rows of flat types as their plain trees.

ghost use Rattle.std.specs.Prelude.{◌≡◌, map, pos, true};
ghost use Rattle.serde_json.specs.View.{items_view};
ghost use Rattle.vx_base.specs.PlainType.{boolean, primitive, utf8, binary, timestamp, is_flat};
ghost use Rattle.vx_base.specs.PlainValue.{int};
ghost use Rattle.vx_base.specs.TypeOf.{type_of};
ghost use Rattle.vx_values.specs.IntsOf.{ptype_of, wholes_of};
ghost use Rattle.vx_document.specs.Reading.{Gives, GivesForm, all_by};
ghost use Rattle.vx_document.specs.RowsOf.{AreReadRows, plain_rows, row_of};

use crate::document::kinds::{Binaries, Texts, Truths, Wholes};
use crate::document::rows::read_rows;
use crate::document::unread::Unread;
use serde_json::Value;
use std::alloc::Global;
use vx_array::ArrayRef;
use vx_base::{DType, Mask, Nullability, PType, TimestampType};
use vx_values::Ints;

// The plain tree of truth values.
fn read_truths(
    alloc: Global,
    list: Vec<Value>,
    nullability: Nullability,
) -> Result<ArrayRef, Unread>
    ensures { Gives (λ tree. tree) result (plain_rows (boolean nullability) (items_view list.items)) }
{
    let rows = read_rows::<Truths>(alloc, list, nullability)?;
    match ArrayRef::bool(
        Mask::from_bits(rows.items.into_vec()),
        rows.valid,
        nullability,
    ) {
        Ok(tree) => Ok(tree),
        // Rows that fit their type are never refused, so this arm is never reached.
        Err(_refused) => Err(Unread::BadDocument),
    }
}

// Rows of an integer type, and their validity.
#[derive(Drop)]
struct TypedRows {
    values: Ints,
    valid: Option<Mask>,
}

// Reads rows of the integer type of a variant of Ints.
macro_rules! typed_rows {
    ($alloc:expr, $list:expr, $nullability:expr, $variant:ident, $integer:ty) => {{
        let rows = read_rows::<Wholes<$integer>>($alloc, $list, $nullability)?;
        Ok(TypedRows {
            values: Ints::$variant(rows.items),
            valid: rows.valid,
        })
    }};
}

// The rows of an integer type.
#[tactic(auto, using(crate::proofs::FlatColumns::fused))]
fn read_typed(
    alloc: Global,
    list: Vec<Value>,
    ptype: PType,
    nullability: Nullability,
) -> Result<TypedRows, Unread>
    ensures { GivesForm (λ rows values. (ptype_of rows.values ≡ ptype) × AreReadRows (int (pos 0)) nullability (map int (wholes_of rows.values)) rows.valid values) result
        (all_by (row_of (primitive ptype nullability)) (items_view list.items)) }
{
    match ptype {
        PType::U8 => typed_rows!(alloc, list, nullability, U8, u8),
        PType::U16 => typed_rows!(alloc, list, nullability, U16, u16),
        PType::U32 => typed_rows!(alloc, list, nullability, U32, u32),
        PType::U64 => typed_rows!(alloc, list, nullability, U64, u64),
        PType::I8 => typed_rows!(alloc, list, nullability, I8, i8),
        PType::I16 => typed_rows!(alloc, list, nullability, I16, i16),
        PType::I32 => typed_rows!(alloc, list, nullability, I32, i32),
        PType::I64 => typed_rows!(alloc, list, nullability, I64, i64),
    }
}

// The plain tree of integers.
fn read_integers(
    alloc: Global,
    list: Vec<Value>,
    ptype: PType,
    nullability: Nullability,
) -> Result<ArrayRef, Unread>
    ensures { Gives (λ tree. tree) result (plain_rows (primitive ptype nullability) (items_view list.items)) }
{
    let rows = read_typed(alloc, list, ptype, nullability)?;
    match ArrayRef::primitive(rows.values, rows.valid, nullability) {
        Ok(tree) => Ok(tree),
        // Rows that fit their type are never refused, so this arm is never reached.
        Err(_refused) => Err(Unread::BadDocument),
    }
}

// The plain tree of texts.
fn read_texts(alloc: Global, list: Vec<Value>, nullability: Nullability) -> Result<ArrayRef, Unread>
    ensures { Gives (λ tree. tree) result (plain_rows (utf8 nullability) (items_view list.items)) }
{
    let rows = read_rows::<Texts>(alloc, list, nullability)?;
    let dtype = DType::utf8(nullability);
    match ArrayRef::var_bin_view(rows.items, rows.valid, dtype) {
        Ok(tree) => Ok(tree),
        // Rows that fit their type are never refused, so this arm is never reached.
        Err(_refused) => Err(Unread::BadDocument),
    }
}

// The plain tree of binaries.
fn read_binaries(
    alloc: Global,
    list: Vec<Value>,
    nullability: Nullability,
) -> Result<ArrayRef, Unread>
    ensures { Gives (λ tree. tree) result (plain_rows (binary nullability) (items_view list.items)) }
{
    let rows = read_rows::<Binaries>(alloc, list, nullability)?;
    let dtype = DType::binary(nullability);
    match ArrayRef::var_bin_view(rows.items, rows.valid, dtype) {
        Ok(tree) => Ok(tree),
        // Rows that fit their type are never refused, so this arm is never reached.
        Err(_refused) => Err(Unread::BadDocument),
    }
}

// The plain tree of timestamps, over that of their integers.
fn read_timestamps(
    alloc: Global,
    list: Vec<Value>,
    kind: TimestampType,
    nullability: Nullability,
) -> Result<ArrayRef, Unread>
    ensures { Gives (λ tree. tree) result (plain_rows (timestamp kind nullability) (items_view list.items)) }
{
    let storage = read_integers(alloc, list, PType::I64, nullability)?;
    match ArrayRef::timestamp(alloc, storage, kind) {
        Ok(tree) => Ok(tree),
        // Storage of type i64 is only refused where memory runs out.
        Err(_refused) => Err(Unread::NoMemory),
    }
}

// The plain tree of rows of a flat type, whose values have none within.
pub(crate) fn read_flat(alloc: Global, list: Vec<Value>, dtype: &DType) -> Result<ArrayRef, Unread>
    requires { is_flat (type_of dtype.now) ≡ true }
    ensures { Gives (λ tree. tree) result (plain_rows (type_of dtype.now) (items_view list.items)) }
{
    match dtype {
        DType::Bool(nullability) => read_truths(alloc, list, *nullability),
        DType::Primitive(ptype, nullability) => read_integers(alloc, list, *ptype, *nullability),
        DType::Utf8(nullability) => read_texts(alloc, list, *nullability),
        DType::Binary(nullability) => read_binaries(alloc, list, *nullability),
        DType::Timestamp(kind, nullability) => match kind.copy(alloc) {
            Ok(kind) => read_timestamps(alloc, list, kind, *nullability),
            Err(_) => Err(Unread::NoMemory),
        },
        _ => unreachable!(),
    }
}
