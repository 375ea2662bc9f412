//! The rows that values have in a column nested in theirs.

ghost use Rattle.std.specs.Prelude.{◌≡◌, ◌^◌, ◌-◌, ◌∷◌, [], map, min, option_map};
ghost use Rattle.vx_base.specs.PlainValue.{is_null, items_or_empty};
ghost use Rattle.vx_base.specs.TypeOf.{type_of, value_of};
ghost use Rattle.vx_model.specs.Rows.{row_at};
ghost use Rattle.vx_flat.specs.Ways.{way_of, field_type, items_type, items_of_null, field, inside, value_in, count_at};

use super::Way;
use crate::elements::values_of;
use vx_base::{DType, Value};

/// The rows that values of a type have in the column at the end of `way`. Saturates at 2^64 - 1.
#[cycle(rows_within)]
pub fn rows_within(way: &Way<'_>, dtype: &DType, values: &[Value]) -> u64
    ensures { result ≡ min (count_at (way_of way.now) (type_of dtype.now) (map value_of values.now)) (2 ^ 64 - 1) }
{
    let mut sum: u64 = 0;
    for value in values {
        sum = sum.saturating_add(rows_of(way, dtype, Some(value)));
    }
    sum
}

// `rows_within` of one value, of null where there is none.
#[cycle(rows_within)]
fn rows_of(way: &Way<'_>, dtype: &DType, value: Option<&Value>) -> u64
    ensures { result ≡ min (count_at (way_of way.now) (type_of dtype.now) (value_in value.entry ∷ [])) (2 ^ 64 - 1) }
{
    match way {
        Way::Here => 1,
        Way::Field(place, rest) => rows_of_field(rest, *place, dtype, value),
        Way::Items(rest) => rows_of_items(rest, dtype, value),
    }
}

// `rows_of` the value's field. A null struct counts as one with null in the field.
#[cycle(rows_within)]
#[tactic(auto, using(crate::proofs::ValueWayLemmas::ways))]
fn rows_of_field(rest: &Way<'_>, place: u64, dtype: &DType, value: Option<&Value>) -> u64
    ensures { result ≡ min (count_at (field place (way_of rest.now)) (type_of dtype.now) (value_in value.entry ∷ [])) (2 ^ 64 - 1) }
{
    match field_type(dtype, place) {
        Some(field) => rows_of(rest, field, value_within(value, place)),
        None => 0,
    }
}

// The type of the field at a place, None where the type has no such field.
#[tactic(auto, using(crate::proofs::ValueWayLemmas::ways))]
fn field_type(dtype: &DType, place: u64) -> Option<&DType>
    ensures { option_map (λ t. type_of t.now) result ≡ field_type place (type_of dtype.now) }
{
    match dtype {
        DType::Struct(fields, _) => match fields.get(place) {
            Some(field) => Some(&field.1),
            None => None,
        },
        _ => None,
    }
}

// `rows_within` of the value's items. A null list has none, a null fixed-size list as many null items as its size.
#[cycle(rows_within)]
fn rows_of_items(rest: &Way<'_>, dtype: &DType, value: Option<&Value>) -> u64
    ensures { result ≡ min (count_at (inside (way_of rest.now)) (type_of dtype.now) (value_in value.entry ∷ [])) (2 ^ 64 - 1) }
{
    match items_type(dtype) {
        Some(items) if is_null(value) => {
            rows_of(rest, items, None).saturating_mul(items_of_null(dtype))
        }
        Some(items) => rows_within(rest, items, values_in(value)),
        None => 0,
    }
}

// The type of the items of lists, None of any other type.
#[tactic(auto, using(crate::proofs::ValueWayLemmas::ways))]
fn items_type(dtype: &DType) -> Option<&DType>
    ensures { option_map (λ t. type_of t.now) result ≡ items_type (type_of dtype.now) }
{
    match dtype {
        DType::List(items, _) | DType::FixedSizeList(items, _, _) => Some(items),
        _ => None,
    }
}

// How many items stand beneath a null: the size of fixed-size lists, else none.
#[tactic(auto, using(crate::proofs::ValueWayLemmas::ways))]
fn items_of_null(dtype: &DType) -> u64
    ensures { result ≡ items_of_null (type_of dtype.now) }
{
    match dtype {
        DType::FixedSizeList(_, size, _) => *size as u64,
        _ => 0,
    }
}

fn is_null(value: Option<&Value>) -> bool
    ensures { result ≡ is_null (value_in value.entry) }
{
    match value {
        Some(value) => matches!(value, Value::Null),
        None => true,
    }
}

// The values within a value, none of null.
fn values_in<'a>(value: Option<&'a Value>) -> &'a [Value]
    ensures { map value_of result.now ≡ items_or_empty (value_in value.entry) }
{
    match value {
        Some(value) => values_of(value),
        None => &[],
    }
}

// The value within at a place, None where there is none.
#[tactic(auto, using(crate::proofs::ValueWayLemmas::lent))]
fn value_within<'a>(value: Option<&'a Value>, place: u64) -> Option<&'a Value>
    ensures { value_in result ≡ row_at (items_or_empty (value_in value.entry)) place }
{
    let values = values_in(value);
    if place < values.len() as u64 {
        Some(&values[place as usize])
    } else {
        None
    }
}
