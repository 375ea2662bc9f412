//! Whether a column and each column nested in it fit the row limit.

ghost use Rattle.std.specs.Prelude.{◌≡◌, ◌*◌, ◌^◌, ◌-◌, map, nat_le, min, length, true};
ghost use Rattle.std.specs.List.{list_all};
ghost use Rattle.vx_base.specs.PlainType.{of_fields, structure, nullability_of};
ghost use Rattle.vx_base.specs.TypeOf.{type_of, value_of, fields_of};
ghost use Rattle.vx_model.specs.Column.{column};
ghost use Rattle.vx_model.specs.Extents.{counts, field_counts, row_limit};
ghost use Rattle.vx_model.specs.Nested.{struct_rows};
ghost use Rattle.vx_flat.specs.Ways.{way_of, field, turned, column_at, count_at, inner_counts, are_few};

mod within;

use crate::sizes::ROW_LIMIT;
use vx_base::{DType, Fields, Text, Value};
pub use within::rows_within;

/// The way from a column to a nested one, one step per level. It stands on the stack, so that counting takes no memory.
#[derive(Clone, Copy)]
pub enum Way<'a> {
    /// To the column itself.
    Here,
    /// Into the field at this place of structs, and on from there.
    Field(u64, &'a Way<'a>),
    /// Into the items of lists, and on from there.
    Items(&'a Way<'a>),
}

/// Whether `times * rows <= 2^31` for the column with these values and each column nested in it. `times` is the number of
/// rows of a constant, whose value is counted once.
pub fn counts_fit(dtype: &DType, values: &[Value], times: u64) -> bool
    ensures { result ≡ list_all (λ count. nat_le (times * count) row_limit) (counts (type_of dtype.now) (map value_of values.now)) }
{
    let root = Way::Here;
    few_times(times, values.len() as u64) && inner_fit(dtype, &root, dtype, values, times)
}

// Whether every column nested below the one at the end of `way`, of type `inner`, fits the row limit; its own rows do
// already. `way` stands reversed, its last step outermost: a step further is then one more link in front.
#[cycle(inner)]
fn inner_fit(inner: &DType, way: &Way<'_>, dtype: &DType, values: &[Value], times: u64) -> bool
    requires typed { (column_at (way_of way.now) (column (type_of dtype.now) (map value_of values.now))).dtype ≡ type_of inner.now }
    requires few { nat_le (times * length (column_at (way_of way.now) (column (type_of dtype.now) (map value_of values.now))).values) row_limit ≡ true }
    ensures { result ≡ are_few times (inner_counts (type_of inner.now) (column_at (way_of way.now) (column (type_of dtype.now) (map value_of values.now))).values) }
{
    match inner {
        DType::Struct(fields, _) => fields_fit(fields, way, dtype, values, times),
        DType::List(items, _) => items_fit(items, &Way::Items(&*way), dtype, values, times),
        DType::FixedSizeList(items, _, _) => {
            items_fit(items, &Way::Items(&*way), dtype, values, times)
        }
        _ => true,
    }
}

// `inner_fit` of the fields of structs. A field has as many rows as the structs, so only what is nested in it is counted.
#[cycle(inner)]
fn fields_fit(fields: &Fields, way: &Way<'_>, dtype: &DType, values: &[Value], times: u64) -> bool
    requires typed { (column_at (way_of way.now) (column (type_of dtype.now) (map value_of values.now))).dtype ≡ structure (of_fields (fields_of fields.now)) (nullability_of (column_at (way_of way.now) (column (type_of dtype.now) (map value_of values.now))).dtype) }
    requires few { nat_le (times * length (column_at (way_of way.now) (column (type_of dtype.now) (map value_of values.now))).values) row_limit ≡ true }
    ensures { result ≡ are_few times (field_counts (of_fields (fields_of fields.now)) (struct_rows (of_fields (fields_of fields.now)) (column_at (way_of way.now) (column (type_of dtype.now) (map value_of values.now))).values)) }
{
    let fields = fields.as_slice();
    for place in 0..fields.len() {
        if !field_fits(&fields[place], place as u64, way, dtype, values, times) {
            return false;
        }
    }
    true
}

// `inner_fit` of the field at a place.
#[cycle(inner)]
fn field_fits(
    inner: &(Text, DType),
    place: u64,
    way: &Way<'_>,
    dtype: &DType,
    values: &[Value],
    times: u64,
) -> bool
    requires typed { (column_at (field place (way_of way.now)) (column (type_of dtype.now) (map value_of values.now))).dtype ≡ type_of inner.now.1 }
    requires few { nat_le (times * length (column_at (field place (way_of way.now)) (column (type_of dtype.now) (map value_of values.now))).values) row_limit ≡ true }
    ensures { result ≡ are_few times (inner_counts (type_of inner.now.1) (column_at (field place (way_of way.now)) (column (type_of dtype.now) (map value_of values.now))).values) }
{
    inner_fit(&inner.1, &Way::Field(place, &*way), dtype, values, times)
}

// `inner_fit` of the items of lists, whose own rows are counted as well.
#[cycle(inner)]
fn items_fit(items: &DType, way: &Way<'_>, dtype: &DType, values: &[Value], times: u64) -> bool
    requires typed { (column_at (way_of way.now) (column (type_of dtype.now) (map value_of values.now))).dtype ≡ type_of items.now }
    ensures { result ≡ are_few times (counts (type_of items.now) (column_at (way_of way.now) (column (type_of dtype.now) (map value_of values.now))).values) }
{
    few_times(times, rows_at(way, dtype, values)) && inner_fit(items, way, dtype, values, times)
}

// The rows of the column at the end of a reversed way. Saturates at 2^64 - 1.
fn rows_at(way: &Way<'_>, dtype: &DType, values: &[Value]) -> u64
    ensures { result ≡ min (length (column_at (way_of way.now) (column (type_of dtype.now) (map value_of values.now))).values) (2 ^ 64 - 1) }
{
    column_rows(way, &Way::Here, dtype, values)
}

// The rows of the column at the end of two ways: the reversed one, `before`, then `way`. Turns the former round step by
// step. Saturates at 2^64 - 1.
fn column_rows(before: &Way<'_>, way: &Way<'_>, dtype: &DType, values: &[Value]) -> u64
    ensures { result ≡ min (count_at (turned (way_of before.now) (way_of way.now)) (type_of dtype.now) (map value_of values.now)) (2 ^ 64 - 1) }
{
    match before {
        Way::Here => rows_within(way, dtype, values),
        Way::Field(place, outer) => column_rows(outer, &Way::Field(*place, &*way), dtype, values),
        Way::Items(outer) => column_rows(outer, &Way::Items(&*way), dtype, values),
    }
}

// Whether `times * rows <= 2^31`, with the product taken exactly. A saturated count, 2^64 - 1, is above it as well.
fn few_times(times: u64, rows: u64) -> bool
    ensures { result ≡ nat_le (times * rows) row_limit }
{
    u128::from(times) * u128::from(rows) <= u128::from(ROW_LIMIT)
}
