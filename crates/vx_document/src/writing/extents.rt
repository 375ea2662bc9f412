//! Whether the columns of a tree are short enough to be written. They are counted without decoding, since a short file can
//! name huge columns.

ghost use Rattle.std.specs.List.{list_all};
ghost use Rattle.std.specs.Prelude.{◌≡◌, ◌*◌, ◌-◌, ◌^◌, ◌∷◌, [], length, min};
ghost use Rattle.vx_array.specs.TreeWays.{by_fields, by_ways, extent_at, fields_extent, items_extent, own_extent};
ghost use Rattle.vx_base.specs.PlainType.{of_fields};
ghost use Rattle.vx_base.specs.TypeOf.{fields_of, type_of};
ghost use Rattle.vx_document.specs.Writing.{extents_are_few, is_few};
ghost use Rattle.vx_flat.specs.Ways.{count_at, field, turned, way_of};
ghost use Rattle.vx_model.specs.Rows.{rows};
ghost use Rattle.vx_model.specs.Tree.{of_list};

use std::slice;
use vx_array::{ArrayRef, Arrays, Node, Patches};
use vx_base::{DType, Fields, Scalar, Text};
use vx_flat::{Way, rows_within};

// The most rows of a column that is written: as many as a text of documents has bytes.
const MOST_ROWS: u64 = 1 << 26;

/// Whether no extent of a tree is above 2^26, its own rows and those of each nested column. A constant's value counts once a
/// row.
pub fn extents_are_few(tree: &ArrayRef) -> bool
    ensures { result ≡ extents_are_few tree.now }
{
    tree.known();
    columns_are_few(tree.dtype(), &Way::Here, tree)
}

// Whether a number of rows is at most 2^26.
fn is_few(rows: u64) -> bool
    ensures { result ≡ is_few rows }
{
    rows <= MOST_ROWS
}

// Whether the extents of the column at the end of a reversed way, of type `inner`, and of each one nested in it are at most
// 2^26.
#[cycle(columns)]
fn columns_are_few(inner: &DType, way: &Way<'_>, tree: &ArrayRef) -> bool
    ensures { result ≡ list_all is_few (by_ways (type_of inner.now) (λ w. extent_at (turned (way_of way.now) w) tree.now)) }
{
    if !is_few(turned_extent(way, &Way::Here, tree)) {
        return false;
    }
    match inner {
        DType::Struct(fields, _) => fields_are_few(fields, way, tree),
        DType::List(items, _) | DType::FixedSizeList(items, _, _) => {
            columns_are_few(items, &Way::Items(&*way), tree)
        }
        _ => true,
    }
}

// `columns_are_few` of the fields of structs.
#[cycle(columns)]
fn fields_are_few(fields: &Fields, way: &Way<'_>, tree: &ArrayRef) -> bool
    ensures { result ≡ list_all is_few (by_fields (of_fields (fields_of fields.now)) (λ i w. extent_at (turned (way_of way.now) (field i w)) tree.now)) }
{
    let fields = fields.as_slice();
    for place in 0..fields.len() {
        if !field_is_few(&fields[place], place as u64, way, tree) {
            return false;
        }
    }
    true
}

// `columns_are_few` of the field at a place.
#[cycle(columns)]
fn field_is_few(inner: &(Text, DType), place: u64, way: &Way<'_>, tree: &ArrayRef) -> bool
    ensures { result ≡ list_all is_few (by_ways (type_of inner.now.1) (λ w. extent_at (turned (way_of way.now) (field place w)) tree.now)) }
{
    columns_are_few(&inner.1, &Way::Field(place, &*way), tree)
}

// The extent of the column at the end of two ways: the reversed one, `before`, then `way`. Saturates at 2^64 - 1.
fn turned_extent(before: &Way<'_>, way: &Way<'_>, tree: &ArrayRef) -> u64
    ensures { result ≡ min (extent_at (turned (way_of before.now) (way_of way.now)) tree.now) (2 ^ 64 - 1) }
{
    match before {
        Way::Here => extent_at(tree, way),
        Way::Field(place, outer) => turned_extent(outer, &Way::Field(*place, &*way), tree),
        Way::Items(outer) => turned_extent(outer, &Way::Items(&*way), tree),
    }
}

// The extent of the column at the end of a way. Saturates at 2^64 - 1.
#[cycle(extent)]
#[tactic(auto, using(vx_array::proofs::SparseOf::roots))]
fn extent_at(tree: &ArrayRef, way: &Way<'_>) -> u64
    ensures { result ≡ min (extent_at (way_of way.now) tree.now) (2 ^ 64 - 1) }
{
    match tree.node() {
        Node::Constant(value, len) => filled_rows(way, value, *len),
        Node::Sparse(patches, fill) => {
            let others = filled_rows(way, fill, unpatched(patches));
            extent_at(patches.values(), way).saturating_add(others)
        }
        Node::Struct(_, fields, len, _, _) => fields_extent(fields, *len, way),
        Node::List(elements, _, _, _) => items_extent(&elements.array, tree.len(), way),
        Node::FixedSizeList(elements, _, len, _, _) => items_extent(&elements.array, *len, way),
        _ => own_extent(way, tree.len()),
    }
}

// `extent_at` of structs, by their fields.
#[cycle(extent)]
fn fields_extent(fields: &Arrays, len: u64, way: &Way<'_>) -> u64
    ensures { result ≡ min (fields_extent (way_of way.now) len (of_list fields.now)) (2 ^ 64 - 1) }
{
    match way {
        Way::Here => len,
        Way::Field(place, rest) => match fields.get(*place) {
            Some(field) => extent_at(field, rest),
            None => 0,
        },
        Way::Items(_) => 0,
    }
}

// `extent_at` of lists, by their elements.
#[cycle(extent)]
fn items_extent(elements: &ArrayRef, len: u64, way: &Way<'_>) -> u64
    ensures { result ≡ min (items_extent (way_of way.now) len elements.now) (2 ^ 64 - 1) }
{
    match way {
        Way::Here => len,
        Way::Items(rest) => extent_at(elements, rest),
        Way::Field(_, _) => 0,
    }
}

// `extent_at` of a column with no nested ones.
fn own_extent(way: &Way<'_>, len: u64) -> u64
    ensures { result ≡ own_extent (way_of way.now) len }
{
    match way {
        Way::Here => len,
        Way::Field(_, _) | Way::Items(_) => 0,
    }
}

// How many rows have no patch.
fn unpatched(patches: &Patches) -> u64
    ensures { result ≡ patches.now.array_len - length (rows patches.now.values) }
{
    patches.array_len().saturating_sub(patches.values().len())
}

// The extent of `times` equal values in the column at the end of a way. Saturates at 2^64 - 1.
fn filled_rows(way: &Way<'_>, value: &Scalar, times: u64) -> u64
    ensures { result ≡ min (times * count_at (way_of way.now) value.now.dtype (value.now.value ∷ [])) (2 ^ 64 - 1) }
{
    rows_within(way, value.dtype(), slice::from_ref(value.value())).saturating_mul(times)
}
