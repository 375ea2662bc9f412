//! The extents of a Sparse tree, column by column: its patches' and its fill's add up in each nested column.

ghost use Rattle.std.specs.List.{list_all};
ghost use Rattle.std.specs.Prelude.{◌≡◌, ◌*◌, ◌^◌, ◌-◌, ◌∷◌, [], length, min, nat_le};
ghost use Rattle.vx_base.specs.PlainType.{of_fields};
ghost use Rattle.vx_base.specs.TypeOf.{type_of, fields_of};
ghost use Rattle.vx_model.specs.Extents.{extents_fit, row_limit};
ghost use Rattle.vx_model.specs.Rows.{rows};
ghost use Rattle.vx_model.specs.Tree.{of_list};
ghost use Rattle.vx_flat.specs.Ways.{way_of, field, turned, count_at};
ghost use Rattle.vx_array.specs.TreeWays.{by_ways, by_fields, extent_at, fields_extent, items_extent, own_extent};

use crate::array::{ArrayRef, Node, Patches};
use crate::arrays::Arrays;
use crate::node::row_count;
use std::slice;
use vx_base::{DType, Fields, Scalar, Text};
use vx_flat::{Way, is_few, rows_within};

impl ArrayRef {
    // Whether each extent is at most 2^31: walks the columns of the type, and for each the tree.
    pub(crate) fn columns_fit(&self) -> bool
        ensures { result ≡ extents_fit self.now }
    {
        self.known();
        columns_fit(self.dtype(), &Way::Here, self)
    }

    // The extent of the column at the end of a way. Saturates at 2^64 - 1.
    #[cycle(extent_at)]
    #[tactic(auto, using(crate::proofs::SparseOf::roots))]
    fn extent_at(&self, way: &Way<'_>) -> u64
        ensures { result ≡ min (extent_at (way_of way.now) self.now) (2 ^ 64 - 1) }
    {
        match &self.node {
            Node::Constant(value, len) => filled_rows(way, value, *len),
            Node::Sparse(patches, fill) => {
                let others = filled_rows(way, fill, patches.unpatched());
                patches.values.extent_at(way).saturating_add(others)
            }
            Node::Struct(_, fields, len, _, _) => fields_extent(fields, *len, way),
            Node::List(elements, offsets, _, _) => items_extent(
                &elements.array,
                row_count(&offsets.array),
                way,
            ),
            Node::FixedSizeList(elements, _, len, _, _) => items_extent(&elements.array, *len, way),
            _ => own_extent(way, self.len),
        }
    }
}

// `extent_at` of structs, by their fields.
#[cycle(extent_at)]
fn fields_extent(fields: &Arrays, len: u64, way: &Way<'_>) -> u64
    ensures { result ≡ min (fields_extent (way_of way.now) len (of_list fields.now)) (2 ^ 64 - 1) }
{
    match way {
        Way::Here => len,
        Way::Field(place, rest) => match fields.get(*place) {
            Some(field) => field.extent_at(rest),
            None => 0,
        },
        Way::Items(_) => 0,
    }
}

// `extent_at` of lists, by their elements.
#[cycle(extent_at)]
fn items_extent(elements: &ArrayRef, len: u64, way: &Way<'_>) -> u64
    ensures { result ≡ min (items_extent (way_of way.now) len elements.now) (2 ^ 64 - 1) }
{
    match way {
        Way::Here => len,
        Way::Items(rest) => elements.extent_at(rest),
        Way::Field(_, _) => 0,
    }
}

// `extent_at` of a column with no nested ones.
fn own_extent(way: &Way<'_>, len: u64) -> u64
    ensures { result ≡ own_extent (way_of way.now) len }
{
    match way {
        Way::Here => len,
        Way::Field(_, _) | Way::Items(_) => 0,
    }
}

impl Patches {
    // How many rows have no patch.
    pub(crate) fn unpatched(&self) -> u64
        ensures { result ≡ self.now.array_len - length (rows self.now.values) }
    {
        self.array_len.saturating_sub(self.values.len())
    }
}

// The extent of `times` equal values in the column at the end of a way. Saturates at 2^64 - 1.
fn filled_rows(way: &Way<'_>, value: &Scalar, times: u64) -> u64
    ensures { result ≡ min (times * count_at (way_of way.now) value.now.dtype (value.now.value ∷ [])) (2 ^ 64 - 1) }
{
    rows_within(way, value.dtype(), slice::from_ref(value.value())).saturating_mul(times)
}

// Whether the extents of the column at the end of a reversed way, of type `inner`, and of each one nested in it are at most
// 2^31.
#[cycle(columns_fit)]
fn columns_fit(inner: &DType, way: &Way<'_>, tree: &ArrayRef) -> bool
    ensures { result ≡ list_all (λ extent. nat_le extent row_limit) (by_ways (type_of inner.now) (λ w. extent_at (turned (way_of way.now) w) tree.now)) }
{
    if !is_few(turned_extent(way, &Way::Here, tree)) {
        return false;
    }
    match inner {
        DType::Struct(fields, _) => fields_fit(fields, way, tree),
        DType::List(items, _) | DType::FixedSizeList(items, _, _) => {
            columns_fit(items, &Way::Items(&*way), tree)
        }
        _ => true,
    }
}

// `columns_fit` of the fields of structs.
#[cycle(columns_fit)]
fn fields_fit(fields: &Fields, way: &Way<'_>, tree: &ArrayRef) -> bool
    ensures { result ≡ list_all (λ extent. nat_le extent row_limit) (by_fields (of_fields (fields_of fields.now)) (λ i w. extent_at (turned (way_of way.now) (field i w)) tree.now)) }
{
    let fields = fields.as_slice();
    for place in 0..fields.len() {
        if !field_fits(&fields[place], place as u64, way, tree) {
            return false;
        }
    }
    true
}

// `columns_fit` of the field at a place.
#[cycle(columns_fit)]
fn field_fits(inner: &(Text, DType), place: u64, way: &Way<'_>, tree: &ArrayRef) -> bool
    ensures { result ≡ list_all (λ extent. nat_le extent row_limit) (by_ways (type_of inner.now.1) (λ w. extent_at (turned (way_of way.now) (field place w)) tree.now)) }
{
    columns_fit(&inner.1, &Way::Field(place, &*way), tree)
}

// The extent of the column at the end of two ways: the reversed one, `before`, then `way`. Saturates at 2^64 - 1.
fn turned_extent(before: &Way<'_>, way: &Way<'_>, tree: &ArrayRef) -> u64
    ensures { result ≡ min (extent_at (turned (way_of before.now) (way_of way.now)) tree.now) (2 ^ 64 - 1) }
{
    match before {
        Way::Here => tree.extent_at(way),
        Way::Field(place, outer) => turned_extent(outer, &Way::Field(*place, &*way), tree),
        Way::Items(outer) => turned_extent(outer, &Way::Items(&*way), tree),
    }
}
