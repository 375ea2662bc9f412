//! Reads rows of a flat kind as a list of items and their validity.

ghost use Rattle.std.specs.Prelude.{◌≡◌, ◌∷◌, ◌++◌, [], map, option_map, unwrap_or, OnOk, IfOk};
ghost use Rattle.serde_json.specs.View.{view, items_view};
ghost use Rattle.vx_base.specs.Defaults.{default_of, or_default};
ghost use Rattle.vx_base.specs.PlainType.{with_nullability};
ghost use Rattle.vx_base.specs.PlainValue.{null};
ghost use Rattle.vx_document.specs.Reading.{Gives, GivesForm, all_by};
ghost use Rattle.vx_document.specs.RowsOf.{AreReadRows, row_of, bits_of};

use crate::document::kinds::Kind;
use crate::document::unread::Unread;
use serde_json::Value;
use std::alloc::{AllocError, Global};
use vx_base::{Items, Mask, Nullability};

// Rows of one kind: an item for each, the default beneath a null, and the validity of a nullable type.
#[derive(Drop)]
pub(crate) struct Rows<T> {
    pub(crate) items: Items<T>,
    pub(crate) valid: Option<Mask>,
}

// A row: None for null.
fn read_row<K: Kind>(
    alloc: Global,
    value: Value,
    nullability: Nullability,
) -> Result<Option<K::Item>, Unread>
    ensures { Gives (λ row. unwrap_or (option_map K.seen row) null) result
        (row_of (with_nullability K.dtype nullability) (view value)) }
{
    if value.is_null() && nullability.allows_null() {
        return Ok(None);
    }
    Ok(Some(K::read(alloc, value)?))
}

// The item of a row: the default for null.
fn item_of<K: Kind>(alloc: Global, row: Option<K::Item>) -> K::Item
    ensures { K.seen result ≡ or_default (default_of K.dtype) (unwrap_or (option_map K.seen row) null) }
{
    match row {
        Some(item) => item,
        None => K::default(alloc),
    }
}

// Appends a truth value to a validity, if there is one.
fn push_bit(valid: &mut Option<Vec<bool>>, bit: bool) -> Result<(), AllocError>
    ensures { OnOk result (option_map (λ v. v.items) valid.new ≡ option_map (λ v. v.items ++ bit ∷ []) valid.old) }
{
    if let Some(bits) = valid {
        bits.push(bit)?;
    }
    Ok(())
}

// The rows of a list. Each value of JSON is dropped as it is read.
pub(crate) fn read_rows<K: Kind>(
    alloc: Global,
    list: Vec<Value>,
    nullability: Nullability,
) -> Result<Rows<K::Item>, Unread>
    ensures { GivesForm (λ rows. AreReadRows (default_of K.dtype) nullability (map K.seen rows.items) rows.valid) result
        (all_by (row_of (with_nullability K.dtype nullability)) (items_view list.items)) }
{
    let mut items = Vec::with_capacity(alloc, list.len())?;
    let mut valid = bits_for(alloc, nullability, list.len())?;
    for value in list {
        let row = read_row::<K>(alloc, value, nullability)?;
        push_bit(&mut valid, row.is_some())?;
        items.push(item_of::<K>(alloc, row))?;
    }
    Ok(Rows {
        items: Items::from_vec(items),
        valid: mask_of(valid),
    })
}

// An empty validity with room for `len` rows; None for a type that is not nullable.
fn bits_for(
    alloc: Global,
    nullability: Nullability,
    len: usize,
) -> Result<Option<Vec<bool>>, AllocError>
    ensures { IfOk result (λ valid. option_map (λ v. v.items) valid ≡ bits_of nullability []) }
{
    if nullability.allows_null() {
        Ok(Some(Vec::with_capacity(alloc, len)?))
    } else {
        Ok(None)
    }
}

// The validity as a mask.
fn mask_of(valid: Option<Vec<bool>>) -> Option<Mask>
    ensures { result ≡ option_map (λ v. v.items) valid }
{
    match valid {
        Some(bits) => Some(Mask::from_bits(bits)),
        None => None,
    }
}
