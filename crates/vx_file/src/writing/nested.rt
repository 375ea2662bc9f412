//! Writers of structs, lists and fixed-size lists, behind their ids.

ghost use Rattle.std.specs.Prelude.{◌≡◌, ◌++◌, IsTrue, OnOk, length};
ghost use Rattle.vx_file.specs.Writing.{valid_text};
ghost use Rattle.vx_model.specs.Tree.{of_list};
ghost use Rattle.vx_spelling.specs.Fields.{list_size, nullability, row_count};
ghost use Rattle.vx_spelling.specs.Storable.{all_within, are_within};
ghost use Rattle.vx_spelling.specs.TreeSpelling.{fields_body, tree_text};
ghost use Rattle.vx_codec.specs.Varint.{varint};

use super::fields::{put_name, put_nullability, put_validity};
use super::tree::{put_tree, put_two};
use std::alloc::AllocError;
use vx_array::{Arrays, Child};
use vx_base::{Mask, Names, Nullability};
use vx_codec::put_varint;

/// Appends structs: nullability, row count, number of fields, the name and the tree of each, validity.
#[cycle(put_tree)]
pub(super) fn put_struct(
    out: &mut Vec<u8>,
    names: &Names,
    fields: &Arrays,
    len: u64,
    valid: &Option<Mask>,
    nulls: Nullability,
) -> Result<(), AllocError>
    requires names { length names.now ≡ length fields.now }
    requires within { IsTrue (are_within (of_list fields.now)) }
    ensures { OnOk result (out.new.items ≡ out.old.items ++ ((nullability.spell nulls ++ row_count.spell len) ++ ((varint.spell (length names.now) ++ fields_body names.now (of_list fields.now)) ++ valid_text valid.now))) }
{
    put_nullability(out, nulls)?;
    put_varint(out, len)?;
    put_varint(out, names.len())?;
    put_fields(out, names, fields)?;
    put_validity(out, valid)
}

// Appends the name and the tree of each field.
#[cycle(put_tree)]
fn put_fields(out: &mut Vec<u8>, names: &Names, fields: &Arrays) -> Result<(), AllocError>
    requires names { length names.now ≡ length fields.now }
    requires within { IsTrue (are_within (of_list fields.now)) }
    ensures { OnOk result (out.new.items ≡ out.old.items ++ fields_body names.now (of_list fields.now)) }
{
    let names = names.as_slice();
    let fields = fields.as_slice();
    for place in 0..fields.len() {
        put_name(out, &names[place])?;
        put_tree(out, &fields[place])?;
    }
    Ok(())
}

/// Appends lists: nullability, elements, offsets, validity.
#[cycle(put_tree)]
pub(super) fn put_list(
    out: &mut Vec<u8>,
    elements: &Child,
    offsets: &Child,
    valid: &Option<Mask>,
    nulls: Nullability,
) -> Result<(), AllocError>
    requires elements_within { IsTrue (all_within elements.now.array.value) }
    requires offsets_within { IsTrue (all_within offsets.now.array.value) }
    ensures { OnOk result (out.new.items ≡ out.old.items ++ (nullability.spell nulls ++ ((tree_text elements.now.array.value ++ tree_text offsets.now.array.value) ++ valid_text valid.now))) }
{
    put_nullability(out, nulls)?;
    put_two(out, elements, offsets)?;
    put_validity(out, valid)
}

/// Appends fixed-size lists: nullability, list size, row count, elements, validity.
#[cycle(put_tree)]
pub(super) fn put_fixed_size_list(
    out: &mut Vec<u8>,
    elements: &Child,
    size: u32,
    len: u64,
    valid: &Option<Mask>,
    nulls: Nullability,
) -> Result<(), AllocError>
    requires { IsTrue (all_within elements.now.array.value) }
    ensures { OnOk result (out.new.items ≡ out.old.items ++ ((nullability.spell nulls ++ (list_size.spell size ++ row_count.spell len)) ++ (tree_text elements.now.array.value ++ valid_text valid.now))) }
{
    put_nullability(out, nulls)?;
    put_varint(out, u64::from(size))?;
    put_varint(out, len)?;
    put_tree(out, &elements.array)?;
    put_validity(out, valid)
}
