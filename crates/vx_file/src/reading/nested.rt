//! Readers of structs, lists and fixed-size lists.

ghost use Rattle.std.specs.List.{zip};
ghost use Rattle.std.specs.Prelude.{◌≡◌, ◌++◌, ◌∷◌, [], length, IfOk, OnOk, IsOkUnless};
ghost use Rattle.vx_codec.specs.Format.{both, made_at};
ghost use Rattle.vx_codec.specs.Lists.{repeated_at};
ghost use Rattle.vx_codec.specs.Reads.{Reads};
ghost use Rattle.vx_codec.specs.declared.error.ReadError.TheVariants.{NoMemory};
ghost use Rattle.vx_file.specs.Made.{checked};
ghost use Rattle.vx_model.specs.Refusals.{kept};
ghost use Rattle.vx_spelling.specs.Fields.{name};
ghost use Rattle.vx_spelling.specs.NestedParts.{fixed_ok, fixed_of, fixed_parts, list_ok, list_of, list_parts, struct_ok, struct_of, struct_parts};
ghost use Rattle.vx_spelling.specs.TreeSpelling.{tree_at, trees_by};

use super::fields::{read_list_size, read_name, read_nullability, read_row_count, read_validity};
use super::made::{Found, refusal};
use super::tree::{read_tree, read_two};
use std::alloc::Global;
use vx_array::{ArrayRef, Arrays};
use vx_base::{Mask, Names, Nullability, Text};
use vx_codec::{ReadError, read_varint};

/// Structs: nullability, row count, number of fields, the name and the tree of each, validity.
#[cycle(read_tree)]
pub(super) fn read_struct(alloc: Global, bytes: &[u8], depth: u8) -> Found<'_>
    ensures { Reads (λ x. (x.0, x.1.now)) result (made_at struct_of (struct_parts (trees_by (tree_at depth))).parse bytes.now) }
{
    let (nullability, rest) = read_nullability(bytes)?;
    let (len, rest) = read_row_count(rest)?;
    let (count, rest) = read_varint(rest)?;
    let (fields, rest) = read_fields(alloc, rest, count, depth)?;
    let (valid, rest) = read_validity(alloc, rest, len)?;
    make_struct(alloc, fields, len, valid, nullability, rest)
}

// The name and the tree of a field.
#[cycle(read_tree)]
fn read_field(
    alloc: Global,
    bytes: &[u8],
    depth: u8,
) -> Result<((Text, ArrayRef), &[u8]), ReadError>
    ensures { Reads (λ x. (x.0, x.1.now)) result ((both name (trees_by (tree_at depth))).parse bytes.now) }
{
    let (name, rest) = read_name(alloc, bytes)?;
    let (tree, rest) = read_tree(alloc, rest, depth)?;
    Ok(((name, tree), rest))
}

fn push_field(
    names: &mut Names,
    fields: &mut Arrays,
    field: (Text, ArrayRef),
) -> Result<(), ReadError>
    ensures pushed { OnOk result ((names.new ≡ names.old ++ field.0 ∷ []) × (fields.new ≡ fields.old ++ field.1 ∷ [])) }
    ensures memory { IsOkUnless result NoMemory }
{
    let (name, tree) = field;
    match names.push(name) {
        Ok(()) => match fields.push(tree) {
            Ok(()) => Ok(()),
            Err(_) => Err(ReadError::NoMemory),
        },
        Err(_) => Err(ReadError::NoMemory),
    }
}

// `count` fields. The lists grow with the bytes that are read.
#[cycle(read_tree)]
fn read_fields(
    alloc: Global,
    bytes: &[u8],
    count: u64,
    depth: u8,
) -> Result<((Names, Arrays), &[u8]), ReadError>
    ensures read { Reads (λ x. (zip x.0.0 x.0.1, x.1.now)) result (repeated_at (both name (trees_by (tree_at depth))).parse count bytes.now) }
    ensures lengths { IfOk result (λ x. length x.0.0 ≡ length x.0.1) }
{
    let mut names = Names::new_in(alloc);
    let mut fields = Arrays::new_in(alloc);
    let mut rest = bytes;
    for _ in 0..count {
        let (field, after) = read_field(alloc, rest, depth)?;
        push_field(&mut names, &mut fields, field)?;
        rest = after;
    }
    Ok(((names, fields), rest))
}

#[tactic(auto, using(crate::proofs::Zips::zips))]
fn make_struct<'a>(
    alloc: Global,
    fields: (Names, Arrays),
    len: u64,
    valid: Option<Mask>,
    nullability: Nullability,
    rest: &'a [u8],
) -> Found<'a>
    requires kept { kept valid ≡ valid }
    requires lengths { length fields.0 ≡ length fields.1 }
    ensures { Reads (λ x. (x.0, x.1.now)) result (checked struct_ok struct_of ((nullability, len), (zip fields.0 fields.1, valid)) rest.now) }
{
    let (names, fields) = fields;
    match ArrayRef::structure(alloc, names, fields, len, valid, nullability) {
        Ok(tree) => Ok((tree, rest)),
        Err(refused) => Err(refusal(refused.error)),
    }
}

/// Lists: nullability, elements, offsets, validity of one row less than there are offsets.
#[cycle(read_tree)]
pub(super) fn read_list(alloc: Global, bytes: &[u8], depth: u8) -> Found<'_>
    ensures { Reads (λ x. (x.0, x.1.now)) result (made_at list_of (list_parts (trees_by (tree_at depth))).parse bytes.now) }
{
    let (nullability, rest) = read_nullability(bytes)?;
    let (children, rest) = read_two(alloc, rest, depth)?;
    let (valid, rest) = read_validity(alloc, rest, children.1.len().saturating_sub(1))?;
    make_list(alloc, children, valid, nullability, rest)
}

fn make_list<'a>(
    alloc: Global,
    children: (ArrayRef, ArrayRef),
    valid: Option<Mask>,
    nullability: Nullability,
    rest: &'a [u8],
) -> Found<'a>
    requires { kept valid ≡ valid }
    ensures { Reads (λ x. (x.0, x.1.now)) result (checked list_ok list_of (nullability, (children, valid)) rest.now) }
{
    let (elements, offsets) = children;
    match ArrayRef::list(alloc, elements, offsets, valid, nullability) {
        Ok(tree) => Ok((tree, rest)),
        Err(refused) => Err(refusal(refused.error)),
    }
}

/// Fixed-size lists: nullability, list size, row count, elements, validity.
#[cycle(read_tree)]
pub(super) fn read_fixed_size_list(alloc: Global, bytes: &[u8], depth: u8) -> Found<'_>
    ensures { Reads (λ x. (x.0, x.1.now)) result (made_at fixed_of (fixed_parts (trees_by (tree_at depth))).parse bytes.now) }
{
    let (nullability, rest) = read_nullability(bytes)?;
    let (size, rest) = read_list_size(rest)?;
    let (len, rest) = read_row_count(rest)?;
    let (elements, rest) = read_tree(alloc, rest, depth)?;
    let (valid, rest) = read_validity(alloc, rest, len)?;
    make_fixed(alloc, (size, len), elements, valid, nullability, rest)
}

fn make_fixed<'a>(
    alloc: Global,
    counts: (u32, u64),
    elements: ArrayRef,
    valid: Option<Mask>,
    nullability: Nullability,
    rest: &'a [u8],
) -> Found<'a>
    requires { kept valid ≡ valid }
    ensures { Reads (λ x. (x.0, x.1.now)) result (checked fixed_ok fixed_of ((nullability, counts), (elements, valid)) rest.now) }
{
    let (size, len) = counts;
    match ArrayRef::fixed_size_list(alloc, elements, size, len, valid, nullability) {
        Ok(tree) => Ok((tree, rest)),
        Err(refused) => Err(refusal(refused.error)),
    }
}
