//! Structs: a tree for each field.

ghost use Rattle.std.specs.Prelude.{◌≡◌, ◌==◌, length};
ghost use Rattle.vx_array.specs.TreeOf.{tree_of};
ghost use Rattle.vx_base.specs.Answers.{Answers, Makes, OrMemory};
ghost use Rattle.vx_base.specs.PlainType.{of_fields};
ghost use Rattle.vx_base.specs.TypeOf.{field_of, fields_of};
ghost use Rattle.vx_model.specs.Refusals.{structure_refusal, kept};
ghost use Rattle.vx_model.specs.Rows.{rows};
ghost use Rattle.vx_model.specs.Tree.{structure, of_list};
ghost use Rattle.vx_model.specs.TreeType.{field_types, tree_type};
ghost use Rattle.vx_model.specs.WellFormed.{all_have_rows};

use crate::array::{ArrayRef, Node};
use crate::arrays::Arrays;
use crate::node::Made;
use std::alloc::Global;
use vx_base::{DType, Fields, Mask, Names, Nullability, Refused, Text, VortexError, VortexResult};
use vx_values::{copy_validity, has_length, is_allowed, keep};

impl ArrayRef {
    /// `len` structs, in each row the values of the fields, null where `valid` is false; beneath nulls any values may
    /// stand. A child for each field, `len` rows each. Names may repeat.
    ///
    /// Refuses LengthMismatch where there isn't one name for each field, a field hasn't `len` rows or the mask doesn't
    /// have one bit per row; then MismatchedTypes where the mask has a false in a non-nullable node.
    #[tactic(auto, using(crate::proofs::Making::structure_array))]
    pub fn structure(
        alloc: Global,
        names: Names,
        fields: Arrays,
        len: u64,
        valid: Option<Mask>,
        nullability: Nullability,
    ) -> Made<(Names, Arrays, Option<Mask>)>
        ensures { Makes (structure_refusal names (of_list fields) len valid nullability) (structure names (of_list fields) len (kept valid) nullability) (names, fields, valid) result }
    {
        if let Some(error) = refusal(&names, &fields, len, &valid, nullability) {
            return Err(Refused {
                error,
                inputs: (names, fields, valid),
            });
        }
        let own_fields = match typed_fields(alloc, &names, &fields) {
            Ok(own_fields) => own_fields,
            Err(error) => {
                return Err(Refused {
                    error,
                    inputs: (names, fields, valid),
                });
            }
        };
        fields.known();
        Ok(ArrayRef {
            node: Node::Struct(names, fields, len, keep(valid), nullability),
            own_type: Some(DType::structure(own_fields, nullability)),
            len,
        })
    }
}

// The refusal of these inputs, if there is one.
#[tactic(auto, using(vx_model::proofs::TreesLemmas::trees))]
fn refusal(
    names: &Names,
    fields: &Arrays,
    len: u64,
    valid: &Option<Mask>,
    nullability: Nullability,
) -> Option<VortexError>
    ensures { result ≡ structure_refusal names.now (of_list fields.now) len valid.now nullability }
{
    if names.len() != fields.len() || !all_have_rows(fields, len) || !has_length(valid, len) {
        return Some(VortexError::LengthMismatch);
    }
    if !is_allowed(valid, nullability) {
        return Some(VortexError::MismatchedTypes);
    }
    None
}

// Whether each tree has `len` rows.
#[tactic(auto, using(vx_model::proofs::TreesLemmas::lists))]
fn all_have_rows(fields: &Arrays, len: u64) -> bool
    ensures { result ≡ all_have_rows len (of_list fields.now) }
{
    for field in fields.as_slice() {
        if !has_rows(field, len) {
            return false;
        }
    }
    true
}

fn has_rows(field: &ArrayRef, len: u64) -> bool
    ensures { result ≡ (length (rows field.now) == len) }
{
    field.len() == len
}

// The fields of the type: each name with the type of its tree.
fn typed_fields(alloc: Global, names: &Names, fields: &Arrays) -> VortexResult<Fields>
    requires { length names.now ≡ length fields.now }
    ensures { OrMemory result (λ typed. of_fields (fields_of typed) ≡ field_types names.now (of_list fields.now)) }
{
    let names = names.as_slice();
    let fields = fields.as_slice();
    let mut typed = Vec::new(alloc);
    for place in 0..fields.len() {
        typed.push(typed_field(alloc, &names[place], &fields[place])?)?;
    }
    Ok(Fields::from_vec(typed))
}

// A field of the type: copies of the name and of the tree's type.
fn typed_field(alloc: Global, name: &Text, field: &ArrayRef) -> VortexResult<(Text, DType)>
    ensures { OrMemory result (λ typed. field_of typed ≡ (name.now, tree_type field.now)) }
{
    let name = name.copy(alloc)?;
    let dtype = field.dtype().copy(alloc)?;
    Ok((name, dtype))
}

// A copy of the node, over the caller's copy of the fields.
pub(crate) fn copied_struct(
    alloc: Global,
    names: &Names,
    fields: Arrays,
    len: u64,
    valid: &Option<Mask>,
    nullability: Nullability,
) -> VortexResult<Node>
    ensures { OrMemory result (λ copy. tree_of copy ≡ structure names.now (of_list fields) len valid.now nullability) }
{
    let names = copied_names(alloc, names)?;
    let valid = copy_validity(alloc, valid)?;
    Ok(Node::Struct(names, fields, len, valid, nullability))
}

// A copy of the names.
pub(crate) fn copied_names(alloc: Global, names: &Names) -> VortexResult<Names>
    ensures { Answers result names.now }
{
    let mut copies = Vec::new(alloc);
    for name in names.as_slice() {
        copies.push(name.copy(alloc)?)?;
    }
    Ok(Names::from_vec(copies))
}
