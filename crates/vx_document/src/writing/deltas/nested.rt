//! Nested columns whose columns within have deltas.

ghost use Rattle.std.specs.Prelude.{◌≡◌, map};
ghost use Rattle.vx_base.specs.Answers.{OrMemory};
ghost use Rattle.vx_model.specs.Column.{column_of};
ghost use Rattle.vx_model.specs.Tree.{fixed_size_list, list, of_list, structure};
ghost use Rattle.vx_model.specs.WellFormed.{WellFormed};

use super::{accepted, without_deltas};
use std::alloc::Global;
use vx_array::{ArrayRef, Arrays};
use vx_base::{Mask, Names, Nullability, VortexResult};

// `without_deltas` of structs, field by field.
#[cycle(deltas)]
pub(super) fn structs(
    alloc: Global,
    names: Names,
    fields: Arrays,
    len: u64,
    valid: Option<Mask>,
    nullability: Nullability,
) -> VortexResult<ArrayRef>
    requires { WellFormed (structure names (of_list fields) len valid nullability) }
    ensures { OrMemory result (λ made. column_of made ≡ column_of (structure names (of_list fields) len valid nullability)) }
{
    let fields = each_without(alloc, fields)?;
    accepted(ArrayRef::structure(alloc, names, fields, len, valid, nullability))
}

// `without_deltas` of each tree.
#[cycle(deltas)]
fn each_without(alloc: Global, trees: Arrays) -> VortexResult<Arrays>
    ensures { OrMemory result (λ made. map column_of made ≡ map column_of trees) }
{
    let mut made = Vec::with_capacity(alloc, trees.as_slice().len())?;
    for tree in trees.into_vec() {
        made.push(without_deltas(alloc, tree)?)?;
    }
    Ok(Arrays::from_vec(made))
}

// `without_deltas` of lists, by their elements and offsets.
#[cycle(deltas)]
pub(super) fn lists(
    alloc: Global,
    elements: ArrayRef,
    offsets: ArrayRef,
    valid: Option<Mask>,
    nullability: Nullability,
) -> VortexResult<ArrayRef>
    requires { WellFormed (list elements offsets valid nullability) }
    ensures { OrMemory result (λ made. column_of made ≡ column_of (list elements offsets valid nullability)) }
{
    let elements = without_deltas(alloc, elements)?;
    let offsets = without_deltas(alloc, offsets)?;
    accepted(ArrayRef::list(alloc, elements, offsets, valid, nullability))
}

// `without_deltas` of fixed-size lists, by their elements.
#[cycle(deltas)]
pub(super) fn fixed(
    alloc: Global,
    elements: ArrayRef,
    size: u32,
    len: u64,
    valid: Option<Mask>,
    nullability: Nullability,
) -> VortexResult<ArrayRef>
    requires { WellFormed (fixed_size_list elements size len valid nullability) }
    ensures { OrMemory result (λ made. column_of made ≡ column_of (fixed_size_list elements size len valid nullability)) }
{
    let elements = without_deltas(alloc, elements)?;
    accepted(ArrayRef::fixed_size_list(alloc, elements, size, len, valid, nullability))
}
