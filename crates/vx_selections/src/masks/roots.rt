//! Each plain root with more nulls and a wider type.

ghost use Rattle.std.specs.Prelude.{◌≡◌, ◌-◌, IsTrue, None, length, nat_le};
ghost use Rattle.vx_base.specs.Answers.{Answers, OrMemory};
ghost use Rattle.vx_base.specs.TypeOf.{type_of};
ghost use Rattle.vx_model.specs.Column.{column_of};
ghost use Rattle.vx_model.specs.Refusals.{fixed_size_list_refusal, kept, list_refusal, structure_refusal};
ghost use Rattle.vx_model.specs.Rows.{rows};
ghost use Rattle.vx_model.specs.Tree.{bool, fixed_size_list, list, of_list, primitive, structure, var_bin_view};
ghost use Rattle.vx_model.specs.WellFormed.{WellFormed};
ghost use Rattle.vx_selections.specs.Narrowed.{Restricts, restricted};
ghost use Rattle.vx_values.specs.IntsOf.{ptype_of, wholes_of};

use super::validity::narrowed;
use std::alloc::Global;
use vx_array::{ArrayRef, Arrays};
use vx_base::{ByteRows, DType, Mask, Names, Nullability, VortexResult};
use vx_values::Ints;

/// Of truth values.
pub(super) fn restricted_bool(
    alloc: Global,
    values: Mask,
    own: Option<Mask>,
    nulls: Nullability,
    valid: &Option<Mask>,
    nullability: Nullability,
) -> VortexResult<ArrayRef>
    requires well { WellFormed (bool values own nulls) }
    requires bits { Restricts valid.now nullability (column_of (bool values own nulls)) }
    ensures { OrMemory result (λ out. column_of out ≡ restricted valid.now nullability (column_of (bool values own nulls))) }
{
    let bits = narrowed(alloc, &own, valid, values.len())?;
    Ok(ArrayRef::bool_of(values, bits, nullability))
}

/// Of integers.
pub(super) fn restricted_primitive(
    alloc: Global,
    values: Ints,
    own: Option<Mask>,
    nulls: Nullability,
    valid: &Option<Mask>,
    nullability: Nullability,
) -> VortexResult<ArrayRef>
    requires well { WellFormed (primitive (ptype_of values) (wholes_of values) own nulls) }
    requires bits { Restricts valid.now nullability (column_of (primitive (ptype_of values) (wholes_of values) own nulls)) }
    ensures { OrMemory result (λ out. column_of out ≡ restricted valid.now nullability (column_of (primitive (ptype_of values) (wholes_of values) own nulls))) }
{
    let bits = narrowed(alloc, &own, valid, values.len())?;
    Ok(ArrayRef::primitive_of(values, bits, nullability))
}

/// Of texts and binaries.
pub(super) fn restricted_view(
    alloc: Global,
    values: ByteRows,
    own: Option<Mask>,
    dtype: DType,
    valid: &Option<Mask>,
    nullability: Nullability,
) -> VortexResult<ArrayRef>
    requires well { WellFormed (var_bin_view values own (type_of dtype)) }
    requires bits { Restricts valid.now nullability (column_of (var_bin_view values own (type_of dtype))) }
    ensures { OrMemory result (λ out. column_of out ≡ restricted valid.now nullability (column_of (var_bin_view values own (type_of dtype)))) }
{
    let wider = dtype.with_nullability(alloc, nullability)?;
    let bits = narrowed(alloc, &own, valid, values.len())?;
    Ok(ArrayRef::var_bin_view_of(values, bits, wider))
}

/// Of structs.
pub(super) fn restricted_struct(
    alloc: Global,
    names: Names,
    fields: Arrays,
    len: u64,
    own: Option<Mask>,
    nulls: Nullability,
    valid: &Option<Mask>,
    nullability: Nullability,
) -> VortexResult<ArrayRef>
    requires well { WellFormed (structure names (of_list fields) len own nulls) }
    requires bits { Restricts valid.now nullability (column_of (structure names (of_list fields) len own nulls)) }
    ensures { OrMemory result (λ out. column_of out ≡ restricted valid.now nullability (column_of (structure names (of_list fields) len own nulls))) }
{
    let bits = narrowed(alloc, &own, valid, len)?;
    structure_of(alloc, names, fields, len, bits, nullability)
}

// A struct of parts that its constructor accepts.
fn structure_of(
    alloc: Global,
    names: Names,
    fields: Arrays,
    len: u64,
    valid: Option<Mask>,
    nullability: Nullability,
) -> VortexResult<ArrayRef>
    requires { structure_refusal names (of_list fields) len valid nullability ≡ None }
    ensures { Answers result (structure names (of_list fields) len (kept valid) nullability) }
{
    match ArrayRef::structure(alloc, names, fields, len, valid, nullability) {
        Ok(tree) => Ok(tree),
        Err(refused) => Err(refused.error),
    }
}

/// Of lists.
pub(super) fn restricted_list(
    alloc: Global,
    elements: ArrayRef,
    offsets: ArrayRef,
    own: Option<Mask>,
    nulls: Nullability,
    valid: &Option<Mask>,
    nullability: Nullability,
) -> VortexResult<ArrayRef>
    requires well { WellFormed (list elements offsets own nulls) }
    requires bits { Restricts valid.now nullability (column_of (list elements offsets own nulls)) }
    ensures { OrMemory result (λ out. column_of out ≡ restricted valid.now nullability (column_of (list elements offsets own nulls))) }
{
    let len = count_of(&offsets);
    let bits = narrowed(alloc, &own, valid, len)?;
    list_of(alloc, elements, offsets, bits, nullability)
}

// Lists of parts that their constructor accepts. The offsets aren't tested again.
fn list_of(
    alloc: Global,
    elements: ArrayRef,
    offsets: ArrayRef,
    valid: Option<Mask>,
    nullability: Nullability,
) -> VortexResult<ArrayRef>
    requires { list_refusal elements offsets valid nullability ≡ None }
    ensures { Answers result (list elements offsets (kept valid) nullability) }
{
    match ArrayRef::list_of_offsets(alloc, elements, offsets, valid, nullability) {
        Ok(tree) => Ok(tree),
        Err(refused) => Err(refused.error),
    }
}

// The number of lists that offsets go through, of which there is one more.
fn count_of(offsets: &ArrayRef) -> u64
    requires { IsTrue (nat_le 1 (length (rows offsets.now))) }
    ensures { result ≡ length (rows offsets.now) - 1 }
{
    offsets.len() - 1
}

/// Of fixed-size lists.
pub(super) fn restricted_fixed(
    alloc: Global,
    elements: ArrayRef,
    size: u32,
    len: u64,
    own: Option<Mask>,
    nulls: Nullability,
    valid: &Option<Mask>,
    nullability: Nullability,
) -> VortexResult<ArrayRef>
    requires well { WellFormed (fixed_size_list elements size len own nulls) }
    requires bits { Restricts valid.now nullability (column_of (fixed_size_list elements size len own nulls)) }
    ensures { OrMemory result (λ out. column_of out ≡ restricted valid.now nullability (column_of (fixed_size_list elements size len own nulls))) }
{
    let bits = narrowed(alloc, &own, valid, len)?;
    fixed_size_list_of(alloc, elements, size, len, bits, nullability)
}

// Fixed-size lists of parts that their constructor accepts.
fn fixed_size_list_of(
    alloc: Global,
    elements: ArrayRef,
    size: u32,
    len: u64,
    valid: Option<Mask>,
    nullability: Nullability,
) -> VortexResult<ArrayRef>
    requires { fixed_size_list_refusal elements size len valid nullability ≡ None }
    ensures { Answers result (fixed_size_list elements size len (kept valid) nullability) }
{
    match ArrayRef::fixed_size_list(alloc, elements, size, len, valid, nullability) {
        Ok(tree) => Ok(tree),
        Err(refused) => Err(refused.error),
    }
}
