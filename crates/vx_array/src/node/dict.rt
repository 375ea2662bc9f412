//! Dictionary encoding: values, and for each row the code of its value.

ghost use Rattle.std.specs.List.{list_all};
ghost use Rattle.std.specs.Prelude.{◌≡◌, IsTrue, MatchResult, true, length, map};
ghost use Rattle.vx_array.specs.Linear.{IsLinear};
ghost use Rattle.vx_array.specs.TreeOf.{tree_of};
ghost use Rattle.vx_base.specs.Answers.{Makes, OrMemory};
ghost use Rattle.vx_base.specs.CellValue.{cell_value};
ghost use Rattle.vx_base.specs.PlainType.{is_flat, is_integer};
ghost use Rattle.vx_model.specs.Decoded.{picked, zeroed_by};
ghost use Rattle.vx_model.specs.Refusals.{dict_refusal, validity_length};
ghost use Rattle.vx_model.specs.Rows.{rows, looked_up};
ghost use Rattle.vx_model.specs.Tree.{dict};
ghost use Rattle.vx_model.specs.TreeType.{tree_type};
ghost use Rattle.vx_model.specs.WellFormed.{is_place};
ghost use Rattle.vx_values.specs.Codes.{validity_by_codes};
ghost use Rattle.vx_values.specs.IntsOf.{ptype_of, wholes_of};
ghost use Rattle.vx_values.specs.ValuesOf.{kind_in, values_of, default_in, AreRows};

use crate::array::{ArrayRef, Child, Node};
use crate::node::Made;
use std::alloc::Global;
use vx_base::{Cell, Mask, Refused, VortexError, VortexResult};
use vx_flat::is_place;
use vx_values::{Decoded, Ints, valid_codes};

impl ArrayRef {
    /// `values[code]` in each row; null where the code is null or that value is. Child 0: `codes`, one a row; child 1:
    /// `values`. The type is the values', nullable where the values or the codes are.
    ///
    /// Refuses MismatchedTypes where the codes aren't integers or the values aren't of a leaf type or timestamps; then
    /// OutOfBounds where a code is neither null nor in bounds of `values`. Reads every code; of equal ones and of an
    /// arithmetic sequence only the first and the last, and of runs one each.
    pub fn dict(alloc: Global, codes: ArrayRef, values: ArrayRef) -> Made<(ArrayRef, ArrayRef)>
        ensures { Makes (dict_refusal codes values) (dict codes values) (codes, values) result }
    {
        match refusal(alloc, &codes, &values) {
            Some(error) => Err(Refused {
                error,
                inputs: (codes, values),
            }),
            None => ArrayRef::dict_of_places(alloc, codes, values),
        }
    }

    /// `dict` without its checks, for codes that the caller knows to be null or in bounds. Reads no row. Refuses NoMemory
    /// alone, and hands both back.
    #[tactic(auto, using(crate::proofs::Making::dict_array))]
    pub fn dict_of_places(
        alloc: Global,
        codes: ArrayRef,
        values: ArrayRef,
    ) -> Made<(ArrayRef, ArrayRef)>
        requires { dict_refusal codes values ≡ None }
        ensures { Makes None (dict codes values) (codes, values) result }
    {
        let nullability = values.dtype().nullability().or(codes.dtype().nullability());
        let own_type = match values.dtype().with_nullability(alloc, nullability) {
            Ok(own_type) => own_type,
            Err(error) => {
                return Err(Refused {
                    error,
                    inputs: (codes, values),
                });
            }
        };
        let len = codes.len();
        codes.known();
        values.known();
        match boxed(alloc, codes, values) {
            Ok((codes, values)) => Ok(ArrayRef {
                node: Node::Dict(Child { array: codes }, Child { array: values }),
                own_type: Some(own_type),
                len,
            }),
            Err(inputs) => Err(Refused {
                error: VortexError::NoMemory,
                inputs,
            }),
        }
    }

    // Whether each row is null or in bounds of `values` values, row by row.
    fn has_places(&self, values: u64) -> bool
        requires { IsTrue (is_integer (tree_type self.now)) }
        ensures { result ≡ list_all (is_place values) (rows self.now) }
    {
        for row in 0..self.len() {
            if !is_place(self.integer_at(row), values) {
                return false;
            }
        }
        true
    }

    // `has_places` of linear codes, by the first and the last.
    fn ends_are_places(&self, values: u64) -> bool
        requires integers { IsTrue (is_integer (tree_type self.now)) }
        requires linear { IsLinear (rows self.now) }
        ensures { result ≡ list_all (is_place values) (rows self.now) }
    {
        let len = self.len();
        if len == 0 {
            return true;
        }
        is_place(self.integer_at(0), values) && is_place(self.integer_at(len - 1), values)
    }
}

// The refusal of these inputs, if there is one.
fn refusal(alloc: Global, codes: &ArrayRef, values: &ArrayRef) -> Option<VortexError>
    ensures { result ≡ dict_refusal codes.now values.now }
{
    if !codes.dtype().is_integer() || !values.dtype().is_flat() {
        return Some(VortexError::MismatchedTypes);
    }
    if !have_places(alloc, codes, values.len()) {
        return Some(VortexError::OutOfBounds);
    }
    None
}

// Whether each code is null or in bounds of `values` values. Each run has a row, so of runs their values are looked at.
fn have_places(alloc: Global, codes: &ArrayRef, values: u64) -> bool
    requires { IsTrue (is_integer (tree_type codes.now)) }
    ensures { result ≡ list_all (is_place values) (rows codes.now) }
{
    if codes.is_linear() {
        return codes.ends_are_places(values);
    }
    match &codes.node {
        Node::RunEnd(_, runs) => have_places(alloc, &runs.array, values),
        _ => decoded_have_places(alloc, codes, values),
    }
}

// `have_places` in one pass over the codes, stored or decoded; row by row where their bytes don't pay for decoding them, or
// memory is wanting.
fn decoded_have_places(alloc: Global, codes: &ArrayRef, values: u64) -> bool
    requires { IsTrue (is_integer (tree_type codes.now)) }
    ensures { result ≡ list_all (is_place values) (rows codes.now) }
{
    // A null decodes to code 0, which is in bounds unless there are no values.
    if values == 0 || !codes.is_paid() {
        return codes.has_places(values);
    }
    codes.known();
    match codes.integers(alloc) {
        Ok((ints, _)) => !ints.as_ints().has_outside(values),
        Err(_) => codes.has_places(values),
    }
}

// Both in boxes; handed back where memory is wanting.
pub(crate) fn boxed(
    alloc: Global,
    codes: ArrayRef,
    values: ArrayRef,
) -> Result<(Box<ArrayRef>, Box<ArrayRef>), (ArrayRef, ArrayRef)>
    ensures { MatchResult result (λ boxed. (boxed.0.value ≡ codes) × (boxed.1.value ≡ values)) (λ back. back ≡ (codes, values)) }
{
    match Box::new(alloc, codes) {
        Ok(codes) => match Box::new(alloc, values) {
            Ok(values) => Ok((codes, values)),
            Err(failed) => Err((Box::into_inner(codes), failed.value)),
        },
        Err(failed) => Err((failed.value, values)),
    }
}

// `values[code]`, null where the code is null.
#[cycle(cell_at)]
pub(crate) fn picked_at<'a>(values: &'a ArrayRef, code: Cell<'_>) -> Cell<'a>
    requires flat { IsTrue (is_flat (tree_type values.now)) }
    requires place { IsTrue (is_place (length (rows values.now)) (cell_value code)) }
    ensures { cell_value result ≡ looked_up (rows values.now) (cell_value code.entry) }
{
    let _places = values.len();
    match code {
        Cell::Int(place) => values.cell_at(place as u64),
        Cell::Null | Cell::Bool(_) | Cell::Bytes(_) => Cell::Null,
    }
}

// `values[code]` in each row, the default beneath nulls, and the validity: a row is valid where its code is and that value is.
pub(crate) fn picked_by_codes(
    alloc: Global,
    codes: &Ints,
    valid: Option<Mask>,
    values: Decoded,
) -> VortexResult<Decoded>
    requires { validity_length valid (length (wholes_of codes.now)) ≡ true }
    ensures { OrMemory result (AreRows (kind_in values.values) (zeroed_by (default_in (kind_in values.values)) valid (map (λ code. picked (ptype_of codes.now) (values_of values.values) (default_in (kind_in values.values)) code) (wholes_of codes.now))) (validity_by_codes (ptype_of codes.now) (wholes_of codes.now) valid values.valid)) }
{
    let picked = values.values.picked(alloc, codes)?;
    let picked = picked.zeroed_by(&valid);
    let valid = valid_codes(alloc, codes, valid, &values.valid)?;
    Ok(Decoded {
        values: picked,
        valid,
    })
}

// A deep copy of the node, over the caller's copy of the values.
#[cycle(copy)]
pub(crate) fn copied_dict(alloc: Global, codes: &ArrayRef, values: ArrayRef) -> VortexResult<Node>
    ensures { OrMemory result (λ copy. tree_of copy ≡ dict codes.now values) }
{
    let codes = Box::new(alloc, codes.copy(alloc)?)?;
    let values = Box::new(alloc, values)?;
    Ok(Node::Dict(Child { array: codes }, Child { array: values }))
}
