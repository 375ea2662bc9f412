//! The values and the codes of a dictionary of integers, as plain trees.

ghost use Rattle.std.specs.Prelude.{◌≡◌, ◌<◌, ◌^◌, length, map, true, IsTrue};
ghost use Rattle.vx_values.specs.IntsOf.{ptype_of, wholes_of};
ghost use Rattle.vx_base.specs.Answers.{Answers, OrMemory};
ghost use Rattle.vx_base.specs.PlainType.{is_integer, integer_of};
ghost use Rattle.vx_base.specs.PlainValue.{int, whole_or_zero};
ghost use Rattle.vx_model.specs.Column.{column_of};
ghost use Rattle.vx_model.specs.Plain.{IsPlain, plain};
ghost use Rattle.vx_model.specs.Refusals.{validity_length};
ghost use Rattle.vx_model.specs.Rows.{rows, valid_rows};
ghost use Rattle.vx_model.specs.TreeType.{tree_type};
ghost use Rattle.vx_stats.specs.Stats.{distinct_values};
ghost use Rattle.vx_schemes_common.specs.Dictionaries.{code_type};
ghost use Rattle.vx_schemes.specs.Dictionary.Tree.{code_in, dictionary_values, dictionary_codes};

use super::codes::narrowed_codes;
use std::alloc::Global;
use vx_array::ArrayRef;
use vx_base::{Mask, VortexResult};
use vx_schemes_common::whole_tree;
use vx_values::Ints;

// The arm of one type; items and values are of the same type.
macro_rules! codes_of_type {
    ($alloc:expr, $items:expr, $valid:expr, $values:expr, $kind:ident) => {
        match $values {
            Ints::$kind(values) => {
                narrowed_codes($alloc, $items.as_slice(), $valid, values.as_slice())
            }
            _ => unreachable!(),
        }
    };
}

macro_rules! codes_by_type {
    ($alloc:expr, $items:expr, $valid:expr, $values:expr; $($kind:ident),*) => {
        match $items {
            $(Ints::$kind(items) => codes_of_type!($alloc, items, $valid, $values, $kind),)*
        }
    };
}

// The code of each valid row among the distinct values, 0 beneath nulls, in the narrowest unsigned type.
fn codes_of_ints(
    alloc: Global,
    items: &Ints,
    valid: &Option<Mask>,
    values: &Ints,
) -> VortexResult<Ints>
    requires mask { validity_length valid.now (length (wholes_of items.now)) ≡ true }
    requires ptype { ptype_of values.now ≡ ptype_of items.now }
    requires values { wholes_of values.now ≡ distinct_values (valid_rows valid.now (map int (wholes_of items.now))) }
    requires few { length (wholes_of values.now) < 2 ^ 32 }
    ensures ptype { OrMemory result (λ ints. ptype_of ints ≡ code_type (length (wholes_of values.now))) }
    ensures codes { OrMemory result (λ ints. wholes_of ints ≡ map whole_or_zero (map (code_in (wholes_of values.now)) (valid_rows valid.now (map int (wholes_of items.now))))) }
{
    codes_by_type!(alloc, items, valid, values; U8, U16, U32, U64, I8, I16, I32, I64)
}

// The codes of a column's rows among its distinct values, null where the row is.
#[tactic(auto, using(vx_model::proofs::PrimitiveLemmas::plain_roots))]
fn codes_tree(alloc: Global, array: &ArrayRef, values: &Ints) -> VortexResult<ArrayRef>
    requires plain { IsPlain array.now }
    requires integer { IsTrue (is_integer (tree_type array.now)) }
    requires ptype { ptype_of values.now ≡ integer_of (tree_type array.now) }
    requires values { wholes_of values.now ≡ distinct_values (rows array.now) }
    requires few { length (wholes_of values.now) < 2 ^ 32 }
    ensures { Answers result (plain (dictionary_codes (column_of array.now))) }
{
    let (items, valid, _) = array.as_primitive();
    array.with_integers(alloc, codes_of_ints(alloc, items, valid, values)?)
}

// The distinct values of a column, of its type.
fn values_tree(array: &ArrayRef, values: Ints) -> VortexResult<ArrayRef>
    requires integer { IsTrue (is_integer (tree_type array.now)) }
    requires ptype { ptype_of values ≡ integer_of (tree_type array.now) }
    requires values { wholes_of values ≡ distinct_values (rows array.now) }
    ensures { Answers result (plain (dictionary_values (column_of array.now))) }
{
    whole_tree(values, array.dtype().nullability())
}

/// The distinct values of a plain column of integers, and the codes of its rows among them.
pub(crate) fn values_and_codes(
    alloc: Global,
    array: &ArrayRef,
    values: Ints,
) -> VortexResult<(ArrayRef, ArrayRef)>
    requires plain { IsPlain array.now }
    requires integer { IsTrue (is_integer (tree_type array.now)) }
    requires ptype { ptype_of values ≡ integer_of (tree_type array.now) }
    requires values { wholes_of values ≡ distinct_values (rows array.now) }
    requires few { length (wholes_of values) < 2 ^ 32 }
    ensures { Answers result (plain (dictionary_values (column_of array.now)), plain (dictionary_codes (column_of array.now))) }
{
    let codes = codes_tree(alloc, array, &values)?;
    let values = values_tree(array, values)?;
    Ok((values, codes))
}
