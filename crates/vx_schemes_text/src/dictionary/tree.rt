//! The values and the codes of a dictionary of texts or binaries, as plain trees.

ghost use Rattle.std.specs.Prelude.{◌≡◌, ◌<◌, ◌≤◌, ◌^◌, IsTrue, length, map, nat_lt, pos};
ghost use Rattle.std.specs.List.{list_all};
ghost use Rattle.vx_base.specs.Answers.{Answers, OrMemory};
ghost use Rattle.vx_base.specs.PlainType.{is_bytes};
ghost use Rattle.vx_model.specs.Column.{column_of};
ghost use Rattle.vx_model.specs.Plain.{IsPlain, plain};
ghost use Rattle.vx_model.specs.Rows.{rows};
ghost use Rattle.vx_model.specs.TreeType.{tree_type};
ghost use Rattle.vx_scheme.specs.Asked.{most_rows};
ghost use Rattle.vx_stats.specs.Rows.{valid_count};
ghost use Rattle.vx_values.specs.IntsOf.{ptype_of, wholes_of};
ghost use Rattle.vx_schemes_common.specs.Dictionaries.{code_type};
ghost use Rattle.vx_schemes_text.specs.Dictionary.Codebook.{AreCodesOf};
ghost use Rattle.vx_schemes_text.specs.Dictionary.Tree.{appearing, dictionary_codes, dictionary_values};

use super::codebook::{CodedRows, coded};
use crate::views::views_of;
use std::alloc::Global;
use vx_array::ArrayRef;
use vx_base::{IntList, VortexResult};
use vx_blocks::narrow_type;
use vx_sparse_array::rows_at;
use vx_values::{Ints, copy_validity};

// The codes of rows among `count` distinct values, in the narrowest unsigned type.
fn narrowed(alloc: Global, codes: IntList<u32>, count: u64) -> VortexResult<Ints>
    requires some { 0 < count }
    requires few { count < 2 ^ 32 }
    requires places { IsTrue (list_all (λ code. nat_lt code count) codes) }
    ensures ptype { OrMemory result (λ ints. ptype_of ints ≡ code_type count) }
    ensures codes { OrMemory result (λ ints. wholes_of ints ≡ map pos codes) }
{
    let ptype = narrow_type(0, i128::from(count - 1));
    Ints::U32(codes).in_unsigned(alloc, ptype)
}

// The codes of a column's rows among its distinct values, `count` of them; null where the row is.
fn codes_tree(
    alloc: Global,
    array: &ArrayRef,
    codes: IntList<u32>,
    count: u64,
) -> VortexResult<ArrayRef>
    requires plain { IsPlain array.now }
    requires bytes { IsTrue (is_bytes (tree_type array.now)) }
    requires few { length (rows array.now) ≤ most_rows }
    requires some { 0 < count }
    requires count { count ≡ length (appearing (rows array.now)) }
    requires codes { AreCodesOf (rows array.now) codes }
    ensures { Answers result (plain (dictionary_codes (column_of array.now))) }
{
    array.known();
    let (_, valid) = views_of(array);
    let codes = narrowed(alloc, codes, count)?;
    let valid = copy_validity(alloc, valid)?;
    Ok(ArrayRef::primitive_of(codes, valid, array.dtype().nullability()))
}

/// The distinct values of a plain column of texts or binaries with a value, and the codes of its rows among them. Each row
/// is hashed once, and each distinct value copied once.
pub(crate) fn values_and_codes(
    alloc: Global,
    array: &ArrayRef,
) -> VortexResult<(ArrayRef, ArrayRef)>
    requires plain { IsPlain array.now }
    requires bytes { IsTrue (is_bytes (tree_type array.now)) }
    requires few { length (rows array.now) ≤ most_rows }
    requires some { 0 < valid_count (rows array.now) }
    ensures { Answers result (plain (dictionary_values (column_of array.now)), plain (dictionary_codes (column_of array.now))) }
{
    let (rows, valid) = views_of(array);
    let CodedRows { firsts, codes } = coded(alloc, rows.as_slice(), valid)?;
    let values = rows_at(alloc, array, firsts.as_slice())?;
    let codes = codes_tree(alloc, array, codes, firsts.len())?;
    Ok((values, codes))
}
