//! Dictionary encoding of a column of integers.

ghost use Rattle.std.specs.Prelude.{◌≡◌, ◌<◌, ◌^◌, length, IsTrue};
ghost use Rattle.vx_values.specs.IntsOf.{ptype_of, wholes_of};
ghost use Rattle.vx_base.specs.Answers.{Answers, OrMemory};
ghost use Rattle.vx_base.specs.PlainType.{is_integer, integer_of};
ghost use Rattle.vx_model.specs.Column.{column_of};
ghost use Rattle.vx_model.specs.Plain.{IsPlain};
ghost use Rattle.vx_model.specs.Rows.{rows};
ghost use Rattle.vx_model.specs.TreeType.{tree_type};
ghost use Rattle.vx_stats.specs.Stats.{distinct_values, stats_of};
ghost use Rattle.vx_schemes.specs.Dictionary.Tree.{dictionary_of, distinct_options};

use super::distinct_ints::distinct_ints;
use super::tree::values_and_codes;
use std::alloc::Global;
use vx_array::ArrayRef;
use vx_base::{ExecutionCtx, VortexResult};
use vx_scheme::IntegerStats;
use vx_schemes_common::dictionary_tree;
use vx_values::Ints;

/// Dictionary-encodes a column of integers: a Dict over the distinct values, ascending and of the column's type, with a
/// code for each row in the narrowest unsigned type, null where the row is. `stats` are the column's, with distinct
/// values. A tree that isn't plain is decoded first. The only error is NoMemory.
pub fn integer_dictionary_encode(
    array: &ArrayRef,
    stats: &IntegerStats,
    ctx: &mut ExecutionCtx,
) -> VortexResult<ArrayRef>
    requires integer { IsTrue (is_integer (tree_type array.now)) }
    requires stats { stats.now ≡ stats_of distinct_options (integer_of (tree_type array.now)) (rows array.now) }
    requires some { 0 < stats.now.value_count }
    ensures answer { Answers result (dictionary_of (column_of array.now)) }
    ensures kept { OrMemory result (λ tree. column_of tree ≡ column_of array.now) }
    ensures ctx { ctx.new ≡ ctx.old }
{
    array.known();
    let values = distinct_ints(ctx.alloc(), stats)?;
    encoded(ctx.alloc(), array, values)
}

// The dictionary of a column, given its distinct values.
fn encoded(alloc: Global, array: &ArrayRef, values: Ints) -> VortexResult<ArrayRef>
    requires integer { IsTrue (is_integer (tree_type array.now)) }
    requires ptype { ptype_of values ≡ integer_of (tree_type array.now) }
    requires values { wholes_of values ≡ distinct_values (rows array.now) }
    requires few { length (wholes_of values) < 2 ^ 32 }
    ensures { Answers result (dictionary_of (column_of array.now)) }
{
    array.known();
    if array.is_plain() {
        plain_encoded(alloc, array, values)
    } else {
        plain_encoded(alloc, &array.canonical(alloc)?, values)
    }
}

// The dictionary of a plain column, given its distinct values.
fn plain_encoded(alloc: Global, array: &ArrayRef, values: Ints) -> VortexResult<ArrayRef>
    requires plain { IsPlain array.now }
    requires integer { IsTrue (is_integer (tree_type array.now)) }
    requires ptype { ptype_of values ≡ integer_of (tree_type array.now) }
    requires values { wholes_of values ≡ distinct_values (rows array.now) }
    requires few { length (wholes_of values) < 2 ^ 32 }
    ensures { Answers result (dictionary_of (column_of array.now)) }
{
    array.known();
    let (values, codes) = values_and_codes(alloc, array, values)?;
    dictionary_tree(alloc, codes, values)
}
