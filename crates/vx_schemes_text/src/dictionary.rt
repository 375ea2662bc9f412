//! The dictionary of texts and of binaries: one body for both schemes.

ghost use Rattle.std.specs.Prelude.{◌≡◌, ◌≤◌, IfSome, IsTrue, length, true};
ghost use Rattle.vx_base.specs.Answers.{Answers, OrMemory};
ghost use Rattle.vx_base.specs.PlainType.{is_bytes};
ghost use Rattle.vx_model.specs.Column.{column_of};
ghost use Rattle.vx_model.specs.Plain.{IsPlain};
ghost use Rattle.vx_model.specs.Rows.{rows};
ghost use Rattle.vx_model.specs.TreeType.{tree_type};
ghost use Rattle.vx_scheme.specs.Asked.{most_rows, FitParts};
ghost use Rattle.vx_scheme.specs.Bundle.{SameArray};
ghost use Rattle.vx_scheme.specs.Meaning.{split_of};
ghost use Rattle.vx_scheme.specs.Rules.{descendants_of};
ghost use Rattle.vx_schemes_common.specs.Dictionaries.{dictionary_or_plain};
ghost use Rattle.vx_schemes_common.specs.Pairs.{pair_of};
ghost use Rattle.vx_schemes_text.specs.Dictionary.Meaning.{dictionary_estimate, dictionary_parts, no_codes_of_codes, tried_or_skipped};

mod codebook;
mod tree;

use crate::views::value_count;
use std::alloc::Global;
use tree::values_and_codes;
use vx_array::{ArrayRef, Arrays};
use vx_base::{ExecutionCtx, VortexResult};
use vx_scheme::{
    ArrayAndStats, ChildSelection, CompressionEstimate, DeferredEstimate, DescendantRules,
    EstimateVerdict, Split, StringStats,
};
use vx_schemes_common::{dictionary_tree, excluded, pair_of, two_parts};

// A trial on a sample, by statistics with an estimate. Skip where there is no value, or where the estimate of the distinct
// values is above half of the values: such a column is never hashed whole.
fn estimate_by(stats: &StringStats) -> CompressionEstimate
    ensures { IfSome stats.now.estimated_distinct_count (λ keys. result ≡ tried_or_skipped stats.now.value_count keys) }
{
    match stats.estimated_distinct_count() {
        Some(keys) if stats.value_count() > 0 && keys <= stats.value_count() / 2 => {
            CompressionEstimate::Deferred(DeferredEstimate::Sample)
        }
        _ => CompressionEstimate::Verdict(EstimateVerdict::Skip),
    }
}

/// The estimate of a column, from its statistics.
pub(crate) fn estimated(
    column: &mut ArrayAndStats,
    ctx: &mut ExecutionCtx,
) -> VortexResult<CompressionEstimate>
    requires bytes { IsTrue (is_bytes (tree_type column.old.array)) }
    requires few { length (rows column.old.array) ≤ most_rows }
    requires options { column.old.options.count_distinct_values ≡ true }
    ensures answer { Answers result (dictionary_estimate (column_of column.old.array)) }
    ensures column { SameArray column.old column.new }
    ensures ctx { ctx.new ≡ ctx.old }
{
    let stats = column.varbinview_stats(ctx)?;
    Ok(estimate_by(stats))
}

/// The distinct values as part 0 and the codes as part 1; a column without a value stays as it is.
pub(crate) fn split_by(alloc: Global, array: &ArrayRef) -> VortexResult<Split>
    requires plain { IsPlain array.now }
    requires bytes { IsTrue (is_bytes (tree_type array.now)) }
    requires few { length (rows array.now) ≤ most_rows }
    ensures { Answers result (split_of (dictionary_parts (column_of array.now))) }
{
    if value_count(array) == 0 {
        return Ok(Split::Kept);
    }
    let (values, codes) = values_and_codes(alloc, array)?;
    two_parts(alloc, values, codes)
}

/// The Dict over the trees of the parts; the column stays plain unless there are two.
pub(crate) fn joined_by(alloc: Global, array: &ArrayRef, trees: Arrays) -> VortexResult<ArrayRef>
    requires plain { IsPlain array.now }
    requires bytes { IsTrue (is_bytes (tree_type array.now)) }
    requires few { length (rows array.now) ≤ most_rows }
    requires trees { FitParts (dictionary_parts (column_of array.now)) trees }
    ensures { Answers result (dictionary_or_plain (column_of array.now) (pair_of trees)) }
{
    match pair_of(trees) {
        Some((values, codes)) => dictionary_tree(alloc, codes, values),
        None => array.copy(alloc),
    }
}

/// No dictionary below the codes, child 1: they are dense numbers from 0 on, which are narrowed already.
pub(crate) fn no_codes_of_codes(alloc: Global) -> VortexResult<DescendantRules>
    ensures { OrMemory result (λ rules. descendants_of rules ≡ no_codes_of_codes) }
{
    let rules = vec![in alloc; excluded("vortex.int.dict", ChildSelection::One(1))]?;
    Ok(DescendantRules::from_vec(rules))
}
