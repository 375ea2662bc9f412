//! The dictionary scheme of integers.

ghost use Rattle.std.specs.Prelude.{◌≡◌, ◌<◌, ◌≤◌, ◌^◌, true, IsTrue, IfSome, None, option_map, [], ◌∷◌, length};
ghost use Rattle.vx_values.specs.IntsOf.{ptype_of, wholes_of};
ghost use Rattle.vx_base.specs.Answers.{Answers, OrMemory};
ghost use Rattle.vx_base.specs.PlainType.{is_integer, integer_of};
ghost use Rattle.vx_model.specs.Column.{column_of};
ghost use Rattle.vx_model.specs.Plain.{IsPlain, plain};
ghost use Rattle.vx_model.specs.Rows.{rows};
ghost use Rattle.vx_model.specs.TreeType.{tree_type};
ghost use Rattle.vx_scheme.specs.Asked.{most_rows};
ghost use Rattle.vx_scheme.specs.Bundle.{SameArray};
ghost use Rattle.vx_stats.specs.Stats.{distinct_values};
ghost use Rattle.vx_scheme.specs.declared.split.Split.TheVariants.{Parts};
ghost use Rattle.vx_schemes.specs.Dictionary.Tree.{dictionary_values, dictionary_codes};
ghost use Rattle.vx_schemes.specs.Dictionary.Meaning.{values_found};

mod codes;
mod distinct_ints;
mod encoding;
mod ratio;
mod recent_codes;
mod tree;

use distinct_ints::distinct_ints;
pub use encoding::integer_dictionary_encode;
use ratio::verdict_by;
use std::alloc::Global;
use std::sync::ledger::Ledger;
use tree::values_and_codes;
use vx_array::{ArrayRef, Arrays};
use vx_base::{ArrayId, DType, ExecutionCtx, Fraction, IdSet, Steps, VortexResult};
use vx_scheme::{
    AllowedIds, AncestorRules, ArrayAndStats, CompressionEstimate, CompressorContext,
    DescendantRules, EstimateVerdict, GenerateStatsOptions, Scheme, Split,
};
use vx_schemes_common::{dictionary_tree, pair_of, two_parts};
use vx_values::Ints;

/// Dictionary, `vortex.int.dict`: each row as the code of its value, its place among the distinct values. Skips a column
/// without a value, or with more distinct values than half of its v values. The ratio of any other is
/// `v * bits / (distinct * bits + min(w * v, (w + 32) * (v / average run length)))`, where w is digits(distinct). Child 0:
/// the distinct values, ascending; child 1: the codes, null where the row is.
#[derive(Clone, Copy, Debug, PartialEq, Eq)]
pub struct IntDictScheme;

// The distinct values of a column, ascending. None where there is no value.
fn distinct_of(column: &mut ArrayAndStats, ctx: &mut ExecutionCtx) -> VortexResult<Option<Ints>>
    requires integer { IsTrue (is_integer (tree_type column.old.array)) }
    requires some { 0 < length (rows column.old.array) }
    requires few { length (rows column.old.array) ≤ most_rows }
    requires options { column.old.options.count_distinct_values ≡ true }
    ensures values { OrMemory result (λ found. option_map wholes_of found ≡ values_found (rows column.old.array)) }
    ensures ptype { OrMemory result (λ found. IfSome found (λ ints. ptype_of ints ≡ integer_of (tree_type column.old.array))) }
    ensures few { OrMemory result (λ found. IfSome found (λ ints. length (wholes_of ints) < 2 ^ 32)) }
    ensures column { SameArray column.old column.new }
    ensures ctx { ctx.new ≡ ctx.old }
{
    let alloc = ctx.alloc();
    let stats = column.integer_stats(ctx)?;
    if stats.value_count() == 0 {
        return Ok(None);
    }
    Ok(Some(distinct_ints(alloc, stats)?))
}

// The values as part 0 and the codes as part 1.
fn parts_by(alloc: Global, array: &ArrayRef, values: Ints) -> VortexResult<Split>
    requires plain { IsPlain array.now }
    requires integer { IsTrue (is_integer (tree_type array.now)) }
    requires ptype { ptype_of values ≡ integer_of (tree_type array.now) }
    requires values { wholes_of values ≡ distinct_values (rows array.now) }
    requires few { length (wholes_of values) < 2 ^ 32 }
    ensures { Answers result (Parts (plain (dictionary_values (column_of array.now)) ∷ plain (dictionary_codes (column_of array.now)) ∷ [])) }
{
    let (values, codes) = values_and_codes(alloc, array, values)?;
    two_parts(alloc, values, codes)
}

impl Scheme for IntDictScheme {
    ghost use Rattle.std.specs.Prelude.{refl};
    ghost use Rattle.vx_schemes.specs.Dictionary.Meaning.{int_dict_meaning, int_dict_lawful};

    ghost meaning = { int_dict_meaning };

    ghost refined = { λ s allowed. s };

    ghost lawful = { int_dict_lawful };

    ghost keeps_name = { λ s allowed. refl };

    fn scheme_name(&self) -> &'static str {
        "vortex.int.dict"
    }

    fn matches(&self, dtype: &DType) -> bool {
        dtype.is_integer()
    }

    fn produced_encodings(&self) -> IdSet {
        IdSet::empty().with(ArrayId::Dict)
    }

    fn refine(&self, _allowed: &AllowedIds) -> Self {
        *self
    }

    fn stats_options(&self) -> GenerateStatsOptions {
        GenerateStatsOptions {
            count_distinct_values: true,
        }
    }

    // The values and the codes.
    fn num_children(&self) -> usize {
        2
    }

    fn descendant_exclusions(&self, alloc: Global) -> VortexResult<DescendantRules> {
        Ok(DescendantRules::new_in(alloc))
    }

    fn ancestor_exclusions(&self, alloc: Global) -> VortexResult<AncestorRules> {
        Ok(AncestorRules::new_in(alloc))
    }

    fn expected_compression_ratio(
        &self,
        column: &mut ArrayAndStats,
        _site: &CompressorContext,
        ctx: &mut ExecutionCtx,
    ) -> VortexResult<CompressionEstimate> {
        let dtype = column.array().dtype();
        if !dtype.is_integer() {
            return Ok(CompressionEstimate::Verdict(EstimateVerdict::Skip));
        }
        let bits = dtype.ptype().bit_width();
        // A lower bound on the distinct count skips most columns of nearly distinct values, before all are counted.
        if column.is_mostly_distinct(ctx)? {
            return Ok(CompressionEstimate::Verdict(EstimateVerdict::Skip));
        }
        let stats = column.integer_stats(ctx)?;
        Ok(CompressionEstimate::Verdict(verdict_by(stats, bits)))
    }

    // Not reached: no estimate of this scheme is `Callback`.
    fn resolve_estimate(
        &self,
        _column: &mut ArrayAndStats,
        _threshold: Option<Fraction>,
        _site: &CompressorContext,
        _ctx: &mut ExecutionCtx,
    ) -> VortexResult<EstimateVerdict> {
        Ok(EstimateVerdict::Skip)
    }

    fn split<L: Ledger>(
        &self,
        column: &mut ArrayAndStats,
        _site: &CompressorContext,
        ctx: &mut ExecutionCtx,
        steps: &mut Steps<L>,
    ) -> VortexResult<Split> {
        steps.tick();
        if !self.matches(column.array().dtype()) {
            return Ok(Split::Kept);
        }
        match distinct_of(column, ctx)? {
            Some(values) => parts_by(ctx.alloc(), column.array(), values),
            None => Ok(Split::Kept),
        }
    }

    fn join(
        &self,
        column: &mut ArrayAndStats,
        _site: &CompressorContext,
        trees: Arrays,
        ctx: &mut ExecutionCtx,
    ) -> VortexResult<ArrayRef> {
        let array = column.array();
        array.known();
        if !self.matches(array.dtype()) {
            return array.copy(ctx.alloc());
        }
        match pair_of(trees) {
            Some((values, codes)) => dictionary_tree(ctx.alloc(), codes, values),
            None => array.copy(ctx.alloc()),
        }
    }
}
