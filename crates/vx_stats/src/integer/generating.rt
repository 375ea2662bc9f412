//! How the statistics of a column of integers are made: a summary in one pass, then the distinct values where they are
//! requested.

ghost use Rattle.std.specs.Prelude.{◌≡◌, ◌<◌, ◌/◌, ◌^◌, length, map, true, IsTrue};
ghost use Rattle.vx_base.specs.Answers.{Decided, Answers, OrMemory};
ghost use Rattle.vx_base.specs.PlainType.{is_integer, integer_of};
ghost use Rattle.vx_base.specs.PlainValue.{int};
ghost use Rattle.vx_model.specs.Plain.{IsPlain};
ghost use Rattle.vx_model.specs.Refusals.{validity_length};
ghost use Rattle.vx_model.specs.Rows.{rows, valid_rows};
ghost use Rattle.vx_model.specs.TreeType.{tree_type};
ghost use Rattle.vx_values.specs.IntsOf.{ptype_of, wholes_of};
ghost use Rattle.vx_stats.specs.Options.{no_options};
ghost use Rattle.vx_stats.specs.Stats.{stats_of, stats_refusal, value_count, distinct_count};

use super::IntegerStats;
use super::by_type::{completed, distinct_lower_bound_of, rising_runs_of, summary_of};
use crate::options::GenerateStatsOptions;
use std::alloc::Global;
use vx_array::{ArrayRef, Node};
use vx_base::{ExecutionCtx, Mask, VortexError, VortexResult};
use vx_values::Ints;

impl IntegerStats {
    /// The statistics of a tree of integers without its distinct values. Refuses as `generate_opts` does.
    pub fn generate(input: &ArrayRef, ctx: &mut ExecutionCtx) -> VortexResult<IntegerStats>
        requires { IsTrue (is_integer (tree_type input.now)) }
        ensures answer { Decided (stats_refusal (rows input.now)) (λ stats. stats ≡ stats_of no_options (integer_of (tree_type input.now)) (rows input.now)) result }
        ensures ctx { ctx.new ≡ ctx.old }
    {
        let opts = GenerateStatsOptions {
            count_distinct_values: false,
        };
        IntegerStats::generate_opts(input, opts, ctx)
    }

    /// The statistics of a tree of integers, with its distinct values where they are requested and it has a row. A tree
    /// whose root isn't a Primitive is decoded first. Refuses TooManyRows exactly above 2^32 - 1 rows, before decoding, and
    /// NoMemory. The context stays as it was.
    pub fn generate_opts(
        input: &ArrayRef,
        opts: GenerateStatsOptions,
        ctx: &mut ExecutionCtx,
    ) -> VortexResult<IntegerStats>
        requires { IsTrue (is_integer (tree_type input.now)) }
        ensures answer { Decided (stats_refusal (rows input.now)) (λ stats. stats ≡ stats_of opts (integer_of (tree_type input.now)) (rows input.now)) result }
        ensures ctx { ctx.new ≡ ctx.old }
    {
        if input.len() > u64::from(u32::MAX) {
            return Err(VortexError::TooManyRows);
        }
        match input.node() {
            Node::Primitive(values, valid, _) => stats_of_ints(ctx.alloc(), values, valid, opts),
            _ => stats_of_plain(ctx.alloc(), &input.canonical(ctx.alloc())?, opts),
        }
    }

    /// The summary of plain integers: their statistics without distinct values, in one pass that takes no memory.
    #[tactic(auto, using(vx_model::proofs::PrimitiveLemmas::plain_roots))]
    pub fn summary_of(plain: &ArrayRef) -> IntegerStats
        requires plain { IsPlain plain.now }
        requires integer { IsTrue (is_integer (tree_type plain.now)) }
        requires few { length (rows plain.now) < 2 ^ 32 }
        ensures { result ≡ stats_of no_options (integer_of (tree_type plain.now)) (rows plain.now) }
    {
        let (values, valid, _) = plain.as_primitive();
        summary_of_ints(values, valid)
    }

    /// The summary of plain integers, with the distinct values added where they are requested.
    #[tactic(auto, using(vx_model::proofs::PrimitiveLemmas::plain_roots))]
    pub fn completed(
        &self,
        alloc: Global,
        plain: &ArrayRef,
        opts: GenerateStatsOptions,
    ) -> VortexResult<IntegerStats>
        requires plain { IsPlain plain.now }
        requires integer { IsTrue (is_integer (tree_type plain.now)) }
        requires few { length (rows plain.now) < 2 ^ 32 }
        requires summary { self.now ≡ stats_of no_options (integer_of (tree_type plain.now)) (rows plain.now) }
        ensures { Answers result (stats_of opts (integer_of (tree_type plain.now)) (rows plain.now)) }
    {
        let (values, valid, _) = plain.as_primitive();
        self.completed_of_ints(alloc, values, valid, opts)
    }

    fn completed_of_ints(
        &self,
        alloc: Global,
        values: &Ints,
        valid: &Option<Mask>,
        opts: GenerateStatsOptions,
    ) -> VortexResult<IntegerStats>
        requires mask { validity_length valid.now (length (wholes_of values.now)) ≡ true }
        requires few { length (wholes_of values.now) < 2 ^ 32 }
        requires summary { self.now ≡ stats_of no_options (ptype_of values.now) (valid_rows valid.now (map int (wholes_of values.now))) }
        ensures { Answers result (stats_of opts (ptype_of values.now) (valid_rows valid.now (map int (wholes_of values.now)))) }
    {
        let run_length = self.counts.average_run_length;
        let erased = completed(alloc, &self.erased, values, valid, opts, run_length)?;
        Ok(IntegerStats::new(self.counts, erased))
    }

    /// A test by their summary, without counting or sorting, that more than half of the values of plain integers are
    /// distinct. True is exact; false says nothing.
    #[tactic(auto, using(vx_model::proofs::PrimitiveLemmas::plain_roots))]
    pub fn shows_mostly_distinct(&self, alloc: Global, plain: &ArrayRef) -> VortexResult<bool>
        requires plain { IsPlain plain.now }
        requires integer { IsTrue (is_integer (tree_type plain.now)) }
        requires few { length (rows plain.now) < 2 ^ 32 }
        requires summary { self.now ≡ stats_of no_options (integer_of (tree_type plain.now)) (rows plain.now) }
        ensures { OrMemory result (λ shown. shown ≡ true → value_count (rows plain.now) / 2 < distinct_count (rows plain.now)) }
    {
        if self.value_count() == 0 {
            return Ok(false);
        }
        let (values, valid, _) = plain.as_primitive();
        if let Some(distinct) = rising_runs_of(values, valid) {
            return Ok(distinct > self.value_count() / 2);
        }
        // In a narrow range a table counts all of them, and as fast.
        if self.erased().max_minus_min() < plain.len() {
            return Ok(false);
        }
        let half = (self.value_count() / 2) as usize;
        let lower_bound = distinct_lower_bound_of(alloc, values, valid, half)?;
        Ok(lower_bound > half)
    }
}

// The statistics of the valid rows, without distinct values.
fn summary_of_ints(values: &Ints, valid: &Option<Mask>) -> IntegerStats
    requires mask { validity_length valid.now (length (wholes_of values.now)) ≡ true }
    requires few { length (wholes_of values.now) < 2 ^ 32 }
    ensures { result ≡ stats_of no_options (ptype_of values.now) (valid_rows valid.now (map int (wholes_of values.now))) }
{
    let (counts, erased) = summary_of(values, valid);
    IntegerStats::new(counts, erased)
}

// The statistics of the valid rows.
fn stats_of_ints(
    alloc: Global,
    values: &Ints,
    valid: &Option<Mask>,
    opts: GenerateStatsOptions,
) -> VortexResult<IntegerStats>
    requires mask { validity_length valid.now (length (wholes_of values.now)) ≡ true }
    requires few { length (wholes_of values.now) < 2 ^ 32 }
    ensures { Answers result (stats_of opts (ptype_of values.now) (valid_rows valid.now (map int (wholes_of values.now)))) }
{
    summary_of_ints(values, valid).completed_of_ints(alloc, values, valid, opts)
}

fn stats_of_plain(
    alloc: Global,
    plain: &ArrayRef,
    opts: GenerateStatsOptions,
) -> VortexResult<IntegerStats>
    requires plain { IsPlain plain.now }
    requires integer { IsTrue (is_integer (tree_type plain.now)) }
    requires few { length (rows plain.now) < 2 ^ 32 }
    ensures { Answers result (stats_of opts (integer_of (tree_type plain.now)) (rows plain.now)) }
{
    IntegerStats::summary_of(plain).completed(alloc, plain, opts)
}
