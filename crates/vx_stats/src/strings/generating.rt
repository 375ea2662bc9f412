//! How the statistics of a column of texts or binaries are made.

ghost use Rattle.std.specs.Prelude.{◌≡◌, ◌<◌, ◌^◌, min, length, map, true, IsTrue, Some, None, if◌then◌else◌};
ghost use Rattle.std.specs.List.{list_all};
ghost use Rattle.vx_base.specs.Answers.{Answers, Decided};
ghost use Rattle.vx_base.specs.PlainType.{is_bytes};
ghost use Rattle.vx_base.specs.PlainValue.{bytes, is_short};
ghost use Rattle.vx_model.specs.Plain.{IsPlain};
ghost use Rattle.vx_model.specs.Refusals.{validity_length};
ghost use Rattle.vx_model.specs.Rows.{rows, valid_rows};
ghost use Rattle.vx_model.specs.Tree.{constant};
ghost use Rattle.vx_model.specs.TreeType.{tree_type};
ghost use Rattle.vx_stats.specs.Options.{no_options};
ghost use Rattle.vx_stats.specs.Stats.{stats_refusal};
ghost use Rattle.vx_stats.specs.Strings.{estimate, strings_of};

use super::StringStats;
use super::counting::distinct_keys;
use crate::options::GenerateStatsOptions;
use crate::row_counts::{copies_with, counts_of_rows};
use std::alloc::Global;
use vx_array::{ArrayRef, Node};
use vx_base::{ByteRows, ExecutionCtx, Mask, Scalar, VortexError, VortexResult};

impl StringStats {
    /// The statistics of a tree of texts or binaries without the estimate. Refuses as `generate_opts` does.
    pub fn generate(input: &ArrayRef, ctx: &mut ExecutionCtx) -> VortexResult<StringStats>
        requires { IsTrue (is_bytes (tree_type input.now)) }
        ensures answer { Decided (stats_refusal (rows input.now)) (λ stats. stats ≡ strings_of no_options (rows input.now)) result }
        ensures ctx { ctx.new ≡ ctx.old }
    {
        let opts = GenerateStatsOptions {
            count_distinct_values: false,
        };
        StringStats::generate_opts(input, opts, ctx)
    }

    /// The statistics of a tree of texts or binaries, with the estimate where it is requested. A VarBinView and a Constant are
    /// read as they stand; any other tree is decoded first. Refuses TooManyRows exactly above 2^32 - 1 rows, before decoding, and
    /// NoMemory. The context stays as it was.
    pub fn generate_opts(
        input: &ArrayRef,
        opts: GenerateStatsOptions,
        ctx: &mut ExecutionCtx,
    ) -> VortexResult<StringStats>
        requires { IsTrue (is_bytes (tree_type input.now)) }
        ensures answer { Decided (stats_refusal (rows input.now)) (λ stats. stats ≡ strings_of opts (rows input.now)) result }
        ensures ctx { ctx.new ≡ ctx.old }
    {
        if input.len() > u64::from(u32::MAX) {
            return Err(VortexError::TooManyRows);
        }
        match input.node() {
            Node::VarBinView(values, valid, _) => stats_of_rows(ctx.alloc(), values, valid, opts),
            Node::Constant(value, len) => Ok(stats_of_copies(value, *len, opts)),
            _ => StringStats::of_plain(ctx.alloc(), &input.canonical(ctx.alloc())?, opts),
        }
    }

    /// The statistics of plain texts or binaries, with the estimate where it is requested.
    pub fn of_plain(
        alloc: Global,
        plain: &ArrayRef,
        opts: GenerateStatsOptions,
    ) -> VortexResult<StringStats>
        requires plain { IsPlain plain.now }
        requires byte_type { IsTrue (is_bytes (tree_type plain.now)) }
        requires few { length (rows plain.now) < 2 ^ 32 }
        ensures { Answers result (strings_of opts (rows plain.now)) }
    {
        match plain.node() {
            Node::VarBinView(values, valid, _) => stats_of_rows(alloc, values, valid, opts),
            _ => unreachable!(),
        }
    }
}

// The estimate where it is requested.
fn estimate_of(
    alloc: Global,
    values: &ByteRows,
    valid: &Option<Mask>,
    opts: GenerateStatsOptions,
) -> VortexResult<Option<u32>>
    requires mask { validity_length valid.now (length values.now) ≡ true }
    requires few { length values.now < 2 ^ 32 }
    requires short { IsTrue (list_all is_short values.now) }
    ensures { Answers result (estimate opts (valid_rows valid.now (map bytes values.now))) }
{
    if !opts.count_distinct_values {
        return Ok(None);
    }
    Ok(Some(distinct_keys(alloc, values.as_slice(), valid)?))
}

// The statistics of rows with this validity.
fn stats_of_rows(
    alloc: Global,
    values: &ByteRows,
    valid: &Option<Mask>,
    opts: GenerateStatsOptions,
) -> VortexResult<StringStats>
    requires mask { validity_length valid.now (length values.now) ≡ true }
    requires few { length values.now < 2 ^ 32 }
    requires short { IsTrue (list_all is_short values.now) }
    ensures { Answers result (strings_of opts (valid_rows valid.now (map bytes values.now))) }
{
    let estimate = estimate_of(alloc, values, valid, opts)?;
    let counts = counts_of_rows(values.len() as u32, valid);
    Ok(StringStats::new(counts, estimate))
}

// The estimate of `len` times the same row, where it is requested: all of them have one key.
fn estimate_of_copies(len: u32, opts: GenerateStatsOptions) -> Option<u32>
    ensures { result ≡ (if opts.count_distinct_values then Some (min len 1) else None) }
{
    if opts.count_distinct_values {
        Some(len.min(1))
    } else {
        None
    }
}

// The statistics of `len` times the same row.
fn stats_of_copies(value: &Scalar, len: u64, opts: GenerateStatsOptions) -> StringStats
    requires { len < 2 ^ 32 }
    ensures { result ≡ strings_of opts (rows (constant value.now len)) }
{
    let len = len as u32;
    let null_count = copies_with(value.is_null(), len);
    StringStats::new(
        (null_count, len - null_count),
        estimate_of_copies(len, opts),
    )
}
