//! The statistics of arrays of truth values, texts and binaries, as an array keeps them.

ghost use Rattle.std.specs.Prelude.{◌≡◌, IsTrue, is_ok, IsOkUnless};
ghost use Rattle.std.specs.Borrow.{sem};
ghost use Rattle.vx_base.specs.Answers.{Decided, SurelyDecided};
ghost use Rattle.vx_base.specs.PlainType.{is_bytes};
ghost use Rattle.vx_base.specs.declared.error.VortexError.TheVariants.{TooManyRows};
ghost use Rattle.vx_model.specs.Rows.{rows};
ghost use Rattle.vx_model.specs.TreeType.{tree_type};
ghost use Rattle.vx_scheme.specs.Bundle.{KeptOrDecided};
ghost use Rattle.vx_stats.specs.Bools.{is_bool, bools_of};
ghost use Rattle.vx_stats.specs.Stats.{stats_refusal};
ghost use Rattle.vx_stats.specs.Strings.{strings_of};

use super::ArrayAndStats;
use std::alloc::Global;
use vx_base::{ExecutionCtx, VortexError, VortexResult};
use vx_stats::{BoolStats, StringStats};

impl ArrayAndStats {
    ghost use Rattle.vx_scheme.specs.Keeping.{LendsBools, LendsStrings};

    // The statistics of an array of truth values.
    fn counted_bools(&self) -> VortexResult<BoolStats>
        requires { IsTrue (is_bool (tree_type self.now.array)) }
        ensures answer { SurelyDecided (stats_refusal (rows self.now.array)) (λ stats. stats ≡ bools_of (rows self.now.array)) result }
        ensures surely { IsOkUnless result TooManyRows }
    {
        if self.array.len() > u64::from(u32::MAX) {
            return Err(VortexError::TooManyRows);
        }
        Ok(BoolStats::of_plain(&self.array))
    }

    // The statistics of an array of texts or binaries with what the options request.
    fn counted_strings(&self, alloc: Global) -> VortexResult<StringStats>
        requires { IsTrue (is_bytes (tree_type self.now.array)) }
        ensures { Decided (stats_refusal (rows self.now.array)) (λ stats. stats ≡ strings_of self.now.options (rows self.now.array)) result }
    {
        if self.array.len() > u64::from(u32::MAX) {
            return Err(VortexError::TooManyRows);
        }
        StringStats::of_plain(alloc, &self.array, self.opts)
    }

    /// The statistics of an array of truth values, kept from now on. It takes no memory. Where they aren't kept yet, refuses
    /// TooManyRows exactly above 2^32 - 1 rows. The context stays as it was.
    pub fn bool_stats(&mut self, _ctx: &mut ExecutionCtx) -> VortexResult<&BoolStats>
        requires { IsTrue (is_bool (tree_type self.old.array)) }
        ensures* kept { sem 𝓛 (LendsBools self.entry (is_ok result)) }
        ensures answer { KeptOrDecided self.old.bools_kept (stats_refusal (rows self.old.array)) (λ stats. stats.now ≡ bools_of (rows self.old.array)) result }
        ensures surely { IsOkUnless result TooManyRows }
        ensures ctx { _ctx.new ≡ _ctx.old }
    {
        if self.bools.is_none() {
            self.bools = Some(self.counted_bools()?);
        }
        match &self.bools {
            Some(stats) => Ok(stats),
            None => unreachable!(),
        }
    }

    /// The statistics of an array of texts or binaries with what the options request, kept from now on. Where they aren't kept
    /// yet, refuses TooManyRows exactly above 2^32 - 1 rows, and NoMemory. The context stays as it was.
    pub fn varbinview_stats(&mut self, ctx: &mut ExecutionCtx) -> VortexResult<&StringStats>
        requires { IsTrue (is_bytes (tree_type self.old.array)) }
        ensures* kept { sem 𝓛 (LendsStrings self.entry (is_ok result)) }
        ensures answer { KeptOrDecided self.old.strings_kept (stats_refusal (rows self.old.array)) (λ stats. stats.now ≡ strings_of self.old.options (rows self.old.array)) result }
        ensures ctx { ctx.new ≡ ctx.old }
    {
        if self.strings.is_none() {
            self.strings = Some(self.counted_strings(ctx.alloc())?);
        }
        match &self.strings {
            Some(stats) => Ok(stats),
            None => unreachable!(),
        }
    }
}
