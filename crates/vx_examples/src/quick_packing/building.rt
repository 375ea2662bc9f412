//! The compressor over the shipped schemes and quick packing.

ghost use Rattle.std.specs.Prelude.{◌≡◌, map};
ghost use Rattle.vx_base.specs.Answers.{OrMemory};
ghost use Rattle.vx_btrblocks.specs.AnyMeaning.{any_meaning};
ghost use Rattle.vx_examples.specs.QuickPacking.{quick_packing, with_quick_packing};

use super::QuickPacking;
use std::alloc::Global;
use vx_base::VortexResult;
use vx_btrblocks::{AnyScheme, BtrBlocksCompressor, shipped_schemes};
use vx_compressor::{CascadingCompressor, Schemes};

// Quick packing behind the shipped schemes.
fn schemes(alloc: Global) -> VortexResult<Schemes<AnyScheme<QuickPacking>>>
    ensures { OrMemory result (λ schemes. map (any_meaning (λ scheme. quick_packing)) schemes ≡ with_quick_packing) }
{
    let mut schemes = shipped_schemes(alloc)?;
    schemes.push(AnyScheme::Own(QuickPacking::new()))?;
    Ok(Schemes::from_vec(schemes))
}

/// The compressor over the shipped schemes, with quick packing behind them. Refuses NoMemory alone.
pub fn compressor(alloc: Global) -> VortexResult<BtrBlocksCompressor<QuickPacking>>
    ensures { OrMemory result (λ compressor. map (any_meaning (λ scheme. quick_packing)) compressor.0 ≡ with_quick_packing) }
{
    match CascadingCompressor::new(alloc, schemes(alloc)?) {
        Ok(compressor) => Ok(BtrBlocksCompressor(compressor)),
        Err(refused) => Err(refused.error),
    }
}
