//! The compressor over joined texts and the shipped schemes.

ghost use Rattle.std.specs.Prelude.{◌≡◌, map};
ghost use Rattle.vx_base.specs.Answers.{OrMemory};
ghost use Rattle.vx_btrblocks.specs.AnyMeaning.{any_meaning};
ghost use Rattle.vx_examples.specs.JoinedTexts.{joined_texts, with_joined_texts};

use super::JoinedTexts;
use std::alloc::Global;
use vx_base::VortexResult;
use vx_btrblocks::{AnyScheme, BtrBlocksCompressor, shipped_schemes};
use vx_compressor::{CascadingCompressor, Schemes};

// Joined texts in front of the shipped schemes.
fn schemes(alloc: Global) -> VortexResult<Schemes<AnyScheme<JoinedTexts>>>
    ensures { OrMemory result (λ schemes. map (any_meaning (λ scheme. joined_texts)) schemes ≡ with_joined_texts) }
{
    let mut schemes = shipped_schemes(alloc)?;
    schemes.insert(0, AnyScheme::Own(JoinedTexts))?;
    Ok(Schemes::from_vec(schemes))
}

/// The compressor over the shipped schemes, with joined texts in front of them. Refuses NoMemory alone.
pub fn compressor_with_texts(alloc: Global) -> VortexResult<BtrBlocksCompressor<JoinedTexts>>
    ensures { OrMemory result (λ compressor. map (any_meaning (λ scheme. joined_texts)) compressor.0 ≡ with_joined_texts) }
{
    match CascadingCompressor::new(alloc, schemes(alloc)?) {
        Ok(compressor) => Ok(BtrBlocksCompressor(compressor)),
        Err(refused) => Err(refused.error),
    }
}
