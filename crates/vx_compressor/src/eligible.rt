//! The eligible schemes of a site, and the statistics that they need.

ghost use Rattle.std.specs.Prelude.{◌≡◌, true, All, map};
ghost use Rattle.std.specs.List.{list_any};
ghost use Rattle.vx_base.specs.Answers.{OrMemory};
ghost use Rattle.vx_base.specs.TypeOf.{type_of};
ghost use Rattle.vx_scheme.specs.Contexts.{site_of};
ghost use Rattle.vx_stats.specs.Options.{includes};
ghost use Rattle.vx_compressor.specs.Cascade.{is_eligible, eligible};

use crate::compressor::{CascadingCompressor, Schemes};
use std::alloc::Global;
use vx_base::{DType, VortexResult};
use vx_scheme::{CompressorContext, GenerateStatsOptions, Scheme};

impl<S: Scheme> CascadingCompressor<S> {
    /// The schemes that match the type and aren't excluded at the site, in the order of the list.
    pub(crate) fn eligible(
        &self,
        alloc: Global,
        dtype: &DType,
        site: &CompressorContext,
    ) -> VortexResult<Schemes<S>>
        ensures { OrMemory result (λ schemes. map S.meaning schemes ≡ eligible (map S.meaning self.now) (type_of dtype.now) (site_of site.now).history) }
    {
        let mut found = Vec::new(alloc);
        let schemes = self.schemes().as_slice();
        for scheme in schemes {
            if self.is_eligible(scheme, dtype, site) {
                found.push(*scheme)?;
            }
        }
        Ok(Schemes::from_vec(found))
    }

    fn is_eligible(&self, scheme: &S, dtype: &DType, site: &CompressorContext) -> bool
        ensures { result ≡ is_eligible (map S.meaning self.now) (type_of dtype.now) (site_of site.now).history (S.meaning scheme.now) }
    {
        scheme.matches(dtype) && !self.is_excluded(scheme, site)
    }
}

/// The union of the schemes' statistics options, so that a column's statistics are counted once for all of them.
pub(crate) fn merged_options<S: Scheme>(schemes: &[S]) -> GenerateStatsOptions
    ensures all { All (λ s. includes result (S.meaning s).options ≡ true) schemes.now }
    ensures exact { result.count_distinct_values ≡ list_any (λ s. (S.meaning s).options.count_distinct_values) schemes.now }
{
    let mut options = GenerateStatsOptions::default();
    for scheme in schemes {
        options = options.merge(scheme.stats_options());
    }
    options
}
