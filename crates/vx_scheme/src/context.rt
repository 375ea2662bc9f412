//! Where in the cascade a column stands.

ghost use Rattle.std.specs.Prelude.{◌≤◌, ◌+◌};
ghost use Rattle.vx_model.specs.Site.{max_cascade};

use crate::MAX_CASCADE;
use crate::scheme_id::SchemeId;
use vx_stats::GenerateStatsOptions;

/// A site of the cascade: the budget of schemes that may still follow, whether the column is a sample, and the history,
/// which is the schemes above, outermost first, each with the number of its child on the way down. With it go the
/// statistics that the schemes of the site request together. It is small and copied; no call takes memory.
#[derive(Clone, Copy, Debug)]
pub struct CompressorContext {
    budget: usize,
    sampled: bool,
    // The history is the first `depth` entries; the others are padding.
    history: [(SchemeId, usize); MAX_CASCADE],
    depth: usize,
    options: GenerateStatsOptions,
    ghost room: { depth + budget ≤ max_cascade },
}

impl CompressorContext {
    ghost use Rattle.std.specs.Prelude.{◌≡◌, ◌==◌, ◌<◌, ◌≤◌, ◌+◌, false, length};
    ghost use Rattle.vx_model.specs.Site.{fresh, down, max_cascade};
    ghost use Rattle.vx_scheme.specs.Contexts.{site_of, options_of, entries_of, leaf_site, sample_site};
    ghost use Rattle.vx_scheme.specs.Names.{name_of};

    /// The fresh site: the whole budget, no sample, an empty history, no options.
    pub fn new() -> CompressorContext
        ensures site { site_of result ≡ fresh }
        ensures options { (options_of result).count_distinct_values ≡ false }
    {
        CompressorContext {
            budget: MAX_CASCADE,
            sampled: false,
            history: [(SchemeId::of(""), 0); MAX_CASCADE],
            depth: 0,
            options: GenerateStatsOptions::default(),
        }
    }

    /// Whether the column is a sample.
    pub fn is_sample(&self) -> bool
        ensures { result ≡ (site_of self.now).sampled }
    {
        self.sampled
    }

    /// The statistics that the schemes of the site request together.
    pub fn merged_stats_options(&self) -> GenerateStatsOptions
        ensures { result ≡ options_of self.now }
    {
        self.options
    }

    /// The history: the schemes above, outermost first, each with the number of its child on the way down.
    pub fn cascade_history(&self) -> &[(SchemeId, usize)]
        ensures history { entries_of result.now ≡ (site_of self.now).history }
        ensures within { length result.now + (site_of self.now).budget ≤ max_cascade }
    {
        &self.history[..self.depth]
    }

    /// Whether the budget is 0, so that no scheme may follow.
    pub fn finished_cascading(&self) -> bool
        ensures { result ≡ ((site_of self.now).budget == 0) }
    {
        self.budget == 0
    }

    /// How many schemes may still stand one below another below the one chosen here; at most `MAX_CASCADE`.
    pub fn budget(&self) -> usize
        ensures budget { result ≡ (site_of self.now).budget }
        ensures within { result ≤ max_cascade }
    {
        self.budget
    }

    /// This site with budget 0.
    pub fn as_leaf(mut self) -> CompressorContext
        ensures site { site_of result ≡ leaf_site (site_of self) }
        ensures options { options_of result ≡ options_of self }
    {
        self.budget = 0;
        self
    }

    /// This site for a sample of its column.
    pub fn with_sampling(mut self) -> CompressorContext
        ensures site { site_of result ≡ sample_site (site_of self) }
        ensures options { options_of result ≡ options_of self }
    {
        self.sampled = true;
        self
    }

    /// This site with other options.
    pub fn with_merged_stats_options(mut self, opts: GenerateStatsOptions) -> CompressorContext
        ensures site { site_of result ≡ site_of self }
        ensures options { options_of result ≡ opts }
    {
        self.options = opts;
        self
    }

    /// The site of a scheme's child: the budget is one less, and the history ends with the scheme and the child's number.
    pub fn descend(mut self, id: SchemeId, child_index: usize) -> CompressorContext
        requires { 0 < (site_of self).budget }
        ensures site { site_of result ≡ down (site_of self) (name_of id) child_index }
        ensures options { options_of result ≡ options_of self }
    {
        self.history[self.depth] = (id, child_index);
        self.depth += 1;
        self.budget -= 1;
        self
    }
}
