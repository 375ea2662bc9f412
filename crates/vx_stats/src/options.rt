//! Which statistics a scheme requests beyond those that are always computed.

ghost use Rattle.std.specs.Prelude.{◌≡◌, true};
ghost use Rattle.vx_stats.specs.Options.{merge_of, includes};

/// Which statistics are requested. The default leaves out the distinct values, which cost most.
#[derive(Clone, Copy, Debug)]
pub struct GenerateStatsOptions {
    /// Whether the distinct values are counted.
    pub count_distinct_values: bool,
}

impl Default for GenerateStatsOptions {
    ghost use Rattle.std.specs.Prelude.{◌≡◌, false};

    ghost is_default = { λ options. options.count_distinct_values ≡ false };

    fn default() -> GenerateStatsOptions {
        GenerateStatsOptions {
            count_distinct_values: false,
        }
    }
}

impl GenerateStatsOptions {
    /// The union: what either requests.
    pub fn merge(self, other: GenerateStatsOptions) -> GenerateStatsOptions
        ensures { result ≡ merge_of self other }
    {
        GenerateStatsOptions {
            count_distinct_values: self.count_distinct_values || other.count_distinct_values,
        }
    }
}

/// Does nothing; its contract states the laws of `merge`: it is associative, commutative and idempotent, and the union
/// includes what was merged.
pub fn laws_of_merge()
    ensures associative { (a b c : GenerateStatsOptions) → merge_of a (merge_of b c) ≡ merge_of (merge_of a b) c }
    ensures commutative { (a b : GenerateStatsOptions) → merge_of a b ≡ merge_of b a }
    ensures idempotent { (a : GenerateStatsOptions) → merge_of a a ≡ a }
    ensures includes { (a b : GenerateStatsOptions) → includes (merge_of a b) a ≡ true }
{}
