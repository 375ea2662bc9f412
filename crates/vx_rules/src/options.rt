//! The options of row functions.

ghost use Rattle.std.specs.Prelude.{◌≡◌};
ghost use Rattle.vx_rules.specs.Comparisons.{bound_operator, holds};

use std::cmp::Ordering;

/// How two values are compared.
#[derive(Clone, Copy, Debug, PartialEq, Eq)]
pub enum CompareOperator {
    Eq,
    NotEq,
    Gt,
    Gte,
    Lt,
    Lte,
}

impl CompareOperator {
    /// Whether the operator holds of two values, by how they are ordered.
    pub fn holds(self, ordering: Ordering) -> bool
        ensures { result ≡ holds self ordering }
    {
        match self {
            CompareOperator::Eq => ordering.is_eq(),
            CompareOperator::NotEq => ordering.is_ne(),
            CompareOperator::Gt => ordering.is_gt(),
            CompareOperator::Gte => ordering.is_ge(),
            CompareOperator::Lt => ordering.is_lt(),
            CompareOperator::Lte => ordering.is_le(),
        }
    }
}

/// Which bounds of a range are strict: a value equal to a strict bound lies outside.
#[derive(Clone, Copy, Debug, PartialEq, Eq)]
pub struct BetweenOptions {
    pub lower_strict: bool,
    pub upper_strict: bool,
}

impl BetweenOptions {
    /// The operator between the lower bound and a value above it.
    pub fn lower_operator(self) -> CompareOperator
        ensures { result ≡ bound_operator self.lower_strict }
    {
        if self.lower_strict {
            CompareOperator::Lt
        } else {
            CompareOperator::Lte
        }
    }

    /// The operator between a value and the upper bound above it.
    pub fn upper_operator(self) -> CompareOperator
        ensures { result ≡ bound_operator self.upper_strict }
    {
        if self.upper_strict {
            CompareOperator::Lt
        } else {
            CompareOperator::Lte
        }
    }
}

/// Whether a match is negated, as in `NOT LIKE`.
#[derive(Clone, Copy, Debug, PartialEq, Eq)]
pub struct LikeOptions {
    pub negated: bool,
}
