//! The laws of the row functions. Each function does nothing: its clause is the law.

ghost use Rattle.vx_rules.specs.Laws.{AnswersAreColumns, ExtremesAreBounds, MatchesAreCuts, SlicesCompose};

/// A slice of a slice is the slice by summed starts.
pub fn slices_compose()
    ensures { SlicesCompose }
{}

/// A text matches a pattern exactly where it can be cut into spans, one for each item of the pattern, that the items stand for.
pub fn matches_are_cuts()
    ensures { MatchesAreCuts }
{}

/// The least and the greatest of a column are two of its values, and each of its values lies between.
pub fn extremes_are_bounds()
    ensures { ExtremesAreBounds }
{}

/// What a row function answers of a column is a column: each of its values is of its type.
pub fn answers_are_columns()
    ensures { AnswersAreColumns }
{}
