//! The kernels of sparse arrays: each works on the patches and the fill, and decodes no column. One file a kernel or family; the
//! trait and its thin implementation stand here.

ghost use Rattle.std.specs.Prelude.{◌≡◌, ◌≤◌, ◌+◌, ◌-◌, ◌*◌, ◌^◌, IfOk, IsTrue, Ok, length};
ghost use Rattle.vx_base.specs.Answers.{Answers, Decided, SurelyDecided};
ghost use Rattle.vx_base.specs.PlainScalar.{PlainScalar};
ghost use Rattle.vx_base.specs.PlainType.{is_flat};
ghost use Rattle.vx_base.specs.TypeOf.{type_of};
ghost use Rattle.vx_model.specs.Column.{column_of};
ghost use Rattle.vx_model.specs.Rows.{rows};
ghost use Rattle.vx_model.specs.Tree.{PlainPatches, Tree, constant, sparse_of};
ghost use Rattle.vx_model.specs.TreeType.{tree_type};
ghost use Rattle.vx_rules.specs.Aggregates.{is_constant, min_max, min_max_refusal, null_count, sum, sum_refusal};
ghost use Rattle.vx_rules.specs.Comparisons.{between, between_refusal, compare_refusal, comparison, negation, not_refusal};
ghost use Rattle.vx_rules.specs.Conversions.{cast_refusal, casted, fill_null_refusal, null_filled};
ghost use Rattle.vx_rules.specs.Operations.{repeated};
ghost use Rattle.vx_rules.specs.Outcomes.{Follows, outcome};
ghost use Rattle.vx_rules.specs.Patterns.{like, like_refusal};
ghost use Rattle.vx_rules.specs.Selections.{filtered, mask_refusal, masked, row_refusal, row_scalar, slice_refusal, sliced, take_refusal, taken};
ghost use Rattle.vx_sparse.specs.Kernels.{is_summable, patch_count};
ghost use Rattle.vx_sparse.specs.Places.{places_in};
ghost use Rattle.vx_sparse.specs.Slices.{sliced_tree};

mod answers;
mod arrays;
mod casts;
mod cells;
mod comparing;
mod comparisons;
mod constants;
mod extremes;
mod filters;
mod judging;
mod kept_patches;
mod matching;
mod negating;
mod null_fills;
mod nulls;
mod over_patches;
mod ranging;
mod scalars;
mod single_rows;
mod slices;
mod stored_parts;
mod sum_parts;
mod sums;

use std::sync::ledger::Ledger;
use vx_array::ArrayRef;
use vx_base::{DType, ExecutionCtx, Mask, Scalar, Steps, VortexResult};
use vx_rules::{BetweenOptions, CompareOperator, LikeOptions};

/// The row functions of a sparse array, by its patches and its fill. Truth values and integers are aggregated and read without
/// memory.
pub trait SparseKernels {
    /// The tree of the array.
    ghost tree: { Self → Tree };

    /// The rows `start` to `end - 1`. A slice without a patch, also an empty one, is a Constant of the fill; one with a patch in
    /// each row is the plain tree of its patch values; any other is a Sparse over the patches within, by a raised offset. Refuses
    /// OutOfBounds unless start <= end <= length.
    fn slice(&self, start: u64, end: u64, ctx: &mut ExecutionCtx) -> VortexResult<ArrayRef>
        ensures answer { Decided (slice_refusal (column_of (tree self.now)) start end) (λ out. column_of out ≡ sliced (column_of (tree self.now)) start end) result }
        ensures shape { IfOk result (λ out. (p : PlainPatches) → (fill : PlainScalar) → tree self.now ≡ sparse_of p fill → out ≡ sliced_tree p fill start end) }
        ensures ctx { ctx.new ≡ ctx.old };

    /// The rows whose bit is true. Refuses LengthMismatch where the mask doesn't have one bit per row.
    fn filter(&self, keep: &Mask, ctx: &mut ExecutionCtx) -> VortexResult<ArrayRef>
        ensures answer { Decided (mask_refusal (column_of (tree self.now)) keep.now) (λ out. column_of out ≡ filtered (column_of (tree self.now)) keep.now) result }
        ensures ctx { ctx.new ≡ ctx.old };

    /// For each index the row with that number, null where the index is null; nullable where the column's or the indices' type is.
    /// Refuses MismatchedTypes where the indices aren't integers, then OutOfBounds where one of them is neither null nor the number
    /// of a row.
    fn take(&self, indices: &ArrayRef, ctx: &mut ExecutionCtx) -> VortexResult<ArrayRef>
        ensures answer { Decided (take_refusal (column_of (tree self.now)) (column_of indices.now)) (λ out. column_of out ≡ taken (column_of (tree self.now)) (column_of indices.now)) result }
        ensures ctx { ctx.new ≡ ctx.old };

    /// All rows, null where the bit is false; the type is nullable, even if every bit is true. Refuses LengthMismatch where the mask
    /// doesn't have one bit per row.
    fn mask(&self, keep: &Mask, ctx: &mut ExecutionCtx) -> VortexResult<ArrayRef>
        ensures answer { Decided (mask_refusal (column_of (tree self.now)) keep.now) (λ out. column_of out ≡ masked (column_of (tree self.now)) keep.now) result }
        ensures ctx { ctx.new ≡ ctx.old };

    /// The same values in another type: of integers any integer type, of others one that differs in outermost nullability alone.
    /// Refuses MismatchedTypes for any other pair of types, then CastRefused where a row is out of the new type's range, or null and
    /// the new type isn't nullable. NoMemory may come in place of CastRefused.
    fn cast(&self, dtype: &DType, ctx: &mut ExecutionCtx) -> VortexResult<ArrayRef>
        ensures answer { Follows (outcome (cast_refusal (column_of (tree self.now)) (type_of dtype.now)) (casted (column_of (tree self.now)) (type_of dtype.now))) (λ out column. column_of out ≡ column) result }
        ensures ctx { ctx.new ≡ ctx.old };

    /// The fill in place of each null, as a column of the fill's type. Refuses MismatchedTypes where the fill is null or not of the
    /// column's type, up to outermost nullability.
    fn fill_null(&self, fill: &Scalar, ctx: &mut ExecutionCtx) -> VortexResult<ArrayRef>
        ensures answer { Decided (fill_null_refusal (column_of (tree self.now)) fill.now) (λ out. column_of out ≡ null_filled (column_of (tree self.now)) fill.now) result }
        ensures ctx { ctx.new ≡ ctx.old };

    /// Whether there are rows and all are equal, null to null. Takes no memory for leaf types and timestamps.
    fn is_constant(&self, ctx: &mut ExecutionCtx) -> VortexResult<bool>
        ensures answer { Answers result (is_constant (column_of (tree self.now))) }
        ensures no_memory { IsTrue (is_flat (tree_type (tree self.now))) → result ≡ Ok (is_constant (column_of (tree self.now))) }
        ensures ctx { ctx.new ≡ ctx.old };

    /// The least and the greatest valid value, None without one. Refuses MismatchedTypes for structs, lists and the null type. Takes
    /// no memory for truth values and integers.
    fn min_max(&self, ctx: &mut ExecutionCtx) -> VortexResult<Option<(Scalar, Scalar)>>
        ensures answer { Decided (min_max_refusal (column_of (tree self.now))) (λ pair. pair ≡ min_max (column_of (tree self.now))) result }
        ensures no_memory { IsTrue (is_summable (tree_type (tree self.now))) → SurelyDecided (min_max_refusal (column_of (tree self.now))) (λ pair. pair ≡ min_max (column_of (tree self.now))) result }
        ensures ctx { ctx.new ≡ ctx.old };

    /// The number of nulls, of any type. Takes no memory.
    fn null_count(&self, ctx: &mut ExecutionCtx) -> VortexResult<u64>
        ensures answer { result ≡ Ok (null_count (column_of (tree self.now))) }
        ensures ctx { ctx.new ≡ ctx.old };

    /// The exact sum, as `u64` of truth values and unsigned integers and as `i64` of signed ones; null where it is out of range.
    /// Refuses MismatchedTypes for any other type. Takes no memory.
    fn sum(&self, ctx: &mut ExecutionCtx) -> VortexResult<Scalar>
        ensures answer { SurelyDecided (sum_refusal (column_of (tree self.now))) (λ s. s ≡ sum (column_of (tree self.now))) result }
        ensures ctx { ctx.new ≡ ctx.old };

    /// A row as a scalar of the column's type. Refuses OutOfBounds where there is no such row. Takes no memory for truth values and
    /// integers.
    fn scalar_at(&self, row: u64, ctx: &mut ExecutionCtx) -> VortexResult<Scalar>
        ensures answer { Decided (row_refusal (column_of (tree self.now)) row) (λ s. s ≡ row_scalar (column_of (tree self.now)) row) result }
        ensures no_memory { IsTrue (is_summable (tree_type (tree self.now))) → SurelyDecided (row_refusal (column_of (tree self.now)) row) (λ s. s ≡ row_scalar (column_of (tree self.now)) row) result }
        ensures ctx { ctx.new ≡ ctx.old };

    /// Whether the operator holds between the rows of the array and those of another column, null where either is. With a Constant of
    /// this length the patches and the fill are compared, and the answer is a Sparse over the same indices. Refuses MismatchedTypes
    /// unless both are of one flat type, up to nullability, then LengthMismatch unless they are equally long.
    fn compare(
        &self,
        other: &ArrayRef,
        operator: CompareOperator,
        ctx: &mut ExecutionCtx,
    ) -> VortexResult<ArrayRef>
        ensures answer { Decided (compare_refusal (column_of (tree self.now)) (column_of other.now)) (λ out. column_of out ≡ comparison operator (column_of (tree self.now)) (column_of other.now)) result }
        ensures places { IfOk result (λ out. (value : PlainScalar) → other.now ≡ constant value (length (rows (tree self.now))) → places_in out ≡ places_in (tree self.now)) }
        ensures ctx { ctx.new ≡ ctx.old };

    /// Whether each row lies between the bounds of its row, `<=` or `<` for a strict bound; null where any of the three is. With two
    /// Constants of this length the patches and the fill are tested, and the answer is a Sparse over the same indices. Refuses
    /// MismatchedTypes unless the three are of one flat type, up to nullability, then LengthMismatch unless they are equally long.
    fn between(
        &self,
        lower: &ArrayRef,
        upper: &ArrayRef,
        options: BetweenOptions,
        ctx: &mut ExecutionCtx,
    ) -> VortexResult<ArrayRef>
        ensures answer { Decided (between_refusal (column_of (tree self.now)) (column_of lower.now) (column_of upper.now)) (λ out. column_of out ≡ between options (column_of (tree self.now)) (column_of lower.now) (column_of upper.now)) result }
        ensures places { IfOk result (λ out. (low high : PlainScalar) → lower.now ≡ constant low (length (rows (tree self.now))) → upper.now ≡ constant high (length (rows (tree self.now))) → places_in out ≡ places_in (tree self.now)) }
        ensures ctx { ctx.new ≡ ctx.old };

    /// Whether each text matches the pattern of its row, or doesn't where the match is negated; null where either is null. With a
    /// Constant of this length the patches and the fill are matched, and the answer is a Sparse over the same indices. Refuses
    /// MismatchedTypes unless both columns are of texts, then LengthMismatch unless they are equally long.
    fn like(
        &self,
        pattern: &ArrayRef,
        options: LikeOptions,
        ctx: &mut ExecutionCtx,
    ) -> VortexResult<ArrayRef>
        ensures answer { Decided (like_refusal (column_of (tree self.now)) (column_of pattern.now)) (λ out. column_of out ≡ like options (column_of (tree self.now)) (column_of pattern.now)) result }
        ensures places { IfOk result (λ out. (value : PlainScalar) → pattern.now ≡ constant value (length (rows (tree self.now))) → places_in out ≡ places_in (tree self.now)) }
        ensures ctx { ctx.new ≡ ctx.old };

    /// Each truth value negated, and null stays null: a Sparse over the same indices. Refuses MismatchedTypes unless the array is of
    /// truth values.
    fn not(&self, ctx: &mut ExecutionCtx) -> VortexResult<ArrayRef>
        ensures answer { Decided (not_refusal (column_of (tree self.now))) (λ out. column_of out ≡ negation (column_of (tree self.now))) result }
        ensures places { IfOk result (λ out. places_in out ≡ places_in (tree self.now)) }
        ensures ctx { ctx.new ≡ ctx.old };

    /// Whether the operator holds between each row and a value, null where either is: by the patches and the fill. Each of them is
    /// judged once, and each judgement is a step: at most patches + 1, and as many unless the call is refused. Refuses
    /// MismatchedTypes unless the value is of the column's type, up to nullability, and the type is a leaf type or a timestamp.
    fn compare_counted<L: Ledger>(
        &self,
        value: &Scalar,
        operator: CompareOperator,
        ctx: &mut ExecutionCtx,
        steps: &mut Steps<L>,
    ) -> VortexResult<ArrayRef>
        ensures answer { Decided (compare_refusal (column_of (tree self.now)) (repeated value.now (column_of (tree self.now)))) (λ out. column_of out ≡ comparison operator (column_of (tree self.now)) (repeated value.now (column_of (tree self.now)))) result }
        ensures ctx { ctx.new ≡ ctx.old }
        ensures rose { steps.old ≤ steps.new }
        ensures most { steps.new ≤ steps.old + (patch_count (tree self.now) + 1) }
        ensures judged { IfOk result (λ _. steps.new ≡ steps.old + (patch_count (tree self.now) + 1)) };

    /// `scalar_at`, with a step for each probe of the search for the row's patch: p of them with 2^p <= 2 * patches + 1.
    fn scalar_at_counted<L: Ledger>(
        &self,
        row: u64,
        ctx: &mut ExecutionCtx,
        steps: &mut Steps<L>,
    ) -> VortexResult<Scalar>
        ensures answer { Decided (row_refusal (column_of (tree self.now)) row) (λ s. s ≡ row_scalar (column_of (tree self.now)) row) result }
        ensures no_memory { IsTrue (is_summable (tree_type (tree self.now))) → SurelyDecided (row_refusal (column_of (tree self.now)) row) (λ s. s ≡ row_scalar (column_of (tree self.now)) row) result }
        ensures ctx { ctx.new ≡ ctx.old }
        ensures rose { steps.old ≤ steps.new }
        ensures probes { 2 ^ (steps.new - steps.old) ≤ 2 * patch_count (tree self.now) + 1 };
}
