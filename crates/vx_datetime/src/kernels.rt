//! The row functions of timestamps in parts. Those that choose rows choose from the parts. `compare` with one timestamp or a column
//! in parts, and `between` with two of either, compare the parts. Timestamps are combined for a single row and for comparisons with
//! any other column.

ghost use Rattle.std.specs.Prelude.{◌≡◌, ◌&&◌, ◌==◌, IfOk, length};
ghost use Rattle.vx_base.specs.Answers.{Answers, Decided};
ghost use Rattle.vx_base.specs.PlainType.{same_base};
ghost use Rattle.vx_base.specs.TypeOf.{type_of};
ghost use Rattle.vx_base.specs.declared.array_id.ArrayId.TheVariants as ids;
ghost use Rattle.vx_model.specs.Column.{column_of};
ghost use Rattle.vx_model.specs.Nodes.{encoding};
ghost use Rattle.vx_model.specs.Rows.{rows};
ghost use Rattle.vx_model.specs.TreeType.{tree_type};
ghost use Rattle.vx_rules.specs.Aggregates.{is_constant};
ghost use Rattle.vx_rules.specs.Comparisons.{between, between_refusal, compare_refusal, comparison};
ghost use Rattle.vx_rules.specs.Conversions.{cast_refusal, casted};
ghost use Rattle.vx_rules.specs.Outcomes.{Follows, outcome};
ghost use Rattle.vx_rules.specs.Selections.{filtered, mask_refusal, masked, row_refusal, row_scalar, slice_refusal, sliced, take_refusal, taken};

mod bounded;
mod chosen;
mod compared;
mod constancy;
mod ints;
mod masked;
mod moments;
mod orders;
mod pairs;
mod part_rows;
mod parts;
mod recast;
mod refining;
mod taken;
mod verdicts;
mod within;

use crate::array::DateTimePartsArray;
use chosen::{filtered_parts, sliced_parts};
use compared::compared_with;
use constancy::are_constant;
use masked::masked_parts;
use recast::recast_parts;
use taken::taken_parts;
use vx_array::ArrayRef;
use vx_base::{DType, ExecutionCtx, Mask, Scalar, VortexError, VortexResult};
use vx_rules::{BetweenOptions, CompareOperator};
use within::within_columns;

impl DateTimePartsArray {
    /// The rows `start` to `end - 1`, as timestamps in parts; the type stays. Refuses OutOfBounds unless `start <= end <= len`.
    pub fn slice(&self, start: u64, end: u64, ctx: &mut ExecutionCtx) -> VortexResult<ArrayRef>
        ensures answer { Decided (slice_refusal (column_of self.now) start end) (λ out. column_of out ≡ sliced (column_of self.now) start end) result }
        ensures root { IfOk result (λ out. encoding out ≡ ids.DateTimeParts) }
        ensures ctx { ctx.new ≡ ctx.old }
    {
        if start > end || end > self.array.len() {
            return Err(VortexError::OutOfBounds);
        }
        sliced_parts(&self.parts(), start, end, ctx)
    }

    /// The rows whose bit is true, in their order, as timestamps in parts; the type stays. Refuses LengthMismatch where the mask
    /// doesn't have one bit per row.
    pub fn filter(&self, keep: &Mask, ctx: &mut ExecutionCtx) -> VortexResult<ArrayRef>
        ensures answer { Decided (mask_refusal (column_of self.now) keep.now) (λ out. column_of out ≡ filtered (column_of self.now) keep.now) result }
        ensures root { IfOk result (λ out. encoding out ≡ ids.DateTimeParts) }
        ensures ctx { ctx.new ≡ ctx.old }
    {
        if !self.has_bit_per_row(keep) {
            return Err(VortexError::LengthMismatch);
        }
        filtered_parts(&self.parts(), keep, ctx)
    }

    /// All rows, null where the bit is false, as timestamps in parts; the type is nullable, even if every bit is true. Refuses
    /// LengthMismatch where the mask doesn't have one bit per row.
    pub fn mask(&self, keep: &Mask, ctx: &mut ExecutionCtx) -> VortexResult<ArrayRef>
        ensures answer { Decided (mask_refusal (column_of self.now) keep.now) (λ out. column_of out ≡ masked (column_of self.now) keep.now) result }
        ensures root { IfOk result (λ out. encoding out ≡ ids.DateTimeParts) }
        ensures ctx { ctx.new ≡ ctx.old }
    {
        if !self.has_bit_per_row(keep) {
            return Err(VortexError::LengthMismatch);
        }
        masked_parts(&self.parts(), keep, ctx)
    }

    /// The timestamp in a row, or null; the other rows aren't combined. Refuses OutOfBounds where there is no such row.
    pub fn scalar_at(&self, row: u64, ctx: &mut ExecutionCtx) -> VortexResult<Scalar>
        ensures answer { Decided (row_refusal (column_of self.now) row) (λ s. s ≡ row_scalar (column_of self.now) row) result }
        ensures ctx { ctx.new ≡ ctx.old }
    {
        vx_selections::scalar_at(&self.array, row, ctx)
    }

    /// For each index the row with that number, null where the index is null; nullable where the timestamps' or the indices'
    /// type is. Refuses MismatchedTypes where the indices aren't integers, then OutOfBounds where one of them is neither null nor
    /// the number of a row.
    pub fn take(&self, indices: &ArrayRef, ctx: &mut ExecutionCtx) -> VortexResult<ArrayRef>
        ensures answer { Decided (take_refusal (column_of self.now) (column_of indices.now)) (λ out. column_of out ≡ taken (column_of self.now) (column_of indices.now)) result }
        ensures root { IfOk result (λ out. encoding out ≡ ids.DateTimeParts) }
        ensures ctx { ctx.new ≡ ctx.old }
    {
        taken_parts(&self.parts(), indices, ctx)
    }

    /// The same timestamps in another type: one that differs in nullability alone. Refuses MismatchedTypes of any other type, then
    /// CastRefused where a row is null and the new type isn't nullable.
    pub fn cast(&self, dtype: &DType, ctx: &mut ExecutionCtx) -> VortexResult<ArrayRef>
        ensures answer { Follows (outcome (cast_refusal (column_of self.now) (type_of dtype.now)) (casted (column_of self.now) (type_of dtype.now))) (λ out column. column_of out ≡ column) result }
        ensures ctx { ctx.new ≡ ctx.old }
    {
        let parts = self.parts();
        if !are_alike(self.array.dtype(), dtype) {
            return Err(VortexError::MismatchedTypes);
        }
        recast_parts(&parts, dtype.nullability(), ctx)
    }

    /// Whether there is a row, and all are equal; null is equal to null. Refuses NoMemory alone.
    pub fn is_constant(&self, ctx: &mut ExecutionCtx) -> VortexResult<bool>
        ensures answer { Answers result (is_constant (column_of self.now)) }
        ensures ctx { ctx.new ≡ ctx.old }
    {
        are_constant(&self.parts(), ctx)
    }

    /// Whether the operator holds between the rows of two columns, row by row; null where either is null. Refuses MismatchedTypes
    /// unless the other column is of the same timestamps, up to nullability, then LengthMismatch unless they are equally long.
    pub fn compare(
        &self,
        other: &ArrayRef,
        operator: CompareOperator,
        ctx: &mut ExecutionCtx,
    ) -> VortexResult<ArrayRef>
        ensures answer { Decided (compare_refusal (column_of self.now) (column_of other.now)) (λ out. column_of out ≡ comparison operator (column_of self.now) (column_of other.now)) result }
        ensures ctx { ctx.new ≡ ctx.old }
    {
        if !self.is_like(other) {
            return vx_rows::compare(&self.array, other, operator, ctx);
        }
        let parts = self.parts();
        compared_with(operator, &self.array, &parts, other, ctx)
    }

    /// Whether each row lies between the bounds of its row: `low <= value && value <= high`, with `<` for a strict bound; null where
    /// any of the three is null. Refuses MismatchedTypes unless both bounds are of the same timestamps, up to nullability, then
    /// LengthMismatch unless the three are equally long.
    pub fn between(
        &self,
        lower: &ArrayRef,
        upper: &ArrayRef,
        options: BetweenOptions,
        ctx: &mut ExecutionCtx,
    ) -> VortexResult<ArrayRef>
        ensures answer { Decided (between_refusal (column_of self.now) (column_of lower.now) (column_of upper.now)) (λ out. column_of out ≡ between options (column_of self.now) (column_of lower.now) (column_of upper.now)) result }
        ensures ctx { ctx.new ≡ ctx.old }
    {
        let are_like = self.is_like(lower) & self.is_like(upper);
        if !are_like {
            return vx_rows::between(&self.array, lower, upper, options, ctx);
        }
        let parts = self.parts();
        within_columns(options, &self.array, &parts, lower, upper, ctx)
    }

    // Whether a column is of the same timestamps, up to nullability, and has as many rows.
    fn is_like(&self, other: &ArrayRef) -> bool
        ensures { result ≡ (same_base (tree_type self.now) (tree_type other.now) && (length (rows self.now) == length (rows other.now))) }
    {
        let alike = are_alike(self.array.dtype(), other.dtype());
        let as_many = self.array.len() == other.len();
        alike & as_many
    }

    // Whether the mask has one bit per row.
    fn has_bit_per_row(&self, keep: &Mask) -> bool
        ensures { result ≡ (length keep.now == length (rows self.now)) }
    {
        keep.len() == self.array.len()
    }
}

// Whether two types are equal up to outermost nullability.
fn are_alike(left: &DType, right: &DType) -> bool
    ensures { result ≡ same_base (type_of left.now) (type_of right.now) }
{
    left.same_base(right)
}
