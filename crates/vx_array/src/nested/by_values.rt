//! Pieces of columns of nested types: value by value, and of equal rows by one of them.

ghost use Rattle.std.specs.Prelude.{◌≡◌, ◌++◌, IsTrue, false, length, map, replicate};
ghost use Rattle.vx_array.specs.PlainPieced.{plain_pieced};
ghost use Rattle.vx_base.specs.Answers.{Answers, OrMemory};
ghost use Rattle.vx_base.specs.Defaults.{null_or_default};
ghost use Rattle.vx_base.specs.Masks.{is_part, rows_between};
ghost use Rattle.vx_base.specs.TypeOf.{value_of};
ghost use Rattle.vx_base.specs.PlainScalar.{fits};
ghost use Rattle.vx_base.specs.PlainType.{is_flat};
ghost use Rattle.vx_model.specs.Rows.{rows};
ghost use Rattle.vx_model.specs.Tree.{constant};
ghost use Rattle.vx_model.specs.TreeType.{tree_type};
ghost use Rattle.vx_pieces.specs.Pieces.{are_pieces, is_piece, piece_items, pieced, repeated};

use crate::array::ArrayRef;
use crate::of_values::plain_tree;
use std::alloc::Global;
use vx_base::{Scalar, Value, VortexResult};
use vx_pieces::{Piece, one_row_pieces};

// The plain tree of the rows that pieces give of equal rows: that of one row, repeated.
#[cycle(plain_pieces)]
pub(super) fn constant_pieces(
    alloc: Global,
    scalar: &Scalar,
    len: u64,
    pieces: &[Piece],
) -> VortexResult<ArrayRef>
    requires nested { is_flat scalar.now.dtype ≡ false }
    requires scalar { IsTrue (fits scalar.now.dtype scalar.now.value) }
    requires pieces { IsTrue (are_pieces len pieces.now) }
    ensures { Answers result (plain_pieced pieces.now (constant scalar.now len)) }
{
    let mut row = Vec::with_capacity(alloc, 1)?;
    row.push(scalar.value().copy(alloc)?)?;
    let tree = plain_tree(alloc, scalar.dtype(), row)?;
    let made = one_row_pieces(alloc, pieces)?;
    tree.plain_pieces(alloc, made.as_slice())
}

impl ArrayRef {
    // The plain tree of the rows that pieces give, from their values.
    #[cycle(plain_pieces)]
    pub(super) fn value_pieces(&self, alloc: Global, pieces: &[Piece]) -> VortexResult<ArrayRef>
        requires { IsTrue (are_pieces (length (rows self.now)) pieces.now) }
        ensures { Answers result (plain_pieced pieces.now self.now) }
    {
        self.known();
        let values = self.pieced_values(alloc, pieces)?;
        plain_tree(alloc, self.dtype(), values)
    }

    // The values that pieces give.
    fn pieced_values(&self, alloc: Global, pieces: &[Piece]) -> VortexResult<Vec<Value>>
        requires { IsTrue (are_pieces (length (rows self.now)) pieces.now) }
        ensures { OrMemory result (λ values. map value_of values.items ≡ pieced (null_or_default (tree_type self.now)) pieces.now (rows self.now)) }
    {
        let mut values = Vec::new(alloc);
        for piece in pieces {
            self.add_piece(alloc, &mut values, *piece)?;
        }
        Ok(values)
    }

    // Appends the values that a piece gives.
    fn add_piece(&self, alloc: Global, values: &mut Vec<Value>, piece: Piece) -> VortexResult<()>
        requires { IsTrue (is_piece (length (rows self.now)) piece) }
        ensures { OrMemory result (λ _. map value_of values.new.items ≡ map value_of values.old.items ++ piece_items (null_or_default (tree_type self.now)) (rows self.now) piece) }
    {
        match piece {
            Piece::Rows { start, end, times } => self.add_blocks(alloc, values, start, end, times),
            Piece::Filled(count) => self.add_defaults(alloc, values, count),
        }
    }

    // Appends a block of rows `times` times. No time is spent on an empty block.
    fn add_blocks(
        &self,
        alloc: Global,
        values: &mut Vec<Value>,
        start: u64,
        end: u64,
        times: u64,
    ) -> VortexResult<()>
        requires { IsTrue (is_part (length (rows self.now)) start end) }
        ensures { OrMemory result (λ _. map value_of values.new.items ≡ map value_of values.old.items ++ repeated times (rows_between (rows self.now) start end)) }
    {
        if start == end {
            return Ok(());
        }
        for _time in 0..times {
            self.add_rows(alloc, values, start, end)?;
        }
        Ok(())
    }

    // Appends the values in the rows `start` to `end - 1`.
    fn add_rows(
        &self,
        alloc: Global,
        values: &mut Vec<Value>,
        start: u64,
        end: u64,
    ) -> VortexResult<()>
        requires { IsTrue (is_part (length (rows self.now)) start end) }
        ensures { OrMemory result (λ _. map value_of values.new.items ≡ map value_of values.old.items ++ rows_between (rows self.now) start end) }
    {
        for row in start..end {
            values.push(self.value_at(alloc, row)?)?;
        }
        Ok(())
    }

    // Appends null `count` times, or the default where the type isn't nullable.
    fn add_defaults(&self, alloc: Global, values: &mut Vec<Value>, count: u64) -> VortexResult<()>
        ensures { OrMemory result (λ _. map value_of values.new.items ≡ map value_of values.old.items ++ replicate count (null_or_default (tree_type self.now))) }
    {
        let default = Scalar::default_value(alloc, self.dtype())?;
        for _row in 0..count {
            values.push(default.value().copy(alloc)?)?;
        }
        Ok(())
    }
}
