//! Whether rows of a plain tree are the default of its type, null where that is nullable.

ghost use Rattle.std.specs.List.{list_all};
ghost use Rattle.std.specs.Prelude.{◌≡◌, ◌<◌, ◌≤◌, ◌+◌, ◌*◌, IsTrue, None, length, nat_le};
ghost use Rattle.vx_array.specs.Beneath.{ArePlain, is_default, is_zero};
ghost use Rattle.vx_base.specs.CellValue.{cell_value};
ghost use Rattle.vx_base.specs.Masks.{rows_between};
ghost use Rattle.vx_model.specs.Plain.{IsPlain};
ghost use Rattle.vx_model.specs.Rows.{rows, row_at};
ghost use Rattle.vx_model.specs.Tree.{of_list};
ghost use Rattle.vx_model.specs.TreeType.{tree_type};

use crate::array::{ArrayRef, Node};
use crate::arrays::Arrays;
use crate::beneath::is_empty_at;
use vx_base::Cell;

impl ArrayRef {
    // Whether a row of a plain tree is the default of the tree's type, null where that is nullable.
    #[cycle(is_default)]
    pub(crate) fn is_default_at(&self, row: u64) -> bool
        requires plain { IsPlain self.now }
        requires in_range { row < length (rows self.now) }
        ensures { result ≡ is_default (tree_type self.now) (row_at (rows self.now) row) }
    {
        self.known();
        let _rows = self.len();
        if self.dtype().is_nullable() {
            return self.is_null_at(row);
        }
        match &self.node {
            Node::Struct(_, fields, _, _, _) => fields.all_default(row, row + 1),
            Node::List(elements, offsets, _, _) => is_empty_at(
                &elements.array,
                &offsets.array,
                row,
            ),
            Node::FixedSizeList(elements, size, _, _, _) => elements
                .array
                .part_is_default(*size, row),
            Node::Null(_) | Node::Constant(_, _) | Node::Sparse(_, _) => unreachable!(),
            _ => is_zero(self.cell_at(row)),
        }
    }

    // Whether each row from `from` to `to - 1` of a plain tree is the default. Goes to the columns within by ranges, so that
    // no row is looked at where nothing is stored for it.
    #[cycle(is_default)]
    fn are_default(&self, from: u64, to: u64) -> bool
        requires plain { IsPlain self.now }
        requires rising { from ≤ to }
        requires in_range { to ≤ length (rows self.now) }
        ensures { result ≡ list_all (is_default (tree_type self.now)) (rows_between (rows self.now) from to) }
    {
        let nullable = self.dtype().is_nullable();
        match &self.node {
            Node::Null(_) => true,
            Node::Struct(_, fields, _, _, _) if !nullable => fields.all_default(from, to),
            Node::FixedSizeList(elements, size, _, _, _) if !nullable => {
                elements.array.parts_are_default(*size, from, to)
            }
            _ => self.each_is_default(from, to),
        }
    }

    // `are_default` row by row.
    #[cycle(is_default)]
    fn each_is_default(&self, from: u64, to: u64) -> bool
        requires plain { IsPlain self.now }
        requires rising { from ≤ to }
        requires in_range { to ≤ length (rows self.now) }
        ensures { result ≡ list_all (is_default (tree_type self.now)) (rows_between (rows self.now) from to) }
    {
        for row in from..to {
            if !self.is_default_at(row) {
                return false;
            }
        }
        true
    }

    // `are_default` of the parts from `from` to `to - 1`, where the rows are cut into parts of one size.
    #[cycle(is_default)]
    fn parts_are_default(&self, size: u32, from: u64, to: u64) -> bool
        requires plain { IsPlain self.now }
        requires rising { from ≤ to }
        requires in_range { to * size ≤ length (rows self.now) }
        ensures { result ≡ list_all (is_default (tree_type self.now)) (rows_between (rows self.now) (from * size) (to * size)) }
    {
        let _rows = self.len();
        self.are_default(from * size as u64, to * size as u64)
    }

    // Whether each row of one part is the default, where the rows are cut into parts of one size.
    #[cycle(is_default)]
    pub(crate) fn part_is_default(&self, size: u32, part: u64) -> bool
        requires plain { IsPlain self.now }
        requires in_range { part * size + size ≤ length (rows self.now) }
        ensures { result ≡ list_all (is_default (tree_type self.now)) (rows_between (rows self.now) (part * size) (part * size + size)) }
    {
        let _rows = self.len();
        let from = part * size as u64;
        self.are_default(from, from + size as u64)
    }
}

impl Arrays {
    // Whether each row from `from` to `to - 1` of each tree is the default.
    #[cycle(is_default)]
    fn all_default(&self, from: u64, to: u64) -> bool
        requires plain { ArePlain None (of_list self.now) }
        requires rising { from ≤ to }
        requires in_range { IsTrue (list_all (λ t. nat_le to (length (rows t))) self.now) }
        ensures { result ≡ list_all (λ t. list_all (is_default (tree_type t)) (rows_between (rows t) from to)) self.now }
    {
        for tree in self.as_slice() {
            if !tree.are_default(from, to) {
                return false;
            }
        }
        true
    }
}

// Whether a cell is false, 0 or without bytes.
fn is_zero(cell: Cell<'_>) -> bool
    ensures { result ≡ is_zero (cell_value cell.entry) }
{
    match cell {
        Cell::Null => false,
        Cell::Bool(bit) => !bit,
        Cell::Int(whole) => whole == 0,
        Cell::Bytes(bytes) => bytes.is_empty(),
    }
}
