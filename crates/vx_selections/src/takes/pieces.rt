//! Take by pieces, over every type: a run of rising indices is one piece.

ghost use Rattle.std.specs.List.{list_all};
ghost use Rattle.std.specs.Prelude.{◌≡◌, ◌<◌, ◌++◌, ◌∷◌, [], IsTrue, List, length, map, true};
ghost use Rattle.vx_base.specs.Answers.{OrMemory};
ghost use Rattle.vx_base.specs.PlainValue.{PlainValue, cell, int};
ghost use Rattle.vx_model.specs.Column.{column_of};
ghost use Rattle.vx_model.specs.Refusals.{validity_length};
ghost use Rattle.vx_model.specs.Rows.{row_at, rows, valid_rows};
ghost use Rattle.vx_model.specs.Tree.{primitive};
ghost use Rattle.vx_model.specs.WellFormed.{WellFormed, is_place};
ghost use Rattle.vx_pieces.specs.Pieces.{Gives};
ghost use Rattle.vx_rules.specs.Selections.{taken};
ghost use Rattle.vx_selections.specs.Chosen.{row_or, rows_or};
ghost use Rattle.vx_values.specs.IntsOf.{ptype_of, wholes_of};

use crate::by_pieces::pieced;
use crate::masks::restricted;
use std::alloc::Global;
use vx_array::ArrayRef;
use vx_base::{Mask, Nullability, VortexResult};
use vx_pieces::{Piece, add_filled, add_row};
use vx_values::{Ints, is_valid};

/// `take` by indices in bounds. A null index fills a row, and then makes it null.
pub(super) fn taken_by_pieces(
    alloc: Global,
    tree: &ArrayRef,
    codes: &Ints,
    valid: &Option<Mask>,
    nulls: Nullability,
) -> VortexResult<ArrayRef>
    requires well { WellFormed (primitive (ptype_of codes.now) (wholes_of codes.now) valid.now nulls) }
    requires places { IsTrue (list_all (is_place (length (rows tree.now))) (rows (primitive (ptype_of codes.now) (wholes_of codes.now) valid.now nulls))) }
    ensures { OrMemory result (λ out. column_of out ≡ taken (column_of tree.now) (column_of (primitive (ptype_of codes.now) (wholes_of codes.now) valid.now nulls))) }
{
    let pieces = index_pieces(alloc, codes, valid, tree.len())?;
    let plain = pieced(alloc, tree, pieces.as_slice())?;
    restricted(alloc, plain, valid, tree.dtype().nullability().or(nulls))
}

// The pieces that indices are: of any column of `len` rows they give the row with each index, and a filling at a null one.
fn index_pieces(
    alloc: Global,
    codes: &Ints,
    valid: &Option<Mask>,
    len: u64,
) -> VortexResult<Vec<Piece>>
    requires bits { validity_length valid.now (length (wholes_of codes.now)) ≡ true }
    requires places { IsTrue (list_all (is_place len) (valid_rows valid.now (map int (wholes_of codes.now)))) }
    ensures { OrMemory result (λ pieces. (item : PlainValue) (values : List PlainValue) → length values ≡ len → Gives item pieces.items values (rows_or item values (valid_rows valid.now (map int (wholes_of codes.now))))) }
{
    let mut pieces = Vec::new(alloc);
    for row in 0..codes.len() {
        add_index(&mut pieces, index_at(codes, valid, row), len)?;
    }
    Ok(pieces)
}

// The index in a row, None of null.
#[tactic(auto, using(crate::proofs::IndexPieces::cells))]
fn index_at(codes: &Ints, valid: &Option<Mask>, row: u64) -> Option<i128>
    requires bits { validity_length valid.now (length (wholes_of codes.now)) ≡ true }
    requires within { row < length (wholes_of codes.now) }
    ensures { cell result ≡ row_at (valid_rows valid.now (map int (wholes_of codes.now))) row }
{
    if is_valid(valid, row) {
        Some(codes.whole_at(row))
    } else {
        None
    }
}

// Appends the row with an index, of a column of `len` rows, or a filling where the index is null.
fn add_index(pieces: &mut Vec<Piece>, index: Option<i128>, len: u64) -> VortexResult<()>
    requires { IsTrue (is_place len (cell index)) }
    ensures { OrMemory result (λ _. (item : PlainValue) (values rows : List PlainValue) → length values ≡ len → Gives item pieces.old.items values rows → Gives item pieces.new.items values (rows ++ row_or item values (cell index) ∷ [])) }
{
    match index {
        Some(code) => add_row(pieces, code as u64),
        None => add_filled(pieces, 1),
    }
}
