//! Decoding of nested trees: the plain tree of the rows that pieces give. Each child is decoded once, by the pieces that stand
//! for its rows: linear in the rows and elements of the answer and of the tree.

ghost use Rattle.std.specs.List.{list_all};
ghost use Rattle.std.specs.Prelude.{◌≡◌, ◌-◌, IsTrue, length, map};
ghost use Rattle.vx_array.specs.PlainPieced.{plain_pieced};
ghost use Rattle.vx_base.specs.Answers.{Answers, OrMemory};
ghost use Rattle.vx_model.specs.Rows.{rows};
ghost use Rattle.vx_model.specs.Tree.{fixed_size_list, list, of_list, structure};
ghost use Rattle.vx_model.specs.WellFormed.{WellFormed};
ghost use Rattle.vx_pieces.specs.Pieces.{are_pieces};

mod by_values;
mod flat;
mod made;

use crate::array::{ArrayRef, Node};
use crate::arrays::Arrays;
use crate::node::row_count;
use by_values::constant_pieces;
use made::{as_words, null_pieces, offset_words, plain_fixed, plain_list, plain_struct, row_total};
use std::alloc::Global;
use vx_base::{Mask, Names, Nullability, VortexResult};
use vx_pieces::{
    Piece, fixed_inner_pieces, list_inner_pieces, pieced_offsets, pieced_validity, valid_pieces,
};

impl ArrayRef {
    /// The plain tree of the rows that pieces give; a filled row is null, or the default where the type isn't nullable.
    /// Refuses NoMemory alone.
    #[cycle(plain_pieces)]
    pub fn plain_pieces(&self, alloc: Global, pieces: &[Piece]) -> VortexResult<ArrayRef>
        requires { IsTrue (are_pieces (length (rows self.now)) pieces.now) }
        ensures { Answers result (plain_pieced pieces.now self.now) }
    {
        self.known();
        match &self.node {
            Node::Null(_) => null_pieces(pieces),
            Node::Struct(names, fields, len, valid, nullability) => {
                struct_pieces(alloc, names, fields, *len, valid, *nullability, pieces)
            }
            Node::List(elements, offsets, valid, nullability) => {
                list_pieces(
                    alloc,
                    &elements.array,
                    &offsets.array,
                    valid,
                    *nullability,
                    pieces,
                )
            }
            Node::FixedSizeList(elements, size, len, valid, nullability) => {
                fixed_pieces(
                    alloc,
                    &elements.array,
                    *size,
                    *len,
                    valid,
                    *nullability,
                    pieces,
                )
            }
            _ => self.other_pieces(alloc, pieces),
        }
    }

    // `plain_pieces` of a tree whose children are no columns within: of a flat type column by column, of a Constant from one
    // row, else, at a Sparse, value by value.
    #[cycle(plain_pieces)]
    fn other_pieces(&self, alloc: Global, pieces: &[Piece]) -> VortexResult<ArrayRef>
        requires { IsTrue (are_pieces (length (rows self.now)) pieces.now) }
        ensures { Answers result (plain_pieced pieces.now self.now) }
    {
        if self.dtype().is_flat() {
            return self.flat_pieces(alloc, pieces);
        }
        self.known();
        match &self.node {
            Node::Constant(scalar, len) => constant_pieces(alloc, scalar, *len, pieces),
            _ => self.value_pieces(alloc, pieces),
        }
    }
}

impl Arrays {
    // The plain tree of the rows that pieces give of each tree.
    #[cycle(plain_pieces)]
    fn plain_pieces(&self, alloc: Global, pieces: &[Piece]) -> VortexResult<Arrays>
        requires { IsTrue (list_all (λ t. are_pieces (length (rows t)) pieces.now) self.now) }
        ensures { OrMemory result (λ trees. trees ≡ map (plain_pieced pieces.now) self.now) }
    {
        let mut trees = Vec::with_capacity(alloc, self.as_slice().len())?;
        for tree in self.as_slice() {
            trees.push(tree.plain_pieces(alloc, pieces)?)?;
        }
        Ok(Arrays::from_vec(trees))
    }
}

// `plain_pieces` of structs. Each field takes the same pieces, with fillings in place of the rows where the struct is null.
#[cycle(plain_pieces)]
fn struct_pieces(
    alloc: Global,
    names: &Names,
    fields: &Arrays,
    len: u64,
    valid: &Option<Mask>,
    nullability: Nullability,
    pieces: &[Piece],
) -> VortexResult<ArrayRef>
    requires tree { WellFormed (structure names.now (of_list fields.now) len valid.now nullability) }
    requires pieces { IsTrue (are_pieces len pieces.now) }
    ensures { Answers result (plain_pieced pieces.now (structure names.now (of_list fields.now) len valid.now nullability)) }
{
    let inner = valid_pieces(alloc, pieces, valid)?;
    let bits = pieced_validity(alloc, valid, len, pieces, !nullability.allows_null())?;
    let count = row_total(pieces)?;
    let trees = fields.plain_pieces(alloc, inner.as_slice())?;
    plain_struct(alloc, names, trees, count, bits, nullability)
}

// `plain_pieces` of lists. A null list is empty; the elements take the pieces from the first list's first element to the last
// list's last one.
#[cycle(plain_pieces)]
fn list_pieces(
    alloc: Global,
    elements: &ArrayRef,
    offsets: &ArrayRef,
    valid: &Option<Mask>,
    nullability: Nullability,
    pieces: &[Piece],
) -> VortexResult<ArrayRef>
    requires tree { WellFormed (list elements.now offsets.now valid.now nullability) }
    requires pieces { IsTrue (are_pieces (length (rows offsets.now) - 1) pieces.now) }
    ensures { Answers result (plain_pieced pieces.now (list elements.now offsets.now valid.now nullability)) }
{
    let kept = valid_pieces(alloc, pieces, valid)?;
    let lists = kept.as_slice();
    let len = row_count(offsets);
    let bits = pieced_validity(alloc, valid, len, pieces, !nullability.allows_null())?;
    let words = offset_words(alloc, elements, offsets)?;
    let ends = as_words(&words);
    let inner = list_inner_pieces(alloc, lists, ends)?;
    let sums = pieced_offsets(alloc, lists, ends)?;
    let inside = elements.plain_pieces(alloc, inner.as_slice())?;
    plain_list(alloc, inside, sums, bits, nullability)
}

// `plain_pieces` of fixed-size lists. A null list has defaults as its elements.
#[cycle(plain_pieces)]
fn fixed_pieces(
    alloc: Global,
    elements: &ArrayRef,
    size: u32,
    len: u64,
    valid: &Option<Mask>,
    nullability: Nullability,
    pieces: &[Piece],
) -> VortexResult<ArrayRef>
    requires tree { WellFormed (fixed_size_list elements.now size len valid.now nullability) }
    requires pieces { IsTrue (are_pieces len pieces.now) }
    ensures { Answers result (plain_pieced pieces.now (fixed_size_list elements.now size len valid.now nullability)) }
{
    let kept = valid_pieces(alloc, pieces, valid)?;
    let lists = kept.as_slice();
    let bits = pieced_validity(alloc, valid, len, pieces, !nullability.allows_null())?;
    let count = row_total(pieces)?;
    let inner = fixed_inner_pieces(alloc, lists, u64::from(size))?;
    let inside = elements.plain_pieces(alloc, inner.as_slice())?;
    plain_fixed(alloc, inside, size, count, bits, nullability)
}
