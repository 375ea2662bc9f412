//! Pieces of integers.

ghost use Rattle.std.specs.Prelude.{◌≡◌, length, IsTrue, map};
ghost use Rattle.vx_base.specs.Answers.{OrMemory};
ghost use Rattle.vx_base.specs.Integers.{lies_in};
ghost use Rattle.vx_pieces.specs.Pieces.{pieced, are_pieces};
ghost use Rattle.vx_values.specs.IntsOf.{ptype_of, wholes_of};

use crate::piece::Piece;
use crate::pieced::pieced;
use std::alloc::Global;
use vx_base::{IntList, Integer, VortexResult};
use vx_values::Ints;

/// The integers that pieces give, with `filling` for a filled row. `pieces` are in bounds of `ints`, and `filling` is in the
/// range of their type.
pub fn pieced_ints(
    alloc: Global,
    ints: &Ints,
    pieces: &[Piece],
    filling: i128,
) -> VortexResult<Ints>
    requires pieces { IsTrue (are_pieces (length (wholes_of ints.now)) pieces.now) }
    requires filling { IsTrue (lies_in (ptype_of ints.now) filling) }
    ensures { OrMemory result (λ out. (ptype_of out ≡ ptype_of ints.now) × (wholes_of out ≡ pieced filling pieces.now (wholes_of ints.now))) }
{
    match ints {
        Ints::U8(items) => Ok(Ints::U8(pieced_list(alloc, items, pieces, filling)?)),
        Ints::U16(items) => Ok(Ints::U16(pieced_list(alloc, items, pieces, filling)?)),
        Ints::U32(items) => Ok(Ints::U32(pieced_list(alloc, items, pieces, filling)?)),
        Ints::U64(items) => Ok(Ints::U64(pieced_list(alloc, items, pieces, filling)?)),
        Ints::I8(items) => Ok(Ints::I8(pieced_list(alloc, items, pieces, filling)?)),
        Ints::I16(items) => Ok(Ints::I16(pieced_list(alloc, items, pieces, filling)?)),
        Ints::I32(items) => Ok(Ints::I32(pieced_list(alloc, items, pieces, filling)?)),
        Ints::I64(items) => Ok(Ints::I64(pieced_list(alloc, items, pieces, filling)?)),
    }
}

// The integers of one type.
fn pieced_list<T: Integer>(
    alloc: Global,
    items: &IntList<T>,
    pieces: &[Piece],
    filling: i128,
) -> VortexResult<IntList<T>>
    requires pieces { IsTrue (are_pieces (length (map T.whole items.now)) pieces.now) }
    requires filling { IsTrue (lies_in T.kind filling) }
    ensures { OrMemory result (λ list. map T.whole list ≡ pieced filling pieces.now (map T.whole items.now)) }
{
    let Some(item) = T::from_whole(filling) else {
        unreachable!();
    };
    Ok(IntList::from_vec(pieced(alloc, items.as_slice(), pieces, item)?))
}
