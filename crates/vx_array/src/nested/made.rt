//! Plain nested nodes over plain parts, without their checks where those read rows, and the counts and offsets that they take.

ghost use Rattle.std.specs.Prelude.{◌≡◌, IsTrue, None, false, length, map, pos};
ghost use Rattle.vx_base.specs.Answers.{Answers, OrMemory};
ghost use Rattle.vx_base.specs.PlainType.{is_integer, is_nullable};
ghost use Rattle.vx_base.specs.PlainValue.{int};
ghost use Rattle.vx_base.specs.declared.dtype.Nullability.TheVariants.{NonNullable};
ghost use Rattle.vx_base.specs.declared.ptype.PType.TheVariants.{U64};
ghost use Rattle.vx_model.specs.Refusals.{fixed_size_list_refusal, kept, list_refusal, structure_refusal};
ghost use Rattle.vx_model.specs.Rows.{rows};
ghost use Rattle.vx_model.specs.Tree.{fixed_size_list, list, nulls, of_list, primitive, structure};
ghost use Rattle.vx_model.specs.TreeType.{tree_type};
ghost use Rattle.vx_model.specs.WellFormed.{are_offsets};
ghost use Rattle.vx_pieces.specs.Pieces.{pieces_count};
ghost use Rattle.vx_values.specs.IntsOf.{ptype_of, wholes_of};

use crate::array::ArrayRef;
use crate::arrays::Arrays;
use crate::node::copied_names;
use std::alloc::Global;
use vx_base::{IntList, Mask, Names, Nullability, PType, VortexError, VortexResult};
use vx_pieces::{Piece, total};
use vx_values::Ints;

/// The number of rows that pieces give. Answers NoMemory where it is 2^64 or more: no tree has that many rows.
pub(crate) fn row_total(pieces: &[Piece]) -> VortexResult<u64>
    ensures { Answers result (pieces_count pieces.now) }
{
    total(pieces).ok_or(VortexError::NoMemory)
}

/// As many nulls as pieces give rows.
pub(crate) fn null_pieces(pieces: &[Piece]) -> VortexResult<ArrayRef>
    ensures { Answers result (nulls (pieces_count pieces.now)) }
{
    Ok(ArrayRef::null(row_total(pieces)?))
}

/// A struct node over fields that its constructor accepts, with copies of the names.
pub(crate) fn plain_struct(
    alloc: Global,
    names: &Names,
    fields: Arrays,
    len: u64,
    valid: Option<Mask>,
    nullability: Nullability,
) -> VortexResult<ArrayRef>
    requires { structure_refusal names.now (of_list fields) len valid nullability ≡ None }
    ensures { Answers result (structure names.now (of_list fields) len (kept valid) nullability) }
{
    let names = copied_names(alloc, names)?;
    match ArrayRef::structure(alloc, names, fields, len, valid, nullability) {
        Ok(tree) => Ok(tree),
        Err(refused) => Err(refused.error),
    }
}

/// A list node over elements and `u64` offsets that its constructor accepts. Reads no offset.
pub(crate) fn plain_list(
    alloc: Global,
    elements: ArrayRef,
    offsets: Vec<u64>,
    valid: Option<Mask>,
    nullability: Nullability,
) -> VortexResult<ArrayRef>
    requires { list_refusal elements (primitive U64 (map pos offsets.items) None NonNullable) valid nullability ≡ None }
    ensures { Answers result (list elements (primitive U64 (map pos offsets.items) None NonNullable) (kept valid) nullability) }
{
    let offsets = Ints::U64(IntList::from_vec(offsets));
    let offsets = ArrayRef::primitive_of(offsets, None, Nullability::NonNullable);
    match ArrayRef::list_of_offsets(alloc, elements, offsets, valid, nullability) {
        Ok(tree) => Ok(tree),
        Err(refused) => Err(refused.error),
    }
}

/// A fixed-size list node over elements that its constructor accepts.
pub(crate) fn plain_fixed(
    alloc: Global,
    elements: ArrayRef,
    size: u32,
    len: u64,
    valid: Option<Mask>,
    nullability: Nullability,
) -> VortexResult<ArrayRef>
    requires { fixed_size_list_refusal elements size len valid nullability ≡ None }
    ensures { Answers result (fixed_size_list elements size len (kept valid) nullability) }
{
    match ArrayRef::fixed_size_list(alloc, elements, size, len, valid, nullability) {
        Ok(tree) => Ok(tree),
        Err(refused) => Err(refused.error),
    }
}

/// The offsets into `elements`, decoded to words of 64 bits.
pub(crate) fn offset_words(
    alloc: Global,
    elements: &ArrayRef,
    offsets: &ArrayRef,
) -> VortexResult<Ints>
    requires integers { IsTrue (is_integer (tree_type offsets.now)) }
    requires not_null { is_nullable (tree_type offsets.now) ≡ false }
    requires ends { IsTrue (are_offsets (length (rows elements.now)) (rows offsets.now)) }
    ensures { OrMemory result (λ words. (ptype_of words ≡ U64) × (map int (wholes_of words) ≡ rows offsets.now)) }
{
    let _items = elements.len();
    offsets.known();
    let (ints, _) = offsets.integers(alloc)?;
    ints.as_ints().in_unsigned(alloc, PType::U64)
}

/// The words of a list of them.
pub(crate) fn as_words(ints: &Ints) -> &[u64]
    requires { ptype_of ints.now ≡ U64 }
    ensures { map pos result.now ≡ wholes_of ints.now }
{
    match ints {
        Ints::U64(words) => words.as_slice(),
        _ => unreachable!(),
    }
}
