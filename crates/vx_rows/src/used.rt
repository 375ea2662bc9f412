//! The values that stand in the rows of a dictionary: those that its codes name, found in one pass over the codes.

ghost use Rattle.std.specs.List.{list_all};
ghost use Rattle.std.specs.Prelude.{◌≡◌, ◌<◌, IfSome, IsTrue, fold, length, map, pos, true};
ghost use Rattle.vx_base.specs.Answers.{Answers, OrMemory};
ghost use Rattle.vx_base.specs.PlainType.{is_integer};
ghost use Rattle.vx_base.specs.PlainValue.{int};
ghost use Rattle.vx_model.specs.Refusals.{validity_length};
ghost use Rattle.vx_model.specs.Rows.{row_at, rows, valid_rows};
ghost use Rattle.vx_model.specs.TreeType.{tree_type};
ghost use Rattle.vx_model.specs.WellFormed.{is_place};
ghost use Rattle.vx_rows.specs.Readable.{is_whole, lent_rows};
ghost use Rattle.vx_rows.specs.Used.{IsUsed, marked, named_by};
ghost use Rattle.vx_values.specs.IntsOf.{wholes_of};

use crate::counting::nulls_in;
use crate::held::readable;
use crate::ints::with_ints;
use crate::lent::{Lent, rows_of};
use std::alloc::Global;
use vx_array::ArrayRef;
use vx_base::{Integer, Mask, VortexResult};
use vx_values::{Ints, is_valid};

/// Which values the codes of a dictionary name, and how many of the codes are null.
#[derive(Drop)]
pub(crate) struct Used {
    /// A bit for each value.
    pub(crate) named: Mask,
    pub(crate) nulls: u64,
}

/// The values that codes name, of `len` values. None where there are more values than codes, or one code stands for all rows: a bit
/// for each value would then take more memory than the codes.
pub(crate) fn used_by(alloc: Global, codes: &ArrayRef, len: u64) -> VortexResult<Option<Used>>
    requires integers { IsTrue (is_integer (tree_type codes.now)) }
    requires places { IsTrue (list_all (is_place len) (rows codes.now)) }
    ensures { OrMemory result (λ found. IfSome found (IsUsed len (rows codes.now))) }
{
    if len > codes.len() {
        return Ok(None);
    }
    let read = readable(alloc, codes)?;
    used_by_rows(alloc, rows_of(&read), len)
}

// `used_by` of codes that are read where they stand.
fn used_by_rows(alloc: Global, codes: Lent<'_>, len: u64) -> VortexResult<Option<Used>>
    requires whole { IsTrue (is_whole codes) }
    requires places { IsTrue (list_all (is_place len) (lent_rows codes)) }
    ensures { OrMemory result (λ found. IfSome found (IsUsed len (lent_rows codes.entry))) }
{
    match codes {
        Lent::Ints(items, valid) => Ok(Some(used_by_ints(alloc, items, valid, len)?)),
        _ => Ok(None),
    }
}

// `used_by` of stored codes.
#[tactic(auto, using(crate::proofs::CountLemmas::nulls_of_ints))]
fn used_by_ints(alloc: Global, codes: &Ints, valid: &Option<Mask>, len: u64) -> VortexResult<Used>
    requires whole { validity_length valid.now (length (wholes_of codes.now)) ≡ true }
    requires places { IsTrue (list_all (is_place len) (valid_rows valid.now (map int (wholes_of codes.now)))) }
    ensures { OrMemory result (IsUsed len (valid_rows valid.now (map int (wholes_of codes.now)))) }
{
    let named = named_values(alloc, codes, valid, len)?;
    let nulls = nulls_in(valid);
    Ok(Used { named, nulls })
}

// A bit for each of `len` values: whether a code names it.
fn named_values(alloc: Global, codes: &Ints, valid: &Option<Mask>, len: u64) -> VortexResult<Mask>
    requires whole { validity_length valid.now (length (wholes_of codes.now)) ≡ true }
    requires places { IsTrue (list_all (is_place len) (valid_rows valid.now (map int (wholes_of codes.now)))) }
    ensures { Answers result (named_by len (valid_rows valid.now (map int (wholes_of codes.now)))) }
{
    let mut named = vec![in alloc; false; len as usize]?;
    mark(codes, valid, named.as_mut_slice());
    Ok(Mask::from_bits(named))
}

// Sets the bit of each value that a code names.
fn mark(codes: &Ints, valid: &Option<Mask>, named: &mut [bool])
    requires whole { validity_length valid.now (length (wholes_of codes.now)) ≡ true }
    requires places { IsTrue (list_all (is_place (length named.old)) (valid_rows valid.now (map int (wholes_of codes.now)))) }
    ensures { named.new ≡ fold marked named.old (valid_rows valid.now (map int (wholes_of codes.now))) }
{
    with_ints!(codes, items => mark_items(items.as_slice(), valid, named))
}

// `mark` of codes of one type.
fn mark_items<T: Integer>(codes: &[T], valid: &Option<Mask>, named: &mut [bool])
    requires whole { validity_length valid.now (length codes.now) ≡ true }
    requires places { IsTrue (list_all (is_place (length named.old)) (valid_rows valid.now (map int (map T.whole codes.now)))) }
    ensures { named.new ≡ fold marked named.old (valid_rows valid.now (map int (map T.whole codes.now))) }
{
    for row in 0..codes.len() {
        mark_row(codes, valid, row, named);
    }
}

// Sets the bit of the value that the code in a row names, if it isn't null.
#[inline(always)]
fn mark_row<T: Integer>(codes: &[T], valid: &Option<Mask>, row: usize, named: &mut [bool])
    requires whole { validity_length valid.now (length codes.now) ≡ true }
    requires in_range { row < length codes.now }
    requires place { IsTrue (is_place (length named.old) (row_at (valid_rows valid.now (map int (map T.whole codes.now))) row)) }
    ensures { named.new ≡ marked named.old (row_at (valid_rows valid.now (map int (map T.whole codes.now))) row) }
{
    if is_valid(valid, row as u64) {
        let place = place_of(codes[row], named.len());
        named[place] = true;
    }
}

// A code in bounds as an index.
#[inline(always)]
#[tactic(auto, using(crate::proofs::UsedLemmas::index_is))]
fn place_of<T: Integer>(code: T, len: usize) -> usize
    requires { IsTrue (is_place len (int (T.whole code))) }
    ensures within { result < len }
    ensures is { T.whole code ≡ pos result }
{
    code.to_whole() as usize
}
