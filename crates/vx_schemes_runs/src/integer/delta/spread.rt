//! The spread of the differences from row to row: the greatest less the least.

ghost use Rattle.std.specs.Prelude.{◌≡◌, ◌≤ℤ◌, ◌-ℤ◌, IsTrue, length, map, pos};
ghost use Rattle.vx_base.specs.Answers.{Answers};
ghost use Rattle.vx_base.specs.PlainType.{is_integer};
ghost use Rattle.vx_blocks.specs.Deltas.{deltas, filled};
ghost use Rattle.vx_blocks.specs.Optional.{optional_rows};
ghost use Rattle.vx_model.specs.Column.{column_of};
ghost use Rattle.vx_model.specs.Plain.{IsPlain};
ghost use Rattle.vx_model.specs.TreeType.{tree_type};
ghost use Rattle.vx_values.specs.IntsOf.{ptype_of, wholes_of};
ghost use Rattle.vx_schemes_runs.specs.Delta.Meaning.{spread_within};
ghost use Rattle.vx_schemes_runs.specs.Delta.Tree.{differences_of};

use std::alloc::Global;
use vx_array::ArrayRef;
use vx_base::{Integer, Mask, VortexResult};
use vx_blocks::{BLOCK_ROWS, difference, greater, item_or, lesser};
use vx_schemes_common::mask_of;
use vx_values::Ints;

/// The spread of the differences of a plain column of integers, in one pass that stores none of them; None where it is
/// above `most`, which is tested before each block, so that a column of wide differences is soon given up.
#[tactic(auto, using(vx_model::proofs::PrimitiveLemmas::plain_roots))]
pub(crate) fn spread_of_differences(
    alloc: Global,
    array: &ArrayRef,
    most: u64,
) -> VortexResult<Option<u64>>
    requires plain { IsPlain array.now }
    requires integer { IsTrue (is_integer (tree_type array.now)) }
    ensures { Answers result (spread_within most (differences_of (column_of array.now))) }
{
    let (values, valid, _) = array.as_primitive();
    let valid = mask_of(alloc, valid, values.len())?;
    Ok(spread_of_ints(values, &valid, most))
}

macro_rules! spread_by_type {
    ($ints:expr, $bits:expr, $most:expr; $($kind:ident),*) => {
        match $ints {
            $(Ints::$kind(items) => spread_of(items.as_slice(), $bits, $most),)*
        }
    };
}

// The spread of the differences of integers and a validity bit for each.
fn spread_of_ints(ints: &Ints, valid: &Mask, most: u64) -> Option<u64>
    requires { length valid.now ≡ length (wholes_of ints.now) }
    ensures { result ≡ spread_within most (deltas (ptype_of ints.now) (filled (optional_rows (wholes_of ints.now) valid.now))) }
{
    let bits = valid.as_slice();
    spread_by_type!(ints, bits, most; U8, U16, U32, U64, I8, I16, I32, I64)
}

// The spread of the differences of a list of one type. At a block's first row the difference is 0, which is where the
// least and the greatest start.
fn spread_of<T: Integer>(items: &[T], bits: &[bool], most: u64) -> Option<u64>
    requires { length bits.now ≡ length items.now }
    ensures { result ≡ spread_within most (deltas T.kind (filled (optional_rows (map T.whole items.now) bits.now))) }
{
    let zero = T::zero();
    let (mut last, mut least, mut greatest) = (zero, zero, zero);
    for row in 0..items.len() {
        let item = item_or(bits[row], items[row], last);
        if row % BLOCK_ROWS != 0 {
            let step = difference(item, last);
            least = lesser(least, step);
            greatest = greater(greatest, step);
        } else if apart(least, greatest) > most {
            return None;
        }
        last = item;
    }
    let span = apart(least, greatest);
    if span > most { None } else { Some(span) }
}

// greatest - least.
fn apart<T: Integer>(least: T, greatest: T) -> u64
    requires { T.whole least ≤ℤ T.whole greatest }
    ensures { pos result ≡ T.whole greatest -ℤ T.whole least }
{
    (greatest.to_whole() - least.to_whole()) as u64
}
