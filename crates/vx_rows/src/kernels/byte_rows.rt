//! An operator between each text or binary of a list and one other.

ghost use Rattle.std.specs.Prelude.{◌≡◌, length, map};
ghost use Rattle.vx_base.specs.Answers.{Answers};
ghost use Rattle.vx_rows.specs.Pairs.{bytes_hold};

use super::holding::holds;
use std::alloc::Global;
use vx_base::{ByteRows, Bytes, Mask, VortexResult};
use vx_rules::CompareOperator;

/// Whether the operator holds between each row and one other value.
pub(crate) fn holds_with_bytes(
    alloc: Global,
    operator: CompareOperator,
    rows: &ByteRows,
    value: &[u8],
) -> VortexResult<Mask>
    ensures { Answers result (map (bytes_hold operator value.now) rows.now) }
{
    let mut bits = vec![in alloc; false; rows.len() as usize]?;
    write_by_operator(operator, rows.as_slice(), value, bits.as_mut_slice());
    Ok(Mask::from_bits(bits))
}

// Writes whether the operator holds: one loop for each operator, which is a constant in it.
fn write_by_operator(operator: CompareOperator, rows: &[Bytes], value: &[u8], bits: &mut [bool])
    requires { length bits.old ≡ length rows.now }
    ensures { bits.new ≡ map (bytes_hold operator value.now) rows.now }
{
    match operator {
        CompareOperator::Eq => write_holds(CompareOperator::Eq, rows, value, bits),
        CompareOperator::NotEq => write_holds(CompareOperator::NotEq, rows, value, bits),
        CompareOperator::Gt => write_holds(CompareOperator::Gt, rows, value, bits),
        CompareOperator::Gte => write_holds(CompareOperator::Gte, rows, value, bits),
        CompareOperator::Lt => write_holds(CompareOperator::Lt, rows, value, bits),
        CompareOperator::Lte => write_holds(CompareOperator::Lte, rows, value, bits),
    }
}

// Writes whether the operator holds between each row and the other value.
#[inline(always)]
fn write_holds(operator: CompareOperator, rows: &[Bytes], value: &[u8], bits: &mut [bool])
    requires { length bits.old ≡ length rows.now }
    ensures { bits.new ≡ map (bytes_hold operator value.now) rows.now }
{
    for row in 0..rows.len() {
        bits[row] = bytes_hold(operator, rows[row].as_slice(), value);
    }
}

// Whether the operator holds of two values. Equal ones are told without their order, which reads one byte after another.
#[inline(always)]
fn bytes_hold(operator: CompareOperator, row: &[u8], value: &[u8]) -> bool
    ensures { result ≡ bytes_hold operator value.now row.now }
{
    match operator {
        CompareOperator::Eq => row == value,
        CompareOperator::NotEq => row != value,
        _ => holds(operator, row.cmp(value)),
    }
}
