//! A timestamp in parts of any size: what rows in parts are compared with.

ghost use Rattle.std.specs.Prelude.{◌≡◌, ◌<ℤ◌, IfSome, IsTrue, length, pos, replicate, true};
ghost use Rattle.vx_base.specs.Integers.{lies_in};
ghost use Rattle.vx_base.specs.PlainType.{is_flat};
ghost use Rattle.vx_base.specs.PlainValue.{int};
ghost use Rattle.vx_base.specs.declared.ptype.PType.TheVariants.{I64};
ghost use Rattle.vx_datetime.specs.Moments.{moment_parts};
ghost use Rattle.vx_model.specs.Rows.{rows};
ghost use Rattle.vx_model.specs.TreeType.{tree_type};
ghost use Rattle.vx_time.specs.PartsOf.{parts_of};

use vx_array::{ArrayRef, Node};
use vx_temporal::SECONDS_PER_DAY;

/// The parts of a timestamp. The days of one of 64 bits may pass 32 bits, which `split` refuses.
#[derive(Clone, Copy)]
pub(super) struct Moment {
    pub(super) days: i128,
    pub(super) seconds: i128,
    pub(super) subseconds: i128,
}

/// The parts of a timestamp in a unit of which `divisor` make a second, by division towards zero.
pub(super) fn moment_of(timestamp: i64, divisor: i64) -> Moment
    requires { pos 0 <ℤ divisor }
    ensures { moment_parts result ≡ parts_of divisor timestamp }
{
    let whole_seconds = timestamp / divisor;
    let days = whole_seconds / SECONDS_PER_DAY;
    let seconds = whole_seconds % SECONDS_PER_DAY;
    let subseconds = timestamp % divisor;
    Moment {
        days: i128::from(days),
        seconds: i128::from(seconds),
        subseconds: i128::from(subseconds),
    }
}

/// The timestamp that stands in every row of a Constant, None of null and of any other column.
pub(super) fn same_timestamp(other: &ArrayRef) -> Option<i64>
    requires { IsTrue (is_flat (tree_type other.now)) }
    ensures { IfSome result (λ t. (rows other.now ≡ replicate (length (rows other.now)) (int t)) × (lies_in I64 t ≡ true)) }
{
    match other.node() {
        Node::Constant(value, _) => match value.cell().integer() {
            Some(whole) => i64::try_from(whole).ok(),
            None => None,
        },
        _ => None,
    }
}
