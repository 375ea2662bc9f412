//! Zigzag encoding: signed integers as unsigned ones, small where they are near 0.

ghost use Rattle.std.specs.Prelude.{◌≡◌};
ghost use Rattle.vx_base.specs.ZigZag.{zigzag, unzigzag};

/// 2v, or -2v - 1 where v is negative.
#[inline(always)]
pub fn zigzag(value: i64) -> u64
    ensures { result ≡ zigzag value }
{
    if value < 0 {
        (-1 - value) as u64 * 2 + 1
    } else {
        value as u64 * 2
    }
}

/// The inverse of `zigzag`.
#[inline(always)]
pub fn unzigzag(value: u64) -> i64
    ensures { result ≡ unzigzag value }
{
    let half = (value / 2) as i64;
    if value % 2 == 0 { half } else { -1 - half }
}
