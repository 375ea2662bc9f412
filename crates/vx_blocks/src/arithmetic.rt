//! Arithmetic of kernels on single integers.

ghost use Rattle.std.specs.Prelude.{◌≡◌, ◌+ℤ◌, ◌-ℤ◌, if◌then◌else◌};
ghost use Rattle.std.specs.Int.{int_min, int_max};
ghost use Rattle.vx_base.specs.Wrapping.{wrap};

use vx_base::Integer;

/// `a + b`, wrapping.
#[inline(always)]
pub fn sum<T: Integer>(a: T, b: T) -> T
    ensures { T.whole result ≡ wrap T.kind (T.whole a +ℤ T.whole b) }
{
    let (_a, _b) = (a.to_whole(), b.to_whole());
    T::from_low_bits(a.to_bits().wrapping_add(b.to_bits()))
}

/// `a - b`, wrapping.
#[inline(always)]
pub fn difference<T: Integer>(a: T, b: T) -> T
    ensures { T.whole result ≡ wrap T.kind (T.whole a -ℤ T.whole b) }
{
    let (_a, _b) = (a.to_whole(), b.to_whole());
    T::from_low_bits(a.to_bits().wrapping_sub(b.to_bits()))
}

/// `item` where the row is valid, else `last`.
#[inline(always)]
pub fn item_or<T: Integer>(valid: bool, item: T, last: T) -> T
    ensures { T.whole result ≡ (if valid then T.whole item else T.whole last) }
{
    if valid { item } else { last }
}

/// The minimum.
#[inline(always)]
pub fn lesser<T: Integer>(a: T, b: T) -> T
    ensures { T.whole result ≡ int_min (T.whole a) (T.whole b) }
{
    a.min(b)
}

/// The maximum.
#[inline(always)]
pub fn greater<T: Integer>(a: T, b: T) -> T
    ensures { T.whole result ≡ int_max (T.whole a) (T.whole b) }
{
    a.max(b)
}
