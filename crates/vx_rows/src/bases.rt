//! Types that differ in outermost nullability alone.

ghost use Rattle.std.specs.Prelude.{◌≡◌};
ghost use Rattle.vx_base.specs.PlainType.{same_base};
ghost use Rattle.vx_base.specs.TypeOf.{type_of};

use vx_base::DType;

/// Whether two types are equal up to outermost nullability.
pub(crate) fn are_alike(left: &DType, right: &DType) -> bool
    ensures { result ≡ same_base (type_of left.now) (type_of right.now) }
{
    left.same_base(right)
}
