//! Casts of scalars.

ghost use Rattle.std.specs.Prelude.{◌≡◌};
ghost use Rattle.vx_base.specs.Answers.{Decided};
ghost use Rattle.vx_base.specs.Casts.{is_cast, cast_refusal};
ghost use Rattle.vx_base.specs.PlainScalar.{scalar};
ghost use Rattle.vx_base.specs.PlainType.{same_base};
ghost use Rattle.vx_base.specs.TypeOf.{type_of};

use super::Scalar;
use super::fitting::fits;
use crate::dtype::DType;
use crate::error::{VortexError, VortexResult};
use std::alloc::Global;

impl Scalar {
    /// The value in another integer type, or in a type that differs in outermost nullability alone. Refuses MismatchedTypes
    /// for any other pair of types, then CastRefused where the number is out of range, or null in a non-nullable type.
    pub fn cast(&self, alloc: Global, dtype: &DType) -> VortexResult<Scalar>
        ensures { Decided (cast_refusal self.now.dtype (type_of dtype.now) self.now.value) (λ s. s ≡ scalar (type_of dtype.now) self.now.value) result }
    {
        if !is_cast(&self.dtype, dtype) {
            return Err(VortexError::MismatchedTypes);
        }
        if !fits(dtype, &self.value) {
            return Err(VortexError::CastRefused);
        }
        let dtype = dtype.copy(alloc)?;
        let value = self.value.copy(alloc)?;
        Ok(Scalar { dtype, value })
    }
}

// Whether there is a cast between the types.
fn is_cast(from: &DType, to: &DType) -> bool
    ensures { result ≡ is_cast (type_of from.now) (type_of to.now) }
{
    (from.is_integer() && to.is_integer()) || has_base(from, to)
}

// Whether the types are equal up to outermost nullability.
fn has_base(from: &DType, to: &DType) -> bool
    ensures { result ≡ same_base (type_of from.now) (type_of to.now) }
{
    from.same_base(to)
}
