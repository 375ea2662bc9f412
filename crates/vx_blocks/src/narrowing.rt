//! The narrowest integer type.

ghost use Rattle.std.specs.Prelude.{◌≡◌, Some, IsSome};
ghost use Rattle.vx_base.specs.Narrow.{narrow_of};

use vx_base::PType;

/// The narrowest type with `least` and `greatest` in range: unsigned where `least` is not negative, else signed. Requires
/// that 64 bits are enough.
pub fn narrow_type(least: i128, greatest: i128) -> PType
    requires { IsSome (narrow_of least greatest) }
    ensures { narrow_of least greatest ≡ Some result }
{
    if least >= 0 {
        if u8::try_from(greatest).is_ok() {
            PType::U8
        } else if u16::try_from(greatest).is_ok() {
            PType::U16
        } else if u32::try_from(greatest).is_ok() {
            PType::U32
        } else {
            PType::U64
        }
    } else if i8::try_from(least).is_ok() && i8::try_from(greatest).is_ok() {
        PType::I8
    } else if i16::try_from(least).is_ok() && i16::try_from(greatest).is_ok() {
        PType::I16
    } else if i32::try_from(least).is_ok() && i32::try_from(greatest).is_ok() {
        PType::I32
    } else {
        PType::I64
    }
}
