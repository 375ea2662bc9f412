//! How integer types are numbered: unsigned before signed, each by width.

ghost use Rattle.std.specs.Prelude.{◌≡◌, ◌<◌, ◌≤◌, MatchOption};
ghost use Rattle.vx_base.specs.PlainType.{ptype_number};

use vx_base::PType;

/// The number of an integer type.
pub fn ptype_number(ptype: PType) -> u8
    ensures number { result ≡ ptype_number ptype }
    ensures most { result < 8 }
{
    match ptype {
        PType::U8 => 0,
        PType::U16 => 1,
        PType::U32 => 2,
        PType::U64 => 3,
        PType::I8 => 4,
        PType::I16 => 5,
        PType::I32 => 6,
        PType::I64 => 7,
    }
}

/// The integer type with a number, None exactly from 8 on.
pub fn ptype_of(number: u64) -> Option<PType>
    ensures { MatchOption result (8 ≤ number) (λ ptype. ptype_number ptype ≡ number) }
{
    match number {
        0 => Some(PType::U8),
        1 => Some(PType::U16),
        2 => Some(PType::U32),
        3 => Some(PType::U64),
        4 => Some(PType::I8),
        5 => Some(PType::I16),
        6 => Some(PType::I32),
        7 => Some(PType::I64),
        _ => None,
    }
}
