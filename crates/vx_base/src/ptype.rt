//! The types of integers.

ghost use Rattle.std.specs.Prelude.{◌≡◌, ◌≤◌};
ghost use Rattle.vx_base.specs.Integers.{bits_of, bytes_of, natural_bits, is_signed, unsigned_of, signed_of, least, greatest};
ghost use Rattle.vx_base.specs.TypeText.{ptype_text};
ghost use Rattle.std.specs.Prelude.{not};

/// The eight integer types.
#[derive(Clone, Copy, Debug, PartialEq, Eq, Hash)]
pub enum PType {
    U8,
    U16,
    U32,
    U64,
    I8,
    I16,
    I32,
    I64,
}

impl PType {
    /// The width of a value in bits.
    pub fn bit_width(self) -> u32
        ensures width { result ≡ bits_of self }
        ensures most { result ≤ 64 }
    {
        match self {
            PType::U8 | PType::I8 => 8,
            PType::U16 | PType::I16 => 16,
            PType::U32 | PType::I32 => 32,
            PType::U64 | PType::I64 => 64,
        }
    }

    /// The width of a value in bytes.
    pub fn byte_width(self) -> u64
        ensures width { result ≡ bytes_of self }
        ensures most { result ≤ 8 }
    {
        match self {
            PType::U8 | PType::I8 => 1,
            PType::U16 | PType::I16 => 2,
            PType::U32 | PType::I32 => 4,
            PType::U64 | PType::I64 => 8,
        }
    }

    /// The bits of the greatest value: the width, less the sign bit of a signed type.
    pub fn natural_bits(self) -> u32
        ensures width { result ≡ natural_bits self }
        ensures most { result ≤ 64 }
    {
        match self {
            PType::U8 => 8,
            PType::U16 => 16,
            PType::U32 => 32,
            PType::U64 => 64,
            PType::I8 => 7,
            PType::I16 => 15,
            PType::I32 => 31,
            PType::I64 => 63,
        }
    }

    pub fn is_unsigned(self) -> bool
        ensures { result ≡ not (is_signed self) }
    {
        match self {
            PType::U8 | PType::U16 | PType::U32 | PType::U64 => true,
            PType::I8 | PType::I16 | PType::I32 | PType::I64 => false,
        }
    }

    /// The unsigned type of the same width.
    pub fn to_unsigned(self) -> PType
        ensures { result ≡ unsigned_of self }
    {
        match self {
            PType::U8 | PType::I8 => PType::U8,
            PType::U16 | PType::I16 => PType::U16,
            PType::U32 | PType::I32 => PType::U32,
            PType::U64 | PType::I64 => PType::U64,
        }
    }

    /// The signed type of the same width.
    pub fn to_signed(self) -> PType
        ensures { result ≡ signed_of self }
    {
        match self {
            PType::U8 | PType::I8 => PType::I8,
            PType::U16 | PType::I16 => PType::I16,
            PType::U32 | PType::I32 => PType::I32,
            PType::U64 | PType::I64 => PType::I64,
        }
    }

    /// The least value.
    pub fn least(self) -> i128
        ensures { result ≡ least self }
    {
        match self {
            PType::U8 | PType::U16 | PType::U32 | PType::U64 => 0,
            PType::I8 => -0x80,
            PType::I16 => -0x8000,
            PType::I32 => -0x8000_0000,
            PType::I64 => -0x8000_0000_0000_0000,
        }
    }

    /// The greatest value.
    pub fn greatest(self) -> i128
        ensures { result ≡ greatest self }
    {
        match self {
            PType::U8 => 0xff,
            PType::U16 => 0xffff,
            PType::U32 => 0xffff_ffff,
            PType::U64 => 0xffff_ffff_ffff_ffff,
            PType::I8 => 0x7f,
            PType::I16 => 0x7fff,
            PType::I32 => 0x7fff_ffff,
            PType::I64 => 0x7fff_ffff_ffff_ffff,
        }
    }

    /// The name, such as `u8`.
    pub fn name(self) -> &'static str
        ensures { result.now ≡ ptype_text self }
    {
        match self {
            PType::U8 => "u8",
            PType::U16 => "u16",
            PType::U32 => "u32",
            PType::U64 => "u64",
            PType::I8 => "i8",
            PType::I16 => "i16",
            PType::I32 => "i32",
            PType::I64 => "i64",
        }
    }
}
