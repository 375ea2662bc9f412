//! The eight integer types behind one trait. Each impl is written out, since `rt verdict` refuses one that a macro of the
//! repository writes.

ghost use Rattle.std.specs.Prelude.{◌≡◌, ◌<◌, ◌%◌, ◌^◌, ◌↔◌, ℤ, pos, IsTrue, refl, MatchOption, false, true};
ghost use Rattle.vx_base.specs.declared.ptype.PType.{PType};
ghost use Rattle.vx_base.specs.declared.ptype.PType.TheVariants.{U8, U16, U32, U64, I8, I16, I32, I64};
ghost use Rattle.vx_base.specs.Integers.{lies_in, bits_of, bits_in};
ghost use Rattle.vx_base.specs.Wrapping.{from_bits};
ghost use Rattle.std.proofs.Common.{rules};
ghost use Rattle.std.specs.Ordering.{int_cmp};
ghost use Rattle.vx_base.specs.Ordered.{cmp_pos};

use crate::ptype::PType;
use std::hash::Hash;

/// An integer type. Contracts see its values as whole numbers; equality, order and
/// hash are those of the whole numbers.
pub trait Integer: Copy + Drop + Ord + Hash {
    // A value as a whole number.
    ghost whole: { Self → ℤ };
    // The type, as a value.
    ghost kind: { PType };

    fn ptype() -> PType
        ensures { result ≡ kind };

    /// The value as a whole number, which is in the range of the type.
    fn to_whole(self) -> i128
        ensures value { result ≡ whole self }
        ensures held { IsTrue (lies_in kind (whole self)) };

    /// The value that is this whole number, None exactly where it is out of the type's range.
    fn from_whole(number: i128) -> Option<Self>
        ensures { MatchOption result (lies_in kind number ≡ false) (λ x. whole x ≡ number) };

    /// The two's complement, zero-extended to 64 bits.
    fn to_bits(self) -> u64
        ensures value { result ≡ bits_in kind (whole self) }
        ensures small { result < 2 ^ bits_of kind };

    /// The value whose two's complement is the low bits of `bits`; higher bits than the type has are ignored.
    fn from_low_bits(bits: u64) -> Self
        ensures { whole result ≡ from_bits kind (bits % 2 ^ bits_of kind) };

    fn zero() -> Self
        ensures { whole result ≡ pos 0 };

    ghost same: { (a b : Self) → IsTrue (Self.eq a b) ↔ (whole a ≡ whole b) };

    ghost ordered: { (a b : Self) → Self.cmp a b ≡ int_cmp (whole a) (whole b) };

    ghost hashed: { (a b : Self) → whole a ≡ whole b → Self.hash_input a ≡ Self.hash_input b };
}

impl Integer for u8 {
    ghost whole = { λ x. pos x };

    ghost kind = { U8 };

    fn ptype() -> PType {
        PType::U8
    }

    #[inline(always)]
    fn to_whole(self) -> i128 {
        self as i128
    }

    #[inline(always)]
    fn from_whole(number: i128) -> Option<Self> {
        u8::try_from(number).ok()
    }

    #[inline(always)]
    fn to_bits(self) -> u64 {
        self as u64
    }

    #[inline(always)]
    fn from_low_bits(bits: u64) -> Self {
        (bits % 256) as u8
    }

    #[inline(always)]
    fn zero() -> Self {
        0
    }

    ghost same = { Prim.search rules };

    ghost ordered = { cmp_pos };

    ghost hashed = { Prim.search rules };
}

impl Integer for u16 {
    ghost whole = { λ x. pos x };

    ghost kind = { U16 };

    fn ptype() -> PType {
        PType::U16
    }

    #[inline(always)]
    fn to_whole(self) -> i128 {
        self as i128
    }

    #[inline(always)]
    fn from_whole(number: i128) -> Option<Self> {
        u16::try_from(number).ok()
    }

    #[inline(always)]
    fn to_bits(self) -> u64 {
        self as u64
    }

    #[inline(always)]
    fn from_low_bits(bits: u64) -> Self {
        (bits % 65536) as u16
    }

    #[inline(always)]
    fn zero() -> Self {
        0
    }

    ghost same = { Prim.search rules };

    ghost ordered = { cmp_pos };

    ghost hashed = { Prim.search rules };
}

impl Integer for u32 {
    ghost whole = { λ x. pos x };

    ghost kind = { U32 };

    fn ptype() -> PType {
        PType::U32
    }

    #[inline(always)]
    fn to_whole(self) -> i128 {
        self as i128
    }

    #[inline(always)]
    fn from_whole(number: i128) -> Option<Self> {
        u32::try_from(number).ok()
    }

    #[inline(always)]
    fn to_bits(self) -> u64 {
        self as u64
    }

    #[inline(always)]
    fn from_low_bits(bits: u64) -> Self {
        (bits % 4294967296) as u32
    }

    #[inline(always)]
    fn zero() -> Self {
        0
    }

    ghost same = { Prim.search rules };

    ghost ordered = { cmp_pos };

    ghost hashed = { Prim.search rules };
}

impl Integer for u64 {
    ghost whole = { λ x. pos x };

    ghost kind = { U64 };

    fn ptype() -> PType {
        PType::U64
    }

    #[inline(always)]
    fn to_whole(self) -> i128 {
        self as i128
    }

    #[inline(always)]
    fn from_whole(number: i128) -> Option<Self> {
        u64::try_from(number).ok()
    }

    #[inline(always)]
    fn to_bits(self) -> u64 {
        self
    }

    #[inline(always)]
    fn from_low_bits(bits: u64) -> Self {
        bits
    }

    #[inline(always)]
    fn zero() -> Self {
        0
    }

    ghost same = { Prim.search rules };

    ghost ordered = { cmp_pos };

    ghost hashed = { Prim.search rules };
}

impl Integer for i8 {
    ghost whole = { λ x. x };

    ghost kind = { I8 };

    fn ptype() -> PType {
        PType::I8
    }

    #[inline(always)]
    fn to_whole(self) -> i128 {
        self as i128
    }

    #[inline(always)]
    fn from_whole(number: i128) -> Option<Self> {
        i8::try_from(number).ok()
    }

    #[inline(always)]
    fn to_bits(self) -> u64 {
        self.cast_unsigned() as u64
    }

    #[inline(always)]
    fn from_low_bits(bits: u64) -> Self {
        ((bits % 256) as u8).cast_signed()
    }

    #[inline(always)]
    fn zero() -> Self {
        0
    }

    ghost same = { Prim.search rules };

    ghost ordered = { λ a b. refl };

    ghost hashed = { Prim.search rules };
}

impl Integer for i16 {
    ghost whole = { λ x. x };

    ghost kind = { I16 };

    fn ptype() -> PType {
        PType::I16
    }

    #[inline(always)]
    fn to_whole(self) -> i128 {
        self as i128
    }

    #[inline(always)]
    fn from_whole(number: i128) -> Option<Self> {
        i16::try_from(number).ok()
    }

    #[inline(always)]
    fn to_bits(self) -> u64 {
        self.cast_unsigned() as u64
    }

    #[inline(always)]
    fn from_low_bits(bits: u64) -> Self {
        ((bits % 65536) as u16).cast_signed()
    }

    #[inline(always)]
    fn zero() -> Self {
        0
    }

    ghost same = { Prim.search rules };

    ghost ordered = { λ a b. refl };

    ghost hashed = { Prim.search rules };
}

impl Integer for i32 {
    ghost whole = { λ x. x };

    ghost kind = { I32 };

    fn ptype() -> PType {
        PType::I32
    }

    #[inline(always)]
    fn to_whole(self) -> i128 {
        self as i128
    }

    #[inline(always)]
    fn from_whole(number: i128) -> Option<Self> {
        i32::try_from(number).ok()
    }

    #[inline(always)]
    fn to_bits(self) -> u64 {
        self.cast_unsigned() as u64
    }

    #[inline(always)]
    fn from_low_bits(bits: u64) -> Self {
        ((bits % 4294967296) as u32).cast_signed()
    }

    #[inline(always)]
    fn zero() -> Self {
        0
    }

    ghost same = { Prim.search rules };

    ghost ordered = { λ a b. refl };

    ghost hashed = { Prim.search rules };
}

impl Integer for i64 {
    ghost whole = { λ x. x };

    ghost kind = { I64 };

    fn ptype() -> PType {
        PType::I64
    }

    #[inline(always)]
    fn to_whole(self) -> i128 {
        self as i128
    }

    #[inline(always)]
    fn from_whole(number: i128) -> Option<Self> {
        i64::try_from(number).ok()
    }

    #[inline(always)]
    fn to_bits(self) -> u64 {
        self.cast_unsigned()
    }

    #[inline(always)]
    fn from_low_bits(bits: u64) -> Self {
        bits.cast_signed()
    }

    #[inline(always)]
    fn zero() -> Self {
        0
    }

    ghost same = { Prim.search rules };

    ghost ordered = { λ a b. refl };

    ghost hashed = { Prim.search rules };
}
