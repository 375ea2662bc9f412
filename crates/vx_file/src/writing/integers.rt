//! Writers of integers: one in the width of its type, and lists of them.

ghost use Rattle.std.specs.Prelude.{◌≡◌, ◌≤◌, ◌++◌, OnOk, IsTrue, length, map, pos, take};
ghost use Rattle.vx_base.specs.Integers.{lies_in};
ghost use Rattle.vx_base.specs.declared.ptype.PType.TheVariants.{U8};
ghost use Rattle.vx_codec.specs.Lists.{spell_all};
ghost use Rattle.vx_spelling.specs.Fields.{integer, wide_integer};
ghost use Rattle.vx_values.specs.IntsOf.{ptype_of, wholes_of};

use std::alloc::AllocError;
use vx_base::{Integer, PType};
use vx_codec::put_fixed;
use vx_values::{Ints, known_bytes};

// How many integers are written to a buffer before it is appended.
const GROUP: usize = 64;

/// Appends an integer of a type, in the type's width.
pub(super) fn put_integer(out: &mut Vec<u8>, ptype: PType, whole: i128) -> Result<(), AllocError>
    requires { IsTrue (lies_in ptype whole) }
    ensures { OnOk result (out.new.items ≡ out.old.items ++ (integer ptype).spell whole) }
{
    put_fixed(out, whole.cast_unsigned(), ptype.byte_width() as u8)
}

/// Appends a whole number of 128 signed bits, in 16 bytes.
pub(super) fn put_wide(out: &mut Vec<u8>, whole: i128) -> Result<(), AllocError>
    ensures { OnOk result (out.new.items ≡ out.old.items ++ wide_integer.spell whole) }
{
    put_fixed(out, whole.cast_unsigned(), 16)
}

/// Appends integers of one type, one after another.
pub(super) fn put_ints(out: &mut Vec<u8>, ints: &Ints) -> Result<(), AllocError>
    ensures { OnOk result (out.new.items ≡ out.old.items ++ spell_all (integer (ptype_of ints.now)).spell (wholes_of ints.now)) }
{
    match ints {
        Ints::U8(items) => put_bytes(out, items.as_slice()),
        Ints::U16(items) => put_items(out, items.as_slice()),
        Ints::U32(items) => put_items(out, items.as_slice()),
        Ints::U64(items) => put_items(out, items.as_slice()),
        Ints::I8(items) => put_items(out, items.as_slice()),
        Ints::I16(items) => put_items(out, items.as_slice()),
        Ints::I32(items) => put_items(out, items.as_slice()),
        Ints::I64(items) => put_items(out, items.as_slice()),
    }
}

// Appends integers of one byte, which are spelled as they stand.
#[tactic(auto, using(crate::proofs::Bytes::spelled_bytes))]
fn put_bytes(out: &mut Vec<u8>, items: &[u8]) -> Result<(), AllocError>
    ensures { OnOk result (out.new.items ≡ out.old.items ++ spell_all (integer U8).spell (map (λ x. pos x) items.now)) }
{
    known_bytes(items);
    out.extend_from_slice(items)?;
    Ok(())
}

// Writes at most 64 integers to the front of a buffer, and returns how many bytes they take. Each is written with all 64
// bits, and the next one covers those above its own.
fn write_group<T: Integer>(buffer: &mut [u8], items: &[T]) -> usize
    requires few { length items.now ≤ 64 }
    requires room { length buffer.old ≡ 512 }
    ensures room { length buffer.new ≡ 512 }
    ensures within { result ≤ 512 }
    ensures bytes { take result buffer.new ≡ spell_all (integer T.kind).spell (map T.whole items.now) }
{
    let width = T::ptype().byte_width() as usize;
    let mut len = 0;
    for item in items {
        buffer[len..len + 8].copy_from_slice(&item.to_bits().to_le_bytes());
        len += width;
    }
    len
}

// Appends integers of one type, one after another.
fn put_items<T: Integer>(out: &mut Vec<u8>, items: &[T]) -> Result<(), AllocError>
    ensures { OnOk result (out.new.items ≡ out.old.items ++ spell_all (integer T.kind).spell (map T.whole items.now)) }
{
    let mut buffer = [0; 8 * GROUP];
    let mut rest = items;
    for _ in 0..items.len().div_ceil(GROUP) {
        let (front, after) = rest.split_at(rest.len().min(GROUP));
        let len = write_group(&mut buffer, front);
        out.extend_from_slice(&buffer[..len])?;
        rest = after;
    }
    Ok(())
}
