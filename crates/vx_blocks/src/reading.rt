//! Reading of packed rows.

ghost use Rattle.std.specs.Prelude.{◌≡◌, ◌<◌, ◌≤◌, ◌+◌, ◌*◌, ◌/◌, ◌%◌, ◌^◌, ℕ, pos, length, map, slice_index_or};
ghost use Rattle.vx_base.specs.Packed.{packed_number, packed_row, packed_size};
ghost use Rattle.vx_base.specs.Wrapping.{wrap};

use vx_base::Integer;

// Fewer than eight bytes as a word, little-endian.
#[cold]
#[inline(never)]
fn short_word(bytes: &[u8]) -> u64
    requires { length bytes.now < 8 }
    ensures { result ≡ packed_number 8 bytes.now }
{
    let mut word = 0;
    for i in 0..bytes.len() {
        word = (bytes[i] as u64) << (8 * i) | word;
    }
    word
}

// The eight bytes from `byte` on as a word, little-endian, with zeros past the end.
#[inline(always)]
fn word_at(packed: &[u8], byte: usize) -> u64
    requires { byte ≤ length packed.now }
    ensures { result ≡ packed_number 8 packed.now / 2 ^ (8 * byte) % 2 ^ 64 }
{
    let rest = &packed[byte..];
    match rest.first_chunk::<8>() {
        Some(bytes) => u64::from_le_bytes(*bytes),
        None => short_word(rest),
    }
}

// The eight bytes from `byte` on as a word, little-endian, all in bounds.
#[inline(always)]
fn whole_word(packed: &[u8], byte: usize) -> u64
    requires { byte + 8 ≤ length packed.now }
    ensures { result ≡ packed_number 8 packed.now / 2 ^ (8 * byte) % 2 ^ 64 }
{
    u64::from_le_bytes([
        packed[byte],
        packed[byte + 1],
        packed[byte + 2],
        packed[byte + 3],
        packed[byte + 4],
        packed[byte + 5],
        packed[byte + 6],
        packed[byte + 7],
    ])
}

// The low `width` bits of a word.
#[inline(always)]
fn low_bits(word: u64, width: u32) -> u64
    requires { width ≤ 64 }
    ensures { result ≡ word % 2 ^ width }
{
    if width == 64 {
        word
    } else {
        word & ((1 << width) - 1)
    }
}

// The row whose bits begin at `shift` in the word from `byte` on. Where the word is too short for it, they go on in the byte
// behind.
#[inline(always)]
fn row_of(packed: &[u8], word: u64, byte: usize, shift: u32, width: u32) -> u64
    requires shift { shift < 8 }
    requires width { width ≤ 64 }
    requires word { word ≡ packed_number 8 packed.now / 2 ^ (8 * byte) % 2 ^ 64 }
    requires room { 8 * byte + shift + width ≤ 8 * length packed.now }
    ensures { (row : ℕ) → 8 * byte + shift ≡ width * row → result ≡ packed_row packed.now width row }
{
    let low = word >> shift;
    if shift + width <= 64 {
        low_bits(low, width)
    } else {
        low_bits(low | (packed[byte + 8] as u64) << (64 - shift), width)
    }
}

/// The bits of a row, packed at `width` bits, at most 64. The row's whole block is in bounds of `packed`.
#[inline(always)]
pub fn get(packed: &[u8], width: u32, row: u64) -> u64
    requires width { width ≤ 64 }
    requires block { packed_size width (row + 1) ≤ length packed.now }
    ensures { result ≡ packed_row packed.now width row }
{
    // Eight rows are `width` bytes.
    let bit = row % 8 * width as u64;
    let byte = (row / 8 * width as u64 + bit / 8) as usize;
    row_of(packed, word_at(packed, byte), byte, (bit % 8) as u32, width)
}

// Reads the rows from 8 * `eight` on, as many as `out` has, eight at a time: these begin at a whole byte. Each is wrapped into
// the type.
#[inline(always)]
pub(crate) fn read_eights<T: Integer, const W: usize>(packed: &[u8], eight: usize, out: &mut [T])
    requires some { 0 < W }
    requires width { W ≤ 64 }
    requires eights { length out.old % 8 ≡ 0 }
    requires room { (eight + length out.old / 8) * W + 8 ≤ length packed.now }
    ensures { (k : ℕ) → k < length out.new → slice_index_or (map T.whole out.new) k (pos 0) ≡ wrap T.kind (pos (packed_row packed.now W (8 * eight + k))) }
{
    for g in 0..out.len() / 8 {
        for j in 0..8 {
            let byte = (eight + g) * W + j * W / 8;
            let word = whole_word(packed, byte);
            let row = row_of(packed, word, byte, (j * W % 8) as u32, W as u32);
            out[8 * g + j] = T::from_low_bits(row);
        }
    }
}
