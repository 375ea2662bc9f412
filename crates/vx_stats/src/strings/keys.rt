//! What is counted of texts and binaries: their lengths with their first four bytes.

ghost use Rattle.std.specs.Prelude.{◌≡◌, ◌≢◌, get_or, IsTrue};
ghost use Rattle.std.specs.Int.{w32, from_le_bytes, to_le_bytes};
ghost use Rattle.vx_base.specs.PlainValue.{is_short};
ghost use Rattle.vx_stats.specs.Keys.{first_four, key_of, word_of, key_in};
ghost use Rattle.vx_stats.specs.Words.{free};

// The byte at a place, 0 behind the last.
#[inline(always)]
fn byte_or_zero(bytes: &[u8], place: usize) -> u8
    ensures { result ≡ get_or bytes.now place 0 }
{
    match bytes.get(place) {
        Some(byte) => *byte,
        None => 0,
    }
}

// The first four bytes as a number, the first one lowest; 0 in place of those that are missing.
#[inline(always)]
fn first_four(bytes: &[u8]) -> u32
    ensures number { result ≡ from_le_bytes w32 (first_four bytes.now) }
    ensures bytes { to_le_bytes w32 result ≡ first_four bytes.now }
{
    if bytes.len() >= 4 {
        return u32::from_le_bytes([bytes[0], bytes[1], bytes[2], bytes[3]]);
    }
    u32::from_le_bytes([
        byte_or_zero(bytes, 0),
        byte_or_zero(bytes, 1),
        byte_or_zero(bytes, 2),
        byte_or_zero(bytes, 3),
    ])
}

/// The length and the first four bytes in one word.
#[inline(always)]
pub(crate) fn word_of(bytes: &[u8]) -> u64
    requires { IsTrue (is_short bytes.now) }
    ensures word { result ≡ word_of (key_of bytes.now) }
    ensures key { key_in result ≡ key_of bytes.now }
    ensures some { result ≢ free }
{
    u64::from(first_four(bytes)) << 32 | bytes.len() as u64
}
