//! Columns of truth values, texts, binaries and timestamps, compressed.

ghost use Rattle.std.specs.Prelude.{◌≡◌, ◌≢◌, true, false};
ghost use Rattle.vx_buffers.specs.Given.{given_bytes, given_timestamps, given_truths};
ghost use Rattle.vx_ffi.specs.Compressed.{compressed_rows};
ghost use Rattle.vx_ffi.specs.Outcomes.{Holds, followed_by, raised};
ghost use Rattle.vx_ffi.specs.Statuses.{Told};

use crate::compressed::put_compressed;
use crate::tree::TreeHandle;
use std::alloc::Global;
use vx_buffers::{given_bytes, given_timestamps, given_truths};

/// Compresses a column of truth values, each a byte: false of 0, else true.
#[unsafe(no_mangle)]
#[tactic(auto, using(crate::proofs::Telling::telling))]
pub extern "C" fn nuvaike_compress_bool(
    alloc: Global,
    rows: &[u8],
    form: u8,
    valid: &[u8],
    offset: u64,
    words: &[u64],
    out: &mut TreeHandle,
) -> u8
    ensures status { Told (followed_by (raised (given_truths rows.now form valid.now offset)) (compressed_rows words.now)) result }
    ensures done { result ≡ 0 → Holds (followed_by (raised (given_truths rows.now form valid.now offset)) (compressed_rows words.now)) out.new.held.tree }
    ensures refused { result ≢ 0 → out.new ≡ out.old }
{
    let given = given_truths(alloc, rows, form, valid, offset);
    put_compressed(alloc, given, words, out)
}

/// Compresses a column of texts: row `r` has the bytes from `offsets[r]` to `offsets[r + 1]`.
#[unsafe(no_mangle)]
#[tactic(auto, using(crate::proofs::Telling::telling))]
pub extern "C" fn nuvaike_compress_text(
    alloc: Global,
    offsets: &[u64],
    bytes: &[u8],
    form: u8,
    valid: &[u8],
    offset: u64,
    words: &[u64],
    out: &mut TreeHandle,
) -> u8
    ensures status { Told (followed_by (raised (given_bytes true offsets.now bytes.now form valid.now offset)) (compressed_rows words.now)) result }
    ensures done { result ≡ 0 → Holds (followed_by (raised (given_bytes true offsets.now bytes.now form valid.now offset)) (compressed_rows words.now)) out.new.held.tree }
    ensures refused { result ≢ 0 → out.new ≡ out.old }
{
    let given = given_bytes(alloc, true, offsets, bytes, form, valid, offset);
    put_compressed(alloc, given, words, out)
}

/// Compresses a column of binaries: row `r` has the bytes from `offsets[r]` to `offsets[r + 1]`.
#[unsafe(no_mangle)]
#[tactic(auto, using(crate::proofs::Telling::telling))]
pub extern "C" fn nuvaike_compress_binary(
    alloc: Global,
    offsets: &[u64],
    bytes: &[u8],
    form: u8,
    valid: &[u8],
    offset: u64,
    words: &[u64],
    out: &mut TreeHandle,
) -> u8
    ensures status { Told (followed_by (raised (given_bytes false offsets.now bytes.now form valid.now offset)) (compressed_rows words.now)) result }
    ensures done { result ≡ 0 → Holds (followed_by (raised (given_bytes false offsets.now bytes.now form valid.now offset)) (compressed_rows words.now)) out.new.held.tree }
    ensures refused { result ≢ 0 → out.new ≡ out.old }
{
    let given = given_bytes(alloc, false, offsets, bytes, form, valid, offset);
    put_compressed(alloc, given, words, out)
}

/// Compresses a column of timestamps of a unit, and of a zone where `has_zone` is not 0.
#[unsafe(no_mangle)]
#[tactic(auto, using(crate::proofs::Telling::telling))]
pub extern "C" fn nuvaike_compress_timestamp(
    alloc: Global,
    rows: &[i64],
    form: u8,
    valid: &[u8],
    offset: u64,
    unit: u8,
    has_zone: u8,
    zone: &[u8],
    words: &[u64],
    out: &mut TreeHandle,
) -> u8
    ensures status { Told (followed_by (raised (given_timestamps rows.now form valid.now offset unit has_zone zone.now)) (compressed_rows words.now)) result }
    ensures done { result ≡ 0 → Holds (followed_by (raised (given_timestamps rows.now form valid.now offset unit has_zone zone.now)) (compressed_rows words.now)) out.new.held.tree }
    ensures refused { result ≢ 0 → out.new ≡ out.old }
{
    let given = given_timestamps(alloc, rows, form, valid, offset, unit, has_zone, zone);
    put_compressed(alloc, given, words, out)
}
