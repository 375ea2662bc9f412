//! Columns of signed integers, compressed.

ghost use Rattle.std.specs.Prelude.{◌≡◌, ◌≢◌, map};
ghost use Rattle.vx_base.specs.declared.ptype.PType.TheVariants.{I8, I16, I32, I64};
ghost use Rattle.vx_buffers.specs.Given.{given_integers};
ghost use Rattle.vx_ffi.specs.Compressed.{compressed_rows};
ghost use Rattle.vx_ffi.specs.Outcomes.{Holds, followed_by, raised};
ghost use Rattle.vx_ffi.specs.Statuses.{Told};

use crate::compressed::put_compressed;
use crate::failure::NO_MEMORY;
use crate::tree::TreeHandle;
use std::alloc::Global;
use vx_base::IntList;
use vx_buffers::given_integers;
use vx_values::Ints;

/// Compresses a column of `i8`.
#[unsafe(no_mangle)]
#[tactic(auto, using(crate::proofs::Telling::telling))]
pub extern "C" fn nuvaike_compress_i8(
    alloc: Global,
    rows: &[i8],
    form: u8,
    valid: &[u8],
    offset: u64,
    words: &[u64],
    out: &mut TreeHandle,
) -> u8
    ensures status { Told (followed_by (raised (given_integers I8 (map (λ x. x) rows.now) form valid.now offset)) (compressed_rows words.now)) result }
    ensures done { result ≡ 0 → Holds (followed_by (raised (given_integers I8 (map (λ x. x) rows.now) form valid.now offset)) (compressed_rows words.now)) out.new.held.tree }
    ensures refused { result ≢ 0 → out.new ≡ out.old }
{
    match Vec::from_slice(alloc, rows) {
        Ok(items) => {
            let values = Ints::I8(IntList::from_vec(items));
            let given = given_integers(alloc, values, form, valid, offset);
            put_compressed(alloc, given, words, out)
        }
        Err(_) => NO_MEMORY,
    }
}

/// Compresses a column of `i16`.
#[unsafe(no_mangle)]
#[tactic(auto, using(crate::proofs::Telling::telling))]
pub extern "C" fn nuvaike_compress_i16(
    alloc: Global,
    rows: &[i16],
    form: u8,
    valid: &[u8],
    offset: u64,
    words: &[u64],
    out: &mut TreeHandle,
) -> u8
    ensures status { Told (followed_by (raised (given_integers I16 (map (λ x. x) rows.now) form valid.now offset)) (compressed_rows words.now)) result }
    ensures done { result ≡ 0 → Holds (followed_by (raised (given_integers I16 (map (λ x. x) rows.now) form valid.now offset)) (compressed_rows words.now)) out.new.held.tree }
    ensures refused { result ≢ 0 → out.new ≡ out.old }
{
    match Vec::from_slice(alloc, rows) {
        Ok(items) => {
            let values = Ints::I16(IntList::from_vec(items));
            let given = given_integers(alloc, values, form, valid, offset);
            put_compressed(alloc, given, words, out)
        }
        Err(_) => NO_MEMORY,
    }
}

/// Compresses a column of `i32`.
#[unsafe(no_mangle)]
#[tactic(auto, using(crate::proofs::Telling::telling))]
pub extern "C" fn nuvaike_compress_i32(
    alloc: Global,
    rows: &[i32],
    form: u8,
    valid: &[u8],
    offset: u64,
    words: &[u64],
    out: &mut TreeHandle,
) -> u8
    ensures status { Told (followed_by (raised (given_integers I32 (map (λ x. x) rows.now) form valid.now offset)) (compressed_rows words.now)) result }
    ensures done { result ≡ 0 → Holds (followed_by (raised (given_integers I32 (map (λ x. x) rows.now) form valid.now offset)) (compressed_rows words.now)) out.new.held.tree }
    ensures refused { result ≢ 0 → out.new ≡ out.old }
{
    match Vec::from_slice(alloc, rows) {
        Ok(items) => {
            let values = Ints::I32(IntList::from_vec(items));
            let given = given_integers(alloc, values, form, valid, offset);
            put_compressed(alloc, given, words, out)
        }
        Err(_) => NO_MEMORY,
    }
}

/// Compresses a column of `i64`.
#[unsafe(no_mangle)]
#[tactic(auto, using(crate::proofs::Telling::telling))]
pub extern "C" fn nuvaike_compress_i64(
    alloc: Global,
    rows: &[i64],
    form: u8,
    valid: &[u8],
    offset: u64,
    words: &[u64],
    out: &mut TreeHandle,
) -> u8
    ensures status { Told (followed_by (raised (given_integers I64 (map (λ x. x) rows.now) form valid.now offset)) (compressed_rows words.now)) result }
    ensures done { result ≡ 0 → Holds (followed_by (raised (given_integers I64 (map (λ x. x) rows.now) form valid.now offset)) (compressed_rows words.now)) out.new.held.tree }
    ensures refused { result ≢ 0 → out.new ≡ out.old }
{
    match Vec::from_slice(alloc, rows) {
        Ok(items) => {
            let values = Ints::I64(IntList::from_vec(items));
            let given = given_integers(alloc, values, form, valid, offset);
            put_compressed(alloc, given, words, out)
        }
        Err(_) => NO_MEMORY,
    }
}
