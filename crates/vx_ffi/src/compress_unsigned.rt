//! Columns of unsigned integers, compressed.

ghost use Rattle.std.specs.Prelude.{◌≡◌, ◌≢◌, map, pos};
ghost use Rattle.vx_base.specs.declared.ptype.PType.TheVariants.{U8, U16, U32, U64};
ghost use Rattle.vx_buffers.specs.Given.{given_integers};
ghost use Rattle.vx_ffi.specs.Compressed.{compressed_rows};
ghost use Rattle.vx_ffi.specs.Outcomes.{Holds, followed_by, raised};
ghost use Rattle.vx_ffi.specs.Statuses.{Told};

use crate::compressed::put_compressed;
use crate::failure::NO_MEMORY;
use crate::tree::TreeHandle;
use std::alloc::Global;
use vx_base::IntList;
use vx_buffers::given_integers;
use vx_values::Ints;

/// Compresses a column of `u8`.
#[unsafe(no_mangle)]
#[tactic(auto, using(crate::proofs::Telling::telling))]
pub extern "C" fn nuvaike_compress_u8(
    alloc: Global,
    rows: &[u8],
    form: u8,
    valid: &[u8],
    offset: u64,
    words: &[u64],
    out: &mut TreeHandle,
) -> u8
    ensures status { Told (followed_by (raised (given_integers U8 (map (λ x. pos x) rows.now) form valid.now offset)) (compressed_rows words.now)) result }
    ensures done { result ≡ 0 → Holds (followed_by (raised (given_integers U8 (map (λ x. pos x) rows.now) form valid.now offset)) (compressed_rows words.now)) out.new.held.tree }
    ensures refused { result ≢ 0 → out.new ≡ out.old }
{
    match Vec::from_slice(alloc, rows) {
        Ok(items) => {
            let values = Ints::U8(IntList::from_vec(items));
            let given = given_integers(alloc, values, form, valid, offset);
            put_compressed(alloc, given, words, out)
        }
        Err(_) => NO_MEMORY,
    }
}

/// Compresses a column of `u16`.
#[unsafe(no_mangle)]
#[tactic(auto, using(crate::proofs::Telling::telling))]
pub extern "C" fn nuvaike_compress_u16(
    alloc: Global,
    rows: &[u16],
    form: u8,
    valid: &[u8],
    offset: u64,
    words: &[u64],
    out: &mut TreeHandle,
) -> u8
    ensures status { Told (followed_by (raised (given_integers U16 (map (λ x. pos x) rows.now) form valid.now offset)) (compressed_rows words.now)) result }
    ensures done { result ≡ 0 → Holds (followed_by (raised (given_integers U16 (map (λ x. pos x) rows.now) form valid.now offset)) (compressed_rows words.now)) out.new.held.tree }
    ensures refused { result ≢ 0 → out.new ≡ out.old }
{
    match Vec::from_slice(alloc, rows) {
        Ok(items) => {
            let values = Ints::U16(IntList::from_vec(items));
            let given = given_integers(alloc, values, form, valid, offset);
            put_compressed(alloc, given, words, out)
        }
        Err(_) => NO_MEMORY,
    }
}

/// Compresses a column of `u32`.
#[unsafe(no_mangle)]
#[tactic(auto, using(crate::proofs::Telling::telling))]
pub extern "C" fn nuvaike_compress_u32(
    alloc: Global,
    rows: &[u32],
    form: u8,
    valid: &[u8],
    offset: u64,
    words: &[u64],
    out: &mut TreeHandle,
) -> u8
    ensures status { Told (followed_by (raised (given_integers U32 (map (λ x. pos x) rows.now) form valid.now offset)) (compressed_rows words.now)) result }
    ensures done { result ≡ 0 → Holds (followed_by (raised (given_integers U32 (map (λ x. pos x) rows.now) form valid.now offset)) (compressed_rows words.now)) out.new.held.tree }
    ensures refused { result ≢ 0 → out.new ≡ out.old }
{
    match Vec::from_slice(alloc, rows) {
        Ok(items) => {
            let values = Ints::U32(IntList::from_vec(items));
            let given = given_integers(alloc, values, form, valid, offset);
            put_compressed(alloc, given, words, out)
        }
        Err(_) => NO_MEMORY,
    }
}

/// Compresses a column of `u64`.
#[unsafe(no_mangle)]
#[tactic(auto, using(crate::proofs::Telling::telling))]
pub extern "C" fn nuvaike_compress_u64(
    alloc: Global,
    rows: &[u64],
    form: u8,
    valid: &[u8],
    offset: u64,
    words: &[u64],
    out: &mut TreeHandle,
) -> u8
    ensures status { Told (followed_by (raised (given_integers U64 (map (λ x. pos x) rows.now) form valid.now offset)) (compressed_rows words.now)) result }
    ensures done { result ≡ 0 → Holds (followed_by (raised (given_integers U64 (map (λ x. pos x) rows.now) form valid.now offset)) (compressed_rows words.now)) out.new.held.tree }
    ensures refused { result ≢ 0 → out.new ≡ out.old }
{
    match Vec::from_slice(alloc, rows) {
        Ok(items) => {
            let values = Ints::U64(IntList::from_vec(items));
            let given = given_integers(alloc, values, form, valid, offset);
            put_compressed(alloc, given, words, out)
        }
        Err(_) => NO_MEMORY,
    }
}
