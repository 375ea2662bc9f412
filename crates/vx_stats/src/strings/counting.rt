//! How many distinct lengths with first bytes there are.

ghost use Rattle.std.specs.Prelude.{◌≡◌, ◌≢◌, ◌<◌, ◌^◌, [], length, map, true, IsTrue, slice_index_or, if◌then◌else◌};
ghost use Rattle.std.specs.List.{list_all};
ghost use Rattle.std.specs.Set.{distinct_count};
ghost use Rattle.vx_base.specs.Answers.{Answers};
ghost use Rattle.vx_base.specs.PlainValue.{is_short};
ghost use Rattle.vx_model.specs.Decoded.{zeroed_by};
ghost use Rattle.vx_model.specs.Refusals.{validity_length};
ghost use Rattle.vx_model.specs.Rows.{is_valid_at};
ghost use Rattle.vx_stats.specs.Keys.{key_of, key_in, same_key, word_of};
ghost use Rattle.vx_stats.specs.Words.{free};

use crate::strings::keys::word_of;
use crate::strings::word_set::WordSet;
use std::alloc::Global;
use vx_base::{Bytes, Mask, VortexResult};
use vx_values::is_valid;

// The word of a row's key; that of no bytes where it is null.
#[inline(always)]
fn word_at(rows: &[Bytes], valid: &Option<Mask>, row: usize) -> u64
    requires short { IsTrue (list_all is_short rows.now) }
    requires within { row < length rows.now }
    ensures word { result ≡ word_of (key_of (if is_valid_at valid.now row then slice_index_or rows.now row [] else [])) }
    ensures key { key_in result ≡ key_of (if is_valid_at valid.now row then slice_index_or rows.now row [] else []) }
    ensures some { result ≢ free }
{
    if is_valid(valid, row as u64) {
        word_of(rows[row].as_slice())
    } else {
        0
    }
}

/// The number of distinct keys, a null counted as empty. No bytes are copied.
pub(crate) fn distinct_keys(
    alloc: Global,
    rows: &[Bytes],
    valid: &Option<Mask>,
) -> VortexResult<u32>
    requires mask { validity_length valid.now (length rows.now) ≡ true }
    requires few { length rows.now < 2 ^ 32 }
    requires short { IsTrue (list_all is_short rows.now) }
    ensures { Answers result (distinct_count same_key (map key_of (zeroed_by [] valid.now rows.now))) }
{
    let mut words = WordSet::new(alloc)?;
    for row in 0..rows.len() {
        words.insert(alloc, word_at(rows, valid, row))?;
    }
    Ok(words.len())
}
