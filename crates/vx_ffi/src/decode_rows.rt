//! Rows of truth values, texts, binaries and timestamps, decoded into a caller's buffers.

ghost use Rattle.std.specs.Prelude.{◌≡◌, ◌≢◌, IfSome, Ok, length, map};
ghost use Rattle.vx_base.specs.PlainType.{is_timestamp};
ghost use Rattle.vx_buffers.specs.Decoded.{bytes_into, counted, integers_of, into_buffers, is_bool, shown_of, texts_of, truths_of};
ghost use Rattle.vx_ffi.specs.Outcomes.{of_held, raised};
ghost use Rattle.vx_ffi.specs.Statuses.{Told};
ghost use Rattle.vx_model.specs.Nested.{concatenated};
ghost use Rattle.vx_model.specs.Offsets.{offsets_of};
ghost use Rattle.vx_model.specs.Rows.{rows};
ghost use Rattle.vx_model.specs.TreeType.{tree_type};

use crate::failure::{DONE, NO_TREE, refusal_number};
use crate::tree::TreeHandle;
use std::alloc::Global;
use vx_buffers::{byte_count, decode_bool, decode_bytes, decode_timestamps};

/// The rows of a tree of truth values, false beneath nulls, and which are there.
#[unsafe(no_mangle)]
#[tactic(auto, using(crate::proofs::Telling::telling))]
pub extern "C" fn nuvaike_decode_bool(
    alloc: Global,
    tree: &mut TreeHandle,
    out: &mut [bool],
    valid: &mut [bool],
) -> u8
    ensures status { Told (of_held tree.old.held.tree (λ t. raised (into_buffers (is_bool (tree_type t)) (length (rows t)) (length out.old) (length valid.old)))) result }
    ensures rows { result ≡ 0 → IfSome tree.old.held.tree (λ t. out.new ≡ truths_of t) }
    ensures valid { result ≡ 0 → IfSome tree.old.held.tree (λ t. valid.new ≡ shown_of t) }
    ensures refused { result ≢ 0 → (out.new ≡ out.old) × (valid.new ≡ valid.old) }
    ensures kept { tree.new.held.tree ≡ tree.old.held.tree }
{
    match tree.take(alloc) {
        Some(array) => {
            let done = decode_bool(alloc, &array, out, valid);
            *tree = TreeHandle::of(array);
            match done {
                Ok(()) => DONE,
                Err(why) => refusal_number(why),
            }
        }
        None => NO_TREE,
    }
}

/// The rows of a tree of timestamps, in their unit, 0 beneath nulls, and which are there.
#[unsafe(no_mangle)]
#[tactic(auto, using(crate::proofs::Telling::telling))]
pub extern "C" fn nuvaike_decode_timestamp(
    alloc: Global,
    tree: &mut TreeHandle,
    out: &mut [i64],
    valid: &mut [bool],
) -> u8
    ensures status { Told (of_held tree.old.held.tree (λ t. raised (into_buffers (is_timestamp (tree_type t)) (length (rows t)) (length out.old) (length valid.old)))) result }
    ensures rows { result ≡ 0 → IfSome tree.old.held.tree (λ t. map (λ x. x) out.new ≡ integers_of t) }
    ensures valid { result ≡ 0 → IfSome tree.old.held.tree (λ t. valid.new ≡ shown_of t) }
    ensures refused { result ≢ 0 → (out.new ≡ out.old) × (valid.new ≡ valid.old) }
    ensures kept { tree.new.held.tree ≡ tree.old.held.tree }
{
    match tree.take(alloc) {
        Some(array) => {
            let done = decode_timestamps(alloc, &array, out, valid);
            *tree = TreeHandle::of(array);
            match done {
                Ok(()) => DONE,
                Err(why) => refusal_number(why),
            }
        }
        None => NO_TREE,
    }
}

/// The number of bytes of all rows of a tree of texts or binaries.
#[unsafe(no_mangle)]
#[tactic(auto, using(crate::proofs::Telling::telling))]
pub extern "C" fn nuvaike_byte_count(alloc: Global, tree: &mut TreeHandle, count: &mut u64) -> u8
    ensures status { Told (of_held tree.old.held.tree (λ t. raised (counted t))) result }
    ensures count { result ≡ 0 → IfSome tree.old.held.tree (λ t. counted t ≡ Ok count.new) }
    ensures refused { result ≢ 0 → count.new ≡ count.old }
    ensures kept { tree.new.held.tree ≡ tree.old.held.tree }
{
    match tree.take(alloc) {
        Some(array) => {
            let counted = byte_count(alloc, &array);
            *tree = TreeHandle::of(array);
            match counted {
                Ok(number) => {
                    *count = number;
                    DONE
                }
                Err(why) => refusal_number(why),
            }
        }
        None => NO_TREE,
    }
}

/// The rows of a tree of texts or binaries, concatenated, no bytes beneath nulls; the offset of each row, and the end of the
/// last one; and which rows are there.
#[unsafe(no_mangle)]
#[tactic(auto, using(crate::proofs::Telling::telling))]
pub extern "C" fn nuvaike_decode_bytes(
    alloc: Global,
    tree: &mut TreeHandle,
    offsets: &mut [u64],
    bytes: &mut [u8],
    valid: &mut [bool],
) -> u8
    ensures status { Told (of_held tree.old.held.tree (λ t. raised (bytes_into t (length offsets.old) (length bytes.old) (length valid.old)))) result }
    ensures offsets { result ≡ 0 → IfSome tree.old.held.tree (λ t. offsets.new ≡ offsets_of (texts_of t)) }
    ensures bytes { result ≡ 0 → IfSome tree.old.held.tree (λ t. bytes.new ≡ concatenated (texts_of t)) }
    ensures valid { result ≡ 0 → IfSome tree.old.held.tree (λ t. valid.new ≡ shown_of t) }
    ensures refused { result ≢ 0 → (offsets.new ≡ offsets.old) × (bytes.new ≡ bytes.old) × (valid.new ≡ valid.old) }
    ensures kept { tree.new.held.tree ≡ tree.old.held.tree }
{
    match tree.take(alloc) {
        Some(array) => {
            let done = decode_bytes(alloc, &array, offsets, bytes, valid);
            *tree = TreeHandle::of(array);
            match done {
                Ok(()) => DONE,
                Err(why) => refusal_number(why),
            }
        }
        None => NO_TREE,
    }
}
