//! Rows of unsigned integers, decoded into a caller's buffers.

ghost use Rattle.std.specs.Prelude.{◌≡◌, ◌≢◌, IfSome, length, map, pos};
ghost use Rattle.vx_base.specs.declared.ptype.PType.TheVariants.{U8, U16, U32, U64};
ghost use Rattle.vx_buffers.specs.Decoded.{integers_of, into_buffers, is_of, shown_of};
ghost use Rattle.vx_ffi.specs.Outcomes.{of_held, raised};
ghost use Rattle.vx_ffi.specs.Statuses.{Told};
ghost use Rattle.vx_model.specs.Rows.{rows};
ghost use Rattle.vx_model.specs.TreeType.{tree_type};

use crate::failure::{DONE, NO_TREE, refusal_number};
use crate::tree::TreeHandle;
use std::alloc::Global;
use vx_buffers::{decode_u8, decode_u16, decode_u32, decode_u64};

/// The rows of a tree of `u8`, 0 beneath nulls, and which are there.
#[unsafe(no_mangle)]
#[tactic(auto, using(crate::proofs::Telling::telling))]
pub extern "C" fn nuvaike_decode_u8(
    alloc: Global,
    tree: &mut TreeHandle,
    out: &mut [u8],
    valid: &mut [bool],
) -> u8
    ensures status { Told (of_held tree.old.held.tree (λ t. raised (into_buffers (is_of U8 (tree_type t)) (length (rows t)) (length out.old) (length valid.old)))) result }
    ensures rows { result ≡ 0 → IfSome tree.old.held.tree (λ t. map (λ x. pos x) out.new ≡ integers_of t) }
    ensures valid { result ≡ 0 → IfSome tree.old.held.tree (λ t. valid.new ≡ shown_of t) }
    ensures refused { result ≢ 0 → (out.new ≡ out.old) × (valid.new ≡ valid.old) }
    ensures kept { tree.new.held.tree ≡ tree.old.held.tree }
{
    match tree.take(alloc) {
        Some(array) => {
            let done = decode_u8(alloc, &array, out, valid);
            *tree = TreeHandle::of(array);
            match done {
                Ok(()) => DONE,
                Err(why) => refusal_number(why),
            }
        }
        None => NO_TREE,
    }
}

/// The rows of a tree of `u16`, 0 beneath nulls, and which are there.
#[unsafe(no_mangle)]
#[tactic(auto, using(crate::proofs::Telling::telling))]
pub extern "C" fn nuvaike_decode_u16(
    alloc: Global,
    tree: &mut TreeHandle,
    out: &mut [u16],
    valid: &mut [bool],
) -> u8
    ensures status { Told (of_held tree.old.held.tree (λ t. raised (into_buffers (is_of U16 (tree_type t)) (length (rows t)) (length out.old) (length valid.old)))) result }
    ensures rows { result ≡ 0 → IfSome tree.old.held.tree (λ t. map (λ x. pos x) out.new ≡ integers_of t) }
    ensures valid { result ≡ 0 → IfSome tree.old.held.tree (λ t. valid.new ≡ shown_of t) }
    ensures refused { result ≢ 0 → (out.new ≡ out.old) × (valid.new ≡ valid.old) }
    ensures kept { tree.new.held.tree ≡ tree.old.held.tree }
{
    match tree.take(alloc) {
        Some(array) => {
            let done = decode_u16(alloc, &array, out, valid);
            *tree = TreeHandle::of(array);
            match done {
                Ok(()) => DONE,
                Err(why) => refusal_number(why),
            }
        }
        None => NO_TREE,
    }
}

/// The rows of a tree of `u32`, 0 beneath nulls, and which are there.
#[unsafe(no_mangle)]
#[tactic(auto, using(crate::proofs::Telling::telling))]
pub extern "C" fn nuvaike_decode_u32(
    alloc: Global,
    tree: &mut TreeHandle,
    out: &mut [u32],
    valid: &mut [bool],
) -> u8
    ensures status { Told (of_held tree.old.held.tree (λ t. raised (into_buffers (is_of U32 (tree_type t)) (length (rows t)) (length out.old) (length valid.old)))) result }
    ensures rows { result ≡ 0 → IfSome tree.old.held.tree (λ t. map (λ x. pos x) out.new ≡ integers_of t) }
    ensures valid { result ≡ 0 → IfSome tree.old.held.tree (λ t. valid.new ≡ shown_of t) }
    ensures refused { result ≢ 0 → (out.new ≡ out.old) × (valid.new ≡ valid.old) }
    ensures kept { tree.new.held.tree ≡ tree.old.held.tree }
{
    match tree.take(alloc) {
        Some(array) => {
            let done = decode_u32(alloc, &array, out, valid);
            *tree = TreeHandle::of(array);
            match done {
                Ok(()) => DONE,
                Err(why) => refusal_number(why),
            }
        }
        None => NO_TREE,
    }
}

/// The rows of a tree of `u64`, 0 beneath nulls, and which are there.
#[unsafe(no_mangle)]
#[tactic(auto, using(crate::proofs::Telling::telling))]
pub extern "C" fn nuvaike_decode_u64(
    alloc: Global,
    tree: &mut TreeHandle,
    out: &mut [u64],
    valid: &mut [bool],
) -> u8
    ensures status { Told (of_held tree.old.held.tree (λ t. raised (into_buffers (is_of U64 (tree_type t)) (length (rows t)) (length out.old) (length valid.old)))) result }
    ensures rows { result ≡ 0 → IfSome tree.old.held.tree (λ t. map (λ x. pos x) out.new ≡ integers_of t) }
    ensures valid { result ≡ 0 → IfSome tree.old.held.tree (λ t. valid.new ≡ shown_of t) }
    ensures refused { result ≢ 0 → (out.new ≡ out.old) × (valid.new ≡ valid.old) }
    ensures kept { tree.new.held.tree ≡ tree.old.held.tree }
{
    match tree.take(alloc) {
        Some(array) => {
            let done = decode_u64(alloc, &array, out, valid);
            *tree = TreeHandle::of(array);
            match done {
                Ok(()) => DONE,
                Err(why) => refusal_number(why),
            }
        }
        None => NO_TREE,
    }
}
