//! What a handle's tree is: its rows, size, type, listing and plain tree.

ghost use Rattle.std.specs.Prelude.{◌≡◌, ◌≢◌, ◌⊎◌, ◌++◌, ◌^◌, ◌-◌, [], IfSome, Ok, Some, None, length, drop, min};
ghost use Rattle.vx_base.specs.TypeText.{type_text};
ghost use Rattle.vx_buffers.specs.Decoded.{into_place};
ghost use Rattle.vx_document.specs.Listing.{listing};
ghost use Rattle.vx_ffi.specs.Outcomes.{of_held, raised};
ghost use Rattle.vx_ffi.specs.Statuses.{Told, status_of};
ghost use Rattle.vx_model.specs.Column.{column_of};
ghost use Rattle.vx_model.specs.Plain.{plain};
ghost use Rattle.vx_model.specs.Rows.{rows};
ghost use Rattle.vx_model.specs.Size.{nbytes};
ghost use Rattle.vx_model.specs.TreeType.{tree_type};

use crate::failure::{DONE, NO_MEMORY, NO_TREE, refusal_number};
use crate::handing::{handed_out, put_tree, saturated};
use crate::texts::{listing_of, type_of};
use crate::tree::TreeHandle;
use std::alloc::Global;
use vx_buffers::plain_tree;

/// Frees the tree, and leaves none.
#[unsafe(no_mangle)]
pub extern "C" fn nuvaike_free(alloc: Global, tree: &mut TreeHandle)
    ensures { tree.new.held.tree ≡ None }
{
    let _tree = tree.take(alloc);
}

/// The number of rows.
#[unsafe(no_mangle)]
pub extern "C" fn nuvaike_rows(alloc: Global, tree: &mut TreeHandle, count: &mut u64) -> u8
    ensures status { result ≡ status_of (of_held tree.old.held.tree (λ t. Ok t)) }
    ensures count { result ≡ 0 → IfSome tree.old.held.tree (λ t. count.new ≡ length (rows t)) }
    ensures refused { result ≢ 0 → count.new ≡ count.old }
    ensures kept { tree.new.held.tree ≡ tree.old.held.tree }
{
    match tree.take(alloc) {
        Some(array) => {
            *count = array.len();
            *tree = TreeHandle::of(array);
            DONE
        }
        None => NO_TREE,
    }
}

/// The bytes of the tree, at most 2^64 - 1.
#[unsafe(no_mangle)]
pub extern "C" fn nuvaike_nbytes(alloc: Global, tree: &mut TreeHandle, bytes: &mut u64) -> u8
    ensures status { result ≡ status_of (of_held tree.old.held.tree (λ t. Ok t)) }
    ensures bytes { result ≡ 0 → IfSome tree.old.held.tree (λ t. bytes.new ≡ min (nbytes t) (2 ^ 64 - 1)) }
    ensures refused { result ≢ 0 → bytes.new ≡ bytes.old }
    ensures kept { tree.new.held.tree ≡ tree.old.held.tree }
{
    match tree.take(alloc) {
        Some(array) => {
            *bytes = saturated(array.nbytes());
            *tree = TreeHandle::of(array);
            DONE
        }
        None => NO_TREE,
    }
}

/// The plain tree of the tree's column, in another handle: without any encoding, so its bytes are the plain column's.
#[unsafe(no_mangle)]
#[tactic(auto, using(crate::proofs::Telling::telling))]
pub extern "C" fn nuvaike_plain(alloc: Global, tree: &mut TreeHandle, out: &mut TreeHandle) -> u8
    ensures status { Told (of_held tree.old.held.tree (λ t. Ok (plain (column_of t)))) result }
    ensures done { result ≡ 0 → IfSome tree.old.held.tree (λ t. out.new.held.tree ≡ Some (plain (column_of t))) }
    ensures refused { result ≢ 0 → out.new ≡ out.old }
    ensures kept { tree.new.held.tree ≡ tree.old.held.tree }
{
    match tree.take(alloc) {
        Some(array) => {
            let made = plain_tree(alloc, &array);
            *tree = TreeHandle::of(array);
            match made {
                Ok(plain) => put_tree(alloc, plain, out),
                Err(why) => refusal_number(why),
            }
        }
        None => NO_TREE,
    }
}

/// The text of the column's type, and its number of bytes, which is told also where the place is too small.
#[unsafe(no_mangle)]
#[tactic(auto, using(crate::proofs::Telling::telling))]
pub extern "C" fn nuvaike_type(
    alloc: Global,
    tree: &mut TreeHandle,
    place: &mut [u8],
    count: &mut u64,
) -> u8
    ensures status { Told (of_held tree.old.held.tree (λ t. raised (into_place (length (type_text (tree_type t))) (length place.old)))) result }
    ensures done { result ≡ 0 → IfSome tree.old.held.tree (λ t. place.new ≡ type_text (tree_type t) ++ drop (length (type_text (tree_type t))) place.old) }
    ensures count { (result ≡ 0) ⊎ (result ≡ 12) → IfSome tree.old.held.tree (λ t. count.new ≡ length (type_text (tree_type t))) }
    ensures refused { result ≢ 0 → place.new ≡ place.old }
    ensures silent { result ≢ 0 → result ≢ 12 → count.new ≡ count.old }
    ensures kept { tree.new.held.tree ≡ tree.old.held.tree }
{
    match tree.take(alloc) {
        Some(array) => {
            let text = type_of(alloc, &array);
            *tree = TreeHandle::of(array);
            match text {
                Ok(text) => handed_out(text.as_slice(), place, count),
                Err(_) => NO_MEMORY,
            }
        }
        None => NO_TREE,
    }
}

/// The listing of the tree, a line for each node, and its number of bytes, which is told also where the place is too small.
#[unsafe(no_mangle)]
#[tactic(auto, using(crate::proofs::Telling::telling))]
pub extern "C" fn nuvaike_listing(
    alloc: Global,
    tree: &mut TreeHandle,
    place: &mut [u8],
    count: &mut u64,
) -> u8
    ensures status { Told (of_held tree.old.held.tree (λ t. raised (into_place (length (listing [] t)) (length place.old)))) result }
    ensures done { result ≡ 0 → IfSome tree.old.held.tree (λ t. place.new ≡ listing [] t ++ drop (length (listing [] t)) place.old) }
    ensures count { (result ≡ 0) ⊎ (result ≡ 12) → IfSome tree.old.held.tree (λ t. count.new ≡ length (listing [] t)) }
    ensures refused { result ≢ 0 → place.new ≡ place.old }
    ensures silent { result ≢ 0 → result ≢ 12 → count.new ≡ count.old }
    ensures kept { tree.new.held.tree ≡ tree.old.held.tree }
{
    match tree.take(alloc) {
        Some(array) => {
            let text = listing_of(alloc, &array);
            *tree = TreeHandle::of(array);
            match text {
                Ok(text) => handed_out(text.as_slice(), place, count),
                Err(_) => NO_MEMORY,
            }
        }
        None => NO_TREE,
    }
}
