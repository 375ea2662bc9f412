//! Handles stored and opened.

ghost use Rattle.std.specs.Prelude.{◌≡◌, ◌≢◌, ◌⊎◌, ◌++◌, ◌∷◌, [], IfSome, length, drop};
ghost use Rattle.vx_buffers.specs.Decoded.{into_place};
ghost use Rattle.vx_ffi.specs.Files.{file_of, tree_in};
ghost use Rattle.vx_ffi.specs.Outcomes.{Holds, followed_by, of_held, raised};
ghost use Rattle.vx_ffi.specs.Statuses.{Told};
ghost use Rattle.vx_spelling.specs.FileSpelling.{file_at, file_text};

use crate::failure::{NO_TREE, number};
use crate::files::{file_of, tree_in};
use crate::handing::{handed_out, put};
use crate::tree::TreeHandle;
use std::alloc::Global;

/// The bytes of the tree's file, and their number, which is told also where the place is too small.
#[unsafe(no_mangle)]
#[tactic(auto, using(crate::proofs::Telling::telling))]
pub extern "C" fn nuvaike_store(
    alloc: Global,
    tree: &mut TreeHandle,
    place: &mut [u8],
    count: &mut u64,
) -> u8
    ensures status { Told (of_held tree.old.held.tree (λ t. followed_by (file_of t) (λ file. raised (into_place (length file) (length place.old))))) result }
    ensures done { result ≡ 0 → IfSome tree.old.held.tree (λ t. place.new ≡ file_text (t ∷ []) ++ drop (length (file_text (t ∷ []))) place.old) }
    ensures count { (result ≡ 0) ⊎ (result ≡ 12) → IfSome tree.old.held.tree (λ t. count.new ≡ length (file_text (t ∷ []))) }
    ensures refused { result ≢ 0 → place.new ≡ place.old }
    ensures silent { result ≢ 0 → result ≢ 12 → count.new ≡ count.old }
    ensures kept { tree.new.held.tree ≡ tree.old.held.tree }
{
    match tree.take(alloc) {
        Some(array) => {
            let made = file_of(alloc, &array);
            *tree = TreeHandle::of(array);
            match made {
                Ok(file) => handed_out(file.as_slice(), place, count),
                Err(why) => number(why),
            }
        }
        None => NO_TREE,
    }
}

/// A tree from the bytes of its file.
#[unsafe(no_mangle)]
#[tactic(auto, using(crate::proofs::Telling::telling))]
pub extern "C" fn nuvaike_open(alloc: Global, bytes: &[u8], out: &mut TreeHandle) -> u8
    ensures status { Told (tree_in (file_at bytes.now)) result }
    ensures done { result ≡ 0 → Holds (tree_in (file_at bytes.now)) out.new.held.tree }
    ensures refused { result ≢ 0 → out.new ≡ out.old }
{
    put(alloc, tree_in(alloc, bytes), out)
}
