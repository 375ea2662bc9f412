//! What is made, put into a caller's handle or place.

ghost use Rattle.std.specs.Prelude.{◌≡◌, ◌≢◌, ◌⊎◌, ◌^◌, ◌-◌, ◌++◌, Some, drop, length, min};
ghost use Rattle.vx_buffers.specs.Decoded.{into_place};
ghost use Rattle.vx_ffi.specs.Outcomes.{Holds, raised};
ghost use Rattle.vx_ffi.specs.Statuses.{Told, status_of};

use crate::failure::{DONE, Failure, NO_MEMORY, number, refusal_number};
use crate::tree::TreeHandle;
use std::alloc::Global;
use vx_array::ArrayRef;
use vx_buffers::hand_out;

/// Puts a tree into a handle, in place of what it had. Where memory runs out, the handle is as it was.
pub(crate) fn put_tree(alloc: Global, tree: ArrayRef, out: &mut TreeHandle) -> u8
    ensures status { (result ≡ 0) ⊎ (result ≡ 1) }
    ensures done { result ≡ 0 → out.new.held.tree ≡ Some tree }
    ensures refused { result ≢ 0 → out.new ≡ out.old }
{
    match Box::new(alloc, tree) {
        Ok(boxed) => {
            *out = TreeHandle::of(boxed);
            DONE
        }
        Err(_) => NO_MEMORY,
    }
}

/// Puts what is made into a handle. A refusal leaves the handle as it was.
pub(crate) fn put(alloc: Global, made: Result<ArrayRef, Failure>, out: &mut TreeHandle) -> u8
    ensures status { Told made result }
    ensures done { result ≡ 0 → Holds made out.new.held.tree }
    ensures refused { result ≢ 0 → out.new ≡ out.old }
{
    match made {
        Ok(tree) => put_tree(alloc, tree, out),
        Err(why) => number(why),
    }
}

/// Writes bytes into a place that has room for them, and tells their number, also where the place is too small.
pub(crate) fn handed_out(bytes: &[u8], place: &mut [u8], count: &mut u64) -> u8
    ensures status { result ≡ status_of (raised (into_place (length bytes.now) (length place.old))) }
    ensures either { (result ≡ 0) ⊎ (result ≡ 12) }
    ensures count { count.new ≡ length bytes.now }
    ensures there { result ≡ 0 → place.new ≡ bytes.now ++ drop (length bytes.now) place.old }
    ensures kept { result ≢ 0 → place.new ≡ place.old }
{
    match hand_out(bytes, place, count) {
        Ok(()) => DONE,
        Err(why) => refusal_number(why),
    }
}

/// A number of 128 bits, or the greatest one of 64.
pub(crate) fn saturated(bytes: u128) -> u64
    ensures { result ≡ min bytes (2 ^ 64 - 1) }
{
    u64::try_from(bytes).unwrap_or(u64::MAX)
}
