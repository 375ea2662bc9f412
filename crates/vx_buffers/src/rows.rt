//! Rows written into a caller's buffers: a copy of items of one size, validity, and bytes behind their length.

ghost use Rattle.std.specs.Prelude.{◌≡◌, ◌++◌, length, drop, true, IfOk, MatchResult, OnOk, OnErr};
ghost use Rattle.vx_buffers.specs.Decoded.{into_buffers, into_place, shown};
ghost use Rattle.vx_buffers.specs.declared.refusal.Refusal.TheVariants.{NoMemory};
ghost use Rattle.vx_model.specs.Column.{column_of};
ghost use Rattle.vx_model.specs.Plain.{IsPlain, plain};
ghost use Rattle.vx_model.specs.Refusals.{validity_length};
ghost use Rattle.vx_model.specs.Rows.{rows};
ghost use Rattle.vx_model.specs.TreeType.{tree_type};

use crate::refusal::Refusal;
use std::alloc::Global;
use vx_array::ArrayRef;
use vx_base::Mask;

/// The plain tree of a tree's column. Refuses NoMemory alone.
pub fn plain_tree(alloc: Global, tree: &ArrayRef) -> Result<ArrayRef, Refusal>
    ensures tree { MatchResult result (λ made. made ≡ plain (column_of tree.now)) (λ why. why ≡ NoMemory) }
    ensures dtype { IfOk result (λ made. tree_type made ≡ tree_type tree.now) }
    ensures rows { IfOk result (λ made. rows made ≡ rows tree.now) }
    ensures plain { IfOk result (λ made. IsPlain made) }
{
    match tree.canonical(alloc) {
        Ok(plain) => Ok(plain),
        Err(_) => Err(Refusal::NoMemory),
    }
}

/// Writes true where a row isn't null, else false.
pub(crate) fn show(mask: &Option<Mask>, valid: &mut [bool])
    requires { validity_length mask.now (length valid.old) ≡ true }
    ensures { valid.new ≡ shown mask.now (length valid.old) }
{
    match mask {
        Some(bits) => valid.copy_from_slice(bits.as_slice()),
        None => valid.fill(true),
    }
}

/// Copies rows and their validity into buffers that have a place for each row, and no other.
pub(crate) fn copy_rows<T: Copy>(
    items: &[T],
    mask: &Option<Mask>,
    out: &mut [T],
    valid: &mut [bool],
) -> Result<(), Refusal>
    requires { validity_length mask.now (length items.now) ≡ true }
    ensures status { result ≡ into_buffers true (length items.now) (length out.old) (length valid.old) }
    ensures rows { OnOk result (out.new ≡ items.now) }
    ensures valid { OnOk result (valid.new ≡ shown mask.now (length items.now)) }
    ensures kept { OnErr result ((out.new ≡ out.old) × (valid.new ≡ valid.old)) }
{
    if out.len() != items.len() {
        return Err(Refusal::BufferLength);
    }
    if valid.len() != items.len() {
        return Err(Refusal::BufferLength);
    }
    out.copy_from_slice(items);
    show(mask, valid);
    Ok(())
}

/// Writes bytes at the front of a place that has room for them, and their number beside it, which is told also where the
/// place is too small.
pub fn hand_out(bytes: &[u8], place: &mut [u8], count: &mut u64) -> Result<(), Refusal>
    ensures status { result ≡ into_place (length bytes.now) (length place.old) }
    ensures count { count.new ≡ length bytes.now }
    ensures there { OnOk result (place.new ≡ bytes.now ++ drop (length bytes.now) place.old) }
    ensures kept { OnErr result (place.new ≡ place.old) }
{
    *count = bytes.len() as u64;
    if place.len() < bytes.len() {
        return Err(Refusal::BufferLength);
    }
    place[..bytes.len()].copy_from_slice(bytes);
    Ok(())
}
