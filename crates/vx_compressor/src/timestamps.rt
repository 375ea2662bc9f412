//! Timestamps: the tree that their site makes, or the tree of their storage.

ghost use Rattle.std.specs.Prelude.{◌≡◌, ◌<◌, ◌^◌, nat_lt, None, true, if◌then◌else◌, unwrap_or};
ghost use Rattle.vx_base.specs.Answers.{Answers};
ghost use Rattle.vx_base.specs.PlainType.{is_flat, is_timestamp};
ghost use Rattle.vx_model.specs.Cascade.{cascade, is_one_value};
ghost use Rattle.vx_model.specs.Column.{column_of};
ghost use Rattle.vx_model.specs.Plain.{IsPlain};
ghost use Rattle.vx_model.specs.Refusals.{timestamp_refusal};
ghost use Rattle.vx_model.specs.Site.{fresh, max_cascade};
ghost use Rattle.vx_model.specs.Size.{size};
ghost use Rattle.vx_model.specs.Tree.{timestamp};
ghost use Rattle.vx_model.specs.TreeType.{tree_type};
ghost use Rattle.vx_scheme.specs.Contexts.{site_of};
ghost use Rattle.vx_compressor.specs.Cascade.{setting, leaf_tree};
ghost use Rattle.vx_compressor.specs.Reach.{IsInReach};

use crate::by_value::Beside;
use crate::compressor::{CascadingCompressor, beside_counted, plain_counted};
use std::marker::Brand;
use std::sync::ledger::Blank;
use vx_array::ArrayRef;
use vx_base::{ArrayId, ExecutionCtx, TimestampType, VortexResult};
use vx_scheme::{CompressorContext, Scheme};

/// The tree of plain timestamps: the better one of the tree that their fresh site makes and a Timestamp node over the tree
/// of their 64-bit storage. The plain tree stays beside the first, and then moves its storage out.
pub(crate) fn stamps_tree<S: Scheme>(
    compressor: &CascadingCompressor<S>,
    plain: ArrayRef,
    ctx: &mut ExecutionCtx,
) -> VortexResult<ArrayRef>
    requires stamps { is_timestamp (tree_type plain) ≡ true }
    requires plain { IsPlain plain }
    requires reach { IsInReach (column_of plain) max_cascade }
    ensures answer { Answers result (cascade (leaf_tree (setting S.meaning compressor.now ctx.old)) (column_of plain)) }
    ensures ctx { ctx.new ≡ ctx.old }
{
    let site = CompressorContext::new();
    let beside = beside_counted::<Brand, S>(compressor, Blank::new(1), plain, &site, ctx)?;
    site_or_storage(compressor, beside, &site, ctx)
}

// The better one of the two trees, by what the fresh site made. The first stands where it is a constant, masked or not, or a
// scheme's and smaller; else the second.
fn site_or_storage<S: Scheme>(
    compressor: &CascadingCompressor<S>,
    beside: Beside,
    site: &CompressorContext,
    ctx: &mut ExecutionCtx,
) -> VortexResult<ArrayRef>
    requires stamps { is_timestamp (tree_type beside.plain) ≡ true }
    requires fresh { site_of site.now ≡ fresh }
    requires plain { IsPlain beside.plain }
    requires reach { IsInReach (column_of beside.plain) (site_of site.now).budget }
    requires made { unwrap_or beside.tree beside.plain ≡ leaf_tree (setting S.meaning compressor.now ctx.old) (column_of beside.plain) (site_of site.now) }
    ensures answer { Answers result (cascade (leaf_tree (setting S.meaning compressor.now ctx.old)) (column_of beside.plain)) }
    ensures ctx { ctx.new ≡ ctx.old }
{
    let Beside { tree, plain } = beside;
    plain.known();
    let Some(made) = tree else {
        let (storage, kind) = plain.into_storage();
        return storage_tree(compressor, storage, kind, site, ctx);
    };
    if is_one_value(&made) {
        return Ok(made);
    }
    let is_plain = made.is_plain();
    let (storage, kind) = plain.into_storage();
    let other = storage_tree(compressor, storage, kind, site, ctx)?;
    if is_plain {
        return Ok(other);
    }
    Ok(smaller_of(made, other))
}

// Whether the root is a constant, masked or not.
fn is_one_value(tree: &ArrayRef) -> bool
    ensures { result ≡ is_one_value tree.now }
{
    matches!(tree.encoding_id(), ArrayId::Constant | ArrayId::Masked)
}

// A Timestamp node over the tree of the storage at a site.
fn storage_tree<S: Scheme>(
    compressor: &CascadingCompressor<S>,
    storage: ArrayRef,
    kind: TimestampType,
    site: &CompressorContext,
    ctx: &mut ExecutionCtx,
) -> VortexResult<ArrayRef>
    requires flat { is_flat (tree_type storage) ≡ true }
    requires plain { IsPlain storage }
    requires whole { timestamp_refusal storage ≡ None }
    requires reach { IsInReach (column_of storage) (site_of site.now).budget }
    ensures answer { Answers result (timestamp (leaf_tree (setting S.meaning compressor.now ctx.old) (column_of storage) (site_of site.now)) kind) }
    ensures ctx { ctx.new ≡ ctx.old }
{
    storage.known();
    let tree = plain_counted::<Brand, S>(compressor, Blank::new(1), storage, site, ctx)?;
    match ArrayRef::timestamp(ctx.alloc(), tree, kind) {
        Ok(stamps) => Ok(stamps),
        Err(refused) => Err(refused.error),
    }
}

// The first tree where it is smaller, else the other.
fn smaller_of(tree: ArrayRef, other: ArrayRef) -> ArrayRef
    requires { size other < 2 ^ 100 }
    ensures { result ≡ (if nat_lt (size tree) (size other) then tree else other) }
{
    if tree.nbytes() < other.nbytes() {
        tree
    } else {
        other
    }
}
