//! The compressor over any lawful schemes.

ghost use Rattle.std.specs.Prelude.{◌≡◌, ◌<◌, ◌≤◌, ℕ, true, IfOk, List, length, map};
ghost use Rattle.vx_base.specs.Answers.{Answers, Decided, Makes, OrMemory};
ghost use Rattle.vx_base.specs.PlainType.{is_flat, is_leaf};
ghost use Rattle.vx_model.specs.Cascade.{cascade};
ghost use Rattle.vx_model.specs.Column.{column_of};
ghost use Rattle.vx_model.specs.Extents.{extents_fit};
ghost use Rattle.vx_model.specs.Plain.{plain, IsPlain};
ghost use Rattle.vx_model.specs.Refusals.{compress_refusal};
ghost use Rattle.vx_model.specs.Rows.{rows};
ghost use Rattle.vx_model.specs.Site.{fresh, max_cascade};
ghost use Rattle.vx_model.specs.Size.{size};
ghost use Rattle.vx_model.specs.TreeType.{tree_type};
ghost use Rattle.vx_scheme.specs.Contexts.{site_of};
ghost use Rattle.vx_scheme.specs.Excluded.{excluded};
ghost use Rattle.vx_scheme.specs.Names.{name_of};
ghost use Rattle.vx_compressor.specs.ByValue.{IsBeside};
ghost use Rattle.vx_compressor.specs.Cascade.{setting, leaf_tree, compressed_child};
ghost use Rattle.vx_compressor.specs.CascadeLaws.{AnswersAreFixed};
ghost use Rattle.vx_compressor.specs.Distinct.{have_own_names, schemes_refusal};
ghost use Rattle.vx_compressor.specs.Reach.{IsInReach, most_part_rows};

use crate::bans::{Ban, bans_of};
use crate::by_value::{Beside, by_value};
use crate::distinct::have_own_names;
use crate::excluded::is_excluded;
use crate::nested::{column_tree, plain_copy, plain_tree};
use crate::timestamps::stamps_tree;
use std::alloc::Global;
use std::marker::{Brand, Model};
use std::sync::ledger::{Blank, Ledger};
use vx_array::ArrayRef;
use vx_base::{ExecutionCtx, Items, Refused, Steps, VortexError, VortexResult};
use vx_scheme::{CompressorContext, Scheme, SchemeId};

/// Schemes in the order in which they are judged.
pub type Schemes<S> = Items<S>;

/// Compresses columns with a list of schemes: at each site every eligible scheme gets a score, and the tree of the best
/// one stands where it is smaller than the plain tree. Names are distinct, and none is `vortex.compressor.root`.
/// Contracts see the list of schemes.
#[derive(Drop)]
pub struct CascadingCompressor<S: Scheme> {
    schemes: Schemes<S>,
    bans: Vec<Ban>,
}

impl<S: Scheme> Model for CascadingCompressor<S> {
    ghost use Rattle.std.specs.Prelude.{◌≡◌, List, map, true};
    ghost use Rattle.vx_compressor.specs.Bans.{ban_of, all_bans};
    ghost use Rattle.vx_compressor.specs.Distinct.{have_own_names};

    ghost Value = { List S };

    ghost view = { λ a. a.schemes };

    ghost invariant = { λ a. (map ban_of a.bans.items ≡ all_bans (map S.meaning a.schemes)) × (have_own_names (map S.meaning a.schemes) ≡ true) };
}

impl<S: Scheme> CascadingCompressor<S> {
    /// A compressor over the schemes, judged in this order. Collects their exclusion rules once. Refuses DuplicateScheme
    /// exactly where two schemes share a name or one is named `vortex.compressor.root`, and NoMemory; the schemes come
    /// back.
    pub fn new(alloc: Global, schemes: Schemes<S>) -> Result<Self, Refused<Schemes<S>>>
        ensures { Makes (schemes_refusal (map S.meaning schemes)) schemes schemes result }
    {
        if !have_own_names(schemes.as_slice()) {
            return Err(Refused {
                error: VortexError::DuplicateScheme,
                inputs: schemes,
            });
        }
        match bans_of(alloc, schemes.as_slice()) {
            Ok(bans) => Ok(CascadingCompressor { schemes, bans }),
            Err(error) => Err(Refused {
                error,
                inputs: schemes,
            }),
        }
    }

    /// The schemes, in the order in which they are judged. Their names are distinct, and none is the root's.
    pub fn schemes(&self) -> &Schemes<S>
        ensures schemes { result.now ≡ self.now }
        ensures names { have_own_names (map S.meaning self.now) ≡ true }
    {
        &self.schemes
    }

    /// Whether the candidate is excluded at the site: a scheme of its name stands above, or an exclusion rule of the list
    /// bars it below one that does, or it is `vortex.int.dict` and the column is a list's offsets.
    pub fn is_excluded(&self, candidate: &S, site: &CompressorContext) -> bool
        ensures { result ≡ excluded (map S.meaning self.now) (S.meaning candidate.now).name (site_of site.now).history }
    {
        is_excluded(self.bans.as_slice(), candidate.id(), site.cascade_history())
    }

    /// Compresses the array's column. The answer depends on its type and rows and on the context's sample words, and not on
    /// its encodings. It is lossless (same type and rows), no larger than the plain tree, and accepted again: compressing
    /// it answers it unchanged. Refuses TooManyRows exactly where an extent of the array passes 2^31 rows, and NoMemory.
    /// The context stays as it was.
    pub fn compress(&self, array: &ArrayRef, ctx: &mut ExecutionCtx) -> VortexResult<ArrayRef>
        ensures answer { Decided (compress_refusal array.now) (λ tree. tree ≡ cascade (leaf_tree (setting S.meaning self.now ctx.old)) (column_of array.now)) result }
        ensures kept { IfOk result (λ tree. column_of tree ≡ column_of array.now) }
        ensures fits { IfOk result (λ tree. extents_fit tree ≡ true) }
        ensures smaller { IfOk result (λ tree. size tree ≤ size (plain (column_of array.now))) }
        ensures ctx { ctx.new ≡ ctx.old }
    {
        if !array.extents_fit() {
            return Err(VortexError::TooManyRows);
        }
        array.known();
        column_tree(self, array, ctx)
    }

    /// `compress` of an array by value, which is dropped also where the call refuses. A plain array moves to its site,
    /// which saves a copy. Refuses TooManyRows exactly where an extent of the array passes 2^31 rows, and NoMemory. The
    /// context stays as it was.
    pub fn compress_owned(&self, array: ArrayRef, ctx: &mut ExecutionCtx) -> VortexResult<ArrayRef>
        ensures answer { Decided (compress_refusal array) (λ tree. tree ≡ cascade (leaf_tree (setting S.meaning self.now ctx.old)) (column_of array)) result }
        ensures kept { IfOk result (λ tree. column_of tree ≡ column_of array) }
        ensures fits { IfOk result (λ tree. extents_fit tree ≡ true) }
        ensures smaller { IfOk result (λ tree. size tree ≤ size (plain (column_of array))) }
        ensures ctx { ctx.new ≡ ctx.old }
    {
        if !array.is_plain() || !array.extents_fit() {
            return self.compress(&array, ctx);
        }
        array.known();
        plain_tree(self, array, ctx)
    }

    /// Does nothing; its contract holds the law on calls of `compress` and `compress_owned`, whatever the sample words: what
    /// they answer they accept, and answer again.
    pub fn laws_of_answers(&self)
        ensures { (words : List ℕ) → AnswersAreFixed (setting S.meaning self.now words) }
    {}

    /// Compresses a child of a site, for a scheme that builds its tree itself: a copy of the child where the parent's budget
    /// is 0, else the tree of its column at its own site, one level below. The answer has the child's type and rows, and
    /// is within the row limit exactly where the child is. The child has a leaf type, and at most
    /// 2^31 + 1 + 1,024 * (`MAX_CASCADE` + 1 - budget) rows, with the parent's budget: a part has at most 1,024 rows more
    /// than its column. Refuses NoMemory alone. The context stays as it was.
    pub fn compress_child(
        &self,
        child: &ArrayRef,
        parent_ctx: &CompressorContext,
        parent_id: SchemeId,
        child_index: usize,
        ctx: &mut ExecutionCtx,
    ) -> VortexResult<ArrayRef>
        requires leaf { is_leaf (tree_type child.now) ≡ true }
        requires few { length (rows child.now) ≤ most_part_rows (site_of parent_ctx.now).budget }
        ensures answer { Answers result (compressed_child (setting S.meaning self.now ctx.old) child.now (site_of parent_ctx.now) (name_of parent_id) child_index) }
        ensures kept { IfOk result (λ tree. column_of tree ≡ column_of child.now) }
        ensures fits { IfOk result (λ tree. extents_fit tree ≡ extents_fit child.now) }
        ensures ctx { ctx.new ≡ ctx.old }
    {
        child.known();
        if parent_ctx.finished_cascading() {
            return child.copy(ctx.alloc());
        }
        let site = parent_ctx.descend(parent_id, child_index);
        counted::<Brand, S>(self, Blank::new(1), child, &site, ctx)
    }
}

/// The tree of a leaf column or of timestamps. Timestamps are made plain first, since they are judged twice.
pub(crate) fn flat_tree<S: Scheme>(
    compressor: &CascadingCompressor<S>,
    array: &ArrayRef,
    ctx: &mut ExecutionCtx,
) -> VortexResult<ArrayRef>
    requires flat { is_flat (tree_type array.now) ≡ true }
    requires reach { IsInReach (column_of array.now) max_cascade }
    ensures answer { Answers result (cascade (leaf_tree (setting S.meaning compressor.now ctx.old)) (column_of array.now)) }
    ensures ctx { ctx.new ≡ ctx.old }
{
    array.known();
    if array.dtype().is_timestamp() {
        let plain = plain_copy(ctx.alloc(), array)?;
        return stamps_tree(compressor, plain, ctx);
    }
    let site = CompressorContext::new();
    counted::<Brand, S>(compressor, Blank::new(1), array, &site, ctx)
}

/// `flat_tree` of a plain tree, which moves to the fresh site.
pub(crate) fn flat_plain_tree<S: Scheme>(
    compressor: &CascadingCompressor<S>,
    plain: ArrayRef,
    ctx: &mut ExecutionCtx,
) -> VortexResult<ArrayRef>
    requires flat { is_flat (tree_type plain) ≡ true }
    requires plain { IsPlain plain }
    requires reach { IsInReach (column_of plain) max_cascade }
    ensures answer { Answers result (cascade (leaf_tree (setting S.meaning compressor.now ctx.old)) (column_of plain)) }
    ensures ctx { ctx.new ≡ ctx.old }
{
    if plain.dtype().is_timestamp() {
        return stamps_tree(compressor, plain, ctx);
    }
    let site = CompressorContext::new();
    plain_counted::<Brand, S>(compressor, Blank::new(1), plain, &site, ctx)
}

// The tree of the array's column at a site, with a step counter of its own. A plain array is copied only where its values
// alone don't decide the tree.
fn counted<L: Ledger, S: Scheme>(
    compressor: &CascadingCompressor<S>,
    blank: Blank,
    array: &ArrayRef,
    site: &CompressorContext,
    ctx: &mut ExecutionCtx,
) -> VortexResult<ArrayRef>
    requires flat { is_flat (tree_type array.now) ≡ true }
    requires reach { IsInReach (column_of array.now) (site_of site.now).budget }
    requires name { blank.name ≡ L.name }
    requires parts { blank.parts ≡ L.parts }
    requires some { 0 < L.parts }
    ensures answer { Answers result (leaf_tree (setting S.meaning compressor.now ctx.old) (column_of array.now) (site_of site.now)) }
    ensures ctx { ctx.new ≡ ctx.old }
{
    array.known();
    let plain = if array.is_plain() {
        if let Some(tree) = by_value(ctx.alloc(), array, site)? {
            return Ok(tree);
        }
        array.copy(ctx.alloc())?
    } else {
        array.canonical(ctx.alloc())?
    };
    plain_counted::<L, S>(compressor, blank, plain, site, ctx)
}

/// The tree of a plain tree's column at a site, with a step counter of its own.
pub(crate) fn plain_counted<L: Ledger, S: Scheme>(
    compressor: &CascadingCompressor<S>,
    blank: Blank,
    plain: ArrayRef,
    site: &CompressorContext,
    ctx: &mut ExecutionCtx,
) -> VortexResult<ArrayRef>
    requires flat { is_flat (tree_type plain) ≡ true }
    requires plain { IsPlain plain }
    requires reach { IsInReach (column_of plain) (site_of site.now).budget }
    requires name { blank.name ≡ L.name }
    requires parts { blank.parts ≡ L.parts }
    requires some { 0 < L.parts }
    ensures answer { Answers result (leaf_tree (setting S.meaning compressor.now ctx.old) (column_of plain) (site_of site.now)) }
    ensures ctx { ctx.new ≡ ctx.old }
{
    let words = ctx.words().copy(ctx.alloc())?;
    let mut steps = Steps::<L>::new(blank);
    compressor.site_tree(words.as_slice(), plain, site, ctx, &mut steps)
}

/// `plain_counted`, and the plain tree beside it.
pub(crate) fn beside_counted<L: Ledger, S: Scheme>(
    compressor: &CascadingCompressor<S>,
    blank: Blank,
    plain: ArrayRef,
    site: &CompressorContext,
    ctx: &mut ExecutionCtx,
) -> VortexResult<Beside>
    requires flat { is_flat (tree_type plain) ≡ true }
    requires plain { IsPlain plain }
    requires reach { IsInReach (column_of plain) (site_of site.now).budget }
    requires name { blank.name ≡ L.name }
    requires parts { blank.parts ≡ L.parts }
    requires some { 0 < L.parts }
    ensures answer { OrMemory result (λ made. IsBeside (leaf_tree (setting S.meaning compressor.now ctx.old) (column_of plain) (site_of site.now)) plain made.tree made.plain) }
    ensures ctx { ctx.new ≡ ctx.old }
{
    let words = ctx.words().copy(ctx.alloc())?;
    let mut steps = Steps::<L>::new(blank);
    compressor.site_beside(words.as_slice(), plain, site, ctx, &mut steps)
}
