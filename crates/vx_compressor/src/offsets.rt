//! The offsets of lists, which are a column of their own below the root.

ghost use Rattle.std.specs.List.{list_all};
ghost use Rattle.std.specs.Prelude.{◌≡◌, IsTrue, map, pos};
ghost use Rattle.vx_base.specs.Answers.{Answers, OrMemory};
ghost use Rattle.vx_base.specs.Integers.{lies_in, unsigned_of};
ghost use Rattle.vx_base.specs.declared.ptype.PType.TheVariants.{U64};
ghost use Rattle.vx_model.specs.Cascade.{offsets_site};
ghost use Rattle.vx_model.specs.Plain.{plain};
ghost use Rattle.vx_model.specs.Rows.{rows};
ghost use Rattle.vx_model.specs.Whole.{ArePlainOffsets, narrowed};
ghost use Rattle.vx_values.specs.IntsOf.{ptype_of, wholes_of};
ghost use Rattle.vx_compressor.specs.Cascade.{setting, leaf_tree};

use crate::compressor::{CascadingCompressor, plain_counted};
use crate::root::{OFFSETS, ROOT};
use std::alloc::Global;
use std::marker::Brand;
use std::sync::ledger::Blank;
use vx_array::ArrayRef;
use vx_base::{ExecutionCtx, IntList, Integer, Nullability, PType, VortexResult};
use vx_blocks::narrow_type;
use vx_scheme::{CompressorContext, Scheme, SchemeId};
use vx_values::Ints;

/// The tree of plain offsets whose last is `end`, in the narrowest unsigned type that holds `end`. Their site is one level
/// below the root, so a budget of `MAX_CASCADE` - 1 is left to them.
pub(crate) fn offsets_tree<S: Scheme>(
    compressor: &CascadingCompressor<S>,
    offsets: ArrayRef,
    end: u64,
    ctx: &mut ExecutionCtx,
) -> VortexResult<ArrayRef>
    requires { ArePlainOffsets offsets end }
    ensures answer { Answers result (leaf_tree (setting S.meaning compressor.now ctx.old) (narrowed end (rows offsets)) offsets_site) }
    ensures ctx { ctx.new ≡ ctx.old }
{
    let narrow = narrow(ctx.alloc(), &offsets, end)?;
    let site = CompressorContext::new().descend(SchemeId::of(ROOT), OFFSETS);
    plain_counted::<Brand, S>(compressor, Blank::new(1), narrow, &site, ctx)
}

// The plain tree of the offsets in the narrowest unsigned type that holds `end`.
fn narrow(alloc: Global, offsets: &ArrayRef, end: u64) -> VortexResult<ArrayRef>
    requires { ArePlainOffsets offsets.now end }
    ensures { Answers result (plain (narrowed end (rows offsets.now))) }
{
    let (wide, _, _) = offsets.as_primitive();
    let ints = in_type(alloc, wide, narrow_type(0, i128::from(end)))?;
    match ArrayRef::primitive(ints, None, Nullability::NonNullable) {
        Ok(tree) => Ok(tree),
        Err(_) => unreachable!(),
    }
}

// Unsigned 64-bit integers in an unsigned type that holds each of them.
fn in_type(alloc: Global, wide: &Ints, ptype: PType) -> VortexResult<Ints>
    requires wide { ptype_of wide.now ≡ U64 }
    requires unsigned { unsigned_of ptype ≡ ptype }
    requires held { IsTrue (list_all (lies_in ptype) (wholes_of wide.now)) }
    ensures { OrMemory result (λ ints. (ptype_of ints ≡ ptype) × (wholes_of ints ≡ wholes_of wide.now)) }
{
    let Ints::U64(items) = wide else {
        unreachable!();
    };
    let items = items.as_slice();
    match ptype {
        PType::U8 => Ok(Ints::U8(converted(alloc, items)?)),
        PType::U16 => Ok(Ints::U16(converted(alloc, items)?)),
        PType::U32 => Ok(Ints::U32(converted(alloc, items)?)),
        PType::U64 => Ok(Ints::U64(converted(alloc, items)?)),
        _ => unreachable!(),
    }
}

// The integers in a type that holds each of them.
fn converted<T: Integer>(alloc: Global, items: &[u64]) -> VortexResult<IntList<T>>
    requires { IsTrue (list_all (lies_in T.kind) (map pos items.now)) }
    ensures { OrMemory result (λ list. map T.whole list ≡ map pos items.now) }
{
    let mut converted = Vec::with_capacity(alloc, items.len())?;
    for row in 0..items.len() {
        converted.push(convert(items[row]))?;
    }
    Ok(IntList::from_vec(converted))
}

#[inline(always)]
fn convert<T: Integer>(item: u64) -> T
    requires { IsTrue (lies_in T.kind (pos item)) }
    ensures { T.whole result ≡ pos item }
{
    let Some(item) = T::from_whole(i128::from(item)) else {
        unreachable!();
    };
    item
}
