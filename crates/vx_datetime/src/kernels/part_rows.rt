//! Rows in parts, read as integers where they stand plain, and else decoded first.

ghost use Rattle.std.specs.Prelude.{◌≡◌, map};
ghost use Rattle.vx_base.specs.Answers.{OrMemory};
ghost use Rattle.vx_base.specs.PlainValue.{whole_or_zero};
ghost use Rattle.vx_datetime.specs.Moments.{AreDecoded, ArePartRows, AreReadable, IsDecoded, IsReadable, part_tree};
ghost use Rattle.vx_model.specs.Plain.{validity};
ghost use Rattle.vx_model.specs.Rows.{rows};
ghost use Rattle.vx_model.specs.Tree.{Tree, datetime_parts};
ghost use Rattle.vx_model.specs.WellFormed.{WellFormed};
ghost use Rattle.vx_values.specs.IntsOf.{wholes_of};

use super::parts::Parts;
use std::alloc::Global;
use vx_array::ArrayRef;
use vx_base::{Mask, VortexResult};
use vx_values::Ints;

/// A plain column: the caller's where that is plain, else a decoded one.
#[derive(Drop)]
pub(super) enum PlainPart<'a> {
    Lent(&'a ArrayRef),
    Decoded(ArrayRef),
}

/// Three plain columns of parts.
#[derive(Drop)]
pub(super) struct DecodedParts<'a> {
    pub(super) days: PlainPart<'a>,
    pub(super) seconds: PlainPart<'a>,
    pub(super) subseconds: PlainPart<'a>,
}

/// The integers of three columns of parts, 0 beneath nulls, and the validity of the days.
#[derive(Clone, Copy)]
pub(super) struct PartRows<'a> {
    pub(super) days: &'a Ints,
    pub(super) valid: &'a Option<Mask>,
    pub(super) seconds: &'a Ints,
    pub(super) subseconds: &'a Ints,
}

/// The parts of an array, each decoded unless it is plain.
pub(super) fn decoded_parts<'a>(alloc: Global, parts: &Parts<'a>) -> VortexResult<DecodedParts<'a>>
    requires { WellFormed (datetime_parts parts.now.kind.now parts.now.nullability parts.now.days.now parts.now.seconds.now parts.now.subseconds.now) }
    ensures decoded { OrMemory result (λ read. AreDecoded parts.now.days.now parts.now.seconds.now parts.now.subseconds.now read) }
    ensures readable { OrMemory result (λ read. AreReadable read) }
{
    let days = decoded_part(alloc, parts.days)?;
    let seconds = decoded_part(alloc, parts.seconds)?;
    let subseconds = decoded_part(alloc, parts.subseconds)?;
    Ok(DecodedParts {
        days,
        seconds,
        subseconds,
    })
}

/// One column, decoded unless it is plain.
pub(super) fn decoded_part(alloc: Global, part: &ArrayRef) -> VortexResult<PlainPart<'_>>
    ensures { OrMemory result (λ read. IsDecoded part.now (part_tree read)) }
{
    if part.is_plain() {
        return Ok(PlainPart::Lent(part));
    }
    let read = part.canonical(alloc)?;
    Ok(PlainPart::Decoded(read))
}

/// The integers and the validity that a plain column stores.
fn stored(column: &ArrayRef) -> (&Ints, &Option<Mask>)
    requires { IsReadable column.now }
    ensures values { wholes_of result.0.now ≡ map whole_or_zero (rows column.now) }
    ensures valid { result.1.now ≡ validity (rows column.now) }
{
    let (values, valid, _) = column.as_primitive();
    (values, valid)
}

impl PlainPart<'_> {
    pub(super) fn tree(&self) -> &ArrayRef
        ensures { result.now ≡ part_tree self.now }
    {
        match self {
            PlainPart::Lent(tree) => tree,
            PlainPart::Decoded(tree) => tree,
        }
    }
}

impl DecodedParts<'_> {
    /// The integers.
    pub(super) fn rows(&self) -> PartRows<'_>
        requires { AreReadable self.now }
        ensures { (d s u : Tree) → AreDecoded d s u self.now → ArePartRows d s u result }
    {
        let (days, valid) = stored(self.days.tree());
        let (seconds, _) = stored(self.seconds.tree());
        let (subseconds, _) = stored(self.subseconds.tree());
        PartRows {
            days,
            valid,
            seconds,
            subseconds,
        }
    }
}
