//! Flat lists of values of any kind.

ghost use Rattle.std.specs.Prelude.{◌≡◌, length, map, pos, false, true, [], IsTrue, replicate};
ghost use Rattle.vx_base.specs.Answers.{OrMemory};
ghost use Rattle.vx_base.specs.Defaults.{default_of, or_default};
ghost use Rattle.vx_base.specs.PlainType.{is_flat};
ghost use Rattle.vx_base.specs.CellValue.{cell_value};
ghost use Rattle.vx_base.specs.Integers.{lies_in};
ghost use Rattle.vx_base.specs.PlainValue.{truth, int, bytes, whole_or_zero};
ghost use Rattle.vx_model.specs.Decoded.{zeroed, zeroed_by, picked};
ghost use Rattle.vx_model.specs.Refusals.{validity_length};
ghost use Rattle.vx_values.specs.IntsOf.{ptype_of, wholes_of};
ghost use Rattle.vx_values.specs.ValuesOf.{ints, kind_of, kind_in, holds_integers, values_of, default_in};

mod filling;

use crate::ints::Ints;
use crate::{bits, byte_rows};
use std::alloc::Global;
use vx_base::{ByteRows, Cell, DType, Mask, PType, Scalar, VortexResult};

/// A flat list of values, by their kind.
#[derive(Drop)]
pub enum Values {
    /// Truth values.
    Bits(Mask),
    /// Integers and timestamps.
    Ints(Ints),
    /// Texts and binaries.
    Bytes(ByteRows),
}

impl Values {
    /// The number of rows.
    pub fn len(&self) -> u64
        ensures { result ≡ length (values_of self.now) }
    {
        match self {
            Values::Bits(bits) => bits.len(),
            Values::Ints(ints) => ints.len(),
            Values::Bytes(rows) => rows.len(),
        }
    }

    /// The integers of a list of integers.
    pub fn integers(&self) -> &Ints
        requires { IsTrue (holds_integers (kind_in self.now)) }
        ensures { Values.Ints result.now ≡ self.now }
    {
        let Values::Ints(ints) = self else {
            unreachable!();
        };
        ints
    }

    /// The value in every row, or the type's default where it is null.
    #[tactic(auto, using(vx_model::proofs::FilledLemmas::held))]
    pub fn filled(alloc: Global, value: &Scalar, len: u64) -> VortexResult<Values>
        requires { IsTrue (is_flat value.now.dtype) }
        ensures { OrMemory result (λ values. (kind_in values ≡ kind_of value.now.dtype) × (values_of values ≡ map (or_default (default_of value.now.dtype)) (replicate len value.now.value))) }
    {
        value.known();
        let cell = value.cell();
        match value.dtype() {
            DType::Bool(_) => Ok(Values::Bits(bits::filled(alloc, cell.truth(), len)?)),
            DType::Primitive(ptype, _) => filled_wholes(alloc, cell, *ptype, len),
            DType::Timestamp(_, _) => filled_wholes(alloc, cell, PType::I64, len),
            DType::Utf8(_) => Ok(Values::Bytes(byte_rows::filled(alloc, cell.bytes(), len)?)),
            DType::Binary(_) => Ok(Values::Bytes(byte_rows::filled(alloc, cell.bytes(), len)?)),
            _ => unreachable!(),
        }
    }

    /// The rows, with the kind's default where the mask is false.
    #[tactic(auto, using(vx_model::proofs::ItemMapLemmas::item_maps))]
    pub fn zeroed(self, mask: &Mask) -> Values
        requires { length mask.now ≡ length (values_of self) }
        ensures kind { kind_in result ≡ kind_in self }
        ensures values { values_of result ≡ zeroed (default_in (kind_in self)) mask.now (values_of self) }
    {
        match self {
            Values::Bits(bits) => Values::Bits(bits::zeroed(bits, mask)),
            Values::Ints(ints) => Values::Ints(ints.zeroed(mask)),
            Values::Bytes(rows) => Values::Bytes(byte_rows::zeroed(rows, mask)),
        }
    }

    /// The rows, with the kind's default where a row is null.
    pub fn zeroed_by(self, valid: &Option<Mask>) -> Values
        requires { validity_length valid.now (length (values_of self)) ≡ true }
        ensures kind { kind_in result ≡ kind_in self }
        ensures values { values_of result ≡ zeroed_by (default_in (kind_in self)) valid.now (values_of self) }
    {
        match valid {
            Some(mask) => self.zeroed(mask),
            None => self,
        }
    }

    /// For each code the row with that index, the kind's default out of bounds.
    pub fn picked(&self, alloc: Global, codes: &Ints) -> VortexResult<Values>
        ensures { OrMemory result (λ values. (kind_in values ≡ kind_in self.now) × (values_of values ≡ map (λ code. picked (ptype_of codes.now) (values_of self.now) (default_in (kind_in self.now)) code) (wholes_of codes.now))) }
    {
        match self {
            Values::Bits(bits) => picked_truths(alloc, bits, codes),
            Values::Ints(ints) => picked_integers(alloc, ints, codes),
            Values::Bytes(rows) => picked_rows(alloc, rows, codes),
        }
    }
}

// The integer of a cell in every row.
fn filled_wholes(alloc: Global, cell: Cell<'_>, ptype: PType, len: u64) -> VortexResult<Values>
    requires { IsTrue (lies_in ptype (whole_or_zero (cell_value cell))) }
    ensures { OrMemory result (λ values. (kind_in values ≡ ints ptype) × (values_of values ≡ map int (replicate len (whole_or_zero (cell_value cell.entry))))) }
{
    Ok(Values::Ints(Ints::filled(alloc, cell.whole(), ptype, len)?))
}

// `picked` of truth values, whose default is false.
fn picked_truths(alloc: Global, items: &Mask, codes: &Ints) -> VortexResult<Values>
    ensures { OrMemory result (λ values. (kind_in values ≡ kind_in (Values.Bits items.now)) × (values_of values ≡ map (λ code. picked (ptype_of codes.now) (map truth items.now) (truth false) code) (wholes_of codes.now))) }
{
    Ok(Values::Bits(bits::picked(alloc, items, codes)?))
}

// `picked` of integers, whose default is 0.
fn picked_integers(alloc: Global, items: &Ints, codes: &Ints) -> VortexResult<Values>
    ensures { OrMemory result (λ values. (kind_in values ≡ kind_in (Values.Ints items.now)) × (values_of values ≡ map (λ code. picked (ptype_of codes.now) (map int (wholes_of items.now)) (int (pos 0)) code) (wholes_of codes.now))) }
{
    Ok(Values::Ints(items.picked(alloc, codes)?))
}

// `picked` of texts and binaries, whose default is empty.
fn picked_rows(alloc: Global, items: &ByteRows, codes: &Ints) -> VortexResult<Values>
    ensures { OrMemory result (λ values. (kind_in values ≡ kind_in (Values.Bytes items.now)) × (values_of values ≡ map (λ code. picked (ptype_of codes.now) (map bytes items.now) (bytes []) code) (wholes_of codes.now))) }
{
    Ok(Values::Bytes(byte_rows::picked(alloc, items, codes)?))
}
