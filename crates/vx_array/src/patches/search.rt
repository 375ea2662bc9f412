//! The binary search for the patch of a row.

ghost use Rattle.std.specs.Prelude.{◌≡◌, ◌<◌, ◌≤◌, ◌+◌, ◌-◌, ◌*◌, ◌^◌, ℕ, IfSome, IsTrue, length, option_map, unwrap_or};
ghost use Rattle.vx_base.specs.CellValue.{cell_value};
ghost use Rattle.vx_base.specs.PlainType.{is_flat};
ghost use Rattle.vx_base.specs.PlainValue.{PlainValue};
ghost use Rattle.vx_model.proofs.PatchLemmas.{NoneBelow, NoneFrom};
ghost use Rattle.vx_model.specs.Rows.{rows, row_at, block_rows, place_of, patched};
ghost use Rattle.vx_model.specs.TreeType.{tree_type};
ghost use Rattle.vx_model.specs.WellFormed.{indices_below, searched};
ghost use Rattle.vx_array.specs.Look.{Looks};

use super::{CHUNK_ROWS, as_index};
use crate::array::Patches;
use crate::node::offset_at;
use std::sync::ledger::Ledger;
use vx_base::{Cell, Steps};

/// What one probe of the search finds.
#[derive(Clone, Copy)]
pub(crate) enum Look {
    /// The patch is at this place.
    Found(u64),
    /// It is at one of the places from the first up to before the second, or nowhere.
    Left(u64, u64),
}

impl Patches {
    // The index of a row's patch: `offset + row`, which may need 65 bits.
    fn index_at(&self, row: u64) -> u128
        ensures { result ≡ self.now.offset + row }
    {
        u128::from(self.offset) + u128::from(row)
    }

    // Where chunk offsets are, the number of indices before a chunk: the chunk's offset, or all behind the last chunk.
    #[cycle(cell_at)]
    fn before_chunk(&self, chunk: u128) -> u64
        ensures most { result ≤ length (rows self.now.indices) }
        ensures count { IfSome self.now.chunks (λ _. result ≡ indices_below (block_rows * chunk) (rows self.now.indices)) }
    {
        let all = self.indices.len();
        match &self.chunks {
            Some(chunks) => {
                if chunk < u128::from(chunks.len()) {
                    offset_at(chunks, chunk as u64) as u64
                } else {
                    all
                }
            }
            None => all,
        }
    }

    // The places that the index can be at: those of its chunk, from the first up to before the second; all without chunk
    // offsets.
    #[cycle(cell_at)]
    fn chunk_of(&self, wanted: u128) -> (u64, u64)
        ensures order { result.0 ≤ result.1 }
        ensures within { result.1 ≤ length (rows self.now.indices) }
        ensures below { NoneBelow (rows self.now.indices) wanted result.0 }
        ensures from { NoneFrom (rows self.now.indices) wanted result.1 }
        ensures many { (row : ℕ) → self.now.offset + row ≡ wanted → result.1 - result.0 ≡ searched self.now row }
    {
        match &self.chunks {
            Some(_) => {
                let chunk = wanted / CHUNK_ROWS;
                (self.before_chunk(chunk), self.before_chunk(chunk + 1))
            }
            None => (0, self.indices.len()),
        }
    }

    // One probe for an index: the middle of the places from `low` up to before `high`.
    #[cycle(cell_at)]
    #[tactic(auto, using(crate::proofs::Flat::flats))]
    fn look(&self, wanted: u128, low: u64, high: u64) -> Look
        requires some { low < high }
        requires within { high ≤ length (rows self.now.indices) }
        ensures { Looks (rows self.now.indices) wanted low high result }
    {
        let middle = low + (high - low) / 2;
        match as_index(self.indices.cell_at(middle).integer()) {
            Some(index) if index == wanted => Look::Found(middle),
            Some(index) if index < wanted => Look::Left(middle + 1, high),
            _ => Look::Left(low, middle),
        }
    }

    /// The place of the row's patch among the patches, None where the row has none, by binary search. `row` is below the
    /// array's length. The row's value is the patches' value at that place, and without a place what is patched
    /// (`value`).
    ///
    /// Each index that is read counts a step: at least one where there are patches to look through, and p with
    /// 2^p <= 2 * k + 1. Here k is the number of patches in the row's chunk of 1,024 indices where there are chunk offsets, else
    /// the number of all patches.
    #[tactic(auto, using(vx_model::proofs::PatchLemmas::place_steps))]
    pub fn search<L: Ledger>(&self, row: u64, steps: &mut Steps<L>) -> Option<u64>
        requires { row < self.now.array_len }
        ensures place { result ≡ place_of (rows self.now.indices) (self.now.offset + row) }
        ensures value { (fill : PlainValue) → unwrap_or (option_map (row_at (rows self.now.values)) result) fill ≡ patched (rows self.now.indices) (rows self.now.values) fill (self.now.offset + row) }
        ensures rose { steps.old ≤ steps.new }
        ensures looked { 0 < searched self.now row → steps.old < steps.new }
        ensures probes { 2 ^ (steps.new - steps.old) ≤ 2 * searched self.now row + 1 }
        ensures fewer { searched self.now row ≤ length (rows self.now.indices) }
    {
        self.known();
        let wanted = self.index_at(row);
        let (mut low, mut high) = self.chunk_of(wanted);
        while low < high {
            steps.tick();
            match self.look(wanted, low, high) {
                Look::Found(place) => return Some(place),
                Look::Left(from, to) => {
                    low = from;
                    high = to;
                }
            }
        }
        None
    }

    // `search` without a count. A row that is read needs none, and a count asks for a ledger.
    #[cycle(cell_at)]
    #[tactic(auto, using(vx_model::proofs::PatchLemmas::place_steps))]
    pub(crate) fn place_of(&self, row: u64) -> Option<u64>
        ensures { result ≡ place_of (rows self.now.indices) (self.now.offset + row) }
    {
        let wanted = self.index_at(row);
        let (mut low, mut high) = self.chunk_of(wanted);
        while low < high {
            match self.look(wanted, low, high) {
                Look::Found(place) => return Some(place),
                Look::Left(from, to) => {
                    low = from;
                    high = to;
                }
            }
        }
        None
    }

    // The row's patch as a cell, None where the row has none. The values are of a flat type.
    #[cycle(cell_at)]
    #[tactic(auto, using(crate::proofs::Flat::flats))]
    pub(crate) fn cell_at(&self, row: u64) -> Option<Cell<'_>>
        requires { IsTrue (is_flat (tree_type self.now.values)) }
        ensures { (fill : PlainValue) → unwrap_or (option_map cell_value result) fill ≡ patched (rows self.now.indices) (rows self.now.values) fill (self.now.offset + row) }
    {
        let place = self.place_of(row)?;
        Some(self.values.cell_at(place))
    }
}
