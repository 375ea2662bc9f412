//! Columns of parts into one column of 64 signed bits: each part times its factor, added up.

ghost use Rattle.std.specs.Prelude.{◌≡◌, ◌≤◌, ◌+◌, ◌+ℤ◌, ◌*ℤ◌, length, map};
ghost use Rattle.vx_base.specs.Answers.{OrMemory};
ghost use Rattle.vx_base.specs.Wrapping.{wrap};
ghost use Rattle.vx_base.specs.declared.ptype.PType.TheVariants.{I64};
ghost use Rattle.vx_values.specs.IntsOf.{ptype_of, wholes_of};
ghost use Rattle.vx_values.specs.Combined.{combined, added, scaled};

use super::Ints;
use super::sequences::low_word;
use std::alloc::Global;
use vx_base::{IntList, Integer, VortexResult};
use vx_blocks::BLOCK_ROWS;

impl Ints {
    /// In each row `days * of_days + seconds * of_seconds + subseconds`, wrapping at 64 signed bits. The three are equally
    /// long.
    pub fn combined(
        alloc: Global,
        days: &Ints,
        of_days: i64,
        seconds: &Ints,
        of_seconds: i64,
        subseconds: &Ints,
    ) -> VortexResult<Ints>
        requires seconds { length (wholes_of seconds.now) ≡ length (wholes_of days.now) }
        requires subseconds { length (wholes_of subseconds.now) ≡ length (wholes_of days.now) }
        ensures { OrMemory result (λ ints. (ptype_of ints ≡ I64) × (wholes_of ints ≡ combined of_days of_seconds (wholes_of days.now) (wholes_of seconds.now) (wholes_of subseconds.now))) }
    {
        Ok(Ints::I64(sums_of(alloc, days, of_days, seconds, of_seconds, subseconds)?))
    }

    // Writes the integers from row `start` on, times the factor, wrapping at 64 signed bits.
    fn write_to<S: Integer>(&self, start: usize, factor: i64, sums: &mut [S])
        requires kind { S.kind ≡ I64 }
        requires room { start + length sums.old ≤ length (wholes_of self.now) }
        ensures { map S.whole sums.new ≡ scaled start factor (wholes_of self.now) (length sums.old) }
    {
        with_ints!(self, items => write_each(items.as_slice(), start, factor, sums))
    }

    // Adds the integers from row `start` on, times the factor, to the sums, wrapping at 64 signed bits.
    fn add_to<S: Integer>(&self, start: usize, factor: i64, sums: &mut [S])
        requires kind { S.kind ≡ I64 }
        requires room { start + length sums.old ≤ length (wholes_of self.now) }
        ensures { map S.whole sums.new ≡ added start factor (wholes_of self.now) (map S.whole sums.old) }
    {
        with_ints!(self, items => add_each(items.as_slice(), start, factor, sums))
    }
}

// The sums as a list. A block of 1,024 rows is appended and added up before the next, so that its sums stay in the cache.
fn sums_of<S: Integer>(
    alloc: Global,
    days: &Ints,
    of_days: i64,
    seconds: &Ints,
    of_seconds: i64,
    subseconds: &Ints,
) -> VortexResult<IntList<S>>
    requires kind { S.kind ≡ I64 }
    requires seconds { length (wholes_of seconds.now) ≡ length (wholes_of days.now) }
    requires subseconds { length (wholes_of subseconds.now) ≡ length (wholes_of days.now) }
    ensures { OrMemory result (λ list. map S.whole list ≡ combined of_days of_seconds (wholes_of days.now) (wholes_of seconds.now) (wholes_of subseconds.now)) }
{
    let len = days.len() as usize;
    let mut sums = Vec::with_capacity(alloc, len)?;
    for block in 0..len.div_ceil(BLOCK_ROWS) {
        let start = BLOCK_ROWS * block;
        let end = start + (len - start).min(BLOCK_ROWS);
        sums.resize(end, S::zero())?;
        let part = sums.slice_mut(start..);
        days.write_to(start, of_days, part);
        seconds.add_to(start, of_seconds, part);
        subseconds.add_to(start, 1, part);
    }
    Ok(IntList::from_vec(sums))
}

// Writes each item from `start` on, times the factor, wrapping at 64 signed bits.
fn write_each<T: Integer, S: Integer>(items: &[T], start: usize, factor: i64, sums: &mut [S])
    requires kind { S.kind ≡ I64 }
    requires room { start + length sums.old ≤ length items.now }
    ensures { map S.whole sums.new ≡ scaled start factor (map T.whole items.now) (length sums.old) }
{
    let part = &items[start..start + sums.len()];
    for row in 0..part.len() {
        sums[row] = plus_product(S::zero(), part[row].to_whole(), factor);
    }
}

// Adds each item from `start` on, times the factor, to the sum in its row, wrapping at 64 signed bits.
fn add_each<T: Integer, S: Integer>(items: &[T], start: usize, factor: i64, sums: &mut [S])
    requires kind { S.kind ≡ I64 }
    requires room { start + length sums.old ≤ length items.now }
    ensures { map S.whole sums.new ≡ added start factor (map T.whole items.now) (map S.whole sums.old) }
{
    let part = &items[start..start + sums.len()];
    for row in 0..part.len() {
        sums[row] = plus_product(sums[row], part[row].to_whole(), factor);
    }
}

// `sum + whole * factor`, wrapping at 64 signed bits.
#[inline(always)]
fn plus_product<S: Integer>(sum: S, whole: i128, factor: i64) -> S
    requires { S.kind ≡ I64 }
    ensures { S.whole result ≡ wrap I64 (S.whole sum +ℤ whole *ℤ factor) }
{
    let _sum = sum.to_whole();
    let product = low_word(whole).wrapping_mul(factor.cast_unsigned());
    S::from_low_bits(sum.to_bits().wrapping_add(product))
}
