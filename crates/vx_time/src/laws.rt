//! Laws of timestamps in parts, as the contracts of calls that do nothing.

ghost use Rattle.std.specs.Prelude.{◌≡◌, ◌<ℤ◌, ℤ, pos, true, None};
ghost use Rattle.std.specs.Ordering.{int_cmp};
ghost use Rattle.vx_base.specs.declared.ptype.PType.TheVariants.{I64};
ghost use Rattle.vx_base.specs.declared.timestamp.TimeUnit.{TimeUnit};
ghost use Rattle.vx_base.specs.Integers.{lies_in};
ghost use Rattle.vx_base.specs.Timestamps.{divides};
ghost use Rattle.vx_time.specs.CanonicalParts.{is_canonical, parts_cmp};
ghost use Rattle.vx_time.specs.PartsOf.{parts_of, sum_of, units_per_second};
ghost use Rattle.vx_time.specs.Refusals.{combine_refusal};
ghost use Rattle.vx_time.specs.declared.parts.TimestampParts.{TimestampParts};

/// Does nothing; its contract is a law. The parts of a timestamp combine to it, whatever the days; those of one of 64 signed
/// bits are canonical, and `combine` refuses none of them.
pub fn parts_combine()
    ensures sum { (d t : ℤ) → pos 0 <ℤ d → sum_of d (parts_of d t) ≡ t }
    ensures canonical { (d t : ℤ) → pos 0 <ℤ d → lies_in I64 t ≡ true → is_canonical d (parts_of d t) ≡ true }
    ensures combines { (unit : TimeUnit) (t : ℤ) → divides unit ≡ true → lies_in I64 t ≡ true → combine_refusal unit (parts_of (units_per_second unit) t) ≡ None }
{}

/// Does nothing; its contract is a law. Canonical parts are the split of their sum, which has 64 signed bits, and of no
/// other timestamp.
pub fn canonical_parts_are_a_split()
    ensures split { (d : ℤ) (p : TimestampParts) → is_canonical d p ≡ true → parts_of d (sum_of d p) ≡ p }
    ensures held { (d : ℤ) (p : TimestampParts) → is_canonical d p ≡ true → lies_in I64 (sum_of d p) ≡ true }
    ensures one { (d t : ℤ) (p : TimestampParts) → is_canonical d p ≡ true → parts_of d t ≡ p → t ≡ sum_of d p }
{}

/// Does nothing; its contract is a law. The lexicographic order of canonical parts is the order of their timestamps, also of
/// negative ones.
pub fn parts_order_timestamps()
    ensures { (d : ℤ) (p q : TimestampParts) → is_canonical d p ≡ true → is_canonical d q ≡ true → parts_cmp p q ≡ int_cmp (sum_of d p) (sum_of d q) }
{}
