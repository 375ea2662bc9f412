//! Laws of the kernels.

ghost use Rattle.std.specs.Prelude.{ℕ, ◌<◌, ◌≤◌, ◌^◌, ◌↔◌};
ghost use Rattle.vx_base.specs.Digits.{digits};
ghost use Rattle.vx_blocks.specs.GivesBack.{GivesBackValues, GivesBackKeptRows, GivesBackBlockValues, GivesBackBlockRows, GivesBackDeltas, GivesBackZigZag};

/// Does nothing; its contract is a law. `unpack` after `pack` gives, row by row, each valid value that fits the width, and 0
/// for a null and for a row that doesn't fit.
pub fn unpack_gives_back()
    ensures values { GivesBackValues }
    ensures kept_rows { GivesBackKeptRows }
{}

/// Does nothing; its contract is a law. `unpack_blocks` after `pack_blocks` gives, row by row, each valid value that fits the
/// width of its block, and 0 for a null and for a row that doesn't fit.
pub fn unpack_blocks_gives_back()
    ensures values { GivesBackBlockValues }
    ensures kept_rows { GivesBackBlockRows }
{}

/// Does nothing; its contract is a law. A number has at most `count` binary digits exactly where it is below 2^`count`, so
/// its digits are the fewest that hold it.
pub fn digits_are_fewest()
    ensures { (number count : ℕ) → ((digits number ≤ count) ↔ (number < 2 ^ count)) }
{}

/// Does nothing; its contract is a law. `undelta` of the bases and deltas that `delta_blocks` makes has each valid value in
/// its row.
pub fn undelta_gives_back()
    ensures { GivesBackDeltas }
{}

/// Does nothing; its contract is a law. `unzigzag` inverts `zigzag`.
pub fn unzigzag_gives_back()
    ensures { GivesBackZigZag }
{}
