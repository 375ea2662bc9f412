//! Decoded integers that a tree lends where it stores them, so that they aren't copied.

ghost use Rattle.std.specs.Prelude.{◌≡◌};
ghost use Rattle.vx_array.specs.Lent.{lent};

use vx_values::Ints;

/// The integers of a column, 0 beneath nulls: those that its tree stores, or decoded ones.
#[derive(Drop)]
pub(crate) enum LentInts<'a> {
    Stored(&'a Ints),
    Decoded(Ints),
}

impl LentInts<'_> {
    pub(crate) fn as_ints(&self) -> &Ints
        ensures { result.now ≡ lent self.now }
    {
        match self {
            LentInts::Stored(ints) => ints,
            LentInts::Decoded(ints) => ints,
        }
    }
}
