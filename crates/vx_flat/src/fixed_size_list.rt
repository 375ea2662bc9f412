//! Fixed-size lists: how many elements they have.

ghost use Rattle.std.specs.Prelude.{◌≡◌, ◌==◌, ◌*◌};

/// Whether `elements == len * list_size`, with the product taken exactly: it may need 96 bits.
pub fn have_elements(elements: u64, list_size: u32, len: u64) -> bool
    ensures { result ≡ (elements == len * list_size) }
{
    u128::from(elements) == u128::from(len) * u128::from(list_size)
}
