//! The characters of a text, decoded, or as the bytes that they are.

ghost use Rattle.std.specs.Prelude.{◌≡◌, ℕ};
ghost use Rattle.vx_rows.specs.Items.{fits_char};

/// A character, an ASCII one as its byte. A search is written once and compiled for each of the two.
pub(crate) trait Character: Copy {
    // The code point.
    ghost code: { Self → ℕ };

    /// Whether it is the wanted one, or any is.
    fn fits(self, wanted: Option<char>) -> bool
        ensures { result ≡ fits_char wanted (code self) };
}

impl Character for u8 {
    ghost code = { λ byte. byte };

    #[inline(always)]
    fn fits(self, wanted: Option<char>) -> bool {
        match wanted {
            Some(wanted) => char::from(self) == wanted,
            None => true,
        }
    }
}

impl Character for char {
    ghost code = { λ found. found };

    #[inline(always)]
    fn fits(self, wanted: Option<char>) -> bool {
        match wanted {
            Some(wanted) => self == wanted,
            None => true,
        }
    }
}
