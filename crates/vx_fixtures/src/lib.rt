//! Fixtures that tests of several crates share: masks, integers, rows of bytes, timestamps and trees made of slices, and answers of
//! schemes as plain data.
#![tactic(auto)]

mod asking;
mod columns;
mod making;
mod moments;
mod rows;

pub use asking::{Told, made_of, made_of_taken, rules_of, told_above, told_by_estimate, told_of};
pub use columns::{bundle, column, context};
pub use making::{
    accepted, bits, byte_rows, flat, integers, list, list_scalar, packed, with_nulls,
};
pub use moments::{has_stamps, stamps, utc};
pub use rows::{has_rows, has_wholes, is_made_plain};
