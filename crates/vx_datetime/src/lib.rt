//! Timestamps in parts as arrays: made of three columns or of one of timestamps, and taken apart again; their row functions,
//! over the parts; and their metadata as bytes.
#![tactic(auto)]

mod array;
mod kernels;
mod laws;
mod making;
mod metadata;
mod owned;
mod parts_data;

pub use array::DateTimePartsArray;
pub use laws::unlike_metadata_have_unlike_spellings;
pub use making::DateTimeParts;
pub use metadata::DateTimePartsMetadata;
pub use owned::DateTimePartsOwnedExt;
pub use parts_data::DateTimePartsData;
