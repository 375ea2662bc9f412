//! Three small schemes of a caller's, judged beside the shipped ones. `docs/WRITE_A_SCHEME.md` walks through them.
#![tactic(auto)]

mod joined_texts;
mod quick_packing;
mod span_frame;

pub use joined_texts::{JoinedTexts, compressor_with_texts};
pub use quick_packing::{QuickPacking, compressor};
pub use span_frame::{SpanFrame, compressor_with_frames, laws_of_span_frames};
