//! Documents and listings: reads a column, its sample words and its commands from JSON, writes columns as documents, and writes trees as text.
#![tactic(auto)]

mod document;
mod listing;
mod writing;

pub use document::{Command, Document, DocumentColumn, Unread, read_document, read_row};
pub use listing::{listing_text, listings_text, report_text};
pub use writing::{MOST_BYTES, documents_text, extents_are_few};
