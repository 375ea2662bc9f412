//! From words and bytes to a status and bytes: a document's column is compressed, and the tree is listed or stored in a file;
//! a file's trees are listed, or written as documents.
#![tactic(auto)]

mod answer;
mod forms;
mod output;
mod outside;
mod reading;
mod running;
mod std_edge;
mod sure;
mod writing;

pub use answer::{BAD_INPUT, DONE, NO_MEMORY, READ_FAULT, REFUSED, TOO_LONG, USAGE, WRITE_FAULT};
pub use outside::{Failed, Sink, Source};
pub use reading::{Input, LIMIT, read_all};
pub use running::{run, run_in_memory};
pub use std_edge::{StdSink, StdSource};
pub use sure::{SureSink, SureSource};
pub use vx_document::{Document, DocumentColumn, Unread, listing_text, read_document};
pub use vx_query::{RowAnswer, RowOp, RowQuery, apply_all};
pub use writing::{Stop, deliver};
