//! What every crate stands on: errors, types, values and scalars, masks, lists, encoding ids and the context of a call.
#![tactic(auto)]

mod array_id;
mod cell;
mod context;
mod dtype;
mod error;
mod fraction;
mod gathering;
mod id_set;
mod integer;
mod items;
mod mask;
mod ptype;
mod scalar;
mod steps;
mod text;
mod timestamp;
mod value;

pub use array_id::ArrayId;
pub use cell::Cell;
pub use context::ExecutionCtx;
pub use dtype::{DType, Fields, Nullability};
pub use error::{Refused, VortexError, VortexResult};
pub use fraction::Fraction;
pub use id_set::IdSet;
pub use integer::Integer;
pub use items::{ByteRows, Bytes, IntList, Items, Names, Ranges, Words};
pub use mask::Mask;
pub use ptype::PType;
pub use scalar::{Scalar, is_short, is_text};
pub use steps::Steps;
pub use text::Text;
pub use timestamp::{TimeUnit, TimestampType};
pub use value::{Value, Values};
