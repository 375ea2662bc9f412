//! An integer with its type.

use vx_base::PType;

/// An integer with its type.
#[derive(Clone, Copy, Debug, PartialEq, Eq)]
pub struct PValue {
    pub ptype: PType,
    pub value: i128,
}
