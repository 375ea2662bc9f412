//! The ids of encodings.

ghost use Rattle.std.specs.Prelude.{◌≡◌};
ghost use Rattle.vx_base.specs.IdName.{id_name};

use std::fmt;

/// The encoding of a node. `Display` prints its name.
#[derive(Clone, Copy, Debug, PartialEq, Eq)]
pub enum ArrayId {
    Null,
    Bool,
    Primitive,
    VarBinView,
    Struct,
    List,
    FixedSizeList,
    Timestamp,
    Constant,
    Masked,
    Dict,
    VarBin,
    Sparse,
    DateTimeParts,
    RunEnd,
    BitPacked,
    BitPackedV2,
    FoR,
    FoRV2,
    Delta,
    Rle,
    ZigZag,
    Sequence,
}

impl ArrayId {
    /// The name, such as `vortex.primitive`.
    pub fn name(self) -> &'static str
        ensures { result.now ≡ id_name self }
    {
        match self {
            ArrayId::Null => "vortex.null",
            ArrayId::Bool => "vortex.bool",
            ArrayId::Primitive => "vortex.primitive",
            ArrayId::VarBinView => "vortex.varbinview",
            ArrayId::Struct => "vortex.struct",
            ArrayId::List => "vortex.list",
            ArrayId::FixedSizeList => "vortex.fixed_size_list",
            ArrayId::Timestamp => "vortex.timestamp",
            ArrayId::Constant => "vortex.constant",
            ArrayId::Masked => "vortex.masked",
            ArrayId::Dict => "vortex.dict",
            ArrayId::VarBin => "vortex.varbin",
            ArrayId::Sparse => "vortex.sparse",
            ArrayId::DateTimeParts => "vortex.datetimeparts",
            ArrayId::RunEnd => "vortex.runend",
            ArrayId::BitPacked => "vortex.bitpacked",
            ArrayId::BitPackedV2 => "vortex.bitpacked.v2",
            ArrayId::FoR => "vortex.for",
            ArrayId::FoRV2 => "vortex.for.v2",
            ArrayId::Delta => "vortex.delta",
            ArrayId::Rle => "vortex.rle",
            ArrayId::ZigZag => "vortex.zigzag",
            ArrayId::Sequence => "vortex.sequence",
        }
    }
}

impl fmt::Display for ArrayId {
    ghost use Rattle.std.specs.Prelude.{Some};
    ghost use Rattle.vx_base.specs.IdName.{id_name};

    ghost output = { λ id. Some (id_name id) };

    fn fmt<W: fmt::Write>(&self, f: &mut fmt::Formatter<W>) -> fmt::Result {
        f.write_str(self.name())
    }
}
