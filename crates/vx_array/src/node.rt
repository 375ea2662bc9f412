//! The nodes: a file each, with its constructor, its look-up, its bytes, its copy and its decoding.

mod bit_packed;
mod bit_packed_v2;
mod bit_packed_v2_rows;
mod bool;
mod constant;
mod datetime_parts;
mod delta;
mod delta_rows;
mod dict;
mod dict_rows;
mod fixed_size_list;
mod frame_of_reference;
mod frame_of_reference_v2;
mod linear_parts;
mod list;
mod masked;
mod null;
mod offsets;
mod parts_rows;
mod primitive;
mod rle;
mod rle_rows;
mod run_end;
mod sequence;
mod sparse;
mod sparse_rows;
mod structure;
mod timestamp;
mod var_bin;
mod var_bin_view;
mod zig_zag;

use crate::array::ArrayRef;
pub(crate) use bit_packed::{
    copied_packed, decoded_packed, packed_bytes, unpacked_at, without_chunks,
};
pub(crate) use bit_packed_v2::{blocks_bytes, copied_blocks};
pub(crate) use bit_packed_v2_rows::{bits_at, block_row_at, decoded_in_blocks};
pub(crate) use bool::{copied_bool, gathered_bool};
pub(crate) use constant::copied_constant;
pub(crate) use datetime_parts::copied_parts;
pub(crate) use delta::copied_delta;
pub(crate) use delta_rows::summed_at;
pub(crate) use dict::{boxed, copied_dict, picked_at, picked_by_codes};
pub(crate) use fixed_size_list::copied_fixed;
pub(crate) use frame_of_reference::copied_frame;
pub(crate) use frame_of_reference_v2::copied_frames;
pub(crate) use list::copied_list;
pub(crate) use masked::{copied_masked, masked_at};
pub(crate) use offsets::{are_integers, is_first_below, offset_at, row_count, whole_at};
pub(crate) use parts_rows::combined_at;
pub(crate) use primitive::{copied_primitive, gathered_primitive};
pub(crate) use rle::{BLOCK_ROWS, copied_rle};
pub(crate) use rle_rows::rle_at;
pub(crate) use run_end::{copied_runs, run_at};
pub(crate) use sparse::{
    copied_sparse, sparse_at, sparse_bytes, sparse_has_null, sparse_is_null_at, sparse_value_at,
};
pub(crate) use sparse_rows::decoded_sparse;
pub(crate) use structure::{copied_names, copied_struct};
pub(crate) use timestamp::{as_type, copied_timestamp, stamped};
pub(crate) use var_bin::{copied_var_bin, piece_at, var_bin_extents_fit};
pub(crate) use var_bin_view::{copied_view, gathered_view};
use vx_base::Refused;
pub(crate) use zig_zag::copied_zig_zag;

/// What a constructor answers: the tree, or the refusal with the inputs handed back.
pub type Made<T> = Result<ArrayRef, Refused<T>>;
