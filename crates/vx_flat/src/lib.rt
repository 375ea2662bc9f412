//! What a node makes of flat columns, with no recursion into child trees: vx_array walks the trees, and hands over here
//! what the children decode to.
//!
//! A file for each node that has a part here, under its name: a row, its bytes, refusals, decoding. Beside them rows filled
//! by runs and by patches, the places of runs in blocks, flat lists out of values, the values within values, and the row
//! counts of nested columns.
#![tactic(auto)]

mod bool;
mod by_type;
mod constant;
mod counting;
mod datetime_parts;
mod delta;
mod dict;
mod elements;
mod filling;
mod fixed_size_list;
mod frame_of_reference;
mod frame_of_reference_v2;
mod lists;
mod masked;
mod payload;
mod places;
mod primitive;
mod sequence;
mod sizes;
mod texts;
mod timestamp;
mod var_bin;
mod var_bin_view;
mod within;
mod zig_zag;

pub use bool::{bool_bytes, decoded_bool, is_false_beneath, truth_at};
pub use constant::{
    constant_bytes, constant_extents_fit, constant_has_null, constant_is_place, decoded_constant,
};
pub use counting::{Way, counts_fit, rows_within};
pub use datetime_parts::{decoded_parts, parts_are_canonical};
pub use delta::{decoded_delta, wrapped};
pub use dict::{decoded_by_codes, is_place};
pub use elements::{byte_elements, element_validity, values_of};
pub use filling::{decoded_by_patches, decoded_by_runs};
pub use fixed_size_list::have_elements;
pub use frame_of_reference::{decoded_moved, decoded_moved_words, moved_at};
pub use frame_of_reference_v2::{decoded_frames, framed_at};
pub use lists::{byte_rows, has_null, is_null, truths, validity_of, wholes};
pub use masked::{decoded_masked, masked_bytes};
pub use payload::payload_bytes;
pub use places::{block_places, sums_are_places};
pub use primitive::{
    decoded_primitive, flat_refusal, is_zero_beneath, primitive_at, primitive_bytes,
};
pub use sequence::{are_held, decoded_sequence, is_held, sequence_at};
pub use sizes::{ROW_LIMIT, bit_bytes, is_few, validity_bytes, with_validity};
pub use texts::fits;
pub use timestamp::is_storage;
pub use var_bin::{decoded_var_bin, part, var_bin_bytes};
pub use var_bin_view::{decoded_view, is_empty_beneath, view_at, view_bytes, view_refusal};
pub use within::{field_columns, list_items};
pub use zig_zag::{decoded_zig_zag, decoded_zig_zag_words, unzigzagged_at};
