//! The metadata of sparse arrays.

ghost use Rattle.std.specs.Prelude.{◌≡◌, ◌<◌, IsOkUnless, MatchOption, Some};
ghost use Rattle.vx_base.specs.Answers.{Answers};
ghost use Rattle.vx_base.specs.PlainType.{ptype_number};
ghost use Rattle.vx_codec.specs.Reads.{Reads};
ghost use Rattle.vx_codec.specs.declared.error.ReadError.TheVariants.{Malformed};
ghost use Rattle.vx_metadata.specs.Answers.{ReadsTheOne};
ghost use Rattle.vx_metadata.specs.Numbers.{three};
ghost use Rattle.vx_sparse.specs.Metadata.{IsSpelled, message, metadata_in, spelling};
ghost use Rattle.vx_sparse.specs.declared.metadata.SparseMetadata.{SparseMetadata};

use std::alloc::Global;
use vx_base::{Bytes, PType, VortexError, VortexResult};
use vx_codec::{ReadError, put_content, read_content, read_end};
use vx_metadata::{ptype_number, ptype_of, put_numbers, read_numbers};
use vx_sparse_array::{SparseArray, SparseExt};

// The key of the message field 1.
const WITHIN: u8 = 10;

/// What a sparse array has beside its type, its length, its fill and its children: the number of its patches, their offset, and
/// the integer type of their indices. As bytes it is a message of the fields 1, 2 and 3 within field 1 of another. The default
/// has no patch, offset 0 and U8.
#[derive(Clone, Copy, Debug)]
pub struct SparseMetadata {
    /// The number of patches.
    pub len: u64,
    pub offset: u64,
    pub indices_ptype: PType,
}

impl Default for SparseMetadata {
    ghost use Rattle.std.specs.Prelude.{◌≡◌};
    ghost use Rattle.vx_base.specs.declared.ptype.PType.TheVariants.{U8};
    ghost use Rattle.vx_sparse.specs.Metadata.{by_fields};

    ghost is_default = { λ m. m ≡ by_fields 0 0 U8 };

    fn default() -> SparseMetadata {
        SparseMetadata {
            len: 0,
            offset: 0,
            indices_ptype: PType::U8,
        }
    }
}

impl SparseMetadata {
    /// The metadata of an array.
    pub fn of(array: &SparseArray) -> SparseMetadata
        ensures { metadata_in array.now ≡ Some result }
    {
        let patches = array.patches();
        patches.known();
        SparseMetadata {
            len: patches.num_patches(),
            offset: patches.offset(),
            indices_ptype: patches.indices().dtype().ptype(),
        }
    }

    /// The spelling of the metadata.
    pub fn serialize(&self, alloc: Global) -> VortexResult<Bytes>
        ensures { Answers result (spelling self.now) }
    {
        let indices = ptype_number(self.indices_ptype);
        let mut within = Vec::new(alloc);
        put_numbers(&mut within, self.len, self.offset, indices as u64)?;
        let mut out = Vec::new(alloc);
        put_content(&mut out, WITHIN, within.as_slice())?;
        Ok(Bytes::from_vec(out))
    }

    /// The metadata that bytes spell, of an array with a number of children. Refuses BadMetadata exactly where there are none:
    /// the bytes are no spelling, the third number is that of no integer type, or the children are neither 2 nor 3.
    pub fn deserialize(bytes: &Bytes, children: u64) -> VortexResult<SparseMetadata>
        ensures { ReadsTheOne (λ m. IsSpelled bytes.now children m) result }
    {
        if children != 2 && children != 3 {
            return Err(VortexError::BadMetadata);
        }
        match read_metadata(bytes.as_slice()) {
            Some(metadata) => Ok(metadata),
            None => Err(VortexError::BadMetadata),
        }
    }
}

// The metadata that bytes spell, of an array with two children; None exactly where there are none.
fn read_metadata(bytes: &[u8]) -> Option<SparseMetadata>
    ensures { MatchOption result ((m : SparseMetadata) → IsSpelled bytes.now 2 m → ⊥) (λ m. IsSpelled bytes.now 2 m) }
{
    let Ok((len, offset, indices)) = read_message(bytes) else {
        return None;
    };
    let indices_ptype = ptype_of(indices)?;
    Some(SparseMetadata {
        len,
        offset,
        indices_ptype,
    })
}

// The three numbers of a message within a message.
fn read_message(bytes: &[u8]) -> Result<(u64, u64, u64), ReadError>
    ensures read { Reads (λ x. (three x.0 x.1 x.2, tt)) result (message.parse bytes.now) }
    ensures surely { IsOkUnless result Malformed }
{
    let (within, rest) = read_content(bytes, WITHIN)?;
    let numbers = read_numbers(within)?;
    read_end(rest)?;
    Ok(numbers)
}
