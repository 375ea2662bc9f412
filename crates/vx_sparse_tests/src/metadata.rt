//! Metadata of sparse arrays: worked bytes, and all short texts over five bytes beside those that a reader written apart accepts.

use std::alloc::Global;
use std::test::Fail;
use vx_array::Patches;
use vx_base::Nullability::NonNullable;
use vx_base::PType::{I32, U8, U16};
use vx_base::{Bytes, PType, Scalar, VortexError, VortexResult};
use vx_fixtures::{accepted, flat};
use vx_sparse::{Sparse, SparseMetadata};

fn by_fields(fields: (u64, u64, PType)) -> SparseMetadata {
    let (len, offset, indices_ptype) = fields;
    SparseMetadata {
        len,
        offset,
        indices_ptype,
    }
}

fn fields_of(metadata: &SparseMetadata) -> (u64, u64, PType) {
    (metadata.len, metadata.offset, metadata.indices_ptype)
}

// The fields that bytes spell, None where they are refused as no metadata.
fn read(alloc: Global, bytes: &[u8], children: u64) -> VortexResult<Option<(u64, u64, PType)>> {
    let bytes = Bytes::from_vec(Vec::from_slice(alloc, bytes)?);
    match SparseMetadata::deserialize(&bytes, children) {
        Ok(metadata) => Ok(Some(fields_of(&metadata))),
        Err(VortexError::BadMetadata) => Ok(None),
        Err(other) => Err(other),
    }
}

#[test]
fn worked_metadata_have_their_bytes(rt: HostRuntime) -> Result<(), Fail> {
    let table: [((u64, u64, PType), &[u8]); 3] = [
        ((1, 0, U8), &[0x0a, 0x02, 0x08, 0x01]),
        (
            (300, 1_000, I32),
            &[0x0a, 0x08, 0x08, 0xac, 0x02, 0x10, 0xe8, 0x07, 0x18, 0x06],
        ),
        ((0, 0, U8), &[0x0a, 0x00]),
    ];
    for (fields, bytes) in table {
        let spelled = by_fields(fields).serialize(rt.alloc())?;
        assert_eq!(rt; spelled.as_slice(), bytes);
        assert_eq!(rt; read(rt.alloc(), bytes, 1)?, None);
        assert_eq!(rt; read(rt.alloc(), bytes, 2)?, Some(fields));
        assert_eq!(rt; read(rt.alloc(), bytes, 3)?, Some(fields));
        assert_eq!(rt; read(rt.alloc(), bytes, 4)?, None);
    }
    Ok(())
}

#[test]
fn the_greatest_numbers_come_back(rt: HostRuntime) -> Result<(), Fail> {
    let fields = (u64::MAX, u64::MAX, U8);
    let spelled = by_fields(fields).serialize(rt.alloc())?;
    assert_eq!(rt; spelled.len(), 24);
    assert_eq!(rt; read(rt.alloc(), spelled.as_slice(), 2)?, Some(fields));
    Ok(())
}

#[test]
fn an_array_has_the_number_offset_and_type_of_its_patches(rt: HostRuntime) -> Result<(), Fail> {
    let alloc = rt.alloc();
    let indices = flat(alloc, U16, NonNullable, &[3, 5])?;
    let values = flat(alloc, I32, NonNullable, &[10, 20])?;
    let patches = accepted(Patches::new(4, 2, indices, values))?;
    let fill = Scalar::primitive(1, I32, NonNullable)?;
    let array = accepted(Sparse::try_new_from_patches(alloc, patches, fill))?;
    assert_eq!(rt; fields_of(&SparseMetadata::of(&array)), (2, 2, U16));
    assert_eq!(rt; fields_of(&SparseMetadata::default()), (0, 0, U8));
    Ok(())
}

// Whether bytes are read as the fields that are expected of them.
fn is_read(alloc: Global, bytes: &[u8]) -> VortexResult<bool> {
    let expected = match bytes {
        [0x0a, 0x00] => Some((0, 0, U8)),
        _ => None,
    };
    Ok(read(alloc, bytes, 2)? == expected)
}

#[test]
fn short_texts(rt: HostRuntime) -> Result<(), Fail> {
    let alloc = rt.alloc();
    let bytes: [u8; 5] = [0x00, 0x07, 0x08, 0x0a, 0x80];
    assert!(rt; is_read(alloc, &[])?);
    for a in bytes {
        assert!(rt; is_read(alloc, &[a])?, "{a}");
        for b in bytes {
            assert!(rt; is_read(alloc, &[a, b])?, "{a} {b}");
            for c in bytes {
                assert!(rt; is_read(alloc, &[a, b, c])?, "{a} {b} {c}");
            }
        }
    }
    Ok(())
}
