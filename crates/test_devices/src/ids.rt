//! Ids, and the pack indexes that name them.

use gix_hash::{Kind, ObjectId, digest_of};
use std::alloc::{AllocError, Global};
use std::test::Fail;

/// The ids of the texts.
pub fn ids_of(rt: &impl AllocGlobal, texts: &[&str]) -> Result<Vec<ObjectId>, Fail> {
    let mut ids = Vec::new(rt.alloc());
    for text in texts {
        ids.push(ObjectId::from_hex(text.as_bytes())?)?;
    }
    Ok(ids)
}

/// The bytes of a pack index of these sorted ids, whose CRCs and whose pack's digest are zeros. The
/// first offsets are long ones, and each other one is 3072 and the index of its name.
pub fn pack_index(
    alloc: Global,
    kind: Kind,
    ids: &[ObjectId],
    longs: &[u64],
) -> Result<Vec<u8>, AllocError> {
    let mut bytes = Vec::new(alloc);
    bytes.extend_from_slice(b"\xfftOc\0\0\0\x02")?;
    let mut count = 0u8;
    for byte in 0..=255 {
        for id in ids {
            count = count.saturating_add(u8::from(id.first_byte() == byte));
        }
        bytes.extend_from_slice(&[0, 0, 0, count])?;
    }
    for id in ids {
        bytes.extend_from_slice(id.as_slice())?;
    }
    for _ in ids {
        bytes.extend_from_slice(&[0; 4])?;
    }
    for at in 0..ids.len() {
        let low = u8::try_from(at).unwrap_or(0);
        let is_long = at < longs.len();
        bytes.extend_from_slice(&if is_long {
            [0x80, 0, 0, low]
        } else {
            [0, 0, 12, low]
        })?;
    }
    for long in longs {
        bytes.extend_from_slice(&long.to_be_bytes())?;
    }
    bytes.extend_from_slice(&[0; 32][..kind.len_in_bytes()])?;
    let digest = digest_of(kind, &bytes);
    bytes.extend_from_slice(digest.as_slice())?;
    Ok(bytes)
}
