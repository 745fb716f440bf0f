//! A pack index and packs, whose reads fail in turn.

use crate::expecting::expect;
use crate::memory::{Counted, Reads};
use gix_hash::Kind;
use pack_index::File;
use packtool_commands::{Pairing, pair};
use std::test::Fail;
use test_devices::ids::pack_index;

const KIND: Kind = Kind::Sha1;

// The index of a pack that has an object at its byte 3072, and whose digest is zeros.
#[test]
fn belongs_to_a_pack(rt: HostRuntime) -> Result<(), Fail> {
    let bytes = pack_index(rt.alloc(), KIND, &[KIND.empty_tree()], &[])?;
    let Ok(index) = File::try_new(&bytes, KIND) else {
        return Err(Fail::new("it is no pack index"));
    };
    let mut pack = [0; 3093];
    expect!(&rt; matches!(pair(&index, &&pack[..])?, Pairing::Same));
    let beyond = pair(&index, &&pack[..3092])?;
    expect!(&rt; matches!(beyond, Pairing::Beyond(3072)), beyond);
    let short = pair(&index, &&pack[..19])?;
    expect!(&rt; matches!(short, Pairing::Other { found: None, .. }), short);
    // Its length and then its digest are read.
    for left in 0..3 {
        let reads = Reads::new(left);
        let counted = Counted {
            bytes: &pack,
            reads: &reads,
        };
        expect!(&rt; pair(&index, &counted).is_ok() == (left == 2), left);
    }
    pack[3092] = 1;
    let Pairing::Other { named, found } = pair(&index, &&pack[..])? else {
        return Err(Fail::new("it belongs to any pack"));
    };
    expect!(&rt; named.is_null() && found.is_some_and(|id| !id.is_null()));
    Ok(())
}
