//! The names of a small pack index.

use crate::expecting::expect;
use gix_hash::Kind;
use pack_index::File;
use std::test::Fail;
use test_devices::ids::{ids_of, pack_index};

// The second name occurs twice.
const NAMES: [&str; 4] = [
    "2bdf67abb163a4ffb2d7f3f0880c9fe5068ce782",
    "5626abf0f72e58d7a153368ba57db4c673c0e171",
    "5626abf0f72e58d7a153368ba57db4c673c0e171",
    "f719efd430d52bcfc8566a43b2eb655688d38871",
];

#[test]
fn names_of_an_index(rt: HostRuntime) -> Result<(), Fail> {
    let ids = ids_of(&rt, &NAMES)?;
    let bytes = pack_index(rt.alloc(), Kind::Sha1, &ids, &[])?;
    let Ok(file) = File::try_new(&bytes, Kind::Sha1) else {
        return Err(Fail::new("it is no pack index"));
    };
    for &(id, at, name) in &[(0, 0, Some("2bdf")), (1, 1, None), (3, 3, Some("f719"))] {
        if id >= file.num_objects() {
            return Err(Fail::new("it has too few names"));
        }
        expect!(&rt; file.lookup(file.oid_at_index(id)) == Some(at), id);
        match file.abbreviate(id) {
            Some(short) => expect!(&rt; name.is_some_and(|name| short.eq_str(name)), id),
            None => expect!(&rt; name.is_none(), id),
        }
    }
    Ok(())
}
