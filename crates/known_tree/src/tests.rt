use crate::known::answer_in_tree;
use crate::tree::Tree;
use gix_hash::Kind;
use packtool_commands::{Ask, Question, StoreRequest, Wanted};
use std::test::Fail;
use store_questions::{FOUND, buffered, flushed};
use test_devices::ids::{ids_of, pack_index};

#[test]
fn a_packed_object_beside_a_loose_one(rt: HostRuntime) -> Result<(), Fail> {
    let packed = ids_of(&rt, &["4b825dc642cb6eb9a060e54bf8d69288fbee4904"])?;
    let index = pack_index(rt.alloc(), Kind::Sha1, &packed, &[])?;
    let tree = Tree {
        alloc: rt.alloc(),
        index: &index,
    };
    let request = StoreRequest {
        question: Question::Find,
        ask: Ask::Prefix("4b8", Wanted::Bare),
        least: 4,
        objects: None,
        kind: None,
    };
    let mut bytes = Vec::new(rt.alloc());
    let mut out = buffered(&rt, &mut bytes)?;
    let status = answer_in_tree(&rt, &tree, &request, &b""[..], &mut out)?;
    assert!(rt; flushed(status, &mut out)? == FOUND);
    drop(out);
    assert!(rt; bytes.as_slice() == &b"4b825dc642cb6eb9a060e54bf8d69288fbee4904\n"[..]);
    Ok(())
}
