//! Laws that have conditions, at values that meet them.

ghost use Rattle.std.specs.Prelude.{◌≡◌, string_bytes};
ghost use Rattle.std.specs.Str.{str_to_ascii_lowercase};

use crate::gix_hash_prefix::read;
use crate::well_known::BLOB_ID;
use gix_hash::{Alphabet, ChangeId, ObjectId, laws};
use std::process::Abort;

const NULL: ObjectId = ObjectId::Sha1([0; 20]);

#[test]
fn conditions_on_orders_are_met() {
    laws::orders_agree(&BLOB_ID, &NULL);
    laws::opposite_order(&ChangeId::from(BLOB_ID), &ChangeId::from(NULL));
}

// The text in lowercase.
fn lowered(rt: &(impl Abort + AllocGlobal), text: &str) -> String
    ensures { string_bytes result ≡ str_to_ascii_lowercase text.now }
{
    text.to_ascii_lowercase(rt.alloc())
        .expect(rt, "no memory for a text")
}

#[test]
fn conditions_on_ids_are_met(rt: HostRuntime) {
    let blob = BLOB_ID;
    let text = "E69De29bb2d1d6434b8b29ae775ad8c2e48C5391";
    let lowered = lowered(&rt, text);
    assert!(rt; blob.eq_str(lowered.as_str()));
    laws::read_back(&blob, text.as_bytes());
}

#[test]
fn conditions_on_change_ids_are_met(rt: HostRuntime) {
    let change = ChangeId::from(BLOB_ID);
    let letters = "LTqmlxqooxmymtvwvoroxqplssupmrnxlvrnuwqY";
    let lowered = lowered(&rt, letters);
    assert!(rt; change.eq_str(lowered.as_str()));
    laws::read_change_back(&change, letters.as_bytes());
}

#[test]
fn conditions_on_prefixes_are_met(rt: HostRuntime) {
    let prefix = read(&rt, "e69d");
    let lowered = lowered(&rt, "E69D");
    let is_printed = prefix.hex_len() >= 1 && prefix.eq_str(lowered.as_str());
    assert!(rt; is_printed, "another prefix");
    laws::read_prefix_back(Alphabet::Hex, &prefix, "E69D");
    laws::read_prefix_back_in_kind(Alphabet::Hex, &prefix, "E69D");
}
