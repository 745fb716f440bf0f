//! Tests of `gix_hash` and `id_lookup` as their users see them, by public calls only: what no
//! clause says of worked examples, printed texts, devices that fail, and calls that succeed.
#![tactic(auto)]

#[cfg(test)]
mod expecting;
#[cfg(test)]
mod gix_hash_alphabet;
#[cfg(test)]
mod gix_hash_change_id;
#[cfg(test)]
mod gix_hash_display;
#[cfg(test)]
mod gix_hash_file;
#[cfg(test)]
mod gix_hash_kind;
#[cfg(test)]
mod gix_hash_laws;
#[cfg(test)]
mod gix_hash_object_id;
#[cfg(test)]
mod gix_hash_prefix;
#[cfg(test)]
mod gix_hash_stream;
#[cfg(test)]
mod gix_hash_write;
#[cfg(test)]
mod id_lookup_index;
#[cfg(test)]
mod id_lookup_search;
#[cfg(test)]
mod listeners;
#[cfg(test)]
mod opening;
#[cfg(test)]
mod well_known;
