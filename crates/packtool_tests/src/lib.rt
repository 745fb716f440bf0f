//! Tests of what `packtool` stands on, by public calls only: of `object_store` and
//! `packtool_commands` over stores in memory, where reads, writes and memory fail in turn, and of
//! `pack_index` by values that are worked out by hand. What the built program shows is tested by
//! `tools/stores` and `tools/runs`. The pack indexes in `data` are for them, for `tools/live` and
//! for the tests of the bindings.
#![tactic(auto)]

#[cfg(test)]
mod content;
#[cfg(test)]
mod expecting;
#[cfg(test)]
mod memory;
#[cfg(test)]
mod object_store_matches;
#[cfg(test)]
mod pack_index_index_file;
#[cfg(test)]
mod pack_index_lazy;
#[cfg(test)]
mod pack_index_multi;
#[cfg(test)]
mod packtool_commands_error;
#[cfg(test)]
mod packtool_commands_finding;
#[cfg(test)]
mod packtool_commands_pairing;
#[cfg(test)]
mod packtool_commands_printing;
#[cfg(test)]
mod packtool_commands_showing;
