//! Tests of `directory_store`, over directories that change and reads that fail; of `repositories`,
//! its states of directories and files, texts of errors, and the search for a repository where a
//! call fails; and of a call of each kind of `callers`: all by public calls only. What else is
//! found, and by which configs and alternates, is tested by `tools/odd` and `tools/stores`, beside
//! Git, and what the built program shows by `tools/stores` and `tools/live`.
#![tactic(auto)]

#[cfg(test)]
mod callers_abbreviations;
#[cfg(test)]
mod changing;
#[cfg(test)]
mod directory_store_listing;
#[cfg(test)]
mod directory_store_source;
#[cfg(test)]
mod directory_store_store;
#[cfg(test)]
mod expecting;
#[cfg(test)]
mod mem_directories;
mod mem_tree;
#[cfg(test)]
mod moving;
#[cfg(test)]
mod object_directories;
#[cfg(test)]
mod repositories_error;
#[cfg(test)]
mod repositories_finding;
#[cfg(test)]
mod repositories_state;
