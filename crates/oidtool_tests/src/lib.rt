//! Tests of `streams`, `list_search`, `find_calls` and `oidtool_commands`, by public calls only, as
//! `oidtool` uses them: what no clause says of worked examples, texts, and readers, writers and
//! memory that fail.
#![tactic(auto)]

#[cfg(test)]
mod by;
#[cfg(test)]
mod expecting;
#[cfg(test)]
mod find_calls_finding;
#[cfg(test)]
mod list_search_search;
#[cfg(test)]
mod oidtool_commands_command;
#[cfg(test)]
mod oidtool_commands_error;
#[cfg(test)]
mod oidtool_commands_running;
#[cfg(test)]
mod oidtool_commands_status;
#[cfg(test)]
mod streams_checking;
#[cfg(test)]
mod streams_pipe;
#[cfg(test)]
mod streams_plain;
#[cfg(test)]
mod streams_retrying;
#[cfg(test)]
mod well_known;
