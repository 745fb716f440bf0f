//! An object directory in memory whose answers are known, and what is asked of its store.
#![tactic(auto)]

#[cfg(test)]
pub mod found;
#[cfg(test)]
pub mod known;
#[cfg(test)]
mod tests;
#[cfg(test)]
pub mod tree;
