//! Directories and files in memory, of which one call fails if it is told to.

use std::alloc::Global;
use std::cell::Cell;

/// What is at a path.
#[derive(Clone, Copy, Debug)]
pub enum Entry {
    Directory,
    /// The root, which may have several paths.
    Root,
    File(&'static str),
    /// A link to a path where nothing is.
    Link(&'static str),
}

/// What each path leads to, as programs write it.
#[derive(Drop)]
pub struct MemTree<'a> {
    pub alloc: Global,
    pub entries: &'a [(&'static str, Entry)],
    /// Which call fails, from 0 on, if one does.
    pub fails_at: Option<u32>,
    /// How many calls there were.
    pub calls: Cell<u32>,
}
