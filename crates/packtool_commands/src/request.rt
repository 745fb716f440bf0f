//! What is asked of a store.

use crate::printing::Wanted;
use gix_hash::Kind;

/// A request to look ids up in a store.
#[derive(Clone, Copy)]
pub struct StoreRequest<'a> {
    /// What is asked of the store.
    pub question: Question,
    /// What it is asked about.
    pub ask: Ask<'a>,
    /// The fewest digits of an abbreviation.
    pub least: usize,
    /// The object directory, or `None` for the one that Git would find.
    pub objects: Option<&'a str>,
    /// The kind of the ids, or `None` for the one that the repository has.
    pub kind: Option<Kind>,
}

/// A question to a store.
#[derive(Clone, Copy)]
pub enum Question {
    /// `find`: which ids begin with a prefix.
    Find,
    /// `locate`: in which packs and loose files these ids are.
    Locate,
    /// `abbreviate`: which abbreviations ids have.
    Abbreviate,
}

/// What a question is about.
#[derive(Clone, Copy)]
pub enum Ask<'a> {
    /// All ids, which only `abbreviate` takes.
    All,
    /// A prefix, which is this text, and what is printed for it.
    Prefix(&'a str, Wanted),
    /// Each line of standard input, and what is printed for it.
    Lines(Wanted),
}
