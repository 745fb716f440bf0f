//! The command line.

ghost use Rattle.std.specs.Prelude.{[], ◌∷◌, IfOk, IfErr};
ghost use Rattle.gix_hash.specs.Words.{IsNameOf};
ghost use Rattle.oidtool_commands.specs.CommandLines.{AsksFor, IsNumberOf, IsKindRefusal, IsNumberRefusal, IsWordsRefusal, texts_of};

use gix_hash::Kind;
use std::fmt;

/// What the program is asked to do.
///
/// ```
/// if let Ok(Command::Find { prefix }) = read_command(&["find", "4b82"]) {
///     println!(rt; "ids that begin with {prefix}")?;
/// }
/// ```
#[derive(Clone, Copy, Debug)]
pub enum Command<'a> {
    /// Find the ids of the list text on standard input that begin with this prefix.
    Find {
        /// The prefix in hex digits, not read yet.
        prefix: &'a str,
    },
    /// Find the ids of the list text on standard input that begin with this prefix, and spell them
    /// in the letters `z` to `k`.
    FindChange {
        /// The prefix in the letters `z` to `k`, not read yet.
        letters: &'a str,
    },
    /// Find the ids of the list text on standard input that begin with this prefix. The ids are of
    /// one kind, and strictly increasing.
    FindIn {
        /// The kind of the ids and of the prefix.
        kind: Kind,
        /// The prefix in hex digits, not read yet.
        prefix: &'a str,
    },
    /// Hash all of standard input.
    Hash {
        /// The kind of the digest.
        kind: Kind,
    },
    /// Hash the first bytes of a file.
    HashFile {
        /// The kind of the digest.
        kind: Kind,
        /// How many bytes, from the file's beginning.
        count: u64,
        /// The file's path.
        path: &'a str,
    },
    /// Copy all of standard input, and write its digest after it.
    Seal {
        /// The kind of the digest.
        kind: Kind,
    },
}

/// Why the words of a command line are no command.
///
/// ```
/// let why = read_command(&["hash", "md5"]);
/// assert!(rt; matches!(why, Err(ArgError::BadKind("md5"))));
/// ```
#[derive(Clone, Copy, Debug)]
pub enum ArgError<'a> {
    /// The command is unknown, or takes another number of words.
    Usage,
    /// This word is no name of a kind of ids.
    BadKind(&'a str),
    /// This word is no number of at most 2^64 - 1.
    BadNumber(&'a str),
}

impl fmt::Display for ArgError<'_> {
    fn fmt<W: fmt::Write>(&self, f: &mut fmt::Formatter<W>) -> fmt::Result {
        match self {
            ArgError::Usage => f.write_str(
                "usage: oidtool find PREFIX | find-change LETTERS | find-in KIND PREFIX | hash KIND | hash-file KIND N PATH | seal KIND",
            ),
            ArgError::BadKind(text) => write!(f, "unknown hash kind: {text}"),
            ArgError::BadNumber(text) => write!(f, "bad number: {text}"),
        }
    }
}

/// Reads the words after the program's name: first the command and the number of its words, then a
/// kind, then a number. It does not allocate.
pub fn read_command<'a>(words: &[&'a str]) -> Result<Command<'a>, ArgError<'a>>
    ensures asked { IfOk result (AsksFor (texts_of words.now)) }
    ensures refused { IfErr result (IsWordsRefusal (texts_of words.now)) }
{
    match words {
        [name, word] => read_one_word(name, word),
        [name, kind, prefix] => read_two_words(name, kind, prefix),
        [name, kind, count, path] => read_three_words(name, kind, count, path),
        _ => Err(ArgError::Usage),
    }
}

// Reads a command that takes one word.
fn read_one_word<'a>(name: &str, word: &'a str) -> Result<Command<'a>, ArgError<'a>>
    ensures asked { IfOk result (AsksFor (name.now ∷ word.now ∷ [])) }
    ensures refused { IfErr result (IsWordsRefusal (name.now ∷ word.now ∷ [])) }
{
    match name {
        "find" => Ok(Command::Find { prefix: word }),
        "find-change" => Ok(Command::FindChange { letters: word }),
        "hash" => Ok(Command::Hash {
            kind: read_kind(word)?,
        }),
        "seal" => Ok(Command::Seal {
            kind: read_kind(word)?,
        }),
        _ => Err(ArgError::Usage),
    }
}

// Reads a command that takes two words.
fn read_two_words<'a>(
    name: &str,
    kind: &'a str,
    prefix: &'a str,
) -> Result<Command<'a>, ArgError<'a>>
    ensures asked { IfOk result (AsksFor (name.now ∷ kind.now ∷ prefix.now ∷ [])) }
    ensures refused { IfErr result (IsWordsRefusal (name.now ∷ kind.now ∷ prefix.now ∷ [])) }
{
    match name {
        "find-in" => Ok(Command::FindIn {
            kind: read_kind(kind)?,
            prefix,
        }),
        _ => Err(ArgError::Usage),
    }
}

// Reads a command that takes three words.
fn read_three_words<'a>(
    name: &str,
    kind: &'a str,
    count: &'a str,
    path: &'a str,
) -> Result<Command<'a>, ArgError<'a>>
    ensures asked { IfOk result (AsksFor (name.now ∷ kind.now ∷ count.now ∷ path.now ∷ [])) }
    ensures refused { IfErr result (IsWordsRefusal
        (name.now ∷ kind.now ∷ count.now ∷ path.now ∷ [])) }
{
    match name {
        "hash-file" => Ok(Command::HashFile {
            kind: read_kind(kind)?,
            count: read_count(count)?,
            path,
        }),
        _ => Err(ArgError::Usage),
    }
}

// Reads a word as the name of a kind.
fn read_kind<'a>(word: &'a str) -> Result<Kind, ArgError<'a>>
    ensures named { IfOk result (IsNameOf word.now) }
    ensures refused { IfErr result (IsKindRefusal word.now) }
{
    Kind::from_str(word).map_err(ArgError::BadKind)
}

// Reads a word as a number: decimal digits, after a `+` or none.
fn read_count<'a>(word: &'a str) -> Result<u64, ArgError<'a>>
    ensures number { IfOk result (IsNumberOf word.now) }
    ensures refused { IfErr result (IsNumberRefusal word.now) }
{
    word.parse().map_err(|_| ArgError::BadNumber(word))
}
