//! Reads lists of alternates: other object directories, whose objects a repository borrows.

ghost use Rattle.std.specs.Prelude.{◌≡◌, ◌==◌, ◌-◌, ◌<◌, ◌≤◌, ◌++◌, IfOk, IfSome, OnOk, drop, length, map, option_map, position};
ghost use Rattle.std.specs.List.{after_first, before_first};
ghost use Rattle.std.specs.Option.{option_copied};
ghost use Rattle.repositories.specs.Alternates.{first_path, paths_named, paths_of_entry};
ghost use Rattle.repositories.specs.Quoting.{after_mark, quoted_byte, unescaped, unescaped_byte, unquoted};

use std::alloc::{AllocError, Allocator};

/// Returns the paths that a list of alternates names, in order, as Git reads them: the lines of
/// `objects/info/alternates`, or what is between the colons of `$GIT_ALTERNATE_OBJECT_DIRECTORIES`.
///
/// The list ends at its first NUL. Empty paths and comments, which begin with `#`, are skipped. A
/// path that begins with a quotation mark is unquoted (C's escapes, with bytes as three octal
/// digits) up to the closing mark, after which one byte is skipped, mostly the separator. What is
/// unquoted ends at its first NUL. A path that is not quoted right is taken as it is.
///
/// A quoted path that begins with a NUL is returned as an empty one. To Git it is the directory of
/// the list in `objects/info/alternates`, and an error in `$GIT_ALTERNATE_OBJECT_DIRECTORIES`.
///
/// ```
/// let list = b"../../main/.git/objects\n# more\n\"../caf\\303\\251\"\n";
/// let paths = alternate_paths(rt.alloc(), list, b'\n')?;
/// assert!(rt; paths[1].as_slice() == "../café".as_bytes());
/// ```
pub fn alternate_paths<A: Allocator + Copy>(
    alloc: A,
    list: &[u8],
    separator: u8,
) -> Result<Vec<Vec<u8, A>, A>, AllocError>
    ensures { IfOk result (λ paths. map (λ path. path.items) paths.items
        ≡ paths_named separator list.now) }
{
    let mut paths = Vec::new(alloc);
    let (mut left, _) = split_line(list, 0);
    while !left.is_empty() {
        let (path, rest) = first_path(alloc, left, separator)?;
        push_entry(&mut paths, path)?;
        left = rest;
    }
    Ok(paths)
}

// Adds the path of an entry up to its first NUL, unless the path is empty.
fn push_entry<A: Allocator>(
    paths: &mut Vec<Vec<u8, A>, A>,
    mut path: Vec<u8, A>,
) -> Result<(), AllocError>
    ensures { OnOk result (map (λ path. path.items) paths.new.items
        ≡ map (λ path. path.items) paths.old.items ++ paths_of_entry path.items) }
{
    if !path.is_empty() {
        if let Some(at) = position_of(&path, 0) {
            path.truncate(at);
        }
        paths.push(path)?;
    }
    Ok(())
}

// The path of the first entry of a list, which is empty for a comment, and the rest of the list.
fn first_path<A: Allocator + Copy>(
    alloc: A,
    list: &[u8],
    separator: u8,
) -> Result<(Vec<u8, A>, &[u8]), AllocError>
    ensures fewer { IfOk result (λ first. length first.1.now ≤ length list.now - 1) }
    ensures entry { IfOk result (λ first.
        (first.0.items, first.1.now) ≡ first_path separator list.now) }
{
    if let Some(quoted) = after_mark(list)
        && let Some((path, rest)) = unquote(alloc, quoted)?
    {
        return Ok((path, after_one(rest)));
    }
    let (line, rest) = split_line(list, separator);
    if line.starts_with(b"#") {
        Ok((Vec::new(alloc), rest))
    } else {
        Ok((line.to_vec(alloc)?, rest))
    }
}

// All bytes but the first, if there is one.
fn after_one(text: &[u8]) -> &[u8]
    ensures { result.now ≡ drop 1 text.now }
{
    match text {
        [] => text,
        [_, rest @ ..] => rest,
    }
}

// A text without the quotation mark at its front, if there is one.
fn after_mark(text: &[u8]) -> Option<&[u8]>
    ensures { option_copied result ≡ after_mark text.now }
{
    match text {
        [b'"', rest @ ..] => Some(rest),
        _ => None,
    }
}

// The bytes that a text after a quotation mark means, and the rest after the closing mark, or
// `None` if the text is not quoted right.
fn unquote<A: Allocator>(alloc: A, quoted: &[u8]) -> Result<Option<(Vec<u8, A>, &[u8])>, AllocError>
    ensures fewer { IfOk result (λ found.
        IfSome found (λ path. length path.1.now ≤ length quoted.now)) }
    ensures means { IfOk result (λ found.
        option_map (λ path. (path.0.items, path.1.now)) found ≡ unquoted quoted.now) }
{
    let mut bytes = Vec::new(alloc);
    let mut left = quoted;
    while let Some((byte, rest)) = next_byte(left) {
        bytes.push(byte)?;
        left = rest;
    }
    match after_mark(left) {
        Some(rest) => Ok(Some((bytes, rest))),
        None => Ok(None),
    }
}

// The first byte that a quoted text means, and the rest of the text, or `None` if the quoted text
// ends there or is not quoted right.
fn next_byte(quoted: &[u8]) -> Option<(u8, &[u8])>
    ensures fewer { IfSome result (λ next. length next.1.now < length quoted.now) }
    ensures byte { option_map (λ next. (next.0, next.1.now)) result ≡ quoted_byte quoted.now }
{
    match quoted {
        [] | [b'"', ..] => None,
        [b'\\', escape @ ..] => next_escaped(escape),
        [byte, rest @ ..] => Some((*byte, rest)),
    }
}

// The byte that is meant after a backslash, and the rest of the text.
fn next_escaped(escape: &[u8]) -> Option<(u8, &[u8])>
    ensures fewer { IfSome result (λ next. length next.1.now < length escape.now) }
    ensures byte { option_map (λ next. (next.0, next.1.now)) result ≡ unescaped_byte escape.now }
{
    match escape {
        [
            high @ b'0'..=b'3',
            middle @ b'0'..=b'7',
            low @ b'0'..=b'7',
            rest @ ..,
        ] => {
            let byte = (high - b'0') * 64 + (middle - b'0') * 8 + (low - b'0');
            Some((byte, rest))
        }
        [letter, rest @ ..] => Some((unescaped(*letter)?, rest)),
        [] => None,
    }
}

// The byte that a letter after a backslash means.
fn unescaped(letter: u8) -> Option<u8>
    ensures { result ≡ unescaped letter }
{
    match letter {
        b'a' => Some(7),
        b'b' => Some(8),
        b't' => Some(b'\t'),
        b'n' => Some(b'\n'),
        b'v' => Some(11),
        b'f' => Some(12),
        b'r' => Some(b'\r'),
        b'"' | b'\\' => Some(letter),
        _ => None,
    }
}

// The text before the first separator, and the text after it.
fn split_line(text: &[u8], separator: u8) -> (&[u8], &[u8])
    ensures line { result.0.now ≡ before_first (λ byte. byte == separator) text.now }
    ensures rest { result.1.now ≡ after_first (λ byte. byte == separator) text.now }
    ensures fewer { length result.1.now ≤ length text.now - 1 }
{
    match position_of(text, separator) {
        Some(at) => (&text[..at], &text[at + 1..]),
        None => (text, &[]),
    }
}

// The position of the first byte of this value.
fn position_of(text: &[u8], wanted: u8) -> Option<usize>
    ensures { result ≡ position (λ byte. byte == wanted) text.now }
{
    text.iter().position(|byte| *byte == wanted)
}
