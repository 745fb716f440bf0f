//! The syntax of a config.

ghost use Rattle.std.specs.Prelude.{◌≡◌, ◌≤◌, ◌==◌, [], length, false, option_map, position, IfOk};
ghost use Rattle.std.specs.List.{prefix_len};
ghost use Rattle.git_config.specs.Grammar.{after_line, assignment, before_nul, close, expect, header_end, is_blank, is_key_byte, is_name_byte, is_space, item, line_number, piece, quoted, value, variable, without_mark};
ghost use Rattle.git_config.specs.Views.{Gives, GivesFrom, piece_of, said};
ghost use Rattle.git_config.specs.declared.syntax.Stop.TheVariants.{Memory};

use crate::Variable;
use std::alloc::{AllocError, AllocFailed, Global};
use std::slice::from_ref;

/// Why reading stops.
#[derive(Drop)]
pub(crate) enum Stop {
    /// There is not enough memory.
    Memory,
    /// A byte is wrong, or the text ends where it must not. This is the number of bytes that are
    /// left of the text and a line feed after it.
    Wrong(usize),
}

impl From<AllocError> for Stop {
    ghost from_gives = { λ _ stop. stop ≡ Memory };

    fn from(_error: AllocError) -> Stop {
        Stop::Memory
    }
}

impl<T: Drop> From<AllocFailed<T>> for Stop {
    ghost from_gives = { λ _ stop. stop ≡ Memory };

    fn from(_error: AllocFailed<T>) -> Stop {
        Stop::Memory
    }
}

// What was read from a text, and the rest.
type Read<'a, T> = Result<(T, &'a [u8]), Stop>;

/// Reads what a text in a section begins with, and returns it if it is a variable. A header sets
/// the section.
pub(crate) fn read_item<'a>(
    alloc: Global,
    section: &mut Vec<u8>,
    first: u8,
    rest: &'a [u8],
) -> Read<'a, Option<Variable>>
    ensures { GivesFrom rest.now (λ found. (section.new.items, option_map said found)) result
        (item section.old.items first rest.now) }
{
    match first {
        b' ' | b'\t' | b'\r' | b'\n' => Ok((None, rest)),
        b'#' | b';' => Ok((None, after_line(rest))),
        b'[' => {
            let (name, rest) = rest.split_at(name_len(rest));
            let (name, rest) = end_header(name.to_ascii_lowercase(alloc)?, rest)?;
            *section = name;
            Ok((None, rest))
        }
        _ if first.is_ascii_alphabetic() => {
            let mut name = section.to_vec(alloc)?;
            name.push(first.to_ascii_lowercase())?;
            let (variable, rest) = read_variable(alloc, name, rest)?;
            Ok((Some(variable), rest))
        }
        _ => Err(Stop::Wrong(rest.len() + 1)),
    }
}

// Reads what follows the name of a section: a subsection if there is one, and the closing bracket.
fn end_header(mut name: Vec<u8>, text: &[u8]) -> Read<'_, Vec<u8>>
    ensures { GivesFrom text.now (λ name. name.items) result (header_end name.items text.now) }
{
    match text {
        [b']', rest @ ..] if !name.is_empty() => {
            name.push(b'.')?;
            Ok((name, rest))
        }
        [b' ' | b'\t' | b'\r', rest @ ..] => {
            name.push(b'.')?;
            let opened = expect(&rest[blanks_len(rest)..], b'"')?;
            let (mut name, closed) = read_quoted(name, opened)?;
            name.push(b'.')?;
            Ok((name, close(closed)?))
        }
        [_, ..] => Err(Stop::Wrong(text.len() + 1)),
        [] => Err(Stop::Wrong(0)),
    }
}

// Reads a subsection after its quotation mark, and adds it to a name.
fn read_quoted(mut name: Vec<u8>, text: &[u8]) -> Read<'_, Vec<u8>>
    ensures { GivesFrom text.now (λ name. name.items) result
        (quoted false name.items text.now) }
{
    let mut escaped = false;
    let mut left = text;
    while let [byte, rest @ ..] = left {
        match byte {
            b'\n' => return Err(Stop::Wrong(left.len() + 1)),
            b'"' if !escaped => return Ok((name, rest)),
            b'\\' if !escaped => escaped = true,
            _ => {
                name.push(*byte)?;
                escaped = false;
            }
        }
        left = rest;
    }
    Err(Stop::Wrong(1))
}

// Reads the rest of a variable, whose name begins with these bytes.
fn read_variable(alloc: Global, mut name: Vec<u8>, text: &[u8]) -> Read<'_, Variable>
    ensures { GivesFrom text.now said result (variable name.items text.now) }
{
    let (key, rest) = text.split_at(key_len(text));
    name.extend_from_slice(&key.to_ascii_lowercase(alloc)?)?;
    let (value, rest) = read_assignment(alloc, &rest[spaces_len(rest)..])?;
    let name = before_nul(name);
    let value = value.map(|value| before_nul(value));
    Ok((Variable { name, value }, rest))
}

// Reads what follows a key: nothing, or `=` and a value.
fn read_assignment(alloc: Global, text: &[u8]) -> Read<'_, Option<Vec<u8>>>
    ensures { GivesFrom text.now (option_map (λ value. value.items)) result
        (assignment text.now) }
{
    if matches!(text, [] | [b'\n', ..] | [b'\r', b'\n', ..]) {
        return Ok((None, after_line(text)));
    }
    let (value, rest) = read_value(alloc, expect(text, b'=')?)?;
    Ok((Some(value), rest))
}

// Reads a value, up to the end of its line.
fn read_value(alloc: Global, text: &[u8]) -> Read<'_, Vec<u8>>
    ensures { GivesFrom text.now (λ value. value.items) result
        (value false false [] 0 text.now) }
{
    let mut bytes = Vec::new(alloc);
    // This many bytes are kept if the value ends here: all except the spaces at its end.
    let mut kept = 0;
    let mut in_quotes = false;
    let mut escaped = false;
    let mut left = text;
    while let [byte, rest @ ..] = left {
        match piece_at(in_quotes, escaped, byte, rest)? {
            Piece::End => {
                bytes.truncate(kept);
                return Ok((bytes, after_line(left)));
            }
            Piece::Blank => {
                if !bytes.is_empty() {
                    bytes.push(b' ')?;
                }
            }
            Piece::Means(more, quotes, escapes) => {
                bytes.extend_from_slice(more)?;
                kept = bytes.len();
                in_quotes = quotes;
                escaped = escapes;
            }
        }
        left = rest;
    }
    if in_quotes {
        return Err(Stop::Wrong(if escaped { 0 } else { 1 }));
    }
    bytes.truncate(kept);
    Ok((bytes, left))
}

// What a byte of a value is.
enum Piece<'a> {
    // The value ends.
    End,
    // The byte is a space outside quotation marks.
    Blank,
    // The byte stands for these bytes. What follows is in quotation marks, or not, and after a
    // backslash, or not.
    Means(&'a [u8], bool, bool),
}

// What this byte of a value is, in quotation marks or not, and after a backslash or not.
fn piece_at<'a>(
    in_quotes: bool,
    escaped: bool,
    byte: &'a u8,
    rest: &[u8],
) -> Result<Piece<'a>, Stop>
    ensures { Gives piece_of result (piece in_quotes escaped byte.now rest.now) }
{
    if escaped {
        return match byte {
            b'\n' => Ok(Piece::Means(b"", in_quotes, false)),
            b'\r' if matches!(rest, [b'\n', ..]) => Ok(Piece::Means(b"", in_quotes, true)),
            b'n' => Ok(Piece::Means(b"\n", in_quotes, false)),
            b't' => Ok(Piece::Means(b"\t", in_quotes, false)),
            b'b' => Ok(Piece::Means(b"\x08", in_quotes, false)),
            b'"' | b'\\' => Ok(Piece::Means(from_ref(byte), in_quotes, false)),
            _ => Err(Stop::Wrong(rest.len() + 1)),
        };
    }
    match byte {
        b'\n' if in_quotes => Err(Stop::Wrong(rest.len() + 2)),
        b'\n' => Ok(Piece::End),
        b'\\' => Ok(Piece::Means(b"", in_quotes, true)),
        b'"' => Ok(Piece::Means(b"", !in_quotes, false)),
        b'#' | b';' if !in_quotes => Ok(Piece::End),
        b' ' | b'\t' | b'\r' if !in_quotes => Ok(Piece::Blank),
        _ => Ok(Piece::Means(from_ref(byte), in_quotes, false)),
    }
}

// A text without this byte, which has to be its first.
fn expect(text: &[u8], byte: u8) -> Result<&[u8], Stop>
    ensures { Gives (λ rest. rest.now) result (expect byte text.now)
        × IfOk result (λ rest. length rest.now ≤ length text.now) }
{
    match text {
        [first, rest @ ..] if *first == byte => Ok(rest),
        _ => Err(Stop::Wrong(text.len() + 1)),
    }
}

// A text without the bracket that closes a header with a subsection, which has to be its first
// byte. Another byte in its place counts as read, and so does a whole line end.
fn close(text: &[u8]) -> Result<&[u8], Stop>
    ensures { Gives (λ rest. rest.now) result (close text.now)
        × IfOk result (λ rest. length rest.now ≤ length text.now) }
{
    match text {
        [b']', rest @ ..] => Ok(rest),
        [b'\r', b'\n', rest @ ..] | [_, rest @ ..] => Err(Stop::Wrong(rest.len() + 1)),
        [] => Err(Stop::Wrong(0)),
    }
}

// The length of the key at the front of a text, in bytes.
fn key_len(text: &[u8]) -> usize
    ensures len { result ≡ prefix_len is_key_byte text.now }
    ensures bound { result ≤ length text.now }
{
    text.iter()
        .take_while(|byte| byte.is_ascii_alphanumeric() || **byte == b'-')
        .count()
}

// The length of the section's name at the front of a text, in bytes.
fn name_len(text: &[u8]) -> usize
    ensures len { result ≡ prefix_len is_name_byte text.now }
    ensures bound { result ≤ length text.now }
{
    text.iter()
        .take_while(|byte| byte.is_ascii_alphanumeric() || matches!(**byte, b'-' | b'.'))
        .count()
}

// The number of spaces, tabs and carriage returns at the front of a text.
fn blanks_len(text: &[u8]) -> usize
    ensures len { result ≡ prefix_len is_blank text.now }
    ensures bound { result ≤ length text.now }
{
    text.iter()
        .take_while(|byte| matches!(**byte, b' ' | b'\t' | b'\r'))
        .count()
}

// The number of spaces and tabs at the front of a text.
fn spaces_len(text: &[u8]) -> usize
    ensures len { result ≡ prefix_len is_space text.now }
    ensures bound { result ≤ length text.now }
{
    text.iter()
        .take_while(|byte| matches!(**byte, b' ' | b'\t'))
        .count()
}

// A text without its first line.
fn after_line(text: &[u8]) -> &[u8]
    ensures { result.now ≡ after_line text.now }
{
    match position_of(text, b'\n') {
        Some(at) => &text[at + 1..],
        None => &[],
    }
}

// The bytes of a text before its first NUL.
fn before_nul(mut text: Vec<u8>) -> Vec<u8>
    ensures { result.items ≡ before_nul text.items }
{
    if let Some(at) = position_of(&text, 0) {
        text.truncate(at);
    }
    text
}

// The position of the first byte of this value.
fn position_of(text: &[u8], wanted: u8) -> Option<usize>
    ensures { result ≡ position (λ byte. byte == wanted) text.now }
{
    text.iter().position(|byte| *byte == wanted)
}

/// A text without a byte order mark at its front.
pub(crate) fn without_mark(text: &[u8]) -> &[u8]
    ensures { result.now ≡ without_mark text.now }
{
    text.strip_prefix(b"\xef\xbb\xbf").unwrap_or(text)
}

/// The number of the line, from 1, in which reading stops if this many bytes are left of the text
/// and a line feed after it.
pub(crate) fn line_number(text: &[u8], left: usize) -> usize
    ensures { result ≡ line_number text.now left }
{
    let front = &text[..text.len().saturating_sub(left.saturating_sub(1))];
    let feeds = front.iter().filter(|byte| **byte == b'\n').count();
    if left == 0 { feeds + 2 } else { feeds + 1 }
}
