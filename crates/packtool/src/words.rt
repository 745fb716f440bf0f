//! The words of the command line.

ghost use Rattle.std.specs.Prelude.{◌≡◌, ◌++◌, [], ◌∷◌, IfOk, string_bytes, IsUtf8};
ghost use Rattle.std.specs.Str.Lossy.{utf8_lossy};

use std::alloc::{AllocError, Global};
use std::env::FillError;
use std::rt::Env;
use std::str;

/// The arguments after the program's name, in order. One that is not UTF-8 becomes its text with
/// replacement characters, and then a NUL, which no argument contains.
pub fn read_words(rt: &(impl Env + AllocGlobal)) -> Result<Vec<String>, AllocError> {
    let mut words = Vec::new(rt.alloc());
    for at in 1..usize::MAX {
        match read_bytes(rt, at)? {
            Some(bytes) => words.push(word_of(rt.alloc(), &bytes)?)?,
            None => break,
        }
    }
    Ok(words)
}

// The bytes of an argument, or `None` if there are fewer arguments.
fn read_bytes(rt: &(impl Env + AllocGlobal), at: usize) -> Result<Option<Vec<u8>>, AllocError> {
    let mut bytes = Vec::new(rt.alloc());
    for _ in 0..usize::BITS {
        bytes.resize(bytes.len().saturating_mul(2).max(256), 0)?;
        match rt.arg(at, &mut bytes) {
            Ok(len) => {
                bytes.truncate(len);
                return Ok(Some(bytes));
            }
            Err(FillError::NotPresent) => return Ok(None),
            Err(FillError::TooLong) => {}
        }
    }
    Err(AllocError)
}

// The word that stands for an argument.
fn word_of(alloc: Global, bytes: &[u8]) -> Result<String, AllocError>
    ensures text { IfOk result (λ word. IsUtf8 bytes.now → string_bytes word ≡ bytes.now) }
    ensures other { IfOk result (λ word. ¬ (IsUtf8 bytes.now)
        → string_bytes word ≡ utf8_lossy bytes.now ++ (0 ∷ [])) }
{
    if let Ok(word) = str::from_utf8(bytes) {
        return String::from_str(alloc, word);
    }
    let mut word = String::from_utf8_lossy(alloc, bytes)?;
    word.push('\0')?;
    Ok(word)
}
