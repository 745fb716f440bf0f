//! Names of files in lines, as `sha1sum` prints them: a backslash begins the line if a byte of the
//! name is escaped.

ghost use Rattle.std.specs.Prelude.{◌≡◌, ◌++◌, false};
ghost use Rattle.std.specs.List.{list_any};
ghost use Rattle.packtool_commands.specs.Files.{escape_mark, escape_of, escaped, file_line, is_special};
ghost use Rattle.streams.specs.Streams.{Wrote};

use streams::{Sink, WriteFailed, write_all};

// Whether a byte is escaped.
fn is_special(byte: u8) -> bool
    ensures { result ≡ is_special byte }
{
    byte == b'\\' || byte == b'\n' || byte == b'\r'
}

// Whether a name has a byte that is escaped.
fn has_special(name: &str) -> bool
    ensures { result ≡ list_any is_special name.now }
{
    name.as_bytes().iter().any(|byte| is_special(*byte))
}

/// Writes what begins a line with a name: a backslash if a byte of the name is escaped.
pub(crate) fn write_mark<W: Sink>(name: &str, out: &mut W) -> Result<(), WriteFailed>
    requires { W.has_failed out.old ≡ false }
    ensures { Wrote W.taken W.has_failed out.old out.new result (escape_mark name.now) }
{
    let mark: &[u8] = if has_special(name) { b"\\" } else { b"" };
    write_all(out, mark)
}

// Writes what is printed for a byte of a name.
#[tactic(auto, unfolding(crate::specs::Files::escape_of))]
fn write_escape<W: Sink>(byte: u8, out: &mut W) -> Result<(), WriteFailed>
    requires { W.has_failed out.old ≡ false }
    ensures { Wrote W.taken W.has_failed out.old out.new result (escape_of byte) }
{
    match byte {
        b'\\' => write_all(out, b"\\\\"),
        b'\n' => write_all(out, b"\\n"),
        b'\r' => write_all(out, b"\\r"),
        _ => write_all(out, &[byte]),
    }
}

// Writes a name, whose backslashes, line feeds and carriage returns are escaped.
fn write_escaped<W: Sink>(name: &str, out: &mut W) -> Result<(), WriteFailed>
    requires { W.has_failed out.old ≡ false }
    ensures { Wrote W.taken W.has_failed out.old out.new result (escaped name.now) }
{
    if !has_special(name) {
        return write_all(out, name.as_bytes());
    }
    for byte in name.as_bytes() {
        write_escape(*byte, out)?;
    }
    Ok(())
}

/// Writes an escaped name, and a text after it.
pub(crate) fn write_before<W: Sink>(name: &str, text: &[u8], out: &mut W) -> Result<(), WriteFailed>
    requires { W.has_failed out.old ≡ false }
    ensures { Wrote W.taken W.has_failed out.old out.new result (escaped name.now ++ text.now) }
{
    write_escaped(name, out)?;
    write_all(out, text)
}

/// Writes the line of a file: its name, and the text after it. As `sha1sum` does, it writes `\\`,
/// `\n` and `\r` for the backslashes, line feeds and carriage returns of a name, after a backslash
/// at the beginning of the line. So no name looks like a further line.
///
/// It stops at the first write that fails, after a proper beginning of the line. The sink must not
/// have failed before.
///
/// ```
/// if write_named("pack-1.idx", b": FAILED: too long\n", &mut out).is_err() {
///     println!(rt; "the line is not written whole")?;
/// }
/// ```
pub fn write_named<W: Sink>(name: &str, text: &[u8], out: &mut W) -> Result<(), WriteFailed>
    requires { W.has_failed out.old ≡ false }
    ensures { Wrote W.taken W.has_failed out.old out.new result (file_line name.now text.now) }
{
    write_mark(name, out)?;
    write_before(name, text, out)
}
