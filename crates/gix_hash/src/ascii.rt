//! ASCII bytes as text.

ghost use Rattle.std.specs.Prelude.{◌≡◌, IsAscii};

/// Lends ASCII bytes as text.
pub(crate) fn ascii_text(bytes: &[u8]) -> &str
    requires { IsAscii bytes.now }
    ensures value { result.now ≡ bytes.now }
    ensures ascii { IsAscii result.now }
{
    // The bytes are ASCII, as the `requires` says.
    unsafe { str::from_utf8_unchecked(bytes) }
}
