//! Words of the command line in messages.

ghost use Rattle.std.specs.Prelude.{◌≤◌, length};
ghost use Rattle.std.specs.Io.{StartsWith};

/// The first bytes of a text, at most 80, up to the end of a character.
pub fn beginning(text: &str) -> &str
    ensures begins { StartsWith text.now result.now }
    ensures short { length result.now ≤ 80 }
{
    match text.get(..text.floor_char_boundary(80)) {
        Some(beginning) => beginning,
        None => "",
    }
}
