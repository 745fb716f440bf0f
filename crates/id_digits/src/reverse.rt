//! The letters of one alphabet for those of the other: `z` down to `k` for `0` to `f`.

ghost use Rattle.std.specs.Prelude.{◌≡◌, map};
ghost use Rattle.id_digits.specs.Letters.{hex_of_reverse, reverse_of_hex};

/// Replaces each letter `z` to `k`, in any letter case, by the hex letter of its digit, and any
/// other byte by one that is not a hex letter.
pub fn to_hex_letters(text: &mut [u8])
    ensures { text.new ≡ map hex_of_reverse text.old }
{
    for letter in text.iter_mut() {
        *letter = to_hex_letter(*letter);
    }
}

/// Replaces each lowercase hex letter by the letter `z` to `k` of its digit; other bytes are left
/// as they are.
pub fn to_reverse_letters(text: &mut [u8])
    ensures { text.new ≡ map reverse_of_hex text.old }
{
    for letter in text.iter_mut() {
        *letter = to_reverse_letter(*letter);
    }
}

fn to_hex_letter(letter: u8) -> u8
    ensures { result ≡ hex_of_reverse letter }
{
    match letter.to_ascii_lowercase() {
        lower @ b'q'..=b'z' => b'z' - lower + b'0',
        lower @ b'k'..=b'p' => b'p' - lower + b'a',
        _ => b'-',
    }
}

fn to_reverse_letter(letter: u8) -> u8
    ensures { result ≡ reverse_of_hex letter }
{
    match letter {
        b'0'..=b'9' => b'z' - (letter - b'0'),
        b'a'..=b'f' => b'p' - (letter - b'a'),
        _ => letter,
    }
}
