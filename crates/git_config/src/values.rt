//! What values of variables mean: numbers and booleans.

ghost use Rattle.std.specs.Prelude.{◌≡◌, ◌≤◌, ◌<◌, ◌^◌, IfSome, pos, ◌-ℤ◌, length, option_map};
ghost use Rattle.std.specs.List.{list_any, prefix_len};
ghost use Rattle.std.specs.Str.{str_eq_ignore_ascii_case};
ghost use Rattle.git_config.specs.Grammar.{past};
ghost use Rattle.git_config.specs.Values.{is_boolean, is_c_space, magnitude, number, numeral, scaled, times, unit};

// The words that are booleans.
const BOOLEAN_WORDS: [&str; 7] = ["", "true", "yes", "on", "false", "no", "off"];

/// Whether a value is a boolean: a word for one in any case of letters, a number, or no value.
pub fn is_boolean(value: &Option<Vec<u8>>) -> bool
    ensures { result ≡ is_boolean (option_map (λ text. text.items) value.now) }
{
    match value {
        Some(text) => is_any(text, &BOOLEAN_WORDS) || number(text).is_some(),
        None => true,
    }
}

// Whether a text is one of some words, in any case of letters.
fn is_any(text: &[u8], words: &[&str]) -> bool
    ensures { result ≡ list_any (λ word. str_eq_ignore_ascii_case text.now word.now) words.now }
{
    words
        .iter()
        .any(|word| is_in_any_case(text, word.as_bytes()))
}

// Whether a text is this one, in any case of letters.
fn is_in_any_case(text: &[u8], word: &[u8]) -> bool
    ensures { result ≡ str_eq_ignore_ascii_case text.now word.now }
{
    text.eq_ignore_ascii_case(word)
}

/// The number that a value is, as Git reads it, or `None` if it is none. Spaces and a sign may come
/// first. The digits are in base 10, in base 8 after `0` and in base 16 after `0x`. A letter `k`,
/// `m` or `g` in any case multiplies them by 2^10, 2^20 or 2^30. The number has at most 31 bits and
/// a sign.
pub fn number(text: &[u8]) -> Option<i64>
    ensures { result ≡ number text.now }
{
    match after_spaces(text) {
        [b'-', rest @ ..] => negative(scaled(rest)?),
        [b'+', rest @ ..] => Some(scaled(rest)? as i64),
        rest => Some(scaled(rest)? as i64),
    }
}

// This number with the sign changed.
fn negative(size: u64) -> Option<i64>
    requires { size < 2 ^ 31 }
    ensures { result ≡ Some (pos 0 -ℤ pos size) }
{
    Some(-(size as i64))
}

// A text without the spaces at its front, as C defines spaces.
fn after_spaces(text: &[u8]) -> &[u8]
    ensures { result.now ≡ past is_c_space text.now }
{
    &text[spaces_len(text)..]
}

// The number of spaces at the front of a text, as C defines spaces.
fn spaces_len(text: &[u8]) -> usize
    ensures len { result ≡ prefix_len is_c_space text.now }
    ensures bound { result ≤ length text.now }
{
    text.iter()
        .take_while(|byte| **byte == b' ' || b'\t' <= **byte && **byte <= b'\r')
        .count()
}

// The number that digits mean, with a unit after them if there is one.
fn scaled(text: &[u8]) -> Option<u64>
    ensures value { result ≡ scaled text.now }
    ensures bits { IfSome result (λ size. size < 2 ^ 31) }
{
    match text {
        [] => None,
        [digits @ .., letter] if unit(*letter) != 1 => times(unit(*letter), magnitude(digits)?),
        _ => magnitude(text),
    }
}

// The product of a unit and a number, if it has at most 31 bits.
fn times(unit: u64, number: u64) -> Option<u64>
    requires unit_bound { unit ≤ 2 ^ 30 }
    requires number_bound { number < 2 ^ 31 }
    ensures value { result ≡ times unit number }
    ensures bits { IfSome result (λ size. size < 2 ^ 31) }
{
    let size = number * unit;
    if size < 1 << 31 { Some(size) } else { None }
}

// The factor that a letter after a number means, or 1 if it means none.
fn unit(letter: u8) -> u64
    ensures value { result ≡ unit letter }
    ensures bound { result ≤ 2 ^ 30 }
{
    match letter {
        b'k' | b'K' => 1 << 10,
        b'm' | b'M' => 1 << 20,
        b'g' | b'G' => 1 << 30,
        _ => 1,
    }
}

// The number that digits mean in the base that they begin with.
fn magnitude(text: &[u8]) -> Option<u64>
    ensures value { result ≡ magnitude text.now }
    ensures bits { IfSome result (λ size. size < 2 ^ 31) }
{
    match text {
        [b'0', b'x' | b'X', digits @ ..] => numeral(16, digits),
        [b'0', ..] => numeral(8, text),
        _ => numeral(10, text),
    }
}

// The number that digits mean in a base; there has to be one.
fn numeral(base: u64, digits: &[u8]) -> Option<u64>
    requires low { 2 ≤ base }
    requires high { base ≤ 16 }
    ensures value { result ≡ numeral base digits.now }
    ensures bits { IfSome result (λ size. size < 2 ^ 31) }
{
    if digits.is_empty() {
        return None;
    }
    let mut number = 0;
    let mut left = digits;
    while let [byte, rest @ ..] = left {
        let digit = char::from(*byte).to_digit(base as u32)?;
        number = number * base + u64::from(digit);
        if number >= 1 << 31 {
            return None;
        }
        left = rest;
    }
    Some(number)
}
