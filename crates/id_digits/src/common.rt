//! The digits that bytes have in common.

ghost use Rattle.std.specs.Prelude.{◌≡◌, nat_eq};
ghost use Rattle.std.specs.List.{common_prefix_len};
ghost use Rattle.id_digits.specs.Digits.{digits_of};

/// The number of first digits that two lists of bytes share: the digits before the first one that
/// differs, or all digits of the shorter list if none differs.
pub fn common_digits(one: &[u8], other: &[u8]) -> usize
    ensures { result ≡ common_prefix_len nat_eq (digits_of one.now) (digits_of other.now) }
{
    let len = one.len().min(other.len());
    for at in 0..len {
        if one[at] != other[at] {
            let same_high_half = one[at] / 16 == other[at] / 16;
            return if same_high_half { 2 * at + 1 } else { 2 * at };
        }
    }
    2 * len
}
