//! Digits packed into bytes, with zeros after them.

ghost use Rattle.std.specs.Prelude.{◌≡◌, ◌≤◌, ◌*◌, length, take, replicate};
ghost use Rattle.id_digits.specs.Digits.{digits_of, padded};

/// Copies the first `hex_len` digits of `front` into zeros: whole bytes, and for an odd number also
/// the high half of one more byte.
pub fn copy_digits(front: &[u8], hex_len: usize, zeros: &mut [u8])
    requires zeros { zeros.old ≡ replicate (length zeros.old) 0 }
    requires room { length front.now ≤ length zeros.old }
    requires digits { hex_len ≤ 2 * length front.now }
    ensures { digits_of zeros.new ≡ padded (2 * length zeros.old)
        (take hex_len (digits_of front.now)) }
{
    let whole = hex_len / 2;
    zeros[..whole].copy_from_slice(&front[..whole]);
    if hex_len % 2 == 1 {
        zeros[whole] = front[whole] / 16 * 16;
    }
}
