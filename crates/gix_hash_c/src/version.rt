//! The version of the library.

ghost use Rattle.std.specs.Prelude.{◌≡◌};

/// The version, 0.7.0: 10,000 times the first number, 100 times the second, and the third.
#[unsafe(no_mangle)]
pub extern "C" fn gix_hash_version() -> u32
    ensures { result ≡ 700 }
{
    700
}
