//! The hash functions, at work on a message.

ghost use Rattle.std.specs.Prelude.{◌≡◌, ◌++◌, ℕ, List, [], Ok, IsOk};
ghost use Rattle.gix_hash.specs.Hashing.{digest, hasher_kind, WasFed};

use super::Error;
use crate::kind::Kind;
use crate::object_id::ObjectId;
use sha2::Digest;

/// The state of a SHA-1 computation.
#[derive(Drop)]
pub struct Sha1State {
    state: sha1::Sha1,
}

/// The state of a SHA-256 computation.
#[derive(Drop)]
pub struct Sha256State {
    state: sha2::Sha256,
}

/// A hash function at work on a message that it is fed in chunks, of any lengths. The message is
/// the concatenation of the chunks so far.
///
/// [`hasher`](crate::hasher) makes one.
///
/// ```
/// let mut hasher = hasher(Kind::Sha1);
/// hasher.update(b"blob 0");
/// hasher.update(b"\0");
/// let id = hasher.try_finalize()?;
/// ```
#[derive(Drop)]
pub enum Hasher {
    /// SHA-1 (FIPS 180-4).
    Sha1(Sha1State),
    /// SHA-256 (FIPS 180-4).
    Sha256(Sha256State),
}

impl Hasher {
    // A hasher of that kind which was fed nothing.
    pub(crate) fn of_kind(kind: Kind) -> Hasher
        ensures kind { hasher_kind result ≡ kind }
        ensures empty { WasFed result [] }
    {
        match kind {
            Kind::Sha1 => Hasher::Sha1(Sha1State {
                state: sha1::Sha1::new(),
            }),
            Kind::Sha256 => Hasher::Sha256(Sha256State {
                state: sha2::Sha256::new(),
            }),
        }
    }

    /// Appends `bytes` to the message. An empty slice leaves the message as it is.
    pub fn update(&mut self, bytes: &[u8])
        ensures kind { hasher_kind self.new ≡ hasher_kind self.old }
        ensures fed { (message : List ℕ) → WasFed self.old message
            → WasFed self.new (message ++ bytes.now) }
    {
        match self {
            Hasher::Sha1(hasher) => hasher.state.update(bytes),
            Hasher::Sha256(hasher) => hasher.state.update(bytes),
        }
    }

    /// The digest of all that was fed, of 20 or 32 bytes by the hasher's kind. It never returns an
    /// error.
    ///
    /// FIPS 180-4 defines the digests of messages below 2^61 bytes. Beyond that every call still
    /// returns.
    pub fn try_finalize(self) -> Result<ObjectId, Error>
        ensures ok { IsOk result }
        ensures digest { (message : List ℕ) → WasFed self message
            → result ≡ Ok (digest (hasher_kind self) message) }
    {
        match self {
            Hasher::Sha1(hasher) => Ok(ObjectId::Sha1(hasher.state.finalize())),
            Hasher::Sha256(hasher) => Ok(ObjectId::Sha256(hasher.state.finalize())),
        }
    }
}
