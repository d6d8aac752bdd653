//! The digest of a frame.
ghost use Rattle.std.specs.Prelude.{◌≡◌, ◌++◌, ℕ, List, bytes_eq};
ghost use Rattle.sha2.specs.{Sha256.sha256, Hashers.Holds256};

use sha2::{Digest, Sha256};

/// Returns whether this is the digest of the bytes that the hasher was fed.
pub fn is_digest(hasher: Sha256, digest: &[u8]) -> bool
    ensures { (text : List ℕ) → Holds256 hasher text
        → result ≡ bytes_eq digest.now (sha256 text) }
{
    let expected = hasher.finalize();
    digest == expected.as_slice()
}

/// Returns whether this is the digest of a front and a body.
pub fn has_digest(front: &[u8], body: &[u8], digest: &[u8]) -> bool
    ensures { result ≡ bytes_eq digest.now (sha256 (front.now ++ body.now)) }
{
    let mut hasher = Sha256::new();
    hasher.update(front);
    hasher.update(body);
    is_digest(hasher, digest)
}
