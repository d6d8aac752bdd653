//! A digest of a range of a snapshot, by which replicas compare without listing.
ghost use Rattle.std.specs.Prelude.{◌≡◌, ◌++◌, List, ℕ};
ghost use Rattle.sha2.specs.{Sha256.sha256, Hashers.Holds256};
ghost use Rattle.hlc_core.specs.{Past.Step, Past.stamp_of, Past.writes, StoreView.Represents};
ghost use Rattle.hlc_range_calls.specs.Listing.{sized, pair_bytes, listing_bytes};
ghost use Rattle.hlc_calls.specs.Digest.{ReturnsDigest};

use crate::outputs::fill;
use hlc_core::{Answers, Core};
use hlc_range_calls::scan::end;
use sha2::{Digest, Sha256};

/// Adds bytes, preceded by their number.
fn add_sized(hasher: &mut Sha256, bytes: &[u8])
    ensures { (text : List ℕ) → Holds256 hasher.old text
        → Holds256 hasher.new (text ++ sized bytes.now) }
{
    hasher.update(&(bytes.len() as u64).to_le_bytes());
    hasher.update(bytes);
}

/// Adds a key and its value.
fn add_pair(hasher: &mut Sha256, key: &[u8], value: &[u8])
    ensures { (text : List ℕ) → Holds256 hasher.old text
        → Holds256 hasher.new (text ++ pair_bytes (key.now, value.now)) }
{
    add_sized(hasher, key);
    add_sized(hasher, value);
}

/// Returns the digest of the bytes of a listing.
fn digest_of(answers: Answers<'_>) -> [u8; 32]
    ensures { result ≡ sha256 (listing_bytes answers.entry) }
{
    let mut hasher = Sha256::new();
    for (key, value) in answers {
        add_pair(&mut hasher, key, value);
    }
    hasher.finalize()
}

/// Returns 0, 32 and, where they fit, the bytes of the SHA-256 digest of the listing of a range; or 10.
pub fn digest(core: &Core, id: u64, from: &[u8], to: &[u8], out: &mut [u8], len: &mut usize) -> u32
    ensures { (past : List Step) → Represents core.now past → ReturnsDigest
        (stamp_of id past) (writes past) from.now to.now result len.new out.old out.new }
{
    *len = 0;
    let Some(view) = core.at(id) else {
        return 10;
    };
    fill(&digest_of(view.range(from, end(to))), out, len);
    0
}
