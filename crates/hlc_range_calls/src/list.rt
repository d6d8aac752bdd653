//! A listing, as bytes.
ghost use Rattle.std.specs.Prelude.{◌≡◌, ◌≢◌, ◌≤◌, ◌+◌, ◌*◌, List, length, MatchOption, IfSome, option_copied, true};
ghost use Rattle.hlc_core.specs.{Past.Step, Past.stamp_of, Past.writes, StoreView.Represents};
ghost use Rattle.hlc_wire.specs.Placing.{with_bytes};
ghost use Rattle.hlc_range_calls.specs.Listing.{sized, answer_bytes, pair_bytes, listing_bytes, ReturnsListing};

use hlc_columns::Sizes;
use hlc_core::{Answers, Core};
use hlc_wire::put_bytes;

/// Returns how many bytes the pairs take, or none where 64 bits do not hold the number.
#[tactic(auto, using(crate::proofs::ByteLemmas::listing_length, crate::proofs::ByteLemmas::pair_length))]
fn listing_len(answers: Answers<'_>) -> Option<usize>
    ensures { MatchOption result (18446744073709551616 ≤ length (listing_bytes answers.entry))
        (λ len. len ≡ length (listing_bytes answers.entry)) }
{
    let mut len = 0usize;
    for (key, value) in answers {
        len = len
            .checked_add(16)?
            .checked_add(key.len())?
            .checked_add(value.len())?;
    }
    Some(len)
}

/// Writes bytes, preceded by their number, to a place of a buffer, and returns the place after them.
pub fn put_sized(out: &mut [u8], at: usize, bytes: &[u8]) -> usize
    requires { at + length (sized bytes.now) ≤ length out.now }
    ensures end { result ≡ at + length (sized bytes.now) }
    ensures put { out.new ≡ with_bytes at (sized bytes.now) out.old }
{
    let start = put_bytes(out, at, &(bytes.len() as u64).to_le_bytes());
    put_bytes(out, start, bytes)
}

/// Writes a key and its value in the same way.
pub fn put_pair(out: &mut [u8], at: usize, key: &[u8], value: &[u8]) -> usize
    requires { at + length (pair_bytes (key.now, value.now)) ≤ length out.now }
    ensures end { result ≡ at + length (pair_bytes (key.now, value.now)) }
    ensures put { out.new ≡ with_bytes at (pair_bytes (key.now, value.now)) out.old }
{
    let between = put_sized(out, at, key);
    put_sized(out, between, value)
}

/// Writes an answer in the same way: a byte 0 for none, or 1 and the value after its length.
pub fn put_answer(out: &mut [u8], at: usize, value: Option<&[u8]>) -> usize
    requires { at + length (answer_bytes (option_copied value)) ≤ length out.now }
    ensures end { result ≡ at + length (answer_bytes (option_copied value.entry)) }
    ensures put { out.new ≡ with_bytes at (answer_bytes (option_copied value.entry)) out.old }
{
    match value {
        None => put_bytes(out, at, &[0]),
        Some(value) => {
            let start = put_bytes(out, at, &[1]);
            put_sized(out, start, value)
        }
    }
}

/// Writes the pairs to the start of a buffer that has room for them, and returns the place after them.
fn put_listing(out: &mut [u8], answers: Answers<'_>) -> usize
    requires { length (listing_bytes answers) ≤ length out.now }
    ensures end { result ≡ length (listing_bytes answers.entry) }
    ensures put { out.new ≡ with_bytes 0 (listing_bytes answers.entry) out.old }
{
    let mut at = 0usize;
    for (key, value) in answers {
        at = put_pair(out, at, key, value);
    }
    at
}

/// Returns how many bytes the listing of a snapshot takes at most, if 128 bits hold the number: 16 for each key, and
/// those of all keys and all values.
fn most_bytes(sizes: Sizes) -> Option<u128>
    ensures { IfSome result
        (λ most. most ≡ 16 * sizes.keys + (sizes.key_bytes + sizes.value_bytes)) }
{
    let bytes = sizes.key_bytes.checked_add(sizes.value_bytes)?;
    sizes.keys.checked_mul(16)?.checked_add(bytes)
}

/// Returns whether a buffer has room for each listing of a store of these sizes.
fn has_room(sizes: Sizes, room: usize) -> bool
    ensures { result ≡ true → 16 * sizes.keys + (sizes.key_bytes + sizes.value_bytes) ≤ room }
{
    match most_bytes(sizes) {
        Some(most) => most <= room as u128,
        None => false,
    }
}

/// Lists the keys with a value in a snapshot. Returns 0, the length of the listing in bytes and, where they fit, the
/// bytes; or 10. It takes no memory, and goes through the keys once where the buffer has room for 16 bytes a key and
/// the bytes of all keys and of the values of all rows; otherwise twice, first for the length.
pub fn list(core: &Core, id: u64, out: &mut [u8], len: &mut usize) -> u32
    ensures listed { (past : List Step) → Represents core.now past
        → ReturnsListing (stamp_of id past) (writes past) result len.new out.old out.new }
    ensures nothing { result ≢ 0 → (len.new ≡ 0) × (out.new ≡ out.old) }
{
    *len = 0;
    let Some(view) = core.at(id) else {
        return 10;
    };
    let room = out.len();
    if has_room(view.sizes(), room) {
        *len = put_listing(out, view.iter());
        return 0;
    }
    match listing_len(view.iter()) {
        None => *len = usize::MAX,
        Some(total) => {
            *len = total;
            if total <= room {
                let _end = put_listing(out, view.iter());
            }
        }
    }
    0
}
