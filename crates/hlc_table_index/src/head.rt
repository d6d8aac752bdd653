//! The head of a key: its first sixteen bytes as one number.
ghost use Rattle.std.specs.Prelude.{◌≡◌, ◌-◌, ◌*◌, ◌≤◌, ◌<◌, IsTrue, false, length, slice_index};
ghost use Rattle.hlc_table_index.specs.{Entries.key_cmp, Head.head_of, Head.head_upto, Head.AreBytes};

use std::cmp::Ordering;

/// The number of bytes of a head.
const HEAD: usize = 16;

/// Among more heads than these the range is halved first.
const MANY: usize = 256;

/// In a run of this many heads the last one is compared first.
const RUN: usize = 16;

/// The factor that moves a number of eight bytes above eight other bytes.
const ABOVE: u128 = 0x1_0000_0000_0000_0000;

/// Returns the first sixteen bytes of a key as a number, the first byte highest, with zeros after a
/// shorter key.
pub(crate) fn head_of(key: &[u8]) -> u128
    ensures value { result ≡ head_of key.now }
    ensures bytes { AreBytes key.now }
{
    let front = first_eight(key);
    if key.len() <= 8 {
        return front as u128 * ABOVE;
    }
    let back = first_eight(&key[8..]);
    front as u128 * ABOVE + back as u128
}

/// Returns the first eight bytes as a number, the first byte highest, with zeros after fewer.
fn first_eight(key: &[u8]) -> u64
    ensures value { result ≡ head_upto 8 key.now }
    ensures bytes { AreBytes key.now }
{
    if key.len() < 8 {
        return short_head(key);
    }
    u64::from_be_bytes([
        key[0], key[1], key[2], key[3], key[4], key[5], key[6], key[7],
    ])
}

/// Returns the same for fewer than eight bytes.
fn short_head(key: &[u8]) -> u64
    ensures { result ≡ head_upto 8 key.now }
{
    let mut head = 0u64;
    for i in 0..8 {
        head = head * 256 + byte_at(key, i) as u64;
    }
    head
}

/// Returns a byte of a key, or 0 after its end.
fn byte_at(key: &[u8], i: usize) -> u8
    ensures { result ≡ slice_index key.now i }
{
    if i < key.len() { key[i] } else { 0 }
}

/// Compares two keys with equal heads. If neither is longer than a head, their lengths decide.
pub(crate) fn compare_alike(key: &[u8], other: &[u8]) -> Ordering
    requires alike { head_of key.now ≡ head_of other.now }
    requires bytes { AreBytes key.now }
    requires other_bytes { AreBytes other.now }
    ensures { result ≡ key_cmp key.now other.now }
{
    if key.len() <= HEAD && other.len() <= HEAD {
        return key.len().cmp(&other.len());
    }
    key.cmp(other)
}

/// Returns bounds between at most `MANY` heads. If the heads ascend, the position of `head` is
/// between them.
fn narrowed(heads: &[u128], head: u128) -> (usize, usize)
    ensures order { result.0 ≤ result.1 }
    ensures inside { result.1 ≤ length heads.now }
{
    let mut low = 0;
    let mut high = heads.len();
    while high - low > MANY {
        let middle = low + (high - low) / 2;
        if heads[middle] < head {
            low = middle + 1;
        } else {
            high = middle;
        }
    }
    (low, high)
}

/// Returns the number of runs whose last head is below a head.
fn runs_below(heads: &[u128], head: u128) -> usize
    ensures { RUN * result ≤ length heads.now }
{
    let mut count = 0;
    let mut at = 0;
    while heads.len() - at >= RUN {
        count += (heads[at + RUN - 1] < head) as usize;
        at += RUN;
    }
    count
}

/// Returns the number of heads that are below a head.
fn heads_below(heads: &[u128], head: u128) -> usize
    ensures { result ≤ length heads.now }
{
    let mut count = 0;
    for i in 0..heads.len() {
        count += (heads[i] < head) as usize;
    }
    count
}

/// Returns the position of a head among ascending heads. Among others it is some position. After the halving, the next
/// comparison does not depend on the result of the last one, so a processor neither waits for a result nor predicts a
/// branch.
fn likely_place(heads: &[u128], head: u128) -> usize
    ensures { result ≤ length heads.now }
{
    let (low, high) = narrowed(heads, head);
    let run = low + RUN * runs_below(&heads[low..high], head);
    let end = high.min(run + RUN);
    run + heads_below(&heads[run..end], head)
}

/// Returns a position such that the head before it is below `head` and the head at it is not. It searches from the
/// likely position, which is the result if the heads ascend.
fn count_below(heads: &[u128], head: u128) -> usize
    ensures inside { result ≤ length heads.now }
    ensures below { 0 < result → slice_index heads.now (result - 1) < head }
    ensures above { result < length heads.now → head ≤ slice_index heads.now result }
{
    let mut place = likely_place(heads, head);
    while place > 0 && heads[place - 1] >= head {
        place -= 1;
    }
    while place < heads.len() && heads[place] < head {
        place += 1;
    }
    place
}

/// Returns a position such that the head before it is below `head` and the head at it is not, and whether the head at
/// it is `head`.
pub(crate) fn place_of_head(heads: &[u128], head: u128) -> (usize, bool)
    ensures inside { result.0 ≤ length heads.now }
    ensures below { 0 < result.0 → slice_index heads.now (result.0 - 1) < head }
    ensures alike { IsTrue result.1 → result.0 < length heads.now }
    ensures same { IsTrue result.1 → slice_index heads.now result.0 ≡ head }
    ensures apart { result.1 ≡ false → result.0 < length heads.now
        → head < slice_index heads.now result.0 }
{
    let place = count_below(heads, head);
    let is_alike = place < heads.len() && heads[place] == head;
    (place, is_alike)
}
