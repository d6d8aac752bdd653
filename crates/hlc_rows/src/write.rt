//! A write of a batch: several keys at one stamp.
ghost use Rattle.std.specs.Prelude.{◌≡◌, ◌+◌, ◌<◌, ◌≤◌, length, option_copied, take};
ghost use Rattle.hlc_rows.specs.Limits.{write_refusal};
ghost use Rattle.hlc_rows.specs.Writes.{all_refusal, batch_refusal, eight_at, first_of, marks_of, number_of};
ghost use Rattle.hlc_rows.specs.Writes.{short_number, writes_key};

use crate::limits::{BodyFault, MAX_WRITES, write_fault};
use crate::writes::Writes;
use hlc_bytes::Bytes;

/// The number of marks of keys.
const MARKS: usize = 4_096;

/// 2^64 divided by the golden ratio, by which the number of a key is multiplied, so that keys in order have marks that
/// are far from each other (Knuth, The Art of Computer Programming 3, 6.4).
const SPREAD: u64 = 11_400_714_819_323_198_485;

/// With fewer writes than this each key is compared with each other one.
const FEW: usize = 5;

/// A new version of a key.
#[derive(Clone, PartialEq, Eq, Debug, Drop)]
pub struct Write {
    pub key: Bytes,
    /// The value, or none for a deletion mark.
    pub value: Option<Bytes>,
}

/// Returns whether one of the first `count` writes is of this key.
fn first_have_key(writes: Writes<'_>, count: usize, key: &[u8]) -> bool
    ensures { result ≡ writes_key key.now (take count writes.entry) }
{
    let mut left = count;
    let mut rest = writes;
    while let Some((first, others)) = rest.split_first() {
        if left == 0 {
            return false;
        }
        if first.key == key {
            return true;
        }
        left -= 1;
        rest = others;
    }
    false
}

/// Returns eight bytes of a key, from a position on, as one number.
#[inline]
#[tactic(auto, unfolding(crate::specs::Writes::eight_at))]
fn eight_at(key: &[u8], at: usize) -> u64
    requires { at + 8 ≤ length key.now }
    ensures { result ≡ eight_at key.now at }
{
    u64::from_be_bytes([
        key[at],
        key[at + 1],
        key[at + 2],
        key[at + 3],
        key[at + 4],
        key[at + 5],
        key[at + 6],
        key[at + 7],
    ])
}

/// Returns the bytes of a key of fewer than eight bytes as one number.
fn short_number(key: &[u8]) -> u64
    ensures { result ≡ short_number key.now }
{
    let mut number = 0u64;
    let mut rest = key;
    while let Some((byte, others)) = rest.split_first() {
        number = number % 72_057_594_037_927_936 * 256 + *byte as u64;
        rest = others;
    }
    number
}

/// Returns a number of a key, made of its first and its last eight bytes: equal keys have equal numbers.
#[inline]
#[tactic(auto, unfolding(crate::specs::Writes::number_of))]
fn number_of(key: &[u8]) -> u64
    ensures { result ≡ number_of key.now }
{
    if key.len() < 8 {
        return short_number(key);
    }
    eight_at(key, 0).wrapping_add(eight_at(key, key.len() - 8))
}

/// Returns two marks of a key: equal keys have equal marks.
#[inline]
#[tactic(auto, unfolding(crate::specs::Writes::marks_of))]
fn marks_of(key: &[u8]) -> (usize, usize)
    ensures is { result ≡ marks_of key.now }
    ensures one { result.0 < 4096 }
    ensures two { result.1 < 4096 }
{
    let hash = number_of(key).wrapping_mul(SPREAD);
    let one = (hash / 4_503_599_627_370_496) as usize % MARKS;
    let two = (hash / 1_099_511_627_776) as usize % MARKS;
    (one, two)
}

/// Returns whether one of the writes is of this key.
fn have_key(writes: Writes<'_>, key: &[u8]) -> bool
    ensures { result ≡ writes_key key.now writes.entry }
{
    let mut rest = writes;
    while let Some((first, others)) = rest.split_first() {
        if first.key == key {
            return true;
        }
        rest = others;
    }
    false
}

/// Returns a reason that was found before or, if there is none, the reason to refuse a write.
#[inline]
fn first_of(found: Option<BodyFault>, key: &[u8], value: Option<&[u8]>) -> Option<BodyFault>
    ensures { result ≡ first_of found (write_refusal key.now (option_copied value.entry)) }
{
    match found {
        None => write_fault(key, value),
        Some(fault) => Some(fault),
    }
}

/// Returns the first reason to refuse a few writes: two are of one key, or one is refused by itself. It compares each
/// key with each other one.
fn few_fault(writes: Writes<'_>) -> Option<BodyFault>
    ensures { result ≡ all_refusal writes.entry }
{
    let mut fault = None;
    let mut rest = writes;
    while let Some((first, others)) = rest.split_first() {
        if have_key(others.lend(), first.key) {
            return Some(BodyFault::KeyTwice);
        }
        fault = first_of(fault, first.key, first.value);
        rest = others;
    }
    fault
}

/// Returns the same for many writes. It compares a key with those before it only if both of its marks are set (Bloom,
/// Space/Time Trade-offs in Hash Coding, 1970), so that it takes time in proportion to the number of writes, but for
/// chance.
fn many_fault(writes: Writes<'_>) -> Option<BodyFault>
    ensures { result ≡ all_refusal writes.entry }
{
    let mut marks = [false; MARKS];
    let mut fault = None;
    let mut rest = writes.lend();
    while let Some((first, others)) = rest.split_first() {
        let (one, two) = marks_of(first.key);
        let before = writes.len() - 1 - others.len();
        if marks[one] && marks[two] && first_have_key(writes.lend(), before, first.key) {
            return Some(BodyFault::KeyTwice);
        }
        marks[one] = true;
        marks[two] = true;
        fault = first_of(fault, first.key, first.value);
        rest = others;
    }
    fault
}

/// Returns the first reason to refuse a batch of these writes: there are none; there are more than 256; two are of one
/// key; a write is refused by itself, and then the reason of the first such write.
pub fn batch_fault(writes: Writes<'_>) -> Option<BodyFault>
    ensures { result ≡ batch_refusal writes.entry }
{
    if writes.len() == 0 {
        return Some(BodyFault::NoWrites);
    }
    if writes.len() > MAX_WRITES {
        return Some(BodyFault::TooManyWrites);
    }
    if writes.len() < FEW {
        return few_fault(writes);
    }
    many_fault(writes)
}
