//! Several items in one call, for callers for which a call is expensive.
ghost use Rattle.std.specs.Prelude.{◌≡◌, ◌≢◌, List, true, false, MatchOption, option_copied};
ghost use Rattle.hlc_core.specs.{Past.Step, StoreView.Represents};
ghost use Rattle.hlc_calls.specs.Entries.{piece, lies, value_of, is_within, IsEntered, AreEntered};

use crate::items;
use hlc_core::{Core, ItemRef, Stamp};

/// A write, or a deletion, that a node issued, with the places of its key and value among some bytes.
#[repr(C)]
#[derive(Clone, Copy)]
pub struct Entry {
    pub node: u16,
    pub deletes: bool,
    pub number: u64,
    pub stamp: u64,
    pub key_at: usize,
    pub key_len: usize,
    pub value_at: usize,
    pub value_len: usize,
}

/// Returns this many bytes from this place on, if the bytes contain them.
pub(crate) fn piece_of(bytes: &[u8], at: usize, len: usize) -> Option<&[u8]>
    ensures { MatchOption result (lies at len bytes.now ≡ false)
        (λ found. (lies at len bytes.now ≡ true) × (found.now ≡ piece at len bytes.now)) }
{
    if at > bytes.len() || len > bytes.len() - at {
        return None;
    }
    let (_, rest) = bytes.split_at(at);
    let (found, _) = rest.split_at(len);
    Some(found)
}

/// Returns the key of an entry and its value, which is none for a deletion, if the bytes contain them.
fn parts_of<'a>(entry: &Entry, bytes: &'a [u8]) -> Option<(&'a [u8], Option<&'a [u8]>)>
    ensures { MatchOption result (is_within bytes.now entry.now ≡ false)
        (λ parts. (is_within bytes.now entry.now ≡ true)
        × (parts.0.now ≡ piece entry.now.key_at entry.now.key_len bytes.now)
        × (option_copied parts.1 ≡ value_of entry.now bytes.now)) }
{
    let key = piece_of(bytes, entry.key_at, entry.key_len)?;
    if entry.deletes {
        return Some((key, None));
    }
    let value = piece_of(bytes, entry.value_at, entry.value_len)?;
    Some((key, Some(value)))
}

/// Accepts the item of an entry. Returns 0 and its stamp, or a refusal and its word, or 103.
fn enter(core: &mut Core, entry: &Entry, bytes: &[u8], returned: &mut u64) -> u32
    ensures answer { (past : List Step) → Represents core.old past
        → IsEntered core.new entry.now bytes.now past result returned.new }
    ensures unchanged { result ≢ 0 → core.new ≡ core.old }
{
    let Some((key, value)) = parts_of(entry, bytes) else {
        *returned = 0;
        return 103;
    };
    let stamp = Stamp::from_bits(entry.stamp);
    let item = ItemRef::write(entry.node, entry.number, stamp, key, value);
    items::accept(core, &item, returned)
}

/// Accepts the items of entries in turn, until one is refused. Returns 0, or the answer for the refused one, and how
/// many were accepted.
#[tactic(auto, using(crate::proofs::Entered::entered_next))]
pub fn enter_all(
    core: &mut Core,
    entries: &[Entry],
    bytes: &[u8],
    count: &mut usize,
    returned: &mut u64,
) -> u32
    ensures { (past : List Step) → Represents core.old past
        → AreEntered core.new entries.now bytes.now past result count.new returned.new }
{
    let mut index = 0;
    while index < entries.len() {
        let code = enter(core, &entries[index], bytes, returned);
        if code != 0 {
            *count = index;
            return code;
        }
        index += 1;
    }
    *count = index;
    *returned = 0;
    0
}
