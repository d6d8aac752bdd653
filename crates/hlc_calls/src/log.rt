//! The items of a log, as bytes.
ghost use Rattle.std.specs.Prelude.{◌≡◌, ◌<◌, ◌++◌, List, length, IfOk, OnErr, MatchResult};
ghost use Rattle.hlc_node.specs.declared.item.Item.{Item as AnItem};
ghost use Rattle.hlc_wire.specs.Spelling.{item_bytes, ItemFits};
ghost use Rattle.hlc_core.specs.{Past.Step, StoreView.Represents};
ghost use Rattle.hlc_calls.specs.Log.{came_before, with_item, IsStopped, AreTaken, ReturnsItem};

use crate::codes::refuse;
use hlc_core::{Core, ItemRef};
use hlc_wire::{item_ref_at, item_size, put_item};

/// Writes an item as bytes. Returns 0, the length of the bytes and, where they fit, the bytes; or the number of the
/// refusal of its body.
pub fn put(item: &ItemRef<'_>, out: &mut [u8], len: &mut usize) -> u32
    ensures { ReturnsItem item.now result len.new out.old out.new }
{
    match item_size(item) {
        Ok(size) => {
            *len = size;
            put_item(item, out);
            0
        }
        Err(fault) => {
            *len = 0;
            fault.code()
        }
    }
}

/// Returns whether an item of this number came before.
fn came(core: &Core, item: &ItemRef<'_>) -> bool
    ensures { (past : List Step) → Represents core.now past → result ≡ came_before past item.now }
{
    match core.count(item.node()) {
        Ok(next) => item.number() < next,
        Err(_) => false,
    }
}

/// Accepts the item at the front of the bytes, unless it came before. Returns the bytes after it, or why it was not
/// accepted, with the word of that.
fn take_front<'a>(core: &mut Core, bytes: &'a [u8], word: &mut u64) -> Result<&'a [u8], u32>
    ensures answer { (past : List Step) → Represents core.old past → MatchResult result
        (λ rest. (item : AnItem) × ItemFits item × (bytes.now ≡ item_bytes item ++ rest.now)
        × Represents core.new (with_item item past))
        (λ code. IsStopped bytes.now past code word.new) }
    ensures shorter { IfOk result (λ rest. length rest.now < length bytes.now) }
    ensures unchanged { OnErr result (core.new ≡ core.old) }
{
    let (item, rest) = match item_ref_at(bytes) {
        Ok(found) => found,
        Err(fault) => {
            *word = fault.code() as u64;
            return Err(106);
        }
    };
    if came(core, &item) {
        return Ok(rest);
    }
    match core.accept_ref(&item) {
        Ok(_) => Ok(rest),
        Err(fault) => Err(refuse(&fault, word)),
    }
}

/// Accepts the items of a log in turn, and passes over those that came before, until one is refused. Returns 0, or the
/// answer for that one and its word; and how many items were taken or passed over, and how many bytes they have.
pub fn take_all(
    core: &mut Core,
    bytes: &[u8],
    used: &mut usize,
    count: &mut usize,
    word: &mut u64,
) -> u32
    ensures { (past : List Step) → Represents core.old past
        → AreTaken core.new bytes.now past result used.new count.new word.new }
{
    let mut rest = bytes;
    let mut taken = 0usize;
    while !rest.is_empty() {
        match take_front(core, rest, word) {
            Ok(after) => {
                rest = after;
                taken += 1;
            }
            Err(code) => {
                *used = bytes.len() - rest.len();
                *count = taken;
                return code;
            }
        }
    }
    *used = bytes.len();
    *count = taken;
    *word = 0;
    0
}
