//! A store of many rows.
use crate::lines::next_number;
use hlc_core::{Body, Bytes, Core, Item, Stamp};
use hlc_text::words::LineWords;
use std::alloc::Global;

/// How many rows each key has.
const VERSIONS: u64 = 4;

/// Feeds a store of one node this many rows with values of this many bytes. From one row to the next the key advances
/// by this step, in a circle; with step 0 the rows of a key come one after the other.
pub(crate) fn fill(rt: &HostRuntime, core: &mut Core, words: &mut LineWords<'_>) -> Option<()> {
    let rows = next_number(words);
    let size = next_number(words) as usize;
    let step = next_number(words);
    let alloc = rt.alloc();
    let keys = (rows / VERSIONS).max(1);
    for at in 0..rows {
        let key = match step {
            0 => at / VERSIONS,
            _ => at.wrapping_mul(step) % keys,
        };
        let item = item_at(alloc, at, key, size)?;
        drop(core.accept(item));
    }
    Some(())
}

/// Returns the write of this number, to the key of this number.
fn item_at(alloc: Global, at: u64, key: u64, size: usize) -> Option<Item> {
    let key = Bytes::from_slice(alloc, &key.to_be_bytes()).ok()?;
    let value = Some(Bytes::from_vec(vec![in alloc; b'v'; size].ok()?));
    Some(Item {
        node: 0,
        number: at,
        stamp: Stamp::from_bits(at.wrapping_add(1)),
        body: Body::Write { key, value },
    })
}
