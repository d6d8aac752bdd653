//! The small callers in the READMEs of `hlc_bytes` and `hlc_table_index`.
ghost use Rattle.std.specs.Prelude.{◌≡◌, ◌≤◌, length, false, IsSome, IfOk, IfSome};
ghost use Rattle.hlc_table_index.specs.Entries.{entries_in};

use hlc_bytes::Bytes;
use hlc_table_index::Index;
use std::alloc::{AllocFailed, Global};

/// Copies a key that is stored in place, and so needs no memory.
pub(crate) fn short_copy(alloc: Global, key: &[u8]) -> Option<Bytes>
    ensures short { length key.now ≤ 30 → IsSome result }
    ensures copied { IfSome result (λ copy. copy ≡ key.now) }
{
    Bytes::from_slice(alloc, key).ok()
}

/// Adds an entry, if the index has none of its key yet, and returns whether it did.
pub(crate) fn add_new(
    index: &mut Index<u64>,
    key: Bytes,
    value: u64,
) -> Result<bool, AllocFailed<(Bytes, u64)>>
    ensures known { IfOk result (λ added. added ≡ false → entries_in index.new ≡ entries_in index.old) }
{
    match index.locate(key.as_slice()) {
        Ok(_) => Ok(false),
        Err((at, slot)) => {
            index.insert_at(at, slot, key, value)?;
            Ok(true)
        }
    }
}
