//! What a read finds in a core that others may read too, without a copy.
ghost use Rattle.std.specs.{Prelude.◌≡◌, Prelude.ℕ, Prelude.List, Prelude.Option, Prelude.None, Ptr.null_ptr};
ghost use Rattle.hlc_core.specs.{Past.Step, Past.stamp_of, Past.writes, StoreView.Represents};
ghost use Rattle.hlc_handle.specs.Found.{Finds, FindsLent};

use crate::reader::LentCore;
use hlc_core::Core;
use std::marker::Model;

/// Where bytes of a core lie, and the right to read them for as long as the core is lent; or a null pointer. In
/// contracts it is the lifetime of the loan with the bytes, or none.
#[repr(C)]
#[derive(Drop)]
pub struct LentBytes {
    pub at: *const u8,
    pub ghost value: { Option (ℕ × List ℕ) },
}

impl Model for LentBytes {
    ghost use Rattle.hlc_handle.specs.Lent.{lent_bytes};

    ghost also_owns = { λ b. lent_bytes b.at b.value };
}

impl LentBytes {
    /// Returns no bytes, at a null pointer.
    pub fn none() -> LentBytes
        ensures { (result.at ≡ null_ptr) × (result.value ≡ None) }
    {
        LentBytes {
            at: std::ptr::null(),
        }
    }
}

/// Reads a key. Returns 0 with the value; or 102 where there is none, or 10, with no bytes.
fn find<'c>(core: &'c Core, id: u64, key: &[u8]) -> (u32, &'c [u8])
    ensures { (past : List Step) → Represents core.now past
        → Finds (stamp_of id past) (writes past) key.now result.0 result.1.now }
{
    match core.read(id, key) {
        Ok(Some(value)) => (0, value),
        Ok(None) => (102, &[]),
        Err(_) => (10, &[]),
    }
}

/// Reads a key as `find` does. Returns the answer, how many bytes were found, and the bytes, for the lifetime of the
/// loan.
pub fn find_lent(lent: &LentCore, id: u64, key: &[u8]) -> (u32, usize, LentBytes)
    ensures { (past : List Step) → Represents lent.now.value.1 past
        → FindsLent (stamp_of id past) (writes past) key.now lent.now.value.0
        result.0 result.1 result.2.value }
{
    let (code, found) = find(unsafe { &*lent.at }, id, key);
    (code, found.len(), LentBytes { at: found.as_ptr() })
}
