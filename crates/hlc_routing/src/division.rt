//! Which store has a key.
ghost use Rattle.std.specs.Prelude.{◌≡◌, ◌<◌, ◌≤◌, ◌↔◌, ◌⊎◌, IsTrue, IfSome, IfNone, length};
ghost use Rattle.std.specs.{Ordering.is_lt, Ordering.nat_cmp, Cmp.Lexicographic.slice_cmp};
ghost use Rattle.hlc_routing.specs.Division.{ByKeys, ByHash, AreAscending, AreOfStore, IsDivision, stores_of, store_of};
ghost use Rattle.hlc_routing.specs.Division.{store_between, hash_after};
ghost use Rattle.hlc_routing.specs.declared.division.TheConstants.{MAX_STORES, HASH_START, HASH_PRIME};

use hlc_node::{Bytes, Write};
use hlc_values::Listed;
use std::marker::Model;

/// The maximum number of stores of a division.
pub const MAX_STORES: usize = 1024;

// The offset basis and the prime of FNV-1a of 64 bits.
pub(crate) const HASH_START: u64 = 0xcbf2_9ce4_8422_2325;

pub(crate) const HASH_PRIME: u64 = 0x0000_0100_0000_01b3;

/// A division has at most 1,024 stores.
pub fn max_stores_are_1024()
    ensures { MAX_STORES ≡ 1024 }
{}

/// The hash has the offset basis and the prime of FNV-1a of 64 bits, as in each other language. With others, keys would
/// be looked for in other stores than they were written to.
pub fn the_hash_is_fnv_1a()
    ensures start { HASH_START ≡ 14695981039346656037 }
    ensures prime { HASH_PRIME ≡ 1099511628211 }
{}

/// A division of the keys over 1 to 1,024 stores, which are numbered from 0: by ranges, or by a hash.
///
/// Ranges keep neighbouring keys in one store, so that a listing goes through few stores. A hash spreads the keys
/// evenly, for stores that exist only so that threads use different locks.
#[derive(Debug, Drop)]
pub struct Division {
    kind: Kind,
}

/// How the keys are divided.
#[derive(Debug, Drop)]
pub(crate) enum Kind {
    Keys(Listed<Bytes>),
    Hash(usize),
}

impl Model for Division {
    ghost use Rattle.hlc_routing.specs.Division.{DivisionView, IsDivision, division_of};

    ghost Value = { DivisionView };

    ghost view = { λ division. division_of division.kind };

    ghost invariant = { λ division. IsDivision (division_of division.kind) };
}

impl Division {
    /// Divides the keys at ascending boundaries: the first store has the keys below the first boundary, each other
    /// store those from a boundary on, up to the next. With no boundary there is one store.
    ///
    /// Returns none if a boundary is not above the one before it, or if there are 1,024 or more.
    pub fn by_keys(boundaries: Vec<Bytes>) -> Option<Division>
        ensures ok { IfSome result (λ division. (division ≡ ByKeys boundaries.items) × AreAscending boundaries.items) }
        ensures none { IfNone result ((AreAscending boundaries.items → ⊥) ⊎ (MAX_STORES ≤ length boundaries.items)) }
    {
        if boundaries.len() >= MAX_STORES || !do_ascend(boundaries.as_slice()) {
            return None;
        }
        Some(Division {
            kind: Kind::Keys(Listed::from_vec(boundaries)),
        })
    }

    /// Divides the keys over this many stores by their hash: FNV-1a of 64 bits, modulo the number of stores. Returns
    /// none if there are no stores, or more than 1,024.
    pub fn by_hash(stores: usize) -> Option<Division>
        ensures ok { IfSome result (λ division. division ≡ ByHash stores) }
        ensures none { IfNone result ((stores ≡ 0) ⊎ (MAX_STORES < stores)) }
    {
        if stores == 0 || stores > MAX_STORES {
            return None;
        }
        Some(Division {
            kind: Kind::Hash(stores),
        })
    }

    /// Returns the number of stores.
    pub fn stores(&self) -> usize
        ensures value { result ≡ stores_of self.now }
        ensures bounds { IsDivision self.now }
    {
        match &self.kind {
            Kind::Keys(boundaries) => boundaries.len() + 1,
            Kind::Hash(stores) => *stores,
        }
    }

    /// Returns the store of a key, which may be any bytes.
    pub fn store_of(&self, key: &[u8]) -> usize
        ensures value { result ≡ store_of self.now key.now }
        ensures inside { result < stores_of self.now }
    {
        match &self.kind {
            Kind::Keys(boundaries) => store_between(boundaries.as_slice(), key),
            Kind::Hash(stores) => (hash(key) % *stores as u64) as usize,
        }
    }
}

/// Returns whether each of the writes has its key in this store.
pub(crate) fn are_of_store(division: &Division, store: usize, writes: &[Write]) -> bool
    ensures { IsTrue result ↔ AreOfStore division.now store writes.now }
{
    writes
        .iter()
        .all(|write| division.store_of(write.key.as_slice()) == store)
}

/// Returns whether each boundary is below the next.
fn do_ascend(boundaries: &[Bytes]) -> bool
    ensures { IsTrue result ↔ AreAscending boundaries.now }
{
    for i in 1..boundaries.len() {
        if !is_below(boundaries[i - 1].as_slice(), boundaries[i].as_slice()) {
            return false;
        }
    }
    true
}

/// Returns how many boundaries in turn are at or below the key, up to the first above it.
fn store_between(boundaries: &[Bytes], key: &[u8]) -> usize
    ensures value { result ≡ store_between boundaries.now key.now }
    ensures inside { result ≤ length boundaries.now }
{
    let mut store = 0;
    for boundary in boundaries {
        if is_below(key, boundary.as_slice()) {
            return store;
        }
        store += 1;
    }
    store
}

/// Returns whether a key is below another, byte by byte.
fn is_below(a: &[u8], b: &[u8]) -> bool
    ensures { result ≡ is_lt (slice_cmp nat_cmp a.now b.now) }
{
    a.cmp(b).is_lt()
}

/// Returns the hash of a key.
fn hash(key: &[u8]) -> u64
    ensures { result ≡ hash_after HASH_START key.now }
{
    let mut hash = HASH_START;
    for byte in key {
        hash = (hash ^ u64::from(*byte)).wrapping_mul(HASH_PRIME);
    }
    hash
}
