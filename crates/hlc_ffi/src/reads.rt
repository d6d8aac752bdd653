//! The calls that read and list the rows of a store. No call takes memory.
ghost use Rattle.std.specs.Prelude.{◌≡◌, ◌≢◌, true, false};
ghost use Rattle.hlc_core.specs.Past.{stamp_of, writes};
ghost use Rattle.hlc_calls.specs.{Answers.ReturnsRead, ReadAll.ReturnsAll, Digest.ReturnsDigest};
ghost use Rattle.hlc_range_calls.specs.{Listing.ReturnsListing, Changes.ReturnsChanges, Versions.ReturnsVersions};
ghost use Rattle.hlc_handle_calls.specs.Views.{IsNowhere, ReturnsView};
ghost use Rattle.hlc_range_calls.specs.Scan.{ReturnsScan, ReturnsScanBack, ReturnsCount};
ghost use Rattle.hlc_ffi.specs.Handle.{OnReader, OnReaderPast, OnLoanPast, ListsNothing, IsGivenBack};

use crate::handle::of_core;
use hlc_calls::digest::digest;
use hlc_calls::reads::{Place, read, read_all};
use hlc_handle::{LentBytes, Reader};
use hlc_handle_calls::views::view;
use hlc_range_calls::changes::changes;
use hlc_range_calls::list::list;
use hlc_range_calls::scan::scan;
use hlc_range_calls::scan_back::scan_back;
use hlc_range_calls::versions::versions;

/// Reads a key in a snapshot. Returns 0, the value's length and, where it fits, the value; 102 for none; or 10.
#[unsafe(no_mangle)]
pub extern "C" fn hlc_snapshot_read(
    store: &mut Reader,
    id: u64,
    key: &[u8],
    out: &mut [u8],
    len: &mut usize,
) -> u32
    ensures answer { OnReaderPast store.old.room.value ((result ≡ 100) × (len.new ≡ 0) × (out.new ≡ out.old))
        (λ past. ReturnsRead (stamp_of id past) (writes past) key.now result len.new out.old out.new) }
    ensures same { IsGivenBack store.old.room store.new.room }
{
    of_core!(store, [len], |core| read(core, id, key, out, len))
}

/// Reads a key as `hlc_snapshot_read` does, without a copy. Returns 0, the value's length, and where the value lies for
/// as long as the store is lent; or 102 for none, or 10, with a null pointer.
#[unsafe(no_mangle)]
pub extern "C" fn hlc_snapshot_view(
    store: &mut Reader,
    id: u64,
    key: &[u8],
    value: &mut LentBytes,
    len: &mut usize,
) -> u32
    ensures answer { OnLoanPast store.old.room.value ((result ≡ 100) × IsNowhere len.new value.new)
        (λ loan past. ReturnsView (stamp_of id past) (writes past) key.now loan result len.new value.new) }
    ensures same { IsGivenBack store.old.room store.new.room }
{
    *len = 0;
    *value = LentBytes::none();
    match store.take() {
        None => 100,
        Some(lent) => {
            let code = view(&lent, id, key, value, len);
            store.put(lent);
            code
        }
    }
}

/// Reads keys in a snapshot in turn, each at a place among the bytes, and writes for each a byte 0, or 1 and the value
/// after its length of eight bytes. Returns 0; or 103 where the bytes do not have the next key, or 104 where its answer
/// does not fit; with the length and the number of the answers before it; or 10.
#[unsafe(no_mangle)]
pub extern "C" fn hlc_snapshot_read_all(
    store: &mut Reader,
    id: u64,
    places: &[Place],
    bytes: &[u8],
    out: &mut [u8],
    len: &mut usize,
    count: &mut usize,
) -> u32
    ensures answer { OnReaderPast store.old.room.value
        (ListsNothing result len.new count.new out.old out.new) (λ past. ReturnsAll
        (stamp_of id past) (writes past) places.now bytes.now result len.new count.new out.old out.new) }
    ensures same { IsGivenBack store.old.room store.new.room }
{
    of_core!(store, [len, count], |core| {
        read_all(core, id, places, bytes, out, len, count)
    })
}

/// Lists the keys with a value in a snapshot, in byte order. Returns 0, how many bytes the listing has and, where they
/// fit, the bytes: of each key its length in eight bytes, the key, and the same of its value; or 10.
#[unsafe(no_mangle)]
pub extern "C" fn hlc_snapshot_list(
    store: &mut Reader,
    id: u64,
    out: &mut [u8],
    len: &mut usize,
) -> u32
    ensures answer { OnReaderPast store.old.room.value ((result ≡ 100) × (len.new ≡ 0) × (out.new ≡ out.old))
        (λ past. ReturnsListing (stamp_of id past) (writes past) result len.new out.old out.new) }
    ensures nothing { result ≢ 0 → (len.new ≡ 0) × (out.new ≡ out.old) }
    ensures same { IsGivenBack store.old.room store.new.room }
{
    of_core!(store, [len], |core| list(core, id, out, len))
}

/// Lists keys from one on and below another, if that has bytes, as `hlc_snapshot_list`, but only as many whole pairs as
/// fit. Returns 0, or 104 where a pair is left, with the length and the number of the pairs; or 10.
#[unsafe(no_mangle)]
pub extern "C" fn hlc_snapshot_scan(
    store: &mut Reader,
    id: u64,
    from: &[u8],
    to: &[u8],
    out: &mut [u8],
    len: &mut usize,
    count: &mut usize,
) -> u32
    ensures answer { OnReaderPast store.old.room.value
        (ListsNothing result len.new count.new out.old out.new) (λ past. ReturnsScan false
        (stamp_of id past) (writes past) from.now to.now result len.new count.new out.old out.new) }
    ensures same { IsGivenBack store.old.room store.new.room }
{
    of_core!(store, [len, count], |core| {
        scan(core, id, from, to, false, out, len, count)
    })
}

/// Lists such a range as `hlc_snapshot_scan` does, but the keys alone: for each its length, and the key.
#[unsafe(no_mangle)]
pub extern "C" fn hlc_snapshot_scan_keys(
    store: &mut Reader,
    id: u64,
    from: &[u8],
    to: &[u8],
    out: &mut [u8],
    len: &mut usize,
    count: &mut usize,
) -> u32
    ensures answer { OnReaderPast store.old.room.value
        (ListsNothing result len.new count.new out.old out.new) (λ past. ReturnsScan true
        (stamp_of id past) (writes past) from.now to.now result len.new count.new out.old out.new) }
    ensures same { IsGivenBack store.old.room store.new.room }
{
    *len = 0;
    *count = 0;
    of_core!(
        store,
        |core| scan(core, id, from, to, true, out, len, count)
    )
}

/// Lists such a range as `hlc_snapshot_scan` does, but the last key first, and as many whole pairs as fit from the end:
/// the next call has the last key that was returned as its `to`.
#[unsafe(no_mangle)]
pub extern "C" fn hlc_snapshot_scan_back(
    store: &mut Reader,
    id: u64,
    from: &[u8],
    to: &[u8],
    out: &mut [u8],
    len: &mut usize,
    count: &mut usize,
) -> u32
    ensures answer { OnReaderPast store.old.room.value
        (ListsNothing result len.new count.new out.old out.new) (λ past. ReturnsScanBack
        (stamp_of id past) (writes past) from.now to.now result len.new count.new out.old out.new) }
    ensures same { IsGivenBack store.old.room store.new.room }
{
    of_core!(store, [len, count], |core| {
        scan_back(core, id, from, to, out, len, count)
    })
}

/// Lists the keys of such a range whose answers in two snapshots differ: for each its length in eight bytes, the key,
/// and its answer in the second, a byte 0, or 1 and the value after its length. As many whole ones as fit: returns 0 or
/// 104, the length and the number of them; or 10.
#[unsafe(no_mangle)]
pub extern "C" fn hlc_snapshot_changes(
    store: &mut Reader,
    before: u64,
    after: u64,
    from: &[u8],
    to: &[u8],
    out: &mut [u8],
    len: &mut usize,
    count: &mut usize,
) -> u32
    ensures answer { OnReaderPast store.old.room.value (ListsNothing result len.new count.new out.old out.new)
        (λ past. ReturnsChanges (stamp_of before past) (stamp_of after past) (writes past)
        from.now to.now result len.new count.new out.old out.new) }
    ensures same { IsGivenBack store.old.room store.new.room }
{
    of_core!(store, [len, count], |core| {
        changes(core, before, after, from, to, out, len, count)
    })
}

/// Returns 0 and how many keys of such a range have a value in a snapshot, 2^64 - 1 for more; or 10.
#[unsafe(no_mangle)]
pub extern "C" fn hlc_snapshot_count(
    store: &mut Reader,
    id: u64,
    from: &[u8],
    to: &[u8],
    count: &mut u64,
) -> u32
    ensures answer { OnReaderPast store.old.room.value ((result ≡ 100) × (count.new ≡ 0))
        (λ past. ReturnsCount (stamp_of id past) (writes past) from.now to.now result count.new) }
    ensures same { IsGivenBack store.old.room store.new.room }
{
    of_core!(store, [count], |core| {
        hlc_range_calls::scan::count(core, id, from, to, count)
    })
}

/// Returns 0, 32 and, where it fits, the SHA-256 of what `hlc_snapshot_list` would return for such a range; or 10.
#[unsafe(no_mangle)]
pub extern "C" fn hlc_snapshot_digest(
    store: &mut Reader,
    id: u64,
    from: &[u8],
    to: &[u8],
    out: &mut [u8],
    len: &mut usize,
) -> u32
    ensures answer { OnReaderPast store.old.room.value ((result ≡ 100) × (len.new ≡ 0) × (out.new ≡ out.old))
        (λ past. ReturnsDigest (stamp_of id past) (writes past) from.now to.now result len.new out.old out.new) }
    ensures same { IsGivenBack store.old.room store.new.room }
{
    of_core!(store, [len], |core| digest(core, id, from, to, out, len))
}

/// Lists the stored rows of a key above one stamp and at or below another, the newest first: for each its stamp in
/// eight bytes, its node in two, and its answer as `hlc_snapshot_changes`. Returns 0, their bytes, their number and,
/// where all fit, the bytes.
#[unsafe(no_mangle)]
pub extern "C" fn hlc_store_versions(
    store: &mut Reader,
    key: &[u8],
    above: u64,
    to: u64,
    out: &mut [u8],
    len: &mut usize,
    count: &mut usize,
) -> u32
    ensures answer { OnReader store.old.room.value (ListsNothing result len.new count.new out.old out.new) (λ core.
        ReturnsVersions core key.now above to result len.new count.new out.old out.new) }
    ensures same { IsGivenBack store.old.room store.new.room }
{
    of_core!(store, [len, count], |core| {
        versions(core, key, above, to, out, len, count)
    })
}
