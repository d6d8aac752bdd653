//! The calls that open, close and list snapshots.
ghost use Rattle.std.specs.Prelude.{◌≡◌, ◌≢◌, slice_get};
ghost use Rattle.hlc_core.specs.{Past.closed_all, Past.open_snapshots, StoreView.Represents};
ghost use Rattle.hlc_calls.specs.Answers.{ReturnsOpened, ReturnsOpenedAtFloor, ReturnsClosed};
ghost use Rattle.hlc_calls.specs.Status.{ReturnsSnapshot};
ghost use Rattle.hlc_ffi.specs.Handle.{OnStorePast, OnReaderPast, IsGivenBack};

use crate::handle::{of_core, on_core};
use hlc_calls::snapshots::{close, open, open_floor, snapshot};
use hlc_core::Stamp;
use hlc_handle::{Reader, Slot, Store};
use std::alloc::Global;

/// Opens a snapshot at a stamp. Returns 0 and its id, or a refusal and its word.
#[unsafe(no_mangle)]
pub extern "C" fn hlc_snapshot_open(
    alloc: Global,
    store: &mut Store,
    stamp: u64,
    id: &mut u64,
) -> u32
    ensures answer { OnStorePast store.old.value store.new.value ((result ≡ 100) × (id.new ≡ 0))
        (λ old new past. ReturnsOpened new stamp past result id.new × (new.rows ≡ old.rows)) }
    ensures unchanged { result ≢ 0 → store.new.value ≡ store.old.value }
{
    on_core!(alloc, store, [id], |core| {
        open(core, Stamp::from_bits(stamp), id)
    })
}

/// Opens a snapshot at the floor (closed timestamp). Returns 0, its id and its stamp, or a refusal.
#[unsafe(no_mangle)]
pub extern "C" fn hlc_snapshot_open_at_floor(
    alloc: Global,
    store: &mut Store,
    id: &mut u64,
    stamp: &mut u64,
) -> u32
    ensures answer { OnStorePast store.old.value store.new.value ((result ≡ 100) × (id.new ≡ 0) × (stamp.new ≡ 0))
        (λ old new past. ReturnsOpenedAtFloor new past result id.new stamp.new × (new.rows ≡ old.rows)) }
    ensures nothing { result ≢ 0 → stamp.new ≡ 0 }
    ensures unchanged { result ≢ 0 → store.new.value ≡ store.old.value }
{
    *id = 0;
    *stamp = 0;
    on_core!(alloc, store, |core| open_floor(core, id, stamp))
}

/// Closes a snapshot. Returns 0 and its stamp, or 10. It takes no memory.
#[unsafe(no_mangle)]
pub extern "C" fn hlc_snapshot_close(
    alloc: Global,
    store: &mut Store,
    id: u64,
    stamp: &mut u64,
) -> u32
    ensures answer { OnStorePast store.old.value store.new.value ((result ≡ 100) × (stamp.new ≡ 0))
        (λ old new past. ReturnsClosed new id past result stamp.new × (new.rows ≡ old.rows)) }
    ensures unchanged { result ≢ 0 → store.new.value ≡ store.old.value }
{
    on_core!(alloc, store, [stamp], |core| close(core, id, stamp))
}

/// Closes all open snapshots. Returns 0. It takes no memory.
#[unsafe(no_mangle)]
pub extern "C" fn hlc_snapshot_close_all(alloc: Global, store: &mut Store) -> u32
    ensures { OnStorePast store.old.value store.new.value (result ≡ 100)
        (λ old new past. (result ≡ 0) × Represents new (closed_all old.snapshots past)) }
{
    on_core!(alloc, store, |core| {
        core.close_all();
        0
    })
}

/// Returns 0, the id and the stamp of the open snapshot at a place, by rising ids; or 117 after the last.
#[unsafe(no_mangle)]
pub extern "C" fn hlc_snapshot_at_place(
    store: &mut Reader,
    place: u64,
    id: &mut u64,
    stamp: &mut u64,
) -> u32
    ensures answer { OnReaderPast store.old.room.value ((result ≡ 100) × (id.new ≡ 0) × (stamp.new ≡ 0)) (λ past.
        ReturnsSnapshot (slice_get (open_snapshots past) place) result id.new stamp.new) }
    ensures same { IsGivenBack store.old.room store.new.room }
{
    of_core!(store, [id, stamp], |core| snapshot(core, place, id, stamp))
}
