//! What a store has: its floor and horizon, its rows, its nodes and their links. No call takes memory.
ghost use Rattle.std.specs.Prelude.{◌≡◌, length, false};
ghost use Rattle.hlc_core.specs.Past.{floor, horizon, numbered};
ghost use Rattle.hlc_calls.specs.{Answers.ReturnsSizes, Answers.narrowed, Status.ReturnsLink, Status.ReturnsHolder};
ghost use Rattle.hlc_ffi.specs.Handle.{OnReader, OnReaderPast, IsGivenBack};

use crate::handle::of_core;
use hlc_calls::status;
use hlc_handle::Reader;

/// Returns 0 and the floor. It takes no memory.
#[unsafe(no_mangle)]
pub extern "C" fn hlc_store_floor(store: &mut Reader, stamp: &mut u64) -> u32
    ensures answer { OnReaderPast store.old.room.value ((result ≡ 100) × (stamp.new ≡ 0))
        (λ past. (result ≡ 0) × (stamp.new ≡ floor past)) }
    ensures same { IsGivenBack store.old.room store.new.room }
{
    of_core!(store, [stamp], |core| {
        *stamp = core.floor().bits();
        0
    })
}

/// Returns 0 and the horizon (GC threshold): the stamp of the last vacuum, or part of one, or 0 before the first.
#[unsafe(no_mangle)]
pub extern "C" fn hlc_store_horizon(store: &mut Reader, stamp: &mut u64) -> u32
    ensures answer { OnReaderPast store.old.room.value ((result ≡ 100) × (stamp.new ≡ 0))
        (λ past. (result ≡ 0) × (stamp.new ≡ horizon past)) }
    ensures same { IsGivenBack store.old.room store.new.room }
{
    of_core!(store, [stamp], |core| {
        *stamp = core.horizon().bits();
        0
    })
}

/// Returns 0 and the number of stored rows, or 2^64 - 1 where that is greater. It takes no memory.
#[unsafe(no_mangle)]
pub extern "C" fn hlc_store_rows(store: &mut Reader, rows: &mut u64) -> u32
    ensures answer { OnReader store.old.room.value ((result ≡ 100) × (rows.new ≡ 0))
        (λ core. (result ≡ 0) × (rows.new ≡ narrowed (length core.rows))) }
    ensures same { IsGivenBack store.old.room store.new.room }
{
    of_core!(store, [rows], |core| {
        *rows = status::rows(core);
        0
    })
}

/// Returns 0, in constant time, how many rows and keys are stored, the bytes of the keys, and those of all values.
#[unsafe(no_mangle)]
pub extern "C" fn hlc_store_size(
    store: &mut Reader,
    rows: &mut u64,
    keys: &mut u64,
    key_bytes: &mut u64,
    value_bytes: &mut u64,
) -> u32
    ensures answer { OnReader store.old.room.value ((result ≡ 100) × (rows.new ≡ 0)
        × (keys.new ≡ 0) × (key_bytes.new ≡ 0) × (value_bytes.new ≡ 0)) (λ core. (result ≡ 0)
        × ReturnsSizes core.rows rows.new keys.new key_bytes.new value_bytes.new) }
    ensures same { IsGivenBack store.old.room store.new.room }
{
    of_core!(store, [rows, keys, key_bytes, value_bytes], |core| {
        status::sizes(core, rows, keys, key_bytes, value_bytes);
        0
    })
}

/// Returns 0 and how many node numbers are assigned, those of retired nodes too.
#[unsafe(no_mangle)]
pub extern "C" fn hlc_store_nodes(store: &mut Reader, count: &mut u64) -> u32
    ensures answer { OnReaderPast store.old.room.value ((result ≡ 100) × (count.new ≡ 0))
        (λ past. (result ≡ 0) × (count.new ≡ numbered past)) }
    ensures same { IsGivenBack store.old.room store.new.room }
{
    of_core!(store, [count], |core| {
        *count = status::nodes(core);
        0
    })
}

/// Returns 0, the number of a node's next item, its head, and whether its retirement was accepted; or 1.
#[unsafe(no_mangle)]
pub extern "C" fn hlc_store_link(
    store: &mut Reader,
    node: u16,
    next: &mut u64,
    head: &mut u64,
    retired: &mut bool,
) -> u32
    ensures answer { OnReaderPast store.old.room.value ((result ≡ 100) × (next.new ≡ 0) × (head.new ≡ 0) × (retired.new
        ≡ false)) (λ past. ReturnsLink node past result next.new head.new retired.new) }
    ensures same { IsGivenBack store.old.room store.new.room }
{
    *next = 0;
    *head = 0;
    *retired = false;
    of_core!(store, |core| status::link(core, node, next, head, retired))
}

/// Returns 0 and the first node that holds the floor back: its head is the floor. Or 115: all nodes have retired.
#[unsafe(no_mangle)]
pub extern "C" fn hlc_store_floor_node(store: &mut Reader, node: &mut u64) -> u32
    ensures answer { OnReaderPast store.old.room.value ((result ≡ 100) × (node.new ≡ 0))
        (λ past. ReturnsHolder past result node.new) }
    ensures same { IsGivenBack store.old.room store.new.room }
{
    of_core!(store, [node], |core| status::floor_node(core, node))
}
