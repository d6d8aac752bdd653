//! Which store has a key by its hash; and the largest division, whose calls go through 1,024 stores.
use crate::items::{bytes, new_store};
use hlc_node::NodeCore;
use hlc_routing::{Division, Machine, PlacingFault, Ranges};
use hlc_rows::Stamp;
use std::process::Abort;
use std::test::*;
use test_support::makers::written;

/// Keys with their hashes by FNV-1a of 64 bits, as its authors publish them.
const HASHES: [(&[u8], u64); 5] = [
    (b"", 0xcbf2_9ce4_8422_2325),
    (b"a", 0xaf63_dc4c_8601_ec8c),
    (b"b", 0xaf63_df4c_8601_f1a5),
    (b"foobar", 0x8594_4171_f739_67e8),
    (b"\xff\0\0\x01", 0x6961_1964_91cc_682d),
];

/// Divides the keys over this many stores by their hash.
fn hashed<R: Abort>(rt: &R, stores: usize) -> Division {
    Division::by_hash(stores).expect(rt, "a division")
}

#[test]
fn a_hash_names_the_store_of_a_key(rt: HostRuntime) {
    for stores in [1usize, 2, 7, 64, 1000, 1024] {
        let division = hashed(&rt, stores);
        for (key, hash) in HASHES {
            assert!(&rt; division.store_of(key) == (hash % stores as u64) as usize);
        }
    }
    assert!(&rt; Division::by_hash(0).is_none() && Division::by_hash(1025).is_none());
}

/// Returns as many stores as there may be, and a machine with a node in each.
fn most_stores<H: Abort + AllocGlobal>(rt: &H) -> (Ranges, Machine) {
    let (mut stores, mut nodes) = (Vec::new(rt.alloc()), Vec::new(rt.alloc()));
    for _ in 0..1024 {
        assert!(rt; stores.push(new_store(rt)).is_ok());
        assert!(rt; nodes.push(NodeCore::new(0, Stamp::ZERO)).is_ok());
    }
    let ranges = Ranges::of(hashed(rt, 1024), stores).expect(rt, "stores");
    (ranges, Machine::of(Stamp::ZERO, nodes))
}

/// Lets the machine write these keys, and report to each store.
fn fills<H: Abort + AllocGlobal>(
    rt: &H,
    ranges: &mut Ranges,
    machine: &mut Machine,
    keys: [&[u8]; 3],
) {
    for key in keys {
        let made = machine.write(ranges.division(), 5, bytes(rt, key), Some(bytes(rt, key)));
        let (store, item) = made.ok().expect(rt, "an item");
        assert!(rt; ranges.accept(store, item).is_ok());
    }
    let items = machine.report_all(rt.alloc(), 6).ok().expect(rt, "reports");
    for (store, item) in items.into_iter().enumerate() {
        assert!(rt; ranges.accept(store, item).is_ok());
    }
}

#[test]
fn a_cut_of_1024_stores_is_read(rt: HostRuntime) {
    let alloc = rt.alloc();
    let (mut ranges, mut machine) = most_stores(&rt);
    fills(&rt, &mut ranges, &mut machine, [b"b", b"foobar", b"a"]);
    let snapshot = ranges.open_cut(alloc).ok().expect(&rt, "a snapshot");
    assert!(&rt; snapshot.ids().len() == 1024);
    let pairs = ranges.list_at(alloc, &snapshot, b"", None).ok();
    let pairs = pairs.expect(&rt, "pairs");
    assert!(&rt; pairs.as_slice().len() == 3);
    for (pair, key) in pairs
        .as_slice()
        .iter()
        .zip([b"a".as_slice(), b"b", b"foobar"])
    {
        assert!(&rt; pair.key.as_slice() == key);
    }
    assert!(&rt; ranges.close_all(&snapshot).is_ok());
}

/// A store with a row is taken: `checked` may refuse for memory at any time, so no clause says that it does not.
#[test]
fn a_store_of_its_own_keys_is_taken(rt: HostRuntime) {
    let mut core = new_store(&rt);
    assert!(&rt; core.accept_ref(&written(0, b"a", None)).is_ok());
    let stores = vec![in rt.alloc(); core].ok().expect(&rt, "memory");
    assert!(&rt; Ranges::checked(rt.alloc(), hashed(&rt, 1), stores).is_ok());
}

/// Checks the number of a refusal, and how it is printed.
fn is_printed<H: Abort + AllocGlobal>(rt: &H, fault: &PlacingFault, code: u32, text: &str) {
    let printed = format!(in rt.alloc(); "{fault}").expect(rt, "memory");
    assert_eq!(rt; printed.as_str(), text);
    assert!(rt; fault.code() == code);
}

#[test]
fn texts_of_refused_stores(rt: HostRuntime) {
    let key = PlacingFault::Key(1, bytes(&rt, b"a"));
    is_printed(
        &rt,
        &PlacingFault::Number,
        123,
        "the division has more or fewer stores",
    );
    is_printed(
        &rt,
        &key,
        121,
        "a store has a key that belongs to another store",
    );
    is_printed(&rt, &PlacingFault::NoMemory, 15, "out of memory");
}
