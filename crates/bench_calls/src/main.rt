//! Calls, timed: reads of a shared store by several threads; looks at a floor (closed timestamp), on a board and under
//! a lock; deliveries to a store which many nodes joined, and left; and writes and reads of one store in one thread.
#![tactic(auto)]

mod alone;
mod desk;
mod posts;
mod seat;

use desk::{LOOKS, Work, time_in_store};
use hlc_core::{Body, Bytes, Core, Item, Stamp};
use seat::CALLS;
use std::alloc::{AllocError, Global};
use std::marker::Brand;
use std::rt::Clock;
use std::sync::ledger::Blank;
use std::sync::{Mutex, Wait};
use std::thread::Threads;
use std::time::Instant;
use std::{env, io};

/// How many nodes there are, except where nodes join and retire, and where one node writes alone.
pub(crate) const NODES: u16 = 64;

/// Returns the item of this number of a node.
pub(crate) fn item(node: u16, number: u32, body: Body) -> Item {
    Item {
        node,
        number: u64::from(number),
        stamp: Stamp::from_bits((u64::from(number) + 1) * 65_536),
        body,
    }
}

/// Returns a copy of some bytes.
pub(crate) fn bytes(alloc: Global, bytes: &[u8]) -> Result<Bytes, AllocError> {
    Ok(Bytes::from_slice(alloc, bytes)?)
}

/// Returns the write of this number of the first node.
pub(crate) fn write(
    alloc: Global,
    number: u32,
    key: &[u8],
    value: &[u8],
) -> Result<Item, AllocError> {
    let key = bytes(alloc, key)?;
    let value = Some(bytes(alloc, value)?);
    Ok(item(0, number, Body::Write { key, value }))
}

/// Returns the nanoseconds since the start; 0 where the clock fails.
pub(crate) fn nanos<R: Clock>(rt: &R, start: Instant) -> u64 {
    match start.elapsed(rt) {
        Ok(took) => u64::try_from(took.as_nanos()).unwrap_or(0),
        Err(_) => 0,
    }
}

/// Prints numbers, each after its name, and then a word.
pub(crate) fn report(rt: &HostRuntime, numbers: &[(&str, u64)], last: &str) -> io::Result<()> {
    for one in numbers {
        print!(rt; "{}{}", one.0, one.1)?;
    }
    println!(rt; "{last}")
}

/// Returns the word at a place; the program's name is at 0.
fn word(rt: &HostRuntime, place: usize) -> Option<String> {
    env::args(rt).ok()?.nth(place)
}

/// Returns the text of a word, empty where there is no such word.
fn text(word: &Option<String>) -> &str {
    match word {
        Some(word) => word.as_str(),
        None => "",
    }
}

/// Returns the number of threads or nodes that a word names, if it is one that is measured, and otherwise this number.
fn number_in(word: &str, none: u16) -> u16 {
    match word {
        "2" => 2,
        "3" => 3,
        "4" => 4,
        "64" => 64,
        "960" => 960,
        "1024" => 1_024,
        _ => none,
    }
}

/// Times what this many threads do concurrently.
fn time_threads<R: Threads + Wait + Sync + Clock>(
    host: &HostRuntime,
    rt: &R,
    start: Instant,
    lock: &Mutex<Core>,
    work: Work,
    threads: u16,
    trail: bool,
) -> io::Result<()> {
    let threads = threads.min(4);
    let blank = Blank::new(u64::from(threads) + 1);
    let (took, raises) = time_in_store::<Brand, _>(
        rt,
        host.alloc(),
        start,
        blank,
        lock,
        work,
        threads,
        trail,
    );
    let place = match work {
        Work::Read => return print_reads(host, threads, trail, took / 1_000),
        Work::Board => "board readers ",
        Work::Shared => "shared readers ",
        Work::Lock => "lock readers ",
    };
    let looked = [
        (place, u64::from(threads)),
        (" looks ", LOOKS),
        (" nanos ", took),
        (" raises ", raises),
    ];
    report(host, &looked, "")
}

/// Prints what reads of a shared store took.
fn print_reads(host: &HostRuntime, threads: u16, trail: bool, micros: u64) -> io::Result<()> {
    let calls = if trail {
        " trail true calls "
    } else {
        " trail false calls "
    };
    let read = [
        ("threads ", u64::from(threads)),
        (calls, CALLS),
        (" micros ", micros),
    ];
    report(host, &read, "")
}

/// Times what the words ask for, which may concern a core that a lock protects.
fn time<R: Threads + Wait + Sync + Clock>(
    host: &HostRuntime,
    rt: &R,
    start: Instant,
    lock: &Mutex<Core>,
    words: [&str; 3],
) -> io::Result<()> {
    let work = match words[0] {
        "" => return Ok(()),
        "core" => return alone::time_calls(host, start, &mut lock.lock(rt)),
        "nodes" => {
            let (nodes, has_retired) = (number_in(words[1], 0), number_in(words[2], 0));
            return alone::time_deliveries(host, start, &mut lock.lock(rt), nodes, has_retired);
        }
        "board" => Work::Board,
        "shared" => Work::Shared,
        "lock" => Work::Lock,
        threads => {
            let threads = number_in(threads, 1);
            return time_threads(host, rt, start, lock, Work::Read, threads, words[1] == "on");
        }
    };
    time_threads(host, rt, start, lock, work, number_in(words[1], 1), false)
}

/// Makes a core of as many nodes as the words ask for, and times.
fn time_with_core<R: Threads + Wait + Sync + Clock>(
    host: &HostRuntime,
    rt: &R,
    start: Instant,
    words: [&str; 3],
) -> io::Result<()> {
    let nodes = match words[0] {
        "core" => 1,
        "nodes" => number_in(words[1], 0).min(NODES),
        _ => NODES,
    };
    match Core::new(host.alloc(), nodes) {
        Ok(core) => time(host, rt, start, &Mutex::new(core), words),
        Err(_) => Ok(()),
    }
}

/// `core` times writes and reads of one store in one thread. `nodes`, how many numbers were assigned and how many of
/// those nodes retired, times deliveries to such a store. `board`, `shared` or `lock` and a number of readers times
/// their looks at a floor there. A number of threads times the reads of that many, with a trail where the second word
/// is `on`. With no word nothing is timed. Where memory runs out, nanoseconds are 0.
fn main(rt: HostRuntime) -> io::Result<()> {
    let start = Instant::now(&rt)?;
    let (first, second, third) = (word(&rt, 1), word(&rt, 2), word(&rt, 3));
    time_with_core(&rt, &rt, start, [text(&first), text(&second), text(&third)])
}
