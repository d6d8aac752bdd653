//! Calls that take no memory, made while the next request would be refused.
use crate::events::{item_of, row_of};
use crate::host::Host;
use crate::play::say_quiet;
use crate::refusing::refuse;
use hlc_clock::{Clock, Stamp};
use hlc_core::{Bytes, Witness};
use hlc_floor::Board;
use hlc_heads::Heads;
use hlc_intake::Intake;
use hlc_lanes::{count_at, greatest_node, newest_at, place_of};
use hlc_link::link;
use hlc_node::{Message, NodeCore};
use hlc_table_column::Column;
use hlc_text::words::LineWords;
use hlc_witness::check;
use hlc_words::read_words;
use std::alloc::{AllocError, Global};
use std::sync::Wait;

/// Makes the calls of this name, and prints whether one requested memory, and their answers.
pub(crate) fn answer<R: Wait>(host: &Host<'_, R>, name: &str) {
    let rt = host.rt;
    let _ = match name {
        "clock" => clock(rt),
        "node" => node(rt),
        "intake" => intake(rt),
        "link" => pass_item(host),
        "heads" => heads(rt),
        "board" => board(rt),
        "kernels" => kernels(rt),
        "column" => column(rt),
        "witness" => witness(rt),
        "words" => words(rt),
        _ => None,
    };
}

/// Makes a tick, a receipt and a reading that is too large on a clock; and the parts of a stamp.
fn clock(rt: &HostRuntime) -> Option<()> {
    refuse(rt, 1);
    let mut clock = Clock::starting_at(Stamp::from_bits(0));
    let ticked = clock.tick(5);
    let received = clock.receive(Stamp::from_bits(7 * 65_536), 6);
    let refused = clock.tick(u64::MAX);
    let now = (clock.now().l(), clock.now().c(), Stamp::new(9, 1));
    say_quiet(rt, "clock", &(ticked, received, refused, now))
}

/// Makes the six events of a node, and one more, after it retired.
fn node(rt: &HostRuntime) -> Option<()> {
    let (from, stamp) = (1, Stamp::from_bits(4 * 65_536));
    let key = Bytes::from_slice(rt.alloc(), b"a").ok()?;
    refuse(rt, 1);
    let mut node = NodeCore::new(0, Stamp::from_bits(0));
    let written = node.write(1, key, None);
    let reported = node.report(2);
    let sent = node.send(3);
    let received = node.receive(&Message { from, stamp }, 3);
    let observed = node.observe(Stamp::from_bits(5 * 65_536), 3);
    let items = (written, [reported, node.retire(6), node.report(7)]);
    let represents = (node.now(), node.next(), node.is_retired());
    say_quiet(rt, "node", &(items, sent, received, observed, represents))
}

/// Admits an item twice to an intake, and then the last one.
fn intake(rt: &HostRuntime) -> Option<()> {
    refuse(rt, 1);
    let mut intake = Intake::new();
    let first = intake.admit(0, Stamp::from_bits(5), false);
    let again = intake.admit(0, Stamp::from_bits(5), false);
    let last = intake.admit(1, Stamp::from_bits(6), true);
    let represents = (intake.next(), intake.head(), intake.retired());
    say_quiet(rt, "intake", &(first, again, last, represents))
}

/// Sends an item and the end through a link, and takes the end again.
fn pass_item<R: Wait>(host: &Host<'_, R>) -> Option<()> {
    let Host { rt, threads } = host;
    let (mut sender, mut receiver) = link(threads, rt.alloc(), 4).ok()?;
    let item = item_of(rt.alloc(), "report", &mut LineWords::of(b"0 0 1"))?;
    refuse(rt, 1);
    let put = sender.put(threads, item);
    let count = sender.finish(threads);
    let taken = receiver.take(threads);
    let end = receiver.take(threads);
    let again = receiver.take(threads);
    say_quiet(rt, "link", &(put, count, [taken, end, again]))
}

/// Makes a last item and a raise on two heads, and asks for the floor (closed timestamp) before and after.
fn heads(rt: &HostRuntime) -> Option<()> {
    let mut heads = Heads::new(rt.alloc(), 2).ok()?.ok()?;
    refuse(rt, 1);
    let before = heads.floor();
    let retired = heads.retire(0, Stamp::from_bits(5));
    let raised = heads.raise(1, Stamp::from_bits(7));
    let after = (heads.floor(), heads.is_retired(0), heads.head(1));
    say_quiet(rt, "heads", &(before, retired, raised, after))
}

/// Raises the word of a node on a board, looks at it, and looks at the floor before and after.
fn board(rt: &HostRuntime) -> Option<()> {
    let mut heads = Heads::new(rt.alloc(), 1).ok()?.ok()?;
    let accepted = heads.raise(0, Stamp::from_bits(5));
    let (board, mut feeders, mut passes) = Board::new(rt.alloc(), 1, 1).ok()?.ok()?;
    refuse(rt, 1);
    let pass = &mut passes[0];
    let before = board.floor(pass);
    board.raise(&mut feeders[0], &accepted);
    let heard = board.heard(pass, 0);
    let after = board.floor(pass);
    say_quiet(rt, "board", &(before, heard, after))
}

/// Calls the four kernels, with a whole lane and one more.
fn kernels(rt: &HostRuntime) -> Option<()> {
    let stamps = [3, 1, 6, 9, 6, 2, 7, 8, 6];
    let nodes = [0, 0, 1, 0, 2, 0, 0, 0, 0];
    refuse(rt, 1);
    let (newest, node) = (newest_at(&stamps, 6), greatest_node(&stamps, &nodes, 6));
    let (place, count) = (place_of(&stamps, &nodes, 6, 2), count_at(&stamps, 6));
    say_quiet(rt, "kernels", &(newest, node, place, count))
}

/// Puts four rows into a new column, one with a value, and reads them and then the two that are kept.
fn column(rt: &HostRuntime) -> Option<()> {
    let mut value = Bytes::from_slice(rt.alloc(), b"x").ok();
    let mut column = Column::new(rt.alloc());
    refuse(rt, 1);
    for bits in [2u64, 1, 4, 3] {
        let _ = column.push(Stamp::from_bits(bits), 0, value.take());
    }
    let before = read(&column);
    keep_two(&mut column);
    say_quiet(rt, "column", &(before, read(&column)))
}

/// Returns the place of the newest row at 3, the length of the answer at 2, and how many rows are at or below 4.
fn read(column: &Column) -> (Option<usize>, usize, usize) {
    let answer = column.answer(Stamp::from_bits(2)).unwrap_or(b"").len();
    let count = column.lanes().count_at(Stamp::from_bits(4));
    (column.newest(Stamp::from_bits(3)), answer, count)
}

/// Keeps the first and the third of four rows.
fn keep_two(column: &mut Column) {
    let flags = [true, false, true, false];
    if column.len() == flags.len() {
        column.keep(&flags);
    }
}

/// Checks a row with its witness, and without.
fn witness(rt: &HostRuntime) -> Option<()> {
    let row = row_of(rt.alloc(), "write", &mut LineWords::of(b"0 0 5 61 78"))?;
    let (key, before, at) = (row.key.clone().ok()?, None, row.stamp);
    let (rows, witnesses) = ([row], [Witness { key, before, at }]);
    refuse(rt, 1);
    let shown = check(&rows, &[at], &witnesses);
    let not_shown = check(&rows, &[at], &[]);
    say_quiet(rt, "witness", &(shown, not_shown))
}

/// Reads the words of a storm, and no word.
fn words(rt: &HostRuntime) -> Option<()> {
    let words = storm_words(rt.alloc()).ok()?;
    refuse(rt, 1);
    let read = (read_words(words.as_slice()), read_words(&[]));
    say_quiet(rt, "words", &read)
}

fn storm_words(alloc: Global) -> Result<Vec<String>, AllocError> {
    let mut words = Vec::new(alloc);
    for word in "storm --nodes 2 --writes 4 --keys 3 --readers 5".split_whitespace() {
        words.push(String::from_str(alloc, word)?)?;
    }
    Ok(words)
}
