//! A node, for C, which stores it by value: a call needs no memory and no store.
ghost use Rattle.std.specs.Prelude.{◌≡◌, ◌<◌, ◌≤◌, [], ◌∷◌, Some, None, false, max, MatchResult};
ghost use Rattle.hlc_node.specs.Node.{expected_event, stamped};
ghost use Rattle.hlc_node.specs.declared.item.Body.TheVariants.{Write as a_write, Report as a_report};
ghost use Rattle.hlc_node.specs.declared.item.Body.TheVariants.{Retire as a_retire, Batch as a_batch};
ghost use Rattle.hlc_node_calls.specs.{Batches.batch_in, Nodes.ReturnsStamped, Nodes.ReturnsIssued};

use hlc_clock::Stamp;
use hlc_node::NodeCore;

/// Returns a node of this number, whose clock starts at a stamp and which has issued nothing.
#[unsafe(no_mangle)]
pub extern "C" fn hlc_node_open(id: u16, start: u64) -> NodeCore
    ensures { result ≡ record { id = id; last = start; next = 0; retired = false } }
{
    NodeCore::new(id, Stamp::from_bits(start))
}

/// Returns 0 and the node after a restart; or 105, where no node issued that many items up to that stamp, and a new
/// node.
#[unsafe(no_mangle)]
pub extern "C" fn hlc_node_restore(id: u16, last: u64, next: u64, node: &mut NodeCore) -> u32
    ensures restored { next ≤ last → (result ≡ 0)
        × (node.new ≡ record { id = id; last = last; next = next; retired = false }) }
    ensures refused { last < next → (result ≡ 105)
        × (node.new ≡ record { id = id; last = last; next = 0; retired = false }) }
{
    let last = Stamp::from_bits(last);
    match NodeCore::restore(id, last, next) {
        Some(restored) => {
            *node = restored;
            0
        }
        None => {
            *node = NodeCore::new(id, last);
            105
        }
    }
}

/// Raises the node's clock to a stamp, without an event. A stamp at or below its last one changes nothing.
#[unsafe(no_mangle)]
pub extern "C" fn hlc_node_raise(node: &mut NodeCore, stamp: u64)
    ensures { node.new ≡ stamped node.old (max node.old.last stamp) }
{
    node.raise_to(Stamp::from_bits(stamp));
}

/// Issues the item of a write. Returns 0, its number and its stamp, or a refusal and its word.
#[unsafe(no_mangle)]
pub extern "C" fn hlc_node_write(
    node: &mut NodeCore,
    reading: u64,
    key: &[u8],
    value: &[u8],
    number: &mut u64,
    word: &mut u64,
) -> u32
    ensures { ReturnsIssued node.old node.new (a_write key.now (Some value.now)) reading result number.new word.new }
{
    hlc_node_calls::write(node, reading, key, Some(value), number, word)
}

/// Issues the item of a deletion. Returns 0, its number and its stamp, or a refusal and its word.
#[unsafe(no_mangle)]
pub extern "C" fn hlc_node_delete(
    node: &mut NodeCore,
    reading: u64,
    key: &[u8],
    number: &mut u64,
    word: &mut u64,
) -> u32
    ensures { ReturnsIssued node.old node.new (a_write key.now None) reading result number.new word.new }
{
    hlc_node_calls::write(node, reading, key, None, number, word)
}

/// Issues one item of `count` writes, 1 to 256 of different keys, from their bytes: for each a byte of length and the
/// key; and 0 for a deletion, or 1, two bytes of length (big-endian) and the value. Returns 0, its number and its
/// stamp, or a refusal and its word; before those of the node 29, or 106 and the first fault of the bytes. No memory.
#[unsafe(no_mangle)]
pub extern "C" fn hlc_node_write_batch(
    node: &mut NodeCore,
    reading: u64,
    count: usize,
    writes: &[u8],
    number: &mut u64,
    word: &mut u64,
) -> u32
    ensures { MatchResult (batch_in count writes.now)
        (λ all. ReturnsIssued node.old node.new (a_batch all) reading result number.new word.new)
        (λ bad. (result ≡ bad.0) × (number.new ≡ 0) × (word.new ≡ bad.1) × (node.new ≡ node.old)) }
{
    match hlc_node_calls::batch_of(count, writes) {
        Ok(all) => hlc_node_calls::write_batch(node, reading, all, number, word),
        Err(bad) => {
            *number = 0;
            *word = bad.word;
            bad.code
        }
    }
}

/// Issues a report. Returns 0, its number and its stamp, or a refusal and its word.
#[unsafe(no_mangle)]
pub extern "C" fn hlc_node_report(
    node: &mut NodeCore,
    reading: u64,
    number: &mut u64,
    word: &mut u64,
) -> u32
    ensures { ReturnsIssued node.old node.new a_report reading result number.new word.new }
{
    hlc_node_calls::report(node, reading, number, word)
}

/// Issues the node's last item. Returns 0, its number and its stamp, or a refusal and its word.
#[unsafe(no_mangle)]
pub extern "C" fn hlc_node_retire(
    node: &mut NodeCore,
    reading: u64,
    number: &mut u64,
    word: &mut u64,
) -> u32
    ensures { ReturnsIssued node.old node.new a_retire reading result number.new word.new }
{
    hlc_node_calls::retire(node, reading, number, word)
}

/// Sends a message. Returns 0 and its stamp, or a refusal and its word.
#[unsafe(no_mangle)]
pub extern "C" fn hlc_node_send(node: &mut NodeCore, reading: u64, word: &mut u64) -> u32
    ensures { ReturnsStamped node.old node.new (expected_event node.old (node.old.last ∷ []) reading) result word.new }
{
    hlc_node_calls::send(node, reading, word)
}

/// Receives a message with this stamp, or observes a snapshot at it. Returns 0 and the event's stamp, or a refusal.
#[unsafe(no_mangle)]
pub extern "C" fn hlc_node_receive(
    node: &mut NodeCore,
    seen: u64,
    reading: u64,
    word: &mut u64,
) -> u32
    ensures { ReturnsStamped node.old node.new
        (expected_event node.old (node.old.last ∷ seen ∷ []) reading) result word.new }
{
    hlc_node_calls::receive(node, seen, reading, word)
}
