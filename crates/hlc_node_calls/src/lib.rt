//! What the calls of the C library do with a node. They need no memory and no store. Each answer is 0 or the number of
//! a refusal, and the stamp of the event or the word of the refusal.
#![tactic(auto)]

ghost use Rattle.std.specs.Prelude.{◌≡◌, [], ◌∷◌, MatchResult, option_copied, Ok, Err};
ghost use Rattle.hlc_node.specs.{Node.expected_event, Faults.node_code, Faults.node_word};
ghost use Rattle.hlc_node.specs.declared.item.Body.TheVariants.{Write as a_write, Report as a_report};
ghost use Rattle.hlc_node.specs.declared.item.Body.TheVariants.{Retire as a_retire, Batch as a_batch};
ghost use Rattle.hlc_node_calls.specs.{Batches.batch_in, Nodes.ReturnsStamped, Nodes.ReturnsIssued};

use hlc_clock::Stamp;
use hlc_node::{BodyFault, ItemRef, MAX_WRITES, NodeCore, NodeFault, Writes};
use hlc_wire::writes_of;

/// Writes the number and the stamp of an item, and returns 0.
fn return_item(item: &ItemRef<'_>, number: &mut u64, word: &mut u64) -> u32
    ensures { (result ≡ 0) × (number.new ≡ item.now.number) × (word.new ≡ item.now.stamp) }
{
    *number = item.number();
    *word = item.stamp().bits();
    0
}

/// Writes 0 and the word of a refusal, and returns its number.
fn refuse(fault: &NodeFault, number: &mut u64, word: &mut u64) -> u32
    ensures { (result ≡ node_code fault.now) × (number.new ≡ 0) × (word.new ≡ node_word fault.now) }
{
    *number = 0;
    refuse_event(fault, word)
}

/// Writes the word of a refusal, and returns its number.
fn refuse_event(fault: &NodeFault, word: &mut u64) -> u32
    ensures { (result ≡ node_code fault.now) × (word.new ≡ node_word fault.now) }
{
    *word = fault.word();
    fault.code()
}

/// Writes the stamp of an event, and returns 0; or writes the word of a refusal, and returns its number.
fn return_stamp(outcome: Result<Stamp, NodeFault>, word: &mut u64) -> u32
    ensures { MatchResult outcome (λ stamp. (result ≡ 0) × (word.new ≡ stamp))
        (λ fault. (result ≡ node_code fault) × (word.new ≡ node_word fault)) }
{
    match outcome {
        Ok(stamp) => {
            *word = stamp.bits();
            0
        }
        Err(fault) => refuse_event(&fault, word),
    }
}

/// Issues the item of a write, or of a deletion. Returns 0, its number and its stamp, or a refusal and its word.
pub fn write(
    node: &mut NodeCore,
    reading: u64,
    key: &[u8],
    value: Option<&[u8]>,
    number: &mut u64,
    word: &mut u64,
) -> u32
    ensures { ReturnsIssued node.old node.new (a_write key.now (option_copied value.entry)) reading
        result number.new word.new }
{
    match node.write_ref(reading, key, value) {
        Ok(item) => return_item(&item, number, word),
        Err(fault) => refuse(&fault, number, word),
    }
}

/// Why bytes are not those of the writes of a batch: the number of the refusal and its word.
#[derive(Clone, Copy, Debug)]
pub struct BadBatch {
    pub code: u32,
    pub word: u64,
}

/// Returns this many writes from all of the bytes: for each a byte of length and the key; and 0 for a deletion mark, or
/// 1, two bytes of length (big-endian) and the value. Or returns 29 for more than 256, or 106 and the first fault.
pub fn batch_of(count: usize, bytes: &[u8]) -> Result<Writes<'_>, BadBatch>
    ensures { MatchResult result (λ writes. batch_in count bytes.now ≡ Ok writes)
        (λ bad. batch_in count bytes.now ≡ Err (bad.code, bad.word)) }
{
    if count > MAX_WRITES {
        return Err(BadBatch {
            code: BodyFault::TooManyWrites.code(),
            word: 0,
        });
    }
    match writes_of(count, bytes) {
        Ok(writes) => Ok(writes),
        Err(fault) => Err(BadBatch {
            code: 106,
            word: fault.code() as u64,
        }),
    }
}

/// Issues the item of a batch. Returns 0, its number and its stamp, or a refusal and its word.
pub fn write_batch(
    node: &mut NodeCore,
    reading: u64,
    writes: Writes<'_>,
    number: &mut u64,
    word: &mut u64,
) -> u32
    ensures { ReturnsIssued node.old node.new (a_batch writes.entry) reading result number.new word.new }
{
    match node.write_batch_ref(reading, writes) {
        Ok(item) => return_item(&item, number, word),
        Err(fault) => refuse(&fault, number, word),
    }
}

/// Issues a report of how far the node's stamps have come. Returns 0, its number and its stamp, or a refusal and its
/// word.
pub fn report(node: &mut NodeCore, reading: u64, number: &mut u64, word: &mut u64) -> u32
    ensures { ReturnsIssued node.old node.new a_report reading result number.new word.new }
{
    match node.report(reading) {
        Ok(item) => return_item(&item.as_ref(), number, word),
        Err(fault) => refuse(&fault, number, word),
    }
}

/// Issues the node's last item. Returns 0, its number and its stamp, or a refusal and its word.
pub fn retire(node: &mut NodeCore, reading: u64, number: &mut u64, word: &mut u64) -> u32
    ensures { ReturnsIssued node.old node.new a_retire reading result number.new word.new }
{
    match node.retire(reading) {
        Ok(item) => return_item(&item.as_ref(), number, word),
        Err(fault) => refuse(&fault, number, word),
    }
}

/// Sends a message. Returns 0 and its stamp, or a refusal and its word.
pub fn send(node: &mut NodeCore, reading: u64, word: &mut u64) -> u32
    ensures { ReturnsStamped node.old node.new (expected_event node.old (node.old.last ∷ []) reading)
        result word.new }
{
    let outcome = match node.send(reading) {
        Ok(message) => Ok(message.stamp),
        Err(fault) => Err(fault),
    };
    return_stamp(outcome, word)
}

/// Receives a message with this stamp, or observes a snapshot at it. Returns 0 and the event's stamp, or a refusal and
/// its word.
pub fn receive(node: &mut NodeCore, seen: u64, reading: u64, word: &mut u64) -> u32
    ensures { ReturnsStamped node.old node.new
        (expected_event node.old (node.old.last ∷ seen ∷ []) reading) result word.new }
{
    return_stamp(node.observe(Stamp::from_bits(seen), reading), word)
}
