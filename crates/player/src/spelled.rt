//! Items and messages as bytes, and nodes as numbers.
use crate::lines::{next_bytes, next_node, next_number, next_stamp};
use crate::play::say;
use crate::saved::say_bytes;
use hlc_node::NodeCore;
use hlc_text::words::LineWords;
use hlc_wire::{DecodeError, decode_item, decode_message, encode_item, encode_message};
use std::alloc::Global;

/// Decodes an item, and encodes it again.
pub(crate) fn spell_item(rt: &HostRuntime, words: &mut LineWords<'_>) -> Option<()> {
    let bytes = next_bytes(rt.alloc(), words)?;
    spell(rt, item_again(rt.alloc(), bytes.as_slice()))
}

fn item_again(alloc: Global, bytes: &[u8]) -> Result<Vec<u8>, DecodeError> {
    let item = decode_item(alloc, bytes)?;
    encode_item(alloc, &item).map_err(|_| DecodeError::NoMemory)
}

/// Decodes a message, and encodes it again.
pub(crate) fn spell_message(rt: &HostRuntime, words: &mut LineWords<'_>) -> Option<()> {
    let bytes = next_bytes(rt.alloc(), words)?;
    spell(rt, message_again(rt.alloc(), bytes.as_slice()))
}

fn message_again(alloc: Global, bytes: &[u8]) -> Result<Vec<u8>, DecodeError> {
    let message = decode_message(bytes)?;
    encode_message(alloc, &message).map_err(|_| DecodeError::NoMemory)
}

/// Prints bytes in hexadecimal digits, or why there are none. Returns none where that is because memory ran out.
fn spell(rt: &HostRuntime, bytes: Result<Vec<u8>, DecodeError>) -> Option<()> {
    match bytes {
        Ok(bytes) => say_bytes(rt, "spelled", bytes.as_slice()),
        Err(DecodeError::NoMemory) => None,
        Err(DecodeError::Fault(fault)) => say(rt, "fault", &fault),
    }
}

/// Restores a node from its number, its last stamp and its next number, and lets it report.
pub(crate) fn spell_node(rt: &HostRuntime, words: &mut LineWords<'_>) -> Option<()> {
    let id = next_node(words);
    let last = next_stamp(words);
    match NodeCore::restore(id, last, next_number(words)) {
        Some(mut node) => say(rt, "issued", &node.report(next_number(words))),
        None => say(rt, "node", &id),
    }
}
