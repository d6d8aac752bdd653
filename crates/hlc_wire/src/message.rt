//! Messages as bytes.
ghost use Rattle.std.specs.Prelude.{◌≡◌, ◌++◌, length, IfOk, OnOk, Ok};
ghost use Rattle.hlc_node.specs.declared.item.Message.{Message as AMessage};
ghost use Rattle.hlc_wire.specs.Spelling.{message_bytes, MessageFits};
ghost use Rattle.hlc_wire.specs.Reading.{Reads, message_at, message_rest_at, whole};

use crate::fault::WireFault;
use crate::fields::{u16_at, u64_at};
use hlc_clock::Stamp;
use hlc_node::Message;
use std::alloc::{AllocError, Global};

/// The number of bytes of a message.
pub const MESSAGE_BYTES: usize = 11;

/// A message has 11 bytes: 1 of version, 2 of node, 8 of stamp.
pub fn message_bytes_are_11()
    ensures { MESSAGE_BYTES ≡ 11 }
{}

/// Reads the message from its encoding, which is all of the bytes.
///
/// The error is the first fault from the left. No memory is needed.
pub fn decode_message(bytes: &[u8]) -> Result<Message, WireFault>
    ensures found { IfOk result
        (λ message. MessageFits message × (bytes.now ≡ message_bytes message)) }
    ensures only { (message : AMessage) → MessageFits message → bytes.now ≡ message_bytes message
        → Reads (λ message. message) result (Ok message) }
    ensures exact { Reads (λ message. message) result (whole (message_at bytes.now)) }
{
    all(bytes)
}

/// Returns the one encoding of a message, of `MESSAGE_BYTES` bytes. The only error is out of
/// memory.
pub fn encode_message(alloc: Global, message: &Message) -> Result<Vec<u8>, AllocError>
    ensures spelled { IfOk result (λ bytes. bytes.items ≡ message_bytes message.now) }
    ensures fits { IfOk result (λ _. MessageFits message.now) }
    ensures size { IfOk result (λ bytes. length bytes.items ≡ MESSAGE_BYTES) }
{
    let mut out = Vec::new(alloc);
    put_message(&mut out, message)?;
    Ok(out)
}

/// Writes a message at the end of `out`. The only error is out of memory; the content of `out` is
/// then not specified.
pub fn put_message(out: &mut Vec<u8>, message: &Message) -> Result<(), AllocError>
    ensures ok { OnOk result (out.new.items ≡ out.old.items ++ message_bytes message.now) }
    ensures fits { MessageFits message.now }
{
    let from = message.from;
    let stamp = message.stamp.bits();
    out.push(1)?;
    out.extend_from_slice(&from.to_be_bytes())?;
    out.extend_from_slice(&stamp.to_be_bytes())?;
    Ok(())
}

/// Reads the message at the front of some bytes, and returns it with the bytes after it.
///
/// The error is the first fault from the left. No memory is needed.
#[tactic(auto, unfolding(crate::specs::Reading::message_at))]
pub fn message_at(bytes: &[u8]) -> Result<(Message, &[u8]), WireFault>
    ensures { Reads (λ x. (x.0, x.1.now)) result (message_at bytes.now) }
{
    match bytes {
        [] => Err(WireFault::Short),
        [1, rest @ ..] => message_rest_at(rest),
        [_, ..] => Err(WireFault::Version),
    }
}

/// Reads a message after its version.
#[tactic(auto, unfolding(crate::specs::Reading::message_rest_at))]
fn message_rest_at(bytes: &[u8]) -> Result<(Message, &[u8]), WireFault>
    ensures { Reads (λ x. (x.0, x.1.now)) result (message_rest_at bytes.now) }
{
    let (from, rest) = u16_at(bytes)?;
    let (stamp, rest) = u64_at(rest)?;
    let stamp = Stamp::from_bits(stamp);
    Ok((Message { from, stamp }, rest))
}

/// Reads a message from all of the bytes.
fn all(bytes: &[u8]) -> Result<Message, WireFault>
    ensures { Reads (λ message. message) result (whole (message_at bytes.now)) }
{
    match message_at(bytes) {
        Ok((message, rest)) => {
            if rest.is_empty() {
                Ok(message)
            } else {
                Err(WireFault::Trailing)
            }
        }
        Err(error) => Err(error),
    }
}
