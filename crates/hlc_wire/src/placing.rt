//! The parts of an item, written to a place of a buffer that has room for them. Each writer returns the place after the
//! part, and leaves the other bytes unchanged.
ghost use Rattle.std.specs.Prelude.{◌≡◌, ◌≤◌, ◌+◌, length, option_copied};
ghost use Rattle.hlc_node.specs.declared.item.Body.TheVariants.{Write as a_write};
ghost use Rattle.hlc_wire.specs.{Spelling.body_bytes, Spelling.value_bytes, Spelling.numbers_bytes, Spelling.BodyFits};
ghost use Rattle.hlc_wire.specs.{Spelling.KeyFits, Spelling.ValueFits, Spelling.NumbersFit, Placing.with_bytes};

use crate::batch::put_batch;
use hlc_node::{Content, ItemRef};

/// Writes bytes.
pub fn put_bytes(out: &mut [u8], at: usize, bytes: &[u8]) -> usize
    requires { at + length bytes.now ≤ length out.now }
    ensures end { result ≡ at + length bytes.now }
    ensures put { out.new ≡ with_bytes at bytes.now out.old }
{
    let end = at + bytes.len();
    out[at..end].copy_from_slice(bytes);
    end
}

/// Writes the node, the number and the stamp of an item.
pub(crate) fn put_numbers(out: &mut [u8], at: usize, item: &ItemRef<'_>) -> usize
    requires { at + length (numbers_bytes item.now) ≤ length out.now }
    ensures end { result ≡ at + length (numbers_bytes item.now) }
    ensures put { out.new ≡ with_bytes at (numbers_bytes item.now) out.old }
    ensures fits { NumbersFit item.now }
{
    let at_number = put_bytes(out, at, &item.node().to_be_bytes());
    let at_stamp = put_bytes(out, at_number, &item.number().to_be_bytes());
    let stamp = item.stamp().bits();
    put_bytes(out, at_stamp, &stamp.to_be_bytes())
}

/// Writes the body of an item.
pub(crate) fn put_body(out: &mut [u8], at: usize, item: &ItemRef<'_>) -> usize
    requires fits { BodyFits item.now.body }
    requires room { at + length (body_bytes item.now.body) ≤ length out.now }
    ensures end { result ≡ at + length (body_bytes item.now.body) }
    ensures put { out.new ≡ with_bytes at (body_bytes item.now.body) out.old }
{
    match item.content() {
        Content::One(written) => put_write(out, at, written.key, written.value),
        Content::Many(writes) => {
            let at_batch = put_bytes(out, at, &[3]);
            put_batch(out, at_batch, writes)
        }
        Content::Nothing => {
            let kind = if item.retires() { 2 } else { 1 };
            put_bytes(out, at, &[kind])
        }
    }
}

/// Writes the body of a write, or of a deletion.
fn put_write(out: &mut [u8], at: usize, key: &[u8], value: Option<&[u8]>) -> usize
    requires key { KeyFits key.now }
    requires value { ValueFits (option_copied value) }
    requires room { at + length (body_bytes (a_write key.now (option_copied value))) ≤ length out.now }
    ensures end { result ≡ at + length (body_bytes (a_write key.now (option_copied value.entry))) }
    ensures put { out.new
        ≡ with_bytes at (body_bytes (a_write key.now (option_copied value.entry))) out.old }
{
    let at_key = put_bytes(out, at, &[0, key.len() as u8]);
    let at_value = put_bytes(out, at_key, key);
    put_value(out, at_value, value)
}

/// Writes a value of at most 65,535 bytes, or a deletion mark.
pub(crate) fn put_value(out: &mut [u8], at: usize, value: Option<&[u8]>) -> usize
    requires value { ValueFits (option_copied value) }
    requires room { at + length (value_bytes (option_copied value)) ≤ length out.now }
    ensures end { result ≡ at + length (value_bytes (option_copied value.entry)) }
    ensures put { out.new ≡ with_bytes at (value_bytes (option_copied value.entry)) out.old }
{
    match value {
        None => put_bytes(out, at, &[0]),
        Some(value) => {
            let at_len = put_bytes(out, at, &[1]);
            let at_value = put_bytes(out, at_len, &(value.len() as u16).to_be_bytes());
            put_bytes(out, at_value, value)
        }
    }
}
