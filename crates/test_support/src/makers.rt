//! The values that the tests pass in.
ghost use Rattle.std.specs.Prelude.{◌≡◌, ◌+◌, ◌*◌, ◌∷◌, [], Some, IfOk, option_copied};
ghost use Rattle.hlc_node.specs.{Items.an_item, declared.item.Body.TheVariants.Write as a_write};

use hlc_clock::Stamp;
use hlc_node::{Body, Bytes, Item, ItemRef};
use std::alloc::{AllocError, Global};

/// Returns the stamp of a second, with the counter at 0.
pub fn at_second(second: u8) -> Stamp
    ensures { result ≡ second * 65536 }
{
    Stamp::from_bits(u64::from(second) * 65_536)
}

/// Returns a key or a value of one byte.
pub fn bytes(alloc: Global, byte: u8) -> Result<Bytes, AllocError>
    ensures { IfOk result (λ bytes. bytes ≡ byte ∷ []) }
{
    let mut bytes = Vec::new(alloc);
    bytes.push(byte)?;
    Ok(Bytes::from_vec(bytes))
}

/// Returns the item of this number on a node's link with this body. Each item is a second later than the one before it.
pub fn said(node: u16, number: u8, body: Body) -> Item
    ensures { (result.node ≡ node) × (result.number ≡ number) × (result.stamp ≡ (number + 1) * 65536)
        × (result.body ≡ body) }
{
    Item {
        node,
        number: u64::from(number),
        stamp: Stamp::from_bits((u64::from(number) + 1) * 65_536),
        body,
    }
}

/// Returns such an item of node 0 over slices, which writes a value to a key, or deletes the key if there is none.
pub fn written<'a>(number: u8, key: &'a [u8], value: Option<&'a [u8]>) -> ItemRef<'a>
    ensures { result ≡ an_item 0 number ((number + 1) * 65536) (a_write key.now (option_copied value.entry)) }
{
    let stamp = Stamp::from_bits((u64::from(number) + 1) * 65_536);
    ItemRef::write(0, u64::from(number), stamp, key, value)
}

/// Returns such an item that writes a value to a key, each of one byte.
pub fn write(alloc: Global, node: u16, number: u8, key: u8, value: u8) -> Result<Item, AllocError>
    ensures { IfOk result (λ item. (item.node ≡ node) × (item.number ≡ number)
        × (item.stamp ≡ (number + 1) * 65536)
        × (item.body ≡ a_write (key ∷ []) (Some (value ∷ [])))) }
{
    let key = bytes(alloc, key)?;
    let value = Some(bytes(alloc, value)?);
    Ok(said(node, number, Body::Write { key, value }))
}
