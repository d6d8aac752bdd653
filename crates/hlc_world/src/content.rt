//! What an event of a world lets a node issue.
use hlc_node::Bytes;

/// The content of an item that a node of a world issues. It is never a batch, since no event has several writes.
#[derive(Drop)]
pub enum Content {
    /// A new version of a key. No value is a deletion mark.
    Write { key: Bytes, value: Option<Bytes> },
    /// No write: a report of the node's latest stamp.
    Report,
    /// No write: the node's last item.
    Retire,
}
