//! Items, which a node sends over its link, and messages to other nodes.
ghost use Rattle.std.specs.Prelude.{◌≡◌};
ghost use Rattle.hlc_node.specs.Items.{body_refusal, IsShort};

use crate::item_ref::ItemRef;
use hlc_clock::Stamp;
use hlc_rows::{BodyFault, Bytes, Write, Writes, batch_fault, value_slice, write_fault};
use hlc_values::{Listed, NoMemory};

/// The content of an item.
#[derive(PartialEq, Eq, Debug, Drop)]
pub enum Body {
    /// A new version of a key. No value is a deletion mark.
    Write { key: Bytes, value: Option<Bytes> },
    /// New versions of 1 to 256 keys, each key once, all at the item's stamp: a snapshot shows all of them or none.
    Batch(Listed<Write>),
    /// No write: a report of the node's latest stamp.
    Report,
    /// No write: the node's last item.
    Retire,
}

/// An item of a node's link.
#[derive(Clone, PartialEq, Eq, Debug, Drop)]
pub struct Item {
    /// The node that issued it.
    pub node: u16,
    /// Its number on that node's link, from 0.
    pub number: u64,
    /// The stamp that the node's clock assigned to it.
    pub stamp: Stamp,
    /// Its content.
    pub body: Body,
}

/// A message from one node to others.
#[derive(Clone, Copy, PartialEq, Eq, Debug)]
pub struct Message {
    /// The node that sent it.
    pub from: u16,
    /// The stamp of the send.
    pub stamp: Stamp,
}

impl Clone for Body {
    ghost is_clone = { λ body copy. copy ≡ body };

    ghost is_infallible = { IsShort };

    fn clone(&self) -> Result<Body, NoMemory> {
        match self {
            Body::Report => Ok(Body::Report),
            Body::Retire => Ok(Body::Retire),
            Body::Batch(writes) => Ok(Body::Batch(writes.clone()?)),
            Body::Write { key, value } => Ok(Body::Write {
                key: key.clone()?,
                value: value.clone()?,
            }),
        }
    }
}

impl Item {
    /// Returns the item as a reference to the bytes of its own keys and values.
    #[inline]
    pub fn as_ref(&self) -> ItemRef<'_>
        ensures { result ≡ self.now }
    {
        let Item {
            node,
            number,
            stamp,
            body,
        } = self;
        match body {
            Body::Write { key, value } => ItemRef::write(
                *node,
                *number,
                *stamp,
                key.as_slice(),
                value_slice(value),
            ),
            Body::Batch(writes) => ItemRef::batch(
                *node,
                *number,
                *stamp,
                Writes::of(writes.as_slice()),
            ),
            Body::Report => ItemRef::report(*node, *number, *stamp),
            Body::Retire => ItemRef::retire(*node, *number, *stamp),
        }
    }
}

/// Returns the first reason to refuse this body.
pub fn body_fault(body: &Body) -> Option<BodyFault>
    ensures { result ≡ body_refusal body.now }
{
    match body {
        Body::Write { key, value } => write_fault(key.as_slice(), value_slice(value)),
        Body::Batch(writes) => batch_fault(Writes::of(writes.as_slice())),
        Body::Report | Body::Retire => None,
    }
}
