//! An item that borrows its keys and values.
ghost use Rattle.std.specs.Prelude.{◌≡◌, option_copied};
ghost use Rattle.hlc_node.specs.{Items.an_item, Items.body_refusal, Items.retires, Seen.IsContent};
ghost use Rattle.hlc_node.specs.declared.item.Body.TheVariants as body;

use hlc_clock::Stamp;
use hlc_rows::{BodyFault, Writes, Written, batch_fault, write_fault};
use std::marker::Model;

/// What an item writes.
#[derive(Debug, Drop)]
pub enum Content<'a> {
    /// It is a report or a retirement.
    Nothing,
    /// One key.
    One(Written<'a>),
    /// Several keys, all at the item's stamp.
    Many(Writes<'a>),
}

/// The content of an item, over slices.
#[derive(Debug, Drop)]
pub(crate) enum BodyRef<'a> {
    Write {
        key: &'a [u8],
        value: Option<&'a [u8]>,
    },
    Batch(Writes<'a>),
    Report,
    Retire,
}

/// An item that borrows its keys and values, so making one needs no memory. In contracts it is the item.
#[derive(Debug, Drop)]
pub struct ItemRef<'a> {
    node: u16,
    number: u64,
    stamp: Stamp,
    body: BodyRef<'a>,
}

impl<'a> Model for ItemRef<'a> {
    ghost use Rattle.hlc_node.specs.declared.item.Item.{Item};
    ghost use Rattle.hlc_node.specs.Items.{an_item};
    ghost use Rattle.hlc_node.specs.Seen.{body_seen};

    ghost Value = { Item };

    ghost view = { λ item. an_item item.node item.number item.stamp (body_seen item.body) };
}

impl<'a> ItemRef<'a> {
    /// Returns a write of this value to this key, or a deletion if there is no value.
    #[inline]
    pub fn write(
        node: u16,
        number: u64,
        stamp: Stamp,
        key: &'a [u8],
        value: Option<&'a [u8]>,
    ) -> ItemRef<'a>
        ensures { result ≡ an_item node number stamp (body.Write key.now (option_copied value.entry)) }
    {
        ItemRef {
            node,
            number,
            stamp,
            body: BodyRef::Write { key, value },
        }
    }

    /// Returns the writes of these keys, all at the item's stamp.
    #[inline]
    pub fn batch(node: u16, number: u64, stamp: Stamp, writes: Writes<'a>) -> ItemRef<'a>
        ensures { result ≡ an_item node number stamp (body.Batch writes.entry) }
    {
        ItemRef {
            node,
            number,
            stamp,
            body: BodyRef::Batch(writes),
        }
    }

    /// Returns a report.
    #[inline]
    pub fn report(node: u16, number: u64, stamp: Stamp) -> ItemRef<'a>
        ensures { result ≡ an_item node number stamp body.Report }
    {
        ItemRef {
            node,
            number,
            stamp,
            body: BodyRef::Report,
        }
    }

    /// Returns a retirement.
    #[inline]
    pub fn retire(node: u16, number: u64, stamp: Stamp) -> ItemRef<'a>
        ensures { result ≡ an_item node number stamp body.Retire }
    {
        ItemRef {
            node,
            number,
            stamp,
            body: BodyRef::Retire,
        }
    }

    /// Returns the node that issued the item.
    #[inline]
    pub fn node(&self) -> u16
        ensures { result ≡ self.now.node }
    {
        self.node
    }

    /// Returns the item's number on that node's link, from 0.
    #[inline]
    pub fn number(&self) -> u64
        ensures { result ≡ self.now.number }
    {
        self.number
    }

    /// Returns the stamp that the node's clock assigned to the item.
    #[inline]
    pub fn stamp(&self) -> Stamp
        ensures { result ≡ self.now.stamp }
    {
        self.stamp
    }

    /// Returns whether the item is its node's last one.
    #[inline]
    pub fn retires(&self) -> bool
        ensures { result ≡ retires self.now.body }
    {
        matches!(self.body, BodyRef::Retire)
    }

    /// Returns what the item writes.
    #[inline]
    pub fn content(&self) -> Content<'a>
        ensures { IsContent result self.now.body }
    {
        match &self.body {
            BodyRef::Write { key, value } => Content::One(Written { key, value: *value }),
            BodyRef::Batch(writes) => Content::Many(writes.lend()),
            BodyRef::Report | BodyRef::Retire => Content::Nothing,
        }
    }

    /// Returns the first reason to refuse the item's body.
    #[inline]
    pub fn body_fault(&self) -> Option<BodyFault>
        ensures { result ≡ body_refusal self.now.body }
    {
        match &self.body {
            BodyRef::Write { key, value } => write_fault(key, *value),
            BodyRef::Batch(writes) => batch_fault(writes.lend()),
            BodyRef::Report | BodyRef::Retire => None,
        }
    }
}
