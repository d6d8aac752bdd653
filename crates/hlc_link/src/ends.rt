//! The two ends of a link.
ghost use Rattle.std.specs.Prelude.{◌≡◌, ◌<◌, ◌≤◌, ◌^◌, ◌↔◌, List, [], length, true, false, Ok, IfOk, IfErr, IsOk};
ghost use Rattle.hlc_node.specs.declared.item.Item.{Item as AnItem};
ghost use Rattle.hlc_link.specs.Ends.{sending, with_item, with_end, received, with_parcel, HasCarried};
ghost use Rattle.hlc_link.specs.declared.rule.Parcel.TheVariants.{End};

use crate::rule::{Carried, Ends, Hand, InOrder, Parcel, Puts, Spare, Takes};
use crossbeam_channel::{Pass, RuledReceiver, RuledSender, bounded_with};
use hlc_node::Item;
use hlc_values::NoMemory;
use std::alloc::Global;
use std::error::Error;
use std::marker::Model;
use std::sync::Wait;
use std::{fmt, mem};

/// The maximum number of items on a link.
const MAX_ITEMS: u64 = 1 << 60;

/// Why an item was not put.
#[derive(Clone, Copy, PartialEq, Eq, Debug)]
pub enum PutFault {
    /// 2^60 items have been put.
    NumbersSpent,
    /// The end was put, or the channel refused the item. It does not mean that the other end is dropped.
    Closed,
}

impl fmt::Display for PutFault {
    ghost use Rattle.std.specs.Prelude.{Some};
    ghost use Rattle.hlc_link.specs.Faults.{put_text};

    ghost output = { λ fault. Some (put_text fault) };

    fn fmt<W: fmt::Write>(&self, f: &mut fmt::Formatter<W>) -> fmt::Result {
        f.write_str(match self {
            PutFault::NumbersSpent => "2^60 items were put already",
            PutFault::Closed => "the link is closed",
        })
    }
}

impl Error for PutFault {}

/// The channel refused the call, and nothing was put or taken. It does not mean that the other end is dropped.
#[derive(Clone, Copy, PartialEq, Eq, Debug)]
pub struct LinkClosed;

impl fmt::Display for LinkClosed {
    ghost use Rattle.std.specs.Prelude.{Some, codes};

    ghost output = { λ _. Some (codes "the link is closed") };

    fn fmt<W: fmt::Write>(&self, f: &mut fmt::Formatter<W>) -> fmt::Result {
        f.write_str("the link is closed")
    }
}

impl Error for LinkClosed {}

/// The sending end of a link. In contracts it is its link, the items that it put, the first of them first, and whether
/// it put the end. It cannot be copied, so only one thread puts.
#[derive(Drop)]
pub struct LinkSender {
    channel: RuledSender<Parcel, Hand, InOrder>,
    pass: Pass<Parcel, Hand>,
    count: u64,
    end_put: bool,
}

impl Model for LinkSender {
    ghost use Rattle.std.specs.Prelude.{◌≡◌, ◌≤◌, ◌^◌, length};
    ghost use Rattle.crossbeam_channel.specs.Claims as claims;
    ghost use Rattle.crossbeam_channel.specs.Ends.{sends_on};
    ghost use Rattle.hlc_link.specs.Link.{sender};
    ghost use Rattle.hlc_link.specs.Ends.{SenderView, sending, link_of};

    ghost Value = { SenderView };

    ghost view = { λ end. sending (link_of end.pass) (claims.view end.pass).put end.end_put };

    ghost invariant = { λ end. claims.IsSeatAt (sends_on end.channel) end.pass
        × (claims.view end.pass ≡ sender (claims.view end.pass).put end.end_put)
        × (end.count ≡ length (claims.view end.pass).put) × (end.count ≤ 2 ^ 60) };
}

/// The receiving end of a link. In contracts it is its link, the items that it took, the first of
/// them first, and whether it took the end. It cannot be copied, so only one thread takes.
#[derive(Drop)]
pub struct LinkReceiver {
    channel: RuledReceiver<Parcel, Hand, InOrder>,
    pass: Pass<Parcel, Hand>,
    ended: bool,
}

impl Model for LinkReceiver {
    ghost use Rattle.std.specs.Prelude.{◌≡◌};
    ghost use Rattle.crossbeam_channel.specs.Claims as claims;
    ghost use Rattle.crossbeam_channel.specs.Ends.{receives_on};
    ghost use Rattle.hlc_link.specs.Link.{receiver};
    ghost use Rattle.hlc_link.specs.Ends.{ReceiverView, received, link_of};

    ghost Value = { ReceiverView };

    ghost view = { λ end. received (link_of end.pass) (claims.view end.pass).taken end.ended };

    ghost invariant = { λ end. claims.IsSeatAt (receives_on end.channel) end.pass
        × (claims.view end.pass ≡ receiver (claims.view end.pass).taken end.ended) };
}

/// Makes a new link with room for `capacity` parcels, 1 to 4,096, and returns its two ends.
///
/// Refused if memory runs out. No later call on the link needs memory.
pub fn link<R: Wait>(
    _rt: &R,
    alloc: Global,
    capacity: usize,
) -> Result<(LinkSender, LinkReceiver), NoMemory>
    requires { (0 < capacity) × (capacity ≤ 4096) }
    ensures { IfOk result (λ ends. (ends.0 ≡ sending ends.0.link [] false)
        × (ends.1 ≡ received ends.0.link [] false)) }
{
    let (sending, receiving, mut first) = bounded_with::<Parcel, Hand, InOrder, Global>(
        alloc, capacity,
    )?;
    let second = sending.another::<Ends>(&mut first);
    let sender = LinkSender {
        channel: sending,
        pass: first,
        count: 0,
        end_put: false,
    };
    let receiver = LinkReceiver {
        channel: receiving,
        pass: second,
        ended: false,
    };
    Ok((sender, receiver))
}

impl LinkSender {
    /// Puts an item after those that were put. It waits while the link is full.
    ///
    /// Refused, in this order: 2^60 items have been put; the end was put; the channel is closed. The error returns the
    /// item, and nothing was put.
    pub fn put<R: Wait>(&mut self, rt: &R, item: Item) -> Result<(), (PutFault, Item)>
        ensures ok { IfOk result (λ _. self.new ≡ with_item self.old item) }
        ensures err { IfErr result (λ refused. (self.new ≡ self.old) × (refused.1 ≡ item)) }
        ensures spent { IfErr result
            (λ refused. refused.0 ≡ PutFault.NumbersSpent ↔ length self.old.put ≡ 2 ^ 60) }
        ensures room { IfOk result
            (λ _. (length self.old.put < 2 ^ 60) × (self.old.ended ≡ false)) }
    {
        if self.count == MAX_ITEMS {
            return Err((PutFault::NumbersSpent, item));
        }
        if self.end_put {
            return Err((PutFault::Closed, item));
        }
        match self
            .channel
            .send_as::<Puts, R>(rt, &mut self.pass, Parcel::Item(item))
        {
            Ok(()) => {
                self.count += 1;
                Ok(())
            }
            Err(back) => match back.into_inner() {
                Parcel::Item(item) => Err((PutFault::Closed, item)),
                Parcel::End => unreachable!(),
            },
        }
    }

    /// Puts the end after the items that were put. It waits while the link is full. If the end was already put, it
    /// returns at once.
    ///
    /// Refused if the channel is closed: the end was not put.
    pub fn put_end<R: Wait>(&mut self, rt: &R) -> Result<(), LinkClosed>
        ensures ok { IfOk result (λ _. self.new ≡ with_end self.old) }
        ensures unchanged { IfErr result (λ _. self.new ≡ self.old) }
        ensures again { self.old.ended ≡ true → IsOk result }
    {
        if self.end_put {
            return Ok(());
        }
        match self
            .channel
            .send_as::<Puts, R>(rt, &mut self.pass, Parcel::End)
        {
            Ok(()) => {
                self.end_put = true;
                Ok(())
            }
            Err(_) => Err(LinkClosed),
        }
    }

    /// Puts the end, as `put_end` does, and returns the number of items put. It consumes the sender, so no clause says
    /// that the end was put; a caller that needs this calls `put_end` first.
    ///
    /// Refused if the channel is closed: the end was not put.
    pub fn finish<R: Wait>(self, rt: &R) -> Result<u64, LinkClosed>
        ensures count { IfOk result (λ count. count ≡ length self.put) }
        ensures again { self.ended ≡ true → IsOk result }
    {
        let mut sender = self;
        sender.put_end(rt)?;
        Ok(sender.count)
    }

    /// Ensures, in its contract, which items are in transit: the items put are the items taken followed by the items in
    /// transit. Both ends are of one link.
    ///
    /// It reads the channel's words, and changes nothing that a caller sees. It neither waits nor needs memory.
    pub fn learn_in_transit(&mut self, receiver: &mut LinkReceiver)
        requires { receiver.old.link ≡ self.old.link }
        ensures same { (self.new ≡ self.old) × (receiver.new ≡ receiver.old) }
        ensures in_transit { (in_transit : List AnItem) × HasCarried self.new receiver.new in_transit }
    {
        let spare = self.channel.another::<Spare>(&mut self.pass);
        let theirs = mem::replace(&mut receiver.pass, spare);
        self.channel.absorb::<Ends>(&mut self.pass, theirs);
        self.channel.learn_as::<Carried>(&mut self.pass);
        receiver.pass = self.channel.another::<Ends>(&mut self.pass);
    }
}

impl LinkReceiver {
    /// Takes the next parcel. It waits while the link is empty. After the end it returns the end again, at once.
    ///
    /// Refused if the channel is closed: nothing was taken.
    pub fn take<R: Wait>(&mut self, rt: &R) -> Result<Parcel, LinkClosed>
        ensures ok { IfOk result (λ parcel. self.new ≡ with_parcel self.old parcel) }
        ensures unchanged { IfErr result (λ _. self.new ≡ self.old) }
        ensures again { self.old.ended ≡ true → result ≡ Ok End }
    {
        if self.ended {
            return Ok(Parcel::End);
        }
        match self.channel.recv_as::<Takes, R>(rt, &mut self.pass) {
            Ok(Parcel::Item(item)) => Ok(Parcel::Item(item)),
            Ok(Parcel::End) => {
                self.ended = true;
                Ok(Parcel::End)
            }
            Err(_) => Err(LinkClosed),
        }
    }
}
