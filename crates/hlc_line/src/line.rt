//! The lines of events, read without memory.
ghost use Rattle.std.specs.Prelude.{◌≡◌, ◌≢◌, ◌<◌, ◌^◌, ◌∷◌, [], codes, decimal, ℕ, List, IfOk, MatchOption, OnErr};
ghost use Rattle.hlc_text.specs.Text.{Reads};
ghost use Rattle.hlc_line.specs.Line.{event_words, event_line, HasLine, BearsBytes};

use hlc_text::bytes::{Spelled, bytes};
use hlc_text::stamp::stamp;
use hlc_text::words::LineWords;
use hlc_values::NoMemory;
use hlc_world_event::Event;
use std::alloc::Global;

/// Returns the event of a line, with its bytes still in their spelling, or none where no event has this line.
#[inline(always)]
pub fn read_line(line: &[u8]) -> Option<Event<Spelled<'_>>>
    ensures { Reads event_line HasLine line.now result }
{
    let mut words = LineWords::of(line);
    event_of_words(&mut words)
}

/// Returns the event with copies of its key and its value. Other events take no memory.
#[inline(always)]
pub fn owned_event(alloc: Global, event: Event<Spelled<'_>>) -> Result<Event, NoMemory>
    ensures ok { IfOk result (λ owned. owned ≡ event.entry) }
    ensures err { OnErr result (BearsBytes event.entry) }
{
    match event {
        Event::Write {
            node,
            reading,
            key,
            value,
        } => owned_write(alloc, node, reading, key, value),
        Event::Delete { node, reading, key } => Ok(Event::Delete {
            node,
            reading,
            key: key.to_bytes(alloc)?,
        }),
        Event::Read { id, key } => Ok(Event::Read {
            id,
            key: key.to_bytes(alloc)?,
        }),
        Event::Report { node, reading } => Ok(Event::Report { node, reading }),
        Event::Retire { node, reading } => Ok(Event::Retire { node, reading }),
        Event::Join => Ok(Event::Join),
        Event::Send { node, reading } => Ok(Event::Send { node, reading }),
        Event::Receive {
            node,
            reading,
            message,
        } => Ok(Event::Receive {
            node,
            reading,
            message,
        }),
        Event::Observe { node, reading, id } => Ok(Event::Observe { node, reading, id }),
        Event::Deliver { node, number } => Ok(Event::Deliver { node, number }),
        Event::OpenAt { stamp } => Ok(Event::OpenAt { stamp }),
        Event::OpenFloor => Ok(Event::OpenFloor),
        Event::List { id } => Ok(Event::List { id }),
        Event::Close { id } => Ok(Event::Close { id }),
        Event::Floor => Ok(Event::Floor),
        Event::Vacuum => Ok(Event::Vacuum),
        Event::Rows => Ok(Event::Rows),
    }
}

/// Returns the write with copies of its key and its value.
#[inline(always)]
fn owned_write(
    alloc: Global,
    node: u16,
    reading: u64,
    key: Spelled<'_>,
    value: Spelled<'_>,
) -> Result<Event, NoMemory>
    ensures { IfOk result (λ owned. owned ≡ Event.Write node reading key.entry value.entry) }
{
    Ok(Event::Write {
        node,
        reading,
        key: key.to_bytes(alloc)?,
        value: value.to_bytes(alloc)?,
    })
}

/// Returns the event of the words, or none.
#[inline(always)]
fn event_of_words<'a>(words: &mut LineWords<'a>) -> Option<Event<Spelled<'a>>>
    ensures { Reads event_words HasLine words.old result }
{
    match words.next()? {
        b"write" => write(words),
        b"delete" => delete(words),
        b"report" => report(words),
        b"retire" => retire(words),
        b"join" => join(words),
        b"send" => send(words),
        b"receive" => receive(words),
        b"observe" => observe(words),
        b"deliver" => deliver(words),
        b"open" => open(words),
        b"read" => read(words),
        b"list" => list(words),
        b"close" => close(words),
        b"floor" => floor(words),
        b"vacuum" => vacuum(words),
        b"rows" => rows(words),
        _ => None,
    }
}

// The event of each verb, from the words after it.

/// Returns a write: its node, reading, key and value.
fn write<'a>(words: &mut LineWords<'a>) -> Option<Event<Spelled<'a>>>
    ensures { Reads event_words HasLine (codes "write" ∷ words.old) result }
{
    let (node, reading) = front_numbers(words)?;
    let key = words.next()?;
    let value = words.last()?;
    Some(Event::Write {
        node,
        reading,
        key: bytes(key)?,
        value: bytes(value)?,
    })
}

/// Returns a deletion: its node, reading and key.
fn delete<'a>(words: &mut LineWords<'a>) -> Option<Event<Spelled<'a>>>
    ensures { Reads event_words HasLine (codes "delete" ∷ words.old) result }
{
    let (node, reading) = front_numbers(words)?;
    let key = words.last()?;
    Some(Event::Delete {
        node,
        reading,
        key: bytes(key)?,
    })
}

/// Returns a report: its node and reading.
#[inline(always)]
fn report<'a>(words: &mut LineWords<'a>) -> Option<Event<Spelled<'a>>>
    ensures { Reads event_words HasLine (codes "report" ∷ words.old) result }
{
    let (node, reading) = node_number(words)?;
    Some(Event::Report { node, reading })
}

/// Returns a retirement: its node and reading.
fn retire<'a>(words: &mut LineWords<'a>) -> Option<Event<Spelled<'a>>>
    ensures { Reads event_words HasLine (codes "retire" ∷ words.old) result }
{
    let (node, reading) = node_number(words)?;
    Some(Event::Retire { node, reading })
}

/// Returns a join.
fn join<'a>(words: &mut LineWords<'a>) -> Option<Event<Spelled<'a>>>
    ensures { Reads event_words HasLine (codes "join" ∷ words.old) result }
{
    no_more(words)?;
    Some(Event::Join)
}

/// Returns the sending of a message: its node and reading.
#[inline(always)]
fn send<'a>(words: &mut LineWords<'a>) -> Option<Event<Spelled<'a>>>
    ensures { Reads event_words HasLine (codes "send" ∷ words.old) result }
{
    let (node, reading) = node_number(words)?;
    Some(Event::Send { node, reading })
}

/// Returns the receipt of a message: its node, reading and the number of the message.
#[inline(always)]
fn receive<'a>(words: &mut LineWords<'a>) -> Option<Event<Spelled<'a>>>
    ensures { Reads event_words HasLine (codes "receive" ∷ words.old) result }
{
    let (node, reading, message) = node_two_numbers(words)?;
    Some(Event::Receive {
        node,
        reading,
        message,
    })
}

/// Returns the observation of a snapshot: its node, reading and id.
fn observe<'a>(words: &mut LineWords<'a>) -> Option<Event<Spelled<'a>>>
    ensures { Reads event_words HasLine (codes "observe" ∷ words.old) result }
{
    let (node, reading, id) = node_two_numbers(words)?;
    Some(Event::Observe { node, reading, id })
}

/// Returns a delivery: the node and number of an item.
#[inline(always)]
fn deliver<'a>(words: &mut LineWords<'a>) -> Option<Event<Spelled<'a>>>
    ensures { Reads event_words HasLine (codes "deliver" ∷ words.old) result }
{
    let (node, number) = node_number(words)?;
    Some(Event::Deliver { node, number })
}

/// Returns the opening of a snapshot, at the floor or at a stamp.
fn open<'a>(words: &mut LineWords<'a>) -> Option<Event<Spelled<'a>>>
    ensures { Reads event_words HasLine (codes "open" ∷ words.old) result }
{
    let word = words.last()?;
    if word == b"floor".as_slice() {
        return Some(Event::OpenFloor);
    }
    let stamp = stamp(word)?;
    Some(Event::OpenAt { stamp })
}

/// Returns a read: its snapshot and key.
fn read<'a>(words: &mut LineWords<'a>) -> Option<Event<Spelled<'a>>>
    ensures { Reads event_words HasLine (codes "read" ∷ words.old) result }
{
    let id = words.number()?;
    let key = words.last()?;
    Some(Event::Read {
        id,
        key: bytes(key)?,
    })
}

/// Returns a listing: its snapshot.
fn list<'a>(words: &mut LineWords<'a>) -> Option<Event<Spelled<'a>>>
    ensures { Reads event_words HasLine (codes "list" ∷ words.old) result }
{
    let id = one_number(words)?;
    Some(Event::List { id })
}

/// Returns the closing of a snapshot.
fn close<'a>(words: &mut LineWords<'a>) -> Option<Event<Spelled<'a>>>
    ensures { Reads event_words HasLine (codes "close" ∷ words.old) result }
{
    let id = one_number(words)?;
    Some(Event::Close { id })
}

/// Returns a question for the floor.
fn floor<'a>(words: &mut LineWords<'a>) -> Option<Event<Spelled<'a>>>
    ensures { Reads event_words HasLine (codes "floor" ∷ words.old) result }
{
    no_more(words)?;
    Some(Event::Floor)
}

/// Returns a vacuum.
fn vacuum<'a>(words: &mut LineWords<'a>) -> Option<Event<Spelled<'a>>>
    ensures { Reads event_words HasLine (codes "vacuum" ∷ words.old) result }
{
    no_more(words)?;
    Some(Event::Vacuum)
}

/// Returns a question for the number of stored rows.
fn rows<'a>(words: &mut LineWords<'a>) -> Option<Event<Spelled<'a>>>
    ensures { Reads event_words HasLine (codes "rows" ∷ words.old) result }
{
    no_more(words)?;
    Some(Event::Rows)
}

// The words that follow several verbs.

/// Checks that no word is left.
fn no_more(words: &mut LineWords<'_>) -> Option<()>
    ensures { MatchOption result (words.old ≢ []) (λ _. words.old ≡ []) }
{
    match words.next() {
        Some(_) => None,
        None => Some(()),
    }
}

/// Returns a number, if nothing comes after it.
fn one_number(words: &mut LineWords<'_>) -> Option<u64>
    ensures { Reads (λ x. decimal x ∷ []) (λ x. x < 2 ^ 64) words.old result }
{
    let id = words.number()?;
    no_more(words)?;
    Some(id)
}

/// Returns a node and a number, whatever comes after them.
#[inline(always)]
fn front_numbers(words: &mut LineWords<'_>) -> Option<(u16, u64)>
    ensures { MatchOption result
        ((m n : ℕ) (rest : List (List ℕ)) → m < 2 ^ 16 → n < 2 ^ 64
        → words.old ≢ decimal m ∷ decimal n ∷ rest)
        (λ x. (x.0 < 2 ^ 16) × (x.1 < 2 ^ 64)
        × (words.old ≡ decimal x.0 ∷ decimal x.1 ∷ words.new)) }
{
    let node = words.node()?;
    let number = words.number()?;
    Some((node, number))
}

/// Returns a node and a number, if nothing comes after them.
fn node_number(words: &mut LineWords<'_>) -> Option<(u16, u64)>
    ensures { MatchOption result
        ((m n : ℕ) → m < 2 ^ 16 → n < 2 ^ 64 → words.old ≢ decimal m ∷ decimal n ∷ [])
        (λ x. (x.0 < 2 ^ 16) × (x.1 < 2 ^ 64) × (words.old ≡ decimal x.0 ∷ decimal x.1 ∷ [])) }
{
    let (first, second) = front_numbers(words)?;
    no_more(words)?;
    Some((first, second))
}

/// Returns a node and two numbers, if nothing comes after them.
fn node_two_numbers(words: &mut LineWords<'_>) -> Option<(u16, u64, u64)>
    ensures { MatchOption result
        ((m n k : ℕ) → m < 2 ^ 16 → n < 2 ^ 64 → k < 2 ^ 64
        → words.old ≢ decimal m ∷ decimal n ∷ decimal k ∷ [])
        (λ x. (x.0 < 2 ^ 16) × (x.1 < 2 ^ 64) × (x.2 < 2 ^ 64)
        × (words.old ≡ decimal x.0 ∷ decimal x.1 ∷ decimal x.2 ∷ [])) }
{
    let (first, second) = front_numbers(words)?;
    let third = words.number()?;
    no_more(words)?;
    Some((first, second, third))
}
