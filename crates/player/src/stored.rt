//! The calls of a store in one thread.
use crate::events::item_of;
use crate::fill::fill;
use crate::lines::{LONGEST, next_key, next_name, next_node, next_number, next_stamp};
use crate::play::{Played, say, say_made};
use crate::saved::Saved;
use crate::spelled::{spell_item, spell_message, spell_node};
use hlc_core::{Core, CoreFault, Item};
use hlc_text::words::LineWords;
use std::fmt::Debug;

/// A store, once a line has made one.
#[derive(Drop)]
pub(crate) struct Stored {
    pub(crate) core: Option<Core>,
    /// The item until it is accepted. A refused one is returned here.
    held: Option<Item>,
    pub(crate) saved: Saved,
}

impl Stored {
    /// Returns what plays the calls of this store.
    pub(crate) fn of(core: Option<Core>) -> Stored {
        let (held, saved) = (None, Saved::default());
        Stored { core, held, saved }
    }

    /// Makes a store of this many nodes.
    fn make(&mut self, rt: &HostRuntime, nodes: u16) -> Option<()> {
        self.core = match Core::new(rt.alloc(), nodes) {
            Ok(made) => Some(made),
            Err(fault) => return say_fault(rt, &fault),
        };
        say(rt, "nodes", &nodes)
    }

    /// Holds the item of these words.
    fn hold(&mut self, rt: &HostRuntime, words: &mut LineWords<'_>) -> Option<()> {
        self.held = Some(item_of(rt.alloc(), next_name(words), words)?);
        Some(())
    }

    /// Passes the held item to the store. A refused one is printed, and is held again.
    fn accept(&mut self, rt: &HostRuntime) -> Option<()> {
        let core = self.core.as_mut()?;
        match core.accept(self.held.take()?) {
            Ok(accepted) => say(rt, "accepted", &accepted),
            Err((fault, item)) => {
                let _ = say(rt, "returned", &item);
                self.held = Some(item);
                say_fault(rt, &fault)
            }
        }
    }

    /// Makes a call of the store, or of what it is saved as.
    fn call_core(&mut self, rt: &HostRuntime, name: &str, words: &mut LineWords<'_>) -> Option<()> {
        let core = self.core.as_mut()?;
        match name {
            "checkpoint" => self.saved.hold(rt, core.checkpoint().ok()),
            "save" => self.saved.save(rt, core, next_number(words)),
            "encode" => self.saved.encode(rt, next_number(words)),
            "decode" => self.saved.decode(rt),
            "digest" => self.saved.digest(rt),
            "fault" => self.saved.fault(rt),
            _ => change(rt, core, name, words),
        }
    }
}

impl Played for Stored {
    fn call(&mut self, rt: &HostRuntime, name: &str, words: &mut LineWords<'_>) -> Option<()> {
        match name {
            "nodes" => self.make(rt, next_node(words)),
            "hold" => self.hold(rt, words),
            "accept" => self.accept(rt),
            "item" => spell_item(rt, words),
            "message" => spell_message(rt, words),
            "node" => spell_node(rt, words),
            "load" => self.load(rt, words),
            "resume" => self.resume(rt),
            "pieces" => self.move_in_pieces(rt, next_number(words), next_number(words)),
            "restore" => self.restore(rt),
            "from_checkpoint" => self.move_in_checkpoint(rt),
            "copy" => self.copy(rt),
            _ => self.call_core(rt, name, words),
        }
    }

    fn store(&mut self) -> Option<&mut Core> {
        self.core.as_mut()
    }
}

/// Makes a call that may change a store.
fn change(rt: &HostRuntime, core: &mut Core, name: &str, words: &mut LineWords<'_>) -> Option<()> {
    match name {
        "write" | "delete" | "batch" | "report" | "retire" => {
            let item = item_of(rt.alloc(), name, words)?;
            answer(rt, "accepted", core.accept_copy(&item))
        }
        "join" => answer(rt, "joined", core.join()),
        "join_at" => answer(rt, "joined", core.join_at(next_stamp(words))),
        "open" => answer(rt, "snapshot", core.open(next_stamp(words))),
        "open_floor" => answer(rt, "snapshot", core.open_floor()),
        "close" => say(rt, "closed", &core.close(next_number(words))),
        "close_all" => Some(core.close_all()),
        "vacuum" => say_made(rt, "vacuumed", core.vacuum().ok()),
        "vacuum_to" => answer(rt, "vacuumed", core.vacuum_to(next_stamp(words))),
        "vacuum_counted" => say_made(rt, "vacuumed", core.vacuum_counted().ok()),
        "vacuum_to_counted" => answer(rt, "vacuumed", core.vacuum_to_counted(next_stamp(words))),
        "vacuum_part_counted" => {
            let (at, mut room) = (next_stamp(words), [0; LONGEST]);
            let (after, limit) = (next_key(words, &mut room), next_number(words) as usize);
            answer(rt, "vacuumed", core.vacuum_part_counted(at, after, limit))
        }
        "fill" => fill(rt, core, words),
        _ => ask(rt, core, name, words),
    }
}

/// Asks a store what changes nothing.
fn ask(rt: &HostRuntime, core: &Core, name: &str, words: &mut LineWords<'_>) -> Option<()> {
    match name {
        "check" => {
            let item = item_of(rt.alloc(), next_name(words), words)?;
            answer(rt, "accepted", core.check_item(&item))
        }
        "read" => {
            let (id, mut room) = (next_number(words), [0; LONGEST]);
            say(rt, "value", &core.read(id, next_key(words, &mut room)))
        }
        "list" => answer(rt, "listing", core.list(next_number(words))),
        "rows_to" => say_made(rt, "rows", core.rows_to(next_stamp(words)).ok()),
        "first" => say(rt, "first", &first_of(core, next_number(words))),
        "differ" => say(rt, "differ", &core.changes(1, next_number(words))?.next()),
        "stamp_of" => say(rt, "stamp", &core.stamp_of(next_number(words))),
        "count" => say(rt, "count", &core.count(next_node(words))),
        "floor" => say(rt, "floor", &core.floor()),
        "horizon" => say(rt, "horizon", &core.horizon()),
        "rows" => say(rt, "rows", &core.rows()),
        "sizes" => say(rt, "sizes", &core.sizes()),
        _ => Some(()),
    }
}

/// Prints an answer, or a refusal. Returns none where memory ran out.
fn answer<T: Debug + Drop>(
    rt: &HostRuntime,
    name: &str,
    answer: Result<T, CoreFault>,
) -> Option<()> {
    match &answer {
        Ok(answer) => say(rt, name, answer),
        Err(fault) => say_fault(rt, fault),
    }
}

/// Prints the number of a refusal, and its word. Returns none where memory ran out.
fn say_fault(rt: &HostRuntime, fault: &CoreFault) -> Option<()> {
    match fault {
        CoreFault::NoMemory => None,
        _ => say(rt, "refused", &(fault.code(), fault.word())),
    }
}

/// Returns how long the first key and its value are in a snapshot.
fn first_of(core: &Core, id: u64) -> Option<(usize, usize)> {
    let view = core.at(id)?;
    let mut answers = view.range(b"", None);
    let (key, value) = answers.next()?;
    Some((key.len(), value.len()))
}
