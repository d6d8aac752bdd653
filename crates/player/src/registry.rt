//! The calls of a registry of snapshots alone.
use crate::lines::{next_number, next_stamp};
use crate::play::{Played, say};
use hlc_snapshot::{Registry, SnapshotFault, Stamp};
use hlc_text::words::LineWords;

impl Played for Registry {
    fn call(&mut self, rt: &HostRuntime, name: &str, words: &mut LineWords<'_>) -> Option<()> {
        match name {
            "open" => open(rt, self, next_stamp(words)),
            "close" => say(rt, "closed", &self.close(next_number(words))),
            "stamp_of" => say(rt, "stamp", &self.stamp_of(next_number(words))),
            "points" => say(rt, "points", &self.points(next_stamp(words)).ok()?),
            _ => Some(()),
        }
    }
}

/// Opens a snapshot.
fn open(rt: &HostRuntime, registry: &mut Registry, stamp: Stamp) -> Option<()> {
    match registry.open(stamp) {
        Err(SnapshotFault::NoMemory) => None,
        answer => say(rt, "snapshot", &answer),
    }
}
