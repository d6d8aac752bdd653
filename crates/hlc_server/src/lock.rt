//! The lock of a shared store, with or without a trail.
ghost use Rattle.std.specs.{Prelude.◌≡◌, Option.is_some};
ghost use Rattle.hlc_server.specs.SharedView.{keeps_trail};

use crate::guarded::Guarded;
use crate::locked::Locked;
use std::sync::Mutex;
use std::sync::ledger::Ledger;

/// The lock of a shared store.
#[derive(Drop)]
pub(crate) enum StoreLock<L: Ledger> {
    /// With a trail.
    Audited(Mutex<Locked<L, 1>>),
    /// Without a trail.
    Plain(Mutex<Locked<L, 0>>),
}

impl<L: Ledger> StoreLock<L> {
    /// Returns a lock around this.
    pub(crate) fn new(guarded: Guarded<L>) -> StoreLock<L>
        ensures { keeps_trail result ≡ is_some guarded.trail }
    {
        if guarded.trail.is_some() {
            StoreLock::Audited(Mutex::new(Locked { guarded }))
        } else {
            StoreLock::Plain(Mutex::new(Locked { guarded }))
        }
    }

    /// Removes the lock, and returns what it protected.
    pub(crate) fn into_inner(self) -> Guarded<L>
        ensures { is_some result.trail ≡ keeps_trail self }
    {
        match self {
            StoreLock::Audited(lock) => lock.into_inner().guarded,
            StoreLock::Plain(lock) => lock.into_inner().guarded,
        }
    }
}
