//! Waiting for a flag, and a gate that stops a worker.
use hlc_workers::Gate;
use std::sync::Wait;
use std::sync::atomic::{AtomicBool, Ordering};

/// The number of looks after which a wait gives up. Each is one load.
const LOOKS: u64 = 4_000_000_000;

/// Looks until the flag is set. Returns false if it gave up.
pub(crate) fn was_set(flag: &AtomicBool) -> bool {
    for _ in 0..LOOKS {
        if flag.load(Ordering::SeqCst) {
            return true;
        }
    }
    false
}

/// Answers false at one turn.
#[derive(Drop)]
pub(crate) struct StopsAt(pub(crate) u64);

impl Gate for StopsAt {
    ghost may_answer = { λ gate turn answer. Unit {0} };

    fn pass<R: Wait>(&self, _rt: &R, turn: u64) -> bool {
        turn != self.0
    }
}
