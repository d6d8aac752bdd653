//! Snapshots: they are opened, closed and listed.
ghost use Rattle.std.specs.Prelude.{◌≡◌, ◌≢◌, List, slice_get};
ghost use Rattle.hlc_core.specs.{Past.Step, Past.open_snapshots, StoreView.Represents};
ghost use Rattle.hlc_calls.specs.Answers.{ReturnsOpened, ReturnsOpenedAtFloor, ReturnsClosed};
ghost use Rattle.hlc_calls.specs.Status.{ReturnsSnapshot};

use crate::codes::{answer, refuse};
use hlc_core::{Core, Stamp};

/// Opens a snapshot at a stamp from the horizon (GC threshold) to the floor (closed timestamp). Returns 0 and its id;
/// or 8, 9, 11, 14 or 15 and its word, and then changes nothing.
#[tactic(auto, using(crate::proofs::Refusals::refused_returns, crate::proofs::Refusals::made_returns))]
pub fn open(core: &mut Core, stamp: Stamp, returned: &mut u64) -> u32
    ensures answer { (past : List Step) → Represents core.old past
        → ReturnsOpened core.new stamp past result returned.new }
    ensures rows { core.new.rows ≡ core.old.rows }
    ensures unchanged { result ≢ 0 → core.new ≡ core.old }
{
    answer(core.open(stamp), returned)
}

/// Opens a snapshot at the floor (closed timestamp). Returns 0, its id and its stamp; or 11, 14 or 15, and then changes
/// nothing.
#[tactic(auto, using(crate::proofs::Refusals::refused_returns, crate::proofs::Refusals::made_returns))]
pub fn open_floor(core: &mut Core, returned: &mut u64, stamp: &mut u64) -> u32
    ensures answer { (past : List Step) → Represents core.old past
        → ReturnsOpenedAtFloor core.new past result returned.new stamp.new }
    ensures rows { core.new.rows ≡ core.old.rows }
    ensures unchanged { result ≢ 0 → (core.new ≡ core.old) × (stamp.new ≡ 0) }
{
    match core.open_floor() {
        Ok(opening) => {
            let (id, at) = opening;
            *returned = id;
            *stamp = at.bits();
            0
        }
        Err(fault) => {
            *stamp = 0;
            refuse(&fault, returned)
        }
    }
}

/// Closes a snapshot. Returns 0 and its stamp, or 10.
pub fn close(core: &mut Core, id: u64, returned: &mut u64) -> u32
    ensures answer { (past : List Step) → Represents core.old past
        → ReturnsClosed core.new id past result returned.new }
    ensures rows { core.new.rows ≡ core.old.rows }
    ensures unchanged { result ≢ 0 → core.new ≡ core.old }
{
    match core.close(id) {
        Ok(stamp) => {
            *returned = stamp.bits();
            0
        }
        Err(_) => {
            *returned = 0;
            10
        }
    }
}

/// Returns 0, the id and the stamp of the open snapshot at a place, by rising ids; or 117.
pub fn snapshot(core: &Core, place: u64, id: &mut u64, stamp: &mut u64) -> u32
    ensures { (past : List Step) → Represents core.now past
        → ReturnsSnapshot (slice_get (open_snapshots past) place) result id.new stamp.new }
{
    *id = 0;
    *stamp = 0;
    match core.snapshots().get(place as usize) {
        Some(snapshot) => {
            *id = snapshot.id;
            *stamp = snapshot.stamp.bits();
            0
        }
        None => 117,
    }
}
