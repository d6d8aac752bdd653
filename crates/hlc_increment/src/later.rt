//! Whether a state may be one of the same store later on.
ghost use Rattle.std.specs.Prelude.{◌≡◌, ◌<◌, ◌≤◌, ◌↔◌, All, Contains, IsTrue};
ghost use Rattle.hlc_increment.specs.Increment.{AreLaterLinks, IsLaterLink, IsOpenOrNew, MayBeLater};

use hlc_core::Checkpoint;
use hlc_intake::Intake;
use hlc_snapshot::Snapshot;

/// Returns whether a state may be the older one later on. It looks at each link, and compares each open snapshot with
/// each of the older one.
pub(crate) fn may_be_later(older: &Checkpoint, newer: &Checkpoint) -> bool
    ensures { IsTrue result ↔ MayBeLater older.now newer.now }
{
    older.initial_nodes() == newer.initial_nodes()
        && are_later_links(older.links(), newer.links())
        && older.horizon() <= newer.horizon()
        && older.last_id() <= newer.last_id()
        && are_open_or_new(older, newer.snapshots())
}

/// Returns whether links may be the older ones later on, with those of nodes that joined.
fn are_later_links(older: &[Intake], newer: &[Intake]) -> bool
    ensures { IsTrue result ↔ AreLaterLinks older.now newer.now }
{
    if older.len() > newer.len() {
        return false;
    }
    for (link, later) in older.iter().zip(newer) {
        if !is_later_link(link, later) {
            return false;
        }
    }
    true
}

/// Returns whether a link may be the older one later on.
fn is_later_link(older: &Intake, newer: &Intake) -> bool
    ensures { IsTrue result ↔ IsLaterLink older.now newer.now }
{
    older.next() <= newer.next()
        && older.head() <= newer.head()
        && (!older.retired() || newer.retired())
}

/// Returns whether none of the snapshots was closed at the older state.
fn are_open_or_new(older: &Checkpoint, snapshots: &[Snapshot]) -> bool
    ensures { IsTrue result ↔ All (IsOpenOrNew older.now) snapshots.now }
{
    for snapshot in snapshots {
        if !is_open_or_new(older, snapshot) {
            return false;
        }
    }
    true
}

/// Returns whether a snapshot was open at the older state, or has an id that was not assigned then.
fn is_open_or_new(older: &Checkpoint, snapshot: &Snapshot) -> bool
    ensures { IsTrue result ↔ IsOpenOrNew older.now snapshot.now }
{
    snapshot.id > older.last_id() || is_among(older.snapshots(), snapshot)
}

/// Returns whether a snapshot is one of these.
fn is_among(snapshots: &[Snapshot], snapshot: &Snapshot) -> bool
    ensures { IsTrue result ↔ Contains snapshots.now snapshot.now }
{
    snapshots.contains(snapshot)
}
