//! What is compared to find that a store changed.
ghost use Rattle.std.specs.Prelude.{◌≡◌};
ghost use Rattle.hlc_saved.specs.Saver.{items_in, mark_of};

use hlc_checkpoint::StoreRef;
use hlc_intake::Intake;

/// Numbers of a store. Each change of a store changes one of them: an accepted item the number of items, a join that of
/// the nodes, a snapshot that opens or closes one of the next two, and a vacuum the horizon or the number of rows. None
/// of these changes is undone by a later one (`marks_tell_changes`).
#[derive(Clone, Copy, Debug, PartialEq, Eq)]
pub struct Mark {
    nodes: usize,
    items: u128,
    last_id: u64,
    snapshots: usize,
    horizon: u64,
    rows: u128,
}

/// Returns the numbers of a store. It looks at each node, and needs no memory.
pub fn mark_of(store: &StoreRef<'_>) -> Mark
    ensures { result ≡ mark_of store.now }
{
    let links = store.links();
    Mark {
        nodes: links.len(),
        items: items_in(links),
        last_id: store.last_id(),
        snapshots: store.snapshots().len(),
        horizon: store.horizon().bits(),
        rows: store.count(),
    }
}

/// Returns how many items were accepted.
fn items_in(links: &[Intake]) -> u128
    ensures { result ≡ items_in links.now }
{
    let mut items = 0;
    for link in links {
        items += u128::from(link.next());
    }
    items
}
