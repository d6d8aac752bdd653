//! What a store has: its rows, its nodes, and their links.
ghost use Rattle.std.specs.Prelude.{◌≡◌, ◌==◌, ◌&&◌, List, length, not};
ghost use Rattle.hlc_core.specs.{Past.Step, Past.numbered, StoreView.Represents};
ghost use Rattle.hlc_calls.specs.Answers.{ReturnsSizes, narrowed};
ghost use Rattle.hlc_calls.specs.Status.{ReturnsLink, IsFirstHolder, ReturnsHolder};

use crate::outputs::narrow;
use hlc_core::{Core, Intake, Stamp};

/// Returns the number of stored rows.
pub fn rows(core: &Core) -> u64
    ensures { result ≡ narrowed (length core.now.rows) }
{
    narrow(core.rows())
}

/// Writes how many rows and keys are stored, the bytes of the keys, each counted once, and those of the values of all
/// rows.
pub fn sizes(
    core: &Core,
    rows: &mut u64,
    keys: &mut u64,
    key_bytes: &mut u64,
    value_bytes: &mut u64,
)
    ensures { ReturnsSizes core.now.rows rows.new keys.new key_bytes.new value_bytes.new }
{
    let sizes = core.sizes();
    *rows = narrow(sizes.rows);
    *keys = narrow(sizes.keys);
    *key_bytes = narrow(sizes.key_bytes);
    *value_bytes = narrow(sizes.value_bytes);
}

/// Returns the number of nodes, with those that joined and those that retired.
pub fn nodes(core: &Core) -> u64
    ensures { (past : List Step) → Represents core.now past → result ≡ numbered past }
{
    core.links().len() as u64
}

/// Returns 0, the number of a node's next item, its head and whether it has retired; or 1.
pub fn link(core: &Core, node: u16, next: &mut u64, head: &mut u64, retired: &mut bool) -> u32
    ensures { (past : List Step) → Represents core.now past
        → ReturnsLink node past result next.new head.new retired.new }
{
    *next = 0;
    *head = 0;
    *retired = false;
    match core.links().get(node as usize) {
        Some(link) => {
            *next = link.next();
            *head = link.head().bits();
            *retired = link.retired();
            0
        }
        None => 1,
    }
}

/// Returns whether a link's node has not retired and has this head.
fn holds_back(link: &Intake, floor: Stamp) -> bool
    ensures { result ≡ (not link.now.retired && (link.now.head == floor)) }
{
    !link.retired() && link.head() == floor
}

/// Returns the first link whose node has not retired and whose head is this stamp, by its place.
fn holder(links: &[Intake], floor: Stamp) -> Option<usize>
    ensures { IsFirstHolder links.now floor result }
{
    for place in 0..links.len() {
        if holds_back(&links[place], floor) {
            return Some(place);
        }
    }
    None
}

/// Returns 0 and the first node whose head is the floor and which has not retired; or 115, if all nodes have.
pub fn floor_node(core: &Core, node: &mut u64) -> u32
    ensures { (past : List Step) → Represents core.now past
        → ReturnsHolder past result node.new }
{
    *node = 0;
    match holder(core.links(), core.floor()) {
        Some(place) => {
            *node = place as u64;
            0
        }
        None => 115,
    }
}
