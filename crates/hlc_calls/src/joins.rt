//! Nodes that join an open store.
ghost use Rattle.std.specs.Prelude.{◌≡◌, ◌≢◌, List};
ghost use Rattle.hlc_core.specs.{Past.Step, StoreView.Represents};
ghost use Rattle.hlc_calls.specs.Answers.{ReturnsJoined, ReturnsJoinedAt};

use crate::codes::{number, refuse};
use hlc_core::{Core, Stamp};

/// Lets a node join. Returns 0, its number and the stamp of its start, or a refusal.
#[tactic(auto, using(crate::proofs::Refusals::refused_returns, crate::proofs::Refusals::made_returns))]
pub fn join(core: &mut Core, node: &mut u16, start: &mut u64) -> u32
    ensures answer { (past : List Step) → Represents core.old past
        → ReturnsJoined core.new past result node.new start.new }
    ensures rows { core.new.rows ≡ core.old.rows }
    ensures unchanged { result ≢ 0 → (core.new ≡ core.old) × (node.new ≡ 0) × (start.new ≡ 0) }
{
    match core.join() {
        Ok(made) => {
            let (number, stamp) = made;
            *node = number;
            *start = stamp.bits();
            0
        }
        Err(fault) => {
            *node = 0;
            *start = 0;
            number(&fault)
        }
    }
}

/// Lets a node join at this start. Returns 0, its number and its start, or a refusal and its word.
#[tactic(auto, using(crate::proofs::Refusals::refused_returns, crate::proofs::Refusals::made_returns))]
pub fn join_at(core: &mut Core, start: Stamp, node: &mut u16, returned: &mut u64) -> u32
    ensures answer { (past : List Step) → Represents core.old past
        → ReturnsJoinedAt core.new start past result node.new returned.new }
    ensures rows { core.new.rows ≡ core.old.rows }
    ensures unchanged { result ≢ 0 → (core.new ≡ core.old) × (node.new ≡ 0) }
{
    match core.join_at(start) {
        Ok(number) => {
            *node = number;
            *returned = start.bits();
            0
        }
        Err(fault) => {
            *node = 0;
            refuse(&fault, returned)
        }
    }
}
