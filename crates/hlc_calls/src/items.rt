//! Items that C passes as numbers and bytes.
ghost use Rattle.std.specs.Prelude.{◌≡◌, ◌≢◌, ◌∷◌, ◌++◌, List, None, OnOk, OnErr, IfOk, MatchResult, IsPermutation};
ghost use Rattle.hlc_node.specs.{declared.item.Body.Body as ABody, Items.an_item, Items.body_refusal};
ghost use Rattle.hlc_node.specs.declared.item.Body.TheVariants.{Report as a_report, Retire as a_retire};
ghost use Rattle.hlc_core.specs.Past.{Step, Took, item_refusal, item_rows};
ghost use Rattle.hlc_core.specs.{StoreView.Represents, Calls.IsWrite, Calls.IsRefusal};
ghost use Rattle.hlc_calls.specs.Answers.{ReturnsAccepted, ReturnsChecked};

use crate::codes::{answer, refuse};
use hlc_core::{Core, CoreFault, ItemRef, Stamp};

/// Returns why an item would be refused, apart from out of memory: 0, or the refusal and its word. Another item of the
/// same node, number and stamp is refused in the same way if its body is.
#[tactic(auto, using(crate::proofs::Refusals::expected_returns, crate::proofs::Refusals::made_returns, crate::proofs::Refusals::alike_returns, crate::proofs::Refusals::alike_made_returns))]
pub fn check(core: &Core, item: &ItemRef<'_>, word: &mut u64) -> u32
    ensures own { (past : List Step) → Represents core.now past
        → ReturnsChecked item.now past result word.new }
    ensures alike { (body : ABody) → body_refusal body ≡ body_refusal item.now.body
        → (past : List Step) → Represents core.now past
        → ReturnsChecked (an_item item.now.node item.now.number item.now.stamp body) past result
        word.new }
{
    match core.check_ref(item) {
        Ok(()) => {
            *word = 0;
            0
        }
        Err(fault) => refuse(&fault, word),
    }
}

/// Returns why a report, or a retirement, would be refused: 0, or the refusal and its word.
pub fn check_plain(core: &Core, node: u16, number: u64, stamp: Stamp, word: &mut u64) -> u32
    ensures report { (past : List Step) → Represents core.now past
        → ReturnsChecked (an_item node number stamp a_report) past result word.new }
    ensures retire { (past : List Step) → Represents core.now past
        → ReturnsChecked (an_item node number stamp a_retire) past result word.new }
{
    check(core, &ItemRef::report(node, number, stamp), word)
}

/// Accepts an item. Returns its stamp, or why it is refused.
fn accept_item(core: &mut Core, item: &ItemRef<'_>) -> Result<u64, CoreFault>
    ensures ok { IfOk result (λ stamp. stamp ≡ item.now.stamp) }
    ensures represents { (past : List Step) → Represents core.old past → MatchResult result
        (λ _. (item_refusal past item.now ≡ None) × Represents core.new (Took item.now ∷ past))
        (λ fault. IsRefusal (item_refusal past item.now) (IsWrite item.now.body) fault) }
    ensures rows { OnOk result (IsPermutation (core.old.rows ++ item_rows item.now) core.new.rows) }
    ensures unchanged { OnErr result (core.new ≡ core.old) }
{
    match core.accept_ref(item) {
        Ok(accepted) => Ok(accepted.stamp().bits()),
        Err(fault) => Err(fault),
    }
}

/// Accepts an item. Returns 0 and its stamp, or a refusal and its word.
#[tactic(auto, using(crate::proofs::Refusals::refused_returns, crate::proofs::Refusals::made_returns))]
pub fn accept(core: &mut Core, item: &ItemRef<'_>, word: &mut u64) -> u32
    ensures answer { (past : List Step) → Represents core.old past
        → ReturnsAccepted core.new item.now past result word.new }
    ensures rows { result ≡ 0 → IsPermutation (core.old.rows ++ item_rows item.now) core.new.rows }
    ensures unchanged { result ≢ 0 → core.new ≡ core.old }
{
    answer(accept_item(core, item), word)
}
