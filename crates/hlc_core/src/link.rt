//! Whether the intake of its node's link admits an item.
ghost use Rattle.std.specs.Prelude.{◌≡◌, Some, None, Err, MatchOption, MatchResult, slice_get};
ghost use Rattle.hlc_core.specs.Past.{link_refusal};

use hlc_events::CoreFault;
use hlc_intake::Intake;
use hlc_node::ItemRef;

/// Returns the first reason to refuse an item, apart from memory.
pub fn check(intakes: &[Intake], item: &ItemRef<'_>) -> Result<(), CoreFault>
    ensures { MatchOption (slice_get intakes.now item.now.node) (result ≡ Err CoreFault.NoNode)
        (λ link. MatchResult result
        (λ _. link_refusal link.retired link.next link.head item.now ≡ None)
        (λ fault. link_refusal link.retired link.next link.head item.now ≡ Some fault)) }
{
    let Some(intake) = intakes.get(item.node() as usize) else {
        return Err(CoreFault::NoNode);
    };
    let mut intake = *intake;
    intake.admit(item.number(), item.stamp(), item.retires())?;
    match item.body_fault() {
        Some(fault) => Err(CoreFault::Body(fault)),
        None => Ok(()),
    }
}
