//! The least head of each group of nodes.
ghost use Rattle.std.specs.Prelude.{◌≡◌, ◌+◌, ◌*◌, ◌≤◌, MatchOption, ◌<◌, length, min};
ghost use Rattle.hlc_heads.specs.declared.groups.TheConstants.{GROUP};
ghost use Rattle.hlc_heads.specs.Groups.{IsLeastIn, IsLeastOf, AreGroups, AreOthers};

use hlc_clock::Stamp;
use hlc_intake::Intake;

/// The number of nodes in a group, and the number of groups.
pub const GROUP: usize = 32;

/// Returns the least head of the nodes of a group that have not retired, or none if all have. `first` is the first node
/// of the group.
pub(crate) fn least_in(links: &[Intake], first: usize) -> Option<Stamp>
    requires { first ≤ 992 }
    ensures { IsLeastIn links.now first (first + GROUP) result }
{
    let mut least = None;
    for node in first..links.len().min(first + GROUP) {
        if !links[node].retired() {
            least = Some(lower(least, links[node].head()));
        }
    }
    least
}

/// Returns the least head of each group.
pub(crate) fn groups_of(links: &[Intake]) -> [Option<Stamp>; GROUP]
    ensures { AreGroups links.now result }
{
    let mut groups = [None; GROUP];
    for group in 0..GROUP {
        groups[group] = least_in(links, group * GROUP);
    }
    groups
}

/// Updates the least head of a node's group after the node's head rose from `was` or the node
/// retired. The group is scanned only if `was` was its least head.
pub(crate) fn regroup(
    groups: &mut [Option<Stamp>; GROUP],
    links: &[Intake],
    node: usize,
    was: Stamp,
)
    requires node { node < GROUP * GROUP }
    requires others { AreOthers links.now groups.old node was }
    ensures { AreGroups links.now groups.new }
{
    let group = node / GROUP;
    if groups[group] == Some(was) {
        groups[group] = least_in(links, group * GROUP);
    }
}

/// Returns the least head of all groups, or none if no group has one.
pub(crate) fn least_of(groups: &[Option<Stamp>]) -> Option<Stamp>
    requires { length groups.now ≡ GROUP }
    ensures { IsLeastOf GROUP groups.now result }
{
    let mut least = None;
    for group in groups {
        if let Some(stamp) = group {
            least = Some(lower(least, *stamp));
        }
    }
    least
}

/// Returns the lower of the two stamps, or `stamp` if it is the only one.
pub fn lower(least: Option<Stamp>, stamp: Stamp) -> Stamp
    ensures { MatchOption least (result ≡ stamp) (λ low. result ≡ min low stamp) }
{
    match least {
        Some(low) if low < stamp => low,
        _ => stamp,
    }
}
