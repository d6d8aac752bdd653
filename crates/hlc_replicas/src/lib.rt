//! The laws of replicas, which are stores that accept the items of one log; of stores that begin with a state; and of
//! reports.
#![tactic(auto)]

mod states;

ghost use Rattle.std.specs.Prelude.{◌≡◌, ◌<◌, ◌≤◌, ◌⊎◌, ◌++◌, false, ℕ, List, Contains};
ghost use Rattle.hlc_node.specs.declared.item.Item.{Item as AnItem};
ghost use Rattle.hlc_rows.specs.Rows.{answer};
ghost use Rattle.hlc_snapshot.specs.RegistryView.{stamps};
ghost use Rattle.hlc_core.specs.Past.{Step, Took, IsLegal, floor, head, horizon, initial_nodes, item_refusal};
ghost use Rattle.hlc_core.specs.Past.{join_at_refusal, numbered, open_snapshots, retired, top, writes};
ghost use Rattle.hlc_core.specs.Replicas.{AreReplicas, CanMeet, begun, items_of, joins_of};
ghost use Rattle.hlc_core.specs.StoreView.{StoreView, Represents};
ghost use Rattle.hlc_replicas.specs.Places.{log_of};

pub use states::{a_state_goes_on_as_its_past, histories_from_states_are_faithful};

/// Replicas never diverge in what they accept. If they have as many nodes at the start and the same nodes joined at the
/// same starts, one accepts an item exactly if the other does, provided that both accepted the same items of its node,
/// whatever they accepted of others. If both accepted the same items of all nodes, in any order between links, their
/// floors are equal, and a join at a start is accepted by both or by none.
///
/// Pasts that begin with a state must begin with the same one. Those that start with nodes begin with none (`begun`),
/// so of them this asks nothing.
pub fn replicas_accept_alike()
    ensures items { (past other : List Step) (item : AnItem) → IsLegal past → IsLegal other
        → begun past ≡ begun other
        → initial_nodes past ≡ initial_nodes other → joins_of past ≡ joins_of other
        → items_of item.node past ≡ items_of item.node other
        → item_refusal past item ≡ item_refusal other item }
    ensures floor { (past other : List Step) → 0 < initial_nodes past
        → IsLegal past → IsLegal other → AreReplicas past other → floor past ≡ floor other }
    ensures joins { (past other : List Step) (start : ℕ) → 0 < initial_nodes past
        → IsLegal past → IsLegal other → AreReplicas past other
        → join_at_refusal past start ≡ join_at_refusal other start }
{}

/// Replicas that accepted the same items, in any order between links, answer alike at each stamp from the horizons of
/// both on, whenever either was vacuumed and whatever snapshots are open.
pub fn replicas_answer_alike()
    ensures accepted { (past other : List Step) → IsLegal past → AreReplicas past other
        → (key : List ℕ) (stamp : ℕ)
        → answer (writes past) key stamp ≡ answer (writes other) key stamp }
    ensures stored { (kept copy : StoreView) (past other : List Step) → Represents kept past
        → Represents copy other → AreReplicas past other → (key : List ℕ) (stamp : ℕ)
        → horizon past ≤ stamp → horizon other ≤ stamp
        → answer kept.rows key stamp ≡ answer copy.rows key stamp }
{}

/// Stores at different places of one log answer alike at each stamp up to the floors of both, if each can go on until
/// they are replicas: from their horizons on, and at snapshots that they have open.
pub fn lagging_replicas_answer_alike()
    ensures accepted { (past other : List Step) → CanMeet past other
        → (key : List ℕ) (stamp : ℕ) → stamp ≤ floor past → stamp ≤ floor other
        → answer (writes past) key stamp ≡ answer (writes other) key stamp }
    ensures stored { (kept copy : StoreView) (past other : List Step) → Represents kept past
        → Represents copy other → CanMeet past other → (key : List ℕ) (stamp : ℕ)
        → stamp ≤ floor past → stamp ≤ floor other
        → (horizon past ≤ stamp) ⊎ Contains (stamps (open_snapshots past)) stamp
        → (horizon other ≤ stamp) ⊎ Contains (stamps (open_snapshots other)) stamp
        → answer kept.rows key stamp ≡ answer copy.rows key stamp }
{}

/// Stores at two places of one log can meet, whatever snapshots each opened and whenever each was vacuumed: the one
/// that is behind can take the items and the joins that it lacks. So they answer alike
/// (`lagging_replicas_answer_alike`).
pub fn places_of_one_log_can_meet()
    ensures { (past other more : List Step) → 0 < initial_nodes past → IsLegal past → IsLegal other
        → log_of other ≡ log_of more ++ log_of past → CanMeet past other }
{}

/// The floor rises with the reports. If the head of each node that has not retired is at or above a stamp, and some
/// head is, then the floor is too: so it is if each of these nodes had an item accepted there, as a report, and one is
/// left.
pub fn reports_raise_the_floor()
    ensures heads { (past : List Step) (at : ℕ) → at ≤ top past
        → ((n : ℕ) → n < numbered past → retired n past ≡ false → at ≤ head n past)
        → at ≤ floor past }
    ensures items { (past : List Step) (at left : ℕ) → IsLegal past
        → left < numbered past → retired left past ≡ false
        → ((n : ℕ) → n < numbered past → retired n past ≡ false → (item : AnItem)
        × Contains past (Took item) × (item.node ≡ n) × (at ≤ item.stamp))
        → at ≤ floor past }
{}
