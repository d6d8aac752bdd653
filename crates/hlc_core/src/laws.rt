//! What is true of every legal past, and of cores that represent one.
ghost use Rattle.std.specs.Prelude.{◌≡◌, ◌+◌, ◌<◌, ◌≤◌, ◌⊎◌, true, false, ℕ, List, [], ◌∷◌, ◌++◌, Some, None, All};
ghost use Rattle.std.specs.Prelude.{length};
ghost use Rattle.hlc_rows.specs.{Rows.IsRowSet, Rows.answer, declared.row.Row.Row as ARow};
ghost use Rattle.hlc_core.specs.Past.{Step, Began, Took, Joined, IsLegal, initial_nodes, numbered, retired, top};
ghost use Rattle.hlc_core.specs.Past.{writes, head, floor, open_snapshots, item_refusal, join_refusal, join_at_refusal};
ghost use Rattle.hlc_core.specs.Past.{greatest_accepted, stamp_of};
ghost use Rattle.hlc_core.specs.StoreView.{StoreView, Represents};
ghost use Rattle.hlc_core.specs.Checkpoint.{IsCheckpoint, IsCopyOf, IsFirstReason};
ghost use Rattle.hlc_witness.specs.Certificate.{RowsAscend};
ghost use Rattle.hlc_heads.specs.declared.heads.TheConstants.{MAX_INITIAL_NODES};
ghost use Rattle.hlc_checkpoint.specs.declared.checkpoint.RestoreFault.{RestoreFault as AFault};
ghost use Rattle.hlc_core.specs.{Listing.IsListing, Headline.IsFaithful, History.RepresentsHistory};
ghost use Rattle.hlc_core.specs.Differences.{Difference, AreDifferences, patched};
ghost use Rattle.hlc_events.specs.declared.event.CoreEvent.{CoreEvent as AnEvent};
ghost use Rattle.hlc_core.specs.declared.{reply.CoreReply.CoreReply as AReply, listing.Pair.Pair as APair};
ghost use Rattle.hlc_node.specs.declared.item.Item.{Item as AnItem};

/// No two accepted writes are alike in key, stamp and node, so a read has one answer.
pub fn accepted_writes_are_a_row_set()
    ensures { (past : List Step) → IsLegal past → IsRowSet (writes past) }
{}

/// An item that is accepted after a past has a stamp above its floor, so no later write changes a read at or below the
/// floor.
pub fn later_items_are_above_the_floor()
    ensures { (past : List Step) (item : AnItem) → item_refusal past item ≡ None
        → floor past < item.stamp }
{}

/// No open snapshot is above the floor: it was not above it when it was opened, and the floor never falls.
pub fn open_snapshots_are_at_most_the_floor()
    ensures { (past : List Step) → IsLegal past
        → All (λ snapshot. snapshot.stamp ≤ floor past) (open_snapshots past) }
{}

/// What is read at or below the floor is final: whatever takes place later, no answer there changes. So a snapshot
/// keeps its stamp and its answers for as long as it is open.
pub fn answers_stay()
    ensures floor { (past more : List Step) → IsLegal (more ++ past)
        → (key : List ℕ) (stamp : ℕ) → stamp ≤ floor past
        → answer (writes (more ++ past)) key stamp ≡ answer (writes past) key stamp }
    ensures snapshots { (past more : List Step) (id stamp again : ℕ) → IsLegal (more ++ past)
        → stamp_of id past ≡ Some stamp → stamp_of id (more ++ past) ≡ Some again
        → (again ≡ stamp) × ((key : List ℕ)
        → answer (writes (more ++ past)) key again ≡ answer (writes past) key stamp) }
{}

/// The floor is the head of some node that has not retired, or, if all have, the greatest head; and no head of a node
/// that has not retired is below it.
pub fn floor_is_the_least_head()
    ensures some { (past : List Step)
        → ((n : ℕ) × (n < numbered past) × (retired n past ≡ false) × (head n past ≡ floor past))
        ⊎ (((n : ℕ) → n < numbered past → retired n past ≡ true) × (floor past ≡ top past)) }
    ensures least { (past : List Step) (n : ℕ) → n < numbered past
        → retired n past ≡ false → floor past ≤ head n past }
{}

/// The floor never falls: neither when an item is accepted, a node's last one or not, nor when a node joins. No other
/// step moves it, so no later one is lower.
pub fn the_floor_never_falls()
    ensures took { (past : List Step) (item : AnItem) → item_refusal past item ≡ None
        → floor past ≤ floor (Took item ∷ past) }
    ensures joined { (past : List Step) (node start : ℕ) → IsLegal (Joined node start ∷ past)
        → floor past ≤ floor (Joined node start ∷ past) }
    ensures later { (past more : List Step) → IsLegal (more ++ past)
        → floor past ≤ floor (more ++ past) }
{}

/// A node that joins does not move the floor, if some node has not retired.
pub fn joins_keep_the_floor()
    ensures { (past : List Step) (node start n : ℕ) → IsLegal (Joined node start ∷ past)
        → n < numbered past → retired n past ≡ false
        → floor (Joined node start ∷ past) ≡ floor past }
{}

/// If all nodes have retired, the floor is the greatest stamp of an accepted item.
pub fn retired_nodes_leave_the_greatest_stamp()
    ensures { (past : List Step) → 0 < initial_nodes past → IsLegal past
        → ((n : ℕ) → n < numbered past → retired n past ≡ true)
        → floor past ≡ greatest_accepted past }
{}

/// A join without a start is a join at the floor: it is refused in the same cases, and the floor does not move.
pub fn a_join_is_one_at_the_floor()
    ensures refusal { (past : List Step) → join_at_refusal past (floor past) ≡ join_refusal past }
    ensures floor { (past : List Step) (node : ℕ) → IsLegal past → node ≡ numbered past
        → floor (Joined node (floor past) ∷ past) ≡ floor past }
{}

/// There is one listing of some rows at a stamp.
pub fn there_is_one_listing()
    ensures { (rows : List ARow) (stamp : ℕ) (listing other : List APair)
        → IsListing rows stamp listing → IsListing rows stamp other → listing ≡ other }
{}

/// The differences between two stamps lead from the listing at the first to that at the second, and they are the fewest
/// changes that do: any others, in any order, are at least as many.
pub fn differences_lead_on()
    ensures leads { (rows : List ARow) (from to : ℕ) (differences : List Difference)
        (listing next : List APair) → AreDifferences rows from to (λ key. Unit {0}) differences
        → IsListing rows from listing → IsListing rows to next
        → patched differences listing ≡ next }
    ensures least { (rows : List ARow) (from to : ℕ) (differences others : List Difference)
        (listing next : List APair) → AreDifferences rows from to (λ key. Unit {0}) differences
        → IsListing rows from listing → IsListing rows to next
        → patched others listing ≡ next → length differences ≤ length others }
{}

/// A core is faithful to each history that it represents: its reads returned the newest accepted values, and no answer
/// of a snapshot changed; each snapshot shows all writes of an item, or later ones of their keys, or none of them; no
/// vacuum could have kept fewer or cheaper rows, nor a part of one of its keys, and just after it the stored rows up to
/// its stamp, after a part those of its keys, are the fewest and the cheapest.
pub fn histories_are_faithful()
    ensures { (nodes : ℕ) (kept : StoreView) (history : List (AnEvent × AReply))
        → RepresentsHistory nodes kept history → IsFaithful nodes history kept.rows }
{}

/// A state that represents a past, with its rows by key, stamp and node, is a checkpoint:
/// `Core::restore` makes a store of it unless memory runs out.
pub fn checkpoints_restore()
    ensures sound { (kept : StoreView) (past : List Step) → Represents kept past
        → 0 < kept.initial_nodes → kept.initial_nodes ≤ MAX_INITIAL_NODES → RowsAscend kept.rows
        → IsCheckpoint kept }
    ensures copies { (kept copy : StoreView) (past : List Step) → Represents kept past
        → IsCopyOf kept copy → Represents copy past }
    ensures refused { (kept : StoreView) (fault : AFault) → IsFirstReason kept fault
        → IsCheckpoint kept → ⊥ }
{}

/// Each checkpoint represents a past: the one that begins with it. So a store that was restored from any bytes has a
/// past, whoever wrote them.
pub fn each_checkpoint_has_a_past()
    ensures { (kept : StoreView) → IsCheckpoint kept → Represents kept (Began kept ∷ []) }
{}
