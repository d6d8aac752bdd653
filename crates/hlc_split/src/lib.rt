//! A checkpoint divided at a key, and two such checkpoints as one.
#![tactic(auto)]

mod exact;
mod halves;
mod joining;

ghost use Rattle.std.specs.Prelude.{◌≡◌, ◌<◌, ◌≤◌, ◌++◌, ◌∷◌, ℕ, Bool, true, not, List, if◌then◌else◌};
ghost use Rattle.hlc_rows.specs.{Rows.answer, declared.row.Row.Row as ARow};
ghost use Rattle.hlc_core.specs.Past.{Step, PartVacuumed, IsLegal, writes, floor, horizon, open_snapshots};
ghost use Rattle.hlc_core.specs.{StoreView.StoreView, StoreView.with_rows, StoreView.Represents, Parts.rows_of_keys};
ghost use Rattle.hlc_checkpoint.specs.Checkpoint.{IsCheckpoint};
ghost use Rattle.hlc_witness.specs.Certificate.{RowsAscend};
ghost use Rattle.hlc_heads.specs.declared.heads.TheConstants.{MAX_INITIAL_NODES};
ghost use Rattle.hlc_split.specs.{Split.RepresentsPart, Split.part_of, Split.past_in, OwnPast.IsOwnPast};
ghost use Rattle.hlc_split.specs.Merge.{AreDivided, AreJoinable, is_of_left};

pub use halves::split;
pub use joining::{MergeFault, merge};

/// The rows of the keys of one kind, with a store's links, snapshots and horizon, are a store of these keys: it
/// represents the store's past, in which items of other keys were reports.
pub fn ranges_represent_their_part()
    ensures { (kept : StoreView) (past : List Step) (is_of : List ℕ → Bool) → Represents kept past
        → RepresentsPart is_of (part_of is_of kept) past }
{}

/// The store of the keys of one kind has the floor, the horizon and the open snapshots of the whole store, and answers
/// at its keys as the whole store does, at each stamp.
pub fn ranges_answer_alike()
    ensures floor { (past : List Step) (is_of : List ℕ → Bool) → floor (past_in is_of past) ≡ floor past }
    ensures horizon { (past : List Step) (is_of : List ℕ → Bool) → horizon (past_in is_of past) ≡ horizon past }
    ensures snapshots { (past : List Step) (is_of : List ℕ → Bool)
        → open_snapshots (past_in is_of past) ≡ open_snapshots past }
    ensures answers { (past : List Step) (is_of : List ℕ → Bool) (key : List ℕ) (stamp : ℕ) → is_of key ≡ true
        → answer (writes (past_in is_of past)) key stamp ≡ answer (writes past) key stamp }
{}

/// A part of a checkpoint is a checkpoint, so `Core::restore` makes a store of it unless memory runs out.
pub fn parts_restore()
    ensures checkpoint { (kept : StoreView) (is_of : List ℕ → Bool) → IsCheckpoint kept
        → IsCheckpoint (part_of is_of kept) }
    ensures represents { (kept : StoreView) (past : List Step) (is_of : List ℕ → Bool) → Represents kept past
        → 0 < kept.initial_nodes → kept.initial_nodes ≤ MAX_INITIAL_NODES → RowsAscend kept.rows
        → IsCheckpoint (part_of is_of kept) }
{}

/// Stored rows answer at each key as those of its kind of keys do, at each stamp; and two stores whose keys are divided
/// answer together as the one that the key is of does. They are a checkpoint if both are. No past is needed for that.
pub fn stored_rows_answer_alike()
    ensures parts { (rows : List ARow) (is_of : List ℕ → Bool) (key : List ℕ) (stamp : ℕ)
        → answer rows key stamp ≡ (if is_of key then answer (rows_of_keys is_of rows) key stamp
        else answer (rows_of_keys (λ other. not (is_of other)) rows) key stamp) }
    ensures joined { (left right : List ARow) (key : List ℕ) (stamp : ℕ) → AreDivided left right
        → answer (left ++ right) key stamp
        ≡ (if is_of_left right key then answer left key stamp else answer right key stamp) }
    ensures checkpoint { (left right : StoreView) → AreJoinable left right → IsCheckpoint left
        → IsCheckpoint right → IsCheckpoint (with_rows left (left.rows ++ right.rows)) }
{}

/// The stores of the keys of a kind and of the others, of one past, are together a store of all keys: one with the rows
/// of both. It represents that past, in which vacuums are parts of one.
pub fn parts_merge()
    ensures { (left right : StoreView) (past : List Step) (is_of : List ℕ → Bool) → IsLegal past
        → RepresentsPart is_of left past → RepresentsPart (λ key. not (is_of key)) right past
        → RepresentsPart (λ _. true) (with_rows left (left.rows ++ right.rows)) past }
{}

/// Two parts of one past, of the keys of a kind and of the others, that went on and were vacuumed when they chose, but
/// to one stamp in the end, are together a store of all keys: one with the rows of both. It represents what both took,
/// vacuumed to that stamp. There and above it answers as all that they took does, and so does each part at its keys.
pub fn vacuumed_parts_merge()
    ensures merged { (left right : StoreView) (past own_left own_right : List Step) (is_of : List ℕ → Bool)
        → IsLegal past → IsOwnPast is_of past own_left
        → IsOwnPast (λ key. not (is_of key)) past own_right
        → Represents left own_left → Represents right own_right → left.horizon ≡ right.horizon
        → RepresentsPart (λ _. true) (with_rows left (left.rows ++ right.rows))
        (PartVacuumed left.horizon 0 ∷ past) }
    ensures answers { (left right : StoreView) (past own_left own_right : List Step) (is_of : List ℕ → Bool)
        (key : List ℕ) (stamp : ℕ) → IsLegal past → IsOwnPast is_of past own_left
        → IsOwnPast (λ key. not (is_of key)) past own_right
        → Represents left own_left → Represents right own_right → left.horizon ≡ right.horizon
        → left.horizon ≤ stamp → answer (left.rows ++ right.rows) key stamp ≡ answer (writes past) key stamp }
    ensures part { (part : StoreView) (past own : List Step) (is_of : List ℕ → Bool) (key : List ℕ) (stamp : ℕ)
        → IsOwnPast is_of past own → Represents part own → is_of key ≡ true → part.horizon ≤ stamp
        → answer part.rows key stamp ≡ answer (writes past) key stamp }
{}
