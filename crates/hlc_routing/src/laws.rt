//! What events at machines leave of the stores, and steps of stores of the machines.
ghost use Rattle.std.specs.Prelude.{◌≡◌, ◌≢◌, ◌<◌, ◌≤◌, [], ◌∷◌, ◌++◌, ℕ, Bool, true, not, List, Some, length};
ghost use Rattle.std.specs.Prelude.{slice_get};
ghost use Rattle.hlc_node.specs.declared.item.Item.{Item as AnItem};
ghost use Rattle.hlc_core.specs.Past.{Step, Started, Began, link_in};
ghost use Rattle.hlc_core.specs.StoreView.{StoreView, with_rows, Represents as CoreRepresents};
ghost use Rattle.hlc_core.specs.{Checkpoint.IsCheckpoint, Replicas.begun};
ghost use Rattle.hlc_ranges.specs.Run.{Layout, Turn, Issued, Sent, Received, Observed, Stepped, IsLegal, start_of};
ghost use Rattle.hlc_ranges.specs.Run.{last_stamp, past_of};
ghost use Rattle.hlc_ranges.specs.Change.{IsDrained, TakesOver};
ghost use Rattle.hlc_split.specs.{Split.part_of, Merge.AreJoinable, Merge.is_of_left};
ghost use Rattle.hlc_routing.specs.All.{each_stepped, join_step, next_join, AreJoins};
ghost use Rattle.hlc_routing.specs.Beginning.{layout_from, halves_of, AreStates, AreRestored, IsFirstMachine};
ghost use Rattle.hlc_routing.specs.Division.{DivisionView, store_of};
ghost use Rattle.hlc_routing.specs.{Placing.ArePlaced, Ranges.RangesView, Ranges.Represents};
ghost use Rattle.hlc_routing.specs.Machine.{MachineView, IsMachineOf, IsNewMachine};

/// The stores represent the run after an event at a machine too: an item that was issued, a message that was sent or
/// received, or an observation.
pub fn events_keep_stores()
    ensures issued { (layout : Layout) (kept : RangesView) (run : List Turn) (s : ℕ) (item : AnItem)
        → Represents layout kept run → IsLegal layout (Issued s item ∷ run)
        → Represents layout kept (Issued s item ∷ run) }
    ensures sent { (layout : Layout) (kept : RangesView) (run : List Turn) (m stamp : ℕ)
        → Represents layout kept run → IsLegal layout (Sent m stamp ∷ run)
        → Represents layout kept (Sent m stamp ∷ run) }
    ensures received { (layout : Layout) (kept : RangesView) (run : List Turn) (m message stamp : ℕ)
        → Represents layout kept run → IsLegal layout (Received m message stamp ∷ run)
        → Represents layout kept (Received m message stamp ∷ run) }
    ensures observed { (layout : Layout) (kept : RangesView) (run : List Turn) (m s at stamp : ℕ)
        → Represents layout kept run → IsLegal layout (Observed m s at stamp ∷ run)
        → Represents layout kept (Observed m s at stamp ∷ run) }
{}

/// A machine is the run's after an event at another machine too.
pub fn events_keep_machines()
    ensures issued { (layout : Layout) (run : List Turn) (m s : ℕ) (machine : MachineView) (item : AnItem)
        → IsMachineOf layout run m machine → layout.machine s item.node ≢ m
        → IsMachineOf layout (Issued s item ∷ run) m machine }
    ensures sent { (layout : Layout) (run : List Turn) (m n stamp : ℕ) (machine : MachineView)
        → IsMachineOf layout run m machine → n ≢ m → IsMachineOf layout (Sent n stamp ∷ run) m machine }
    ensures received { (layout : Layout) (run : List Turn) (m n message stamp : ℕ) (machine : MachineView)
        → IsMachineOf layout run m machine → n ≢ m
        → IsMachineOf layout (Received n message stamp ∷ run) m machine }
    ensures observed { (layout : Layout) (run : List Turn) (m n s at stamp : ℕ) (machine : MachineView)
        → IsMachineOf layout run m machine → n ≢ m
        → IsMachineOf layout (Observed n s at stamp ∷ run) m machine }
{}

/// A machine is the run's after a step of a store too, if no node of this machine joins by it, and it is no state that
/// the store begins with.
pub fn steps_keep_machines()
    ensures { (layout : Layout) (run : List Turn) (m s : ℕ) (machine : MachineView) (step : Step)
        → IsMachineOf layout run m machine
        → ((mark : ℕ × ℕ) → start_of layout s step ≡ Some mark → mark.0 ≢ m) → begun (step ∷ []) ≡ []
        → IsMachineOf layout (Stepped s step ∷ run) m machine }
{}

/// A machine of the nodes that joined all stores (`Ranges::join`) is the run's after the joins, if its clock is at or
/// above their starts, and the layout has these nodes for its own.
pub fn joins_make_machines()
    ensures { (layout : Layout) (run : List Turn) (m : ℕ) (made : List (ℕ × ℕ)) (machine : MachineView)
        → IsLegal layout run → AreJoins layout run made layout.stores → IsNewMachine made machine
        → ((s : ℕ) → s < layout.stores → layout.machine s (next_join layout run s).0 ≡ m)
        → last_stamp layout m run ≤ machine.last
        → IsMachineOf layout (each_stepped (join_step layout run) layout.stores run) m machine }
{}

/// New stores begin a run, in which nothing has taken place yet.
pub fn new_stores_begin_a_run()
    ensures { (layout : Layout) (kept : RangesView)
        → ((s : ℕ) → (nodes : ℕ) × (layout.begun s ≡ Started nodes ∷ []))
        → length kept.stores ≡ layout.stores
        → ((s : ℕ) (store : StoreView) → slice_get kept.stores s ≡ Some store
        → CoreRepresents store (layout.begun s))
        → ((key : List ℕ) → layout.store_of key ≡ store_of kept.division key)
        → Represents layout kept [] }
{}

/// And so do the states of stores, whoever made them: restored from checkpoints, halves of a store that was divided, or
/// two that were joined. Each must have only rows of its keys, as `Ranges::checked` says.
pub fn states_begin_a_run()
    ensures { (kept : RangesView) (machine : ℕ → ℕ → ℕ) (clock : ℕ → ℕ) → AreStates kept machine clock
        → Represents (layout_from kept machine clock) kept [] }
{}

/// Parts of a checkpoint are such states, each of keys of one store, as the halves of a split are; and so is what two
/// checkpoints with keys of one store are joined into. Stores that were restored from such states represent the run
/// that begins with them.
pub fn parts_begin_ranges()
    ensures part { (kept : StoreView) (is_of : List ℕ → Bool) (division : DivisionView) (s : ℕ) → IsCheckpoint kept
        → ((key : List ℕ) → is_of key ≡ true → store_of division key ≡ s)
        → IsCheckpoint (part_of is_of kept) × ArePlaced division s (part_of is_of kept).rows }
    ensures joined { (left right : StoreView) (division : DivisionView) (s : ℕ) → AreJoinable left right
        → IsCheckpoint left → IsCheckpoint right → ArePlaced division s left.rows → ArePlaced division s right.rows
        → IsCheckpoint (with_rows left (left.rows ++ right.rows))
        × ArePlaced division s (left.rows ++ right.rows) }
    ensures halves { (kept : StoreView) (key : List ℕ) (machine : ℕ → ℕ → ℕ) (clock : ℕ → ℕ) → IsCheckpoint kept
        → ((s n : ℕ) → (link_in kept n).head ≤ clock (machine s n))
        → AreStates (halves_of kept key) machine clock }
    ensures restored { (states kept : RangesView) (machine : ℕ → ℕ → ℕ) (clock : ℕ → ℕ)
        → AreStates states machine clock → AreRestored states kept
        → Represents (layout_from states machine clock) kept [] }
{}

/// A store that begins with a part of the state of a drained one takes over the keys of that part; one that begins with
/// all of it takes over any; and one that begins with two states that were joined, those of each (`cuts_go_on`).
pub fn parts_take_over()
    ensures part { (old new : Layout) (run : List Turn) (s t : ℕ) (is_of : List ℕ → Bool) (kept : StoreView)
        → IsDrained old run s → CoreRepresents kept (past_of old s run)
        → new.begun t ≡ Began (part_of is_of kept) ∷ [] → TakesOver old run new s t is_of }
    ensures moved { (old new : Layout) (run : List Turn) (s t : ℕ) (is_of : List ℕ → Bool) (kept : StoreView)
        → IsDrained old run s → CoreRepresents kept (past_of old s run) → new.begun t ≡ Began kept ∷ []
        → TakesOver old run new s t is_of }
    ensures left { (old new : Layout) (run : List Turn) (s t : ℕ) (left right : StoreView) → IsDrained old run s
        → CoreRepresents left (past_of old s run) → AreJoinable left right
        → new.begun t ≡ Began (with_rows left (left.rows ++ right.rows)) ∷ []
        → TakesOver old run new s t (is_of_left right.rows) }
    ensures right { (old new : Layout) (run : List Turn) (s t : ℕ) (left right : StoreView) → IsDrained old run s
        → CoreRepresents right (past_of old s run) → AreJoinable left right → IsCheckpoint left → IsCheckpoint right
        → new.begun t ≡ Began (with_rows left (left.rows ++ right.rows)) ∷ []
        → TakesOver old run new s t (λ key. not (is_of_left right.rows key)) }
{}

/// A machine of nodes that the stores begin with is the run's, if it is not behind its clock at the beginning.
pub fn first_machines_begin_a_run()
    ensures { (layout : Layout) (m : ℕ) (machine : MachineView) → IsFirstMachine layout m machine
        → IsMachineOf layout [] m machine }
{}
