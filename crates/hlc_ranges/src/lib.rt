//! The laws of several stores with one key space: a stamp at most the floor of each store is a consistent cut.
#![tactic(auto)]

ghost use Rattle.std.specs.Prelude.{◌≡◌, ◌≢◌, ◌<◌, ◌≤◌, ◌∷◌, ◌++◌, ℕ, List, Ok, None, Contains};
ghost use Rattle.hlc_rows.specs.{declared.row.Row.Row as ARow, Rows.answer};
ghost use Rattle.hlc_node.specs.Node.{NodeView, expected_issue};
ghost use Rattle.hlc_node.specs.declared.item.{Body.Body as ABody, Item.Item as AnItem};
ghost use Rattle.hlc_core.specs.{Past.Step, Past.floor, Past.writes, StoreView.StoreView, StoreView.Represents};
ghost use Rattle.hlc_ranges.specs.Run.{Layout, Turn, Issued, Sent, Received, Observed, Stepped, past_of, issued};
ghost use Rattle.hlc_ranges.specs.Run.{last_stamp, issued_writes, IsLegal, IsMessage, IsRouted, IsIssuedStep};
ghost use Rattle.hlc_ranges.specs.Change.{IsReadable, IsCutOfOthers, past_with, LeadsTo};
ghost use Rattle.hlc_ranges.specs.Before.{HappenedBefore, IsStamped};
ghost use Rattle.hlc_ranges.specs.Calls.{IsNodeOf, HasClock, Extends};
ghost use Rattle.hlc_ranges.specs.Cut.{IsCut, IsAccepted, IsConsistent};

/// In a legal run, if an event happened before another, on machines, through messages and through stores, its stamp is
/// the lesser.
pub fn stamps_follow_events()
    ensures { (layout : Layout) (run : List Turn) (first later m a n b : ℕ) → IsLegal layout run
        → HappenedBefore layout run first later → IsStamped layout run first m a
        → IsStamped layout run later n b → a < b }
{}

/// In a legal run a stamp that is at most the floor of each store is a consistent cut: each issued item at or below it
/// was accepted by its store; what is accepted there, in all stores together, is closed under happened-before; and a
/// read there, of a key in its store, gives the newest write of all stores, accepted or only issued.
pub fn cuts_are_consistent()
    ensures { (layout : Layout) (run : List Turn) (stamp : ℕ) → IsLegal layout run
        → IsCut layout run stamp → IsConsistent layout run stamp }
{}

/// In a legal run a store has no write of another store's key.
pub fn keys_stay_in_their_store()
    ensures { (layout : Layout) (run : List Turn) (s : ℕ) (key : List ℕ) (stamp : ℕ) → IsLegal layout run
        → layout.store_of key ≢ s → answer (writes (past_of layout s run)) key stamp ≡ None }
{}

/// In a legal run a cut stays one, whatever happens later, and its reads stay the same.
pub fn cuts_are_final()
    ensures cut { (layout : Layout) (run later : List Turn) (stamp : ℕ) → IsLegal layout (later ++ run)
        → IsCut layout run stamp → IsCut layout (later ++ run) stamp }
    ensures reads { (layout : Layout) (run later : List Turn) (stamp s : ℕ) (key : List ℕ)
        → IsLegal layout (later ++ run) → IsCut layout run stamp → s < layout.stores
        → answer (writes (past_of layout s (later ++ run))) key stamp
        ≡ answer (writes (past_of layout s run)) key stamp }
{}

/// If a run led on to a later one along the stores of a key, as where stores were divided, joined or moved, a read of
/// the key in its store, at a stamp at most that store's floor at which it can be read, gives the newest of all writes
/// that were ever issued. No floor falls, so a cut stays one, and its reads stay the same where they can be made.
///
/// Each item that was issued for a store, at or below its floor, was accepted, whatever the floors of others are; so in
/// the run of the stores that are left, the floors of drained ones do not count for a consistent cut. The stamps of a
/// machine go on rising, if its clock begins where it was.
pub fn cuts_go_on()
    ensures newest { (key : List ℕ) (old new : Layout) (run later : List Turn) (rows : List ARow) (at : ℕ)
        → LeadsTo key old run new later rows → at ≤ floor (past_with new later key)
        → IsReadable (past_with new later key) at
        → answer (writes (past_with new later key)) key at ≡ answer (issued_writes old run ++ rows) key at }
    ensures floors { (key : List ℕ) (old new : Layout) (run later : List Turn) (rows : List ARow)
        → LeadsTo key old run new later rows → floor (past_with old run key) ≤ floor (past_with new later key) }
    ensures reads { (key : List ℕ) (old new : Layout) (run later : List Turn) (rows : List ARow) (at : ℕ)
        → LeadsTo key old run new later rows → at ≤ floor (past_with old run key)
        → IsReadable (past_with new later key) at
        → answer (writes (past_with new later key)) key at ≡ answer (writes (past_with old run key)) key at }
    ensures complete { (layout : Layout) (run : List Turn) (s n : ℕ) (item : AnItem) → IsLegal layout run
        → Contains (issued s n run) item → item.stamp ≤ floor (past_of layout s run)
        → IsAccepted layout s item run }
    ensures consistent { (layout : Layout) (run : List Turn) (stamp : ℕ) → IsLegal layout run
        → IsCutOfOthers layout run stamp → IsConsistent layout run stamp }
    ensures clocks { (old new : Layout) (run later : List Turn) (first second m a b : ℕ) → IsLegal new later
        → last_stamp old m run ≤ new.clock m → IsStamped old run first m a → IsStamped new later second m b
        → a < b }
{}

/// An item that a node issues extends a legal run, if the node's clock was raised to its machine's
/// (`NodeCore::raise_to`); and the machine's other nodes, and those of other machines, stay as they were.
pub fn items_extend_runs()
    ensures issued { (layout : Layout) (run : List Turn) (s : ℕ) (node : NodeView) (body : ABody) (reading stamp : ℕ)
        → IsLegal layout run → s < layout.stores → IsNodeOf layout run s node → HasClock layout run s node
        → IsRouted layout s body → expected_issue node body reading ≡ Ok stamp → node.last < stamp
        → Extends layout run s node body stamp }
    ensures others { (layout : Layout) (run : List Turn) (s t : ℕ) (item : AnItem) (node : NodeView)
        → IsNodeOf layout run s node → ((t ≡ s) → (item.node ≡ node.id) → ⊥)
        → IsNodeOf layout (Issued t item ∷ run) s node }
{}

/// Whatever a store's call did, as its contract says, extends a legal run, if it accepted only an issued item.
pub fn steps_extend_runs()
    ensures { (layout : Layout) (run : List Turn) (s : ℕ) (step : Step) (core : StoreView) → IsLegal layout run
        → s < layout.stores → Represents core (step ∷ past_of layout s run)
        → IsIssuedStep s step run → IsLegal layout (Stepped s step ∷ run) }
{}

/// The other events of a node extend a legal run too, if the node's clock was raised to its machine's: a send, a
/// receipt above the stamp of its message, and an observation of any store, at most at its floor.
pub fn events_extend_runs()
    ensures sent { (layout : Layout) (run : List Turn) (s : ℕ) (node : NodeView) (stamp : ℕ) → IsLegal layout run
        → HasClock layout run s node → node.last < stamp
        → IsLegal layout (Sent (layout.machine s node.id) stamp ∷ run) }
    ensures received { (layout : Layout) (run : List Turn) (s : ℕ) (node : NodeView) (message stamp : ℕ)
        → IsLegal layout run → HasClock layout run s node → node.last < stamp → IsMessage run message stamp
        → IsLegal layout (Received (layout.machine s node.id) message stamp ∷ run) }
    ensures observed { (layout : Layout) (run : List Turn) (s t : ℕ) (node : NodeView) (at stamp : ℕ)
        → IsLegal layout run → HasClock layout run s node → node.last < stamp → t < layout.stores
        → at ≤ floor (past_of layout t run) → at < stamp
        → IsLegal layout (Observed (layout.machine s node.id) t at stamp ∷ run) }
{}
