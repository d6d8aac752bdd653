//! What is true of stores that begin with a state.
ghost use Rattle.std.specs.Prelude.{◌≡◌, ◌++◌, ◌∷◌, [], ℕ, List};
ghost use Rattle.hlc_core.specs.{Checkpoint.IsCheckpoint, History.RepresentsHistory, History.IsMove};
ghost use Rattle.hlc_events.specs.declared.event.CoreEvent.{CoreEvent as AnEvent};
ghost use Rattle.hlc_snapshot.specs.RegistryView.{stamps};
ghost use Rattle.hlc_vacuum.specs.Representing.{RowsRepresent};
ghost use Rattle.hlc_core.specs.declared.reply.CoreReply.{CoreReply as AReply};
ghost use Rattle.hlc_core.specs.From.{RepresentsFrom, IsFaithfulFrom, past_from};
ghost use Rattle.hlc_core.specs.Past.{Step, Started, Began, IsLegal, floor, horizon, open_snapshots, writes};
ghost use Rattle.hlc_core.specs.StoreView.{StoreView, Represents};

/// A store that begins with the state of another goes on as that one: it accepts the same steps, its floor and its
/// snapshots are the same, and the writes of both answer alike from the other's horizon on and at the snapshots that
/// were open.
pub fn a_state_goes_on_as_its_past()
    ensures { (more : List Step) (kept : StoreView) (past : List Step) → IsCheckpoint kept
        → Represents kept past → IsLegal (more ++ past)
        → IsLegal (more ++ (Began kept ∷ []))
        × (floor (more ++ (Began kept ∷ [])) ≡ floor (more ++ past))
        × (open_snapshots (more ++ (Began kept ∷ [])) ≡ open_snapshots (more ++ past))
        × RowsRepresent (writes (more ++ (Began kept ∷ []))) (writes (more ++ past))
        (horizon past) (stamps (open_snapshots past)) }
{}

/// A store is faithful to each history that it represents since a past that it began with, as that of a state: against
/// what the past says was accepted before, and what was accepted since. Each checkpoint begins such a history, each
/// event goes on with it (`Core::step`.`past`), and what started with nodes represents the same one.
pub fn histories_from_states_are_faithful()
    ensures faithful { (start : List Step) (kept : StoreView)
        (history : List (AnEvent × AReply))
        → RepresentsFrom start kept history → IsFaithfulFrom start history kept.rows }
    ensures begins { (kept : StoreView) → IsCheckpoint kept
        → RepresentsFrom (Began kept ∷ []) kept [] }
    ensures started { (nodes : ℕ) (kept : StoreView) (history : List (AnEvent × AReply))
        → RepresentsHistory nodes kept history
        → RepresentsFrom (Started nodes ∷ []) kept history }
    ensures goes_on { (start : List Step) (old new : StoreView) (event : AnEvent)
        (reply : AReply) (history : List (AnEvent × AReply))
        → RepresentsFrom start old history
        → IsMove (past_from start history) old new event reply
        → RepresentsFrom start new ((event, reply) ∷ history) }
{}
