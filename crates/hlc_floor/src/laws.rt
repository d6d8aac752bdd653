//! What is true of a board between any two steps.
ghost use Rattle.std.specs.Prelude.{◌≡◌, ◌≤◌, ℕ, List, slice_index};
ghost use Rattle.atomic_table.specs.Table.{State};
ghost use Rattle.hlc_floor.specs.declared.rule.Place.{Place};
ghost use Rattle.hlc_floor.specs.Board.{Owns, IsSeat, IsFresh, feeder_place, pass_place};

/// Between any two steps of any thread: no two seats own one number; a word is the raised stamp of
/// the seat that owns its number; and no seen value is above its word.
pub fn board_is_fresh()
    ensures one_seat { (nodes a b node : ℕ) (state : State (Unit {0}) Place) (one other : Place)
        → IsFresh nodes state
        → IsSeat state a one → IsSeat state b other → Owns one node → Owns other node → a ≡ b }
    ensures raised { (nodes a node raised : ℕ) (state : State (Unit {0}) Place)
        → IsFresh nodes state
        → IsSeat state a (feeder_place node raised) → slice_index state.words node ≡ raised }
    ensures seen { (nodes a node : ℕ) (state : State (Unit {0}) Place) (seen : List ℕ)
        → (found : List (List ℕ))
        → IsFresh nodes state
        → IsSeat state a (pass_place seen found)
        → slice_index seen node ≤ slice_index state.words node }
{}
