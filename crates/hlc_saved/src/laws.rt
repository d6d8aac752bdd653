//! What is true of checkpoints that are written in pieces.
ghost use Rattle.std.specs.{Prelude.◌≡◌, Prelude.◌++◌, Prelude.ℕ, Prelude.List, List.flat_map};
ghost use Rattle.hlc_rows.specs.declared.row.Row.{Row as ARow};
ghost use Rattle.hlc_core.specs.{StoreView.StoreView, GoneOn.HasGoneOn};
ghost use Rattle.hlc_body.specs.Spelling.{row_bytes, saved_bytes};
ghost use Rattle.hlc_saved.specs.{Saver.mark_of, Saver.HasMade, Writing.begin_bytes, Writing.end_bytes};
ghost use Rattle.hlc_saved.specs.declared.savings.Saver.{Saver as ASaver};

/// All that a `CheckpointWriter` appends, for the rows of the checkpoint in turn, are the bytes of the checkpoint.
pub fn pieces_are_the_bytes()
    ensures { (tag : ℕ) (kept : StoreView) (rows : List ARow) → rows ≡ kept.rows
        → (begin_bytes tag kept ++ flat_map row_bytes rows) ++ end_bytes tag kept rows
        ≡ saved_bytes tag kept }
{}

/// Each change of a store changes its mark, and no later change brings the mark back: a store whose mark is that of an
/// earlier state of it has that state.
pub fn marks_tell_changes()
    ensures { (old new : StoreView) → HasGoneOn old new → mark_of new ≡ mark_of old → new ≡ old }
{}

/// The bytes that a `Saver` made are of one state: a later state of the store with the mark of the saver, which each
/// `read` asks for, is the one that they are of.
pub fn savings_are_of_one_state()
    ensures { (saver : ASaver) (tag : ℕ) (old new : StoreView) (read : List ℕ) → HasMade saver tag old read
        → HasGoneOn old new → mark_of new ≡ saver.mark → new ≡ old }
{}
