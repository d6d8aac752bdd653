//! What is true of every log.
ghost use Rattle.std.specs.Prelude.{◌≡◌, ◌<◌, ◌++◌, ℕ, List, [], All};
ghost use Rattle.hlc_rows.specs.Rows.{answer};
ghost use Rattle.hlc_core.specs.Past.{Step, IsLegal, initial_nodes};
ghost use Rattle.hlc_core.specs.{Replicas.begun, StoreView.StoreView, StoreView.Represents};
ghost use Rattle.hlc_saved.specs.Saved.{BytesRepresent};
ghost use Rattle.hlc_log.specs.declared.{record.Record.Record as ARecord, apply.Applied.Applied as AnApplied};
ghost use Rattle.hlc_log.specs.{Record.RecordFits, Places.HasTaken, Places.IsAt, Places.CanRead};
ghost use Rattle.hlc_log.specs.Log.{with_record, with_records, log_bytes, AreApplied, IsPassedOver};

/// A log may be read again from any place before that of the store: records that were applied before change nothing.
///
/// So a store that is restored from a checkpoint needs no exact place in its log, only one that is not after its own.
pub fn a_log_may_be_read_again()
    ensures passed { (past more : List Step) (entry : ARecord) → IsLegal (with_record entry past)
        → begun more ≡ [] → IsPassedOver (more ++ with_record entry past) entry }
    ensures since { (past more : List Step) (entry : ARecord) → IsLegal (more ++ with_record entry past)
        → IsPassedOver (more ++ with_record entry past) entry }
    ensures over { (past : List Step) (again rest : List ARecord) → All (IsPassedOver past) again
        → with_records (again ++ rest) past ≡ with_records rest past }
    ensures again { (past : List Step) (before again rest : List ARecord)
        → IsLegal (with_records (before ++ again) past)
        → with_records (again ++ rest) (with_records (before ++ again) past)
        ≡ with_records rest (with_records (before ++ again) past) }
{}

/// Recovery: what is made from a checkpoint, taken at any place of a log, and from the log, read from any place that is
/// not after it, answers as each replica of that log, at each stamp at which both can be read: up to both floors, and
/// from both horizons on or at open snapshots.
///
/// All of them may have opened snapshots and been vacuumed anywhere between, and the replica may be behind or further
/// on. The records of the log are `before`, `again` and `rest`: the checkpoint is after `again`, the log is read from
/// after `before`, and what is read may end anywhere, also within a record.
pub fn recovered_stores_answer_as_replicas()
    // What is recovered is at a place of the log.
    ensures place { (start past : List Step) (before again rest : List ARecord) (kept : StoreView)
        (bytes after : List ℕ) (least : ℕ) (applied : AnApplied)
        → HasTaken start (before ++ again) past → All RecordFits (again ++ rest)
        → bytes ++ after ≡ log_bytes (again ++ rest) → AreApplied kept bytes past least applied
        → (now : List Step) × Represents kept now × IsAt start (before ++ (again ++ rest)) now }
    // Stores at places of one log answer alike.
    ensures answers { (start past other : List Step) (log : List ARecord) (kept copy : StoreView)
        → 0 < initial_nodes start → Represents kept past → IsAt start log past
        → Represents copy other → IsAt start log other → (key : List ℕ) (stamp : ℕ)
        → CanRead kept stamp → CanRead copy stamp
        → answer kept.rows key stamp ≡ answer copy.rows key stamp }
    // So what is recovered does.
    ensures recovered { (start past other : List Step) (before again rest : List ARecord)
        (checkpoint bytes after : List ℕ) (tag least : ℕ) (applied : AnApplied) (kept copy : StoreView)
        → BytesRepresent checkpoint tag past → HasTaken start (before ++ again) past
        → All RecordFits (again ++ rest) → bytes ++ after ≡ log_bytes (again ++ rest)
        → AreApplied kept bytes past least applied → Represents copy other
        → IsAt start (before ++ (again ++ rest)) other → (key : List ℕ) (stamp : ℕ)
        → CanRead kept stamp → CanRead copy stamp
        → answer kept.rows key stamp ≡ answer copy.rows key stamp }
{}
