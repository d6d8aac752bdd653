//! What is true of each vacuum of a store that represents a past, and of each part of one.
ghost use Rattle.std.specs.Prelude.{◌≡◌, ◌+◌, ◌↔◌, ℕ, List, ◌∷◌, None, Bool, length, not};
ghost use Rattle.hlc_clock.specs.Points.{ArePoints};
ghost use Rattle.hlc_snapshot.specs.RegistryView.{stamps};
ghost use Rattle.hlc_rows.specs.Rows.{IsRowSet};
ghost use Rattle.hlc_rows.specs.declared.row.Row.{Row as ARow};
ghost use Rattle.hlc_witness.specs.Cost.{rows_cost};
ghost use Rattle.hlc_vacuum_draft.specs.Vacuumed.{IsVacuumOf, rows_to};
ghost use Rattle.hlc_vacuum_draft.specs.declared.report.Report.{Report as AReport};
ghost use Rattle.hlc_core.specs.Past.{Step, Vacuumed, IsLegal, floor, open_snapshots, vacuum_refusal, writes};
ghost use Rattle.hlc_core.specs.Stored.{AreVacuumPoints, IsReport, IsStoredCount, LeavesFewest};
ghost use Rattle.hlc_core.specs.StoreView.{StoreView, with_rows_left, Represents};
ghost use Rattle.hlc_core.specs.Calls.{Vacuums};
ghost use Rattle.hlc_core.specs.Certified.{AreNotFewest, IsCertified};
ghost use Rattle.hlc_core.specs.Parts.{VacuumsKeys, rows_of_keys};

/// A vacuum without a stamp is a vacuum to the floor: that is not refused, and its points are the stamps of all open
/// snapshots and the floor.
pub fn a_vacuum_is_one_to_the_floor()
    ensures refusal { (past : List Step) → IsLegal past → vacuum_refusal past (floor past) ≡ None }
    ensures points { (past : List Step) (points : List ℕ) → IsLegal past
        → AreVacuumPoints (floor past) past points
        ↔ ArePoints (stamps (open_snapshots past)) (floor past) points }
{}

/// After a vacuum of the stored rows up to a stamp, at the points of the past, the core represents the past with the
/// vacuum, the report is the expected one, and the remaining rows are the fewest, which are the cheapest.
pub fn vacuums_keep_representing()
    ensures { (kept : StoreView) (at : ℕ) (past : List Step) (rows : List ARow) (report : AReport)
        → Represents kept past → vacuum_refusal past at ≡ None
        → AreVacuumPoints at past report.points
        → IsVacuumOf kept.rows report.points report.witnesses rows
        → report.floor ≡ at
        → report.kept ≡ length report.witnesses → report.dropped + length rows ≡ length kept.rows
        → report.bytes ≡ rows_cost (rows_to report.floor rows)
        → Vacuums (with_rows_left kept rows at) at past report }
{}

/// After a part of a vacuum up to a stamp, of the stored rows of the keys of one kind, at the points of the past, the
/// core represents the past with the part of a vacuum, all other rows stay, the report is the expected one, and the
/// remaining rows of these keys are the fewest against all accepted writes of these keys, which are the cheapest.
pub fn parts_keep_representing()
    ensures { (kept : StoreView) (at : ℕ) (past : List Step) (rows : List ARow)
        (is_of : List ℕ → Bool) (report : AReport)
        → Represents kept past → vacuum_refusal past at ≡ None
        → AreVacuumPoints at past report.points → IsRowSet rows
        → rows_of_keys (λ key. not (is_of key)) rows
        ≡ rows_of_keys (λ key. not (is_of key)) kept.rows
        → IsVacuumOf (rows_of_keys is_of kept.rows) report.points report.witnesses
        (rows_of_keys is_of rows)
        → report.floor ≡ at
        → report.kept ≡ length report.witnesses → report.dropped + length rows ≡ length kept.rows
        → report.bytes ≡ rows_cost (rows_to report.floor (rows_of_keys is_of rows))
        → VacuumsKeys kept (with_rows_left kept rows at) at past is_of report }
{}

/// Just after a vacuum the rows at or below its stamp are the fewest, and the cheapest, against all accepted writes.
pub fn vacuums_leave_the_fewest()
    ensures { (kept : StoreView) (at : ℕ) (past : List Step) (report : AReport)
        → Represents kept (Vacuumed at ∷ past)
        → IsReport at past report → LeavesFewest kept.rows (writes past) report }
{}

/// Just after a vacuum the rows at or below its stamp have a certificate: no fewer answer alike, so `Core::certificate`
/// is not refused for that, and it returns the report of the vacuum, with no row dropped.
pub fn vacuums_leave_a_certificate()
    ensures fewest { (kept : StoreView) (at : ℕ) (past : List Step)
        → Represents kept (Vacuumed at ∷ past) → AreNotFewest kept at (Vacuumed at ∷ past) → ⊥ }
    ensures report { (kept : StoreView) (at : ℕ) (past : List Step) (report certificate : AReport)
        → IsReport at past report → IsCertified kept at (Vacuumed at ∷ past) certificate
        → certificate ≡ record report { dropped = 0 } }
{}

/// After a past there is at most one report of a vacuum to a stamp, and one number of stored rows.
pub fn there_is_one_report()
    ensures report { (at : ℕ) (past : List Step) (report other : AReport)
        → IsReport at past report
        → IsReport at past other → report ≡ other }
    ensures count { (past : List Step) (count other : ℕ)
        → IsStoredCount past count
        → IsStoredCount past other → count ≡ other }
{}
