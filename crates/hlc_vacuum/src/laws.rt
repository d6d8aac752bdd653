//! What is true of vacuums, and of rows that represent all accepted ones, for any rows.
ghost use Rattle.std.specs.Prelude.{◌≡◌, ◌↔◌, ◌⊎◌, ◌+◌, ◌<◌, ◌≤◌, ℕ, List, [], ◌∷◌, ◌++◌, length, Contains};
ghost use Rattle.std.specs.List.Sorted.{IsPermutation};
ghost use Rattle.hlc_clock.specs.Points.{PointsAscend, last_point};
ghost use Rattle.hlc_rows.specs.{declared.row.Row.Row as ARow, Rows.IsRowSet};
ghost use Rattle.hlc_witness.specs.{declared.witness.Witness.Witness as AWitness, Fewest.Fewest, Changes.AreChanges};
ghost use Rattle.hlc_witness.specs.Cost.{Cheapest, AreInLimits, changes_cost, rows_cost};
ghost use Rattle.hlc_witness.specs.Certificate.{IsCertificate, RowsAscend};
ghost use Rattle.hlc_vacuum_draft.specs.Vacuumed.{KeepsNewest, IsVacuumOf, rows_to};
ghost use Rattle.hlc_vacuum.specs.Representing.{RowsRepresent, RepresentsAfterVacuum, count_above, count_between};

/// The rows that a vacuum keeps at or below the last point are the cheapest, against all rows that there were, and cost
/// exactly what the changes force.
pub fn vacuums_keep_cheapest()
    ensures cheapest { (rows kept : List ARow) (points : List ℕ) (changes : List AWitness)
        → PointsAscend points
        → IsVacuumOf rows points changes kept
        → Cheapest (rows_to (last_point points) kept) rows points }
    ensures cost { (rows kept : List ARow) (points : List ℕ) (changes : List AWitness)
        → PointsAscend points
        → IsVacuumOf rows points changes kept
        → rows_cost (rows_to (last_point points) kept) ≡ changes_cost rows changes }
{}

/// The rows that a vacuum keeps at or below the last point are the fewest, against all rows that
/// there were.
pub fn vacuums_keep_fewest()
    ensures { (rows kept : List ARow) (points : List ℕ) (changes : List AWitness)
        → PointsAscend points
        → IsVacuumOf rows points changes kept
        → Fewest (rows_to (last_point points) kept) rows points }
{}

/// Keeping the newest row at each change, all rows above the last point, and no other, is a vacuum.
pub fn newest_rows_suffice()
    ensures { (rows kept : List ARow) (points : List ℕ) (changes : List AWitness)
        → PointsAscend points
        → AreChanges rows points changes → KeepsNewest rows points changes kept
        → IsVacuumOf rows points changes kept }
{}

/// Just after a vacuum the stored rows at or below the floor, sorted by key, stamp and node, are certified by the
/// changes.
pub fn vacuums_are_certified()
    ensures { (stored all rows : List ARow) (floor : ℕ) (opened points : List ℕ)
        (changes : List AWitness)
        → RepresentsAfterVacuum stored all floor opened points changes → PointsAscend points
        → last_point points ≡ floor
        → IsPermutation (rows_to floor stored) rows → RowsAscend rows → AreInLimits all
        → IsCertificate rows points changes }
{}

/// After a vacuum at the floor the rows represent all accepted ones, and those at or below the floor are the fewest
/// against all of them, whatever was dropped before. Its points are the open stamps, none of them above the floor, and
/// the floor.
pub fn vacuums_compose()
    ensures { (stored all kept : List ARow) (horizon floor : ℕ) (opened points : List ℕ)
        (changes : List AWitness)
        → RowsRepresent stored all horizon opened → horizon ≤ floor → PointsAscend points
        → ((point : ℕ) → Contains points point ↔ (Contains opened point ⊎ (point ≡ floor)))
        → ((stamp : ℕ) → Contains opened stamp → stamp ≤ floor)
        → IsVacuumOf stored points changes kept
        → RepresentsAfterVacuum kept all floor opened points changes }
{}

/// Rows that represent all with the floor as the horizon, and are as many as the changes and the rows above the floor
/// together, are as after a vacuum: those at or below the floor are the fewest.
pub fn representing_rows_are_fewest()
    ensures { (stored all : List ARow) (floor : ℕ) (opened points : List ℕ)
        (changes : List AWitness)
        → RowsRepresent stored all floor opened
        → ((point : ℕ) → Contains points point ↔ (Contains opened point ⊎ (point ≡ floor)))
        → ((stamp : ℕ) → Contains opened stamp → stamp ≤ floor) → AreChanges all points changes
        → length stored ≡ length changes + count_above floor all
        → RepresentsAfterVacuum stored all floor opened points changes }
{}

/// The rows above a stamp are those up to a higher one, and those above that.
pub fn rows_above_are_counted()
    ensures { (low high : ℕ) (rows : List ARow) → low ≤ high
        → count_above low rows ≡ count_between low high rows + count_above high rows }
{}

/// A row that is written above the horizon is stored with the others, and counts as one more.
pub fn writes_keep_representing()
    ensures represents { (stored all : List ARow) (horizon : ℕ) (opened : List ℕ) (row : ARow)
        → RowsRepresent stored all horizon opened → horizon < row.stamp → IsRowSet (all ++ row ∷ [])
        → RowsRepresent (stored ++ row ∷ []) (all ++ row ∷ []) horizon opened }
    ensures count { (stored all : List ARow) (horizon changes : ℕ) (row : ARow)
        → length stored ≡ changes + count_above horizon all → horizon < row.stamp
        → length (stored ++ row ∷ []) ≡ changes + count_above horizon (all ++ row ∷ []) }
{}

/// Stored rows represent all in any order.
pub fn stored_rows_may_be_moved()
    ensures { (stored moved all : List ARow) (horizon : ℕ) (opened : List ℕ)
        → RowsRepresent stored all horizon opened
        → IsPermutation stored moved → IsRowSet moved → RowsRepresent moved all horizon opened }
{}

/// A snapshot that opens at or above the horizon reads the same answers.
pub fn opens_keep_representing()
    ensures { (stored all : List ARow) (horizon stamp : ℕ) (opened : List ℕ)
        → RowsRepresent stored all horizon opened
        → horizon ≤ stamp → RowsRepresent stored all horizon (opened ++ stamp ∷ []) }
{}
