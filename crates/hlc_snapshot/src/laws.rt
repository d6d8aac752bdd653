//! What is true of every register, and of the points.
ghost use Rattle.std.specs.Prelude.{◌≡◌, ◌≢◌, ◌<◌, ◌≤◌, ◌+◌, ℕ, List, [], All, length};
ghost use Rattle.hlc_snapshot.specs.declared.registry.TheConstants.{MAX_OPEN_SNAPSHOTS};
ghost use Rattle.hlc_snapshot.specs.RegistryView.{RegistryView, IsRegister, Follows, closed, opened_at, room_refusal};
ghost use Rattle.hlc_snapshot.specs.RegistryView.{stamp_in};
ghost use Rattle.hlc_clock.specs.Points.{ArePoints};

/// At most 1,024 snapshots are open.
pub fn max_open_snapshots_are_1024()
    ensures { MAX_OPEN_SNAPSHOTS ≡ 1024 }
{}

/// A new snapshot has an id above all others, and its stamp; the others keep their stamps.
pub fn opening_adds_one_snapshot()
    ensures above { (register : RegistryView) → IsRegister register
        → All (λ snapshot. snapshot.id < register.last_id + 1) register.snapshots }
    ensures fresh { (register : RegistryView) → IsRegister register
        → stamp_in (register.last_id + 1) register.snapshots ≡ None }
    ensures here { (register : RegistryView) (stamp : ℕ) → IsRegister register
        → stamp_in (register.last_id + 1) (opened_at register stamp).snapshots ≡ Some stamp }
    ensures others { (register : RegistryView) (stamp id : ℕ) → id ≢ register.last_id + 1
        → stamp_in id (opened_at register stamp).snapshots ≡ stamp_in id register.snapshots }
{}

/// After a snapshot is closed its id is not found; the others keep their stamps.
pub fn closing_takes_out_one_snapshot()
    ensures removed { (register : RegistryView) (id : ℕ)
        → stamp_in id (closed id register).snapshots ≡ None }
    ensures others { (register : RegistryView) (id other : ℕ) → other ≢ id
        → stamp_in other (closed id register).snapshots ≡ stamp_in other register.snapshots }
{}

/// A register is empty at first. Openings within its limits, and closings, make a register again.
pub fn registers_stay_registers()
    ensures empty { IsRegister (record { snapshots = []; last_id = 0 }) }
    ensures opening { (register : RegistryView) (stamp : ℕ) → IsRegister register
        → room_refusal (length register.snapshots) register.last_id ≡ None
        → IsRegister (opened_at register stamp) }
    ensures closing { (register : RegistryView) (id : ℕ) → IsRegister register
        → IsRegister (closed id register) }
{}

/// If an id was assigned in an older register and is open in a newer one, it was open in the older
/// one, at the same stamp: a closed snapshot is never open again.
pub fn ids_are_never_used_again()
    ensures { (older newer : RegistryView) (id stamp : ℕ) → Follows older newer → id ≤ older.last_id
        → stamp_in id newer.snapshots ≡ Some stamp → stamp_in id older.snapshots ≡ Some stamp }
{}

/// There is at most one list of points.
pub fn points_are_unique()
    ensures { (stamps xs ys : List ℕ) (floor : ℕ) → ArePoints stamps floor xs
        → ArePoints stamps floor ys → xs ≡ ys }
{}
