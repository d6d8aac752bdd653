//! The vacuums of a store.
ghost use Rattle.std.specs.Prelude.{◌≡◌, ◌≤◌, IfOk, OnOk, OnErr, List};
ghost use Rattle.hlc_core.specs.{Past.Step, Past.floor, StoreView.Represents};
ghost use Rattle.hlc_core.specs.{Parts.VacuumsPartCounted, Certified.Certifies, Checkpoint.floor_in};
ghost use Rattle.hlc_core.specs.Calls.{Vacuums, VacuumsTo, VacuumsCounted, VacuumsToCounted};
ghost use Rattle.hlc_vacuum.specs.Representing.{IsWithin};

use crate::store::Core;
use hlc_clock::Stamp;
use hlc_events::{CertificateFault, CoreFault};
use hlc_node::Bytes;
use hlc_vacuum::{Numbers, Report};
use hlc_values::NoMemory;
use std::thread::Threads;

impl Core {
    /// Drops all rows at or below the floor except the fewest that answer as all accepted writes do at each open
    /// snapshot and at the floor, and returns a report. The floor becomes the horizon. It is `vacuum_to` the floor. All
    /// memory that it needs is allocated before anything changes.
    pub fn vacuum(&mut self) -> Result<Report, NoMemory>
        ensures ok { IfOk result (λ report. (past : List Step) → Represents self.old past
            → Vacuums self.new (floor past) past report) }
        ensures within { OnOk result (IsWithin self.old.rows self.new.rows) }
        ensures unchanged { OnErr result (self.new ≡ self.old) }
    {
        let floor = self.floor();
        let plan = self.plan(floor)?;
        Ok(self.carry_out(floor, plan))
    }

    /// Vacuums as `vacuum` does, but several threads plan the rows. Of several rows it may keep another one.
    pub fn vacuum_parallel(&mut self, rt: &(impl Threads + Sync)) -> Result<Report, NoMemory>
        ensures ok { IfOk result (λ report. (past : List Step) → Represents self.old past
            → Vacuums self.new (floor past) past report) }
        ensures within { OnOk result (IsWithin self.old.rows self.new.rows) }
        ensures unchanged { OnErr result (self.new ≡ self.old) }
    {
        let floor = self.floor();
        let plan = self.plan_parallel(rt, floor)?;
        Ok(self.carry_out(floor, plan))
    }

    /// Vacuums as `vacuum` does, and returns the report twice. All memory is allocated before anything changes.
    pub fn vacuum_pair(&mut self) -> Result<(Report, Report), NoMemory>
        ensures ok { IfOk result (λ reports. (past : List Step) → Represents self.old past
            → Vacuums self.new (floor past) past reports.0) }
        ensures alike { IfOk result (λ reports. reports.0 ≡ reports.1) }
        ensures within { OnOk result (IsWithin self.old.rows self.new.rows) }
        ensures unchanged { OnErr result (self.new ≡ self.old) }
    {
        let floor = self.floor();
        let plan = self.plan(floor)?;
        let report = plan.report()?;
        Ok((self.carry_out(floor, plan), report))
    }

    /// Vacuums as `vacuum_parallel` does, and returns the report twice. All memory is allocated before anything
    /// changes. If it runs out, nothing is changed.
    pub fn vacuum_pair_parallel(
        &mut self,
        rt: &(impl Threads + Sync),
    ) -> Result<(Report, Report), NoMemory>
        ensures ok { IfOk result (λ reports. (past : List Step) → Represents self.old past
            → Vacuums self.new (floor past) past reports.0) }
        ensures alike { IfOk result (λ reports. reports.0 ≡ reports.1) }
        ensures within { OnOk result (IsWithin self.old.rows self.new.rows) }
        ensures unchanged { OnErr result (self.new ≡ self.old) }
    {
        let floor = self.floor();
        let plan = self.plan_parallel(rt, floor)?;
        let report = plan.report()?;
        Ok((self.carry_out(floor, plan), report))
    }

    /// Vacuums as `vacuum` does, and returns the numbers of the report alone. The changes are counted and not listed,
    /// so it needs no memory for them.
    pub fn vacuum_counted(&mut self) -> Result<Numbers, NoMemory>
        ensures ok { IfOk result (λ numbers. (past : List Step) → Represents self.old past
            → VacuumsCounted self.new (floor past) past numbers) }
        ensures within { OnOk result (IsWithin self.old.rows self.new.rows) }
        ensures unchanged { OnErr result (self.new ≡ self.old) }
    {
        let floor = self.floor();
        self.vacuum_by_tally(floor)
    }

    /// Drops all rows at or below a stamp except the fewest that answer as all accepted writes do at the open snapshots
    /// at or below it and at the stamp itself, and returns a report, with the stamp as its floor. All rows above the
    /// stamp stay, so the answers of each snapshot that is open above it do not change. The stamp becomes the horizon.
    /// All memory that it needs is allocated before anything changes.
    ///
    /// Refused, in this order: the stamp is above the floor; it is below the horizon; out of memory. A refusal leaves
    /// the core unchanged.
    pub fn vacuum_to(&mut self, at: Stamp) -> Result<Report, CoreFault>
        ensures represents { (past : List Step) → Represents self.old past
            → VacuumsTo self.new at past result }
        ensures within { OnOk result (IsWithin self.old.rows self.new.rows) }
        ensures unchanged { OnErr result (self.new ≡ self.old) }
    {
        self.check_vacuum(at)?;
        let plan = self.plan(at)?;
        Ok(self.carry_out(at, plan))
    }

    /// Vacuums as `vacuum_to` does, and returns the numbers of the report alone, as `vacuum_counted` does.
    pub fn vacuum_to_counted(&mut self, at: Stamp) -> Result<Numbers, CoreFault>
        ensures represents { (past : List Step) → Represents self.old past
            → VacuumsToCounted self.new at past result }
        ensures within { OnOk result (IsWithin self.old.rows self.new.rows) }
        ensures unchanged { OnErr result (self.new ≡ self.old) }
    {
        match self.check_vacuum(at) {
            Ok(()) => Ok(self.vacuum_by_tally(at)?),
            Err(fault) => Err(fault),
        }
    }

    /// Does a part of `vacuum_to`, so that one call does bounded work: it drops rows of the first keys above `after`,
    /// at most `limit` keys, and returns the numbers of the report of the rows of these keys, as `vacuum_counted` does,
    /// and the last of the keys: the next part begins above it. It returns no key if there is none left. The first part
    /// begins with the empty key, and between parts all calls are possible: each part vacuums its keys at the snapshots
    /// that are open then. The stamp becomes the horizon with the first part. Rows of other keys stay.
    ///
    /// Refused as `vacuum_to`. It looks up one key, and each key of the part once more. All memory that it needs is
    /// allocated before anything changes: a copy of each key, and no report. That is in the reply to `VacuumPart`.
    pub fn vacuum_part_counted(
        &mut self,
        at: Stamp,
        after: &[u8],
        limit: usize,
    ) -> Result<(Numbers, Option<Bytes>), CoreFault>
        ensures represents { (past : List Step) → Represents self.old past
            → VacuumsPartCounted self.old self.new at after.now limit past result }
        ensures within { OnOk result (IsWithin self.old.rows self.new.rows) }
        ensures unchanged { OnErr result (self.new ≡ self.old) }
    {
        self.check_vacuum(at)?;
        let part = self.tally_next(at, after, limit)?;
        Ok(self.carry_out_part_tally(at, part))
    }

    /// Returns the certificate of the stored rows at or below a stamp: the report of a vacuum to the stamp that would
    /// drop none of them. It changes nothing. `rows_to` has the rows that it certifies.
    ///
    /// Refused, in this order: the stamp is above the floor; it is below the horizon; a row at or below it would be
    /// dropped, as none is right after a vacuum to the stamp; out of memory, which may come before that is known.
    pub fn certificate(&self, at: Stamp) -> Result<Report, CertificateFault>
        ensures { (past : List Step) → Represents self.now past
            → Certifies self.now at past result }
    {
        self.check_vacuum(at)?;
        let report = self.plan(at)?.report()?;
        if report.dropped > 0 {
            return Err(CertificateFault::NotFewest);
        }
        Ok(report)
    }

    /// Vacuums to a stamp that `check_vacuum` does not refuse, with a tally in place of a plan.
    fn vacuum_by_tally(&mut self, at: Stamp) -> Result<Numbers, NoMemory>
        requires low { at ≤ floor_in self.old }
        requires high { self.old.horizon ≤ at }
        ensures ok { IfOk result (λ numbers. (past : List Step) → Represents self.old past
            → VacuumsCounted self.new at past numbers) }
        ensures within { OnOk result (IsWithin self.old.rows self.new.rows) }
        ensures unchanged { OnErr result (self.new ≡ self.old) }
    {
        let tally = self.tally(at)?;
        Ok(self.carry_out_tally(at, &tally))
    }
}
