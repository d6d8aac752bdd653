//! Vacuums that events ask for: planned first, and then carried out, which needs no memory.
ghost use Rattle.std.specs.Prelude.{◌≡◌, ℕ, List, None, Some, IfOk, IfErr, OnErr};
ghost use Rattle.hlc_core.specs.{Past.Step, StoreView.Represents};
ghost use Rattle.hlc_core.specs.History.{RepresentsHistory, IsStep, IsMove, IsVacuum, IsRefused, IsReplyTo};
ghost use Rattle.hlc_core.specs.History.{expected_refusal};
ghost use Rattle.hlc_core.specs.Planned.{IsAsked, IsPossible, IsPlannedFor, reply_of};
ghost use Rattle.hlc_events.specs.declared.event.CoreEvent.{CoreEvent as AnEvent};
ghost use Rattle.hlc_core.specs.declared.reply.CoreReply.{CoreReply as AReply, TheVariants.Refused as refused_by};
ghost use Rattle.hlc_vacuum.specs.Representing.{IsWithin};

use crate::reply::CoreReply;
use crate::store::Core;
use hlc_clock::Stamp;
use hlc_events::{CoreEvent, CoreFault};
use hlc_vacuum::{BoxedReport, PartPlan, Plan};
use hlc_values::NoMemory;
use std::thread::Threads;

/// A vacuum, or part of one, that was planned for an event, with a block for its report; or why it is refused.
#[derive(Debug, Drop)]
pub enum Planned {
    Whole {
        at: Stamp,
        plan: Plan,
        block: BoxedReport,
    },
    Part {
        at: Stamp,
        part: PartPlan,
        block: BoxedReport,
    },
    Refused(CoreFault),
}

impl Planned {
    /// Returns a copy of the reply of `Core::finish`, made beforehand.
    pub fn reply(&self) -> Result<CoreReply, NoMemory>
        ensures { IfOk result (λ reply. reply ≡ reply_of self.now) }
    {
        match self {
            Planned::Whole { plan, block, .. } => {
                let report = block.clone()?.with(plan.report()?);
                Ok(CoreReply::Vacuumed(report))
            }
            Planned::Part { part, block, .. } => {
                let report = block.clone()?.with(part.plan.report()?);
                let end = part.end.clone()?;
                Ok(CoreReply::VacuumedPart { report, end })
            }
            Planned::Refused(fault) => Ok(CoreReply::Refused(*fault)),
        }
    }
}

impl Core {
    /// Plans the vacuum, or the part of one, that an event asks for: all memory that it needs is allocated here. It
    /// changes nothing. What would be refused is planned as that refusal.
    pub fn planned(&self, event: &CoreEvent) -> Result<Planned, NoMemory>
        requires { IsVacuum event.now }
        ensures ok { IfOk result (λ planned. IsPlannedFor self.now event.now planned) }
        ensures err { OnErr result ((past : List Step) → Represents self.now past
            → expected_refusal past event.now ≡ None) }
    {
        let at = match self.stamp_asked(event) {
            Ok(at) => at,
            Err(fault) => return Ok(Planned::Refused(fault)),
        };
        let block = BoxedReport::blank(self.alloc)?;
        match event {
            CoreEvent::VacuumPart { after, limit, .. } => {
                let part = self.plan_next(at, after.as_slice(), *limit)?;
                Ok(Planned::Part { at, part, block })
            }
            _ => {
                let plan = self.plan(at)?;
                Ok(Planned::Whole { at, plan, block })
            }
        }
    }

    /// Plans what an event asks for as `planned` does, but several threads plan a whole vacuum.
    pub fn planned_parallel(
        &self,
        rt: &(impl Threads + Sync),
        event: &CoreEvent,
    ) -> Result<Planned, NoMemory>
        requires { IsVacuum event.now }
        ensures ok { IfOk result (λ planned. IsPlannedFor self.now event.now planned) }
        ensures err { OnErr result ((past : List Step) → Represents self.now past
            → expected_refusal past event.now ≡ None) }
    {
        if let CoreEvent::VacuumPart { .. } = event {
            return self.planned(event);
        }
        let at = match self.stamp_asked(event) {
            Ok(at) => at,
            Err(fault) => return Ok(Planned::Refused(fault)),
        };
        let block = BoxedReport::blank(self.alloc)?;
        let plan = self.plan_parallel(rt, at)?;
        Ok(Planned::Whole { at, plan, block })
    }

    /// Carries out what was planned for an event of this store as it is, and returns the reply. It needs no memory.
    pub fn finish(&mut self, planned: Planned) -> CoreReply
        requires { (event : AnEvent) × IsPlannedFor self.old event planned }
        ensures step { (nodes : ℕ) (event : AnEvent) (history : List (AnEvent × AReply))
            → IsPlannedFor self.old event planned → RepresentsHistory nodes self.old history
            → IsStep nodes self.old self.new event history result }
        ensures past { (event : AnEvent) (past : List Step) → IsPlannedFor self.old event planned
            → Represents self.old past → IsMove past self.old self.new event result }
        ensures within { IsWithin self.old.rows self.new.rows }
        ensures reply { result ≡ reply_of planned }
        ensures form { (event : AnEvent) → IsPlannedFor self.old event planned → IsReplyTo event result }
        ensures refused { IsRefused result → self.new ≡ self.old }
    {
        self.carry_out_planned(planned)
    }

    /// Carries out what was planned for an event of this store as it is, and returns the reply.
    fn carry_out_planned(&mut self, planned: Planned) -> CoreReply
        requires { (event : AnEvent) × IsPlannedFor self.old event planned }
        ensures past { (event : AnEvent) (past : List Step) → IsPlannedFor self.old event planned
            → Represents self.old past → IsMove past self.old self.new event result }
        ensures within { IsWithin self.old.rows self.new.rows }
        ensures reply { result ≡ reply_of planned }
        ensures form { (event : AnEvent) → IsPlannedFor self.old event planned → IsReplyTo event result }
        ensures refused { IsRefused result → self.new ≡ self.old }
    {
        match planned {
            Planned::Whole { at, plan, block } => {
                CoreReply::Vacuumed(block.with(self.carry_out(at, plan)))
            }
            Planned::Part { at, part, block } => {
                let (report, end) = self.carry_out_part(at, part);
                CoreReply::VacuumedPart {
                    report: block.with(report),
                    end,
                }
            }
            Planned::Refused(fault) => CoreReply::Refused(fault),
        }
    }

    /// Returns the stamp of the vacuum that an event asks for, or why it is refused.
    fn stamp_asked(&self, event: &CoreEvent) -> Result<Stamp, CoreFault>
        requires { IsVacuum event.now }
        ensures asked { IfOk result (IsAsked self.now event.now) }
        ensures ok { IfOk result (IsPossible self.now event.now) }
        ensures err { IfErr result (λ fault. (past : List Step) → Represents self.now past
            → expected_refusal past event.now ≡ Some fault) }
        ensures form { IfErr result (λ fault. IsReplyTo event.now (refused_by fault)) }
    {
        match event {
            CoreEvent::VacuumTo(at) => match self.check_vacuum(*at) {
                Ok(()) => Ok(*at),
                Err(fault) => Err(fault),
            },
            CoreEvent::VacuumPart { at, .. } => match self.check_vacuum(*at) {
                Ok(()) => Ok(*at),
                Err(fault) => Err(fault),
            },
            _ => Ok(self.floor()),
        }
    }
}
