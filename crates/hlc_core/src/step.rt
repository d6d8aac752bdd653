//! The calls of a core by cases, as events with replies.
ghost use Rattle.std.specs.Prelude.{◌≡◌, ◌≢◌, ℕ, List, IfOk, IfErr, OnOk, OnErr};
ghost use Rattle.hlc_core.specs.{Past.Step, StoreView.Represents, declared.reply.CoreReply.CoreReply as AReply};
ghost use Rattle.hlc_core.specs.History.{RepresentsHistory, Steps, Moves, IsQuestion, IsVacuum, IsRefused, IsPlain};
ghost use Rattle.hlc_core.specs.History.{IsReplyTo};
ghost use Rattle.hlc_events.specs.declared.event.CoreEvent.{CoreEvent as AnEvent};
ghost use Rattle.hlc_vacuum.specs.Representing.{IsWithin};

use crate::reply::CoreReply;
use crate::store::Core;
use hlc_events::{CoreEvent, CoreFault};
use hlc_node::Bytes;
use hlc_values::NoMemory;

impl Core {
    /// Makes the call that an event asks for, and returns its reply.
    ///
    /// A refusal is a reply, except out of memory: then the error returns the event, and nothing changed. A read or a
    /// listing changes nothing, whatever its reply. The reply is expected after each history that the store represented
    /// since its start, and after each past, as that of a state that it was restored from.
    pub fn step(&mut self, event: CoreEvent) -> Result<CoreReply, (NoMemory, CoreEvent)>
        ensures represents { (nodes : ℕ) (history : List (AnEvent × AReply))
            → RepresentsHistory nodes self.old history
            → Steps nodes self.old self.new event history result }
        ensures past { (past : List Step) → Represents self.old past
            → Moves past self.old self.new event result }
        ensures within { IsVacuum event → OnOk result (IsWithin self.old.rows self.new.rows) }
        ensures err { IfErr result (λ back. (back.1 ≡ event) × (self.new ≡ self.old)) }
        ensures asked { IsQuestion event → self.new ≡ self.old }
        ensures refused { IfOk result (λ reply. IsRefused reply → self.new ≡ self.old) }
        ensures copied { IfOk result
            (λ reply. (IsVacuum event → ⊥) → (IsPlain reply → ⊥) → self.new ≡ self.old) }
        ensures form { IfOk result (λ reply. IsReplyTo event reply) }
    {
        match self.step_ref(&event) {
            Ok(reply) => Ok(reply),
            Err(shortage) => Err((shortage, event)),
        }
    }

    /// Takes a borrowed event as `step` takes one.
    pub fn step_ref(&mut self, event: &CoreEvent) -> Result<CoreReply, NoMemory>
        ensures represents { (nodes : ℕ) (history : List (AnEvent × AReply))
            → RepresentsHistory nodes self.old history
            → Steps nodes self.old self.new event.now history result }
        ensures past { (past : List Step) → Represents self.old past
            → Moves past self.old self.new event.now result }
        ensures within { IsVacuum event.now → OnOk result (IsWithin self.old.rows self.new.rows) }
        ensures unchanged { OnErr result (self.new ≡ self.old) }
        ensures asked { IsQuestion event.now → self.new ≡ self.old }
        ensures refused { IfOk result (λ reply. IsRefused reply → self.new ≡ self.old) }
        ensures copied { IfOk result
            (λ reply. (IsVacuum event.now → ⊥) → (IsPlain reply → ⊥) → self.new ≡ self.old) }
        ensures form { IfOk result (λ reply. IsReplyTo event.now reply) }
    {
        self.make(event)
    }

    /// Makes the call that an event asks for, and returns its reply.
    fn make(&mut self, event: &CoreEvent) -> Result<CoreReply, NoMemory>
        ensures past { (past : List Step) → Represents self.old past
            → Moves past self.old self.new event.now result }
        ensures within { IsVacuum event.now → OnOk result (IsWithin self.old.rows self.new.rows) }
        ensures unchanged { OnErr result (self.new ≡ self.old) }
        ensures asked { IsQuestion event.now → self.new ≡ self.old }
        ensures refused { IfOk result (λ reply. IsRefused reply → self.new ≡ self.old) }
        ensures copied { IfOk result
            (λ reply. (IsVacuum event.now → ⊥) → (IsPlain reply → ⊥) → self.new ≡ self.old) }
        ensures form { IfOk result (λ reply. IsReplyTo event.now reply) }
    {
        match event {
            CoreEvent::Accept(item) => match self.accept_copy(item) {
                Ok(accepted) => Ok(CoreReply::Accepted(accepted)),
                Err(fault) => refusal_reply(fault),
            },
            CoreEvent::Join => match self.join() {
                Ok((node, start)) => Ok(CoreReply::Joined { node, start }),
                Err(fault) => refusal_reply(fault),
            },
            CoreEvent::OpenAt(stamp) => match self.open(*stamp) {
                Ok(id) => Ok(CoreReply::Opened { id, stamp: *stamp }),
                Err(fault) => refusal_reply(fault),
            },
            CoreEvent::OpenFloor => match self.open_floor() {
                Ok((id, stamp)) => Ok(CoreReply::Opened { id, stamp }),
                Err(fault) => refusal_reply(fault),
            },
            CoreEvent::Read { id, key } => self.read_copy(*id, key.as_slice()),
            CoreEvent::List(id) => match self.list(*id) {
                Ok(pairs) => Ok(CoreReply::Listing(pairs)),
                Err(fault) => refusal_reply(fault),
            },
            CoreEvent::Close(id) => match self.close(*id) {
                Ok(stamp) => Ok(CoreReply::Closed(stamp)),
                Err(_) => Ok(CoreReply::Refused(CoreFault::NoSnapshot)),
            },
            CoreEvent::Vacuum | CoreEvent::VacuumTo(_) | CoreEvent::VacuumPart { .. } => {
                self.vacuum_step(event)
            }
            CoreEvent::JoinAt(start) => match self.join_at(*start) {
                Ok(node) => Ok(CoreReply::Joined {
                    node,
                    start: *start,
                }),
                Err(fault) => refusal_reply(fault),
            },
        }
    }

    /// Returns the reply to a vacuum, or to part of one. All memory is allocated before anything changes.
    fn vacuum_step(&mut self, event: &CoreEvent) -> Result<CoreReply, NoMemory>
        requires { IsVacuum event.now }
        ensures past { (past : List Step) → Represents self.old past
            → Moves past self.old self.new event.now result }
        ensures within { OnOk result (IsWithin self.old.rows self.new.rows) }
        ensures unchanged { OnErr result (self.new ≡ self.old) }
        ensures refused { IfOk result (λ reply. IsRefused reply → self.new ≡ self.old) }
        ensures form { IfOk result (λ reply. IsReplyTo event.now reply) }
    {
        let planned = self.planned(event)?;
        Ok(self.finish(planned))
    }

    /// Returns the reply to a read, with a copy of the value.
    fn read_copy(&self, id: u64, key: &[u8]) -> Result<CoreReply, NoMemory>
        ensures past { (past : List Step) → Represents self.now past
            → Moves past self.now self.now (CoreEvent.Read id key.now) result }
        ensures form { IfOk result (λ reply. IsReplyTo (CoreEvent.Read id key.now) reply) }
    {
        match self.read(id, key) {
            Err(_) => Ok(CoreReply::Refused(CoreFault::NoSnapshot)),
            Ok(None) => Ok(CoreReply::Answer(None)),
            Ok(Some(bytes)) => match Bytes::from_slice(self.alloc, bytes) {
                Ok(copy) => Ok(CoreReply::Answer(Some(copy))),
                Err(_) => Err(NoMemory),
            },
        }
    }
}

/// Returns a refusal as a reply, except out of memory.
fn refusal_reply(fault: CoreFault) -> Result<CoreReply, NoMemory>
    ensures ok { IfOk result
        (λ reply. (reply ≡ CoreReply.Refused fault) × (fault ≢ CoreFault.NoMemory)) }
    ensures err { OnErr result (fault ≡ CoreFault.NoMemory) }
{
    match fault {
        CoreFault::NoMemory => Err(NoMemory),
        fault => Ok(CoreReply::Refused(fault)),
    }
}
