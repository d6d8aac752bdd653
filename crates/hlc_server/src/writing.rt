//! Calls of the core, and their entries in the trail.
ghost use Rattle.std.specs.Prelude.{◌≡◌, ◌+◌, ◌≤◌, ◌++◌, ◌∷◌, [], Some, IfOk, OnOk, OnErr, vec_len, vec_capacity};
ghost use Rattle.hlc_core.specs.{History.IsVacuum, History.IsPlain, Planned.IsPlannedFor};
ghost use Rattle.hlc_server.specs.{Trails.entries_of, Calls.Enters};

use crate::entry::Entry;
use crate::trail::Trail;
use hlc_core::{Core, CoreEvent, CoreReply, NoMemory, Planned};
use std::thread::Threads;

/// Makes a call of the core, and writes it into the trail.
#[inline(always)]
pub(crate) fn make_call(
    core: &mut Core,
    trail: &mut Option<Trail>,
    caller: u16,
    event: &CoreEvent,
) -> Result<CoreReply, NoMemory>
    ensures { Enters core.old core.new (entries_of trail.old) (entries_of trail.new)
        caller event.now result }
{
    match trail {
        None => core.step_ref(event),
        Some(trail) => match event {
            CoreEvent::Vacuum | CoreEvent::VacuumTo(_) | CoreEvent::VacuumPart { .. } => {
                let planned = core.planned(event)?;
                write_vacuum(core, trail, caller, event, planned)
            }
            _ => write_call(core, trail, caller, event),
        },
    }
}

/// Makes a call as `make_call` does, but several threads plan a whole vacuum.
pub(crate) fn plan_call(
    rt: &(impl Threads + Sync),
    core: &mut Core,
    trail: &mut Option<Trail>,
    caller: u16,
    event: &CoreEvent,
) -> Result<CoreReply, NoMemory>
    ensures { Enters core.old core.new (entries_of trail.old) (entries_of trail.new)
        caller event.now result }
{
    match event {
        CoreEvent::Vacuum | CoreEvent::VacuumTo(_) => {
            let planned = core.planned_parallel(rt, event)?;
            match trail {
                None => Ok(core.finish(planned)),
                Some(trail) => write_vacuum(core, trail, caller, event, planned),
            }
        }
        _ => make_call(core, trail, caller, event),
    }
}

/// Makes a call of the core other than a vacuum, and its entry. A call whose reply takes memory to copy leaves the core
/// unchanged, so the copy may be made after the call.
fn write_call(
    core: &mut Core,
    trail: &mut Trail,
    caller: u16,
    event: &CoreEvent,
) -> Result<CoreReply, NoMemory>
    requires { IsVacuum event.now → ⊥ }
    ensures { Enters core.old core.new (Some trail.old.entries.items) (Some trail.new.entries.items)
        caller event.now result }
{
    let written = prepare(trail, event)?;
    let reply = core.step_ref(event)?;
    write(trail, caller, written, &reply)?;
    Ok(reply)
}

/// Carries out a vacuum, or part of one, that was planned for an event, and makes the entry of the call. Both replies
/// are made before anything changes.
fn write_vacuum(
    core: &mut Core,
    trail: &mut Trail,
    caller: u16,
    event: &CoreEvent,
    planned: Planned,
) -> Result<CoreReply, NoMemory>
    requires { IsPlannedFor core.old event.now planned }
    ensures { Enters core.old core.new (Some trail.old.entries.items) (Some trail.new.entries.items)
        caller event.now result }
{
    let written = prepare(trail, event)?;
    let reply = planned.reply()?;
    trail.entries.push_reserved(Entry {
        caller,
        event: written,
        reply,
    });
    Ok(core.finish(planned))
}

/// Makes room for an entry, and returns a copy of the event for it.
fn prepare(trail: &mut Trail, event: &CoreEvent) -> Result<CoreEvent, NoMemory>
    ensures entries { trail.new.entries.items ≡ trail.old.entries.items }
    ensures room { OnOk result
        (vec_len trail.new.entries + 1 ≤ vec_capacity trail.new.entries) }
    ensures copy { IfOk result (λ copy. copy ≡ event.now) }
{
    let Ok(copy) = event.clone() else {
        return Err(NoMemory);
    };
    let Ok(()) = trail.entries.reserve(1) else {
        return Err(NoMemory);
    };
    Ok(copy)
}

/// Writes the entry of a call, with a copy of the reply, into a trail that has room for it.
fn write(
    trail: &mut Trail,
    caller: u16,
    event: CoreEvent,
    reply: &CoreReply,
) -> Result<(), NoMemory>
    requires { vec_len trail.old.entries + 1 ≤ vec_capacity trail.old.entries }
    ensures ok { OnOk result (trail.new.entries.items ≡ trail.old.entries.items
        ++ record { caller = caller; event = event; reply = reply.now } ∷ []) }
    ensures err { OnErr result ((trail.new ≡ trail.old) × (IsPlain reply.now → ⊥)) }
{
    let Ok(reply) = reply.clone() else {
        return Err(NoMemory);
    };
    trail.entries.push_reserved(Entry {
        caller,
        event,
        reply,
    });
    Ok(())
}
