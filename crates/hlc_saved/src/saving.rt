//! A store to bytes and back.
ghost use Rattle.std.specs.Prelude.{◌≡◌, List, ℕ, IfOk, IfErr, Result};
ghost use Rattle.hlc_core.specs.{Past.Step, StoreView.StoreView, StoreView.Represents};
ghost use Rattle.hlc_saved.specs.declared.fault.ResumeError.TheVariants.{NoMemory as no_memory};
ghost use Rattle.hlc_wire.specs.declared.fault.WireFault.{WireFault as AFault};
ghost use Rattle.hlc_saved.specs.Saved.{AreOf, AreOfStore, BytesRepresent, Ends, EndsWith, Resumes};

use crate::fault::ResumeError;
use crate::stage::{Stage, finish};
use crate::store_writer::StoreWriter;
use crate::writer::whole_size;
use hlc_core::Core;
use hlc_frame::open_frame;
use hlc_values::NoMemory;
use std::alloc::Global;

/// A store that was made from some bytes.
#[derive(Drop)]
pub struct Resumed {
    pub core: Core,
    /// The tag that the bytes were saved with.
    pub tag: u64,
}

/// Returns the bytes of a store and of a tag: they represent every past that the store represents.
///
/// Refused only if memory runs out. It needs memory for the bytes, once, and little more: the rows are not copied.
pub fn save(alloc: Global, core: &Core, tag: u64) -> Result<Vec<u8>, NoMemory>
    ensures kept { IfOk result (λ bytes. AreOfStore bytes.items tag core.now) }
    ensures represents { (past : List Step) → Represents core.now past
        → IfOk result (λ bytes. BytesRepresent bytes.items tag past) }
{
    let mut out = Vec::new(alloc);
    let mut writer = StoreWriter::begin(&mut out, core, tag)?;
    out.reserve(whole_size(writer.size)?.saturating_sub(out.len()))?;
    let left = writer.left();
    for _ in 0..left {
        writer.more(&mut out)?;
    }
    writer.end(&mut out)?;
    Ok(out)
}

/// Makes a store from bytes, whoever wrote them: it represents every past that they represent. Beside the bytes, it
/// needs little more memory than the store: each row is put into the store's table as it is read.
///
/// The bytes are checked first, as by `decode_checkpoint`; then their content, as by `Core::restore`. Memory runs out
/// only where all of the bytes are a frame, so a damaged file is always reported as one; it may run out before another
/// fault is found. Bytes that `save` returned are refused only if memory runs out.
pub fn resume(alloc: Global, bytes: &[u8]) -> Result<Resumed, ResumeError>
    ensures exact { Resumes bytes.now result }
    ensures tag { (tag : ℕ) (kept : StoreView) → AreOf bytes.now tag kept
        → IfOk result (λ made. made.tag ≡ tag) }
    ensures represents { (tag : ℕ) (past : List Step) → BytesRepresent bytes.now tag past
        → IfOk result (λ made. Represents made.core past) }
    ensures only { (tag : ℕ) (kept : StoreView) → AreOf bytes.now tag kept
        → IfErr result (λ error. error ≡ no_memory) }
{
    resume_exactly(alloc, bytes)
}

/// Makes a store from bytes.
fn resume_exactly(alloc: Global, bytes: &[u8]) -> Result<Resumed, ResumeError>
    ensures { Resumes bytes.now result }
{
    let frame = match open_frame(bytes) {
        Ok(frame) => frame,
        Err(fault) => return Err(ResumeError::Bytes(fault)),
    };
    let tag = frame.tag;
    with_tag(finish(alloc, Stage::Start, frame.body), tag)
}

/// Returns a store with the tag that its bytes were saved with, or why there is none.
pub(crate) fn with_tag(made: Result<Core, ResumeError>, tag: u64) -> Result<Resumed, ResumeError>
    ensures { (read : Result StoreView AFault) → Ends read made → EndsWith read tag result }
{
    match made {
        Ok(core) => Ok(Resumed { core, tag }),
        Err(error) => Err(error),
    }
}

/// Copies a store by way of its bytes: the copy represents every past that this one represents.
///
/// Refused only if memory runs out.
pub fn copy_by_bytes(alloc: Global, core: &Core) -> Result<Core, NoMemory>
    ensures { (past : List Step) → Represents core.now past
        → IfOk result (λ copy. Represents copy past) }
{
    let bytes = save(alloc, core, 0)?;
    match resume(alloc, bytes.as_slice()) {
        Ok(made) => Ok(made.core),
        Err(error) => {
            prove!(matches!(&error, ResumeError::NoMemory));
            Err(NoMemory)
        }
    }
}
