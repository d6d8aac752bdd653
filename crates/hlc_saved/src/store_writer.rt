//! A checkpoint that is written from the rows of a store, which are not copied.
ghost use Rattle.std.specs.Prelude.{◌≡◌, ◌<◌, ◌-◌, ◌↔◌, ◌++◌, ℕ, List, IsTrue, IfOk, OnOk, OnErr, length};
ghost use Rattle.hlc_core.specs.StoreView.{StoreView};
ghost use Rattle.hlc_body.specs.Spelling.{checkpoint_bytes};
ghost use Rattle.hlc_saved.specs.{Saved.AreOfStore, Writing.HasSaved, Writing.begin_bytes, Writing.leaves_left};

use crate::bytes::bytes_from;
use crate::leaf::append_leaf;
use crate::size::store_size;
use crate::writer::begin_frame;
use hlc_body::{PreambleRef, count_of};
use hlc_checkpoint::{Leaves, RowRef};
use hlc_core::Core;
use hlc_frame::FrameWriter;
use hlc_values::NoMemory;

/// A store that is being written, in pieces. All of them together are bytes of the store, as `save` returns them.
///
/// It borrows the store, so nothing changes meanwhile. Each piece has the rows of one leaf of the index of the keys.
/// The caller may write out what was appended, and clear it, between any two calls. It needs memory for a list of the
/// leaves, 16 bytes each, for a list of the rows of one key, and for the bytes of one row.
#[derive(Drop)]
pub struct StoreWriter<'a> {
    frame: FrameWriter,
    // The number of bytes of the body.
    pub(crate) size: u64,
    leaves: Leaves<'a>,
    next: usize,
    rows: Vec<RowRef<'a>>,
    piece: Vec<u8>,
}

impl<'a> StoreWriter<'a> {
    /// Appends everything before the rows. It looks at each row, to add up its length.
    ///
    /// Refused only if memory runs out. `out` is unchanged then.
    pub fn begin(out: &mut Vec<u8>, core: &'a Core, tag: u64) -> Result<StoreWriter<'a>, NoMemory>
        ensures written { IfOk result
            (λ writer. HasSaved writer tag core.now (begin_bytes tag core.now)) }
        ensures ok { OnOk result (out.new.items ≡ out.old.items ++ begin_bytes tag core.now) }
        ensures size { IfOk result (λ writer. writer.size ≡ length (checkpoint_bytes core.now)) }
        ensures unchanged { OnErr result (out.new.items ≡ out.old.items) }
    {
        let store = core.lent();
        let leaves = store.leaves()?;
        let count = count_of(&store).ok_or(NoMemory)?;
        let preamble = PreambleRef::of_store(&store, count);
        let size = store_size(&store, &preamble, &leaves).ok_or(NoMemory)?;
        let frame = begin_frame(out, &preamble, size, tag)?;
        let alloc = *out.allocator();
        Ok(StoreWriter {
            frame,
            size,
            leaves,
            next: 0,
            rows: Vec::new(alloc),
            piece: Vec::new(alloc),
        })
    }

    /// Returns the number of leaves whose rows are still to be appended.
    pub fn left(&self) -> usize
        ensures { result ≡ leaves_left self.now }
    {
        self.leaves.len().saturating_sub(self.next)
    }

    /// Appends the rows of the next leaf, or nothing if there is none, and returns whether any leaf is left after it.
    ///
    /// Refused only if memory runs out. `out` and the writer are as before then, so that the call may be repeated.
    pub fn more(&mut self, out: &mut Vec<u8>) -> Result<bool, NoMemory>
        ensures written { (tag : ℕ) (kept : StoreView) (bytes : List ℕ)
            → HasSaved self.old tag kept bytes
            → OnOk result ((piece : List ℕ) × (out.new.items ≡ out.old.items ++ piece)
            × HasSaved self.new tag kept (bytes ++ piece)) }
        ensures waits { (tag : ℕ) (kept : StoreView) (bytes : List ℕ)
            → HasSaved self.old tag kept bytes
            → OnErr result (HasSaved self.new tag kept bytes) }
        ensures unchanged { OnErr result (out.new.items ≡ out.old.items) }
        ensures fewer { OnOk result (leaves_left self.new ≡ leaves_left self.old - 1) }
        ensures left { IfOk result (λ more. IsTrue more ↔ (0 < leaves_left self.new)) }
    {
        if self.left() == 0 {
            return Ok(false);
        }
        // The proof needs that there are fewer than 2^64 leaves.
        let _count = self.leaves.len();
        let before = out.len();
        let leaf = self.leaves.at(self.next);
        if let Err(error) = append_leaf(out, &mut self.rows, &mut self.piece, leaf) {
            out.truncate(before);
            return Err(NoMemory::from(error));
        }
        self.frame.put(bytes_from(out.as_slice(), before));
        self.next += 1;
        Ok(self.left() > 0)
    }

    /// Appends the digest, which ends the frame. If leaves are left, the bytes are no frame.
    ///
    /// Refused only if memory runs out. `out` is unchanged then.
    pub fn end(self, out: &mut Vec<u8>) -> Result<(), NoMemory>
        ensures whole { (tag : ℕ) (kept : StoreView) (bytes : List ℕ)
            → HasSaved self.entry tag kept bytes → leaves_left self.entry ≡ 0
            → OnOk result ((piece : List ℕ) × (out.new.items ≡ out.old.items ++ piece)
            × AreOfStore (bytes ++ piece) tag kept) }
        ensures unchanged { OnErr result (out.new.items ≡ out.old.items) }
    {
        let (frame, _) = self.into_frame();
        Ok(frame.end(out)?)
    }

    /// Returns the frame, and the number of bytes of its body.
    pub(crate) fn into_frame(self) -> (FrameWriter, u64)
        ensures frame { result.0 ≡ self.entry.frame }
        ensures size { result.1 ≡ self.entry.size }
    {
        let StoreWriter {
            frame,
            size,
            leaves: _,
            next: _,
            rows: _,
            piece: _,
        } = self;
        (frame, size)
    }
}
