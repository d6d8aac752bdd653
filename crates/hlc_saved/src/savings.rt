//! The bytes of a store, made as they are read, without a borrow of the store between two calls.
ghost use Rattle.std.specs.Prelude.{◌≡◌, ◌↔◌, ◌<◌, ◌≤◌, ◌+◌, ◌++◌, ◌⊎◌, ℕ, List, [], false, true, IsTrue, All, IfOk};
ghost use Rattle.std.specs.Prelude.{IfErr, OnOk, OnErr, length, take, drop, min, ◌-◌};
ghost use Rattle.hlc_columns.specs.Answers.{AreNext};
ghost use Rattle.hlc_body.specs.Spelling.{saved_bytes};
ghost use Rattle.hlc_checkpoint.specs.{Checkpoint.IsStore, Lent.IsWritable};
ghost use Rattle.hlc_core.specs.StoreView.{StoreView};
ghost use Rattle.hlc_saved.specs.{Saved.AreOfStore, Saver.HasMade, Saver.IsRead, Saver.IsRefused, Saver.mark_of};

use crate::bytes::{bytes_from, copy_front};
use crate::fault::SaverError;
use crate::leaf::append_columns;
use crate::mark::{Mark, mark_of};
use crate::store_writer::StoreWriter;
use crate::writer::whole_size;
use hlc_checkpoint::StoreRef;
use hlc_columns::Keyed;
use hlc_core::Core;
use hlc_frame::FrameWriter;
use hlc_values::NoMemory;
use std::alloc::Global;

/// How many keys have their rows made at once.
const KEYS: usize = 32;

/// A store that is being saved, while its bytes are read. All of them together are bytes of the store, as `save`
/// returns them.
///
/// It does not borrow the store, which each call gets again. The store must not change until all bytes are read: a call
/// with a store that changed is refused. It has the rows of a few keys as bytes, and needs no other memory.
#[derive(Drop)]
pub struct Saver {
    mark: Mark,
    frame: FrameWriter,
    // The rows of the keys up to this one were made.
    last: Vec<u8>,
    // Whether the digest was made, after all rows.
    is_whole: bool,
    // The bytes that were made last. Those before the place were read.
    made: Vec<u8>,
    at: usize,
}

impl Saver {
    /// Begins to save a store and a tag of the caller's, and returns how many bytes it will be in all. It looks at
    /// each row, to add up its length.
    ///
    /// Refused only if memory runs out. It needs memory for a list of the leaves of the index of the keys, 16 bytes
    /// each, which is freed at once.
    pub fn start(alloc: Global, core: &Core, tag: u64) -> Result<(Saver, u64), NoMemory>
        ensures made { IfOk result (λ begun. HasMade begun.0 tag core.now []) }
        ensures len { IfOk result (λ begun. begun.1 ≡ length (saved_bytes tag core.now)) }
    {
        let mut made = Vec::new(alloc);
        let (frame, size) = StoreWriter::begin(&mut made, core, tag)?.into_frame();
        let saver = Saver {
            mark: mark_of(&core.lent()),
            frame,
            last: Vec::new(alloc),
            is_whole: false,
            made,
            at: 0,
        };
        Ok((saver, whole_size(size)? as u64))
    }

    /// Returns whether all bytes were read.
    pub fn is_read(&self) -> bool
        ensures exact { IsTrue result ↔ IsRead self.now }
        ensures whole { IsTrue result → (tag : ℕ) (kept : StoreView) (read : List ℕ)
            → HasMade self.now tag kept read → AreOfStore read tag kept }
    {
        self.is_whole && self.made.len() <= self.at
    }

    /// Writes the next bytes to the start of the buffer, as many as it has room for, and returns how many: fewer only
    /// if they are the last, or if memory ran out after some.
    ///
    /// Refused if the store changed since the start; then if memory ran out before any byte. Nothing is changed then.
    pub fn read(&mut self, core: &Core, out: &mut [u8]) -> Result<usize, SaverError>
        ensures made { IfOk result (λ len. (tag : ℕ) (read : List ℕ) → HasMade self.old tag core.now read
            → HasMade self.new tag core.now (read ++ take len out.new)) }
        ensures some { IfOk result
            (λ len. (0 < len) ⊎ (length out.old ≡ 0) ⊎ IsRead self.new) }
        ensures room { IfOk result (λ len. len ≤ length out.old) }
        ensures rest { IfOk result (λ len. drop len out.new ≡ drop len out.old) }
        ensures same { IfOk result (λ _. mark_of core.now ≡ self.old.mark) }
        ensures err { IfErr result (IsRefused self.old core.now) }
        ensures unchanged { OnErr result (self.new ≡ self.old) }
        ensures buffer { OnErr result (out.new ≡ out.old) }
    {
        let store = core.lent();
        if self.mark != mark_of(&store) {
            return Err(SaverError::Changed);
        }
        let room = out.len();
        let mut len = self.take(out, 0);
        for _ in 0..room {
            if len == room || self.is_whole {
                break;
            }
            if self.make(&store).is_err() {
                return if len == 0 {
                    Err(SaverError::NoMemory)
                } else {
                    Ok(len)
                };
            }
            len += self.take(out, len);
        }
        Ok(len)
    }

    /// Writes bytes that were made, and not read, to a place of the buffer, as many as fit, and returns how many.
    fn take(&mut self, out: &mut [u8], place: usize) -> usize
        requires { place ≤ length out.old }
        ensures len { result ≡ min (length (drop self.old.at self.old.made.items)) (length out.old - place) }
        ensures copied { out.new ≡ take place out.old
            ++ (take result (drop self.old.at self.old.made.items) ++ drop (place + result) out.old) }
        ensures passed { self.new ≡ record self.old { at = self.old.at + result } }
    {
        let left = bytes_from(self.made.as_slice(), self.at);
        let len = copy_front(left, out, place);
        self.at += len;
        len
    }

    /// Makes the next bytes: the rows of the next keys; or the digest, if no key is left. If memory runs out, nothing
    /// is changed.
    fn make(&mut self, store: &StoreRef<'_>) -> Result<(), NoMemory>
        requires store { IsStore store.now }
        requires read { length self.old.made.items ≤ self.old.at }
        requires more { self.old.is_whole ≡ false }
        ensures made { OnOk result ((tag : ℕ) (read : List ℕ) → HasMade self.old tag store.now read
            → HasMade self.new tag store.now read) }
        ensures some { OnOk result ((self.new.at ≡ 0) × (0 < length self.new.made.items)) }
        ensures unchanged { OnErr result (self.new ≡ self.old) }
    {
        let columns = store.columns_after(self.last.as_slice(), KEYS)?;
        if columns.is_empty() {
            self.make_digest()
        } else {
            self.make_rows(columns.as_slice())
        }
    }

    /// Makes the digest.
    fn make_digest(&mut self) -> Result<(), NoMemory>
        requires read { length self.old.made.items ≤ self.old.at }
        requires more { self.old.is_whole ≡ false }
        ensures made { OnOk result ((tag : ℕ) (kept : StoreView) (read : List ℕ)
            → AreNext kept.rows self.old.last.items 32 [] → HasMade self.old tag kept read
            → HasMade self.new tag kept read) }
        ensures some { OnOk result ((self.new.at ≡ 0) × (0 < length self.new.made.items)) }
        ensures unchanged { OnErr result (self.new ≡ self.old) }
    {
        let mut made = Vec::new(*self.made.allocator());
        self.frame.append_digest(&mut made)?;
        self.is_whole = true;
        self.made = made;
        self.at = 0;
        Ok(())
    }

    /// Makes the rows of the next keys.
    fn make_rows(&mut self, columns: &[Keyed<'_>]) -> Result<(), NoMemory>
        requires some { 0 < length columns.now }
        requires writable { All IsWritable columns.now }
        requires read { length self.old.made.items ≤ self.old.at }
        requires more { self.old.is_whole ≡ false }
        ensures made { OnOk result ((tag : ℕ) (kept : StoreView) (read : List ℕ)
            → AreNext kept.rows self.old.last.items 32 columns.now → HasMade self.old tag kept read
            → HasMade self.new tag kept read) }
        ensures some { All (λ one. 0 < length one.cells) columns.now
            → OnOk result ((self.new.at ≡ 0) × (0 < length self.new.made.items)) }
        ensures unchanged { OnErr result (self.new ≡ self.old) }
    {
        let alloc = *self.made.allocator();
        let last = Vec::from_slice(alloc, columns[columns.len() - 1].key())?;
        let mut made = Vec::new(alloc);
        append_columns(&mut made, columns)?;
        self.frame.put(made.as_slice());
        self.last = last;
        self.made = made;
        self.at = 0;
        Ok(())
    }
}
