//! A frame, written in pieces.
ghost use Rattle.std.specs.Prelude.{◌≡◌, ◌+◌, ◌++◌, List, ℕ, [], IfOk, OnOk, OnErr, length};
ghost use Rattle.sha2.specs.Sha256.{sha256};
ghost use Rattle.hlc_frame.specs.{Frame.front_bytes, Writing.HasPut};

use crate::front::front_of;
use sha2::{Digest, Sha256};
use std::alloc::AllocError;

/// A frame that is being written: its front is written, and its body comes in pieces.
#[derive(Drop)]
pub struct FrameWriter {
    hasher: Sha256,
}

impl FrameWriter {
    /// Appends the front of a frame, whose body will have `length` bytes.
    ///
    /// The caller appends the body, piece by piece, and passes each piece to `put`. If the pieces
    /// do not have `length` bytes in all, the result is no frame, and is not read as one. `out` is
    /// unchanged if memory runs out.
    pub fn begin(out: &mut Vec<u8>, length: u64, tag: u64) -> Result<FrameWriter, AllocError>
        ensures put { IfOk result (λ writer. HasPut writer (front_bytes length tag) []) }
        ensures front { OnOk result (out.new.items ≡ out.old.items ++ front_bytes length tag) }
        ensures unchanged { OnErr result (out.new.items ≡ out.old.items) }
    {
        let front = front_of(length, tag);
        let mut hasher = Sha256::new();
        hasher.update(front.as_slice());
        out.extend_from_slice(&front)?;
        Ok(FrameWriter { hasher })
    }

    /// Adds a piece of the body, which the caller has written, to the digest. It needs no memory.
    pub fn put(&mut self, piece: &[u8])
        ensures { (front body : List ℕ) → HasPut self.old front body
            → HasPut self.new front (body ++ piece.now) }
    {
        self.hasher.update(piece);
    }

    /// Appends the digest, which ends the frame. `out` is unchanged if memory runs out.
    pub fn end(self, out: &mut Vec<u8>) -> Result<(), AllocError>
        ensures ok { (front body : List ℕ) → HasPut self front body
            → OnOk result (out.new.items ≡ out.old.items ++ sha256 (front ++ body)) }
        ensures unchanged { OnErr result (out.new.items ≡ out.old.items) }
    {
        self.append_digest(out)
    }

    /// Appends the digest, which ends the frame, and leaves the writer as it is: if memory runs out, `out` is
    /// unchanged, and the call may be repeated.
    pub fn append_digest(&self, out: &mut Vec<u8>) -> Result<(), AllocError>
        ensures ok { (front body : List ℕ) → HasPut self.now front body
            → OnOk result (out.new.items ≡ out.old.items ++ sha256 (front ++ body)) }
        ensures long { OnOk result (length out.new.items ≡ length out.old.items + 32) }
        ensures unchanged { OnErr result (out.new.items ≡ out.old.items) }
    {
        let digest = self.hasher.clone()?.finalize();
        out.extend_from_slice(&digest)?;
        Ok(())
    }
}
