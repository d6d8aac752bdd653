//! The progress of the reading of a checkpoint.
ghost use Rattle.std.specs.Prelude.{◌≡◌, ◌++◌, [], List, ℕ, Ok, OnOk};
ghost use Rattle.hlc_checkpoint.specs.Growing.{HasGrown};
ghost use Rattle.hlc_wire.specs.Reading.{whole};
ghost use Rattle.hlc_core.specs.StoreView.{StoreView};
ghost use Rattle.hlc_saved.specs.Saved.{Ends};
ghost use Rattle.hlc_saved.specs.Blocks.{Reader, RowsLeave, Leaves, NextFails, IsStuck};

use crate::fault::ResumeError;
use hlc_body::{preamble_at, row_at};
use hlc_core::{Core, Growing};
use hlc_values::NoMemory;
use hlc_wire::{DecodeError, WireFault};
use std::alloc::Global;

/// The result so far.
#[derive(Drop)]
pub enum Stage {
    /// Nothing.
    Start,
    /// The part before the rows, with the rows so far; and how many are left.
    Rows(Growing, u64),
    /// A fault, whatever follows.
    Wrong(WireFault),
}

/// The result so far, and the bytes after it.
pub struct Advanced<'b> {
    pub stage: Stage,
    pub rest: &'b [u8],
    /// Whether memory ran out.
    pub end: Result<(), NoMemory>,
}

/// Reads as far as the bytes go.
pub fn advance(alloc: Global, stage: Stage, bytes: &[u8]) -> Advanced<'_>
    ensures same { (read : Reader) → Leaves stage bytes.now read
        → Leaves result.stage result.rest.now read }
    ensures back { (front : List ℕ) × (bytes.now ≡ front ++ result.rest.now) }
    ensures stuck { OnOk result.end (IsStuck result.stage result.rest.now) }
{
    match stage {
        Stage::Start => match preamble_at(alloc, bytes) {
            Ok((preamble, rest)) => {
                let count = preamble.count();
                let head = preamble.with_rows(Vec::new(alloc));
                advance_rows(alloc, Growing::new(alloc, head), count, rest)
            }
            Err(error) => halted(Stage::Start, bytes, error),
        },
        Stage::Rows(growing, left) => advance_rows(alloc, growing, left, bytes),
        Stage::Wrong(fault) => Advanced {
            stage: Stage::Wrong(fault),
            rest: bytes,
            end: Ok(()),
        },
    }
}

/// Reads rows as far as the bytes go.
fn advance_rows(alloc: Global, growing: Growing, left: u64, bytes: &[u8]) -> Advanced<'_>
    ensures same { (read : Reader) → RowsLeave growing left bytes.now read
        → Leaves result.stage result.rest.now read }
    ensures back { (front : List ℕ) × (bytes.now ≡ front ++ result.rest.now) }
    ensures stuck { OnOk result.end (IsStuck result.stage result.rest.now) }
{
    let mut growing = growing;
    let mut rest = bytes;
    for done in 0..left {
        match row_at(alloc, rest) {
            Ok((row, after)) => match growing.add(row) {
                Ok(()) => rest = after,
                Err(_) => return Advanced {
                    stage: Stage::Rows(growing, left - done),
                    rest,
                    end: Err(NoMemory),
                },
            },
            Err(error) => return halted(Stage::Rows(growing, left - done), rest, error),
        }
    }
    Advanced {
        stage: Stage::Rows(growing, 0),
        rest,
        end: Ok(()),
    }
}

/// Returns the result so far when the next part cannot be read: the bytes are short, or wrong, or memory ran out.
fn halted(stage: Stage, rest: &[u8], error: DecodeError) -> Advanced<'_>
    requires { NextFails stage error rest.now }
    ensures same { (read : Reader) → Leaves stage rest.now read
        → Leaves result.stage result.rest.now read }
    ensures rest { result.rest.now ≡ rest.now }
    ensures stuck { OnOk result.end (IsStuck result.stage result.rest.now) }
{
    match error {
        DecodeError::NoMemory => Advanced {
            stage,
            rest,
            end: Err(NoMemory),
        },
        DecodeError::Fault(WireFault::Short) => Advanced {
            stage,
            rest,
            end: Ok(()),
        },
        DecodeError::Fault(fault) => Advanced {
            stage: Stage::Wrong(fault),
            rest,
            end: Ok(()),
        },
    }
}

/// Returns the store of the result so far and of these bytes, all of them.
pub fn finish(alloc: Global, stage: Stage, bytes: &[u8]) -> Result<Core, ResumeError>
    ensures { (read : Reader) → Leaves stage bytes.now read → Ends (whole (read [])) result }
{
    let Advanced { stage, rest, end } = advance(alloc, stage, bytes);
    end?;
    finished(alloc, stage, rest)
}

/// Returns the store of the result so far, if nothing more is read from these bytes.
fn finished(alloc: Global, stage: Stage, rest: &[u8]) -> Result<Core, ResumeError>
    requires { IsStuck stage rest.now }
    ensures { (read : Reader) → Leaves stage rest.now read → Ends (whole (read [])) result }
{
    match stage {
        Stage::Start => Err(ResumeError::Bytes(WireFault::Short)),
        Stage::Wrong(fault) => Err(ResumeError::Bytes(fault)),
        Stage::Rows(growing, left) => {
            if left > 0 {
                return Err(ResumeError::Bytes(WireFault::Short));
            }
            if !rest.is_empty() {
                return Err(ResumeError::Bytes(WireFault::Trailing));
            }
            restored(alloc, growing)
        }
    }
}

/// Makes a store of a checkpoint all of whose rows were added.
fn restored(alloc: Global, growing: Growing) -> Result<Core, ResumeError>
    ensures { (kept : StoreView) → HasGrown growing kept → Ends (Ok kept) result }
{
    match growing.finish() {
        Ok(checked) => Ok(Core::resuming(alloc, checked)),
        Err(fault) => Err(ResumeError::Parts(fault)),
    }
}
