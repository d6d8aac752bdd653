//! What C has of a restore that is under way.
ghost use Rattle.std.specs.Prelude.{◌≡◌, Option, Some, is_some};
ghost use Rattle.hlc_saved.specs.declared.reader.CheckpointReader.{CheckpointReader};

use crate::Opaque;
use crate::loose::Loose;
use crate::slot::Slot;
use hlc_saved::CheckpointReader;
use std::alloc::Global;
use std::marker::Model;

/// A reader of a checkpoint in a box, or nothing where no restore is under way.
#[repr(C)]
pub struct Restoring {
    at: *mut Opaque,
    live: bool,
    pub ghost value: { Option CheckpointReader },
    ghost same: { live ≡ is_some value },
}

impl Model for Restoring {
    ghost use Rattle.hlc_handle.specs.Slot.{slot_owns};
    ghost use Rattle.hlc_saved.specs.contracts.reader.CheckpointReader.{the_row};

    ghost also_owns = { λ r. slot_owns the_row r.at r.value };
}

// SAFETY: it owns a box of plain data, or nothing, in whichever thread it is.
unsafe impl Send for Restoring {}

impl Slot<CheckpointReader> for Restoring {
    ghost held = { λ r. r.value };

    fn none() -> Restoring {
        Restoring {
            at: std::ptr::null_mut(),
            live: false,
        }
    }

    fn of(loose: Loose<CheckpointReader, Global>) -> Restoring
        ensures { result.value ≡ Some loose.value }
    {
        let Loose { at, alloc: _ } = loose;
        Restoring {
            at: at as *mut Opaque,
            live: true,
        }
    }

    fn loose(self, alloc: Global) -> Option<Loose<CheckpointReader, Global>> {
        let Restoring { at, live } = self;
        if !live {
            return None;
        }
        Some(Loose {
            at: at as *mut CheckpointReader,
            alloc,
        })
    }

    fn end(self) {
        let Restoring { at: _, live: _ } = self;
    }
}
