//! What C has of the bytes that a call made.
ghost use Rattle.std.specs.Prelude.{◌≡◌, Option, Some, is_some};
ghost use Rattle.hlc_handle.specs.Rows.{bytes_row};

use crate::Opaque;
use crate::loose::Loose;
use crate::slot::Slot;
use std::alloc::Global;
use std::marker::Model;

/// Bytes in a box, or nothing.
#[repr(C)]
pub struct Output {
    at: *mut Opaque,
    live: bool,
    pub ghost value: { Option bytes_row.Denot },
    ghost same: { live ≡ is_some value },
}

impl Model for Output {
    ghost use Rattle.hlc_handle.specs.Slot.{slot_owns};
    ghost use Rattle.hlc_handle.specs.Rows.{bytes_row};

    ghost also_owns = { λ o. slot_owns bytes_row o.at o.value };
}

// SAFETY: it owns a box of plain data, or nothing, in whichever thread it is.
unsafe impl Send for Output {}

impl Slot<Vec<u8>> for Output {
    ghost held = { λ o. o.value };

    fn none() -> Output {
        Output {
            at: std::ptr::null_mut(),
            live: false,
        }
    }

    fn of(loose: Loose<Vec<u8>, Global>) -> Output
        ensures { result.value ≡ Some loose.value }
    {
        let Loose { at, alloc: _ } = loose;
        Output {
            at: at as *mut Opaque,
            live: true,
        }
    }

    fn loose(self, alloc: Global) -> Option<Loose<Vec<u8>, Global>> {
        let Output { at, live } = self;
        if !live {
            return None;
        }
        Some(Loose {
            at: at as *mut Vec<u8>,
            alloc,
        })
    }

    fn end(self) {
        let Output { at: _, live: _ } = self;
    }
}
