//! What C has of a saving that is under way.
ghost use Rattle.std.specs.Prelude.{◌≡◌, Option, Some, is_some};
ghost use Rattle.hlc_saved.specs.declared.savings.Saver.{Saver};

use crate::Opaque;
use crate::loose::Loose;
use crate::slot::Slot;
use hlc_saved::Saver;
use std::alloc::Global;
use std::marker::Model;

/// A saver in a box, or nothing where no saving is under way.
#[repr(C)]
pub struct Saving {
    at: *mut Opaque,
    live: bool,
    pub ghost value: { Option Saver },
    ghost same: { live ≡ is_some value },
}

impl Model for Saving {
    ghost use Rattle.hlc_handle.specs.Slot.{slot_owns};
    ghost use Rattle.hlc_saved.specs.contracts.savings.Saver.{the_row};

    ghost also_owns = { λ s. slot_owns the_row s.at s.value };
}

// SAFETY: it owns a box of plain data, or nothing, in whichever thread it is.
unsafe impl Send for Saving {}

impl Slot<Saver> for Saving {
    ghost held = { λ s. s.value };

    fn none() -> Saving {
        Saving {
            at: std::ptr::null_mut(),
            live: false,
        }
    }

    fn of(loose: Loose<Saver, Global>) -> Saving
        ensures { result.value ≡ Some loose.value }
    {
        let Loose { at, alloc: _ } = loose;
        Saving {
            at: at as *mut Opaque,
            live: true,
        }
    }

    fn loose(self, alloc: Global) -> Option<Loose<Saver, Global>> {
        let Saving { at, live } = self;
        if !live {
            return None;
        }
        Some(Loose {
            at: at as *mut Saver,
            alloc,
        })
    }

    fn end(self) {
        let Saving { at: _, live: _ } = self;
    }
}
