//! What C has of a store.
ghost use Rattle.std.specs.Prelude.{◌≡◌, Option, Some, None, MatchOption, MatchResult, is_some};
ghost use Rattle.hlc_core.specs.StoreView.{StoreView};

use crate::Opaque;
use crate::loose::Loose;
use crate::slot::Slot;
use hlc_core::Core;
use std::alloc::Global;
use std::marker::Model;

/// A core in a box, or nothing where the store is closed.
#[repr(C)]
pub struct Store {
    at: *mut Opaque,
    live: bool,
    pub ghost value: { Option StoreView },
    ghost same: { live ≡ is_some value },
}

impl Model for Store {
    ghost use Rattle.hlc_handle.specs.Slot.{slot_owns};
    ghost use Rattle.hlc_core.specs.contracts.store.Core.{the_row};

    ghost also_owns = { λ s. slot_owns the_row s.at s.value };
}

// SAFETY: it owns a box of plain data, or nothing, in whichever thread it is.
unsafe impl Send for Store {}

impl Slot<Core> for Store {
    ghost held = { λ s. s.value };

    fn none() -> Store {
        Store {
            at: std::ptr::null_mut(),
            live: false,
        }
    }

    fn of(loose: Loose<Core, Global>) -> Store
        ensures { result.value ≡ Some loose.value }
    {
        let Loose { at, alloc: _ } = loose;
        Store {
            at: at as *mut Opaque,
            live: true,
        }
    }

    fn loose(self, alloc: Global) -> Option<Loose<Core, Global>> {
        let Store { at, live } = self;
        if !live {
            return None;
        }
        Some(Loose {
            at: at as *mut Core,
            alloc,
        })
    }

    fn end(self) {
        let Store { at: _, live: _ } = self;
    }
}

/// Puts a store that was made into a closed handle. Returns 0; or the answer why none was made; or 15.
pub fn opened(alloc: Global, store: &mut Store, made: Result<Core, u32>, word: &mut u64) -> u32
    requires { store.old.value ≡ None }
    ensures { MatchResult made (λ core. MatchOption store.new.value ((result ≡ 15) × (word.new ≡ 0))
        (λ kept. (result ≡ 0) × (word.new ≡ word.old) × (kept ≡ core)))
        (λ code. (result ≡ code) × (word.new ≡ word.old) × (store.new.value ≡ None)) }
{
    let core = match made {
        Ok(core) => core,
        Err(code) => return code,
    };
    match Box::new(alloc, core) {
        Ok(handle) => {
            store.put(handle);
            0
        }
        Err(_) => {
            *word = 0;
            15
        }
    }
}
