//! What C has of a store while it only reads: a copy of the handle, for one call, beside other copies.
ghost use Rattle.std.specs.Prelude.{◌≡◌, ℕ, Option, Some, None, IsSome, MatchOption, is_some};
ghost use Rattle.hlc_core.specs.StoreView.{StoreView};

use crate::Opaque;
use hlc_core::Core;
use std::marker::Model;

/// A core that is read, perhaps while others read it. In contracts it is where the core lies, and the lifetime for
/// which it is lent with the core's state.
pub struct LentCore {
    pub at: *const Core,
    pub ghost value: { ℕ × StoreView },
}

impl Model for LentCore {
    ghost use Rattle.hlc_handle.specs.Lent.{lent_owns, lent_shares};
    ghost use Rattle.hlc_core.specs.contracts.store.Core.{the_row};

    ghost also_owns = { λ l. lent_owns the_row l.at l.value };

    ghost also_shares = { λ l _ κ. lent_shares the_row l.at l.value κ };
}

impl LentCore {
    /// Returns the core.
    pub fn core(&self) -> &Core
        ensures { result.now ≡ self.now.value.1 }
    {
        unsafe { &*self.at }
    }
}

/// What a reader contains: the right to read a core, or nothing.
#[repr(C)]
pub struct LentRoom {
    pub at: *mut Opaque,
    pub ghost value: { Option (ℕ × StoreView) },
}

impl Model for LentRoom {
    ghost use Rattle.hlc_handle.specs.Lent.{lent_room_owns};
    ghost use Rattle.hlc_core.specs.contracts.store.Core.{the_row};

    ghost also_owns = { λ r. lent_room_owns the_row r.at r.value };
}

// SAFETY: a room owns a part of the token of a lifetime for which a `Sync` core is shared, or nothing.
unsafe impl Send for LentRoom {}

impl LentRoom {
    /// Returns an empty room, with a null pointer.
    pub(crate) fn empty() -> LentRoom
        ensures { result.value ≡ None }
    {
        LentRoom {
            at: std::ptr::null_mut(),
        }
    }

    /// Returns a room with the right to read this core.
    pub(crate) fn of(lent: LentCore) -> LentRoom
        ensures { (result.at ≡ lent.at) × (result.value ≡ Some lent.value) }
    {
        let LentCore { at } = lent;
        LentRoom {
            at: at as *mut Opaque,
        }
    }

    /// Returns the right to read that was put there.
    pub(crate) fn lent(self) -> LentCore
        requires { IsSome self.value }
        ensures { (self.at ≡ result.at) × (self.value ≡ Some result.value) }
    {
        let LentRoom { at } = self;
        LentCore {
            at: at as *const Core,
        }
    }
}

/// What C passes to a call that only reads: a copy of a store's handle. C promises that the bytes are those that the
/// last call left in the store, that no call changes the store meanwhile, and that no other call uses this copy.
#[repr(C)]
pub struct Reader {
    pub room: LentRoom,
    live: bool,
    ghost same: { live ≡ is_some room.value },
}

impl Reader {
    /// Takes the right to read out, and returns it, or none where the store is closed.
    pub fn take(&mut self) -> Option<LentCore>
        ensures lent { MatchOption result (self.old.room.value ≡ None)
            (λ lent. (self.old.room.at ≡ lent.at) × (self.old.room.value ≡ Some lent.value)) }
        ensures closed { self.new.room.value ≡ None }
    {
        let closed = Reader {
            room: LentRoom::empty(),
            live: false,
        };
        let Reader { room, live } = std::mem::replace(self, closed);
        if !live {
            let LentRoom { at: _ } = room;
            return None;
        }
        Some(room.lent())
    }

    /// Puts the right to read back.
    pub fn put(&mut self, lent: LentCore)
        requires { self.old.room.value ≡ None }
        ensures { (self.new.room.at ≡ lent.at) × (self.new.room.value ≡ Some lent.value) }
    {
        let full = Reader {
            room: LentRoom::of(lent),
            live: true,
        };
        let Reader { room, live: _ } = std::mem::replace(self, full);
        let LentRoom { at: _ } = room;
    }
}
