//! A box that C keeps: an opaque pointer, and a flag.
ghost use Rattle.std.specs.Prelude.{◌≡◌, Option, Some, None, MatchOption};

use crate::loose::Loose;
use std::alloc::Global;

/// A handle that C keeps: it has a box, or nothing. Zero bytes are nothing. C promises that the bytes are still those
/// that a call left, and that it uses no copy of them besides. No handle is `Drop`, so that no box is forgotten.
pub trait Slot<T: Drop>: Sized {
    // What is in the box, or none.
    ghost held: { Self → Option T };

    /// Returns a handle with nothing, whose pointer is null.
    fn none() -> Self
        ensures { held result ≡ None };

    /// Returns a handle with the box, which it owns from now on. The allocator has no bytes.
    fn of(loose: Loose<T, Global>) -> Self
        ensures { held result ≡ Some loose.value };

    /// Returns the box that was put there, or none where there is nothing.
    fn loose(self, alloc: Global) -> Option<Loose<T, Global>>
        ensures { MatchOption result (held self ≡ None) (λ loose. held self ≡ Some loose.value) };

    /// Takes a handle with nothing apart.
    fn end(self)
        requires { held self ≡ None };

    /// Takes the box out, and returns it, or none where there was nothing.
    final fn take(&mut self, alloc: Global) -> Option<Box<T>>
        ensures boxed { MatchOption result (held self.old ≡ None) (λ boxed. held self.old ≡ Some boxed.value) }
        ensures closed { held self.new ≡ None }
    {
        match std::mem::replace(self, Self::none()).loose(alloc) {
            None => None,
            Some(loose) => Some(loose.into_box()),
        }
    }

    /// Puts a box where there is nothing.
    final fn put(&mut self, boxed: Box<T>)
        requires { held self.old ≡ None }
        ensures { held self.new ≡ Some boxed.value }
    {
        Self::end(std::mem::replace(self, Self::of(Loose::of(boxed))));
    }
}
