//! Values that may be empty.
ghost use Rattle.std.specs.Prelude.{◌≡◌, Bool};

/// A value that may be empty. The ghost member says which values are filled.
pub trait Filled {
    ghost is_filled: { Self → Bool };

    /// Returns whether the value is filled.
    fn is_filled(&self) -> bool
        ensures { result ≡ is_filled self.now };
}
