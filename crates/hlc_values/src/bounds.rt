//! Bounds of numbers.
ghost use Rattle.std.specs.Prelude.{◌≡◌, ◌-◌, ◌^◌};
ghost use Rattle.hlc_values.specs.declared.bounds.TheConstants.{NUMBER_BOUND};

/// The exclusive upper bound of the numbers of items on a link.
pub const NUMBER_BOUND: u64 = 18_446_744_073_709_551_615;

/// `NUMBER_BOUND` is 2^64 - 1.
pub fn numbers_are_below_the_last_word()
    ensures { NUMBER_BOUND ≡ 2 ^ 64 - 1 }
{}
