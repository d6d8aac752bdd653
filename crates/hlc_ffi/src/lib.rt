//! The store, for C: each call takes a handle, returns 0, a refusal, or 100 for a closed store, and writes the rest.
#![tactic(auto)]

ghost use Rattle.std.specs.Prelude.{◌≡◌};

pub mod accept;
pub mod answers;
pub mod certificates;
pub mod checkpoints;
mod handle;
pub mod increments;
pub mod joins;
pub mod log;
pub mod node;
pub mod opening;
pub mod outputs;
pub mod reads;
pub mod restorings;
pub mod savings;
pub mod snapshots;
pub mod status;
pub mod vacuum;

pub use hlc_handle::{LentBytes, Output, Reader, Restoring, Saving, Store};

/// Returns the version of the library: 10,000 times its first number, 100 times the second, and the third.
#[unsafe(no_mangle)]
pub extern "C" fn hlc_version() -> u32
    ensures { result ≡ 200 }
{
    200
}
