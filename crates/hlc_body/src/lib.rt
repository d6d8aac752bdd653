//! The body of a checkpoint as bytes: the part before the rows, and each row, written and read from left to right.
#![tactic(auto)]

mod preamble;
mod reading;
mod writing;

pub use hlc_checkpoint::{Checkpoint, Intake, Row, RowRef, Snapshot, StoreRef};
pub use hlc_wire::{DecodeError, WireFault};
pub use preamble::{Preamble, PreambleRef, count_of, preamble_at, put_preamble};
pub use reading::{row_at, rows_at};
pub use writing::append_row;
