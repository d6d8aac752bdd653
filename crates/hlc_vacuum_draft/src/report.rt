//! The report of a vacuum.

use crate::points::Points;
use crate::witnesses::Witnesses;
use hlc_clock::Stamp;

/// The rows at or below its floor, its last point, that a vacuum kept and dropped.
#[derive(Clone, PartialEq, Eq, Debug, Drop)]
pub struct Report {
    pub floor: Stamp,
    /// The stamps at which the answers did not change, ascending.
    pub points: Points,
    /// The number of rows that were kept: one for each change.
    pub kept: u64,
    /// The cost of those rows in bytes: for each the length of its key and of its value, and 10.
    pub bytes: u128,
    /// The number of rows that were dropped, all of them at or below the floor.
    pub dropped: u128,
    /// The changes, ascending by key and point.
    pub witnesses: Witnesses,
}

/// The numbers of a report.
#[derive(Clone, Copy, PartialEq, Eq, Debug)]
pub struct Numbers {
    pub floor: Stamp,
    pub kept: u64,
    pub bytes: u128,
    pub dropped: u128,
}
