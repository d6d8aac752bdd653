//! What shows that a row is needed.

use hlc_clock::Stamp;
use hlc_rows::Bytes;

/// A change: a key, and a point at which its answer differs from that at the point before.
#[derive(Clone, PartialEq, Eq, Debug, Drop)]
pub struct Witness {
    pub key: Bytes,
    /// The point before, or none if `at` is the first.
    pub before: Option<Stamp>,
    pub at: Stamp,
}
