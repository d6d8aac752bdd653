//! The changes that a vacuum reports.
use hlc_values::Listed;
use hlc_witness::Witness;

/// Some changes. In contracts it is the list of them.
pub type Witnesses = Listed<Witness>;
