//! The calls that were made.
use crate::entry::Entry;

/// The calls that were made, in order.
#[derive(Debug, Drop)]
pub struct Trail {
    pub(crate) entries: Vec<Entry>,
}
