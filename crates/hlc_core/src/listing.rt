//! The listing of a table at a stamp: all keys in byte order that have a value there, with that value.
ghost use Rattle.std.specs.Prelude.{IfOk};
ghost use Rattle.hlc_core.specs.Listing.{IsListing};

use hlc_clock::Stamp;
use hlc_columns::Table;
use hlc_node::Bytes;
use hlc_values::{Listed, NoMemory};
use std::alloc::Global;

/// A key that has a value, and that value.
#[derive(Clone, PartialEq, Eq, Debug, Drop)]
pub struct Pair {
    pub key: Bytes,
    pub value: Bytes,
}

/// Keys with their values. In contracts it is the list of the pairs.
pub type Listing = Listed<Pair>;

/// Returns the keys that have a value at a stamp, in byte order, with that value.
pub fn listing_at(alloc: Global, table: &Table, stamp: Stamp) -> Result<Listing, NoMemory>
    ensures { IfOk result (λ listing. IsListing table.now stamp listing) }
{
    let mut pairs = Vec::new(alloc);
    for (key, value) in table.answers(stamp) {
        let key = Bytes::from_slice(alloc, key)?;
        let value = Bytes::from_slice(alloc, value)?;
        pairs.push(Pair { key, value })?;
    }
    Ok(Listing::from_vec(pairs))
}
