//! What a table stores of a write.
ghost use Rattle.std.specs.Prelude.{◌≡◌, ◌≤◌, length, option_copied};
ghost use Rattle.hlc_rows.specs.Limits.{IsShortValue};

use hlc_bytes::{Bytes, value_slice};
use hlc_clock::Stamp;
use hlc_values::NoMemory;

/// A version of a key.
#[derive(PartialEq, Eq, Debug, Drop)]
pub struct Row {
    pub key: Bytes,
    pub stamp: Stamp,
    /// The node that wrote it.
    pub node: u16,
    /// The value, or none for a deletion mark.
    pub value: Option<Bytes>,
}

impl Row {
    /// Returns the bytes of the value, or none for a deletion mark.
    pub fn value(&self) -> Option<&[u8]>
        ensures { option_copied result ≡ self.now.value }
    {
        value_slice(&self.value)
    }
}

impl Clone for Row {
    ghost is_clone = { λ row copy. copy ≡ row };

    ghost is_infallible = { λ row. (length row.key ≤ 30) × IsShortValue row.value };

    fn clone(&self) -> Result<Row, NoMemory> {
        Ok(Row {
            key: self.key.clone()?,
            stamp: self.stamp,
            node: self.node,
            value: self.value.clone()?,
        })
    }
}
