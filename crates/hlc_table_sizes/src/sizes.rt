//! The sizes of a table, as numbers of 128 bits.
ghost use Rattle.std.specs.Prelude.{◌≡◌, IfSome, IsNone, option_copied};
ghost use Rattle.hlc_table_sizes.specs.Sizes.{no_sizes, plus, minus, with_row, with_key, value_bytes, Fit, IsPart};

/// How many rows and keys a table has, and how many bytes.
#[derive(Clone, Copy, PartialEq, Eq, Debug)]
pub struct Sizes {
    /// The number of rows.
    pub rows: u128,
    /// The number of keys that have rows.
    pub keys: u128,
    /// The bytes of those keys, each counted once.
    pub key_bytes: u128,
    /// The bytes of the values of all rows. A deletion mark has none.
    pub value_bytes: u128,
}

impl Sizes {
    /// Returns the sizes of a table without rows.
    pub fn none() -> Sizes
        ensures { result ≡ no_sizes }
    {
        Sizes {
            rows: 0,
            keys: 0,
            key_bytes: 0,
            value_bytes: 0,
        }
    }

    /// Returns the sums of these sizes and the others. They must fit.
    pub fn plus(self, other: Sizes) -> Sizes
        requires { Fit (plus self other) }
        ensures { result ≡ plus self other }
    {
        Sizes {
            rows: self.rows + other.rows,
            keys: self.keys + other.keys,
            key_bytes: self.key_bytes + other.key_bytes,
            value_bytes: self.value_bytes + other.value_bytes,
        }
    }

    /// Returns these sizes less the others, which must be part of them.
    pub fn minus(self, other: Sizes) -> Sizes
        requires { IsPart other self }
        ensures { result ≡ minus self other }
    {
        Sizes {
            rows: self.rows - other.rows,
            keys: self.keys - other.keys,
            key_bytes: self.key_bytes - other.key_bytes,
            value_bytes: self.value_bytes - other.value_bytes,
        }
    }

    /// Returns the sizes with one more row, whose value has this many bytes, or none if a number would be too great.
    pub fn with_row(self, bytes: usize) -> Option<Sizes>
        ensures some { IfSome result (λ more. (more ≡ with_row self bytes) × Fit more) }
        ensures none { IsNone result → Fit (with_row self bytes) → ⊥ }
    {
        Some(Sizes {
            rows: self.rows.checked_add(1)?,
            keys: self.keys,
            key_bytes: self.key_bytes,
            value_bytes: self.value_bytes.checked_add(bytes as u128)?,
        })
    }

    /// Returns the sizes with one more key of this many bytes, or none if a number would be too great.
    pub fn with_key(self, bytes: usize) -> Option<Sizes>
        ensures some { IfSome result (λ more. (more ≡ with_key self bytes) × Fit more) }
        ensures none { IsNone result → Fit (with_key self bytes) → ⊥ }
    {
        Some(Sizes {
            rows: self.rows,
            keys: self.keys.checked_add(1)?,
            key_bytes: self.key_bytes.checked_add(bytes as u128)?,
            value_bytes: self.value_bytes,
        })
    }
}

/// Returns how many bytes a value has: none for a deletion mark.
pub fn length_of(value: Option<&[u8]>) -> usize
    ensures { result ≡ value_bytes (option_copied value.entry) }
{
    match value {
        Some(bytes) => bytes.len(),
        None => 0,
    }
}
