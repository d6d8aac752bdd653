//! The newest row of a key, and its value, in ascending rows.
ghost use Rattle.std.specs.Prelude.{◌≡◌, option_copied};
ghost use Rattle.hlc_rows.specs.Rows.{newest, answer};
ghost use Rattle.hlc_witness.specs.{Changes.answer_at, Reached.is_reached, Certificate.RowsAscend};

use hlc_clock::Stamp;
use hlc_rows::{Bytes, Row};

/// Returns the newest value of a key at a point, or none if there is no point.
pub(crate) fn value_at<'a>(rows: &'a [Row], key: &Bytes, point: Option<Stamp>) -> Option<&'a [u8]>
    requires { RowsAscend rows.now }
    ensures { option_copied result ≡ answer_at rows.now key.now point }
{
    match point {
        None => None,
        Some(point) => value_in(rows, key, point),
    }
}

/// Returns the newest value of a key at or below a stamp, or none.
pub(crate) fn value_in<'a>(rows: &'a [Row], key: &Bytes, bound: Stamp) -> Option<&'a [u8]>
    requires { RowsAscend rows.now }
    ensures { option_copied result ≡ answer rows.now key.now bound }
{
    match newest_in(rows, key, bound) {
        None => None,
        Some(row) => row.value(),
    }
}

/// Returns the newest row of a key at or below a stamp, or none: the last row that does not come
/// after them, if it is of that key.
fn newest_in<'a>(rows: &'a [Row], key: &Bytes, bound: Stamp) -> Option<&'a Row>
    requires { RowsAscend rows.now }
    ensures { option_copied result ≡ newest rows.now key.now bound }
{
    let end = rows.partition_point(|row| is_reached(row, key, bound));
    if end == 0 {
        return None;
    }
    let row = &rows[end - 1];
    if row.key == *key { Some(row) } else { None }
}

/// Returns whether a row does not come after a key and a stamp, in the order of rows.
pub fn is_reached(row: &Row, key: &Bytes, bound: Stamp) -> bool
    ensures { result ≡ is_reached key.now bound row.now }
{
    let by_key = row.key.as_slice().cmp(key.as_slice());
    by_key.then(row.stamp.cmp(&bound)).is_le()
}
