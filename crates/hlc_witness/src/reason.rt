//! Why witnesses do not show that rows are the fewest.
ghost use Rattle.std.specs.Prelude.{◌≡◌};
ghost use Rattle.hlc_witness.specs.Reasons.{reason_number};

use std::error::Error;
use std::fmt;

/// The reasons, in the order in which they are checked. The fourth, the fifth and the sixth are
/// checked for each witness in turn.
#[derive(Clone, Copy, PartialEq, Eq, Debug)]
pub enum NotShown {
    /// There is no point, or a point is not above the one before it.
    PointsNotAscending,
    /// A row is not above the one before it, by key, stamp and node.
    RowsNotAscending,
    /// A row is above the last point.
    RowAboveLastPoint,
    /// A witness is not above the one before it, by key and `at`.
    WitnessNotAscending,
    /// `at` is no point, or `before` is not the point before it.
    NotAtPoint,
    /// The rows' answers at `at` and at `before` are equal.
    SameAnswers,
    /// There are not as many witnesses as rows.
    CountsDiffer,
    /// No item may write a row: its key or its value is out of the limits.
    RowOutOfLimits,
}

impl fmt::Display for NotShown {
    ghost use Rattle.std.specs.Prelude.{Some};
    ghost use Rattle.hlc_witness.specs.Reasons.{reason_text};

    ghost output = { λ reason. Some (reason_text reason) };

    fn fmt<W: fmt::Write>(&self, f: &mut fmt::Formatter<W>) -> fmt::Result {
        f.write_str(match self {
            NotShown::PointsNotAscending => "there is no point, or the points do not ascend",
            NotShown::RowsNotAscending => "the rows do not ascend by key, stamp and node",
            NotShown::RowAboveLastPoint => "a row is above the last point",
            NotShown::WitnessNotAscending => "the witnesses do not ascend by key and stamp",
            NotShown::NotAtPoint => "a witness is not at a point, or not after the point before",
            NotShown::SameAnswers => "the answers at the two points of a witness are equal",
            NotShown::CountsDiffer => "there are not as many witnesses as rows",
            NotShown::RowOutOfLimits => "a key or a value is out of the limits",
        })
    }
}

impl Error for NotShown {}

impl NotShown {
    /// Returns the number of this reason, from 1, in the order in which they are checked.
    pub fn reason(self) -> u8
        ensures { result ≡ reason_number self }
    {
        match self {
            NotShown::PointsNotAscending => 1,
            NotShown::RowsNotAscending => 2,
            NotShown::RowAboveLastPoint => 3,
            NotShown::WitnessNotAscending => 4,
            NotShown::NotAtPoint => 5,
            NotShown::SameAnswers => 6,
            NotShown::CountsDiffer => 7,
            NotShown::RowOutOfLimits => 8,
        }
    }
}
