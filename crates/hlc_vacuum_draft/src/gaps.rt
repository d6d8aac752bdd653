//! Gaps between stamps, in which no answer changes.
ghost use Rattle.std.specs.Prelude.{◌≤◌, All};
ghost use Rattle.hlc_vacuum_draft.specs.Gaps.{NoneBetween};

/// Among more stamps than these a pass for each gap costs more than the points in it.
const FEW: usize = 32;

/// Returns the end of a gap that begins at a stamp: `u64::MAX` after the greatest stamp, otherwise the least stamp from
/// there on. If there are many stamps, or as many as points, the gap ends at once, since few points would be in a gap.
pub(crate) fn gap_end(stamps: &[u64], greatest: u64, from: u64, points: usize) -> u64
    requires { All (λ stamp. stamp ≤ greatest) stamps.now }
    ensures { NoneBetween stamps.now from result }
{
    if greatest < from {
        return u64::MAX;
    }
    if stamps.len() > FEW || stamps.len() >= points {
        return from;
    }
    least_from(stamps, from)
}

/// Returns the least of the stamps from one on, or `u64::MAX` if there is none.
fn least_from(stamps: &[u64], from: u64) -> u64
    ensures { NoneBetween stamps.now from result }
{
    let mut least = u64::MAX;
    for stamp in stamps {
        if from <= *stamp && *stamp < least {
            least = *stamp;
        }
    }
    least
}

/// Returns the greatest of some stamps, or 0 if there are none.
pub(crate) fn greatest_of(stamps: &[u64]) -> u64
    ensures { All (λ stamp. stamp ≤ result) stamps.now }
{
    let mut greatest = 0;
    for stamp in stamps {
        if greatest < *stamp {
            greatest = *stamp;
        }
    }
    greatest
}
