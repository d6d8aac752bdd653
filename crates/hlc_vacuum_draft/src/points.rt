//! The points of a vacuum.
ghost use Rattle.std.specs.Prelude.{◌≡◌, ◌<◌, length};
ghost use Rattle.hlc_clock.specs.Points.{last_point};

use hlc_clock::Stamp;
use hlc_values::Listed;

/// Some stamps. In contracts it is the list of them.
pub type Points = Listed<Stamp>;

/// Returns the last of some points.
pub fn last_of(points: &[Stamp]) -> Stamp
    requires { 0 < length points.now }
    ensures { result ≡ last_point points.now }
{
    points[points.len() - 1]
}
