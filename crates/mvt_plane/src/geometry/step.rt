//! How far positions are from each other along an axis.

ghost use Rattle.std.specs.Prelude.{◌≡◌, ◌^◌, ◌-ℤ◌};
ghost use Rattle.mvt_plane.specs.Bound.{IsWithin};

use crate::geometry::point::Point;

/// How far it is from one position to another along the x axis, from -2^31 to 2^31.
pub(crate) fn x_step(from: Point, to: Point) -> i64
    ensures value { result ≡ to.x -ℤ from.x }
    ensures bound { IsWithin (2 ^ 31) result }
{
    i64::from(to.x()) - i64::from(from.x())
}

/// How far it is along the y axis, from -2^31 to 2^31.
pub(crate) fn y_step(from: Point, to: Point) -> i64
    ensures value { result ≡ to.y -ℤ from.y }
    ensures bound { IsWithin (2 ^ 31) result }
{
    i64::from(to.y()) - i64::from(from.y())
}
