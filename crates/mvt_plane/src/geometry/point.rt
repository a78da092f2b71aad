use std::marker::Model;

/// A position in the coordinates of a tile: the x axis to the right, the y axis down (Mapbox Vector
/// Tile Specification 2.1, section 4.3). Both coordinates are from -2^30 to 2^30.
#[derive(Clone, Copy, Debug, PartialEq, Eq)]
pub struct Point {
    x: i32,
    y: i32,
}

/// The greatest coordinate, in units of the tile's grid; the least is its negative.
pub const GREATEST_COORDINATE: i32 = 1 << 30;

impl Model for Point {
    ghost use Rattle.mvt_plane.specs.Position.{Position, IsPosition};

    ghost Value = { Position };

    ghost view = { λ point. record { x = point.x; y = point.y } };

    ghost invariant = { λ point. IsPosition (record { x = point.x; y = point.y }) };

    ghost inverse = { λ position. record { x = position.x; y = position.y } };
}

impl Point {
    ghost use Rattle.std.specs.Prelude.{◌≡◌, IfSome, IfNone};
    ghost use Rattle.mvt_plane.specs.Position.{Position, IsPosition, origin};

    /// The point (0, 0), where the cursor of a feature begins (section 4.3).
    pub fn origin() -> Point
        ensures { result ≡ origin }
    {
        Point { x: 0, y: 0 }
    }

    /// The point at these coordinates, or None where one of them isn't from -2^30 to 2^30.
    pub fn new(x: i32, y: i32) -> Option<Point>
        ensures point { IfSome result (λ point. point ≡ record { x = x; y = y }) }
        ensures in_range { IfSome result (λ _. IsPosition (record { x = x; y = y })) }
        ensures none { IfNone result (¬ IsPosition (record { x = x; y = y })) }
    {
        let range = -GREATEST_COORDINATE..=GREATEST_COORDINATE;
        if range.contains(&x) && range.contains(&y) {
            Some(Point { x, y })
        } else {
            None
        }
    }

    /// The coordinate along the x axis, from -2^30 to 2^30.
    pub fn x(&self) -> i32
        ensures value { result ≡ self.now.x }
        ensures in_range { IsPosition self.now }
    {
        self.x
    }

    /// The coordinate along the y axis, from -2^30 to 2^30.
    pub fn y(&self) -> i32
        ensures value { result ≡ self.now.y }
        ensures in_range { IsPosition self.now }
    {
        self.y
    }
}
