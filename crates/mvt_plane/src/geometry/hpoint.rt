use std::marker::Model;

/// A rational point in homogeneous coordinates: it is (x / w, y / w). `w` is from 1 to 2^63, and
/// `x` and `y` are from -2^93 to 2^93, which is room enough for the crossing of any two edges.
#[derive(Clone, Copy, Debug, PartialEq, Eq)]
pub struct Hpoint {
    x: i128,
    y: i128,
    w: i128,
}

/// The greatest `w`.
const GREATEST_W: i128 = 1 << 63;

/// The greatest `x` and `y`; the least is its negative.
const GREATEST_XY: i128 = 1 << 93;

impl Model for Hpoint {
    ghost use Rattle.mvt_plane.specs.Geometry.RationalPoint.{RationalPoint, IsBounded};

    ghost Value = { RationalPoint };

    ghost view = { λ point. record { x = point.x; y = point.y; w = point.w } };

    ghost invariant = { λ point. IsBounded (record { x = point.x; y = point.y; w = point.w }) };

    ghost inverse = { λ point. record { x = point.x; y = point.y; w = point.w } };
}

impl Hpoint {
    ghost use Rattle.std.specs.Prelude.{◌≡◌, IfSome, IfNone};
    ghost use Rattle.mvt_plane.specs.Geometry.RationalPoint.{RationalPoint, IsBounded};

    /// The rational point (x / w, y / w), or None where one of the numbers is out of range.
    pub fn new(x: i128, y: i128, w: i128) -> Option<Hpoint>
        ensures point { IfSome result (λ point. point ≡ record { x = x; y = y; w = w }) }
        ensures in_range { IfSome result (λ _. IsBounded (record { x = x; y = y; w = w })) }
        ensures none { IfNone result (¬ IsBounded (record { x = x; y = y; w = w })) }
    {
        let range = -GREATEST_XY..=GREATEST_XY;
        if (1..=GREATEST_W).contains(&w) && range.contains(&x) && range.contains(&y) {
            Some(Hpoint { x, y, w })
        } else {
            None
        }
    }

    /// The first coordinate times `w`, from -2^93 to 2^93.
    pub fn x(&self) -> i128
        ensures value { result ≡ self.now.x }
        ensures in_range { IsBounded self.now }
    {
        self.x
    }

    /// The second coordinate times `w`, from -2^93 to 2^93.
    pub fn y(&self) -> i128
        ensures value { result ≡ self.now.y }
        ensures in_range { IsBounded self.now }
    {
        self.y
    }

    /// What both coordinates are to be divided by, from 1 to 2^63.
    pub fn w(&self) -> i128
        ensures value { result ≡ self.now.w }
        ensures in_range { IsBounded self.now }
    {
        self.w
    }
}
