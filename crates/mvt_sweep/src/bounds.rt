//! The least and the greatest coordinates of edges and rings.
ghost use Rattle.std.specs.Prelude.{◌<◌, ◌≤◌, ◌↔◌, IsTrue, length};
ghost use Rattle.mvt_plane.specs.Position.{Position};
ghost use Rattle.mvt_sweep.specs.Bounds.{AreBoundsOf, AreBoundsOfPolygon, AreBoundsApart, IsInBounds};
ghost use Rattle.mvt_sweep.specs.Rings.{rings_of, AreProperRings};

use mvt_plane::{Edge, Point};

/// The least and the greatest coordinates of an edge, of a ring, or of several. (Contracts say no
/// more than that what they are of is within.)
#[derive(Clone, Copy, Default)]
pub struct Bounds {
    /// The least x.
    pub left: i32,
    /// The least y.
    pub low: i32,
    /// The greatest x.
    pub right: i32,
    /// The greatest y.
    pub high: i32,
}

impl Bounds {
    /// Those of a position.
    #[inline]
    fn at(position: Point) -> Bounds
        ensures { IsInBounds result position }
    {
        Bounds {
            left: position.x(),
            low: position.y(),
            right: position.x(),
            high: position.y(),
        }
    }

    /// Those of an edge.
    #[inline]
    pub fn of_edge(edge: &Edge) -> Bounds
        ensures begin { IsInBounds result edge.now.a }
        ensures end { IsInBounds result edge.now.b }
    {
        Bounds::at(edge.a).with(edge.b)
    }

    /// Those of a ring, which has a vertex.
    pub fn of(ring: &[Point]) -> Bounds
        requires { 0 < length ring.now }
        ensures { AreBoundsOf ring.now result }
    {
        Bounds::at(ring[0]).with_all(ring)
    }

    /// Those of all rings of a polygon, from the ring `exterior` up to the ring `after` its last one.
    pub fn of_polygon(rings: &[Vec<Point>], exterior: usize, after: usize) -> Bounds
        requires drawn { AreProperRings (rings_of rings.now) }
        requires further { exterior < after }
        requires within { after ≤ length rings.now }
        ensures { AreBoundsOfPolygon (rings_of rings.now)
            (record { exterior = exterior; after = after }) result }
    {
        let mut bounds = Bounds::of(&rings[exterior]);
        for hole in exterior + 1..after {
            bounds = bounds.with_all(&rings[hole]);
        }
        bounds
    }

    /// Those that also have all vertices of a ring within them.
    fn with_all(self, ring: &[Point]) -> Bounds
        ensures own { (vertex : Position) → IsInBounds self vertex → IsInBounds result vertex }
        ensures more { AreBoundsOf ring.now result }
    {
        let mut bounds = self;
        for vertex in ring {
            bounds = bounds.with(*vertex);
        }
        bounds
    }

    /// Those that also have this position within them.
    #[inline]
    fn with(self, position: Point) -> Bounds
        ensures own { (vertex : Position) → IsInBounds self vertex → IsInBounds result vertex }
        ensures more { IsInBounds result position }
    {
        Bounds {
            left: self.left.min(position.x()),
            low: self.low.min(position.y()),
            right: self.right.max(position.x()),
            high: self.high.max(position.y()),
        }
    }

    /// Whether no position is known to be within both: true only where none is.
    #[inline]
    pub fn are_apart(&self, other: &Bounds) -> bool
        ensures { IsTrue result → AreBoundsApart self.now other.now }
    {
        self.right < other.left
            || other.right < self.left
            || self.high < other.low
            || other.high < self.low
    }

    /// Whether the position is within them.
    pub fn contain(&self, position: Point) -> bool
        ensures { IsTrue result ↔ IsInBounds self.now position }
    {
        self.left <= position.x()
            && position.x() <= self.right
            && self.low <= position.y()
            && position.y() <= self.high
    }
}
