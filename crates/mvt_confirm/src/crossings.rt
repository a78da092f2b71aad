ghost use Rattle.std.specs.Prelude.{◌≡◌, ◌++◌, List, [], ◌∷◌};
ghost use Rattle.mvt_confirm.specs.Calls.EdgeTests.{IsParityOf};
ghost use Rattle.mvt_plane.specs.Position.{Position};
ghost use Rattle.mvt_plane.specs.declared.geometry.edge.Edge.{Edge};

use crate::edge_tests::passes_over;
use mvt_plane::Point;

/// The parity of the edges that pass over a position, of those that were met one after another. A
/// position is inside a ring where it is odd for all edges of the ring (Mapbox Vector Tile
/// Specification 2.1, section 4.3.4.4).
#[derive(Clone, Copy)]
pub(crate) struct Crossings {
    is_odd: bool,
}

impl Crossings {
    /// No edge was met yet.
    pub fn new() -> Crossings
        ensures { (position : Position) → IsParityOf result position [] }
    {
        Crossings { is_odd: false }
    }

    /// Whether an odd number of the edges passed over the position.
    pub fn is_odd(&self) -> bool
        ensures { result ≡ self.now.is_odd }
    {
        self.is_odd
    }

    /// Meets the edge from `a` to `b`.
    pub fn pass(&mut self, position: Point, a: Point, b: Point)
        ensures { (passed : List Edge) → IsParityOf self.old position passed
            → IsParityOf self.new position (passed ++ (record { a = a; b = b } ∷ [])) }
    {
        self.is_odd ^= passes_over(position, a, b);
    }
}
