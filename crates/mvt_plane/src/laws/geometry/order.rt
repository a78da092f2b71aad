//! The laws of the order of edges along a line of one key (section 4.3.4.4).

ghost use Rattle.std.specs.Prelude.{◌≡◌, ◌↔◌, ◌^◌, ℤ, pos, neg_ℤ, ◌+ℤ◌, ◌-ℤ◌, ◌*ℤ◌, ◌≤ℤ◌, ◌<ℤ◌};
ghost use Rattle.mvt_plane.specs.Geometry.EdgeOrder.{Segment, segment, IsRising, reach, height, gap, slope, IsAfter, IsBelow};
ghost use Rattle.mvt_plane.specs.Geometry.Measure.{orientation, key_of};
ghost use Rattle.mvt_plane.specs.Position.{Position, IsPosition};

/// No two positions in range have one key.
pub fn one_position_of_a_key()
    ensures { (position other : Position) → IsPosition position → IsPosition other
        → key_of position ≡ key_of other → position ≡ other }
{}

/// The gap of two edges at a key is a weighted sum of their gaps at two other keys, and between
/// these it is positive where the first edge is below the second.
pub fn gap_between_keys()
    ensures sum { (first second : Segment) (left right t w : ℤ)
        → (right -ℤ left) *ℤ gap first second t w
        ≡ (right *ℤ w -ℤ t) *ℤ gap first second left (pos 1) +ℤ (t -ℤ left *ℤ w) *ℤ gap first second
        right (pos 1) }
    ensures positive { (first second : Segment) (left right t w : ℤ) → pos 1 ≤ℤ w
        → IsBelow left right first second →
        (left *ℤ w) <ℤ t → t <ℤ (right *ℤ w) → pos 0 <ℤ gap first second t w }
{}

/// The gap of two edges grows with the key by their slope.
pub fn gap_grows_by_slope()
    ensures { (first second : Segment) (left right : ℤ) →
        gap first second right (pos 1) ≡ gap first second left (pos 1) +ℤ (right -ℤ left) *ℤ slope
        first second }
{}

/// The gap from a first edge to a third one is made of those to and from a second one, each times
/// the reach of the edge that it leaves out. So is the slope. The gap back has the other sign.
pub fn gaps_join()
    ensures gaps { (first second third : Segment) (t w : ℤ) →
        reach second *ℤ gap first third t w
        ≡ reach third *ℤ gap first second t w +ℤ reach first *ℤ gap second third t w }
    ensures slopes { (first second third : Segment) →
        reach second *ℤ slope first third
        ≡ reach third *ℤ slope first second +ℤ reach first *ℤ slope second third }
    ensures back { (first second : Segment) (t w : ℤ)
        → gap second first t w ≡ neg_ℤ (gap first second t w) }
{}

/// Right after a key, edges are in an order: what is below an edge is below those above it, and no
/// edge is below itself.
pub fn order_after_a_key()
    ensures transitive { (key : ℤ) (first second third : Segment) → IsRising first → IsRising second
        → IsRising third →
        IsAfter key first second → IsAfter key second third → IsAfter key first third }
    ensures strict { (key : ℤ) (edge_segment : Segment) → ¬ IsAfter key edge_segment edge_segment }
{}

/// Between two keys they are in one too.
pub fn order_between_keys()
    ensures transitive { (left right : ℤ) (first second third : Segment) → IsRising first
        → IsRising second → IsRising third →
        IsBelow left right first second → IsBelow left right second third
        → IsBelow left right first third }
    ensures strict { (left right : ℤ) (edge_segment : Segment)
        → ¬ IsBelow left right edge_segment edge_segment }
{}

/// The orientation of an edge's ends and a position says how far the position is above the edge. Of
/// two edges that begin at one vertex the first is below the second right after it exactly where
/// the orientation of the vertex and their other ends is positive.
pub fn order_by_orientation()
    ensures above { (edge_segment : Segment) (position : Position)
        → position.y *ℤ reach edge_segment -ℤ height edge_segment (key_of position) (pos 1)
        ≡ pos (2 ^ 32) *ℤ orientation edge_segment.low edge_segment.high position }
    ensures at_vertex { (vertex one other : Position) →
        (pos 0 <ℤ orientation vertex one other)
        ↔ IsAfter (key_of vertex) (segment vertex one) (segment vertex other) }
{}
