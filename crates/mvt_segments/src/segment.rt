//! Parts of the edges that mending works with.
ghost use Rattle.std.specs.Prelude.{◌≡◌, ◌≢◌, ◌↔◌, ℤ, IsFalse, IsTrue};
ghost use Rattle.mvt_segments.specs.Segments.{AreEqual, half_edge_keys, joined, segment_keys};
ghost use Rattle.mvt_segments.specs.Windings.{nothing, reversed, together};

use mvt_plane::{Point, sweep_key};

/// How often the edges of a polygon go round a place, counterclockwise counted as positive in the
/// orientation of `orient`: those of its exterior, and those of its holes, each hole turned so that
/// its own area counts as positive. Where edges are those of several polygons together, all of them
/// count as edges of an exterior.
#[derive(Clone, Copy, Debug, PartialEq, Eq)]
pub struct Winding {
    pub exterior: i32,
    pub holes: i32,
}

impl Winding {
    /// Nothing goes round.
    pub fn none() -> Winding
        ensures { result ≡ nothing }
    {
        Winding {
            exterior: 0,
            holes: 0,
        }
    }

    /// Both together.
    pub fn plus(self, other: Winding) -> Winding
        ensures { result ≡ together self other }
    {
        Winding {
            exterior: self.exterior.wrapping_add(other.exterior),
            holes: self.holes.wrapping_add(other.holes),
        }
    }

    /// The same the other way round.
    pub fn negated(self) -> Winding
        ensures { result ≡ reversed self }
    {
        Winding {
            exterior: self.exterior.wrapping_neg(),
            holes: self.holes.wrapping_neg(),
        }
    }

    /// Whether it is nothing.
    pub fn is_none(self) -> bool
        ensures { IsTrue result ↔ (self ≡ nothing) }
    {
        self.exterior == 0 && self.holes == 0
    }
}

/// A part of an edge, or several on one line, from the end of lesser key (`sweep_key`) to the other.
#[derive(Clone, Copy, Debug, PartialEq, Eq)]
pub struct Segment {
    /// The end of lesser key.
    pub a: Point,
    /// The end of greater key.
    pub b: Point,
    /// What the winding gains from just below the segment to just above it.
    pub gain: Winding,
    /// The number of the ring, or of the polygon, that it comes of.
    pub source: u32,
    /// The number of the old edge that it comes of.
    pub witness: u32,
}

impl Segment {
    /// Whether it isn't without effect.
    #[inline]
    pub fn has_gain(&self) -> bool
        ensures { IsTrue result ↔ (self.now.gain ≢ nothing) }
    {
        !self.gain.is_none()
    }

    /// Adds the gain of another one if that has the same ends, and returns whether it has.
    pub fn absorb(&mut self, other: &Segment) -> bool
        ensures same { IsTrue result ↔ AreEqual self.old other.now }
        ensures joined { IsTrue result → self.new ≡ joined self.old other.now }
        ensures kept { IsFalse result → self.new ≡ self.old }
    {
        let is_same = self.a == other.a && self.b == other.b;
        if is_same {
            self.gain = self.gain.plus(other.gain);
        }
        is_same
    }
}

/// An edge with what is filled on its left.
#[derive(Clone, Copy, Debug, PartialEq, Eq)]
pub struct HalfEdge {
    pub from: Point,
    pub to: Point,
    /// As a segment's.
    pub source: u32,
    /// As a segment's.
    pub witness: u32,
    /// The number of the part of what is filled that is on its left, where no corner was cut yet.
    /// Afterwards parts may be joined, or fall apart.
    pub part: u32,
}

/// What is sorted by the keys of its two ends.
pub trait Keyed {
    ghost keys_of: { Self → ℤ × ℤ };

    /// The keys of both, first the one by which it is sorted first.
    fn keys(&self) -> (i64, i64)
        ensures { result ≡ keys_of self.now };
}

impl Keyed for Segment {
    ghost keys_of = { segment_keys };

    #[inline]
    fn keys(&self) -> (i64, i64) {
        (sweep_key(self.a), sweep_key(self.b))
    }
}

impl Keyed for HalfEdge {
    ghost keys_of = { half_edge_keys };

    #[inline]
    fn keys(&self) -> (i64, i64) {
        (sweep_key(self.from), sweep_key(self.to))
    }
}

/// What mending did to a feature.
#[derive(Clone, Copy, Debug, PartialEq, Eq)]
pub struct Tally {
    /// How many crossings of edges were rounded to a position.
    pub crossings: u64,
    /// How many corners were cut.
    pub cuts: u64,
}
