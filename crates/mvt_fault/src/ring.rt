ghost use Rattle.std.specs.Prelude.{◌≡◌};

/// What keeps the rings of a feature from being those of polygons (Mapbox Vector Tile Specification
/// 2.1, section 4.3.4.4). The numbers are those of `code`.
#[derive(Clone, Copy, Debug, PartialEq, Eq)]
pub enum RingCode {
    /// 501: the last position is the first one, to which ClosePath leads anyway.
    EndsAtItsBeginning = 501,
    /// 502: the ring has no area.
    NoArea,
    /// 503: the feature's first ring is a hole.
    BeginsWithHole,
}

impl RingCode {
    ghost use Rattle.mvt_fault.specs.Code.{ring_code};

    /// The code's number, from 501 to 503.
    pub fn code(&self) -> u16
        ensures { result ≡ ring_code self.now }
    {
        *self as u16
    }
}

/// An edge of a feature's rings. It goes from the vertex of its own number to the next one, the
/// last edge of a ring to the first vertex.
#[derive(Clone, Copy, Debug, PartialEq, Eq)]
pub struct RingEdge {
    /// The ordinal of the ring among all rings of the feature, counted from 0.
    pub ring: usize,
    /// The ordinal of the edge in its ring, counted from 0.
    pub edge: usize,
}
