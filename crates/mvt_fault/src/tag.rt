ghost use Rattle.std.specs.Prelude.{◌≡◌};

/// What is wrong with the tags of a feature (Mapbox Vector Tile Specification 2.1, section 4.4).
/// The numbers are those of `code`.
#[derive(Clone, Copy, Debug, PartialEq, Eq)]
pub enum TagCode {
    /// 301: the list has an odd length, so that it is no list of pairs.
    OddLength = 301,
    /// 302: the index of a key at or above the number of the layer's keys.
    NoKey,
    /// 303: the index of a value at or above the number of the layer's values.
    NoValue,
    /// 304: the index of a key that an earlier pair has too.
    Repeated,
}

impl TagCode {
    ghost use Rattle.mvt_fault.specs.Code.{tag_code};

    /// The code's number, from 301 to 304.
    pub fn code(&self) -> u16
        ensures { result ≡ tag_code self.now }
    {
        *self as u16
    }
}
