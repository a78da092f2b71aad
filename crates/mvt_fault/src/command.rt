ghost use Rattle.std.specs.Prelude.{◌≡◌};

/// What keeps the geometry of a feature from being commands that draw a figure of its type (Mapbox
/// Vector Tile Specification 2.1, section 4.3). The numbers are those of `code`.
#[derive(Clone, Copy, Debug, PartialEq, Eq)]
pub enum CommandCode {
    /// 401: another command than the one that is due, or a number after all points.
    OtherCommand = 401,
    /// 402: the command that is due, with a count that isn't allowed.
    OtherCount,
    /// 403: the numbers end where more is due.
    Unfinished,
    /// 404: a parameter is 4294967295, which stands for -2^31.
    GreatestParameter,
    /// 405: a parameter leads to a coordinate that isn't from -2^30 to 2^30.
    OutOfBounds,
    /// 406: a LineTo leads to where the cursor is.
    NoStep,
}

impl CommandCode {
    ghost use Rattle.mvt_fault.specs.Code.{command_code};

    /// The code's number, from 401 to 406.
    pub fn code(&self) -> u16
        ensures { result ≡ command_code self.now }
    {
        *self as u16
    }
}
