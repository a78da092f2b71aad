//! The commands of a geometry (Mapbox Vector Tile Specification 2.1, section 4.3.1). A command
//! integer is an id in its low three bits and a count above them.

/// The id of a command that moves the cursor (section 4.3.3.1).
pub const MOVE_TO: u32 = 1;

/// The id of a command that draws lines (section 4.3.3.2).
pub const LINE_TO: u32 = 2;

/// The id of a command that closes a ring (section 4.3.3.3).
pub const CLOSE_PATH: u32 = 7;

/// The greatest count of a command, which has 29 bits.
pub const GREATEST_COUNT: u32 = (1 << 29) - 1;
