//! Numbers of rings, vertices and edges.
ghost use Rattle.std.specs.Prelude.{◌≡◌, ◌-◌, ◌^◌, min};

/// A number of rings, vertices or edges. Where it has no 32 bits the greatest, which is that of
/// none.
pub fn short(number: usize) -> u32
    ensures { result ≡ min number (2 ^ 32 - 1) }
{
    u32::try_from(number).unwrap_or(u32::MAX)
}
