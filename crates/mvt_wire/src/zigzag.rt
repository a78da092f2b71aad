ghost use Rattle.std.specs.Prelude.{◌≡◌};
ghost use Rattle.mvt_wire.specs.Number.{zigzag};

/// The number that has this zigzag form: 0, -1, 1, -2 for 0, 1, 2, 3 (Protocol Buffers encoding,
/// "Signed Integers"). The parameters of geometry commands have this form (Mapbox Vector Tile
/// Specification 2.1, section 4.3.2).
pub fn unzigzag32(number: u32) -> i32
    ensures { zigzag result ≡ number }
{
    // An odd number turns all bits of its half.
    (number >> 1) as i32 ^ -((number & 1) as i32)
}

/// The number that has this zigzag form, with 64 bits (Protocol Buffers encoding, "Signed
/// Integers"). The values of type `sint64` have this form (Mapbox Vector Tile Specification 2.1,
/// section 4.4).
pub fn unzigzag64(number: u64) -> i64
    ensures { zigzag result ≡ number }
{
    (number >> 1) as i64 ^ -((number & 1) as i64)
}
