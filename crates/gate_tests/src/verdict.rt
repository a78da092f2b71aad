//! What `judge` says of tiles: where their edges meet, and of broken ones.
use crate::device::bytes_of;
use std::test::Fail;

mod bytes;
mod calls;
mod large;
mod meetings;
mod profiles;

const TOOTH_BELOW: &str = "04 00 00 14 04 00 00 13";

const WAY_ABOVE: &str = "04 00 00 50";

const TOOTH_ABOVE: &str = "03 00 00 13 03 00 00 14";

const COMB_END: &str = "03 00 0f";

/// A tooth above with a vertex that was moved, so that it crosses a tooth below.
const MOVED_TOOTH: &str = "09 09 06 09 03 00 00 14";

/// The tile of a ring, a comb on either side, of its parts, each with how often it comes: its
/// beginning, the teeth of the one comb, the way to the other, the teeth of that one, and its end.
fn tile_of(rt: &HostRuntime, comb: &[(&str, u32)]) -> Result<Vec<u8>, Fail> {
    let mut tile = Vec::new(rt.alloc());
    for (part, times) in comb {
        let bytes = bytes_of(rt, part)?;
        for _ in 0..*times {
            tile.extend_from_slice(&bytes)?;
        }
    }
    Ok(tile)
}

/// The tile of a ring of 316 vertices, whose tooth in the middle above is this one.
fn comb_tile(rt: &HostRuntime, middle: &str) -> Result<Vec<u8>, Fail> {
    let comb = [
        (
            "1a 89 05 78 02 0a 01 61 12 81 05 18 03 22 fc 04 09 00 27 da 13",
            1,
        ),
        (TOOTH_BELOW, 39),
        (WAY_ABOVE, 1),
        (TOOTH_ABOVE, 19),
        (middle, 1),
        (TOOTH_ABOVE, 19),
        (COMB_END, 1),
    ];
    tile_of(rt, &comb)
}
