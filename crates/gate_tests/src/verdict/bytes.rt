//! Tiles that were cut short or have a wrong byte.
use crate::device::bytes_of;
use mvt_confirm::confirm;
use mvt_fault::{fault_from_text, fault_text};
use mvt_gate::{Verdict, judge};
use std::test::Fail;

/// Tiles of 16, 46, 33 and 33 bytes: a point; the standard's example of two polygons, one of them
/// with a hole; a key twice in the tags of a feature; and a layer with its fields in the order of
/// usual writers.
const TILES: [&str; 4] = [
    "1a 0e 78 02 0a 01 61 12 07 18 01 22 03 09 32 22",
    "1a 2c 78 02 0a 01 61 12 25 18 03 22 21 09 00 00 1a 14 00 00 14 13 00 0f 09 16 02 1a 12 00 00 12 11 00 0f 09 04 0d 1a 00 08 08 00 00 07 0f",
    "1a 1f 78 02 0a 01 61 12 0d 12 04 00 00 00 01 18 01 22 03 09 32 22 1a 01 6b 22 02 38 01 22 02 28 05",
    "1a 1f 0a 01 61 12 0d 08 07 12 02 00 00 18 01 22 03 09 32 22 1a 01 6b 22 03 0a 01 76 28 80 20 78 02",
];

/// Whether the verdict on these bytes is Yes, or No with a fault that the checker accepts and whose
/// text reads back to it.
fn is_borne_out(rt: &HostRuntime, bytes: &[u8]) -> Result<bool, Fail> {
    let Verdict::No(fault) = judge(rt.alloc(), bytes)? else {
        return Ok(true);
    };
    let text = fault_text(rt.alloc(), &fault)?;
    Ok(confirm(bytes, &fault) && fault_from_text(rt.alloc(), text.as_bytes())? == fault)
}

/// How many tiles are borne out of those that begin this one, the empty one and the whole one among
/// them.
fn fronts_borne_out(rt: &HostRuntime, tile: &[u8]) -> Result<u32, Fail> {
    let mut count = 0_u32;
    for length in 0..=tile.len() {
        if is_borne_out(rt, &tile[..length])? {
            count = count.saturating_add(1);
        }
    }
    Ok(count)
}

/// How many tiles are borne out of those with any value at this place. The byte's own value comes
/// last.
fn others_borne_out(rt: &HostRuntime, tile: &mut [u8], place: usize) -> Result<u32, Fail> {
    let mut count = 0_u32;
    for _ in 0..256 {
        if let Some(byte) = tile.get_mut(place) {
            *byte = byte.wrapping_add(1);
        }
        if is_borne_out(rt, tile)? {
            count = count.saturating_add(1);
        }
    }
    Ok(count)
}

/// Of a tile of n bytes, n + 1 begin it, and 256 n have any value at one place.
#[test]
fn bears_out_verdicts_on_broken_tiles(rt: HostRuntime) -> Result<(), Fail> {
    let mut count = 0_u32;
    for text in TILES {
        let mut tile = bytes_of(&rt, text)?;
        count = count.saturating_add(fronts_borne_out(&rt, &tile)?);
        for place in 0..tile.len() {
            count = count.saturating_add(others_borne_out(&rt, &mut tile, place)?);
        }
    }
    assert_eq!(rt; count, 4 + 128 + 256 * 128);
    Ok(())
}
