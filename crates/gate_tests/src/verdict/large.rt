//! A ring of a million vertices is judged within two minutes.
use super::{COMB_END, TOOTH_ABOVE, TOOTH_BELOW, WAY_ABOVE, tile_of};
use mvt_gate::{Verdict, judge};
use std::test::Fail;
use std::time::{Duration, Instant};

/// A ring of 999,996 vertices, with one comb above the other.
const COMBS: [(&str, u32); 5] = [
    (
        "1a 8d 89 7a 78 02 0a 01 61 12 84 89 7a 18 03 22 fe 88 7a 09 00 27 da a3 e8 03",
        1,
    ),
    (TOOTH_BELOW, 124_999),
    (WAY_ABOVE, 1),
    (TOOTH_ABOVE, 124_999),
    (COMB_END, 1),
];

/// The same with x and y exchanged, in the other order.
const TURNED_COMBS: [(&str, u32); 5] = [
    (
        "1a 8d 89 7a 78 02 0a 01 61 12 84 89 7a 18 03 22 fe 88 7a 09 28 00 da a3 e8 03",
        1,
    ),
    ("00 04 13 00 00 04 14 00", 124_999),
    ("00 04 4f 00", 1),
    ("00 03 14 00 00 03 13 00", 124_999),
    ("00 03 0f", 1),
];

/// Whether the tile of a ring is judged valid, and that within two minutes by the clock.
fn is_soon_valid(rt: &HostRuntime, comb: &[(&str, u32)]) -> Result<bool, Fail> {
    let tile = tile_of(rt, comb)?;
    let start = Instant::now(rt)?;
    let verdict = judge(rt.alloc(), &tile)?;
    let taken = start.elapsed(rt)?;
    Ok(verdict == Verdict::Yes && taken <= Duration::from_secs(120))
}

// (`rt ci` and `rt test` end a test after one minute, which fails it too, but `rt test` can be set
// to wait longer. `rt try --test` needs minutes for this, so it fails there.)
#[test]
fn judges_combs_of_many_teeth(rt: HostRuntime) -> Result<(), Fail> {
    assert!(rt; is_soon_valid(&rt, &COMBS)?);
    assert!(rt; is_soon_valid(&rt, &TURNED_COMBS)?);
    Ok(())
}
