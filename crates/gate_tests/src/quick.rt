use crate::device::bytes_of;
use crate::runs::{Engine, writes};
use mvt_confirm::confirm_with;
use mvt_fault::Profile;
use mvt_gate::{CheckOptions, Search, Verdict, judge_quickly, judge_with};
use std::test::Fail;

/// Tiles in hexadecimal, and the lines of the quick verdict where the polygons of a feature are kept
/// apart, of which any is right.
const FEATURES: &str = r#"
# squares that overlap: a vertex of the first is inside the second, and that is passed over
1a 21 78 02 0a 01 61 12 1a 18 03 22 16 09 00 00 1a 14 00 00 14 13 00 0f 09 0a 09 1a 14 00 00 14 13 00 0f => {"code":504,"feature":0,"first":{"edge":1,"ring":0},"layer":0,"polygon":1,"second":{"edge":0,"ring":1},"w":"100","x":"1000","y":"500"} or {"code":504,"feature":0,"first":{"edge":2,"ring":0},"layer":0,"polygon":1,"second":{"edge":3,"ring":1},"w":"100","x":"500","y":"1000"}
# two bars that cross
1a 21 78 02 0a 01 61 12 1a 18 03 22 16 09 00 14 1a 3c 00 00 14 3b 00 0f 09 14 27 1a 14 00 00 3c 13 00 0f => {"code":504,"feature":0,"first":{"edge":0,"ring":0},"layer":0,"polygon":1,"second":{"edge":1,"ring":1},"w":"900","x":"18000","y":"9000"} or {"code":504,"feature":0,"first":{"edge":0,"ring":0},"layer":0,"polygon":1,"second":{"edge":3,"ring":1},"w":"900","x":"9000","y":"9000"} or {"code":504,"feature":0,"first":{"edge":2,"ring":0},"layer":0,"polygon":1,"second":{"edge":1,"ring":1},"w":"900","x":"18000","y":"18000"} or {"code":504,"feature":0,"first":{"edge":2,"ring":0},"layer":0,"polygon":1,"second":{"edge":3,"ring":1},"w":"900","x":"9000","y":"18000"}
# a square on a square, whose edges don't meet
1a 25 78 02 0a 01 61 12 1e 18 03 22 1a 09 00 00 1a c8 01 00 00 c8 01 c7 01 00 0f 09 28 9f 01 1a 14 00 00 14 13 00 0f => {"code":507,"feature":0,"layer":0,"other":0,"polygon":1,"vertex":0}
# four polygons of which the first is inside the fourth, whose edges cross
1a 41 78 02 0a 01 61 12 3a 18 03 22 36 09 8c 01 3c 1a 0a 00 00 0a 09 00 0f 09 84 02 45 1a 14 00 00 14 13 00 0f 09 c8 01 13 1a 14 00 00 14 13 00 0f 09 d7 04 8c 01 1a c8 01 c7 01 00 f0 01 c7 01 c7 01 0f => {"code":504,"feature":0,"first":{"edge":0,"ring":3},"layer":0,"polygon":3,"second":{"edge":2,"ring":3},"w":"20000","x":"800000","y":"800000"}
# a polygon with a hole outside it, which is inside the second one
1a 2f 78 02 0a 01 61 12 28 18 03 22 24 09 28 28 1a 14 00 00 14 13 00 0f 09 28 28 1a 14 00 00 13 13 00 0f 09 4f 4f 1a c8 01 00 00 c8 01 c7 01 00 0f => {"code":505,"feature":0,"layer":0,"polygon":0,"ring":1,"vertex":0}
# an island in a hole
1a 34 78 02 0a 01 61 12 2d 18 03 22 29 09 00 00 1a c8 01 00 00 c8 01 c7 01 00 0f 09 14 b3 01 1a 00 a0 01 a0 01 00 00 9f 01 0f 09 8b 01 14 1a 14 00 00 14 13 00 0f => {"ok":true}
# no tile
1a 0e 78 02 0a 01 61 12 07 18 01 22 03 09 32 => {"at":0,"code":105,"field":3,"scope":"tile"}
"#;

/// `check` with the quick verdict, by a profile.
fn quick_check(profile: Profile) -> Engine {
    Engine::CheckOf(CheckOptions {
        profile,
        search: Search::Quick,
        all: false,
        advice: false,
    })
}

/// Whether the engine writes one of the lines, and the verdict is one that `judge_with` and
/// `confirm_with` bear out.
fn is_answered(rt: &HostRuntime, bytes: &[u8], lines: &str) -> Result<bool, Fail> {
    let engine = quick_check(Profile::Feature);
    let is_written = lines
        .split(" or ")
        .any(|line| writes(rt, engine, bytes, line));
    let is_borne_out = match judge_quickly(rt.alloc(), Profile::Feature, bytes)? {
        Verdict::Yes => judge_with(rt.alloc(), Profile::Feature, bytes)? == Verdict::Yes,
        Verdict::No(fault) => confirm_with(Profile::Feature, bytes, &fault),
    };
    Ok(is_written && is_borne_out)
}

/// How many rows hold before the first that does not, if any.
fn rows_held(rt: &HostRuntime) -> Result<u32, Fail> {
    let mut held = 0_u32;
    for row in FEATURES.lines() {
        if let Some((text, lines)) = row.split_once(" => ") {
            let bytes = bytes_of(rt, text)?;
            if !is_answered(rt, &bytes, lines)? {
                break;
            }
            held = held.saturating_add(1);
        }
    }
    Ok(held)
}

#[test]
fn passes_over_polygons_in_others_where_edges_meet(rt: HostRuntime) -> Result<(), Fail> {
    assert_eq!(rt; rows_held(&rt)?, 7);
    Ok(())
}

/// Two squares that overlap, which are valid by themselves.
const OVERLAP: &str =
    "1a 21 78 02 0a 01 61 12 1a 18 03 22 16 09 00 00 1a 14 00 00 14 13 00 0f 09 0a 09 1a 14 00 00 14 13 00 0f";

#[test]
fn judges_each_polygon_by_itself(rt: HostRuntime) -> Result<(), Fail> {
    let bytes = bytes_of(&rt, OVERLAP)?;
    assert!(rt; writes(&rt, quick_check(Profile::Polygon), &bytes, r#"{"ok":true}"#));
    Ok(())
}
