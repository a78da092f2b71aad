//! Features of several polygons, by either profile.
use crate::device::{CALM, bytes_of};
use crate::runs::{Engine, run};
use mvt_fault::{Fault, Profile, fault_from_text};
use mvt_gate::{Agreement, Outcome, Verdict, judge_and_confirm_with, judge_with};
use std::test::Fail;

/// Tiles in hexadecimal; the lines of `check` where the polygons of a feature are kept apart, of
/// which any is right; and the line where each polygon is checked by itself.
const FEATURES: &str = r#"
# squares that overlap: reported for the first one, before the edges that cross
1a 21 78 02 0a 01 61 12 1a 18 03 22 16 09 00 00 1a 14 00 00 14 13 00 0f 09 0a 09 1a 14 00 00 14 13 00 0f => {"code":507,"feature":0,"layer":0,"other":1,"polygon":0,"vertex":2} => {"ok":true}
# two bars that cross: reported for the second one
1a 21 78 02 0a 01 61 12 1a 18 03 22 16 09 00 14 1a 3c 00 00 14 3b 00 0f 09 14 27 1a 14 00 00 3c 13 00 0f => {"code":504,"feature":0,"first":{"edge":0,"ring":0},"layer":0,"polygon":1,"second":{"edge":1,"ring":1},"w":"900","x":"18000","y":"9000"} or {"code":504,"feature":0,"first":{"edge":0,"ring":0},"layer":0,"polygon":1,"second":{"edge":3,"ring":1},"w":"900","x":"9000","y":"9000"} or {"code":504,"feature":0,"first":{"edge":2,"ring":0},"layer":0,"polygon":1,"second":{"edge":1,"ring":1},"w":"900","x":"18000","y":"18000"} or {"code":504,"feature":0,"first":{"edge":2,"ring":0},"layer":0,"polygon":1,"second":{"edge":3,"ring":1},"w":"900","x":"9000","y":"18000"} => {"ok":true}
# a square on a square
1a 25 78 02 0a 01 61 12 1e 18 03 22 1a 09 00 00 1a c8 01 00 00 c8 01 c7 01 00 0f 09 28 9f 01 1a 14 00 00 14 13 00 0f => {"code":507,"feature":0,"layer":0,"other":0,"polygon":1,"vertex":0} => {"ok":true}
# two squares with a side in common: by the rule for points on a ring, a vertex of the one is inside the other
1a 21 78 02 0a 01 61 12 1a 18 03 22 16 09 00 00 1a 14 00 00 14 13 00 0f 09 14 13 1a 14 00 00 14 13 00 0f => {"code":507,"feature":0,"layer":0,"other":1,"polygon":0,"vertex":1} => {"ok":true}
# the same square twice
1a 21 78 02 0a 01 61 12 1a 18 03 22 16 09 00 00 1a 14 00 00 14 13 00 0f 09 00 13 1a 14 00 00 14 13 00 0f => {"code":507,"feature":0,"layer":0,"other":1,"polygon":0,"vertex":0} => {"ok":true}
# two squares corner to corner
1a 21 78 02 0a 01 61 12 1a 18 03 22 16 09 00 00 1a 14 00 00 14 13 00 0f 09 14 00 1a 14 00 00 14 13 00 0f => {"code":507,"feature":0,"layer":0,"other":1,"polygon":0,"vertex":2} => {"ok":true}
# an island on an island in a hole
1a 3d 78 02 0a 01 61 12 36 18 03 22 32 09 00 00 1a c8 01 00 00 c8 01 c7 01 00 0f 09 14 13 1a a0 01 00 00 9f 01 9f 01 00 0f 09 14 14 1a 78 00 00 78 77 00 0f 09 14 63 1a 14 00 00 14 13 00 0f => {"code":507,"feature":0,"layer":0,"other":1,"polygon":2,"vertex":0} => {"ok":true}
# a polygon whose own edges cross, which comes before that it is inside the second one
1a 24 78 02 0a 01 61 12 1d 18 03 22 19 09 3c 4c 1a 14 0f 00 14 13 13 0f 09 3b 3b 1a c8 01 00 00 c8 01 c7 01 00 0f => {"code":504,"feature":0,"first":{"edge":0,"ring":0},"layer":0,"polygon":0,"second":{"edge":2,"ring":0},"w":"180","x":"6200","y":"6200"} => {"code":504,"feature":0,"first":{"edge":0,"ring":0},"layer":0,"polygon":0,"second":{"edge":2,"ring":0},"w":"180","x":"6200","y":"6200"}
# a polygon with a hole outside it, which comes before that it is inside the second one
1a 2f 78 02 0a 01 61 12 28 18 03 22 24 09 28 28 1a 14 00 00 14 13 00 0f 09 28 28 1a 14 00 00 13 13 00 0f 09 4f 4f 1a c8 01 00 00 c8 01 c7 01 00 0f => {"code":505,"feature":0,"layer":0,"polygon":0,"ring":1,"vertex":0} => {"code":505,"feature":0,"layer":0,"polygon":0,"ring":1,"vertex":0}
# a square with two polygons around it, of which the first is named
1a 33 78 02 0a 01 61 12 2c 18 03 22 28 09 00 00 1a c8 01 00 00 c8 01 c7 01 00 0f 09 3c 8b 01 1a 14 00 00 14 13 00 0f 09 27 3b 1a a0 01 00 00 a0 01 9f 01 00 0f => {"code":507,"feature":0,"layer":0,"other":0,"polygon":1,"vertex":0} => {"ok":true}
# a third polygon that touches the first one in a point
1a 2a 78 02 0a 01 61 12 23 18 03 22 1f 09 00 00 1a 14 00 00 14 13 00 0f 09 64 50 1a 14 00 00 14 13 00 0f 09 4f 6d 12 14 09 00 14 0f => {"code":504,"feature":0,"first":{"edge":1,"ring":0},"layer":0,"polygon":2,"second":{"edge":0,"ring":2},"w":"1","x":"10","y":"5"} or {"code":504,"feature":0,"first":{"edge":1,"ring":0},"layer":0,"polygon":2,"second":{"edge":2,"ring":2},"w":"1","x":"10","y":"5"} => {"ok":true}
# an island in a hole, and a polygon with a hole beside another polygon
1a 34 78 02 0a 01 61 12 2d 18 03 22 29 09 00 00 1a c8 01 00 00 c8 01 c7 01 00 0f 09 14 b3 01 1a 00 a0 01 a0 01 00 00 9f 01 0f 09 8b 01 14 1a 14 00 00 14 13 00 0f => {"ok":true} => {"ok":true}
1a 2c 78 02 0a 01 61 12 25 18 03 22 21 09 00 00 1a 14 00 00 14 13 00 0f 09 16 02 1a 12 00 00 12 11 00 0f 09 04 0d 1a 00 08 08 00 00 07 0f => {"ok":true} => {"ok":true}
# ground with a hole, an island in it with a hole, and a stone in that
1a 48 78 02 0a 01 61 12 41 18 03 22 3d 09 00 00 1a c8 01 00 00 c8 01 c7 01 00 0f 09 14 13 1a a0 01 00 00 9f 01 9f 01 00 0f 09 14 14 1a 78 00 00 78 77 00 0f 09 14 13 1a 50 00 00 4f 4f 00 0f 09 14 14 1a 28 00 00 28 27 00 0f => {"ok":true} => {"ok":true}
# a square with a hole outside it, which is around the square before it
1a 2c 78 02 0a 01 61 12 25 18 03 22 21 09 3c 3c 1a 14 00 00 14 13 00 0f 09 3b 4f 1a 14 00 00 14 13 00 0f 09 28 64 1a 50 00 00 4f 4f 00 0f => {"code":505,"feature":0,"layer":0,"polygon":1,"ring":2,"vertex":0} => {"code":505,"feature":0,"layer":0,"polygon":1,"ring":2,"vertex":0}
# ground with a hole, and in that a square with a hole beside it
1a 3d 78 02 0a 01 61 12 36 18 03 22 32 09 00 00 1a c8 01 00 00 c8 01 c7 01 00 0f 09 14 13 1a a0 01 00 00 9f 01 9f 01 00 0f 09 04 04 1a 0c 00 00 0c 0b 00 0f 09 10 7c 1a 78 00 00 77 77 00 0f => {"code":505,"feature":0,"layer":0,"polygon":1,"ring":3,"vertex":0} => {"code":505,"feature":0,"layer":0,"polygon":1,"ring":3,"vertex":0}
# a square in its own hole, on a square around both
1a 2f 78 02 0a 01 61 12 28 18 03 22 24 09 28 28 1a 14 00 00 14 13 00 0f 09 27 3c 1a 78 00 00 77 77 00 0f 09 13 13 1a a0 01 00 00 a0 01 9f 01 00 0f => {"code":505,"feature":0,"layer":0,"polygon":0,"ring":1,"vertex":0} => {"code":505,"feature":0,"layer":0,"polygon":0,"ring":1,"vertex":0}
# a square on one that is in its own hole, so that it is inside no polygon
1a 2c 78 02 0a 01 61 12 25 18 03 22 21 09 2c 2c 1a 0c 00 00 0c 0b 00 0f 09 03 0f 1a 14 00 00 14 13 00 0f 09 27 3c 1a 78 00 00 77 77 00 0f => {"code":505,"feature":0,"layer":0,"polygon":1,"ring":2,"vertex":0} => {"code":505,"feature":0,"layer":0,"polygon":1,"ring":2,"vertex":0}
# four polygons of which the edges of one cross: of the first
1a 3a 78 02 0a 01 61 12 33 18 03 22 2f 09 00 10 1a 14 13 00 18 13 13 0f 09 c8 01 00 1a 14 00 00 14 13 00 0f 09 c8 01 13 1a 14 00 00 14 13 00 0f 09 c8 01 13 1a 14 00 00 14 13 00 0f => {"code":504,"feature":0,"first":{"edge":0,"ring":0},"layer":0,"polygon":0,"second":{"edge":2,"ring":0},"w":"200","x":"800","y":"800"} => {"code":504,"feature":0,"first":{"edge":0,"ring":0},"layer":0,"polygon":0,"second":{"edge":2,"ring":0},"w":"200","x":"800","y":"800"}
# of the third, and the fourth is inside the first
1a 3a 78 02 0a 01 61 12 33 18 03 22 2f 09 00 00 1a 14 00 00 14 13 00 0f 09 c8 01 13 1a 14 00 00 14 13 00 0f 09 c8 01 03 1a 14 13 00 18 13 13 0f 09 8b 03 04 1a 0c 00 00 0c 0b 00 0f => {"code":504,"feature":0,"first":{"edge":0,"ring":2},"layer":0,"polygon":2,"second":{"edge":2,"ring":2},"w":"200","x":"40800","y":"800"} => {"code":504,"feature":0,"first":{"edge":0,"ring":2},"layer":0,"polygon":2,"second":{"edge":2,"ring":2},"w":"200","x":"40800","y":"800"}
# of the fourth
1a 3a 78 02 0a 01 61 12 33 18 03 22 2f 09 00 00 1a 14 00 00 14 13 00 0f 09 c8 01 13 1a 14 00 00 14 13 00 0f 09 c8 01 13 1a 14 00 00 14 13 00 0f 09 c8 01 03 1a 14 13 00 18 13 13 0f => {"code":504,"feature":0,"first":{"edge":0,"ring":3},"layer":0,"polygon":3,"second":{"edge":2,"ring":3},"w":"200","x":"60800","y":"800"} => {"code":504,"feature":0,"first":{"edge":0,"ring":3},"layer":0,"polygon":3,"second":{"edge":2,"ring":3},"w":"200","x":"60800","y":"800"}
# of the fourth, and the first is inside it
1a 41 78 02 0a 01 61 12 3a 18 03 22 36 09 8c 01 3c 1a 0a 00 00 0a 09 00 0f 09 84 02 45 1a 14 00 00 14 13 00 0f 09 c8 01 13 1a 14 00 00 14 13 00 0f 09 d7 04 8c 01 1a c8 01 c7 01 00 f0 01 c7 01 c7 01 0f => {"code":507,"feature":0,"layer":0,"other":3,"polygon":0,"vertex":0} => {"code":504,"feature":0,"first":{"edge":0,"ring":3},"layer":0,"polygon":3,"second":{"edge":2,"ring":3},"w":"20000","x":"800000","y":"800000"}
# two squares corner to corner, the upper one first: no vertex of it is inside the other one
1a 21 78 02 0a 01 61 12 1a 18 03 22 16 09 14 14 1a 14 00 00 14 13 00 0f 09 13 27 1a 14 00 00 14 13 00 0f => {"code":504,"feature":0,"first":{"edge":0,"ring":0},"layer":0,"polygon":1,"second":{"edge":1,"ring":1},"w":"1","x":"10","y":"10"} or {"code":504,"feature":0,"first":{"edge":0,"ring":0},"layer":0,"polygon":1,"second":{"edge":2,"ring":1},"w":"1","x":"10","y":"10"} or {"code":504,"feature":0,"first":{"edge":3,"ring":0},"layer":0,"polygon":1,"second":{"edge":1,"ring":1},"w":"1","x":"10","y":"10"} or {"code":504,"feature":0,"first":{"edge":3,"ring":0},"layer":0,"polygon":1,"second":{"edge":2,"ring":1},"w":"1","x":"10","y":"10"} => {"ok":true}
"#;

const YES: &str = r#"{"ok":true}"#;

/// The text that an engine writes of a tile and a claim, without the LF at its end, and its
/// outcome.
fn answer_of<'t>(
    rt: &HostRuntime,
    engine: Engine,
    inputs: (&[u8], &str),
    taken: &'t mut Vec<u8>,
) -> Result<(Outcome, &'t str), Fail> {
    let outcome = run(rt, engine, inputs, [CALM; 3], taken)?;
    let line = str::from_utf8(taken)?.strip_suffix('\n').ok_or("no LF")?;
    Ok((outcome, line))
}

/// Whether `confirm` answers so to a claim on a tile, by the profile.
fn is_confirmed(
    rt: &HostRuntime,
    profile: Profile,
    inputs: (&[u8], &str),
    wanted: bool,
) -> Result<bool, Fail> {
    let mut taken = Vec::new(rt.alloc());
    let answer = answer_of(rt, Engine::ConfirmBy(profile), inputs, &mut taken)?;
    Ok(if wanted {
        answer == (Outcome::Yes, r#"{"confirmed":true}"#)
    } else {
        answer == (Outcome::No, r#"{"confirmed":false}"#)
    })
}

/// A fault that is true of none of the tiles, which have one layer.
const OTHER_FAULT: Fault = Fault::Version { layer: 7 };

/// Whether the verdict on the bytes is the one of a line, and the promise is kept.
fn is_judged(rt: &HostRuntime, profile: Profile, bytes: &[u8], line: &str) -> Result<bool, Fail> {
    let verdict = if line == YES {
        Verdict::Yes
    } else {
        Verdict::No(fault_from_text(rt.alloc(), line.as_bytes())?)
    };
    let agreement = Agreement {
        verdict,
        is_confirmed: verdict != Verdict::Yes,
        is_other_confirmed: false,
    };
    let said = judge_with(rt.alloc(), profile, bytes)?;
    let promised = judge_and_confirm_with(rt.alloc(), profile, bytes, &OTHER_FAULT)?;
    Ok(said == verdict && promised == agreement)
}

/// Whether one of the lines is what the engine of `check` writes of the bytes by the profile;
/// `judge_with` says the same, and the engine of `confirm` confirms a fault: by this profile, and
/// by the other one only if it is a line there too.
fn is_answered(
    rt: &HostRuntime,
    profile: Profile,
    bytes: &[u8],
    lines: &str,
    others: &str,
) -> Result<bool, Fail> {
    let mut taken = Vec::new(rt.alloc());
    let (outcome, line) = answer_of(rt, Engine::CheckBy(profile), (bytes, ""), &mut taken)?;
    if !lines.split(" or ").any(|it| it == line) || !is_judged(rt, profile, bytes, line)? {
        return Ok(false);
    }
    if line == YES {
        return Ok(outcome == Outcome::Yes);
    }
    let other = match profile {
        Profile::Polygon => Profile::Feature,
        Profile::Feature => Profile::Polygon,
    };
    let is_everywhere = profile == Profile::Polygon || others.contains(line);
    Ok(
        outcome == Outcome::No
            && is_confirmed(rt, profile, (bytes, line), true)?
            && is_confirmed(rt, other, (bytes, line), is_everywhere)?,
    )
}

/// How many rows hold before the first that does not, if any.
fn rows_held(rt: &HostRuntime) -> Result<u32, Fail> {
    let mut held = 0_u32;
    for row in FEATURES.lines() {
        if let Some((text, lines)) = row.split_once(" => ") {
            let (apart, alone) = lines.split_once(" => ").ok_or("no second line")?;
            let bytes = bytes_of(rt, text)?;
            let by_feature = is_answered(rt, Profile::Feature, &bytes, apart, alone)?;
            if !by_feature || !is_answered(rt, Profile::Polygon, &bytes, alone, apart)? {
                break;
            }
            held = held.saturating_add(1);
        }
    }
    Ok(held)
}

#[test]
fn judges_features_by_either_profile(rt: HostRuntime) -> Result<(), Fail> {
    assert_eq!(rt; rows_held(&rt)?, 23);
    Ok(())
}
