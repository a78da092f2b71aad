use crate::device::bytes_of;
use crate::runs::{Engine, writes};
use mvt_fault::{Fault, fault_from_text};
use mvt_gate::{Agreement, Verdict, judge, judge_and_confirm};
use std::test::Fail;

const OK: &str = r#"{"ok":true}"#;

/// Tiles in hexadecimal that keep every rule, and the line for each.
const TILES: &str = r#"
# no layer, and layers with no feature
 => {"ok":true}
1a 05 78 02 0a 01 61 => {"ok":true}
1a 0b 78 02 0a 01 61 1a 01 6b 1a 01 6b => {"ok":true}
# a point, with packed numbers, with single ones, and with both
1a 0e 78 02 0a 01 61 12 07 18 01 22 03 09 32 22 => {"ok":true}
1a 0f 78 02 0a 01 61 12 08 18 01 20 09 20 32 20 22 => {"ok":true}
1a 0f 78 02 0a 01 61 12 08 18 01 22 02 09 32 20 22 => {"ok":true}
# its version in two bytes
1a 0f 78 82 00 0a 01 61 12 07 18 01 22 03 09 32 22 => {"ok":true}
# a bool of 64 bits
1a 12 78 02 0a 01 61 22 0b 38 ff ff ff ff ff ff ff ff ff 01 => {"ok":true}
# fields that no message knows
08 05 => {"ok":true}
09 00 00 00 00 00 00 00 00 15 01 02 03 04 => {"ok":true}
1a 08 78 02 0a 01 61 80 01 05 => {"ok":true}
# a feature of unknown type, with any numbers
1a 0c 78 02 0a 01 61 12 05 18 00 22 01 63 => {"ok":true}
1a 0b 78 02 0a 01 61 12 04 18 00 22 00 => {"ok":true}
1a 16 78 02 0a 01 61 12 0f 18 00 22 0b 09 00 10 1a 14 0f 00 14 13 13 0f => {"ok":true}
# the fields of a layer in the order of usual writers, and in another
1a 1f 0a 01 61 12 0d 08 07 12 02 00 00 18 01 22 03 09 32 22 1a 01 6b 22 03 0a 01 76 28 80 20 78 02 => {"ok":true}
1a 1d 78 02 0a 01 61 12 0b 12 02 00 00 18 01 22 03 09 32 22 1a 01 6b 22 02 38 01 22 02 28 05 => {"ok":true}
# two features of one id
1a 1b 78 02 0a 01 61 12 09 08 07 18 01 22 03 09 32 22 12 09 08 07 18 01 22 03 09 32 22 => {"ok":true}
# points, the least and the greatest coordinates among them
1a 10 78 02 0a 01 61 12 09 18 01 22 05 11 0a 0e 03 09 => {"ok":true}
1a 12 78 02 0a 01 61 12 0b 18 01 22 07 09 80 80 80 80 08 00 => {"ok":true}
1a 12 78 02 0a 01 61 12 0b 18 01 22 07 09 ff ff ff ff 07 00 => {"ok":true}
# lines
1a 13 78 02 0a 01 61 12 0c 18 02 22 08 09 04 04 12 00 10 10 00 => {"ok":true}
1a 19 78 02 0a 01 61 12 12 18 02 22 0e 09 04 04 12 00 10 10 00 09 11 11 0a 04 08 => {"ok":true}
# polygons
1a 14 78 02 0a 01 61 12 0d 18 03 22 09 09 06 0c 12 0a 0c 18 2c 0f => {"ok":true}
1a 2c 78 02 0a 01 61 12 25 18 03 22 21 09 00 00 1a 14 00 00 14 13 00 0f 09 16 02 1a 12 00 00 12 11 00 0f 09 04 0d 1a 00 08 08 00 00 07 0f => {"ok":true}
1a 21 78 02 0a 01 61 12 1a 18 03 22 16 09 00 00 1a 14 00 00 14 13 00 0f 09 0a 09 1a 14 00 00 14 13 00 0f => {"ok":true}
1a 21 78 02 0a 01 61 12 1a 18 03 22 16 09 00 14 1a 3c 00 00 14 3b 00 0f 09 14 27 1a 14 00 00 3c 13 00 0f => {"ok":true}
1a 25 78 02 0a 01 61 12 1e 18 03 22 1a 09 00 00 1a c8 01 00 00 c8 01 c7 01 00 0f 09 28 9f 01 1a 14 00 00 14 13 00 0f => {"ok":true}
1a 34 78 02 0a 01 61 12 2d 18 03 22 29 09 00 00 1a c8 01 00 00 c8 01 c7 01 00 0f 09 14 b3 01 1a 00 a0 01 a0 01 00 00 9f 01 0f 09 8b 01 14 1a 14 00 00 14 13 00 0f => {"ok":true}
1a 21 78 02 0a 01 61 12 1a 18 03 22 16 09 00 00 1a 14 00 00 14 13 00 0f 09 14 13 1a 14 00 00 14 13 00 0f => {"ok":true}
1a 42 78 02 0a 01 61 12 3b 18 03 22 37 09 ff ff ff ff 07 ff ff ff ff 07 3a 80 80 80 80 08 00 80 80 80 80 08 00 00 80 80 80 80 08 00 80 80 80 80 08 ff ff ff ff 07 00 ff ff ff ff 07 00 00 ff ff ff ff 07 0f => {"ok":true}
"#;

/// Bytes in hexadecimal that are no tile, or one that breaks a rule, and the line of their first
/// fault.
const FAULTS: &str = r#"
# the tile's own fields
80 => {"at":0,"code":101,"field":0,"scope":"tile"}
08 => {"at":1,"code":101,"field":1,"scope":"tile"}
08 05 10 => {"at":3,"code":101,"field":2,"scope":"tile"}
80 80 80 80 80 80 80 80 80 02 => {"at":0,"code":102,"field":0,"scope":"tile"}
00 => {"at":0,"code":103,"field":0,"scope":"tile"}
80 80 80 80 10 => {"at":0,"code":103,"field":0,"scope":"tile"}
1b => {"at":0,"code":104,"field":3,"scope":"tile"}
1a ff ff ff ff ff ff ff ff ff 01 => {"at":0,"code":105,"field":3,"scope":"tile"}
1a 0e 78 02 0a 01 61 12 07 18 01 22 03 09 32 => {"at":0,"code":105,"field":3,"scope":"tile"}
# a layer
1a 17 78 82 80 80 80 80 80 80 80 80 02 0a 01 61 12 07 18 01 22 03 09 32 22 => {"at":3,"code":102,"field":15,"layer":0,"scope":"layer"}
1a 06 7a 01 02 0a 01 61 => {"at":2,"code":106,"field":15,"layer":0,"scope":"layer"}
1a 07 78 02 0a 01 61 10 01 => {"at":7,"code":106,"field":2,"layer":0,"scope":"layer"}
1a 07 78 02 0a 01 61 20 01 => {"at":7,"code":106,"field":4,"layer":0,"scope":"layer"}
1a 07 78 02 78 02 0a 01 61 => {"at":4,"code":107,"field":15,"layer":0,"scope":"layer"}
1a 08 78 02 0a 01 61 0a 01 62 => {"at":7,"code":107,"field":1,"layer":0,"scope":"layer"}
1a 09 78 02 0a 01 61 28 01 28 01 => {"at":9,"code":107,"field":5,"layer":0,"scope":"layer"}
1a 02 78 02 => {"at":4,"code":108,"field":1,"layer":0,"scope":"layer"}
1a 03 0a 01 61 => {"at":5,"code":108,"field":15,"layer":0,"scope":"layer"}
1a 00 => {"at":2,"code":108,"field":1,"layer":0,"scope":"layer"}
1a 05 78 02 0a 01 ff => {"at":4,"code":110,"field":1,"layer":0,"scope":"layer"}
1a 09 78 80 80 80 80 10 0a 01 61 => {"at":3,"code":111,"field":15,"layer":0,"scope":"layer"}
1a 0b 78 02 0a 01 61 28 80 80 80 80 10 => {"at":8,"code":111,"field":5,"layer":0,"scope":"layer"}
# a value of none, and of one kind twice
1a 07 78 02 0a 01 61 22 00 => {"at":9,"code":109,"field":0,"layer":0,"scope":"value","value":0}
1a 0d 78 02 0a 01 61 22 06 0a 01 61 0a 01 62 => {"at":12,"code":107,"field":1,"layer":0,"scope":"value","value":0}
1a 11 78 02 0a 01 61 22 0a 15 00 00 00 00 15 00 00 00 00 => {"at":14,"code":107,"field":2,"layer":0,"scope":"value","value":0}
1a 19 78 02 0a 01 61 22 12 19 00 00 00 00 00 00 00 00 19 00 00 00 00 00 00 00 00 => {"at":18,"code":107,"field":3,"layer":0,"scope":"value","value":0}
1a 0b 78 02 0a 01 61 22 04 20 01 20 01 => {"at":11,"code":107,"field":4,"layer":0,"scope":"value","value":0}
1a 0b 78 02 0a 01 61 22 04 28 01 28 01 => {"at":11,"code":107,"field":5,"layer":0,"scope":"value","value":0}
1a 0b 78 02 0a 01 61 22 04 30 01 30 01 => {"at":11,"code":107,"field":6,"layer":0,"scope":"value","value":0}
1a 0b 78 02 0a 01 61 22 04 38 01 38 01 => {"at":11,"code":107,"field":7,"layer":0,"scope":"value","value":0}
# a feature
1a 0e 78 02 0a 01 61 12 07 18 01 22 03 09 32 a2 => {"at":15,"code":101,"feature":0,"field":4,"layer":0,"scope":"feature"}
1a 11 78 02 0a 01 61 12 0a 0a 01 07 18 01 22 03 09 32 22 => {"at":9,"code":106,"feature":0,"field":1,"layer":0,"scope":"feature"}
1a 13 78 02 0a 01 61 12 0c 15 00 00 00 00 18 01 22 03 09 32 22 => {"at":9,"code":106,"feature":0,"field":2,"layer":0,"scope":"feature"}
1a 12 78 02 0a 01 61 12 0b 08 07 08 07 18 01 22 03 09 32 22 => {"at":11,"code":107,"feature":0,"field":1,"layer":0,"scope":"feature"}
1a 10 78 02 0a 01 61 12 09 18 01 18 01 22 03 09 32 22 => {"at":11,"code":107,"feature":0,"field":3,"layer":0,"scope":"feature"}
1a 0c 78 02 0a 01 61 12 05 22 03 09 32 22 => {"at":14,"code":108,"feature":0,"field":3,"layer":0,"scope":"feature"}
1a 0e 78 02 0a 01 61 12 07 18 04 22 03 09 32 22 => {"at":10,"code":111,"feature":0,"field":3,"layer":0,"scope":"feature"}
# versions and names of layers
1a 05 78 01 0a 01 61 => {"code":201,"layer":0}
1a 0e 78 02 0a 01 61 12 07 18 01 22 03 09 32 22 1a 0e 78 02 0a 01 61 12 07 18 01 22 03 09 32 22 => {"code":202,"first":0,"second":1}
# tags: an odd number of them, no such key, no such value, and a key again
1a 1c 78 02 0a 01 61 12 0a 12 01 00 18 01 22 03 09 32 22 1a 01 6b 22 02 38 01 22 02 28 05 => {"code":301,"feature":0,"index":1,"layer":0}
1a 1d 78 02 0a 01 61 12 0b 12 02 01 00 18 01 22 03 09 32 22 1a 01 6b 22 02 38 01 22 02 28 05 => {"code":302,"feature":0,"index":0,"layer":0}
1a 1d 78 02 0a 01 61 12 0b 12 02 00 02 18 01 22 03 09 32 22 1a 01 6b 22 02 38 01 22 02 28 05 => {"code":303,"feature":0,"index":1,"layer":0}
1a 1f 78 02 0a 01 61 12 0d 12 04 00 00 00 01 18 01 22 03 09 32 22 1a 01 6b 22 02 38 01 22 02 28 05 => {"code":304,"feature":0,"index":2,"layer":0}
# geometry commands: another one than the one that is due, and one after all points
1a 0e 78 02 0a 01 61 12 07 18 01 22 03 0a 32 22 => {"code":401,"feature":0,"index":0,"layer":0}
1a 11 78 02 0a 01 61 12 0a 18 01 22 06 09 32 22 09 32 22 => {"code":401,"feature":0,"index":3,"layer":0}
# a count that is not allowed
1a 0c 78 02 0a 01 61 12 05 18 01 22 01 01 => {"code":402,"feature":0,"index":0,"layer":0}
# no numbers, one too few, and a count of 536,870,911
1a 0b 78 02 0a 01 61 12 04 18 01 22 00 => {"code":403,"feature":0,"index":0,"layer":0}
1a 0d 78 02 0a 01 61 12 06 18 01 22 02 09 32 => {"code":403,"feature":0,"index":2,"layer":0}
1a 10 78 02 0a 01 61 12 09 18 01 22 05 f9 ff ff ff 0f => {"code":403,"feature":0,"index":1,"layer":0}
# the greatest parameter
1a 12 78 02 0a 01 61 12 0b 18 01 22 07 09 ff ff ff ff 0f 00 => {"code":404,"feature":0,"index":1,"layer":0}
1a 18 78 02 0a 01 61 12 11 18 01 22 0d 11 80 80 80 80 08 00 ff ff ff ff 0f 00 => {"code":404,"feature":0,"index":3,"layer":0}
# coordinates beyond the greatest and the least
1a 12 78 02 0a 01 61 12 0b 18 01 22 07 09 82 80 80 80 08 00 => {"code":405,"feature":0,"index":1,"layer":0}
1a 12 78 02 0a 01 61 12 0b 18 01 22 07 09 81 80 80 80 08 00 => {"code":405,"feature":0,"index":1,"layer":0}
# a LineTo to where the cursor is
1a 14 78 02 0a 01 61 12 0d 18 03 22 09 09 00 00 12 00 00 0a 0a 0f => {"code":406,"feature":0,"index":5,"layer":0}
# rings: one that ends where it begins, two without area, and a hole that comes first
1a 16 78 02 0a 01 61 12 0f 18 03 22 0b 09 00 00 1a 14 00 00 14 13 13 0f => {"code":501,"feature":0,"layer":0,"ring":0}
1a 14 78 02 0a 01 61 12 0d 18 03 22 09 09 00 00 12 0a 0a 0a 0a 0f => {"code":502,"feature":0,"layer":0,"ring":0}
1a 14 78 02 0a 01 61 12 0d 18 03 22 09 09 00 00 12 14 00 09 00 0f => {"code":502,"feature":0,"layer":0,"ring":0}
1a 16 78 02 0a 01 61 12 0f 18 03 22 0b 09 28 00 1a 00 14 14 00 00 13 0f => {"code":503,"feature":0,"layer":0,"ring":0}
# edges of one ring that cross: also at the greatest coordinates, and past a hole between them
1a 16 78 02 0a 01 61 12 0f 18 03 22 0b 09 00 10 1a 14 0f 00 14 13 13 0f => {"code":504,"feature":0,"first":{"edge":0,"ring":0},"layer":0,"polygon":0,"second":{"edge":2,"ring":0},"w":"180","x":"800","y":"800"}
1a 32 78 02 0a 01 61 12 2b 18 03 22 27 09 ff ff ff ff 07 fc ff ff ff 07 1a fe ff ff ff 0f fb ff ff ff 0f 00 fe ff ff ff 0f fd ff ff ff 0f fd ff ff ff 0f 0f => {"code":504,"feature":0,"first":{"edge":0,"ring":0},"layer":0,"polygon":0,"second":{"edge":2,"ring":0},"w":"9223372026117357571","x":"-6917529020124889090","y":"-6917529020124889090"}
1a 25 78 02 0a 01 61 12 1e 18 03 22 1a 09 00 a0 01 1a c8 01 9f 01 00 c8 01 9f 01 b3 01 0f 09 13 64 12 28 13 00 09 0f => {"code":504,"feature":0,"first":{"edge":0,"ring":0},"layer":0,"polygon":0,"second":{"edge":2,"ring":0},"w":"15400","x":"740000","y":"640000"}
# a hole outside its exterior, and one inside another
1a 21 78 02 0a 01 61 12 1a 18 03 22 16 09 00 00 1a 14 00 00 14 13 00 0f 09 28 13 1a 00 14 14 00 00 13 0f => {"code":505,"feature":0,"layer":0,"polygon":0,"ring":1,"vertex":0}
1a 34 78 02 0a 01 61 12 2d 18 03 22 29 09 00 00 1a c8 01 00 00 c8 01 c7 01 00 0f 09 14 b3 01 1a 00 a0 01 a0 01 00 00 9f 01 0f 09 8b 01 14 1a 00 14 14 00 00 13 0f => {"code":506,"feature":0,"layer":0,"other":1,"polygon":0,"ring":2,"vertex":0}
# the same in a second polygon, whose rings count from the feature's first
1a 21 78 02 0a 01 61 12 1a 18 03 22 16 09 00 00 1a 14 00 00 14 13 00 0f 09 28 03 1a 14 0f 00 14 13 13 0f => {"code":504,"feature":0,"first":{"edge":0,"ring":1},"layer":0,"polygon":1,"second":{"edge":2,"ring":1},"w":"180","x":"4400","y":"800"}
1a 2c 78 02 0a 01 61 12 25 18 03 22 21 09 00 00 1a 14 00 00 14 13 00 0f 09 50 13 1a 14 00 00 14 13 00 0f 09 27 13 1a 00 14 14 00 00 13 0f => {"code":505,"feature":0,"layer":0,"polygon":1,"ring":2,"vertex":0}
1a 3f 78 02 0a 01 61 12 38 18 03 22 34 09 00 00 1a 14 00 00 14 13 00 0f 09 28 13 1a c8 01 00 00 c8 01 c7 01 00 0f 09 14 b3 01 1a 00 a0 01 a0 01 00 00 9f 01 0f 09 8b 01 14 1a 00 14 14 00 00 13 0f => {"code":506,"feature":0,"layer":0,"other":2,"polygon":1,"ring":3,"vertex":0}
# each polygon comes before the next one, and wire faults before all of them
1a 2c 78 02 0a 01 61 12 25 18 03 22 21 09 00 00 1a 14 00 00 14 13 00 0f 09 28 13 1a 00 14 14 00 00 13 0f 09 14 10 1a 14 0f 00 14 13 13 0f => {"code":505,"feature":0,"layer":0,"polygon":0,"ring":1,"vertex":0}
1a 16 78 02 0a 01 61 12 0f 18 03 22 0b 09 00 10 1a 14 0f 00 14 13 13 0f 80 => {"at":24,"code":101,"field":0,"scope":"tile"}
# the second feature of the second layer
1a 0e 78 02 0a 01 61 12 07 18 01 22 03 09 32 22 1a 16 78 02 0a 01 62 12 07 18 01 22 03 09 32 22 12 06 18 01 22 02 09 32 => {"code":403,"feature":1,"index":2,"layer":1}
# wire faults come first, and the rules on layers before those on tags
1a 05 78 01 0a 01 61 80 => {"at":7,"code":101,"field":0,"scope":"tile"}
1a 1c 78 02 0a 01 61 12 0a 12 01 00 18 01 22 03 09 32 22 1a 01 6b 22 02 38 01 22 02 28 05 1a 05 78 01 0a 01 62 => {"code":201,"layer":1}
# in one feature tags come before commands, and each feature before the next one
1a 1c 78 02 0a 01 61 12 0a 12 01 00 18 01 22 03 0a 32 22 1a 01 6b 22 02 38 01 22 02 28 05 => {"code":301,"feature":0,"index":1,"layer":0}
1a 25 78 02 0a 01 61 12 07 18 01 22 03 0a 32 22 12 0a 12 01 00 18 01 22 03 09 32 22 1a 01 6b 22 02 38 01 22 02 28 05 => {"code":401,"feature":0,"index":0,"layer":0}
# both come after the rules on layers, and after wire faults
1a 0c 78 02 0a 01 61 12 05 18 01 22 01 01 1a 05 78 01 0a 01 62 => {"code":201,"layer":1}
1a 0c 78 02 0a 01 61 12 05 18 01 22 01 01 80 => {"at":14,"code":101,"field":0,"scope":"tile"}
"#;

/// The verdict whose line this is.
fn verdict_of(rt: &HostRuntime, line: &str) -> Result<Verdict, Fail> {
    if line == OK {
        return Ok(Verdict::Yes);
    }
    Ok(Verdict::No(fault_from_text(rt.alloc(), line.as_bytes())?))
}

/// A fault that is true of none of the tiles, which have fewer layers.
const OTHER_FAULT: Fault = Fault::Version { layer: 7 };

/// Whether the verdict is what `judge` says of the bytes, and the checker says the same.
fn is_judged(rt: &HostRuntime, bytes: &[u8], verdict: Verdict) -> Result<bool, Fail> {
    let agreement = Agreement {
        verdict,
        is_confirmed: verdict != Verdict::Yes,
        is_other_confirmed: false,
    };
    let said = judge(rt.alloc(), bytes)?;
    Ok(said == verdict && judge_and_confirm(rt.alloc(), bytes, &OTHER_FAULT)? == agreement)
}

/// Whether the line is what `judge` says of the bytes that a text spells, and what the engine
/// writes and answers.
fn is_answer(rt: &HostRuntime, text: &str, line: &str) -> Result<bool, Fail> {
    let bytes = bytes_of(rt, text)?;
    let verdict = verdict_of(rt, line)?;
    Ok(is_judged(rt, &bytes, verdict)? && writes(rt, Engine::Check, &bytes, line))
}

/// How many rows of a table hold before the first that does not, if any.
fn rows_held(rt: &HostRuntime, rows: &str) -> Result<u32, Fail> {
    let mut held = 0_u32;
    for row in rows.lines() {
        if let Some((text, line)) = row.split_once(" => ") {
            if !is_answer(rt, text, line)? {
                break;
            }
            held = held.saturating_add(1);
        }
    }
    Ok(held)
}

#[test]
fn judges_tiles(rt: HostRuntime) -> Result<(), Fail> {
    assert_eq!(rt; rows_held(&rt, TILES)?, 30);
    assert_eq!(rt; rows_held(&rt, FAULTS)?, 75);
    Ok(())
}
