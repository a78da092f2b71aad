use crate::device::bytes_of;
use crate::runs::{Engine, writes};
use mvt_fault::Profile;
use mvt_gate::advice_text;
use mvt_tile::Advice;
use std::test::Fail;

/// Bytes in hexadecimal, the line of their verdict, and the line of the advice on them where they
/// are a tile.
const ADVISED: &str = r#"
# no layer
 => {"ok":true} => {"advice":[{"kind":"no_layer"}]}
# a layer with no feature and two equal keys
1a 0b 78 02 0a 01 61 1a 01 6b 1a 01 6b => {"ok":true} => {"advice":[{"kind":"no_feature","layer":0},{"first":0,"kind":"equal_key","layer":0,"second":1}]}
# two features of one id
1a 1b 78 02 0a 01 61 12 09 08 07 18 01 22 03 09 32 22 12 09 08 07 18 01 22 03 09 32 22 => {"ok":true} => {"advice":[{"first":0,"kind":"equal_id","layer":0,"second":1}]}
# nothing to advise: one point, and keys of which one begins with the other
1a 0e 78 02 0a 01 61 12 07 18 01 22 03 09 32 22 => {"ok":true} => {"advice":[]}
1a 15 78 02 0a 01 61 12 07 18 01 22 03 09 32 22 1a 01 6b 1a 02 6b 6b => {"ok":true} => {"advice":[]}
# a key three times, among others
1a 1a 78 02 0a 01 61 12 07 18 01 22 03 09 32 22 1a 01 6b 1a 01 6a 1a 01 6b 1a 01 6b => {"ok":true} => {"advice":[{"first":0,"kind":"equal_key","layer":0,"second":2},{"first":0,"kind":"equal_key","layer":0,"second":3}]}
# two ids in turn
1a 3c 78 02 0a 01 61 12 09 08 07 18 01 22 03 09 32 22 12 09 08 08 18 01 22 03 09 32 22 12 09 08 07 18 01 22 03 09 32 22 12 09 08 08 18 01 22 03 09 32 22 12 09 08 07 18 01 22 03 09 32 22 => {"ok":true} => {"advice":[{"first":0,"kind":"equal_id","layer":0,"second":2},{"first":1,"kind":"equal_id","layer":0,"second":3},{"first":0,"kind":"equal_id","layer":0,"second":4}]}
# features with no id, and two with the id 0
1a 2d 78 02 0a 01 61 12 07 18 01 22 03 09 32 22 12 07 18 01 22 03 09 32 22 12 09 08 00 18 01 22 03 09 32 22 12 09 08 00 18 01 22 03 09 32 22 => {"ok":true} => {"advice":[{"first":2,"kind":"equal_id","layer":0,"second":3}]}
# two layers, each with equal keys and equal ids, and a key and an id that are in both
1a 21 78 02 0a 01 61 12 09 08 07 18 01 22 03 09 32 22 12 09 08 07 18 01 22 03 09 32 22 1a 01 6b 1a 01 6b 1a 36 78 02 0a 01 62 12 09 08 07 18 01 22 03 09 32 22 12 07 18 01 22 03 09 32 22 12 07 18 01 22 03 09 32 22 12 09 08 07 18 01 22 03 09 32 22 1a 01 6a 1a 01 6b 1a 01 6a => {"ok":true} => {"advice":[{"first":0,"kind":"equal_key","layer":0,"second":1},{"first":0,"kind":"equal_id","layer":0,"second":1},{"first":0,"kind":"equal_key","layer":1,"second":2},{"first":0,"kind":"equal_id","layer":1,"second":3}]}
# the second of two layers has no feature, and the empty key twice
1a 0e 78 02 0a 01 61 12 07 18 01 22 03 09 32 22 1a 09 78 02 0a 01 62 1a 00 1a 00 => {"ok":true} => {"advice":[{"kind":"no_feature","layer":1},{"first":0,"kind":"equal_key","layer":1,"second":1}]}
# tiles that break a rule: two names alike, a version, a command, and edges that cross
1a 0e 78 02 0a 01 61 12 07 18 01 22 03 09 32 22 1a 0e 78 02 0a 01 61 12 07 18 01 22 03 09 32 22 => {"code":202,"first":0,"second":1} => {"advice":[]}
1a 05 78 01 0a 01 61 => {"code":201,"layer":0} => {"advice":[{"kind":"no_feature","layer":0}]}
1a 14 78 02 0a 01 61 12 07 18 01 22 03 0a 32 22 1a 01 6b 1a 01 6b => {"code":401,"feature":0,"index":0,"layer":0} => {"advice":[{"first":0,"kind":"equal_key","layer":0,"second":1}]}
1a 16 78 02 0a 01 61 12 0f 18 03 22 0b 09 00 10 1a 14 0f 00 14 13 13 0f => {"code":504,"feature":0,"first":{"edge":0,"ring":0},"layer":0,"polygon":0,"second":{"edge":2,"ring":0},"w":"180","x":"800","y":"800"} => {"advice":[]}
# no tiles: no advice, whatever is before the wire fault
1a 0e 78 02 0a 01 61 12 07 18 01 22 03 09 32 => {"at":0,"code":105,"field":3,"scope":"tile"}
80 => {"at":0,"code":101,"field":0,"scope":"tile"}
1a 0b 78 02 0a 01 61 1a 01 6b 1a 01 6b 80 => {"at":13,"code":101,"field":0,"scope":"tile"}
1a 0d 78 02 0a 01 61 1a 01 6b 1a 01 6b 22 00 => {"at":15,"code":109,"field":0,"layer":0,"scope":"value","value":0}
"#;

/// Two squares that overlap, which the profiles judge differently.
const OVERLAP: &str =
    "1a 21 78 02 0a 01 61 12 1a 18 03 22 16 09 00 00 1a 14 00 00 14 13 00 0f 09 0a 09 1a 14 00 00 14 13 00 0f";

/// Whether the engine writes these lines, of which the second may be missing, of the bytes that a
/// text spells.
fn is_answer(rt: &HostRuntime, profile: Profile, text: &str, lines: &str) -> Result<bool, Fail> {
    let bytes = bytes_of(rt, text)?;
    let engine = Engine::AdviseBy(profile);
    Ok(match lines.split_once(" => ") {
        Some((line, advice)) => {
            let both = format!(in rt.alloc(); "{line}\n{advice}")?;
            writes(rt, engine, &bytes, &both)
        }
        None => writes(rt, engine, &bytes, lines),
    })
}

/// How many rows of a table hold before the first that does not, if any.
fn rows_held(rt: &HostRuntime, profile: Profile, rows: &str) -> Result<u32, Fail> {
    let mut held = 0_u32;
    for row in rows.lines() {
        if let Some((text, lines)) = row.split_once(" => ") {
            if !is_answer(rt, profile, text, lines)? {
                break;
            }
            held = held.saturating_add(1);
        }
    }
    Ok(held)
}

#[test]
fn advises_after_the_verdict(rt: HostRuntime) -> Result<(), Fail> {
    for profile in [Profile::Polygon, Profile::Feature] {
        assert_eq!(rt; rows_held(&rt, profile, ADVISED)?, 18);
    }
    Ok(())
}

#[test]
fn advises_by_the_profile(rt: HostRuntime) -> Result<(), Fail> {
    let valid = r#"{"ok":true} => {"advice":[]}"#;
    let crossed =
        r#"{"code":507,"feature":0,"layer":0,"other":1,"polygon":0,"vertex":2} => {"advice":[]}"#;
    assert!(rt; is_answer(&rt, Profile::Polygon, OVERLAP, valid)?);
    assert!(rt; is_answer(&rt, Profile::Feature, OVERLAP, crossed)?);
    Ok(())
}

/// Whether this is the text of the advice.
fn is_text(rt: &HostRuntime, advice: &[Advice], text: &str) -> bool {
    match advice_text(rt.alloc(), advice) {
        Ok(shown) => shown.as_str() == text,
        Err(_) => false,
    }
}

/// Advice of each kind.
const EACH_KIND: [Advice; 4] = [
    Advice::NoLayer,
    Advice::NoFeature { layer: 0 },
    Advice::EqualKey {
        layer: 10,
        first: 2,
        second: 18_446_744_073_709_551_615,
    },
    Advice::EqualId {
        layer: 0,
        first: 11,
        second: 9,
    },
];

#[test]
fn spells_each_kind(rt: HostRuntime) {
    let text =
        r#"{"advice":[{"kind":"no_layer"},{"kind":"no_feature","layer":0},{"first":2,"kind":"equal_key","layer":10,"second":18446744073709551615},{"first":11,"kind":"equal_id","layer":0,"second":9}]}"#;
    assert!(rt; is_text(&rt, &EACH_KIND, text));
    assert!(rt; is_text(&rt, &[], r#"{"advice":[]}"#));
}
