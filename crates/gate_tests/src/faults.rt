use crate::device::bytes_of;
use crate::runs::{Engine, writes};
use mvt_confirm::confirm_with;
use mvt_fault::{Fault, Profile};
use mvt_gate::{CheckOptions, Search, Verdict, faults_quickly, faults_with, judge_with};
use std::test::Fail;

/// Three layers of one name, the second of version 1. The first has a feature with a wrong command,
/// a point, a polygon whose edges cross, and two squares that overlap; the second has the feature
/// with the wrong command.
const LAYERS: &str =
    "1a 44 78 02 0a 01 61 12 07 18 01 22 03 0a 32 22 12 07 18 01 22 03 09 32 22 12 0f 18 03 22 0b 09 00 10 1a 14 0f 00 14 13 13 0f 12 1a 18 03 22 16 09 00 00 1a 14 00 00 14 13 00 0f 09 0a 09 1a 14 00 00 14 13 00 0f 1a 0e 78 01 0a 01 61 12 07 18 01 22 03 0a 32 22 1a 05 78 02 0a 01 61";

/// The lines up to the squares.
const FIRST_LINES: &str = r#"{"code":201,"layer":1}
{"code":202,"first":0,"second":2}
{"code":401,"feature":0,"index":0,"layer":0}
{"code":504,"feature":2,"first":{"edge":0,"ring":0},"layer":0,"polygon":0,"second":{"edge":2,"ring":0},"w":"180","x":"800","y":"800"}
"#;

/// The line of the first square, a vertex of which is inside the second one.
const IN_POLYGON: &str =
    "{\"code\":507,\"feature\":3,\"layer\":0,\"other\":1,\"polygon\":0,\"vertex\":2}\n";

/// The lines of their edges, each where two cross.
const MEETINGS: [&str; 2] = [
    "{\"code\":504,\"feature\":3,\"first\":{\"edge\":1,\"ring\":0},\"layer\":0,\"polygon\":1,\"second\":{\"edge\":0,\"ring\":1},\"w\":\"100\",\"x\":\"1000\",\"y\":\"500\"}\n",
    "{\"code\":504,\"feature\":3,\"first\":{\"edge\":2,\"ring\":0},\"layer\":0,\"polygon\":1,\"second\":{\"edge\":3,\"ring\":1},\"w\":\"100\",\"x\":\"500\",\"y\":\"1000\"}\n",
];

/// The line after it, which is the last.
const LAST_LINE: &str = r#"{"code":401,"feature":0,"index":0,"layer":1}"#;

/// Whether `check` with all faults writes the first lines, then this one, and then the last.
fn lists(
    rt: &HostRuntime,
    options: CheckOptions,
    squares: &str,
    after: &str,
) -> Result<bool, Fail> {
    let bytes = bytes_of(rt, LAYERS)?;
    let lines = format!(in rt.alloc(); "{FIRST_LINES}{squares}{LAST_LINE}{after}")?;
    Ok(writes(rt, Engine::CheckOf(options), &bytes, &lines))
}

/// `check` with all faults.
fn list_of(profile: Profile, search: Search) -> CheckOptions {
    CheckOptions {
        profile,
        search,
        all: true,
        advice: false,
    }
}

#[test]
fn lists_the_first_fault_of_each_layer_and_feature(rt: HostRuntime) -> Result<(), Fail> {
    let by_polygon = list_of(Profile::Polygon, Search::Least);
    assert!(rt; lists(&rt, by_polygon, "", "")?);
    assert!(rt; lists(&rt, list_of(Profile::Polygon, Search::Quick), "", "")?);
    let by_feature = list_of(Profile::Feature, Search::Least);
    assert!(rt; lists(&rt, by_feature, IN_POLYGON, "")?);
    Ok(())
}

#[test]
fn lists_an_edge_where_it_searches_quickly(rt: HostRuntime) -> Result<(), Fail> {
    let options = list_of(Profile::Feature, Search::Quick);
    let [one, other] = MEETINGS;
    assert!(rt; lists(&rt, options, one, "")? || lists(&rt, options, other, "")?);
    Ok(())
}

#[test]
fn writes_the_advice_after_all_faults(rt: HostRuntime) -> Result<(), Fail> {
    let options = CheckOptions {
        advice: true,
        ..list_of(Profile::Polygon, Search::Least)
    };
    // (the last layer has no feature)
    let advice = "\n{\"advice\":[{\"kind\":\"no_feature\",\"layer\":2}]}";
    assert!(rt; lists(&rt, options, "", advice)?);
    Ok(())
}

/// Whether the faults are those of a list: each is confirmed, and the first is the judge's.
fn are_borne_out(
    rt: &HostRuntime,
    profile: Profile,
    bytes: &[u8],
    faults: &[Fault],
) -> Result<bool, Fail> {
    let all_true = faults
        .iter()
        .all(|fault| confirm_with(profile, bytes, fault));
    let verdict = judge_with(rt.alloc(), profile, bytes)?;
    Ok(
        all_true
            && match faults.first() {
                Some(fault) => verdict == Verdict::No(*fault),
                None => verdict == Verdict::Yes,
            },
    )
}

/// Bytes in hexadecimal, and how many faults they have: none, no layer and a valid point; a wire
/// fault with others before it; and the layers above.
const COUNTS: [(&str, usize); 4] = [
    ("", 0),
    ("1a 0e 78 02 0a 01 61 12 07 18 01 22 03 09 32 22", 0),
    ("1a 05 78 01 0a 01 61 1a 05 78 01 0a 01 61 80", 1),
    (LAYERS, 6),
];

#[test]
fn begins_with_the_fault_of_the_verdict(rt: HostRuntime) -> Result<(), Fail> {
    for (text, count) in COUNTS {
        let bytes = bytes_of(&rt, text)?;
        let faults = faults_with(rt.alloc(), Profile::Feature, &bytes)?;
        assert_eq!(rt; faults.len(), count);
        assert!(rt; are_borne_out(&rt, Profile::Feature, &bytes, &faults)?);
        let quick = faults_quickly(rt.alloc(), Profile::Feature, &bytes)?;
        assert_eq!(rt; quick.len(), count);
        assert!(rt; are_borne_out(&rt, Profile::Feature, &bytes, &quick)?);
    }
    Ok(())
}
