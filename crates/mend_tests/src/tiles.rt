//! Tiles that are handed back, and what is said of them.

use mvt_fault::{CommandCode, Fault, Profile, RingCode};
use mvt_gate::{Outcome, Tally, Verdict, judge_with};
use mvt_mender::{FeatureChange, Mending, WhatChanged, mend, mend_stream, mend_with, report_text};
use mvt_wire::{Scope, WireCode};
use std::alloc::{AllocError, Global};
use std::test::Fail;

/// A point.
const POINT: &[u8] = b"\x1a\x0e\x78\x02\x0a\x01\x61\x12\x07\x18\x01\x22\x03\x09\x32\x22";

/// A ring whose edges cross: (0,8), (10,0), (10,10), (0,0).
const BOW: &[u8] =
    b"\x1a\x16\x78\x02\x0a\x01\x61\x12\x0f\x18\x03\x22\x0b\x09\x00\x10\x1a\x14\x0f\x00\x14\x13\x13\x0f";

/// A square that is wound as a hole is: (20,0), (20,10), (30,10), (30,0).
const BACKWARDS: &[u8] =
    b"\x1a\x16\x78\x02\x0a\x01\x61\x12\x0f\x18\x03\x22\x0b\x09\x28\x00\x1a\x00\x14\x14\x00\x00\x13\x0f";

/// A ring on one line, which has no area: (0,0), (5,5), (10,10).
const FLAT: &[u8] =
    b"\x1a\x14\x78\x02\x0a\x01\x61\x12\x0d\x18\x03\x22\x09\x09\x00\x00\x12\x0a\x0a\x0a\x0a\x0f";

/// The layer of these tiles without a feature.
const EMPTY_LAYER: &[u8] = b"\x1a\x05\x78\x02\x0a\x01\x61";

/// Whether mending hands back a valid tile with one change.
fn comes_out_valid(alloc: Global, profile: Profile, bytes: &[u8]) -> Result<bool, AllocError> {
    let Mending::Mended(mended) = mend_with(alloc, profile, false, bytes)? else {
        return Ok(false);
    };
    let is_valid = judge_with(alloc, profile, &mended.bytes)? == Verdict::Yes;
    let again = mend_with(alloc, profile, false, &mended.bytes)?;
    Ok(is_valid && mended.changes.len() == 1 && again == Mending::Valid)
}

#[test]
fn valid_tiles_stay(rt: HostRuntime) -> Result<(), Fail> {
    for bytes in [b"".as_slice(), POINT, EMPTY_LAYER] {
        assert!(rt; mend(rt.alloc(), false, bytes)? == Mending::Valid);
        assert!(rt; mend_with(rt.alloc(), Profile::Feature, true, bytes)? == Mending::Valid);
    }
    Ok(())
}

#[test]
fn rings_come_out_valid(rt: HostRuntime) -> Result<(), Fail> {
    for bytes in [BOW, BACKWARDS] {
        for profile in [Profile::Polygon, Profile::Feature] {
            assert!(rt; comes_out_valid(rt.alloc(), profile, bytes)?);
        }
    }
    Ok(())
}

// A hole by itself is turned: its vertices stay, and its doubled area is 200 in place of -200.
#[test]
fn tells_what_was_changed(rt: HostRuntime) -> Result<(), Fail> {
    let Mending::Mended(mended) = mend(rt.alloc(), false, BACKWARDS)? else {
        return Err("not mended".into());
    };
    let text = report_text(rt.alloc(), &mended.changes)?;
    assert!(rt;
        text.as_str()
            == r#"{"changed":[{"area":["-200","200"],"crossings":0,"cuts":0,"feature":0,"layer":0,"polygons":[0,1],"vertices":[4,4],"what":"mended"}],"ok":true}"#
    );
    Ok(())
}

// An input without its last byte is no tile.
#[test]
fn refuses_other_faults(rt: HostRuntime) -> Result<(), Fail> {
    let short = Fault::Wire {
        code: WireCode::PastEnd,
        scope: Scope::Tile,
        at: 0,
        field: 3,
    };
    assert!(rt; mend(rt.alloc(), true, &POINT[..15])? == Mending::Refused(short));
    // a point with a LineTo
    let other = Fault::Command {
        code: CommandCode::OtherCommand,
        layer: 0,
        feature: 0,
        index: 0,
    };
    let line = b"\x1a\x0e\x78\x02\x0a\x01\x61\x12\x07\x18\x01\x22\x03\x0a\x32\x22";
    assert!(rt; mend(rt.alloc(), true, line)? == Mending::Refused(other));
    Ok(())
}

#[test]
fn leaves_out_what_is_not_mended(rt: HostRuntime) -> Result<(), Fail> {
    let fault = Fault::Ring {
        code: RingCode::NoArea,
        layer: 0,
        feature: 0,
        ring: 0,
    };
    assert!(rt; mend(rt.alloc(), false, FLAT)? == Mending::Refused(fault));
    let Mending::Mended(mended) = mend(rt.alloc(), true, FLAT)? else {
        return Err("not mended".into());
    };
    assert!(rt; mended.bytes.as_slice() == EMPTY_LAYER);
    let dropped = FeatureChange {
        layer: 0,
        feature: 0,
        what: WhatChanged::Dropped,
    };
    assert!(rt; mended.changes.as_slice() == [dropped].as_slice());
    Ok(())
}

/// Whether the engine writes this tile, and these lines to the devices for lines.
fn writes(
    rt: &HostRuntime,
    drop_unmended: bool,
    bytes: &[u8],
    tile: &[u8],
    told: &str,
    named: &str,
) -> Result<bool, Fail> {
    let mut input = bytes;
    let mut out = Vec::new(rt.alloc());
    let mut report = Vec::new(rt.alloc());
    let mut errors = Vec::new(rt.alloc());
    let outcome = mend_stream(
        rt.alloc(),
        Profile::Polygon,
        drop_unmended,
        &mut Tally::new(&mut input),
        &mut Tally::new(&mut out),
        &mut Tally::new(&mut report),
        &mut Tally::new(&mut errors),
    )?;
    let is_valid = outcome == Outcome::Yes;
    Ok(
        is_valid == named.is_empty()
            && out.as_slice() == tile
            && report.as_slice() == told.as_bytes()
            && errors.as_slice() == named.as_bytes(),
    )
}

#[test]
fn writes_the_tile_and_the_line(rt: HostRuntime) -> Result<(), Fail> {
    assert!(rt;
        writes(
            &rt,
            false,
            POINT,
            POINT,
            "{\"changed\":[],\"ok\":true}\n",
            ""
        )?
    );
    let named = "{\"code\":502,\"feature\":0,\"layer\":0,\"ring\":0}\n";
    assert!(rt; writes(&rt, false, FLAT, b"", "", named)?);
    let told = "{\"changed\":[{\"feature\":0,\"layer\":0,\"what\":\"dropped\"}],\"ok\":true}\n";
    assert!(rt; writes(&rt, true, FLAT, EMPTY_LAYER, told, "")?);
    Ok(())
}
