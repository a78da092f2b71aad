//! The calls that the judge's rules are made of, one by one on small tiles.
use crate::device::bytes_of;
use mvt_draw::{DrawFault, draw};
use mvt_fault::{Fault, fault_text};
use mvt_tile::{Feature, Layer, ReadFault, check_layers, check_tags, read_tile};
use std::alloc::Global;
use std::test::Fail;

/// Tiles in hexadecimal, and the text of the first fault that the calls find in them, one after the
/// other.
const FAULTS: &str = r#"
# none: a point with a tag
1a 1f 0a 01 61 12 0d 08 07 12 02 00 00 18 01 22 03 09 32 22 1a 01 6b 22 03 0a 01 76 28 80 20 78 02 => none
# a tile that was cut isn't read
1a 0e 78 02 0a 01 61 12 07 18 01 22 03 09 32 => {"at":0,"code":105,"field":3,"scope":"tile"}
# layers: one name, and another version
1a 0e 78 02 0a 01 61 12 07 18 01 22 03 09 32 22 1a 0e 78 02 0a 01 61 12 07 18 01 22 03 09 32 22 => {"code":202,"first":0,"second":1}
1a 0e 78 01 0a 01 61 12 07 18 01 22 03 09 32 22 => {"code":201,"layer":0}
# tags, of a layer with one key and two values: an odd number, no such key, no such value, and a key again
1a 1c 78 02 0a 01 61 12 0a 12 01 00 18 01 22 03 09 32 22 1a 01 6b 22 02 38 01 22 02 28 05 => {"code":301,"feature":0,"index":1,"layer":0}
1a 1d 78 02 0a 01 61 12 0b 12 02 01 00 18 01 22 03 09 32 22 1a 01 6b 22 02 38 01 22 02 28 05 => {"code":302,"feature":0,"index":0,"layer":0}
1a 1d 78 02 0a 01 61 12 0b 12 02 00 02 18 01 22 03 09 32 22 1a 01 6b 22 02 38 01 22 02 28 05 => {"code":303,"feature":0,"index":1,"layer":0}
1a 1f 78 02 0a 01 61 12 0d 12 04 00 00 00 01 18 01 22 03 09 32 22 1a 01 6b 22 02 38 01 22 02 28 05 => {"code":304,"feature":0,"index":2,"layer":0}
# geometry: another command, a count that is not allowed, numbers that end too early, and the greatest parameter
1a 0e 78 02 0a 01 61 12 07 18 01 22 03 0a 32 22 => {"code":401,"feature":0,"index":0,"layer":0}
1a 0c 78 02 0a 01 61 12 05 18 01 22 01 01 => {"code":402,"feature":0,"index":0,"layer":0}
1a 0d 78 02 0a 01 61 12 06 18 01 22 02 09 32 => {"code":403,"feature":0,"index":2,"layer":0}
1a 12 78 02 0a 01 61 12 0b 18 01 22 07 09 ff ff ff ff 0f 00 => {"code":404,"feature":0,"index":1,"layer":0}
"#;

/// The command fault of a feature, which counts as the first of the first layer.
fn geometry_fault(alloc: Global, feature: &Feature) -> Result<Option<Fault>, Fail> {
    match draw(alloc, feature.kind, &feature.geometry) {
        Ok(_) => Ok(None),
        Err(DrawFault::Command { code, index }) => Ok(Some(Fault::Command {
            code,
            layer: 0,
            feature: 0,
            index,
        })),
        Err(fault) => Err(fault.into()),
    }
}

/// The first fault of tags or commands of a layer's first feature.
fn feature_fault(alloc: Global, layer: &Layer<'_>) -> Result<Option<Fault>, Fail> {
    let feature = layer.features.first().ok_or("no feature")?;
    match check_tags(alloc, layer, 0, 0)? {
        Some(fault) => Ok(Some(fault)),
        None => geometry_fault(alloc, feature),
    }
}

/// The fault of the first call that finds one.
fn first_fault(alloc: Global, bytes: &[u8]) -> Result<Option<Fault>, Fail> {
    let tile = match read_tile(alloc, bytes) {
        Ok(tile) => tile,
        Err(ReadFault::Wire(fault)) => return Ok(Some(fault)),
        Err(fault) => return Err(fault.into()),
    };
    match check_layers(alloc, &tile)? {
        Some(fault) => Ok(Some(fault)),
        None => feature_fault(alloc, tile.layers.first().ok_or("no layer")?),
    }
}

/// Whether this is the text of the fault, or `none` where there is none.
fn is_text(alloc: Global, fault: Option<Fault>, text: &str) -> Result<bool, Fail> {
    match fault {
        Some(fault) => Ok(fault_text(alloc, &fault)?.as_str() == text),
        None => Ok(text == "none"),
    }
}

/// How many rows of the table hold before the first that does not, if any.
fn rows_held(rt: &HostRuntime, rows: &str) -> Result<u32, Fail> {
    let mut held = 0_u32;
    for row in rows.lines() {
        if let Some((bytes, text)) = row.split_once(" => ") {
            let fault = first_fault(rt.alloc(), &bytes_of(rt, bytes)?)?;
            if !is_text(rt.alloc(), fault, text)? {
                break;
            }
            held = held.saturating_add(1);
        }
    }
    Ok(held)
}

#[test]
fn finds_each_fault_by_its_call(rt: HostRuntime) -> Result<(), Fail> {
    assert_eq!(rt; rows_held(&rt, FAULTS)?, 12);
    Ok(())
}

#[test]
fn writes_a_fault_of_a_hole(rt: HostRuntime) -> Result<(), Fail> {
    let hole = Fault::HoleInHole {
        layer: 0,
        feature: 0,
        polygon: 0,
        ring: 2,
        vertex: 0,
        other: 1,
    };
    let text = r#"{"code":506,"feature":0,"layer":0,"other":1,"polygon":0,"ring":2,"vertex":0}"#;
    assert!(rt; is_text(rt.alloc(), Some(hole), text)?);
    Ok(())
}
