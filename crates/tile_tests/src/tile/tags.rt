//! Tags of features.

use mvt_fault::{Fault, TagCode};
use mvt_tile::{Feature, Kind, Layer, Value, check_tags, read_tile};
use std::alloc::{AllocError, Global};

/// Whether this feature of a layer has this fault of tags, where the layer counts as number 4.
fn is_fault(alloc: Global, layer: &Layer<'_>, feature: usize, fault: Option<Fault>) -> bool {
    feature < layer.features.len() && check_tags(alloc, layer, 4, feature) == Ok(fault)
}

/// Whether the bytes are a tile, and the first two features of its first layer have no fault of
/// tags, and this one.
fn has_second_fault(alloc: Global, bytes: &[u8], fault: Fault) -> bool {
    match read_tile(alloc, bytes) {
        Ok(tile) => match tile.layers.first() {
            Some(layer) => {
                is_fault(alloc, layer, 0, None) && is_fault(alloc, layer, 1, Some(fault))
            }
            None => false,
        },
        Err(_) => false,
    }
}

// A layer of one key and two values, with a pair that is right in its first feature, and a value
// out of range in its second.
#[test]
fn tags_of_the_second_feature(rt: HostRuntime) {
    let bytes =
        b"\x1a\x2a\x78\x02\x0a\x01\x62\x12\x0b\x12\x02\x00\x00\x18\x01\x22\x03\x09\x32\x22\x12\x0b\x12\x02\x00\x02\x18\x01\x22\x03\x09\x32\x22\x1a\x01\x6b\x22\x02\x38\x01\x22\x02\x28\x05";
    let fault = Fault::Tag {
        code: TagCode::NoValue,
        layer: 4,
        feature: 1,
        index: 1,
    };
    assert!(rt; has_second_fault(rt.alloc(), bytes, fault));
}

/// A layer of so many keys and values, with one feature that has these tags.
fn layer_of_tags(
    alloc: Global,
    keys: usize,
    values: usize,
    tags: &[u32],
) -> Result<Layer<'static>, AllocError> {
    let mut layer = Layer {
        version: 2,
        name: "",
        features: Vec::new(alloc),
        keys: Vec::new(alloc),
        values: Vec::new(alloc),
        extent: 4096,
    };
    for _ in 0..keys {
        layer.keys.push("")?;
    }
    for _ in 0..values {
        layer.values.push(Value::Bool(true))?;
    }
    layer.features.push(Feature {
        id: None,
        tags: Vec::from_slice(alloc, tags)?,
        kind: Kind::Unknown,
        geometry: Vec::new(alloc),
    })?;
    Ok(layer)
}

#[test]
fn lists_of_tags(rt: HostRuntime) -> Result<(), AllocError> {
    for (tags, keys, values, code, index) in [
        // an odd length hides all else
        ([7, 7, 7].as_slice(), 1, 2, TagCode::OddLength, 3),
        // a key out of range, twice
        (&[0, 0, 1, 0, 1, 0], 1, 2, TagCode::NoKey, 2),
        // a value out of range before a key that comes again
        (&[0, 2, 0, 0], 1, 2, TagCode::NoValue, 1),
        // the same after pairs of greater indices, and before one that is greater yet
        (
            &[0, 500, 1, 20_000, 2, 0, 3, 900],
            5,
            20_000,
            TagCode::NoValue,
            3,
        ),
        // an odd length after a pair of greater indices
        (&[200, 0, 1], 300, 1, TagCode::OddLength, 3),
        // a key that comes again far away
        (&[999, 0, 0, 0, 5, 0, 999, 0], 1000, 1, TagCode::Repeated, 6),
    ] {
        let layer = layer_of_tags(rt.alloc(), keys, values, tags)?;
        let fault = Fault::Tag {
            code,
            layer: 4,
            feature: 0,
            index,
        };
        assert!(rt; is_fault(rt.alloc(), &layer, 0, Some(fault)));
    }
    Ok(())
}
