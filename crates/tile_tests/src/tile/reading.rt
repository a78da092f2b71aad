//! What is read of a tile.

use mvt_tile::read_tile;
use std::alloc::{AllocError, Global};
use std::test::Fail;

/// Whether what is read in the bytes is written like this by the derived `Debug`.
fn is_read_as(alloc: Global, bytes: &[u8], text: &str) -> Result<bool, AllocError> {
    let read = format!(in alloc; "{:?}", read_tile(alloc, bytes))?;
    Ok(read.as_str() == text)
}

// Points of a layer named `a`.
#[test]
fn points(rt: HostRuntime) -> Result<(), Fail> {
    for (bytes, text) in [
        // tags of two packed, then one single, then one single of two bytes; the type and the
        // geometry between them; an id of seven
        (
            b"\x1a\x19\x12\x12\x08\x07\x12\x02\x03\x05\x18\x01\x10\x07\x22\x03\x09\x32\x22\x10\x81\x01\x78\x02\x0a\x01\x61".as_slice(),
            r#"Ok(Tile { layers: [Layer { version: 2, name: "a", features: [Feature { id: Some(7), tags: [3, 5, 7, 129], kind: Point, geometry: [9, 50, 34] }], keys: [], values: [], extent: 4096 }] })"#,
        ),
        // packed tags of one, two and five bytes, and an empty list; no id
        (
            b"\x1a\x1a\x12\x13\x18\x01\x22\x03\x09\x32\x22\x12\x08\x01\xac\x02\xff\xff\xff\xff\x0f\x12\x00\x78\x02\x0a\x01\x61",
            r#"Ok(Tile { layers: [Layer { version: 2, name: "a", features: [Feature { id: None, tags: [1, 300, 4294967295], kind: Point, geometry: [9, 50, 34] }], keys: [], values: [], extent: 4096 }] })"#,
        ),
        // an id of 2^32: it has 64 bits
        (
            b"\x1a\x14\x12\x0d\x08\x80\x80\x80\x80\x10\x18\x01\x22\x03\x09\x32\x22\x78\x02\x0a\x01\x61",
            r#"Ok(Tile { layers: [Layer { version: 2, name: "a", features: [Feature { id: Some(4294967296), tags: [], kind: Point, geometry: [9, 50, 34] }], keys: [], values: [], extent: 4096 }] })"#,
        ),
    ] {
        assert!(rt; is_read_as(rt.alloc(), bytes, text)?);
    }
    Ok(())
}

// Two layers. The first has an extent, two keys, a field of an unknown number, and three features:
// one with two lists of tags, a line and a polygon.
#[test]
fn two_layers(rt: HostRuntime) -> Result<(), Fail> {
    let bytes =
        b"\x1a\x3f\x0a\x01\x61\x78\x02\x28\x80\x04\x1a\x01\x6b\x1a\x01\x6c\x80\x01\x05\x12\x0f\x08\x07\x12\x01\x01\x12\x01\x00\x18\x01\x22\x03\x09\x32\x22\x12\x0c\x18\x02\x22\x08\x09\x04\x04\x12\x00\x10\x10\x00\x12\x0d\x18\x03\x22\x09\x09\x06\x0c\x12\x0a\x0c\x18\x2c\x0f\x1a\x05\x0a\x01\x62\x78\x02";
    let text =
        r#"Ok(Tile { layers: [Layer { version: 2, name: "a", features: [Feature { id: Some(7), tags: [1, 0], kind: Point, geometry: [9, 50, 34] }, Feature { id: None, tags: [], kind: LineString, geometry: [9, 4, 4, 18, 0, 16, 16, 0] }, Feature { id: None, tags: [], kind: Polygon, geometry: [9, 6, 12, 18, 10, 12, 24, 44, 15] }], keys: ["k", "l"], values: [], extent: 512 }, Layer { version: 2, name: "b", features: [], keys: [], values: [], extent: 4096 }] })"#;
    assert!(rt; is_read_as(rt.alloc(), bytes, text)?);
    Ok(())
}

// Each kind of value: a text, the floats 1.0 of 32 and of 64 bits, the int -1 in ten bytes, the
// uint 3, the sint of zigzag number 3, and both truth values.
#[test]
fn values(rt: HostRuntime) -> Result<(), Fail> {
    let bytes =
        b"\x1a\x39\x0a\x01\x61\x78\x02\x22\x03\x0a\x01\x76\x22\x05\x15\x00\x00\x80\x3f\x22\x09\x19\x00\x00\x00\x00\x00\x00\xf0\x3f\x22\x0b\x20\xff\xff\xff\xff\xff\xff\xff\xff\xff\x01\x22\x02\x28\x03\x22\x02\x30\x03\x22\x02\x38\x01\x22\x02\x38\x00";
    let text =
        r#"Ok(Tile { layers: [Layer { version: 2, name: "a", features: [], keys: [], values: [Text("v"), Float([0, 0, 128, 63]), Double([0, 0, 0, 0, 0, 0, 240, 63]), Int(-1), Uint(3), Sint(-2), Bool(true), Bool(false)], extent: 4096 }] })"#;
    assert!(rt; is_read_as(rt.alloc(), bytes, text)?);
    Ok(())
}
