//! Tiles with changes, byte for byte.

use mvt_splice::{Change, are_in_order, splice};
use mvt_tile::wire_fault;
use std::alloc::{AllocError, Global};
use std::test::Fail;

/// A layer with version 2, the name "a" and the point (25, 17).
const POINT: &[u8] = b"\x1a\x0e\x78\x02\x0a\x01a\x12\x07\x18\x01\x22\x03\x09\x32\x22";

/// The same with the points (5, 7) and (3, 2).
const TWO_POINTS: &[u8] = b"\x1a\x10\x78\x02\x0a\x01a\x12\x09\x18\x01\x22\x05\x11\x0a\x0e\x03\x09";

/// The numbers of its geometry.
const TWO_POINTS_NUMBERS: &[u32] = &[17, 10, 14, 3, 9];

/// A layer with the point (25, 17), the key "k", the same point with a tag and with its geometry in
/// fields of one number each, the value 7, a field 99 and the extent 4096; and a field 4 of the tile.
const MIXED: &[u8] = b"\x1a\x2a\x78\x02\x0a\x01a\x12\x07\x18\x01\x22\x03\x09\x32\x22\x1a\x01k\
    \x12\x0c\x12\x02\x00\x00\x18\x01\x20\x09\x20\x32\x20\x22\x22\x02\x28\x07\x9a\x06\x01\xff\
    \x28\x80\x20\x25\x01\x02\x03\x04";

/// The same without its first feature, and with two points in place of the second.
const MIXED_AFTER: &[u8] = b"\x1a\x22\x78\x02\x0a\x01a\x1a\x01k\
    \x12\x0d\x12\x02\x00\x00\x18\x01\x22\x05\x11\x0a\x0e\x03\x09\x22\x02\x28\x07\x9a\x06\x01\xff\
    \x28\x80\x20\x25\x01\x02\x03\x04";

/// The point with its length in two bytes.
const POINT_OF_LONG_LENGTH: &[u8] =
    b"\x1a\x8e\x00\x78\x02\x0a\x01a\x12\x07\x18\x01\x22\x03\x09\x32\x22";

/// Whether the bytes are a tile that becomes other bytes by changes in order.
fn becomes(alloc: Global, bytes: &[u8], changes: &[Change], expected: &[u8]) -> bool {
    if let Some(_fault) = wire_fault(bytes) {
        return false;
    }
    if !are_in_order(changes) {
        return false;
    }
    match splice(alloc, bytes, changes) {
        Ok(out) => out.as_slice() == expected,
        Err(_refused) => false,
    }
}

/// A feature with other numbers.
fn redraw(
    alloc: Global,
    layer: usize,
    feature: usize,
    numbers: &[u32],
) -> Result<Change, AllocError> {
    let geometry = Some(Vec::from_slice(alloc, numbers)?);
    Ok(Change {
        layer,
        feature,
        geometry,
    })
}

/// A feature that is left out.
fn leave_out(layer: usize, feature: usize) -> Change {
    Change {
        layer,
        feature,
        geometry: None,
    }
}

#[test]
fn one_geometry(rt: HostRuntime) -> Result<(), Fail> {
    let alloc = rt.alloc();
    let changes = [redraw(alloc, 0, 0, TWO_POINTS_NUMBERS)?];
    assert!(rt; becomes(alloc, POINT, &changes, TWO_POINTS));
    assert!(rt; becomes(alloc, POINT, &[], POINT));
    Ok(())
}

#[test]
fn numbers_of_several_bytes(rt: HostRuntime) -> Result<(), Fail> {
    let alloc = rt.alloc();
    let changes = [redraw(alloc, 0, 0, &[9, 300, u32::MAX])?];
    let expected =
        b"\x1a\x13\x78\x02\x0a\x01a\x12\x0c\x18\x01\x22\x08\x09\xac\x02\xff\xff\xff\xff\x0f";
    assert!(rt; becomes(alloc, POINT, &changes, expected));
    Ok(())
}

#[test]
fn all_else_is_copied(rt: HostRuntime) -> Result<(), Fail> {
    let alloc = rt.alloc();
    let changes = [leave_out(0, 0), redraw(alloc, 0, 1, TWO_POINTS_NUMBERS)?];
    assert!(rt; becomes(alloc, MIXED, &changes, MIXED_AFTER));
    // neither layer 1 nor feature 2 of layer 0 is there
    let changes = [leave_out(0, 2), leave_out(1, 0)];
    assert!(rt; becomes(alloc, MIXED, &changes, MIXED));
    Ok(())
}

#[test]
fn another_layer_is_copied(rt: HostRuntime) -> Result<(), Fail> {
    let alloc = rt.alloc();
    let mut bytes = Vec::from_slice(alloc, POINT_OF_LONG_LENGTH)?;
    bytes.extend_from_slice(POINT)?;
    let mut expected = Vec::from_slice(alloc, POINT_OF_LONG_LENGTH)?;
    expected.extend_from_slice(TWO_POINTS)?;
    let changes = [redraw(alloc, 1, 0, TWO_POINTS_NUMBERS)?];
    assert!(rt; becomes(alloc, &bytes, &changes, &expected));
    Ok(())
}

#[test]
fn order_of_changes(rt: HostRuntime) {
    assert!(rt; are_in_order(&[]));
    assert!(rt; are_in_order(&[leave_out(0, 3), leave_out(1, 0), leave_out(1, 1)]));
    assert!(rt; !are_in_order(&[leave_out(1, 0), leave_out(0, 1)]));
    assert!(rt; !are_in_order(&[leave_out(0, 1), leave_out(0, 1)]));
}
