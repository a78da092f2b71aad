//! Versions and names of layers.

use mvt_fault::Fault;
use mvt_tile::{check_layers, read_tile};
use std::alloc::Global;

/// Whether the bytes are a tile, and its layers have this first fault.
fn is_first_fault(alloc: Global, bytes: &[u8], fault: Option<Fault>) -> bool {
    match read_tile(alloc, bytes) {
        Ok(tile) => check_layers(alloc, &tile) == Ok(fault),
        Err(_) => false,
    }
}

fn name(first: usize, second: usize) -> Option<Fault> {
    Some(Fault::Name { first, second })
}

fn version(layer: usize) -> Option<Fault> {
    Some(Fault::Version { layer })
}

#[test]
fn versions_and_names(rt: HostRuntime) {
    for (bytes, fault) in [
        // names of one length, a name that begins another, no name at all
        (
            b"\x1a\x06\x78\x02\x0a\x02ab\x1a\x06\x78\x02\x0a\x02ac\x1a\x05\x78\x02\x0a\x01a\x1a\x04\x78\x02\x0a\x00".as_slice(),
            None,
        ),
        // of several pairs the one with the earliest second layer, however far apart its layers
        // are: c a b d a c
        (
            b"\x1a\x05\x78\x02\x0a\x01c\x1a\x05\x78\x02\x0a\x01a\x1a\x05\x78\x02\x0a\x01b\x1a\x05\x78\x02\x0a\x01d\x1a\x05\x78\x02\x0a\x01a\x1a\x05\x78\x02\x0a\x01c",
            name(1, 4),
        ),
        // three layers of one name
        (
            b"\x1a\x05\x78\x02\x0a\x01a\x1a\x05\x78\x02\x0a\x01a\x1a\x05\x78\x02\x0a\x01a",
            name(0, 1),
        ),
        // versions 2, 0 and 3
        (
            b"\x1a\x05\x78\x02\x0a\x01a\x1a\x05\x78\x00\x0a\x01b\x1a\x05\x78\x03\x0a\x01c",
            version(1),
        ),
        // a layer's version comes before its name
        (
            b"\x1a\x05\x78\x02\x0a\x01a\x1a\x05\x78\x01\x0a\x01a",
            version(1),
        ),
        // a layer that comes later has the later fault, whatever it is
        (
            b"\x1a\x05\x78\x02\x0a\x01a\x1a\x05\x78\x02\x0a\x01a\x1a\x05\x78\x01\x0a\x01b",
            name(0, 1),
        ),
    ] {
        assert!(rt; is_first_fault(rt.alloc(), bytes, fault));
    }
}
