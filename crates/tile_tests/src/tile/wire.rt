//! Wire faults that the rows of the gate's own tests don't have (`gate_tests`).

use mvt_fault::{Fault, Scope};
use mvt_tile::wire_fault;
use mvt_wire::WireCode;

#[test]
fn no_fault(rt: HostRuntime) {
    for bytes in [
        // varints in fields of numbers that the message doesn't know: 6 in a layer, 8 in a value
        // and 5 in a feature
        b"\x1a\x07\x78\x02\x0a\x01\x61\x30\x05".as_slice(),
        b"\x1a\x0b\x78\x02\x0a\x01\x61\x22\x04\x38\x01\x40\x05",
        b"\x1a\x10\x78\x02\x0a\x01\x61\x12\x09\x18\x01\x22\x03\x09\x32\x22\x28\x05",
        // ten bytes for a 2 in packed numbers
        b"\x1a\x15\x78\x02\x0a\x01\x61\x12\x0e\x18\x01\x22\x0a\x82\x80\x80\x80\x80\x80\x80\x80\x80\x00",
    ] {
        assert!(rt; wire_fault(bytes).is_none());
    }
}

/// Whether this is the first fault of the bytes.
fn has_fault(bytes: &[u8], code: WireCode, scope: Scope, at: usize, field: u32) -> bool {
    let fault = Fault::Wire {
        code,
        scope,
        at,
        field,
    };
    wire_fault(bytes) == Some(fault)
}

#[test]
fn one_fault(rt: HostRuntime) {
    for (bytes, code, scope, at, field) in [
        // the text of a value that isn't UTF-8
        (
            b"\x1a\x0a\x78\x02\x0a\x01\x61\x22\x03\x0a\x01\xff".as_slice(),
            WireCode::NotUtf8,
            Scope::Value(0, 0),
            9,
            1,
        ),
        // two fields of a value, of two numbers and of one
        (
            b"\x1a\x0b\x78\x02\x0a\x01\x61\x22\x04\x28\x05\x30\x05",
            WireCode::OneField,
            Scope::Value(0, 0),
            13,
            0,
        ),
        (
            b"\x1a\x0b\x78\x02\x0a\x01\x61\x22\x04\x28\x05\x28\x05",
            WireCode::Again,
            Scope::Value(0, 0),
            11,
            5,
        ),
        // a geometry of four bytes, and one number of 2^32
        (
            b"\x1a\x0e\x78\x02\x0a\x01\x61\x12\x07\x18\x01\x25\x09\x32\x22\x00",
            WireCode::OtherType,
            Scope::Feature(0, 0),
            11,
            4,
        ),
        (
            b"\x1a\x0f\x78\x02\x0a\x01\x61\x12\x08\x18\x01\x20\x80\x80\x80\x80\x10",
            WireCode::OutOfRange,
            Scope::Feature(0, 0),
            12,
            4,
        ),
        // packed numbers: 2^32 after another number; a tenth byte above 1; an end at the fifth byte
        // of a number
        (
            b"\x1a\x11\x78\x02\x0a\x01\x61\x12\x0a\x18\x01\x22\x06\x09\x80\x80\x80\x80\x10",
            WireCode::OutOfRange,
            Scope::Feature(0, 0),
            14,
            4,
        ),
        (
            b"\x1a\x15\x78\x02\x0a\x01\x61\x12\x0e\x18\x01\x22\x0a\x82\x80\x80\x80\x80\x80\x80\x80\x80\x02",
            WireCode::TooLong,
            Scope::Feature(0, 0),
            13,
            4,
        ),
        (
            b"\x1a\x10\x78\x02\x0a\x01\x61\x12\x09\x18\x01\x22\x05\x80\x80\x80\x80\x80",
            WireCode::Ends,
            Scope::Feature(0, 0),
            13,
            4,
        ),
    ] {
        assert!(rt; has_fault(bytes, code, scope, at, field));
    }
}

// The tile's own faults come first, then layer by layer the layer's own, its values', its
// features'.
#[test]
fn first_of_several(rt: HostRuntime) {
    for (bytes, code, scope, at, field) in [
        // a layer that isn't whole, whose version occurs twice
        (
            b"\x1a\x07\x78\x02\x78\x02\x0a\x05\x61".as_slice(),
            WireCode::PastEnd,
            Scope::Layer(0),
            6,
            1,
        ),
        // type 4 in a feature, and after the layer a layer that is a number
        (
            b"\x1a\x0e\x78\x02\x0a\x01\x61\x12\x07\x18\x04\x22\x03\x09\x32\x22\x18\x05",
            WireCode::OtherType,
            Scope::Tile,
            16,
            3,
        ),
        // type 4 in a feature, and the layer has no name
        (
            b"\x1a\x0b\x78\x02\x12\x07\x18\x04\x22\x03\x09\x32\x22",
            WireCode::Missing,
            Scope::Layer(0),
            13,
            1,
        ),
        // type 4 in a feature, and after it an empty value
        (
            b"\x1a\x10\x78\x02\x0a\x01\x61\x12\x07\x18\x04\x22\x03\x09\x32\x22\x22\x00",
            WireCode::OneField,
            Scope::Value(0, 0),
            18,
            0,
        ),
        // type 4 in a feature of the first layer, and the second layer has no name
        (
            b"\x1a\x0e\x78\x02\x0a\x01\x61\x12\x07\x18\x04\x22\x03\x09\x32\x22\x1a\x02\x78\x02",
            WireCode::OutOfRange,
            Scope::Feature(0, 0),
            10,
            3,
        ),
        // the second feature has no geometry
        (
            b"\x1a\x12\x78\x02\x0a\x01\x61\x12\x07\x18\x01\x22\x03\x09\x32\x22\x12\x02\x18\x01",
            WireCode::Missing,
            Scope::Feature(0, 1),
            20,
            4,
        ),
    ] {
        assert!(rt; has_fault(bytes, code, scope, at, field));
    }
}
