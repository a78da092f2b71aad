//! Advice on a tile.

use mvt_tile::{Advice, advise, read_tile};
use std::alloc::Global;

/// Whether the bytes are a tile, and this is the advice on it.
fn is_advice(alloc: Global, bytes: &[u8], advice: &[Advice]) -> bool {
    let Ok(tile) = read_tile(alloc, bytes) else {
        return false;
    };
    match advise(alloc, &tile) {
        Ok(found) => found.as_slice() == advice,
        Err(_) => false,
    }
}

fn no_feature(layer: usize) -> Advice {
    Advice::NoFeature { layer }
}

fn equal_key(layer: usize, first: usize, second: usize) -> Advice {
    Advice::EqualKey {
        layer,
        first,
        second,
    }
}

fn equal_id(layer: usize, first: usize, second: usize) -> Advice {
    Advice::EqualId {
        layer,
        first,
        second,
    }
}

#[test]
fn layers_and_keys(rt: HostRuntime) {
    for (bytes, advice) in [
        (b"".as_slice(), [Advice::NoLayer].as_slice()),
        // a layer with no feature: two equal keys
        (
            b"\x1a\x0b\x78\x02\x0a\x01a\x1a\x01k\x1a\x01k",
            &[no_feature(0), equal_key(0, 0, 1)],
        ),
        // three equal keys
        (
            b"\x1a\x0e\x78\x02\x0a\x01a\x1a\x01k\x1a\x01k\x1a\x01k",
            &[no_feature(0), equal_key(0, 0, 1), equal_key(0, 0, 2)],
        ),
        // equal keys between each other: k j k j k
        (
            b"\x1a\x14\x78\x02\x0a\x01a\x1a\x01k\x1a\x01j\x1a\x01k\x1a\x01j\x1a\x01k",
            &[
                no_feature(0),
                equal_key(0, 0, 2),
                equal_key(0, 1, 3),
                equal_key(0, 0, 4),
            ],
        ),
        // the first eight bytes are the same, and all of them in two keys alone
        (
            b"\x1a\x24\x78\x02\x0a\x01a\x1a\x08abcdefgh\x1a\x09abcdefghi\x1a\x08abcdefgh",
            &[no_feature(0), equal_key(0, 0, 2)],
        ),
        // a key with a zero byte more; a layer with one key
        (
            b"\x1a\x0c\x78\x02\x0a\x01a\x1a\x01k\x1a\x02k\x00\x1a\x08\x78\x02\x0a\x01b\x1a\x01k",
            &[no_feature(0), no_feature(1)],
        ),
        // keys that are the empty text
        (
            b"\x1a\x09\x78\x02\x0a\x01a\x1a\x00\x1a\x00",
            &[no_feature(0), equal_key(0, 0, 1)],
        ),
    ] {
        assert!(rt; is_advice(rt.alloc(), bytes, advice));
    }
}

#[test]
fn ids(rt: HostRuntime) {
    for (bytes, advice) in [
        // two features of one id
        (
            b"\x1a\x1b\x78\x02\x0a\x01a\x12\x09\x08\x07\x18\x01\x22\x03\x09\x32\x22\x12\x09\x08\x07\x18\x01\x22\x03\x09\x32\x22".as_slice(),
            [equal_id(0, 0, 1)].as_slice(),
        ),
        // none, 7, none, 7
        (
            b"\x1a\x2d\x78\x02\x0a\x01a\x12\x07\x18\x01\x22\x03\x09\x32\x22\x12\x09\x08\x07\x18\x01\x22\x03\x09\x32\x22\x12\x07\x18\x01\x22\x03\x09\x32\x22\x12\x09\x08\x07\x18\x01\x22\x03\x09\x32\x22",
            &[equal_id(0, 1, 3)],
        ),
        // 0 and none
        (
            b"\x1a\x19\x78\x02\x0a\x01a\x12\x09\x08\x00\x18\x01\x22\x03\x09\x32\x22\x12\x07\x18\x01\x22\x03\x09\x32\x22",
            &[],
        ),
        // none and none
        (
            b"\x1a\x17\x78\x02\x0a\x01a\x12\x07\x18\x01\x22\x03\x09\x32\x22\x12\x07\x18\x01\x22\x03\x09\x32\x22",
            &[],
        ),
        // two layers: keys k k and ids 7 7; keys j k k and ids 5, none, 5
        (
            b"\x1a\x21\x78\x02\x0a\x01a\x1a\x01k\x1a\x01k\x12\x09\x08\x07\x18\x01\x22\x03\x09\x32\x22\x12\x09\x08\x07\x18\x01\x22\x03\x09\x32\x22\x1a\x2d\x78\x02\x0a\x01b\x1a\x01j\x1a\x01k\x1a\x01k\x12\x09\x08\x05\x18\x01\x22\x03\x09\x32\x22\x12\x07\x18\x01\x22\x03\x09\x32\x22\x12\x09\x08\x05\x18\x01\x22\x03\x09\x32\x22",
            &[
                equal_key(0, 0, 1),
                equal_id(0, 0, 1),
                equal_key(1, 1, 2),
                equal_id(1, 0, 2),
            ],
        ),
    ] {
        assert!(rt; is_advice(rt.alloc(), bytes, advice));
    }
}
