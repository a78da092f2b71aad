use crate::{
    Body, Fields, WireCause, WireCode, leading_varint, read_varint, text, unzigzag32, unzigzag64,
};

// 150 is the example of the Protocol Buffers documentation; the greatest number takes ten bytes.
#[test]
fn varints(rt: HostRuntime) {
    assert!(rt; read_varint(&[0x96, 0x01], 0) == Ok((150, 2)));
    assert!(rt; read_varint(&[0x02, 0xff], 0) == Ok((2, 1)));
    assert!(rt; read_varint(&[0x82, 0x80, 0x00], 0) == Ok((2, 3)));
    // 2^14, at the end and before other bytes, 2^21, 2^28, and the greatest number of 32 bits
    assert!(rt; read_varint(&[0x80, 0x80, 0x01], 0) == Ok((16_384, 3)));
    assert!(rt; read_varint(&[0x80, 0x80, 0x01, 0xff, 0xff], 0) == Ok((16_384, 3)));
    assert!(rt; read_varint(&[0x80, 0x80, 0x80, 0x01, 0xff], 0) == Ok((2_097_152, 4)));
    assert!(rt; read_varint(&[0x80, 0x80, 0x80, 0x80, 0x01], 0) == Ok((268_435_456, 5)));
    assert!(rt; read_varint(&[0xff, 0xff, 0xff, 0xff, 0x0f], 0) == Ok((4_294_967_295, 5)));
    // 2^35, and the greatest number
    let more = &[0x80, 0x80, 0x80, 0x80, 0x80, 0x01];
    assert!(rt; read_varint(more, 0) == Ok((34_359_738_368, 6)));
    let greatest = &[0xff, 0xff, 0xff, 0xff, 0xff, 0xff, 0xff, 0xff, 0xff, 0x01];
    assert!(rt; read_varint(greatest, 0) == Ok((u64::MAX, 10)));
}

// Powers of 2^7 of three to ten bytes, at the end of the bytes and with others after them.
#[test]
fn leading_varints(rt: HostRuntime) {
    let zeros = [0x80; 20];
    let mut bytes = [0xff; 20];
    let mut value = 16_384_u64;
    for last in 2..10 {
        bytes[..last].copy_from_slice(&zeros[..last]);
        bytes[last] = 0x01;
        assert!(rt; leading_varint(&bytes[..last + 1], 0) == Some((value, last + 1)));
        assert!(rt; leading_varint(&bytes, 0) == Some((value, last + 1)));
        assert!(rt; leading_varint(&bytes[..last], 0).is_none());
        value = value.wrapping_mul(128);
    }
    assert!(rt; leading_varint(&zeros, 0).is_none());
}

// The greatest number, as -1 has it, and one more bit: with bytes after it or without.
#[test]
fn greatest_varint(rt: HostRuntime) {
    let mut bytes = [0xff; 20];
    bytes[9] = 0x01;
    assert!(rt; leading_varint(&bytes, 0) == Some((u64::MAX, 10)));
    assert!(rt; leading_varint(&bytes[..10], 0) == Some((u64::MAX, 10)));
    assert!(rt; leading_varint(&bytes[..9], 0).is_none());
    bytes[9] = 0x03;
    assert!(rt; leading_varint(&bytes, 0).is_none());
    assert!(rt; leading_varint(&bytes[..10], 0).is_none());
}

#[test]
fn no_varints(rt: HostRuntime) {
    let long = &[0x82, 0x80, 0x80, 0x80, 0x80, 0x80, 0x80, 0x80, 0x80, 0x02];
    assert!(rt; read_varint(long, 0) == Err(WireCode::TooLong));
    let cut = &[0x80, 0x80, 0x80, 0x80, 0x80, 0x80, 0x80, 0x80, 0x80];
    assert!(rt; read_varint(cut, 0) == Err(WireCode::Ends));
    assert!(rt; read_varint(&[], 0) == Err(WireCode::Ends));
}

/// A field's number, the place of its key, its content (a varint's value, or the length of bytes),
/// and the content's place; of a field of fixed width its length alone.
fn next_of(fields: &mut Fields) -> Option<(u32, usize, u64, usize)> {
    let Some(Ok(field)) = fields.next_field() else {
        return None;
    };
    match field.body {
        Body::Varint { value, at } => Some((field.number, field.at, value, at)),
        Body::Bytes { from, slice } => Some((field.number, field.at, slice.len() as u64, from)),
        Body::Fixed64(part) | Body::Fixed32(part) => {
            Some((field.number, field.at, part.len() as u64, 0))
        }
    }
}

// A layer's fields inside a tile: offsets are places in the tile.
#[test]
fn fields_of_a_layer(rt: HostRuntime) {
    let tile = [
        0x1a, 0x0e, 0x78, 0x02, 0x0a, 0x01, 0x61, 0x12, 0x07, 0x18, 0x01, 0x22, 0x03, 0x09, 0x32,
        0x22,
    ];
    let mut fields = Fields::new(&tile, 2, 16);
    assert!(rt; next_of(&mut fields) == Some((15, 2, 2, 3)));
    assert!(rt; next_of(&mut fields) == Some((1, 4, 1, 6)));
    assert!(rt; next_of(&mut fields) == Some((2, 7, 7, 9)));
    assert!(rt; fields.next_field().is_none());
}

#[test]
fn fixed_widths(rt: HostRuntime) {
    let bytes = [
        0x09, 1, 2, 3, 4, 5, 6, 7, 8, 0x15, 1, 2, 3, 4, 0x15, 1, 2, 3,
    ];
    let mut fields = Fields::new(&bytes, 0, 18);
    assert!(rt; next_of(&mut fields) == Some((1, 0, 8, 0)));
    assert!(rt; next_of(&mut fields) == Some((2, 9, 4, 0)));
    let cut = WireCause {
        code: WireCode::PastEnd,
        at: 14,
        field: 2,
    };
    assert!(rt; matches!(fields.next_field(), Some(Err(cause)) if cause == cut));
    assert!(rt; fields.next_field().is_none());
    assert!(rt; fields.next_field().is_none());
}

#[test]
fn numbers_from_zigzag(rt: HostRuntime) {
    let cases = [
        (0, 0),
        (1, -1),
        (2, 1),
        (3, -2),
        (u32::MAX - 1, i32::MAX),
        (u32::MAX, i32::MIN),
    ];
    for (zigzag, want) in cases {
        assert!(rt; unzigzag32(zigzag) == want);
    }
    let cases = [
        (0, 0),
        (1, -1),
        (2, 1),
        (3, -2),
        (u64::MAX - 1, i64::MAX),
        (u64::MAX, i64::MIN),
    ];
    for (zigzag, want) in cases {
        assert!(rt; unzigzag64(zigzag) == want);
    }
}

// The text of the Protocol Buffers documentation, one with two bytes for a character, and a longer
// one. None in UTF-8: a byte that is in no text, half a character, a surrogate.
#[test]
fn texts(rt: HostRuntime) {
    let long = "The quick brown fox jumps over the lazy dog, and then it jumps back: \u{e9}.";
    assert!(rt; text(b"testing") == Some("testing"));
    assert!(rt; text(&[0xc3, 0xa9]) == Some("\u{e9}"));
    assert!(rt; text(long.as_bytes()) == Some(long));
    assert!(rt; text(&[]) == Some(""));
    assert!(rt; text(&[0xff]).is_none());
    assert!(rt; text(&[0x61, 0xc3]).is_none());
    assert!(rt; text(&[0xed, 0xa0, 0x80]).is_none());
}
