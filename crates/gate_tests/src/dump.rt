use crate::runs::{Engine, rows_held};
use mvt_gate::dump_text;
use mvt_tile::read_tile;
use std::test::Fail;

/// Bytes in hexadecimal, and the line of what they hold or of their first wire fault.
const DUMPS: &str = r#"
 => {"layers":[]}
# the fields of a layer in the order of usual writers
1a 1f 0a 01 61 12 0d 08 07 12 02 00 00 18 01 22 03 09 32 22 1a 01 6b 22 03 0a 01 76 28 80 20 78 02 => {"layers":[{"extent":4096,"features":[{"geometry":[9,50,34],"id":7,"tags":[0,0],"type":1}],"keys":["k"],"name":"a","values":[{"string":"v"}],"version":2}]}
# a value of each kind, after a name with characters that JSON escapes and others
1a 51 78 02 0a 07 22 5c 0a 01 2f c3 a9 22 03 0a 01 76 22 05 15 00 00 c0 3f 22 09 19 00 00 00 00 00 00 f8 bf 22 0b 20 ff ff ff ff ff ff ff ff ff 01 22 0b 28 ff ff ff ff ff ff ff ff ff 01 22 0b 30 ff ff ff ff ff ff ff ff ff 01 22 02 38 01 22 02 38 00 => {"layers":[{"extent":4096,"features":[],"keys":[],"name":"\"\\\n\u0001/é","values":[{"string":"v"},{"float":"0000c03f"},{"double":"000000000000f8bf"},{"int":-1},{"uint":18446744073709551615},{"sint":-9223372036854775808},{"bool":true},{"bool":false}],"version":2}]}
# two layers, one of which has another version and a feature of each type, the last with the id 0
1a 2a 78 07 0a 00 12 04 18 00 22 00 12 07 18 01 22 03 09 32 22 12 05 18 02 22 01 63 12 06 08 00 18 03 22 00 1a 01 6b 1a 00 28 80 02 1a 05 78 02 0a 01 61 => {"layers":[{"extent":256,"features":[{"geometry":[],"id":null,"tags":[],"type":0},{"geometry":[9,50,34],"id":null,"tags":[],"type":1},{"geometry":[99],"id":null,"tags":[],"type":2},{"geometry":[],"id":0,"tags":[],"type":3}],"keys":["k",""],"name":"","values":[],"version":7},{"extent":4096,"features":[],"keys":[],"name":"a","values":[],"version":2}]}
# no tiles
80 => {"at":0,"code":101,"field":0,"scope":"tile"}
1a 07 78 02 0a 01 61 22 00 => {"at":9,"code":109,"field":0,"layer":0,"scope":"value","value":0}
"#;

#[test]
fn dumps_a_tile_or_reports_its_wire_fault(rt: HostRuntime) -> Result<(), Fail> {
    assert_eq!(rt; rows_held(&rt, Engine::Dump, DUMPS)?, 6);
    Ok(())
}

/// Whether this is the text of the tile that bytes spell.
fn is_dump(rt: &HostRuntime, bytes: &[u8], dump: &str) -> bool {
    let Ok(tile) = read_tile(rt.alloc(), bytes) else {
        return false;
    };
    match dump_text(rt.alloc(), &tile) {
        Ok(shown) => shown.as_str() == dump,
        Err(_) => false,
    }
}

#[test]
fn shows_a_tile(rt: HostRuntime) {
    let bytes =
        b"\x1a\x1f\x0a\x01\x61\x12\x0d\x08\x07\x12\x02\x00\x00\x18\x01\x22\x03\x09\x32\x22\x1a\x01\x6b\x22\x03\x0a\x01\x76\x28\x80\x20\x78\x02";
    let dump =
        r#"{"layers":[{"extent":4096,"features":[{"geometry":[9,50,34],"id":7,"tags":[0,0],"type":1}],"keys":["k"],"name":"a","values":[{"string":"v"}],"version":2}]}"#;
    assert!(rt; is_dump(&rt, bytes, dump));
}
