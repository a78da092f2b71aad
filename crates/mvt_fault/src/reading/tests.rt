use crate::{Fault, FaultTextError, RingEdge, fault_from_text};
use std::alloc::Global;
use std::test::Fail;

fn meeting(x: i128, y: i128, w: i128) -> Fault {
    Fault::Meeting {
        layer: 0,
        feature: 0,
        polygon: 0,
        first: RingEdge { ring: 0, edge: 0 },
        second: RingEdge { ring: 0, edge: 2 },
        x,
        y,
        w,
    }
}

#[test]
fn reads_a_meeting(rt: HostRuntime) {
    let text =
        "{\"code\":504,\"feature\":0,\"first\":{\"edge\":0,\"ring\":0},\"layer\":0,\"polygon\":0,\"second\":{\"edge\":2,\"ring\":0},\"w\":\"180\",\"x\":\"800\",\"y\":\"800\"}";
    assert!(rt; fault_from_text(rt.alloc(), text.as_bytes()) == Ok(meeting(800, 800, 180)));
}

#[test]
fn reads_a_polygon_in_another(rt: HostRuntime) {
    let text = "{\"code\":507,\"feature\":1,\"layer\":2,\"other\":3,\"polygon\":4,\"vertex\":5}";
    let fault = Fault::InPolygon {
        layer: 2,
        feature: 1,
        polygon: 4,
        vertex: 5,
        other: 3,
    };
    assert!(rt; fault_from_text(rt.alloc(), text.as_bytes()) == Ok(fault));
}

#[test]
fn reads_other_spellings(rt: HostRuntime) {
    for text in [
        "{\"layer\":3,\"code\":201}",
        " { \"code\" : 201 ,\n\t\"layer\" : 3 } ",
        "{\"\\u0063ode\":201,\"l\\u0061yer\":3}",
        "{\"code\":200,\"layer\":9,\"code\":201,\"layer\":3}",
    ] {
        assert!(rt;
            fault_from_text(rt.alloc(), text.as_bytes()) == Ok(Fault::Version { layer: 3 })
        );
    }
}

#[test]
fn refuses_other_shapes(rt: HostRuntime) {
    for text in [
        "{\"ok\":true}",
        "[]",
        "{}",
        "201",
        "{\"code\":200}",
        "{\"code\":201}",
        "{\"code\":201,\"layer\":0,\"more\":1}",
        "{\"code\":201,\"layer\":-1}",
        "{\"code\":201,\"layer\":-0}",
        "{\"code\":201,\"layer\":18446744073709551616}",
        "{\"code\":201,\"layer\":1.0}",
        "{\"code\":201,\"layer\":1e0}",
        "{\"code\":201,\"layer\":\"1\"}",
        "{\"code\":201,\"layer\":3,\"layer\":null}",
        "{\"code\":\"201\",\"layer\":0}",
        "{\"code\":202,\"first\":0,\"layer\":1,\"second\":0}",
        "{\"code\":507,\"feature\":0,\"layer\":0,\"polygon\":0,\"vertex\":0}",
        "{\"code\":507,\"feature\":0,\"layer\":0,\"other\":1,\"polygon\":0,\"ring\":0,\"vertex\":0}",
        "{\"code\":508,\"feature\":0,\"layer\":0,\"ring\":0}",
        "{\"at\":0,\"code\":105,\"field\":3}",
        "{\"at\":0,\"code\":105,\"field\":3,\"scope\":\"\"}",
        "{\"at\":0,\"code\":105,\"field\":3,\"scope\":\"layer\"}",
        "{\"at\":0,\"code\":105,\"field\":4294967296,\"layer\":0,\"scope\":\"tile\"}",
    ] {
        assert!(rt; fault_from_text(rt.alloc(), text.as_bytes()) == Err(FaultTextError::Shape));
    }
}

/// What is read in the text of a meeting with this for its x.
fn read_with_x(alloc: Global, x: &str) -> Result<Fault, FaultTextError> {
    let text = format!(in alloc;
        "{{\"code\":504,\"feature\":0,\"first\":{{\"edge\":0,\"ring\":0}},\"layer\":0,\"polygon\":0,\"second\":{{\"edge\":2,\"ring\":0}},\"w\":\"180\",\"x\":{x},\"y\":\"800\"}}"
    )?;
    fault_from_text(alloc, text.as_bytes())
}

#[test]
fn refuses_other_digits(rt: HostRuntime) {
    for x in [
        "\"-0\"", "\"0800\"", "\"-08\"", "\"00\"", "\"\"", "\"-\"", "\"+8\"", "\" 8\"", "\"8e2\"",
        "\"8.0\"", "800", "null",
    ] {
        assert!(rt; read_with_x(rt.alloc(), x) == Err(FaultTextError::Shape));
    }
}

#[test]
fn refuses_numbers_out_of_range(rt: HostRuntime) {
    let alloc = rt.alloc();
    for x in [
        "\"170141183460469231731687303715884105728\"",
        "\"-170141183460469231731687303715884105729\"",
        "\"1000000000000000000000000000000000000000000000000000000000000000000000000000000\"",
    ] {
        assert!(rt; read_with_x(alloc, x) == Err(FaultTextError::Range));
    }
    assert!(rt; read_with_x(alloc, "\"0\"") == Ok(meeting(0, 800, 180)));
    let text = "{\"at\":0,\"code\":105,\"field\":4294967296,\"scope\":\"tile\"}";
    assert!(rt; fault_from_text(alloc, text.as_bytes()) == Err(FaultTextError::Range));
}

#[test]
fn refuses_what_is_not_json(rt: HostRuntime) -> Result<(), Fail> {
    for text in [
        b"".as_slice(),
        b"{",
        b"\xff",
        b"{\"code\":201,\"layer\":0}}",
        b"{\"code\":201,\"layer\":00}",
    ] {
        assert!(rt; fault_from_text(rt.alloc(), text) == Err(FaultTextError::Json));
    }
    let mut nested = Vec::new(rt.alloc());
    for _ in 0..200 {
        nested.push(b'[')?;
    }
    for _ in 0..200 {
        nested.push(b']')?;
    }
    assert!(rt; fault_from_text(rt.alloc(), &nested) == Err(FaultTextError::Json));
    Ok(())
}
