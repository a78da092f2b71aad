//! Rings of one feature after another.

use super::are_parts;
use mvt_draw::{DrawFault, RingBuffer};
use mvt_fault::CommandCode;
use mvt_wire::ListedNumbers;

// The example of a polygon with a hole and of another one (Mapbox Vector Tile Specification 2.1,
// section 4.3.5.6), then that of a single polygon, a geometry that ends too early, and again a good
// one.
#[test]
fn one_feature_after_another(rt: HostRuntime) {
    let mut buffer = RingBuffer::new(rt.alloc());
    assert!(rt; are_parts(buffer.rings(), &[]));
    let polygons = [
        9, 0, 0, 26, 20, 0, 0, 20, 19, 0, 15, 9, 22, 2, 26, 18, 0, 0, 18, 17, 0, 15, 9, 4, 13, 26,
        0, 8, 8, 0, 0, 7, 15,
    ];
    let first = [(0, 0), (10, 0), (10, 10), (0, 10)];
    let second = [(11, 11), (20, 11), (20, 20), (11, 20)];
    let hole = [(13, 13), (13, 17), (17, 17), (17, 13)];
    assert!(rt; buffer.draw(rt.alloc(), ListedNumbers::new(&polygons)) == Ok(()));
    assert!(rt; are_parts(buffer.rings(), &[&first, &second, &hole]));
    let numbers = [9, 6, 12, 18, 10, 12, 24, 44, 15];
    assert!(rt; buffer.draw(rt.alloc(), ListedNumbers::new(&numbers)) == Ok(()));
    assert!(rt; are_parts(buffer.rings(), &[&[(3, 6), (8, 12), (20, 34)]]));
    let unclosed = [9, 0, 0, 18, 2, 2, 2, 0];
    let fault = DrawFault::Command {
        code: CommandCode::Unfinished,
        index: 8,
    };
    assert!(rt; buffer.draw(rt.alloc(), ListedNumbers::new(&unclosed)) == Err(fault));
    assert!(rt; buffer.draw(rt.alloc(), ListedNumbers::new(&polygons)) == Ok(()));
    assert!(rt; are_parts(buffer.rings(), &[&first, &second, &hole]));
}
