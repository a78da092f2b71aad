//! A ring of a million vertices: few pairs of its edges are tested, and the answer comes within two
//! minutes.
use super::{Way, combs, found_at, is_some_work};
use std::alloc::Global;
use std::process::Abort;
use std::time::{Clock, Duration, Instant};

/// Whether no edges meet in the ring through these coordinates, and the search takes one to three
/// tests of two edges a vertex, and no more than two minutes by the clock. (`rt ci` and `rt test`
/// end a test after one minute, which fails it too, but `rt test` has a flag to wait longer.)
fn is_soon_clear(rt: &(impl Abort + Clock), alloc: Global, ring: &[(i32, i32)]) -> bool {
    let start = Instant::now(rt).expect(rt, "a clock");
    let (found, count) = found_at(rt, alloc, &[ring], Way::Whole);
    let time = start.elapsed(rt).expect(rt, "a clock");
    found.is_none() && is_some_work(count.tests(), 2_999_988) && time <= Duration::from_secs(120)
}

/// The ring in the other order, with x and y exchanged.
fn turned(rt: &impl Abort, alloc: Global, ring: &[(i32, i32)]) -> Vec<(i32, i32)> {
    let mut other = Vec::new(alloc);
    for &(x, y) in ring {
        other.push((y, x)).expect(rt, "memory");
    }
    other.reverse();
    other
}

// There are 499,995,500,010 pairs of edges. In the ring that is turned, half of all edges are above
// each other. (80, 20) is where that vertex is, so none is moved. `rt try --test` needs minutes for
// this, so it fails there.
#[test]
fn combs_of_many_teeth(rt: HostRuntime) {
    let alloc = rt.alloc();
    let ring = combs(&rt, alloc, 499_998, (80, 20));
    assert!(rt; ring.len() == 999_996);
    assert!(rt; is_soon_clear(&rt, alloc, &ring));
    let turned = turned(&rt, alloc, &ring);
    assert!(rt; is_soon_clear(&rt, alloc, &turned));
}
