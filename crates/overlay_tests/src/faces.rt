//! What is below segments, and between them.

use mvt_overlay::{NO_SEGMENT, directly_below, faces_of};
use mvt_plane::{Point, orient, sweep_key};
use mvt_segments::{Segment, Winding, Work, ends_of};
use std::alloc::Global;
use std::process::Abort;
use std::test::Fail;

/// The position at these coordinates.
fn point(rt: &impl Abort, x: i32, y: i32) -> Point {
    Point::new(x, y).expect(rt, "in range")
}

/// The segment of an exterior's edge between these positions, with a gain as if the edge came from
/// the first one.
fn segment(rt: &impl Abort, from: (i32, i32), to: (i32, i32)) -> Segment {
    let (a, b) = (point(rt, from.0, from.1), point(rt, to.0, to.1));
    let gain = Winding {
        exterior: 1,
        holes: 0,
    };
    let is_forward = sweep_key(a) < sweep_key(b);
    Segment {
        a: if is_forward { a } else { b },
        b: if is_forward { b } else { a },
        gain: if is_forward { gain } else { gain.negated() },
        source: 0,
        witness: 0,
    }
}

/// The segments of edges between these positions, in their order.
fn segments(rt: &impl Abort, alloc: Global, edges: &[((i32, i32), (i32, i32))]) -> Vec<Segment> {
    let mut segments = Vec::new(alloc);
    for (from, to) in edges {
        let made = segments.push(segment(rt, *from, *to));
        made.expect(rt, "memory");
    }
    segments
}

/// Work enough for any test.
fn enough() -> Work {
    Work::new(1_000_000)
}

// A triangle, counterclockwise in the orientation of `orient`: from (0, 0) along the x axis and back
// over (2, 3). Of the two segments that begin at (0, 0) the one along the axis is the lower one, and
// it is below the third one too.
#[test]
fn triangle(rt: HostRuntime) -> Result<(), Fail> {
    let edges = [((2, 3), (0, 0)), ((0, 0), (4, 0)), ((4, 0), (2, 3))];
    let segments = segments(&rt, rt.alloc(), &edges);
    let below = directly_below(
        rt.alloc(),
        &segments,
        &ends_of(rt.alloc(), &segments)?,
        &mut enough(),
    )?
    .ok_or("gave up")?;
    assert_eq!(rt; below.as_slice(), [1, NO_SEGMENT, 1].as_slice());
    let faces = faces_of(
        rt.alloc(),
        &segments,
        &ends_of(rt.alloc(), &segments)?,
        &mut enough(),
    )?
    .ok_or("gave up")?;
    let exteriors: Vec<i32> = faces
        .sides
        .iter()
        .map(|it| it.winding.exterior)
        .collect(rt.alloc())?;
    assert_eq!(rt; exteriors.as_slice(), [1, 0, 1].as_slice());
    Ok(())
}

// At (0, 0) a segment ends and five begin, one of them straight up, between one below and one above.
#[test]
fn star(rt: HostRuntime) -> Result<(), Fail> {
    let edges = [
        ((-5, -9), (9, -9)),
        ((-5, 9), (9, 9)),
        ((-4, 0), (0, 0)),
        ((0, 0), (0, 5)),
        ((0, 0), (3, 4)),
        ((0, 0), (5, -5)),
        ((0, 0), (5, 0)),
        ((0, 0), (5, 5)),
    ];
    let segments = segments(&rt, rt.alloc(), &edges);
    let below = directly_below(
        rt.alloc(),
        &segments,
        &ends_of(rt.alloc(), &segments)?,
        &mut enough(),
    )?
    .ok_or("gave up")?;
    assert_eq!(rt;
        below.as_slice(),
        [NO_SEGMENT, 0, 0, 4, 7, 0, 5, 6].as_slice()
    );
    // each search but the first one takes a step at least
    assert!(rt;
        directly_below(
            rt.alloc(),
            &segments,
            &ends_of(rt.alloc(), &segments)?,
            &mut Work::new(1)
        )?
        .is_none()
    );
    Ok(())
}

// At (10, 0) two segments end with one between them that goes on.
#[test]
fn not_noded(rt: HostRuntime) -> Result<(), Fail> {
    let edges = [((0, 0), (10, 0)), ((0, 2), (10, 0)), ((1, 1), (12, 1))];
    let segments = segments(&rt, rt.alloc(), &edges);
    assert!(rt;
        directly_below(
            rt.alloc(),
            &segments,
            &ends_of(rt.alloc(), &segments)?,
            &mut enough()
        )?
        .is_none()
    );
    Ok(())
}

/// A sequence of numbers that are as good as thrown.
#[derive(Drop)]
struct Dice {
    state: i32,
}

impl Dice {
    /// Whether a throw of two sides shows the first one.
    fn is_head(&mut self) -> bool {
        self.state = self.state.wrapping_mul(1_103_515_245).wrapping_add(12_345);
        (self.state >> 16) & 1 == 0
    }
}

/// Segments along the sides and across the cells of a grid, each there or not as it is thrown. Cells
/// are four times as wide as high.
fn thrown_segments(rt: &impl Abort, alloc: Global, dice: &mut Dice) -> Vec<Segment> {
    let mut thrown = Vec::new(alloc);
    for column in 0..6 {
        for row in 0..20 {
            let (left, low) = (i32::wrapping_mul(column, 4), row);
            let (right, high) = (left.wrapping_add(4), i32::wrapping_add(row, 1));
            let across = if dice.is_head() {
                ((left, low), (right, high))
            } else {
                ((left, high), (right, low))
            };
            for (from, to) in [
                ((left, low), (right, low)),
                ((left, low), (left, high)),
                across,
            ] {
                if dice.is_head() {
                    thrown.push(segment(rt, from, to)).expect(rt, "memory");
                }
            }
        }
    }
    thrown.sort_unstable_by_key(|segment| sweep_key(segment.a));
    thrown
}

/// Whether a segment is below a position, where neither of its ends is.
fn passes_under(segment: &Segment, position: Point) -> bool {
    sweep_key(segment.a) < sweep_key(position)
        && sweep_key(position) < sweep_key(segment.b)
        && orient(segment.a, segment.b, position) > 0
}

/// Whether one of two segments below a position, where both begin or neither does, is the upper one.
/// (Of two that pass under it and meet in ends only, the one is on one side of the other.)
fn is_upper(one: &Segment, other: &Segment) -> bool {
    if sweep_key(other.a) <= sweep_key(one.a) {
        let turn = orient(other.a, other.b, one.a);
        turn > 0 || turn == 0 && orient(other.a, other.b, one.b) > 0
    } else {
        let turn = orient(one.a, one.b, other.a);
        turn < 0 || turn == 0 && orient(one.a, one.b, other.b) < 0
    }
}

/// Whether one segment is below the first end of another one, or begins there clockwise of it.
fn is_under(one: &Segment, segment: &Segment) -> bool {
    if one.a == segment.a {
        orient(one.a, one.b, segment.b) > 0
    } else {
        passes_under(one, segment.a)
    }
}

/// Which of all segments is directly below this one, by comparing all.
fn plainly_below(segments: &[Segment], segment: &Segment) -> u32 {
    let mut best = NO_SEGMENT;
    let mut number = 0_u32;
    for one in segments {
        if is_under(one, segment) {
            let is_better = match segments.get(best as usize) {
                None => true,
                Some(best) => {
                    let begins = one.a == segment.a;
                    let best_begins = best.a == segment.a;
                    begins && !best_begins || begins == best_begins && is_upper(one, best)
                }
            };
            if is_better {
                best = number;
            }
        }
        number = number.wrapping_add(1);
    }
    best
}

// In 20 thrown grids the sweep finds below each segment what comparing all finds.
#[test]
fn grids(rt: HostRuntime) -> Result<(), Fail> {
    let mut dice = Dice { state: 1 };
    for _ in 0..20 {
        let segments = thrown_segments(&rt, rt.alloc(), &mut dice);
        let below = directly_below(
            rt.alloc(),
            &segments,
            &ends_of(rt.alloc(), &segments)?,
            &mut enough(),
        )?
        .ok_or("gave up")?;
        let mut wanted = Vec::new(rt.alloc());
        for segment in &segments {
            wanted.push(plainly_below(&segments, segment))?;
        }
        assert_eq!(rt; below, wanted);
    }
    Ok(())
}
