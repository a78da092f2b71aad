//! Where edges meet: the line of `check` is read back, the checker accepts its fault, and
//! arithmetic of these tests' own finds the point on both edges.
use super::{MOVED_TOOTH, TOOTH_ABOVE, comb_tile};
use crate::device::{CALM, bytes_of};
use crate::runs::{Engine, run, writes};
use mvt_confirm::confirm;
use mvt_fault::{Fault, RingEdge, fault_from_text};
use mvt_gate::{Outcome, Verdict, judge};
use std::test::Fail;

/// Tiles in hexadecimal, the vertices of their rings, and how the line of their meeting ends. Edges
/// that touch do so at one point, and the line ends with it.
const MEETINGS: &str = r#"
# a ring that goes back along an edge of its own: its last vertex is on that edge
1a 16 78 02 0a 01 61 12 0f 18 03 22 0b 09 00 00 1a 14 00 00 14 00 09 0f => 0,0 10,0 10,10 10,5 => "w":"1","x":"10","y":"5"}
# a hole with a vertex on an edge of its exterior
1a 1f 78 02 0a 01 61 12 18 18 03 22 14 09 00 00 1a 14 00 00 14 13 00 0f 09 00 09 12 06 04 00 07 0f => 0,0 10,0 10,10 0,10 / 0,5 3,7 3,3 => "w":"1","x":"0","y":"5"}
# a ring with two vertices at one position
1a 1a 78 02 0a 01 61 12 13 18 03 22 0f 09 00 00 2a 14 00 09 0a 0a 0a 13 00 0a 09 0f => 0,0 10,0 5,5 10,10 0,10 5,5 => "w":"1","x":"5","y":"5"}
# a U with a hole across its arms, all of whose vertices are inside
1a 27 78 02 0a 01 61 12 20 18 03 22 1c 09 00 00 3a 3c 00 00 3c 13 00 00 27 13 00 00 28 13 00 0f 09 0a 13 12 28 00 13 1d 0f => 0,0 30,0 30,30 20,30 20,10 10,10 10,30 0,30 / 5,20 25,20 15,5 => }
# a square with a hole of which one vertex is outside: the edges of the two rings cross, and that comes before the hole
1a 1f 78 02 0a 01 61 12 18 18 03 22 14 09 00 00 1a 14 00 00 14 13 00 0f 09 0a 09 12 00 04 1e 01 0f => 0,0 10,0 10,10 0,10 / 5,5 5,7 20,6 => }
"#;

type Vertex = (i128, i128);

/// The vertices of a ring that a text lists.
fn ring_of(rt: &HostRuntime, text: &str) -> Result<Vec<Vertex>, Fail> {
    let mut ring = Vec::new(rt.alloc());
    for vertex in text.split_whitespace() {
        let (x, y) = vertex.split_once(',').ok_or("no vertex")?;
        ring.push((x.parse()?, y.parse()?))?;
    }
    Ok(ring)
}

/// The rings that a text lists.
fn rings_of(rt: &HostRuntime, text: &str) -> Result<Vec<Vec<Vertex>>, Fail> {
    let mut rings = Vec::new(rt.alloc());
    for ring in text.split('/') {
        rings.push(ring_of(rt, ring)?)?;
    }
    Ok(rings)
}

/// An edge, and which one comes after it in its ring.
#[derive(Clone, Copy)]
struct Edge {
    begin: Vertex,
    end: Vertex,
    next: RingEdge,
}

/// An edge of these rings. After the last edge of a ring comes edge 0.
fn edge_of(rings: &[Vec<Vertex>], edge: RingEdge) -> Option<Edge> {
    let ring = rings.get(edge.ring)?;
    let following = edge.edge.wrapping_add(1);
    let next = if following == ring.len() {
        0
    } else {
        following
    };
    Some(Edge {
        begin: *ring.get(edge.edge)?,
        end: *ring.get(next)?,
        next: RingEdge {
            ring: edge.ring,
            edge: next,
        },
    })
}

/// The step from a vertex to the point (x / w, y / w), times `w`.
fn step(vertex: Vertex, (x, y, w): (i128, i128, i128)) -> (i128, i128) {
    (
        x.wrapping_sub(vertex.0.wrapping_mul(w)),
        y.wrapping_sub(vertex.1.wrapping_mul(w)),
    )
}

/// Whether the point lies on an edge: the steps from its ends to the point have opposite
/// directions.
fn lies_on(point: (i128, i128, i128), edge: &Edge) -> bool {
    let (x, y) = step(edge.begin, point);
    let (end_x, end_y) = step(edge.end, point);
    x.wrapping_mul(end_y) == y.wrapping_mul(end_x)
        && x.wrapping_mul(end_x) <= 0
        && y.wrapping_mul(end_y) <= 0
}

/// Whether the point is the vertex between an edge and the one after it.
fn is_between(point: (i128, i128, i128), edge: &Edge, next: RingEdge) -> bool {
    edge.next == next && step(edge.end, point) == (0, 0)
}

/// Whether a number is so small that no product of these tests wraps.
fn is_small(number: i128) -> bool {
    -1_000_000_000 < number && number < 1_000_000_000
}

/// Whether a fault names two edges of these rings, and a point on both that isn't the vertex
/// between them.
fn is_wrong_meeting(fault: &Fault, rings: &[Vec<Vertex>]) -> bool {
    let Fault::Meeting {
        layer: 0,
        feature: 0,
        polygon: 0,
        first,
        second,
        x,
        y,
        w,
    } = *fault
    else {
        return false;
    };
    let (Some(edge), Some(other)) = (edge_of(rings, first), edge_of(rings, second)) else {
        return false;
    };
    let point = (x, y, w);
    let is_point = is_small(x) && is_small(y) && is_small(w) && w > 0;
    let is_apart = !is_between(point, &edge, second) && !is_between(point, &other, first);
    is_point && first != second && is_apart && lies_on(point, &edge) && lies_on(point, &other)
}

/// Whether the line of `check` reports a wrong meeting of these rings that the checker accepts, and
/// ends so, and `judge` names the same fault.
fn reports_meeting(
    rt: &HostRuntime,
    tile: &[u8],
    rings: &[Vec<Vertex>],
    end: &str,
) -> Result<bool, Fail> {
    let mut line = Vec::new(rt.alloc());
    let outcome = run(rt, Engine::Check, (tile, ""), [CALM; 3], &mut line);
    let is_ended = line.pop() == Some(b'\n') && line.ends_with(end.as_bytes());
    let fault = fault_from_text(rt.alloc(), &line)?;
    let is_shown = confirm(tile, &fault) && is_wrong_meeting(&fault, rings);
    let is_judged = judge(rt.alloc(), tile)? == Verdict::No(fault);
    Ok(outcome == Ok(Outcome::No) && is_ended && is_shown && is_judged)
}

/// The same of a row of the table.
fn holds(rt: &HostRuntime, text: &str, meeting: &str) -> Result<bool, Fail> {
    let (rings, end) = meeting.split_once(" => ").ok_or("no end")?;
    reports_meeting(rt, &bytes_of(rt, text)?, &rings_of(rt, rings)?, end)
}

/// How many rows of the table hold before the first that does not, if any.
fn rows_held(rt: &HostRuntime, rows: &str) -> Result<u32, Fail> {
    let mut held = 0_u32;
    for row in rows.lines() {
        if let Some((text, meeting)) = row.split_once(" => ") {
            if !holds(rt, text, meeting)? {
                break;
            }
            held = held.saturating_add(1);
        }
    }
    Ok(held)
}

#[test]
fn reports_where_edges_meet(rt: HostRuntime) -> Result<(), Fail> {
    assert_eq!(rt; rows_held(&rt, MEETINGS)?, 5);
    Ok(())
}

/// A vertex of the two combs with a moved tooth, by its ordinal. The comb below goes to the right
/// and the one above comes back, with 158 vertices each. The vertex that was moved is from (80,
/// 20).
fn comb_vertex(number: u32) -> Vertex {
    if number == 235 {
        return (77, 15);
    }
    let of_comb = number % 158;
    let x = i128::from((of_comb + 1) / 2 * 2);
    let is_outer = of_comb % 4 < 2;
    if number < 158 {
        (x, if is_outer { -20 } else { -10 })
    } else {
        (158 - x, if is_outer { 20 } else { 10 })
    }
}

fn comb_ring(rt: &HostRuntime) -> Result<Vec<Vertex>, Fail> {
    let mut ring = Vec::new(rt.alloc());
    for number in 0..316 {
        ring.push(comb_vertex(number))?;
    }
    Ok(ring)
}

#[test]
fn reports_where_combs_meet(rt: HostRuntime) -> Result<(), Fail> {
    let combs = comb_tile(&rt, TOOTH_ABOVE)?;
    assert!(rt; writes(&rt, Engine::Check, &combs, r#"{"ok":true}"#));
    assert!(rt; judge(rt.alloc(), &combs)? == Verdict::Yes);
    let mut rings = Vec::new(rt.alloc());
    rings.push(comb_ring(&rt)?)?;
    let moved = comb_tile(&rt, MOVED_TOOTH)?;
    assert!(rt; reports_meeting(&rt, &moved, &rings, "}")?);
    Ok(())
}
