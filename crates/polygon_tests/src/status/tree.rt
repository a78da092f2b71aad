//! The same in a tree.

use super::{are_right_pairs, edges_come_and_go, split_of_many, visits_at_ends};
use mvt_status::TreeStatus;
use std::process::Abort;
use std::test::Fail;

// Edges that come and go in one node: each call but the first visits it. Among the edges 4, 9, 7 a
// split takes three probes, the first edge and two by halves.
#[test]
fn few_edges(rt: HostRuntime) -> Result<(), Fail> {
    let count = edges_come_and_go(&rt, rt.alloc(), &mut TreeStatus::new(rt.alloc()))?;
    assert_eq!(&rt; (count.tests(), count.probes(), count.visits()), (0, 3, 15));
    Ok(())
}

// Many edges, each put in at the end, which leaves full nodes: 32 of them. A balanced tree has
// these on six levels, and none of its nodes without a left or a right side is above the third. So
// a call visits three to six nodes, and a split makes at most five probes more, among the edges of
// one of them. Nodes that come at the end leave no right side lower than the left one beside it, so
// the way to the last node has one on each of the six levels.
#[test]
fn many_edges(rt: HostRuntime) -> Result<(), Fail> {
    let many = split_of_many(&mut TreeStatus::new(rt.alloc()), 700)?;
    assert_eq!(&rt; many.split, 700);
    assert!(&rt; 3 <= many.visits && many.visits <= 6);
    assert!(&rt; many.visits <= many.probes && many.probes <= many.visits + 5);
    assert_eq!(&rt; many.visits_to_insert, 6);
    Ok(())
}

// So many edges, and the fewest and the most visits of a call that goes to one end of the tree.
// Counted up, they fill nodes of 32: 4, 32 and 3,125 of them. So many nodes have at least 3, 6 and
// 12 levels, and a balanced tree of them at most 3, 6 and 16. The first node has nothing on its
// left and the last one nothing on its right, so each is two levels high at most. On the way there
// each step goes down by at most two levels' height.
const ENDS: [(usize, u64, u64); 3] = [(100, 2, 3), (1_000, 3, 6), (100_000, 6, 16)];

#[test]
fn both_ends(rt: HostRuntime) -> Result<(), Fail> {
    for (many, fewest, most) in ENDS {
        for visits in visits_at_ends(&mut TreeStatus::new(rt.alloc()), many)? {
            assert!(&rt; fewest <= visits && visits <= most);
        }
    }
    Ok(())
}

// Pairs of neighbours in one node and in two, and pairs that are all that a node has.
#[test]
fn pairs_go_out(rt: HostRuntime) -> Result<(), Fail> {
    for step in [2, 3, 5, 31] {
        let status = &mut TreeStatus::new(rt.alloc());
        assert!(&rt; are_right_pairs(status, 1_000, step)?);
    }
    Ok(())
}
