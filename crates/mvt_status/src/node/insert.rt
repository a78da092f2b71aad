//! Edges that are put into a tree.
ghost use Rattle.std.specs.Prelude.{◌≡◌, ◌+◌, ◌^◌, ◌<◌, ◌≤◌, suc, IfSome, IsFalse, None, ◌++◌, drop, length, take};
ghost use Rattle.mvt_status.specs.Calls.Tree.{edges_of, fewest, height_of};

use super::{Node, Own, ROOM, Side, append, height, is_filled, join_over, refilled, settle, size};

/// How many edges stay in a node that is split.
const HALF: usize = ROOM / 2;

/// Inserts up to four edges in front of the one at a place. Where the nodes there have no room, the
/// spare node is used; it is None then. Answers whether the side has another height now, so that
/// the node above needn't look, and how many nodes were visited. (The caller counts them all at
/// once, which costs less than a count in memory at each node.)
pub(crate) fn insert_into(
    side: &mut Side,
    at: usize,
    new: &[usize],
    spare: &mut Side,
) -> (bool, u64)
    requires within { at ≤ length (edges_of side.old) }
    requires some { 0 < length new.now }
    requires few { length new.now ≤ 4 }
    requires spare { height_of spare.old ≡ 1 }
    requires room { length (edges_of side.old) + length new.now < 2 ^ 64 }
    ensures edges { edges_of side.new ≡ take at (edges_of side.old) ++
        (new.now ++ drop at (edges_of side.old)) }
    ensures level { IsFalse result.0 → height_of side.new ≡ height_of side.old }
    ensures not_lower { height_of side.old ≤ height_of side.new }
    ensures at_most_one_higher { height_of side.new ≤ height_of side.old + 1 }
    ensures spare { height_of spare.new ≤ 1 }
    ensures counted { result.1 ≤ height_of side.old }
    ensures visited { IfSome side.old (λ _. 0 < result.1) }
    ensures filled { fewest (height_of side.old) ≤ suc (length (edges_of side.old)) }
{
    let Some(node) = side else {
        *side = filled_with(spare, new);
        return (true, 0);
    };
    let top: &mut Node = node;
    let before = size(&top.left);
    let following = before + top.own.len();
    top.size += new.len();
    let (is_changed, below) = if at < before {
        insert_into(&mut top.left, at, new, spare)
    } else if following < at {
        insert_into(&mut top.right, at - following, new, spare)
    } else if top.own.len() + new.len() <= ROOM {
        put_in(&mut top.own, at - before, new);
        (false, 0)
    } else if at == before {
        insert_into(&mut top.left, at, new, spare)
    } else if at < following {
        let upper = halved(&mut top.own, at - before, new, spare);
        put_first(&mut top.right, upper)
    } else {
        insert_into(&mut top.right, 0, new, spare)
    };
    let visits = below + 1;
    is_filled(&top.left);
    is_filled(&top.right);
    if !is_changed {
        return (false, visits);
    }
    let level = top.height;
    if let Some((left, right)) = settle(&mut top.left, &mut top.right, &mut top.height) {
        top.size = top.own.len();
        join_over(left, side, right);
    }
    (height(side) != level, visits)
}

/// A spare node with other edges.
#[inline(never)]
fn filled_with(spare: &mut Side, edges: &[usize]) -> Side
    requires spare { height_of spare.old ≡ 1 }
    requires some { 0 < length edges.now }
    requires room { length edges.now ≤ 32 }
    ensures edges { edges_of result ≡ edges.now }
    ensures low { height_of result ≡ 1 }
    ensures used { spare.new ≡ None }
{
    let Some(node) = spare.take() else {
        unreachable!()
    };
    Some(refilled(node, edges))
}

/// Puts edges among those of a node, in front of the one at a place.
#[inline(never)]
fn put_in(own: &mut Own, at: usize, new: &[usize])
    requires within { at ≤ length own.old.items }
    requires room { length own.old.items + length new.now ≤ 32 }
    ensures { own.new.items ≡ take at own.old.items ++ (new.now ++ drop at own.old.items) }
{
    let end = own.len();
    append(own, new);
    let edges = own.as_mut_slice();
    edges.copy_within(at..end, at + new.len());
    edges[at..at + new.len()].copy_from_slice(new);
}

/// The same, in a node with nothing on either side.
fn put_in_alone(mut node: Box<Node>, at: usize, new: &[usize]) -> Box<Node>
    requires low { node.value.1 ≡ 1 }
    requires within { at ≤ length node.value.0 }
    requires room { length node.value.0 + length new.now ≤ 32 }
    ensures { result.value ≡ (take at node.value.0 ++ (new.now ++ drop at node.value.0), 1) }
{
    let top: &mut Node = &mut node;
    is_filled(&top.left);
    is_filled(&top.right);
    put_in(&mut top.own, at, new);
    top.size += new.len();
    node
}

/// Puts edges among those of a node that has no room for them. It keeps the lower ones, and the
/// others go into the spare node, which is the answer.
#[inline(never)]
fn halved(own: &mut Own, at: usize, new: &[usize], spare: &mut Side) -> Box<Node>
    requires within { at ≤ length own.old.items }
    requires many { 16 < length own.old.items }
    requires few { length new.now ≤ 4 }
    requires spare { height_of spare.old ≡ 1 }
    ensures edges { own.new.items ++ result.value.0
        ≡ take at own.old.items ++ (new.now ++ drop at own.old.items) }
    ensures some { 0 < length own.new.items }
    ensures low { result.value.1 ≡ 1 }
    ensures used { spare.new ≡ None }
{
    let Some(node) = spare.take() else {
        unreachable!()
    };
    let upper = refilled(node, &own[HALF..]);
    own.truncate(HALF);
    if at <= HALF {
        put_in(own, at, new);
        upper
    } else {
        put_in_alone(upper, at - HALF, new)
    }
}

/// Puts a node in front of all others. Answers whether the side has another height now, and how
/// many nodes were visited.
#[inline(never)]
fn put_first(side: &mut Side, new: Box<Node>) -> (bool, u64)
    requires low { new.value.1 ≡ 1 }
    requires room { length (edges_of side.old) + length new.value.0 < 2 ^ 64 }
    ensures edges { edges_of side.new ≡ new.value.0 ++ edges_of side.old }
    ensures level { IsFalse result.0 → height_of side.new ≡ height_of side.old }
    ensures not_lower { height_of side.old ≤ height_of side.new }
    ensures at_most_one_higher { height_of side.new ≤ height_of side.old + 1 }
    ensures counted { result.1 ≤ height_of side.old }
{
    let Some(node) = side else {
        *side = Some(new);
        return (true, 0);
    };
    let top: &mut Node = node;
    let many = new.size;
    let (is_changed, below) = put_first(&mut top.left, new);
    let visits = below + 1;
    top.size += many;
    is_filled(&top.left);
    is_filled(&top.right);
    if !is_changed {
        return (false, visits);
    }
    let level = top.height;
    if let Some((left, right)) = settle(&mut top.left, &mut top.right, &mut top.height) {
        top.size = top.own.len();
        join_over(left, side, right);
    }
    (height(side) != level, visits)
}
