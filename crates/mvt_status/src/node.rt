//! Nodes of a tree: each holds a few edges between those of its two sides, and no side is more than
//! one level higher than the other.
ghost use Rattle.std.specs.Prelude.{◌≡◌, ℕ, ◌+◌, ◌^◌, ◌<◌, ◌≤◌, suc, max, IfNone, IfOk, IfSome, None, OnOk, Some, ◌∷◌, [], ◌++◌, length};
ghost use Rattle.mvt_plane.specs.Counted.{ticked};
ghost use Rattle.mvt_status.specs.Counts.{AddsAtMost};
ghost use Rattle.mvt_status.specs.Calls.Tree.{DifferByAtMost, IsHeightOfBoth, edges_of, fewest, height_of};

mod insert;
mod lookup;
mod remove;

use arrayvec::ArrayVec;
pub(crate) use insert::insert_into;
pub(crate) use lookup::{edge_at, split_of};
use mvt_plane::Count;
pub(crate) use remove::{remove_from, replace_in, take_two};
use std::alloc::{AllocError, Global};
use std::marker::Model;

/// The most edges in a node.
const ROOM: usize = 32;

/// The edges in a node.
type Own = ArrayVec<usize, ROOM>;

/// A side of a node: a node below it, or nothing.
pub(crate) type Side = Option<Box<Node>>;

#[derive(Drop)]
pub(crate) struct Node {
    // (A search reads the sides, the size and the first edge of each node on its way: they are
    // beside one another, so that it comes to one line of the cache there.)
    left: Side,
    right: Side,
    // How many edges there are in the node and on both sides.
    size: usize,
    // The edges between those on the left and those on the right, at least one.
    own: Own,
    // How many levels there are, this one included.
    height: u8,
}

impl Model for Node {
    ghost use Rattle.std.specs.Prelude.{ℕ, List, ◌++◌, length};
    ghost use Rattle.std.proofs.Common.{arith, length-append};
    ghost use Rattle.mvt_status.specs.Calls.Tree.{IsNode, edges_of};

    ghost Value = { List ℕ × ℕ };

    ghost view = { λ node. (
      edges_of node.left ++ (node.own.items ++ edges_of node.right),
      node.height,
    ) };

    ghost invariant = { λ node. IsNode node.left node.own.items node.right node.size node.height };

    ghost size = { λ seen. length seen.0 };

    ghost size_decreases = { λ node holds. Prim.grind (arith, length-append) };
}

/// How many edges a side has.
#[inline(always)]
pub(crate) fn size(side: &Side) -> usize
    ensures { result ≡ length (edges_of side.now) }
{
    match side {
        None => 0,
        Some(node) => node.size,
    }
}

/// How many levels a side has.
#[inline(always)]
pub(crate) fn height(side: &Side) -> u8
    ensures value { result ≡ height_of side.now }
    ensures filled { fewest (height_of side.now) ≤ suc (length (edges_of side.now)) }
    ensures some { IfSome side.now (λ _. 0 < height_of side.now) }
{
    match side {
        None => 0,
        Some(node) => node.height,
    }
}

/// Takes memory for a spare node, where there is none. An edge is in it until others are.
pub(crate) fn provide(spare: &mut Side, alloc: Global, edge: usize) -> Result<(), AllocError>
    requires { height_of spare.old ≤ 1 }
    ensures there { OnOk result (height_of spare.new ≡ 1) }
    ensures alone { height_of spare.new ≤ 1 }
{
    if spare.is_none() {
        *spare = Some(alone(alloc, edge)?);
    }
    is_filled(spare);
    Ok(())
}

/// A node of one edge, with nothing on either side.
fn alone(alloc: Global, edge: usize) -> Result<Box<Node>, AllocError>
    ensures { IfOk result (λ node. node.value ≡ (edge ∷ [], 1)) }
{
    let mut own = ArrayVec::new();
    own.push(edge);
    Ok(Box::new(
        alloc,
        Node {
            left: None,
            right: None,
            own,
            size: 1,
            height: 1,
        },
    )?)
}

/// A node with nothing on either side, with other edges.
fn refilled(mut node: Box<Node>, edges: &[usize]) -> Box<Node>
    requires low { node.value.1 ≡ 1 }
    requires some { 0 < length edges.now }
    requires room { length edges.now ≤ 32 }
    ensures { result.value ≡ (edges.now, 1) }
{
    let top: &mut Node = &mut node;
    is_filled(&top.left);
    is_filled(&top.right);
    top.own.clear();
    append(&mut top.own, edges);
    top.size = edges.len();
    node
}

/// Puts edges after those of a node.
fn append(own: &mut Own, edges: &[usize])
    requires { length own.old.items + length edges.now ≤ 32 }
    ensures { own.new.items ≡ own.old.items ++ edges.now }
{
    let Ok(()) = own.try_extend_from_slice(edges) else {
        unreachable!()
    };
}

/// A node taken apart: what is on the left, the node with its own edges alone, what is on the
/// right.
fn open(mut node: Box<Node>) -> (Side, Box<Node>, Side)
    ensures edges { node.value.0 ≡ edges_of result.0 ++ (result.1.value.0 ++ edges_of result.2) }
    ensures low { result.1.value.1 ≡ 1 }
    ensures filled { fewest node.value.1 ≤ suc (length node.value.0) }
    ensures height { node.value.1 ≡ suc (max (height_of result.0) (height_of result.2)) }
    ensures near { DifferByAtMost 1 (height_of result.0) (height_of result.2) }
    ensures room { length node.value.0 < 2 ^ 64 }
{
    let top: &mut Node = &mut node;
    let left = top.left.take();
    let right = top.right.take();
    top.size = top.own.len();
    top.height = 1;
    (left, node, right)
}

/// A node put together, of two sides of nearly one height.
fn close(left: Side, mut node: Box<Node>, right: Side) -> Box<Node>
    requires low { node.value.1 ≡ 1 }
    requires near { DifferByAtMost 1 (height_of left) (height_of right) }
    requires room { length (edges_of left) + length node.value.0 + length (edges_of right) < 2 ^
        64 }
    ensures edges { result.value.0 ≡ edges_of left ++ (node.value.0 ++ edges_of right) }
    ensures height { result.value.1 ≡ suc (max (height_of left) (height_of right)) }
{
    let top: &mut Node = &mut node;
    is_filled(&top.left);
    is_filled(&top.right);
    top.size = size(&left) + top.own.len() + size(&right);
    top.height = height(&left).max(height(&right)) + 1;
    top.left = left;
    top.right = right;
    node
}

/// The same, where one side may be two levels higher than the other.
fn join(left: Side, middle: Box<Node>, right: Side) -> Box<Node>
    requires low { middle.value.1 ≡ 1 }
    requires near { DifferByAtMost 2 (height_of left) (height_of right) }
    requires room { length (edges_of left) + length middle.value.0 + length (edges_of right) < 2 ^
        64 }
    ensures edges { result.value.0 ≡ edges_of left ++ (middle.value.0 ++ edges_of right) }
    ensures height { IsHeightOfBoth (height_of left) (height_of right) result.value.1 }
{
    let (left_height, right_height) = (height(&left), height(&right));
    if left_height > right_height + 1 {
        rotate_right(left, middle, right)
    } else if right_height > left_height + 1 {
        rotate_left(left, middle, right)
    } else {
        close(left, middle, right)
    }
}

/// The same, where the left side is two levels higher.
fn rotate_right(left: Side, middle: Box<Node>, right: Side) -> Box<Node>
    requires low { middle.value.1 ≡ 1 }
    requires two_higher { height_of left ≡ height_of right + 2 }
    requires room { length (edges_of left) + length middle.value.0 + length (edges_of right) < 2 ^
        64 }
    ensures edges { result.value.0 ≡ edges_of left ++ (middle.value.0 ++ edges_of right) }
    ensures not_lower { height_of left ≤ result.value.1 }
    ensures at_most_one_higher { result.value.1 ≤ height_of left + 1 }
{
    let Some(top) = left else { unreachable!() };
    let (outer, top, inner) = open(top);
    if height(&outer) >= height(&inner) {
        return close(outer, top, Some(close(inner, middle, right)));
    }
    let Some(inner) = inner else { unreachable!() };
    let (near, raised, far) = open(inner);
    close(
        Some(close(outer, top, near)),
        raised,
        Some(close(far, middle, right)),
    )
}

/// The same, where the right side is two levels higher.
fn rotate_left(left: Side, middle: Box<Node>, right: Side) -> Box<Node>
    requires low { middle.value.1 ≡ 1 }
    requires two_higher { height_of right ≡ height_of left + 2 }
    requires room { length (edges_of left) + length middle.value.0 + length (edges_of right) < 2 ^
        64 }
    ensures edges { result.value.0 ≡ edges_of left ++ (middle.value.0 ++ edges_of right) }
    ensures not_lower { height_of right ≤ result.value.1 }
    ensures at_most_one_higher { result.value.1 ≤ height_of right + 1 }
{
    let Some(top) = right else { unreachable!() };
    let (inner, top, outer) = open(top);
    if height(&outer) >= height(&inner) {
        return close(Some(close(left, middle, inner)), top, outer);
    }
    let Some(inner) = inner else { unreachable!() };
    let (far, raised, near) = open(inner);
    close(
        Some(close(left, middle, far)),
        raised,
        Some(close(near, top, outer)),
    )
}

/// Has no effect; its contract says that a side has enough edges for its levels.
#[inline(always)]
fn is_filled(side: &Side)
    ensures filled { fewest (height_of side.now) ≤ suc (length (edges_of side.now)) }
    ensures some { IfSome side.now (λ _. 0 < height_of side.now) }
{
    height(side);
}

/// How many levels a node over two sides has, unless one of them is two levels higher.
#[inline(always)]
fn level_over(left: &Side, right: &Side) -> Option<u8>
    requires room { length (edges_of left.now) + length (edges_of right.now) < 2 ^ 64 }
    ensures near { IfSome result (λ _.
        DifferByAtMost 1 (height_of left.now) (height_of right.now)) }
    ensures measured { IfSome result (λ level. level
        ≡ suc (max (height_of left.now) (height_of right.now))) }
    ensures filled { IfSome result (λ level. fewest level
        ≤ length (edges_of left.now) + length (edges_of right.now) + 2) }
{
    let (left_height, right_height) = (height(left), height(right));
    if left_height > right_height + 1 || right_height > left_height + 1 {
        return None;
    }
    Some(left_height.max(right_height) + 1)
}

/// Sets the height of a node whose sides have changed. Where one side is two levels higher than the
/// other, takes both sides out of the node instead, and answers them.
#[inline(always)]
fn settle(left: &mut Side, right: &mut Side, node_height: &mut u8) -> Option<(Side, Side)>
    requires room { length (edges_of left.old) + length (edges_of right.old) < 2 ^ 64 }
    ensures kept_left { IfNone result (left.new ≡ left.old) }
    ensures kept_right { IfNone result (right.new ≡ right.old) }
    ensures near { IfNone result (DifferByAtMost 1 (height_of left.old) (height_of right.old)) }
    ensures measured { IfNone result (node_height.new
        ≡ suc (max (height_of left.old) (height_of right.old))) }
    ensures filled { IfNone result (fewest node_height.new
        ≤ length (edges_of left.old) + length (edges_of right.old) + 2) }
    ensures out_left { IfSome result (λ sides. sides.0 ≡ left.old) }
    ensures out_right { IfSome result (λ sides. sides.1 ≡ right.old) }
    ensures no_left { IfSome result (λ _. left.new ≡ None) }
    ensures no_right { IfSome result (λ _. right.new ≡ None) }
    ensures low { IfSome result (λ _. node_height.new ≡ 1) }
{
    if let Some(level) = level_over(left, right) {
        *node_height = level;
        return None;
    }
    *node_height = 1;
    Some((left.take(), right.take()))
}

/// Puts two sides, of which one may be two levels higher than the other, on both sides of a node
/// that has none.
#[inline(never)]
fn join_over(left: Side, side: &mut Side, right: Side)
    requires low { height_of side.old ≡ 1 }
    requires near { DifferByAtMost 2 (height_of left) (height_of right) }
    requires room { length (edges_of left) + length (edges_of side.old) + length (edges_of right) <
        2 ^ 64 }
    ensures edges { edges_of side.new ≡ edges_of left ++ (edges_of side.old ++ edges_of right) }
    ensures height { IsHeightOfBoth (height_of left) (height_of right) (height_of side.new) }
{
    let Some(middle) = side.take() else {
        unreachable!()
    };
    *side = Some(join(left, middle, right));
}

/// Puts a side in the place of a node, and answers the node.
fn lift(side: &mut Side, left: Side) -> Box<Node>
    requires { 0 < length (edges_of side.old) }
    ensures rest { side.new ≡ left }
    ensures out { side.old ≡ Some result }
{
    let Some(out) = side.take() else {
        unreachable!()
    };
    *side = left;
    out
}

/// Counts a visit of a node.
#[inline(always)]
fn visit(count: &mut Count)
    ensures counted { AddsAtMost 0 1 count.old count.new }
    ensures visited { count.new.visits ≡ ticked count.old.visits }
{
    count.tick_visit();
}

/// Counts visits of so many nodes.
#[inline(always)]
pub(crate) fn visit_all(count: &mut Count, many: u64)
    ensures counted { AddsAtMost 0 many count.old count.new }
    ensures visited { 0 < many → ticked count.old.visits ≤ count.new.visits }
{
    count.tick_visits(many);
}
