ghost use Rattle.std.specs.Prelude.{◌≡◌, ℕ, suc, ◌+◌, ◌*◌, ◌<◌, ◌≤◌, List, All, if◌then◌else◌, insert, is_ok, length, remove, slice_index};
ghost use Rattle.mvt_plane.specs.Counted.{ticked};
ghost use Rattle.mvt_status.specs.Counts.{AddsAtMost, bits};
ghost use Rattle.mvt_status.specs.Split.{AreBeside, IsSplit};

use mvt_plane::Count;
use std::alloc::AllocError;

/// Where a status splits.
#[derive(Clone, Copy, Debug, PartialEq, Eq)]
pub struct Split {
    /// How many edges are in front.
    pub point: usize,
    /// The edge in front of the split, if there is one.
    pub front: Option<usize>,
    /// The edge after it, if there is one.
    pub following: Option<usize>,
}

/// A list of numbers of edges, which a sweep keeps in their order along its line. `count` counts
/// the work of each call. No call tests two edges for a common point, and only `split_point` and
/// `split_around` compare edges with a position. A call visits at most twice as many nodes, and
/// makes at most twice as many probes, as the length of the list at the call has binary digits
/// (`bits`). `replace` may visit twice as many nodes as the others, `split_around` and `remove_two`
/// three times as many, and `insert_two` three times as many as the others of a list with one edge
/// more.
pub trait Status {
    ghost edges: { Self → List ℕ };

    /// How many edges there are.
    fn len(&self) -> usize
        ensures { result ≡ length (edges self.now) };

    /// The edge at a place in the list.
    fn get(&self, at: usize, count: &mut Count) -> usize
        requires { at < length (edges self.now) }
        ensures value { result ≡ slice_index (edges self.now) at }
        ensures counted { AddsAtMost 0 (2 * bits (length (edges self.now))) count.old count.new };

    /// Puts an edge at a place, in front of the one that was there. The only error is that memory
    /// was refused, as it is to a list that has as many edges as a `usize` can count. The list is
    /// then as it was.
    fn insert(&mut self, at: usize, edge: usize, count: &mut Count) -> Result<(), AllocError>
        requires { at ≤ length (edges self.old) }
        ensures list { edges self.new ≡ (if is_ok result then insert (edges self.old) at edge else
            edges self.old) }
        ensures counted { AddsAtMost 0 (2 * bits (length (edges self.old))) count.old count.new };

    /// Puts two edges at a place, the lower one first, in front of the one that was there. The only
    /// error is that memory was refused. The list is then as it was.
    fn insert_two(
        &mut self,
        at: usize,
        lower: usize,
        upper: usize,
        count: &mut Count,
    ) -> Result<(), AllocError>
        requires { at ≤ length (edges self.old) }
        ensures list { edges self.new ≡ (if is_ok result then insert
            (insert (edges self.old) at upper) at lower else edges self.old) }
        ensures counted { AddsAtMost 0 (6 * bits (suc (length (edges self.old)))) count.old
            count.new }
    {
        self.insert(at, upper, count)?;
        let placed = self.insert(at, lower, count);
        if placed.is_err() {
            self.remove(at, count);
        }
        placed
    }

    /// Takes the edge at a place out of the list.
    fn remove(&mut self, at: usize, count: &mut Count) -> usize
        requires { at < length (edges self.old) }
        ensures value { result ≡ slice_index (edges self.old) at }
        ensures list { edges self.new ≡ remove (edges self.old) at }
        ensures counted { AddsAtMost 0 (2 * bits (length (edges self.old))) count.old count.new };

    /// Takes the edge at a place and the one after it out of the list, and answers them in this
    /// order.
    fn remove_two(&mut self, at: usize, count: &mut Count) -> (usize, usize)
        requires { at + 1 < length (edges self.old) }
        ensures lower { result.0 ≡ slice_index (edges self.old) at }
        ensures upper { result.1 ≡ slice_index (edges self.old) (at + 1) }
        ensures list { edges self.new ≡ remove (remove (edges self.old) at) at }
        ensures counted { AddsAtMost 0 (6 * bits (length (edges self.old))) count.old count.new }
    {
        let lower = self.remove(at, count);
        let upper = self.remove(at, count);
        (lower, upper)
    }

    /// Puts an edge in the place of the one that is there. The only error is that memory was
    /// refused. The list is then without the edge that was there.
    fn replace(&mut self, at: usize, edge: usize, count: &mut Count) -> Result<(), AllocError>
        requires { at < length (edges self.old) }
        ensures list { edges self.new ≡ (if is_ok result then insert (remove (edges self.old) at) at
            edge else remove (edges self.old) at) }
        ensures counted { AddsAtMost 0 (4 * bits (length (edges self.old))) count.old count.new }
    {
        self.remove(at, count);
        self.insert(at, edge, count)
    }

    /// How many edges are at the front of the list of which `below` is true, where it is false of
    /// all others. Each call of `below` counts as a probe; of a list with an edge there is one at
    /// least.
    fn split_point<F: Fn(usize) -> bool>(&self, below: &F, count: &mut Count) -> usize
        requires callable { All (F.pre below.now) (edges self.now) }
        requires splits { (point : ℕ) × IsSplit (F.post below.now) (edges self.now) point }
        ensures split { IsSplit (F.post below.now) (edges self.now) result }
        ensures counted { AddsAtMost (2 * bits (length (edges self.now)))
            (2 * bits (length (edges self.now))) count.old count.new }
        ensures probed { 0 < length (edges self.now) → ticked count.old.probes ≤ count.new.probes };

    /// The split point, as `split_point` answers it, with the edges in front of it and after it.
    fn split_around<F: Fn(usize) -> bool>(&self, below: &F, count: &mut Count) -> Split
        requires callable { All (F.pre below.now) (edges self.now) }
        requires splits { (point : ℕ) × IsSplit (F.post below.now) (edges self.now) point }
        ensures split { IsSplit (F.post below.now) (edges self.now) result.point }
        ensures beside { AreBeside (edges self.now) result }
        ensures counted { AddsAtMost (2 * bits (length (edges self.now)))
            (6 * bits (length (edges self.now))) count.old count.new }
        ensures probed { 0 < length (edges self.now) → ticked count.old.probes ≤ count.new.probes }
    {
        let point = self.split_point(below, count);
        let front = if 0 < point {
            Some(self.get(point - 1, count))
        } else {
            None
        };
        let following = if point < self.len() {
            Some(self.get(point, count))
        } else {
            None
        };
        Split {
            point,
            front,
            following,
        }
    }
}
