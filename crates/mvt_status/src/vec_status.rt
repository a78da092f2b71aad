//! The status as a vector, with binary search.
ghost use Rattle.std.specs.Prelude.{◌≡◌, ℕ, ◌+◌, ◌-◌, ◌<◌, ◌≤◌, suc, All, [], IsOk, if◌then◌else◌, insert, is_ok, length, remove, slice_index};
ghost use Rattle.mvt_plane.specs.Counted.{ticked};
ghost use Rattle.mvt_status.specs.Counts.{AddsAtMost, bits, raised};
ghost use Rattle.mvt_status.specs.Split.{AreBeside, IsSplit};

use crate::search::split_in;
use crate::{Split, Status};
use mvt_plane::Count;
use std::alloc::{AllocError, Global};
use std::marker::Model;

/// A status in a vector, where a place is found by halves. An edge that comes or goes moves all
/// edges after it. It has no nodes, so no call counts a visit.
#[derive(Drop)]
pub struct VecStatus {
    edges: Vec<usize>,
}

impl Model for VecStatus {
    ghost use Rattle.std.specs.Prelude.{ℕ, List};

    ghost Value = { List ℕ };

    ghost view = { λ status. status.edges.items };
}

impl VecStatus {
    /// A status with no edge. It takes no memory.
    pub fn new(alloc: Global) -> VecStatus
        ensures { result ≡ [] }
    {
        VecStatus {
            edges: Vec::new(alloc),
        }
    }
}

impl Status for VecStatus {
    ghost edges = { λ status. status };

    fn len(&self) -> usize {
        self.edges.len()
    }

    fn get(&self, at: usize, _count: &mut Count) -> usize
        requires { at < length self.now }
        ensures value { result ≡ slice_index self.now at }
        ensures counted { AddsAtMost 0 0 _count.old _count.new }
    {
        self.edges[at]
    }

    fn insert(&mut self, at: usize, edge: usize, _count: &mut Count) -> Result<(), AllocError>
        requires { at ≤ length self.old }
        ensures list { self.new ≡ (if is_ok result then insert self.old at edge else self.old) }
        ensures counted { AddsAtMost 0 0 _count.old _count.new }
    {
        self.edges.insert(at, edge)?;
        Ok(())
    }

    fn insert_two(
        &mut self,
        at: usize,
        lower: usize,
        upper: usize,
        count: &mut Count,
    ) -> Result<(), AllocError>
        requires { at ≤ length self.old }
        ensures list { self.new ≡ (if is_ok result then insert (insert self.old at upper) at lower
            else self.old) }
        ensures counted { AddsAtMost 0 0 count.old count.new }
    {
        self.insert(at, upper, count)?;
        let placed = self.insert(at, lower, count);
        if placed.is_err() {
            self.remove(at, count);
        }
        placed
    }

    fn remove(&mut self, at: usize, _count: &mut Count) -> usize
        requires { at < length self.old }
        ensures value { result ≡ slice_index self.old at }
        ensures list { self.new ≡ remove self.old at }
        ensures counted { AddsAtMost 0 0 _count.old _count.new }
    {
        self.edges.remove(at)
    }

    fn remove_two(&mut self, at: usize, _count: &mut Count) -> (usize, usize)
        requires { at + 1 < length self.old }
        ensures lower { result.0 ≡ slice_index self.old at }
        ensures upper { result.1 ≡ slice_index self.old (at + 1) }
        ensures list { self.new ≡ remove (remove self.old at) at }
        ensures counted { AddsAtMost 0 0 _count.old _count.new }
    {
        let lower = self.edges.remove(at);
        let upper = self.edges.remove(at);
        (lower, upper)
    }

    fn replace(&mut self, at: usize, edge: usize, _count: &mut Count) -> Result<(), AllocError>
        requires { at < length self.old }
        ensures never_refused { IsOk result }
        ensures list { self.new ≡ insert (remove self.old at) at edge }
        ensures counted { AddsAtMost 0 0 _count.old _count.new }
    {
        let edges = &mut self.edges;
        edges[at] = edge;
        Ok(())
    }

    fn split_point<F: Fn(usize) -> bool>(&self, below: &F, count: &mut Count) -> usize
        requires callable { All (F.pre below.now) self.now }
        requires splits { (point : ℕ) × IsSplit (F.post below.now) self.now point }
        ensures split { IsSplit (F.post below.now) self.now result }
        ensures counted { AddsAtMost (bits (length self.now)) 0 count.old count.new }
        ensures probed { 0 < length self.now → ticked count.old.probes ≤ count.new.probes }
        ensures halved { raised (bits (suc (length self.now)) - 1) count.old.probes
            ≤ count.new.probes }
    {
        split_in(&self.edges, below, count)
    }

    fn split_around<F: Fn(usize) -> bool>(&self, below: &F, count: &mut Count) -> Split
        requires callable { All (F.pre below.now) self.now }
        requires splits { (point : ℕ) × IsSplit (F.post below.now) self.now point }
        ensures split { IsSplit (F.post below.now) self.now result.point }
        ensures beside { AreBeside self.now result }
        ensures counted { AddsAtMost (bits (length self.now)) 0 count.old count.new }
        ensures probed { 0 < length self.now → ticked count.old.probes ≤ count.new.probes }
        ensures halved { raised (bits (suc (length self.now)) - 1) count.old.probes
            ≤ count.new.probes }
    {
        let point = split_in(&self.edges, below, count);
        let front = if 0 < point {
            Some(self.edges[point - 1])
        } else {
            None
        };
        Split {
            point,
            front,
            following: self.edges.get(point).copied(),
        }
    }
}
