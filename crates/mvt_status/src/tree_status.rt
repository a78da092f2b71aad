//! The status as a height-balanced tree; its nodes are in `node`.
ghost use Rattle.std.specs.Prelude.{◌≡◌, ℕ, suc, ◌+◌, ◌*◌, ◌<◌, ◌≤◌, All, [], IsOk, OnOk, if◌then◌else◌, insert, is_ok, length, remove, slice_index};
ghost use Rattle.mvt_plane.specs.Counted.{ticked};
ghost use Rattle.mvt_status.specs.Counts.{AddsAtMost, bits};
ghost use Rattle.mvt_status.specs.Split.{AreBeside, IsSplit};

use crate::node::{
    Side, edge_at, insert_into, provide, remove_from, replace_in, size, split_of, take_two,
    visit_all,
};
use crate::{Split, Status};
use mvt_plane::Count;
use std::alloc::{AllocError, Global};
use std::marker::Model;

/// A status in a height-balanced tree, whose nodes hold up to 32 edges each. Each call takes a
/// number of steps that grows with the binary digits of the number of edges.
#[derive(Drop)]
pub struct TreeStatus {
    root: Side,
    // A node for the next edge that finds no room, if there is one.
    spare: Side,
    alloc: Global,
}

impl Model for TreeStatus {
    ghost use Rattle.std.specs.Prelude.{ℕ, ◌≤◌, List};
    ghost use Rattle.mvt_status.specs.Calls.Tree.{edges_of, height_of};

    ghost Value = { List ℕ };

    ghost view = { λ status. edges_of status.root };

    ghost invariant = { λ status. height_of status.spare ≤ 1 };
}

impl TreeStatus {
    /// A status with no edge. It takes no memory.
    pub fn new(alloc: Global) -> TreeStatus
        ensures { result ≡ [] }
    {
        TreeStatus {
            root: None,
            spare: None,
            alloc,
        }
    }
}

impl Status for TreeStatus {
    ghost edges = { λ status. status };

    fn len(&self) -> usize {
        size(&self.root)
    }

    fn get(&self, at: usize, count: &mut Count) -> usize
        requires { at < length self.now }
        ensures value { result ≡ slice_index self.now at }
        ensures counted { AddsAtMost 0 (2 * bits (length self.now)) count.old count.new }
        ensures visited { ticked count.old.visits ≤ count.new.visits }
    {
        edge_at(&self.root, at, count)
    }

    fn insert(&mut self, at: usize, edge: usize, count: &mut Count) -> Result<(), AllocError>
        requires { at ≤ length self.old }
        ensures list { self.new ≡ (if is_ok result then insert self.old at edge else self.old) }
        ensures counted { AddsAtMost 0 (2 * bits (length self.old)) count.old count.new }
        ensures visited { OnOk result (0 < length self.old
            → ticked count.old.visits ≤ count.new.visits) }
    {
        if self.len() == usize::MAX {
            return Err(AllocError);
        }
        provide(&mut self.spare, self.alloc, edge)?;
        let (_, visits) = insert_into(&mut self.root, at, &[edge], &mut self.spare);
        visit_all(count, visits);
        Ok(())
    }

    fn insert_two(
        &mut self,
        at: usize,
        lower: usize,
        upper: usize,
        count: &mut Count,
    ) -> Result<(), AllocError>
        requires { at ≤ length self.old }
        ensures list { self.new ≡ (if is_ok result then insert (insert self.old at upper) at lower
            else self.old) }
        ensures counted { AddsAtMost 0 (2 * bits (suc (length self.old))) count.old count.new }
        ensures visited { OnOk result (0 < length self.old
            → ticked count.old.visits ≤ count.new.visits) }
    {
        if self.len() >= usize::MAX - 1 {
            return Err(AllocError);
        }
        provide(&mut self.spare, self.alloc, lower)?;
        let (_, visits) = insert_into(&mut self.root, at, &[lower, upper], &mut self.spare);
        visit_all(count, visits);
        Ok(())
    }

    fn remove(&mut self, at: usize, count: &mut Count) -> usize
        requires { at < length self.old }
        ensures value { result ≡ slice_index self.old at }
        ensures list { self.new ≡ remove self.old at }
        ensures counted { AddsAtMost 0 (2 * bits (length self.old)) count.old count.new }
        ensures visited { ticked count.old.visits ≤ count.new.visits }
    {
        remove_from(&mut self.root, at, &mut self.spare, count)
    }

    fn remove_two(&mut self, at: usize, count: &mut Count) -> (usize, usize)
        requires { at + 1 < length self.old }
        ensures lower { result.0 ≡ slice_index self.old at }
        ensures upper { result.1 ≡ slice_index self.old (at + 1) }
        ensures list { self.new ≡ remove (remove self.old at) at }
        ensures counted { AddsAtMost 0 (6 * bits (length self.old)) count.old count.new }
        ensures visited { ticked count.old.visits ≤ count.new.visits }
    {
        let mut out = (0, 0);
        let (is_out, visits) = take_two(&mut self.root, at, &mut out);
        visit_all(count, visits);
        if is_out {
            return out;
        }
        let lower = self.remove(at, count);
        let upper = self.remove(at, count);
        (lower, upper)
    }

    fn replace(&mut self, at: usize, edge: usize, count: &mut Count) -> Result<(), AllocError>
        requires { at < length self.old }
        ensures never_refused { IsOk result }
        ensures list { self.new ≡ insert (remove self.old at) at edge }
        ensures counted { AddsAtMost 0 (2 * bits (length self.old)) count.old count.new }
        ensures visited { ticked count.old.visits ≤ count.new.visits }
    {
        replace_in(&mut self.root, at, edge, count);
        Ok(())
    }

    fn split_point<F: Fn(usize) -> bool>(&self, below: &F, count: &mut Count) -> usize
        requires callable { All (F.pre below.now) self.now }
        requires splits { (point : ℕ) × IsSplit (F.post below.now) self.now point }
        ensures split { IsSplit (F.post below.now) self.now result }
        ensures counted { AddsAtMost (2 * bits (length self.now)) (2 * bits (length self.now))
            count.old count.new }
        ensures probed { 0 < length self.now → ticked count.old.probes ≤ count.new.probes }
        ensures visited { 0 < length self.now → ticked count.old.visits ≤ count.new.visits }
    {
        split_of(&self.root, below, count).point
    }

    fn split_around<F: Fn(usize) -> bool>(&self, below: &F, count: &mut Count) -> Split
        requires callable { All (F.pre below.now) self.now }
        requires splits { (point : ℕ) × IsSplit (F.post below.now) self.now point }
        ensures split { IsSplit (F.post below.now) self.now result.point }
        ensures beside { AreBeside self.now result }
        ensures counted { AddsAtMost (2 * bits (length self.now)) (2 * bits (length self.now))
            count.old count.new }
        ensures probed { 0 < length self.now → ticked count.old.probes ≤ count.new.probes }
        ensures visited { 0 < length self.now → ticked count.old.visits ≤ count.new.visits }
    {
        split_of(&self.root, below, count)
    }
}
