//! The vertices of rings in one list, each with the edge that begins in it.
ghost use Rattle.std.specs.Prelude.{◌<◌, ◌^◌, length};
ghost use Rattle.mvt_sweep.specs.Calls.Links.{AreLinked};

use crate::sweep::heights::heights_apart;
use crate::sweep::vertex::SweepVertex;
use mvt_plane::{Count, Edge, Hpoint, Point, common, sweep_key};

/// Two edges that meet wrongly, by their numbers, the lesser one first.
#[derive(Clone, Copy)]
pub(crate) struct Pair {
    pub(crate) first: usize,
    pub(crate) second: usize,
}

/// The vertices of rings, ring by ring: next and previous lead round in each. Their list is lent.
#[derive(Clone, Copy)]
pub(crate) struct SweepVertices<'a> {
    list: &'a [SweepVertex],
    ghost linked: { AreLinked list.now },
    ghost few: { length list.now < 2 ^ 32 },
}

impl<'a> SweepVertices<'a> {
    ghost use Rattle.std.specs.Prelude.{◌≡◌, ◌≢◌, ◌<◌, IfNone, IfSome};
    ghost use Rattle.mvt_plane.specs.Counted.{ticked};
    ghost use Rattle.mvt_plane.specs.Geometry.Measure.{key_of};
    ghost use Rattle.mvt_sweep.specs.Work.{AddsWork};
    ghost use Rattle.mvt_sweep.specs.Calls.SweepVertices.{IsMeetingAt, IsPointOf, sweep_count, edge_at, is_first_at, next_at, plan_of, position_at, previous_at, shared_at};
    ghost use Rattle.mvt_sweep.specs.Calls.Sweep.{Tested};

    /// The vertices of a list.
    #[inline]
    pub(crate) fn new(list: &'a [SweepVertex]) -> SweepVertices<'a>
        requires linked { AreLinked list.now }
        requires few { length list.now < 2 ^ 32 }
        ensures { result.list.now ≡ list.now }
    {
        SweepVertices { list }
    }

    /// How many there are.
    #[inline]
    pub(crate) fn len(&self) -> usize
        ensures { result ≡ sweep_count self.now }
    {
        self.list.len()
    }

    /// Where the vertex of this number is.
    #[inline]
    pub(crate) fn position(&self, number: usize) -> &'a Point
        requires { number < sweep_count self.now }
        ensures { result.now ≡ position_at self.now number }
    {
        &self.list[number].position
    }

    /// The place of the vertex of this number in the order of the sweep.
    #[inline]
    pub(crate) fn key(&self, number: usize) -> i64
        requires { number < sweep_count self.now }
        ensures { result ≡ key_of (position_at self.now number) }
    {
        sweep_key(*self.position(number))
    }

    /// Whether the vertex of this number is the first of its ring: its far end comes after it.
    #[inline]
    pub(crate) fn is_first(&self, number: usize) -> bool
        requires { number < sweep_count self.now }
        ensures { result ≡ is_first_at self.now number }
    {
        number < self.list[number].far_end as usize
    }

    /// The number of the vertex after this one in its ring, where its edge ends.
    #[inline]
    pub(crate) fn next(&self, number: usize) -> usize
        requires { number < sweep_count self.now }
        ensures value { result ≡ next_at self.now number }
        ensures within { result < sweep_count self.now }
    {
        let far_end = self.list[number].far_end as usize;
        if far_end < number {
            far_end
        } else {
            number + 1
        }
    }

    /// The number of the vertex before this one in its ring, whose edge ends in it.
    #[inline]
    pub(crate) fn previous(&self, number: usize) -> usize
        requires { number < sweep_count self.now }
        ensures value { result ≡ previous_at self.now number }
        ensures within { result < sweep_count self.now }
    {
        let far_end = self.list[number].far_end as usize;
        if number < far_end {
            far_end
        } else {
            number - 1
        }
    }

    /// The edge that begins in the vertex of this number.
    #[inline]
    pub(crate) fn edge(&self, number: usize) -> Edge
        requires { number < sweep_count self.now }
        ensures { result ≡ edge_at self.now number }
    {
        Edge {
            a: *self.position(number),
            b: *self.position(self.next(number)),
        }
    }

    /// The wrong meeting of two different edges, if they have one: one test, of the edges in the
    /// order of their numbers. Most neighbours along a line are apart by their heights alone.
    #[inline]
    pub(crate) fn meeting(&self, one: usize, other: usize, count: &mut Count) -> Option<Pair>
        requires one { one < sweep_count self.now }
        requires other { other < sweep_count self.now }
        requires differ { one ≢ other }
        ensures none { IfNone result (Tested (plan_of self.now) one other
            × Tested (plan_of self.now) other one) }
        ensures some { IfSome result (IsMeetingAt self.now) }
        ensures counted { AddsWork 1 0 0 count.old count.new }
        ensures tested { count.new.tests ≡ ticked count.old.tests }
    {
        if heights_apart(&self.edge(one), &self.edge(other)) {
            count.tick_test();
            return None;
        }
        if one < other {
            self.meeting_in_order(one, other, count)
        } else {
            self.meeting_in_order(other, one, count)
        }
    }

    /// The same, where the first comes before the second, by their points alone. (A sweep hands the
    /// answer from call to call at each vertex, so it doesn't hold the point, which is large.)
    #[inline(never)]
    fn meeting_in_order(&self, first: usize, second: usize, count: &mut Count) -> Option<Pair>
        requires in_order { first < second }
        requires known { second < sweep_count self.now }
        ensures none { IfNone result (Tested (plan_of self.now) first second) }
        ensures some { IfSome result (IsMeetingAt self.now) }
        ensures counted { AddsWork 1 0 0 count.old count.new }
        ensures tested { count.new.tests ≡ ticked count.old.tests }
    {
        self.point_in_order(first, second, count)?;
        Some(Pair { first, second })
    }

    /// The point of such a meeting, as `common` names it for the first and the second edge.
    #[inline(always)]
    pub(crate) fn point_in_order(
        &self,
        first: usize,
        second: usize,
        count: &mut Count,
    ) -> Option<Hpoint>
        requires in_order { first < second }
        requires known { second < sweep_count self.now }
        ensures none { IfNone result (Tested (plan_of self.now) first second) }
        ensures some { IfSome result (IsPointOf self.now first second) }
        ensures counted { AddsWork 1 0 0 count.old count.new }
        ensures tested { count.new.tests ≡ ticked count.old.tests }
    {
        let shared = self.shared(first, second);
        common(self.edge(first), self.edge(second), shared, count)
    }

    /// The vertex that two edges share as neighbours in a ring.
    fn shared(&self, first: usize, second: usize) -> Option<Point>
        requires first { first < sweep_count self.now }
        requires second { second < sweep_count self.now }
        ensures { result ≡ shared_at self.now first second }
    {
        if self.next(first) == second {
            return Some(*self.position(second));
        }
        if self.next(second) == first {
            return Some(*self.position(first));
        }
        None
    }
}
