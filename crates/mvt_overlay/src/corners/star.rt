//! Which wedges are cut at a position where rings touch.

use crate::boundary::Spoke;
use crate::corners::Apart;
use crate::corners::wedge::Wedge;
use crate::lists::mark;
use mvt_plane::Point;
use mvt_segments::HalfEdge;
use std::alloc::{AllocError, Global};

/// The edges round a position: filled and empty wedges in turn, from a filled one on.
#[derive(Drop)]
pub(crate) struct Star<'a> {
    pub(crate) tip: Point,
    pub(crate) spokes: &'a [Spoke],
    /// Of each filled wedge the class of its ring: those of one class may be joined.
    pub(crate) classes: Vec<u32>,
}

/// Filled wedges of one class that follow each other, with narrow empty ones between them.
#[derive(Clone, Copy)]
struct Bunch {
    /// The first of them, counted without the empty ones.
    first: usize,
    class: u32,
    claim: Claim,
}

/// What decides which of several wedges, or bunches of wedges, is kept.
#[derive(Clone, Copy)]
struct Claim {
    /// The first wedge.
    wedge: Wedge,
    /// How many they are.
    count: usize,
    /// Whether one is half a turn or more.
    is_wide: bool,
    /// Whether a cut would take a ring away whole.
    vanishes: bool,
}

/// Wedges to be cut so that all that is filled is joined.
#[derive(Drop)]
struct Joining {
    wedges: Vec<Wedge>,
    /// Whether a lake vanishes by that.
    loses: bool,
}

impl Claim {
    /// That of one wedge.
    fn of(wedge: Wedge, vanishes: bool) -> Claim {
        Claim {
            wedge,
            count: 1,
            is_wide: !wedge.is_narrow(),
            vanishes,
        }
    }

    /// Takes in the one of a further wedge.
    fn add(&mut self, other: &Claim) {
        self.count = self.count.wrapping_add(1);
        self.is_wide |= other.is_wide;
        self.vanishes |= other.vanishes;
    }

    /// Whether this one is to be kept rather than another one.
    fn goes_before(&self, other: &Claim) -> bool {
        if self.is_wide != other.is_wide {
            return self.is_wide;
        }
        if self.vanishes != other.vanishes {
            return self.vanishes;
        }
        if self.count != other.count {
            return self.count > other.count;
        }
        self.wedge.is_wider_than(&other.wedge)
    }
}

impl<'a> Star<'a> {
    /// The wedges that are to be cut here so that rings of one class, or by `Apart::AllRings`
    /// any, don't touch any more. Where all are of one class, what is filled is joined: a lake that
    /// touches the shore stays a lake. Else what is filled is drawn apart, and by `Apart::AllRings`
    /// joined where that would take a triangle away whole. If it is `shrinking`, only filled wedges are
    /// cut, which must come to an end. The only error is that memory was refused.
    pub(crate) fn wedges_to_cut(
        &self,
        alloc: Global,
        apart: Apart,
        shrinking: bool,
        edges: &[HalfEdge],
    ) -> Result<Vec<Wedge>, AllocError> {
        if !shrinking && self.is_of_one_class() {
            return Ok(self.joining(alloc, edges)?.wedges);
        }
        let bunches = self.bunches(alloc, shrinking, edges)?;
        let kept = kept_of(alloc, apart, &bunches)?;
        if !shrinking && apart == Apart::AllRings && takes_all(&bunches, &kept) {
            let joining = self.joining(alloc, edges)?;
            if !joining.loses {
                return Ok(joining.wedges);
            }
        }
        self.parting(alloc, &bunches, &kept)
    }

    /// The wedge that begins with the spoke of this number.
    fn wedge(&self, number: usize) -> Option<Wedge> {
        let next = number.wrapping_add(1);
        let next = if next == self.spokes.len() { 0 } else { next };
        Some(Wedge {
            tip: self.tip,
            right: *self.spokes.get(number)?,
            left: *self.spokes.get(next)?,
        })
    }

    /// The filled wedge that is so many after another one, going round.
    fn filled_after(&self, first: usize, count: usize) -> usize {
        first
            .wrapping_add(count)
            .checked_rem(self.classes.len())
            .unwrap_or(0)
    }

    /// Whether all filled wedges are of one class.
    fn is_of_one_class(&self) -> bool {
        let Some(first) = self.classes.first() else {
            return true;
        };
        for class in &self.classes {
            if *class != *first {
                return false;
            }
        }
        true
    }

    /// The empty wedges, all but one: the one of half a turn or more, else one whose ring would
    /// vanish, else the widest.
    fn joining(&self, alloc: Global, edges: &[HalfEdge]) -> Result<Joining, AllocError> {
        let kept = self.kept_empty(edges);
        let mut joining = Joining {
            wedges: Vec::new(alloc),
            loses: false,
        };
        for number in 0..self.spokes.len() {
            if number % 2 == 0 || number == kept {
                continue;
            }
            if let Some(wedge) = self.wedge(number) {
                joining.loses |= wedge.vanishes(edges);
                joining.wedges.push(wedge)?;
            }
        }
        Ok(joining)
    }

    /// The number of the empty wedge that is kept where all else is joined.
    fn kept_empty(&self, edges: &[HalfEdge]) -> usize {
        let mut best: Option<(usize, Claim)> = None;
        for number in 0..self.spokes.len() {
            if number % 2 == 0 {
                continue;
            }
            let Some(wedge) = self.wedge(number) else {
                continue;
            };
            let claim = Claim::of(wedge, wedge.vanishes(edges));
            best = match best {
                Some((kept, its)) if !claim.goes_before(&its) => Some((kept, its)),
                _ => Some((number, claim)),
            };
        }
        match best {
            Some((kept, _)) => kept,
            None => 0,
        }
    }

    /// All filled wedges in bunches, going round. If it is `shrinking`, each is one by itself.
    fn bunches(
        &self,
        alloc: Global,
        shrinking: bool,
        edges: &[HalfEdge],
    ) -> Result<Vec<Bunch>, AllocError> {
        let mut bunches: Vec<Bunch> = Vec::new(alloc);
        let first = self.first_of_bunch();
        for count in 0..self.classes.len() {
            let number = self.filled_after(first, count);
            let (Some(wedge), Some(class)) = (
                self.wedge(number.wrapping_mul(2)),
                self.classes.get(number),
            ) else {
                continue;
            };
            let claim = Claim::of(wedge, !shrinking && wedge.vanishes(edges));
            match bunches.last_mut() {
                Some(last) if !shrinking && !self.begins_bunch(number) => last.claim.add(&claim),
                _ => bunches.push(Bunch {
                    first: number,
                    class: *class,
                    claim,
                })?,
            }
        }
        Ok(bunches)
    }

    /// A filled wedge that begins a bunch, or the first one.
    fn first_of_bunch(&self) -> usize {
        for number in 0..self.classes.len() {
            if self.begins_bunch(number) {
                return number;
            }
        }
        0
    }

    /// Whether the filled wedge before this one is of another class, or the empty one between them
    /// is half a turn or more.
    fn begins_bunch(&self, number: usize) -> bool {
        let before = if number == 0 {
            self.classes.len().wrapping_sub(1)
        } else {
            number - 1
        };
        if self.classes.get(before) != self.classes.get(number) {
            return true;
        }
        match self.wedge(before.wrapping_mul(2).wrapping_add(1)) {
            Some(between) => !between.is_narrow(),
            None => true,
        }
    }

    /// The wedges to be cut where some bunches are kept: the empty ones within each of these, and
    /// the filled ones of all others.
    fn parting(
        &self,
        alloc: Global,
        bunches: &[Bunch],
        kept: &[bool],
    ) -> Result<Vec<Wedge>, AllocError> {
        let mut wedges = Vec::new(alloc);
        for at in 0..bunches.len() {
            let Bunch { first, claim, .. } = bunches[at];
            if kept.get(at) == Some(&true) {
                self.add_wedges(first, claim.count.saturating_sub(1), 1, &mut wedges)?;
            } else {
                self.add_wedges(first, claim.count, 0, &mut wedges)?;
            }
        }
        Ok(wedges)
    }

    /// Adds so many filled wedges from one on, or the wedges that are `beside` them.
    fn add_wedges(
        &self,
        first: usize,
        count: usize,
        beside: usize,
        wedges: &mut Vec<Wedge>,
    ) -> Result<(), AllocError> {
        for step in 0..count {
            let filled = self.filled_after(first, step).wrapping_mul(2);
            if let Some(wedge) = self.wedge(filled.wrapping_add(beside)) {
                wedges.push(wedge)?;
            }
        }
        Ok(())
    }
}

/// Of each bunch whether it is kept: by `polygon` the best of each class, by `feature` the best.
fn kept_of(alloc: Global, apart: Apart, bunches: &[Bunch]) -> Result<Vec<bool>, AllocError> {
    let order = in_groups(alloc, apart, bunches)?;
    let mut kept = vec![in alloc; false; bunches.len()]?;
    let mut best: Option<(u32, usize)> = None;
    for at in 0..order.len() {
        let (group, number) = order[at];
        best = match best {
            Some((last, kept_one)) if last == group => {
                Some((group, better_of(bunches, kept_one, number)))
            }
            _ => {
                keep(&mut kept, best);
                Some((group, number))
            }
        };
    }
    keep(&mut kept, best);
    Ok(kept)
}

/// The numbers of bunches with their groups, of each of which one is kept, in their order.
fn in_groups(
    alloc: Global,
    apart: Apart,
    bunches: &[Bunch],
) -> Result<Vec<(u32, usize)>, AllocError> {
    let mut order = Vec::with_capacity(alloc, bunches.len())?;
    for number in 0..bunches.len() {
        let group = match apart {
            Apart::AllRings => 0,
            _ => bunches[number].class,
        };
        order.push((group, number))?;
    }
    order.sort_unstable();
    Ok(order)
}

/// The number of the bunch that is to be kept of two.
fn better_of(bunches: &[Bunch], one: usize, other: usize) -> usize {
    match (bunches.get(one), bunches.get(other)) {
        (Some(bunch), Some(its)) if its.claim.goes_before(&bunch.claim) => other,
        _ => one,
    }
}

/// Notes that the best of a group is kept.
fn keep(kept: &mut [bool], best: Option<(u32, usize)>) {
    if let Some((_, number)) = best {
        mark(kept, number);
    }
}

/// Whether a ring would vanish with a bunch that isn't kept.
fn takes_all(bunches: &[Bunch], kept: &[bool]) -> bool {
    for at in 0..bunches.len() {
        if bunches[at].claim.vanishes && kept.get(at) != Some(&true) {
            return true;
        }
    }
    false
}
