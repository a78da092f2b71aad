//! A search by halves for the split of a list.
ghost use Rattle.std.specs.Prelude.{◌≡◌, ℕ, ◌-◌, ◌≤◌, suc, All, length};
ghost use Rattle.mvt_status.specs.Counts.{AddsAtMost, bits, raised};
ghost use Rattle.mvt_status.specs.Split.{IsSplit};

use mvt_plane::Count;

/// How many edges are at the front of the list of which `below` is true, where it is false of all
/// others. Ticks a probe for each edge that it checks: at most one for each binary digit of the
/// list's length, and at least one less than the next number has digits.
#[inline]
pub(crate) fn split_in<F: Fn(usize) -> bool>(edges: &[usize], below: &F, count: &mut Count) -> usize
    requires callable { All (F.pre below.now) edges.now }
    requires splits { (point : ℕ) × IsSplit (F.post below.now) edges.now point }
    ensures split { IsSplit (F.post below.now) edges.now result }
    ensures counted { AddsAtMost (bits (length edges.now)) 0 count.old count.new }
    ensures probed { raised (bits (suc (length edges.now)) - 1) count.old.probes
        ≤ count.new.probes }
{
    let mut checked: u64 = 0;
    let mut from = 0;
    let mut to = edges.len();
    'halves: while from < to {
        let middle = from + (to - from) / 2;
        checked += 1;
        if below(edges[middle]) {
            from = middle + 1;
        } else {
            to = middle;
        }
    }
    probe_all(count, checked);
    from
}

/// Counts so many probes.
#[inline(always)]
fn probe_all(count: &mut Count, many: u64)
    ensures counted { AddsAtMost many 0 count.old count.new }
    ensures probed { count.new.probes ≡ raised many count.old.probes }
{
    count.tick_probes(many);
}
