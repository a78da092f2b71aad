//! A sweep that finds edges that meet wrongly: a line goes over the plane from vertex to vertex,
//! and of all edges only those are tested that become neighbours along it.
ghost use Rattle.std.specs.Prelude.{◌≡◌, ◌+◌, ◌*◌, List, IfNone, IfSome, IfOk, [], length};
ghost use Rattle.std.specs.List.{count_by};
ghost use Rattle.mvt_plane.specs.Position.{Position};
ghost use Rattle.mvt_sweep.specs.Work.{AddsWork, IsCounted};
ghost use Rattle.mvt_sweep.specs.Calls.VertexOrder.{IsOrder, IsStrict};
ghost use Rattle.mvt_sweep.specs.Calls.SweepVertices.{IsMeetingAt, NoneWrong, sweep_count, is_turn_at};
ghost use Rattle.mvt_sweep.specs.Calls.Steps.{AtFirst, AtLast};
ghost use Rattle.mvt_status.specs.Counts.{bits};

mod begin;
mod chains;
mod event;
mod heights;
mod key_parts;
mod listing;
mod neighbors;
mod notes;
mod order;
mod parts;
mod place;
mod ring_index;
mod step;
mod swept;
mod vertex;
mod vertices;

use crate::sweep::chains::Chains;
use crate::sweep::notes::Notes;
use crate::sweep::step::{Step, go_over};
pub(crate) use listing::{FEW_VERTICES, FewVertices, list_few, list_of};
use mvt_plane::Count;
use mvt_status::Status;
pub(crate) use notes::NoNotes;
pub use notes::RingNotes;
use std::alloc::{AllocError, Global};
pub(crate) use swept::sweep_over;
pub use swept::{Swept, sweep_rings};
pub(crate) use vertices::{Pair, SweepVertices};

/// Goes over all vertices in their order, with notes of each. No two of them are at one position,
/// and the status is empty at the call. The only error is that memory was refused.
fn sweep<S: Status, N: Notes>(
    alloc: Global,
    vertices: &SweepVertices,
    order: &[u32],
    notes: &mut N,
    status: &mut S,
    count: &mut Count,
) -> Result<Option<Pair>, AllocError>
    requires order { IsOrder vertices.now order.now }
    requires strict { IsStrict vertices.now order.now }
    requires empty { S.edges status.old ≡ [] }
    requires noted { (rings : List (List Position))
        × AtFirst vertices.now (λ key. N.are_noted rings vertices.now key notes.old) }
    ensures none { IfOk result (λ found. IfNone found (NoneWrong vertices.now)) }
    ensures some { IfOk result (λ found. IfSome found (IsMeetingAt vertices.now)) }
    ensures noted { IfOk result (λ found. IfNone found ((rings : List (List Position))
        → AtFirst vertices.now (λ key. N.are_noted rings vertices.now key notes.old)
        → AtLast vertices.now (λ key. N.are_noted rings vertices.now key notes.new))) }
    ensures counted { let turns = count_by (is_turn_at vertices.now) order.now in
        AddsWork (2 * length order.now) (length order.now + turns *
        (2 * bits (sweep_count vertices.now))) (turns * (12 * bits (sweep_count vertices.now)))
        count.old count.new }
    ensures least { IfOk result (IsCounted (length order.now) count.old count.new) }
{
    let mut chains = Chains::new(alloc, vertices)?;
    for at in 0..order.len() {
        let number = order[at] as usize;
        let begun = match go_over(vertices, number, &mut chains, status, count)? {
            Step::Meets(pair) => return Ok(Some(pair)),
            Step::Begins(place) => Some(place),
            Step::Ends => None,
        };
        notes.pass(vertices, number, begun)?;
    }
    Ok(None)
}
