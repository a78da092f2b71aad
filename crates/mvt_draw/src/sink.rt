//! What takes the positions of a geometry as they are read.
ghost use Rattle.std.specs.Prelude.{◌≡◌, ◌∷◌, [], ◌++◌, IfErr, List, OnOk};
ghost use Rattle.mvt_draw.specs.Calls.Cursor.{position_of};
ghost use Rattle.mvt_plane.specs.Position.{Position, IsPosition};

use crate::commands::Cursor;
use crate::drawing::DrawFault;
use mvt_plane::Point;

/// What takes positions, one after another.
pub(crate) trait PositionSink {
    // it keeps what it takes
    ghost Keeps: { Type 0 };
    // what it took
    ghost kept: { Self → List Position };

    /// Takes one more position. Only memory is refused, and only to what keeps positions.
    fn take(&mut self, cursor: Cursor) -> Result<(), DrawFault>
        requires { IsPosition (position_of cursor) }
        ensures kept { OnOk result (Keeps
            → kept self.new ≡ kept self.old ++ position_of cursor ∷ []) }
        ensures refused { IfErr result (λ fault. (fault ≡ DrawFault.Memory) × Keeps) };
}

/// It keeps no position.
#[derive(Drop)]
pub(crate) struct Nothing;

impl PositionSink for Nothing {
    ghost Keeps = { ⊥ };

    ghost kept = { λ _. [] };

    #[inline(always)]
    fn take(&mut self, _cursor: Cursor) -> Result<(), DrawFault> {
        Ok(())
    }
}

impl PositionSink for Vec<Point> {
    ghost Keeps = { Unit {0} };

    ghost kept = { λ points. points.items };

    #[inline(always)]
    fn take(&mut self, cursor: Cursor) -> Result<(), DrawFault> {
        match Point::new(cursor.x, cursor.y) {
            Some(point) => Ok(self.push(point)?),
            None => unreachable!(),
        }
    }
}
