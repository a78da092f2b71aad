//! The law that a common point of two edges is named (section 4.3.4.4).

ghost use Rattle.std.specs.Prelude.{Option, Some};
ghost use Rattle.mvt_plane.specs.Geometry.CommonPoint.{IsCommon, IsNamed};
ghost use Rattle.mvt_plane.specs.Position.{Position};
ghost use Rattle.mvt_plane.specs.Geometry.RationalPoint.{RationalPoint};
ghost use Rattle.mvt_plane.specs.declared.geometry.edge.Edge.{Edge};

/// Where two edges have a common point, one is named.
pub fn common_is_named()
    ensures { (shared : Option Position) (first second : Edge) (point : RationalPoint)
        → IsCommon shared first second point →
        (named : RationalPoint) × IsNamed shared first second (Some named) }
{}
