//! The figures of points and lines, in the walk that passes over polygons.
ghost use Rattle.std.specs.Prelude.{◌≡◌, false, IsTrue};
ghost use Rattle.mvt_plane.specs.FeatureGeometry.{HasFigure};
ghost use Rattle.mvt_rules.specs.Tile.{FeatureRecord};
ghost use Rattle.mvt_tile.specs.FeatureBytes.{Encodes};
ghost use Rattle.mvt_tile.specs.View.{kind_number};

use mvt_draw::{command_fault, draws_lines, draws_points};
use mvt_tile::{FeatureBytes, FeatureTest, Kind};

/// That the geometry of a feature of a known type draws a figure of it (Mapbox Vector Tile
/// Specification 2.1, section 4.3). Polygons aren't looked at, but that there are some is noted.
#[derive(Drop)]
pub(crate) struct FigureTest {
    pub(crate) has_polygons: bool,
}

impl FigureTest {
    /// No feature was seen.
    pub(crate) fn new() -> FigureTest
        ensures { result.has_polygons ≡ false }
    {
        FigureTest {
            has_polygons: false,
        }
    }
}

impl FeatureTest for FigureTest {
    ghost use Rattle.std.specs.Prelude.{◌≡◌, ◌⊎◌, true};
    ghost use Rattle.mvt_fault.specs.declared.profile.Profile.{Profile};
    ghost use Rattle.mvt_rules.specs.Valid.{IsValidGeometryBy};
    ghost use Rattle.mvt_plane.specs.Commands.Figure.{polygon};
    ghost use Rattle.mvt_plane.specs.FeatureGeometry.{type_number};

    ghost IsKept = { λ test it. ((profile : Profile) → IsValidGeometryBy profile it)
        ⊎ ((test.has_polygons ≡ true) × (it.kind ≡ type_number polygon)) };

    fn keeps(&mut self, feature: &FeatureBytes<'_>) -> bool {
        match feature.kind() {
            Kind::Polygon => {
                self.has_polygons = true;
                true
            }
            kind => {
                if draws_figure(kind, feature) {
                    return true;
                }
                // (by numbers of its own, so that those that were passed quickly stay in registers)
                match command_fault(kind, feature.geometry()) {
                    None => true,
                    Some(_) => false,
                }
            }
        }
    }
}

/// Whether the geometry of a feature is known to draw a figure of a kind, by a quick pass over it. False
/// may be said of any geometry, and is said of rings.
#[inline(always)]
pub(crate) fn draws_figure(kind: Kind, feature: &FeatureBytes<'_>) -> bool
    ensures { IsTrue result → (feature_record : FeatureRecord)
        → Encodes feature.now feature_record
        → HasFigure (kind_number kind) feature_record.geometry }
{
    match kind {
        Kind::Unknown => true,
        Kind::Point => draws_points(feature.geometry()),
        Kind::LineString => draws_lines(feature.geometry()),
        Kind::Polygon => false,
    }
}
