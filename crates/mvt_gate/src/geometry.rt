//! The rule on the geometry of features.
ghost use Rattle.std.specs.Prelude.{◌≡◌, Some, None, IfOk, IfNone, IfSome, OnOk};
ghost use Rattle.mvt_rules.specs.Parts.Geometry.{IsFaultOfGeometryBy};
ghost use Rattle.mvt_rules.specs.Valid.{IsValidGeometryBy};
ghost use Rattle.mvt_fault.specs.declared.fault.Fault.{Fault};
ghost use Rattle.mvt_fault.specs.declared.profile.Profile.{Profile};
ghost use Rattle.mvt_fault.specs.declared.profile.Profile.TheVariants as profiles;
ghost use Rattle.mvt_plane.specs.Commands.Figure.{polygon};
ghost use Rattle.mvt_plane.specs.FeatureGeometry.{type_number};
ghost use Rattle.mvt_tile.specs.FeatureBytes.{Encodes};
ghost use Rattle.mvt_tile.specs.FreeFaults.{IsLeastOr};
ghost use Rattle.mvt_rules.specs.Tile.{FeatureRecord};
ghost use Rattle.mvt_gate.specs.Quick.{IsFreeFor};
ghost use Rattle.mvt_gate.specs.declared.quick.Search.TheVariants as searches;

use crate::figures::draws_figure;
use crate::polygons::find_in_rings;
use crate::quick::Search;
use mvt_draw::{DrawFault, RingBuffer, command_fault};
use mvt_fault::{CommandCode, Fault, Profile};
use mvt_plane::Count;
use mvt_tile::{FeatureBytes, FeatureRule, Kind};
use std::alloc::{AllocError, Global};

/// That the geometry of a feature of a known type draws a figure of it (Mapbox Vector Tile
/// Specification 2.1, section 4.3), and rings those of polygons that are valid by a profile
/// (section 4.3.4.4). It serves one feature after another.
#[derive(Drop)]
struct GeometryRule {
    /// Room for the rings of one feature.
    rings: RingBuffer,
    /// What the search for meetings counts of its work.
    count: Count,
}

impl GeometryRule {
    /// A rule that has served no feature. It takes no memory.
    fn new(alloc: Global) -> GeometryRule {
        GeometryRule {
            rings: RingBuffer::new(alloc),
            count: Count::new(),
        }
    }

    /// Stores the first fault of a feature's geometry by the profile, or quickly any meeting of its
    /// edges, in `found`, which is None before, and stays so where the geometry is valid. The only
    /// error is that memory was refused.
    fn find_fault_by(
        &mut self,
        alloc: Global,
        search: Search,
        profile: Profile,
        feature: &FeatureBytes<'_>,
        layer: usize,
        ordinal: usize,
        found: &mut Option<Fault>,
    ) -> Result<(), AllocError>
        requires { found.old ≡ None }
        ensures none { IfOk result (λ _. IfNone found.new ((it : FeatureRecord)
            → Encodes feature.now it → (fault : Fault)
            → ¬ IsFaultOfGeometryBy profile it layer ordinal fault)) }
        ensures kept { IfOk result (λ _. IfNone found.new ((it : FeatureRecord)
            → Encodes feature.now it → IsValidGeometryBy profile it)) }
        ensures found { IfOk result (λ _. IfSome found.new (λ fault. (it : FeatureRecord)
            → Encodes feature.now it
            → IsLeastOr (IsFreeFor search profile)
            (IsFaultOfGeometryBy profile it layer ordinal) fault)) }
    {
        match feature.kind() {
            Kind::Polygon => {
                self.find_in_polygons(alloc, search, profile, feature, layer, ordinal, found)
            }
            kind => {
                // (so it is with most points and lines)
                if draws_figure(kind, feature) {
                    return Ok(());
                }
                if let Some((code, index)) = command_fault(kind, feature.geometry()) {
                    store_command(found, code, layer, ordinal, index);
                }
                Ok(())
            }
        }
    }

    /// The same of a feature of the type of polygons. (By itself, so that points and lines, which need
    /// little room, don't pay for its locals.)
    #[inline(never)]
    fn find_in_polygons(
        &mut self,
        alloc: Global,
        search: Search,
        profile: Profile,
        feature: &FeatureBytes<'_>,
        layer: usize,
        ordinal: usize,
        found: &mut Option<Fault>,
    ) -> Result<(), AllocError>
        requires nothing { found.old ≡ None }
        requires kind { (it : FeatureRecord) → Encodes feature.now it
            → it.kind ≡ type_number polygon }
        ensures kept { OnOk result (IfNone found.new ((it : FeatureRecord)
            → Encodes feature.now it → IsValidGeometryBy profile it)) }
        ensures found { OnOk result (IfSome found.new (λ fault. (it : FeatureRecord)
            → Encodes feature.now it
            → IsLeastOr (IsFreeFor search profile)
            (IsFaultOfGeometryBy profile it layer ordinal) fault)) }
    {
        match self.rings.draw(alloc, feature.geometry()) {
            Ok(()) => find_in_rings(
                alloc,
                search,
                profile,
                self.rings.rings(),
                &mut self.count,
                layer,
                ordinal,
                found,
            ),
            Err(DrawFault::Command { code, index }) => {
                store_command(found, code, layer, ordinal, index);
                Ok(())
            }
            Err(DrawFault::Memory) => Err(AllocError),
        }
    }
}

/// Stores a fault of a feature's commands. (A fault has room of its own where it is made, which the
/// caller doesn't pay for so.)
#[cold]
#[inline(never)]
fn store_command(
    found: &mut Option<Fault>,
    code: CommandCode,
    layer: usize,
    feature: usize,
    index: usize,
)
    ensures { found.new ≡ Some (Fault.Command code layer feature index) }
{
    *found = Some(Fault::Command {
        code,
        layer,
        feature,
        index,
    });
}

/// The rule by the profile that checks each polygon by itself.
#[derive(Drop)]
pub(crate) struct PolygonGeometry {
    rule: GeometryRule,
}

impl PolygonGeometry {
    /// A rule that has served no feature. It takes no memory.
    pub(crate) fn new(alloc: Global) -> PolygonGeometry {
        PolygonGeometry {
            rule: GeometryRule::new(alloc),
        }
    }
}

impl FeatureRule for PolygonGeometry {
    ghost IsBroken = { IsFaultOfGeometryBy profiles.Polygon };

    ghost IsFree = { IsFreeFor searches.Least profiles.Polygon };

    ghost IsKept = { IsValidGeometryBy profiles.Polygon };

    fn find_fault(
        &mut self,
        alloc: Global,
        feature: &FeatureBytes<'_>,
        layer: usize,
        ordinal: usize,
        found: &mut Option<Fault>,
    ) -> Result<(), AllocError> {
        let search = Search::Least;
        self.rule.find_fault_by(
            alloc,
            search,
            Profile::Polygon,
            feature,
            layer,
            ordinal,
            found,
        )
    }
}

/// The rule by the profile that keeps the polygons of a feature apart.
#[derive(Drop)]
pub(crate) struct FeatureGeometry {
    rule: GeometryRule,
}

impl FeatureGeometry {
    /// A rule that has served no feature. It takes no memory.
    pub(crate) fn new(alloc: Global) -> FeatureGeometry {
        FeatureGeometry {
            rule: GeometryRule::new(alloc),
        }
    }
}

impl FeatureRule for FeatureGeometry {
    ghost IsBroken = { IsFaultOfGeometryBy profiles.Feature };

    ghost IsFree = { IsFreeFor searches.Least profiles.Feature };

    ghost IsKept = { IsValidGeometryBy profiles.Feature };

    fn find_fault(
        &mut self,
        alloc: Global,
        feature: &FeatureBytes<'_>,
        layer: usize,
        ordinal: usize,
        found: &mut Option<Fault>,
    ) -> Result<(), AllocError> {
        let search = Search::Least;
        self.rule.find_fault_by(
            alloc,
            search,
            Profile::Feature,
            feature,
            layer,
            ordinal,
            found,
        )
    }
}

/// The same rule, of which any meeting may be found in place of a feature's first fault.
#[derive(Drop)]
pub(crate) struct QuickGeometry {
    rule: GeometryRule,
}

impl QuickGeometry {
    /// A rule that has served no feature. It takes no memory.
    pub(crate) fn new(alloc: Global) -> QuickGeometry {
        QuickGeometry {
            rule: GeometryRule::new(alloc),
        }
    }
}

impl FeatureRule for QuickGeometry {
    ghost IsBroken = { IsFaultOfGeometryBy profiles.Feature };

    ghost IsFree = { IsFreeFor searches.Quick profiles.Feature };

    ghost IsKept = { IsValidGeometryBy profiles.Feature };

    fn find_fault(
        &mut self,
        alloc: Global,
        feature: &FeatureBytes<'_>,
        layer: usize,
        ordinal: usize,
        found: &mut Option<Fault>,
    ) -> Result<(), AllocError> {
        let search = Search::Quick;
        self.rule.find_fault_by(
            alloc,
            search,
            Profile::Feature,
            feature,
            layer,
            ordinal,
            found,
        )
    }
}
