//! The first fault of the rings of one feature, and of its polygons one after another (Mapbox
//! Vector Tile Specification 2.1, section 4.3.4.4).
ghost use Rattle.std.specs.Prelude.{◌≡◌, ℕ, ◌≤◌, List, length, Some, None, IfOk, IfNone, IfSome, OnOk};
ghost use Rattle.mvt_rules.specs.PolygonFault.{IsPolygonOf};
ghost use Rattle.mvt_rules.specs.Parts.ByPolygon.{AreValidRings, IsValidPolygon};
ghost use Rattle.mvt_rules.specs.Valid.{AreValidRingsBy};
ghost use Rattle.mvt_fault.specs.declared.profile.Profile.TheVariants.{Polygon};
ghost use Rattle.mvt_plane.specs.Commands.Figure.{polygon};
ghost use Rattle.mvt_plane.specs.FeatureGeometry.{HasRings, type_number};
ghost use Rattle.mvt_sweep.specs.Rings.{rings_of, AreProperRings};
ghost use Rattle.mvt_rules.specs.Ring.{ArePolygonRings};
ghost use Rattle.mvt_gate.specs.Calls.Polygons.{IsFirstOfRings, AreValidBefore, hole_fault, meeting_fault, polygon_fault};
ghost use Rattle.mvt_gate.specs.Quick.{IsFirstOfRingsFor};

mod apart;

use crate::quick::Search;
use apart::find_apart;
use mvt_fault::{Fault, Profile, RingEdge};
use mvt_plane::{Count, Point};
use mvt_polygon::{
    Meeting, NestFault, PolygonFault, RingFault, check_polygon, check_rings, polygon_end,
};
use std::alloc::{AllocError, Global};

/// The first fault of the rings that the geometry of a feature draws, or None where they are those
/// of polygons that are valid by the profile: faults that rings have of their own come first, and
/// then those of the polygons, one polygon after another, or quickly any meeting. `layer` and
/// `feature` are the ordinals of the layer in its tile and of the feature in its layer, which the
/// fault reports. `count` counts the work, as `check_polygon` and `check_feature` do. The only error
/// is that memory was refused.
pub fn rings_fault(
    alloc: Global,
    search: Search,
    profile: Profile,
    rings: &[Vec<Point>],
    count: &mut Count,
    layer: usize,
    feature: usize,
) -> Result<Option<Fault>, AllocError>
    requires { (numbers : List ℕ) × HasRings (type_number polygon) numbers (rings_of rings.now) }
    ensures valid { IfOk result (λ found.
        IfNone found (AreValidRingsBy profile (rings_of rings.now))) }
    ensures found { IfOk result (λ found.
        IfSome found (IsFirstOfRingsFor search profile (rings_of rings.now) layer feature)) }
{
    let mut found = None;
    find_in_rings(
        alloc, search, profile, rings, count, layer, feature, &mut found,
    )?;
    Ok(found)
}

/// The same, stored in `found`, which is None before. (A fault is large, so as an answer it would be
/// copied at each call, and its room cleared, for valid rings too.)
pub(crate) fn find_in_rings(
    alloc: Global,
    search: Search,
    profile: Profile,
    rings: &[Vec<Point>],
    count: &mut Count,
    layer: usize,
    feature: usize,
    found: &mut Option<Fault>,
) -> Result<(), AllocError>
    requires nothing { found.old ≡ None }
    requires drawn { (numbers : List ℕ)
        × HasRings (type_number polygon) numbers (rings_of rings.now) }
    ensures valid { OnOk result (IfNone found.new (AreValidRingsBy profile (rings_of rings.now))) }
    ensures found { OnOk result (IfSome found.new
        (IsFirstOfRingsFor search profile (rings_of rings.now) layer feature)) }
{
    if let Some(fault) = check_rings(rings) {
        store_ring(found, fault, layer, feature);
        return Ok(());
    }
    match profile {
        Profile::Polygon => find_in_polygons(alloc, rings, count, layer, feature, found),
        Profile::Feature => find_apart(alloc, search, rings, count, layer, feature, found),
    }
}

/// Stores a fault of a ring. (A fault has room of its own where it is made, which the caller doesn't pay
/// for so.)
#[cold]
#[inline(never)]
fn store_ring(found: &mut Option<Fault>, fault: RingFault, layer: usize, feature: usize)
    ensures { found.new ≡ Some (Fault.Ring fault.code layer feature fault.ring) }
{
    *found = Some(Fault::Ring {
        code: fault.code,
        layer,
        feature,
        ring: fault.ring,
    });
}

/// The first fault of the polygons of a feature, one after another, or None where each of them is
/// valid by itself. No ring has a fault of its own.
fn find_in_polygons(
    alloc: Global,
    rings: &[Vec<Point>],
    count: &mut Count,
    layer: usize,
    feature: usize,
    found: &mut Option<Fault>,
) -> Result<(), AllocError>
    requires nothing { found.old ≡ None }
    requires sound { ArePolygonRings (rings_of rings.now) }
    requires drawn { AreProperRings (rings_of rings.now) }
    ensures valid { OnOk result (IfNone found.new (AreValidRings (rings_of rings.now))) }
    ensures least { OnOk result (IfSome found.new
        (IsFirstOfRings Polygon (rings_of rings.now) layer feature)) }
{
    let mut polygon = 0;
    let mut exterior = 0;
    'polygons: while exterior < rings.len() {
        let after = polygon_end(rings, exterior);
        let place = PolygonPlace {
            layer,
            feature,
            polygon,
        };
        find_in_polygon(alloc, rings, exterior, after, count, place, found)?;
        if found.is_some() {
            return Ok(());
        }
        exterior = after;
        polygon += 1;
    }
    Ok(())
}

/// Where a polygon is: the ordinals that its faults report.
#[derive(Clone, Copy)]
struct PolygonPlace {
    /// The ordinal of the layer in the tile.
    layer: usize,
    /// The ordinal of the feature in its layer.
    feature: usize,
    /// The ordinal of the polygon in the feature.
    polygon: usize,
}

/// Stores the first fault of one polygon of a feature, which has the rings from its exterior up to the
/// one after its last; or nothing where it is valid by itself: edges that meet wrongly, and then the
/// holes. The polygons before it are valid.
fn find_in_polygon(
    alloc: Global,
    rings: &[Vec<Point>],
    exterior: usize,
    after: usize,
    count: &mut Count,
    place: PolygonPlace,
    found: &mut Option<Fault>,
) -> Result<(), AllocError>
    requires nothing { found.old ≡ None }
    requires polygon { IsPolygonOf (rings_of rings.now) place.polygon
        (record { exterior = exterior; after = after }) }
    requires within { after ≤ length rings.now }
    requires drawn { AreProperRings (rings_of rings.now) }
    requires before { AreValidBefore Polygon (rings_of rings.now) place.polygon }
    ensures valid { OnOk result (IfNone found.new (IsValidPolygon (rings_of rings.now)
        (record { exterior = exterior; after = after }))) }
    ensures least { OnOk result (IfSome found.new
        (IsFirstOfRings Polygon (rings_of rings.now) place.layer place.feature)) }
{
    if let Some(fault) = check_polygon(alloc, rings, exterior, after, count)? {
        store_fault(found, place, fault);
    }
    Ok(())
}

/// Stores a fault of a polygon.
#[cold]
#[inline(never)]
fn store_fault(found: &mut Option<Fault>, place: PolygonPlace, fault: PolygonFault)
    ensures { found.new ≡ Some (polygon_fault place fault) }
{
    *found = Some(match fault {
        PolygonFault::Meeting(meeting) => meeting_fault(place, meeting),
        PolygonFault::Nesting(fault) => hole_fault(place, fault),
    });
}

/// The fault of a meeting of the polygon.
fn meeting_fault(place: PolygonPlace, meeting: Meeting) -> Fault
    ensures { result ≡ meeting_fault place meeting }
{
    Fault::Meeting {
        layer: place.layer,
        feature: place.feature,
        polygon: place.polygon,
        first: RingEdge {
            ring: meeting.first_ring,
            edge: meeting.first_edge,
        },
        second: RingEdge {
            ring: meeting.second_ring,
            edge: meeting.second_edge,
        },
        x: meeting.point.x(),
        y: meeting.point.y(),
        w: meeting.point.w(),
    }
}

/// The fault of a hole of the polygon.
fn hole_fault(place: PolygonPlace, fault: NestFault) -> Fault
    ensures { result ≡ hole_fault place fault }
{
    match fault {
        NestFault::Outside { ring, vertex } => Fault::Outside {
            layer: place.layer,
            feature: place.feature,
            polygon: place.polygon,
            ring,
            vertex,
        },
        NestFault::InHole {
            ring,
            vertex,
            other,
        } => Fault::HoleInHole {
            layer: place.layer,
            feature: place.feature,
            polygon: place.polygon,
            ring,
            vertex,
            other,
        },
    }
}
