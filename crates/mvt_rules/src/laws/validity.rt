//! The laws of valid tiles and of faults that are true of bytes.

ghost use Rattle.std.specs.Prelude.{◌≡◌, ◌≢◌, ◌↔◌, ◌⊎◌, ℕ, List, ℤ};
ghost use Rattle.mvt_rules.specs.Shows.{IsFeatureIn, Shows, ShowsBy};
ghost use Rattle.mvt_rules.specs.Parts.Geometry.{IsFaultOfGeometryBy};
ghost use Rattle.mvt_rules.specs.PolygonFault.{IsMeetingBy};
ghost use Rattle.mvt_rules.specs.Valid.{AreApartBy, IsValidGeometryBy, Valid, ValidBy};
ghost use Rattle.mvt_rules.specs.Parts.Rings.{AreAllApart};
ghost use Rattle.mvt_rules.specs.Parts.TrueFaults.{IsWireFault, OneFeatureHas, BreaksRule};
ghost use Rattle.mvt_fault.specs.declared.fault.Fault.{Fault};
ghost use Rattle.mvt_fault.specs.declared.fault.Fault.TheVariants.{Wire, Ring, Meeting, Outside, HoleInHole, InPolygon};
ghost use Rattle.mvt_fault.specs.declared.profile.Profile.{Profile};
ghost use Rattle.mvt_fault.specs.declared.profile.Profile.TheVariants.{Feature};
ghost use Rattle.mvt_fault.specs.declared.ring.RingCode.{RingCode};
ghost use Rattle.mvt_fault.specs.declared.ring.RingEdge.{RingEdge};
ghost use Rattle.mvt_plane.specs.FeatureGeometry.{HasRings};
ghost use Rattle.mvt_rules.specs.Polygon.{PolygonRings, IsPolygon};
ghost use Rattle.mvt_plane.specs.Position.{Position};
ghost use Rattle.mvt_plane.specs.Geometry.RationalPoint.{RationalPoint};
ghost use Rattle.mvt_rules.specs.Ring.{ArePolygonRings};
ghost use Rattle.mvt_rules.specs.Rules.{IsFeatureOf};
ghost use Rattle.mvt_rules.specs.Tile.{FeatureRecord, LayerRecord, TileRecord, IsTile};
ghost use Rattle.mvt_wire.specs.declared.cause.WireCode.{WireCode};
ghost use Rattle.mvt_wire.specs.declared.scope.Scope.{Scope};

/// Bytes have at most one feature of the same ordinals, and a feature has at most one list of
/// rings.
pub fn one_feature()
    ensures feature { (bytes : List ℕ) (layer feature : ℕ) (layer_record other : LayerRecord)
        (feature_record other_record : FeatureRecord) →
        IsFeatureIn bytes layer feature layer_record feature_record
        → IsFeatureIn bytes layer feature other other_record
        → (layer_record ≡ other) × (feature_record ≡ other_record) }
    ensures rings { (feature_record : FeatureRecord) (first second : List (List Position)) →
        HasRings feature_record.kind feature_record.geometry first
        → HasRings feature_record.kind feature_record.geometry second → first ≡ second }
{}

/// No fault is true of a valid tile.
pub fn shown_is_invalid()
    ensures { (profile : Profile) (bytes : List ℕ) (fault : Fault) → ShowsBy profile bytes fault
        → ¬ ValidBy profile bytes }
{}

/// Bytes of which no fault is true are valid.
pub fn unshown_is_valid()
    ensures { (profile : Profile) (bytes : List ℕ)
        → ((fault : Fault) → ¬ ShowsBy profile bytes fault) → ValidBy profile bytes }
{}

/// Where a wire fault is true, no other fault is but wire faults: bytes with one are no tile.
pub fn wire_faults_alone()
    ensures { (profile : Profile) (bytes : List ℕ) (code : WireCode) (scope : Scope) (at field : ℕ)
        (fault : Fault) → ShowsBy profile bytes (Wire code scope at field) →
        ShowsBy profile bytes fault → (other : WireCode) × (other_record : Scope) × (place : ℕ)
        × (number : ℕ) × (fault ≡ Wire other other_record place number) }
{}

/// Where a ring of a feature has a fault of its own, nothing is said of the feature's polygons.
pub fn rings_before_polygons()
    ensures meeting { (profile : Profile) (bytes : List ℕ) (code : RingCode)
        (layer feature ring polygon : ℕ) (first second : RingEdge) (x y w : ℤ) →
        ShowsBy profile bytes (Ring code layer feature ring)
        → ¬ ShowsBy profile bytes (Meeting layer feature polygon first second x y w) }
    ensures outside { (profile : Profile) (bytes : List ℕ) (code : RingCode)
        (layer feature ring polygon hole vertex : ℕ) →
        ShowsBy profile bytes (Ring code layer feature ring)
        → ¬ ShowsBy profile bytes (Outside layer feature polygon hole vertex) }
    ensures hole_in_hole { (profile : Profile) (bytes : List ℕ) (code : RingCode)
        (layer feature ring polygon hole vertex other : ℕ) →
        ShowsBy profile bytes (Ring code layer feature ring)
        → ¬ ShowsBy profile bytes (HoleInHole layer feature polygon hole vertex other) }
    ensures in_polygon { (profile : Profile) (bytes : List ℕ) (code : RingCode)
        (layer feature ring polygon vertex other : ℕ) →
        ShowsBy profile bytes (Ring code layer feature ring)
        → ¬ ShowsBy profile bytes (InPolygon layer feature polygon vertex other) }
{}

/// A meeting has its edges in one order alone.
pub fn one_order_of_edges()
    ensures { (profile : Profile) (bytes : List ℕ) (layer feature polygon other_polygon : ℕ)
        (first second : RingEdge) (x y w other_x other_y other_w : ℤ) →
        ShowsBy profile bytes (Meeting layer feature polygon first second x y w) →
        ¬ ShowsBy profile bytes (Meeting layer feature other_polygon second first other_x other_y
        other_w) }
{}

/// A meeting's polygon is that of its second edge, by both profiles. Where each polygon is checked by
/// itself it is that of the first edge too.
pub fn one_polygon_of_meeting()
    ensures by_first { (bytes : List ℕ) (layer feature polygon other : ℕ)
        (first second its_first its_second : RingEdge) (x y w its_x its_y its_w : ℤ) →
        Shows bytes (Meeting layer feature polygon first second x y w) →
        Shows bytes (Meeting layer feature other its_first its_second its_x its_y its_w) →
        first.ring ≡ its_first.ring → polygon ≡ other }
    ensures by_second { (profile : Profile) (bytes : List ℕ) (layer feature polygon other : ℕ)
        (first second its_first its_second : RingEdge) (x y w its_x its_y its_w : ℤ) →
        ShowsBy profile bytes (Meeting layer feature polygon first second x y w) →
        ShowsBy profile bytes (Meeting layer feature other its_first its_second its_x its_y its_w) →
        second.ring ≡ its_second.ring → polygon ≡ other }
{}

/// A hole whose vertex is shown to be inside another isn't that other one.
pub fn another_hole()
    ensures { (profile : Profile) (bytes : List ℕ) (layer feature polygon ring vertex other : ℕ) →
        ShowsBy profile bytes (HoleInHole layer feature polygon ring vertex other) → ring ≢ other }
{}

/// A polygon whose vertex is shown to be inside another isn't that other one.
pub fn another_polygon()
    ensures { (profile : Profile) (bytes : List ℕ) (layer feature polygon vertex other : ℕ) →
        ShowsBy profile bytes (InPolygon layer feature polygon vertex other) → polygon ≢ other }
{}

/// Where each polygon is checked by itself, none is shown to be in another.
pub fn polygons_by_themselves()
    ensures { (bytes : List ℕ) (layer feature polygon vertex other : ℕ)
        → ¬ Shows bytes (InPolygon layer feature polygon vertex other) }
{}

/// The faults that are true of bytes are their wire faults and, where they are a tile, those of the
/// rules between its parts and those of its features' geometries.
pub fn shown_by_parts()
    ensures { (profile : Profile) (bytes : List ℕ) (fault : Fault) → ShowsBy profile bytes fault ↔
        (IsWireFault bytes fault ⊎ ((tile : TileRecord) × IsTile bytes tile
        × (BreaksRule tile fault ⊎ OneFeatureHas (λ layer_record.
        IsFaultOfGeometryBy profile) tile fault))) }
{}

/// Valid bytes are a tile that breaks no rule between its parts and whose features have valid
/// geometries.
pub fn valid_by_parts()
    ensures { (profile : Profile) (bytes : List ℕ) → ValidBy profile bytes ↔
        ((tile : TileRecord) × IsTile bytes tile × ((fault : Fault) → ¬ BreaksRule tile fault) ×
        ((layer feature : ℕ) (layer_record : LayerRecord) (feature_record : FeatureRecord)
        → IsFeatureOf tile layer feature layer_record feature_record
        → IsValidGeometryBy profile feature_record)) }
{}

/// In a feature no polygon has a wrong meeting exactly where no two edges of all its rings meet
/// wrongly.
pub fn all_pairs_of_a_feature()
    ensures polygons { (rings : List (List Position)) → ArePolygonRings rings →
        (((polygon : ℕ) (polygon_rings : PolygonRings) → IsPolygon rings polygon polygon_rings
        → AreApartBy Feature rings polygon_rings) ↔ AreAllApart rings) }
    ensures shown { (feature_record : FeatureRecord) (rings : List (List Position))
        → HasRings feature_record.kind feature_record.geometry rings → ArePolygonRings rings →
        (((polygon : ℕ) (first second : RingEdge) (point : RationalPoint)
        → ¬ IsMeetingBy Feature rings polygon first second point) ↔ AreAllApart rings) }
{}

/// What is wrong with a polygon by itself is wrong in its feature too.
pub fn feature_is_stricter()
    ensures shown { (bytes : List ℕ) (fault : Fault) → Shows bytes fault
        → ShowsBy Feature bytes fault }
    ensures valid { (bytes : List ℕ) → ValidBy Feature bytes → Valid bytes }
{}
